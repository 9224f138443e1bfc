//! The digest of a tree.
ghost use Rattle.std.specs.Prelude.{◌≡◌, ◌<◌, ◌++◌, length};
ghost use Rattle.sha2.specs.Sha256.{sha256};
ghost use Rattle.listing.specs.Digest.{digest_text, line, package_lines, path_lines};
ghost use Rattle.listing.specs.Tree.{ArePositions, package_at};
ghost use Rattle.listing.specs.inside.Hashing.{Takes};

use crate::tree::Tree;
use sha2::{Digest, Sha256};

impl Tree {
    /// SHA-256 (FIPS 180-4) of the tree as lines, each ended by LF. For each package, by position:
    /// `P PATH`, `N NAME`, `X` if it is marked, then `B PATH` for each build dependency and `R
    /// PATH` for each run dependency, by position. Then, for each group of two or more packages, in
    /// the order of lowest positions: `G PATH`, the path that names the group.
    #[tactic(auto, unfolding(crate::specs::Digest::digest_text))]
    pub fn digest(&self) -> [u8; 32]
        ensures { result ≡ sha256 (digest_text self.now) }
    {
        let mut hasher = Sha256::new();
        for position in 0..self.len() {
            put_package(&mut hasher, self, position);
        }
        self.groups().put_lines(&mut hasher);
        hasher.finalize()
    }
}

/// Feeds the lines of a package to the hasher.
fn put_package(hasher: &mut Sha256, tree: &Tree, position: u32)
    requires { position < length tree.now }
    ensures { Takes hasher.old hasher.new (package_lines tree.now (package_at tree.now position)) }
{
    put(hasher, b"P ", tree.path(position).as_bytes());
    put(hasher, b"N ", tree.name(position).as_bytes());
    if tree.marked(position) {
        put(hasher, b"X", b"");
    }
    put_paths(hasher, b"B ", tree, tree.build_deps(position));
    put_paths(hasher, b"R ", tree, tree.run_deps(position));
}

/// Feeds a line for each position: the word, then the path at the position.
fn put_paths(hasher: &mut Sha256, word: &[u8], tree: &Tree, positions: &[u32])
    requires { ArePositions tree.now positions.now }
    ensures { Takes hasher.old hasher.new (path_lines tree.now word.now positions.now) }
{
    for position in positions {
        put(hasher, word, tree.path(*position).as_bytes());
    }
}

/// Feeds a line: the word, then the bytes.
pub fn put(hasher: &mut Sha256, word: &[u8], bytes: &[u8])
    ensures { Takes hasher.old hasher.new (line (word.now ++ bytes.now)) }
{
    hasher.update(word);
    hasher.update(bytes);
    hasher.update(b"\n");
}
