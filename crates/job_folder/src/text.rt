//! The texts of tasks and of jobs.
ghost use Rattle.std.specs.Prelude.{◌≡◌, ◌++◌, [], ◌∷◌, IfOk, OnOk, codes, flat_map, map};
ghost use Rattle.package_record.specs.Content.{built_line, claim_line, ended};
ghost use Rattle.job_folder.specs.Tasks.{host_line, job_text, package_line, task_of, task_text, tree_line};

use claims::{Claim, Dep, Job};
use faults::Memory;
use itoa::Buffer;
use package_record::digest_text;
use pkgpath::PkgPath;
use std::alloc::Global;

/// The text of a job's task in a tree of this digest: the tree, the unit, its packages, and what
/// they are built on. It is the same for all claims of the unit on the same signatures, at all
/// nodes of a run over the tree.
pub fn task_text(alloc: Global, tree: &[u8; 32], job: &Job) -> Result<Vec<u8>, Memory>
    ensures { IfOk result (λ text. text.items ≡ task_text tree.now (task_of job.now)) }
{
    let mut text = Vec::new(alloc);
    put_tree(&mut text, tree)?;
    put_unit(&mut text, &job.path)?;
    put_packages(&mut text, job.packages())?;
    put_signatures(&mut text, job.deps().as_slice())?;
    Ok(text)
}

/// The text of a job: that of its task, followed by the host and the claim that it is given for.
pub fn job_text(alloc: Global, tree: &[u8; 32], job: &Job) -> Result<Vec<u8>, Memory>
    ensures { IfOk result (λ text. text.items ≡ job_text tree.now job.now) }
{
    let mut text = task_text(alloc, tree, job)?;
    put_host(&mut text, job.host)?;
    put_claim(&mut text, job.claim)?;
    Ok(text)
}

/// Appends a line made of these parts.
#[tactic(auto, unfolding(package_record::specs::Content::ended))]
fn put_line(out: &mut Vec<u8>, parts: &[&[u8]]) -> Result<(), Memory>
    ensures { OnOk result
        (out.new.items ≡ out.old.items ++ ended (flat_map (λ part. part.now) parts.now ∷ [])) }
{
    for part in parts {
        out.extend_from_slice(part)?;
    }
    out.push(b'\n')?;
    Ok(())
}

/// Appends a line made of a word and its text.
fn put_field(out: &mut Vec<u8>, word: &[u8], text: &[u8]) -> Result<(), Memory>
    ensures { OnOk result (out.new.items ≡ out.old.items ++ ended ((word.now ++ text.now) ∷ [])) }
{
    put_line(out, &[word, text])
}

fn put_tree(out: &mut Vec<u8>, tree: &[u8; 32]) -> Result<(), Memory>
    ensures { OnOk result (out.new.items ≡ out.old.items ++ ended (tree_line tree.now ∷ [])) }
{
    let digest = digest_text(tree);
    put_field(out, b"@tree ", &digest)
}

fn put_unit(out: &mut Vec<u8>, path: &PkgPath) -> Result<(), Memory>
    ensures { OnOk result
        (out.new.items ≡ out.old.items ++ ended ((codes "@unit " ++ path.now) ∷ [])) }
{
    put_field(out, b"@unit ", path.as_bytes())
}

fn put_package(out: &mut Vec<u8>, path: &PkgPath) -> Result<(), Memory>
    ensures { OnOk result (out.new.items ≡ out.old.items ++ ended (package_line path.now ∷ [])) }
{
    put_field(out, b"@package ", path.as_bytes())
}

fn put_packages(out: &mut Vec<u8>, paths: &[PkgPath]) -> Result<(), Memory>
    ensures { OnOk result
        (out.new.items ≡ out.old.items ++ ended (map package_line paths.now)) }
{
    for path in paths {
        put_package(out, path)?;
    }
    Ok(())
}

fn put_signature(out: &mut Vec<u8>, signature: &Dep) -> Result<(), Memory>
    ensures { OnOk result
        (out.new.items ≡ out.old.items ++ ended (built_line signature.now ∷ [])) }
{
    let digest = digest_text(&signature.digest);
    let name = signature.name.as_bytes();
    let parts = [
        b"@built ".as_slice(),
        signature.path.as_bytes(),
        b" ",
        name,
        b" ",
        &digest,
    ];
    put_line(out, &parts)
}

fn put_signatures(out: &mut Vec<u8>, signatures: &[Dep]) -> Result<(), Memory>
    ensures { OnOk result
        (out.new.items ≡ out.old.items ++ ended (map built_line signatures.now)) }
{
    for signature in signatures {
        put_signature(out, signature)?;
    }
    Ok(())
}

fn put_host(out: &mut Vec<u8>, host: u16) -> Result<(), Memory>
    ensures { OnOk result (out.new.items ≡ out.old.items ++ ended (host_line host ∷ [])) }
{
    let mut text = Buffer::new();
    put_field(out, b"@host ", text.format(host).as_bytes())
}

fn put_claim(out: &mut Vec<u8>, claim: Claim) -> Result<(), Memory>
    ensures { OnOk result (out.new.items ≡ out.old.items ++ ended (claim_line claim ∷ [])) }
{
    let mut round = Buffer::new();
    let mut member = Buffer::new();
    let round = round.format(claim.round).as_bytes();
    let member = member.format(claim.member).as_bytes();
    put_line(out, &[b"@claim ".as_slice(), round, b".", member])
}
