//! A node of a world, up or down.
ghost use Rattle.std.specs.Prelude.{◌≡◌, ◌++◌, ◌∷◌, [], IfOk, true};
ghost use Rattle.node.specs.Noted.{notes_in};
ghost use Rattle.stable_record.specs.History.{stands};
ghost use Rattle.stable_record.specs.InMemory.{mem_history};
ghost use Rattle.simulator.specs.inside.Standing.{disk_of, file_of, node_view};

use faults::Memory;
use node::{Node, Noted};
use stable_record::MemDisk;
use std::alloc::Global;

/// What is left of a node that is down.
#[derive(Drop)]
pub(crate) struct DownNode {
    pub(crate) disk: MemDisk,
    /// The notes of its log.
    pub(crate) noted: Noted,
    /// The number of bytes that a torn write left after the closed gate of its log.
    pub(crate) behind: usize,
}

/// A node that is up, or what is left of one that is down.
#[derive(Drop)]
pub(crate) enum Slot<'a> {
    Up(Node<'a, MemDisk>),
    Down(DownNode),
}

impl<'a> Slot<'a> {
    /// Whether the node is up.
    pub(crate) fn is_up(&self) -> bool
        ensures { result ≡ (node_view self.now).up }
    {
        match self {
            Slot::Up(_) => true,
            Slot::Down(_) => false,
        }
    }

    /// The bytes of its log's file.
    pub(crate) fn file(&self) -> &[u8]
        ensures { result.now ≡ file_of (disk_of self.now) }
    {
        match self {
            Slot::Up(node) => node.disk().bytes(),
            Slot::Down(down) => down.disk.bytes(),
        }
    }

    /// A disk with the bytes of its log's file, followed by these.
    pub(crate) fn disk_with(&self, alloc: Global, behind: &[u8]) -> Result<MemDisk, Memory>
        ensures { IfOk result (λ disk. mem_history disk
            ≡ stands (file_of (disk_of self.now) ++ behind.now) ∷ []) }
    {
        let mut file = self.file().to_vec(alloc)?;
        file.extend_from_slice(behind)?;
        MemDisk::new(alloc, file.as_slice())
    }

    /// What is left of it once it is down. Does not allocate.
    pub(crate) fn into_down(self) -> DownNode
        ensures disk { result.disk ≡ disk_of self.entry }
        ensures notes { notes_in result.noted.texts ≡ (node_view self.entry).notes }
        ensures behind { (node_view self.entry).up ≡ true → result.behind ≡ 0 }
    {
        match self {
            Slot::Up(node) => {
                let (disk, noted) = node.into_parts();
                DownNode {
                    disk,
                    noted,
                    behind: 0,
                }
            }
            Slot::Down(down) => down,
        }
    }
}
