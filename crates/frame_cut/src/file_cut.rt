ghost use Rattle.std.specs.Prelude.{◌≡◌, ◌<◌, ◌^◌, length};

use crate::extent::Extent;
use crate::file_head::Head;
use std::marker::Model;

/// A file that is cut into its parts: its head, where each of its traces lies, and how many bytes
/// of no trace stand behind the last one. Seen as the three.
#[derive(Drop)]
pub struct Cut {
    head: Head,
    extents: Vec<Extent>,
    tail: u64,
}

impl Model for Cut {
    ghost use Rattle.std.specs.Prelude.{ℕ, List, length, ◌<◌, ◌^◌};
    ghost use Rattle.frame_cut.specs.declared.file_head.Head.{Head};
    ghost use Rattle.frame_cut.specs.declared.extent.Extent.{Extent};

    ghost Value = { Head × List Extent × ℕ };

    ghost view = { λ cut. (cut.head, cut.extents.items, cut.tail) };

    ghost invariant = { λ cut. length cut.extents.items < 2 ^ 32 };
}

impl Cut {
    // The head with the traces' places, and the number of bytes behind the last one.
    pub(crate) fn new(head: Head, extents: Vec<Extent>, tail: u64) -> Cut
        requires { length extents.items < 2 ^ 32 }
        ensures { result ≡ (head, extents.items, tail) }
    {
        Cut {
            head,
            extents,
            tail,
        }
    }

    /// The file's head. Takes no memory.
    pub fn head(&self) -> Head
        ensures { result ≡ self.now.0 }
    {
        self.head
    }

    /// The number of traces. Takes no memory.
    pub fn count(&self) -> u32
        ensures { result ≡ length self.now.1 }
    {
        self.extents.len() as u32
    }

    /// The number of bytes of no trace that stand behind the last one, in front of the data trailer
    /// records. Takes no memory.
    pub fn tail(&self) -> u64
        ensures { result ≡ self.now.2 }
    {
        self.tail
    }

    /// Where the traces lie, in their order. Takes no memory.
    pub fn extents(&self) -> &[Extent]
        ensures { result.now ≡ self.now.1 }
    {
        self.extents.as_slice()
    }

    /// The list of the traces' places, without a copy. Takes no memory.
    pub fn into_extents(self) -> Vec<Extent>
        ensures { result.items ≡ self.1 }
    {
        self.extents
    }
}
