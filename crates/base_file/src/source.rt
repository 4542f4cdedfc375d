use crate::disk::Disk;
use crate::loading::Loading;
use crate::memory::Memory;
use std::fs::File;

// Where the bytes are.
#[derive(Drop)]
pub(crate) enum Source {
    Memory(Memory),
    Disk(Disk<File>),

    // A file that is being read from its front to its end.
    Pass(Loading<File>),
}
