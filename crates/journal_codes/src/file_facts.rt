// What tells a file from others.

/// What a journal says of its FILE: its length in bytes, the number of its inode, and when it was
/// made. The device is left out, since the system may give it another number when it starts again.
#[derive(Clone, Copy, Debug, PartialEq, Eq)]
pub struct FileFacts {
    pub length: u64,
    pub inode: u64,
    /// In nanoseconds since 1970: a file that was made anew may have the inode of one that is gone.
    /// 0 where the file system does not tell it.
    pub birth: u64,
}
