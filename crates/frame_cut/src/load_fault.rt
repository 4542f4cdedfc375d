use thiserror::Error;

/// Why a file is refused. Traces count from 1.
#[derive(Clone, Copy, Debug, PartialEq, Eq, Error)]
pub enum LoadFault {
    /// The reader of the file failed. No call here answers it: it is for those that read the bytes.
    #[error("L01 read failed")]
    ReadFailed,
    /// More bytes than the limit.
    #[error("L02 too large")]
    TooLarge,
    /// So few bytes, fewer than 3600, that the two file headers are not whole.
    #[error("L03 short {0}")]
    Short(u64),
    /// The byte-order constant (bytes 3297-3300) says that the bytes of each pair are swapped.
    #[error("L04 pair swapped")]
    PairSwapped,
    /// The byte-order constant tells the order of bytes that is not the one asked for.
    #[error("L17 other byte order")]
    OtherOrder,
    /// A revision above 2.0: its major and minor number (bytes 3501 and 3502).
    #[error("L05 revision {0}.{1}")]
    Revision(u8, u8),
    /// A sample format of floats: code 1, 5 or 6 (bytes 3225-3226), where neither floats nor opaque
    /// formats are asked for.
    #[error("L06 float format {0}")]
    FloatFormat(u16),
    /// The sample format of fixed point with gain, code 4, where opaque ones are not asked for.
    #[error("L07 gain format")]
    GainFormat,
    /// A sample format code that the standard leaves unassigned.
    #[error("L08 unknown format {0}")]
    UnknownFormat(u16),
    /// A number of extended textual headers that the file does not have (bytes 3505-3506): below
    /// -1, more than there are bytes, or -1 where none ends the text.
    #[error("L09 text count {0}")]
    TextCount(i16),
    /// A number of trace header extensions outside 0 to 255 (bytes 3507-3510).
    #[error("L10 extensions {0}")]
    Extensions(i32),
    /// A number of data trailer records that is negative, or that the file does not have (bytes
    /// 3529-3532).
    #[error("L11 trailer {0}")]
    Trailer(i32),
    /// Another place of the first trace than where the traces begin (bytes 3521-3528).
    #[error("L12 first trace {0}")]
    FirstTrace(u64),
    /// The trace says that it has more header extensions than the file allows (bytes 157-158 of its
    /// first extension).
    #[error("L13 extension count trace {0}")]
    ExtensionCount(u64),
    /// The traces' part of the file ends inside this trace.
    #[error("L14 truncated trace {0}")]
    Truncated(u64),
    /// More traces than the limit.
    #[error("L15 too many traces")]
    TooManyTraces,
    /// The list of the traces' places found no memory.
    #[error("L16 out of memory")]
    OutOfMemory,
}
