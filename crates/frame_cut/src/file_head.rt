use num_order::Order;
use sample_codes::Format;

/// What the headers of a file say of its frame. Byte places count from 1 over the file.
#[derive(Clone, Copy, Debug, PartialEq, Eq)]
pub struct Head {
    /// The order of the bytes of each number: as bytes 3297-3300 tell it, else as the reading asks
    /// for it, else big-endian.
    pub order: Order,
    /// The major revision (byte 3501).
    pub major: u8,
    /// The minor revision (byte 3502).
    pub minor: u8,
    /// The format of the samples (bytes 3225-3226).
    pub format: Format,
    /// The binary header's number of samples of a trace: bytes 3269-3272 where they count and are
    /// not 0, else 3221-3222.
    pub samples: u32,
    /// Whether every trace has that number of samples (bytes 3503-3504, or the reading).
    pub fixed: bool,
    /// The most header extensions of a trace (bytes 3507-3510).
    pub extensions: u8,
    /// The number of extended textual headers, of 3200 bytes each (bytes 3505-3506).
    pub blocks: u32,
    /// The number of data trailer records, of 3200 bytes each (bytes 3529-3532).
    pub trailer: u32,
    /// How many bytes stand in front of the first trace.
    pub traces_at: u64,
}
