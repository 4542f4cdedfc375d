use num_order::Order;

/// What the command line says.
#[derive(Clone, Copy)]
pub struct Arguments<'a> {
    /// The path of the file to load.
    pub file: &'a str,
    /// The path of the script.
    pub script: Option<&'a str>,
    /// The path of the file to save to.
    pub out: Option<&'a str>,
    /// Whether the file to load itself is to become the edited one.
    pub in_place: bool,
    /// Whether the bytes of the file stay on disk.
    pub on_disk: bool,
    /// The most bytes that the file may have, from 1 to 2^40.
    pub max_bytes: Option<u64>,
    /// Whether the file is read as one of fixed length.
    pub fixed: bool,
    /// The number of samples of each trace, whatever the headers say.
    pub samples: Option<u32>,
    /// The code of the sample format, whatever the binary header says.
    pub format: Option<u16>,
    /// The number of extended textual headers, whatever the binary header says; 0 to 32767.
    pub texts: Option<i16>,
    /// Whether what is less than a trace, behind the last one, is kept as bytes of no trace.
    pub tail: bool,
    /// Whether samples that are floats have their values.
    pub floats: bool,
    /// Whether formats whose samples have no value here are read too.
    pub opaque: bool,
    /// The order of bytes, where the file does not tell it.
    pub order: Option<Order>,
    /// Whether the first refused line ends the run.
    pub stop: bool,
    /// Whether the lines of standard input are answered one by one, in place of a script.
    pub session: bool,
    /// Whether a session saves behind its last line too.
    pub save_at_end: bool,
    /// Whether standard error is not told of refused lines.
    pub quiet: bool,
    /// Whether a repair of the file itself that was cut off is to be undone.
    pub recover: bool,
    /// Whether the head of the file alone is to be shown.
    pub look: bool,
}
