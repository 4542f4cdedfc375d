use std::fmt;

/// What is seen of a file that ends inside a trace.
#[derive(Clone, Copy, Debug, PartialEq, Eq)]
pub struct TornFile {
    /// How many bytes of that trace are there.
    pub inside: u64,
    /// The number of samples that every trace may have, so that the file ends behind a trace.
    pub even: Option<u32>,
    /// Whether `--fixed` reads it so.
    pub is_fixed: bool,
}

impl TornFile {
    /// `the file ends N bytes inside trace P`, and with which number of samples it would not.
    pub(crate) fn write<W: fmt::Write>(
        &self,
        f: &mut fmt::Formatter<W>,
        trace: u64,
    ) -> fmt::Result {
        let inside = self.inside;
        write!(f, "the file ends {inside} bytes inside trace {trace}")?;
        match self.even {
            Some(samples) if self.is_fixed => write!(
                f,
                "; with {samples} samples a trace, as the binary header says, it would be even: \
                 --fixed reads it so"
            ),
            Some(samples) => write!(f, "; it would be even with {samples} samples a trace"),
            None => Ok(()),
        }
    }
}
