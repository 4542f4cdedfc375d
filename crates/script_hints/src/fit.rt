use std::fmt;

/// A reading under which a file that is refused is cut: evenly, but for one that keeps a tail.
#[derive(Clone, Copy, Debug, PartialEq, Eq)]
pub struct Fit {
    /// The number of samples of each trace, where that is what is asked for.
    pub samples: Option<u32>,
    /// The code of the sample format, where that is.
    pub format: Option<u16>,
    /// The number of extended textual headers, where that is.
    pub texts: Option<i16>,
    /// Whether what stands behind the last whole trace has to be kept as bytes of no trace.
    pub tail: bool,
    /// How many traces the file has then.
    pub traces: u64,
}

impl Fit {
    /// `FILE can be read with OPTIONS: N traces`, the options as the words to type.
    pub(crate) fn write<W: fmt::Write>(
        &self,
        f: &mut fmt::Formatter<W>,
        file: &str,
    ) -> fmt::Result {
        write!(f, "{file} can be read with")?;
        if let Some(samples) = self.samples {
            write!(f, " --samples {samples}")?;
        }
        if let Some(code) = self.format {
            write!(f, " --format {code}")?;
            if code == 1 || code == 5 || code == 6 {
                f.write_str(" --floats")?;
            }
        }
        if let Some(texts) = self.texts {
            write!(f, " --texts {texts}")?;
        }
        if self.tail {
            f.write_str(" --tail")?;
        }
        let traces = self.traces;
        let word = if traces == 1 { "trace" } else { "traces" };
        write!(f, ": {traces} {word}")?;
        if self.tail {
            f.write_str(", and what stands behind as bytes of no trace")?;
        }
        Ok(())
    }
}
