ghost use Rattle.std.specs.Prelude.{◌≡◌};

use edit_overlay::ReadFault;
use field_map::MapFault;
use room::OutOfMemory;
use text_block::TextFault;
use thiserror::Error;

/// Why an edit is refused. A refused edit changes nothing.
#[derive(Clone, Copy, Debug, PartialEq, Eq, Error)]
pub enum Refusal {
    /// `NoTrace(p, count)`: no position p among so many traces; for a trace that is put in, none up
    /// to one behind the last.
    #[error("E01 no trace {0} of {1}")]
    NoTrace(u32, u32),
    /// The name is neither bound nor standard, or no name of a binary header field.
    #[error("E02 no field")]
    NoField,
    /// The place has a size other than 1, 2, 3, 4 or 8, or does not lie inside a header that the
    /// trace has or inside the binary header; or the textual header has no such line.
    #[error("E03 no place")]
    NoPlace,
    /// The value is outside the range of the place's kind, or one of the values outside that of the
    /// sample format.
    #[error("E04 does not fit")]
    DoesNotFit,
    /// `NoSample(k, n)`: the values go past the n samples of the trace; k is the greater of the
    /// first value's sample and n.
    #[error("E05 no sample {0} of {1}")]
    NoSample(u32, u32),
    /// The change would give the trace another length, or touch a field of the binary header that
    /// says how the file is cut.
    #[error("E06 frame")]
    Frame,
    /// The text is no line: T01 or T02.
    #[error("E07 {0}")]
    Text(TextFault),
    /// The name is not bound or not unbound: M01 to M07.
    #[error("E08 {0}")]
    Map(MapFault),
    /// The file would have more bytes than its limit.
    #[error("E09 too large")]
    TooLarge,
    /// The file would have more traces than its limit.
    #[error("E10 too many traces")]
    TooManyTraces,
    /// A growth was refused.
    #[error("E11 out of memory")]
    OutOfMemory,
    /// The file's samples have no values.
    #[error("E12 samples have no value")]
    NoValues,
    /// `ZeroDivisor(p)`: in trace p a computation divides by 0.
    #[error("E13 zero divisor trace {0}")]
    ZeroDivisor(u32),
    /// The bytes of a trace could not be read. Only where they stay on disk.
    #[error("E14 read failed")]
    ReadFailed,
    /// The file is no longer what was loaded. Only where its bytes stay on disk.
    #[error("E15 file changed")]
    FileChanged,
}

impl From<ReadFault> for Refusal {
    ghost use Rattle.bench_rules.specs.ReadFaults.{refusal_of};

    ghost from_gives = { λ fault refusal. refusal ≡ refusal_of fault };

    fn from(fault: ReadFault) -> Refusal {
        match fault {
            ReadFault::Changed => Refusal::FileChanged,
            _ => Refusal::ReadFailed,
        }
    }
}

impl From<OutOfMemory> for Refusal {
    ghost use Rattle.bench_rules.specs.declared.refusal.Refusal.TheVariants.{OutOfMemory};

    ghost from_gives = { λ _ refusal. refusal ≡ OutOfMemory };

    fn from(_: OutOfMemory) -> Refusal {
        Refusal::OutOfMemory
    }
}

impl From<TextFault> for Refusal {
    ghost use Rattle.bench_rules.specs.declared.refusal.Refusal.TheVariants.{Text};

    ghost from_gives = { λ fault refusal. refusal ≡ Text fault };

    fn from(fault: TextFault) -> Refusal {
        Refusal::Text(fault)
    }
}

impl From<MapFault> for Refusal {
    ghost use Rattle.bench_rules.specs.MapFaults.{refusal_of};

    ghost from_gives = { λ fault refusal. refusal ≡ refusal_of fault };

    fn from(fault: MapFault) -> Refusal {
        match fault {
            MapFault::OutOfMemory => Refusal::OutOfMemory,
            _ => Refusal::Map(fault),
        }
    }
}
