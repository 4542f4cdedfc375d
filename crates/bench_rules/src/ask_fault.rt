ghost use Rattle.std.specs.Prelude.{◌≡◌};

use edit_overlay::ReadFault;
use room::OutOfMemory;
use thiserror::Error;

/// Why a query is refused.
#[derive(Clone, Copy, Debug, PartialEq, Eq, Error)]
pub enum AskFault {
    /// `NoTrace(p, count)`: no position p among so many traces.
    #[error("E01 no trace {0} of {1}")]
    NoTrace(u32, u32),
    /// The name is neither bound nor standard, or no name of a binary header field.
    #[error("E02 no field")]
    NoField,
    /// The place has a size other than 1, 2, 3, 4 or 8, or does not lie inside a header that the
    /// trace has or inside the binary header; or there is no such block or line.
    #[error("E03 no place")]
    NoPlace,
    /// `NoSample(k, n)`: no sample k among the n of the trace; the number named is at least n.
    #[error("E05 no sample {0} of {1}")]
    NoSample(u32, u32),
    /// A growth was refused.
    #[error("E11 out of memory")]
    OutOfMemory,
    /// The file's samples have no values.
    #[error("E12 samples have no value")]
    NoValues,
    /// The bytes of a trace could not be read. Only where they stay on disk.
    #[error("E14 read failed")]
    ReadFailed,
    /// The file is no longer what was loaded. Only where its bytes stay on disk.
    #[error("E15 file changed")]
    FileChanged,
}

impl From<ReadFault> for AskFault {
    ghost use Rattle.bench_rules.specs.ReadFaults.{ask_fault_of};

    ghost from_gives = { λ read fault. fault ≡ ask_fault_of read };

    fn from(fault: ReadFault) -> AskFault {
        match fault {
            ReadFault::Changed => AskFault::FileChanged,
            _ => AskFault::ReadFailed,
        }
    }
}

impl From<OutOfMemory> for AskFault {
    ghost use Rattle.bench_rules.specs.declared.ask_fault.AskFault.TheVariants.{OutOfMemory as no_memory};

    ghost from_gives = { λ _ fault. fault ≡ no_memory };

    fn from(_: OutOfMemory) -> AskFault {
        AskFault::OutOfMemory
    }
}
