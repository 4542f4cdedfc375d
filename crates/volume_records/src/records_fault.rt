use edit_overlay::ReadFault;
use room::OutOfMemory;
use thiserror::Error;

/// Why records were not made.
#[derive(Clone, Copy, Debug, PartialEq, Eq, Error)]
pub enum RecordsFault {
    /// A growth was refused.
    #[error("out of memory")]
    OutOfMemory,
    /// A trace could not be read. Only where the bytes of the volume are on disk.
    #[error("a trace could not be read")]
    Read(ReadFault),
}

impl From<OutOfMemory> for RecordsFault {
    ghost use Rattle.std.specs.Prelude.{◌≡◌};
    ghost use Rattle.volume_records.specs.declared.records_fault.RecordsFault.TheVariants.{OutOfMemory as no_memory};

    ghost from_gives = { λ _ fault. fault ≡ no_memory };

    fn from(_: OutOfMemory) -> RecordsFault {
        RecordsFault::OutOfMemory
    }
}

impl From<ReadFault> for RecordsFault {
    ghost use Rattle.std.specs.Prelude.{◌≡◌};
    ghost use Rattle.volume_records.specs.declared.records_fault.RecordsFault.TheVariants.{Read};

    ghost from_gives = { λ read fault. fault ≡ Read read };

    fn from(read: ReadFault) -> RecordsFault {
        RecordsFault::Read(read)
    }
}
