use bench_rules::AskFault;
use edit_overlay::ReadFault;
use room::OutOfMemory;
use thiserror::Error;

/// Why no slice was given.
#[derive(Clone, Copy, Debug, PartialEq, Eq, Error)]
pub enum SliceFault {
    /// A growth was refused.
    #[error("out of memory")]
    OutOfMemory,
    /// A trace could not be read. Only where the bytes of the volume are on disk.
    #[error("a trace could not be read")]
    Read(ReadFault),
}

impl From<OutOfMemory> for SliceFault {
    ghost use Rattle.std.specs.Prelude.{◌≡◌};
    ghost use Rattle.time_slice.specs.declared.slice_fault.SliceFault.TheVariants.{OutOfMemory as no_memory};

    ghost from_gives = { λ _ fault. fault ≡ no_memory };

    fn from(_: OutOfMemory) -> SliceFault {
        SliceFault::OutOfMemory
    }
}

impl From<ReadFault> for SliceFault {
    ghost use Rattle.std.specs.Prelude.{◌≡◌};
    ghost use Rattle.time_slice.specs.declared.slice_fault.SliceFault.TheVariants.{Read};

    ghost from_gives = { λ read fault. fault ≡ Read read };

    fn from(read: ReadFault) -> SliceFault {
        SliceFault::Read(read)
    }
}

impl From<SliceFault> for AskFault {
    ghost use Rattle.std.specs.Prelude.{◌≡◌};
    ghost use Rattle.time_slice.specs.Faults.{ask_fault_of_slice};

    ghost from_gives = { λ slice fault. fault ≡ ask_fault_of_slice slice };

    fn from(fault: SliceFault) -> AskFault {
        match fault {
            SliceFault::OutOfMemory => AskFault::OutOfMemory,
            SliceFault::Read(read) => AskFault::from(read),
        }
    }
}
