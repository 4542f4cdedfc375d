// Why a file is not opened to be changed in place.
use std::alloc::AllocError;
use std::io::Error;

/// Why a file is not opened to be changed in place. Nothing was done.
#[derive(Debug, Drop, thiserror::Error)]
pub enum OpenFault {
    /// Another save or recovery of it is under way, or has just replaced it.
    #[error("another save or recovery of it is under way")]
    Busy,
    /// A call failed.
    #[error("{0}")]
    Failed(Error),
}

impl From<Error> for OpenFault {
    fn from(error: Error) -> OpenFault {
        OpenFault::Failed(error)
    }
}

impl From<AllocError> for OpenFault {
    fn from(error: AllocError) -> OpenFault {
        OpenFault::Failed(Error::from(error))
    }
}
