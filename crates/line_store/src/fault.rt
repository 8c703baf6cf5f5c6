ghost use Rattle.std.specs.Prelude.{◌≡◌};
ghost use Rattle.line_store.specs.declared.fault.StoreFault.TheVariants.{DiskFault, NoMemory};

use c3_io::Failed;
use std::alloc::AllocFailed;
use thiserror::Error;

/// Why a call over a job's files failed.
#[derive(Clone, Copy, Debug, Error, PartialEq, Eq)]
pub enum StoreFault {
    #[error("disk fault")]
    DiskFault,
    /// The gate is open.
    #[error("a job is there")]
    JobThere,
    /// The gate isn't open.
    #[error("no job is there")]
    NoJob,
    /// A file's text isn't right from this byte on.
    #[error("file {file} is damaged at byte {at}")]
    Damaged { file: u32, at: u64 },
    #[error("no memory")]
    NoMemory,
}

impl From<Failed> for StoreFault {
    ghost from_gives = { λ _ e. e ≡ DiskFault };

    fn from(_: Failed) -> Self {
        StoreFault::DiskFault
    }
}

impl From<c3_base::NoMemory> for StoreFault {
    ghost from_gives = { λ _ e. e ≡ NoMemory };

    fn from(_: c3_base::NoMemory) -> Self {
        StoreFault::NoMemory
    }
}

impl<T: Drop> From<AllocFailed<T>> for StoreFault {
    ghost from_gives = { λ _ e. e ≡ NoMemory };

    fn from(_: AllocFailed<T>) -> Self {
        StoreFault::NoMemory
    }
}
