//! Why a text is no schedule.

ghost use Rattle.std.specs.Prelude.{◌≡◌};
ghost use Rattle.job_schedule.specs.declared.fault.ScheduleFault.TheVariants.{NoMemory};

use std::alloc::AllocFailed;
use thiserror::Error;

/// Why a text is no schedule. A place is the offset of a byte in the text.
#[derive(Clone, Copy, Debug, Error, PartialEq, Eq)]
pub enum ScheduleFault {
    #[error("no word of a schedule at byte {at}")]
    BadEvent { at: u32 },
    #[error("{count} events, which is more than 200,000")]
    TooMany { count: u64 },
    #[error("no memory")]
    NoMemory,
}

impl<T: Drop> From<AllocFailed<T>> for ScheduleFault {
    ghost from_gives = { λ _ e. e ≡ NoMemory };

    fn from(_: AllocFailed<T>) -> Self {
        ScheduleFault::NoMemory
    }
}
