//! Why a machine doesn't come back.

ghost use Rattle.std.specs.Prelude.{◌≡◌};
ghost use Rattle.rank_image.specs.declared.fault.RestoreFault.TheVariants.{NoMemory};

use image_text::Field;
use thiserror::Error;

/// Why an image gives no machine back.
#[derive(Clone, Copy, Debug, Error, PartialEq, Eq)]
pub enum RestoreFault {
    /// The image isn't well formed. This is the first row that breaks a rule with the rows before it.
    #[error("an image is broken at its {field:?}")]
    BadImage { field: Field },
    #[error("no memory")]
    NoMemory,
}

impl From<c3_base::NoMemory> for RestoreFault {
    ghost from_gives = { λ _ e. e ≡ NoMemory };

    fn from(_: c3_base::NoMemory) -> Self {
        RestoreFault::NoMemory
    }
}
