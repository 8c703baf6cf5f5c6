//! Saved objects.

ghost use Rattle.std.specs.Prelude.{◌≡◌, IfOk};

use c3_base::{Cell, NoMemory};
use mpi_words::List;

/// An object of a rank, with its cells.
#[derive(Drop)]
pub struct SavedObject {
    pub serial: u64,
    /// Where its first cell lies.
    pub place: u32,
    pub cells: List<Cell>,
}

impl SavedObject {
    /// An equal object.
    pub fn copy(&self) -> Result<Self, NoMemory>
        ensures { IfOk result (λ copy. copy ≡ self.now) }
    {
        Ok(SavedObject {
            serial: self.serial,
            place: self.place,
            cells: self.cells.copy()?,
        })
    }
}
