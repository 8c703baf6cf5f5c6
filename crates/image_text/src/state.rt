//! Saved states.

ghost use Rattle.std.specs.Prelude.{◌≡◌, IfOk};

use crate::object::SavedObject;
use c3_base::NoMemory;
use mpi_words::List;
use std::alloc::Global;

/// A rank's process, as it stands at a mark.
#[derive(Drop)]
pub struct RankState {
    /// How many bytes it has put out.
    pub output: u32,
    /// The next object's serial.
    pub serial: u64,
    /// 0 before `MPI_Init`, 1 after it, 2 after `MPI_Finalize`.
    pub phase: u8,
    /// How many collective calls it has begun.
    pub calls: u64,
    /// The sites of the position stack, `main`'s first and the mark's last.
    pub sites: List<u32>,
    pub variables: List<SavedObject>,
    /// The objects of the heap by ascending place.
    pub objects: List<SavedObject>,
}

impl RankState {
    /// An equal state.
    pub fn copy(&self, alloc: Global) -> Result<Self, NoMemory>
        ensures { IfOk result (λ copy. copy ≡ self.now) }
    {
        Ok(RankState {
            output: self.output,
            serial: self.serial,
            phase: self.phase,
            calls: self.calls,
            sites: self.sites.copy()?,
            variables: copies(alloc, self.variables.as_slice())?,
            objects: copies(alloc, self.objects.as_slice())?,
        })
    }
}

// Equal objects.
fn copies(alloc: Global, objects: &[SavedObject]) -> Result<List<SavedObject>, NoMemory>
    ensures { IfOk result (λ copies. copies ≡ objects.now) }
{
    let mut copies = List::new(alloc);
    for object in objects {
        copies.push(object.copy()?)?;
    }
    Ok(copies)
}
