//! Places in memory.

ghost use Rattle.std.specs.Prelude.{◌≡◌};
ghost use Rattle.c_memory.specs.Memory.{spot_of};
ghost use Rattle.c_memory.specs.Memory as spec;

use c3_base::Cell;

/// A place, which may lie outside its object: the object's serial, 0 for none, and the distance from its start in cells.
#[derive(Clone, Copy, PartialEq, Eq)]
pub struct Spot {
    pub serial: u64,
    pub place: i128,
}

impl Spot {
    /// Where a pointer points.
    pub fn of(pointer: Cell) -> Spot
        ensures { result ≡ spot_of pointer }
    {
        Spot {
            serial: pointer.serial,
            place: i128::from(pointer.word),
        }
    }
}

/// A place so many cells on. One that is too far from its object is a fault.
pub fn moved(spot: Spot, n: i128) -> Result<Spot, u16>
    ensures { result ≡ spec.moved spot n }
{
    let Some(place) = spot.place.checked_add(n) else {
        return Err(102);
    };
    if is_near(place) {
        Ok(Spot {
            serial: spot.serial,
            place,
        })
    } else {
        Err(102)
    }
}

fn is_near(place: i128) -> bool
    ensures { result ≡ spec.is_near place }
{
    -(1 << 120) <= place && place < 1 << 120
}
