//! Cells that are no pointers to objects.

ghost use Rattle.std.specs.Prelude.{◌≡◌};
ghost use Rattle.c_memory.specs.Memory as spec;

use c3_base::Cell;

/// No object.
pub const NULL: Cell = Cell { word: 0, serial: 0 };

/// A number as a cell.
pub fn number(n: i64) -> Cell
    ensures { result ≡ spec.number n }
{
    Cell { word: n, serial: 0 }
}
