//! Memory that holds objects, however it keeps them.

ghost use Rattle.std.specs.Prelude.{◌≡◌, ◌<◌, ◌^◌, IfErr, map};
ghost use Rattle.c_memory.specs.Memory as definition;
ghost use Rattle.c_memory.specs.Memory.{number, load, load_all, pointing, put, put_all, store, with_arguments, map_ok};

use crate::spot::Spot;
use c3_base::Cell;

/// A memory.
pub trait Objects {
    /// Its objects.
    ghost memory: { Self → definition.Memory };

    /// What it keeps beside their cells.
    ghost Rest: { Type 0 };

    ghost rest: { Self → Rest };

    /// The cell at a place, or a fault.
    fn load(&self, spot: Spot) -> Result<Cell, u16>
        ensures { result ≡ load (memory self.now) spot };

    /// So many cells from a place on, all of them in one object, or a fault. No cells are of no object.
    fn load_all(&self, spot: Spot, n: u64) -> Result<&[Cell], u16>
        ensures { map_ok (λ cells. cells.now) result ≡ load_all (memory self.now) spot n };

    /// A pointer to a place, which may be one past its object's last cell, or a fault.
    fn pointing(&self, spot: Spot) -> Result<Cell, u16>
        ensures { result ≡ pointing (memory self.now) spot };

    /// Puts a cell at a place, without a test.
    fn put(&mut self, spot: Spot, cell: Cell)
        ensures put { memory self.new ≡ put (memory self.old) spot cell }
        ensures rest { rest self.new ≡ rest self.old };

    /// Puts numbers from a place on, without a test.
    fn put_numbers(&mut self, spot: Spot, numbers: &[i64])
        ensures put { memory self.new ≡ put_all (memory self.old) spot (map number numbers.now) }
        ensures rest { rest self.new ≡ rest self.old };

    /// Puts a cell at a place, or finds a fault and changes nothing.
    fn store(&mut self, spot: Spot, cell: Cell) -> Result<(), u16>
        ensures done { map_ok (λ done. memory self.new) result ≡ store (memory self.old) spot cell }
        ensures same { IfErr result (λ code. self.new ≡ self.old) }
        ensures rest { rest self.new ≡ rest self.old }
    {
        match self.load(spot) {
            Err(code) => Err(code),
            Ok(_) => {
                self.put(spot, cell);
                Ok(())
            }
        }
    }

    /// The parameters of a call, of which the first has this serial, get the values.
    fn pass(&mut self, first: u64, arguments: &[Cell])
        requires { first < 2 ^ 62 }
        ensures passed { memory self.new ≡ with_arguments (memory self.old) first arguments.now }
        ensures rest { rest self.new ≡ rest self.old }
    {
        let mut serial = first;
        for v in arguments {
            self.put(Spot { serial, place: 0 }, *v);
            serial += 1;
        }
    }
}
