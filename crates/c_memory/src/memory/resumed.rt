//! What a memory has in use, and a memory that gets back what was saved.

ghost use Rattle.std.specs.Prelude.{◌≡◌, ◌+◌, ◌<◌, ◌≤◌, ◌^◌, [], ◌∷◌, ◌++◌, IfOk, None, length, unwrap_or};
ghost use Rattle.std.specs.Prelude as lists;
ghost use Rattle.c_memory.specs.Memory.{cells_in, cells_of, find_object, used};
ghost use Rattle.c_memory.specs.Order.{IsRising};
ghost use Rattle.c_memory.specs.Resumed.{insert_object, own_serial};
ghost use Rattle.c_memory.specs.Seen.{object_of, objects_of, serial_of};
ghost use Rattle.c_memory.specs.declared.object.Object as kept;

use crate::memory::Memory;
use crate::object::Object;
use c3_base::Cell;
use std::alloc::AllocError;

impl Memory {
    /// The cells of the stack in use: one for each call, and those of the variables.
    pub fn in_use(&self) -> usize
        ensures used { result ≡ used self.now }
        ensures few { result ≤ 8192 }
    {
        self.calls + self.taken
    }

    /// The cells of the object of a serial, or none where there is no such object.
    pub fn object(&self, serial: u64) -> &[Cell]
        ensures { result.now ≡ unwrap_or (cells_of self.now serial) [] }
    {
        match self.cells(serial) {
            None => &[],
            Some(cells) => cells,
        }
    }

    /// The same calls without any object, with another next serial, and as if `malloc` had been asked for 65,536 cells.
    pub fn clear(&mut self, next: u64)
        requires { 0 < next }
        ensures { self.new ≡ record self.old { variables = []; heap = []; next = next; asked = 65536 } }
    {
        self.variables = Vec::new(self.alloc);
        self.heap = Vec::new(self.alloc);
        self.next = next;
        self.taken = 0;
        self.live = 0;
        self.asked = 65_536;
    }

    /// A variable comes back above the others.
    pub fn keep_variable(&mut self, serial: u64, cells: &[Cell]) -> Result<(), AllocError>
        requires above { IsRising own_serial 1 self.old.variables serial }
        requires next { serial < self.old.next }
        requires room { used self.old + length cells.now ≤ 8192 }
        ensures { IfOk result (λ done. self.new ≡ record self.old { variables = self.old.variables ++ record { serial = serial; cells = cells.now } ∷ [] }) }
    {
        let cells = Vec::from_slice(self.alloc, cells)?;
        let n = cells.len();
        self.variables.push(Object { serial, cells })?;
        self.taken += n;
        Ok(())
    }

    /// An object of `malloc` comes back among the others.
    pub fn keep_object(&mut self, serial: u64, cells: &[Cell]) -> Result<(), AllocError>
        requires some { 0 < serial }
        requires next { serial < self.old.next }
        requires new { find_object self.old.heap serial ≡ None }
        requires room { cells_in self.old.heap + length cells.now ≤ 65536 }
        requires asked { 65536 ≤ self.old.asked }
        ensures { IfOk result (λ done. self.new ≡ record self.old { heap = insert_object (record { serial = serial; cells = cells.now }) self.old.heap }) }
    {
        let cells = Vec::from_slice(self.alloc, cells)?;
        let n = cells.len();
        let at = place_among(&self.heap, serial);
        self.heap.insert(at, Object { serial, cells })?;
        self.live += n;
        Ok(())
    }
}

// Where an object with a serial comes among others with ascending serials.
fn place_among(objects: &[Object], serial: u64) -> usize
    requires { IsRising serial_of 0 objects.now (2 ^ 64) }
    ensures within { result ≤ length objects.now }
    ensures order { (o : kept.Object) → o.serial ≡ serial → objects_of (lists.insert objects.now result o) ≡ insert_object (object_of o) (objects_of objects.now) }
{
    let mut at = objects.len();
    while at > 0 {
        if objects[at - 1].serial <= serial {
            return at;
        }
        at -= 1;
    }
    0
}
