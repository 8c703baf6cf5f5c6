//! A memory that gets back what was saved.

ghost use Rattle.std.specs.Prelude.{◌≡◌, ◌+◌, ◌<◌, ◌≤◌, [], ◌∷◌, ◌++◌, IfOk, length, map};
ghost use Rattle.c_memory.specs.Order.{IsRising};
ghost use Rattle.c_memory.specs.Resumed.{insert_object, own_serial};
ghost use Rattle.rank_machine.specs.Resumed.{AreReady, CanKeep};
ghost use Rattle.rank_machine.specs.Saving.{among, block_of, object_of};

use crate::memory::PlacedMemory;
use c3_base::NoMemory;
use image_text::SavedObject;
use variable_stack::Descriptor;

impl PlacedMemory {
    /// The same calls without any object, with another next serial, and as if `malloc` had been asked for 65,536 cells.
    pub fn clear(&mut self, next: u64)
        requires { 0 < next }
        ensures memory { self.new.memory ≡ record self.old.memory { variables = []; heap = []; next = next; asked = 65536 } }
        ensures blocks { self.new.blocks ≡ [] }
    {
        self.memory.clear(next);
        self.blocks.clear();
    }

    /// Variables come back above the others. No frames that sites lead to have more cells than the stack.
    pub fn keep_variables(&mut self, variables: &[SavedObject]) -> Result<(), NoMemory>
        requires { IsRising own_serial 1 (self.old.memory.variables ++ map object_of variables.now) self.old.memory.next }
        ensures memory { IfOk result (λ done. self.new.memory ≡ record self.old.memory { variables = self.old.memory.variables ++ map object_of variables.now }) }
        ensures blocks { IfOk result (λ done. self.new.blocks ≡ self.old.blocks) }
    {
        for v in variables {
            self.keep_variable(v)?;
        }
        Ok(())
    }

    fn keep_variable(&mut self, v: &SavedObject) -> Result<(), NoMemory>
        requires above { IsRising own_serial 1 self.old.memory.variables v.now.serial }
        requires next { v.now.serial < self.old.memory.next }
        ensures memory { IfOk result (λ done. self.new.memory ≡ record self.old.memory { variables = self.old.memory.variables ++ object_of v.now ∷ [] }) }
        ensures blocks { IfOk result (λ done. self.new.blocks ≡ self.old.blocks) }
    {
        let cells = v.cells.as_slice();
        if cells.len() > 8192 - self.memory.in_use() {
            return Err(NoMemory);
        }
        let Ok(()) = self.memory.keep_variable(v.serial, cells) else {
            *self = PlacedMemory::new(self.alloc);
            return Err(NoMemory);
        };
        Ok(())
    }

    /// Objects of `malloc` come back to their places.
    pub fn keep_objects(&mut self, objects: &[SavedObject]) -> Result<(), NoMemory>
        requires ready { AreReady self.old.memory.next self.old.blocks self.old.memory.heap objects.now }
        requires asked { 65536 ≤ self.old.memory.asked }
        ensures memory { IfOk result (λ done. self.new.memory ≡ record self.old.memory { heap = among self.old.memory.heap (map object_of objects.now) }) }
        ensures blocks { IfOk result (λ done. self.new.blocks ≡ self.old.blocks ++ map block_of objects.now) }
    {
        for o in objects {
            self.keep_object(o)?;
        }
        Ok(())
    }

    fn keep_object(&mut self, o: &SavedObject) -> Result<(), NoMemory>
        requires can { CanKeep self.old.memory.next self.old.blocks self.old.memory.heap o.now }
        requires asked { 65536 ≤ self.old.memory.asked }
        ensures memory { IfOk result (λ done. self.new.memory ≡ record self.old.memory { heap = insert_object (object_of o.now) self.old.memory.heap }) }
        ensures blocks { IfOk result (λ done. self.new.blocks ≡ self.old.blocks ++ block_of o.now ∷ []) }
    {
        let cells = o.cells.as_slice();
        let block = Descriptor {
            serial: o.serial,
            place: o.place,
            length: cells.len() as u32,
        };
        let Ok(()) = self.memory.keep_object(o.serial, cells) else {
            *self = PlacedMemory::new(self.alloc);
            return Err(NoMemory);
        };
        let Ok(()) = self.blocks.push(block) else {
            *self = PlacedMemory::new(self.alloc);
            return Err(NoMemory);
        };
        Ok(())
    }
}
