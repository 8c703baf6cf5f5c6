//! Instructions that change memory.

ghost use Rattle.std.specs.Prelude.{◌≡◌, ◌+◌, ◌<◌, ◌^◌, IfOk, List, Some, true};
ghost use Rattle.c_memory.specs.Memory.{cells_asked, free, zeroed};
ghost use Rattle.c_values.specs.Value.{variable_of, value_of};
ghost use Rattle.flat_code.specs.declared.code.FlatFunction.{FlatFunction};
ghost use Rattle.flat_code.specs.declared.code.Instr.TheVariants.{Malloc, Free};
ghost use Rattle.flat_code.specs.Machine.{allocates, goes_with, stores, with_ok};
ghost use Rattle.flat_code.specs.Machine as machine;
ghost use Rattle.flat_code.specs.Placed.{allocated, none_fits, without_block};
ghost use Rattle.rank_machine.specs.State.{heap_of, in_call, laid_by_next, laid_of, is_on, outcome_by};

use crate::frame::{Frame, after};
use crate::parts::{Change, Parts, fault};
use c_kernel::Extent;
use c_kernel::program::{Expr, Place};
use c_memory::cells_asked;
use c_values::value::{value, variable};
use c3_base::{Cell, NoMemory};

impl Parts {
    /// A variable gets zeros.
    pub fn zero(&mut self, frame: &mut Frame, k: usize) -> Result<Change, NoMemory>
        ensures outcome { IfOk result (λ did. (functions : List FlatFunction) → (below : List machine.Frame) → outcome_by functions did self.new frame.new below ≡ in_call goes_with self.old frame.old below (frame.old.place + 1) (zeroed self.old.world.memory.memory (variable_of k frame.old.variables).serial)) }
        ensures laid { laid_of self.new ≡ laid_of self.old }
    {
        self.world.memory.zero(variable(k, &frame.variables).serial);
        frame.place = after(frame.place)?;
        Ok(Change::Goes { began: false })
    }

    /// The value of an expression is stored at a place.
    pub fn set(
        &mut self,
        frame: &mut Frame,
        place: &Place<Expr>,
        e: &Expr,
    ) -> Result<Change, NoMemory>
        ensures outcome { IfOk result (λ did. (functions : List FlatFunction) → (below : List machine.Frame) → outcome_by functions did self.new frame.new below ≡ with_ok (value_of e.now frame.old.variables self.old.world.memory.memory) (in_call stores self.old frame.old below (frame.old.place + 1) place.now)) }
        ensures laid { laid_of self.new ≡ laid_of self.old }
    {
        match self.world.set(&frame.variables, place, e) {
            Err(code) => fault(code),
            Ok(()) => {
                frame.place = after(frame.place)?;
                Ok(Change::Goes { began: false })
            }
        }
    }

    // A value is stored at a place.
    fn store(&mut self, frame: &mut Frame, place: &Place<Expr>, v: Cell) -> Result<Change, NoMemory>
        ensures outcome { IfOk result (λ did. (functions : List FlatFunction) → (below : List machine.Frame) → outcome_by functions did self.new frame.new below ≡ in_call stores self.old frame.old below (frame.old.place + 1) place.now v) }
        ensures laid { laid_of self.new ≡ laid_of self.old }
    {
        match self.world.store(&frame.variables, place, v) {
            Err(code) => fault(code),
            Ok(()) => {
                frame.place = after(frame.place)?;
                Ok(Change::Goes { began: false })
            }
        }
    }

    /// `malloc`, whose object gets a place.
    pub fn malloc(
        &mut self,
        frame: &mut Frame,
        place: &Place<Expr>,
        bytes: &Expr,
        each: Extent,
    ) -> Result<Change, NoMemory>
        requires { self.old.world.memory.memory.next < 2 ^ 62 }
        ensures outcome { IfOk result (λ did. (functions : List FlatFunction) → (below : List machine.Frame) → outcome_by functions did self.new frame.new below ≡ with_ok (value_of bytes.now frame.old.variables self.old.world.memory.memory) (λ n. in_call (allocates (none_fits (heap_of self.old))) self.old frame.old below (frame.old.place + 1) place.now (cells_asked n.word each))) }
        ensures laid { IfOk result (λ did. laid_of self.new ≡ laid_by_next self.old frame.old (Some (Malloc place.now bytes.now each))) }
    {
        match value(bytes, &frame.variables, &self.world.memory) {
            Err(code) => fault(code),
            Ok(n) => self.allocate(frame, place, cells_asked(n.word, each)),
        }
    }

    // What is given for so many cells is stored at a place.
    fn allocate(
        &mut self,
        frame: &mut Frame,
        place: &Place<Expr>,
        asked: Option<u128>,
    ) -> Result<Change, NoMemory>
        requires { self.old.world.memory.memory.next < 2 ^ 62 }
        ensures outcome { IfOk result (λ did. (functions : List FlatFunction) → (below : List machine.Frame) → outcome_by functions did self.new frame.new below ≡ in_call (allocates (none_fits (heap_of self.old))) self.old frame.old below (frame.old.place + 1) place.now asked) }
        ensures laid { IfOk result (λ did. laid_of self.new ≡ record (laid_of self.old) { heap = allocated (heap_of self.old) self.old.world.memory.memory.next asked }) }
    {
        let given = self.world.memory.give(asked)?;
        self.store(frame, place, given)
    }

    /// `free`, after which the object's place is free too.
    pub fn free(&mut self, frame: &mut Frame, e: &Expr) -> Result<Change, NoMemory>
        ensures outcome { IfOk result (λ did. (functions : List FlatFunction) → (below : List machine.Frame) → outcome_by functions did self.new frame.new below ≡ with_ok (value_of e.now frame.old.variables self.old.world.memory.memory) (λ p. with_ok (free self.old.world.memory.memory p) (in_call goes_with self.old frame.old below (frame.old.place + 1)))) }
        ensures laid { IfOk result (λ did. is_on did ≡ true → laid_of self.new ≡ laid_by_next self.old frame.old (Some (Free e.now))) }
    {
        match value(e, &frame.variables, &self.world.memory) {
            Err(code) => fault(code),
            Ok(p) => self.free_object(frame, p),
        }
    }

    fn free_object(&mut self, frame: &mut Frame, pointer: Cell) -> Result<Change, NoMemory>
        ensures outcome { IfOk result (λ did. (functions : List FlatFunction) → (below : List machine.Frame) → outcome_by functions did self.new frame.new below ≡ with_ok (free self.old.world.memory.memory pointer) (in_call goes_with self.old frame.old below (frame.old.place + 1))) }
        ensures laid { IfOk result (λ did. is_on did ≡ true → laid_of self.new ≡ record (laid_of self.old) { heap = without_block (heap_of self.old) pointer.serial }) }
    {
        match self.world.memory.free(pointer) {
            Err(code) => fault(code),
            Ok(()) => {
                frame.place = after(frame.place)?;
                Ok(Change::Goes { began: false })
            }
        }
    }
}
