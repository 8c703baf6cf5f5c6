//! Instructions that lead on: jumps, calls and returns, and the stacks of sites and descriptors.

ghost use Rattle.std.specs.Prelude.{◌≡◌, ◌∷◌, ◌++◌, ◌+◌, ◌-◌, ◌<◌, ◌^◌, if◌then◌else◌, IfOk, IfErr, List, length, map, reverse, drop, take, true};
ghost use Rattle.c_memory.specs.Memory.{map_ok};
ghost use Rattle.c_memory.specs.Memory as spec;
ghost use Rattle.c_values.specs.Value as values;
ghost use Rattle.c_values.specs.Value.{value_of, values_of};
ghost use Rattle.c_values.specs.Variables.{variables_from};
ghost use Rattle.flat_code.specs.declared.code.FlatFunction as flat;
ghost use Rattle.flat_code.specs.Machine.{Goes, descriptors, enters, goes_to, lengths_in, with_ok};
ghost use Rattle.flat_code.specs.Machine as machine;
ghost use Rattle.rank_machine.specs.Layout.{described_by};
ghost use Rattle.rank_machine.specs.declared.frame.Frame as frames;
ghost use Rattle.rank_machine.specs.State.{outcome_by, in_call, frame_of, laid_of, machine_with};

use crate::describe::{describe, forget};
use crate::frame::{Frame, after};
use crate::memory::PlacedMemory;
use crate::parts::{Change, Parts, fault};
use c_kernel::ObjectType;
use c_kernel::program::Expr;
use c_memory::Objects;
use c_values::value::{Variables, is_false, value, values};
use c3_base::{Cell, NoMemory};
use flat_code::FlatFunction;
use std::alloc::{AllocError, Global};

impl Parts {
    /// A statement begins.
    pub fn begin(&self, frame: &mut Frame) -> Result<Change, NoMemory>
        ensures { IfOk result (λ did. (functions : List flat.FlatFunction) → (below : List machine.Frame) → outcome_by functions did self.now frame.new below ≡ Goes true (record (machine_with self.now frame.old below) { frames = record (frame_of frame.old) { place = frame.old.place + 1 } ∷ below })) }
    {
        frame.place = after(frame.place)?;
        Ok(Change::Goes { began: true })
    }

    /// A jump.
    pub fn go_to(&self, frame: &mut Frame, to: usize) -> Result<Change, NoMemory>
        ensures { IfOk result (λ did. (functions : List flat.FlatFunction) → (below : List machine.Frame) → outcome_by functions did self.now frame.new below ≡ in_call goes_to self.now frame.old below to) }
    {
        frame.place = to;
        Ok(Change::Goes { began: false })
    }

    /// A jump, where the test is 0.
    pub fn unless(&self, frame: &mut Frame, test: &Expr, to: usize) -> Result<Change, NoMemory>
        ensures { IfOk result (λ did. (functions : List flat.FlatFunction) → (below : List machine.Frame) → outcome_by functions did self.now frame.new below ≡ with_ok (value_of test.now frame.old.variables self.now.world.memory.memory) (λ c. in_call goes_to self.now frame.old below (if values.is_false c then to else frame.old.place + 1))) }
    {
        match value(test, &frame.variables, &self.world.memory) {
            Err(code) => fault(code),
            Ok(c) => {
                frame.place = chosen(c, frame.place, to)?;
                Ok(Change::Goes { began: false })
            }
        }
    }

    /// The newest call ends with the value of an expression.
    pub fn give_back(&self, frame: &Frame, e: &Expr) -> Result<Change, NoMemory>
        ensures { IfOk result (λ did. (functions : List flat.FlatFunction) → (below : List machine.Frame) → outcome_by functions did self.now frame.now below ≡ with_ok (value_of e.now frame.now.variables self.now.world.memory.memory) (machine.returned functions (machine_with self.now frame.now below) (frame_of frame.now) below)) }
    {
        match value(e, &frame.variables, &self.world.memory) {
            Err(code) => fault(code),
            Ok(v) => Ok(Change::Returns(v)),
        }
    }

    /// A site comes onto the others.
    pub fn push_site(&mut self, frame: &mut Frame, site: u32) -> Result<Change, NoMemory>
        ensures outcome { IfOk result (λ did. (functions : List flat.FlatFunction) → (below : List machine.Frame) → outcome_by functions did self.new frame.new below ≡ goes_to (record (machine_with self.old frame.old below) { sites = site ∷ reverse self.old.sites.sites }) (frame_of frame.old) below (frame.old.place + 1)) }
        ensures laid { laid_of self.new ≡ laid_of self.old }
    {
        self.sites.push(site)?;
        frame.place = after(frame.place)?;
        Ok(Change::Goes { began: false })
    }

    /// The newest site goes.
    pub fn pop_site(&mut self, frame: &mut Frame) -> Result<Change, NoMemory>
        ensures outcome { IfOk result (λ did. (functions : List flat.FlatFunction) → (below : List machine.Frame) → outcome_by functions did self.new frame.new below ≡ goes_to (record (machine_with self.old frame.old below) { sites = drop 1 (reverse self.old.sites.sites) }) (frame_of frame.old) below (frame.old.place + 1)) }
        ensures laid { laid_of self.new ≡ laid_of self.old }
    {
        let _ = self.sites.pop();
        frame.place = after(frame.place)?;
        Ok(Change::Goes { began: false })
    }

    /// Each variable gets a descriptor.
    pub fn describe(&mut self, frame: &mut Frame) -> Result<Change, NoMemory>
        ensures outcome { IfOk result (λ did. (functions : List flat.FlatFunction) → (below : List machine.Frame) → outcome_by functions did self.new frame.new below ≡ goes_to (record (machine_with self.old frame.old below) { described = descriptors frame.old.variables ++ reverse (map (λ d. d.serial) self.old.described) }) (frame_of frame.old) below (frame.old.place + 1)) }
        ensures laid { IfOk result (λ did. laid_of self.new ≡ record (laid_of self.old) { stack = (laid_of self.old).stack ++ described_by self.old.world.memory.memory frame.old.variables }) }
    {
        describe(&mut self.described, &self.world.memory, frame.variables)?;
        frame.place = after(frame.place)?;
        Ok(Change::Goes { began: false })
    }

    /// The function's descriptors go.
    pub fn forget(&mut self, frame: &mut Frame) -> Result<Change, NoMemory>
        ensures outcome { IfOk result (λ did. (functions : List flat.FlatFunction) → (below : List machine.Frame) → outcome_by functions did self.new frame.new below ≡ goes_to (record (machine_with self.old frame.old below) { described = drop frame.old.variables.count (reverse (map (λ d. d.serial) self.old.described)) }) (frame_of frame.old) below (frame.old.place + 1)) }
        ensures laid { laid_of self.new ≡ record (laid_of self.old) { stack = take (length (laid_of self.old).stack - frame.old.variables.count) (laid_of self.old).stack } }
    {
        forget(&mut self.described, frame.variables.count);
        frame.place = after(frame.place)?;
        Ok(Change::Goes { began: false })
    }

    /// A function is called by the newest call.
    pub fn call(
        &mut self,
        functions: &[FlatFunction],
        caller: &Frame,
        function: usize,
        arguments: &[Expr],
    ) -> Result<Change, NoMemory>
        requires { self.old.world.memory.memory.next < 2 ^ 62 }
        ensures outcome { IfOk result (λ did. (below : List machine.Frame) → outcome_by functions.now did self.new caller.now below ≡ with_ok (values_of arguments.now caller.now.variables self.old.world.memory.memory) (enters functions.now (machine_with self.old caller.now below) (frame_of caller.now ∷ below) function)) }
        ensures laid { IfOk result (λ did. laid_of self.new ≡ laid_of self.old) }
    {
        match values(self.alloc, arguments, &caller.variables, &self.world.memory)? {
            Err(code) => fault(code),
            Ok(vs) => self.enter(functions, function, &vs),
        }
    }

    // A function is entered.
    fn enter(
        &mut self,
        functions: &[FlatFunction],
        function: usize,
        arguments: &[Cell],
    ) -> Result<Change, NoMemory>
        requires { self.old.world.memory.memory.next < 2 ^ 62 }
        ensures outcome { IfOk result (λ did. (caller : frames.Frame) → (below : List machine.Frame) → outcome_by functions.now did self.new caller below ≡ enters functions.now (machine_with self.old caller below) (frame_of caller ∷ below) function arguments.now) }
        ensures laid { IfOk result (λ did. laid_of self.new ≡ laid_of self.old) }
    {
        let first = self.world.memory.next();
        match reserve(self.alloc, &mut self.world.memory, functions, function)? {
            Err(code) => fault(code),
            Ok(frame) => {
                self.world.memory.pass(first, arguments);
                Ok(Change::Enters(frame))
            }
        }
    }
}

// Where a jump leads, by its test.
fn chosen(c: Cell, place: usize, to: usize) -> Result<usize, NoMemory>
    ensures { IfOk result (λ next. next ≡ (if values.is_false c then to else place + 1)) }
{
    if is_false(c) { Ok(to) } else { after(place) }
}

/// A function's call that begins, or the stack has no room for its variables and nothing changes.
pub fn reserve(
    alloc: Global,
    memory: &mut PlacedMemory,
    functions: &[FlatFunction],
    function: usize,
) -> Result<Result<Frame, u16>, NoMemory>
    requires { memory.old.memory.next < 2 ^ 62 }
    ensures memory { IfOk result (λ did. map_ok (λ entry. memory.new.memory) did ≡ spec.enter memory.old.memory (lengths_in functions.now function)) }
    ensures frame { IfOk result (λ did. IfOk did (λ frame. frame_of frame ≡ record { function = function; place = 0; variables = variables_from memory.old.memory.next (length (lengths_in functions.now function)) })) }
    ensures same { IfOk result (λ did. IfErr did (λ code. memory.new.memory ≡ memory.old.memory)) }
    ensures blocks { IfOk result (λ did. memory.new.blocks ≡ memory.old.blocks) }
{
    let first = memory.next();
    let lengths = lengths(alloc, functions, function)?;
    match memory.enter(&lengths)? {
        Err(code) => Ok(Err(code)),
        Ok(()) => Ok(Ok(Frame {
            function,
            place: 0,
            variables: Variables::from(first, lengths.len()),
        })),
    }
}

// How many cells each variable of a function has.
fn lengths(
    alloc: Global,
    functions: &[FlatFunction],
    function: usize,
) -> Result<Vec<u32>, AllocError>
    ensures { IfOk result (λ lengths. lengths.items ≡ lengths_in functions.now function) }
{
    match functions.get(function) {
        None => Ok(Vec::new(alloc)),
        Some(f) => cells_of(alloc, f.variables.as_slice()),
    }
}

fn cells_of(alloc: Global, types: &[ObjectType]) -> Result<Vec<u32>, AllocError>
    ensures { IfOk result (λ lengths. lengths.items ≡ map (λ t. t.cells) types.now) }
{
    let mut lengths = Vec::new(alloc);
    for t in types {
        lengths.push(t.cells)?;
    }
    Ok(lengths)
}
