//! Calls.

ghost use Rattle.std.specs.Prelude.{◌≡◌, ◌∷◌, ◌<◌, ◌^◌, IfOk, IfErr, List, map};
ghost use Rattle.c_memory.specs.Memory.{map_ok};
ghost use Rattle.c_memory.specs.Memory as spec;
ghost use Rattle.c_kernel.specs.declared.program.Function as program;
ghost use Rattle.c_meaning.specs.declared.frame.Frame as frames;
ghost use Rattle.c_meaning.specs.Running.{call_of, below, state_of, outcome_by, entered};
ghost use Rattle.c_meaning.specs.Step.{lengths_of, with_ok, enters};
ghost use Rattle.c_meaning.specs.Step as step;
ghost use Rattle.c_values.specs.Value.{values_of};

use crate::frame::{Entry, Frame};
use crate::levels::first as first_levels;
use crate::running::{Change, Running, fault};
use c_kernel::ObjectType;
use c_kernel::program::{Expr, Function};
use c_memory::{Memory, Objects};
use c_values::value::{Variables, values};
use c3_base::{Cell, NoMemory};
use std::alloc::{AllocError, Global};

impl Running {
    /// A function is called by the newest call.
    pub fn call(
        &mut self,
        functions: &[Function],
        caller: &Frame,
        function: usize,
        arguments: &[Expr],
    ) -> Result<Change, NoMemory>
        requires { self.old.world.memory.next < 2 ^ 62 }
        ensures { IfOk result (λ did. outcome_by functions.now did self.new caller.now ≡ with_ok (values_of arguments.now caller.now.variables self.old.world.memory) (enters functions.now (state_of functions.now self.old) (call_of functions.now caller.now ∷ below functions.now self.old) function)) }
    {
        match values(self.alloc, arguments, &caller.variables, &self.world.memory)? {
            Err(code) => fault(code),
            Ok(vs) => self.enter(functions, function, &vs),
        }
    }

    // A function is entered.
    fn enter(
        &mut self,
        functions: &[Function],
        function: usize,
        arguments: &[Cell],
    ) -> Result<Change, NoMemory>
        requires { self.old.world.memory.next < 2 ^ 62 }
        ensures { IfOk result (λ did. (caller : frames.Frame) → outcome_by functions.now did self.new caller ≡ enters functions.now (state_of functions.now self.old) (call_of functions.now caller ∷ below functions.now self.old) function arguments.now) }
    {
        let first = self.world.memory.next();
        match reserve(self.alloc, &mut self.world.memory, functions, function)? {
            Err(code) => fault(code),
            Ok(entry) => {
                self.world.memory.pass(first, arguments);
                Ok(Change::Enters(entry))
            }
        }
    }
}

/// The variables of a function that is called, or the stack has no room for them and nothing changes.
pub fn reserve(
    alloc: Global,
    memory: &mut Memory,
    functions: &[Function],
    function: usize,
) -> Result<Result<Entry, u16>, NoMemory>
    requires { memory.old.next < 2 ^ 62 }
    ensures memory { IfOk result (λ did. map_ok (λ entry. memory.new) did ≡ spec.enter memory.old (lengths_of functions.now function)) }
    ensures entry { IfOk result (λ did. IfOk did (λ entry. entered functions.now entry ≡ step.call_of functions.now function memory.old.next)) }
    ensures same { IfOk result (λ did. IfErr did (λ code. memory.new ≡ memory.old)) }
{
    let first = memory.next();
    let lengths = lengths(alloc, functions, function)?;
    match memory.enter(&lengths)? {
        Err(code) => Ok(Err(code)),
        Ok(()) => Ok(Ok(Entry {
            function,
            variables: Variables::from(first, lengths.len()),
        })),
    }
}

/// The call that begins.
pub fn frame(alloc: Global, entry: Entry) -> Result<Frame, AllocError>
    ensures { IfOk result (λ frame. (functions : List program.Function) → call_of functions frame ≡ entered functions entry) }
{
    Ok(Frame {
        function: entry.function,
        variables: entry.variables,
        levels: first_levels(alloc)?,
    })
}

// How many cells each variable of a function has.
fn lengths(alloc: Global, functions: &[Function], function: usize) -> Result<Vec<u32>, AllocError>
    ensures { IfOk result (λ lengths. lengths.items ≡ lengths_of functions.now function) }
{
    match functions.get(function) {
        None => Ok(Vec::new(alloc)),
        Some(f) => cells_of(alloc, f.variables.as_slice()),
    }
}

fn cells_of(alloc: Global, types: &[ObjectType]) -> Result<Vec<u32>, AllocError>
    ensures { IfOk result (λ lengths. lengths.items ≡ map (λ t. t.cells) types.now) }
{
    let mut lengths = Vec::new(alloc);
    for t in types {
        lengths.push(t.cells)?;
    }
    Ok(lengths)
}
