//! A program that runs.

ghost use Rattle.std.specs.Prelude.{◌≡◌, ◌∷◌, ◌<◌, Ok, IfOk, List};
ghost use Rattle.mpi_words.specs.declared.operation.End.TheVariants.{Fault};
ghost use Rattle.c_kernel.specs.declared.program.Stmt.{out-Stmt};
ghost use Rattle.c_meaning.specs.declared.running.Change.TheVariants.{Ends};
ghost use Rattle.c_meaning.specs.Level.{branch_in, statement_before};
ghost use Rattle.c_kernel.specs.declared.program.Function as program;
ghost use Rattle.c_meaning.specs.Running.{block_of, state_of, state_with, outcome_by, in_call, standing};
ghost use Rattle.c_meaning.specs.State.{Rest};
ghost use Rattle.c_meaning.specs.Step.{goes_to};

use crate::frame::{Entry, Frame};
use crate::level::{Stage, block_at, body};
use crate::levels::{push, push_inside};
use c_kernel::program::{Function, Stmt};
use c_memory::Memory;
use c3_base::{Cell, NoMemory};
use mpi_effects::World;
use mpi_words::End;
use std::alloc::Global;

/// What a program that runs has: what it acts on, and its calls, the newest last.
#[derive(Drop)]
pub struct Running {
    pub alloc: Global,
    pub world: World<Memory>,
    pub frames: Vec<Frame>,
}

/// What one step did.
#[derive(Drop)]
pub enum Step {
    /// Only the rank's own state changed. A statement may have begun.
    Local { began: bool },
    /// An operation waits for its reply.
    Wants,
    Ended(End),
}

/// What a step came to in the newest call, which was taken from the others.
#[derive(Drop)]
pub enum Change {
    /// It goes on. A statement may have begun.
    Goes { began: bool },
    /// It goes on with the reply to an operation.
    Asks,
    /// The program ends.
    Ends(End),
    /// A function is called.
    Enters(Entry),
    /// It ends with a value.
    Returns(Cell),
}

/// The block that the last level of a call stands in.
pub fn block<'a>(functions: &'a [Function], frame: &Frame) -> &'a [Stmt]
    ensures { result.now ≡ block_of functions.now frame.now }
{
    block_at(body(functions, frame.function), &frame.levels)
}

/// A fault.
pub fn fault(code: u16) -> Result<Change, NoMemory>
    ensures { result ≡ Ok (Ends (Fault code)) }
{
    Ok(Change::Ends(End::Fault(code)))
}

impl Running {
    /// A call comes above the others.
    pub fn push(&mut self, frame: Frame) -> Result<(), NoMemory>
        ensures { IfOk result (λ done. (functions : List program.Function) → state_of functions self.new ≡ state_with functions self.old frame) }
    {
        self.frames.push(frame)?;
        Ok(())
    }

    /// The newest call goes on, with what comes next in its last block.
    pub fn put(&self, frame: &mut Frame, next: usize, stage: Stage) -> Result<Change, NoMemory>
        ensures { IfOk result (λ did. (functions : List program.Function) → outcome_by functions did self.now frame.new ≡ in_call goes_to functions self.now frame.old (standing functions frame.old next stage)) }
    {
        push(&mut frame.levels, next, stage)?;
        Ok(Change::Goes { began: false })
    }

    /// The same, with what is inside its last statement.
    pub fn put_inside(
        &self,
        frame: &mut Frame,
        next: usize,
        stage: Stage,
        inner: usize,
    ) -> Result<Change, NoMemory>
        ensures { IfOk result (λ did. (functions : List program.Function) → outcome_by functions did self.now frame.new ≡ in_call goes_to functions self.now frame.old (Rest (branch_in (out-Stmt (statement_before (block_of functions frame.old) next)) inner) ∷ standing functions frame.old next stage)) }
    {
        push_inside(&mut frame.levels, next, stage, inner)?;
        Ok(Change::Goes { began: false })
    }
}
