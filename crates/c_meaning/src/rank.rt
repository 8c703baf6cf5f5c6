//! A rank that runs a program.

ghost use Rattle.std.specs.Prelude.{◌≡◌, ◌<◌, ◌^◌, ℕ, IfOk, is_some, option_map, List};
ghost use Rattle.c_meaning.specs.Level.{level_items};
ghost use Rattle.c_memory.specs.Memory.{is_full};
ghost use Rattle.c_meaning.specs.State.{Item};
ghost use Rattle.c_kernel.specs.declared.program.Program as program;
ghost use Rattle.c_meaning.specs.Rank.{functions_of, state_of};
ghost use Rattle.c_meaning.specs.Running as spec;
ghost use Rattle.c_meaning.specs.Step as step;

use crate::call::{frame, reserve};
use crate::frame::Frame;
use crate::level::{Stage, block_at, body};
use crate::running::{Running, Step};
use c_kernel::program::{Function, Program, Stmt};
use c_memory::Memory;
use c3_base::NoMemory;
use mpi_effects::{Requests, Seat, World};
use mpi_words::{End, Op, Reply};
use std::alloc::Global;
use std::rc::Rc;

/// A rank: its program, and the run of it.
#[derive(Drop)]
pub struct Rank {
    program: Rc<Program>,
    running: Running,
}

impl Rank {
    /// A rank, of so many, that enters `main`.
    pub fn new(
        alloc: Global,
        program: &Rc<Program>,
        rank: u16,
        ranks: u16,
    ) -> Result<Rank, NoMemory>
        ensures program { IfOk result (λ made. functions_of made ≡ program.now.value.functions) }
        ensures start { IfOk result (λ made. state_of made ≡ step.start program.now.value rank ranks) }
    {
        let program = program.clone()?;
        let seat = Seat {
            rank,
            ranks,
            any_source: program.any_source,
        };
        let running = started(alloc, program.functions.as_slice(), program.main, seat)?;
        Ok(Rank { program, running })
    }

    /// Whether the next step begins a statement.
    pub fn begins(&self) -> bool
        ensures { result ≡ step.begins (state_of self.now) }
    {
        if self.running.world.requests.asked.is_some() {
            return false;
        }
        self.running.begins(self.program.functions.as_slice())
    }

    /// Whether an operation waits for its reply.
    pub fn waits(&self) -> bool
        ensures { result ≡ is_some (state_of self.now).asked }
    {
        self.running.world.requests.asked.is_some()
    }

    /// The operation that waits for its reply, if one does.
    pub fn operation(&self) -> Result<Option<Op>, NoMemory>
        ensures { IfOk result (λ operation. operation ≡ option_map (λ request. request.operation) (state_of self.now).asked) }
    {
        self.running.world.requests.operation()
    }

    /// One step. After an error or an end the rank is not used further.
    pub fn step(&mut self) -> Result<Step, NoMemory>
        requires { (state_of self.old).memory.next < 2 ^ 62 }
        ensures program { functions_of self.new ≡ functions_of self.old }
        ensures step { IfOk result (λ did. spec.outcome_of did (state_of self.new) ≡ step.step (functions_of self.old) is_full (state_of self.old)) }
    {
        self.running.step(self.program.functions.as_slice())
    }

    /// The reply to the operation that waits for one. Where its message is a fault, the rank ends.
    pub fn answer(&mut self, reply: Reply) -> Option<End>
        ensures program { functions_of self.new ≡ functions_of self.old }
        ensures answer { spec.answer_of result (state_of self.new) ≡ step.answered (state_of self.old) reply }
    {
        self.running.answer(reply)
    }
}

// `main` is entered, where the stack has room for it.
fn started(
    alloc: Global,
    functions: &[Function],
    main: usize,
    seat: Seat,
) -> Result<Running, NoMemory>
    ensures { IfOk result (λ run. (p : program.Program) → (rank : ℕ) → (ranks : ℕ) → p.functions ≡ functions.now → p.main ≡ main → step.seat_of p rank ranks ≡ seat → spec.state_of functions.now run ≡ step.start p rank ranks) }
{
    let mut run = Running {
        alloc,
        world: World {
            memory: Memory::new(alloc),
            requests: Requests::new(seat),
        },
        frames: Vec::new(alloc),
    };
    match reserve(alloc, &mut run.world.memory, functions, main)? {
        Err(_) => Ok(run),
        Ok(entry) => {
            run.push(frame(alloc, entry)?)?;
            Ok(run)
        }
    }
}

impl Running {
    // Whether the newest call begins a statement.
    #[tactic(auto, using(crate::proofs::Follows::calls_more))]
    fn begins(&self, functions: &[Function]) -> bool
        ensures { result ≡ step.begins_in (spec.below functions.now self.now) }
    {
        match self.frames.split_last() {
            None => false,
            Some((frame, _)) => call_begins(functions, frame),
        }
    }
}

#[tactic(auto, using(crate::proofs::Follows::items_more))]
fn call_begins(functions: &[Function], frame: &Frame) -> bool
    ensures { result ≡ step.begins_first (spec.todo functions.now frame.now) }
{
    match frame.levels.split_last() {
        None => false,
        Some((level, outer)) => {
            let block = block_at(body(functions, frame.function), outer);
            level_begins(block, level.next, level.stage)
        }
    }
}

#[tactic(auto, using(crate::proofs::Begins::rest_begins))]
fn level_begins(block: &[Stmt], next: usize, stage: Stage) -> bool
    ensures { (todo : List Item) → result ≡ step.begins_first (level_items block.now next stage todo) }
{
    match stage {
        Stage::Entering => true,
        Stage::Between => next < block.len(),
        Stage::Begun => false,
        Stage::Testing => false,
        Stage::Stepping => false,
        Stage::Acting { .. } => false,
        Stage::Awaiting { .. } => false,
    }
}
