//! A program that runs, and its steps.

ghost use Rattle.std.specs.Prelude.{◌≡◌, IfOk, None, true};
ghost use Rattle.rank_machine.specs.Placing as spec;
ghost use Rattle.flat_code.specs.Machine.{answered, returned, step, step_in};
ghost use Rattle.flat_code.specs.Placed.{none_fits};
ghost use Rattle.rank_machine.specs.Placing.{end_by, laid_after, laid_in};
ghost use Rattle.rank_machine.specs.Running.{goes_on, outcome_of, placing_of, state_of};
ghost use Rattle.rank_machine.specs.State.{answer_of, frame_of, frames_of, heap_of, is_on, laid_of, left_of, machine_with, outcome_by};

use crate::act::begins;
use crate::frame::Frame;
use crate::parts::{Change, Parts};
use c_values::number::exit_code;
use c3_base::{Cell, NoMemory};
use flat_code::FlatFunction;
use mpi_words::{End, Reply};

/// What its instructions act on, the calls that are under way, the newest last, and how it ended, where it has.
#[derive(Drop)]
pub struct Running {
    pub parts: Parts,
    pub frames: Vec<Frame>,
    pub end: Option<End>,
}

/// What one step did.
#[derive(Clone, Copy)]
pub enum Step {
    /// The machine goes on. A statement may have begun.
    Local { began: bool },
    /// An operation waits for its reply.
    Wants,
    Ended(End),
}

impl Running {
    /// Whether the next step begins a statement.
    pub fn begins(&self, functions: &[FlatFunction]) -> bool
        ensures { result ≡ spec.begins functions.now (placing_of self.now) }
    {
        if self.parts.world.requests.asked.is_some() {
            return false;
        }
        self.newest_begins(functions)
    }

    #[tactic(auto, using(crate::proofs::Frames::frames_more))]
    fn newest_begins(&self, functions: &[FlatFunction]) -> bool
        ensures { result ≡ spec.begins_in functions.now (frames_of self.now.frames.items) }
    {
        match self.frames.split_last() {
            None => false,
            Some((frame, _)) => begins(functions, frame),
        }
    }

    /// One step. Without a reply an operation is wanted again.
    pub fn step(&mut self, functions: &[FlatFunction]) -> Result<Step, NoMemory>
        ensures outcome { IfOk result (λ did. outcome_of did (state_of self.new) ≡ step functions.now (none_fits (heap_of self.old.parts)) (state_of self.old)) }
        ensures laid { IfOk result (λ did. goes_on did ≡ true → laid_of self.new.parts ≡ laid_after functions.now (placing_of self.old)) }
    {
        match &self.parts.world.requests.asked {
            None => self.step_in(functions),
            Some(_) => Ok(Step::Wants),
        }
    }

    fn step_in(&mut self, functions: &[FlatFunction]) -> Result<Step, NoMemory>
        ensures outcome { IfOk result (λ did. outcome_of did (state_of self.new) ≡ step_in functions.now (none_fits (heap_of self.old.parts)) (state_of self.old) (frames_of self.old.frames.items)) }
        ensures laid { IfOk result (λ did. goes_on did ≡ true → laid_of self.new.parts ≡ laid_in functions.now (state_of self.old) (laid_of self.old.parts) (frames_of self.old.frames.items)) }
    {
        let Some(mut frame) = self.frames.pop() else {
            return Ok(Step::Ended(End::Fault(108)));
        };
        // so many objects no run makes
        if self.parts.world.memory.next() >= 1 << 62 {
            return Err(NoMemory);
        }
        let did = self.parts.go_on(functions, &mut frame)?;
        self.follow(functions, frame, did)
    }

    // What follows a change of the newest call, which was taken from the others.
    fn follow(
        &mut self,
        functions: &[FlatFunction],
        frame: Frame,
        did: Change,
    ) -> Result<Step, NoMemory>
        ensures outcome { IfOk result (λ step. outcome_of step (state_of self.new) ≡ outcome_by functions.now did self.old.parts frame (frames_of self.old.frames.items)) }
        ensures laid { laid_of self.new.parts ≡ laid_of self.old.parts }
        ensures on { IfOk result (λ step. goes_on step ≡ true → is_on did ≡ true) }
    {
        match did {
            Change::Goes { began } => {
                self.frames.push(frame)?;
                Ok(Step::Local { began })
            }
            Change::Asks => {
                self.frames.push(frame)?;
                Ok(Step::Wants)
            }
            Change::Ends(end) => Ok(Step::Ended(end)),
            Change::Enters(entered) => {
                self.frames.push(frame)?;
                self.frames.push(entered)?;
                Ok(Step::Local { began: false })
            }
            Change::Returns(v) => self.give_back(functions, frame, v),
        }
    }

    // The newest call ends with a value.
    fn give_back(
        &mut self,
        functions: &[FlatFunction],
        frame: Frame,
        v: Cell,
    ) -> Result<Step, NoMemory>
        ensures outcome { IfOk result (λ did. outcome_of did (state_of self.new) ≡ returned functions.now (machine_with self.old.parts frame (frames_of self.old.frames.items)) (frame_of frame) (frames_of self.old.frames.items) v) }
        ensures laid { laid_of self.new.parts ≡ laid_of self.old.parts }
    {
        self.parts.world.memory.leave(frame.variables.count);
        let Some(mut caller) = self.frames.pop() else {
            return Ok(Step::Ended(End::Exit(exit_code(v))));
        };
        match self.parts.come_back(functions, &mut caller, v)? {
            Err(code) => Ok(Step::Ended(End::Fault(code))),
            Ok(()) => {
                self.frames.push(caller)?;
                Ok(Step::Local { began: false })
            }
        }
    }

    /// The reply to the operation that waits for one, and how the program ends where a message is a fault.
    pub fn answer(&mut self, reply: Reply) -> Option<End>
        ensures answer { answer_of result (state_of self.new) ≡ answered (state_of self.old) reply }
        ensures laid { laid_of self.new.parts ≡ laid_of self.old.parts }
        ensures left { left_of self.new.parts ≡ left_of self.old.parts }
        ensures asked { self.new.parts.world.requests.asked ≡ None }
        ensures end { self.new.end ≡ end_by result self.old.end }
    {
        match self.parts.answer(reply) {
            None => None,
            Some(end) => {
                self.end = Some(end);
                Some(end)
            }
        }
    }
}
