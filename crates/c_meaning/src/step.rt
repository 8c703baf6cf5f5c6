//! One step of a program.

ghost use Rattle.std.specs.Prelude.{◌≡◌, ◌<◌, ◌^◌, IfOk, List};
ghost use Rattle.c_kernel.specs.declared.program.Function as program;
ghost use Rattle.c_meaning.specs.declared.level.Stage.TheVariants.{Between};
ghost use Rattle.c_meaning.specs.declared.running.Change.TheVariants.{Enters};
ghost use Rattle.c_memory.specs.Memory.{is_full};
ghost use Rattle.c_meaning.specs.Running.{below, todo, state_of, outcome_of, outcome_by, in_call, standing};
ghost use Rattle.c_meaning.specs.Step.{goes_on, step_in};
ghost use Rattle.c_meaning.specs.Step as spec;

use crate::call::frame as called;
use crate::frame::{Entry, Frame};
use crate::level::Stage;
use crate::levels::push;
use crate::running::{Change, Running, Step, block};
use c_kernel::program::Function;
use c_memory::number;
use c3_base::NoMemory;
use mpi_words::End;

impl Running {
    /// One step.
    pub fn step(&mut self, functions: &[Function]) -> Result<Step, NoMemory>
        requires { self.old.world.memory.next < 2 ^ 62 }
        ensures { IfOk result (λ did. outcome_of did (state_of functions.now self.new) ≡ spec.step functions.now is_full (state_of functions.now self.old)) }
    {
        match &self.world.requests.asked {
            None => self.step_in(functions),
            Some(_) => Ok(Step::Wants),
        }
    }

    fn step_in(&mut self, functions: &[Function]) -> Result<Step, NoMemory>
        requires { self.old.world.memory.next < 2 ^ 62 }
        ensures { IfOk result (λ did. outcome_of did (state_of functions.now self.new) ≡ step_in functions.now is_full (state_of functions.now self.old) (below functions.now self.old)) }
    {
        let Some(mut frame) = self.frames.pop() else {
            return Ok(Step::Ended(End::Fault(108)));
        };
        let did = self.go_on(functions, &mut frame)?;
        self.follow(functions, frame, did)
    }

    // The newest call, which was taken from the others, goes on.
    fn go_on(&mut self, functions: &[Function], frame: &mut Frame) -> Result<Change, NoMemory>
        requires { self.old.world.memory.next < 2 ^ 62 }
        ensures { IfOk result (λ did. outcome_by functions.now did self.new frame.new ≡ in_call (goes_on functions.now is_full) functions.now self.old frame.old (todo functions.now frame.old)) }
    {
        match frame.levels.pop() {
            None => Ok(Change::Returns(number(0))),
            Some(level) => self.go_on_at(functions, frame, level.next, level.stage),
        }
    }

    // What is first in it.
    fn go_on_at(
        &mut self,
        functions: &[Function],
        frame: &mut Frame,
        next: usize,
        stage: Stage,
    ) -> Result<Change, NoMemory>
        requires { self.old.world.memory.next < 2 ^ 62 }
        ensures { IfOk result (λ did. outcome_by functions.now did self.new frame.new ≡ in_call (goes_on functions.now is_full) functions.now self.old frame.old (standing functions.now frame.old next stage)) }
    {
        match stage {
            Stage::Entering => {
                push(&mut frame.levels, 0, Stage::Between)?;
                Ok(Change::Goes { began: true })
            }
            Stage::Between => self.begin(functions, frame, next),
            Stage::Begun => self.perform(functions, frame, next),
            Stage::Testing => self.test(functions, frame, next),
            Stage::Stepping => self.step_loop(functions, frame, next),
            Stage::Acting { part, at } => self.act(functions, frame, next, part, at),
            Stage::Awaiting { part, at } => self.put(frame, next, Stage::Acting { part, at }),
        }
    }

    // The next statement begins, if one is left.
    fn begin(
        &self,
        functions: &[Function],
        frame: &mut Frame,
        next: usize,
    ) -> Result<Change, NoMemory>
        ensures { IfOk result (λ did. outcome_by functions.now did self.now frame.new ≡ in_call (goes_on functions.now is_full) functions.now self.now frame.old (standing functions.now frame.old next Between)) }
    {
        let block = block(functions, frame);
        if block.len() <= next {
            return Ok(Change::Goes { began: false });
        }
        push(&mut frame.levels, next + 1, Stage::Begun)?;
        Ok(Change::Goes { began: true })
    }

    // What follows a change of the newest call.
    fn follow(
        &mut self,
        functions: &[Function],
        frame: Frame,
        did: Change,
    ) -> Result<Step, NoMemory>
        ensures { IfOk result (λ step. outcome_of step (state_of functions.now self.new) ≡ outcome_by functions.now did self.old frame) }
    {
        match did {
            Change::Goes { began } => {
                self.push(frame)?;
                Ok(Step::Local { began })
            }
            Change::Asks => {
                self.push(frame)?;
                Ok(Step::Wants)
            }
            Change::Ends(end) => Ok(Step::Ended(end)),
            Change::Enters(entry) => self.enter_call(frame, entry),
            Change::Returns(v) => self.give_back(functions, &frame, v),
        }
    }

    // A call begins, above its caller.
    fn enter_call(&mut self, caller: Frame, entry: Entry) -> Result<Step, NoMemory>
        ensures { IfOk result (λ did. (functions : List program.Function) → outcome_of did (state_of functions self.new) ≡ outcome_by functions (Enters entry) self.old caller) }
    {
        self.push(caller)?;
        let frame = called(self.alloc, entry)?;
        self.push(frame)?;
        Ok(Step::Local { began: false })
    }
}
