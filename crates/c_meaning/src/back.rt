//! Results that come back.

ghost use Rattle.std.specs.Prelude.{◌≡◌, IfOk};
ghost use Rattle.c_meaning.specs.declared.level.Stage.TheVariants.{Awaiting};
ghost use Rattle.c_meaning.specs.Running.{todo, state_of, outcome_of, goes_back, in_call, standing};
ghost use Rattle.c_meaning.specs.Step.{awaited, returned};

use crate::frame::Frame;
use crate::level::{Part, Stage, actions_before, target_before};
use crate::levels::push;
use crate::running::{Running, Step, block};
use c_kernel::program::Function;
use c_values::number::exit_code;
use c_values::value::read;
use c3_base::{Cell, NoMemory};
use mpi_words::End;

impl Running {
    /// The newest call, which was taken from the others, ends with a value.
    pub fn give_back(
        &mut self,
        functions: &[Function],
        frame: &Frame,
        v: Cell,
    ) -> Result<Step, NoMemory>
        ensures { IfOk result (λ did. outcome_of did (state_of functions.now self.new) ≡ in_call returned functions.now self.old frame.now v) }
    {
        self.world.memory.leave(frame.variables.count);
        let Some(mut caller) = self.frames.pop() else {
            return Ok(Step::Ended(End::Exit(exit_code(v))));
        };
        match self.come_back(functions, &mut caller, v)? {
            Err(code) => Ok(Step::Ended(End::Fault(code))),
            Ok(()) => {
                self.push(caller)?;
                Ok(Step::Local { began: false })
            }
        }
    }

    // The value comes back to a caller.
    fn come_back(
        &mut self,
        functions: &[Function],
        caller: &mut Frame,
        v: Cell,
    ) -> Result<Result<(), u16>, NoMemory>
        ensures { IfOk result (λ did. goes_back functions.now did self.new caller.new ≡ in_call awaited functions.now self.old caller.old (todo functions.now caller.old) v) }
    {
        match caller.levels.pop() {
            None => Ok(Ok(())),
            Some(level) => self.come_back_at(functions, caller, level.next, level.stage, v),
        }
    }

    fn come_back_at(
        &mut self,
        functions: &[Function],
        caller: &mut Frame,
        next: usize,
        stage: Stage,
        v: Cell,
    ) -> Result<Result<(), u16>, NoMemory>
        ensures { IfOk result (λ did. goes_back functions.now did self.new caller.new ≡ in_call awaited functions.now self.old caller.old (standing functions.now caller.old next stage) v) }
    {
        match stage {
            Stage::Awaiting { part, at } => self.receive(functions, caller, next, part, at, v),
            _ => {
                push(&mut caller.levels, next, stage)?;
                Ok(Ok(()))
            }
        }
    }

    // The call before a place has a value.
    fn receive(
        &mut self,
        functions: &[Function],
        caller: &mut Frame,
        next: usize,
        part: Part,
        at: usize,
        v: Cell,
    ) -> Result<Result<(), u16>, NoMemory>
        ensures { IfOk result (λ did. goes_back functions.now did self.new caller.new ≡ in_call awaited functions.now self.old caller.old (standing functions.now caller.old next (Awaiting part at)) v) }
    {
        let block = block(functions, caller);
        let target = target_before(actions_before(block, next, part), at);
        push(&mut caller.levels, next, Stage::Acting { part, at })?;
        match target {
            None => Ok(Ok(())),
            Some(target) => {
                let v = read(target.kind, v);
                Ok(self.world.store(&caller.variables, &target.place, v))
            }
        }
    }
}
