//! What is done at once.

ghost use Rattle.std.specs.Prelude.{◌≡◌, ◌<◌, ◌-◌, ◌^◌, Some, slice_get, IfOk, List};
ghost use Rattle.c_kernel.specs.declared.program.Stmt.{out-Stmt};
ghost use Rattle.c_meaning.specs.declared.level.Stage.TheVariants.{Acting};
ghost use Rattle.c_meaning.specs.Level.{actions_in, after_part};
ghost use Rattle.c_meaning.specs.Level as level;
ghost use Rattle.c_kernel.specs.declared.program.Function as program;
ghost use Rattle.c_meaning.specs.Running.{todo, block_of, outcome_by, in_call, standing};
ghost use Rattle.c_meaning.specs.Step.{goes_on, acts, stores, allocates, with_ok};
ghost use Rattle.c_memory.specs.Memory.{is_full, cells_asked};
ghost use Rattle.c_values.specs.Value.{value_of};

use crate::frame::Frame;
use crate::level::{Part, Stage, actions_before};
use crate::levels::push;
use crate::running::{Change, Running, block, fault};
use c_kernel::Extent;
use c_kernel::program::{Action, Expr, Function, Place};
use c_memory::cells_asked;
use c_values::value::{value, variable};
use c3_base::{Cell, NoMemory};

impl Running {
    /// The action at a place of these.
    pub fn act(
        &mut self,
        functions: &[Function],
        frame: &mut Frame,
        next: usize,
        part: Part,
        at: usize,
    ) -> Result<Change, NoMemory>
        requires { self.old.world.memory.next < 2 ^ 62 }
        ensures { IfOk result (λ did. outcome_by functions.now did self.new frame.new ≡ in_call (goes_on functions.now is_full) functions.now self.old frame.old (standing functions.now frame.old next (Acting part at))) }
    {
        let block = block(functions, frame);
        match actions_before(block, next, part).get(at) {
            None => self.put(frame, next, after(part)),
            Some(action) => self.perform_action(functions, frame, next, part, at + 1, action),
        }
    }

    // An action, after which those from a place on follow.
    fn perform_action(
        &mut self,
        functions: &[Function],
        frame: &mut Frame,
        next: usize,
        part: Part,
        at: usize,
        action: &Action,
    ) -> Result<Change, NoMemory>
        requires is { slice_get (actions_in (out-Stmt (level.statement_before (block_of functions.now frame.old) next)) part) (at - 1) ≡ Some action.now }
        requires few { self.old.world.memory.next < 2 ^ 62 }
        ensures { IfOk result (λ did. outcome_by functions.now did self.new frame.new ≡ in_call (acts functions.now is_full) functions.now self.old frame.old (standing functions.now frame.old next (Acting part at)) action.now) }
    {
        match action {
            Action::Zero(k) => {
                self.world
                    .memory
                    .zero(variable(*k, &frame.variables).serial);
                self.put(frame, next, Stage::Acting { part, at })
            }
            Action::Set { place, value } => {
                push(&mut frame.levels, next, Stage::Acting { part, at })?;
                self.set(frame, place, value)
            }
            Action::Call {
                function,
                arguments,
                ..
            } => {
                push(&mut frame.levels, next, Stage::Awaiting { part, at })?;
                self.call(functions, frame, *function, arguments.as_slice())
            }
            Action::Malloc { place, bytes, each } => {
                push(&mut frame.levels, next, Stage::Acting { part, at })?;
                self.malloc(frame, place, bytes, *each)
            }
        }
    }

    // The right side, and then the place.
    fn set(&mut self, frame: &Frame, place: &Place<Expr>, e: &Expr) -> Result<Change, NoMemory>
        ensures { IfOk result (λ did. (functions : List program.Function) → outcome_by functions did self.new frame.now ≡ with_ok (value_of e.now frame.now.variables self.old.world.memory) (in_call stores functions self.old frame.now (todo functions frame.now) place.now)) }
    {
        match self.world.set(&frame.variables, place, e) {
            Err(code) => fault(code),
            Ok(()) => Ok(Change::Goes { began: false }),
        }
    }

    // A value is stored at a place.
    fn store(&mut self, frame: &Frame, place: &Place<Expr>, v: Cell) -> Result<Change, NoMemory>
        ensures { IfOk result (λ did. (functions : List program.Function) → outcome_by functions did self.new frame.now ≡ in_call stores functions self.old frame.now (todo functions frame.now) place.now v) }
    {
        match self.world.store(&frame.variables, place, v) {
            Err(code) => fault(code),
            Ok(()) => Ok(Change::Goes { began: false }),
        }
    }

    // `malloc`.
    fn malloc(
        &mut self,
        frame: &Frame,
        place: &Place<Expr>,
        bytes: &Expr,
        each: Extent,
    ) -> Result<Change, NoMemory>
        requires { self.old.world.memory.next < 2 ^ 62 }
        ensures { IfOk result (λ did. (functions : List program.Function) → outcome_by functions did self.new frame.now ≡ with_ok (value_of bytes.now frame.now.variables self.old.world.memory) (λ n. in_call (allocates is_full) functions self.old frame.now (todo functions frame.now) place.now (cells_asked n.word each))) }
    {
        match value(bytes, &frame.variables, &self.world.memory) {
            Err(code) => fault(code),
            Ok(n) => self.allocate(frame, place, cells_asked(n.word, each)),
        }
    }

    // What is given for so many cells is stored at a place.
    fn allocate(
        &mut self,
        frame: &Frame,
        place: &Place<Expr>,
        asked: Option<u128>,
    ) -> Result<Change, NoMemory>
        requires { self.old.world.memory.next < 2 ^ 62 }
        ensures { IfOk result (λ did. (functions : List program.Function) → outcome_by functions did self.new frame.now ≡ in_call (allocates is_full) functions self.old frame.now (todo functions frame.now) place.now asked) }
    {
        let given = self.world.memory.give(asked)?;
        self.store(frame, place, given)
    }
}

// What comes next after the last of these actions.
fn after(part: Part) -> Stage
    ensures { result ≡ after_part part }
{
    match part {
        Part::Own => Stage::Between,
        Part::Start => Stage::Testing,
        Part::Last => Stage::Testing,
    }
}
