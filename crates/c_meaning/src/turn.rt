//! Turns of loops.

ghost use Rattle.std.specs.Prelude.{◌≡◌, ◌∷◌, IfOk, List};
ghost use Rattle.c_kernel.specs.declared.program.Stmt.{out-Stmt};
ghost use Rattle.c_meaning.specs.Level.{branch_in};
ghost use Rattle.c_meaning.specs.Level as level;
ghost use Rattle.c_meaning.specs.declared.level.Stage.TheVariants.{Between};
ghost use Rattle.c_kernel.specs.declared.program.Function as program;
ghost use Rattle.c_meaning.specs.Running.{block_of, outcome_by, in_call, standing};
ghost use Rattle.c_meaning.specs.State.{Rest};
ghost use Rattle.c_meaning.specs.Step.{tests, steps, turns};

use crate::frame::Frame;
use crate::level::{Part, Stage, begun};
use crate::running::{Change, Running, block, fault};
use c_kernel::program::{Expr, Function, Stmt};
use c_values::value::{is_false, value};
use c3_base::NoMemory;

impl Running {
    /// A loop whose test comes next.
    pub fn test(
        &mut self,
        functions: &[Function],
        frame: &mut Frame,
        next: usize,
    ) -> Result<Change, NoMemory>
        ensures { IfOk result (λ did. outcome_by functions.now did self.new frame.new ≡ in_call tests functions.now self.old frame.old (standing functions.now frame.old next Between) (level.statement_before (block_of functions.now frame.old) next) (out-Stmt (level.statement_before (block_of functions.now frame.old) next))) }
    {
        let block = block(functions, frame);
        match begun(block, next) {
            None => self.put(frame, next, Stage::Between),
            Some(x) => self.test_loop(functions, frame, next, x),
        }
    }

    fn test_loop(
        &mut self,
        functions: &[Function],
        frame: &mut Frame,
        next: usize,
        x: &Stmt,
    ) -> Result<Change, NoMemory>
        requires { x.now ≡ level.statement_before (block_of functions.now frame.old) next }
        ensures { IfOk result (λ did. outcome_by functions.now did self.new frame.new ≡ in_call tests functions.now self.old frame.old (standing functions.now frame.old next Between) x.now (out-Stmt x.now)) }
    {
        match x {
            Stmt::While { test, .. } => self.turn(frame, next, Stage::Testing, test),
            Stmt::DoWhile { test, .. } => self.turn(frame, next, Stage::Testing, test),
            Stmt::For {
                test: Some(test),
                ..
            } => self.turn(frame, next, Stage::Stepping, test),
            Stmt::For { test: None, .. } => self.put_inside(frame, next, Stage::Stepping, 0),
            _ => self.put(frame, next, Stage::Between),
        }
    }

    // One more turn, where the test isn't 0.
    fn turn(
        &mut self,
        frame: &mut Frame,
        next: usize,
        stage: Stage,
        test: &Expr,
    ) -> Result<Change, NoMemory>
        ensures { IfOk result (λ did. (functions : List program.Function) → outcome_by functions did self.new frame.new ≡ in_call turns functions self.old frame.old (standing functions frame.old next Between) test.now (Rest (branch_in (out-Stmt (level.statement_before (block_of functions frame.old) next)) 0) ∷ standing functions frame.old next stage)) }
    {
        match value(test, &frame.variables, &self.world.memory) {
            Err(code) => fault(code),
            Ok(v) => {
                if is_false(v) {
                    self.put(frame, next, Stage::Between)
                } else {
                    self.put_inside(frame, next, stage, 0)
                }
            }
        }
    }

    /// The last clause of a `for` comes next.
    pub fn step_loop(
        &mut self,
        functions: &[Function],
        frame: &mut Frame,
        next: usize,
    ) -> Result<Change, NoMemory>
        ensures { IfOk result (λ did. outcome_by functions.now did self.new frame.new ≡ in_call steps functions.now self.old frame.old (standing functions.now frame.old next Between) (level.statement_before (block_of functions.now frame.old) next) (out-Stmt (level.statement_before (block_of functions.now frame.old) next))) }
    {
        let block = block(functions, frame);
        match begun(block, next) {
            Some(Stmt::For { .. }) => {
                let part = Part::Last;
                self.put(frame, next, Stage::Acting { part, at: 0 })
            }
            _ => self.put(frame, next, Stage::Testing),
        }
    }
}
