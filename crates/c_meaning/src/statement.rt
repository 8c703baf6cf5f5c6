//! Statements that have begun.

ghost use Rattle.std.specs.Prelude.{◌≡◌, ◌∷◌, ◌+◌, ◌≤◌, IfOk, List};
ghost use Rattle.c_kernel.specs.declared.program.Stmt.{out-Stmt};
ghost use Rattle.c_kernel.specs.declared.program.Stmt.TheOpen.{If};
ghost use Rattle.c_meaning.specs.declared.level.Stage.TheVariants.{Between, Begun};
ghost use Rattle.c_meaning.specs.Level as level;
ghost use Rattle.c_kernel.specs.declared.program.Function as program;
ghost use Rattle.c_meaning.specs.Running.{todo, block_of, outcome_by, in_call, standing};
ghost use Rattle.c_meaning.specs.State.{Rest, after_loop, to_loop};
ghost use Rattle.c_memory.specs.Memory as memory;
ghost use Rattle.c_memory.specs.Memory.{is_full};
ghost use Rattle.c_meaning.specs.Step.{goes_to, goes_with, asks, goes_on, does, branch, prints, returned, with_ok};
ghost use Rattle.mpi_effects.specs.Requests.{bytes_of};
ghost use Rattle.c_values.specs.Text.{printed};
ghost use Rattle.c_values.specs.Value.{value_of, values_of};

use crate::choice::chosen;
use crate::frame::Frame;
use crate::level::{Part, Stage, begun};
use crate::levels::{continue_loop, leave_loop, push};
use crate::running::{Change, Running, block, fault};
use c_kernel::program::{Arm, Expr, Function, Piece, Stmt};
use c_memory::number;
use c_values::value::value;
use c3_base::{Cell, NoMemory};
use mpi_effects::Request;
use mpi_words::Op;

impl Running {
    /// A statement that has begun.
    pub fn perform(
        &mut self,
        functions: &[Function],
        frame: &mut Frame,
        next: usize,
    ) -> Result<Change, NoMemory>
        ensures { IfOk result (λ did. outcome_by functions.now did self.new frame.new ≡ in_call (goes_on functions.now is_full) functions.now self.old frame.old (standing functions.now frame.old next Begun)) }
    {
        let block = block(functions, frame);
        match begun(block, next) {
            None => self.leave(frame),
            Some(x) => self.perform_statement(functions, frame, next, x),
        }
    }

    fn perform_statement(
        &mut self,
        functions: &[Function],
        frame: &mut Frame,
        next: usize,
        x: &Stmt,
    ) -> Result<Change, NoMemory>
        requires { x.now ≡ level.statement_before (block_of functions.now frame.old) next }
        ensures { IfOk result (λ did. outcome_by functions.now did self.new frame.new ≡ in_call (does functions.now) functions.now self.old frame.old (standing functions.now frame.old next Between) x.now (out-Stmt x.now)) }
    {
        match x {
            Stmt::Actions(_) => {
                let part = Part::Own;
                self.put(frame, next, Stage::Acting { part, at: 0 })
            }
            Stmt::Block(_) => self.put_inside(frame, next, Stage::Between, 0),
            Stmt::If { arms, otherwise } => {
                self.choose(
                    functions,
                    frame,
                    next,
                    arms.as_slice(),
                    otherwise.as_slice(),
                )
            }
            Stmt::While { .. } => self.put(frame, next, Stage::Testing),
            Stmt::DoWhile { .. } => self.put_inside(frame, next, Stage::Testing, 0),
            Stmt::For { .. } => {
                let part = Part::Start;
                self.put(frame, next, Stage::Acting { part, at: 0 })
            }
            Stmt::Break => self.leave(frame),
            Stmt::Continue => self.resume(frame),
            Stmt::Return(None) => Ok(Change::Returns(number(0))),
            Stmt::Return(Some(e)) => self.return_value(frame, e),
            Stmt::Print { format, arguments } => {
                self.print(frame, next, format.as_slice(), arguments.as_slice())
            }
            Stmt::Free(e) => self.free(frame, next, e),
            Stmt::Mpi(call) => self.call_mpi(frame, next, call),
            Stmt::Mark => self.ask(frame, next, Request::plain(Op::Mark)),
        }
    }

    // An `if`.
    fn choose(
        &mut self,
        functions: &[Function],
        frame: &mut Frame,
        next: usize,
        arms: &[Arm<Stmt>],
        otherwise: &[Stmt],
    ) -> Result<Change, NoMemory>
        requires { out-Stmt (level.statement_before (block_of functions.now frame.old) next) ≡ If arms.now otherwise.now }
        ensures { IfOk result (λ did. outcome_by functions.now did self.new frame.new ≡ with_ok (branch arms.now otherwise.now frame.old.variables self.old.world.memory) (λ ss. in_call goes_to functions.now self.old frame.old (Rest ss ∷ standing functions.now frame.old next Between))) }
    {
        match chosen(arms, &frame.variables, &self.world.memory) {
            Err(code) => fault(code),
            Ok(inner) => self.put_inside(frame, next, Stage::Between, inner),
        }
    }

    // A `break`.
    fn leave(&mut self, frame: &mut Frame) -> Result<Change, NoMemory>
        ensures { IfOk result (λ did. (functions : List program.Function) → outcome_by functions did self.new frame.new ≡ in_call goes_to functions self.old frame.old (after_loop (todo functions frame.old))) }
    {
        leave_loop(&mut frame.levels)?;
        Ok(Change::Goes { began: false })
    }

    // A `continue`.
    fn resume(&mut self, frame: &mut Frame) -> Result<Change, NoMemory>
        ensures { IfOk result (λ did. (functions : List program.Function) → outcome_by functions did self.new frame.new ≡ in_call goes_to functions self.old frame.old (to_loop (todo functions frame.old))) }
    {
        continue_loop(&mut frame.levels)?;
        Ok(Change::Goes { began: false })
    }

    fn return_value(&self, frame: &Frame, e: &Expr) -> Result<Change, NoMemory>
        ensures { IfOk result (λ did. (functions : List program.Function) → outcome_by functions did self.now frame.now ≡ with_ok (value_of e.now frame.now.variables self.now.world.memory) (in_call returned functions self.now frame.now)) }
    {
        match value(e, &frame.variables, &self.world.memory) {
            Err(code) => fault(code),
            Ok(v) => Ok(Change::Returns(v)),
        }
    }

    // `free`.
    fn free(&mut self, frame: &mut Frame, next: usize, e: &Expr) -> Result<Change, NoMemory>
        ensures { IfOk result (λ did. (functions : List program.Function) → outcome_by functions did self.new frame.new ≡ with_ok (value_of e.now frame.old.variables self.old.world.memory) (λ p. with_ok (memory.free self.old.world.memory p) (in_call goes_with functions self.old frame.old (standing functions frame.old next Between)))) }
    {
        match value(e, &frame.variables, &self.world.memory) {
            Err(code) => fault(code),
            Ok(pointer) => self.free_object(frame, next, pointer),
        }
    }

    fn free_object(
        &mut self,
        frame: &mut Frame,
        next: usize,
        pointer: Cell,
    ) -> Result<Change, NoMemory>
        ensures { IfOk result (λ did. (functions : List program.Function) → outcome_by functions did self.new frame.new ≡ with_ok (memory.free self.old.world.memory pointer) (in_call goes_with functions self.old frame.old (standing functions frame.old next Between))) }
    {
        match self.world.memory.free(pointer) {
            Err(code) => fault(code),
            Ok(()) => self.put(frame, next, Stage::Between),
        }
    }

    // `printf`.
    fn print(
        &mut self,
        frame: &mut Frame,
        next: usize,
        format: &[Piece],
        arguments: &[Expr],
    ) -> Result<Change, NoMemory>
        ensures { IfOk result (λ did. (functions : List program.Function) → outcome_by functions did self.new frame.new ≡ with_ok (values_of arguments.now frame.old.variables self.old.world.memory) (λ vs. in_call prints functions self.old frame.old (standing functions frame.old next Between) (printed format.now vs))) }
    {
        match self
            .world
            .print(self.alloc, &frame.variables, format, arguments)?
        {
            Err(code) => fault(code),
            Ok(request) => self.ask(frame, next, request),
        }
    }

    /// An operation, which waits for its reply.
    pub fn ask(
        &mut self,
        frame: &mut Frame,
        next: usize,
        request: Request,
    ) -> Result<Change, NoMemory>
        requires { self.old.world.requests.printed + bytes_of request.operation ≤ 1048576 }
        ensures { IfOk result (λ did. (functions : List program.Function) → outcome_by functions did self.new frame.new ≡ in_call asks functions self.old frame.old (standing functions frame.old next Between) request) }
    {
        push(&mut frame.levels, next, Stage::Between)?;
        self.world.requests.ask(request);
        Ok(Change::Asks)
    }
}
