//! Instructions that ask for operations, and what comes back.

ghost use Rattle.std.specs.Prelude.{◌≡◌, ◌+◌, ◌≤◌, IfOk, List, None};
ghost use Rattle.c_values.specs.Value.{values_of};
ghost use Rattle.c_values.specs.Text.{printed};
ghost use Rattle.mpi_effects.specs.Requests.{bytes_of, bytes_asked};
ghost use Rattle.mpi_effects.specs.World.{came_to};
ghost use Rattle.flat_code.specs.declared.code.FlatFunction.{FlatFunction};
ghost use Rattle.flat_code.specs.Machine.{asks, prints, calls_mpi, comes_to, answered, with_ok};
ghost use Rattle.flat_code.specs.Machine as machine;
ghost use Rattle.rank_machine.specs.State.{outcome_by, in_call, answer_of, laid_of, left_of, machine_of};

use crate::frame::{Frame, after};
use crate::parts::{Change, Parts, fault};
use c_kernel::program::{Expr, MpiCall, Piece};
use c3_base::NoMemory;
use mpi_effects::Request;
use mpi_words::{End, Reply};

impl Parts {
    /// An operation waits for its reply.
    pub fn ask(&mut self, frame: &mut Frame, request: Request) -> Result<Change, NoMemory>
        requires { self.old.world.requests.printed + bytes_of request.operation ≤ 1048576 }
        ensures outcome { IfOk result (λ did. (functions : List FlatFunction) → (below : List machine.Frame) → outcome_by functions did self.new frame.new below ≡ in_call asks self.old frame.old below (frame.old.place + 1) request) }
        ensures laid { laid_of self.new ≡ laid_of self.old }
    {
        frame.place = after(frame.place)?;
        self.world.requests.ask(request);
        Ok(Change::Asks)
    }

    /// `printf`.
    pub fn print(
        &mut self,
        frame: &mut Frame,
        format: &[Piece],
        arguments: &[Expr],
    ) -> Result<Change, NoMemory>
        ensures outcome { IfOk result (λ did. (functions : List FlatFunction) → (below : List machine.Frame) → outcome_by functions did self.new frame.new below ≡ with_ok (values_of arguments.now frame.old.variables self.old.world.memory.memory) (λ vs. in_call prints self.old frame.old below (frame.old.place + 1) (printed format.now vs))) }
        ensures laid { laid_of self.new ≡ laid_of self.old }
    {
        match self
            .world
            .print(self.alloc, &frame.variables, format, arguments)?
        {
            Err(code) => fault(code),
            Ok(request) => self.ask(frame, request),
        }
    }

    /// A call of MPI.
    pub fn call_mpi(&mut self, frame: &mut Frame, call: &MpiCall) -> Result<Change, NoMemory>
        ensures outcome { IfOk result (λ did. (functions : List FlatFunction) → (below : List machine.Frame) → outcome_by functions did self.new frame.new below ≡ in_call calls_mpi self.old frame.old below (frame.old.place + 1) call.now) }
        ensures laid { laid_of self.new ≡ laid_of self.old }
    {
        match self.world.call(self.alloc, &frame.variables, call)? {
            Err(code) => fault(code),
            Ok(request) => self.come_to(frame, request),
        }
    }

    // What a call comes to, when it has written.
    fn come_to(&mut self, frame: &mut Frame, request: Option<Request>) -> Result<Change, NoMemory>
        requires { bytes_asked request ≡ 0 }
        ensures outcome { IfOk result (λ did. (functions : List FlatFunction) → (below : List machine.Frame) → outcome_by functions did self.new frame.new below ≡ in_call comes_to self.old frame.old below (frame.old.place + 1) (came_to self.old.world.memory.memory self.old.world.requests.phase request)) }
        ensures laid { laid_of self.new ≡ laid_of self.old }
    {
        match request {
            None => {
                frame.place = after(frame.place)?;
                Ok(Change::Goes { began: false })
            }
            Some(request) => self.ask(frame, request),
        }
    }

    /// The reply to the operation that waits for one, and how the machine ends where a message is a fault.
    pub fn answer(&mut self, reply: Reply) -> Option<End>
        ensures outcome { (frames : List machine.Frame) → answer_of result (machine_of self.new frames) ≡ answered (machine_of self.old frames) reply }
        ensures laid { laid_of self.new ≡ laid_of self.old }
        ensures left { left_of self.new ≡ left_of self.old }
        ensures asked { self.new.world.requests.asked ≡ None }
    {
        match self.world.answer(reply) {
            Err(code) => Some(End::Fault(code)),
            Ok(()) => None,
        }
    }
}
