//! Calls of MPI, and what comes back.

ghost use Rattle.std.specs.Prelude.{◌≡◌, IfOk, List};
ghost use Rattle.c_kernel.specs.declared.program.Function as program;
ghost use Rattle.mpi_effects.specs.Requests.{bytes_asked};
ghost use Rattle.mpi_effects.specs.World.{came_to};
ghost use Rattle.c_meaning.specs.declared.level.Stage.TheVariants.{Between};
ghost use Rattle.c_meaning.specs.Running.{state_of, outcome_by, answer_of, in_call, standing};
ghost use Rattle.c_meaning.specs.Step.{answered, calls_mpi, comes_to};

use crate::frame::Frame;
use crate::level::Stage;
use crate::running::{Change, Running, fault};
use c_kernel::program::MpiCall;
use c3_base::NoMemory;
use mpi_effects::Request;
use mpi_words::{End, Reply};

impl Running {
    /// A call of MPI.
    pub fn call_mpi(
        &mut self,
        frame: &mut Frame,
        next: usize,
        call: &MpiCall,
    ) -> Result<Change, NoMemory>
        ensures { IfOk result (λ did. (functions : List program.Function) → outcome_by functions did self.new frame.new ≡ in_call calls_mpi functions self.old frame.old (standing functions frame.old next Between) call.now) }
    {
        match self.world.call(self.alloc, &frame.variables, call)? {
            Err(code) => fault(code),
            Ok(request) => self.come_to(frame, next, request),
        }
    }

    // What a call comes to, when it has written.
    fn come_to(
        &mut self,
        frame: &mut Frame,
        next: usize,
        request: Option<Request>,
    ) -> Result<Change, NoMemory>
        requires { bytes_asked request ≡ 0 }
        ensures { IfOk result (λ did. (functions : List program.Function) → outcome_by functions did self.new frame.new ≡ in_call comes_to functions self.old frame.old (standing functions frame.old next Between) (came_to self.old.world.memory self.old.world.requests.phase request)) }
    {
        match request {
            None => self.put(frame, next, Stage::Between),
            Some(request) => self.ask(frame, next, request),
        }
    }

    /// The reply to the operation that waits for one, and how the rank ends where a message is a fault.
    pub fn answer(&mut self, reply: Reply) -> Option<End>
        ensures { (functions : List program.Function) → answer_of result (state_of functions self.new) ≡ answered (state_of functions self.old) reply }
    {
        match self.world.answer(reply) {
            Err(code) => Some(End::Fault(code)),
            Ok(()) => None,
        }
    }
}
