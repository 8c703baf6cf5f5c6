//! What a rank's program acts on: its memory, its output and MPI.

ghost use Rattle.std.specs.Prelude.{◌≡◌, ◌+◌, ◌<◌, ◌≤◌, ◌^◌, IfOk, Some, None};
ghost use Rattle.c_memory.specs.Memory.{map_ok};
ghost use Rattle.c_values.specs.Text.{printed};
ghost use Rattle.c_values.specs.Value.{then_with, value_of, values_of};
ghost use Rattle.mpi_effects.specs.Mpi.{effect};
ghost use Rattle.mpi_effects.specs.Requests.{bytes_of, bytes_asked, receipt_of};
ghost use Rattle.mpi_effects.specs.World.{stored, output, came_to, taken};

use crate::mpi::{call, take_in};
use crate::requests::{Receipt, Request, Requests};
use c_kernel::program::{Expr, MpiCall, MpiFunction, Piece, Place};
use c_memory::Objects;
use c_values::print::text;
use c_values::value::{Variables, place as place_of, value, values};
use c3_base::{Cell, NoMemory};
use mpi_words::{Message, Reply};
use std::alloc::Global;

/// A rank's memory, and what it has to do with others.
#[derive(Drop)]
pub struct World<M> {
    pub memory: M,
    pub requests: Requests,
}

impl<M: Objects> World<M> {
    /// A value is stored at a place.
    pub fn store(&mut self, variables: &Variables, place: &Place<Expr>, v: Cell) -> Result<(), u16>
        requires { variables.now.first + variables.now.count < 2 ^ 64 }
        ensures memory { map_ok (λ done. M.memory self.new.memory) result ≡ stored variables.now (M.memory self.old.memory) place.now v }
        ensures rest { M.rest self.new.memory ≡ M.rest self.old.memory }
        ensures requests { self.new.requests ≡ self.old.requests }
    {
        let spot = place_of(place, variables, &self.memory)?;
        self.memory.store(spot, v)
    }

    /// The value of an expression is stored at a place, which is found after it.
    pub fn set(&mut self, variables: &Variables, place: &Place<Expr>, e: &Expr) -> Result<(), u16>
        requires { variables.now.first + variables.now.count < 2 ^ 64 }
        ensures memory { map_ok (λ done. M.memory self.new.memory) result ≡ then_with (value_of e.now variables.now (M.memory self.old.memory)) (stored variables.now (M.memory self.old.memory) place.now) }
        ensures rest { M.rest self.new.memory ≡ M.rest self.old.memory }
        ensures requests { self.new.requests ≡ self.old.requests }
    {
        let v = value(e, variables, &self.memory)?;
        self.store(variables, place, v)
    }

    /// `printf`, as an operation.
    pub fn print(
        &self,
        alloc: Global,
        variables: &Variables,
        format: &[Piece],
        arguments: &[Expr],
    ) -> Result<Result<Request, u16>, NoMemory>
        requires { variables.now.first + variables.now.count < 2 ^ 64 }
        ensures request { IfOk result (λ did. did ≡ then_with (values_of arguments.now variables.now (M.memory self.now.memory)) (λ vs. output self.now.requests.printed (printed format.now vs))) }
        ensures room { IfOk result (λ did. IfOk did (λ request. self.now.requests.printed + bytes_of request.operation ≤ 1048576)) }
    {
        match values(alloc, arguments, variables, &self.memory)? {
            Err(code) => Ok(Err(code)),
            Ok(vs) => Ok(self.requests.output(text(alloc, format, &vs)?)),
        }
    }

    /// A call of MPI, with the operation that it asks for.
    pub fn call(
        &mut self,
        alloc: Global,
        variables: &Variables,
        call: &MpiCall,
    ) -> Result<Result<Option<Request>, u16>, NoMemory>
        requires { variables.now.first + variables.now.count < 2 ^ 64 }
        ensures effect { IfOk result (λ did. map_ok (came_to (M.memory self.new.memory) self.new.requests.phase) did ≡ then_with (values_of call.now.arguments variables.now (M.memory self.old.memory)) (effect self.old.requests.seat self.old.requests.phase (M.memory self.old.memory) call.now.function)) }
        ensures silent { IfOk result (λ did. IfOk did (λ request. bytes_asked request ≡ 0)) }
        ensures rest { M.rest self.new.memory ≡ M.rest self.old.memory }
        ensures seat { self.new.requests.seat ≡ self.old.requests.seat }
        ensures printed { self.new.requests.printed ≡ self.old.requests.printed }
        ensures asked { self.new.requests.asked ≡ self.old.requests.asked }
    {
        match values(alloc, call.arguments.as_slice(), variables, &self.memory)? {
            Err(code) => Ok(Err(code)),
            Ok(vs) => self.perform(alloc, call.function, &vs),
        }
    }

    fn perform(
        &mut self,
        alloc: Global,
        function: MpiFunction,
        arguments: &[Cell],
    ) -> Result<Result<Option<Request>, u16>, NoMemory>
        ensures effect { IfOk result (λ did. map_ok (came_to (M.memory self.new.memory) self.new.requests.phase) did ≡ effect self.old.requests.seat self.old.requests.phase (M.memory self.old.memory) function arguments.now) }
        ensures silent { IfOk result (λ did. IfOk did (λ request. bytes_asked request ≡ 0)) }
        ensures rest { M.rest self.new.memory ≡ M.rest self.old.memory }
        ensures seat { self.new.requests.seat ≡ self.old.requests.seat }
        ensures printed { self.new.requests.printed ≡ self.old.requests.printed }
        ensures asked { self.new.requests.asked ≡ self.old.requests.asked }
    {
        let seat = self.requests.seat;
        let phase = self.requests.phase;
        match call(alloc, seat, phase, &mut self.memory, function, arguments)? {
            Err(code) => Ok(Err(code)),
            Ok(effect) => {
                self.requests.phase = effect.phase;
                Ok(Ok(effect.request))
            }
        }
    }

    /// The reply to the operation that waits for one, or the fault that its message is.
    pub fn answer(&mut self, reply: Reply) -> Result<(), u16>
        ensures memory { map_ok (λ done. M.memory self.new.memory) result ≡ taken (M.memory self.old.memory) (receipt_of self.old.requests.asked) reply }
        ensures rest { M.rest self.new.memory ≡ M.rest self.old.memory }
        ensures seat { self.new.requests.seat ≡ self.old.requests.seat }
        ensures phase { self.new.requests.phase ≡ self.old.requests.phase }
        ensures printed { self.new.requests.printed ≡ self.old.requests.printed + bytes_asked self.old.requests.asked }
        ensures asked { self.new.requests.asked ≡ None }
    {
        match self.requests.answer() {
            None => Ok(()),
            Some(receipt) => self.receive(receipt, reply),
        }
    }

    fn receive(&mut self, receipt: Receipt, reply: Reply) -> Result<(), u16>
        ensures memory { map_ok (λ done. M.memory self.new.memory) result ≡ taken (M.memory self.old.memory) (Some receipt) reply }
        ensures rest { M.rest self.new.memory ≡ M.rest self.old.memory }
        ensures requests { self.new.requests ≡ self.old.requests }
    {
        match reply {
            Reply::Done => Ok(()),
            Reply::Got { source, message } => take_in(&mut self.memory, receipt, source, &message),
        }
    }
}
