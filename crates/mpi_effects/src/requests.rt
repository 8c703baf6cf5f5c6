//! What a rank has to do with others.

ghost use Rattle.std.specs.Prelude.{◌≡◌, ◌+◌, ◌≤◌, Some, None, IfOk, option_map};
ghost use Rattle.mpi_effects.specs.declared.seat.Phase.TheVariants.{Before};
ghost use Rattle.mpi_effects.specs.World.{output};
ghost use Rattle.mpi_effects.specs.Requests.{bytes_of, bytes_asked, plain_request, receipt_of};

use crate::seat::{Phase, Seat};
use c_memory::Spot;
use c3_base::NoMemory;
use mpi_words::{Datatype, List, Op};

/// An operation, and where a message goes that comes back.
#[derive(Drop)]
pub struct Request {
    pub operation: Op,
    pub receipt: Option<Receipt>,
}

impl Request {
    /// An operation of whose reply nothing is kept.
    pub fn plain(operation: Op) -> Request
        ensures { result ≡ plain_request operation }
    {
        Request {
            operation,
            receipt: None,
        }
    }
}

/// Where a receive puts its message (MPI 3.1 3.2.4).
#[derive(Clone, Copy)]
pub struct Receipt {
    pub buffer: Spot,
    /// How many elements the buffer has room for, at most 4,096.
    pub count: u16,
    pub kind: Datatype,
    pub status: Option<Spot>,
}

/// A rank's seat, the phase of its use of MPI, how many bytes it printed, and the operation that waits for its reply.
#[derive(Drop)]
pub struct Requests {
    pub seat: Seat,
    pub phase: Phase,
    pub printed: u64,
    pub asked: Option<Request>,
    ghost room: { printed + bytes_asked asked ≤ 1048576 },
}

impl Requests {
    /// Nothing was asked.
    pub fn new(seat: Seat) -> Requests
        ensures seat { result.seat ≡ seat }
        ensures phase { result.phase ≡ Before }
        ensures printed { result.printed ≡ 0 }
        ensures asked { result.asked ≡ None }
    {
        Requests {
            seat,
            phase: Phase::Before,
            printed: 0,
            asked: None,
        }
    }

    /// Bytes that are printed, as an operation, or a fault where the output would be too long.
    pub fn output(&self, text: List<u8>) -> Result<Request, u16>
        ensures output { result ≡ output self.now.printed text }
        ensures room { IfOk result (λ request. self.now.printed + bytes_of request.operation ≤ 1048576) }
    {
        if self.printed + text.as_slice().len() as u64 > 1_048_576 {
            return Err(109);
        }
        Ok(Request::plain(Op::Output(text)))
    }

    /// An operation waits for its reply.
    pub fn ask(&mut self, request: Request)
        requires { self.old.printed + bytes_of request.operation ≤ 1048576 }
        ensures seat { self.new.seat ≡ self.old.seat }
        ensures phase { self.new.phase ≡ self.old.phase }
        ensures printed { self.new.printed ≡ self.old.printed }
        ensures asked { self.new.asked ≡ Some request }
    {
        self.asked = Some(request);
    }

    /// The operation that waits for its reply, if one does.
    pub fn operation(&self) -> Result<Option<Op>, NoMemory>
        ensures { IfOk result (λ operation. operation ≡ option_map (λ request. request.operation) self.now.asked) }
    {
        match &self.asked {
            None => Ok(None),
            Some(request) => Ok(Some(request.operation.copy()?)),
        }
    }

    /// The reply has come. The result is where a message goes.
    pub fn answer(&mut self) -> Option<Receipt>
        ensures seat { self.new.seat ≡ self.old.seat }
        ensures phase { self.new.phase ≡ self.old.phase }
        ensures printed { self.new.printed ≡ self.old.printed + bytes_asked self.old.asked }
        ensures asked { self.new.asked ≡ None }
        ensures receipt { result ≡ receipt_of self.old.asked }
    {
        let receipt = self.receipt();
        self.printed += bytes(&self.asked);
        self.asked = None;
        receipt
    }

    fn receipt(&self) -> Option<Receipt>
        ensures { result ≡ receipt_of self.now.asked }
    {
        match &self.asked {
            None => None,
            Some(request) => request.receipt,
        }
    }
}

// How many bytes an operation prints.
fn bytes(asked: &Option<Request>) -> u64
    ensures { result ≡ bytes_asked asked.now }
{
    match asked {
        None => 0,
        Some(request) => printed(&request.operation),
    }
}

fn printed(op: &Op) -> u64
    ensures { result ≡ bytes_of op.now }
{
    match op {
        Op::Output(text) => text.as_slice().len() as u64,
        Op::Send { .. } | Op::Receive { .. } | Op::Mark => 0,
    }
}
