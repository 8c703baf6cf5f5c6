//! What a rank asks of the job, and what comes back.

ghost use Rattle.std.specs.Prelude.{◌≡◌, IfOk};

use crate::list::List;
use crate::message::Message;
use crate::pattern::Patterns;
use c3_base::NoMemory;

/// How a rank ended.
#[derive(Clone, Copy, PartialEq, Eq, Debug)]
pub enum End {
    /// `main` returned this value.
    Exit(i32),
    /// The program's fault has this code.
    Fault(u16),
}

/// What a rank asks of the job.
#[derive(Debug, Drop)]
pub enum Op {
    /// The message goes to a rank (MPI 3.1 3.2.1).
    Send { to: u16, message: Message },
    /// A message that the last pattern matches is taken (MPI 3.1 3.2.4).
    Receive { patterns: Patterns },
    /// These bytes go to the rank's output.
    Output(List<u8>),
    /// A checkpoint may be taken here.
    Mark,
}

impl Op {
    /// An equal operation.
    pub fn copy(&self) -> Result<Op, NoMemory>
        ensures { IfOk result (λ copy. copy ≡ self.now) }
    {
        match self {
            Op::Send { to, message } => Ok(Op::Send {
                to: *to,
                message: message.copy()?,
            }),
            Op::Receive { patterns } => Ok(Op::Receive {
                patterns: patterns.copy()?,
            }),
            Op::Output(text) => Ok(Op::Output(text.copy()?)),
            Op::Mark => Ok(Op::Mark),
        }
    }
}

/// The answer to an operation.
#[derive(Debug, Drop)]
pub enum Reply {
    /// Nothing comes back.
    Done,
    /// A message from a rank.
    Got { source: u16, message: Message },
}

/// What a rank's turn comes to before its answer.
#[derive(Drop)]
pub enum Want {
    /// So many statements began as the turn may begin, and the next step begins another.
    Paused,
    /// An operation, which waits for its reply.
    Wants(Op),
    Ended(End),
}
