//! Messages between ranks.

ghost use Rattle.std.specs.Prelude.{◌≡◌, IfOk};

use crate::list::List;
use c3_base::NoMemory;

/// The type of a message's elements.
#[derive(Clone, Copy, PartialEq, Eq, Debug)]
pub enum Datatype {
    /// `MPI_CHAR`
    Char,
    /// `MPI_INT`
    Int,
    /// `MPI_LONG`
    Long,
}

/// What one rank sends to another. Its envelope has no source, which the channel says (MPI 3.1 3.2.3).
#[derive(Debug, Drop)]
pub struct Message {
    /// 0 for messages of the program, 1 for the parts of its collective calls.
    pub context: u8,
    pub tag: i64,
    pub kind: Datatype,
    pub items: List<i64>,
}

impl Message {
    /// An equal message.
    pub fn copy(&self) -> Result<Message, NoMemory>
        ensures { IfOk result (λ copy. copy ≡ self.now) }
    {
        Ok(Message {
            context: self.context,
            tag: self.tag,
            kind: self.kind,
            items: self.items.copy()?,
        })
    }
}
