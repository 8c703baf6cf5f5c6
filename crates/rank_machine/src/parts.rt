//! What instructions act on.

ghost use Rattle.std.specs.Prelude.{◌≡◌, Ok};
ghost use Rattle.mpi_words.specs.declared.operation.End.TheVariants.{Fault};
ghost use Rattle.rank_machine.specs.declared.parts.Change.TheVariants.{Ends};

use crate::frame::Frame;
use crate::memory::PlacedMemory;
use c3_base::{Cell, NoMemory};
use mpi_effects::World;
use mpi_words::End;
use position_stack::PositionStack;
use std::alloc::Global;
use variable_stack::VariableStack;

/// What instructions act on, beside the calls.
#[derive(Drop)]
pub struct Parts {
    pub alloc: Global,
    pub world: World<PlacedMemory>,
    pub sites: PositionStack,
    pub described: VariableStack,
}

/// What an instruction came to in the newest call.
#[derive(Clone, Copy)]
pub enum Change {
    /// It goes on. A statement may have begun.
    Goes { began: bool },
    /// It goes on with the reply to an operation.
    Asks,
    /// The program ends.
    Ends(End),
    /// A function is entered.
    Enters(Frame),
    /// It ends with a value.
    Returns(Cell),
}

/// A fault.
pub fn fault(code: u16) -> Result<Change, NoMemory>
    ensures { result ≡ Ok (Ends (Fault code)) }
{
    Ok(Change::Ends(End::Fault(code)))
}
