ghost use Rattle.std.specs.Prelude.{◌≡◌, IfOk};

use crate::code::Instr;
use c_kernel::program::{Expr, Target, copies};
use sqlite_items::Items;
use std::alloc::{AllocError, Global};

impl Instr {
    /// An equal instruction.
    pub fn copy(&self, alloc: Global) -> Result<Instr, AllocError>
        ensures { IfOk result (λ copy. copy ≡ self.now) }
    {
        match self {
            Instr::Step => Ok(Instr::Step),
            Instr::Zero(k) => Ok(Instr::Zero(*k)),
            Instr::Set { place, value } => Ok(Instr::Set {
                place: place.copy(alloc)?,
                value: value.copy(alloc)?,
            }),
            Instr::Call {
                into,
                function,
                arguments,
            } => Ok(Instr::Call {
                into: target(alloc, into)?,
                function: *function,
                arguments: copies(alloc, arguments.as_slice())?,
            }),
            Instr::Malloc { place, bytes, each } => Ok(Instr::Malloc {
                place: place.copy(alloc)?,
                bytes: bytes.copy(alloc)?,
                each: *each,
            }),
            Instr::Free(pointer) => Ok(Instr::Free(pointer.copy(alloc)?)),
            Instr::Goto(to) => Ok(Instr::Goto(*to)),
            Instr::Unless { test, to } => Ok(Instr::Unless {
                test: test.copy(alloc)?,
                to: *to,
            }),
            Instr::Return(value) => Ok(Instr::Return(expression(alloc, value)?)),
            Instr::Mark(site) => Ok(Instr::Mark(*site)),
            Instr::Push(site) => Ok(Instr::Push(*site)),
            Instr::Pop => Ok(Instr::Pop),
            Instr::Enter { variables, sites } => Ok(Instr::Enter {
                variables: *variables,
                sites: Items::from_slice(alloc, sites.as_slice())?,
            }),
            Instr::Leave => Ok(Instr::Leave),
            Instr::Print { format, arguments } => Ok(Instr::Print {
                format: Items::from_slice(alloc, format.as_slice())?,
                arguments: copies(alloc, arguments.as_slice())?,
            }),
            Instr::Mpi(call) => Ok(Instr::Mpi(call.copy(alloc)?)),
        }
    }
}

fn target(alloc: Global, into: &Option<Target>) -> Result<Option<Target>, AllocError>
    ensures { IfOk result (λ copy. copy ≡ into.now) }
{
    match into {
        None => Ok(None),
        Some(target) => Ok(Some(target.copy(alloc)?)),
    }
}

fn expression(alloc: Global, value: &Option<Expr>) -> Result<Option<Expr>, AllocError>
    ensures { IfOk result (λ copy. copy ≡ value.now) }
{
    match value {
        None => Ok(None),
        Some(value) => Ok(Some(value.copy(alloc)?)),
    }
}
