//! Single instructions.

ghost use Rattle.std.specs.Prelude.{◌≡◌, ◌+◌, ◌++◌, ◌∷◌, [], IfOk, OnOk, length, map};
ghost use Rattle.ccift_lower.specs.Lowered as spec;
ghost use Rattle.ccift_lower.specs.Lowered.{instr_of};
ghost use Rattle.flat_code.specs.declared.code.Instr.TheVariants as instr;

use c_kernel::program::{Action, Expr, MpiCall, Piece, Target, copies};
use flat_code::Instr;
use sqlite_items::Items;
use std::alloc::{AllocError, Global};

/// What is done at once, one instruction each.
pub fn put_actions(
    alloc: Global,
    code: &mut Items<Instr>,
    actions: &[Action],
) -> Result<(), AllocError>
    ensures code { OnOk result (code.new ≡ code.old ++ map instr_of actions.now) }
    ensures length { OnOk result (length code.new ≡ length code.old + length actions.now) }
{
    for action in actions {
        code.push(of_action(alloc, action)?)?;
    }
    Ok(())
}

fn of_action(alloc: Global, action: &Action) -> Result<Instr, AllocError>
    ensures { IfOk result (λ made. made ≡ instr_of action.now) }
{
    match action {
        Action::Zero(k) => Ok(Instr::Zero(*k)),
        Action::Set { place, value } => Ok(Instr::Set {
            place: place.copy(alloc)?,
            value: value.copy(alloc)?,
        }),
        Action::Call {
            into,
            function,
            arguments,
        } => Ok(Instr::Call {
            into: target(alloc, into)?,
            function: *function,
            arguments: copies(alloc, arguments.as_slice())?,
        }),
        Action::Malloc { place, bytes, each } => Ok(Instr::Malloc {
            place: place.copy(alloc)?,
            bytes: bytes.copy(alloc)?,
            each: *each,
        }),
    }
}

fn target(alloc: Global, into: &Option<Target>) -> Result<Option<Target>, AllocError>
    ensures { IfOk result (λ copy. copy ≡ into.now) }
{
    match into {
        None => Ok(None),
        Some(target) => Ok(Some(target.copy(alloc)?)),
    }
}

/// A jump to a place where the test is 0.
pub fn put_unless(
    alloc: Global,
    code: &mut Items<Instr>,
    test: &Expr,
    to: usize,
) -> Result<(), AllocError>
    ensures { OnOk result (code.new ≡ code.old ++ instr.Unless test.now to ∷ []) }
{
    let test = test.copy(alloc)?;
    code.push(Instr::Unless { test, to })
}

/// The test of a `for`, if it has one.
pub fn put_test(
    alloc: Global,
    code: &mut Items<Instr>,
    test: &Option<Expr>,
    end: usize,
) -> Result<(), AllocError>
    ensures { OnOk result (code.new ≡ code.old ++ spec.for_test test.now end) }
{
    match test {
        None => Ok(()),
        Some(test) => put_unless(alloc, code, test, end),
    }
}

/// A return of a value, or of nothing.
pub fn put_return(
    alloc: Global,
    code: &mut Items<Instr>,
    value: &Option<Expr>,
) -> Result<(), AllocError>
    ensures { OnOk result (code.new ≡ code.old ++ instr.Return value.now ∷ []) }
{
    let value = match value {
        None => None,
        Some(value) => Some(value.copy(alloc)?),
    };
    code.push(Instr::Return(value))
}

/// `printf`.
pub fn put_print(
    alloc: Global,
    code: &mut Items<Instr>,
    format: &[Piece],
    arguments: &[Expr],
) -> Result<(), AllocError>
    ensures { OnOk result (code.new ≡ code.old ++ instr.Print format.now arguments.now ∷ []) }
{
    let format = Items::from_slice(alloc, format)?;
    let arguments = copies(alloc, arguments)?;
    code.push(Instr::Print { format, arguments })
}

/// `free`.
pub fn put_free(alloc: Global, code: &mut Items<Instr>, pointer: &Expr) -> Result<(), AllocError>
    ensures { OnOk result (code.new ≡ code.old ++ instr.Free pointer.now ∷ []) }
{
    let pointer = pointer.copy(alloc)?;
    code.push(Instr::Free(pointer))
}

/// A call of MPI.
pub fn put_mpi(alloc: Global, code: &mut Items<Instr>, call: &MpiCall) -> Result<(), AllocError>
    ensures { OnOk result (code.new ≡ code.old ++ instr.Mpi call.now ∷ []) }
{
    let call = call.copy(alloc)?;
    code.push(Instr::Mpi(call))
}
