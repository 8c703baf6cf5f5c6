//! How many instructions statements take.

ghost use Rattle.std.specs.Prelude.{◌≡◌, ◌+◌, IfOk, map};
ghost use Rattle.c_kernel.specs.declared.program.Stmt.{out-Stmt};
ghost use Rattle.ccift_lower.specs.Lowered as spec;
ghost use Rattle.ccift_lower.specs.Lowered.{arm_lowering, formed, lowerings, sizes};

use c_kernel::program::{Action, Arm, Expr, Stmt};
use flat_code::more;
use std::alloc::AllocError;

/// The instructions of a statement after its `Step`, unless there are too many to count.
#[cycle(sizes)]
fn size(s: &Stmt) -> Result<usize, AllocError>
    ensures { IfOk result (λ n. n ≡ (formed (out-Stmt s.now)).size) }
{
    match s {
        Stmt::Actions(actions) => Ok(actions.len()),
        Stmt::Block(ss) => size_all(ss.as_slice()),
        Stmt::If { arms, otherwise } => arms_size(arms.as_slice(), otherwise.as_slice()),
        Stmt::While { test: _, body } => more(size_all(body.as_slice())?, 2),
        Stmt::DoWhile { body, test: _ } => more(size_all(body.as_slice())?, 2),
        Stmt::For {
            start,
            test,
            step,
            body,
        } => for_size(start.as_slice(), test, step.as_slice(), body.as_slice()),
        Stmt::Break
        | Stmt::Continue
        | Stmt::Return(_)
        | Stmt::Print { .. }
        | Stmt::Free(_)
        | Stmt::Mpi(_)
        | Stmt::Mark => Ok(1),
    }
}

/// The instructions of several statements.
#[cycle(sizes)]
pub fn size_all(ss: &[Stmt]) -> Result<usize, AllocError>
    ensures { IfOk result (λ n. n ≡ sizes (lowerings ss.now)) }
{
    let mut total: usize = 0;
    for s in ss {
        total = more(total, more(1, size(s)?)?)?;
    }
    Ok(total)
}

/// The instructions of the arms of an `if`, with its last branch.
#[cycle(sizes)]
pub fn arms_size(arms: &[Arm<Stmt>], otherwise: &[Stmt]) -> Result<usize, AllocError>
    ensures { IfOk result (λ n. n ≡ spec.arms_size (map arm_lowering arms.now) (lowerings otherwise.now)) }
{
    let mut total = size_all(otherwise)?;
    for (at, arm) in arms.iter().enumerate() {
        let body = size_all(arm.body.as_slice())?;
        let jump = jump_size(&arms[at + 1..], otherwise);
        total = more(total, more(more(1, body)?, jump)?)?;
    }
    Ok(total)
}

/// The instructions of a `for` after its `Step`.
#[cycle(sizes)]
pub fn for_size(
    start: &[Action],
    test: &Option<Expr>,
    step: &[Action],
    body: &[Stmt],
) -> Result<usize, AllocError>
    ensures { IfOk result (λ n. n ≡ spec.for_size start.now test.now step.now (lowerings body.now)) }
{
    let inner = more(size_all(body)?, more(step.len(), 1)?)?;
    more(start.len(), more(test_size(test), inner)?)
}

/// The jump from an arm to the end, if something follows.
pub fn jump_size(arms: &[Arm<Stmt>], otherwise: &[Stmt]) -> usize
    ensures { result ≡ spec.jump_size (map arm_lowering arms.now) (lowerings otherwise.now) }
{
    if arms.is_empty() && otherwise.is_empty() {
        0
    } else {
        1
    }
}

/// The test of a `for`, if it has one.
pub fn test_size(test: &Option<Expr>) -> usize
    ensures { result ≡ spec.test_size test.now }
{
    match test {
        None => 0,
        Some(_) => 1,
    }
}
