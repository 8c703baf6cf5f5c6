//! The instructions of statements. `leave` is where a break goes, and `again` where a continue goes.

ghost use Rattle.std.specs.Prelude.{◌≡◌, ◌+◌, ◌++◌, ◌∷◌, OnOk, length, map};
ghost use Rattle.c_kernel.specs.declared.program.Stmt.{out-Stmt};
ghost use Rattle.ccift_lower.specs.Lowered as spec;
ghost use Rattle.ccift_lower.specs.Lowered.{arm_lowering, codes, lowerings, sizes};

use crate::instr::{put_actions, put_free, put_mpi, put_print, put_return, put_test, put_unless};
use crate::size::{arms_size, for_size, jump_size, size_all, test_size};
use c_kernel::program::{Action, Arm, Expr, Stmt};
use flat_code::{Instr, more};
use sqlite_items::Items;
use std::alloc::{AllocError, Global};

/// The instructions of statements.
#[cycle(emit)]
pub fn statements(
    alloc: Global,
    code: &mut Items<Instr>,
    ss: &[Stmt],
    leave: usize,
    again: usize,
) -> Result<(), AllocError>
    ensures code { OnOk result (code.new ≡ code.old ++ codes (lowerings ss.now) (length code.old) leave again) }
    ensures length { OnOk result (length code.new ≡ length code.old + sizes (lowerings ss.now)) }
{
    for s in ss {
        code.push(Instr::Step)?;
        statement(alloc, code, s, leave, again)?;
    }
    Ok(())
}

// What follows the `Step` of a statement.
#[cycle(emit)]
fn statement(
    alloc: Global,
    code: &mut Items<Instr>,
    s: &Stmt,
    leave: usize,
    again: usize,
) -> Result<(), AllocError>
    ensures code { OnOk result (code.new ≡ code.old ++ (spec.formed (out-Stmt s.now)).code (length code.old) leave again) }
    ensures length { OnOk result (length code.new ≡ length code.old + (spec.formed (out-Stmt s.now)).size) }
{
    match s {
        Stmt::Actions(actions) => put_actions(alloc, code, actions.as_slice()),
        Stmt::Block(ss) => statements(alloc, code, ss.as_slice(), leave, again),
        Stmt::If { arms, otherwise } => {
            choice(
                alloc,
                code,
                arms.as_slice(),
                otherwise.as_slice(),
                leave,
                again,
            )
        }
        Stmt::While { test, body } => while_loop(alloc, code, body.as_slice(), test),
        Stmt::DoWhile { body, test } => do_loop(alloc, code, body.as_slice(), test),
        Stmt::For {
            start,
            test,
            step,
            body,
        } => {
            for_loop(
                alloc,
                code,
                start.as_slice(),
                test,
                step.as_slice(),
                body.as_slice(),
            )
        }
        Stmt::Break => code.push(Instr::Goto(leave)),
        Stmt::Continue => code.push(Instr::Goto(again)),
        Stmt::Return(value) => put_return(alloc, code, value),
        Stmt::Print { format, arguments } => {
            put_print(alloc, code, format.as_slice(), arguments.as_slice())
        }
        Stmt::Free(pointer) => put_free(alloc, code, pointer),
        Stmt::Mpi(call) => put_mpi(alloc, code, call),
        Stmt::Mark => code.push(Instr::Mark(0)),
    }
}

// An `if`: each arm jumps to the next where its test is 0, and to the end after its branch.
#[cycle(emit)]
fn choice(
    alloc: Global,
    code: &mut Items<Instr>,
    arms: &[Arm<Stmt>],
    otherwise: &[Stmt],
    leave: usize,
    again: usize,
) -> Result<(), AllocError>
    ensures code { OnOk result (code.new ≡ code.old ++ spec.arms_code (map arm_lowering arms.now) (lowerings otherwise.now) (length code.old) (length code.old + spec.arms_size (map arm_lowering arms.now) (lowerings otherwise.now)) leave again) }
    ensures length { OnOk result (length code.new ≡ length code.old + spec.arms_size (map arm_lowering arms.now) (lowerings otherwise.now)) }
{
    let end = more(code.len(), arms_size(arms, otherwise)?)?;
    for (at, arm) in arms.iter().enumerate() {
        put_arm(
            alloc,
            code,
            arm,
            &arms[at + 1..],
            otherwise,
            end,
            leave,
            again,
        )?;
    }
    statements(alloc, code, otherwise, leave, again)
}

// An arm, with those after it and the last branch, of which nothing is made yet.
#[cycle(emit)]
fn put_arm(
    alloc: Global,
    code: &mut Items<Instr>,
    arm: &Arm<Stmt>,
    later: &[Arm<Stmt>],
    otherwise: &[Stmt],
    end: usize,
    leave: usize,
    again: usize,
) -> Result<(), AllocError>
    ensures code { OnOk result (code.new ++ spec.arms_code (map arm_lowering later.now) (lowerings otherwise.now) (length code.new) end leave again ≡ code.old ++ spec.arms_code (arm_lowering arm.now ∷ map arm_lowering later.now) (lowerings otherwise.now) (length code.old) end leave again) }
    ensures length { OnOk result (length code.new + spec.arms_size (map arm_lowering later.now) (lowerings otherwise.now) ≡ length code.old + spec.arms_size (arm_lowering arm.now ∷ map arm_lowering later.now) (lowerings otherwise.now)) }
{
    let body = size_all(arm.body.as_slice())?;
    let next = more(
        more(more(code.len(), 1)?, body)?,
        jump_size(later, otherwise),
    )?;
    put_unless(alloc, code, &arm.test, next)?;
    statements(alloc, code, arm.body.as_slice(), leave, again)?;
    put_jump(code, later, otherwise, end)
}

// The jump from an arm to the end, if something follows.
fn put_jump(
    code: &mut Items<Instr>,
    later: &[Arm<Stmt>],
    otherwise: &[Stmt],
    end: usize,
) -> Result<(), AllocError>
    ensures code { OnOk result (code.new ≡ code.old ++ spec.jump (map arm_lowering later.now) (lowerings otherwise.now) end) }
    ensures length { OnOk result (length code.new ≡ length code.old + spec.jump_size (map arm_lowering later.now) (lowerings otherwise.now)) }
{
    if later.is_empty() && otherwise.is_empty() {
        return Ok(());
    }
    code.push(Instr::Goto(end))
}

// `while`: the test, the body, and back to the test.
#[cycle(emit)]
fn while_loop(
    alloc: Global,
    code: &mut Items<Instr>,
    body: &[Stmt],
    test: &Expr,
) -> Result<(), AllocError>
    ensures code { OnOk result (code.new ≡ code.old ++ (spec.while_loop test.now (lowerings body.now)).code (length code.old) 0 0) }
    ensures length { OnOk result (length code.new ≡ length code.old + (spec.while_loop test.now (lowerings body.now)).size) }
{
    let start = code.len();
    let end = more(start, more(size_all(body)?, 2)?)?;
    put_unless(alloc, code, test, end)?;
    statements(alloc, code, body, end, start)?;
    code.push(Instr::Goto(start))
}

// `do`: the body, the test, and back to the body.
#[cycle(emit)]
fn do_loop(
    alloc: Global,
    code: &mut Items<Instr>,
    body: &[Stmt],
    test: &Expr,
) -> Result<(), AllocError>
    ensures code { OnOk result (code.new ≡ code.old ++ (spec.do_loop (lowerings body.now) test.now).code (length code.old) 0 0) }
    ensures length { OnOk result (length code.new ≡ length code.old + (spec.do_loop (lowerings body.now) test.now).size) }
{
    let start = code.len();
    let again = more(start, size_all(body)?)?;
    let end = more(again, 2)?;
    statements(alloc, code, body, end, again)?;
    put_unless(alloc, code, test, end)?;
    code.push(Instr::Goto(start))
}

// `for`: what comes first, the test, the body, what comes last, and back to the test.
#[cycle(emit)]
fn for_loop(
    alloc: Global,
    code: &mut Items<Instr>,
    first: &[Action],
    test: &Option<Expr>,
    last: &[Action],
    body: &[Stmt],
) -> Result<(), AllocError>
    ensures code { OnOk result (code.new ≡ code.old ++ (spec.for_statement first.now test.now last.now (lowerings body.now)).code (length code.old) 0 0) }
    ensures length { OnOk result (length code.new ≡ length code.old + (spec.for_statement first.now test.now last.now (lowerings body.now)).size) }
{
    let end = more(code.len(), for_size(first, test, last, body)?)?;
    put_actions(alloc, code, first)?;
    let start = code.len();
    let again = more(more(start, test_size(test))?, size_all(body)?)?;
    put_test(alloc, code, test, end)?;
    statements(alloc, code, body, end, again)?;
    put_actions(alloc, code, last)?;
    code.push(Instr::Goto(start))
}
