//! Statements, from what their parts are found to be.

ghost use Rattle.std.specs.Prelude.{◌≡◌, IfOk, Some, option_map};
ghost use Rattle.c_kernel.specs.declared.program.Stmt.TheVariants as typed;
ghost use Rattle.c_rules.specs.Judged as nodes;
ghost use Rattle.c_check.specs.Statement as walk;

use crate::judge::Answer;
use crate::parts::{both, listed, one};
use c_kernel::program::{Action, Arm, Expr as Term, Stmt as Typed};
use sqlite_items::{Boxed, Items};
use std::alloc::Global;

/// A block.
pub fn block_of(alloc: Global, steps: Option<Items<Typed>>) -> Answer<Boxed<Typed>>
    ensures { IfOk result (λ found. found ≡ option_map typed.Block steps) }
{
    match steps {
        None => Ok(None),
        Some(steps) => Ok(Some(Boxed::new(alloc, Typed::Block(steps))?)),
    }
}

/// A branch of an `if`.
pub fn arm_of(
    alloc: Global,
    parts: Option<(Boxed<Term>, Boxed<Typed>)>,
) -> Answer<Boxed<Arm<Typed>>>
    ensures { IfOk result (λ found. found ≡ option_map walk.branch_of parts) }
{
    match parts {
        None => Ok(None),
        Some((test, body)) => {
            let body = one(alloc, body)?;
            let test = test.into_inner();
            Ok(Some(Boxed::new(alloc, Arm { test, body })?))
        }
    }
}

/// An `if`.
pub fn if_of(
    alloc: Global,
    arms: Option<Items<Arm<Typed>>>,
    last: Option<Items<Typed>>,
) -> Answer<Boxed<Typed>>
    ensures { IfOk result (λ found. found ≡ option_map (λ p. typed.If p.0 p.1) (nodes.both arms last)) }
{
    match both(arms, last) {
        None => Ok(None),
        Some((arms, otherwise)) => Ok(Some(Boxed::new(alloc, Typed::If { arms, otherwise })?)),
    }
}

/// A `while`.
pub fn while_of(alloc: Global, parts: Option<(Boxed<Term>, Boxed<Typed>)>) -> Answer<Boxed<Typed>>
    ensures { IfOk result (λ found. found ≡ option_map (λ p. typed.While p.0 (walk.one p.1)) parts) }
{
    match parts {
        None => Ok(None),
        Some((test, body)) => {
            let body = one(alloc, body)?;
            let test = test.into_inner();
            Ok(Some(Boxed::new(alloc, Typed::While { test, body })?))
        }
    }
}

/// A `do`.
pub fn do_of(alloc: Global, parts: Option<(Boxed<Term>, Boxed<Typed>)>) -> Answer<Boxed<Typed>>
    ensures { IfOk result (λ found. found ≡ option_map (λ p. typed.DoWhile (walk.one p.1) p.0) parts) }
{
    match parts {
        None => Ok(None),
        Some((test, body)) => {
            let body = one(alloc, body)?;
            let test = test.into_inner();
            Ok(Some(Boxed::new(alloc, Typed::DoWhile { body, test })?))
        }
    }
}

/// A `for`.
pub fn for_of(
    alloc: Global,
    start: Option<Items<Action>>,
    test: Option<Option<Boxed<Term>>>,
    step: Option<Option<Boxed<Action>>>,
    body: Option<Boxed<Typed>>,
) -> Answer<Boxed<Typed>>
    ensures { IfOk result (λ found. found ≡ option_map (λ p. typed.For p.0.0 p.0.1 (walk.listed p.1.0) (walk.one p.1.1)) (nodes.both (nodes.both start test) (nodes.both step body))) }
{
    match both(both(start, test), both(step, body)) {
        None => Ok(None),
        Some(((start, test), (step, body))) => {
            let body = one(alloc, body)?;
            let step = listed(alloc, step)?;
            let test = test.map(Boxed::into_inner);
            Ok(Some(Boxed::new(
                alloc,
                Typed::For {
                    start,
                    test,
                    step,
                    body,
                },
            )?))
        }
    }
}
