//! The levels of a call.

ghost use Rattle.std.specs.Prelude.{◌≡◌, ◌∷◌, [], List, IfOk};
ghost use Rattle.c_kernel.specs.declared.program.Stmt.{Stmt, out-Stmt};
ghost use Rattle.c_meaning.specs.Level as spec;
ghost use Rattle.c_meaning.specs.Level.{block_at, branch_in, statement_before, level_items};
ghost use Rattle.c_meaning.specs.State.{Body, Rest, after_loop, to_loop};
ghost use Rattle.c_meaning.specs.Running.{todo_of};

use crate::level::{Level, Part, Stage};
use std::alloc::{AllocError, Global};

/// The levels of a call that begins.
#[tactic(auto, using(crate::proofs::Follows::items_more))]
pub fn first(alloc: Global) -> Result<Vec<Level>, AllocError>
    ensures { IfOk result (λ levels. (body : List Stmt) → todo_of body levels.items ≡ Body body ∷ []) }
{
    let mut levels = Vec::new(alloc);
    levels.push(level(0, Stage::Entering, 0))?;
    Ok(levels)
}

fn level(next: usize, stage: Stage, inner: usize) -> Level
    ensures next { result.next ≡ next }
    ensures stage { result.stage ≡ stage }
    ensures inner { result.inner ≡ inner }
{
    Level { next, stage, inner }
}

/// Adds a level.
#[tactic(auto, using(crate::proofs::Follows::items_more))]
pub fn push(levels: &mut Vec<Level>, next: usize, stage: Stage) -> Result<(), AllocError>
    ensures { IfOk result (λ done. (body : List Stmt) → todo_of body levels.new.items ≡ level_items (block_at body levels.old.items) next stage (todo_of body levels.old.items)) }
{
    levels.push(level(next, stage, 0))?;
    Ok(())
}

/// Adds a level, and one inside its last statement.
#[tactic(auto, using(crate::proofs::Follows::items_more, crate::proofs::Follows::block_more))]
pub fn push_inside(
    levels: &mut Vec<Level>,
    next: usize,
    stage: Stage,
    inner: usize,
) -> Result<(), AllocError>
    ensures { IfOk result (λ done. (body : List Stmt) → todo_of body levels.new.items ≡ Rest (branch_in (out-Stmt (statement_before (block_at body levels.old.items) next)) inner) ∷ level_items (block_at body levels.old.items) next stage (todo_of body levels.old.items)) }
{
    levels.push(level(next, stage, inner))?;
    levels.push(level(0, Stage::Between, 0))?;
    Ok(())
}

// Whether a level stands in a loop.
fn is_loop(stage: Stage) -> bool
    ensures { result ≡ spec.is_loop stage }
{
    match stage {
        Stage::Entering => false,
        Stage::Between => false,
        Stage::Begun => false,
        Stage::Testing => true,
        Stage::Stepping => true,
        Stage::Acting { part, .. } => is_clause(part),
        Stage::Awaiting { part, .. } => is_clause(part),
    }
}

fn is_clause(part: Part) -> bool
    ensures { result ≡ spec.is_clause part }
{
    match part {
        Part::Own => false,
        Part::Start => true,
        Part::Last => true,
    }
}

// What comes next in a loop that goes on.
fn again(stage: Stage) -> Stage
    ensures { result ≡ spec.again stage }
{
    match stage {
        Stage::Entering => Stage::Testing,
        Stage::Between => Stage::Testing,
        Stage::Begun => Stage::Testing,
        Stage::Testing => Stage::Testing,
        Stage::Stepping => Stage::Stepping,
        Stage::Acting { .. } => Stage::Testing,
        Stage::Awaiting { .. } => Stage::Testing,
    }
}

/// Leaves the loop that a `break` stands in.
#[tactic(auto, using(crate::proofs::Follows::items_more, crate::proofs::Follows::leaves, crate::proofs::Follows::not_left))]
pub fn leave_loop(levels: &mut Vec<Level>) -> Result<(), AllocError>
    ensures { IfOk result (λ done. (body : List Stmt) → todo_of body levels.new.items ≡ after_loop (todo_of body levels.old.items)) }
{
    while let Some(level) = levels.pop() {
        if is_loop(level.stage) {
            return push(levels, level.next, Stage::Between);
        }
    }
    Ok(())
}

/// Goes on with the loop that a `continue` stands in.
#[tactic(auto, using(crate::proofs::Follows::items_more, crate::proofs::Follows::goes_round, crate::proofs::Follows::not_round))]
pub fn continue_loop(levels: &mut Vec<Level>) -> Result<(), AllocError>
    ensures { IfOk result (λ done. (body : List Stmt) → todo_of body levels.new.items ≡ to_loop (todo_of body levels.old.items)) }
{
    while let Some(level) = levels.pop() {
        if is_loop(level.stage) {
            return push(levels, level.next, again(level.stage));
        }
    }
    Ok(())
}
