//! Where a function stands among its statements.

ghost use Rattle.std.specs.Prelude.{◌≡◌, ◌-◌, slice_get};
ghost use Rattle.std.specs.Option.{option_copied};
ghost use Rattle.c_kernel.specs.declared.program.Stmt.{out-Stmt};
ghost use Rattle.c_meaning.specs.Step as step;
ghost use Rattle.c_meaning.specs.Level as spec;

use c_kernel::program::{Action, Function, Stmt, Target};

/// A block of statements that a function stands in.
#[derive(Clone, Copy)]
pub struct Level {
    /// How many statements of the block have begun.
    pub next: usize,
    /// What comes next of the last of them.
    pub stage: Stage,
    /// Which branch of it the next level stands in: an arm of an `if`, counted from 0, or past the arms its last branch.
    pub inner: usize,
}

/// What comes next of a statement.
#[derive(Clone, Copy)]
pub enum Stage {
    /// The block, a function's body, hasn't begun.
    Entering,
    /// Nothing.
    Between,
    /// The statement has begun.
    Begun,
    /// A loop's test.
    Testing,
    /// The last clause of a `for`, and then its test.
    Stepping,
    /// What is done at once, from a place on.
    Acting { part: Part, at: usize },
    /// The result of the call before that place.
    Awaiting { part: Part, at: usize },
}

/// Which actions: a statement's, or those of the first or the last clause of a `for`.
#[derive(Clone, Copy)]
pub enum Part {
    Own,
    Start,
    Last,
}

/// The body of a function.
pub fn body(functions: &[Function], function: usize) -> &[Stmt]
    ensures { result.now ≡ step.body_of functions.now function }
{
    match functions.get(function) {
        None => &[],
        Some(f) => f.body.as_slice(),
    }
}

// The statements inside a statement.
fn branch(s: &Stmt, inner: usize) -> &[Stmt]
    ensures { result.now ≡ spec.branch_in (out-Stmt s.now) inner }
{
    match s {
        Stmt::Block(ss) => ss.as_slice(),
        Stmt::If { arms, otherwise } => match arms.get(inner) {
            None => otherwise.as_slice(),
            Some(arm) => arm.body.as_slice(),
        },
        Stmt::While { body, .. } => body.as_slice(),
        Stmt::DoWhile { body, .. } => body.as_slice(),
        Stmt::For { body, .. } => body.as_slice(),
        _ => &[],
    }
}

// What a statement does at once.
fn actions(s: &Stmt, part: Part) -> &[Action]
    ensures { result.now ≡ spec.actions_in (out-Stmt s.now) part }
{
    match s {
        Stmt::Actions(actions) => match part {
            Part::Own => actions.as_slice(),
            Part::Start => &[],
            Part::Last => &[],
        },
        Stmt::For { start, step, .. } => match part {
            Part::Own => &[],
            Part::Start => start.as_slice(),
            Part::Last => step.as_slice(),
        },
        _ => &[],
    }
}

/// Where the result of the call before a place goes.
pub fn target_before(actions: &[Action], at: usize) -> Option<&Target>
    ensures { option_copied result ≡ spec.target_before actions.now at }
{
    match actions.get(at.saturating_sub(1)) {
        None => None,
        Some(action) => target(action),
    }
}

fn target(action: &Action) -> Option<&Target>
    ensures { option_copied result ≡ spec.target_of action.now }
{
    match action {
        Action::Call { into, .. } => into.as_ref(),
        _ => None,
    }
}

/// The last statement of a block that has begun.
pub fn begun(block: &[Stmt], next: usize) -> Option<&Stmt>
    ensures { option_copied result ≡ slice_get block.now (next - 1) }
{
    block.get(next.saturating_sub(1))
}

/// What it does at once.
pub fn actions_before(block: &[Stmt], next: usize, part: Part) -> &[Action]
    ensures { result.now ≡ spec.actions_in (out-Stmt (spec.statement_before block.now next)) part }
{
    match begun(block, next) {
        None => &[],
        Some(s) => actions(s, part),
    }
}

// The block inside a level.
fn inside<'a>(block: &'a [Stmt], level: &Level) -> &'a [Stmt]
    ensures { result.now ≡ spec.inside block.now level.now }
{
    match begun(block, level.next) {
        None => &[],
        Some(s) => branch(s, level.inner),
    }
}

/// The block inside all of these levels.
pub fn block_at<'a>(body: &'a [Stmt], levels: &[Level]) -> &'a [Stmt]
    ensures { result.now ≡ spec.block_at body.now levels.now }
{
    let mut block = body;
    for level in levels {
        block = inside(block, level);
    }
    block
}
