//! Arguments of calls of MPI.

ghost use Rattle.std.specs.Prelude.{◌≤◌, ◌<◌, ◌+◌, IfOk, length};
ghost use Rattle.c_grammar.specs.Grammar as grammar;
ghost use Rattle.c_grammar.specs.Grammar.{Ref, ◌⊳◌, comma, e, world};
ghost use Rattle.c_grammar.specs.Meaning.{none, limit, ◌+++◌};
ghost use Rattle.c_grammar.specs.Gives.{Finds, Gives};
ghost use Rattle.c_grammar.specs.Trees.{buffer_tree, datatype_row, expression_tree, reduction_row, status_tree};

use crate::expression::expression;
use c_grammar::ahead::{at_datatype, at_reduction, next_is};
use c_grammar::reading::{pick, place, skip};
use c_grammar::{ReadError, Unread};
use c_tree::tree::{Buffer, DatatypeWord, Expr, ReductionWord, Status};
use c_tree::{Class, Token};
use sqlite_items::Boxed;
use std::alloc::Global;

/// A buffer's start, count and datatype.
pub fn buffer(alloc: Global, tokens: &[Token], level: u8) -> Result<(Buffer, &[Token]), ReadError>
    requires { level ≤ limit + 1 }
    ensures reads { Gives (λ x. buffer_tree x.0) (λ x. x.1.now) level (Ref grammar.Buffer) tokens.now result }
    ensures shorter { IfOk result (λ x. length x.1.now < length tokens.now) }
{
    let (start, rest) = expression(alloc, tokens, level)?;
    let (count, rest) = next_argument(alloc, rest, level)?;
    let (datatype, rest) = next_datatype(rest, level)?;
    let buffer = Buffer {
        start,
        count,
        datatype,
    };
    Ok((buffer, rest))
}

/// The status that a call fills.
#[tactic(auto, using(c_grammar::proofs::Steps::descent))]
pub fn status(alloc: Global, tokens: &[Token], level: u8) -> Result<(Status, &[Token]), ReadError>
    requires { level ≤ limit + 1 }
    ensures reads { Gives (λ x. status_tree x.0) (λ x. x.1.now) level (Ref grammar.Status) tokens.now result }
    ensures shorter { IfOk result (λ x. length x.1.now < length tokens.now) }
{
    if next_is(tokens, Class::StatusIgnore) {
        let (at, rest) = place(tokens, Class::StatusIgnore, level)?;
        return Ok((Status::Ignore(at), rest));
    }
    let (given, rest) = expression(alloc, tokens, level)?;
    Ok((Status::Given(given), rest))
}

/// A comma and an expression.
#[tactic(auto, using(c_grammar::proofs::Steps::descent))]
pub fn next_argument(
    alloc: Global,
    tokens: &[Token],
    level: u8,
) -> Result<(Boxed<Expr>, &[Token]), ReadError>
    requires { level ≤ limit + 1 }
    ensures reads { Gives (λ x. expression_tree x.0) (λ x. x.1.now) level (comma ⊳ e) tokens.now result }
    ensures shorter { IfOk result (λ x. length x.1.now < length tokens.now) }
{
    let rest = skip(tokens, Class::Comma, level)?;
    let (argument, rest) = expression(alloc, rest, level)?;
    Ok((argument, rest))
}

/// A comma and a buffer.
#[tactic(auto, using(c_grammar::proofs::Steps::descent))]
pub fn next_buffer(
    alloc: Global,
    tokens: &[Token],
    level: u8,
) -> Result<(Buffer, &[Token]), ReadError>
    requires { level ≤ limit + 1 }
    ensures reads { Gives (λ x. buffer_tree x.0) (λ x. x.1.now) level (comma ⊳ Ref grammar.Buffer) tokens.now result }
    ensures shorter { IfOk result (λ x. length x.1.now < length tokens.now) }
{
    let rest = skip(tokens, Class::Comma, level)?;
    let (buffer, rest) = buffer(alloc, rest, level)?;
    Ok((buffer, rest))
}

/// A comma and a status.
#[tactic(auto, using(c_grammar::proofs::Steps::descent))]
pub fn next_status(
    alloc: Global,
    tokens: &[Token],
    level: u8,
) -> Result<(Status, &[Token]), ReadError>
    requires { level ≤ limit + 1 }
    ensures reads { Gives (λ x. status_tree x.0) (λ x. x.1.now) level (comma ⊳ Ref grammar.Status) tokens.now result }
    ensures shorter { IfOk result (λ x. length x.1.now < length tokens.now) }
{
    let rest = skip(tokens, Class::Comma, level)?;
    let (status, rest) = status(alloc, rest, level)?;
    Ok((status, rest))
}

/// A comma and a datatype.
#[tactic(auto, using(c_grammar::proofs::Steps::descent))]
pub fn next_datatype(tokens: &[Token], level: u8) -> Result<(DatatypeWord, &[Token]), Unread>
    ensures reads { Finds (λ x. datatype_row x.0) (λ x. x.1.now) level (comma ⊳ grammar.datatype) tokens.now result }
    ensures shorter { IfOk result (λ x. length x.1.now < length tokens.now) }
{
    let rest = skip(tokens, Class::Comma, level)?;
    let (at, datatype, rest) = pick(rest, at_datatype(rest), level)?;
    Ok((DatatypeWord { at, datatype }, rest))
}

/// A comma and a reduction.
#[tactic(auto, using(c_grammar::proofs::Steps::descent))]
pub fn next_operation(tokens: &[Token], level: u8) -> Result<(ReductionWord, &[Token]), Unread>
    ensures reads { Finds (λ x. reduction_row x.0) (λ x. x.1.now) level (comma ⊳ grammar.operation) tokens.now result }
    ensures shorter { IfOk result (λ x. length x.1.now < length tokens.now) }
{
    let rest = skip(tokens, Class::Comma, level)?;
    let (at, reduction, rest) = pick(rest, at_reduction(rest), level)?;
    Ok((ReductionWord { at, reduction }, rest))
}

/// A comma and the communicator.
#[tactic(auto, using(c_grammar::proofs::Steps::descent))]
pub fn next_world(tokens: &[Token], level: u8) -> Result<&[Token], Unread>
    ensures reads { Finds (λ x. none) (λ x. x.now) level (comma ⊳ world) tokens.now result }
    ensures shorter { IfOk result (λ x. length x.now < length tokens.now) }
{
    let rest = skip(tokens, Class::Comma, level)?;
    let rest = skip(rest, Class::World, level)?;
    Ok(rest)
}

/// A comma, an expression, a comma and the communicator.
pub fn last_argument(
    alloc: Global,
    tokens: &[Token],
    level: u8,
) -> Result<(Boxed<Expr>, &[Token]), ReadError>
    requires { level ≤ limit + 1 }
    ensures reads { Gives (λ x. expression_tree x.0) (λ x. x.1.now) level (comma ⊳ e ⊳ comma ⊳ world) tokens.now result }
    ensures shorter { IfOk result (λ x. length x.1.now < length tokens.now) }
{
    let (argument, rest) = next_argument(alloc, tokens, level)?;
    let rest = next_world(rest, level)?;
    Ok((argument, rest))
}
