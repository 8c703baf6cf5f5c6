//! Statements that hold no other.
//!
//! A function for one of them reads it where it begins.

ghost use Rattle.std.specs.Prelude.{◌≡◌, ◌≤◌, ◌<◌, ◌+◌, ◌∷◌, ◌++◌, [], IfOk, length, true, false};
ghost use Rattle.c_tree.specs.declared.token.Class.TheVariants as class;
ghost use Rattle.c_tree.specs.declared.token.Value.TheVariants as value;
ghost use Rattle.c_grammar.specs.Grammar as grammar;
ghost use Rattle.c_grammar.specs.Grammar.{Many, Ref, valued, ◌⊳◌};
ghost use Rattle.c_grammar.specs.Meaning.{begins, leaf, limit, next_in, node, none};
ghost use Rattle.c_grammar.specs.Gives.{Finds, Gives};
ghost use Rattle.c_grammar.specs.Trees.{each, expression_tree, mark_row, statement_row};
ghost use Rattle.c_descent.specs.Statements.{holders, leaves};

use super::ahead::at_mark;
use super::head::{optional_expression, unboxed};
use super::simple::simple_statement;
use crate::call::mpi_call;
use crate::expression::{expression, inside};
use crate::words::{followed_by, text};
use c_grammar::ahead::{at_mpi_call, next_is};
use c_grammar::reading::{place, skip};
use c_grammar::{ReadError, Unread};
use c_tree::tree::{Expr, Mark, Stmt, Text};
use c_tree::{Class, Token};
use sqlite_items::Items;
use std::alloc::Global;

/// A statement that holds no other, where none begins that does.
pub fn leaf_statement(
    alloc: Global,
    tokens: &[Token],
    level: u8,
) -> Result<(Stmt, &[Token]), ReadError>
    requires { level ≤ limit + 1 }
    ensures reads { next_in holders tokens.now ≡ false → Gives (λ x. statement_row x.0) (λ x. x.1.now) level (Ref grammar.PlainStatement) tokens.now result }
    ensures shorter { IfOk result (λ x. length x.1.now < length tokens.now) }
{
    if next_is(tokens, Class::Semicolon) {
        let (leaf, rest) = empty_statement(tokens, level)?;
        return Ok((leaf, rest));
    }
    if next_is(tokens, Class::Break) {
        let (leaf, rest) = break_statement(tokens, level)?;
        return Ok((leaf, rest));
    }
    if next_is(tokens, Class::Continue) {
        let (leaf, rest) = continue_statement(tokens, level)?;
        return Ok((leaf, rest));
    }
    if next_is(tokens, Class::Return) {
        return return_statement(alloc, tokens, level);
    }
    if next_is(tokens, Class::Printf) {
        return print_statement(alloc, tokens, level);
    }
    if next_is(tokens, Class::Free) {
        return free_statement(alloc, tokens, level);
    }
    if at_mark(tokens) {
        let (leaf, rest) = mark_statement(tokens, level)?;
        return Ok((leaf, rest));
    }
    if at_mpi_call(tokens) {
        return call_statement(alloc, tokens, level);
    }
    remaining_statement(alloc, tokens, level)
}

/// A semicolon by itself (C99 6.8.3).
fn empty_statement(tokens: &[Token], level: u8) -> Result<(Stmt, &[Token]), Unread>
    requires { level ≤ limit + 1 }
    ensures reads { next_in (class.Semicolon ∷ []) tokens.now ≡ true → Finds (λ x. statement_row x.0) (λ x. x.1.now) level (Ref grammar.PlainStatement) tokens.now result }
    ensures shorter { IfOk result (λ x. length x.1.now < length tokens.now) }
{
    let (at, rest) = place(tokens, Class::Semicolon, level)?;
    Ok((Stmt::Empty(at), rest))
}

/// A `break` (C99 6.8.6.3).
fn break_statement(tokens: &[Token], level: u8) -> Result<(Stmt, &[Token]), Unread>
    requires { level ≤ limit + 1 }
    ensures reads { next_in (class.Break ∷ []) tokens.now ≡ true → Finds (λ x. statement_row x.0) (λ x. x.1.now) level (Ref grammar.PlainStatement) tokens.now result }
    ensures shorter { IfOk result (λ x. length x.1.now < length tokens.now) }
{
    let (at, rest) = place(tokens, Class::Break, level)?;
    let rest = skip(rest, Class::Semicolon, level)?;
    Ok((Stmt::Break(at), rest))
}

/// A `continue` (C99 6.8.6.2).
fn continue_statement(tokens: &[Token], level: u8) -> Result<(Stmt, &[Token]), Unread>
    requires { level ≤ limit + 1 }
    ensures reads { next_in (class.Continue ∷ []) tokens.now ≡ true → Finds (λ x. statement_row x.0) (λ x. x.1.now) level (Ref grammar.PlainStatement) tokens.now result }
    ensures shorter { IfOk result (λ x. length x.1.now < length tokens.now) }
{
    let (at, rest) = place(tokens, Class::Continue, level)?;
    let rest = skip(rest, Class::Semicolon, level)?;
    Ok((Stmt::Continue(at), rest))
}

/// A `return` (C99 6.8.6.4).
fn return_statement(
    alloc: Global,
    tokens: &[Token],
    level: u8,
) -> Result<(Stmt, &[Token]), ReadError>
    requires { level ≤ limit + 1 }
    ensures reads { next_in (class.Return ∷ []) tokens.now ≡ true → Gives (λ x. statement_row x.0) (λ x. x.1.now) level (Ref grammar.PlainStatement) tokens.now result }
    ensures shorter { IfOk result (λ x. length x.1.now < length tokens.now) }
{
    let (at, rest) = place(tokens, Class::Return, level)?;
    let (value, rest) = optional_expression(alloc, rest, level)?;
    let rest = skip(rest, Class::Semicolon, level)?;
    let value = unboxed(value);
    Ok((Stmt::Return { at, value }, rest))
}

/// A call of `free`.
fn free_statement(alloc: Global, tokens: &[Token], level: u8) -> Result<(Stmt, &[Token]), ReadError>
    requires { level ≤ limit + 1 }
    ensures reads { next_in (class.Free ∷ []) tokens.now ≡ true → Gives (λ x. statement_row x.0) (λ x. x.1.now) level (Ref grammar.PlainStatement) tokens.now result }
    ensures shorter { IfOk result (λ x. length x.1.now < length tokens.now) }
{
    let (at, rest) = place(tokens, Class::Free, level)?;
    let (pointer, rest) = inside(alloc, rest, level)?;
    let rest = skip(rest, Class::Semicolon, level)?;
    let pointer = pointer.into_inner();
    Ok((Stmt::Free { at, pointer }, rest))
}

/// A call of `printf`.
fn print_statement(
    alloc: Global,
    tokens: &[Token],
    level: u8,
) -> Result<(Stmt, &[Token]), ReadError>
    requires { level ≤ limit + 1 }
    ensures reads { next_in (class.Printf ∷ []) tokens.now ≡ true → Gives (λ x. statement_row x.0) (λ x. x.1.now) level (Ref grammar.PlainStatement) tokens.now result }
    ensures shorter { IfOk result (λ x. length x.1.now < length tokens.now) }
{
    let (at, rest) = place(tokens, Class::Printf, level)?;
    let (format, arguments, rest) = print_arguments(alloc, rest, level)?;
    let rest = skip(rest, Class::Semicolon, level)?;
    Ok((
        Stmt::Print {
            at,
            format,
            arguments,
        },
        rest,
    ))
}

/// The arguments of `printf`.
#[tactic(auto, using(c_grammar::proofs::Steps::descent, c_grammar::proofs::Steps::r_end))]
fn print_arguments(
    alloc: Global,
    tokens: &[Token],
    level: u8,
) -> Result<(Text, Items<Expr>, &[Token]), ReadError>
    requires { level ≤ limit + 1 }
    ensures reads { Gives (λ x. leaf class.Text (value.Bytes x.0.bytes) x.0.at (each expression_tree x.1)) (λ x. x.2.now) level (grammar.inside (valued class.Text ⊳ Many (grammar.comma ⊳ grammar.e))) tokens.now result }
    ensures shorter { IfOk result (λ x. length x.2.now < length tokens.now) }
{
    let rest = skip(tokens, Class::LeftParen, level)?;
    let inner = level + 1;
    let (format, rest) = text(alloc, rest, inner)?;
    let (arguments, rest) = printed(alloc, rest, inner)?;
    let rest = skip(rest, Class::RightParen, level)?;
    Ok((format, arguments, rest))
}

/// The expressions that `printf` prints, each after a comma.
fn printed(alloc: Global, tokens: &[Token], level: u8) -> Result<(Items<Expr>, &[Token]), ReadError>
    requires { level ≤ limit + 1 }
    ensures reads { Gives (λ x. each expression_tree x.0) (λ x. x.1.now) level (Many (grammar.comma ⊳ grammar.e)) tokens.now result }
    ensures shorter { IfOk result (λ x. length x.1.now ≤ length tokens.now) }
{
    let mut arguments = Items::new(alloc);
    let mut rest = tokens;
    'arguments: while next_is(rest, Class::Comma) {
        let after = skip(rest, Class::Comma, level)?;
        let (argument, after) = expression(alloc, after, level)?;
        arguments.push(argument.into_inner())?;
        rest = after;
    }
    Ok((arguments, rest))
}

/// A mark, as a statement.
fn mark_statement(tokens: &[Token], level: u8) -> Result<(Stmt, &[Token]), Unread>
    requires { level ≤ limit + 1 }
    ensures reads { next_in (begins grammar.Mark) tokens.now ≡ true → Finds (λ x. statement_row x.0) (λ x. x.1.now) level (Ref grammar.PlainStatement) tokens.now result }
    ensures shorter { IfOk result (λ x. length x.1.now < length tokens.now) }
{
    let (place, rest) = mark(tokens, level)?;
    Ok((Stmt::Mark(place), rest))
}

/// A place where a checkpoint may be taken.
#[tactic(auto, using(c_grammar::proofs::Steps::descent))]
fn mark(tokens: &[Token], level: u8) -> Result<(Mark, &[Token]), Unread>
    requires { level ≤ limit + 1 }
    ensures reads { Finds (λ x. node grammar.Mark (mark_row x.0) none) (λ x. x.1.now) level (Ref grammar.Mark) tokens.now result }
    ensures shorter { IfOk result (λ x. length x.1.now < length tokens.now) }
{
    if next_is(tokens, Class::Checkpoint) {
        let (at, rest) = place(tokens, Class::Checkpoint, level)?;
        return Ok((Mark::Pragma(at), rest));
    }
    let (at, rest) = place(tokens, Class::PotentialCheckpoint, level)?;
    let rest = skip(rest, Class::LeftParen, level)?;
    let rest = skip(rest, Class::RightParen, level)?;
    let rest = skip(rest, Class::Semicolon, level)?;
    Ok((Mark::Call(at), rest))
}

/// A call of MPI, as a statement.
fn call_statement(alloc: Global, tokens: &[Token], level: u8) -> Result<(Stmt, &[Token]), ReadError>
    requires { level ≤ limit + 1 }
    ensures reads { next_in (begins grammar.MpiCall) tokens.now ≡ true → Gives (λ x. statement_row x.0) (λ x. x.1.now) level (Ref grammar.PlainStatement) tokens.now result }
    ensures shorter { IfOk result (λ x. length x.1.now < length tokens.now) }
{
    let (call, rest) = mpi_call(alloc, tokens, level)?;
    let (call, rest) = followed_by(call, rest, Class::Semicolon, level)?;
    Ok((Stmt::Mpi(call), rest))
}

/// A simple statement and its semicolon, where no other statement begins.
fn remaining_statement(
    alloc: Global,
    tokens: &[Token],
    level: u8,
) -> Result<(Stmt, &[Token]), ReadError>
    requires { level ≤ limit + 1 }
    ensures reads { next_in (holders ++ leaves) tokens.now ≡ false → Gives (λ x. statement_row x.0) (λ x. x.1.now) level (Ref grammar.PlainStatement) tokens.now result }
    ensures shorter { IfOk result (λ x. length x.1.now < length tokens.now) }
{
    let (action, rest) = simple_statement(alloc, tokens, level)?;
    let (action, rest) = followed_by(action, rest, Class::Semicolon, level)?;
    Ok((Stmt::Simple(action), rest))
}
