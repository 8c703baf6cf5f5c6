//! What stands before the statements that an `if` or a loop holds, or after them.

ghost use Rattle.std.specs.Prelude.{◌≡◌, ◌≤◌, ◌<◌, ◌+◌, IfOk, length};
ghost use Rattle.c_tree.specs.declared.token.Class.TheVariants as class;
ghost use Rattle.c_grammar.specs.Grammar as grammar;
ghost use Rattle.c_grammar.specs.Grammar.{Maybe, Ref, ◌∥◌, ◌⊳◌};
ghost use Rattle.c_grammar.specs.Meaning.{limit, ◌+++◌};
ghost use Rattle.c_grammar.specs.Gives.{Gives};
ghost use Rattle.c_grammar.specs.Trees.{expression_tree, for_row, given, shown, simple_tree, start_row};

use super::simple::simple_statement;
use crate::declaration::declaration;
use crate::expression::{expression, inside};
use crate::words::followed_by;
use c_grammar::ReadError;
use c_grammar::ahead::{at_operand, at_simple, at_type};
use c_grammar::reading::{show, skip};
use c_tree::tree::{Expr, ForStart, SimpleStatement};
use c_tree::{Class, Token};
use sqlite_items::Boxed;
use std::alloc::Global;

/// What follows the statement of a `do`.
#[tactic(auto, using(c_grammar::proofs::Steps::descent, c_grammar::proofs::Steps::r_end))]
pub fn do_test(
    alloc: Global,
    tokens: &[Token],
    level: u8,
) -> Result<(Boxed<Expr>, &[Token]), ReadError>
    requires { level ≤ limit + 1 }
    ensures reads { Gives (λ x. expression_tree x.0) (λ x. x.1.now) level (grammar.word class.While ⊳ grammar.inside grammar.e ⊳ grammar.word class.Semicolon) tokens.now result }
    ensures shorter { IfOk result (λ x. length x.1.now < length tokens.now) }
{
    let rest = skip(tokens, Class::While, level)?;
    let (test, rest) = inside(alloc, rest, level)?;
    let rest = skip(rest, Class::Semicolon, level)?;
    Ok((test, rest))
}

/// The clauses of a `for` (C99 6.8.5.3).
#[derive(Drop)]
pub struct Clauses {
    pub start: Option<Boxed<ForStart>>,
    pub test: Option<Boxed<Expr>>,
    pub step: Option<SimpleStatement>,
}

/// The clauses of a `for`, in their parentheses.
pub fn for_clauses(
    alloc: Global,
    tokens: &[Token],
    level: u8,
) -> Result<(Boxed<Clauses>, &[Token]), ReadError>
    requires { level ≤ limit + 1 }
    ensures reads { Gives (λ x. for_row x.0.start x.0.test x.0.step) (λ x. x.1.now) level (grammar.inside (Maybe (Ref grammar.Declaration ∥ Ref grammar.SimpleStatement) ⊳ grammar.shown class.Semicolon ⊳ Maybe grammar.e ⊳ grammar.shown class.Semicolon ⊳ Maybe (Ref grammar.SimpleStatement))) tokens.now result }
    ensures shorter { IfOk result (λ x. length x.1.now < length tokens.now) }
{
    let rest = skip(tokens, Class::LeftParen, level)?;
    let (clauses, rest) = bare_clauses(alloc, rest, level + 1)?;
    let (clauses, rest) = followed_by(clauses, rest, Class::RightParen, level)?;
    Ok((clauses, rest))
}

/// The clauses without their parentheses.
fn bare_clauses(
    alloc: Global,
    tokens: &[Token],
    level: u8,
) -> Result<(Boxed<Clauses>, &[Token]), ReadError>
    requires { level ≤ limit + 1 }
    ensures reads { Gives (λ x. for_row x.0.start x.0.test x.0.step) (λ x. x.1.now) level (Maybe (Ref grammar.Declaration ∥ Ref grammar.SimpleStatement) ⊳ grammar.shown class.Semicolon ⊳ Maybe grammar.e ⊳ grammar.shown class.Semicolon ⊳ Maybe (Ref grammar.SimpleStatement)) tokens.now result }
    ensures shorter { IfOk result (λ x. length x.1.now < length tokens.now) }
{
    let (start, rest) = for_start(alloc, tokens, level)?;
    let (test, step, rest) = later_clauses(alloc, rest, level)?;
    let clauses = Boxed::new(alloc, Clauses { start, test, step })?;
    Ok((clauses, rest))
}

/// The clauses after the first, each after its semicolon.
fn later_clauses(
    alloc: Global,
    tokens: &[Token],
    level: u8,
) -> Result<(Option<Boxed<Expr>>, Option<SimpleStatement>, &[Token]), ReadError>
    requires { level ≤ limit + 1 }
    ensures reads { Gives (λ x. shown class.Semicolon (given expression_tree x.0 +++ shown class.Semicolon (given simple_tree x.1))) (λ x. x.2.now) level (grammar.shown class.Semicolon ⊳ Maybe grammar.e ⊳ grammar.shown class.Semicolon ⊳ Maybe (Ref grammar.SimpleStatement)) tokens.now result }
    ensures shorter { IfOk result (λ x. length x.2.now < length tokens.now) }
{
    let rest = show(tokens, Class::Semicolon, level)?;
    let (test, rest) = optional_expression(alloc, rest, level)?;
    let rest = show(rest, Class::Semicolon, level)?;
    let (step, rest) = for_step(alloc, rest, level)?;
    Ok((test, step, rest))
}

/// The first clause of a `for`.
#[tactic(auto, using(c_grammar::proofs::Steps::descent, crate::proofs::StatementChoices::maybe_left, crate::proofs::StatementChoices::maybe_right, crate::proofs::StatementChoices::maybe_neither))]
fn for_start(
    alloc: Global,
    tokens: &[Token],
    level: u8,
) -> Result<(Option<Boxed<ForStart>>, &[Token]), ReadError>
    requires { level ≤ limit + 1 }
    ensures reads { Gives (λ x. given start_row x.0) (λ x. x.1.now) level (Maybe (Ref grammar.Declaration ∥ Ref grammar.SimpleStatement)) tokens.now result }
    ensures shorter { IfOk result (λ x. length x.1.now ≤ length tokens.now) }
{
    if at_type(tokens) {
        let (variables, rest) = declaration(alloc, tokens, level)?;
        let start = Boxed::new(alloc, ForStart::Declaration(variables))?;
        return Ok((Some(start), rest));
    }
    if at_simple(tokens) {
        let (action, rest) = simple_statement(alloc, tokens, level)?;
        let start = Boxed::new(alloc, ForStart::Simple(action))?;
        return Ok((Some(start), rest));
    }
    Ok((None, tokens))
}

/// The last clause of a `for`.
#[tactic(auto, using(c_grammar::proofs::Steps::descent))]
fn for_step(
    alloc: Global,
    tokens: &[Token],
    level: u8,
) -> Result<(Option<SimpleStatement>, &[Token]), ReadError>
    requires { level ≤ limit + 1 }
    ensures reads { Gives (λ x. given simple_tree x.0) (λ x. x.1.now) level (Maybe (Ref grammar.SimpleStatement)) tokens.now result }
    ensures shorter { IfOk result (λ x. length x.1.now ≤ length tokens.now) }
{
    if at_simple(tokens) {
        let (action, rest) = simple_statement(alloc, tokens, level)?;
        return Ok((Some(action), rest));
    }
    Ok((None, tokens))
}

/// An expression, where one begins.
#[tactic(auto, using(c_grammar::proofs::Steps::descent))]
pub fn optional_expression(
    alloc: Global,
    tokens: &[Token],
    level: u8,
) -> Result<(Option<Boxed<Expr>>, &[Token]), ReadError>
    requires { level ≤ limit + 1 }
    ensures reads { Gives (λ x. given expression_tree x.0) (λ x. x.1.now) level (Maybe grammar.e) tokens.now result }
    ensures shorter { IfOk result (λ x. length x.1.now ≤ length tokens.now) }
{
    if at_operand(tokens) {
        let (value, rest) = expression(alloc, tokens, level)?;
        return Ok((Some(value), rest));
    }
    Ok((None, tokens))
}

/// What is in the box, where there is one.
pub fn unboxed<T>(part: Option<Boxed<T>>) -> Option<T>
    ensures { result ≡ part }
{
    match part {
        Some(part) => Some(part.into_inner()),
        None => None,
    }
}
