//! Statements that may also stand in the head of a `for`.

ghost use Rattle.std.specs.Prelude.{◌≤◌, ◌<◌, ◌+◌, IfOk, length};
ghost use Rattle.c_grammar.specs.Grammar as grammar;
ghost use Rattle.c_grammar.specs.Grammar.{Maybe, Ref, ◌∥◌, ◌⊳◌};
ghost use Rattle.c_grammar.specs.Meaning.{limit, none, ◌+++◌};
ghost use Rattle.c_grammar.specs.Gives.{Finds, Gives};
ghost use Rattle.c_grammar.specs.Readers.{assign_class};
ghost use Rattle.c_grammar.specs.Trees.{expression_tree, simple_row, simple_tree, step_class, word};

use super::ahead::{at_step, is_assignment, is_step};
use crate::expression::{expression, unary};
use c_grammar::ahead::at_assignment;
use c_grammar::reading::pick;
use c_grammar::{ReadError, Unread};
use c_tree::tree::{Expr, SimpleStatement, Step};
use c_tree::{Operator, Token};
use std::alloc::Global;

/// An expression (C99 6.8.3), an assignment (C99 6.5.16) or a step.
pub fn simple_statement(
    alloc: Global,
    tokens: &[Token],
    level: u8,
) -> Result<(SimpleStatement, &[Token]), ReadError>
    requires { level ≤ limit + 1 }
    ensures reads { Gives (λ x. simple_tree x.0) (λ x. x.1.now) level (Ref grammar.SimpleStatement) tokens.now result }
    ensures shorter { IfOk result (λ x. length x.1.now < length tokens.now) }
{
    if is_step(tokens) {
        return prefix_step(alloc, tokens, level);
    }
    after_expression(alloc, tokens, level)
}

/// `++place` or `--place`.
#[tactic(auto, using(c_grammar::proofs::Steps::descent))]
fn prefix_step(
    alloc: Global,
    tokens: &[Token],
    level: u8,
) -> Result<(SimpleStatement, &[Token]), ReadError>
    requires { level ≤ limit + 1 }
    ensures reads { Gives (λ x. simple_row x.0) (λ x. x.1.now) level (grammar.one_of grammar.increments ⊳ Ref grammar.Unary) tokens.now result }
    ensures shorter { IfOk result (λ x. length x.1.now < length tokens.now) }
{
    let (at, step, rest) = read_step(tokens, level)?;
    let (place, rest) = unary(alloc, rest, level)?;
    let place = place.into_inner();
    Ok((SimpleStatement::Prefix { at, step, place }, rest))
}

/// What begins with an expression.
#[tactic(auto, using(c_grammar::proofs::Steps::descent, c_grammar::proofs::Steps::r_end, crate::proofs::StatementChoices::maybe_left, crate::proofs::StatementChoices::maybe_right, crate::proofs::StatementChoices::maybe_neither))]
fn after_expression(
    alloc: Global,
    tokens: &[Token],
    level: u8,
) -> Result<(SimpleStatement, &[Token]), ReadError>
    requires { level ≤ limit + 1 }
    ensures reads { Gives (λ x. simple_row x.0) (λ x. x.1.now) level (grammar.e ⊳ Maybe ((grammar.one_of grammar.assignments ⊳ grammar.e) ∥ grammar.one_of grammar.increments)) tokens.now result }
    ensures shorter { IfOk result (λ x. length x.1.now < length tokens.now) }
{
    let (place, rest) = expression(alloc, tokens, level)?;
    if is_assignment(rest) {
        let (at, operator, rest) = assignment(rest, level)?;
        let (value, rest) = expression(alloc, rest, level)?;
        return Ok((
            SimpleStatement::Assign {
                place: place.into_inner(),
                at,
                operator,
                value: value.into_inner(),
            },
            rest,
        ));
    }
    if is_step(rest) {
        let (at, step, rest) = read_step(rest, level)?;
        let place = place.into_inner();
        return Ok((SimpleStatement::Postfix { place, at, step }, rest));
    }
    Ok((SimpleStatement::Expression(place.into_inner()), rest))
}

/// `=` or an operator and `=`.
fn assignment(tokens: &[Token], level: u8) -> Result<(u32, Option<Operator>, &[Token]), Unread>
    ensures reads { Finds (λ x. word (assign_class x.1) x.0 none) (λ x. x.2.now) level (grammar.one_of grammar.assignments) tokens.now result }
    ensures shorter { IfOk result (λ x. length x.2.now < length tokens.now) }
{
    pick(tokens, at_assignment(tokens), level)
}

/// `++` or `--`.
fn read_step(tokens: &[Token], level: u8) -> Result<(u32, Step, &[Token]), Unread>
    ensures reads { Finds (λ x. word (step_class x.1) x.0 none) (λ x. x.2.now) level (grammar.one_of grammar.increments) tokens.now result }
    ensures shorter { IfOk result (λ x. length x.2.now < length tokens.now) }
{
    pick(tokens, at_step(tokens), level)
}
