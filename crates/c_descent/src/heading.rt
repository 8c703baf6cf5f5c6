//! Parameters (C99 6.7.5.3).

ghost use Rattle.std.specs.Prelude.{◌≤◌, ◌<◌, ◌+◌, ◌∷◌, [], IfOk, length};
ghost use Rattle.c_grammar.specs.Grammar as grammar;
ghost use Rattle.c_grammar.specs.Grammar.{Ref, Word, All, Deeper, Maybe, ◌⊳◌, word, shown, valued, listed, integers};
ghost use Rattle.c_grammar.specs.Meaning.{limit};
ghost use Rattle.c_grammar.specs.Gives.{Finds, Gives};
ghost use Rattle.c_grammar.specs.Trees.{parameters_tree, parameter_tree, name_row, number_row, bound_row, each, given};
ghost use Rattle.c_tree.specs.declared.token.Class.TheVariants as class;

use crate::ahead::at_integer;
use crate::types::{stars, type_specifier};
use crate::words::{name, number};
use c_grammar::ahead::{at_type, next_is};
use c_grammar::reading::{show, skip};
use c_grammar::{ReadError, Unread};
use c_tree::tree::{Bound, Name, Number, Parameter};
use c_tree::{Class, Token};
use sqlite_items::Items;
use std::alloc::Global;

/// The parameters of a function in their parentheses.
#[tactic(auto, using(c_grammar::proofs::Steps::descent))]
pub fn parameters(
    alloc: Global,
    tokens: &[Token],
    level: u8,
) -> Result<(Items<Parameter>, &[Token]), ReadError>
    requires { level ≤ limit + 1 }
    ensures reads { Gives (λ x. parameters_tree x.0) (λ x. x.1.now) level (Ref grammar.Parameters) tokens.now result }
    ensures shorter { IfOk result (λ x. length x.1.now < length tokens.now) }
{
    let rest = skip(tokens, Class::LeftParen, level)?;
    let (parameters, rest) = parameter_list(alloc, rest, level + 1)?;
    let rest = skip(rest, Class::RightParen, level)?;
    Ok((parameters, rest))
}

/// Parameters, where there are any.
#[tactic(auto, using(c_grammar::proofs::Steps::descent))]
fn parameter_list(
    alloc: Global,
    tokens: &[Token],
    level: u8,
) -> Result<(Items<Parameter>, &[Token]), ReadError>
    requires { level ≤ limit + 1 }
    ensures reads { Gives (λ x. each parameter_tree x.0) (λ x. x.1.now) level (Maybe (listed (Ref grammar.Parameter))) tokens.now result }
    ensures shorter { IfOk result (λ x. length x.1.now ≤ length tokens.now) }
{
    if !at_type(tokens) {
        return Ok((Items::new(alloc), tokens));
    }
    let (parameters, rest) = parameter_declarations(alloc, tokens, level)?;
    Ok((parameters, rest))
}

/// Parameters with commas between them.
fn parameter_declarations(
    alloc: Global,
    tokens: &[Token],
    level: u8,
) -> Result<(Items<Parameter>, &[Token]), ReadError>
    requires { level ≤ limit + 1 }
    ensures reads { Gives (λ x. each parameter_tree x.0) (λ x. x.1.now) level (listed (Ref grammar.Parameter)) tokens.now result }
    ensures shorter { IfOk result (λ x. length x.1.now < length tokens.now) }
{
    let mut parameters = Items::new(alloc);
    let (first, rest) = parameter(alloc, tokens, level)?;
    parameters.push(first)?;
    let mut rest = rest;
    'more: while next_is(rest, Class::Comma) {
        let (next, after) = next_parameter(alloc, rest, level)?;
        parameters.push(next)?;
        rest = after;
    }
    Ok((parameters, rest))
}

/// A comma and a parameter.
#[tactic(auto, using(c_grammar::proofs::Steps::descent))]
fn next_parameter(
    alloc: Global,
    tokens: &[Token],
    level: u8,
) -> Result<(Parameter, &[Token]), ReadError>
    requires { level ≤ limit + 1 }
    ensures reads { Gives (λ x. parameter_tree x.0) (λ x. x.1.now) level (word class.Comma ⊳ Ref grammar.Parameter) tokens.now result }
    ensures shorter { IfOk result (λ x. length x.1.now < length tokens.now) }
{
    let rest = skip(tokens, Class::Comma, level)?;
    let (parameter, rest) = parameter(alloc, rest, level)?;
    Ok((parameter, rest))
}

/// A parameter. Its name may be missing.
#[tactic(auto, using(c_grammar::proofs::Steps::descent))]
fn parameter(alloc: Global, tokens: &[Token], level: u8) -> Result<(Parameter, &[Token]), ReadError>
    requires { level ≤ limit + 1 }
    ensures reads { Gives (λ x. parameter_tree x.0) (λ x. x.1.now) level (Ref grammar.Parameter) tokens.now result }
    ensures shorter { IfOk result (λ x. length x.1.now < length tokens.now) }
{
    let (specifier, rest) = type_specifier(alloc, tokens, level)?;
    let (stars, rest) = stars(rest, level)?;
    let (name, rest) = optional_name(alloc, rest, level)?;
    let (array, rest) = optional_bound(rest, level)?;
    let parameter = Parameter {
        specifier,
        stars,
        name,
        array,
    };
    Ok((parameter, rest))
}

/// A name, where there is one.
#[tactic(auto, using(c_grammar::proofs::Steps::descent))]
fn optional_name(
    alloc: Global,
    tokens: &[Token],
    level: u8,
) -> Result<(Option<Name>, &[Token]), ReadError>
    ensures reads { Gives (λ x. given name_row x.0) (λ x. x.1.now) level (Maybe (valued class.Name)) tokens.now result }
    ensures shorter { IfOk result (λ x. length x.1.now ≤ length tokens.now) }
{
    if !next_is(tokens, Class::Name) {
        return Ok((None, tokens));
    }
    let (name, rest) = name(alloc, tokens, level)?;
    Ok((Some(name), rest))
}

/// The brackets of an array, where there are any.
#[tactic(auto, using(c_grammar::proofs::Steps::descent))]
fn optional_bound(tokens: &[Token], level: u8) -> Result<(Option<Bound>, &[Token]), Unread>
    requires { level ≤ limit + 1 }
    ensures reads { Finds (λ x. given bound_row x.0) (λ x. x.1.now) level (Maybe (shown class.LeftBracket ⊳ Deeper (Maybe (Word All integers)) ⊳ word class.RightBracket)) tokens.now result }
    ensures shorter { IfOk result (λ x. length x.1.now ≤ length tokens.now) }
{
    if !next_is(tokens, Class::LeftBracket) {
        return Ok((None, tokens));
    }
    let (bound, rest) = bound(tokens, level)?;
    Ok((Some(bound), rest))
}

/// The brackets of an array, whose size may be missing.
#[tactic(auto, using(c_grammar::proofs::Steps::descent))]
fn bound(tokens: &[Token], level: u8) -> Result<(Bound, &[Token]), Unread>
    requires { level ≤ limit + 1 }
    ensures reads { Finds (λ x. bound_row x.0) (λ x. x.1.now) level (shown class.LeftBracket ⊳ Deeper (Maybe (Word All integers)) ⊳ word class.RightBracket) tokens.now result }
    ensures shorter { IfOk result (λ x. length x.1.now < length tokens.now) }
{
    let rest = show(tokens, Class::LeftBracket, level)?;
    let (size, rest) = optional_number(rest, level + 1)?;
    let rest = skip(rest, Class::RightBracket, level)?;
    match size {
        Some(size) => Ok((Bound::Size(size), rest)),
        None => Ok((Bound::Open, rest)),
    }
}

/// A number, where there is one.
#[tactic(auto, using(c_grammar::proofs::Steps::descent))]
fn optional_number(tokens: &[Token], level: u8) -> Result<(Option<Number>, &[Token]), Unread>
    ensures reads { Finds (λ x. given number_row x.0) (λ x. x.1.now) level (Maybe (Word All integers)) tokens.now result }
    ensures shorter { IfOk result (λ x. length x.1.now ≤ length tokens.now) }
{
    if !at_integer(tokens) {
        return Ok((None, tokens));
    }
    let (number, rest) = number(tokens, level)?;
    Ok((Some(number), rest))
}
