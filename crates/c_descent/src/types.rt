//! Types and sizes.

ghost use Rattle.std.specs.Prelude.{◌≤◌, ◌<◌, ◌+◌, ◌∷◌, [], IfOk, length};
ghost use Rattle.c_tree.specs.declared.token.Class.TheVariants as class;
ghost use Rattle.c_grammar.specs.Grammar as grammar;
ghost use Rattle.c_grammar.specs.Grammar.{Ref, Word, Many, Maybe, ◌⊳◌};
ghost use Rattle.c_grammar.specs.Meaning.{none, limit};
ghost use Rattle.c_grammar.specs.Gives.{Finds, Gives};
ghost use Rattle.c_grammar.specs.Trees.{specifier_tree, specifier_row, type_name_row, star_row, number_row, each};

use crate::ahead::at_simple_type;
use crate::words::{name, number};
use c_grammar::ahead::next_is;
use c_grammar::reading::{pick, place, show, skip};
use c_grammar::{ReadError, Unread};
use c_tree::tree::{Number, PlainType, TypeName, TypeSpecifier};
use c_tree::{Class, Operator, Token};
use sqlite_items::Items;
use std::alloc::Global;

/// A type specifier (C99 6.7.2).
#[tactic(auto, using(c_grammar::proofs::Steps::descent))]
pub fn type_specifier(
    alloc: Global,
    tokens: &[Token],
    level: u8,
) -> Result<(TypeSpecifier, &[Token]), ReadError>
    requires { level ≤ limit + 1 }
    ensures reads { Gives (λ x. specifier_tree x.0) (λ x. x.1.now) level (Ref grammar.TypeSpecifier) tokens.now result }
    ensures shorter { IfOk result (λ x. length x.1.now < length tokens.now) }
{
    if next_is(tokens, Class::Struct) {
        let (at, rest) = place(tokens, Class::Struct, level)?;
        let (name, rest) = name(alloc, rest, level)?;
        return Ok((TypeSpecifier::Struct { at, name }, rest));
    }
    let (specifier, rest) = plain_type(tokens, level)?;
    Ok((specifier, rest))
}

/// A type other than a struct of the program.
#[tactic(auto, using(c_grammar::proofs::Steps::descent))]
pub fn plain_type(tokens: &[Token], level: u8) -> Result<(TypeSpecifier, &[Token]), Unread>
    requires { level ≤ limit + 1 }
    ensures reads { Finds (λ x. specifier_row x.0) (λ x. x.1.now) level grammar.plain_type tokens.now result }
    ensures shorter { IfOk result (λ x. length x.1.now < length tokens.now) }
{
    if next_is(tokens, Class::Long) {
        let (at, rest) = place(tokens, Class::Long, level)?;
        let rest = skip_int(rest, level)?;
        let plain = PlainType::Long;
        return Ok((TypeSpecifier::Plain { at, plain }, rest));
    }
    simple_type(tokens, level)
}

/// Passes an `int` that stands there.
#[tactic(auto, using(c_grammar::proofs::Steps::descent))]
fn skip_int(tokens: &[Token], level: u8) -> Result<&[Token], Unread>
    ensures reads { Finds (λ x. none) (λ x. x.now) level (Maybe (grammar.word class.Int)) tokens.now result }
    ensures shorter { IfOk result (λ x. length x.now ≤ length tokens.now) }
{
    if next_is(tokens, Class::Int) {
        return skip(tokens, Class::Int, level);
    }
    Ok(tokens)
}

/// A type of one word other than `long`.
#[tactic(auto, using(c_grammar::proofs::Steps::descent))]
fn simple_type(tokens: &[Token], level: u8) -> Result<(TypeSpecifier, &[Token]), Unread>
    ensures reads { Finds (λ x. specifier_row x.0) (λ x. x.1.now) level (grammar.one_of grammar.simple_types) tokens.now result }
    ensures shorter { IfOk result (λ x. length x.1.now < length tokens.now) }
{
    match pick(tokens, at_simple_type(tokens), level) {
        Ok((at, plain, rest)) => Ok((TypeSpecifier::Plain { at, plain }, rest)),
        Err(error) => Err(error),
    }
}

/// A type name: a type specifier and its stars.
#[tactic(auto, using(c_grammar::proofs::Steps::descent))]
pub fn type_name(
    alloc: Global,
    tokens: &[Token],
    level: u8,
) -> Result<(TypeName, &[Token]), ReadError>
    requires { level ≤ limit + 1 }
    ensures reads { Gives (λ x. type_name_row x.0) (λ x. x.1.now) level (Ref grammar.TypeSpecifier ⊳ grammar.stars) tokens.now result }
    ensures shorter { IfOk result (λ x. length x.1.now < length tokens.now) }
{
    let (specifier, rest) = type_specifier(alloc, tokens, level)?;
    let (stars, rest) = stars(rest, level)?;
    Ok((TypeName { specifier, stars }, rest))
}

/// Stars: how many stand there.
pub fn stars(tokens: &[Token], level: u8) -> Result<(usize, &[Token]), Unread>
    requires { level ≤ limit + 1 }
    ensures reads { Finds (λ x. star_row x.0) (λ x. x.1.now) level (grammar.stars) tokens.now result }
    ensures shorter { IfOk result (λ x. length x.1.now ≤ length tokens.now) }
{
    let mut count: usize = 0;
    let mut rest = tokens;
    'stars: while next_is(rest, Class::Sign(Operator::Star)) {
        rest = show(rest, Class::Sign(Operator::Star), level)?;
        count += 1;
    }
    Ok((count, rest))
}

/// The sizes of an array, each in its brackets.
pub fn sizes(
    alloc: Global,
    tokens: &[Token],
    level: u8,
) -> Result<(Items<Number>, &[Token]), ReadError>
    requires { level ≤ limit + 1 }
    ensures reads { Gives (λ x. each number_row x.0) (λ x. x.1.now) level (Many grammar.size) tokens.now result }
    ensures shorter { IfOk result (λ x. length x.1.now ≤ length tokens.now) }
{
    let mut sizes = Items::new(alloc);
    let mut rest = tokens;
    'sizes: while next_is(rest, Class::LeftBracket) {
        let (next, after) = size(rest, level)?;
        sizes.push(next)?;
        rest = after;
    }
    Ok((sizes, rest))
}

/// A size of an array in its brackets.
#[tactic(auto, using(c_grammar::proofs::Steps::descent))]
fn size(tokens: &[Token], level: u8) -> Result<(Number, &[Token]), Unread>
    requires { level ≤ limit + 1 }
    ensures reads { Finds (λ x. number_row x.0) (λ x. x.1.now) level grammar.size tokens.now result }
    ensures shorter { IfOk result (λ x. length x.1.now < length tokens.now) }
{
    let rest = skip(tokens, Class::LeftBracket, level)?;
    let (number, rest) = number(rest, level + 1)?;
    let rest = skip(rest, Class::RightBracket, level)?;
    Ok((number, rest))
}
