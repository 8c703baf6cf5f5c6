//! Programs (C99 6.9).

ghost use Rattle.std.specs.Prelude.{◌≡◌, ◌≤◌, ◌<◌, ◌+◌, IfOk, length};
ghost use Rattle.c_grammar.specs.Grammar as grammar;
ghost use Rattle.c_grammar.specs.Grammar.{Ref, ◌⊳◌, ◌∥◌, one_of, headers, placed, valued};
ghost use Rattle.c_grammar.specs.Meaning.{limit, ◌+++◌};
ghost use Rattle.c_grammar.specs.Gives.{Finds, Gives};
ghost use Rattle.c_grammar.specs.Trees.{parse_tree, item_tree, item_row, specifier_row};
ghost use Rattle.c_descent.specs.Functions.{function_tree};
ghost use Rattle.c_tree.specs.declared.token.Class.TheVariants as class;

use crate::ahead::at_include;
use crate::heading::parameters;
use crate::statement::block;
use crate::structs::struct_body;
use crate::types::{plain_type, stars};
use crate::words::name;
use c_grammar::ahead::{at_header, at_item, next_is};
use c_grammar::reading::{pick, place, skip};
use c_grammar::{ReadError, Unread};
use c_tree::tree::{Heading, Item, TypeSpecifier};
use c_tree::{Class, Token};
use sqlite_items::Items;
use std::alloc::Global;

/// The items of a program.
pub fn program(
    alloc: Global,
    tokens: &[Token],
    level: u8,
) -> Result<(Items<Item>, &[Token]), ReadError>
    requires { level ≤ limit + 1 }
    ensures reads { Gives (λ x. parse_tree x.0) (λ x. x.1.now) level (Ref grammar.Program) tokens.now result }
    ensures shorter { IfOk result (λ x. length x.1.now ≤ length tokens.now) }
{
    let mut items = Items::new(alloc);
    let mut rest = tokens;
    'items: while at_item(rest) {
        let (next, after) = item(alloc, rest, level)?;
        items.push(next)?;
        rest = after;
    }
    Ok((items, rest))
}

/// An include, a struct that is defined, or a function.
#[tactic(auto, using(c_grammar::proofs::Steps::descent))]
fn item(alloc: Global, tokens: &[Token], level: u8) -> Result<(Item, &[Token]), ReadError>
    requires { level ≤ limit + 1 }
    ensures reads { Gives (λ x. item_tree x.0) (λ x. x.1.now) level (Ref grammar.Item) tokens.now result }
    ensures shorter { IfOk result (λ x. length x.1.now < length tokens.now) }
{
    if at_include(tokens) {
        let (item, rest) = include(tokens, level)?;
        return Ok((item, rest));
    }
    if next_is(tokens, Class::Struct) {
        let (item, rest) = struct_or_function(alloc, tokens, level)?;
        return Ok((item, rest));
    }
    let (item, rest) = plain_function(alloc, tokens, level)?;
    Ok((item, rest))
}

/// An include.
#[tactic(auto, using(c_grammar::proofs::Steps::descent))]
fn include(tokens: &[Token], level: u8) -> Result<(Item, &[Token]), Unread>
    ensures reads { Finds (λ x. item_row x.0) (λ x. x.1.now) level (one_of headers) tokens.now result }
    ensures shorter { IfOk result (λ x. length x.1.now < length tokens.now) }
{
    match pick(tokens, at_header(tokens), level) {
        Ok((at, header, rest)) => Ok((Item::Include { at, header }, rest)),
        Err(error) => Err(error),
    }
}

/// A struct that is defined, or a function whose type is a struct's.
#[tactic(auto, using(c_grammar::proofs::Steps::descent))]
fn struct_or_function(
    alloc: Global,
    tokens: &[Token],
    level: u8,
) -> Result<(Item, &[Token]), ReadError>
    requires { level ≤ limit + 1 }
    ensures reads { Gives (λ x. item_row x.0) (λ x. x.1.now) level (placed class.Struct ⊳ valued class.Name ⊳ (Ref grammar.StructBody ∥ Ref grammar.Function)) tokens.now result }
    ensures shorter { IfOk result (λ x. length x.1.now < length tokens.now) }
{
    let (at, rest) = place(tokens, Class::Struct, level)?;
    let (name, rest) = name(alloc, rest, level)?;
    if next_is(rest, Class::LeftBrace) {
        let (members, rest) = struct_body(alloc, rest, level)?;
        return Ok((Item::Struct { at, name, members }, rest));
    }
    let specifier = TypeSpecifier::Struct { at, name };
    let (item, rest) = function(alloc, specifier, rest, level)?;
    Ok((item, rest))
}

/// A function whose type is no struct's.
#[tactic(auto, using(c_grammar::proofs::Steps::descent))]
fn plain_function(alloc: Global, tokens: &[Token], level: u8) -> Result<(Item, &[Token]), ReadError>
    requires { level ≤ limit + 1 }
    ensures reads { Gives (λ x. item_row x.0) (λ x. x.1.now) level (grammar.plain_type ⊳ Ref grammar.Function) tokens.now result }
    ensures shorter { IfOk result (λ x. length x.1.now < length tokens.now) }
{
    let (specifier, rest) = plain_type(tokens, level)?;
    let (item, rest) = function(alloc, specifier, rest, level)?;
    Ok((item, rest))
}

/// A prototype or a function, after its type specifier.
#[tactic(auto, using(c_grammar::proofs::Steps::descent))]
fn function(
    alloc: Global,
    specifier: TypeSpecifier,
    tokens: &[Token],
    level: u8,
) -> Result<(Item, &[Token]), ReadError>
    requires { level ≤ limit + 1 }
    ensures reads { Gives (λ x. function_tree x.0) (λ x. x.1.now) level (Ref grammar.Function) tokens.now result }
    ensures row { IfOk result (λ x. item_row x.0 ≡ specifier_row specifier +++ function_tree x.0) }
    ensures shorter { IfOk result (λ x. length x.1.now < length tokens.now) }
{
    let (stars, rest) = stars(tokens, level)?;
    let (name, rest) = name(alloc, rest, level)?;
    let (parameters, rest) = parameters(alloc, rest, level)?;
    let heading = Heading {
        specifier,
        stars,
        name,
        parameters,
    };
    if next_is(rest, Class::Semicolon) {
        let rest = skip(rest, Class::Semicolon, level)?;
        return Ok((Item::Prototype(heading), rest));
    }
    let (body, rest) = block(alloc, rest, level + 1)?;
    Ok((Item::Function { heading, body }, rest))
}
