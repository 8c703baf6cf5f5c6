//! Readers of one token.

ghost use Rattle.std.specs.Prelude.{◌≡◌, ◌≤◌, ◌<◌, ◌∷◌, [], List, true, IfOk, length, slice_index_or};
ghost use Rattle.c_grammar.specs.Grammar.{Keep, Word, Place, Nothing, All, Kind, integers, literals, member_names};
ghost use Rattle.c_grammar.specs.Meaning.{leaf, none, kept, next_in, limit};
ghost use Rattle.c_grammar.specs.Gives.{Stops, Finds, Gives};
ghost use Rattle.c_grammar.specs.Readers.{IsNext, IsValue, integer_class, integer_value, literal_class, literal_value, member_class, member_value};
ghost use Rattle.c_tree.specs.declared.token.Class.{Class};
ghost use Rattle.c_tree.specs.declared.token.Class.TheVariants;
ghost use Rattle.c_tree.specs.declared.token.Value.{Value};
ghost use Rattle.c_tree.specs.declared.token.Value.TheVariants as value;

use crate::ahead::next_is;
use crate::fault::{ReadError, Unread};
use crate::values::{Integer, Literal, MemberName, bytes_in, integer_at, literal_at};
use c_tree::{Class, Token};
use sqlite_items::Items;
use std::alloc::Global;

/// The greatest level.
pub const LIMIT: u8 = 64;

/// The next token, which is to be of the class.
pub fn word(tokens: &[Token], class: Class, level: u8) -> Result<(&Token, &[Token]), Unread>
    ensures reads { (k : Keep) → Finds (λ x. kept k x.0.now) (λ x. x.1.now) level (Word k (class ∷ [])) tokens.now result }
    ensures level { IfOk result (λ x. level ≤ limit) }
    ensures class { IfOk result (λ x. x.0.now.class ≡ class) }
    ensures shorter { IfOk result (λ x. length x.1.now < length tokens.now) }
{
    if !next_is(tokens, class) {
        return Err(Unread::Syntax(tokens.len()));
    }
    if level > LIMIT {
        return Err(Unread::TooDeep(tokens.len()));
    }
    if next_is(tokens, Class::HugeNumber) {
        return Err(Unread::TooLarge(tokens.len()));
    }
    Ok((&tokens[0], &tokens[1..]))
}

/// Passes the next token, which is to be of the class.
pub fn skip(tokens: &[Token], class: Class, level: u8) -> Result<&[Token], Unread>
    ensures reads { Finds (λ x. none) (λ x. x.now) level (Word Nothing (class ∷ [])) tokens.now result }
    ensures level { IfOk result (λ x. level ≤ limit) }
    ensures shorter { IfOk result (λ x. length x.now < length tokens.now) }
{
    match word(tokens, class, level) {
        Ok((_, rest)) => Ok(rest),
        Err(error) => Err(error),
    }
}

/// Passes the next token, which is to be of the class, and stands in the tree.
pub fn show(tokens: &[Token], class: Class, level: u8) -> Result<&[Token], Unread>
    ensures reads { Finds (λ x. leaf class value.Nothing 0 none) (λ x. x.now) level (Word Kind (class ∷ [])) tokens.now result }
    ensures level { IfOk result (λ x. level ≤ limit) }
    ensures shorter { IfOk result (λ x. length x.now < length tokens.now) }
{
    match word(tokens, class, level) {
        Ok((_, rest)) => Ok(rest),
        Err(error) => Err(error),
    }
}

/// The place of the next token, which is to be of the class.
pub fn place(tokens: &[Token], class: Class, level: u8) -> Result<(u32, &[Token]), Unread>
    ensures reads { Finds (λ x. leaf class value.Nothing x.0 none) (λ x. x.1.now) level (Word Place (class ∷ [])) tokens.now result }
    ensures level { IfOk result (λ x. level ≤ limit) }
    ensures shorter { IfOk result (λ x. length x.1.now < length tokens.now) }
{
    match word(tokens, class, level) {
        Ok((token, rest)) => Ok((token.place, rest)),
        Err(error) => Err(error),
    }
}

/// The next token, where it was seen that it is of one of the classes.
pub fn take(tokens: &[Token], level: u8) -> Result<(&Token, &[Token]), Unread>
    requires { 0 < length tokens.now }
    ensures reads { (k : Keep) (cs : List Class) → next_in cs tokens.now ≡ true → Finds (λ x. kept k x.0.now) (λ x. x.1.now) level (Word k cs) tokens.now result }
    ensures level { IfOk result (λ x. level ≤ limit) }
    ensures first { IfOk result (λ x. x.0.now ≡ slice_index_or tokens.now 0 x.0.now) }
    ensures shorter { IfOk result (λ x. length x.1.now < length tokens.now) }
{
    if level > LIMIT {
        return Err(Unread::TooDeep(tokens.len()));
    }
    if next_is(tokens, Class::HugeNumber) {
        return Err(Unread::TooLarge(tokens.len()));
    }
    Ok((&tokens[0], &tokens[1..]))
}

/// The next token, which is to be the one that was found: its place, and what it is.
pub fn pick<T: Copy>(
    tokens: &[Token],
    found: Option<T>,
    level: u8,
) -> Result<(u32, T, &[Token]), Unread>
    ensures reads { (kind : T → Class) (cs : List Class) → IsNext kind cs tokens.now found → Finds (λ x. leaf (kind x.1) value.Nothing x.0 none) (λ x. x.2.now) level (Word Place cs) tokens.now result }
    ensures level { IfOk result (λ x. level ≤ limit) }
    ensures shorter { IfOk result (λ x. length x.2.now < length tokens.now) }
{
    match found {
        None => Err(Unread::Syntax(tokens.len())),
        Some(what) => match tokens {
            [] => Err(Unread::Syntax(0)),
            _ => match take(tokens, level) {
                Ok((token, rest)) => Ok((token.place, what, rest)),
                Err(error) => Err(error),
            },
        },
    }
}

/// The next token, which is to be the one that was found, and has a value: its place, and what it is.
fn pick_value<T: Copy>(
    tokens: &[Token],
    found: Option<T>,
    level: u8,
) -> Result<(u32, T, &[Token]), Unread>
    ensures reads { (kind : T → Class) (worth : T → Value) (cs : List Class) → IsValue kind worth cs tokens.now found → Finds (λ x. leaf (kind x.1) (worth x.1) x.0 none) (λ x. x.2.now) level (Word All cs) tokens.now result }
    ensures level { IfOk result (λ x. level ≤ limit) }
    ensures shorter { IfOk result (λ x. length x.2.now < length tokens.now) }
{
    match found {
        None => Err(refusal(tokens, level)),
        Some(what) => match tokens {
            [] => Err(Unread::Syntax(0)),
            _ => match take(tokens, level) {
                Ok((token, rest)) => Ok((token.place, what, rest)),
                Err(error) => Err(error),
            },
        },
    }
}

/// Why the next token is not read where only a number of 2^63 or more can be of its classes.
fn refusal(tokens: &[Token], level: u8) -> Unread
    ensures { (k : Keep) (cs : List Class) → next_in cs tokens.now ≡ next_in (TheVariants.HugeNumber ∷ []) tokens.now → Stops level (Word k cs) tokens.now result }
{
    if !next_is(tokens, Class::HugeNumber) {
        return Unread::Syntax(tokens.len());
    }
    if level > LIMIT {
        return Unread::TooDeep(tokens.len());
    }
    Unread::TooLarge(tokens.len())
}

/// A number: its place, and what it is.
pub fn integer(tokens: &[Token], level: u8) -> Result<(u32, Integer, &[Token]), Unread>
    ensures reads { Finds (λ x. leaf (integer_class x.1) (integer_value x.1) x.0 none) (λ x. x.2.now) level (Word All integers) tokens.now result }
    ensures level { IfOk result (λ x. level ≤ limit) }
    ensures shorter { IfOk result (λ x. length x.2.now < length tokens.now) }
{
    pick_value(tokens, integer_at(tokens), level)
}

/// A literal: its place, and what it is.
pub fn literal(tokens: &[Token], level: u8) -> Result<(u32, Literal, &[Token]), Unread>
    ensures reads { Finds (λ x. leaf (literal_class x.1) (literal_value x.1) x.0 none) (λ x. x.2.now) level (Word All literals) tokens.now result }
    ensures level { IfOk result (λ x. level ≤ limit) }
    ensures shorter { IfOk result (λ x. length x.2.now < length tokens.now) }
{
    pick_value(tokens, literal_at(tokens), level)
}

/// A name of the program: its place and its bytes.
pub fn name(
    alloc: Global,
    tokens: &[Token],
    level: u8,
) -> Result<(u32, Items<u8>, &[Token]), ReadError>
    ensures reads { Gives (λ x. leaf TheVariants.Name (value.Bytes x.1) x.0 none) (λ x. x.2.now) level (Word All (TheVariants.Name ∷ [])) tokens.now result }
    ensures level { IfOk result (λ x. level ≤ limit) }
    ensures shorter { IfOk result (λ x. length x.2.now < length tokens.now) }
{
    let (token, rest) = word(tokens, Class::Name, level)?;
    let bytes = bytes_in(alloc, &token.value)?;
    Ok((token.place, bytes, rest))
}

/// A string literal: its place, and the bytes that it stands for.
pub fn string(
    alloc: Global,
    tokens: &[Token],
    level: u8,
) -> Result<(u32, Items<u8>, &[Token]), ReadError>
    ensures reads { Gives (λ x. leaf TheVariants.Text (value.Bytes x.1) x.0 none) (λ x. x.2.now) level (Word All (TheVariants.Text ∷ [])) tokens.now result }
    ensures level { IfOk result (λ x. level ≤ limit) }
    ensures shorter { IfOk result (λ x. length x.2.now < length tokens.now) }
{
    let (token, rest) = word(tokens, Class::Text, level)?;
    let bytes = bytes_in(alloc, &token.value)?;
    Ok((token.place, bytes, rest))
}

/// A member's name: its place, and what it is.
pub fn member_name(
    alloc: Global,
    tokens: &[Token],
    level: u8,
) -> Result<(u32, MemberName, &[Token]), ReadError>
    ensures reads { Gives (λ x. leaf (member_class x.1) (member_value x.1) x.0 none) (λ x. x.2.now) level (Word All member_names) tokens.now result }
    ensures level { IfOk result (λ x. level ≤ limit) }
    ensures shorter { IfOk result (λ x. length x.2.now < length tokens.now) }
{
    if next_is(tokens, Class::SourceField) {
        let (token, rest) = word(tokens, Class::SourceField, level)?;
        return Ok((token.place, MemberName::Source, rest));
    }
    if next_is(tokens, Class::TagField) {
        let (token, rest) = word(tokens, Class::TagField, level)?;
        return Ok((token.place, MemberName::Tag, rest));
    }
    match name(alloc, tokens, level) {
        Ok((place, bytes, rest)) => Ok((place, MemberName::Name(bytes), rest)),
        Err(error) => Err(error),
    }
}
