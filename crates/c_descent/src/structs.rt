//! Bodies of structs (C99 6.7.2.1).

ghost use Rattle.std.specs.Prelude.{◌≤◌, ◌<◌, ◌+◌, IfOk, length};
ghost use Rattle.c_grammar.specs.Grammar as grammar;
ghost use Rattle.c_grammar.specs.Grammar.{Ref, Many, ◌⊳◌, word, listed};
ghost use Rattle.c_grammar.specs.Meaning.{node, none, limit};
ghost use Rattle.c_grammar.specs.Gives.{Gives};
ghost use Rattle.c_grammar.specs.Trees.{members_tree, member_tree, each};
ghost use Rattle.c_tree.specs.declared.token.Class.TheVariants as class;

use crate::types::{sizes, stars, type_specifier};
use crate::words::member_name;
use c_grammar::ReadError;
use c_grammar::ahead::{at_type, next_is};
use c_grammar::reading::skip;
use c_tree::tree::{MemberDeclaration, MemberDeclarator};
use c_tree::{Class, Token};
use sqlite_items::Items;
use std::alloc::Global;

/// What follows the name of a struct that is defined.
#[tactic(auto, using(c_grammar::proofs::Steps::descent))]
pub fn struct_body(
    alloc: Global,
    tokens: &[Token],
    level: u8,
) -> Result<(Items<MemberDeclaration>, &[Token]), ReadError>
    requires { level ≤ limit + 1 }
    ensures reads { Gives (λ x. node grammar.StructBody (each members_tree x.0) none) (λ x. x.1.now) level (Ref grammar.StructBody) tokens.now result }
    ensures shorter { IfOk result (λ x. length x.1.now < length tokens.now) }
{
    let rest = skip(tokens, Class::LeftBrace, level)?;
    let (members, rest) = members_to_end(alloc, rest, level)?;
    Ok((members, rest))
}

/// The members of a struct and what ends its body.
fn members_to_end(
    alloc: Global,
    tokens: &[Token],
    level: u8,
) -> Result<(Items<MemberDeclaration>, &[Token]), ReadError>
    requires { level ≤ limit + 1 }
    ensures reads { Gives (λ x. each members_tree x.0) (λ x. x.1.now) level (Ref grammar.MemberDeclaration ⊳ Many (Ref grammar.MemberDeclaration) ⊳ word class.RightBrace ⊳ word class.Semicolon) tokens.now result }
    ensures shorter { IfOk result (λ x. length x.1.now < length tokens.now) }
{
    let mut members = Items::new(alloc);
    let (first, rest) = member_declaration(alloc, tokens, level)?;
    members.push(first)?;
    let mut rest = rest;
    'more: while at_type(rest) {
        let (next, after) = member_declaration(alloc, rest, level)?;
        members.push(next)?;
        rest = after;
    }
    let rest = skip(rest, Class::RightBrace, level)?;
    let rest = skip(rest, Class::Semicolon, level)?;
    Ok((members, rest))
}

/// Members of one type specifier.
#[tactic(auto, using(c_grammar::proofs::Steps::descent))]
fn member_declaration(
    alloc: Global,
    tokens: &[Token],
    level: u8,
) -> Result<(MemberDeclaration, &[Token]), ReadError>
    requires { level ≤ limit + 1 }
    ensures reads { Gives (λ x. members_tree x.0) (λ x. x.1.now) level (Ref grammar.MemberDeclaration) tokens.now result }
    ensures shorter { IfOk result (λ x. length x.1.now < length tokens.now) }
{
    let (specifier, rest) = type_specifier(alloc, tokens, level)?;
    let (declarators, rest) = member_declarators(alloc, rest, level)?;
    let rest = skip(rest, Class::Semicolon, level)?;
    let declaration = MemberDeclaration {
        specifier,
        declarators,
    };
    Ok((declaration, rest))
}

/// Members with commas between them.
fn member_declarators(
    alloc: Global,
    tokens: &[Token],
    level: u8,
) -> Result<(Items<MemberDeclarator>, &[Token]), ReadError>
    requires { level ≤ limit + 1 }
    ensures reads { Gives (λ x. each member_tree x.0) (λ x. x.1.now) level (listed (Ref grammar.MemberDeclarator)) tokens.now result }
    ensures shorter { IfOk result (λ x. length x.1.now < length tokens.now) }
{
    let mut declarators = Items::new(alloc);
    let (first, rest) = member_declarator(alloc, tokens, level)?;
    declarators.push(first)?;
    let mut rest = rest;
    'more: while next_is(rest, Class::Comma) {
        let (next, after) = next_member_declarator(alloc, rest, level)?;
        declarators.push(next)?;
        rest = after;
    }
    Ok((declarators, rest))
}

/// A comma and a member.
#[tactic(auto, using(c_grammar::proofs::Steps::descent))]
fn next_member_declarator(
    alloc: Global,
    tokens: &[Token],
    level: u8,
) -> Result<(MemberDeclarator, &[Token]), ReadError>
    requires { level ≤ limit + 1 }
    ensures reads { Gives (λ x. member_tree x.0) (λ x. x.1.now) level (word class.Comma ⊳ Ref grammar.MemberDeclarator) tokens.now result }
    ensures shorter { IfOk result (λ x. length x.1.now < length tokens.now) }
{
    let rest = skip(tokens, Class::Comma, level)?;
    let (declarator, rest) = member_declarator(alloc, rest, level)?;
    Ok((declarator, rest))
}

/// A member.
#[tactic(auto, using(c_grammar::proofs::Steps::descent))]
fn member_declarator(
    alloc: Global,
    tokens: &[Token],
    level: u8,
) -> Result<(MemberDeclarator, &[Token]), ReadError>
    requires { level ≤ limit + 1 }
    ensures reads { Gives (λ x. member_tree x.0) (λ x. x.1.now) level (Ref grammar.MemberDeclarator) tokens.now result }
    ensures shorter { IfOk result (λ x. length x.1.now < length tokens.now) }
{
    let (stars, rest) = stars(tokens, level)?;
    let (name, rest) = member_name(alloc, rest, level)?;
    let (sizes, rest) = sizes(alloc, rest, level)?;
    Ok((MemberDeclarator { stars, name, sizes }, rest))
}
