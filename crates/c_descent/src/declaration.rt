//! Declarations (C99 6.7).

ghost use Rattle.std.specs.Prelude.{◌≤◌, ◌<◌, ◌+◌, IfOk, length};
ghost use Rattle.c_grammar.specs.Grammar as grammar;
ghost use Rattle.c_grammar.specs.Grammar.{Ref, Maybe, ◌⊳◌, word, listed, e};
ghost use Rattle.c_grammar.specs.Meaning.{limit};
ghost use Rattle.c_grammar.specs.Gives.{Gives};
ghost use Rattle.c_grammar.specs.Trees.{declaration_tree, variable_tree, expression_tree, each, given};
ghost use Rattle.c_tree.specs.declared.token.Class.TheVariants as class;

use crate::expression::expression;
use crate::types::{sizes, stars, type_specifier};
use crate::words::name;
use c_grammar::ReadError;
use c_grammar::ahead::next_is;
use c_grammar::reading::skip;
use c_tree::tree::{Declaration, Expr, InitDeclarator};
use c_tree::{Class, Token};
use sqlite_items::Items;
use std::alloc::Global;

/// Variables of one type specifier.
#[tactic(auto, using(c_grammar::proofs::Steps::descent))]
pub fn declaration(
    alloc: Global,
    tokens: &[Token],
    level: u8,
) -> Result<(Declaration, &[Token]), ReadError>
    requires { level ≤ limit + 1 }
    ensures reads { Gives (λ x. declaration_tree x.0) (λ x. x.1.now) level (Ref grammar.Declaration) tokens.now result }
    ensures shorter { IfOk result (λ x. length x.1.now < length tokens.now) }
{
    let (specifier, rest) = type_specifier(alloc, tokens, level)?;
    let (declarators, rest) = init_declarators(alloc, rest, level)?;
    let declaration = Declaration {
        specifier,
        declarators,
    };
    Ok((declaration, rest))
}

/// Variables with commas between them.
fn init_declarators(
    alloc: Global,
    tokens: &[Token],
    level: u8,
) -> Result<(Items<InitDeclarator>, &[Token]), ReadError>
    requires { level ≤ limit + 1 }
    ensures reads { Gives (λ x. each variable_tree x.0) (λ x. x.1.now) level (listed (Ref grammar.InitDeclarator)) tokens.now result }
    ensures shorter { IfOk result (λ x. length x.1.now < length tokens.now) }
{
    let mut declarators = Items::new(alloc);
    let (first, rest) = init_declarator(alloc, tokens, level)?;
    declarators.push(first)?;
    let mut rest = rest;
    'more: while next_is(rest, Class::Comma) {
        let (next, after) = next_init_declarator(alloc, rest, level)?;
        declarators.push(next)?;
        rest = after;
    }
    Ok((declarators, rest))
}

/// A comma and a variable.
#[tactic(auto, using(c_grammar::proofs::Steps::descent))]
fn next_init_declarator(
    alloc: Global,
    tokens: &[Token],
    level: u8,
) -> Result<(InitDeclarator, &[Token]), ReadError>
    requires { level ≤ limit + 1 }
    ensures reads { Gives (λ x. variable_tree x.0) (λ x. x.1.now) level (word class.Comma ⊳ Ref grammar.InitDeclarator) tokens.now result }
    ensures shorter { IfOk result (λ x. length x.1.now < length tokens.now) }
{
    let rest = skip(tokens, Class::Comma, level)?;
    let (declarator, rest) = init_declarator(alloc, rest, level)?;
    Ok((declarator, rest))
}

/// A variable.
#[tactic(auto, using(c_grammar::proofs::Steps::descent))]
fn init_declarator(
    alloc: Global,
    tokens: &[Token],
    level: u8,
) -> Result<(InitDeclarator, &[Token]), ReadError>
    requires { level ≤ limit + 1 }
    ensures reads { Gives (λ x. variable_tree x.0) (λ x. x.1.now) level (Ref grammar.InitDeclarator) tokens.now result }
    ensures shorter { IfOk result (λ x. length x.1.now < length tokens.now) }
{
    let (stars, rest) = stars(tokens, level)?;
    let (name, rest) = name(alloc, rest, level)?;
    let (sizes, rest) = sizes(alloc, rest, level)?;
    let (value, rest) = initializer(alloc, rest, level)?;
    let declarator = InitDeclarator {
        stars,
        name,
        sizes,
        value,
    };
    Ok((declarator, rest))
}

/// The value that a variable begins with, where there is one.
#[tactic(auto, using(c_grammar::proofs::Steps::descent))]
fn initializer(
    alloc: Global,
    tokens: &[Token],
    level: u8,
) -> Result<(Option<Expr>, &[Token]), ReadError>
    requires { level ≤ limit + 1 }
    ensures reads { Gives (λ x. given expression_tree x.0) (λ x. x.1.now) level (Maybe (word class.Equal ⊳ e)) tokens.now result }
    ensures shorter { IfOk result (λ x. length x.1.now ≤ length tokens.now) }
{
    if !next_is(tokens, Class::Equal) {
        return Ok((None, tokens));
    }
    let rest = skip(tokens, Class::Equal, level)?;
    let (value, rest) = expression(alloc, rest, level)?;
    Ok((Some(value.into_inner()), rest))
}
