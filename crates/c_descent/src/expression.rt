//! Expressions (C99 6.5).

ghost use Rattle.std.specs.Prelude.{◌≡◌, ◌≤◌, ◌<◌, ◌+◌, ◌∷◌, [], suc, IfOk, length};
ghost use Rattle.c_tree.specs.declared.token.Class.TheVariants as class;
ghost use Rattle.c_grammar.specs.Grammar as grammar;
ghost use Rattle.c_grammar.specs.Grammar.{Ref, Word, Kind, All, Many, Maybe, Deeper, ◌⊳◌, ◌∥◌};
ghost use Rattle.c_grammar.specs.Meaning.{none, node, limit, ◌+++◌};
ghost use Rattle.c_grammar.specs.Gives.{Gives};
ghost use Rattle.c_grammar.specs.Trees.{shape, grade_of, at_grade, word, each, link_row, primary_row, suffix_row, suffix_tree, expression_tree, unary_tree};
ghost use Rattle.c_descent.specs.More.{GivesMore, FirstOf};

mod ahead;
mod nodes;

use self::ahead::{access, at_literal, at_suffix, is_operator, operator, prefix_operator};
use crate::types::type_name;
use crate::words::{literal, member_name, name};
use c_grammar::ReadError;
use c_grammar::ahead::{at_operand, at_type, next_is};
use c_grammar::reading::{place, skip};
use c_tree::tree::{Expr, Link, Primary, Suffix};
use c_tree::{Class, Token};
use sqlite_items::{Boxed, Items};
use std::alloc::Global;

/// An expression.
#[cycle(tower)]
pub fn expression(
    alloc: Global,
    tokens: &[Token],
    level: u8,
) -> Result<(Boxed<Expr>, &[Token]), ReadError>
    requires { level ≤ limit + 1 }
    ensures reads { Gives (λ x. expression_tree x.0) (λ x. x.1.now) level (Ref grammar.Expression) tokens.now result }
    ensures shorter { IfOk result (λ x. length x.1.now < length tokens.now) }
{
    let (test, rest) = binary(alloc, tokens, level, 9)?;
    if !next_is(rest, Class::Question) {
        return Ok((test, rest));
    }
    let ((then, otherwise), rest) = choice_arms(alloc, rest, level)?;
    let choice = nodes::choice(alloc, test, then, otherwise)?;
    Ok((choice, rest))
}

/// What follows the test of a choice.
#[cycle(tower)]
fn choice_arms(
    alloc: Global,
    tokens: &[Token],
    level: u8,
) -> Result<((Boxed<Expr>, Boxed<Expr>), &[Token]), ReadError>
    requires { level ≤ limit + 1 }
    ensures reads { Gives (λ x. expression_tree x.0.0 +++ expression_tree x.0.1) (λ x. x.1.now) level (grammar.word class.Question ⊳ Deeper grammar.e ⊳ grammar.word class.Colon ⊳ Deeper grammar.e) tokens.now result }
    ensures shorter { IfOk result (λ x. length x.1.now < length tokens.now) }
{
    let rest = skip(tokens, Class::Question, level)?;
    let inner = level + 1;
    let (then, rest) = expression(alloc, rest, inner)?;
    let rest = skip(rest, Class::Colon, level)?;
    let (otherwise, rest) = expression(alloc, rest, inner)?;
    Ok(((then, otherwise), rest))
}

/// A chain of the grade.
#[cycle(tower)]
fn binary(
    alloc: Global,
    tokens: &[Token],
    level: u8,
    grade: u8,
) -> Result<(Boxed<Expr>, &[Token]), ReadError>
    requires level { level ≤ limit + 1 }
    requires grade { grade < 10 }
    ensures reads { Gives (λ x. at_grade (suc grade) (shape x.0)) (λ x. x.1.now) level (Ref (grammar.Binary grade)) tokens.now result }
    ensures grade { IfOk result (λ x. grade_of x.0 ≤ suc grade) }
    ensures shorter { IfOk result (λ x. length x.1.now < length tokens.now) }
{
    let (first, rest) = operand(alloc, tokens, level, grade)?;
    let (links, rest) = links(alloc, rest, level, grade)?;
    let chain = nodes::chain(alloc, first, links, grade)?;
    Ok((chain, rest))
}

/// An operand of a chain of the grade.
#[cycle(tower)]
fn operand(
    alloc: Global,
    tokens: &[Token],
    level: u8,
    grade: u8,
) -> Result<(Boxed<Expr>, &[Token]), ReadError>
    requires level { level ≤ limit + 1 }
    requires grade { grade < 10 }
    ensures reads { Gives (λ x. at_grade grade (shape x.0)) (λ x. x.1.now) level (grammar.operand grade) tokens.now result }
    ensures grade { IfOk result (λ x. grade_of x.0 ≤ grade) }
    ensures shorter { IfOk result (λ x. length x.1.now < length tokens.now) }
{
    if grade == 0 {
        return unary(alloc, tokens, level);
    }
    binary(alloc, tokens, level, grade - 1)
}

/// The operators of the grade that follow an operand, each with its right operand.
#[cycle(tower)]
fn links(
    alloc: Global,
    tokens: &[Token],
    level: u8,
    grade: u8,
) -> Result<(Items<Link<Expr>>, &[Token]), ReadError>
    requires level { level ≤ limit + 1 }
    requires grade { grade < 10 }
    ensures reads { Gives (λ x. each (link_row shape grade) x.0) (λ x. x.1.now) level (Many (Word Kind (grammar.operators grade) ⊳ grammar.operand grade)) tokens.now result }
    ensures grade { IfOk result (λ x. FirstOf grade x.0) }
    ensures shorter { IfOk result (λ x. length x.1.now ≤ length tokens.now) }
{
    let mut links = Items::new(alloc);
    let mut rest = tokens;
    'links: while is_operator(rest, grade) {
        let (operator, after) = operator(rest, level, grade)?;
        let (operand, after) = operand(alloc, after, level, grade)?;
        links.push(Link {
            operator,
            operand: operand.into_inner(),
        })?;
        rest = after;
    }
    Ok((links, rest))
}

/// An operand.
#[cycle(tower)]
pub fn unary(
    alloc: Global,
    tokens: &[Token],
    level: u8,
) -> Result<(Boxed<Expr>, &[Token]), ReadError>
    requires { level ≤ limit + 1 }
    ensures reads { Gives (λ x. unary_tree x.0) (λ x. x.1.now) level (Ref grammar.Unary) tokens.now result }
    ensures grade { IfOk result (λ x. grade_of x.0 ≡ 0) }
    ensures shorter { IfOk result (λ x. length x.1.now < length tokens.now) }
{
    if at_literal(tokens) {
        return constant(alloc, tokens, level);
    }
    if next_is(tokens, Class::Name) {
        return named(alloc, tokens, level);
    }
    if next_is(tokens, Class::Malloc) {
        return allocation(alloc, tokens, level);
    }
    if next_is(tokens, Class::SizeOf) {
        return size_of(alloc, tokens, level);
    }
    if next_is(tokens, Class::LeftParen) {
        return parenthesis(alloc, tokens, level);
    }
    prefixed(alloc, tokens, level)
}

/// A constant with its suffixes.
#[cycle(tower)]
fn constant(
    alloc: Global,
    tokens: &[Token],
    level: u8,
) -> Result<(Boxed<Expr>, &[Token]), ReadError>
    requires { level ≤ limit + 1 }
    ensures reads { Gives (λ x. (shape x.0).row) (λ x. x.1.now) level (Word All grammar.literals ⊳ grammar.suffixes) tokens.now result }
    ensures grade { IfOk result (λ x. grade_of x.0 ≡ 0) }
    ensures shorter { IfOk result (λ x. length x.1.now < length tokens.now) }
{
    let (primary, rest) = literal(alloc, tokens, level)?;
    postfix(alloc, primary, rest, level)
}

/// A variable or a call, with its suffixes.
#[cycle(tower)]
fn named(alloc: Global, tokens: &[Token], level: u8) -> Result<(Boxed<Expr>, &[Token]), ReadError>
    requires { level ≤ limit + 1 }
    ensures reads { Gives (λ x. (shape x.0).row) (λ x. x.1.now) level (grammar.valued class.Name ⊳ Maybe (Ref grammar.Arguments) ⊳ grammar.suffixes) tokens.now result }
    ensures grade { IfOk result (λ x. grade_of x.0 ≡ 0) }
    ensures shorter { IfOk result (λ x. length x.1.now < length tokens.now) }
{
    let (name, rest) = name(alloc, tokens, level)?;
    if !next_is(rest, Class::LeftParen) {
        let primary = nodes::variable(alloc, name)?;
        return postfix(alloc, primary, rest, level);
    }
    let (arguments, rest) = arguments(alloc, rest, level)?;
    let primary = nodes::call(alloc, name, arguments)?;
    postfix(alloc, primary, rest, level)
}

/// The arguments of a call (C99 6.5.2.2).
#[cycle(tower)]
fn arguments(
    alloc: Global,
    tokens: &[Token],
    level: u8,
) -> Result<(Items<Expr>, &[Token]), ReadError>
    requires { level ≤ limit + 1 }
    ensures reads { Gives (λ x. node grammar.Arguments (each expression_tree x.0) none) (λ x. x.1.now) level (Ref grammar.Arguments) tokens.now result }
    ensures shorter { IfOk result (λ x. length x.1.now < length tokens.now) }
{
    let rest = skip(tokens, Class::LeftParen, level)?;
    let (arguments, rest) = argument_list(alloc, rest, level + 1)?;
    let rest = skip(rest, Class::RightParen, level)?;
    Ok((arguments, rest))
}

/// Expressions with commas between them, or none.
#[cycle(tower)]
fn argument_list(
    alloc: Global,
    tokens: &[Token],
    level: u8,
) -> Result<(Items<Expr>, &[Token]), ReadError>
    requires { level ≤ limit + 1 }
    ensures reads { Gives (λ x. each expression_tree x.0) (λ x. x.1.now) level (Maybe (grammar.listed grammar.e)) tokens.now result }
    ensures shorter { IfOk result (λ x. length x.1.now ≤ length tokens.now) }
{
    let mut arguments = Items::new(alloc);
    if !at_operand(tokens) {
        return Ok((arguments, tokens));
    }
    let (first, rest) = expression(alloc, tokens, level)?;
    arguments.push(first.into_inner())?;
    more_arguments(alloc, arguments, rest, level)
}

/// The arguments with those that follow them.
#[cycle(tower)]
fn more_arguments(
    alloc: Global,
    arguments: Items<Expr>,
    tokens: &[Token],
    level: u8,
) -> Result<(Items<Expr>, &[Token]), ReadError>
    requires { level ≤ limit + 1 }
    ensures reads { GivesMore (λ x. each expression_tree x.0) (λ x. x.1.now) (each expression_tree arguments) level (Many (grammar.word class.Comma ⊳ grammar.e)) tokens.now result }
    ensures shorter { IfOk result (λ x. length x.1.now ≤ length tokens.now) }
{
    let mut arguments = arguments;
    let mut rest = tokens;
    'arguments: while next_is(rest, Class::Comma) {
        let after = skip(rest, Class::Comma, level)?;
        let (argument, after) = expression(alloc, after, level)?;
        arguments.push(argument.into_inner())?;
        rest = after;
    }
    Ok((arguments, rest))
}

/// A call of `malloc`, with its suffixes.
#[cycle(tower)]
fn allocation(
    alloc: Global,
    tokens: &[Token],
    level: u8,
) -> Result<(Boxed<Expr>, &[Token]), ReadError>
    requires { level ≤ limit + 1 }
    ensures reads { Gives (λ x. (shape x.0).row) (λ x. x.1.now) level (grammar.placed class.Malloc ⊳ grammar.inside grammar.e ⊳ grammar.suffixes) tokens.now result }
    ensures grade { IfOk result (λ x. grade_of x.0 ≡ 0) }
    ensures shorter { IfOk result (λ x. length x.1.now < length tokens.now) }
{
    let (at, rest) = place(tokens, Class::Malloc, level)?;
    let (size, rest) = inside(alloc, rest, level)?;
    let primary = nodes::allocation(alloc, at, size)?;
    postfix(alloc, primary, rest, level)
}

/// An expression in parentheses that are no part of it.
#[cycle(tower)]
pub fn inside(
    alloc: Global,
    tokens: &[Token],
    level: u8,
) -> Result<(Boxed<Expr>, &[Token]), ReadError>
    requires { level ≤ limit + 1 }
    ensures reads { Gives (λ x. expression_tree x.0) (λ x. x.1.now) level (grammar.inside grammar.e) tokens.now result }
    ensures level { IfOk result (λ x. level ≤ limit) }
    ensures shorter { IfOk result (λ x. length x.1.now < length tokens.now) }
{
    let rest = skip(tokens, Class::LeftParen, level)?;
    let (inner, rest) = expression(alloc, rest, level + 1)?;
    let rest = skip(rest, Class::RightParen, level)?;
    Ok((inner, rest))
}

/// The size of a type (C99 6.5.3.4).
#[tactic(auto, using(c_grammar::proofs::Steps::descent))]
fn size_of(alloc: Global, tokens: &[Token], level: u8) -> Result<(Boxed<Expr>, &[Token]), ReadError>
    requires { level ≤ limit + 1 }
    ensures reads { Gives (λ x. (shape x.0).row) (λ x. x.1.now) level (grammar.placed class.SizeOf ⊳ grammar.inside (Ref grammar.TypeSpecifier ⊳ grammar.stars)) tokens.now result }
    ensures grade { IfOk result (λ x. grade_of x.0 ≡ 0) }
    ensures shorter { IfOk result (λ x. length x.1.now < length tokens.now) }
{
    let (at, rest) = place(tokens, Class::SizeOf, level)?;
    let rest = skip(rest, Class::LeftParen, level)?;
    let (name, rest) = type_name(alloc, rest, level + 1)?;
    let rest = skip(rest, Class::RightParen, level)?;
    let size = nodes::size_of(alloc, at, name)?;
    Ok((size, rest))
}

/// A cast, or an expression in parentheses with its suffixes.
#[cycle(tower)]
fn parenthesis(
    alloc: Global,
    tokens: &[Token],
    level: u8,
) -> Result<(Boxed<Expr>, &[Token]), ReadError>
    requires { level ≤ limit + 1 }
    ensures reads { Gives (λ x. (shape x.0).row) (λ x. x.1.now) level (grammar.placed class.LeftParen ⊳ (grammar.cast ∥ grammar.group)) tokens.now result }
    ensures grade { IfOk result (λ x. grade_of x.0 ≡ 0) }
    ensures shorter { IfOk result (λ x. length x.1.now < length tokens.now) }
{
    let (at, rest) = place(tokens, Class::LeftParen, level)?;
    if at_type(rest) {
        return cast(alloc, at, rest, level);
    }
    group(alloc, at, rest, level)
}

/// A cast (C99 6.5.4) after its `(`.
#[cycle(tower)]
fn cast(
    alloc: Global,
    at: u32,
    tokens: &[Token],
    level: u8,
) -> Result<(Boxed<Expr>, &[Token]), ReadError>
    requires { level ≤ limit }
    ensures reads { GivesMore (λ x. (shape x.0).row) (λ x. x.1.now) (word class.LeftParen at none) level grammar.cast tokens.now result }
    ensures grade { IfOk result (λ x. grade_of x.0 ≡ 0) }
    ensures shorter { IfOk result (λ x. length x.1.now < length tokens.now) }
{
    let inner = level + 1;
    let (name, rest) = type_name(alloc, tokens, inner)?;
    let rest = skip(rest, Class::RightParen, level)?;
    let (operand, rest) = unary(alloc, rest, inner)?;
    let cast = nodes::cast(alloc, at, name, operand)?;
    Ok((cast, rest))
}

/// An expression in parentheses, after its `(`, with its suffixes.
#[cycle(tower)]
fn group(
    alloc: Global,
    at: u32,
    tokens: &[Token],
    level: u8,
) -> Result<(Boxed<Expr>, &[Token]), ReadError>
    requires { level ≤ limit }
    ensures reads { GivesMore (λ x. (shape x.0).row) (λ x. x.1.now) (word class.LeftParen at none) level grammar.group tokens.now result }
    ensures grade { IfOk result (λ x. grade_of x.0 ≡ 0) }
    ensures shorter { IfOk result (λ x. length x.1.now < length tokens.now) }
{
    let (inner, rest) = expression(alloc, tokens, level + 1)?;
    let rest = skip(rest, Class::RightParen, level)?;
    let primary = nodes::group(alloc, at, inner)?;
    postfix(alloc, primary, rest, level)
}

/// A prefix operator with its operand (C99 6.5.3).
#[cycle(tower)]
fn prefixed(
    alloc: Global,
    tokens: &[Token],
    level: u8,
) -> Result<(Boxed<Expr>, &[Token]), ReadError>
    requires { level ≤ limit + 1 }
    ensures reads { Gives (λ x. (shape x.0).row) (λ x. x.1.now) level (grammar.one_of grammar.prefixes ⊳ Deeper (Ref grammar.Unary)) tokens.now result }
    ensures grade { IfOk result (λ x. grade_of x.0 ≡ 0) }
    ensures shorter { IfOk result (λ x. length x.1.now < length tokens.now) }
{
    let ((at, operator), rest) = prefix_operator(tokens, level)?;
    let (operand, rest) = unary(alloc, rest, level + 1)?;
    let prefixed = nodes::prefix(alloc, at, operator, operand)?;
    Ok((prefixed, rest))
}

/// The primary expression with the suffixes that follow it (C99 6.5.2).
#[cycle(tower)]
fn postfix(
    alloc: Global,
    primary: Boxed<Primary<Expr>>,
    tokens: &[Token],
    level: u8,
) -> Result<(Boxed<Expr>, &[Token]), ReadError>
    requires { level ≤ limit + 1 }
    ensures reads { GivesMore (λ x. (shape x.0).row) (λ x. x.1.now) (primary_row shape primary) level grammar.suffixes tokens.now result }
    ensures grade { IfOk result (λ x. grade_of x.0 ≡ 0) }
    ensures shorter { IfOk result (λ x. length x.1.now ≤ length tokens.now) }
{
    let (suffixes, rest) = suffixes(alloc, tokens, level)?;
    let postfix = nodes::postfix(alloc, primary, suffixes)?;
    Ok((postfix, rest))
}

/// What is selected from an operand, step by step.
#[cycle(tower)]
fn suffixes(
    alloc: Global,
    tokens: &[Token],
    level: u8,
) -> Result<(Items<Suffix<Expr>>, &[Token]), ReadError>
    requires { level ≤ limit + 1 }
    ensures reads { Gives (λ x. each (suffix_tree shape) x.0) (λ x. x.1.now) level grammar.suffixes tokens.now result }
    ensures shorter { IfOk result (λ x. length x.1.now ≤ length tokens.now) }
{
    let mut suffixes = Items::new(alloc);
    let mut rest = tokens;
    'suffixes: while at_suffix(rest) {
        let (suffix, after) = suffix(alloc, rest, level)?;
        suffixes.push(suffix.into_inner())?;
        rest = after;
    }
    Ok((suffixes, rest))
}

/// What is selected in one step.
#[cycle(tower)]
fn suffix(
    alloc: Global,
    tokens: &[Token],
    level: u8,
) -> Result<(Boxed<Suffix<Expr>>, &[Token]), ReadError>
    requires { level ≤ limit + 1 }
    ensures reads { Gives (λ x. suffix_tree shape x.0) (λ x. x.1.now) level (Ref grammar.Suffix) tokens.now result }
    ensures shorter { IfOk result (λ x. length x.1.now < length tokens.now) }
{
    if next_is(tokens, Class::LeftBracket) {
        let (element, rest) = subscript(alloc, tokens, level)?;
        return Ok((element, rest));
    }
    let (member, rest) = selection(alloc, tokens, level)?;
    Ok((member, rest))
}

/// What selects an element of an array (C99 6.5.2.1).
#[cycle(tower)]
fn subscript(
    alloc: Global,
    tokens: &[Token],
    level: u8,
) -> Result<(Boxed<Suffix<Expr>>, &[Token]), ReadError>
    requires { level ≤ limit + 1 }
    ensures reads { Gives (λ x. suffix_row shape x.0) (λ x. x.1.now) level (grammar.placed class.LeftBracket ⊳ Deeper grammar.e ⊳ grammar.word class.RightBracket) tokens.now result }
    ensures shorter { IfOk result (λ x. length x.1.now < length tokens.now) }
{
    let (at, rest) = place(tokens, Class::LeftBracket, level)?;
    let (index, rest) = expression(alloc, rest, level + 1)?;
    let rest = skip(rest, Class::RightBracket, level)?;
    let subscript = nodes::subscript(alloc, at, index)?;
    Ok((subscript, rest))
}

/// What selects a member of a structure (C99 6.5.2.3).
#[tactic(auto, using(c_grammar::proofs::Steps::descent))]
fn selection(
    alloc: Global,
    tokens: &[Token],
    level: u8,
) -> Result<(Boxed<Suffix<Expr>>, &[Token]), ReadError>
    ensures reads { Gives (λ x. suffix_row shape x.0) (λ x. x.1.now) level (grammar.one_of (class.Dot ∷ class.Arrow ∷ []) ⊳ Word All grammar.member_names) tokens.now result }
    ensures shorter { IfOk result (λ x. length x.1.now < length tokens.now) }
{
    let ((at, access), rest) = access(tokens, level)?;
    let (name, rest) = member_name(alloc, rest, level)?;
    let selection = nodes::selection(alloc, at, access, name)?;
    Ok((selection, rest))
}
