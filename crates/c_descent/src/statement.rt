//! Statements (C99 6.8).

mod ahead;
mod head;
mod leaf;
mod simple;

ghost use Rattle.std.specs.Prelude.{◌≡◌, ◌≤◌, ◌<◌, ◌+◌, ◌∷◌, [], IfOk, length, true, false};
ghost use Rattle.c_tree.specs.declared.token.Class.TheVariants as class;
ghost use Rattle.c_grammar.specs.Grammar as grammar;
ghost use Rattle.c_grammar.specs.Grammar.{Ref};
ghost use Rattle.c_grammar.specs.Meaning.{limit, next_in};
ghost use Rattle.c_grammar.specs.Gives.{Gives};
ghost use Rattle.c_grammar.specs.Trees.{block_item_tree, block_tree, else_tree, statement_row, statement_tree};

use crate::declaration::declaration;
use crate::expression::inside;
use crate::words::followed_by;
use c_grammar::ReadError;
use c_grammar::ahead::{at_block_item, at_type, next_is};
use c_grammar::reading::{place, skip};
use c_tree::tree::{Arm, Block, BlockItem, Stmt};
use c_tree::{Class, Token};
use head::{Clauses, do_test, for_clauses, unboxed};
use leaf::leaf_statement;
pub use simple::simple_statement;
use sqlite_items::{Boxed, Items};
use std::alloc::Global;

/// A block (C99 6.8.2).
#[cycle(statements)]
pub fn block(
    alloc: Global,
    tokens: &[Token],
    level: u8,
) -> Result<(Block<Stmt>, &[Token]), ReadError>
    requires { level ≤ limit + 1 }
    ensures reads { Gives (λ x. block_tree statement_row x.0) (λ x. x.1.now) level (Ref grammar.Block) tokens.now result }
    ensures shorter { IfOk result (λ x. length x.1.now < length tokens.now) }
{
    let (at, rest) = place(tokens, Class::LeftBrace, level)?;
    let mut items = Items::new(alloc);
    let mut rest = rest;
    'items: while at_block_item(rest) {
        let (item, after) = block_item(alloc, rest, level + 1)?;
        items.push(item)?;
        rest = after;
    }
    let rest = skip(rest, Class::RightBrace, level)?;
    Ok((Block { at, items }, rest))
}

/// A declaration or a statement.
#[cycle(statements)]
fn block_item(
    alloc: Global,
    tokens: &[Token],
    level: u8,
) -> Result<(BlockItem<Stmt>, &[Token]), ReadError>
    requires { level ≤ limit + 1 }
    ensures reads { Gives (λ x. block_item_tree statement_row x.0) (λ x. x.1.now) level (Ref grammar.BlockItem) tokens.now result }
    ensures shorter { IfOk result (λ x. length x.1.now < length tokens.now) }
{
    if at_type(tokens) {
        let (variables, rest) = declaration(alloc, tokens, level)?;
        let (variables, rest) = followed_by(variables, rest, Class::Semicolon, level)?;
        return Ok((BlockItem::Declaration(variables), rest));
    }
    let (action, rest) = statement(alloc, tokens, level)?;
    Ok((BlockItem::Statement(action), rest))
}

/// A statement: an `if` (C99 6.8.4.1) with all that belongs to it, or another.
#[cycle(statements)]
fn statement(alloc: Global, tokens: &[Token], level: u8) -> Result<(Stmt, &[Token]), ReadError>
    requires { level ≤ limit + 1 }
    ensures reads { Gives (λ x. statement_tree (statement_row x.0)) (λ x. x.1.now) level (Ref grammar.Statement) tokens.now result }
    ensures shorter { IfOk result (λ x. length x.1.now < length tokens.now) }
{
    if !next_is(tokens, Class::If) {
        return plain_statement(alloc, tokens, level);
    }
    let (at, rest) = place(tokens, Class::If, level)?;
    let (test, rest) = inside(alloc, rest, level)?;
    let (then, rest) = boxed_statement(alloc, rest, level + 1)?;
    let (arms, otherwise, rest) = else_part(alloc, rest, level)?;
    let action = Stmt::If {
        at,
        test: test.into_inner(),
        then,
        arms,
        otherwise,
    };
    Ok((action, rest))
}

/// A statement, in a box.
#[cycle(statements)]
fn boxed_statement(
    alloc: Global,
    tokens: &[Token],
    level: u8,
) -> Result<(Boxed<Stmt>, &[Token]), ReadError>
    requires { level ≤ limit + 1 }
    ensures reads { Gives (λ x. statement_tree (statement_row x.0)) (λ x. x.1.now) level (Ref grammar.Statement) tokens.now result }
    ensures shorter { IfOk result (λ x. length x.1.now < length tokens.now) }
{
    let (action, rest) = statement(alloc, tokens, level)?;
    let action = Boxed::new(alloc, action)?;
    Ok((action, rest))
}

/// What follows the branch of an `if`: each `else if`, and the branch of an `else` that ends them.
#[cycle(statements)]
fn else_part(
    alloc: Global,
    tokens: &[Token],
    level: u8,
) -> Result<(Items<Arm<Stmt>>, Option<Boxed<Stmt>>, &[Token]), ReadError>
    requires { level ≤ limit + 1 }
    ensures reads { Gives (λ x. else_tree statement_row x.0 x.1) (λ x. x.2.now) level (Ref grammar.ElsePart) tokens.now result }
    ensures shorter { IfOk result (λ x. length x.2.now ≤ length tokens.now) }
{
    let mut arms = Items::new(alloc);
    let mut rest = tokens;
    'arms: while next_is(rest, Class::Else) {
        let after = skip(rest, Class::Else, level)?;
        if !next_is(after, Class::If) {
            let (last, after) = plain_statement(alloc, after, level + 1)?;
            let last = Boxed::new(alloc, last)?;
            return Ok((arms, Some(last), after));
        }
        let after = skip(after, Class::If, level)?;
        let (test, after) = inside(alloc, after, level)?;
        let (then, after) = statement(alloc, after, level + 1)?;
        let test = test.into_inner();
        arms.push(Arm { test, then })?;
        rest = after;
    }
    Ok((arms, None, rest))
}

/// A statement that is no `if`.
#[cycle(statements)]
fn plain_statement(
    alloc: Global,
    tokens: &[Token],
    level: u8,
) -> Result<(Stmt, &[Token]), ReadError>
    requires { level ≤ limit + 1 }
    ensures reads { Gives (λ x. statement_row x.0) (λ x. x.1.now) level (Ref grammar.PlainStatement) tokens.now result }
    ensures shorter { IfOk result (λ x. length x.1.now < length tokens.now) }
{
    if next_is(tokens, Class::LeftBrace) {
        let (items, rest) = block(alloc, tokens, level)?;
        return Ok((Stmt::Block(items), rest));
    }
    if next_is(tokens, Class::While) {
        return while_statement(alloc, tokens, level);
    }
    if next_is(tokens, Class::Do) {
        return do_statement(alloc, tokens, level);
    }
    if next_is(tokens, Class::For) {
        return for_statement(alloc, tokens, level);
    }
    leaf_statement(alloc, tokens, level)
}

/// A `while` (C99 6.8.5.1), where one begins.
#[cycle(statements)]
fn while_statement(
    alloc: Global,
    tokens: &[Token],
    level: u8,
) -> Result<(Stmt, &[Token]), ReadError>
    requires { level ≤ limit + 1 }
    ensures reads { next_in (class.While ∷ []) tokens.now ≡ true → Gives (λ x. statement_row x.0) (λ x. x.1.now) level (Ref grammar.PlainStatement) tokens.now result }
    ensures shorter { IfOk result (λ x. length x.1.now < length tokens.now) }
{
    let (at, rest) = place(tokens, Class::While, level)?;
    let (test, rest) = inside(alloc, rest, level)?;
    let (body, rest) = boxed_statement(alloc, rest, level + 1)?;
    let test = test.into_inner();
    Ok((Stmt::While { at, test, body }, rest))
}

/// A `do` (C99 6.8.5.2), where one begins.
#[cycle(statements)]
fn do_statement(alloc: Global, tokens: &[Token], level: u8) -> Result<(Stmt, &[Token]), ReadError>
    requires { level ≤ limit + 1 }
    ensures reads { next_in (class.Do ∷ []) tokens.now ≡ true → Gives (λ x. statement_row x.0) (λ x. x.1.now) level (Ref grammar.PlainStatement) tokens.now result }
    ensures shorter { IfOk result (λ x. length x.1.now < length tokens.now) }
{
    let (at, rest) = place(tokens, Class::Do, level)?;
    let (body, rest) = boxed_statement(alloc, rest, level + 1)?;
    let (test, rest) = do_test(alloc, rest, level)?;
    let test = test.into_inner();
    Ok((Stmt::DoWhile { at, body, test }, rest))
}

/// A `for` (C99 6.8.5.3), where one begins.
#[cycle(statements)]
fn for_statement(alloc: Global, tokens: &[Token], level: u8) -> Result<(Stmt, &[Token]), ReadError>
    requires { level ≤ limit + 1 }
    ensures reads { next_in (class.For ∷ []) tokens.now ≡ true → Gives (λ x. statement_row x.0) (λ x. x.1.now) level (Ref grammar.PlainStatement) tokens.now result }
    ensures shorter { IfOk result (λ x. length x.1.now < length tokens.now) }
{
    let (at, rest) = place(tokens, Class::For, level)?;
    let (clauses, rest) = for_clauses(alloc, rest, level)?;
    let (body, rest) = boxed_statement(alloc, rest, level + 1)?;
    let Clauses { start, test, step } = clauses.into_inner();
    let action = Stmt::For {
        at,
        start: unboxed(start),
        test: unboxed(test),
        step,
        body,
    };
    Ok((action, rest))
}
