//! Calls of MPI.

ghost use Rattle.std.specs.Prelude.{◌≤◌, ◌<◌, ◌+◌, IfOk, length};
ghost use Rattle.c_grammar.specs.Grammar as grammar;
ghost use Rattle.c_grammar.specs.Grammar.{Ref, ◌⊳◌, address, init_inner, placed, word};
ghost use Rattle.c_grammar.specs.Meaning.{leaf, node, none, limit};
ghost use Rattle.c_grammar.specs.Gives.{Finds, Gives};
ghost use Rattle.c_grammar.specs.Trees.{call_tree, expression_tree, given, name_row, names_row};
ghost use Rattle.c_tree.specs.declared.token.Class.TheVariants as class;
ghost use Rattle.c_tree.specs.declared.token.Value.TheVariants as value;

use crate::ahead::{Inquiry, at_inquiry, at_inquiry_call};
use crate::argument::next_argument;
use crate::message::message_call;
use crate::words::name;
use c_grammar::ahead::next_is;
use c_grammar::reading::{pick, place, skip};
use c_grammar::{ReadError, Unread};
use c_tree::tree::{Expr, MpiCall, Name};
use c_tree::{Call, Class, Operator, Token};
use sqlite_items::Boxed;
use std::alloc::Global;

/// A call of MPI.
#[tactic(auto, using(c_grammar::proofs::Steps::descent))]
pub fn mpi_call(
    alloc: Global,
    tokens: &[Token],
    level: u8,
) -> Result<(MpiCall, &[Token]), ReadError>
    requires { level ≤ limit + 1 }
    ensures reads { Gives (λ x. node grammar.MpiCall (call_tree x.0) none) (λ x. x.1.now) level (Ref grammar.MpiCall) tokens.now result }
    ensures shorter { IfOk result (λ x. length x.1.now < length tokens.now) }
{
    let (call, rest) = any_call(alloc, tokens, level)?;
    Ok((call, rest))
}

/// A call of any kind.
#[tactic(auto, using(c_grammar::proofs::Steps::descent))]
fn any_call(alloc: Global, tokens: &[Token], level: u8) -> Result<(MpiCall, &[Token]), ReadError>
    requires { level ≤ limit + 1 }
    ensures reads { Gives (λ x. call_tree x.0) (λ x. x.1.now) level grammar.mpi_call tokens.now result }
    ensures shorter { IfOk result (λ x. length x.1.now < length tokens.now) }
{
    if next_is(tokens, Class::Mpi(Call::Init)) {
        return init_call(alloc, tokens, level);
    }
    if next_is(tokens, Class::Mpi(Call::Finalize)) {
        let (call, rest) = finalize_call(tokens, level)?;
        return Ok((call, rest));
    }
    if next_is(tokens, Class::Mpi(Call::Barrier)) {
        let (call, rest) = barrier_call(tokens, level)?;
        return Ok((call, rest));
    }
    if at_inquiry_call(tokens) {
        return inquiry_call(alloc, tokens, level);
    }
    message_call(alloc, tokens, level)
}

/// The word of a call and its opening parenthesis.
#[tactic(auto, using(c_grammar::proofs::Steps::descent))]
pub fn open(tokens: &[Token], call: Call, level: u8) -> Result<(u32, &[Token]), Unread>
    ensures reads { Finds (λ x. leaf (class.Mpi call) value.Nothing x.0 none) (λ x. x.1.now) level (placed (class.Mpi call) ⊳ word class.LeftParen) tokens.now result }
    ensures level { IfOk result (λ x. level ≤ limit) }
    ensures shorter { IfOk result (λ x. length x.1.now < length tokens.now) }
{
    let (at, rest) = place(tokens, Class::Mpi(call), level)?;
    let rest = skip(rest, Class::LeftParen, level)?;
    Ok((at, rest))
}

/// `MPI_Init`.
fn init_call(alloc: Global, tokens: &[Token], level: u8) -> Result<(MpiCall, &[Token]), ReadError>
    requires { level ≤ limit + 1 }
    ensures reads { Gives (λ x. call_tree x.0) (λ x. x.1.now) level (Ref grammar.InitCall) tokens.now result }
    ensures shorter { IfOk result (λ x. length x.1.now < length tokens.now) }
{
    let (at, rest) = open(tokens, Call::Init, level)?;
    let (arguments, rest) = init_arguments(alloc, rest, level + 1)?;
    let rest = skip(rest, Class::RightParen, level)?;
    Ok((MpiCall::Init { at, arguments }, rest))
}

/// `NULL` twice, or the addresses of two names.
#[tactic(auto, using(c_grammar::proofs::Steps::descent))]
fn init_arguments(
    alloc: Global,
    tokens: &[Token],
    level: u8,
) -> Result<(Option<(Name, Name)>, &[Token]), ReadError>
    requires { level ≤ limit + 1 }
    ensures reads { Gives (λ x. given names_row x.0) (λ x. x.1.now) level init_inner tokens.now result }
    ensures shorter { IfOk result (λ x. length x.1.now < length tokens.now) }
{
    if next_is(tokens, Class::Null) {
        let rest = skip(tokens, Class::Null, level)?;
        let rest = skip(rest, Class::Comma, level)?;
        let rest = skip(rest, Class::Null, level)?;
        return Ok((None, rest));
    }
    let (count, rest) = address_of(alloc, tokens, level)?;
    let rest = skip(rest, Class::Comma, level)?;
    let (values, rest) = address_of(alloc, rest, level)?;
    Ok((Some((count, values)), rest))
}

/// `&` and a name.
#[tactic(auto, using(c_grammar::proofs::Steps::descent))]
fn address_of(alloc: Global, tokens: &[Token], level: u8) -> Result<(Name, &[Token]), ReadError>
    requires { level ≤ limit + 1 }
    ensures reads { Gives (λ x. name_row x.0) (λ x. x.1.now) level address tokens.now result }
    ensures shorter { IfOk result (λ x. length x.1.now < length tokens.now) }
{
    let rest = skip(tokens, Class::Sign(Operator::And), level)?;
    let (name, rest) = name(alloc, rest, level + 1)?;
    Ok((name, rest))
}

/// `MPI_Finalize`.
fn finalize_call(tokens: &[Token], level: u8) -> Result<(MpiCall, &[Token]), Unread>
    requires { level ≤ limit + 1 }
    ensures reads { Finds (λ x. call_tree x.0) (λ x. x.1.now) level (Ref grammar.FinalizeCall) tokens.now result }
    ensures shorter { IfOk result (λ x. length x.1.now < length tokens.now) }
{
    let (at, rest) = open(tokens, Call::Finalize, level)?;
    let rest = skip(rest, Class::RightParen, level)?;
    Ok((MpiCall::Finalize(at), rest))
}

/// `MPI_Barrier`.
fn barrier_call(tokens: &[Token], level: u8) -> Result<(MpiCall, &[Token]), Unread>
    requires { level ≤ limit + 1 }
    ensures reads { Finds (λ x. call_tree x.0) (λ x. x.1.now) level (Ref grammar.BarrierCall) tokens.now result }
    ensures shorter { IfOk result (λ x. length x.1.now < length tokens.now) }
{
    let (at, rest) = open(tokens, Call::Barrier, level)?;
    let rest = skip(rest, Class::World, level + 1)?;
    let rest = skip(rest, Class::RightParen, level)?;
    Ok((MpiCall::Barrier(at), rest))
}

/// `MPI_Comm_rank` or `MPI_Comm_size`.
fn inquiry_call(
    alloc: Global,
    tokens: &[Token],
    level: u8,
) -> Result<(MpiCall, &[Token]), ReadError>
    requires { level ≤ limit + 1 }
    ensures reads { Gives (λ x. call_tree x.0) (λ x. x.1.now) level (Ref grammar.CommunicatorCall) tokens.now result }
    ensures shorter { IfOk result (λ x. length x.1.now < length tokens.now) }
{
    let (at, inquiry, rest) = pick(tokens, at_inquiry(tokens), level)?;
    let rest = skip(rest, Class::LeftParen, level)?;
    let (result, rest) = inquiry_arguments(alloc, rest, level + 1)?;
    let rest = skip(rest, Class::RightParen, level)?;
    let result = result.into_inner();
    match inquiry {
        Inquiry::Rank => Ok((MpiCall::CommRank { at, result }, rest)),
        Inquiry::Size => Ok((MpiCall::CommSize { at, result }, rest)),
    }
}

/// The communicator and where the answer goes.
#[tactic(auto, using(c_grammar::proofs::Steps::descent))]
fn inquiry_arguments(
    alloc: Global,
    tokens: &[Token],
    level: u8,
) -> Result<(Boxed<Expr>, &[Token]), ReadError>
    requires { level ≤ limit + 1 }
    ensures reads { Gives (λ x. expression_tree x.0) (λ x. x.1.now) level (grammar.world ⊳ grammar.comma ⊳ grammar.e) tokens.now result }
    ensures shorter { IfOk result (λ x. length x.1.now < length tokens.now) }
{
    let rest = skip(tokens, Class::World, level)?;
    let (result, rest) = next_argument(alloc, rest, level)?;
    Ok((result, rest))
}
