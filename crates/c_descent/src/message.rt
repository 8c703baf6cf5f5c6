//! Calls of MPI that concern one message.

ghost use Rattle.std.specs.Prelude.{◌≤◌, ◌<◌, ◌+◌, IfOk, length};
ghost use Rattle.c_grammar.specs.Grammar as grammar;
ghost use Rattle.c_grammar.specs.Grammar.{Ref, ◌⊳◌, ◌∥◌, comma, e, world};
ghost use Rattle.c_grammar.specs.Meaning.{limit, ◌+++◌};
ghost use Rattle.c_grammar.specs.Gives.{Gives};
ghost use Rattle.c_grammar.specs.Trees.{buffer_tree, call_tree, datatype_row, expression_tree, status_tree};

use crate::argument::{buffer, last_argument, next_argument, next_datatype, next_status, status};
use crate::call::open;
use crate::collective::collective_call;
use c_grammar::ReadError;
use c_grammar::ahead::next_is;
use c_grammar::reading::skip;
use c_tree::tree::{Buffer, DatatypeWord, Expr, MpiCall, Status};
use c_tree::{Call, Class, Token};
use sqlite_items::Boxed;
use std::alloc::Global;

/// A call that sends or receives, or asks how much came, or a collective one.
#[tactic(auto, using(c_grammar::proofs::Steps::descent))]
pub fn message_call(
    alloc: Global,
    tokens: &[Token],
    level: u8,
) -> Result<(MpiCall, &[Token]), ReadError>
    requires { level ≤ limit + 1 }
    ensures reads { Gives (λ x. call_tree x.0) (λ x. x.1.now) level (Ref grammar.SendCall ∥ Ref grammar.RecvCall ∥ Ref grammar.GetCountCall ∥ Ref grammar.BcastCall ∥ Ref grammar.ReduceCall ∥ Ref grammar.AllreduceCall ∥ Ref grammar.GatherScatterCall ∥ Ref grammar.AllgatherCall) tokens.now result }
    ensures shorter { IfOk result (λ x. length x.1.now < length tokens.now) }
{
    if next_is(tokens, Class::Mpi(Call::Send)) {
        return send_call(alloc, tokens, level);
    }
    if next_is(tokens, Class::Mpi(Call::Recv)) {
        return recv_call(alloc, tokens, level);
    }
    if next_is(tokens, Class::Mpi(Call::GetCount)) {
        return get_count_call(alloc, tokens, level);
    }
    collective_call(alloc, tokens, level)
}

/// `MPI_Send`.
fn send_call(alloc: Global, tokens: &[Token], level: u8) -> Result<(MpiCall, &[Token]), ReadError>
    requires { level ≤ limit + 1 }
    ensures reads { Gives (λ x. call_tree x.0) (λ x. x.1.now) level (Ref grammar.SendCall) tokens.now result }
    ensures shorter { IfOk result (λ x. length x.1.now < length tokens.now) }
{
    let (at, rest) = open(tokens, Call::Send, level)?;
    let (message, rest) = message_arguments(alloc, rest, level + 1)?;
    let rest = skip(rest, Class::RightParen, level)?;
    let Message {
        buffer,
        process: destination,
        tag,
    } = message;
    let call = MpiCall::Send {
        at,
        buffer,
        destination: destination.into_inner(),
        tag: tag.into_inner(),
    };
    Ok((call, rest))
}

/// `MPI_Recv`.
fn recv_call(alloc: Global, tokens: &[Token], level: u8) -> Result<(MpiCall, &[Token]), ReadError>
    requires { level ≤ limit + 1 }
    ensures reads { Gives (λ x. call_tree x.0) (λ x. x.1.now) level (Ref grammar.RecvCall) tokens.now result }
    ensures shorter { IfOk result (λ x. length x.1.now < length tokens.now) }
{
    let (at, rest) = open(tokens, Call::Recv, level)?;
    let inner = level + 1;
    let (message, rest) = message_arguments(alloc, rest, inner)?;
    let (status, rest) = next_status(alloc, rest, inner)?;
    let rest = skip(rest, Class::RightParen, level)?;
    let Message {
        buffer,
        process: source,
        tag,
    } = message;
    let call = MpiCall::Recv {
        at,
        buffer,
        source: source.into_inner(),
        tag: tag.into_inner(),
        status,
    };
    Ok((call, rest))
}

/// A buffer, the rank of the other process and a tag.
#[derive(Drop)]
struct Message {
    buffer: Buffer,
    process: Boxed<Expr>,
    tag: Boxed<Expr>,
}

/// What is sent or received, and the communicator.
fn message_arguments(
    alloc: Global,
    tokens: &[Token],
    level: u8,
) -> Result<(Message, &[Token]), ReadError>
    requires { level ≤ limit + 1 }
    ensures reads { Gives (λ x. buffer_tree x.0.buffer +++ expression_tree x.0.process +++ expression_tree x.0.tag) (λ x. x.1.now) level (Ref grammar.Buffer ⊳ comma ⊳ e ⊳ comma ⊳ e ⊳ comma ⊳ world) tokens.now result }
    ensures shorter { IfOk result (λ x. length x.1.now < length tokens.now) }
{
    let (buffer, rest) = buffer(alloc, tokens, level)?;
    let (process, tag, rest) = envelope(alloc, rest, level)?;
    let message = Message {
        buffer,
        process,
        tag,
    };
    Ok((message, rest))
}

/// The rank of the other process and a tag, each after a comma, and the communicator.
fn envelope(
    alloc: Global,
    tokens: &[Token],
    level: u8,
) -> Result<(Boxed<Expr>, Boxed<Expr>, &[Token]), ReadError>
    requires { level ≤ limit + 1 }
    ensures reads { Gives (λ x. expression_tree x.0 +++ expression_tree x.1) (λ x. x.2.now) level (comma ⊳ e ⊳ comma ⊳ e ⊳ comma ⊳ world) tokens.now result }
    ensures shorter { IfOk result (λ x. length x.2.now < length tokens.now) }
{
    let (process, rest) = next_argument(alloc, tokens, level)?;
    let (tag, rest) = last_argument(alloc, rest, level)?;
    Ok((process, tag, rest))
}

/// `MPI_Get_count`.
fn get_count_call(
    alloc: Global,
    tokens: &[Token],
    level: u8,
) -> Result<(MpiCall, &[Token]), ReadError>
    requires { level ≤ limit + 1 }
    ensures reads { Gives (λ x. call_tree x.0) (λ x. x.1.now) level (Ref grammar.GetCountCall) tokens.now result }
    ensures shorter { IfOk result (λ x. length x.1.now < length tokens.now) }
{
    let (at, rest) = open(tokens, Call::GetCount, level)?;
    let (status, datatype, result, rest) = count_arguments(alloc, rest, level + 1)?;
    let rest = skip(rest, Class::RightParen, level)?;
    let call = MpiCall::GetCount {
        at,
        status,
        datatype,
        result: result.into_inner(),
    };
    Ok((call, rest))
}

/// A status, a datatype and where the count goes.
fn count_arguments(
    alloc: Global,
    tokens: &[Token],
    level: u8,
) -> Result<(Status, DatatypeWord, Boxed<Expr>, &[Token]), ReadError>
    requires { level ≤ limit + 1 }
    ensures reads { Gives (λ x. status_tree x.0 +++ datatype_row x.1 +++ expression_tree x.2) (λ x. x.3.now) level (Ref grammar.Status ⊳ comma ⊳ grammar.datatype ⊳ comma ⊳ e) tokens.now result }
    ensures shorter { IfOk result (λ x. length x.3.now < length tokens.now) }
{
    let (status, rest) = status(alloc, tokens, level)?;
    let (datatype, rest) = next_datatype(rest, level)?;
    let (result, rest) = next_argument(alloc, rest, level)?;
    Ok((status, datatype, result, rest))
}
