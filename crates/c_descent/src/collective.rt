//! Collective calls of MPI.

ghost use Rattle.std.specs.Prelude.{◌≡◌, ◌≤◌, ◌<◌, ◌+◌, IfOk, length};
ghost use Rattle.c_grammar.specs.Grammar as grammar;
ghost use Rattle.c_grammar.specs.Grammar.{Ref, ◌⊳◌, ◌∥◌, comma, e};
ghost use Rattle.c_grammar.specs.Meaning.{leaf, node, none, limit, ◌+++◌};
ghost use Rattle.c_grammar.specs.Gives.{Gives};
ghost use Rattle.c_grammar.specs.Trees.{buffer_tree, call_tree, expression_tree, reduction_row};
ghost use Rattle.c_descent.specs.Calls.{distribution_class};
ghost use Rattle.c_tree.specs.declared.token.Value.TheVariants as value;

use crate::ahead::{Distribution, at_distribution, at_distribution_call};
use crate::argument::{buffer, last_argument, next_buffer, next_operation, next_world};
use crate::call::open;
use crate::expression::expression;
use c_grammar::ReadError;
use c_grammar::ahead::next_is;
use c_grammar::reading::{pick, skip};
use c_tree::tree::{Buffer, Expr, MpiCall, ReductionWord};
use c_tree::{Call, Class, Token};
use sqlite_items::Boxed;
use std::alloc::Global;

/// A collective call other than a barrier.
#[tactic(auto, using(c_grammar::proofs::Steps::descent))]
pub fn collective_call(
    alloc: Global,
    tokens: &[Token],
    level: u8,
) -> Result<(MpiCall, &[Token]), ReadError>
    requires { level ≤ limit + 1 }
    ensures reads { Gives (λ x. call_tree x.0) (λ x. x.1.now) level (Ref grammar.BcastCall ∥ Ref grammar.ReduceCall ∥ Ref grammar.AllreduceCall ∥ Ref grammar.GatherScatterCall ∥ Ref grammar.AllgatherCall) tokens.now result }
    ensures shorter { IfOk result (λ x. length x.1.now < length tokens.now) }
{
    if next_is(tokens, Class::Mpi(Call::Bcast)) {
        return bcast_call(alloc, tokens, level);
    }
    if next_is(tokens, Class::Mpi(Call::Reduce)) {
        return reduce_call(alloc, tokens, level);
    }
    if next_is(tokens, Class::Mpi(Call::Allreduce)) {
        return allreduce_call(alloc, tokens, level);
    }
    if at_distribution_call(tokens) {
        return distribution_call(alloc, tokens, level);
    }
    allgather_call(alloc, tokens, level)
}

/// `MPI_Bcast`.
fn bcast_call(alloc: Global, tokens: &[Token], level: u8) -> Result<(MpiCall, &[Token]), ReadError>
    requires { level ≤ limit + 1 }
    ensures reads { Gives (λ x. call_tree x.0) (λ x. x.1.now) level (Ref grammar.BcastCall) tokens.now result }
    ensures shorter { IfOk result (λ x. length x.1.now < length tokens.now) }
{
    let (at, rest) = open(tokens, Call::Bcast, level)?;
    let inner = level + 1;
    let (buffer, rest) = buffer(alloc, rest, inner)?;
    let (root, rest) = last_argument(alloc, rest, inner)?;
    let rest = skip(rest, Class::RightParen, level)?;
    let root = root.into_inner();
    Ok((MpiCall::Bcast { at, buffer, root }, rest))
}

/// `MPI_Reduce`.
fn reduce_call(alloc: Global, tokens: &[Token], level: u8) -> Result<(MpiCall, &[Token]), ReadError>
    requires { level ≤ limit + 1 }
    ensures reads { Gives (λ x. call_tree x.0) (λ x. x.1.now) level (Ref grammar.ReduceCall) tokens.now result }
    ensures shorter { IfOk result (λ x. length x.1.now < length tokens.now) }
{
    let (at, rest) = open(tokens, Call::Reduce, level)?;
    let inner = level + 1;
    let (arguments, rest) = reduce_arguments(alloc, rest, inner)?;
    let (root, rest) = last_argument(alloc, rest, inner)?;
    let rest = skip(rest, Class::RightParen, level)?;
    let ReduceArguments {
        send,
        receive,
        operation,
    } = arguments;
    let call = MpiCall::Reduce {
        at,
        send: send.into_inner(),
        receive,
        operation,
        root: root.into_inner(),
    };
    Ok((call, rest))
}

/// `MPI_Allreduce`.
fn allreduce_call(
    alloc: Global,
    tokens: &[Token],
    level: u8,
) -> Result<(MpiCall, &[Token]), ReadError>
    requires { level ≤ limit + 1 }
    ensures reads { Gives (λ x. call_tree x.0) (λ x. x.1.now) level (Ref grammar.AllreduceCall) tokens.now result }
    ensures shorter { IfOk result (λ x. length x.1.now < length tokens.now) }
{
    let (at, rest) = open(tokens, Call::Allreduce, level)?;
    let inner = level + 1;
    let (arguments, rest) = reduce_arguments(alloc, rest, inner)?;
    let rest = next_world(rest, inner)?;
    let rest = skip(rest, Class::RightParen, level)?;
    let ReduceArguments {
        send,
        receive,
        operation,
    } = arguments;
    let call = MpiCall::Allreduce {
        at,
        send: send.into_inner(),
        receive,
        operation,
    };
    Ok((call, rest))
}

/// What is sent, where the result goes, and how it is made.
#[derive(Drop)]
struct ReduceArguments {
    send: Boxed<Expr>,
    receive: Buffer,
    operation: ReductionWord,
}

/// The arguments of a reduction.
fn reduce_arguments(
    alloc: Global,
    tokens: &[Token],
    level: u8,
) -> Result<(ReduceArguments, &[Token]), ReadError>
    requires { level ≤ limit + 1 }
    ensures reads { Gives (λ x. expression_tree x.0.send +++ buffer_tree x.0.receive +++ reduction_row x.0.operation) (λ x. x.1.now) level (e ⊳ comma ⊳ Ref grammar.Buffer ⊳ comma ⊳ grammar.operation) tokens.now result }
    ensures shorter { IfOk result (λ x. length x.1.now < length tokens.now) }
{
    let (send, rest) = expression(alloc, tokens, level)?;
    let (receive, rest) = next_buffer(alloc, rest, level)?;
    let (operation, rest) = next_operation(rest, level)?;
    let arguments = ReduceArguments {
        send,
        receive,
        operation,
    };
    Ok((arguments, rest))
}

/// `MPI_Gather` or `MPI_Scatter`.
fn distribution_call(
    alloc: Global,
    tokens: &[Token],
    level: u8,
) -> Result<(MpiCall, &[Token]), ReadError>
    requires { level ≤ limit + 1 }
    ensures reads { Gives (λ x. call_tree x.0) (λ x. x.1.now) level (Ref grammar.GatherScatterCall) tokens.now result }
    ensures shorter { IfOk result (λ x. length x.1.now < length tokens.now) }
{
    let (at, distribution, rest) = pick(tokens, at_distribution(tokens), level)?;
    let rest = skip(rest, Class::LeftParen, level)?;
    let inner = level + 1;
    let (buffers, rest) = two_buffers(alloc, rest, inner)?;
    let (root, rest) = last_argument(alloc, rest, inner)?;
    let rest = skip(rest, Class::RightParen, level)?;
    let call = distributed(distribution, at, buffers, root.into_inner());
    Ok((call, rest))
}

/// The call of these arguments.
fn distributed(distribution: Distribution, at: u32, buffers: Buffers, root: Expr) -> MpiCall
    ensures { call_tree result ≡ node grammar.GatherScatterCall (leaf (distribution_class distribution) value.Nothing at (buffer_tree buffers.send +++ buffer_tree buffers.receive +++ expression_tree root)) none }
{
    let Buffers { send, receive } = buffers;
    match distribution {
        Distribution::Gather => MpiCall::Gather {
            at,
            send,
            receive,
            root,
        },
        Distribution::Scatter => MpiCall::Scatter {
            at,
            send,
            receive,
            root,
        },
    }
}

/// `MPI_Allgather`.
fn allgather_call(
    alloc: Global,
    tokens: &[Token],
    level: u8,
) -> Result<(MpiCall, &[Token]), ReadError>
    requires { level ≤ limit + 1 }
    ensures reads { Gives (λ x. call_tree x.0) (λ x. x.1.now) level (Ref grammar.AllgatherCall) tokens.now result }
    ensures shorter { IfOk result (λ x. length x.1.now < length tokens.now) }
{
    let (at, rest) = open(tokens, Call::Allgather, level)?;
    let inner = level + 1;
    let (buffers, rest) = two_buffers(alloc, rest, inner)?;
    let rest = next_world(rest, inner)?;
    let rest = skip(rest, Class::RightParen, level)?;
    let Buffers { send, receive } = buffers;
    Ok((MpiCall::Allgather { at, send, receive }, rest))
}

/// The buffer that is sent and the one that receives.
#[derive(Drop)]
struct Buffers {
    send: Buffer,
    receive: Buffer,
}

/// A buffer, a comma and another one.
#[tactic(auto, using(c_grammar::proofs::Steps::descent))]
fn two_buffers(alloc: Global, tokens: &[Token], level: u8) -> Result<(Buffers, &[Token]), ReadError>
    requires { level ≤ limit + 1 }
    ensures reads { Gives (λ x. buffer_tree x.0.send +++ buffer_tree x.0.receive) (λ x. x.1.now) level (Ref grammar.Buffer ⊳ comma ⊳ Ref grammar.Buffer) tokens.now result }
    ensures shorter { IfOk result (λ x. length x.1.now < length tokens.now) }
{
    let (send, rest) = buffer(alloc, tokens, level)?;
    let (receive, rest) = next_buffer(alloc, rest, level)?;
    Ok((Buffers { send, receive }, rest))
}
