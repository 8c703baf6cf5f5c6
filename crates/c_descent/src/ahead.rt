//! What the next token is.

ghost use Rattle.std.specs.Prelude.{◌≡◌, ◌<◌, ◌∷◌, []};
ghost use Rattle.c_grammar.specs.Grammar.{headers, integers, simple_types, Ref, CommunicatorCall, GatherScatterCall};
ghost use Rattle.c_grammar.specs.Meaning.{next_in, starts};
ghost use Rattle.c_grammar.specs.Readers.{IsNext};
ghost use Rattle.c_grammar.specs.Trees.{plain_class};
ghost use Rattle.c_descent.specs.Calls.{inquiry_class, inquiries, distribution_class, distributions};

use c_grammar::ahead::next_is;
use c_tree::tree::PlainType;
use c_tree::{Call, Class, Token};

/// What is asked of a communicator.
#[derive(Clone, Copy)]
pub enum Inquiry {
    Rank,
    Size,
}

/// Which way the parts of a buffer move.
#[derive(Clone, Copy)]
pub enum Distribution {
    Gather,
    Scatter,
}

/// Whether the next token is a number.
pub fn at_integer(tokens: &[Token]) -> bool
    ensures { result ≡ next_in integers tokens.now }
{
    next_is(tokens, Class::Number)
        || next_is(tokens, Class::LongNumber)
        || next_is(tokens, Class::HugeNumber)
}

/// The type of one word, other than `long`, that the next token is.
pub fn at_simple_type(tokens: &[Token]) -> Option<PlainType>
    ensures { IsNext plain_class simple_types tokens.now result }
{
    match tokens {
        [] => None,
        [token, ..] => match token.class {
            Class::Char => Some(PlainType::Char),
            Class::Int => Some(PlainType::Int),
            Class::Void => Some(PlainType::Void),
            Class::StatusType => Some(PlainType::Status),
            _ => None,
        },
    }
}

/// Whether the next token is an include.
pub fn at_include(tokens: &[Token]) -> bool
    ensures { result ≡ next_in headers tokens.now }
{
    match tokens {
        [] => false,
        [token, ..] => match token.class {
            Class::Include(_) => true,
            _ => false,
        },
    }
}

/// Whether the next token is a call that asks for the rank or for the size.
pub fn at_inquiry_call(tokens: &[Token]) -> bool
    ensures { result ≡ starts (Ref CommunicatorCall) tokens.now }
{
    next_is(tokens, Class::Mpi(Call::CommRank)) || next_is(tokens, Class::Mpi(Call::CommSize))
}

/// What the next token, a call, asks for.
pub fn at_inquiry(tokens: &[Token]) -> Option<Inquiry>
    ensures { IsNext inquiry_class inquiries tokens.now result }
{
    match tokens {
        [] => None,
        [token, ..] => match token.class {
            Class::Mpi(Call::CommRank) => Some(Inquiry::Rank),
            Class::Mpi(Call::CommSize) => Some(Inquiry::Size),
            _ => None,
        },
    }
}

/// Whether the next token is a call that gathers or scatters.
pub fn at_distribution_call(tokens: &[Token]) -> bool
    ensures { result ≡ starts (Ref GatherScatterCall) tokens.now }
{
    next_is(tokens, Class::Mpi(Call::Gather)) || next_is(tokens, Class::Mpi(Call::Scatter))
}

/// Which way the next token, a call, moves parts of a buffer.
pub fn at_distribution(tokens: &[Token]) -> Option<Distribution>
    ensures { IsNext distribution_class distributions tokens.now result }
{
    match tokens {
        [] => None,
        [token, ..] => match token.class {
            Class::Mpi(Call::Gather) => Some(Distribution::Gather),
            Class::Mpi(Call::Scatter) => Some(Distribution::Scatter),
            _ => None,
        },
    }
}
