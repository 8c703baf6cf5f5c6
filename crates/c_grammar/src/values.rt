//! What a token stands for beside its class.

ghost use Rattle.std.specs.Prelude.{◌≡◌, IfOk};
ghost use Rattle.c_grammar.specs.Grammar.{integers, literals};
ghost use Rattle.c_grammar.specs.Meaning.{bytes_of, number_of};
ghost use Rattle.c_grammar.specs.Readers.{IsValue, integer_class, integer_value, literal_class, literal_value};

use c_tree::{Class, Token, Value};
use sqlite_items::Items;
use std::alloc::{AllocError, Global};

/// A number below 2^63, and whether its type is long.
#[derive(Clone, Copy, PartialEq, Eq)]
pub struct Integer {
    pub value: u64,
    pub long: bool,
}

/// A constant (C99 6.4.4), `NULL`, or a constant of MPI.
#[derive(Clone, Copy, PartialEq, Eq)]
pub enum Literal {
    Integer(Integer),
    Character(u64),
    Null,
    AnySource,
    AnyTag,
    ProcNull,
}

/// The name of a member: one of the program, `MPI_SOURCE` or `MPI_TAG`.
#[derive(Drop)]
pub enum MemberName {
    Name(Items<u8>),
    Source,
    Tag,
}

/// A copy of the bytes that a value has.
pub fn bytes_in(alloc: Global, value: &Value) -> Result<Items<u8>, AllocError>
    ensures { IfOk result (λ bytes. bytes ≡ bytes_of value.now) }
{
    match value {
        Value::Bytes(bytes) => Items::from_slice(alloc, bytes.as_slice()),
        _ => Ok(Items::new(alloc)),
    }
}

/// The number that a value has.
pub fn number_in(value: &Value) -> u64
    ensures { result ≡ number_of value.now }
{
    match value {
        Value::Number(number) => *number,
        _ => 0,
    }
}

/// The number that the next token is.
pub fn integer_at(tokens: &[Token]) -> Option<Integer>
    ensures { IsValue integer_class integer_value integers tokens.now result }
{
    match tokens {
        [] => None,
        [token, ..] => match token.class {
            Class::Number => Some(Integer {
                value: number_in(&token.value),
                long: false,
            }),
            Class::LongNumber => Some(Integer {
                value: number_in(&token.value),
                long: true,
            }),
            _ => None,
        },
    }
}

/// The literal that the next token is.
pub fn literal_at(tokens: &[Token]) -> Option<Literal>
    ensures { IsValue literal_class literal_value literals tokens.now result }
{
    match integer_at(tokens) {
        Some(integer) => Some(Literal::Integer(integer)),
        None => match tokens {
            [] => None,
            [token, ..] => match token.class {
                Class::Character => Some(Literal::Character(number_in(&token.value))),
                Class::Null => Some(Literal::Null),
                Class::AnySource => Some(Literal::AnySource),
                Class::AnyTag => Some(Literal::AnyTag),
                Class::ProcNull => Some(Literal::ProcNull),
                _ => None,
            },
        },
    }
}
