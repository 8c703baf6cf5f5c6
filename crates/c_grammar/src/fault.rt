//! Why tokens were not read.

ghost use Rattle.std.specs.Prelude.{◌≡◌};
ghost use Rattle.c_grammar.specs.declared.fault.ReadError.TheVariants as error;

use std::alloc::{AllocError, AllocFailed};

/// Why a rule was not read. A fault's place is the number of tokens from it to the end.
#[derive(Clone, Copy)]
pub enum Unread {
    /// The token, or the end, fits nowhere.
    Syntax(usize),
    /// The token stands at level 65.
    TooDeep(usize),
    /// The token is a number of 2^63 or more.
    TooLarge(usize),
}

/// Why a reader that needs memory gives nothing.
#[derive(Drop)]
pub enum ReadError {
    /// The memory that the answer needs is not there.
    Memory,
    /// The rule was not read.
    Unread(Unread),
}

impl From<Unread> for ReadError {
    ghost from_gives = { λ unread e. e ≡ error.Unread unread };

    fn from(unread: Unread) -> ReadError {
        ReadError::Unread(unread)
    }
}

impl From<AllocError> for ReadError {
    ghost from_gives = { λ _ e. e ≡ error.Memory };

    fn from(_error: AllocError) -> ReadError {
        ReadError::Memory
    }
}

impl<T: Drop> From<AllocFailed<T>> for ReadError {
    ghost from_gives = { λ _ e. e ≡ error.Memory };

    fn from(_error: AllocFailed<T>) -> ReadError {
        ReadError::Memory
    }
}
