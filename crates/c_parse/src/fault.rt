//! Why a text has no tree.

ghost use Rattle.std.specs.Prelude.{◌≡◌, ◌≤◌, ◌-◌, Result, Err, IfSome, IsSomeAnd, drop, length};
ghost use Rattle.c_tree.specs.Scan.{tokens_of};
ghost use Rattle.c_grammar.specs.Gives.{Fails, Stops};
ghost use Rattle.c_grammar.specs.Grammar.{Program, Ref};
ghost use Rattle.c_grammar.specs.Text as texts;
ghost use Rattle.c_grammar.specs.Text.{Parses, text_limit};
ghost use Rattle.c_parse.specs.Parse.{said};
ghost use Rattle.c_parse.specs.declared.fault.ParseFault.TheVariants.{NoMemory};

use c_grammar::{ReadError, Unread};
use c_tree::Token;
use thiserror::Error;

/// Why a text has no tree. A place is the offset of a byte in the text.
#[derive(Clone, Copy, Debug, Error, PartialEq, Eq)]
pub enum ParseFault {
    #[error("the text is longer than 65,536 bytes")]
    TextLimit,
    #[error("no program goes on like this at byte {at}")]
    Syntax { at: u32 },
    #[error("more than 64 levels at byte {at}")]
    TooDeep { at: u32 },
    #[error("a number of 2^63 or more at byte {at}")]
    NumberRange { at: u32 },
    #[error("no memory")]
    NoMemory,
}

impl From<c3_base::NoMemory> for ParseFault {
    ghost from_gives = { λ _ e. e ≡ NoMemory };

    fn from(_: c3_base::NoMemory) -> Self {
        ParseFault::NoMemory
    }
}

/// The fault of a text whose tokens were not read as a program.
pub fn fault_of(text: &[u8], tokens: &[Token], error: ReadError) -> ParseFault
    requires short { length text.now ≤ text_limit }
    requires scanned { tokens.now ≡ tokens_of text.now }
    requires fails { Fails 0 (Ref Program) tokens.now error }
    ensures { IfSome (said (Err result)) (Parses text.now) }
{
    match error {
        ReadError::Memory => ParseFault::NoMemory,
        ReadError::Unread(unread) => first_fault(text, tokens, unread),
    }
}

/// The fault at which the tokens were read no further as a program.
fn first_fault(text: &[u8], tokens: &[Token], unread: Unread) -> ParseFault
    requires short { length text.now ≤ text_limit }
    requires scanned { tokens.now ≡ tokens_of text.now }
    requires stops { Stops 0 (Ref Program) tokens.now unread }
    ensures { IsSomeAnd (said (Err result)) (Parses text.now) }
{
    match unread {
        Unread::Syntax(left) => ParseFault::Syntax {
            at: place_at(text, tokens, left),
        },
        Unread::TooDeep(left) => ParseFault::TooDeep {
            at: place_at(text, tokens, left),
        },
        Unread::TooLarge(left) => ParseFault::NumberRange {
            at: place_at(text, tokens, left),
        },
    }
}

/// The place of the last `left` of the tokens.
fn place_at(text: &[u8], tokens: &[Token], left: usize) -> u32
    requires short { length text.now ≤ text_limit }
    requires within { left ≤ length tokens.now }
    ensures { result ≡ texts.place_of text.now (drop (length tokens.now - left) tokens.now) }
{
    place_of(text, &tokens[tokens.len() - left..])
}

/// The place of the first of these last tokens of the text, or its end.
pub fn place_of(text: &[u8], rest: &[Token]) -> u32
    requires { length text.now ≤ text_limit }
    ensures { result ≡ texts.place_of text.now rest.now }
{
    match rest {
        [] => text.len() as u32,
        [token, ..] => token.place,
    }
}
