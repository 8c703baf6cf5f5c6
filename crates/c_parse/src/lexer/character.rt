ghost use Rattle.std.specs.Prelude.{◌≡◌, ◌+◌, ◌≤◌, ◌<◌, length, IfOk, IfSome};
ghost use Rattle.c_tree.specs.Scan as scan;
ghost use Rattle.c_parse.specs.Lexer.{maybe_shown, reach, shown};

use crate::lexer::byte::is_character;
use crate::lexer::piece::Piece;
use c_tree::{Class, Value};

/// The byte that an escape's letter stands for in a character and in a string.
pub fn escape(letter: u8) -> Option<u8>
    ensures { result ≡ scan.escape letter }
{
    match letter {
        b'n' => Some(b'\n'),
        b't' => Some(b'\t'),
        b'\\' => Some(b'\\'),
        _ => None,
    }
}

fn character_escape(letter: u8) -> Option<u8>
    ensures { result ≡ scan.character_escape letter }
{
    match letter {
        b'0' => Some(b'\0'),
        b'\'' => Some(b'\''),
        _ => escape(letter),
    }
}

/// The character whose closing quote must come after `len` bytes.
fn closed(value: u8, len: usize, text: &[u8]) -> Piece
    requires { len ≤ 3 }
    ensures found { shown result ≡ scan.closed value len text.now }
    ensures within { reach result ≤ len + length text.now }
{
    match text {
        [b'\'', ..] => Piece::One {
            class: Class::Character,
            value: Value::Number(u64::from(value)),
            len: len + 1,
        },
        _ => Piece::Wrong(0),
    }
}

fn after_backslash(text: &[u8]) -> Piece
    ensures found { shown result ≡ scan.after_backslash text.now }
    ensures within { reach result ≤ length text.now + 2 }
{
    match text {
        [letter, rest @ ..] => match character_escape(*letter) {
            Some(value) => closed(value, 3, rest),
            None => Piece::Wrong(1),
        },
        [] => Piece::Wrong(0),
    }
}

fn after_quote(text: &[u8]) -> Piece
    ensures found { shown result ≡ scan.after_quote text.now }
    ensures within { reach result ≤ length text.now + 1 }
{
    match text {
        [b'\\', rest @ ..] => after_backslash(rest),
        [byte, rest @ ..] if is_character(*byte) => closed(*byte, 2, rest),
        _ => Piece::Wrong(0),
    }
}

/// A character constant (C99 6.4.4.4).
pub fn character(text: &[u8]) -> Option<Piece>
    ensures found { maybe_shown result ≡ scan.character text.now }
    ensures within { IfSome result (λ piece. reach piece ≤ length text.now) }
{
    match text {
        [b'\'', rest @ ..] => Some(after_quote(rest)),
        _ => None,
    }
}
