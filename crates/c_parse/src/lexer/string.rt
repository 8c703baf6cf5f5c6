ghost use Rattle.std.specs.Prelude.{◌≡◌, [], ℕ, List, ◌+◌, ◌≤◌, length, IfOk, IfSome};
ghost use Rattle.c_tree.specs.Scan as scan;
ghost use Rattle.c_parse.specs.Lexer.{maybe_shown, part_says, reach, shown, IsPartOf};

use crate::lexer::byte::is_text;
use crate::lexer::character::escape;
use crate::lexer::piece::Piece;
use c_tree::{Class, Value};
use c3_base::NoMemory;
use sqlite_items::Items;
use std::alloc::Global;

/// The next part of a string.
enum Part {
    Quote,
    /// A byte that the next `len` bytes stand for.
    Byte { value: u8, len: usize },
    /// The next byte and the one after it are no escape.
    NoEscape,
    /// The string doesn't go on here.
    Unclosed,
}

fn string_escape(letter: u8) -> Option<u8>
    ensures { result ≡ scan.escape_or 34 34 letter }
{
    match letter {
        b'"' => Some(b'"'),
        _ => escape(letter),
    }
}

fn next_part(text: &[u8]) -> Part
    ensures says { (n : ℕ) → (so_far : List ℕ) → scan.string_end n so_far text.now ≡ part_says result n so_far text.now }
    ensures within { IsPartOf result (length text.now) }
{
    match text {
        [b'"', ..] => Part::Quote,
        [b'\\', letter, ..] => match string_escape(*letter) {
            Some(value) => Part::Byte { value, len: 2 },
            None => Part::NoEscape,
        },
        [byte, ..] if is_text(*byte) => Part::Byte {
            value: *byte,
            len: 1,
        },
        _ => Part::Unclosed,
    }
}

/// The string that has this text after its first quote.
fn string_end(alloc: Global, text: &[u8]) -> Result<Piece, NoMemory>
    ensures found { IfOk result (λ piece. shown piece ≡ scan.string_end 1 [] text.now) }
    ensures within { IfOk result (λ piece. reach piece ≤ length text.now + 1) }
{
    let mut bytes = Items::new(alloc);
    let mut at = 0;
    while at < text.len() {
        match next_part(&text[at..]) {
            Part::Quote => {
                return Ok(Piece::One {
                    class: Class::Text,
                    value: Value::Bytes(bytes),
                    len: at + 2,
                });
            }
            Part::Byte { value, len } => {
                bytes.push(value)?;
                at += len;
            }
            Part::NoEscape => return Ok(Piece::Wrong(at + 1)),
            Part::Unclosed => return Ok(Piece::Wrong(0)),
        }
    }
    Ok(Piece::Wrong(0))
}

/// A string literal (C99 6.4.5).
pub fn string(alloc: Global, text: &[u8]) -> Result<Option<Piece>, NoMemory>
    ensures found { IfOk result (λ found. maybe_shown found ≡ scan.string text.now) }
    ensures within { IfOk result (λ found. IfSome found (λ piece. reach piece ≤ length text.now)) }
{
    match text {
        [b'"', rest @ ..] => Ok(Some(string_end(alloc, rest)?)),
        _ => Ok(None),
    }
}
