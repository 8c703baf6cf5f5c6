//! The tokens of a text.

mod byte;
mod character;
mod directive;
mod front;
mod gap;
mod number;
mod piece;
mod string;
mod table;
mod word;

ghost use Rattle.std.specs.Prelude.{◌≡◌, ◌<◌, ◌≤◌, ◌^◌, length, IfOk};
ghost use Rattle.c_tree.specs.Scan as scan;
ghost use Rattle.c_parse.specs.Lexer.{maybe_shown, reach, shown};

use byte::is_blank;
use c_tree::{Class, Token, Value};
use c3_base::NoMemory;
use piece::Piece;
use sqlite_items::Items;
use std::alloc::Global;

/// What the text begins with. `is_fresh` says that only blanks stand before it in its line.
fn first_piece(alloc: Global, text: &[u8], is_fresh: bool) -> Result<Piece, NoMemory>
    ensures found { IfOk result (λ piece. shown piece ≡ scan.piece is_fresh text.now) }
    ensures within { IfOk result (λ piece. reach piece ≤ length text.now) }
{
    if let Some(piece) = gap::white(text) {
        return Ok(piece);
    }
    if let Some(piece) = gap::line_comment(text) {
        return Ok(piece);
    }
    if let Some(piece) = gap::comment(text) {
        return Ok(piece);
    }
    if let Some(piece) = directive::directive(alloc, text, is_fresh)? {
        return Ok(piece);
    }
    if let Some(piece) = word::name(alloc, text)? {
        return Ok(piece);
    }
    if let Some(piece) = number::number(text) {
        return Ok(piece);
    }
    if let Some(piece) = character::character(text) {
        return Ok(piece);
    }
    if let Some(piece) = string::string(alloc, text)? {
        return Ok(piece);
    }
    match table::sign(text) {
        Some(piece) => Ok(piece),
        None => Ok(Piece::Wrong(0)),
    }
}

fn is_fresh_after(is_fresh: bool, byte: u8) -> bool
    ensures { result ≡ scan.fresh_after is_fresh byte }
{
    byte == b'\n' || is_blank(byte) && is_fresh
}

/// The tokens of a text (C99 6.4), the last of class Broken at the first lexical fault.
pub fn scanned(alloc: Global, text: &[u8]) -> Result<Items<Token>, NoMemory>
    requires { length text.now < 2 ^ 32 }
    ensures { IfOk result (λ list. list ≡ scan.tokens_of text.now) }
{
    let mut tokens = Items::new(alloc);
    let mut place = 0;
    let mut is_fresh = true;
    // Each piece takes a byte at least.
    for _ in 0..text.len() {
        if place == text.len() {
            break;
        }
        match first_piece(alloc, &text[place..], is_fresh)? {
            Piece::Gap(len) => {
                is_fresh = is_fresh_after(is_fresh, text[place]);
                place += len;
            }
            Piece::One { class, value, len } => {
                tokens.push(Token {
                    class,
                    value,
                    place: place as u32,
                })?;
                is_fresh = false;
                place += len;
            }
            Piece::Wrong(offset) => {
                tokens.push(Token {
                    class: Class::Broken,
                    value: Value::Nothing,
                    place: (place + offset) as u32,
                })?;
                break;
            }
        }
    }
    Ok(tokens)
}
