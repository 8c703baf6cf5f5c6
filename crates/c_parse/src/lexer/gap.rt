ghost use Rattle.std.specs.Prelude.{◌≡◌, ◌+◌, ◌≤◌, length, IfSome};
ghost use Rattle.c_tree.specs.Scan as scan;
ghost use Rattle.c_parse.specs.Lexer.{maybe_shown, reach, shown};

use crate::lexer::byte::is_white;
use crate::lexer::front::{begins_with, line};
use crate::lexer::piece::Piece;

pub fn white(text: &[u8]) -> Option<Piece>
    ensures found { maybe_shown result ≡ scan.white text.now }
    ensures within { IfSome result (λ piece. reach piece ≤ length text.now) }
{
    match text {
        [byte, ..] if is_white(*byte) => Some(Piece::Gap(1)),
        _ => None,
    }
}

/// A comment to the line's end (C99 6.4.9).
pub fn line_comment(text: &[u8]) -> Option<Piece>
    ensures found { maybe_shown result ≡ scan.line_comment text.now }
    ensures within { IfSome result (λ piece. reach piece ≤ length text.now) }
{
    if !begins_with(text, b"//") {
        return None;
    }
    Some(Piece::Gap(line(text).len()))
}

/// The comment that has this text after its `/*`.
fn comment_end(text: &[u8]) -> Piece
    ensures found { shown result ≡ scan.comment_end 2 text.now }
    ensures within { reach result ≤ length text.now + 2 }
{
    for at in 0..text.len() {
        if begins_with(&text[at..], b"*/") {
            return Piece::Gap(2 + at + 2);
        }
    }
    Piece::Wrong(0)
}

pub fn comment(text: &[u8]) -> Option<Piece>
    ensures found { maybe_shown result ≡ scan.comment text.now }
    ensures within { IfSome result (λ piece. reach piece ≤ length text.now) }
{
    if !begins_with(text, b"/*") {
        return None;
    }
    Some(comment_end(&text[2..]))
}
