ghost use Rattle.std.specs.Prelude.{◌≡◌, ◌≤◌, length, IsTrue};
ghost use Rattle.c_tree.specs.Scan as scan;

use crate::lexer::byte::{is_digit, is_name_byte};

pub fn is_same(left: &[u8], right: &[u8]) -> bool
    ensures { result ≡ scan.same left.now right.now }
{
    left == right
}

pub fn begins_with(text: &[u8], front: &[u8]) -> bool
    ensures begins { result ≡ scan.begins_with front.now text.now }
    ensures within { IsTrue result → length front.now ≤ length text.now }
{
    text.starts_with(front)
}

/// The text up to its first line feed.
pub fn line(text: &[u8]) -> &[u8]
    ensures front { result.now ≡ scan.front scan.in_line text.now }
    ensures within { length result.now ≤ length text.now }
{
    for (at, byte) in text.iter().enumerate() {
        if *byte == b'\n' {
            return &text[..at];
        }
    }
    text
}

/// The letters and digits that the text begins with.
pub fn word(text: &[u8]) -> &[u8]
    ensures front { result.now ≡ scan.front scan.is_name_byte text.now }
    ensures within { length result.now ≤ length text.now }
{
    for (at, byte) in text.iter().enumerate() {
        if !is_name_byte(*byte) {
            return &text[..at];
        }
    }
    text
}

/// The digits that the text begins with.
pub fn digits(text: &[u8]) -> &[u8]
    ensures front { result.now ≡ scan.front scan.is_digit text.now }
    ensures within { length result.now ≤ length text.now }
{
    for (at, byte) in text.iter().enumerate() {
        if !is_digit(*byte) {
            return &text[..at];
        }
    }
    text
}
