ghost use Rattle.std.specs.Prelude.{◌≡◌, ◌≤◌, ◌||◌, length, min, nat_eq, IfSome, IsTrue};
ghost use Rattle.c_tree.specs.Scan as scan;
ghost use Rattle.c_parse.specs.Lexer.{maybe_shown, reach};

use crate::lexer::byte::is_digit;
use crate::lexer::front;
use crate::lexer::piece::Piece;
use c_tree::{Class, Value};

/// The greatest `int`.
const MAX_INT: u64 = 2147483647;

/// The first number that no program may have, 2^63.
const TOO_GREAT: u64 = 9223372036854775808;

/// `0`, or digits without a leading zero.
fn digits(text: &[u8]) -> &[u8]
    ensures digits { result.now ≡ scan.digits text.now }
    ensures within { length result.now ≤ length text.now }
{
    match text {
        [b'0', ..] => &text[..1],
        _ => front::digits(text),
    }
}

/// The number that the digits stand for, or the greatest `u64` if it is greater.
fn value_of(digits: &[u8]) -> u64
    ensures { result ≡ min (scan.number_value 0 digits.now) u64.MAX }
{
    let mut value: u64 = 0;
    for digit in digits {
        value = value
            .saturating_mul(10)
            .saturating_add(u64::from(digit.saturating_sub(b'0')));
    }
    value
}

fn class_of(is_long: bool, value: u64) -> Class
    ensures { result ≡ scan.number_class is_long value }
{
    if value >= TOO_GREAT {
        return Class::HugeNumber;
    }
    if is_long || value > MAX_INT {
        return Class::LongNumber;
    }
    Class::Number
}

fn kept(value: u64) -> Value
    ensures { result ≡ scan.number_kept value }
{
    if value < TOO_GREAT {
        Value::Number(value)
    } else {
        Value::Nothing
    }
}

fn has_suffix(text: &[u8]) -> bool
    ensures suffix { result ≡ scan.first (λ b. nat_eq b 108 || nat_eq b 76) text.now }
    ensures within { IsTrue result → 1 ≤ length text.now }
{
    matches!(text, [b'l' | b'L', ..])
}

/// A decimal number (C99 6.4.4.1) with its suffix.
pub fn number(text: &[u8]) -> Option<Piece>
    ensures found { maybe_shown result ≡ scan.number text.now }
    ensures within { IfSome result (λ piece. reach piece ≤ length text.now) }
{
    match text {
        [first, ..] if is_digit(*first) => {
            let digits = digits(text);
            let value = value_of(digits);
            let is_long = has_suffix(&text[digits.len()..]);
            Some(Piece::One {
                class: class_of(is_long, value),
                value: kept(value),
                len: digits.len() + usize::from(is_long),
            })
        }
        _ => None,
    }
}
