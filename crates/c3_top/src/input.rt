//! What the input holds.

ghost use Rattle.std.specs.Prelude.{◌≡◌};
ghost use Rattle.std.specs.List.{list_all};
ghost use Rattle.c3_top.specs.Input as inputs;

/// The line before a schedule, without the blanks at its ends.
const MARK: &[u8] = b"#pragma ccc schedule";

/// The schedule where the input has none.
const DEFAULT: &[u8] = b"r*3076";

/// The text of a program, and a schedule's.
#[derive(Clone, Copy)]
pub struct Parts<'a> {
    pub text: &'a [u8],
    pub schedule: &'a [u8],
}

fn is_end(byte: u8) -> bool
    ensures { result ≡ inputs.is_end byte }
{
    matches!(byte, b' ' | b'\t' | b'\r')
}

/// The text without the blanks that it begins with.
fn trimmed(text: &[u8]) -> &[u8]
    ensures { result.now ≡ inputs.skip_while inputs.is_end text.now }
{
    for (at, byte) in text.iter().enumerate() {
        if !is_end(*byte) {
            return &text[at..];
        }
    }
    &[]
}

fn all_ends(text: &[u8]) -> bool
    ensures { result ≡ list_all inputs.is_end text.now }
{
    text.iter().all(|byte| is_end(*byte))
}

/// Whether the text begins with the mark, and nothing but blanks follows it.
fn is_marked(text: &[u8]) -> bool
    ensures { result ≡ inputs.is_marked text.now }
{
    match text.strip_prefix(MARK) {
        Some(rest) => all_ends(rest),
        None => false,
    }
}

/// The line that the text begins with, without its line feed.
fn line_of(text: &[u8]) -> &[u8]
    ensures { result.now ≡ inputs.line_of text.now }
{
    for (at, byte) in text.iter().enumerate() {
        if *byte == b'\n' {
            return &text[..at];
        }
    }
    text
}

/// Whether the line that the text begins with stands before a schedule.
fn is_before_schedule(text: &[u8]) -> bool
    ensures { result ≡ inputs.is_schedule_line (inputs.line_of text.now) }
{
    is_marked(trimmed(line_of(text)))
}

/// What follows the line that the text begins with.
fn after_line(text: &[u8]) -> &[u8]
    ensures { result.now ≡ inputs.after_line text.now }
{
    let len = line_of(text).len();
    if len < text.len() {
        return &text[len + 1..];
    }
    &[]
}

/// The program's text, before the first line that begins a schedule, and the schedule's.
pub fn split(input: &[u8]) -> Parts<'_>
    ensures text { result.text.now ≡ (inputs.parts_of input.now).text }
    ensures schedule { result.schedule.now ≡ (inputs.parts_of input.now).schedule }
{
    let mut is_fresh = true;
    for (at, byte) in input.iter().enumerate() {
        if is_fresh && is_before_schedule(&input[at..]) {
            return Parts {
                text: &input[..at],
                schedule: after_line(&input[at..]),
            };
        }
        is_fresh = *byte == b'\n';
    }
    Parts {
        text: input,
        schedule: DEFAULT,
    }
}
