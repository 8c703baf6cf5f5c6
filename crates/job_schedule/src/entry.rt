ghost use Rattle.std.specs.Prelude.{◌≡◌};
ghost use Rattle.job_schedule.specs.Reading as reading;

use crate::byte::place_of;
use crate::number::{number, rank};
use crate::schedule::{Entry, Word};
use job_core::Event;

/// Two ranks with a `>` between them.
fn ranks(text: &[u8]) -> Option<(u16, u16)>
    ensures { result ≡ reading.ranks_of text.now }
{
    let at = place_of(b'>', text)?;
    let from = rank(&text[..at])?;
    let to = rank(&text[at + 1..])?;
    Some((from, to))
}

/// What a word without repeats stands for, by its first letter and what follows it.
fn by_letter(letter: u8, rest: &[u8]) -> Option<Word>
    ensures { result ≡ reading.by_letter letter rest.now }
{
    match letter {
        b't' => Some(Word::One(Event::Turn(rank(rest)?))),
        b'k' => Some(Word::One(Event::Kill(rank(rest)?))),
        b'd' => {
            let (from, to) = ranks(rest)?;
            Some(Word::One(Event::Deliver { from, to }))
        }
        b'c' => {
            let (from, to) = ranks(rest)?;
            Some(Word::One(Event::Control { from, to }))
        }
        b's' if rest.is_empty() => Some(Word::One(Event::Sweep)),
        b'w' if rest.is_empty() => Some(Word::One(Event::Wave)),
        b'x' if rest.is_empty() => Some(Word::One(Event::Restart)),
        b'r' if rest.is_empty() => Some(Word::Round),
        _ => None,
    }
}

/// What a word without repeats stands for.
fn word(text: &[u8]) -> Option<Word>
    ensures { result ≡ reading.word_of text.now }
{
    match text {
        [] => None,
        [letter, rest @ ..] => by_letter(*letter, rest),
    }
}

/// How often a word stands.
fn repeats(text: &[u8]) -> Option<u32>
    ensures { result ≡ reading.repeats_of text.now }
{
    match number(text)? {
        0 => None,
        n => Some(n),
    }
}

/// What a word stands for.
pub fn entry(text: &[u8]) -> Option<Entry>
    ensures { result ≡ reading.entry_of text.now }
{
    match place_of(b'*', text) {
        None => Some(Entry {
            what: word(text)?,
            repeats: 1,
        }),
        Some(at) => Some(Entry {
            what: word(&text[..at])?,
            repeats: repeats(&text[at + 1..])?,
        }),
    }
}
