//! A rank's mailbox.

ghost use Rattle.std.specs.Prelude.{◌≡◌, ◌<◌, ◌≤◌, [], ◌∷◌, ◌++◌, None, Some, length, position, IfOk, IfNone, IfSome, OnErr, OnOk, if◌then◌else◌, option_and_then, option_map};
ghost use Rattle.mpi_queues.specs.Arrivals.{fits, open_after, given};
ghost use Rattle.mpi_queues.specs.Firsts.{taken_at};

use c3_base::NoMemory;
use mpi_words::{List, Message, Pattern, matches};
use smallvec::SmallVec;
use std::alloc::Global;
use std::marker::Model;

/// Messages with their sources, in order of arrival. There is room for 2^32 - 1.
#[derive(Drop)]
pub struct Mailbox {
    alloc: Global,
    arrivals: List<(u16, Message)>,
}

impl Model for Mailbox {
    ghost use Rattle.std.specs.Prelude as lists;
    ghost use Rattle.std.specs.Prelude.{◌≤◌, length};
    ghost use Rattle.mpi_queues.specs.Arrivals.{Arrival};

    ghost Value = { lists.List Arrival };

    ghost view = { λ m. m.arrivals };

    ghost invariant = { λ m. length m.arrivals ≤ 4294967295 };
}

impl Mailbox {
    /// No arrival.
    pub fn new(alloc: Global) -> Mailbox
        ensures { result ≡ [] }
    {
        Mailbox {
            alloc,
            arrivals: List::new(alloc),
        }
    }

    /// These arrivals, in order.
    pub fn of(alloc: Global, list: List<(u16, Message)>) -> Mailbox
        requires { length list ≤ 4294967295 }
        ensures { result ≡ list }
    {
        Mailbox {
            alloc,
            arrivals: list,
        }
    }

    pub fn list(&self) -> &[(u16, Message)]
        ensures list { result.now ≡ self.now }
        ensures room { length self.now ≤ 4294967295 }
    {
        self.arrivals.as_slice()
    }

    /// A message arrives from a rank.
    pub fn arrive(&mut self, source: u16, m: Message) -> Result<(), NoMemory>
        ensures ok { OnOk result (self.new ≡ self.old ++ (source, m) ∷ []) }
        ensures err { OnErr result (self.new ≡ self.old) }
    {
        if self.arrivals.as_slice().len() == 4294967295 {
            return Err(NoMemory);
        }
        self.arrivals.push((source, m))
    }

    /// Takes out the arrival of the last of these patterns. Arrivals are given in order, each to the first that has none yet and matches.
    pub fn take(&mut self, patterns: &[Pattern]) -> Result<Option<(u16, Message)>, NoMemory>
        requires { 0 < length patterns.now }
        ensures given { IfOk result (λ got. option_map (λ a. record { taken = a; others = self.new }) got ≡ given patterns.now self.old) }
        ensures none { IfOk result (λ got. IfNone got (self.new ≡ self.old)) }
        ensures err { OnErr result (self.new ≡ self.old) }
    {
        match place(self.alloc, patterns, self.arrivals.as_slice())? {
            None => Ok(None),
            Some(at) => Ok(Some(self.arrivals.remove(at))),
        }
    }
}

// The place of the arrival that the last of the patterns has.
fn place(
    alloc: Global,
    patterns: &[Pattern],
    arrivals: &[(u16, Message)],
) -> Result<Option<usize>, NoMemory>
    ensures within { IfOk result (λ at. IfSome at (λ k. k < length arrivals.now)) }
    ensures given { IfOk result (λ at. given patterns.now arrivals.now ≡ option_and_then (taken_at arrivals.now) at) }
{
    let mut waiting = SmallVec::from_slice(alloc, patterns)?;
    for (at, arrival) in arrivals.iter().enumerate() {
        if give(&mut waiting, arrival) {
            return Ok(Some(at));
        }
    }
    Ok(None)
}

// Gives an arrival to the first open pattern that it fits. Says whether that is the last.
fn give(waiting: &mut SmallVec<Pattern, 4>, arrival: &(u16, Message)) -> bool
    ensures { open_after waiting.old.items arrival.now ≡ (if result then None else Some waiting.new.items) }
{
    match first_open(waiting.as_slice(), arrival) {
        None => false,
        Some(at) => {
            if at + 1 == waiting.len() {
                return true;
            }
            waiting.remove(at);
            false
        }
    }
}

// The place of the first pattern that an arrival fits.
fn first_open(waiting: &[Pattern], arrival: &(u16, Message)) -> Option<usize>
    ensures { result ≡ position (λ p. fits p arrival.now) waiting.now }
{
    waiting
        .iter()
        .position(|p| matches(p, arrival.0, &arrival.1))
}
