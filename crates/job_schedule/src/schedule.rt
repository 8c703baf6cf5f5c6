ghost use Rattle.std.specs.Prelude.{◌≡◌, ◌*◌, ◌<◌, ◌≤◌, ◌^◌, ◌++◌, length, IfOk, OnOk};
ghost use Rattle.job_schedule.specs.Events.{count_of, entry_events, events_of, total_of, word_events};

use c3_base::NoMemory;
use job_core::Event;
use std::marker::Model;

/// What a word stands for, without its repeats.
#[derive(Clone, Copy)]
pub enum Word {
    One(Event),
    /// A turn of each rank, from rank 0 on, and then a sweep.
    Round,
}

/// What a word stands for, and how many times in a row.
#[derive(Clone, Copy)]
pub struct Entry {
    pub what: Word,
    pub repeats: u32,
}

impl Word {
    /// Adds the events for `n` ranks.
    fn add_events(self, n: u16, events: &mut Vec<Event>) -> Result<(), NoMemory>
        ensures { OnOk result (events.new.items ≡ events.old.items ++ word_events n self) }
    {
        match self {
            Word::One(event) => events.push(event)?,
            Word::Round => {
                for rank in 0..n {
                    events.push(Event::Turn(rank))?;
                }
                events.push(Event::Sweep)?;
            }
        }
        Ok(())
    }
}

impl Entry {
    /// What the entry counts as. A round counts as 65, whatever the number of ranks.
    pub(crate) fn count(self) -> u64
        ensures value { result ≡ count_of self }
        ensures small { result < 2 ^ 39 }
    {
        let each = match self.what {
            Word::One(_) => 1,
            Word::Round => 65,
        };
        each * u64::from(self.repeats)
    }

    /// Adds the events for `n` ranks.
    fn add_events(self, n: u16, events: &mut Vec<Event>) -> Result<(), NoMemory>
        ensures { OnOk result (events.new.items ≡ events.old.items ++ entry_events n self) }
    {
        for _ in 0..self.repeats {
            self.what.add_events(n, events)?;
        }
        Ok(())
    }
}

/// The entries of a schedule in order. They count as at most 200,000 events.
#[derive(Drop)]
pub struct Schedule {
    entries: Vec<Entry>,
}

impl Model for Schedule {
    ghost use Rattle.std.specs.Prelude.{List, ◌≤◌};
    ghost use Rattle.job_schedule.specs.declared.schedule.Entry as declared;
    ghost use Rattle.job_schedule.specs.Events.{total_of};

    ghost Value = { List declared.Entry };

    ghost view = { λ s. s.entries.items };

    ghost invariant = { λ s. total_of s.entries.items ≤ 200000 };
}

impl Schedule {
    pub(crate) fn new(entries: Vec<Entry>) -> Self
        requires { total_of entries.items ≤ 200000 }
        ensures { result ≡ entries.items }
    {
        Schedule { entries }
    }

    /// The events for `n` ranks.
    pub fn events(&self, n: u16) -> Result<Vec<Event>, NoMemory>
        ensures events { IfOk result (λ events. events.items ≡ events_of n self.now) }
        // A round counts as 65 events, and 64 ranks have no more in it.
        ensures few { n ≤ 64 → IfOk result (λ events. length events.items ≤ 200000) }
    {
        let entries: &[Entry] = &self.entries;
        let mut events = Vec::new(*self.entries.allocator());
        for entry in entries {
            entry.add_events(n, &mut events)?;
        }
        Ok(events)
    }
}
