//! The messages of each ordered pair of ranks.

ghost use Rattle.std.specs.Prelude.{◌≡◌, ◌<◌, [], length, replicate, IfOk, IfNone, OnErr, OnOk, IfSome, option_and_then, option_map};
ghost use Rattle.mpi_queues.specs.Pairs.{none_sent, sent, taken, taken_from};

use crate::queue::Queue;
use c3_base::NoMemory;
use mpi_words::{Message, Pattern};
use std::alloc::Global;
use std::marker::Model;

/// One list of messages for each ordered pair of ranks, a rank with itself included.
#[derive(Drop)]
pub struct Channels {
    ranks: u16,
    rows: Vec<Vec<Queue>>,
}

impl Model for Channels {
    ghost use Rattle.std.specs.Prelude.{◌≡◌, length, map};
    ghost use Rattle.mpi_queues.specs.Pairs.{Queues, IsSquare};

    ghost Value = { Queues };

    ghost view = { λ c. map (λ row. row.items) c.rows.items };

    ghost invariant = { λ c. IsSquare c.ranks (map (λ row. row.items) c.rows.items) };
}

impl Channels {
    /// So many ranks, and no message.
    pub fn new(alloc: Global, n: u16) -> Result<Channels, NoMemory>
        ensures { IfOk result (λ channels. channels ≡ none_sent n) }
    {
        let mut rows = Vec::new(alloc);
        for _ in 0..n {
            rows.push(row(alloc, n)?)?;
        }
        Ok(Channels { ranks: n, rows })
    }

    /// How many ranks there are.
    pub fn ranks(&self) -> u16
        ensures { result ≡ length self.now }
    {
        self.ranks
    }

    /// Adds a message at the end of its pair's list.
    pub fn send(&mut self, from: u16, to: u16, m: Message) -> Result<(), NoMemory>
        requires from { from < length self.old }
        requires to { to < length self.old }
        ensures ranks { length self.new ≡ length self.old }
        ensures ok { OnOk result (self.new ≡ sent self.old from to m) }
        ensures err { OnErr result (self.new ≡ self.old) }
    {
        self.rows[usize::from(to)][usize::from(from)].push(m)?;
        Ok(())
    }

    /// Takes out the first match of the lowest source that has one.
    pub fn take(&mut self, to: u16, p: &Pattern) -> Option<(u16, Message)>
        requires { to < length self.old }
        ensures ranks { length self.new ≡ length self.old }
        ensures taken { option_map (λ got. record { source = got.0; message = got.1; queues = self.new }) result ≡ taken self.old to p.now }
        ensures none { IfNone result (self.new ≡ self.old) }
    {
        let from = self.find(to, p)?;
        let message = self.rows[usize::from(to)][usize::from(from)].take(p, from)?;
        Some((from, message))
    }

    // The lowest source that has a match.
    fn find(&self, to: u16, p: &Pattern) -> Option<u16>
        requires { to < length self.now }
        ensures rank { IfSome result (λ from. from < length self.now) }
        ensures lowest { taken self.now to p.now ≡ option_and_then (taken_from self.now to p.now) result }
    {
        for from in 0..self.ranks {
            if self.rows[usize::from(to)][usize::from(from)]
                .place(p, from)
                .is_some()
            {
                return Some(from);
            }
        }
        None
    }
}

// What so many ranks have sent to a rank: nothing.
fn row(alloc: Global, n: u16) -> Result<Vec<Queue>, NoMemory>
    ensures { IfOk result (λ row. row.items ≡ replicate n []) }
{
    let mut row = Vec::new(alloc);
    for _ in 0..n {
        row.push(Queue::new(alloc))?;
    }
    Ok(row)
}
