//! A rank's log.

ghost use Rattle.std.specs.Prelude.{◌≡◌, IfOk};

use crate::entry::Entry;
use c3_base::NoMemory;
use mpi_words::List;
use std::alloc::Global;

/// What one rank logged for a line.
#[derive(Debug, Drop)]
pub struct Log {
    /// How many ranks the job has.
    pub ranks: u16,
    pub rank: u16,
    pub line: u16,
    /// How many operations the rank had completed at its stop, since the program's beginning.
    pub stop: u64,
    pub entries: List<Entry>,
}

impl Log {
    /// An equal log.
    pub fn copy(&self, alloc: Global) -> Result<Self, NoMemory>
        ensures { IfOk result (λ copy. copy ≡ self.now) }
    {
        Ok(Log {
            ranks: self.ranks,
            rank: self.rank,
            line: self.line,
            stop: self.stop,
            entries: copies(alloc, self.entries.as_slice())?,
        })
    }
}

// Equal entries.
fn copies(alloc: Global, entries: &[Entry]) -> Result<List<Entry>, NoMemory>
    ensures { IfOk result (λ copies. copies ≡ entries.now) }
{
    let mut copies = List::new(alloc);
    for entry in entries {
        copies.push(entry.copy()?)?;
    }
    Ok(copies)
}
