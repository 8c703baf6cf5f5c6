//! Images.

ghost use Rattle.std.specs.Prelude.{◌≡◌, IfOk};

use crate::state::RankState;
use c3_base::NoMemory;
use mpi_words::{List, Message};
use std::alloc::Global;

/// What one rank saves at a checkpoint.
#[derive(Drop)]
pub struct Image {
    /// How many ranks the job has.
    pub ranks: u16,
    pub rank: u16,
    pub line: u16,
    /// How many operations the rank has completed since the program's beginning.
    pub ops: u64,
    pub state: RankState,
    /// The messages that came and weren't taken, each with its sender, in order of arrival.
    pub mailbox: List<(u16, Message)>,
    /// How many messages of the next epoch came from each rank.
    pub early: List<u32>,
}

impl Image {
    /// An equal image.
    pub fn copy(&self, alloc: Global) -> Result<Self, NoMemory>
        ensures { IfOk result (λ copy. copy ≡ self.now) }
    {
        Ok(Image {
            ranks: self.ranks,
            rank: self.rank,
            line: self.line,
            ops: self.ops,
            state: self.state.copy(alloc)?,
            mailbox: copies(alloc, self.mailbox.as_slice())?,
            early: self.early.copy()?,
        })
    }
}

// Equal arrivals.
fn copies(alloc: Global, arrivals: &[(u16, Message)]) -> Result<List<(u16, Message)>, NoMemory>
    ensures { IfOk result (λ copies. copies ≡ arrivals.now) }
{
    let mut copies = List::new(alloc);
    for arrival in arrivals {
        copies.push((arrival.0, arrival.1.copy()?))?;
    }
    Ok(copies)
}
