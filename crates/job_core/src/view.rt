//! How a job stands.

ghost use Rattle.std.specs.Prelude.{◌≡◌, ◌<◌, ◌&&◌, not, ℕ, false, is_some, slice_index_or};
ghost use Rattle.core_laws.specs.Core as definition;
ghost use Rattle.core_laws.specs.SessionEnd.{finished};
ghost use Rattle.job_network.specs.declared.member.Member.{Member as One};
ghost use Rattle.job_core.specs.Cores.{IsCore, StandsSo};
ghost use Rattle.job_core.specs.Views.{life_of};

use crate::job::Core;
use job_network::Process;
use mpi_words::End;

/// How a rank stands.
#[derive(Clone, Copy, PartialEq, Eq, Debug)]
pub enum Life {
    Running,
    Ended(End),
    /// It takes no part until the next restart, ended or not.
    Killed,
}

/// A rank as it is seen.
#[derive(Clone, Copy, PartialEq, Eq, Debug)]
pub struct View {
    pub state: Life,
    /// How many operations it has completed.
    pub ops: u64,
    /// How many bytes it has put out.
    pub bytes: u32,
}

impl<P: Process> Core<P> {
    /// Whether all ranks have ended and none is killed.
    pub fn finished(&self) -> bool
        requires { StandsSo P.ended P.bytes P.among P.serial P.turned P.answered P.again self.now.events self.now }
        ensures { (n : ℕ) (first : ℕ → ℕ) (c : definition.Core P) → IsCore P.ended P.bytes P.among n first self.now c → result ≡ finished (λ k. is_some (P.ended k.machine)) n c }
    {
        for rank in 0..self.network.ranks {
            if !self.has_ended(rank) {
                return false;
            }
        }
        true
    }

    // Whether a rank has ended and isn't killed.
    fn has_ended(&self, rank: u16) -> bool
        requires stands { StandsSo P.ended P.bytes P.among P.serial P.turned P.answered P.again self.now.events self.now }
        requires rank { rank < self.now.network.ranks }
        ensures { (n : ℕ) (first : ℕ → ℕ) (c : definition.Core P) → IsCore P.ended P.bytes P.among n first self.now c → result ≡ (not (c.killed rank) && is_some (P.ended (c.one rank).rank.machine)) }
    {
        !self.killed[usize::from(rank)] && self.members[usize::from(rank)].end.is_some()
    }

    /// The committed line.
    pub fn line(&self) -> u16
        ensures { result ≡ self.now.network.line }
    {
        self.network.line
    }

    /// A rank as it stands.
    pub fn view(&self, rank: u16) -> View
        requires stands { StandsSo P.ended P.bytes P.among P.serial P.turned P.answered P.again self.now.events self.now }
        requires rank { rank < self.now.network.ranks }
        ensures state { (m : One P) → result.state ≡ life_of (slice_index_or self.now.killed.items rank false) (slice_index_or self.now.members.items rank m).end }
        ensures ops { (m : One P) → result.ops ≡ (slice_index_or self.now.members.items rank m).ops }
        ensures bytes { (m : One P) → result.bytes ≡ (slice_index_or self.now.members.items rank m).bytes }
    {
        let member = &self.members[usize::from(rank)];
        View {
            state: stands(self.killed[usize::from(rank)], member.end),
            ops: member.ops,
            bytes: member.bytes,
        }
    }
}

// How a rank stands, by whether it is killed and how it has ended.
fn stands(killed: bool, end: Option<End>) -> Life
    ensures { result ≡ life_of killed end }
{
    match end {
        _ if killed => Life::Killed,
        None => Life::Running,
        Some(end) => Life::Ended(end),
    }
}
