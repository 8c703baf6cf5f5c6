//! All ranks of a job, and its events.

ghost use Rattle.std.specs.Prelude.{◌≡◌, ◌<◌, ℕ, [], nat_lt, not, ◌&&◌, slice_index_or, false, IfOk, OnOk};
ghost use Rattle.core_laws.specs.Core as definition;
ghost use Rattle.core_laws.specs.CoreEvents.{Single};
ghost use Rattle.core_laws.specs.CoreEvents as events;
ghost use Rattle.core_laws.specs.Process.{Ranks};
ghost use Rattle.core_laws.specs.Quiet.{Handle, Begin_wave};
ghost use Rattle.core_laws.specs.CoreTies.{Regular};
ghost use Rattle.job_core.specs.Effects.{written_by};
ghost use Rattle.job_core.specs.Cores.{IsCore, Comes, StandsSo};

use crate::effect::Effect;
use c3_base::NoMemory;
use job_network::{Handled, Member, Network, Process};
use mpi_words::List;
use std::alloc::Global;

/// The ranks and what stands between them.
#[derive(Drop)]
pub struct Core<P> {
    pub(crate) alloc: Global,
    pub members: Vec<Member<P>>,
    pub killed: Vec<bool>,
    pub network: Network,
    /// Since it began or was restarted.
    pub events: u32,
}

impl<P: Process> Core<P> {
    // A rank takes no part any more.
    pub(crate) fn kill(&mut self, rank: u16)
        requires few { self.old.events < 200000 }
        requires stands { StandsSo P.ended P.bytes P.among P.serial P.turned P.answered P.again self.old.events self.old }
        ensures comes { (turns : Ranks P) (n : ℕ) (first : ℕ → ℕ) (c : definition.Core P) → IsCore P.ended P.bytes P.among n first self.old c → Comes P.ended P.bytes P.among P.saved turns n first c (events.Kill rank) self.new [] }
        ensures stands { StandsSo P.ended P.bytes P.among P.serial P.turned P.answered P.again self.old.events self.new }
        ensures events { self.new.events ≡ self.old.events }
    {
        if rank < self.network.ranks {
            self.killed[usize::from(rank)] = true;
        }
    }

    // Rank 0 asks all ranks for a checkpoint, where a wave may begin.
    pub(crate) fn wave(&mut self) -> Result<(), NoMemory>
        requires few { self.old.events < 200000 }
        requires stands { StandsSo P.ended P.bytes P.among P.serial P.turned P.answered P.again self.old.events self.old }
        ensures comes { (turns : Ranks P) (n : ℕ) (first : ℕ → ℕ) (c : definition.Core P) → Regular n c → IsCore P.ended P.bytes P.among n first self.old c → OnOk result (Comes P.ended P.bytes P.among P.saved turns n first c (Single Begin_wave) self.new []) }
        ensures stands { OnOk result (StandsSo P.ended P.bytes P.among P.serial P.turned P.answered P.again self.old.events self.new) }
        ensures events { OnOk result (self.new.events ≡ self.old.events) }
    {
        if self.killed[0] {
            return Ok(());
        }
        self.network.start()?;
        Ok(())
    }

    // The oldest control from a rank to a rank is handled.
    pub(crate) fn control(&mut self, from: u16, to: u16) -> Result<List<Effect>, NoMemory>
        requires few { self.old.events < 200000 }
        requires stands { StandsSo P.ended P.bytes P.among P.serial P.turned P.answered P.again self.old.events self.old }
        ensures comes { (turns : Ranks P) (n : ℕ) (first : ℕ → ℕ) (c : definition.Core P) → IsCore P.ended P.bytes P.among n first self.old c → IfOk result (λ effects. Comes P.ended P.bytes P.among P.saved turns n first c (Single (Handle from to)) self.new effects) }
        ensures stands { OnOk result (StandsSo P.ended P.bytes P.among P.serial P.turned P.answered P.again self.old.events self.new) }
        ensures events { OnOk result (self.new.events ≡ self.old.events) }
    {
        if self.network.ranks <= from || !self.takes_part(to) {
            return Ok(List::new(self.alloc));
        }
        let ops = self.members[usize::from(to)].ops;
        let handled = self.network.handle(from, to, ops)?;
        effects_of(self.alloc, to, handled)
    }

    // Whether this is a rank, and isn't killed.
    pub(crate) fn takes_part(&self, rank: u16) -> bool
        requires { StandsSo P.ended P.bytes P.among P.serial P.turned P.answered P.again self.now.events self.now }
        ensures { result ≡ (nat_lt rank self.now.network.ranks && not (slice_index_or self.now.killed.items rank false)) }
    {
        rank < self.network.ranks && !self.killed[usize::from(rank)]
    }
}

// What a control writes.
fn effects_of(alloc: Global, rank: u16, handled: Handled) -> Result<List<Effect>, NoMemory>
    ensures { IfOk result (λ effects. effects ≡ written_by rank handled) }
{
    let mut effects = List::new(alloc);
    match handled {
        Handled::Nothing => {}
        Handled::Stopped(log) => effects.push(Effect::WriteLog { rank, log })?,
        Handled::Committed(line) => effects.push(Effect::Commit { line })?,
    }
    Ok(effects)
}
