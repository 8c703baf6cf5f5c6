//! Sweeps: what all channels hold at one moment.

ghost use Rattle.std.specs.Prelude as lists;
ghost use Rattle.std.specs.Prelude.{◌≡◌, ◌+◌, ◌<◌, ◌++◌, ℕ, length, slice_index_or, [], IfOk, OnOk};
ghost use Rattle.core_laws.specs.Core as definition;
ghost use Rattle.core_laws.specs.CoreEvents.{Single, times, row_events, pair_events, below};
ghost use Rattle.core_laws.specs.CoreEvents as events;
ghost use Rattle.core_laws.specs.CoreTies as ties;
ghost use Rattle.core_laws.specs.CoreTies.{Regular};
ghost use Rattle.core_laws.specs.Pausing.{stepping};
ghost use Rattle.core_laws.specs.PausingKept.{IsKeptPausing};
ghost use Rattle.core_laws.specs.Process.{Ranks};
ghost use Rattle.core_laws.specs.Quiet.{Event as Step};
ghost use Rattle.core_laws.specs.Ties.{Are};
ghost use Rattle.job_network.specs.Members.{stepping_of};
ghost use Rattle.job_core.specs.Cores.{IsCore, Comes, StandsSo};
ghost use Rattle.job_core.specs.Sweeping.{taken, Swept};

use crate::effect::Effect;
use crate::job::Core;
use c3_base::NoMemory;
use job_network::{Pairs, Process};
use mpi_words::List;
use std::alloc::Global;

// What goes from rank to rank.
#[derive(Clone, Copy)]
pub(crate) enum Traffic {
    Controls,
    Messages,
}

impl<P: Process> Core<P> {
    // All controls and then all messages that there are at its start arrive, by senders and then by receivers.
    pub(crate) fn sweep(&mut self) -> Result<List<Effect>, NoMemory>
        requires few { self.old.events < 200000 }
        requires stands { StandsSo P.ended P.bytes P.among P.serial P.turned P.answered P.again self.old.events self.old }
        ensures comes { (begin : ℕ → P) (n : ℕ) (first : ℕ → ℕ) (c : definition.Core P) → IsKeptPausing (stepping_of begin P.turned P.answered P.again) n c → IsCore P.ended P.bytes P.among n first self.old c → IfOk result (λ effects. Comes P.ended P.bytes P.among P.saved (stepping (stepping_of begin P.turned P.answered P.again)) n first c events.Sweep self.new effects) }
        ensures stands { OnOk result (StandsSo P.ended P.bytes P.among P.serial P.turned P.answered P.again self.old.events self.new) }
        ensures events { OnOk result (self.new.events ≡ self.old.events) }
    {
        let controls = lengths(self.alloc, self.network.ranks, &self.network.controls)?;
        let messages = lengths(self.alloc, self.network.ranks, &self.network.channels)?;
        let mut effects = List::new(self.alloc);
        self.pairs(Traffic::Controls, controls.as_slice(), &mut effects)?;
        self.pairs(Traffic::Messages, messages.as_slice(), &mut effects)?;
        Ok(effects)
    }

    // As many arrivals of each pair as are counted.
    fn pairs(
        &mut self,
        traffic: Traffic,
        counts: &[List<usize>],
        effects: &mut List<Effect>,
    ) -> Result<(), NoMemory>
        requires few { self.old.events < 200000 }
        requires stands { StandsSo P.ended P.bytes P.among P.serial P.turned P.answered P.again self.old.events self.old }
        requires counts { (count : ℕ → ℕ → ℕ) × ties.Pairs self.old.network.ranks counts.now count }
        ensures comes { (begin : ℕ → P) (n : ℕ) (first : ℕ → ℕ) (c : definition.Core P) (es : lists.List Step) (count : ℕ → ℕ → ℕ) → IsKeptPausing (stepping_of begin P.turned P.answered P.again) n c → ties.Pairs n counts.now count → Swept P.ended P.bytes P.among P.saved (stepping (stepping_of begin P.turned P.answered P.again)) n first c es self.old effects.old → OnOk result (Swept P.ended P.bytes P.among P.saved (stepping (stepping_of begin P.turned P.answered P.again)) n first c (es ++ pair_events n (taken traffic) count (below n)) self.new effects.new) }
        ensures stands { OnOk result (StandsSo P.ended P.bytes P.among P.serial P.turned P.answered P.again self.old.events self.new) }
        ensures events { OnOk result (self.new.events ≡ self.old.events) }
        ensures ranks { OnOk result (self.new.network.ranks ≡ self.old.network.ranks) }
    {
        for from in 0..self.network.ranks {
            self.row(traffic, from, counts[usize::from(from)].as_slice(), effects)?;
        }
        Ok(())
    }

    // As many arrivals from one rank at each rank as are counted.
    fn row(
        &mut self,
        traffic: Traffic,
        from: u16,
        counts: &[usize],
        effects: &mut List<Effect>,
    ) -> Result<(), NoMemory>
        requires few { self.old.events < 200000 }
        requires stands { StandsSo P.ended P.bytes P.among P.serial P.turned P.answered P.again self.old.events self.old }
        requires counts { length counts.now ≡ self.old.network.ranks }
        ensures comes { (begin : ℕ → P) (n : ℕ) (first : ℕ → ℕ) (c : definition.Core P) (es : lists.List Step) (count : ℕ → ℕ) → IsKeptPausing (stepping_of begin P.turned P.answered P.again) n c → Are n counts.now count → Swept P.ended P.bytes P.among P.saved (stepping (stepping_of begin P.turned P.answered P.again)) n first c es self.old effects.old → OnOk result (Swept P.ended P.bytes P.among P.saved (stepping (stepping_of begin P.turned P.answered P.again)) n first c (es ++ row_events (taken traffic from) count (below n)) self.new effects.new) }
        ensures stands { OnOk result (StandsSo P.ended P.bytes P.among P.serial P.turned P.answered P.again self.old.events self.new) }
        ensures events { OnOk result (self.new.events ≡ self.old.events) }
        ensures ranks { OnOk result (self.new.network.ranks ≡ self.old.network.ranks) }
    {
        for to in 0..self.network.ranks {
            self.times(traffic, from, to, counts[usize::from(to)], effects)?;
        }
        Ok(())
    }

    // So many arrivals from one rank at one rank.
    fn times(
        &mut self,
        traffic: Traffic,
        from: u16,
        to: u16,
        count: usize,
        effects: &mut List<Effect>,
    ) -> Result<(), NoMemory>
        requires few { self.old.events < 200000 }
        requires stands { StandsSo P.ended P.bytes P.among P.serial P.turned P.answered P.again self.old.events self.old }
        ensures comes { (begin : ℕ → P) (n : ℕ) (first : ℕ → ℕ) (c : definition.Core P) (es : lists.List Step) → IsKeptPausing (stepping_of begin P.turned P.answered P.again) n c → Swept P.ended P.bytes P.among P.saved (stepping (stepping_of begin P.turned P.answered P.again)) n first c es self.old effects.old → OnOk result (Swept P.ended P.bytes P.among P.saved (stepping (stepping_of begin P.turned P.answered P.again)) n first c (es ++ times count (taken traffic from to)) self.new effects.new) }
        ensures stands { OnOk result (StandsSo P.ended P.bytes P.among P.serial P.turned P.answered P.again self.old.events self.new) }
        ensures events { OnOk result (self.new.events ≡ self.old.events) }
        ensures ranks { OnOk result (self.new.network.ranks ≡ self.old.network.ranks) }
    {
        for _ in 0..count {
            let more = self.take(traffic, from, to)?;
            add(effects, more)?;
        }
        Ok(())
    }

    // One arrival from a rank at a rank, where there is one.
    fn take(&mut self, traffic: Traffic, from: u16, to: u16) -> Result<List<Effect>, NoMemory>
        requires few { self.old.events < 200000 }
        requires stands { StandsSo P.ended P.bytes P.among P.serial P.turned P.answered P.again self.old.events self.old }
        ensures comes { (turns : Ranks P) (n : ℕ) (first : ℕ → ℕ) (c : definition.Core P) → Regular n c → IsCore P.ended P.bytes P.among n first self.old c → IfOk result (λ effects. Comes P.ended P.bytes P.among P.saved turns n first c (Single (taken traffic from to)) self.new effects) }
        ensures stands { OnOk result (StandsSo P.ended P.bytes P.among P.serial P.turned P.answered P.again self.old.events self.new) }
        ensures events { OnOk result (self.new.events ≡ self.old.events) }
    {
        match traffic {
            Traffic::Controls => self.control(from, to),
            Traffic::Messages => self.deliver(from, to),
        }
    }
}

// Adds what an event has written, which is little.
fn add(effects: &mut List<Effect>, mut more: List<Effect>) -> Result<(), NoMemory>
    ensures { OnOk result (effects.new ≡ effects.old ++ more) }
{
    while !more.as_slice().is_empty() {
        effects.push(more.remove(0))?;
    }
    Ok(())
}

// How many items each pair has.
fn lengths<T: Drop>(
    alloc: Global,
    ranks: u16,
    pairs: &Pairs<T>,
) -> Result<List<List<usize>>, NoMemory>
    requires { (held : ℕ → ℕ → lists.List T) × ties.Pairs ranks pairs.now held }
    ensures { (held : ℕ → ℕ → lists.List T) → ties.Pairs ranks pairs.now held → IfOk result (λ counts. ties.Pairs ranks counts (λ from to. length (held from to))) }
{
    let mut rows = List::new(alloc);
    for from in 0..ranks {
        rows.push(row_lengths(alloc, ranks, pairs, from)?)?;
    }
    Ok(rows)
}

// How many items go from one rank to each.
fn row_lengths<T: Drop>(
    alloc: Global,
    ranks: u16,
    pairs: &Pairs<T>,
    from: u16,
) -> Result<List<usize>, NoMemory>
    requires pairs { (held : ℕ → ℕ → lists.List T) × ties.Pairs ranks pairs.now held }
    requires from { from < ranks }
    ensures { (held : ℕ → ℕ → lists.List T) → ties.Pairs ranks pairs.now held → IfOk result (λ row. Are ranks row (λ to. length (held from to))) }
{
    let mut row = List::new(alloc);
    for to in 0..ranks {
        row.push(pairs.len(from, to))?;
    }
    Ok(row)
}
