//! Deliveries.

ghost use Rattle.std.specs.Prelude.{◌≡◌, ◌+◌, ◌<◌, ℕ, true, List, length, IfOk, OnOk};
ghost use Rattle.late_logs.specs.declared.entry.Entry.{Entry};
ghost use Rattle.core_laws.specs.Protocol.{Protocol};
ghost use Rattle.core_laws.specs.Core as definition;
ghost use Rattle.core_laws.specs.Core.{then_restored};
ghost use Rattle.core_laws.specs.CoreEvents.{Single};
ghost use Rattle.core_laws.specs.Process.{Ranks};
ghost use Rattle.core_laws.specs.Quiet.{Deliver};
ghost use Rattle.core_laws.specs.Replay.{Replaying};
ghost use Rattle.core_laws.specs.Ties.{AreBy};
ghost use Rattle.core_laws.specs.CoreTies.{Regular, logs_of};
ghost use Rattle.job_network.specs.declared.network.Network.{Network as Net};
ghost use Rattle.job_network.specs.Members.{IsMember};
ghost use Rattle.job_network.specs.Networks.{IsNet, Stands, HasArrived};
ghost use Rattle.job_core.specs.Effects.{logged_by};
ghost use Rattle.job_core.specs.Cores.{IsCore, Comes, HasMet, StandsSo, Stay, awaits};

use crate::effect::Effect;
use crate::job::Core;
use c3_base::NoMemory;
use job_network::{Arrived, Network, Process};
use late_logs::Log;
use mpi_words::{List, Message};
use std::alloc::Global;

impl<P: Process> Core<P> {
    // The oldest message from a rank to a rank arrives, where that one takes it.
    pub(crate) fn deliver(&mut self, from: u16, to: u16) -> Result<List<Effect>, NoMemory>
        requires few { self.old.events < 200000 }
        requires stands { StandsSo P.ended P.bytes P.among P.serial P.turned P.answered P.again self.old.events self.old }
        ensures comes { (turns : Ranks P) (n : ℕ) (first : ℕ → ℕ) (c : definition.Core P) → Regular n c → IsCore P.ended P.bytes P.among n first self.old c → IfOk result (λ effects. Comes P.ended P.bytes P.among P.saved turns n first c (Single (Deliver from to)) self.new effects) }
        ensures stands { OnOk result (StandsSo P.ended P.bytes P.among P.serial P.turned P.answered P.again self.old.events self.new) }
        ensures events { OnOk result (self.new.events ≡ self.old.events) }
    {
        if self.network.ranks <= from || !self.awaits(from, to) {
            return Ok(List::new(self.alloc));
        }
        let ops = self.members[usize::from(to)].ops;
        match self.network.arrive(from, to, ops)? {
            None => Ok(List::new(self.alloc)),
            Some(arrived) => self.land(from, to, arrived),
        }
    }

    // Whether a rank takes part and a message of another.
    fn awaits(&self, from: u16, to: u16) -> bool
        requires { StandsSo P.ended P.bytes P.among P.serial P.turned P.answered P.again self.now.events self.now }
        ensures { (n : ℕ) (first : ℕ → ℕ) (c : definition.Core P) → IsCore P.ended P.bytes P.among n first self.now c → result ≡ awaits n c from to }
    {
        self.takes_part(to) && self.members[usize::from(to)].accepts(from)
    }

    // A message that has left its channel lands at its rank, whose log is written where it stopped.
    fn land(&mut self, from: u16, to: u16, arrived: Arrived) -> Result<List<Effect>, NoMemory>
        requires size { to < length self.old.members.items }
        requires stands { Stands self.old.network (λ n p. to < n) }
        ensures comes { (turns : Ranks P) (n ops : ℕ) (first : ℕ → ℕ) (c : definition.Core P) (net : Net) → Regular n c → IsCore P.ended P.bytes P.among n first (record self.old { network = net }) c → from < n → awaits n c from to ≡ true → ((c.protocol.layer to).logging ≡ true → ops ≡ first to + (c.written to).ops) → HasArrived n from to ops c.protocol (logs_of c) self.old.network arrived → IfOk result (λ effects. Comes P.ended P.bytes P.among P.saved turns n first c (Single (Deliver from to)) self.new effects) }
        ensures stay { (n : ℕ) (one : ℕ → Replaying P) (p : Protocol) (logs : ℕ → List Entry) → AreBy (IsMember P.ended P.bytes P.among n) n self.old.members.items one → IsNet n self.old.network p logs → to < n → OnOk result (Stay n self.old.members.items self.new.members.items) }
        ensures events { OnOk result (self.new.events ≡ self.old.events) }
    {
        self.meet(from, to, arrived.message)?;
        logged(self.alloc, to, arrived.log)
    }

    // A message joins its rank's mailbox, which may end the rank's replay.
    fn meet(&mut self, from: u16, to: u16, message: Message) -> Result<(), NoMemory>
        requires size { to < length self.old.members.items }
        requires stands { Stands self.old.network (λ n p. to < n) }
        ensures met { (n : ℕ) (one : ℕ → Replaying P) (p : Protocol) (logs : ℕ → List Entry) → AreBy (IsMember P.ended P.bytes P.among n) n self.old.members.items one → IsNet n self.old.network p logs → to < n → OnOk result (HasMet P.ended P.bytes P.among n from to message one p logs self.old self.new) }
        ensures events { OnOk result (self.new.events ≡ self.old.events) }
    {
        let member = &mut self.members[usize::from(to)];
        let was_back = member.is_back();
        member.arrive(from, message)?;
        let is_back = member.is_back();
        tell_back(&mut self.network, to, was_back, is_back)
    }
}

// A rank that restores no more tells rank 0.
pub(crate) fn tell_back(
    network: &mut Network,
    rank: u16,
    was: bool,
    now: bool,
) -> Result<(), NoMemory>
    requires { Stands network.old (λ n p. rank < n) }
    ensures { (n : ℕ) (p : Protocol) (logs : ℕ → List Entry) → IsNet n network.old p logs → rank < n → OnOk result (IsNet n network.new (then_restored was now p rank) logs) }
{
    if !was && now {
        return network.tell_restored(rank);
    }
    Ok(())
}

// What an arrival writes.
fn logged(alloc: Global, rank: u16, log: Option<Log>) -> Result<List<Effect>, NoMemory>
    ensures { IfOk result (λ effects. effects ≡ logged_by rank log) }
{
    let mut effects = List::new(alloc);
    if let Some(log) = log {
        effects.push(Effect::WriteLog { rank, log })?;
    }
    Ok(effects)
}
