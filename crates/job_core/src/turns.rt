//! Turns.

ghost use Rattle.std.specs.Prelude.{◌≡◌, ◌+◌, ◌<◌, ◌^◌, ◌∷◌, [], true, ℕ, suc, List, IfOk, OnOk};
ghost use Rattle.late_logs.specs.declared.entry.Entry.{Entry};
ghost use Rattle.mpi_queues.specs.Arrivals.{Arrival};
ghost use Rattle.core_laws.specs.Process.{Rank, Turned, Marked};
ghost use Rattle.core_laws.specs.Pausing.{stepping, step_turn};
ghost use Rattle.core_laws.specs.Protocol.{Protocol};
ghost use Rattle.core_laws.specs.Handling.{then_ready};
ghost use Rattle.core_laws.specs.Protocol.{move_save};
ghost use Rattle.core_laws.specs.Core as definition;
ghost use Rattle.core_laws.specs.CoreEvents.{Single};
ghost use Rattle.core_laws.specs.Quiet.{Turn};
ghost use Rattle.core_laws.specs.Replay.{Replaying};
ghost use Rattle.core_laws.specs.Effects.{Saves};
ghost use Rattle.core_laws.specs.CoreTies.{EachIs, Regular};
ghost use Rattle.job_network.specs.Members.{AtMark, GoesTo, MakesTurn, stepping_of};
ghost use Rattle.job_network.specs.Networks.{IsNet, Stands};
ghost use Rattle.job_core.specs.Effects.{IsEffect, IsImage};
ghost use Rattle.job_core.specs.Cores.{IsCore, Comes, StandsSo};
ghost use Rattle.job_core.specs.Turns.{StandsWith, MaySave, RoomToTurn, HasFollowed, HasTurned, has_turn, output_of};

use crate::effect::Effect;
use crate::job::Core;
use crate::moves::tell_back;
use c3_base::NoMemory;
use image_text::Image;
use job_network::{Did, Member, Network, Process};
use mpi_words::{List, Message};
use std::alloc::Global;

impl<P: Process> Core<P> {
    // One turn of a rank: local steps, and at most one operation.
    pub(crate) fn turn(&mut self, rank: u16) -> Result<List<Effect>, NoMemory>
        requires few { self.old.events < 200000 }
        requires stands { StandsSo P.ended P.bytes P.among P.serial P.turned P.answered P.again self.old.events self.old }
        ensures comes { (begin : ℕ → P) (n : ℕ) (first : ℕ → ℕ) (c : definition.Core P) → Regular n c → IsCore P.ended P.bytes P.among n first self.old c → IfOk result (λ effects. Comes P.ended P.bytes P.among P.saved (stepping (stepping_of begin P.turned P.answered P.again)) n first c (Single (Turn rank)) self.new effects) }
        ensures stands { OnOk result (StandsSo P.ended P.bytes P.among P.serial P.turned P.answered P.again (suc self.old.events) self.new) }
        ensures events { OnOk result (self.new.events ≡ self.old.events) }
    {
        if !self.has_turn(rank) {
            return Ok(List::new(self.alloc));
        }
        self.run(rank)
    }

    // Whether a rank takes part and has a turn.
    fn has_turn(&self, rank: u16) -> bool
        requires { StandsSo P.ended P.bytes P.among P.serial P.turned P.answered P.again self.now.events self.now }
        ensures { (n : ℕ) (first : ℕ → ℕ) (c : definition.Core P) → IsCore P.ended P.bytes P.among n first self.now c → result ≡ has_turn n c rank }
    {
        self.takes_part(rank) && self.members[usize::from(rank)].may_turn()
    }

    // A rank's turn, and what follows from it.
    fn run(&mut self, rank: u16) -> Result<List<Effect>, NoMemory>
        requires few { self.old.events < 200000 }
        requires stands { StandsSo P.ended P.bytes P.among P.serial P.turned P.answered P.again self.old.events self.old }
        requires inside { rank < self.old.network.ranks }
        ensures turned { (begin : ℕ → P) (n : ℕ) (first : ℕ → ℕ) (c : definition.Core P) → Regular n c → IsCore P.ended P.bytes P.among n first self.old c → IfOk result (HasTurned P.ended P.bytes P.among P.serial P.saved n rank c (step_turn (stepping_of begin P.turned P.answered P.again) (c.one rank).rank) self.old self.new) }
        ensures events { OnOk result (self.new.events ≡ self.old.events) }
    {
        // the line's range bounds the counters
        let _line = self.network.line;
        let member = &mut self.members[usize::from(rank)];
        let was_back = member.is_back();
        let did = member.turn()?;
        let is_back = member.is_back();
        let effects = follow(self.alloc, &mut self.network, member, rank, did)?;
        tell_back(&mut self.network, rank, was_back, is_back)?;
        Ok(effects)
    }
}

// What follows from what a rank did.
fn follow<P: Process>(
    alloc: Global,
    network: &mut Network,
    member: &Member<P>,
    rank: u16,
    did: Did,
) -> Result<List<Effect>, NoMemory>
    requires marked { AtMark P.marked member.now.machine did }
    requires stands { StandsWith network.old (λ n p logs. RoomToTurn rank n p logs × GoesTo n did) }
    ensures { (n ops : ℕ) (p : Protocol) (logs : ℕ → List Entry) (v : Replaying P) (t : Turned P) → MakesTurn P.ended P.bytes P.among n ops member.now did v t → IsNet n network.old p logs → rank < n → ((p.layer rank).asked ≡ true → logs rank ≡ []) → IfOk result (HasFollowed P.saved n rank p logs v.rank.output t.rank t.did member.now.ops network.new) }
{
    match did {
        Did::Nothing | Did::Took => Ok(List::new(alloc)),
        Did::Sent { to, message } => {
            network.send(rank, to, message)?;
            Ok(List::new(alloc))
        }
        Did::Printed(bytes) => printed(alloc, rank, bytes),
        Did::Marked => mark(alloc, network, member, rank),
    }
}

// What a print writes.
fn printed(alloc: Global, rank: u16, bytes: List<u8>) -> Result<List<Effect>, NoMemory>
    ensures { IfOk result (λ effects. effects ≡ output_of rank bytes) }
{
    if bytes.as_slice().is_empty() {
        return Ok(List::new(alloc));
    }
    one(alloc, Effect::Output { rank, bytes })
}

// At a mark a rank saves that was asked to.
fn mark<P: Process>(
    alloc: Global,
    network: &mut Network,
    member: &Member<P>,
    rank: u16,
) -> Result<List<Effect>, NoMemory>
    requires marked { P.marked member.now.machine }
    requires stands { StandsWith network.old (λ n p logs. (rank < n) × ((p.layer rank).asked ≡ true → MaySave rank p logs)) }
    ensures { (n : ℕ) (p : Protocol) (logs : ℕ → List Entry) (before : List ℕ) (k : Rank P) → IsNet n network.old p logs → rank < n → ((p.layer rank).asked ≡ true → logs rank ≡ []) → member.now.machine ≡ k.machine → member.now.mail ≡ k.mail → IfOk result (HasFollowed P.saved n rank p logs before k Marked member.now.ops network.new) }
{
    if !network.layers[usize::from(rank)].asked() {
        return Ok(List::new(alloc));
    }
    let effects = saved(alloc, network, member, rank)?;
    begin_epoch(network, rank)?;
    Ok(effects)
}

// A rank's save: the next epoch begins, of which it may be ready.
fn begin_epoch(network: &mut Network, rank: u16) -> Result<(), NoMemory>
    requires { StandsWith network.old (λ n p logs. (rank < n) × MaySave rank p logs) }
    ensures { (n : ℕ) (p : Protocol) (logs : ℕ → List Entry) → IsNet n network.old p logs → rank < n → logs rank ≡ [] → OnOk result (IsNet n network.new (then_ready n (move_save p rank) rank) logs) }
{
    network.save(rank)?;
    network.ready(rank)
}

// What a save writes.
fn saved<P: Process>(
    alloc: Global,
    network: &Network,
    member: &Member<P>,
    rank: u16,
) -> Result<List<Effect>, NoMemory>
    requires marked { P.marked member.now.machine }
    requires stands { Stands network.now (λ n p. (rank < n) × ((p.layer rank).epoch + 1 < 2 ^ 16)) }
    ensures { (n : ℕ) (p : Protocol) (logs : ℕ → List Entry) (k : Rank P) (line first : ℕ → ℕ) → IsNet n network.now p logs → rank < n → member.now.machine ≡ k.machine → member.now.mail ≡ k.mail → line rank ≡ suc (p.layer rank).epoch → first rank ≡ member.now.ops → IfOk result (λ effects. EachIs (IsEffect P.saved n line first) effects (Saves rank k (p.layer rank).early ∷ [])) }
{
    let image = image_of(alloc, network, member, rank)?;
    one(alloc, Effect::Save { rank, image })
}

// A rank's image for its next line.
fn image_of<P: Process>(
    alloc: Global,
    network: &Network,
    member: &Member<P>,
    rank: u16,
) -> Result<Image, NoMemory>
    requires marked { P.marked member.now.machine }
    requires stands { Stands network.now (λ n p. (rank < n) × ((p.layer rank).epoch + 1 < 2 ^ 16)) }
    ensures { (n : ℕ) (p : Protocol) (logs : ℕ → List Entry) (k : Rank P) → IsNet n network.now p logs → rank < n → member.now.machine ≡ k.machine → member.now.mail ≡ k.mail → IfOk result (λ image. IsImage P.saved n rank (suc (p.layer rank).epoch) member.now.ops image k (p.layer rank).early) }
{
    let layer = &network.layers[usize::from(rank)];
    let mailbox = arrivals(alloc, member.mail.list())?;
    let early = counts(alloc, layer.early())?;
    Ok(Image {
        ranks: network.ranks,
        rank,
        line: layer.epoch() + 1,
        ops: member.ops,
        state: member.machine.save(alloc)?,
        mailbox,
        early,
    })
}

// Equal arrivals.
fn arrivals(alloc: Global, list: &[(u16, Message)]) -> Result<List<(u16, Message)>, NoMemory>
    ensures { IfOk result (λ arrivals. arrivals ≡ list.now) }
{
    let mut arrivals = List::new(alloc);
    for arrival in list {
        arrivals.push((arrival.0, arrival.1.copy()?))?;
    }
    Ok(arrivals)
}

// Equal counts.
fn counts(alloc: Global, list: &[u32]) -> Result<List<u32>, NoMemory>
    ensures { IfOk result (λ counts. counts ≡ list.now) }
{
    let mut counts = List::new(alloc);
    for count in list {
        counts.push(*count)?;
    }
    Ok(counts)
}

// One effect.
fn one(alloc: Global, effect: Effect) -> Result<List<Effect>, NoMemory>
    ensures { IfOk result (λ effects. effects ≡ effect ∷ []) }
{
    let mut effects = List::new(alloc);
    effects.push(effect)?;
    Ok(effects)
}
