//! One rank.

ghost use Rattle.std.specs.Prelude.{◌≡◌, ◌+◌, ◌<◌, ◌≤◌, ◌^◌, ℕ, not, length, Some, None, IfOk, OnOk};
ghost use Rattle.mpi_words.specs.declared.operation.Op.TheVariants.{Receive, Output};
ghost use Rattle.core_laws.specs.Process as ranks;
ghost use Rattle.core_laws.specs.Pausing.{step_turn};
ghost use Rattle.core_laws.specs.Replay.{Replaying, absorb, may_turn};
ghost use Rattle.core_laws.specs.Core.{restores, accepts, landed};
ghost use Rattle.core_laws.specs.CoreTies.{Running, IsRunning};
ghost use Rattle.job_network.specs.Wants.{Answers, FitsOp, IsMark, most_bytes};
ghost use Rattle.job_network.specs.Members.{begins_late, AtMark, IsCompleted, IsMember, MakesTurn, stepping_of, running_of};

use crate::process::Process;
use crate::queues::Queue;
use c3_base::NoMemory;
use late_logs::Entry;
use mpi_queues::Mailbox;
use mpi_words::{End, List, Message, Op, Patterns, Reply, Want};

/// What a turn did, beside its change of the rank.
#[derive(Drop)]
pub enum Did {
    Nothing,
    Sent { to: u16, message: Message },
    Printed(List<u8>),
    /// A receive was answered.
    Took,
    Marked,
}

/// A rank's machine, and what it has met.
#[derive(Drop)]
pub struct Member<P> {
    pub machine: P,
    pub mail: Mailbox,
    /// How many bytes it has put out.
    pub bytes: u32,
    /// How many operations it has completed.
    pub ops: u64,
    /// What is left of its log, where it restores.
    pub log: Queue<Entry>,
    /// How many operations of its log are left.
    pub left: u64,
    pub end: Option<End>,
}

impl<P> Member<P> {
    /// Whether it restores no more.
    pub fn is_back(&self) -> bool
        ensures { result ≡ not (restores self.now.log self.now.left) }
    {
        self.log.len() == 0 && self.left == 0
    }

    /// Whether it has a turn: one that has made the operations of its log waits for the arrivals that are left.
    pub fn may_turn(&self) -> bool
        ensures { result ≡ may_turn self.now.log self.now.left }
    {
        self.log.len() == 0 || 0 < self.left
    }

    /// Whether it takes a message of this rank.
    pub fn accepts(&self, source: u16) -> bool
        ensures { result ≡ accepts self.now.log self.now.left source }
    {
        match self.log.front() {
            None => self.left == 0,
            Some(Entry::Late { .. }) => false,
            Some(Entry::Intra { source: awaited }) => *awaited == source,
        }
    }

    /// A message arrives, by which a rank that restores goes on in its log.
    pub fn arrive(&mut self, source: u16, message: Message) -> Result<(), NoMemory>
        ensures lands { (v : Replaying P) → IsRunning (running_of self.old) v → OnOk result (IsRunning (running_of self.new) (landed v v.log source message)) }
        ensures same { OnOk result ((self.new.ops ≡ self.old.ops) × (self.new.end ≡ self.old.end)) }
    {
        self.mail.arrive(source, message)?;
        if self.log.pop().is_none() {
            return Ok(());
        }
        self.absorb()
    }

    // Whether the log goes on with a late entry.
    fn has_late(&self) -> bool
        ensures { result ≡ begins_late self.now.log }
    {
        matches!(self.log.front(), Some(Entry::Late { .. }))
    }

    // Late entries at the log's front arrive at once.
    fn absorb(&mut self) -> Result<(), NoMemory>
        ensures lands { (v : Replaying P) → IsRunning (running_of self.old) v → OnOk result (IsRunning (running_of self.new) (absorb v.left v.rank v.log)) }
        ensures same { OnOk result ((self.new.ops ≡ self.old.ops) × (self.new.end ≡ self.old.end)) }
    {
        while self.has_late() {
            if let Some(Entry::Late { source, message }) = self.log.pop() {
                self.mail.arrive(source, message)?;
            }
        }
        Ok(())
    }
}

impl<P: Process> Member<P> {
    /// One turn: local steps, and at most one operation.
    pub fn turn(&mut self) -> Result<Did, NoMemory>
        requires ops { self.old.ops + 1 < 2 ^ 64 }
        requires serial { P.serial self.old.machine < 2 ^ 62 }
        requires end { self.old.end ≡ P.ended self.old.machine }
        requires bytes { P.bytes self.old.machine ≡ self.old.bytes }
        ensures made { (n : ℕ) (begin : ℕ → P) (v : Replaying P) → IsMember P.ended P.bytes P.among n self.old v → IfOk result (λ did. MakesTurn P.ended P.bytes P.among n self.old.ops self.new did v (step_turn (stepping_of begin P.turned P.answered P.again) v.rank)) }
        ensures serial { IfOk result (λ did. P.serial self.new.machine ≤ P.serial self.old.machine + 2 ^ 25 + 2 ^ 17) }
        ensures marked { IfOk result (AtMark P.marked self.new.machine) }
    {
        if self.end.is_some() {
            return Ok(Did::Nothing);
        }
        match self.machine.turn(4096)? {
            Want::Paused => Ok(Did::Nothing),
            Want::Ended(end) => {
                self.end = Some(end);
                Ok(Did::Nothing)
            }
            Want::Wants(op) => self.operate(op),
        }
    }

    // Makes the operation that the machine wants, where it can be made.
    fn operate(&mut self, op: Op) -> Result<Did, NoMemory>
        requires ops { self.old.ops + 1 < 2 ^ 64 }
        requires pending { P.pending self.old.machine ≡ Some op }
        requires end { P.ended self.old.machine ≡ None }
        requires fits { (n : ℕ) × FitsOp n self.old.bytes op }
        ensures made { (n : ℕ) (v : Replaying P) → IsMember P.ended P.bytes P.among n self.old v → FitsOp n self.old.bytes op → IfOk result (λ did. MakesTurn P.ended P.bytes P.among n self.old.ops self.new did v (ranks.acted P.answered v.rank (ranks.Wants op))) }
        ensures serial { IfOk result (λ did. P.serial self.new.machine ≤ P.serial self.old.machine) }
        ensures marked { IfOk result (AtMark P.marked self.new.machine) }
    {
        match op {
            Op::Send { to, message } => {
                self.complete(Reply::Done)?;
                Ok(Did::Sent { to, message })
            }
            Op::Receive { patterns } => self.receive(&patterns),
            Op::Output(text) => self.print(text),
            Op::Mark => {
                self.complete(Reply::Done)?;
                Ok(Did::Marked)
            }
        }
    }

    // Gives the machine the arrival that its receive takes, if there is one.
    fn receive(&mut self, patterns: &Patterns) -> Result<Did, NoMemory>
        requires ops { self.old.ops + 1 < 2 ^ 64 }
        requires pending { P.pending self.old.machine ≡ Some (Receive patterns.now) }
        requires patterns { 0 < length patterns.now }
        ensures made { (n : ℕ) (v : Replaying P) → IsMember P.ended P.bytes P.among n self.old v → IfOk result (λ did. MakesTurn P.ended P.bytes P.among n self.old.ops self.new did v (ranks.acted P.answered v.rank (ranks.Wants (Receive patterns.now)))) }
        ensures serial { IfOk result (λ did. P.serial self.new.machine ≤ P.serial self.old.machine) }
        ensures marked { IfOk result (AtMark P.marked self.new.machine) }
    {
        match self.mail.take(patterns.as_slice())? {
            None => Ok(Did::Nothing),
            Some((source, message)) => {
                self.complete(Reply::Got { source, message })?;
                Ok(Did::Took)
            }
        }
    }

    // Puts out what the machine prints.
    fn print(&mut self, text: List<u8>) -> Result<Did, NoMemory>
        requires ops { self.old.ops + 1 < 2 ^ 64 }
        requires pending { P.pending self.old.machine ≡ Some (Output text) }
        requires bytes { self.old.bytes + length text ≤ most_bytes }
        ensures made { (n : ℕ) (v : Replaying P) → IsMember P.ended P.bytes P.among n self.old v → IfOk result (λ did. MakesTurn P.ended P.bytes P.among n self.old.ops self.new did v (ranks.acted P.answered v.rank (ranks.Wants (Output text)))) }
        ensures serial { IfOk result (λ did. P.serial self.new.machine ≤ P.serial self.old.machine) }
        ensures marked { IfOk result (AtMark P.marked self.new.machine) }
    {
        let count = text.as_slice().len() as u32;
        self.complete(Reply::Done)?;
        self.bytes += count;
        Ok(Did::Printed(text))
    }

    // Answers the machine, whose operation is complete then.
    fn complete(&mut self, reply: Reply) -> Result<(), NoMemory>
        requires ops { self.old.ops + 1 < 2 ^ 64 }
        requires reply { Answers (P.pending self.old.machine) reply }
        ensures completed { OnOk result (IsCompleted P.answered P.ended P.bytes P.among P.pending reply self.old self.new) }
        ensures serial { OnOk result (P.serial self.new.machine ≤ P.serial self.old.machine) }
        ensures marked { OnOk result (IsMark (P.pending self.old.machine) → P.marked self.new.machine) }
    {
        self.end = self.machine.answer(reply)?;
        self.ops += 1;
        self.left = self.left.saturating_sub(1);
        Ok(())
    }
}
