//! Layers, channels, controls and rank 0's wave of all ranks.

ghost use Rattle.std.specs.Prelude.{◌≡◌, ◌+◌, ◌<◌, ◌^◌, true, length, ℕ, suc, Option, Some, None, List, [], ◌∷◌, ◌++◌, IfOk, OnOk, MatchOption, if◌then◌else◌};
ghost use Rattle.mpi_words.specs.declared.control.Control.{Control as Told};
ghost use Rattle.mpi_words.specs.declared.control.Control.TheVariants.{Stop, Request};
ghost use Rattle.mpi_words.specs.declared.message.Message.{Message as Sent};
ghost use Rattle.late_logs.specs.declared.entry.Entry.{Entry};
ghost use Rattle.core_laws.specs.Rows.{set_at};
ghost use Rattle.core_laws.specs.Ties.{Are};
ghost use Rattle.core_laws.specs.Protocol.{Protocol, Packet, class_of, move_save, move_stop, move_arrive, move_tell_restored};
ghost use Rattle.core_laws.specs.Handling.{then_send, then_ready, then_stop, stops_on};
ghost use Rattle.core_laws.specs.Written.{log_more};
ghost use Rattle.epoch_protocol.specs.Layers.{log_of};
ghost use Rattle.job_network.specs.Networks.{IsNet, Stands, RoomToSend, RoomToArrive, told_each, log_at, logs_with, counted, Arrives};

use crate::queues::Pairs;
use c3_base::NoMemory;
use epoch_protocol::{Class, Layer, SendAs};
use late_logs::Log;
use mpi_words::{Control, Label, Message};
use std::alloc::Global;
use wave_commit::Wave;

/// What stands between the ranks.
#[derive(Drop)]
pub struct Network {
    pub ranks: u16,
    pub layers: Vec<Layer>,
    pub channels: Pairs<(Message, Label)>,
    pub controls: Pairs<Control>,
    /// The committed line.
    pub line: u16,
    pub wave: Wave,
}

/// What an arrival comes to.
#[derive(Drop)]
pub struct Arrived {
    pub message: Message,
    /// What the receiver logged, where it stopped.
    pub log: Option<Log>,
}

impl Network {
    /// A rank's send.
    pub fn send(&mut self, from: u16, to: u16, message: Message) -> Result<(), NoMemory>
        requires { Stands self.old (RoomToSend from to) }
        ensures { (n : ℕ) (p : Protocol) (logs : ℕ → List Entry) → IsNet n self.old p logs → from < n → to < n → OnOk result (IsNet n self.new (then_send p from to message) logs) }
    {
        match self.layers[usize::from(from)].send(to) {
            SendAs::Suppressed => Ok(()),
            SendAs::Out(label) => self.channels.push(from, to, (message, label)),
        }
    }

    /// Says Ready where it is due.
    pub fn ready(&mut self, rank: u16) -> Result<(), NoMemory>
        requires { Stands self.old (λ n p. rank < n) }
        ensures { (n : ℕ) (p : Protocol) (logs : ℕ → List Entry) → IsNet n self.old p logs → rank < n → OnOk result (IsNet n self.new (then_ready n p rank) logs) }
    {
        let layer = &mut self.layers[usize::from(rank)];
        if !layer.ready_due() {
            return Ok(());
        }
        let line = layer.epoch();
        self.controls.push(rank, 0, Control::Ready(line))
    }

    /// Ends a rank's log, after so many operations of the rank.
    pub fn stop(&mut self, rank: u16, ops: u64) -> Result<Log, NoMemory>
        requires { Stands self.old (λ n p. rank < n) }
        ensures { (n : ℕ) (p : Protocol) (logs : ℕ → List Entry) → IsNet n self.old p logs → rank < n → (p.layer rank).logging ≡ true → IfOk result (λ log. (log ≡ log_of n rank (p.layer rank).epoch ops (logs rank)) × IsNet n self.new (move_stop p rank) logs) }
    {
        let layer = &mut self.layers[usize::from(rank)];
        let line = layer.epoch();
        let log = layer.stop(ops);
        self.controls.push(rank, 0, Control::Stopped(line))?;
        Ok(log)
    }

    /// A rank's checkpoint for its next line.
    pub fn save(&mut self, rank: u16) -> Result<(), NoMemory>
        requires { Stands self.old (λ n p. (rank < n) × ((p.layer rank).epoch + 1 < 2 ^ 16)) }
        ensures { (n : ℕ) (p : Protocol) (logs : ℕ → List Entry) → IsNet n self.old p logs → rank < n → logs rank ≡ [] → OnOk result (IsNet n self.new (move_save p rank) logs) }
    {
        let counts = self.layers[usize::from(rank)].checkpoint()?;
        self.tell(rank, &counts)
    }

    /// Tells each rank something, by ranks.
    pub fn tell(&mut self, rank: u16, says: &[Control]) -> Result<(), NoMemory>
        requires { Stands self.old (λ n p. (rank < n) × (length says.now ≡ n)) }
        ensures { (n : ℕ) (p : Protocol) (logs : ℕ → List Entry) (its : ℕ → Told) → IsNet n self.old p logs → rank < n → Are n says.now its → OnOk result (IsNet n self.new (told_each p rank its) logs) }
    {
        for to in 0..self.ranks {
            self.controls.push(rank, to, says[usize::from(to)])?;
        }
        Ok(())
    }

    /// Tells rank 0 that a rank restores no more.
    pub fn tell_restored(&mut self, rank: u16) -> Result<(), NoMemory>
        requires { Stands self.old (λ n p. rank < n) }
        ensures { (n : ℕ) (p : Protocol) (logs : ℕ → List Entry) → IsNet n self.old p logs → rank < n → OnOk result (IsNet n self.new (move_tell_restored p rank) logs) }
    {
        self.controls.push(rank, 0, Control::Restored)
    }

    // A rank that logs stops where a message of its epoch says that its sender has.
    fn stop_on(&mut self, rank: u16, label: Label, ops: u64) -> Result<Option<Log>, NoMemory>
        requires { Stands self.old (λ n p. rank < n) }
        ensures { (n : ℕ) (p : Protocol) (logs : ℕ → List Entry) → IsNet n self.old p logs → rank < n → IfOk result (λ log. (log ≡ log_at n rank ops p logs label) × IsNet n self.new (if stops_on (p.layer rank) label then move_stop p rank else p) logs) }
    {
        match self.layers[usize::from(rank)].classify(label) {
            Class::IntraAndStopped => Ok(Some(self.stop(rank, ops)?)),
            _ => Ok(None),
        }
    }

    /// The oldest message from a rank arrives at another's layer, after so many operations of that one.
    pub fn arrive(&mut self, from: u16, to: u16, ops: u64) -> Result<Option<Arrived>, NoMemory>
        requires { Stands self.old (RoomToArrive from to) }
        ensures { (n : ℕ) (p : Protocol) (logs : ℕ → List Entry) → IsNet n self.old p logs → from < n → to < n → IfOk result (Arrives n from to ops p logs self.new) }
    {
        match self.channels.pop(from, to) {
            None => Ok(None),
            Some((message, label)) => {
                let log = self.take_in(from, to, label, &message, ops)?;
                Ok(Some(Arrived { message, log }))
            }
        }
    }

    // Counts a message that has left its channel.
    fn take_in(
        &mut self,
        from: u16,
        to: u16,
        label: Label,
        message: &Message,
        ops: u64,
    ) -> Result<Option<Log>, NoMemory>
        requires { Stands self.old (RoomToArrive from to) }
        ensures { (n : ℕ) (p : Protocol) (logs : ℕ → List Entry) → IsNet n self.old p logs → from < n → to < n → IfOk result (λ log. (log ≡ log_at n to ops p logs label) × IsNet n self.new (then_ready n (counted (then_stop p to (message.now, label)) from to label.epoch) to) (logs_with p logs from to label message.now)) }
    {
        let log = self.stop_on(to, label, ops)?;
        self.layers[usize::from(to)].arrive(from, label, message)?;
        self.ready(to)?;
        Ok(log)
    }
}
