//! Waves, and what controls bring about.

ghost use Rattle.std.specs.Prelude.{◌≡◌, ◌<◌, ℕ, List, IfOk, OnOk, if◌then◌else◌};
ghost use Rattle.late_logs.specs.declared.entry.Entry.{Entry};
ghost use Rattle.mpi_words.specs.declared.control.Control.{Control as Told};
ghost use Rattle.core_laws.specs.Protocol.{Protocol, move_start};
ghost use Rattle.core_laws.specs.Handling.{handles};
ghost use Rattle.job_network.specs.Networks.{IsNet, Stands, told_each};
ghost use Rattle.job_network.specs.Controls.{may_start, handled, outcome, outcome_of, Obeys, Notes};

use crate::network::Network;
use c3_base::NoMemory;
use epoch_protocol::Told;
use late_logs::Log;
use mpi_words::Control;
use wave_commit::{Next, Started};

/// What a control comes to.
#[derive(Drop)]
pub enum Handled {
    Nothing,
    /// What the rank logged that stopped.
    Stopped(Log),
    /// The line that is committed.
    Committed(u16),
}

impl Network {
    /// Begins the wave of the next line, if it may begin. Says whether it does.
    pub fn start(&mut self) -> Result<bool, NoMemory>
        requires { Stands self.old (λ n p. 0 < n) }
        ensures { (n : ℕ) (p : Protocol) (logs : ℕ → List Entry) → IsNet n self.old p logs → 0 < n → IfOk result (λ began. (began ≡ may_start n p) × IsNet n self.new (if may_start n p then move_start p else p) logs) }
    {
        match self.wave.start(self.line) {
            Started::NotNow(_) => Ok(false),
            Started::Started => {
                self.tell_all(Control::Request(self.line + 1))?;
                Ok(true)
            }
        }
    }

    // Rank 0 tells every rank the same.
    fn tell_all(&mut self, control: Control) -> Result<(), NoMemory>
        requires { Stands self.old (λ n p. 0 < n) }
        ensures { (n : ℕ) (p : Protocol) (logs : ℕ → List Entry) → IsNet n self.old p logs → 0 < n → OnOk result (IsNet n self.new (told_each p 0 (λ x. control)) logs) }
    {
        let each = Vec::from_elem(*self.layers.allocator(), control, usize::from(self.ranks))?;
        self.tell(0, &each)
    }

    /// The oldest control from a rank is handled at another, after so many operations of that one.
    pub fn handle(&mut self, from: u16, to: u16, ops: u64) -> Result<Handled, NoMemory>
        requires { Stands self.old (λ n p. (from < n) × (to < n)) }
        ensures { (n : ℕ) (p : Protocol) (logs : ℕ → List Entry) → IsNet n self.old p logs → from < n → to < n → IfOk result (λ did. (did ≡ outcome_of n from to ops p logs (p.control from to)) × IsNet n self.new (handles n p from to (p.control from to)) logs) }
    {
        match self.controls.pop(from, to) {
            None => Ok(Handled::Nothing),
            Some(control) => self.take(from, to, control, ops),
        }
    }

    // A control that has left its channel is handled.
    fn take(&mut self, from: u16, to: u16, control: Control, ops: u64) -> Result<Handled, NoMemory>
        requires { Stands self.old (λ n p. (from < n) × (to < n)) }
        ensures { (n : ℕ) (p : Protocol) (logs : ℕ → List Entry) → IsNet n self.old p logs → from < n → to < n → IfOk result (λ did. (did ≡ outcome n from to ops p logs control) × IsNet n self.new (handled n p from to control) logs) }
    {
        match control {
            Control::Request(_) | Control::Count(_, _) | Control::Stop(_) => {
                self.obey(from, to, control, ops)
            }
            Control::Ready(_) | Control::Stopped(_) | Control::Restored => {
                self.note(from, to, control)
            }
        }
    }

    // A rank's layer obeys.
    fn obey(&mut self, from: u16, to: u16, control: Control, ops: u64) -> Result<Handled, NoMemory>
        requires stands { Stands self.old (λ n p. (from < n) × (to < n)) }
        requires obeys { Obeys control }
        ensures { (n : ℕ) (p : Protocol) (logs : ℕ → List Entry) → IsNet n self.old p logs → from < n → to < n → IfOk result (λ did. (did ≡ outcome n from to ops p logs control) × IsNet n self.new (handled n p from to control) logs) }
    {
        let layer = &mut self.layers[usize::from(to)];
        match layer.control(from, control) {
            Told::Nothing => Ok(Handled::Nothing),
            Told::SendReady => {
                let line = layer.epoch();
                self.controls.push(to, 0, Control::Ready(line))?;
                Ok(Handled::Nothing)
            }
            Told::StopNow => Ok(Handled::Stopped(self.stop(to, ops)?)),
        }
    }

    // Rank 0 notes what a rank tells.
    fn note(&mut self, from: u16, to: u16, control: Control) -> Result<Handled, NoMemory>
        requires stands { Stands self.old (λ n p. (from < n) × (to < n)) }
        requires notes { Notes control }
        ensures { (n ops : ℕ) (p : Protocol) (logs : ℕ → List Entry) → IsNet n self.old p logs → from < n → to < n → IfOk result (λ did. (did ≡ outcome n from to ops p logs control) × IsNet n self.new (handled n p from to control) logs) }
    {
        match self.wave.take(from, control) {
            Next::Nothing => Ok(Handled::Nothing),
            Next::TellStop(line) => {
                self.tell_all(Control::Stop(line))?;
                Ok(Handled::Nothing)
            }
            Next::Commit(line) => {
                self.line = line;
                Ok(Handled::Committed(line))
            }
        }
    }
}
