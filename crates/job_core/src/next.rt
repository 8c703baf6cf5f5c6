//! The events of a job.

ghost use Rattle.std.specs.Prelude.{◌≡◌, ◌<◌, ℕ, suc, IfOk, OnOk};
ghost use Rattle.core_laws.specs.Core as definition;
ghost use Rattle.core_laws.specs.CoreEvents.{Core_event};
ghost use Rattle.core_laws.specs.Pausing.{stepping};
ghost use Rattle.core_laws.specs.PausingKept.{IsKeptPausing};
ghost use Rattle.job_network.specs.Members.{stepping_of};
ghost use Rattle.job_core.specs.declared.event.Event.TheVariants as given;
ghost use Rattle.job_core.specs.Cores.{IsCore, Comes, EventIs, StandsSo};

use crate::effect::Effect;
use crate::event::Event;
use crate::job::Core;
use c3_base::NoMemory;
use job_network::Process;
use mpi_words::List;

impl<P: Process> Core<P> {
    /// What an event comes to, and what it writes. Want of memory gives the core up.
    pub fn event(&mut self, event: &Event) -> Result<List<Effect>, NoMemory>
        requires few { self.old.events < 200000 }
        requires stands { StandsSo P.ended P.bytes P.among P.serial P.turned P.answered P.again self.old.events self.old }
        requires given { event.now ≡ given.Restart → ⊥ }
        ensures comes { (begin : ℕ → P) (n : ℕ) (first : ℕ → ℕ) (c : definition.Core P) (e : Core_event) → EventIs event.now e → IsKeptPausing (stepping_of begin P.turned P.answered P.again) n c → IsCore P.ended P.bytes P.among n first self.old c → IfOk result (λ effects. Comes P.ended P.bytes P.among P.saved (stepping (stepping_of begin P.turned P.answered P.again)) n first c e self.new effects) }
        ensures stands { OnOk result (StandsSo P.ended P.bytes P.among P.serial P.turned P.answered P.again (suc self.old.events) self.new) }
        ensures events { OnOk result (self.new.events ≡ suc self.old.events) }
    {
        let effects = self.comes(event)?;
        self.events += 1;
        Ok(effects)
    }

    // An event, which isn't counted yet.
    fn comes(&mut self, event: &Event) -> Result<List<Effect>, NoMemory>
        requires few { self.old.events < 200000 }
        requires stands { StandsSo P.ended P.bytes P.among P.serial P.turned P.answered P.again self.old.events self.old }
        requires given { event.now ≡ given.Restart → ⊥ }
        ensures comes { (begin : ℕ → P) (n : ℕ) (first : ℕ → ℕ) (c : definition.Core P) (e : Core_event) → EventIs event.now e → IsKeptPausing (stepping_of begin P.turned P.answered P.again) n c → IsCore P.ended P.bytes P.among n first self.old c → IfOk result (λ effects. Comes P.ended P.bytes P.among P.saved (stepping (stepping_of begin P.turned P.answered P.again)) n first c e self.new effects) }
        ensures stands { OnOk result (StandsSo P.ended P.bytes P.among P.serial P.turned P.answered P.again (suc self.old.events) self.new) }
        ensures events { OnOk result (self.new.events ≡ self.old.events) }
    {
        match *event {
            Event::Turn(rank) => self.turn(rank),
            Event::Deliver { from, to } => self.deliver(from, to),
            Event::Control { from, to } => self.control(from, to),
            Event::Sweep => self.sweep(),
            Event::Wave => {
                self.wave()?;
                Ok(List::new(self.alloc))
            }
            Event::Kill(rank) => {
                self.kill(rank);
                Ok(List::new(self.alloc))
            }
            Event::Restart => unreachable!(),
        }
    }
}
