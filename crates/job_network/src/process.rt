//! A rank's machine.

ghost use Rattle.std.specs.Prelude.{◌≡◌, ◌+◌, ◌<◌, ◌≤◌, ◌^◌, ℕ, Option, Some, None, IfOk};
ghost use Rattle.image_text.specs.declared.state.RankState.{RankState as Saved};
ghost use Rattle.core_laws.specs.Pausing.{Stepped, Stop_at, Asks};
ghost use Rattle.core_laws.specs.Process as asks;
ghost use Rattle.mpi_words.specs.declared.operation.Op.{Op as Operation};
ghost use Rattle.mpi_words.specs.declared.operation.Reply.{Reply as Answer};
ghost use Rattle.mpi_words.specs.declared.operation.End.{End as Ending};
ghost use Rattle.job_network.specs.Wants.{stop_of, pending_of, end_of, Fits, Answers, bytes_of, IsMark};

use c3_base::NoMemory;
use image_text::RankState;
use mpi_words::{End, Reply, Want};
use std::alloc::Global;
use std::rc::Rc;

/// A deterministic rank, as a job runs it.
pub trait Process: Sized + Drop {
    /// What it runs.
    type Code: Drop;

    /// Which codes it runs.
    ghost right: { Self.Code → Type 0 };

    /// A rank at its beginning, by its number and the number of ranks.
    ghost begun: { Self.Code → ℕ → ℕ → Self };

    /// A turn with a limit: where it stops, and the rank then.
    ghost turned: { ℕ → Self → Stepped Self };

    ghost answered: { Self → Answer → Self };

    /// A rank that wants something wants it again, and stays.
    ghost again: { (limit : ℕ) (p : Self) (w : asks.Want) → (turned limit p).stop ≡ Asks w → turned limit (turned limit p).machine ≡ turned limit p };

    /// The operation of its last turn that has had no answer.
    ghost pending: { Self → Option Operation };

    ghost ended: { Self → Option Ending };

    /// How many ranks there are.
    ghost among: { Self → ℕ };

    /// How many bytes it has put out.
    ghost bytes: { Self → ℕ };

    /// The greater of its next serial and its collective calls begun.
    ghost serial: { Self → ℕ };

    /// It stands just past a mark.
    ghost marked: { Self → Type 0 };

    /// What it saves there.
    ghost saved: { Self → Saved };

    fn begin(alloc: Global, code: &Rc<Self::Code>, rank: u16, ranks: u16) -> Result<Self, NoMemory>
        requires rank { rank < ranks }
        requires right { right code.now.value }
        ensures begun { IfOk result (λ new. new ≡ begun code.now.value rank ranks) }
        ensures ended { IfOk result (λ new. ended new ≡ None) }
        ensures among { IfOk result (λ new. among new ≡ ranks) }
        ensures bytes { IfOk result (λ new. bytes new ≡ 0) }
        ensures serial { IfOk result (λ new. serial new ≤ 2 ^ 13) };

    /// Runs up to an operation or the end, or until it has begun so many statements and would begin another.
    fn turn(&mut self, limit: u32) -> Result<Want, NoMemory>
        requires limit { limit ≤ 4096 }
        requires serial { serial self.old < 2 ^ 62 }
        ensures turned { IfOk result (λ want. turned limit self.old ≡ record { machine = self.new; stop = stop_of want }) }
        ensures fits { IfOk result (Fits (among self.old) (bytes self.old)) }
        ensures pending { IfOk result (λ want. pending self.new ≡ pending_of want) }
        ensures ended { IfOk result (λ want. ended self.new ≡ end_of want) }
        ensures among { IfOk result (λ want. among self.new ≡ among self.old) }
        ensures bytes { IfOk result (λ want. bytes self.new ≡ bytes self.old) }
        ensures serial { IfOk result (λ want. serial self.new ≤ serial self.old + 2 ^ 25 + 2 ^ 17) };

    /// Takes the answer to its operation.
    fn answer(&mut self, reply: Reply) -> Result<Option<End>, NoMemory>
        requires { Answers (pending self.old) reply }
        ensures answered { IfOk result (λ end. self.new ≡ answered self.old reply) }
        ensures ended { IfOk result (λ end. end ≡ ended self.new) }
        ensures among { IfOk result (λ end. among self.new ≡ among self.old) }
        ensures bytes { IfOk result (λ end. bytes self.new ≡ bytes self.old + bytes_of (pending self.old)) }
        ensures serial { IfOk result (λ end. serial self.new ≤ serial self.old) }
        ensures marked { IfOk result (λ end. IsMark (pending self.old) → marked self.new) };

    /// Its state at a mark, as an image has it.
    fn save(&self, alloc: Global) -> Result<RankState, NoMemory>
        requires { marked self.now }
        ensures { IfOk result (λ state. state ≡ saved self.now) };

    ghost rests: { (limit : ℕ) (p : Self) (end : Ending) → ended p ≡ Some end → turned limit p ≡ record { machine = p; stop = Asks asks.Ended } };
}
