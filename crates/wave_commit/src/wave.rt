//! Rank 0's wave.

ghost use Rattle.std.specs.Prelude.{◌≡◌, ◌<◌, ℕ, Bool, true, false, length, IfOk};
ghost use Rattle.core_laws.specs.Protocol as protocol;
ghost use Rattle.core_laws.specs.Ties.{Are};
ghost use Rattle.mpi_words.specs.declared.control.Control.TheVariants.{Ready, Stopped};
ghost use Rattle.wave_commit.specs.Waves.{IsWave, start_of, begun, next_of, wave_after, restored_after};
ghost use Rattle.wave_commit.specs.Waves as waves;

use c3_base::NoMemory;
use mpi_words::Control;
use std::alloc::Global;
use std::marker::Model;

/// Why no wave starts.
#[derive(Clone, Copy, PartialEq, Eq, Debug)]
pub enum NotNow {
    /// The lowest rank that hasn't told that it restores no more.
    Rank(u16),
    /// The line of the wave under way.
    UnderWay(u16),
    /// No line comes after the committed one.
    LastLine,
}

/// What the start of a wave comes to.
#[derive(Clone, Copy, PartialEq, Eq, Debug)]
pub enum Started {
    /// Each rank is to be asked for a checkpoint of the next line.
    Started,
    NotNow(NotNow),
}

/// What is to be done after a control message.
#[derive(Clone, Copy, PartialEq, Eq, Debug)]
pub enum Next {
    Nothing,
    /// Each rank is told that the logs of this line may end.
    TellStop(u16),
    /// This line is committed, and the wave is over.
    Commit(u16),
}

/// The wave under way, if there is one, and who has told what.
#[derive(Drop)]
pub struct Wave {
    ranks: u16,
    // the line that the wave makes
    line: Option<u16>,
    restored: Vec<bool>,
    // of the wave under way
    ready: Vec<bool>,
    stopped: Vec<bool>,
}

impl Model for Wave {
    ghost use Rattle.std.specs.Prelude.{◌≡◌, length};
    ghost use Rattle.wave_commit.specs.Waves.{Noted};

    ghost Value = { Noted };

    ghost view = { λ w. record { line = w.line; restored = w.restored.items; ready = w.ready.items; stopped = w.stopped.items } };

    ghost invariant = { λ w. (length w.restored.items ≡ w.ranks) × (length w.ready.items ≡ w.ranks) × (length w.stopped.items ≡ w.ranks) };
}

impl Wave {
    /// No wave, among so many ranks that all began their program.
    pub fn new(alloc: Global, ranks: u16) -> Result<Wave, NoMemory>
        ensures { (line : ℕ) → IfOk result (λ wave. IsWave ranks wave (protocol.no_wave line) (λ r. true)) }
    {
        Wave::where_all(alloc, ranks, true)
    }

    /// No wave, among so many ranks none of which has told that it restores no more.
    pub fn restarted(alloc: Global, ranks: u16) -> Result<Wave, NoMemory>
        ensures { (line : ℕ) → IfOk result (λ wave. IsWave ranks wave (protocol.no_wave line) (λ r. false)) }
    {
        Wave::where_all(alloc, ranks, false)
    }

    // No wave, among so many ranks that have all told that they restore no more, or none of which has.
    fn where_all(alloc: Global, ranks: u16, restored: bool) -> Result<Wave, NoMemory>
        ensures { (line : ℕ) → IfOk result (λ wave. IsWave ranks wave (protocol.no_wave line) (λ r. restored)) }
    {
        let restored = Vec::from_elem(alloc, restored, usize::from(ranks))?;
        let ready = Vec::from_elem(alloc, false, usize::from(ranks))?;
        let stopped = Vec::from_elem(alloc, false, usize::from(ranks))?;
        Ok(Wave {
            ranks,
            line: None,
            restored,
            ready,
            stopped,
        })
    }

    /// Begins the wave after a committed line, if it may begin.
    pub fn start(&mut self, line: u16) -> Started
        ensures { (n : ℕ) (w : protocol.Wave) (told : ℕ → Bool) → line ≡ w.line → IsWave n self.old w told → (result ≡ start_of n w told) × IsWave n self.new (begun result w) told }
    {
        if let Some(rank) = first_failing(self.ranks, &self.restored) {
            return Started::NotNow(NotNow::Rank(rank));
        }
        if let Some(line) = self.line {
            return Started::NotNow(NotNow::UnderWay(line));
        }
        if line == u16::MAX {
            return Started::NotNow(NotNow::LastLine);
        }
        self.line = Some(line + 1);
        self.ready.fill(false);
        self.stopped.fill(false);
        Started::Started
    }

    /// Notes what a rank tells.
    pub fn take(&mut self, source: u16, c: Control) -> Next
        requires { source < length self.old.restored }
        ensures { (n : ℕ) (w : protocol.Wave) (told : ℕ → Bool) → IsWave n self.old w told → (result ≡ next_of n w source c) × IsWave n self.new (wave_after n w source c) (restored_after told source c) }
    {
        match c {
            Control::Ready(line) => self.take_ready(source, line),
            Control::Stopped(line) => self.take_stopped(source, line),
            Control::Restored => {
                self.restored[usize::from(source)] = true;
                Next::Nothing
            }
            Control::Request(_) | Control::Count(_, _) | Control::Stop(_) => Next::Nothing,
        }
    }

    // Notes that a rank is ready for a line.
    fn take_ready(&mut self, source: u16, line: u16) -> Next
        requires { source < length self.old.restored }
        ensures { (n : ℕ) (w : protocol.Wave) (told : ℕ → Bool) → IsWave n self.old w told → (result ≡ next_of n w source (Ready line)) × IsWave n self.new (wave_after n w source (Ready line)) told }
    {
        if !is_new(self.line, line, self.ready[usize::from(source)]) {
            return Next::Nothing;
        }
        self.ready[usize::from(source)] = true;
        match first_failing(self.ranks, &self.ready) {
            Some(_) => Next::Nothing,
            None => Next::TellStop(line),
        }
    }

    // Notes that a rank has stopped for a line.
    fn take_stopped(&mut self, source: u16, line: u16) -> Next
        requires { source < length self.old.restored }
        ensures { (n : ℕ) (w : protocol.Wave) (told : ℕ → Bool) → IsWave n self.old w told → (result ≡ next_of n w source (Stopped line)) × IsWave n self.new (wave_after n w source (Stopped line)) told }
    {
        if !is_new(self.line, line, self.stopped[usize::from(source)]) {
            return Next::Nothing;
        }
        self.stopped[usize::from(source)] = true;
        match first_failing(self.ranks, &self.stopped) {
            Some(_) => Next::Nothing,
            None => {
                self.line = None;
                Next::Commit(line)
            }
        }
    }
}

// Whether a rank's word on a line is of the wave under way, and wasn't noted before.
fn is_new(its: Option<u16>, line: u16, noted: bool) -> bool
    ensures { result ≡ waves.is_new its line noted }
{
    match its {
        None => false,
        Some(its) => line == its && !noted,
    }
}

// The lowest rank whose flag isn't set.
fn first_failing(ranks: u16, flags: &[bool]) -> Option<u16>
    requires { length flags.now ≡ ranks }
    ensures { (n : ℕ) (f : ℕ → Bool) → Are n flags.now f → result ≡ waves.first_failing n f }
{
    for rank in 0..ranks {
        if !flags[usize::from(rank)] {
            return Some(rank);
        }
    }
    None
}
