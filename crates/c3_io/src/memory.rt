ghost use Rattle.std.specs.Prelude.{◌≡◌, ◌<◌, ◌+◌, ◌⊎◌, ◌↔◌, [], length, IfOk, Some, Contains, IsErr, IsTrue, OnErr, OnOk};
ghost use Rattle.std.specs.Io.{ReadsAtMost, WritesAtMost};
ghost use Rattle.std.specs.Io.KnownBytes.{ReadConsumes, WriteAppends};
ghost use Rattle.c3_io.specs.Faults.{Rose, HasCause};
ghost use Rattle.c3_io.specs.Memory.{Input, Output, IsNextCall};

use crate::{Failed, Sink, Source};
use std::alloc::Global;
use std::marker::Model;

/// How many calls were made, and the numbers of those that fail.
#[derive(Drop)]
struct Calls {
    fail: Vec<u64>,
    made: u64,
}

impl Calls {
    /// Counts a call, and tells whether it fails.
    fn next_fails(&mut self) -> bool
        ensures fails { IsTrue result ↔ Contains self.old.fail.items self.old.made }
        ensures counted { IsNextCall self.old.fail.items self.new.fail.items self.old.made self.new.made }
    {
        let fails = self.fail.contains(&self.made);
        self.made = self.made.saturating_add(1);
        fails
    }
}

/// Bytes in memory, whose calls fail by a list of their numbers.
#[derive(Drop)]
pub struct MemSource {
    bytes: Vec<u8>,
    taken: usize,
    calls: Calls,
    faults: u64,
}

impl Model for MemSource {
    ghost use Rattle.std.specs.Prelude.{◌≤◌, drop, length};
    ghost use Rattle.c3_io.specs.Memory.{Input};

    ghost Value = { Input };

    ghost view = { λ s. record { left = drop s.taken s.bytes.items; fail = s.calls.fail.items; calls = s.calls.made; faults = s.faults } };

    ghost invariant = { λ s. s.taken ≤ length s.bytes.items };
}

impl MemSource {
    /// A source of these bytes. Its k-th call, counted from 0, fails where k is in `fail`.
    pub fn new(bytes: Vec<u8>, fail: Vec<u64>) -> Self
        ensures { result ≡ record { left = bytes.items; fail = fail.items; calls = 0; faults = 0 } }
    {
        MemSource {
            bytes,
            taken: 0,
            calls: Calls { fail, made: 0 },
            faults: 0,
        }
    }
}

impl Source for MemSource {
    ghost left = { λ s. Some s.left };

    ghost faults = { λ s. s.faults };

    fn take(&mut self, into: &mut [u8]) -> Result<usize, Failed>
        ensures bound { ReadsAtMost result into.new }
        ensures bytes { ReadConsumes (Some self.old.left) (Some self.new.left) result into.new }
        ensures cause { HasCause self.old.faults self.new.faults result }
        ensures fails { IsErr result ↔ Contains self.old.fail self.old.calls }
        ensures call { IsNextCall self.old.fail self.new.fail self.old.calls self.new.calls }
    {
        if self.calls.next_fails() {
            self.faults = self.faults.saturating_add(1);
            return Err(Failed);
        }
        let count = into.len().min(self.bytes.len() - self.taken);
        into[..count].copy_from_slice(&self.bytes[self.taken..self.taken + count]);
        self.taken += count;
        Ok(count)
    }
}

/// What went out in memory. Its calls fail by a list of their numbers, and where a growth finds no memory.
#[derive(Drop)]
pub struct MemSink {
    gone: Vec<u8>,
    calls: Calls,
    faults: u64,
    starved: u64,
}

impl Model for MemSink {
    ghost use Rattle.c3_io.specs.Memory.{Output};

    ghost Value = { Output };

    ghost view = { λ s. record { gone = s.gone.items; fail = s.calls.fail.items; calls = s.calls.made; faults = s.faults; starved = s.starved } };
}

impl MemSink {
    /// An empty sink. Its k-th call, counted from 0, fails where k is in `fail`.
    pub fn new(alloc: Global, fail: Vec<u64>) -> Self
        ensures { result ≡ record { gone = []; fail = fail.items; calls = 0; faults = 0; starved = 0 } }
    {
        MemSink {
            gone: Vec::new(alloc),
            calls: Calls { fail, made: 0 },
            faults: 0,
            starved: 0,
        }
    }

    /// What went out.
    pub fn bytes(&self) -> &[u8]
        ensures { result.now ≡ self.now.gone }
    {
        &self.gone
    }

    /// How often a growth found no memory.
    pub fn starved(&self) -> u64
        ensures { result ≡ self.now.starved }
    {
        self.starved
    }
}

impl Sink for MemSink {
    ghost out = { λ s. Some s.gone };

    ghost faults = { λ s. s.faults };

    fn put(&mut self, piece: &[u8]) -> Result<usize, Failed>
        ensures bound { WritesAtMost result piece.now }
        ensures progress { 0 < length piece.now → IfOk result (λ count. 0 < count) }
        ensures bytes { WriteAppends (Some self.old.gone) (Some self.new.gone) result piece.now }
        ensures cause { HasCause self.old.faults self.new.faults result }
        ensures fails { Contains self.old.fail self.old.calls → IsErr result }
        ensures fails_only { OnErr result (Contains self.old.fail self.old.calls ⊎ Rose self.old.starved self.new.starved) }
        ensures fed { Contains self.old.fail self.old.calls → self.new.starved ≡ self.old.starved }
        ensures fed_ok { OnOk result (self.new.starved ≡ self.old.starved) }
        ensures call { IsNextCall self.old.fail self.new.fail self.old.calls self.new.calls }
    {
        if self.calls.next_fails() {
            self.faults = self.faults.saturating_add(1);
            return Err(Failed);
        }
        if self.gone.extend_from_slice(piece).is_err() {
            self.faults = self.faults.saturating_add(1);
            self.starved = self.starved.saturating_add(1);
            return Err(Failed);
        }
        Ok(piece.len())
    }
}
