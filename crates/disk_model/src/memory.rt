//! A disk in memory.

ghost use Rattle.std.specs.Prelude.{◌≡◌, ◌≤◌, ◌+◌, ◌-◌, ◌^◌, ◌⊎◌, ◌↔◌, ◌==◌, [], ◌∷◌, ◌++◌, ℕ, length, take, drop, min, true, false, None, IfOk, OnOk, OnErr, IsErr, IsTrue};
ghost use Rattle.c3_io.specs.Faults.{HasCause};
ghost use Rattle.disk_model.specs.Disk.{IsStable, Leaves, Steps, Torn, Cut, Same, Holds};
ghost use Rattle.disk_model.specs.Files.{Writes, Cuts, Syncs, Stops, Fits, is_on, files_after};
ghost use Rattle.disk_model.specs.Lawful.{lawful};
ghost use Rattle.disk_model.specs.Stored.{change};
ghost use Rattle.disk_model.specs.Memory.{memory_view, IsToFail, IsNextCall, Stays, Starves, Makes};

use crate::Disk;
use crate::calls::{Call, Choice};
use crate::file::MemFile;
use crate::plan::Plan;
use crate::store::{add, bytes_of, stopped};
use c3_base::NoMemory;
use c3_io::Failed;
use std::alloc::{AllocError, Global};
use std::marker::Model;

/// A disk in memory. Its calls fail by a list of their numbers, from the fuse on, and where a growth finds no memory.
#[derive(Drop)]
pub struct MemDisk {
    alloc: Global,
    files: Vec<MemFile>,
    calls: Vec<Call>,
    plan: Plan,
    faults: u64,
    starved: u64,
}

impl Model for MemDisk {
    ghost use Rattle.disk_model.specs.Memory.{Memory};
    ghost use Rattle.disk_model.specs.Stored.{changes, AreAfter};

    ghost Value = { Memory };

    ghost view = { λ d. record { changes = changes d.calls.items; fail = d.plan.fail.items; fuse = d.plan.fuse; calls = d.plan.made; faults = d.faults; starved = d.starved } };

    ghost invariant = { λ d. AreAfter d.calls.items d.files.items };
}

impl MemDisk {
    /// An empty disk. Its k-th call, counted from 0, fails where k is in `fail`, and from `fuse` on.
    pub fn new(alloc: Global, fail: Vec<u64>, fuse: Option<u64>) -> Self
        ensures { result ≡ record { changes = []; fail = fail.items; fuse = fuse; calls = 0; faults = 0; starved = 0 } }
    {
        MemDisk {
            alloc,
            files: Vec::new(alloc),
            calls: Vec::new(alloc),
            plan: Plan {
                fail,
                fuse,
                made: 0,
            },
            faults: 0,
            starved: 0,
        }
    }

    /// How often a growth found no memory.
    pub fn starved(&self) -> u64
        ensures { result ≡ self.now.starved }
    {
        self.starved
    }

    /// Everything is stopped. What is left is synced, and no later call is to fail.
    pub fn stop(&mut self, choice: Choice) -> Result<(), NoMemory>
        ensures made { OnOk result (Makes (Stops choice) self.old self.new) }
        ensures left { OnOk result (Leaves (memory_view self.old) (memory_view self.new).seen) }
        ensures stable { OnOk result ((f : ℕ) → IsStable (memory_view self.new) f) }
        ensures ready { OnOk result ((self.new.fail ≡ []) × (self.new.fuse ≡ None)) }
        ensures counts { (self.new.calls ≡ self.old.calls) × (self.new.faults ≡ self.old.faults) }
        ensures err { OnErr result (self.new ≡ self.old) }
    {
        let files = stopped(self.alloc, &self.files, choice)?;
        self.calls.push(Call::Stop { choice })?;
        self.files = files;
        self.plan.fail = Vec::new(self.alloc);
        self.plan.fuse = None;
        Ok(())
    }

    // Counts a call, and tells whether it is to fail.
    fn next_fails(&mut self) -> bool
        ensures fails { IsTrue result ↔ IsToFail self.old }
        ensures counted { self.new ≡ record self.old { calls = min (self.old.calls + 1) (2 ^ 64 - 1) } }
    {
        self.plan.next_fails()
    }

    // Counts a fault.
    fn fail(&mut self) -> Failed
        ensures counted { self.new ≡ record self.old { faults = min (self.old.faults + 1) (2 ^ 64 - 1) } }
        ensures later { self.old.faults ≤ self.new.faults }
    {
        self.faults = self.faults.saturating_add(1);
        Failed
    }

    // Counts a refused growth, which is a fault.
    fn starve(&mut self) -> Failed
        ensures counted { self.new ≡ record self.old { faults = min (self.old.faults + 1) (2 ^ 64 - 1); starved = min (self.old.starved + 1) (2 ^ 64 - 1) } }
        ensures later { self.old.faults ≤ self.new.faults }
    {
        self.starved = self.starved.saturating_add(1);
        self.fail()
    }

    fn bytes_of(&self, file: u32) -> &[u8]
        ensures { result.now ≡ (files_after self.now.changes file).seen }
    {
        bytes_of(&self.files, file)
    }

    // Notes a call on a file, and does what it does to the file.
    fn add(&mut self, file: u32, call: Call) -> Result<(), AllocError>
        requires fits { Fits (change call) (files_after self.old.changes file) }
        requires on { (f : ℕ) → is_on (change call) f ≡ (f == file) }
        ensures ok { OnOk result (self.new ≡ record self.old { changes = self.old.changes ++ change call ∷ [] }) }
        ensures err { OnErr result (self.new ≡ self.old) }
    {
        add(self.alloc, &mut self.files, &mut self.calls, file, call)
    }

    fn add_write(&mut self, file: u32, at: u64, bytes: &[u8], done: bool) -> Result<(), AllocError>
        requires { at ≤ length (files_after self.old.changes file).seen }
        ensures ok { OnOk result (self.new ≡ record self.old { changes = self.old.changes ++ Writes file at bytes.now done ∷ [] }) }
        ensures err { OnErr result (self.new ≡ self.old) }
    {
        let bytes = bytes.to_vec(self.alloc)?;
        self.add(
            file,
            Call::Write {
                file,
                at,
                bytes,
                done,
            },
        )
    }
}

impl Disk for MemDisk {
    ghost told = { Unit {0} };

    ghost files = { 2 ^ 32 };

    ghost view = { memory_view };

    ghost faults = { λ d. d.faults };

    ghost lawful = { λ d told. lawful d.changes };

    fn length(&mut self, file: u32) -> Result<u64, Failed>
        ensures length { IfOk result (λ count. count ≡ length ((memory_view self.old).seen file)) }
        ensures steps { Steps file Same (memory_view self.old) (memory_view self.new) }
        ensures cause { HasCause self.old.faults self.new.faults result }
        ensures call { IsNextCall self.old self.new }
        ensures stays { Stays self.old self.new }
        ensures fails { IsErr result ↔ IsToFail self.old }
    {
        if self.next_fails() {
            return Err(self.fail());
        }
        Ok(self.bytes_of(file).len() as u64)
    }

    fn read(&mut self, file: u32, at: u64, into: &mut [u8]) -> Result<usize, Failed>
        ensures bound { IfOk result (λ count. count ≤ length into.new) }
        ensures bytes { IfOk result (λ count. take count into.new ≡ take (length into.new) (drop at ((memory_view self.old).seen file))) }
        ensures steps { Steps file Same (memory_view self.old) (memory_view self.new) }
        ensures cause { HasCause self.old.faults self.new.faults result }
        ensures call { IsNextCall self.old self.new }
        ensures stays { Stays self.old self.new }
        ensures fails { IsErr result ↔ IsToFail self.old }
    {
        if self.next_fails() {
            return Err(self.fail());
        }
        Ok(copy_from(self.bytes_of(file), at, into))
    }

    fn write(&mut self, file: u32, at: u64, bytes: &[u8]) -> Result<(), Failed>
        requires { at ≤ length ((memory_view self.old).seen file) }
        ensures written { OnOk result (Holds ((memory_view self.old).seen file) at bytes.now ((memory_view self.new).seen file)) }
        ensures steps { Steps file (Torn at (length bytes.now)) (memory_view self.old) (memory_view self.new) }
        ensures cause { HasCause self.old.faults self.new.faults result }
        ensures call { IsNextCall self.old self.new }
        ensures fails { IsToFail self.old → IsErr result }
        ensures ok { OnOk result (Makes (Writes file at bytes.now true) self.old self.new) }
        ensures err { OnErr result ((IsToFail self.old × Makes (Writes file at bytes.now false) self.old self.new) ⊎ Starves self.old self.new) }
    {
        let done = !self.next_fails();
        if self.add_write(file, at, bytes, done).is_err() {
            return Err(self.starve());
        }
        if !done {
            return Err(self.fail());
        }
        Ok(())
    }

    fn cut(&mut self, file: u32, size: u64) -> Result<(), Failed>
        requires { size ≤ length ((memory_view self.old).seen file) }
        ensures cut { OnOk result ((memory_view self.new).seen file ≡ take size ((memory_view self.old).seen file)) }
        ensures steps { Steps file (Cut size) (memory_view self.old) (memory_view self.new) }
        ensures cause { HasCause self.old.faults self.new.faults result }
        ensures call { IsNextCall self.old self.new }
        ensures fails { IsToFail self.old → IsErr result }
        ensures ok { OnOk result (Makes (Cuts file size true) self.old self.new) }
        ensures err { OnErr result ((IsToFail self.old × Makes (Cuts file size false) self.old self.new) ⊎ Starves self.old self.new) }
    {
        let done = !self.next_fails();
        if self.add(file, Call::Cut { file, size, done }).is_err() {
            return Err(self.starve());
        }
        if !done {
            return Err(self.fail());
        }
        Ok(())
    }

    fn sync(&mut self, file: u32) -> Result<(), Failed>
        ensures durable { OnOk result (IsStable (memory_view self.new) file) }
        ensures steps { Steps file Same (memory_view self.old) (memory_view self.new) }
        ensures cause { HasCause self.old.faults self.new.faults result }
        ensures call { IsNextCall self.old self.new }
        ensures fails { IsToFail self.old → IsErr result }
        ensures ok { OnOk result (Makes (Syncs file) self.old self.new) }
        ensures err { OnErr result ((IsToFail self.old × Stays self.old self.new) ⊎ Starves self.old self.new) }
    {
        let fails = self.next_fails();
        if fails {
            return Err(self.fail());
        }
        if self.add(file, Call::Sync { file }).is_err() {
            return Err(self.starve());
        }
        Ok(())
    }
}

// Copies what is there from a place on, and tells how many bytes that are.
fn copy_from(bytes: &[u8], at: u64, into: &mut [u8]) -> usize
    ensures bound { result ≤ length into.new }
    ensures copied { take result into.new ≡ take (length into.new) (drop at bytes.now) }
{
    let from = at.min(bytes.len() as u64) as usize;
    let count = into.len().min(bytes.len() - from);
    into[..count].copy_from_slice(&bytes[from..from + count]);
    count
}
