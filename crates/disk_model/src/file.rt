//! A file of a disk in memory.

ghost use Rattle.std.specs.Prelude.{◌≡◌, ◌≤◌, ◌+◌, ◌++◌, ◌∷◌, [], if◌then◌else◌, length, take, drop, get_or, IfOk};
ghost use Rattle.disk_model.specs.Files.{Writes, Cuts, Fits, is_kept, left_by, on_file, at_rest};
ghost use Rattle.disk_model.specs.Files as spec;
ghost use Rattle.disk_model.specs.declared.calls.Choice.TheVariants.{Fill};
ghost use Rattle.disk_model.specs.Stored.{change, state};

use crate::calls::{Call, Choice};
use std::alloc::{AllocError, Global};

/// A file, by its bytes as a read gives them and as the last sync left them.
#[derive(Drop)]
pub struct MemFile {
    pub number: u32,
    pub seen: Vec<u8>,
    pub synced: Vec<u8>,
    /// The places and counts of bytes that were written since the last sync.
    pub ranges: Vec<(u64, u64)>,
    /// The least and greatest length since the last sync.
    pub least: u64,
    pub greatest: u64,
}

impl MemFile {
    /// A file without bytes.
    pub fn empty(alloc: Global, number: u32) -> MemFile
        ensures number { result.number ≡ number }
        ensures state { state result ≡ at_rest [] }
    {
        MemFile {
            number,
            seen: Vec::new(alloc),
            synced: Vec::new(alloc),
            ranges: Vec::new(alloc),
            least: 0,
            greatest: 0,
        }
    }

    /// The file after a call or a stop.
    pub fn after(&self, alloc: Global, call: &Call) -> Result<MemFile, AllocError>
        requires { Fits (change call.now) (state self.now) }
        ensures number { IfOk result (λ m. m.number ≡ self.now.number) }
        ensures state { IfOk result (λ m. state m ≡ on_file (change call.now) (state self.now)) }
    {
        match call {
            Call::Write {
                at,
                bytes,
                done,
                ..
            } => self.written(alloc, *at, bytes, *done),
            Call::Cut { size, done, .. } => self.shortened(alloc, *size, *done),
            Call::Sync { .. } => self.resting(alloc, self.seen.as_slice().to_vec(alloc)?),
            Call::Stop { choice } => self.resting(alloc, self.left(alloc, *choice)?),
        }
    }

    // The file with these bytes, all of them synced.
    fn resting(&self, alloc: Global, bytes: Vec<u8>) -> Result<MemFile, AllocError>
        ensures number { IfOk result (λ m. m.number ≡ self.now.number) }
        ensures state { IfOk result (λ m. state m ≡ at_rest bytes.items) }
    {
        let size = bytes.len() as u64;
        Ok(MemFile {
            number: self.number,
            synced: bytes.as_slice().to_vec(alloc)?,
            seen: bytes,
            ranges: Vec::new(alloc),
            least: size,
            greatest: size,
        })
    }

    // The file after a write.
    fn written(
        &self,
        alloc: Global,
        at: u64,
        bytes: &[u8],
        done: bool,
    ) -> Result<MemFile, AllocError>
        requires { at ≤ length self.now.seen.items }
        ensures number { IfOk result (λ m. m.number ≡ self.now.number) }
        ensures state { IfOk result (λ m. state m ≡ on_file (Writes self.now.number at bytes.now done) (state self.now)) }
    {
        let count = bytes.len() as u64;
        Ok(MemFile {
            number: self.number,
            seen: spliced(alloc, &self.seen, at as usize, bytes, done)?,
            synced: self.synced.as_slice().to_vec(alloc)?,
            ranges: with_first(alloc, (at, count), &self.ranges)?,
            least: self.least,
            greatest: self.greatest.max(at + count),
        })
    }

    // The file after a cut.
    fn shortened(&self, alloc: Global, size: u64, done: bool) -> Result<MemFile, AllocError>
        requires { size ≤ length self.now.seen.items }
        ensures number { IfOk result (λ m. m.number ≡ self.now.number) }
        ensures state { IfOk result (λ m. state m ≡ on_file (Cuts self.now.number size done) (state self.now)) }
    {
        Ok(MemFile {
            number: self.number,
            seen: front(alloc, &self.seen, size as usize, done)?,
            synced: self.synced.as_slice().to_vec(alloc)?,
            ranges: self.ranges.as_slice().to_vec(alloc)?,
            least: self.least.min(size),
            greatest: self.greatest,
        })
    }

    // What a stop leaves.
    fn left(&self, alloc: Global, choice: Choice) -> Result<Vec<u8>, AllocError>
        ensures { IfOk result (λ bytes. bytes.items ≡ left_by choice (state self.now)) }
    {
        match choice {
            Choice::Written => self.seen.as_slice().to_vec(alloc),
            Choice::Old => self.synced.as_slice().to_vec(alloc),
            Choice::Fill(byte) => self.filled(alloc, byte),
            Choice::Short => {
                let size = self.seen.len().min(self.least as usize);
                self.seen[..size].to_vec(alloc)
            }
        }
    }

    // The greatest length, with this in place of each byte that isn't sure to stay.
    fn filled(&self, alloc: Global, byte: u8) -> Result<Vec<u8>, AllocError>
        ensures { IfOk result (λ bytes. bytes.items ≡ left_by (Fill byte) (state self.now)) }
    {
        let mut bytes = Vec::new(alloc);
        for place in 0..self.greatest {
            bytes.push(self.kept_or(place, byte))?;
        }
        Ok(bytes)
    }

    // The byte at a place, where each stop leaves it as it was synced, or this one.
    fn kept_or(&self, place: u64, byte: u8) -> u8
        ensures { result ≡ (if is_kept (state self.now) place then get_or self.now.synced.items place 0 else byte) }
    {
        if place < self.least && is_outside(place, &self.ranges) {
            return self.synced.get(place as usize).copied().unwrap_or(0);
        }
        byte
    }
}

// Whether a place lies outside all ranges.
fn is_outside(place: u64, ranges: &[(u64, u64)]) -> bool
    ensures { result ≡ spec.is_outside place ranges.now }
{
    for range in ranges {
        if range.0 <= place && place - range.0 < range.1 {
            return false;
        }
    }
    true
}

// The bytes after a write, or the same bytes where it isn't done.
fn spliced(
    alloc: Global,
    old: &[u8],
    at: usize,
    bytes: &[u8],
    done: bool,
) -> Result<Vec<u8>, AllocError>
    requires { at ≤ length old.now }
    ensures { IfOk result (λ v. v.items ≡ (if done then take at old.now ++ bytes.now ++ drop (at + length bytes.now) old.now else old.now)) }
{
    if !done {
        return old.to_vec(alloc);
    }
    let mut next = old[..at].to_vec(alloc)?;
    next.extend_from_slice(bytes)?;
    if bytes.len() < old.len() - at {
        next.extend_from_slice(&old[at + bytes.len()..])?;
    }
    Ok(next)
}

// The bytes after a cut, or the same bytes where it isn't done.
fn front(alloc: Global, old: &[u8], size: usize, done: bool) -> Result<Vec<u8>, AllocError>
    requires { size ≤ length old.now }
    ensures { IfOk result (λ v. v.items ≡ (if done then take size old.now else old.now)) }
{
    if done {
        return old[..size].to_vec(alloc);
    }
    old.to_vec(alloc)
}

// These ranges behind another.
fn with_first(
    alloc: Global,
    first: (u64, u64),
    ranges: &[(u64, u64)],
) -> Result<Vec<(u64, u64)>, AllocError>
    ensures { IfOk result (λ v. v.items ≡ first ∷ ranges.now) }
{
    let mut all = Vec::new(alloc);
    all.push(first)?;
    all.extend_from_slice(ranges)?;
    Ok(all)
}
