//! The files of a disk in memory, each with its number.

ghost use Rattle.std.specs.Prelude.{◌≡◌, ◌≤◌, ◌<◌, ◌++◌, ◌∷◌, [], ◌==◌, if◌then◌else◌, ℕ, length, IfOk, OnOk, OnErr};
ghost use Rattle.disk_model.specs.Files.{Fits, left_by, on_file, at_rest};
ghost use Rattle.disk_model.specs.Stored.{change, state_in, place_of};

use crate::calls::{Call, Choice};
use crate::file::MemFile;
use std::alloc::{AllocError, Global};

// The place of a file's entry, or the number of entries.
fn find(files: &[MemFile], file: u32) -> usize
    ensures place { result ≡ place_of file files.now }
    ensures within { result ≤ length files.now }
{
    for i in 0..files.len() {
        if files[i].number == file {
            return i;
        }
    }
    files.len()
}

/// The bytes of a file.
pub fn bytes_of(files: &[MemFile], file: u32) -> &[u8]
    ensures { result.now ≡ (state_in files.now file).seen }
{
    let at = find(files, file);
    if at == files.len() {
        return &[];
    }
    &files[at].seen
}

// The place of a file's entry, which is added where there is none.
fn room(alloc: Global, files: &mut Vec<MemFile>, file: u32) -> Result<usize, AllocError>
    ensures same { (f : ℕ) → state_in files.new.items f ≡ state_in files.old.items f }
    ensures place { IfOk result (λ at. at ≡ place_of file files.new.items) }
    ensures within { IfOk result (λ at. at < length files.new.items) }
{
    let at = find(files, file);
    if at == files.len() {
        files.push(MemFile::empty(alloc, file))?;
    }
    Ok(at)
}

/// Notes a call on a file, and does what it does to the file.
pub fn add(
    alloc: Global,
    files: &mut Vec<MemFile>,
    calls: &mut Vec<Call>,
    file: u32,
    call: Call,
) -> Result<(), AllocError>
    requires { Fits (change call) (state_in files.old.items file) }
    ensures calls { OnOk result (calls.new.items ≡ calls.old.items ++ call ∷ []) }
    ensures files { OnOk result ((f : ℕ) → state_in files.new.items f ≡ (if f == file then on_file (change call) (state_in files.old.items f) else state_in files.old.items f)) }
    ensures calls_err { OnErr result (calls.new.items ≡ calls.old.items) }
    ensures files_err { OnErr result ((f : ℕ) → state_in files.new.items f ≡ state_in files.old.items f) }
{
    let at = room(alloc, files, file)?;
    let next = files[at].after(alloc, &call)?;
    calls.push(call)?;
    files[at] = next;
    Ok(())
}

/// All files after a stop.
pub fn stopped(alloc: Global, files: &[MemFile], choice: Choice) -> Result<Vec<MemFile>, AllocError>
    ensures { IfOk result (λ all. (f : ℕ) → state_in all.items f ≡ at_rest (left_by choice (state_in files.now f))) }
{
    let call = Call::Stop { choice };
    let mut all = Vec::new(alloc);
    for file in files {
        all.push(file.after(alloc, &call)?)?;
    }
    Ok(all)
}
