//! A new job.

ghost use Rattle.std.specs.Prelude.{◌≡◌, ◌≢◌, ◌+◌, ◌*◌, ◌≤◌, ◌<◌, OnOk, IfErr, IsErrOf, IsTrue, List, ℕ, true};
ghost use Rattle.c3_io.specs.Faults.{HasCause};
ghost use Rattle.disk_model.specs.Runs.{LeavesOnly, Keeps};
ghost use Rattle.line_store.specs.declared.fault.StoreFault.TheVariants.{DiskFault, NoMemory};
ghost use Rattle.line_store.specs.Answers.{HasReason, IsMade};
ghost use Rattle.line_store.specs.Held.{IsSafe};
ghost use Rattle.line_store.specs.Reading.{opens_gate, output_file};
ghost use Rattle.line_store.specs.Store.{IsShut, StaysShut, IsEmpty, IsReady, IsNew, IsClosedOr};
ghost use Rattle.line_store.specs.Texts.{job_form};

use crate::fault::StoreFault;
use crate::files::{byte_at, empty, replace};
use crate::job::{Job, write_job};
use c3_io::Failed;
use disk_model::Disk;
use std::alloc::Global;

// Empties the outputs, under a closed gate.
fn empty_outputs<D: Disk>(disk: &mut D, ranks: u16) -> Result<(), Failed>
    requires files { 5 * ranks + 5 ≤ D.files }
    ensures stays { D.told → IsShut (D.view disk.old) → StaysShut (D.view disk.old) (D.view disk.new) }
    ensures empty { D.told → OnOk result ((r : ℕ) → r < ranks → IsEmpty (D.view disk.new) (output_file r)) }
    ensures others { D.told → (file : ℕ) → file < 5 → IsEmpty (D.view disk.old) file → IsEmpty (D.view disk.new) file }
    ensures cause { HasCause (D.faults disk.old) (D.faults disk.new) result }
{
    for rank in 0..ranks {
        empty(disk, 5 + 5 * u32::from(rank))?;
    }
    Ok(())
}

// Empties the line, the codes and the end, under a closed gate.
fn empty_marks<D: Disk>(disk: &mut D) -> Result<(), Failed>
    requires files { 5 ≤ D.files }
    ensures stays { D.told → IsShut (D.view disk.old) → StaysShut (D.view disk.old) (D.view disk.new) }
    ensures line { D.told → OnOk result (IsEmpty (D.view disk.new) 2) }
    ensures codes { D.told → OnOk result (IsEmpty (D.view disk.new) 3) }
    ensures end { D.told → OnOk result (IsEmpty (D.view disk.new) 4) }
    ensures cause { HasCause (D.faults disk.old) (D.faults disk.new) result }
{
    empty(disk, 2)?;
    empty(disk, 3)?;
    empty(disk, 4)?;
    Ok(())
}

// Puts all that the gate opens.
fn prepare<D: Disk>(disk: &mut D, ranks: u16, text: &[u8]) -> Result<(), Failed>
    requires files { 5 * ranks + 5 ≤ D.files }
    ensures stays { D.told → IsShut (D.view disk.old) → StaysShut (D.view disk.old) (D.view disk.new) }
    ensures ready { D.told → OnOk result (IsReady ranks text.now (D.view disk.new)) }
    ensures cause { HasCause (D.faults disk.old) (D.faults disk.new) result }
{
    empty_marks(disk)?;
    empty_outputs(disk, ranks)?;
    replace(disk, 0, text)?;
    Ok(())
}

// Opens the gate to a job.
fn open_gate<D: Disk>(disk: &mut D) -> Result<(), Failed>
    requires files { 5 ≤ D.files }
    ensures any_moment { D.told → (ranks : ℕ) → (text : List ℕ) → IsShut (D.view disk.old) → IsReady ranks text (D.view disk.old) → LeavesOnly (D.view disk.old) (D.view disk.new) (IsClosedOr text) }
    ensures made { D.told → (ranks : ℕ) → (text : List ℕ) → IsReady ranks text (D.view disk.old) → OnOk result (IsNew ranks text (D.view disk.new)) }
    ensures cause { HasCause (D.faults disk.old) (D.faults disk.new) result }
{
    disk.write(1, 0, &[0x4A])?;
    disk.sync(1)?;
    Ok(())
}

// Makes the job, whatever is there.
fn make_files<D: Disk>(disk: &mut D, ranks: u16, text: &[u8]) -> Result<(), Failed>
    requires files { 5 * ranks + 5 ≤ D.files }
    ensures any_moment { D.told → IsShut (D.view disk.old) → LeavesOnly (D.view disk.old) (D.view disk.new) (IsClosedOr text.now) }
    ensures made { D.told → OnOk result (IsNew ranks text.now (D.view disk.new)) }
    ensures cause { HasCause (D.faults disk.old) (D.faults disk.new) result }
{
    prepare(disk, ranks, text)?;
    open_gate(disk)?;
    Ok(())
}

/// Makes a job, with line 0. It is there once its gate is open.
pub fn make_job<D: Disk>(alloc: Global, disk: &mut D, job: &Job) -> Result<(), StoreFault>
    requires files { 5 * job.now.ranks + 5 ≤ D.files }
    requires fits { IsTrue (job_form.fits job.now) }
    ensures there { D.told → IsMade (opens_gate ((D.view disk.old).seen 1)) result }
    ensures kept { D.told → opens_gate ((D.view disk.old).seen 1) ≡ true → Keeps (D.view disk.old) (D.view disk.new) }
    ensures not_begun { D.told → IsErrOf result NoMemory → Keeps (D.view disk.old) (D.view disk.new) }

    // Where the gate was closed, a stop at any moment leaves it closed, or the job with line 0.
    ensures any_moment { D.told → IsShut (D.view disk.old) → LeavesOnly (D.view disk.old) (D.view disk.new) (IsClosedOr (job_form.text job.now)) }

    ensures made { D.told → OnOk result (IsNew job.now.ranks (job_form.text job.now) (D.view disk.new)) }
    ensures safe { D.told → OnOk result (IsSafe (job_form.text job.now) (D.view disk.new)) }
    ensures cause { HasReason (D.faults disk.old) (D.faults disk.new) result }
    ensures no_fault { IfErr result (λ fault. fault ≢ DiskFault → D.faults disk.new ≡ D.faults disk.old) }
{
    let text = write_job(alloc, job)?;
    if byte_at(disk, 1, 0)? == 0x4A {
        return Err(StoreFault::JobThere);
    }
    make_files(disk, job.ranks, &text)?;
    Ok(())
}
