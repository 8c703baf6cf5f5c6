//! A job's end.

ghost use Rattle.std.specs.Prelude.{◌≡◌, ◌≢◌, ◌+◌, ◌*◌, ◌≤◌, ◌<◌, ◌^◌, OnOk, IfErr, IsErrOf, Some, IsTrue, List, ℕ, length};
ghost use Rattle.c3_io.specs.Faults.{HasCause};
ghost use Rattle.disk_model.specs.Disk.{IsStable};
ghost use Rattle.disk_model.specs.Runs.{Keeps};
ghost use Rattle.line_store.specs.declared.fault.StoreFault.TheVariants.{DiskFault, NoMemory};
ghost use Rattle.line_store.specs.Answers.{HasReason, IsPlain};
ghost use Rattle.line_store.specs.Held.{Standing, reading_of, ended_with, IsHeld, Makes, IsEndReady};
ghost use Rattle.line_store.specs.Reading.{output_file, ranks_of, reading};
ghost use Rattle.line_store.specs.Texts.{ends_form};

use crate::codes::write_ends;
use crate::fault::StoreFault;
use crate::files::replace;
use c3_io::Failed;
use disk_model::Disk;
use mpi_words::End;
use std::alloc::Global;

// Syncs the outputs.
fn sync_outputs<D: Disk>(disk: &mut D, ranks: u16) -> Result<(), Failed>
    requires { 5 * ranks + 5 ≤ D.files }
    ensures keeps { D.told → Keeps (D.view disk.old) (D.view disk.new) }
    ensures stable { D.told → OnOk result ((r : ℕ) → r < ranks → IsStable (D.view disk.new) (output_file r)) }
    ensures cause { HasCause (D.faults disk.old) (D.faults disk.new) result }
{
    for rank in 0..ranks {
        disk.sync(5 + 5 * u32::from(rank))?;
    }
    Ok(())
}

// Opens the end.
fn open_end<D: Disk>(disk: &mut D) -> Result<(), Failed>
    requires { 5 ≤ D.files }
    ensures makes { D.told → (text : List ℕ) → (ranks : ℕ) → (s : Standing) → (ends : List ℕ) → IsEndReady text ranks s ends (D.view disk.old)
        → Makes text (reading_of text s (Some (ended_with ranks s ends))) (D.view disk.old) (D.view disk.new) }
    ensures ended { D.told → (text : List ℕ) → (ranks : ℕ) → (s : Standing) → (ends : List ℕ) → IsEndReady text ranks s ends (D.view disk.old)
        → OnOk result (reading (D.view disk.new).seen ≡ Some (reading_of text s (Some (ended_with ranks s ends)))) }
    ensures others { D.told → (file : ℕ) → file ≢ 4 → (D.view disk.new).seen file ≡ (D.view disk.old).seen file }
    ensures durable { D.told → OnOk result (IsStable (D.view disk.new) 4) }
    ensures cause { HasCause (D.faults disk.old) (D.faults disk.new) result }
{
    disk.write(4, 0, &[0x45])?;
    disk.sync(4)?;
    Ok(())
}

/// Ends the job, with an end per rank.
pub fn finish<D: Disk>(alloc: Global, disk: &mut D, ends: &[End]) -> Result<(), StoreFault>
    requires ranks { length ends.now < 2 ^ 16 }
    requires files { 5 * length ends.now + 5 ≤ D.files }
    requires fits { IsTrue ((ends_form (length ends.now)).fits ends.now) }
    ensures makes { D.told → (text : List ℕ) → (s : Standing) → IsHeld text (D.view disk.old) s → length ends.now ≡ ranks_of text
        → Makes text (reading_of text s (Some (ended_with (ranks_of text) s ((ends_form (ranks_of text)).text ends.now)))) (D.view disk.old) (D.view disk.new) }
    ensures ended { D.told → (text : List ℕ) → (s : Standing) → IsHeld text (D.view disk.old) s → length ends.now ≡ ranks_of text
        → OnOk result (reading (D.view disk.new).seen ≡ Some (reading_of text s (Some (ended_with (ranks_of text) s ((ends_form (ranks_of text)).text ends.now))))) }
    ensures others { D.told → (file : ℕ) → file ≢ 3 → file ≢ 4 → (D.view disk.new).seen file ≡ (D.view disk.old).seen file }
    ensures written { D.told → OnOk result ((D.view disk.new).seen 3 ≡ (ends_form (length ends.now)).text ends.now) }
    ensures durable { D.told → OnOk result (IsStable (D.view disk.new) 4) }
    ensures not_begun { D.told → IsErrOf result NoMemory → Keeps (D.view disk.old) (D.view disk.new) }
    ensures cause { HasReason (D.faults disk.old) (D.faults disk.new) result }
    ensures no_fault { IfErr result (λ fault. fault ≢ DiskFault → D.faults disk.new ≡ D.faults disk.old) }
    ensures kind { IfErr result IsPlain }
{
    let text = write_ends(alloc, ends)?;
    put_ends(disk, ends.len() as u16, &text)?;
    Ok(())
}

// Puts the text of the ends, all that it ends being synced, and opens the end.
fn put_ends<D: Disk>(disk: &mut D, ranks: u16, ends: &[u8]) -> Result<(), Failed>
    requires files { 5 * ranks + 5 ≤ D.files }
    ensures makes { D.told → (text : List ℕ) → (s : Standing) → IsHeld text (D.view disk.old) s → ranks ≡ ranks_of text
        → Makes text (reading_of text s (Some (ended_with ranks s ends.now))) (D.view disk.old) (D.view disk.new) }
    ensures ended { D.told → (text : List ℕ) → (s : Standing) → IsHeld text (D.view disk.old) s → ranks ≡ ranks_of text
        → OnOk result (reading (D.view disk.new).seen ≡ Some (reading_of text s (Some (ended_with ranks s ends.now)))) }
    ensures others { D.told → (file : ℕ) → file ≢ 3 → file ≢ 4 → (D.view disk.new).seen file ≡ (D.view disk.old).seen file }
    ensures written { D.told → OnOk result ((D.view disk.new).seen 3 ≡ ends.now) }
    ensures durable { D.told → OnOk result (IsStable (D.view disk.new) 4) }
    ensures cause { HasCause (D.faults disk.old) (D.faults disk.new) result }
{
    sync_outputs(disk, ranks)?;
    replace(disk, 3, ends)?;
    open_end(disk)?;
    Ok(())
}
