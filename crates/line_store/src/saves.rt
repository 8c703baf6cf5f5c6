//! Outputs, images and logs.

ghost use Rattle.std.specs.Prelude.{◌≡◌, ◌≢◌, ◌+◌, ◌*◌, ◌≤◌, ◌<◌, ◌^◌, OnOk, IfErr, IsTrue, List, ℕ, length, get_or};
ghost use Rattle.c3_io.specs.Faults.{HasCause};
ghost use Rattle.disk_model.specs.Disk.{IsStable};
ghost use Rattle.image_text.specs.Texts.{image_form};
ghost use Rattle.late_logs.specs.Texts.{log_form};
ghost use Rattle.line_store.specs.declared.fault.StoreFault.TheVariants.{DiskFault};
ghost use Rattle.line_store.specs.Answers.{HasReason, IsPlain};
ghost use Rattle.line_store.specs.Held.{Standing, appended, with_image, with_log, cut_back, IsHeld, IsQuiet, IsCutOf, Spares};
ghost use Rattle.line_store.specs.Store.{IsSettled};
ghost use Rattle.line_store.specs.Reading.{line_of, output_file, image_file, log_file, ranks_of, output_of};

use crate::fault::StoreFault;
use crate::files::{extend, replace, shorten};
use c3_io::Failed;
use disk_model::Disk;
use image_text::{Image, write_image};
use late_logs::{Log, write_log};
use std::alloc::Global;

/// Puts these bytes behind a rank's output.
pub fn append_output<D: Disk>(disk: &mut D, rank: u16, bytes: &[u8]) -> Result<(), StoreFault>
    requires { output_file rank < D.files }
    ensures quiet { D.told → (text : List ℕ) → (s : Standing) → IsHeld text (D.view disk.old) s → rank < ranks_of text → IsQuiet text (D.view disk.old) (D.view disk.new) }
    ensures held { D.told → (text : List ℕ) → (s : Standing) → IsHeld text (D.view disk.old) s → rank < ranks_of text → OnOk result (IsHeld text (D.view disk.new) (appended s rank bytes.now)) }
    ensures others { D.told → Spares (output_file rank) (D.view disk.old) (D.view disk.new) }
    ensures settled { D.told → IsSettled (D.view disk.old) → IsSettled (D.view disk.new) }
    ensures cause { HasCause (D.faults disk.old) (D.faults disk.new) result }
    ensures kind { IfErr result (λ fault. fault ≡ DiskFault) }
{
    extend(disk, 5 + 5 * u32::from(rank), bytes)?;
    Ok(())
}

/// Syncs a rank's output, and saves its image for the next line in the slot that no committed line uses.
pub fn save_local<D: Disk>(alloc: Global, disk: &mut D, image: &Image) -> Result<(), StoreFault>
    requires file { image_file image.now.rank image.now.line < D.files }
    requires fits { IsTrue (image_form.fits image.now) }
    requires next { D.told → image.now.line ≡ line_of ((D.view disk.old).seen 2) + 1 }
    ensures quiet { D.told → (text : List ℕ) → (s : Standing) → IsHeld text (D.view disk.old) s → IsQuiet text (D.view disk.old) (D.view disk.new) }
    ensures held { D.told → (text : List ℕ) → (s : Standing) → IsHeld text (D.view disk.old) s → image.now.rank < ranks_of text → image.now.state.output ≤ length (s.outputs image.now.rank)
        → OnOk result (IsHeld text (D.view disk.new) (with_image s image.now.rank (image_form.text image.now))) }
    ensures others { D.told → Spares (image_file image.now.rank image.now.line) (D.view disk.old) (D.view disk.new) }
    ensures settled { D.told → IsSettled (D.view disk.old) → IsSettled (D.view disk.new) }
    ensures cause { HasReason (D.faults disk.old) (D.faults disk.new) result }
    ensures no_fault { IfErr result (λ fault. fault ≢ DiskFault → D.faults disk.new ≡ D.faults disk.old) }
    ensures kind { IfErr result IsPlain }
{
    let text = write_image(alloc, image)?;
    put_image(disk, image.rank, image.line, &text)?;
    Ok(())
}

// Syncs a rank's output, and puts the text of its image.
fn put_image<D: Disk>(disk: &mut D, rank: u16, line: u16, image: &[u8]) -> Result<(), Failed>
    requires file { image_file rank line < D.files }
    requires next { D.told → line ≡ line_of ((D.view disk.old).seen 2) + 1 }
    ensures quiet { D.told → (text : List ℕ) → (s : Standing) → IsHeld text (D.view disk.old) s → IsQuiet text (D.view disk.old) (D.view disk.new) }
    ensures held { D.told → (text : List ℕ) → (s : Standing) → IsHeld text (D.view disk.old) s → rank < ranks_of text → output_of image.now ≤ length (s.outputs rank)
        → OnOk result (IsHeld text (D.view disk.new) (with_image s rank image.now)) }
    ensures others { D.told → Spares (image_file rank line) (D.view disk.old) (D.view disk.new) }
    ensures settled { D.told → IsSettled (D.view disk.old) → IsSettled (D.view disk.new) }
    ensures cause { HasCause (D.faults disk.old) (D.faults disk.new) result }
{
    disk.sync(5 + 5 * u32::from(rank))?;
    replace(disk, 6 + 5 * u32::from(rank) + u32::from(line % 2), image)?;
    Ok(())
}

/// Saves a rank's log for the next line.
pub fn save_log<D: Disk>(alloc: Global, disk: &mut D, log: &Log) -> Result<(), StoreFault>
    requires file { log_file log.now.rank log.now.line < D.files }
    requires fits { IsTrue (log_form.fits log.now) }
    requires next { D.told → log.now.line ≡ line_of ((D.view disk.old).seen 2) + 1 }
    ensures quiet { D.told → (text : List ℕ) → (s : Standing) → IsHeld text (D.view disk.old) s → IsQuiet text (D.view disk.old) (D.view disk.new) }
    ensures held { D.told → (text : List ℕ) → (s : Standing) → IsHeld text (D.view disk.old) s → log.now.rank < ranks_of text
        → OnOk result (IsHeld text (D.view disk.new) (with_log s log.now.rank (log_form.text log.now))) }
    ensures others { D.told → Spares (log_file log.now.rank log.now.line) (D.view disk.old) (D.view disk.new) }
    ensures settled { D.told → IsSettled (D.view disk.old) → IsSettled (D.view disk.new) }
    ensures cause { HasReason (D.faults disk.old) (D.faults disk.new) result }
    ensures no_fault { IfErr result (λ fault. fault ≢ DiskFault → D.faults disk.new ≡ D.faults disk.old) }
    ensures kind { IfErr result IsPlain }
{
    let text = write_log(alloc, log)?;
    put_log(disk, log.rank, log.line, &text)?;
    Ok(())
}

// Puts the text of a rank's log.
fn put_log<D: Disk>(disk: &mut D, rank: u16, line: u16, log: &[u8]) -> Result<(), Failed>
    requires file { log_file rank line < D.files }
    requires next { D.told → line ≡ line_of ((D.view disk.old).seen 2) + 1 }
    ensures quiet { D.told → (text : List ℕ) → (s : Standing) → IsHeld text (D.view disk.old) s → IsQuiet text (D.view disk.old) (D.view disk.new) }
    ensures held { D.told → (text : List ℕ) → (s : Standing) → IsHeld text (D.view disk.old) s → rank < ranks_of text → OnOk result (IsHeld text (D.view disk.new) (with_log s rank log.now)) }
    ensures others { D.told → Spares (log_file rank line) (D.view disk.old) (D.view disk.new) }
    ensures settled { D.told → IsSettled (D.view disk.old) → IsSettled (D.view disk.new) }
    ensures cause { HasCause (D.faults disk.old) (D.faults disk.new) result }
{
    replace(disk, 8 + 5 * u32::from(rank) + u32::from(line % 2), log)?;
    Ok(())
}

/// Cuts the outputs back to these lengths, one per rank, which are the committed line's.
pub fn cut_outputs<D: Disk>(disk: &mut D, lengths: &[u32]) -> Result<(), StoreFault>
    requires ranks { length lengths.now < 2 ^ 16 }
    requires files { 5 * length lengths.now + 5 ≤ D.files }
    requires long { D.told → (rank : ℕ) → rank < length lengths.now → get_or lengths.now rank 0 ≤ length ((D.view disk.old).seen (output_file rank)) }
    ensures quiet { D.told → (text : List ℕ) → (s : Standing) → IsHeld text (D.view disk.old) s → length lengths.now ≡ ranks_of text → IsCutOf (ranks_of text) s lengths.now → IsQuiet text (D.view disk.old) (D.view disk.new) }
    ensures held { D.told → (text : List ℕ) → (s : Standing) → IsHeld text (D.view disk.old) s → length lengths.now ≡ ranks_of text → IsCutOf (ranks_of text) s lengths.now → OnOk result (IsHeld text (D.view disk.new) (cut_back s lengths.now)) }
    ensures stable { D.told → OnOk result ((rank : ℕ) → rank < length lengths.now → IsStable (D.view disk.new) (output_file rank)) }
    ensures others { D.told → (file : ℕ) → ((rank : ℕ) → rank < length lengths.now → file ≢ output_file rank) → (D.view disk.new).seen file ≡ (D.view disk.old).seen file }
    ensures settled { D.told → IsSettled (D.view disk.old) → IsSettled (D.view disk.new) }
    ensures cause { HasCause (D.faults disk.old) (D.faults disk.new) result }
    ensures kind { IfErr result (λ fault. fault ≡ DiskFault) }
{
    for rank in 0..lengths.len() {
        shorten(disk, 5 + 5 * (rank as u32), u64::from(lengths[rank]))?;
    }
    Ok(())
}
