//! What is read of a job's files.

ghost use Rattle.std.specs.Prelude.{◌≡◌, ◌≢◌, ◌≤◌, ◌<◌, ◌+◌, ◌*◌, IfOk, IfErr, IsTrue, OnOk, List, ℕ, length, true};
ghost use Rattle.c3_io.specs.Faults.{HasCause};
ghost use Rattle.disk_model.specs.Runs.{Keeps};
ghost use Rattle.image_text.specs.Texts.{image_form};
ghost use Rattle.late_logs.specs.Texts.{log_form};
ghost use Rattle.line_store.specs.declared.fault.StoreFault.TheVariants.{DiskFault};
ghost use Rattle.line_store.specs.Answers.{HasReason, IsPlain, Refused, IsWrong, IsTextOf, IsNoJob};
ghost use Rattle.line_store.specs.Held.{Standing, IsHeld, AreWell};
ghost use Rattle.line_store.specs.Loads.{AllFit, AreTexts, AreOf, IsImageWrong, IsLogWrong, IsLineWrong};
ghost use Rattle.line_store.specs.Reading.{opens_gate, opens_end, output_file, image_file, log_file, ranks_of};
ghost use Rattle.line_store.specs.Texts.{job_form, ends_form};

use crate::codes::ends_of;
use crate::fault::StoreFault;
use crate::files::byte_at;
use crate::job::{Job, read_job};
use c3_base::append;
use disk_model::Disk;
use image_text::{Image, NotImage, read_image};
use late_logs::{Log, NotLog, read_log};
use mpi_words::End;
use std::alloc::Global;

const PIECE: usize = 4096;

// All bytes of a file.
fn whole_file<D: Disk>(alloc: Global, disk: &mut D, file: u32) -> Result<Vec<u8>, StoreFault>
    requires { file < D.files }
    ensures bytes { D.told → IfOk result (λ bytes. bytes.items ≡ (D.view disk.old).seen file) }
    ensures keeps { D.told → Keeps (D.view disk.old) (D.view disk.new) }
    ensures cause { HasReason (D.faults disk.old) (D.faults disk.new) result }
    ensures no_fault { IfErr result (λ fault. fault ≢ DiskFault → D.faults disk.new ≡ D.faults disk.old) }
    ensures kind { IfErr result IsPlain }
{
    let mut bytes = Vec::new(alloc);
    let mut piece = [0u8; PIECE];
    for _at in 0..u64::MAX {
        let count = disk.read(file, bytes.len() as u64, &mut piece)?;
        if count == 0 {
            return Ok(bytes);
        }
        append(&mut bytes, &piece[..count])?;
    }
    Ok(bytes)
}

/// Whether the job is finished.
pub fn ended<D: Disk>(disk: &mut D) -> Result<bool, StoreFault>
    requires { 5 ≤ D.files }
    ensures end { D.told → IfOk result (λ ended. ended ≡ opens_end ((D.view disk.old).seen 4)) }
    ensures keeps { D.told → Keeps (D.view disk.old) (D.view disk.new) }
    ensures cause { HasCause (D.faults disk.old) (D.faults disk.new) result }
    ensures kind { IfErr result (λ fault. fault ≡ DiskFault) }
{
    let byte = byte_at(disk, 4, 0)?;
    Ok(byte == 0x45)
}

/// The job that is there.
pub fn find_job<D: Disk>(alloc: Global, disk: &mut D) -> Result<Job, StoreFault>
    requires { 5 ≤ D.files }
    ensures fits { IfOk result (λ job. IsTrue (job_form.fits job)) }
    ensures there { D.told → OnOk result (opens_gate ((D.view disk.old).seen 1) ≡ true) }
    ensures found { D.told → IfOk result (IsTextOf job_form ((D.view disk.old).seen 0)) }
    ensures none { D.told → IfErr result (IsNoJob (opens_gate ((D.view disk.old).seen 1)) ((D.view disk.old).seen 0)) }
    ensures keeps { D.told → Keeps (D.view disk.old) (D.view disk.new) }
    ensures cause { HasReason (D.faults disk.old) (D.faults disk.new) result }
    ensures no_fault { IfErr result (λ fault. fault ≢ DiskFault → D.faults disk.new ≡ D.faults disk.old) }
{
    let gate = byte_at(disk, 1, 0)?;
    if gate != 0x4A {
        return Err(StoreFault::NoJob);
    }
    let bytes = whole_file(alloc, disk, 0)?;
    let job = read_job(alloc, &bytes)?;
    Ok(job)
}

/// How so many ranks of a finished job ended.
pub fn read_ends<D: Disk>(alloc: Global, disk: &mut D, ranks: u16) -> Result<Vec<End>, StoreFault>
    requires { 5 ≤ D.files }
    ensures fits { IfOk result (λ ends. IsTrue ((ends_form ranks).fits ends.items)) }
    ensures read { D.told → IfOk result (λ ends. IsTextOf (ends_form ranks) ((D.view disk.old).seen 3) ends.items) }
    ensures damaged { D.told → IfErr result (Refused (IsWrong (ends_form ranks) 3 ((D.view disk.old).seen 3))) }
    ensures keeps { D.told → Keeps (D.view disk.old) (D.view disk.new) }
    ensures cause { HasReason (D.faults disk.old) (D.faults disk.new) result }
    ensures no_fault { IfErr result (λ fault. fault ≢ DiskFault → D.faults disk.new ≡ D.faults disk.old) }
{
    let bytes = whole_file(alloc, disk, 3)?;
    let ends = ends_of(alloc, &bytes, ranks)?;
    Ok(ends)
}

/// The most bytes of a rank's output.
const OUTPUT_LIMIT: u64 = 1_048_576;

/// A rank's output.
pub fn read_output<D: Disk>(alloc: Global, disk: &mut D, rank: u16) -> Result<Vec<u8>, StoreFault>
    requires { output_file rank < D.files }
    ensures read { D.told → IfOk result (λ bytes. bytes.items ≡ (D.view disk.old).seen (output_file rank)) }
    ensures short { D.told → OnOk result (length ((D.view disk.old).seen (output_file rank)) ≤ 1048576) }
    ensures long { D.told → IfErr result (Refused (λ file at. (file ≡ output_file rank) × (at ≡ 1048576) × (1048576 < length ((D.view disk.old).seen (output_file rank))))) }
    ensures keeps { D.told → Keeps (D.view disk.old) (D.view disk.new) }
    ensures cause { HasReason (D.faults disk.old) (D.faults disk.new) result }
    ensures no_fault { IfErr result (λ fault. fault ≢ DiskFault → D.faults disk.new ≡ D.faults disk.old) }
{
    let file = 5 + 5 * u32::from(rank);
    let length = disk.length(file)?;
    if length > OUTPUT_LIMIT {
        return Err(StoreFault::Damaged {
            file,
            at: OUTPUT_LIMIT,
        });
    }
    let bytes = whole_file(alloc, disk, file)?;
    Ok(bytes)
}

// A rank's image.
fn load_image<D: Disk>(
    alloc: Global,
    disk: &mut D,
    rank: u16,
    line: u16,
) -> Result<Image, StoreFault>
    requires { image_file rank line < D.files }
    ensures fits { IfOk result (λ image. IsTrue (image_form.fits image)) }
    ensures read { D.told → IfOk result (λ image. IsTextOf image_form ((D.view disk.old).seen (image_file rank line)) image) }
    ensures wrong { D.told → IfErr result (Refused (IsWrong image_form (image_file rank line) ((D.view disk.old).seen (image_file rank line)))) }
    ensures keeps { D.told → Keeps (D.view disk.old) (D.view disk.new) }
    ensures cause { HasReason (D.faults disk.old) (D.faults disk.new) result }
    ensures no_fault { IfErr result (λ fault. fault ≢ DiskFault → D.faults disk.new ≡ D.faults disk.old) }
{
    let file = 6 + 5 * u32::from(rank) + u32::from(line % 2);
    let bytes = whole_file(alloc, disk, file)?;
    match read_image(alloc, &bytes) {
        Ok(image) => Ok(image),
        Err(NotImage::Wrong { at }) => Err(StoreFault::Damaged {
            file,
            at: at as u64,
        }),
        Err(NotImage::NoMemory) => Err(StoreFault::NoMemory),
    }
}

// A rank's log.
fn load_log<D: Disk>(alloc: Global, disk: &mut D, rank: u16, line: u16) -> Result<Log, StoreFault>
    requires { log_file rank line < D.files }
    ensures fits { IfOk result (λ log. IsTrue (log_form.fits log)) }
    ensures read { D.told → IfOk result (λ log. IsTextOf log_form ((D.view disk.old).seen (log_file rank line)) log) }
    ensures wrong { D.told → IfErr result (Refused (IsWrong log_form (log_file rank line) ((D.view disk.old).seen (log_file rank line)))) }
    ensures keeps { D.told → Keeps (D.view disk.old) (D.view disk.new) }
    ensures cause { HasReason (D.faults disk.old) (D.faults disk.new) result }
    ensures no_fault { IfErr result (λ fault. fault ≢ DiskFault → D.faults disk.new ≡ D.faults disk.old) }
{
    let file = 8 + 5 * u32::from(rank) + u32::from(line % 2);
    let bytes = whole_file(alloc, disk, file)?;
    match read_log(alloc, &bytes) {
        Ok(log) => Ok(log),
        Err(NotLog::Wrong { at }) => Err(StoreFault::Damaged {
            file,
            at: at as u64,
        }),
        Err(NotLog::NoMemory) => Err(StoreFault::NoMemory),
    }
}

// The images of all ranks.
fn load_images<D: Disk>(
    alloc: Global,
    disk: &mut D,
    ranks: u16,
    line: u16,
) -> Result<Vec<Image>, StoreFault>
    requires { 5 * ranks + 5 ≤ D.files }
    ensures fit { IfOk result (λ images. AllFit image_form ranks images.items) }
    ensures read { D.told → IfOk result (λ images. AreTexts image_form ranks (λ r. (D.view disk.old).seen (image_file r line)) images.items) }
    ensures wrong { D.told → IfErr result (Refused (IsImageWrong (D.view disk.old).seen ranks line)) }
    ensures keeps { D.told → Keeps (D.view disk.old) (D.view disk.new) }
    ensures cause { HasReason (D.faults disk.old) (D.faults disk.new) result }
    ensures no_fault { IfErr result (λ fault. fault ≢ DiskFault → D.faults disk.new ≡ D.faults disk.old) }
{
    let mut images = Vec::new(alloc);
    for rank in 0..ranks {
        images.push(load_image(alloc, disk, rank, line)?)?;
    }
    Ok(images)
}

// The logs of all ranks.
fn load_logs<D: Disk>(
    alloc: Global,
    disk: &mut D,
    ranks: u16,
    line: u16,
) -> Result<Vec<Log>, StoreFault>
    requires { 5 * ranks + 5 ≤ D.files }
    ensures fit { IfOk result (λ logs. AllFit log_form ranks logs.items) }
    ensures read { D.told → IfOk result (λ logs. AreTexts log_form ranks (λ r. (D.view disk.old).seen (log_file r line)) logs.items) }
    ensures wrong { D.told → IfErr result (Refused (IsLogWrong (D.view disk.old).seen ranks line)) }
    ensures keeps { D.told → Keeps (D.view disk.old) (D.view disk.new) }
    ensures cause { HasReason (D.faults disk.old) (D.faults disk.new) result }
    ensures no_fault { IfErr result (λ fault. fault ≢ DiskFault → D.faults disk.new ≡ D.faults disk.old) }
{
    let mut logs = Vec::new(alloc);
    for rank in 0..ranks {
        logs.push(load_log(alloc, disk, rank, line)?)?;
    }
    Ok(logs)
}

/// The images and logs of a line above 0. Damaged names the first image that is none, and otherwise the first log.
pub fn load_line<D: Disk>(
    alloc: Global,
    disk: &mut D,
    job: &Job,
    line: u16,
) -> Result<(Vec<Image>, Vec<Log>), StoreFault>
    requires { 5 * job.now.ranks + 5 ≤ D.files }
    ensures images_fit { IfOk result (λ loaded. AllFit image_form job.now.ranks loaded.0.items) }
    ensures logs_fit { IfOk result (λ loaded. AllFit log_form job.now.ranks loaded.1.items) }
    ensures images { D.told → IfOk result (λ loaded. AreTexts image_form job.now.ranks (λ r. (D.view disk.old).seen (image_file r line)) loaded.0.items) }
    ensures logs { D.told → IfOk result (λ loaded. AreTexts log_form job.now.ranks (λ r. (D.view disk.old).seen (log_file r line)) loaded.1.items) }
    ensures damaged { D.told → IfErr result (Refused (IsLineWrong (D.view disk.old).seen job.now.ranks line)) }
    ensures held { D.told → (text : List ℕ) → (s : Standing) → IsHeld text (D.view disk.old) s → job.now.ranks ≡ ranks_of text → line ≡ s.line → 0 < line → IfOk result (λ loaded. AreOf (ranks_of text) loaded.0.items loaded.1.items s) }
    ensures well { D.told → (text : List ℕ) → (s : Standing) → IsHeld text (D.view disk.old) s → job.now.ranks ≡ ranks_of text → line ≡ s.line → 0 < line → AreWell (ranks_of text) s → IfErr result IsPlain }
    ensures keeps { D.told → Keeps (D.view disk.old) (D.view disk.new) }
    ensures cause { HasReason (D.faults disk.old) (D.faults disk.new) result }
    ensures no_fault { IfErr result (λ fault. fault ≢ DiskFault → D.faults disk.new ≡ D.faults disk.old) }
{
    let images = load_images(alloc, disk, job.ranks, line)?;
    let logs = load_logs(alloc, disk, job.ranks, line)?;
    Ok((images, logs))
}
