//! A job, and its text.

ghost use Rattle.std.specs.Prelude.{◌≡◌, ◌≤◌, Ok, Err, IsTrue, IfOk, IfErr, length, drop};
ghost use Rattle.file_fields.specs.Forms.{at_end, read_whole};
ghost use Rattle.file_fields.specs.Reads.{Reads};
ghost use Rattle.line_store.specs.declared.fault.StoreFault.TheVariants.{Damaged};
ghost use Rattle.line_store.specs.Answers.{NoText, IsWrong, IsTextOf};
ghost use Rattle.line_store.specs.Texts.{job_form, head_form, program_from};

use crate::fault::StoreFault;
use c3_base::{NoMemory, append};
use file_fields::{ReadFault, Reading};
use mpi_words::List;
use std::alloc::Global;

/// What runs: a program on so many ranks.
#[derive(Drop)]
pub struct Job {
    /// 1 to 16.
    pub ranks: u16,
    /// At most 65,536 bytes.
    pub text: List<u8>,
}

/// The text of a job.
#[tactic(auto, unfolding(crate::specs::Texts::job_form))]
pub fn write_job(alloc: Global, job: &Job) -> Result<Vec<u8>, NoMemory>
    requires { IsTrue (job_form.fits job.now) }
    ensures { IfOk result (λ text. text.items ≡ job_form.text job.now) }
{
    let mut text = Vec::new(alloc);
    append(&mut text, b"C3JB")?;
    append(&mut text, &[1, 0])?;
    append(&mut text, &job.ranks.to_le_bytes())?;
    let program = job.text.as_slice();
    append(&mut text, &(program.len() as u32).to_le_bytes())?;
    append(&mut text, program)?;
    Ok(text)
}

// The number of ranks, and the length of the program text.
#[tactic(auto, unfolding(crate::specs::Texts::head_form))]
fn read_head(text: &mut Reading<'_>) -> Result<(u16, u32), ReadFault>
    ensures { Reads head_form text.old text.new result }
{
    text.exactly(b"C3JB")?;
    text.exactly(&[1, 0])?;
    let ranks = text.u16(1, 16)?;
    let length = text.u32(0, 65536)?;
    Ok((ranks, length))
}

// Equal bytes.
fn list_of(alloc: Global, bytes: &[u8]) -> Result<List<u8>, NoMemory>
    ensures { IfOk result (λ list. list ≡ bytes.now) }
{
    let mut list = List::new(alloc);
    for byte in bytes {
        list.push(*byte)?;
    }
    Ok(list)
}

/// The job with this text, which is file 0.
pub fn read_job(alloc: Global, bytes: &[u8]) -> Result<Job, StoreFault>
    ensures ok { IfOk result (IsTextOf job_form bytes.now) }
    ensures err { IfErr result (NoText (IsWrong job_form 0 bytes.now)) }
{
    let job = decode(alloc, bytes)?;
    Ok(job)
}

fn decode(alloc: Global, bytes: &[u8]) -> Result<Job, StoreFault>
    ensures ok { IfOk result (λ job. read_whole job_form bytes.now ≡ Ok job) }
    ensures err { IfErr result (NoText (IsWrong job_form 0 bytes.now)) }
{
    let mut text = Reading::new(bytes);
    let head = read_head(&mut text);
    let at = bytes.len().saturating_sub(text.len());
    match head {
        Ok((ranks, count)) => read_program(alloc, bytes, at, ranks, count),
        Err(ReadFault::Wrong) => Err(damaged(at)),
        Err(ReadFault::NoMemory) => Err(StoreFault::NoMemory),
    }
}

// The job whose program text follows, so long and no longer.
fn read_program(
    alloc: Global,
    bytes: &[u8],
    at: usize,
    ranks: u16,
    count: u32,
) -> Result<Job, StoreFault>
    requires { at ≤ length bytes.now }
    ensures ok { IfOk result (λ job. at_end (length bytes.now) (program_from ranks count (drop at bytes.now)) ≡ Ok job) }
    ensures err { IfErr result (NoText (λ file wrong. (file ≡ 0) × (at_end (length bytes.now) (program_from ranks count (drop at bytes.now)) ≡ Err wrong))) }
{
    let program = &bytes[at..];
    let count = count as usize;
    if program.len() < count {
        return Err(damaged(at));
    }
    if count < program.len() {
        return Err(damaged(at + count));
    }
    let text = list_of(alloc, program)?;
    Ok(Job { ranks, text })
}

fn damaged(at: usize) -> StoreFault
    ensures { result ≡ Damaged 0 at }
{
    StoreFault::Damaged {
        file: 0,
        at: at as u64,
    }
}
