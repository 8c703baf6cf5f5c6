//! How the ranks of a job ended, as it is written and read.

ghost use Rattle.std.specs.Prelude.{◌≡◌, [], ◌∷◌, ◌++◌, ◌^◌, ◌<◌, Ok, Err, IsTrue, IfOk, IfErr, OnOk, length};
ghost use Rattle.file_fields.specs.Forms.{repeated, read_whole};
ghost use Rattle.file_fields.specs.Reads.{Reads, Stopped};
ghost use Rattle.line_store.specs.Answers.{NoText, IsWrong, IsTextOf};
ghost use Rattle.line_store.specs.Texts.{end_form, ends_form, exit_form};

use crate::fault::StoreFault;
use c3_base::{NoMemory, append};
use file_fields::{ReadFault, Reading};
use mpi_words::End;
use std::alloc::Global;

#[tactic(auto, unfolding(crate::specs::Texts::end_form, crate::specs::Texts::exit_form))]
fn write_end(text: &mut Vec<u8>, end: End) -> Result<(), NoMemory>
    ensures { OnOk result (text.new.items ≡ text.old.items ++ end_form.text end) }
{
    match end {
        End::Exit(value) => {
            append(text, &[0])?;
            append(text, &value.to_le_bytes())?;
            Ok(())
        }
        End::Fault(code) => {
            append(text, &[1])?;
            append(text, &u32::from(code).to_le_bytes())?;
            Ok(())
        }
    }
}

/// The text of the ends of all ranks.
#[tactic(auto, unfolding(crate::specs::Texts::ends_form))]
pub fn write_ends(alloc: Global, ends: &[End]) -> Result<Vec<u8>, NoMemory>
    requires ranks { length ends.now < 2 ^ 16 }
    ensures { IfOk result (λ text. text.items ≡ (ends_form (length ends.now)).text ends.now) }
{
    let mut text = Vec::new(alloc);
    append(&mut text, b"C3EN")?;
    append(&mut text, &(ends.len() as u16).to_le_bytes())?;
    for end in ends {
        write_end(&mut text, *end)?;
    }
    Ok(text)
}

#[tactic(auto, unfolding(crate::specs::Texts::exit_form))]
fn read_exit(text: &mut Reading<'_>) -> Result<i32, ReadFault>
    ensures { Reads exit_form text.old text.new result }
{
    let value = text.u32(0, u32::MAX)?;
    Ok(value.cast_signed())
}

#[tactic(auto, unfolding(crate::specs::Texts::end_form))]
fn read_end(text: &mut Reading<'_>) -> Result<End, ReadFault>
    ensures { Reads end_form text.old text.new result }
{
    let tag = text.u8(0, 1)?;
    if tag == 0 {
        let value = read_exit(text)?;
        return Ok(End::Exit(value));
    }
    let code = text.u32(101, 118)?;
    Ok(End::Fault(code as u16))
}

fn push_end(ends: &mut Vec<End>, end: End) -> Result<(), NoMemory>
    ensures { OnOk result (ends.new.items ≡ ends.old.items ++ end ∷ []) }
{
    ends.push(end)?;
    Ok(())
}

// So many ends.
fn read_each(alloc: Global, text: &mut Reading<'_>, ranks: u16) -> Result<Vec<End>, ReadFault>
    ensures ok { IfOk result (λ ends. (repeated ranks (λ at. end_form)).read text.old ≡ Ok (record { value = ends.items; rest = text.new })) }
    ensures err { IfErr result (Stopped (repeated ranks (λ at. end_form)) text.old text.new) }
{
    let mut ends = Vec::new(alloc);
    for _at in 0..ranks {
        let end = read_end(text)?;
        push_end(&mut ends, end)?;
    }
    Ok(ends)
}

// The ends with the magic and the number of ranks before them.
#[tactic(auto, unfolding(crate::specs::Texts::ends_form))]
fn read_all(alloc: Global, text: &mut Reading<'_>, ranks: u16) -> Result<Vec<End>, ReadFault>
    ensures ok { IfOk result (λ ends. (ends_form ranks).read text.old ≡ Ok (record { value = ends.items; rest = text.new })) }
    ensures err { IfErr result (Stopped (ends_form ranks) text.old text.new) }
{
    text.exactly(b"C3EN")?;
    let count = text.u16(ranks, ranks)?;
    let ends = read_each(alloc, text, count)?;
    Ok(ends)
}

/// The ends of so many ranks with this text, which is file 3.
pub fn ends_of(alloc: Global, bytes: &[u8], ranks: u16) -> Result<Vec<End>, StoreFault>
    ensures ok { IfOk result (λ ends. IsTextOf (ends_form ranks) bytes.now ends.items) }
    ensures err { IfErr result (NoText (IsWrong (ends_form ranks) 3 bytes.now)) }
{
    let ends = decode(alloc, bytes, ranks)?;
    Ok(ends)
}

fn decode(alloc: Global, bytes: &[u8], ranks: u16) -> Result<Vec<End>, StoreFault>
    ensures ok { IfOk result (λ ends. read_whole (ends_form ranks) bytes.now ≡ Ok ends.items) }
    ensures err { IfErr result (NoText (IsWrong (ends_form ranks) 3 bytes.now)) }
{
    let mut text = Reading::new(bytes);
    match read_all(alloc, &mut text, ranks) {
        Ok(ends) if text.len() == 0 => Ok(ends),
        Err(ReadFault::NoMemory) => Err(StoreFault::NoMemory),
        _ => Err(StoreFault::Damaged {
            file: 3,
            at: bytes.len().saturating_sub(text.len()) as u64,
        }),
    }
}
