//! Objects, states and images as they are written and read.

ghost use Rattle.std.specs.Prelude.{◌≡◌, ◌++◌, ◌-◌, ◌^◌, IsTrue, OnOk};
ghost use Rattle.file_fields.specs.Forms.{repeated, text_each};
ghost use Rattle.file_fields.specs.Reads.{Reads};
ghost use Rattle.image_text.specs.Texts.{object_form, state_form, image_form, early_form};

use crate::image::Image;
use crate::object::SavedObject;
use crate::state::RankState;
use c3_base::{Cell, NoMemory, append};
use file_fields::{Field, ReadFault, Reading, read_list, write_list};
use mpi_words::{List, Message};
use std::alloc::Global;

impl Field for SavedObject {
    ghost form = { object_form };

    #[tactic(auto, unfolding(crate::specs::Texts::object_form))]
    fn write(&self, text: &mut Vec<u8>) -> Result<(), NoMemory> {
        append(text, &self.serial.to_le_bytes())?;
        append(text, &self.place.to_le_bytes())?;
        write_list(text, self.cells.as_slice())?;
        Ok(())
    }

    #[tactic(auto, unfolding(crate::specs::Texts::object_form))]
    fn read(alloc: Global, text: &mut Reading<'_>) -> Result<Self, ReadFault> {
        let serial = text.u64(0, u64::MAX)?;
        let place = text.u32(0, u32::MAX)?;
        let cells = read_list::<Cell>(alloc, text)?;
        Ok(SavedObject {
            serial,
            place,
            cells,
        })
    }
}

/// The most bytes that a rank may have put out.
const OUTPUT_LIMIT: u32 = 1_048_576;

/// The most operations that a rank makes for one line.
const OPS_LIMIT: u64 = 200_000;

#[tactic(auto, unfolding(crate::specs::Texts::state_form))]
fn write_state(text: &mut Vec<u8>, line: u16, state: &RankState) -> Result<(), NoMemory>
    requires { IsTrue ((state_form line).fits state.now) }
    ensures { OnOk result (text.new.items ≡ text.old.items ++ (state_form line).text state.now) }
{
    append(text, &state.output.to_le_bytes())?;
    append(text, &state.serial.to_le_bytes())?;
    append(text, &state.phase.to_le_bytes())?;
    append(text, &state.calls.to_le_bytes())?;
    write_list(text, state.sites.as_slice())?;
    write_list(text, state.variables.as_slice())?;
    write_list(text, state.objects.as_slice())?;
    Ok(())
}

#[tactic(auto, unfolding(crate::specs::Texts::state_form))]
fn read_state(alloc: Global, text: &mut Reading<'_>, line: u16) -> Result<RankState, ReadFault>
    ensures { Reads (state_form line) text.old text.new result }
{
    let output = text.u32(0, OUTPUT_LIMIT)?;
    let serial = text.u64(1, (1 << 43) * u64::from(line))?;
    let phase = text.u8(0, 2)?;
    let calls = text.u64(0, (1 << 31) * u64::from(line))?;
    let sites = read_list::<u32>(alloc, text)?;
    let variables = read_list::<SavedObject>(alloc, text)?;
    let objects = read_list::<SavedObject>(alloc, text)?;
    Ok(RankState {
        output,
        serial,
        phase,
        calls,
        sites,
        variables,
        objects,
    })
}

fn write_early(text: &mut Vec<u8>, counts: &[u32]) -> Result<(), NoMemory>
    ensures { OnOk result (text.new.items ≡ text.old.items ++ text_each early_form 0 counts.now) }
{
    for count in counts {
        append(text, &count.to_le_bytes())?;
    }
    Ok(())
}

fn read_early(alloc: Global, text: &mut Reading<'_>, ranks: u16) -> Result<List<u32>, ReadFault>
    ensures { Reads (repeated ranks early_form) text.old text.new result }
{
    let mut early = List::new(alloc);
    for rank in 0..ranks {
        early.push(text.u32(0, 200_000)?)?;
    }
    Ok(early)
}

impl Field for Image {
    ghost form = { image_form };

    #[tactic(auto, unfolding(crate::specs::Texts::image_form))]
    fn write(&self, text: &mut Vec<u8>) -> Result<(), NoMemory> {
        append(text, b"C3IM")?;
        append(text, &[1, 0])?;
        append(text, &self.ranks.to_le_bytes())?;
        append(text, &self.rank.to_le_bytes())?;
        append(text, &self.line.to_le_bytes())?;
        append(text, &self.ops.to_le_bytes())?;
        write_state(text, self.line, &self.state)?;
        write_list(text, self.mailbox.as_slice())?;
        write_early(text, self.early.as_slice())?;
        Ok(())
    }

    #[tactic(auto, unfolding(crate::specs::Texts::image_form))]
    fn read(alloc: Global, text: &mut Reading<'_>) -> Result<Self, ReadFault> {
        text.exactly(b"C3IM")?;
        text.exactly(&[1, 0])?;
        let ranks = text.u16(0, u16::MAX)?;
        let rank = text.u16(0, u16::MAX)?;
        let line = text.u16(0, u16::MAX)?;
        let ops = text.u64(0, OPS_LIMIT * u64::from(line))?;
        let state = read_state(alloc, text, line)?;
        let mailbox = read_list::<(u16, Message)>(alloc, text)?;
        let early = read_early(alloc, text, ranks)?;
        Ok(Image {
            ranks,
            rank,
            line,
            ops,
            state,
            mailbox,
            early,
        })
    }
}
