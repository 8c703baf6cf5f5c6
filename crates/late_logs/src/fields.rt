//! Entries and logs as they are written and read.

ghost use Rattle.late_logs.specs.Texts.{entry_form, log_form};

use crate::entry::Entry;
use crate::log::Log;
use c3_base::{NoMemory, append};
use file_fields::{Field, ReadFault, Reading, read_list, write_list};
use mpi_words::Message;
use std::alloc::Global;

impl Field for Entry {
    ghost form = { entry_form };

    fn write(&self, text: &mut Vec<u8>) -> Result<(), NoMemory> {
        match self {
            Entry::Intra { source } => {
                append(text, &[0])?;
                append(text, &source.to_le_bytes())?;
                Ok(())
            }
            Entry::Late { source, message } => {
                append(text, &[1])?;
                append(text, &source.to_le_bytes())?;
                message.write(text)?;
                Ok(())
            }
        }
    }

    #[tactic(auto, unfolding(crate::specs::Texts::entry_form))]
    fn read(alloc: Global, text: &mut Reading<'_>) -> Result<Self, ReadFault> {
        let tag = text.u8(0, 1)?;
        if tag == 0 {
            let source = text.u16(0, u16::MAX)?;
            return Ok(Entry::Intra { source });
        }
        let (source, message) = <(u16, Message)>::read(alloc, text)?;
        Ok(Entry::Late { source, message })
    }
}

/// The most operations that a rank makes for one line.
const OPS_LIMIT: u64 = 200_000;

impl Field for Log {
    ghost form = { log_form };

    fn write(&self, text: &mut Vec<u8>) -> Result<(), NoMemory> {
        append(text, b"C3LG")?;
        append(text, &[1, 0])?;
        append(text, &self.ranks.to_le_bytes())?;
        append(text, &self.rank.to_le_bytes())?;
        append(text, &self.line.to_le_bytes())?;
        append(text, &self.stop.to_le_bytes())?;
        write_list(text, self.entries.as_slice())?;
        Ok(())
    }

    #[tactic(auto, unfolding(crate::specs::Texts::log_form))]
    fn read(alloc: Global, text: &mut Reading<'_>) -> Result<Self, ReadFault> {
        text.exactly(b"C3LG")?;
        text.exactly(&[1, 0])?;
        let ranks = text.u16(0, u16::MAX)?;
        let rank = text.u16(0, u16::MAX)?;
        let line = text.u16(0, u16::MAX)?;
        let stop = text.u64(0, OPS_LIMIT * u64::from(line) + OPS_LIMIT)?;
        let entries = read_list::<Entry>(alloc, text)?;
        Ok(Log {
            ranks,
            rank,
            line,
            stop,
            entries,
        })
    }
}
