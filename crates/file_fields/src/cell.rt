//! Cells.

ghost use Rattle.file_fields.specs.Cells.{cell_form};

use crate::field::Field;
use crate::reading::{ReadFault, Reading};
use c3_base::{Cell, NoMemory, append};
use std::alloc::Global;

impl Field for Cell {
    ghost form = { cell_form };

    #[tactic(auto, unfolding(crate::specs::Cells::cell_form))]
    fn write(&self, text: &mut Vec<u8>) -> Result<(), NoMemory> {
        append(text, &self.word.to_le_bytes())?;
        append(text, &self.serial.to_le_bytes())?;
        Ok(())
    }

    #[tactic(auto, unfolding(crate::specs::Cells::cell_form))]
    fn read(_: Global, text: &mut Reading<'_>) -> Result<Self, ReadFault> {
        let word = text.i64(i64::MIN, i64::MAX)?;
        let serial = text.u64(0, u64::MAX)?;
        Ok(Cell { word, serial })
    }
}
