//! Types whose values are written in files.

ghost use Rattle.std.specs.Prelude.{◌≡◌, ◌++◌, ◌^◌, ◌-◌, IsTrue, OnOk};
ghost use Rattle.std.specs.Int.{w32};
ghost use Rattle.file_fields.specs.Forms.{Form, number};
ghost use Rattle.file_fields.specs.Reads.{Reads};

use crate::reading::{ReadFault, Reading};
use c3_base::{NoMemory, append};
use std::alloc::Global;

/// A type whose values have a text.
pub trait Field: Sized + Drop {
    ghost form: { Form Self };

    /// Adds the value's text.
    fn write(&self, text: &mut Vec<u8>) -> Result<(), NoMemory>
        requires { IsTrue (form.fits self.now) }
        ensures { OnOk result (text.new.items ≡ text.old.items ++ form.text self.now) };

    fn read(alloc: Global, text: &mut Reading<'_>) -> Result<Self, ReadFault>
        ensures { Reads form text.old text.new result };
}

impl Field for u32 {
    ghost form = { number w32 0 (2 ^ 32 - 1) };

    #[tactic(auto, unfolding(crate::specs::Forms::number))]
    fn write(&self, text: &mut Vec<u8>) -> Result<(), NoMemory> {
        append(text, &self.to_le_bytes())
    }

    fn read(_: Global, text: &mut Reading<'_>) -> Result<Self, ReadFault> {
        text.u32(0, u32::MAX)
    }
}
