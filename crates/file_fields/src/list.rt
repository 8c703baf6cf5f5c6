//! Lists with their counts.

ghost use Rattle.std.specs.Prelude.{◌≡◌, ◌++◌, IsTrue, OnOk};
ghost use Rattle.file_fields.specs.Forms.{counted, repeated};
ghost use Rattle.file_fields.specs.Reads.{Reads};

use crate::field::Field;
use crate::reading::{ReadFault, Reading};
use c3_base::{NoMemory, append};
use mpi_words::List;
use std::alloc::Global;

/// Adds the count and the texts of a list's items.
#[tactic(auto, unfolding(crate::specs::Forms::counted, crate::specs::Forms::repeated))]
pub fn write_list<T: Field>(text: &mut Vec<u8>, items: &[T]) -> Result<(), NoMemory>
    requires { IsTrue ((counted T.form).fits items.now) }
    ensures { OnOk result (text.new.items ≡ text.old.items ++ (counted T.form).text items.now) }
{
    append(text, &(items.len() as u32).to_le_bytes())?;
    for item in items {
        item.write(text)?;
    }
    Ok(())
}

/// Takes a count, and then so many items.
#[tactic(auto, unfolding(crate::specs::Forms::counted))]
pub fn read_list<T: Field>(alloc: Global, text: &mut Reading<'_>) -> Result<List<T>, ReadFault>
    ensures { Reads (counted T.form) text.old text.new result }
{
    let count = text.u32(0, u32::MAX)?;
    let items = read_items(alloc, text, count)?;
    Ok(items)
}

// So many items.
#[tactic(auto, unfolding(crate::specs::Forms::repeated))]
fn read_items<T: Field>(
    alloc: Global,
    text: &mut Reading<'_>,
    count: u32,
) -> Result<List<T>, ReadFault>
    ensures { Reads (repeated count (λ at. T.form)) text.old text.new result }
{
    let mut items = List::new(alloc);
    for _at in 0..count {
        items.push(T::read(alloc, text)?)?;
    }
    Ok(items)
}
