//! Messages.

ghost use Rattle.std.specs.Prelude.{◌≡◌, ◌<◌, ◌++◌, ℕ, OnOk};
ghost use Rattle.file_fields.specs.Forms.{repeated, text_each};
ghost use Rattle.mpi_words.specs.declared.message.Datatype.{Datatype as Kind};
ghost use Rattle.file_fields.specs.Messages as spec;
ghost use Rattle.file_fields.specs.Reads.{Reads};

use crate::field::Field;
use crate::reading::{ReadFault, Reading};
use c3_base::{NoMemory, append};
use mpi_words::{Datatype, List, Message};
use std::alloc::Global;

fn code_of(kind: Datatype) -> u8
    ensures { result ≡ spec.code_of kind }
{
    match kind {
        Datatype::Char => 0,
        Datatype::Int => 1,
        Datatype::Long => 2,
    }
}

#[tactic(auto, unfolding(crate::specs::Messages::kind_form))]
fn read_kind(text: &mut Reading<'_>) -> Result<Datatype, ReadFault>
    ensures { Reads spec.kind_form text.old text.new result }
{
    match text.u8(0, 2)? {
        0 => Ok(Datatype::Char),
        1 => Ok(Datatype::Int),
        _ => Ok(Datatype::Long),
    }
}

// The least and the most that a value of a kind may be.
fn range_of(kind: Datatype) -> (i64, i64)
    ensures least { result.0 ≡ spec.least_of kind }
    ensures most { result.1 ≡ spec.most_of kind }
{
    match kind {
        Datatype::Char => (-128, 127),
        Datatype::Int => (-2147483648, 2147483647),
        Datatype::Long => (i64::MIN, i64::MAX),
    }
}

// The least and the most that the item at a place may be.
fn item_range(context: u8, kind: Datatype, count: u32, at: u32) -> (i64, i64)
    requires { at < count }
    ensures least { result.0 ≡ spec.least_item context kind count at }
    ensures most { result.1 ≡ spec.most_item context kind count at }
{
    if context == 0 || at > 3 {
        return range_of(kind);
    }
    if at == 2 {
        let values = i64::from(count.saturating_sub(4));
        return (values, values);
    }
    (i64::MIN, i64::MAX)
}

fn least_count(context: u8) -> u32
    ensures { result ≡ spec.least_count context }
{
    if context == 0 { 0 } else { 4 }
}

fn most_count(context: u8) -> u32
    ensures { result ≡ spec.most_count context }
{
    if context == 0 { 4096 } else { 4100 }
}

#[tactic(auto, unfolding(crate::specs::Forms::signed))]
fn write_items(text: &mut Vec<u8>, items: &[i64]) -> Result<(), NoMemory>
    ensures { OnOk result ((context count : ℕ) (kind : Kind) → text.new.items ≡ text.old.items ++ text_each (spec.item_form context kind count) 0 items.now) }
{
    for item in items {
        append(text, &item.to_le_bytes())?;
    }
    Ok(())
}

#[tactic(auto, unfolding(crate::specs::Forms::repeated))]
fn read_items(
    alloc: Global,
    text: &mut Reading<'_>,
    context: u8,
    kind: Datatype,
    count: u32,
) -> Result<List<i64>, ReadFault>
    ensures { Reads (repeated count (spec.item_form context kind count)) text.old text.new result }
{
    let mut items = List::new(alloc);
    for at in 0..count {
        let (least, most) = item_range(context, kind, count, at);
        items.push(text.i64(least, most)?)?;
    }
    Ok(items)
}

impl Field for Message {
    ghost use Rattle.file_fields.specs.Messages.{message_form};

    ghost form = { message_form };

    #[tactic(auto, unfolding(crate::specs::Messages::message_form))]
    fn write(&self, text: &mut Vec<u8>) -> Result<(), NoMemory> {
        append(text, &self.context.to_le_bytes())?;
        append(text, &code_of(self.kind).to_le_bytes())?;
        append(text, &self.tag.to_le_bytes())?;
        let items = self.items.as_slice();
        append(text, &(items.len() as u32).to_le_bytes())?;
        write_items(text, items)?;
        Ok(())
    }

    #[tactic(auto, unfolding(crate::specs::Messages::message_form))]
    fn read(alloc: Global, text: &mut Reading<'_>) -> Result<Self, ReadFault> {
        let context = text.u8(0, 1)?;
        let kind = read_kind(text)?;
        let tag = text.i64(0, i64::MAX)?;
        let count = text.u32(least_count(context), most_count(context))?;
        let items = read_items(alloc, text, context, kind, count)?;
        Ok(Message {
            context,
            kind,
            tag,
            items,
        })
    }
}

/// A message from a rank.
impl Field for (u16, Message) {
    ghost use Rattle.file_fields.specs.Messages.{arrival_form};

    ghost form = { arrival_form };

    #[tactic(auto, unfolding(crate::specs::Messages::arrival_form))]
    fn write(&self, text: &mut Vec<u8>) -> Result<(), NoMemory> {
        append(text, &self.0.to_le_bytes())?;
        self.1.write(text)?;
        Ok(())
    }

    #[tactic(auto, unfolding(crate::specs::Messages::arrival_form))]
    fn read(alloc: Global, text: &mut Reading<'_>) -> Result<Self, ReadFault> {
        let source = text.u16(0, u16::MAX)?;
        let message = Message::read(alloc, text)?;
        Ok((source, message))
    }
}
