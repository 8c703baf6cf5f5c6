//! The places that have labels.

ghost use Rattle.std.specs.Prelude.{◌≡◌, ◌++◌, ◌<◌, ℕ, Bool, true, IfOk, OnOk, Some, length, slice_get, slice_set};
ghost use Rattle.flat_code.specs.Text.{is_target, label_line, label_text, targets};
ghost use Rattle.flat_code.specs.Labels.{marked};

use crate::code::Instr;
use c3_base::{NoMemory, append, append_number};
use std::alloc::Global;

/// For each place of the code whether it has a label.
pub fn labels(alloc: Global, code: &[Instr]) -> Result<Vec<bool>, NoMemory>
    ensures { IfOk result (λ labels. (k : ℕ) → k < length code.now → slice_get labels.items k ≡ Some (is_target code.now k)) }
{
    let mut labels = vec![in alloc; false; code.len()]?;
    for i in code {
        mark(&mut labels, i);
    }
    Ok(labels)
}

// The places where an instruction may lead.
fn mark(labels: &mut Vec<bool>, i: &Instr)
    ensures { labels.new.items ≡ marked labels.old.items (targets i.now) }
{
    match i {
        Instr::Goto(to) => mark_place(labels, *to),
        Instr::Unless { to, .. } => mark_place(labels, *to),
        Instr::Enter { sites, .. } => {
            for site in sites.as_slice() {
                mark_place(labels, site.place);
            }
        }
        _ => {}
    }
}

fn mark_place(labels: &mut Vec<bool>, place: usize)
    ensures { labels.new.items ≡ slice_set labels.old.items place true }
{
    if place < labels.len() {
        labels[place] = true;
    }
}

/// Whether a place has a label.
pub fn is_labelled(labels: &[bool], place: usize) -> bool
    ensures { (label : Bool) → slice_get labels.now place ≡ Some label → result ≡ label }
{
    match labels.get(place) {
        None => false,
        Some(label) => *label,
    }
}

/// The line of a label, where there is one.
pub fn put_label_line(
    alloc: Global,
    text: &mut Vec<u8>,
    labelled: bool,
    place: usize,
) -> Result<(), NoMemory>
    ensures { OnOk result (text.new.items ≡ text.old.items ++ label_line labelled place) }
{
    if labelled {
        put_label(alloc, text, place)?;
        append(text, b":\n")?;
    }
    Ok(())
}

/// A label.
pub fn put_label(alloc: Global, text: &mut Vec<u8>, place: usize) -> Result<(), NoMemory>
    ensures { OnOk result (text.new.items ≡ text.old.items ++ label_text place) }
{
    append(text, b"L")?;
    append_number(alloc, text, place as u64)
}
