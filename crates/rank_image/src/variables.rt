//! The row of variables.

ghost use Rattle.std.specs.Prelude.{◌≡◌, ◌<◌, ◌^◌, ◌↔◌, IsTrue, map};
ghost use Rattle.std.specs.List.{All};
ghost use Rattle.c_memory.specs.Order.{IsRising};
ghost use Rattle.rank_machine.specs.WellFormed.{IsBelow, serial_of, span_of};
ghost use Rattle.rank_image.specs.Along.{spans_seen};

use crate::spans::Span;
use image_text::SavedObject;

/// Whether variables have these spans.
pub fn have_spans(variables: &[SavedObject], spans: &[Span]) -> bool
    ensures { IsTrue result ↔ (map span_of variables.now ≡ spans_seen spans.now) }
{
    if variables.len() != spans.len() {
        return false;
    }
    for (at, v) in variables.iter().enumerate() {
        if v.place != spans[at].place || v.cells.as_slice().len() != spans[at].length as usize {
            return false;
        }
    }
    true
}

/// Whether serials ascend, from 1 on.
pub fn ascend(variables: &[SavedObject]) -> bool
    ensures { IsTrue result ↔ IsRising serial_of 1 variables.now (2 ^ 64) }
{
    let mut last = 0;
    for v in variables {
        if v.serial <= last {
            return false;
        }
        last = v.serial;
    }
    true
}

/// Whether no serial is the next one's or greater, those of cells included.
pub fn are_below(objects: &[SavedObject], next: u64) -> bool
    ensures { IsTrue result ↔ All (IsBelow next) objects.now }
{
    for o in objects {
        if !is_below(o, next) {
            return false;
        }
    }
    true
}

pub fn is_below(o: &SavedObject, next: u64) -> bool
    ensures { IsTrue result ↔ IsBelow next o.now }
{
    if o.serial >= next {
        return false;
    }
    for cell in o.cells.as_slice() {
        if cell.serial >= next {
            return false;
        }
    }
    true
}
