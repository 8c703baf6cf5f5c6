//! A call that is under way.

ghost use Rattle.std.specs.Prelude.{◌≡◌, ◌+◌, ◌<◌, ◌^◌, IfOk};

use c_values::value::Variables;
use c3_base::NoMemory;

/// A call that is under way: its function, the place of its next instruction, or of the `Call` that waits, and its variables.
#[derive(Clone, Copy)]
pub struct Frame {
    pub function: usize,
    pub place: usize,
    pub variables: Variables,
    ghost reach: { variables.first + variables.count < 2 ^ 64 },
}

/// The place after another. There is none after the last of `usize`, which no code is long enough for.
pub fn after(place: usize) -> Result<usize, NoMemory>
    ensures { IfOk result (λ next. next ≡ place + 1) }
{
    match place.checked_add(1) {
        None => Err(NoMemory),
        Some(next) => Ok(next),
    }
}
