ghost use Rattle.std.specs.Prelude.{◌≡◌, ◌+◌, IfOk};

use std::alloc::AllocError;

/// A sum of places and sizes, unless it is too large.
pub fn more(m: usize, n: usize) -> Result<usize, AllocError>
    ensures { IfOk result (λ sum. sum ≡ m + n) }
{
    match m.checked_add(n) {
        None => Err(AllocError),
        Some(sum) => Ok(sum),
    }
}
