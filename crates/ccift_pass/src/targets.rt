//! Where jumps lead in passed code.

ghost use Rattle.std.specs.Prelude.{◌≡◌, ◌+◌, IfOk};
ghost use Rattle.ccift_pass.specs.Passed as spec;

use flat_code::{Instr, more};
use std::alloc::{AllocError, Global};

/// For each place of the code, and its end, the place where what stands there begins in passed code.
pub fn table(alloc: Global, code: &[Instr]) -> Result<Vec<usize>, AllocError>
    ensures { IfOk result (λ found. found.items ≡ spec.table code.now) }
{
    let mut found = Vec::new(alloc);
    let mut place: usize = 1;
    found.push(place)?;
    for i in code {
        place = more(place, width(i))?;
        found.push(place)?;
    }
    Ok(found)
}

/// The target of a jump to a place. Past the code's end it is the end.
pub fn target(targets: &[usize], place: usize) -> usize
    ensures { result ≡ spec.target_in targets.now place }
{
    match targets.get(place.min(targets.len().saturating_sub(1))) {
        None => 0,
        Some(target) => *target,
    }
}

/// How many instructions an instruction is passed to.
pub fn width(i: &Instr) -> usize
    ensures { result ≡ spec.width i.now }
{
    match i {
        Instr::Call { .. } | Instr::Mark(_) => 3,
        Instr::Return(_) => 2,
        _ => 1,
    }
}
