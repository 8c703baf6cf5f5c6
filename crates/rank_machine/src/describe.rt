//! Descriptors of variables.

ghost use Rattle.std.specs.Prelude.{◌≡◌, ◌++◌, ◌+◌, ◌-◌, ◌<◌, ◌^◌, IfOk, drop, length, map, reverse, take};
ghost use Rattle.c_memory.specs.Memory.{total, used};
ghost use Rattle.flat_code.specs.Machine.{descriptors};
ghost use Rattle.rank_machine.specs.Blocks.{blocks_of};
ghost use Rattle.rank_machine.specs.Layout.{described_by, size_at, sizes_in};

use crate::memory::PlacedMemory;
use c_values::value::Variables;
use c3_base::NoMemory;
use variable_stack::{Descriptor, VariableStack};

/// The variables of the newest call get descriptors.
pub fn describe(
    described: &mut VariableStack,
    memory: &PlacedMemory,
    variables: Variables,
) -> Result<(), NoMemory>
    requires { variables.first + variables.count < 2 ^ 64 }
    ensures blocks { IfOk result (λ done. blocks_of described.new ≡ blocks_of described.old ++ described_by memory.now.memory variables) }
    ensures serials { IfOk result (λ done. reverse (map (λ d. d.serial) described.new) ≡ descriptors variables ++ reverse (map (λ d. d.serial) described.old)) }
{
    let mut place = first_place(memory, variables);
    for k in 0..variables.count {
        let serial = variables.first + k as u64;
        let length = size(memory, serial)?;
        described.push(Descriptor {
            serial,
            place,
            length,
        })?;
        place = after_cells(place, length)?;
    }
    Ok(())
}

/// So many of the newest descriptors go.
pub fn forget(described: &mut VariableStack, count: usize)
    ensures blocks { blocks_of described.new ≡ take (length (blocks_of described.old) - count) (blocks_of described.old) }
    ensures serials { reverse (map (λ d. d.serial) described.new) ≡ drop count (reverse (map (λ d. d.serial) described.old)) }
{
    described.cut(count);
}

// Where the first of the newest call's variables stands.
fn first_place(memory: &PlacedMemory, variables: Variables) -> u32
    requires { variables.first + variables.count < 2 ^ 64 }
    ensures { result ≡ used memory.now.memory - total (sizes_in memory.now.memory variables) }
{
    let mut place = memory.in_use();
    for k in 0..variables.count {
        let cells = memory.object(variables.first + k as u64);
        place = place.saturating_sub(cells.len());
    }
    place as u32
}

// How many cells an object has.
fn size(memory: &PlacedMemory, serial: u64) -> Result<u32, NoMemory>
    ensures { IfOk result (λ n. n ≡ size_at memory.now.memory serial) }
{
    match u32::try_from(memory.object(serial).len()) {
        Err(_) => Err(NoMemory),
        Ok(n) => Ok(n),
    }
}

// The place after so many cells. No stack has places that are too great for it.
fn after_cells(place: u32, length: u32) -> Result<u32, NoMemory>
    ensures { IfOk result (λ next. next ≡ place + length) }
{
    match place.checked_add(length) {
        None => Err(NoMemory),
        Some(next) => Ok(next),
    }
}
