//! What is saved of a program that runs.

ghost use Rattle.std.specs.Prelude.{◌≡◌, IfOk, map, reverse};
ghost use Rattle.rank_machine.specs.Blocks.{blocks_of};
ghost use Rattle.rank_machine.specs.Saving as spec;
ghost use Rattle.rank_machine.specs.Saving.{standing_at, state_with};
ghost use Rattle.rank_machine.specs.Running.{placing_of};

use crate::memory::PlacedMemory;
use crate::running::Running;
use c3_base::NoMemory;
use image_text::{RankState, SavedObject};
use mpi_effects::Phase;
use mpi_words::List;
use std::alloc::Global;
use variable_stack::Descriptor;

impl Running {
    /// What a state holds, where so many collective calls were begun.
    pub fn state(&self, calls: u64) -> Result<RankState, NoMemory>
        ensures { IfOk result (λ state. state ≡ state_with (placing_of self.now) calls) }
    {
        let parts = &self.parts;
        let memory = &parts.world.memory;
        let requests = &parts.world.requests;
        Ok(RankState {
            output: requests.printed as u32,
            serial: memory.next(),
            phase: phase_number(requests.phase),
            calls,
            sites: list(parts.alloc, parts.sites.list())?,
            variables: standing(parts.alloc, memory, parts.described.list())?,
            objects: standing(parts.alloc, memory, memory.blocks())?,
        })
    }
}

fn phase_number(phase: Phase) -> u8
    ensures { result ≡ spec.phase_number phase }
{
    match phase {
        Phase::Before => 0,
        Phase::Inside => 1,
        Phase::After => 2,
    }
}

// What stands at these blocks.
fn standing(
    alloc: Global,
    memory: &PlacedMemory,
    blocks: &[Descriptor],
) -> Result<List<SavedObject>, NoMemory>
    ensures { IfOk result (λ objects. objects ≡ map (standing_at memory.now.memory) (blocks_of blocks.now)) }
{
    let mut objects = List::new(alloc);
    for b in blocks {
        objects.push(SavedObject {
            serial: b.serial,
            place: b.place,
            cells: list(alloc, memory.object(b.serial))?,
        })?;
    }
    Ok(objects)
}

// The same items as a list.
fn list<T: Copy + Drop>(alloc: Global, items: &[T]) -> Result<List<T>, NoMemory>
    ensures { IfOk result (λ list. list ≡ items.now) }
{
    let mut list = List::new(alloc);
    for item in items {
        list.push(*item)?;
    }
    Ok(list)
}
