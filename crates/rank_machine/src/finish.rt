//! The mark of restart mode.

ghost use Rattle.std.specs.Prelude.{◌≡◌, ◌∷◌, IfOk, List, None, length, map};
ghost use Rattle.c_memory.specs.Memory as definition;
ghost use Rattle.flat_code.specs.Restart.{first_among, newest_serials, numbered, passed_mark, put_back};
ghost use Rattle.flat_code.specs.Machine as machine;
ghost use Rattle.flat_code.specs.declared.code.Code.{Code};
ghost use Rattle.rank_machine.specs.Blocks.{blocks_of};
ghost use Rattle.rank_machine.specs.Running.{again_of, state_of};
ghost use Rattle.rank_machine.specs.Saving as spec;
ghost use Rattle.rank_machine.specs.Saving.{block_of, object_of, saved_by};
ghost use Rattle.rank_machine.specs.State.{frame_of, frames_of, laid_of, machine_of};
ghost use Rattle.rank_machine.specs.WellFormed.{IsWellFormed};

use crate::frame::{Frame, after};
use crate::parts::Parts;
use crate::running::Running;
use c_values::value::Variables;
use c3_base::NoMemory;
use image_text::{RankState, SavedObject};
use mpi_effects::Phase;
use std::alloc::Global;
use variable_stack::{Descriptor, VariableStack};

impl Running {
    /// What was saved comes back at the mark, and the program stands behind it.
    pub fn finish_restart(&mut self, state: &RankState) -> Result<(), NoMemory>
        requires formed { (c : Code) × IsWellFormed c state.now }
        requires asked { self.old.parts.world.requests.asked ≡ None }
        ensures machine { IfOk result (λ done. state_of self.new ≡ put_back (saved_by state.now) (again_of self.old)) }
        ensures laid { IfOk result (λ done. laid_of self.new.parts ≡ record { stack = map block_of state.now.variables; heap = map block_of state.now.objects }) }
        ensures still { self.new.parts.world.requests.asked ≡ None }
        ensures end { self.new.end ≡ self.old.end }
    {
        self.number(state.variables.as_slice())?;
        self.pass_mark()?;
        self.parts.put_back(state)
    }

    // Each call's variables have the serials that were saved.
    fn number(&mut self, variables: &[SavedObject]) -> Result<(), NoMemory>
        ensures parts { self.new.parts ≡ self.old.parts }
        ensures frames { IfOk result (λ done. frames_of self.new.frames.items ≡ numbered (newest_serials (map object_of variables.now)) (frames_of self.old.frames.items)) }
        ensures end { self.new.end ≡ self.old.end }
    {
        let mut newest = Vec::new(self.parts.alloc);
        let mut left = variables;
        while let Some(frame) = self.frames.pop() {
            let count = frame.variables.count;
            newest.push(with_first(frame, first_among(left, count))?)?;
            left = &left[..left.len().saturating_sub(count)];
        }
        newest.reverse();
        self.frames = newest;
        Ok(())
    }

    // The newest call passes its mark.
    fn pass_mark(&mut self) -> Result<(), NoMemory>
        ensures parts { self.new.parts ≡ self.old.parts }
        ensures frames { IfOk result (λ done. frames_of self.new.frames.items ≡ passed_mark (frames_of self.old.frames.items)) }
        ensures end { self.new.end ≡ self.old.end }
    {
        let Some(mut frame) = self.frames.pop() else {
            return Ok(());
        };
        frame.place = after(frame.place)?;
        self.frames.push(frame)?;
        Ok(())
    }
}

impl Parts {
    fn put_back(&mut self, state: &RankState) -> Result<(), NoMemory>
        requires formed { (c : Code) × IsWellFormed c state.now }
        requires asked { self.old.world.requests.asked ≡ None }
        ensures machine { IfOk result (λ done. (frames : List machine.Frame) → machine_of self.new frames ≡ record (machine_of self.old frames) {
          described = newest_serials (map object_of state.now.variables);
          memory = record self.old.world.memory.memory { variables = map object_of state.now.variables; heap = spec.by_serials (map object_of state.now.objects); next = state.now.serial; asked = 65536 };
          phase = spec.phase_of state.now.phase;
          printed = state.now.output;
        }) }
        ensures laid { IfOk result (λ done. laid_of self.new ≡ record { stack = map block_of state.now.variables; heap = map block_of state.now.objects }) }
        ensures still { self.new.world.requests.asked ≡ None }
    {
        self.world.memory.clear(state.serial);
        self.world
            .memory
            .keep_variables(state.variables.as_slice())?;
        self.world.memory.keep_objects(state.objects.as_slice())?;
        self.described = described(self.alloc, state.variables.as_slice())?;
        self.world.requests.phase = phase_of(state.phase);
        self.world.requests.printed = u64::from(state.output);
        Ok(())
    }
}

// The serial of the first of so many variables, which are the last of these, or 0 where there is none.
#[tactic(auto, using(crate::proofs::Numbers::first_past, crate::proofs::Numbers::first_at))]
fn first_among(variables: &[SavedObject], count: usize) -> u64
    ensures { result ≡ first_among (newest_serials (map object_of variables.now)) count }
{
    if count == 0 || count > variables.len() {
        return 0;
    }
    variables[variables.len() - count].serial
}

// A call whose variables have other serials. No machine reaches the last of `u64`.
fn with_first(frame: Frame, first: u64) -> Result<Frame, NoMemory>
    ensures { IfOk result (λ other. frame_of other ≡ record (frame_of frame) { variables = record { first = first; count = frame.variables.count } }) }
{
    let count = frame.variables.count;
    if first.checked_add(count as u64).is_none() {
        return Err(NoMemory);
    }
    Ok(Frame {
        function: frame.function,
        place: frame.place,
        variables: Variables { first, count },
    })
}

// Where these variables stand.
fn described(alloc: Global, variables: &[SavedObject]) -> Result<VariableStack, NoMemory>
    ensures { IfOk result (λ stack. blocks_of stack ≡ map block_of variables.now) }
{
    let mut stack = VariableStack::new(alloc);
    for v in variables {
        let Ok(length) = u32::try_from(v.cells.as_slice().len()) else {
            return Err(NoMemory);
        };
        stack.push(Descriptor {
            serial: v.serial,
            place: v.place,
            length,
        })?;
    }
    Ok(stack)
}

fn phase_of(number: u8) -> Phase
    ensures { result ≡ spec.phase_of number }
{
    match number {
        0 => Phase::Before,
        1 => Phase::Inside,
        _ => Phase::After,
    }
}
