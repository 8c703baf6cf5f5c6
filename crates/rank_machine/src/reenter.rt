//! Instructions of restart mode.

ghost use Rattle.std.specs.Prelude.{◌≡◌, ◌++◌, ◌<◌, ◌^◌, IfOk, List, true};
ghost use Rattle.std.specs.Option.{option_copied};
ghost use Rattle.c_memory.specs.Memory as spec;
ghost use Rattle.flat_code.specs.Machine as machine;
ghost use Rattle.flat_code.specs.Machine.{instr_at, lengths_in};
ghost use Rattle.flat_code.specs.Restart.{enters_again, place_named, reacts, reenters};
ghost use Rattle.rank_machine.specs.declared.frame.Frame as frames;
ghost use Rattle.rank_machine.specs.Layout.{described_by};
ghost use Rattle.rank_machine.specs.State.{again_by, frame_of, is_again, laid_by_next, laid_of, left_of, machine_with};

use crate::control::reserve;
use crate::describe::describe;
use crate::frame::Frame;
use crate::parts::Parts;
use c3_base::NoMemory;
use flat_code::{FlatFunction, Instr, Site};

/// What an instruction of restart mode came to in the newest call.
#[derive(Clone, Copy)]
pub enum Reentry {
    /// Restart mode has no such instruction.
    Nothing,
    Jumps,
    /// A function is entered.
    Enters(Frame),
}

impl Parts {
    /// An `Enter` jumps to the site that is named next, and a `Call` evaluates nothing.
    #[tactic(auto, using(crate::proofs::Nothing::reacts_nothing))]
    pub fn reenter(
        &mut self,
        functions: &[FlatFunction],
        frame: &mut Frame,
    ) -> Result<Reentry, NoMemory>
        requires { self.old.world.memory.memory.next < 2 ^ 62 }
        ensures again { IfOk result (λ did. (below : List machine.Frame) → again_by did self.new frame.new below ≡ reacts functions.now (machine_with self.old frame.old below) (frame_of frame.old) below (left_of self.old) (instr_at functions.now (frame_of frame.old))) }
        ensures laid { IfOk result (λ did. is_again did ≡ true → laid_of self.new ≡ laid_by_next self.old frame.old (instr_at functions.now (frame_of frame.old))) }
        ensures requests { self.new.world.requests ≡ self.old.world.requests }
    {
        match functions.get(frame.function) {
            None => Ok(Reentry::Nothing),
            Some(f) => self.react(functions, frame, f.code.get(frame.place)),
        }
    }

    fn react(
        &mut self,
        functions: &[FlatFunction],
        frame: &mut Frame,
        next: Option<&Instr>,
    ) -> Result<Reentry, NoMemory>
        requires { self.old.world.memory.memory.next < 2 ^ 62 }
        ensures again { IfOk result (λ did. (below : List machine.Frame) → again_by did self.new frame.new below ≡ reacts functions.now (machine_with self.old frame.old below) (frame_of frame.old) below (left_of self.old) (option_copied next.entry)) }
        ensures laid { IfOk result (λ did. is_again did ≡ true → laid_of self.new ≡ laid_by_next self.old frame.old (option_copied next.entry)) }
        ensures requests { self.new.world.requests ≡ self.old.world.requests }
    {
        match next {
            Some(Instr::Enter { sites, .. }) => self.jump(frame, sites.as_slice()),
            Some(Instr::Call { function, .. }) => self.enter_again(functions, *function),
            _ => Ok(Reentry::Nothing),
        }
    }

    // A function begins again, at one of these sites.
    fn jump(&mut self, frame: &mut Frame, sites: &[Site]) -> Result<Reentry, NoMemory>
        ensures again { IfOk result (λ did. (below : List machine.Frame) → again_by did self.new frame.new below ≡ enters_again (machine_with self.old frame.old below) (frame_of frame.old) below (left_of self.old) sites.now) }
        ensures laid { IfOk result (λ did. is_again did ≡ true → laid_of self.new ≡ record (laid_of self.old) { stack = (laid_of self.old).stack ++ described_by self.old.world.memory.memory frame.old.variables }) }
        ensures requests { self.new.world.requests ≡ self.old.world.requests }
    {
        let Some(site) = self.sites.replay_next() else {
            return Ok(Reentry::Nothing);
        };
        let Some(place) = place_named(sites, site) else {
            return Ok(Reentry::Nothing);
        };
        describe(&mut self.described, &self.world.memory, frame.variables)?;
        frame.place = place;
        Ok(Reentry::Jumps)
    }

    // A function is entered, and its variables are zeros.
    fn enter_again(
        &mut self,
        functions: &[FlatFunction],
        function: usize,
    ) -> Result<Reentry, NoMemory>
        requires { self.old.world.memory.memory.next < 2 ^ 62 }
        ensures again { IfOk result (λ did. (caller : frames.Frame) → (below : List machine.Frame) → again_by did self.new caller below ≡ reenters functions.now (machine_with self.old caller below) (left_of self.old) function (spec.enter self.old.world.memory.memory (lengths_in functions.now function))) }
        ensures laid { IfOk result (λ did. laid_of self.new ≡ laid_of self.old) }
        ensures requests { self.new.world.requests ≡ self.old.world.requests }
    {
        match reserve(self.alloc, &mut self.world.memory, functions, function)? {
            Err(_) => Ok(Reentry::Nothing),
            Ok(frame) => Ok(Reentry::Enters(frame)),
        }
    }
}

/// The place of the site with a number.
pub fn place_named(sites: &[Site], number: u32) -> Option<usize>
    ensures { result ≡ place_named sites.now number }
{
    for s in sites {
        if s.number == number {
            return Some(s.place);
        }
    }
    None
}
