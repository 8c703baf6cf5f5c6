//! A program that comes back to a mark.

ghost use Rattle.std.specs.Prelude.{◌≡◌, ◌≢◌, IfOk, Some};
ghost use Rattle.flat_code.specs.Restart.{Restarting, instr_here, reenter};
ghost use Rattle.rank_machine.specs.Placing.{laid_in};
ghost use Rattle.rank_machine.specs.Returning.{is_mark};
ghost use Rattle.rank_machine.specs.Running.{again_of, state_of};
ghost use Rattle.rank_machine.specs.State.{again_by, frames_of, laid_of};
ghost use Rattle.rank_machine.specs.declared.reenter.Reentry.TheVariants.{Nothing};

use crate::act::marks;
use crate::frame::Frame;
use crate::reenter::Reentry;
use crate::running::Running;
use c3_base::NoMemory;
use flat_code::FlatFunction;

impl Running {
    /// One instruction of restart mode, and whether the program stands at a mark after it.
    pub fn reenter(&mut self, functions: &[FlatFunction]) -> Result<bool, NoMemory>
        requires { (r : Restarting) × (reenter functions.now (again_of self.old) ≡ Some r) }
        ensures again { IfOk result (λ at. reenter functions.now (again_of self.old) ≡ Some (again_of self.new)) }
        ensures at { IfOk result (λ at. at ≡ is_mark (instr_here functions.now (frames_of self.new.frames.items))) }
        ensures laid { IfOk result (λ at. laid_of self.new.parts ≡ laid_in functions.now (state_of self.old) (laid_of self.old.parts) (frames_of self.old.frames.items)) }
        ensures requests { self.new.parts.world.requests ≡ self.old.parts.world.requests }
        ensures end { self.new.end ≡ self.old.end }
    {
        let Some(mut frame) = self.frames.pop() else {
            unreachable!();
        };
        // so many objects no run makes
        if self.parts.world.memory.next() >= 1 << 62 {
            return Err(NoMemory);
        }
        let did = self.parts.reenter(functions, &mut frame)?;
        self.stand(frame, did)?;
        Ok(self.is_at_mark(functions))
    }

    // The newest call, which was taken from the others, comes back among them, and what it entered.
    fn stand(&mut self, frame: Frame, did: Reentry) -> Result<(), NoMemory>
        requires { did ≢ Nothing }
        ensures parts { self.new.parts ≡ self.old.parts }
        ensures again { IfOk result (λ done. Some (again_of self.new) ≡ again_by did self.old.parts frame (frames_of self.old.frames.items)) }
        ensures end { self.new.end ≡ self.old.end }
    {
        match did {
            Reentry::Nothing => unreachable!(),
            Reentry::Jumps => {
                self.frames.push(frame)?;
                Ok(())
            }
            Reentry::Enters(entered) => {
                self.frames.push(frame)?;
                self.frames.push(entered)?;
                Ok(())
            }
        }
    }

    #[tactic(auto, using(crate::proofs::Frames::frames_more))]
    fn is_at_mark(&self, functions: &[FlatFunction]) -> bool
        ensures { result ≡ is_mark (instr_here functions.now (frames_of self.now.frames.items)) }
    {
        match self.frames.split_last() {
            None => false,
            Some((frame, _)) => marks(functions, frame),
        }
    }
}
