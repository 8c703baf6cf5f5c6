//! A turn: up to an operation, an end, or too many statements.

ghost use Rattle.std.specs.Prelude.{◌≡◌, ℕ, suc, IfOk, MatchOption, None, Some};
ghost use Rattle.mpi_words.specs.declared.operation.Op as operation;
ghost use Rattle.mpi_words.specs.declared.operation.End as ends;
ghost use Rattle.mpi_words.specs.declared.operation.Want.TheVariants.{Ended};
ghost use Rattle.runs.specs.Turn.{Act};
ghost use Rattle.rank_machine.specs.Placing.{IsTurn, Placing, Turns, act_of, end_in};
ghost use Rattle.rank_machine.specs.Running.{IsWanted, placing_of};
ghost use Rattle.rank_machine.specs.Turning.{gone_on, most_steps, turned_in};

use crate::running::{Running, Step};
use c3_base::NoMemory;
use flat_code::FlatFunction;
use mpi_words::{End, Want};

impl Running {
    /// A turn in which so many statements may begin. Once the program has ended it has that end.
    pub fn turn(&mut self, functions: &[FlatFunction], limit: u32) -> Result<Want, NoMemory>
        ensures turn { IfOk result (λ want. self.old.end ≡ None → IsTurn functions.now limit (placing_of self.old) want (placing_of self.new)) }
        ensures function { IfOk result (λ want. self.old.end ≡ None → turned_in functions.now most_steps limit (placing_of self.old) ≡ act_of want (placing_of self.new)) }
        ensures over { IfOk result (λ want. (e : ends.End) → self.old.end ≡ Some e → (want ≡ Ended e) × (placing_of self.new ≡ placing_of self.old)) }
        ensures end { IfOk result (λ want. self.new.end ≡ end_in want) }
    {
        if let Some(end) = self.end {
            return Ok(Want::Ended(end));
        }
        let want = self.steps(functions, limit)?;
        self.end = end_in(&want);
        Ok(want)
    }

    fn steps(&mut self, functions: &[FlatFunction], limit: u32) -> Result<Want, NoMemory>
        ensures turn { IfOk result (λ want. IsTurn functions.now limit (placing_of self.old) want (placing_of self.new)) }
        ensures function { IfOk result (λ want. turned_in functions.now most_steps limit (placing_of self.old) ≡ act_of want (placing_of self.new)) }
    {
        let mut left = limit;
        for _ in 0..u64::MAX {
            if let Some(want) = self.part(functions, &mut left)? {
                return Ok(want);
            }
        }
        // so many steps no turn makes
        Err(NoMemory)
    }

    // One step of a turn in which so many statements may still begin, or its end.
    fn part(&mut self, functions: &[FlatFunction], left: &mut u32) -> Result<Option<Want>, NoMemory>
        ensures turn { IfOk result (λ did. MatchOption did
            ((a : Act Placing operation.Op ends.End) → Turns functions.now left.new (placing_of self.new) a → Turns functions.now left.old (placing_of self.old) a)
            (λ want. IsTurn functions.now left.old (placing_of self.old) want (placing_of self.new))) }
        ensures function { IfOk result (λ did. (steps : ℕ) → turned_in functions.now (suc steps) left.old (placing_of self.old) ≡ gone_on functions.now steps left.new did (placing_of self.new)) }
    {
        if !self.begins(functions) {
            let did = self.step(functions)?;
            return self.wanted(did);
        }
        if *left == 0 {
            return Ok(Some(Want::Paused));
        }
        *left -= 1;
        let did = self.step(functions)?;
        self.wanted(did)
    }

    // What is wanted after a step, where it is a turn's last.
    fn wanted(&self, did: Step) -> Result<Option<Want>, NoMemory>
        ensures { IfOk result (λ want. IsWanted want did (placing_of self.now)) }
    {
        match did {
            Step::Local { .. } => Ok(None),
            Step::Wants => match self.parts.world.requests.operation()? {
                None => Ok(None),
                Some(op) => Ok(Some(Want::Wants(op))),
            },
            Step::Ended(end) => Ok(Some(Want::Ended(end))),
        }
    }
}

// The end that is wanted.
fn end_in(want: &Want) -> Option<End>
    ensures { result ≡ end_in want.now }
{
    match want {
        Want::Paused | Want::Wants(_) => None,
        Want::Ended(end) => Some(*end),
    }
}
