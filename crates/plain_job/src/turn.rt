//! A turn: up to an operation, an end, or too many statements.

ghost use Rattle.std.specs.Prelude.{◌≡◌, ◌<◌, length, false, IfOk, MatchBool, None, List};
ghost use Rattle.c_kernel.specs.Regular.{AreRegular};
ghost use Rattle.plain_job.specs.Job.{Rank, Job};
ghost use Rattle.plain_job.specs.Members.{rank_of, runs_of, job_with};
ghost use Rattle.plain_job.specs.Serials.{HasRoom};
ghost use Rattle.plain_job.specs.Turn.{Steps, turn_limit, can_step, IsTurn};

use crate::member::Member;
use c3_base::NoMemory;
use mpi_queues::Channels;

impl Member {
    /// A turn of a rank that hasn't ended, the `me`-th. Says whether it had a step to make.
    pub fn turn(&mut self, me: u16, channels: &mut Channels) -> Result<bool, NoMemory>
        requires runs { self.old.end ≡ None }
        requires regular { AreRegular (runs_of self.old) }
        requires room { ∥ HasRoom turn_limit (rank_of self.old) ∥₁ }
        requires rank { me < length channels.old }
        ensures functions { runs_of self.new ≡ runs_of self.old }
        ensures ranks { length channels.new ≡ length channels.old }
        ensures turn { IfOk result (λ did. (ranks : List Rank) → me < length ranks → IsTurn (runs_of self.old) (job_with ranks me self.old channels.old) me (job_with ranks me self.new channels.new)) }
        ensures effect { IfOk result (λ did. (ranks : List Rank) → did ≡ can_step (job_with ranks me self.old channels.old) me (rank_of self.old).standing) }
    {
        if self.rank.waits() {
            let did = self.step(me, channels)?;
            return Ok(did.had_step());
        }
        self.steps(me, channels)?;
        Ok(true)
    }

    // The steps of a turn.
    fn steps(&mut self, me: u16, channels: &mut Channels) -> Result<(), NoMemory>
        requires runs { self.old.end ≡ None }
        requires regular { AreRegular (runs_of self.old) }
        requires room { ∥ HasRoom turn_limit (rank_of self.old) ∥₁ }
        requires rank { me < length channels.old }
        ensures functions { runs_of self.new ≡ runs_of self.old }
        ensures ranks { length channels.new ≡ length channels.old }
        ensures turn { IfOk result (λ done. (ranks : List Rank) → me < length ranks → IsTurn (runs_of self.old) (job_with ranks me self.old channels.old) me (job_with ranks me self.new channels.new)) }
    {
        let mut left = 4096;
        for _ in 0..u64::MAX {
            if self.part(me, channels, &mut left)? {
                return Ok(());
            }
        }
        Err(NoMemory)
    }

    // One step of a turn in which so many statements may still begin, or its end. Says whether the turn is over.
    fn part(&mut self, me: u16, channels: &mut Channels, left: &mut u32) -> Result<bool, NoMemory>
        requires runs { self.old.end ≡ None }
        requires regular { AreRegular (runs_of self.old) }
        requires room { ∥ HasRoom left.old (rank_of self.old) ∥₁ }
        requires rank { me < length channels.old }
        ensures functions { runs_of self.new ≡ runs_of self.old }
        ensures ranks { length channels.new ≡ length channels.old }
        ensures runs { IfOk result (λ over. over ≡ false → self.new.end ≡ None) }
        ensures room { IfOk result (λ over. over ≡ false → ∥ HasRoom left.new (rank_of self.new) ∥₁) }
        ensures turn { IfOk result (λ over. (ranks : List Rank) → me < length ranks → MatchBool over
            (Steps (runs_of self.old) me left.old (job_with ranks me self.old channels.old) (job_with ranks me self.new channels.new))
            ((after : Job) → Steps (runs_of self.old) me left.new (job_with ranks me self.new channels.new) after → Steps (runs_of self.old) me left.old (job_with ranks me self.old channels.old) after)) }
    {
        if !self.rank.begins() {
            let did = self.step(me, channels)?;
            return Ok(did.ends());
        }
        if *left == 0 {
            return Ok(true);
        }
        *left -= 1;
        let did = self.step(me, channels)?;
        Ok(did.ends())
    }
}
