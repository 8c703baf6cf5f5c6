//! A rank of a job.

ghost use Rattle.std.specs.Prelude.{◌≡◌, ◌<◌, ◌^◌, length, IfOk, None, List};
ghost use Rattle.c_meaning.specs.Rank.{state_of};
ghost use Rattle.plain_job.specs.Job as spec;
ghost use Rattle.plain_job.specs.Job.{first, outcome, stepped};
ghost use Rattle.plain_job.specs.Members.{rank_of, runs_of, job_with, progress, ends, had_step};
ghost use Rattle.plain_job.specs.Turn.{lowest};
ghost use Rattle.plain_job.specs.declared.member.Progress.TheVariants as variant;

use c_kernel::program::Program;
use c_meaning::{Rank, Step};
use c3_base::NoMemory;
use mpi_queues::Channels;
use mpi_words::End;
use std::alloc::Global;
use std::rc::Rc;

/// A rank: the run of its program, what it has printed, how many operations it has completed, and how it ended.
#[derive(Drop)]
pub struct Member {
    pub rank: Rank,
    pub output: Vec<u8>,
    pub ops: u64,
    pub end: Option<End>,
}

/// What a step came to.
#[derive(Clone, Copy)]
pub enum Progress {
    /// No operation was asked for.
    Went,
    /// The operation isn't possible yet.
    Waits,
    /// The operation was completed, or the rank has ended.
    Stopped,
}

impl Progress {
    /// Whether it ends a turn.
    pub fn ends(self) -> bool
        ensures { result ≡ ends self }
    {
        match self {
            Progress::Went => false,
            Progress::Waits | Progress::Stopped => true,
        }
    }

    /// Whether there was a step to make.
    pub fn had_step(self) -> bool
        ensures { result ≡ had_step self }
    {
        match self {
            Progress::Waits => false,
            Progress::Went | Progress::Stopped => true,
        }
    }
}

impl Member {
    /// A rank that begins the program, one of so many.
    pub fn new(
        alloc: Global,
        program: &Rc<Program>,
        rank: u16,
        ranks: u16,
    ) -> Result<Member, NoMemory>
        ensures functions { IfOk result (λ member. runs_of member ≡ program.now.value.functions) }
        ensures start { IfOk result (λ member. rank_of member ≡ first program.now.value ranks rank) }
    {
        let rank = Rank::new(alloc, program, rank, ranks)?;
        Ok(Member {
            rank,
            output: Vec::new(alloc),
            ops: 0,
            end: None,
        })
    }

    /// One step of a rank that hasn't ended, the `me`-th.
    pub fn step(&mut self, me: u16, channels: &mut Channels) -> Result<Progress, NoMemory>
        requires runs { self.old.end ≡ None }
        requires few { self.old.ops < 2 ^ 62 }
        requires serials { (state_of self.old.rank).memory.next < 2 ^ 62 }
        requires rank { me < length channels.old }
        ensures functions { runs_of self.new ≡ runs_of self.old }
        ensures ranks { length channels.new ≡ length channels.old }
        ensures step { IfOk result (λ did. (ranks : List spec.Rank) → stepped (runs_of self.old) lowest (record { ranks = ranks; queues = channels.old }) me (rank_of self.old) ≡ job_with ranks me self.new channels.new) }
        ensures progress { IfOk result (λ did. (ranks : List spec.Rank) → did ≡ progress (record { ranks = ranks; queues = channels.old }) me (outcome (runs_of self.old) lowest (rank_of self.old).standing)) }
        ensures runs { IfOk result (λ did. did ≡ variant.Went → self.new.end ≡ None) }
    {
        match self.rank.step()? {
            Step::Local { began: _ } => Ok(Progress::Went),
            Step::Wants => match self.rank.operation()? {
                None => Ok(Progress::Went),
                Some(op) => self.operate(me, op, channels),
            },
            Step::Ended(end) => {
                self.end = Some(end);
                Ok(Progress::Stopped)
            }
        }
    }
}
