//! A job.

ghost use Rattle.std.specs.Prelude.{◌≡◌, ◌+◌, ◌<◌, false, length, IfOk, All};
ghost use Rattle.c_kernel.specs.Regular.{IsRegular};
ghost use Rattle.plain_job.specs.Members.{rank_of, runs_of};
ghost use Rattle.plain_job.specs.Serials.{IsAfter};

use crate::member::Member;
use c_kernel::program::Program;
use c3_base::NoMemory;
use mpi_queues::Channels;
use mpi_words::End;
use std::alloc::Global;
use std::rc::Rc;

/// Ranks that run one program, and the messages between them.
#[derive(Drop)]
pub struct PlainJob {
    program: Rc<Program>,
    members: Vec<Member>,
    channels: Channels,
    // How many turns were made. After an error it is the greatest number, so that none is made any more.
    turns: u32,
    ghost regular: { IsRegular program.value },
    ghost same: { ∥ All (λ m. runs_of m ≡ program.value.functions) members.items ∥₁ },
    ghost numbers: { length channels ≡ length members.items },
    ghost within: { turns < 200000 → ∥ All (λ m. IsAfter turns (rank_of m)) members.items ∥₁ },
}

impl PlainJob {
    ghost use Rattle.plain_job.specs.Job.{start_job, output_at, ops_at, end_at};
    ghost use Rattle.plain_job.specs.Turn.{IsTurn, has_step};
    ghost use Rattle.plain_job.specs.Plain.{functions_of, job_of, turns_of};

    /// A job of so many ranks that begin the program.
    pub fn new(alloc: Global, program: &Rc<Program>, n: u16) -> Result<PlainJob, NoMemory>
        requires { IsRegular program.now.value }
        ensures functions { IfOk result (λ job. functions_of job ≡ program.now.value.functions) }
        ensures start { IfOk result (λ job. job_of job ≡ start_job program.now.value n) }
        ensures ranks { IfOk result (λ job. length (job_of job).ranks ≡ n) }
        ensures turns { IfOk result (λ job. turns_of job ≡ 0) }
    {
        let mut members = Vec::new(alloc);
        for rank in 0..n {
            members.push(Member::new(alloc, program, rank, n)?)?;
        }
        let channels = Channels::new(alloc, n)?;
        let program = program.clone()?;
        Ok(PlainJob {
            program,
            members,
            channels,
            turns: 0,
        })
    }

    /// One turn of a rank. Says whether it had a step to make, and changes nothing where it had none. After an error the job is not used further.
    pub fn turn(&mut self, rank: u16) -> Result<bool, NoMemory>
        requires { turns_of self.old < 200000 }
        ensures functions { functions_of self.new ≡ functions_of self.old }
        ensures ranks { length (job_of self.new).ranks ≡ length (job_of self.old).ranks }
        ensures turn { IfOk result (λ did. IsTurn (functions_of self.old) (job_of self.old) rank (job_of self.new)) }
        ensures effect { IfOk result (λ did. did ≡ has_step (job_of self.old) rank) }
        ensures idle { IfOk result (λ did. did ≡ false → job_of self.new ≡ job_of self.old) }
        ensures turns { IfOk result (λ did. turns_of self.new ≡ turns_of self.old + 1) }
    {
        let at = usize::from(rank);
        let turns = self.turns + 1;
        self.turns = turns;
        if self.members.len() <= at {
            return Ok(false);
        }
        let member = &mut self.members[at];
        if member.end.is_some() {
            return Ok(false);
        }
        self.turns = u32::MAX;
        let did = member.turn(rank, &mut self.channels)?;
        self.turns = turns;
        Ok(did)
    }

    /// What a rank has printed.
    pub fn output(&self, rank: u16) -> &[u8]
        requires { rank < length (job_of self.now).ranks }
        ensures { result.now ≡ output_at (job_of self.now) rank }
    {
        self.members[usize::from(rank)].output.as_slice()
    }

    /// How a rank has ended.
    pub fn end(&self, rank: u16) -> Option<End>
        requires { rank < length (job_of self.now).ranks }
        ensures { result ≡ end_at (job_of self.now) rank }
    {
        self.members[usize::from(rank)].end
    }

    /// How many operations a rank has completed.
    pub fn ops(&self, rank: u16) -> u64
        requires { rank < length (job_of self.now).ranks }
        ensures { result ≡ ops_at (job_of self.now) rank }
    {
        self.members[usize::from(rank)].ops
    }
}
