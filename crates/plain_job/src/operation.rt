//! The operations of a rank.

ghost use Rattle.std.specs.Prelude.{◌≡◌, ◌<◌, ◌^◌, ◌++◌, suc, length, IfOk, None, List};
ghost use Rattle.mpi_words.specs.declared.operation.Op.TheVariants as op;
ghost use Rattle.mpi_queues.specs.Pairs.{sent};
ghost use Rattle.c_meaning.specs.Rank.{state_of};
ghost use Rattle.c_meaning.specs.Step.{answered};
ghost use Rattle.plain_job.specs.Job.{Rank, standing_of, operates};
ghost use Rattle.plain_job.specs.Members.{rank_of, runs_of, job_with, progress_if};
ghost use Rattle.plain_job.specs.Turn.{lowest, is_possible};
ghost use Rattle.plain_job.specs.declared.member.Progress.TheVariants.{Stopped};

use crate::member::{Member, Progress};
use c3_base::NoMemory;
use mpi_queues::Channels;
use mpi_words::{Message, Op, Patterns, Reply};

impl Member {
    /// The operation that the rank waits for, if it is possible.
    pub fn operate(
        &mut self,
        me: u16,
        op: Op,
        channels: &mut Channels,
    ) -> Result<Progress, NoMemory>
        requires runs { self.old.end ≡ None }
        requires few { self.old.ops < 2 ^ 62 }
        requires rank { me < length channels.old }
        ensures functions { runs_of self.new ≡ runs_of self.old }
        ensures ranks { length channels.new ≡ length channels.old }
        ensures operates { IfOk result (λ did. (ranks : List Rank) → operates lowest (record { ranks = ranks; queues = channels.old }) me (rank_of self.old) op (state_of self.old.rank) ≡ job_with ranks me self.new channels.new) }
        ensures progress { IfOk result (λ did. (ranks : List Rank) → did ≡ progress_if (is_possible (record { ranks = ranks; queues = channels.old }) me op)) }
    {
        match op {
            Op::Send { to, message } => {
                post(channels, me, to, message)?;
                Ok(self.complete(Reply::Done))
            }
            Op::Receive { patterns } => Ok(self.receive(me, &patterns, channels)),
            Op::Output(text) => {
                self.output.extend_from_slice(text.as_slice())?;
                Ok(self.complete(Reply::Done))
            }
            Op::Mark => Ok(self.complete(Reply::Done)),
        }
    }

    // The first match for the first pattern, if there is one.
    fn receive(&mut self, me: u16, patterns: &Patterns, channels: &mut Channels) -> Progress
        requires runs { self.old.end ≡ None }
        requires few { self.old.ops < 2 ^ 62 }
        requires rank { me < length channels.old }
        ensures functions { runs_of self.new ≡ runs_of self.old }
        ensures ranks { length channels.new ≡ length channels.old }
        ensures operates { (ranks : List Rank) → operates lowest (record { ranks = ranks; queues = channels.old }) me (rank_of self.old) (op.Receive patterns.now) (state_of self.old.rank) ≡ job_with ranks me self.new channels.new }
        ensures progress { (ranks : List Rank) → result ≡ progress_if (is_possible (record { ranks = ranks; queues = channels.old }) me (op.Receive patterns.now)) }
    {
        let Some(pattern) = patterns.as_slice().first() else {
            return Progress::Waits;
        };
        let Some((source, message)) = channels.take(me, pattern) else {
            return Progress::Waits;
        };
        self.complete(Reply::Got { source, message })
    }

    // An operation is completed by its reply.
    fn complete(&mut self, reply: Reply) -> Progress
        requires { self.old.ops < 2 ^ 62 }
        ensures functions { runs_of self.new ≡ runs_of self.old }
        ensures completed { rank_of self.new ≡ record { standing = standing_of (answered (state_of self.old.rank) reply); output = self.old.output.items; ops = suc self.old.ops } }
        ensures stopped { result ≡ Stopped }
    {
        self.end = self.rank.answer(reply);
        self.ops += 1;
        Progress::Stopped
    }
}

// A message is sent. To a rank that is none it goes nowhere.
fn post(channels: &mut Channels, from: u16, to: u16, message: Message) -> Result<(), NoMemory>
    requires { from < length channels.old }
    ensures ranks { length channels.new ≡ length channels.old }
    ensures sent { IfOk result (λ done. channels.new ≡ sent channels.old from to message) }
{
    if channels.ranks() <= to {
        return Ok(());
    }
    channels.send(from, to, message)
}
