//! Ranks that make lists of operations.

ghost use Rattle.std.specs.Prelude.{◌≡◌, ◌+◌, ◌<◌, ℕ, [], ◌∷◌, List, Some, IfOk, IfSome, slice_index_or};
ghost use Rattle.mpi_words.specs.declared.operation.Op.{Op as Operation};
ghost use Rattle.job_network.specs.Wants.{bytes_of_op};
ghost use Rattle.core_tests.specs.Script as spec;
ghost use Rattle.core_tests.specs.Again as laws;

use c3_base::NoMemory;
use image_text::RankState;
use job_network::{Process, Queue};
use mpi_words::{End, List, Op, Reply, Want};
use std::alloc::Global;
use std::rc::Rc;

/// Where a rank stands.
#[derive(Clone, Copy)]
pub enum Stage {
    Ready,
    /// It is ready, and its last operation was a mark.
    PastMark,
    /// Its next operation waits for its answer.
    Waits,
    Over,
}

/// A rank that makes a list of operations, and then ends with 0. An operation that it can't make ends it too.
#[derive(Drop)]
pub struct Script {
    /// The operations that are left.
    pub rest: Queue<Op>,
    pub stage: Stage,
    /// How many operations it has made.
    pub made: u64,
    /// How many bytes it has put out.
    pub bytes: u32,
    pub ranks: u16,
}

impl Process for Script {
    /// The operations of each rank.
    type Code = List<List<Op>>;

    ghost right = { λ code. Unit {0} };

    ghost begun = { spec.begun };

    ghost turned = { spec.turned };

    ghost answered = { spec.answered };

    ghost again = { laws.again };

    ghost pending = { spec.pending };

    ghost ended = { spec.ended };

    ghost among = { spec.among };

    ghost bytes = { spec.bytes };

    ghost serial = { spec.serial };

    ghost marked = { spec.IsMarked };

    ghost saved = { spec.saved };

    fn begin(
        alloc: Global,
        code: &Rc<List<List<Op>>>,
        rank: u16,
        ranks: u16,
    ) -> Result<Self, NoMemory> {
        Ok(Script {
            rest: script_of(alloc, code.as_slice(), rank)?,
            stage: Stage::Ready,
            made: 0,
            bytes: 0,
            ranks,
        })
    }

    fn turn(&mut self, _: u32) -> Result<Want, NoMemory> {
        match self.next()? {
            None => {
                self.stage = Stage::Over;
                Ok(Want::Ended(End::Exit(0)))
            }
            Some(op) => {
                self.stage = Stage::Waits;
                Ok(Want::Wants(op))
            }
        }
    }

    fn answer(&mut self, _: Reply) -> Result<Option<End>, NoMemory> {
        let Some(op) = self.rest.pop() else {
            return Ok(None);
        };
        self.bytes = self.bytes.checked_add(bytes_of(&op)?).ok_or(NoMemory)?;
        self.made = self.made.checked_add(1).ok_or(NoMemory)?;
        self.stage = stage_after(&op);
        Ok(None)
    }

    fn save(&self, alloc: Global) -> Result<RankState, NoMemory> {
        Ok(RankState {
            output: self.bytes,
            serial: self.made,
            phase: 1,
            calls: 0,
            sites: List::new(alloc),
            variables: List::new(alloc),
            objects: List::new(alloc),
        })
    }

    ghost rests = { laws.rests };
}

impl Script {
    // The next operation, where it can be made.
    fn next(&self) -> Result<Option<Op>, NoMemory>
        ensures { IfOk result (λ op. op ≡ spec.next_of self.now self.now.stage) }
    {
        if matches!(self.stage, Stage::Over) {
            return Ok(None);
        }
        match self.rest.front() {
            None => Ok(None),
            Some(op) => {
                if can_make(self.ranks, self.bytes, op) {
                    return Ok(Some(op.copy()?));
                }
                Ok(None)
            }
        }
    }
}

// The operations of a rank.
fn script_of(alloc: Global, code: &[List<Op>], rank: u16) -> Result<Queue<Op>, NoMemory>
    ensures { IfOk result (λ script. script ≡ slice_index_or code.now rank []) }
{
    if code.len() <= usize::from(rank) {
        return Ok(Queue::new(alloc));
    }
    copies(alloc, code[usize::from(rank)].as_slice())
}

// Equal operations.
fn copies(alloc: Global, script: &[Op]) -> Result<Queue<Op>, NoMemory>
    ensures { IfOk result (λ copies. copies ≡ script.now) }
{
    let mut copies = Queue::new(alloc);
    for op in script {
        copies.push(op.copy()?)?;
    }
    Ok(copies)
}

// Whether one of so many ranks can make an operation that has put out so many bytes.
fn can_make(ranks: u16, bytes: u32, op: &Op) -> bool
    ensures { result ≡ spec.can_make ranks bytes op.now }
{
    match op {
        Op::Send { to, .. } => *to < ranks,
        Op::Receive { patterns } => 0 < patterns.as_slice().len(),
        Op::Output(text) => bytes as u64 + (text.as_slice().len() as u64) < 1048577,
        Op::Mark => true,
    }
}

// How many bytes an operation puts out.
fn bytes_of(op: &Op) -> Result<u32, NoMemory>
    ensures { IfOk result (λ bytes. bytes ≡ bytes_of_op op.now) }
{
    match op {
        Op::Output(text) => u32::try_from(text.as_slice().len()).ok().ok_or(NoMemory),
        _ => Ok(0),
    }
}

fn stage_after(op: &Op) -> Stage
    ensures { result ≡ spec.stage_after op.now }
{
    match op {
        Op::Mark => Stage::PastMark,
        _ => Stage::Ready,
    }
}
