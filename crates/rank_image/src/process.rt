//! A rank of a job.

ghost use Rattle.rank_image.specs.Rank as spec;
ghost use Rattle.rank_image.specs.Again as laws;

use c3_base::NoMemory;
use flat_code::Code;
use image_text::RankState;
use job_network::Process;
use mpi_words::{End, Reply, Want};
use rank_machine::Machine;
use std::alloc::Global;
use std::marker::Model;
use std::rc::Rc;

/// A rank that runs the code of a program. Where there was no memory for it, there is none any more.
#[derive(Drop)]
pub struct RankProcess {
    state: State,
}

#[derive(Drop)]
enum State {
    Runs(Machine),
    /// How it ended, how many ranks there are, and how many bytes it has put out.
    Over { end: End, ranks: u16, bytes: u32 },
    /// There was no memory for it.
    Lost,
}

impl Model for RankProcess {
    ghost use Rattle.std.specs.Coded.{codes};
    ghost use Rattle.c_kernel.specs.contracts.program.Expr as expressions;
    ghost use Rattle.rank_image.specs.Rank.{Rank, IsSound};

    ghost Value = { Rank };

    ghost coded = { Prim.hlevel (codes, expressions.the_row.coded) };

    ghost use Rattle.rank_image.specs.States.{rank_of};

    ghost view = { λ r. rank_of r.state };

    ghost invariant = { λ r. IsSound (rank_of r.state) };
}

impl Process for RankProcess {
    type Code = Code;

    ghost right = { spec.IsCompiled };

    ghost begun = { spec.begun };

    ghost turned = { spec.turned };

    ghost answered = { spec.answered_by };

    ghost again = { laws.again };

    ghost pending = { spec.pending };

    ghost ended = { spec.ended };

    ghost among = { spec.among };

    ghost bytes = { spec.bytes };

    ghost serial = { spec.serial };

    ghost marked = { spec.IsMarked };

    ghost saved = { spec.saved };

    fn begin(alloc: Global, code: &Rc<Code>, rank: u16, ranks: u16) -> Result<Self, NoMemory> {
        let machine = Machine::new(alloc, code, rank, ranks)?;
        Ok(RankProcess {
            state: State::Runs(machine),
        })
    }

    fn turn(&mut self, limit: u32) -> Result<Want, NoMemory> {
        match &mut self.state {
            State::Runs(machine) => {
                let (ranks, bytes) = (machine.ranks(), machine.printed());
                match machine.turn(limit) {
                    Err(NoMemory) => {
                        self.state = State::Lost;
                        Err(NoMemory)
                    }
                    Ok(Want::Ended(end)) => {
                        self.state = State::Over { end, ranks, bytes };
                        Ok(Want::Ended(end))
                    }
                    Ok(Want::Paused) => Ok(Want::Paused),
                    Ok(Want::Wants(op)) => Ok(Want::Wants(op)),
                }
            }
            State::Over { end, .. } => Ok(Want::Ended(*end)),
            State::Lost => Err(NoMemory),
        }
    }

    fn answer(&mut self, reply: Reply) -> Result<Option<End>, NoMemory> {
        let State::Runs(machine) = &mut self.state else {
            unreachable!();
        };
        let ranks = machine.ranks();
        let bytes = machine.printed();
        match machine.answer(reply) {
            None => Ok(None),
            Some(end) => {
                self.state = State::Over { end, ranks, bytes };
                Ok(Some(end))
            }
        }
    }

    fn save(&self, _: Global) -> Result<RankState, NoMemory> {
        let State::Runs(machine) = &self.state else {
            unreachable!();
        };
        machine.state()
    }

    ghost rests = { laws.rests };
}
