//! A job of machines that run passed code, and the messages between them.

use c_check::check;
use c_parse::parse;
use c3_base::{append, append_number, append_signed};
use ccift_lower::lower;
use ccift_pass::pass;
use flat_code::Code;
use mpi_queues::Channels;
use mpi_words::{End, Op, Reply, Want};
use rank_machine::Machine;
use sqlite_items::Boxed;
use std::alloc::Global;
use std::marker::Model;
use std::rc::Rc;
use std::test::Fail;

/// A rank: its machine, which isn't in restart mode, what it has printed, and how it ended.
#[derive(Drop)]
struct Member {
    rank: u16,
    machine: Machine,
    output: Vec<u8>,
    end: Option<End>,
}

impl Model for Member {
    ghost use Rattle.std.specs.Prelude.{◌≡◌, ℕ, None};

    ghost Value = { ℕ };

    ghost view = { λ m. m.rank };

    ghost invariant = { λ m. m.machine.left ≡ None };
}

impl Member {
    fn complete(&mut self, reply: Reply) -> Result<(), Fail> {
        self.end = self.machine.answer(reply);
        Ok(())
    }

    /// The operation that the rank waits for, if it is possible.
    fn operate(&mut self, op: Op, channels: &mut Channels) -> Result<(), Fail> {
        match op {
            Op::Send { to, message } => {
                if self.rank < channels.ranks() && to < channels.ranks() {
                    channels.send(self.rank, to, message)?;
                }
                self.complete(Reply::Done)
            }
            Op::Receive { patterns } => {
                let Some(pattern) = patterns.as_slice().first() else {
                    return Ok(());
                };
                if channels.ranks() <= self.rank {
                    return Ok(());
                }
                match channels.take(self.rank, pattern) {
                    None => Ok(()),
                    Some((source, message)) => self.complete(Reply::Got { source, message }),
                }
            }
            Op::Output(text) => {
                self.output.extend_from_slice(text.as_slice())?;
                self.complete(Reply::Done)
            }
            Op::Mark => self.complete(Reply::Done),
        }
    }

    fn turn(&mut self, channels: &mut Channels) -> Result<(), Fail> {
        if self.end.is_some() {
            return Ok(());
        }
        match self.machine.turn(4096)? {
            Want::Paused => Ok(()),
            Want::Wants(op) => self.operate(op, channels),
            Want::Ended(end) => {
                self.end = Some(end);
                Ok(())
            }
        }
    }

    /// `rank K exit C bytes B` or `rank K fault C bytes B`, and the bytes.
    fn push_text(&self, alloc: Global, text: &mut Vec<u8>) -> Result<(), Fail> {
        append(text, b"rank ")?;
        append_number(alloc, text, u64::from(self.rank))?;
        match self.end {
            None => append(text, b" running")?,
            Some(End::Exit(value)) => {
                append(text, b" exit ")?;
                append_signed(alloc, text, i64::from(value))?
            }
            Some(End::Fault(code)) => {
                append(text, b" fault ")?;
                append_number(alloc, text, u64::from(code))?
            }
        }
        append(text, b" bytes ")?;
        append_number(alloc, text, self.output.len() as u64)?;
        append(text, b"\n")?;
        Ok(append(text, self.output.as_slice())?)
    }
}

/// The passed code of a program's text.
fn code_of(alloc: Global, text: &[u8]) -> Result<Rc<Code>, Fail> {
    let tree = Boxed::new(alloc, parse(alloc, text)?)?;
    let program = Boxed::new(alloc, check(alloc, tree.get())?)?;
    let lowered = Boxed::new(alloc, lower(alloc, program.get())?)?;
    Ok(Rc::new(alloc, pass(alloc, lowered.get())?)?)
}

/// The ranks of a job before their first turn.
fn members(alloc: Global, code: &Rc<Code>, ranks: u16) -> Result<Vec<Member>, Fail> {
    let mut members = Vec::new(alloc);
    for rank in 0..ranks {
        let machine = Machine::new(alloc, code, rank, ranks)?;
        members.push(Member {
            rank,
            machine,
            output: Vec::new(alloc),
            end: None,
        })?;
    }
    Ok(members)
}

/// A turn of each rank.
fn round(members: &mut [Member], channels: &mut Channels) -> Result<(), Fail> {
    for member in members {
        member.turn(channels)?;
    }
    Ok(())
}

/// The text of a finished run.
fn text_of(alloc: Global, members: &[Member]) -> Result<Vec<u8>, Fail> {
    let mut text = Vec::new(alloc);
    for member in members {
        member.push_text(alloc, &mut text)?;
    }
    append(&mut text, b"finished\n")?;
    Ok(text)
}

/// What a job of so many machines has printed after `r*3076`, as the text of a finished run.
pub fn written(alloc: Global, ranks: u16, text: &[u8]) -> Result<Vec<u8>, Fail> {
    let code = code_of(alloc, text)?;
    let mut members = members(alloc, &code, ranks)?;
    let mut channels = Channels::new(alloc, ranks)?;
    for _ in 0..3076 {
        round(&mut members, &mut channels)?;
    }
    text_of(alloc, &members)
}
