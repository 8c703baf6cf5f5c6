//! The course of a machine that is fed with messages.

ghost use Rattle.std.specs.Prelude.{◌≡◌, None};

use crate::states::assert_same;
use c_check::check;
use c_parse::parse;
use ccift_lower::lower;
use ccift_pass::pass;
use flat_code::Code;
use image_text::RankState;
use mpi_words::{Datatype, End, List, Message, Op, Reply, Want};
use rank_machine::Machine;
use sqlite_items::Boxed;
use std::alloc::Global;
use std::marker::Model;
use std::mem;
use std::process::Abort;
use std::rc::Rc;
use std::test::Fail;

/// The passed code of a program's text.
pub fn code_of(alloc: Global, text: &[u8]) -> Result<Rc<Code>, Fail> {
    let tree = Boxed::new(alloc, parse(alloc, text)?)?;
    let program = Boxed::new(alloc, check(alloc, tree.get())?)?;
    let lowered = Boxed::new(alloc, lower(alloc, program.get())?)?;
    Ok(Rc::new(alloc, pass(alloc, lowered.get())?)?)
}

/// Where a course halts.
#[derive(Clone, Copy, PartialEq, Eq, Debug)]
pub enum Halt {
    Mark,
    End(End),
}

/// A machine that isn't in restart mode, how many messages it has taken, what it has asked for, and what it has printed.
#[derive(Drop)]
pub struct Course {
    pub machine: Machine,
    pub taken: usize,
    asked: String,
    pub output: Vec<u8>,
}

impl Model for Course {
    ghost use Rattle.std.specs.Prelude.{◌≡◌, ℕ, None};

    ghost Value = { ℕ };

    ghost view = { λ c. c.taken };

    ghost invariant = { λ c. c.machine.left ≡ None };
}

/// `SOURCE:TAG:VALUE`, an int.
fn message(rt: &impl Abort, alloc: Global, word: &str) -> Result<Reply, Fail> {
    let (source, rest) = word.split_once(':').expect(rt, "a source");
    let (tag, value) = rest.split_once(':').expect(rt, "a tag");
    let source = source.parse::<u16>().expect(rt, "a rank");
    let tag = tag.parse::<i64>().expect(rt, "a number");
    let value = value.parse::<i64>().expect(rt, "a value");
    let mut items = List::new(alloc);
    items.push(value)?;
    Ok(Reply::Got {
        source,
        message: Message {
            context: 0,
            tag,
            kind: Datatype::Int,
            items,
        },
    })
}

impl Course {
    pub fn new(alloc: Global, machine: Machine, taken: usize) -> Course
        requires { machine.left ≡ None }
    {
        Course {
            machine,
            taken,
            asked: String::new(alloc),
            output: Vec::new(alloc),
        }
    }

    /// What comes back from an operation. The messages that the machine takes are fed, from the first on.
    fn reply(&mut self, rt: &impl Abort, alloc: Global, fed: &str, op: &Op) -> Result<Reply, Fail> {
        match op {
            Op::Output(text) => {
                self.output.extend_from_slice(text.as_slice())?;
                Ok(Reply::Done)
            }
            Op::Receive { .. } => {
                let word = fed.split_whitespace().nth(self.taken);
                self.taken = self.taken.saturating_add(1);
                message(rt, alloc, word.expect(rt, "a message"))
            }
            Op::Send { .. } | Op::Mark => Ok(Reply::Done),
        }
    }

    /// An operation is written down and answered. Where a message is a fault, the machine ends.
    fn operate(
        &mut self,
        rt: &impl Abort,
        alloc: Global,
        fed: &str,
        op: &Op,
    ) -> Result<Option<Halt>, Fail> {
        self.asked.push_str(&format!(in alloc; "{op:?}\n")?)?;
        let reply = self.reply(rt, alloc, fed, op)?;
        match self.machine.answer(reply) {
            Some(end) => Ok(Some(Halt::End(end))),
            None if matches!(op, Op::Mark) => Ok(Some(Halt::Mark)),
            None => Ok(None),
        }
    }

    fn complete(
        &mut self,
        rt: &impl Abort,
        alloc: Global,
        fed: &str,
        want: &Want,
    ) -> Result<Option<Halt>, Fail> {
        match want {
            Want::Paused => Ok(None),
            Want::Ended(end) => Ok(Some(Halt::End(*end))),
            Want::Wants(op) => self.operate(rt, alloc, fed, op),
        }
    }

    /// Turns up to the next mark, which is passed, or the end.
    pub fn go_on(&mut self, rt: &impl Abort, alloc: Global, fed: &str) -> Result<Halt, Fail> {
        for _ in 0..10000 {
            let want = Boxed::new(alloc, self.machine.turn(4096)?)?;
            if let Some(halt) = self.complete(rt, alloc, fed, want.get())? {
                return Ok(halt);
            }
        }
        panic!(rt; "too many turns");
    }

    /// The operations up to the end, and the end.
    pub fn to_end(&mut self, rt: &impl Abort, alloc: Global, fed: &str) -> Result<String, Fail> {
        self.asked = String::new(alloc);
        for _ in 0..100 {
            if let Halt::End(end) = self.go_on(rt, alloc, fed)? {
                self.asked.push_str(&format!(in alloc; "{end:?}")?)?;
                return Ok(mem::replace(&mut self.asked, String::new(alloc)));
            }
        }
        panic!(rt; "too many marks");
    }

    /// It stands as it was saved. The operations from there to the end, and the end.
    pub fn end_from(
        &mut self,
        rt: &impl Abort,
        alloc: Global,
        fed: &str,
        state: &RankState,
    ) -> Result<String, Fail> {
        assert_same(rt, &self.machine, state)?;
        self.to_end(rt, alloc, fed)
    }
}
