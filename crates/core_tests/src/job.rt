//! A job of scripts, and what it does, as text.

use crate::script::Script;
use c3_base::{append, append_number};
use image_text::Image;
use job_core::{Core, Effect, Event, Life, View};
use late_logs::{Entry, Log};
use mpi_words::{End, List, Message, Op};
use std::alloc::Global;
use std::marker::Model;
use std::process::Abort;
use std::rc::Rc;
use std::test::Fail;

/// A job whose core is sound.
#[derive(Drop)]
pub struct Job {
    core: Core<Script>,
}

impl Model for Job {
    ghost use Rattle.std.specs.Prelude.{ℕ};
    ghost use Rattle.core_tests.specs.Jobs.{Stands};

    ghost Value = { ℕ };

    ghost view = { λ j. j.core.events };

    ghost invariant = { λ j. Stands j.core };
}

impl Job {
    pub fn begin(
        rt: &impl Abort,
        alloc: Global,
        code: &Rc<List<List<Op>>>,
        ranks: u16,
    ) -> Result<Job, Fail> {
        assert!(rt; 0 < ranks);
        Ok(Job {
            core: Core::begin(alloc, code, ranks)?,
        })
    }

    /// What an event that is no restart comes to, and what it writes.
    pub fn event(self, rt: &impl Abort, event: &Event) -> Result<(Job, List<Effect>), Fail> {
        let mut core = self.core;
        assert!(rt; core.events < 200000);
        assert!(rt; !matches!(event, Event::Restart));
        let effects = core.event(event)?;
        Ok((Job { core }, effects))
    }

    /// How each rank stands, and the committed line.
    pub fn push_text(&self, alloc: Global, text: &mut Vec<u8>) -> Result<(), Fail> {
        for rank in 0..self.core.network.ranks {
            push_view(alloc, text, self.core.view(rank))?;
        }
        append(text, b"line ")?;
        append_number(alloc, text, u64::from(self.core.line()))?;
        if self.core.finished() {
            append(text, b", finished")?;
        }
        Ok(())
    }
}

/// A word and a number after it.
fn push_number(alloc: Global, text: &mut Vec<u8>, word: &[u8], number: u64) -> Result<(), Fail> {
    append(text, word)?;
    Ok(append_number(alloc, text, number)?)
}

/// Whether a rank runs, has ended or is killed, its operations and its bytes.
fn push_view(alloc: Global, text: &mut Vec<u8>, view: View) -> Result<(), Fail> {
    match view.state {
        Life::Running => append(text, b"runs")?,
        Life::Ended(End::Exit(0)) => append(text, b"ended")?,
        Life::Ended(_) => append(text, b"failed")?,
        Life::Killed => append(text, b"killed")?,
    }
    push_number(alloc, text, b" ops ", view.ops)?;
    push_number(alloc, text, b" out ", u64::from(view.bytes))?;
    Ok(append(text, b", ")?)
}

/// A message's source and its first item.
fn push_message(
    alloc: Global,
    text: &mut Vec<u8>,
    source: u16,
    message: &Message,
) -> Result<(), Fail> {
    push_number(alloc, text, b" ", u64::from(source))?;
    let item = message.items.as_slice().first().copied().unwrap_or(0);
    push_number(alloc, text, b":", item.unsigned_abs())
}

/// A kind of file, its rank and its line.
fn push_head(
    alloc: Global,
    text: &mut Vec<u8>,
    kind: &[u8],
    rank: u16,
    line: u16,
) -> Result<(), Fail> {
    push_number(alloc, text, kind, u64::from(rank))?;
    push_number(alloc, text, b"/", u64::from(line))
}

/// The operations and bytes before an image, what is in its mailbox, and its early counts that aren't 0.
fn push_image(alloc: Global, text: &mut Vec<u8>, image: &Image) -> Result<(), Fail> {
    push_number(alloc, text, b" ops ", image.ops)?;
    push_number(alloc, text, b" out ", u64::from(image.state.output))?;
    for (source, message) in image.mailbox.as_slice() {
        append(text, b" mail")?;
        push_message(alloc, text, *source, message)?;
    }
    for (source, count) in image.early.as_slice().iter().enumerate() {
        if *count != 0 {
            push_number(alloc, text, b" early ", source as u64)?;
            push_number(alloc, text, b":", u64::from(*count))?;
        }
    }
    Ok(())
}

/// A log's stop and its entries.
fn push_log(alloc: Global, text: &mut Vec<u8>, log: &Log) -> Result<(), Fail> {
    push_number(alloc, text, b" stop ", log.stop)?;
    for entry in log.entries.as_slice() {
        match entry {
            Entry::Late { source, message } => {
                append(text, b" late")?;
                push_message(alloc, text, *source, message)?;
            }
            Entry::Intra { source } => push_number(alloc, text, b" intra ", u64::from(*source))?,
        }
    }
    Ok(())
}

pub fn push_effect(alloc: Global, text: &mut Vec<u8>, effect: &Effect) -> Result<(), Fail> {
    match effect {
        Effect::Output { rank, bytes } => {
            push_number(alloc, text, b"put ", u64::from(*rank))?;
            append(text, b" ")?;
            append(text, bytes.as_slice())?;
        }
        Effect::Save { rank, image } => {
            push_head(alloc, text, b"save ", *rank, image.line)?;
            push_image(alloc, text, image)?;
        }
        Effect::WriteLog { rank, log } => {
            push_head(alloc, text, b"log ", *rank, log.line)?;
            push_log(alloc, text, log)?;
        }
        Effect::Commit { line } => push_number(alloc, text, b"commit ", u64::from(*line))?,
    }
    Ok(append(text, b", ")?)
}
