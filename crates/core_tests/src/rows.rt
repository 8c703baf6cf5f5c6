//! Tables of scripts under schedules, with what a job writes and how it stands then.
//!
//! A script is a list of words: `s1:7` sends 7 to rank 1, `r1` receives from rank 1 and `r` from any, `oab` puts out `ab`, and `m` is a mark.

use crate::job::{Job, push_effect};
use crate::script::Script;
use job_core::Event;
use job_schedule::read_schedule;
use mpi_words::{Datatype, List, Message, Op, Pattern, Patterns};
use std::alloc::Global;
use std::process::Abort;
use std::rc::Rc;
use std::test::Fail;

fn message(alloc: Global, item: i64) -> Result<Message, Fail> {
    let mut items = List::new(alloc);
    items.push(item)?;
    Ok(Message {
        context: 0,
        tag: 0,
        kind: Datatype::Long,
        items,
    })
}

/// What a word of a script stands for.
fn operation(rt: &impl Abort, alloc: Global, word: &str) -> Result<Op, Fail> {
    if let Some(rest) = word.strip_prefix('s') {
        let (to, item) = rest.split_once(':').expect(rt, "a rank and an item");
        let to = to.parse::<u16>().expect(rt, "a rank");
        let item = item.parse::<i64>().expect(rt, "an item");
        let message = message(alloc, item)?;
        return Ok(Op::Send { to, message });
    }
    if let Some(source) = word.strip_prefix('r') {
        let pattern = Pattern {
            source: source.parse::<u16>().ok(),
            context: 0,
            tag: None,
        };
        let patterns = Patterns::one(alloc, pattern);
        return Ok(Op::Receive { patterns });
    }
    if let Some(rest) = word.strip_prefix('o') {
        let mut text = List::new(alloc);
        for byte in rest.as_bytes() {
            text.push(*byte)?;
        }
        return Ok(Op::Output(text));
    }
    assert_eq!(rt; word, "m");
    Ok(Op::Mark)
}

/// The scripts of ranks, with `|` between them.
fn scripts(rt: &impl Abort, alloc: Global, text: &str) -> Result<List<List<Op>>, Fail> {
    let mut scripts = List::new(alloc);
    for part in text.split('|') {
        let mut script = List::new(alloc);
        for word in part.split_whitespace() {
            script.push(operation(rt, alloc, word)?)?;
        }
        scripts.push(script)?;
    }
    Ok(scripts)
}

fn events(rt: &impl Abort, alloc: Global, ranks: u16, text: &str) -> Result<Vec<Event>, Fail> {
    assert!(rt; text.len() < 1048576);
    let schedule = read_schedule(alloc, text.as_bytes()).expect(rt, "a schedule");
    Ok(schedule.events(ranks)?)
}

/// What a job writes under a schedule, and how it stands then.
fn told(rt: &impl Abort, alloc: Global, text: &str, schedule: &str) -> Result<Vec<u8>, Fail> {
    let code = scripts(rt, alloc, text)?;
    let ranks = u16::try_from(code.as_slice().len())
        .ok()
        .expect(rt, "ranks");
    let code = Rc::new(alloc, code)?;
    let mut job = Job::begin(rt, alloc, &code, ranks)?;
    let mut told = Vec::new(alloc);
    for event in events(rt, alloc, ranks, schedule)?.as_slice() {
        let (next, effects) = job.event(rt, event)?;
        job = next;
        for effect in effects.as_slice() {
            push_effect(alloc, &mut told, effect)?;
        }
    }
    job.push_text(alloc, &mut told)?;
    Ok(told)
}

/// Each line has a word of why, and then between `@`s the scripts, a schedule and what the job tells.
pub fn assert_rows(rt: &impl Abort, alloc: Global, table: &str) -> Result<(), Fail> {
    for line in table.trim().lines() {
        let (why, row) = line.split_once('@').expect(rt, "a marked line");
        let (text, row) = row.split_once('@').expect(rt, "a marked line");
        let (schedule, answer) = row.split_once('@').expect(rt, "a marked line");
        let told = told(rt, alloc, text, schedule)?;
        assert_eq!(rt; told.as_slice(), answer.as_bytes(), "at {why}: {schedule}");
    }
    Ok(())
}
