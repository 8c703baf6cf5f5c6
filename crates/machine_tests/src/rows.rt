//! Tables of programs and what they write, a line a row.
//!
//! In a line `⏎` stands for a line feed, and `⇥` for a tab.

use crate::team::written;
use c3_io::{MemSink, MemSource};
use c3_top::c3_top;
use std::alloc::Global;
use std::process::Abort;
use std::test::Fail;

/// A part of a line, with what its marks stand for.
pub fn unmarked(alloc: Global, part: &str) -> Result<String, Fail> {
    let lines = part.replace(alloc, '⏎', "\n")?;
    Ok(lines.replace(alloc, '⇥', "\t")?)
}

/// What `plain` writes of so many ranks.
fn by_source(alloc: Global, ranks: &str, input: &str, schedule: &str) -> Result<Vec<u8>, Fail> {
    let mut words = Vec::new(alloc);
    words.push(String::from_str(alloc, "plain")?)?;
    words.push(String::from_str(alloc, ranks)?)?;
    let mut bytes = Vec::from_slice(alloc, input.as_bytes())?;
    bytes.extend_from_slice(schedule.as_bytes())?;
    let mut source = MemSource::new(bytes, Vec::new(alloc));
    let mut sink = MemSink::new(alloc, Vec::new(alloc));
    c3_top(alloc, &words, &mut source, &mut sink);
    Ok(Vec::from_slice(alloc, sink.bytes())?)
}

/// The source's meaning writes the answer under the schedule, and so do machines, turned in rounds.
pub fn assert_run(
    rt: &impl Abort,
    alloc: Global,
    ranks: &str,
    input: &str,
    schedule: &str,
    answer: &str,
) -> Result<(), Fail> {
    let plain = by_source(alloc, ranks, input, schedule)?;
    assert_eq!(rt; plain.as_slice(), answer.as_bytes(), "at {input}");
    let number = ranks.parse::<u16>().expect(rt, "a number");
    let placed = written(alloc, number, input.as_bytes())?;
    assert_eq!(rt;
        placed.as_slice(),
        answer.as_bytes(),
        "by machines at {input}"
    );
    Ok(())
}

/// Each line is a program, and after its `@` what one rank writes.
pub fn assert_runs(rt: &impl Abort, alloc: Global, table: &str) -> Result<(), Fail> {
    for line in table.trim().lines() {
        let (input, answer) = line.split_once('@').expect(rt, "a marked line");
        let answer = unmarked(alloc, answer)?;
        assert_run(rt, alloc, "1", input, "", &answer)?;
    }
    Ok(())
}
