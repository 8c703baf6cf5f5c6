//! Tables of inputs and answers, a line a row.
//!
//! In a line `⏎` stands for a line feed, `⇥` for a tab and `␍` for a carriage return.

use c_tree::Kind;
use c3_io::{MemSink, MemSource};
use c3_top::{Status, c3_top, code};
use std::alloc::Global;
use std::process::Abort;
use std::test::Fail;

/// The words between spaces.
pub fn words_of(alloc: Global, line: &str) -> Result<Vec<String>, Fail> {
    let mut words = Vec::new(alloc);
    for word in line.split_whitespace() {
        words.push(String::from_str(alloc, word)?)?;
    }
    Ok(words)
}

/// What is answered to the words of a line on an input, with what is written.
pub fn answered(alloc: Global, line: &str, input: &[u8]) -> Result<(Status, Vec<u8>), Fail> {
    let words = words_of(alloc, line)?;
    let mut source = MemSource::new(Vec::from_slice(alloc, input)?, Vec::new(alloc));
    let mut sink = MemSink::new(alloc, Vec::new(alloc));
    let status = c3_top(alloc, &words, &mut source, &mut sink);
    let written = Vec::from_slice(alloc, sink.bytes())?;
    Ok((status, written))
}

/// Adds a part of a line.
pub fn push_line(text: &mut String, part: &str) -> Result<(), Fail> {
    for c in part.chars() {
        text.push(match c {
            '⏎' => '\n',
            '⇥' => '\t',
            '␍' => '\r',
            c => c,
        })?;
    }
    Ok(())
}

/// A front, and a part of a line.
pub fn line_after(alloc: Global, front: &str, part: &str) -> Result<String, Fail> {
    let mut text = String::from_str(alloc, front)?;
    push_line(&mut text, part)?;
    Ok(text)
}

/// The text of so many pieces between two others.
pub fn repeated(
    alloc: Global,
    front: &str,
    piece: &str,
    times: usize,
    back: &str,
) -> Result<String, Fail> {
    let mut text = String::from_str(alloc, front)?;
    for _ in 0..times {
        text.push_str(piece)?;
    }
    text.push_str(back)?;
    Ok(text)
}

/// Each line is an input after the front, and after its `@` what is written.
pub fn assert_rows(
    rt: &impl Abort,
    alloc: Global,
    words: &str,
    front: &str,
    table: &str,
) -> Result<(), Fail> {
    for line in table.trim().lines() {
        let (input, answer) = line.split_once('@').expect(rt, "a marked line");
        let input = line_after(alloc, front, input)?;
        let answer = line_after(alloc, "", answer)?;
        let (_, written) = answered(alloc, words, input.as_bytes())?;
        assert_eq!(rt; written.as_slice(), answer.as_bytes(), "at {line}");
    }
    Ok(())
}

/// Each line is the process's status and the words, and after a `@` each an input, which goes on after the front, and what is written.
pub fn assert_answers(
    rt: &impl Abort,
    alloc: Global,
    front: &str,
    table: &str,
) -> Result<(), Fail> {
    for line in table.trim().lines() {
        let (call, row) = line.split_once('@').expect(rt, "a marked line");
        let (number, words) = call.split_once(' ').expect(rt, "a status and words");
        let (input, answer) = row.split_once('@').expect(rt, "an answer");
        let input = line_after(alloc, front, input)?;
        let answer = line_after(alloc, "", answer)?;
        let (status, written) = answered(alloc, words, input.as_bytes())?;
        assert_eq!(rt; written.as_slice(), answer.as_bytes(), "at {line}");
        let number = number.parse::<u8>().expect(rt, "a number");
        assert_eq!(rt; code(&status), number, "at {line}");
    }
    Ok(())
}

/// Each line is accepted after the front.
pub fn assert_accepted(
    rt: &impl Abort,
    alloc: Global,
    front: &str,
    table: &str,
) -> Result<(), Fail> {
    for line in table.trim().lines() {
        let text = line_after(alloc, front, line)?;
        let (status, written) = answered(alloc, "check", text.as_bytes())?;
        assert_eq!(rt; status, Status::Done, "at {line}");
        assert_eq!(rt; written.as_slice(), b"accepted\n".as_slice(), "at {line}");
    }
    Ok(())
}

/// Each line is refused after the front for the kind, at its `@`, which is no part of the text.
pub fn assert_refused(
    rt: &impl Abort,
    alloc: Global,
    front: &str,
    kind: Kind,
    table: &str,
) -> Result<(), Fail> {
    for line in table.trim().lines() {
        let (before, after) = line.split_once('@').expect(rt, "a marked line");
        let mut text = line_after(alloc, front, before)?;
        let at = u32::try_from(text.len()).expect(rt, "a short text");
        push_line(&mut text, after)?;
        let (status, _) = answered(alloc, "check", text.as_bytes())?;
        assert_eq!(rt; status, Status::Refused { kind, at }, "at {line}");
    }
    Ok(())
}
