//! What a stop at each device call of each call of the store leaves.

use crate::untold::Untold;
use disk_model::{Choice, Disk, MemDisk};
use image_text::read_image;
use late_logs::read_log;
use line_store::{
    Job, StoreFault, append_output, commit, committed, cut_outputs, ended, find_job, finish,
    load_line, make_job, read_ends, read_output, save_local, save_log, settle,
};
use mpi_words::End;
use std::alloc::Global;
use std::process::Abort;
use std::test::Fail;

/// A job of one rank.
const JOB: &[u8] = b"C3JB\x01\x00\x01\x00\x05\x00\x00\x00main;";

const ENDS: &[u8] = b"C3EN\x01\x00\x00\xf9\xff\xff\xff";

/// An image of its rank. The line is at 10, the operations at 12, and the length of output at 20.
const IMAGE: &[u8] = &[
    67, 51, 73, 77, 1, 0, 1, 0, 0, 0, 1, 0, 0, 0, 0, 0, 0, 0, 0, 0, 0, 0, 0, 0, 1, 0, 0, 0, 0, 0,
    0, 0, 0, 0, 0, 0, 0, 0, 0, 0, 0, 1, 0, 0, 0, 1, 0, 0, 0, 0, 0, 0, 0, 0, 0, 0, 0, 0, 0, 0, 0, 0,
    0, 0, 0,
];

/// A log. The line is at 10, and the operations at 12.
const LOG: &[u8] =
    b"C3LG\x01\x00\x01\x00\x00\x00\x01\x00\x00\x00\x00\x00\x00\x00\x00\x00\x00\x00\x00\x00";

/// The calls of two lines and an end. After a `@` stands what the disk then reads: 1 line 0, 2 and 3 the lines 1 and 2, 4 the end.
/// Line 1 has 2 bytes of output, and line 2 has 6.
const CALLS: &str = r#"
make 0@1
settle 0@1
append hi@1
image 2@1
log 1@1
commit 1@2
append abc@2
cut 2@2
append defg@2
image 6@2
log 2@2
commit 2@3
settle 0@3
append h@3
cut 6@3
finish 0@4
"#;

/// A text with other bytes at some places.
fn changed(alloc: Global, text: &[u8], places: [(usize, u8); 3]) -> Result<Vec<u8>, Fail> {
    let mut bytes = Vec::from_slice(alloc, text)?;
    for (place, byte) in places {
        if let Some(at) = bytes.get_mut(place) {
            *at = byte;
        }
    }
    Ok(bytes)
}

/// A disk with file 0, file 3 and an open gate.
fn source(rt: &impl Abort, alloc: Global) -> Untold {
    let mut disk = Untold {
        disk: MemDisk::new(alloc, Vec::new(alloc), None),
    };
    disk.write(0, 0, JOB).expect(rt, "a job");
    disk.write(1, 0, b"J").expect(rt, "a gate");
    disk.write(3, 0, ENDS).expect(rt, "ends");
    disk
}

fn make(rt: &impl Abort, alloc: Global, disk: &mut Untold) -> Result<(), StoreFault> {
    let job = find_job(alloc, &mut source(rt, alloc)).expect(rt, "a job");
    make_job(alloc, disk, &job)
}

/// Saves the image of line 1 with 2 bytes of output, or that of line 2 with 6.
fn image(rt: &impl Abort, alloc: Global, disk: &mut Untold, output: u8) -> Result<bool, Fail> {
    let line = if output == 2 { 1 } else { 2 };
    let text = changed(alloc, IMAGE, [(10, line), (12, line), (20, output)])?;
    let image = read_image(alloc, &text).ok().expect(rt, "an image");
    Ok(save_local(alloc, disk, &image).is_ok())
}

fn log(rt: &impl Abort, alloc: Global, disk: &mut Untold, line: u8) -> Result<bool, Fail> {
    let text = changed(alloc, LOG, [(10, line), (12, line), (13, 1)])?;
    let log = read_log(alloc, &text).ok().expect(rt, "a log");
    Ok(save_log(alloc, disk, &log).is_ok())
}

fn end(rt: &impl Abort, alloc: Global, disk: &mut Untold) -> Result<(), StoreFault> {
    let ends = read_ends(alloc, &mut source(rt, alloc), 1).expect(rt, "ends");
    assert_eq!(rt; ends.len(), 1);
    finish(alloc, disk, &ends)
}

/// Makes a call of the table. Tells whether it succeeds.
fn call(rt: &impl Abort, alloc: Global, disk: &mut Untold, words: &str) -> Result<bool, Fail> {
    let (name, word) = words.split_once(' ').expect(rt, "a word");
    let number = word.parse::<u8>().unwrap_or(0);
    match name {
        "make" => Ok(make(rt, alloc, disk).is_ok()),
        "settle" => Ok(settle(disk).is_ok()),
        "append" => Ok(append_output(disk, 0, word.as_bytes()).is_ok()),
        "image" => image(rt, alloc, disk, number),
        "log" => log(rt, alloc, disk, number),
        "cut" => Ok(cut_outputs(disk, &[u32::from(number)]).is_ok()),
        "commit" if number != 0 => Ok(commit(disk, u16::from(number)).is_ok()),
        _ => Ok(end(rt, alloc, disk).is_ok()),
    }
}

/// Makes the calls up to the first that fails. Gives what the disk may read: what it read before that call, and what after.
fn calls(rt: &impl Abort, alloc: Global, disk: &mut Untold) -> Result<(u8, u8), Fail> {
    let mut before = 0;
    for line in CALLS.trim().lines() {
        let (words, number) = line.split_once('@').expect(rt, "a marked line");
        let after = number.parse::<u8>().expect(rt, "a number");
        if !call(rt, alloc, disk, words)? {
            return Ok((before, after));
        }
        before = after;
    }
    Ok((before, before))
}

/// The image, the log and the output are those of this line.
fn assert_line(
    rt: &impl Abort,
    alloc: Global,
    disk: &mut Untold,
    job: &Job,
    line: u16,
) -> Result<(), Fail> {
    assert_eq!(rt; job.ranks, 1);
    let front = if line == 1 { "hi" } else { "hidefg" };
    let (images, logs) = load_line(alloc, disk, job, line).expect(rt, "a line");
    let image = images.first().expect(rt, "an image");
    let log = logs.first().expect(rt, "a log");
    assert_eq!(rt; (images.len(), logs.len()), (1, 1));
    assert_eq!(rt; (image.line, image.ops), (line, u64::from(line)));
    assert_eq!(rt; image.state.output as usize, front.len());
    assert_eq!(rt;
        (log.line, log.stop),
        (line, u64::from(line).saturating_add(256))
    );
    let output = read_output(alloc, disk, 0).expect(rt, "an output");
    assert!(rt; output.starts_with(front.as_bytes()));
    Ok(())
}

/// The ends, the output and the line are those of the finished job.
fn assert_end(rt: &impl Abort, alloc: Global, disk: &mut Untold, line: u16) -> Result<(), Fail> {
    assert_eq!(rt; line, 2);
    let ends = read_ends(alloc, disk, 1).expect(rt, "ends");
    assert_eq!(rt; ends.as_slice(), [End::Exit(-7)].as_slice());
    let output = read_output(alloc, disk, 0).expect(rt, "an output");
    assert_eq!(rt; output.as_slice(), b"hidefg".as_slice());
    Ok(())
}

/// What the disk reads: 0 is no job, and the others are as after the calls.
fn reading(rt: &impl Abort, alloc: Global, disk: &mut Untold) -> Result<u8, Fail> {
    let job = match find_job(alloc, disk) {
        Ok(job) => job,
        Err(fault) => {
            assert_eq!(rt; fault, StoreFault::NoJob);
            return Ok(0);
        }
    };
    assert_eq!(rt; job.ranks, 1);
    assert_eq!(rt; job.text.as_slice(), b"main;".as_slice());
    let line = committed(disk).expect(rt, "a line");
    if line != 0 {
        assert_line(rt, alloc, disk, &job, line)?;
    }
    if ended(disk).expect(rt, "an answer") {
        assert_end(rt, alloc, disk, line)?;
        return Ok(4);
    }
    Ok(line.saturating_add(1).min(4) as u8)
}

// The calls fail from each device call on, and everything is stopped, in each of the four ways.
#[test]
fn stops_leave_what_was_or_is_made(rt: HostRuntime) -> Result<(), Fail> {
    let alloc = rt.alloc();
    let mut last = 0;
    for fuse in 0..300u64 {
        for choice in [
            Choice::Written,
            Choice::Old,
            Choice::Fill(1),
            Choice::Fill(0x45),
            Choice::Fill(0x4A),
            Choice::Short,
        ] {
            let mut disk = Untold {
                disk: MemDisk::new(alloc, Vec::new(alloc), Some(fuse)),
            };
            let (before, after) = calls(&rt, alloc, &mut disk)?;
            last = before;
            disk.disk.stop(choice)?;
            let read = reading(&rt, alloc, &mut disk)?;
            assert!(rt; read == before || read == after, "at {fuse}, {choice:?}");
        }
    }
    // without a fault in the last runs
    assert_eq!(rt; last, 4);
    Ok(())
}
