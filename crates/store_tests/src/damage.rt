//! Files that are no texts.

use crate::slow::fault_of;
use crate::untold::Untold;
use disk_model::{Disk, MemDisk};
use line_store::{Job, StoreFault, find_job, load_line, read_ends, read_output};
use mpi_words::{End, List};
use std::alloc::Global;
use std::process::Abort;
use std::test::Fail;

/// A program of five bytes on two ranks.
const JOB: &[u8] = b"C3JB\x01\x00\x02\x00\x05\x00\x00\x00main;";

/// An exit with -7, and the fault 103.
const ENDS: &[u8] = b"C3EN\x02\x00\x00\xf9\xff\xff\xff\x01\x67\x00\x00\x00";

/// An image of a rank of two at their first checkpoint, and a log.
const IMAGE: &[u8] = &[
    67, 51, 73, 77, 1, 0, 2, 0, 0, 0, 1, 0, 0, 0, 0, 0, 0, 0, 0, 0, 0, 0, 0, 0, 1, 0, 0, 0, 0, 0,
    0, 0, 0, 0, 0, 0, 0, 0, 0, 0, 0, 1, 0, 0, 0, 1, 0, 0, 0, 0, 0, 0, 0, 0, 0, 0, 0, 0, 0, 0, 0, 0,
    0, 0, 0, 0, 0, 0, 0,
];

const LOG: &[u8] =
    b"C3LG\x01\x00\x02\x00\x00\x00\x01\x00\x00\x00\x00\x00\x00\x00\x00\x00\x00\x00\x00\x00";

fn new_disk(alloc: Global) -> Untold {
    Untold {
        disk: MemDisk::new(alloc, Vec::new(alloc), None),
    }
}

/// How file 0, or file 3 of two ranks, is refused with these bytes, if it is.
fn refusal(
    rt: &impl Abort,
    alloc: Global,
    file: u32,
    bytes: &[u8],
) -> Result<Option<StoreFault>, Fail> {
    let mut disk = new_disk(alloc);
    disk.write(1, 0, b"J").expect(rt, "a gate");
    disk.write(file, 0, bytes).expect(rt, "a file");
    if file == 0 {
        Ok(find_job(alloc, &mut disk).err())
    } else {
        Ok(read_ends(alloc, &mut disk, 2).err())
    }
}

/// The file is refused where the slow reader refuses it, and nowhere else.
fn assert_as_slow(rt: &impl Abort, alloc: Global, file: u32, bytes: &[u8]) -> Result<(), Fail> {
    let refused = refusal(rt, alloc, file, bytes)?;
    let expected = match fault_of(file, bytes) {
        Some(at) => Some(StoreFault::Damaged {
            file,
            at: at as u64,
        }),
        None => None,
    };
    assert_eq!(rt; refused, expected, "at {bytes:?}");
    Ok(())
}

// Each front of a text, and each change of one byte to 0, 255 or the next.
#[test]
fn damage_is_found_where_it_is(rt: HostRuntime) -> Result<(), Fail> {
    let alloc = rt.alloc();
    for (file, text) in [(0u32, JOB), (3, ENDS)] {
        assert_as_slow(&rt, alloc, file, text)?;
        let mut front = Vec::new(alloc);
        for (place, byte) in text.iter().enumerate() {
            assert_as_slow(&rt, alloc, file, &front)?;
            front.push(*byte)?;
            for changed in [0, 255, byte.wrapping_add(1)] {
                let mut bytes = Vec::from_slice(alloc, text)?;
                if let Some(at) = bytes.get_mut(place) {
                    *at = changed;
                }
                assert_as_slow(&rt, alloc, file, &bytes)?;
            }
        }
    }
    Ok(())
}

// Each line is a file, a place, the bytes that stand there instead, and after a `@` the place of the fault, or `ok`.
#[test]
fn fields_have_limits(rt: HostRuntime) -> Result<(), Fail> {
    let table = r#"
0 0 67@ok
0 3 67@0
0 4 2@4
0 6 0@6
0 6 1@ok
0 6 16@ok
0 6 17@6
0 8 4@16
0 8 6@12
0 8 0 0 1@12
0 8 1 0 1@8
0 12 255@ok
0 17 0@17
3 0 68@0
3 4 1@4
3 4 3@4
3 6 2@6
3 7 255 255 255 127@ok
3 7 0 0 0 128@ok
3 11 0@ok
3 11 2@11
3 12 100@12
3 12 101@ok
3 12 118@ok
3 12 119@12
3 13 1@12
3 16 0@16
"#;
    for line in table.trim().lines() {
        let (change, expected) = line.split_once('@').expect(&rt, "a marked line");
        let (file, change) = change.split_once(' ').expect(&rt, "a file");
        let (place, numbers) = change.split_once(' ').expect(&rt, "a place");
        let file = file.parse::<u32>().expect(&rt, "a number");
        let place = place.parse::<usize>().expect(&rt, "a number");
        let mut bytes = Vec::from_slice(rt.alloc(), if file == 0 { JOB } else { ENDS })?;
        for (k, number) in numbers.split_whitespace().enumerate() {
            let byte = number.parse::<u8>().expect(&rt, "a byte");
            match bytes.get_mut(place.saturating_add(k)) {
                Some(at) => *at = byte,
                None => bytes.push(byte)?,
            }
        }
        let refused = refusal(&rt, rt.alloc(), file, &bytes)?;
        let damaged = match expected.parse::<u64>() {
            Ok(at) => Some(StoreFault::Damaged { file, at }),
            Err(_) => None,
        };
        assert_eq!(rt; refused, damaged, "at {line}");
    }
    Ok(())
}

#[test]
fn texts_are_read(rt: HostRuntime) -> Result<(), Fail> {
    let alloc = rt.alloc();
    let mut disk = new_disk(alloc);
    disk.write(0, 0, JOB).expect(&rt, "a file");
    assert_eq!(rt; find_job(alloc, &mut disk).err(), Some(StoreFault::NoJob));
    disk.write(1, 0, b"J").expect(&rt, "a gate");
    disk.write(3, 0, ENDS).expect(&rt, "a file");
    let job = find_job(alloc, &mut disk).expect(&rt, "a job");
    assert_eq!(rt; job.ranks, 2);
    assert_eq!(rt; job.text.as_slice(), b"main;".as_slice());
    let ends = read_ends(alloc, &mut disk, 2).expect(&rt, "ends");
    assert_eq!(rt;
        ends.as_slice(),
        [End::Exit(-7), End::Fault(103)].as_slice()
    );
    Ok(())
}

// The images come before the logs, each by rank.
#[test]
fn the_first_file_is_named(rt: HostRuntime) -> Result<(), Fail> {
    let alloc = rt.alloc();
    let job = Job {
        ranks: 2,
        text: List::new(alloc),
    };
    let mut disk = new_disk(alloc);
    let files: [(u32, &[u8], u32, u64); 4] = [
        (9, b"C3LG\x02", 7, 0),
        (7, IMAGE, 12, 0),
        (12, IMAGE, 9, 4),
        (9, LOG, 14, 0),
    ];
    for (put, bytes, file, at) in files {
        disk.write(put, 0, bytes).expect(&rt, "a file");
        let refused = load_line(alloc, &mut disk, &job, 1).err();
        assert_eq!(rt; refused, Some(StoreFault::Damaged { file, at }));
    }
    disk.write(14, 0, LOG).expect(&rt, "a file");
    let (images, logs) = load_line(alloc, &mut disk, &job, 1).expect(&rt, "a line");
    assert_eq!(rt; (images.len(), logs.len()), (2, 2));
    Ok(())
}

#[test]
fn outputs_have_a_limit(rt: HostRuntime) -> Result<(), Fail> {
    let alloc = rt.alloc();
    let mut disk = new_disk(alloc);
    let bytes = vec![in alloc; 7u8; 1048576]?;
    disk.write(10, 0, &bytes).expect(&rt, "an output");
    let output = read_output(alloc, &mut disk, 1).expect(&rt, "an output");
    assert_eq!(rt; output.len(), 1048576);
    disk.write(10, 1048576, b"x").expect(&rt, "a byte");
    let refused = read_output(alloc, &mut disk, 1).err();
    assert_eq!(rt;
        refused,
        Some(StoreFault::Damaged {
            file: 10,
            at: 1048576
        })
    );
    Ok(())
}
