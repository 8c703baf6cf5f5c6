//! Files of images and logs.

use crate::fields::text_of;
use crate::slow::fault_of;
use c3_base::NoMemory;
use image_text::{NotImage, read_image, write_image};
use late_logs::{NotLog, read_log, write_log};
use std::alloc::Global;
use std::process::Abort;
use std::test::Fail;

/// The image of a rank of two at their first checkpoint, and its log.
const IMAGE: &[u8] = &[
    0x43, 0x33, 0x49, 0x4d, 1, 0, 2, 0, 0, 0, 1, 0, 1, 0, 0, 0, 0, 0, 0, 0, 0, 0, 0, 0, 1, 0, 0, 0,
    0, 0, 0, 0, 0, 0, 0, 0, 0, 0, 0, 0, 0, 1, 0, 0, 0, 1, 0, 0, 0, 0, 0, 0, 0, 0, 0, 0, 0, 0, 0, 0,
    0, 0, 0, 0, 0, 0, 0, 0, 0,
];

const LOG: &[u8] = &[
    0x43, 0x33, 0x4c, 0x47, 1, 0, 2, 0, 0, 0, 1, 0, 1, 0, 0, 0, 0, 0, 0, 0, 0, 0, 0, 0,
];

/// What reading comes to: the text of the value that was read, or the place of the fault.
enum Answer {
    Text(Vec<u8>),
    Wrong(usize),
}

fn image_answer(alloc: Global, bytes: &[u8]) -> Result<Answer, NoMemory> {
    match read_image(alloc, bytes) {
        Ok(image) => Ok(Answer::Text(write_image(alloc, &image)?)),
        Err(NotImage::Wrong { at }) => Ok(Answer::Wrong(at)),
        Err(NotImage::NoMemory) => Err(NoMemory),
    }
}

fn log_answer(alloc: Global, bytes: &[u8]) -> Result<Answer, NoMemory> {
    match read_log(alloc, bytes) {
        Ok(log) => Ok(Answer::Text(write_log(alloc, &log)?)),
        Err(NotLog::Wrong { at }) => Ok(Answer::Wrong(at)),
        Err(NotLog::NoMemory) => Err(NoMemory),
    }
}

/// Bytes are read as an image or a log, and written again. Gives the place of the fault, if there is one.
fn read_again(
    rt: &impl Abort,
    alloc: Global,
    is_image: bool,
    bytes: &[u8],
) -> Result<Option<usize>, Fail> {
    let answer = if is_image {
        image_answer(alloc, bytes)?
    } else {
        log_answer(alloc, bytes)?
    };
    match answer {
        Answer::Text(text) => {
            assert_eq!(rt; text.as_slice(), bytes);
            Ok(None)
        }
        Answer::Wrong(at) => Ok(Some(at)),
    }
}

/// The fault, or that there is none, is where the slow reader has it.
fn assert_as_slow(
    rt: &impl Abort,
    alloc: Global,
    is_image: bool,
    bytes: &[u8],
) -> Result<(), Fail> {
    let fault = read_again(rt, alloc, is_image, bytes)?;
    assert_eq!(rt; fault, fault_of(is_image, bytes), "at {bytes:?}");
    Ok(())
}

/// Each front of a file, and each change of one byte to 0, 255 or the next, is read as the slow reader reads it.
fn assert_near(rt: &impl Abort, alloc: Global, is_image: bool, file: &[u8]) -> Result<(), Fail> {
    assert_eq!(rt; fault_of(is_image, file), None);
    let mut front = Vec::new(alloc);
    for byte in file {
        assert_as_slow(rt, alloc, is_image, &front)?;
        front.push(*byte)?;
    }
    for (place, byte) in file.iter().enumerate() {
        for changed in [0, 255, byte.wrapping_add(1)] {
            let mut bytes = Vec::from_slice(alloc, file)?;
            if let Some(at) = bytes.get_mut(place) {
                *at = changed;
            }
            assert_as_slow(rt, alloc, is_image, &bytes)?;
        }
    }
    Ok(())
}

/// Each line is a place, the bytes that stand there instead, and after a `@` the place of the fault, or `ok`.
fn assert_changes(
    rt: &impl Abort,
    alloc: Global,
    is_image: bool,
    file: &[u8],
    table: &str,
) -> Result<(), Fail> {
    for line in table.trim().lines() {
        let (change, expected) = line.split_once('@').expect(rt, "a marked line");
        let (place, numbers) = change.split_once(' ').expect(rt, "a place");
        let place = place.parse::<usize>().expect(rt, "a number");
        let mut bytes = Vec::from_slice(alloc, file)?;
        for (k, number) in numbers.split_whitespace().enumerate() {
            let byte = number.parse::<u8>().expect(rt, "a byte");
            match bytes.get_mut(place.saturating_add(k)) {
                Some(at) => *at = byte,
                None => bytes.push(byte)?,
            }
        }
        let fault = read_again(rt, alloc, is_image, &bytes)?;
        assert_eq!(rt; fault, expected.parse::<usize>().ok(), "at {line}");
    }
    Ok(())
}

// The magic word, the format and numbers at and past their limits; counts that take the bytes behind them; a byte too many.
#[test]
fn fields_of_images_have_limits(rt: HostRuntime) -> Result<(), Fail> {
    let table = r#"
0 67@ok
0 68@0
3 0@0
4 2@4
5 1@4
6 1@65
6 3@69
8 9@ok
10 0@12
12 64 13 3@ok
12 65 13 3@12
19 128@12
20 0 0 16@ok
20 1 0 16@20
24 0@24
24 0 0 0 0 0 8@ok
24 1 0 0 0 0 8@24
32 2@ok
32 3@32
33 0 0 0 128@ok
33 1 0 0 128@33
41 0@69
41 2@69
41 255 255 255 255@69
49 1@69
53 1@69
57 1@65
61 64 13 3@ok
61 65 13 3@61
65 65 13 3@65
69 0@69
"#;
    assert_changes(&rt, rt.alloc(), true, IMAGE, table)
}

// An intra entry of rank 1, and a late one of rank 0: an int 9 with tag 7. The least and greatest of an int stand in 64 bits.
#[test]
fn fields_of_logs_have_limits(rt: HostRuntime) -> Result<(), Fail> {
    let fields = "C3LG 1/2 2/2 0/2 1/2 0/8 2/4 0/1 1/2 1/1 0/2 0/1 1/1 7/8 1/4 9/8";
    let table = r#"
0 67@ok
3 77@0
4 2@4
8 7@ok
12 128 26 6@ok
12 129 26 6@12
20 1@27
20 3@52
24 2@24
25 255 255@ok
27 2@27
30 1@40
30 2@30
31 3@31
32 255 255 255 255 255 255 255 127@ok
32 0 0 0 0 0 0 0 128@32
40 0@44
40 2@52
40 1 16@40
44 255 255 255 127@ok
44 0 0 0 128@44
44 0 0 0 128 255 255 255 255@ok
44 255 255 255 127 255 255 255 255@44
52 0@52
"#;
    let log = text_of(&rt, rt.alloc(), fields)?;
    assert_changes(&rt, rt.alloc(), false, &log, table)
}

// The worked image; one with objects, a message and two sites; one with a part of a collective call and early counts.
#[test]
fn texts_near_images_are_read(rt: HostRuntime) -> Result<(), Fail> {
    assert_near(&rt, rt.alloc(), true, IMAGE)?;
    let table = r#"
C3IM 1/2 2/2 1/2 3/2 5/8 10/4 9/8 1/1 2/8 2/4 1/4 4/4 1/4 3/8 1/4 2/4 5/8 0/8 -1/8 3/8 1/4 8/8 200/4 1/4 7/8 9/8 1/4 0/2 0/1 1/1 7/8 2/4 5/8 -6/8 3/4 0/4
C3IM 1/2 3/2 2/2 1/2 200000/8 0/4 1/8 2/1 0/8 1/4 1/4 0/4 0/4 2/4 0/2 1/1 0/1 0/8 5/4 300/8 -300/8 1/8 9/8 -128/8 1/2 0/1 2/1 3/8 1/4 -9/8 200000/4 0/4 1/4
"#;
    for fields in table.trim().lines() {
        let image = text_of(&rt, rt.alloc(), fields)?;
        assert_near(&rt, rt.alloc(), true, &image)?;
    }
    Ok(())
}

#[test]
fn texts_near_logs_are_read(rt: HostRuntime) -> Result<(), Fail> {
    assert_near(&rt, rt.alloc(), false, LOG)?;
    let table = r#"
C3LG 1/2 2/2 0/2 1/2 0/8 2/4 0/1 1/2 1/1 0/2 0/1 1/1 7/8 1/4 9/8
C3LG 1/2 4/2 3/2 2/2 600000/8 3/4 1/1 2/2 1/1 1/1 0/8 4/4 5/8 6/8 0/8 7/8 1/1 0/2 0/1 0/1 1/8 2/4 127/8 -128/8 0/1 3/2
"#;
    for fields in table.trim().lines() {
        let log = text_of(&rt, rt.alloc(), fields)?;
        assert_near(&rt, rt.alloc(), false, &log)?;
    }
    Ok(())
}

// Each line is a message without its items, the signature of a part of a collective call, how many items of -1 follow, and after
// a `@` the place of the fault, or `ok`. The count is at 37.
#[test]
fn messages_have_at_most_4096_items(rt: HostRuntime) -> Result<(), Fail> {
    let table = r#"
0/1 1/1 7/8 4096/4|4096@ok
0/1 1/1 7/8 4096/4|4095@32801
0/1 1/1 7/8 4096/4|4097@32809
0/1 1/1 7/8 4097/4|4097@37
1/1 1/1 7/8 4100/4 0/8 0/8 4096/8 0/8|4096@ok
1/1 1/1 7/8 4100/4 0/8 0/8 4095/8 0/8|4096@57
1/1 1/1 7/8 4101/4 0/8 0/8 4097/8 0/8|4097@37
1/1 1/1 7/8 3/4 0/8 0/8 4095/8|0@37
"#;
    for line in table.trim().lines() {
        let (message, row) = line.split_once('|').expect(&rt, "items");
        let (count, expected) = row.split_once('@').expect(&rt, "a marked line");
        let front = "C3LG 1/2 2/2 0/2 1/2 0/8 1/4 1/1 0/2";
        let fields = format!(in rt.alloc(); "{front} {message}")?;
        let mut log = text_of(&rt, rt.alloc(), &fields)?;
        for _ in 0..count.parse::<u32>().expect(&rt, "a number") {
            log.extend_from_slice(&[255; 8])?;
        }
        let fault = read_again(&rt, rt.alloc(), false, &log)?;
        assert_eq!(rt; fault, expected.parse::<usize>().ok(), "at {line}");
    }
    Ok(())
}
