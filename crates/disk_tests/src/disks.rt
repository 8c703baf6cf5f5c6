//! Disks: what calls give, what fails, and what a stop leaves.

ghost use Rattle.std.specs.Prelude.{◌<◌};

use c3_io::Failed;
use disk_model::{Choice, Disk, FolderDisk, MemDisk};
use std::alloc::Global;
use std::process::Abort;
use std::test::Fail;

/// Writes at a place up to the file's end.
fn write<D: Disk>(disk: &mut D, at: u64, bytes: &[u8]) -> Result<(), Failed>
    requires { 0 < D.files }
{
    if disk.length(0)? < at {
        return Err(Failed);
    }
    disk.write(0, at, bytes)
}

/// Cuts to a size up to the file's.
fn cut<D: Disk>(disk: &mut D, size: u64) -> Result<(), Failed>
    requires { 0 < D.files }
{
    if disk.length(0)? < size {
        return Err(Failed);
    }
    disk.cut(0, size)
}

/// Adds the bytes from a place on, 16 at most, and a stroke. Tells whether it can.
fn read<D: Disk>(disk: &mut D, at: u64, out: &mut Vec<u8>) -> Result<bool, Fail>
    requires { 0 < D.files }
{
    let mut bytes = [0; 16];
    let Ok(count) = disk.read(0, at, &mut bytes) else {
        return Ok(false);
    };
    out.extend_from_slice(&bytes[..count])?;
    out.push(b'|')?;
    Ok(true)
}

/// Adds the length, and a stroke. Tells whether it can.
fn length<D: Disk>(alloc: Global, disk: &mut D, out: &mut Vec<u8>) -> Result<bool, Fail>
    requires { 0 < D.files }
{
    let Ok(length) = disk.length(0) else {
        return Ok(false);
    };
    let text = format!(in alloc; "{length}|")?;
    out.extend_from_slice(text.as_bytes())?;
    Ok(true)
}

/// `w2:ab` writes, `c2` cuts, `s` syncs, `r2` reads, and `l` tells the length, each of file 0. Writes and cuts ask for the length
/// first. Tells whether the call did not fail.
fn call<D: Disk>(
    rt: &impl Abort,
    alloc: Global,
    disk: &mut D,
    word: &str,
    out: &mut Vec<u8>,
) -> Result<bool, Fail>
    requires { 0 < D.files }
{
    let (name, rest) = word.split_at_checked(1).expect(rt, "a call");
    let (number, text) = rest.split_once(':').unwrap_or((rest, ""));
    let place = number.parse::<u64>().unwrap_or(0);
    match name {
        "w" => Ok(write(disk, place, text.as_bytes()).is_ok()),
        "c" => Ok(cut(disk, place).is_ok()),
        "s" => Ok(disk.sync(0).is_ok()),
        "r" => read(disk, place, out),
        _ => length(alloc, disk, out),
    }
}

/// What the calls give. Where one fails stands a `!`.
fn calls<D: Disk>(
    rt: &impl Abort,
    alloc: Global,
    disk: &mut D,
    words: &str,
    out: &mut Vec<u8>,
) -> Result<(), Fail>
    requires { 0 < D.files }
{
    for word in words.split_whitespace() {
        if !call(rt, alloc, disk, word, out)? {
            out.push(b'!')?;
        }
    }
    Ok(())
}

fn choice(rt: &impl Abort, name: &str) -> Choice {
    match name.strip_prefix("fill") {
        Some(mark) => Choice::Fill(*mark.as_bytes().first().expect(rt, "a byte")),
        None if name == "written" => Choice::Written,
        None if name == "old" => Choice::Old,
        None => Choice::Short,
    }
}

/// The numbers between commas.
fn numbers(alloc: Global, list: &str) -> Result<Vec<u64>, Fail> {
    let mut numbers = Vec::new(alloc);
    for word in list.split(',') {
        if let Ok(number) = word.parse::<u64>() {
            numbers.push(number)?;
        }
    }
    Ok(numbers)
}

/// Each line is the calls that fail, the fuse, and a `:`; calls with stops between them, each between `/`s; and after a `@` what the
/// calls give.
fn assert_lines(rt: &impl Abort, alloc: Global, table: &str) -> Result<(), Fail> {
    for line in table.trim().lines() {
        let (plan, row) = line.split_once(' ').expect(rt, "a plan");
        let (words, answer) = row.split_once('@').expect(rt, "a marked line");
        let (fail, fuse) = plan.split_once(';').expect(rt, "a fuse");
        let mut disk = MemDisk::new(alloc, numbers(alloc, fail)?, fuse.parse::<u64>().ok());
        let mut out = Vec::new(alloc);
        for (k, part) in words.split('/').enumerate() {
            if k % 2 == 0 {
                calls(rt, alloc, &mut disk, part, &mut out)?;
            } else {
                disk.stop(choice(rt, part))?;
            }
        }
        assert_eq!(rt; out.as_slice(), answer.as_bytes(), "at {line}");
        assert_eq!(rt; disk.starved(), 0);
    }
    Ok(())
}

#[test]
fn a_disk_in_memory_keeps_files(rt: HostRuntime) -> Result<(), Fail> {
    let table = r#"
; r l@|0|
; w0:abcdef r w1:XY r w5:123456 r l@abcdef|aXYdef|aXYde123456|11|
; w0:abcdef c3 r w3:z r l c0 r@abc|abcz|4||
; w0:abc r2 r3 r9@c|||
; w0:abcdef c2 w1:YZ r s r@aYZ|aYZ|
"#;
    assert_lines(&rt, rt.alloc(), table)
}

#[test]
fn stops_leave_what_is_chosen(rt: HostRuntime) -> Result<(), Fail> {
    let table = r#"
; w0:abc/written/r@abc|
; w0:abc/old/r@|
; w0:abc/fill#/r@###|
; w0:abc/short/r@|
; w0:abcdef s w2:XY/written/r@abXYef|
; w0:abcdef s w2:XY/old/r@abcdef|
; w0:abcdef s w2:XY/fill#/r@ab##ef|
; w0:abcdef s w2:XY/short/r@abXYef|
; w0:abc s w3:de/written/r@abcde|
; w0:abc s w3:de/old/r@abc|
; w0:abc s w3:de/fill#/r@abc##|
; w0:abc s w3:de/short/r@abc|
; w0:abcdef s c2/written/r@ab|
; w0:abcdef s c2/old/r@abcdef|
; w0:abcdef s c2/fill#/r@ab####|
; w0:abcdef s c2/short/r@ab|
; w0:abcdef s c2 w2:Z/written/r@abZ|
; w0:abcdef s c2 w2:Z/old/r@abcdef|
; w0:abcdef s c2 w2:Z/fill#/r@ab####|
; w0:abcdef s c2 w2:Z/short/r@ab|
; w0:abcdef s c2 s w2:Z/fill#/r@ab#|
; w0:abc/old/w0:xy s/old/r@xy|
; w0:abcdef s w2:XY/fill#//fill+/r@ab##ef|
"#;
    assert_lines(&rt, rt.alloc(), table)
}

// A write and a cut are two calls, since they ask for the length.
#[test]
fn calls_fail_as_planned(rt: HostRuntime) -> Result<(), Fail> {
    let table = r#"
0; w0:abc r@!|
0; l l@!0|
1; w0:abc r l@!|0|
1; w0:abc/written/r@!|
1; w0:abc/old/r@!|
1; w0:abc/fill#/r@!###|
1; w0:abc/short/r@!|
2; w0:abc r r@!abc|
2; w0:abc s r/old/r@!abc||
4; w0:abcd s c2 r/fill#/r@!abcd|ab##|
4; w0:abcd s c2 r/short/r@!abcd|ab|
1,4; w0:ab w0:ab s w2:c r@!!abc|
;0 r s l@!!!
;1 w0:abc r l@!!!
;3 w0:abcd c2 r@!!
;2 w0:abc r w0:x s l c0/old/r@!!!!!|
"#;
    assert_lines(&rt, rt.alloc(), table)
}

#[test]
fn a_folder_keeps_files(rt: HostRuntime) -> Result<(), Fail> {
    let words = "c0 r l w0:abcdef s r w2:XY r c3 r l w3:zz s r r2 r9";
    let mut here = FolderDisk::new(&rt, String::from_str(rt.alloc(), ".")?);
    let mut out = Vec::new(rt.alloc());
    calls(&rt, rt.alloc(), &mut here, words, &mut out)?;
    let answer = "|0|abcdef|abXYef|abX|3|abXzz|Xzz||";
    assert_eq!(rt; out.as_slice(), answer.as_bytes());
    // the folder isn't there
    let mut nowhere = FolderDisk::new(&rt, String::from_str(rt.alloc(), "nowhere")?);
    let mut out = Vec::new(rt.alloc());
    calls(&rt, rt.alloc(), &mut nowhere, "r l w0:abc s r", &mut out)?;
    assert_eq!(rt; out.as_slice(), b"|0|!|".as_slice());
    Ok(())
}
