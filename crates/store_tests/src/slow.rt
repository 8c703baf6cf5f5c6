//! A simple reader of the files of jobs and of ends. It keeps no value.

/// The number of so many bytes at a place.
fn number(bytes: &[u8], at: usize, width: usize) -> Option<u64> {
    let (_, rest) = bytes.split_at_checked(at)?;
    let (field, _) = rest.split_at_checked(width)?;
    let mut value = 0u64;
    for byte in field.iter().rev() {
        value = value.wrapping_mul(256).wrapping_add(u64::from(*byte));
    }
    Some(value)
}

fn is_within(bytes: &[u8], at: usize, width: usize, least: u64, most: u64) -> bool {
    match number(bytes, at, width) {
        Some(value) => least <= value && value <= most,
        None => false,
    }
}

/// The place of the fault in a job's text, if there is one.
fn job_fault(bytes: &[u8]) -> Option<usize> {
    let fields = [
        (0usize, 4usize, 0x424A_3343u64, 0x424A_3343u64),
        (4, 2, 1, 1),
        (6, 2, 1, 16),
        (8, 4, 0, 65536),
    ];
    for (at, width, least, most) in fields {
        if !is_within(bytes, at, width, least, most) {
            return Some(at);
        }
    }
    let end = number(bytes, 8, 4).unwrap_or(0).saturating_add(12);
    let length = bytes.len() as u64;
    if length < end {
        return Some(12);
    }
    if end < length {
        return Some(end as usize);
    }
    None
}

/// The place of the fault in the text of the ends of so many ranks, if there is one.
fn ends_fault(bytes: &[u8], ranks: u64) -> Option<usize> {
    if !is_within(bytes, 0, 4, 0x4E45_3343, 0x4E45_3343) {
        return Some(0);
    }
    if !is_within(bytes, 4, 2, ranks, ranks) {
        return Some(4);
    }
    let mut at = 6usize;
    for _ in 0..ranks {
        if !is_within(bytes, at, 1, 0, 1) {
            return Some(at);
        }
        let (least, most) = match number(bytes, at, 1) {
            Some(0) => (0, 4294967295),
            _ => (101, 118),
        };
        let value = at.saturating_add(1);
        if !is_within(bytes, value, 4, least, most) {
            return Some(value);
        }
        at = at.saturating_add(5);
    }
    if at < bytes.len() {
        return Some(at);
    }
    None
}

/// The place of the fault in file 0, or in file 3 of two ranks, if there is one.
pub fn fault_of(file: u32, bytes: &[u8]) -> Option<usize> {
    if file == 0 {
        job_fault(bytes)
    } else {
        ends_fault(bytes, 2)
    }
}
