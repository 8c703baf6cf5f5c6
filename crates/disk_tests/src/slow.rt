//! A simple reader of images and logs. It keeps no value.
//!
//! An answer is what is left behind a field. An error is how much is left from the first field on that isn't right or isn't whole.

/// A number of so many bytes, within bounds.
fn number(rest: &[u8], width: usize, least: u64, most: u64) -> Result<(u64, &[u8]), usize> {
    let Some((field, behind)) = rest.split_at_checked(width) else {
        return Err(rest.len());
    };
    let mut value = 0u64;
    for byte in field.iter().rev() {
        value = value.wrapping_mul(256).wrapping_add(u64::from(*byte));
    }
    if value < least || most < value {
        return Err(rest.len());
    }
    Ok((value, behind))
}

/// An item from `-half` up to `half - 1`.
fn item(rest: &[u8], half: u64) -> Result<&[u8], usize> {
    let (word, behind) = number(rest, 8, 0, u64::MAX)?;
    if word.wrapping_add(half) / 2 < half {
        Ok(behind)
    } else {
        Err(rest.len())
    }
}

/// The items of a message, behind a signature of 0 or 4 words, whose third is how many they are.
fn items(mut rest: &[u8], signature: u64, count: u64, half: u64) -> Result<&[u8], usize> {
    let behind = count.saturating_sub(signature);
    for k in 0..count {
        if signature <= k {
            rest = item(rest, half)?;
        } else if k == 2 {
            rest = number(rest, 8, behind, behind)?.1;
        } else {
            rest = number(rest, 8, 0, u64::MAX)?.1;
        }
    }
    Ok(rest)
}

/// A source and a message.
fn arrival(rest: &[u8]) -> Result<&[u8], usize> {
    let (_, rest) = number(rest, 2, 0, 65535)?;
    let (context, rest) = number(rest, 1, 0, 1)?;
    let (kind, rest) = number(rest, 1, 0, 2)?;
    let (_, rest) = number(rest, 8, 0, 9223372036854775807)?;
    let signature = if context == 0 { 0 } else { 4 };
    let (count, rest) = number(rest, 4, signature, 4096 + signature)?;
    let half = match kind {
        0 => 128,
        1 => 2147483648,
        _ => 9223372036854775808,
    };
    items(rest, signature, count, half)
}

/// A count, and objects with a serial, a place and cells.
fn objects(rest: &[u8]) -> Result<&[u8], usize> {
    let (count, mut rest) = number(rest, 4, 0, u64::MAX)?;
    for _ in 0..count {
        rest = number(rest, 8, 0, u64::MAX)?.1;
        rest = number(rest, 4, 0, u64::MAX)?.1;
        rest = numbers(rest, 2, 8)?;
    }
    Ok(rest)
}

/// A count, and for each so many fields of a width, without bounds.
fn numbers(rest: &[u8], each: u64, width: usize) -> Result<&[u8], usize> {
    let (count, mut rest) = number(rest, 4, 0, u64::MAX)?;
    for _ in 0..count.saturating_mul(each) {
        rest = number(rest, width, 0, u64::MAX)?.1;
    }
    Ok(rest)
}

/// Magic and format, ranks, rank and line, of which the first and the last are told.
fn head(bytes: &[u8], magic: u64) -> Result<(u64, u64, &[u8]), usize> {
    let (_, rest) = number(bytes, 4, magic, magic)?;
    let (_, rest) = number(rest, 2, 1, 1)?;
    let (ranks, rest) = number(rest, 2, 0, 65535)?;
    let (_, rest) = number(rest, 2, 0, 65535)?;
    let (line, rest) = number(rest, 2, 0, 65535)?;
    Ok((ranks, line, rest))
}

/// The mailbox of an image, and the early counts of so many ranks.
fn arrivals(rest: &[u8], ranks: u64) -> Result<&[u8], usize> {
    let (count, mut rest) = number(rest, 4, 0, u64::MAX)?;
    for _ in 0..count {
        rest = arrival(rest)?;
    }
    for _ in 0..ranks {
        rest = number(rest, 4, 0, 200000)?.1;
    }
    Ok(rest)
}

fn image(bytes: &[u8]) -> Result<&[u8], usize> {
    let (ranks, line, rest) = head(bytes, 1296642883)?;
    let (_, rest) = number(rest, 8, 0, line.saturating_mul(200000))?;
    let (_, rest) = number(rest, 4, 0, 1048576)?;
    let (_, rest) = number(rest, 8, 1, line.saturating_mul(8796093022208))?;
    let (_, rest) = number(rest, 1, 0, 2)?;
    let (_, rest) = number(rest, 8, 0, line.saturating_mul(2147483648))?;
    let rest = numbers(rest, 1, 4)?;
    let rest = objects(rest)?;
    let rest = objects(rest)?;
    arrivals(rest, ranks)
}

fn log(bytes: &[u8]) -> Result<&[u8], usize> {
    let (_, line, rest) = head(bytes, 1196176195)?;
    let (_, rest) = number(rest, 8, 0, line.saturating_add(1).saturating_mul(200000))?;
    let (count, mut rest) = number(rest, 4, 0, u64::MAX)?;
    for _ in 0..count {
        let (kind, behind) = number(rest, 1, 0, 1)?;
        rest = if kind == 0 {
            number(behind, 2, 0, 65535)?.1
        } else {
            arrival(behind)?
        };
    }
    Ok(rest)
}

/// The place of the fault in a text, if there is one.
pub fn fault_of(is_image: bool, bytes: &[u8]) -> Option<usize> {
    let read = if is_image { image(bytes) } else { log(bytes) };
    let left = match read {
        Ok([]) => return None,
        Ok(rest) => rest.len(),
        Err(left) => left,
    };
    Some(bytes.len().saturating_sub(left))
}
