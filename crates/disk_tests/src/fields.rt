//! Texts by their fields.

use std::alloc::Global;
use std::process::Abort;
use std::test::Fail;

/// Adds letters as they stand, and `V/W` as the number V in W bytes.
fn push_field(rt: &impl Abort, text: &mut Vec<u8>, word: &str) -> Result<(), Fail> {
    let Some((value, width)) = word.split_once('/') else {
        text.extend_from_slice(word.as_bytes())?;
        return Ok(());
    };
    let value = value.parse::<i64>().expect(rt, "a number").to_le_bytes();
    let width = width.parse::<usize>().expect(rt, "a width");
    text.extend_from_slice(value.get(..width).expect(rt, "at most 8 bytes"))?;
    Ok(())
}

/// The text of fields with spaces between them.
pub fn text_of(rt: &impl Abort, alloc: Global, fields: &str) -> Result<Vec<u8>, Fail> {
    let mut text = Vec::new(alloc);
    for word in fields.split_whitespace() {
        push_field(rt, &mut text, word)?;
    }
    Ok(text)
}
