ghost use Rattle.std.specs.Prelude.{◌≡◌, [], ◌∷◌, ◌++◌, ◌≤◌, length, IfOk, IfSome, OnOk, if◌then◌else◌};
ghost use Rattle.c_tree.specs.Scan as scan;
ghost use Rattle.c_parse.specs.Lexer.{maybe_shown, reach, shown};

use crate::lexer::byte::is_blank;
use crate::lexer::piece::Piece;
use crate::lexer::{front, table};
use c_tree::Value;
use c3_base::NoMemory;
use std::alloc::Global;

fn without_return(line: &[u8]) -> &[u8]
    ensures { result.now ≡ scan.no_return line.now }
{
    match line {
        [front @ .., b'\r'] => front,
        _ => line,
    }
}

/// Puts a byte that is no blank behind the bytes, and one blank for all before it.
fn push_byte(bytes: &mut Vec<u8>, is_after_blank: bool, byte: u8) -> Result<(), NoMemory>
    ensures { OnOk result (bytes.new.items ≡ bytes.old.items ++ (if is_after_blank then 32 ∷ byte ∷ [] else byte ∷ [])) }
{
    if is_after_blank {
        bytes.push(b' ')?;
    }
    bytes.push(byte)?;
    Ok(())
}

/// The line with each run of blanks made one, without its last blanks.
fn squeezed(alloc: Global, line: &[u8]) -> Result<Vec<u8>, NoMemory>
    ensures { IfOk result (λ bytes. bytes.items ≡ scan.squeezed line.now) }
{
    let mut bytes = Vec::new(alloc);
    let mut is_after_blank = false;
    for byte in line {
        if !is_blank(*byte) {
            push_byte(&mut bytes, is_after_blank, *byte)?;
        }
        is_after_blank = is_blank(*byte);
    }
    Ok(bytes)
}

/// A line that begins with `#`.
fn whole_line(alloc: Global, line: &[u8]) -> Result<Piece, NoMemory>
    ensures found { IfOk result (λ piece. shown piece ≡ scan.line_class (scan.look scan.lines (scan.squeezed (scan.no_return line.now))) (length line.now)) }
    ensures within { IfOk result (λ piece. reach piece ≤ length line.now) }
{
    let bytes = squeezed(alloc, without_return(line))?;
    match table::line_class(bytes.as_slice()) {
        Some(class) => Ok(Piece::One {
            class,
            value: Value::Nothing,
            len: line.len(),
        }),
        None => Ok(Piece::Wrong(0)),
    }
}

/// A line whose first byte but blanks is `#`.
pub fn directive(alloc: Global, text: &[u8], is_fresh: bool) -> Result<Option<Piece>, NoMemory>
    ensures found { IfOk result (λ found. maybe_shown found ≡ scan.line is_fresh text.now) }
    ensures within { IfOk result (λ found. IfSome found (λ piece. reach piece ≤ length text.now)) }
{
    match text {
        [b'#', ..] if is_fresh => Ok(Some(whole_line(alloc, front::line(text))?)),
        _ => Ok(None),
    }
}
