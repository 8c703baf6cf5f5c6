//! What printf prints.

ghost use Rattle.std.specs.Prelude.{◌≡◌, ◌++◌, ◌∷◌, IfOk, List, drop};
ghost use Rattle.c_kernel.specs.declared.program.Piece as pieces;
ghost use Rattle.c_kernel.specs.declared.program.Piece.TheVariants.{Decimal};
ghost use Rattle.c_values.specs.Text.{printed};

use c_kernel::program::Piece;
use c3_base::{Cell, NoMemory};
use mpi_words::List;
use std::alloc::Global;

/// The format with an argument for each conversion.
pub fn text(alloc: Global, format: &[Piece], values: &[Cell]) -> Result<List<u8>, NoMemory>
    ensures { IfOk result (λ text. text ≡ printed format.now values.now) }
{
    let mut text = List::new(alloc);
    let mut at = 0;
    for piece in format {
        at = push_piece(alloc, &mut text, *piece, values, at)?;
    }
    Ok(text)
}

// One piece. The result is how many arguments were printed.
fn push_piece(
    alloc: Global,
    text: &mut List<u8>,
    piece: Piece,
    values: &[Cell],
    at: usize,
) -> Result<usize, NoMemory>
    ensures { IfOk result (λ next. (more : List pieces.Piece) → text.new ++ printed more (drop next values.now) ≡ text.old ++ printed (piece ∷ more) (drop at values.now)) }
{
    match piece {
        Piece::Byte(byte) => {
            text.push(byte)?;
            Ok(at)
        }
        Piece::Decimal => push_number(alloc, text, values, at),
        Piece::LongDecimal => push_number(alloc, text, values, at),
        Piece::Character => match values.get(at) {
            None => Ok(at),
            Some(value) => {
                text.push(value.word.rem_euclid(256) as u8)?;
                Ok(at + 1)
            }
        },
    }
}

// An argument in decimal.
fn push_number(
    alloc: Global,
    text: &mut List<u8>,
    values: &[Cell],
    at: usize,
) -> Result<usize, NoMemory>
    ensures { IfOk result (λ next. (more : List pieces.Piece) → text.new ++ printed more (drop next values.now) ≡ text.old ++ printed (Decimal ∷ more) (drop at values.now)) }
{
    match values.get(at) {
        None => Ok(at),
        Some(value) => {
            let digits = value.word.to_string(alloc)?;
            push_all(text, digits.as_bytes())?;
            Ok(at + 1)
        }
    }
}

fn push_all(text: &mut List<u8>, bytes: &[u8]) -> Result<(), NoMemory>
    ensures { IfOk result (λ done. text.new ≡ text.old ++ bytes.now) }
{
    for byte in bytes {
        text.push(*byte)?;
    }
    Ok(())
}
