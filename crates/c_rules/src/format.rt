//! The format of a `printf`.

ghost use Rattle.std.specs.Prelude.{◌≡◌, IfOk};
ghost use Rattle.c_rules.specs.Format as formats;

use crate::found::Found;
use crate::rules::c_type_of;
use crate::types::{integer_of, is_integer, promoted, same_integer};
use c_kernel::program::Piece;
use c_kernel::{CType, IntegerType};
use sqlite_items::{Boxed, Items};
use std::alloc::{AllocError, Global};

/// Where a byte of a format stands: outside a conversion, behind `%` or behind `%l`.
#[derive(Clone, Copy)]
pub enum Spot {
    Outside,
    Percent,
    PercentL,
}

/// What a byte of a format does.
#[derive(Clone, Copy)]
pub enum Reading {
    Gives(Piece),
    Moves(Spot),
    Wrong,
}

// Behind `%`.
fn read_behind(byte: u8) -> Reading
    ensures { result ≡ formats.read_behind byte }
{
    if byte == b'd' {
        Reading::Gives(Piece::Decimal)
    } else if byte == b'c' {
        Reading::Gives(Piece::Character)
    } else if byte == b'%' {
        Reading::Gives(Piece::Byte(b'%'))
    } else if byte == b'l' {
        Reading::Moves(Spot::PercentL)
    } else {
        Reading::Wrong
    }
}

fn read(spot: Spot, byte: u8) -> Reading
    ensures { result ≡ formats.read spot byte }
{
    match spot {
        Spot::Outside => {
            if byte == b'%' {
                Reading::Moves(Spot::Percent)
            } else {
                Reading::Gives(Piece::Byte(byte))
            }
        }
        Spot::Percent => read_behind(byte),
        Spot::PercentL => {
            if byte == b'd' {
                Reading::Gives(Piece::LongDecimal)
            } else {
                Reading::Wrong
            }
        }
    }
}

/// The pieces of a format, or nothing where a `%` isn't followed by `d`, `ld`, `c` or `%`.
pub fn pieces(alloc: Global, bytes: &[u8]) -> Result<Option<Items<Piece>>, AllocError>
    ensures { IfOk result (λ found. found ≡ formats.pieces bytes.now) }
{
    let mut pieces = Items::new(alloc);
    let mut spot = Spot::Outside;
    for byte in bytes {
        match read(spot, *byte) {
            Reading::Gives(piece) => {
                pieces.push(piece)?;
                spot = Spot::Outside;
            }
            Reading::Moves(next) => spot = next,
            Reading::Wrong => return Ok(None),
        }
    }
    match spot {
        Spot::Outside => Ok(Some(pieces)),
        Spot::Percent | Spot::PercentL => Ok(None),
    }
}

// The type at which a piece's argument computes.
fn wanted(piece: Piece) -> Option<IntegerType>
    ensures { result ≡ formats.wanted piece }
{
    match piece {
        Piece::Byte(_) => None,
        Piece::Decimal | Piece::Character => Some(IntegerType::Int),
        Piece::LongDecimal => Some(IntegerType::Long),
    }
}

fn computes_as(kind: IntegerType, t: CType) -> bool
    ensures { result ≡ formats.computes_as kind t }
{
    is_integer(t) && same_integer(kind, promoted(integer_of(t)))
}

/// Whether there is one argument for each conversion, of its type.
pub fn fit(pieces: &[Piece], values: &[Boxed<Found>]) -> bool
    ensures { result ≡ formats.fit pieces.now values.now }
{
    let mut rest = values;
    for piece in pieces {
        match wanted(*piece) {
            None => {}
            Some(kind) => match rest {
                [] => return false,
                [value, more @ ..] => {
                    if !computes_as(kind, c_type_of(value.get())) {
                        return false;
                    }
                    rest = more;
                }
            },
        }
    }
    rest.is_empty()
}
