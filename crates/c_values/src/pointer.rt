//! Operators on pointers.

ghost use Rattle.std.specs.Prelude.{◌≡◌, ◌*ℤ◌, ◌-ℤ◌, pos, int_div};
ghost use Rattle.c_kernel.specs.declared.types.IntegerType.TheVariants.{Long};
ghost use Rattle.c_values.specs.Value.{divided, order_of};
ghost use Rattle.c_values.specs.Value as spec;

use crate::number::{checked, holds, truth};
use c_kernel::IntegerType;
use c_kernel::program::{Comparison, Way};
use c_memory::{Objects, Spot};
use c3_base::Cell;

/// What `+` and `-` of a pointer and a number give, in elements of so many cells (C99 6.5.6).
pub fn advanced<M: Objects>(memory: &M, way: Way, cells: u32, p: Cell, n: Cell) -> Result<Cell, u16>
    ensures { result ≡ spec.advanced (M.memory memory.now) way cells p n }
{
    memory.pointing(Spot {
        serial: p.serial,
        place: stepped(way, p.word, n.word, cells),
    })
}

fn stepped(way: Way, place: i64, n: i64, cells: u32) -> i128
    ensures { result ≡ spec.stepped way place (n *ℤ pos cells) }
{
    let n = i128::from(n) * i128::from(cells);
    match way {
        Way::Forward => i128::from(place) + n,
        Way::Back => i128::from(place) - n,
    }
}

/// What `-` of two pointers gives, in elements of so many cells (C99 6.5.6).
pub fn distance(cells: u32, a: Cell, b: Cell) -> Result<Cell, u16>
    ensures { result ≡ spec.distance cells a b }
{
    if share_object(a, b) {
        elements(a.word, b.word, cells)
    } else {
        Err(110)
    }
}

fn elements(a: i64, b: i64, cells: u32) -> Result<Cell, u16>
    ensures { result ≡ divided Long int_div (a -ℤ b) (pos cells) }
{
    if cells == 0 {
        return Err(106);
    }
    let n = i128::from(a) - i128::from(b);
    checked(IntegerType::Long, n / i128::from(cells))
}

/// What a comparison of two pointers gives (C99 6.5.8, 6.5.9).
pub fn compare_pointers(comparison: Comparison, a: Cell, b: Cell) -> Result<Cell, u16>
    ensures { result ≡ spec.compare_pointers comparison a b }
{
    match comparison {
        Comparison::Equal => Ok(truth(is_same(a, b))),
        Comparison::NotEqual => Ok(truth(!is_same(a, b))),
        _ => order(comparison, a, b),
    }
}

fn order(comparison: Comparison, a: Cell, b: Cell) -> Result<Cell, u16>
    ensures { result ≡ order_of comparison a b }
{
    if share_object(a, b) {
        Ok(truth(holds(comparison, a.word, b.word)))
    } else {
        Err(110)
    }
}

// Whether neither is NULL, and both point into one object.
fn share_object(a: Cell, b: Cell) -> bool
    ensures { result ≡ spec.share_object a b }
{
    a.serial > 0 && a.serial == b.serial
}

fn is_same(a: Cell, b: Cell) -> bool
    ensures { result ≡ spec.is_same a b }
{
    a.serial == b.serial && a.word == b.word
}
