//! Numbers of the integer types.

ghost use Rattle.std.specs.Prelude.{◌≡◌, ◌<◌, Ok, int_div, int_rem};
ghost use Rattle.c_kernel.specs.declared.types.IntegerType.TheVariants.{Int};
ghost use Rattle.c_values.specs.Value.{unary_of, arithmetic_of, divided, shifted, shift_of, size_in_bits};
ghost use Rattle.c_values.specs.Value as spec;

use c_kernel::IntegerType;
use c_kernel::program::{Arithmetic, Comparison, Direction, UnaryOperator};
use c_memory::number;
use c3_base::Cell;

/// 1 or 0.
pub fn truth(b: bool) -> Cell
    ensures { result ≡ spec.truth b }
{
    if b { number(1) } else { number(0) }
}

/// A number that is narrowed to a type wraps (C99 6.3.1.3).
pub fn narrowed(kind: IntegerType, n: i64) -> i64
    ensures { result ≡ spec.narrowed kind n }
{
    match kind {
        IntegerType::Char => (n.rem_euclid(256) as u8).cast_signed() as i64,
        IntegerType::Int => (n.rem_euclid(4_294_967_296) as u32).cast_signed() as i64,
        IntegerType::Long => n,
    }
}

// Whether a number is one of the type's.
fn fits(kind: IntegerType, n: i128) -> bool
    ensures { result ≡ spec.fits kind n }
{
    match kind {
        IntegerType::Char => i8::try_from(n).is_ok(),
        IntegerType::Int => i32::try_from(n).is_ok(),
        IntegerType::Long => i64::try_from(n).is_ok(),
    }
}

/// A result outside its type is a fault.
pub fn checked(kind: IntegerType, n: i128) -> Result<Cell, u16>
    ensures { result ≡ spec.checked kind n }
{
    if fits(kind, n) {
        Ok(number(n as i64))
    } else {
        Err(105)
    }
}

/// What an operator of one operand gives (C99 6.5.3.3).
pub fn unary(operator: UnaryOperator, kind: IntegerType, a: Cell) -> Result<Cell, u16>
    ensures { result ≡ unary_of operator kind a }
{
    match operator {
        UnaryOperator::Plus => Ok(a),
        UnaryOperator::Minus => checked(kind, -(a.word as i128)),
        UnaryOperator::Complement => checked(kind, -(a.word as i128) - 1),
    }
}

/// What an operator of two numbers of a type gives (C99 6.5.5, 6.5.6, 6.5.10 to 6.5.12).
pub fn arithmetic(operator: Arithmetic, kind: IntegerType, a: i64, b: i64) -> Result<Cell, u16>
    ensures { result ≡ arithmetic_of operator kind a b }
{
    match operator {
        Arithmetic::Multiply => checked(kind, a as i128 * b as i128),
        Arithmetic::Divide => quotient(kind, a, b),
        Arithmetic::Remainder => remainder(kind, a, b),
        Arithmetic::Add => checked(kind, a as i128 + b as i128),
        Arithmetic::Subtract => checked(kind, a as i128 - b as i128),
        Arithmetic::And => Ok(number(a & b)),
        Arithmetic::ExclusiveOr => Ok(number(a ^ b)),
        Arithmetic::InclusiveOr => Ok(number(a | b)),
    }
}

fn quotient(kind: IntegerType, a: i64, b: i64) -> Result<Cell, u16>
    ensures { result ≡ divided kind int_div a b }
{
    if b == 0 {
        return Err(106);
    }
    checked(kind, a as i128 / b as i128)
}

fn remainder(kind: IntegerType, a: i64, b: i64) -> Result<Cell, u16>
    ensures { result ≡ divided kind int_rem a b }
{
    if b == 0 {
        return Err(106);
    }
    if fits(kind, a as i128 / b as i128) {
        Ok(number(a % b))
    } else {
        Err(105)
    }
}

/// What a shift gives (C99 6.5.7).
pub fn shift(direction: Direction, kind: IntegerType, a: i64, count: i64) -> Result<Cell, u16>
    ensures { result ≡ shift_of direction kind a count }
{
    if count < 0 {
        return Err(107);
    }
    if count >= width(kind) as i64 {
        return Err(107);
    }
    shifted_by(direction, kind, a, count as u32)
}

// How many bits a type has.
fn width(kind: IntegerType) -> u32
    ensures value { result ≡ size_in_bits kind }
{
    match kind {
        IntegerType::Char => 8,
        IntegerType::Int => 32,
        IntegerType::Long => 64,
    }
}

fn shifted_by(direction: Direction, kind: IntegerType, a: i64, n: u32) -> Result<Cell, u16>
    requires { n < 64 }
    ensures { result ≡ shifted direction kind a n }
{
    match direction {
        Direction::Left => checked(kind, a as i128 * (1u64 << n) as i128),
        Direction::Right => Ok(number(a >> n)),
    }
}

/// Whether a comparison holds (C99 6.5.8, 6.5.9).
pub fn holds(comparison: Comparison, a: i64, b: i64) -> bool
    ensures { result ≡ spec.holds comparison a b }
{
    match comparison {
        Comparison::Less => a < b,
        Comparison::Greater => a > b,
        Comparison::LessEqual => a <= b,
        Comparison::GreaterEqual => a >= b,
        Comparison::Equal => a == b,
        Comparison::NotEqual => a != b,
    }
}

/// The exit code of a value of `main`.
pub fn exit_code(v: Cell) -> i32
    ensures { result ≡ spec.narrowed Int v.word }
{
    (v.word.rem_euclid(4_294_967_296) as u32).cast_signed()
}
