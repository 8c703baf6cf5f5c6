//! Operators of two operands, grouped from the left (C99 6.5.5 to 6.5.14).

ghost use Rattle.std.specs.Prelude.{◌≡◌, ◌++◌, None, IfOk, OnOk, if◌then◌else◌};
ghost use Rattle.c_kernel.specs.declared.types.IntegerType.TheVariants.{Int};
ghost use Rattle.c_rules.specs.Judged.{Notes};
ghost use Rattle.c_rules.specs.Rules as rules;
ghost use Rattle.c_rules.specs.Types as types;

use crate::breach::{Breach, rule};
use crate::found::{Found, Run};
use crate::rules::values::{
    c_type_of, clash, is_zero, number, plain, pointer, scalar, value, value_in,
};
use crate::rules::{has_pointer, met};
use crate::types::{
    change, common, element_cells, integer, integer_of, is_pointer, is_target, promoted, target,
};
use c_kernel::program::{Arithmetic, BinaryOperator, Comparison, Direction, Expr, Link, Way};
use c_kernel::{CType, IntegerType, Struct};
use c_tree::Kind;
use sqlite_items::{Boxed, Items};
use std::alloc::{AllocError, Global};

/// A chain that begins with a value.
pub fn begin(alloc: Global, a: Boxed<Found>) -> Result<Boxed<Run>, AllocError>
    ensures { IfOk result (λ run. run ≡ rules.begin a) }
{
    let at = a.get().at;
    let c_type = c_type_of(a.get());
    let zero = is_zero(a.get());
    let first = value(alloc, a)?;
    let run = Run {
        at,
        c_type,
        zero,
        first,
        rest: Items::new(alloc),
    };
    Boxed::new(alloc, run)
}

/// A chain as an expression.
pub fn closed(alloc: Global, a: Boxed<Run>) -> Result<Boxed<Found>, AllocError>
    ensures { IfOk result (λ found. found ≡ rules.plain a.at a.c_type (rules.closed a)) }
{
    let Run {
        at,
        c_type,
        first,
        rest,
        ..
    } = a.into_inner();
    let term = Boxed::new(alloc, Expr::Chain { first, rest })?;
    plain(alloc, at, c_type, term)
}

// With one operator more.
fn extended(
    alloc: Global,
    a: Boxed<Run>,
    c_type: CType,
    link: Link<Expr>,
) -> Result<Boxed<Run>, AllocError>
    ensures { IfOk result (λ run. run ≡ rules.extended a c_type link) }
{
    let mut run = a.into_inner();
    run.c_type = c_type;
    run.zero = false;
    run.rest.push(link)?;
    Boxed::new(alloc, run)
}

// The literal 0 as a pointer.
fn as_pointer(alloc: Global, a: Boxed<Run>) -> Result<Boxed<Run>, AllocError>
    ensures { IfOk result (λ run. run ≡ rules.as_pointer a) }
{
    if !a.get().zero {
        return Ok(a);
    }
    let first = Boxed::new(alloc, Expr::Null)?;
    let run = Run {
        first,
        ..a.into_inner()
    };
    Boxed::new(alloc, run)
}

// ---- rules of two operands

#[tactic(auto, using(std::proofs::Common::append_assoc))]
fn numbers(breaches: &mut Vec<Breach>, a: &Run, b: &Found) -> Result<(), AllocError>
    ensures { OnOk result (Notes breaches.old breaches.new (rules.numbers_rules a.now b.now)) }
{
    number(breaches, a.at, a.c_type)?;
    number(breaches, b.at, c_type_of(b))
}

#[tactic(auto, using(std::proofs::Common::append_assoc))]
fn scalars(breaches: &mut Vec<Breach>, a: &Run, b: &Found) -> Result<(), AllocError>
    ensures { OnOk result (Notes breaches.old breaches.new (rules.scalars_rules a.now b.now)) }
{
    scalar(breaches, a.at, a.c_type)?;
    scalar(breaches, b.at, c_type_of(b))
}

/// Whether two operands, of which one is a pointer and either may be the literal 0, don't go together.
pub fn operands_clash(zero: bool, t: CType, other: bool, u: CType) -> bool
    ensures { result ≡ rules.operands_clash zero t other u }
{
    if is_pointer(t) {
        clash(t, other, u)
    } else {
        clash(u, zero, t)
    }
}

fn mismatch(breaches: &mut Vec<Breach>, a: &Run, b: &Found) -> Result<(), AllocError>
    ensures { OnOk result (Notes breaches.old breaches.new (rules.mismatch a.now b.now)) }
{
    let c_type = c_type_of(b);
    let clash = has_pointer(a.c_type, c_type)
        && operands_clash(a.zero, a.c_type, is_zero(b), c_type);
    rule(breaches, clash, Kind::TypeMismatch, a.at)
}

fn note_sum(breaches: &mut Vec<Breach>, a: &Run, b: &Found) -> Result<(), AllocError>
    ensures { OnOk result (Notes breaches.old breaches.new (rules.sum_rules a.now b.now)) }
{
    if !is_target(a.c_type) {
        return numbers(breaches, a, b);
    }
    number(breaches, b.at, c_type_of(b))
}

#[tactic(auto, using(std::proofs::Common::append_assoc))]
fn note_minus(breaches: &mut Vec<Breach>, a: &Run, b: &Found) -> Result<(), AllocError>
    ensures { OnOk result (Notes breaches.old breaches.new (rules.minus_rules a.now b.now)) }
{
    if !is_pointer(c_type_of(b)) {
        return note_sum(breaches, a, b);
    }
    scalar(breaches, a.at, a.c_type)?;
    mismatch(breaches, a, b)
}

// ---- arithmetic

fn computed(
    alloc: Global,
    operator: Arithmetic,
    a: Boxed<Run>,
    b: Boxed<Found>,
) -> Result<Boxed<Run>, AllocError>
    ensures { IfOk result (λ run. run ≡ rules.computed operator a b) }
{
    let left = integer_of(a.get().c_type);
    let kind = common(left, integer_of(c_type_of(b.get())));
    let link = Link {
        conversion: change(kind, left),
        operator: BinaryOperator::Arithmetic { operator, kind },
        operand: value_in(alloc, kind, b)?.into_inner(),
    };
    extended(alloc, a, integer(kind), link)
}

/// `*`, `/`, `%`, `&`, `^` or `|`.
#[tactic(auto, unfolding(crate::specs::Rules::arithmetic))]
pub fn arithmetic(
    alloc: Global,
    breaches: &mut Vec<Breach>,
    operator: Arithmetic,
    a: Boxed<Run>,
    b: Boxed<Found>,
) -> Result<Option<Boxed<Run>>, AllocError>
    ensures found { IfOk result (λ found. found ≡ (rules.arithmetic operator a b).found) }
    ensures breaches { OnOk result (Notes breaches.old breaches.new (rules.arithmetic operator a b).breaches) }
{
    let before = breaches.len();
    numbers(breaches, a.get(), b.get())?;
    if breaches.len() > before {
        return Ok(None);
    }
    computed(alloc, operator, a, b).map(Some)
}

// A pointer and a number of elements.
fn advanced(
    alloc: Global,
    structs: &[Struct],
    way: Way,
    a: Boxed<Run>,
    b: Boxed<Found>,
) -> Result<Boxed<Run>, AllocError>
    ensures { IfOk result (λ run. run ≡ rules.advanced structs.now way a b) }
{
    let c_type = a.get().c_type;
    let cells = element_cells(structs, target(c_type));
    let link = Link {
        conversion: None,
        operator: BinaryOperator::Advance { way, cells },
        operand: value(alloc, b)?.into_inner(),
    };
    extended(alloc, a, c_type, link)
}

// From one pointer to another.
fn between(
    alloc: Global,
    structs: &[Struct],
    a: Boxed<Run>,
    b: Boxed<Found>,
) -> Result<Boxed<Run>, AllocError>
    ensures { IfOk result (λ run. run ≡ rules.between structs.now a b) }
{
    let cells = element_cells(structs, target(met(a.get().c_type, c_type_of(b.get()))));
    let first = as_pointer(alloc, a)?;
    let link = Link {
        conversion: None,
        operator: BinaryOperator::Distance { cells },
        operand: pointer(alloc, b)?.into_inner(),
    };
    extended(alloc, first, integer(IntegerType::Long), link)
}

fn sum(
    alloc: Global,
    structs: &[Struct],
    a: Boxed<Run>,
    b: Boxed<Found>,
) -> Result<Boxed<Run>, AllocError>
    ensures { IfOk result (λ run. run ≡ (if types.is_target a.c_type then rules.advanced structs.now Way.Forward a b else rules.computed Arithmetic.Add a b)) }
{
    if is_target(a.get().c_type) {
        advanced(alloc, structs, Way::Forward, a, b)
    } else {
        computed(alloc, Arithmetic::Add, a, b)
    }
}

fn less(
    alloc: Global,
    structs: &[Struct],
    a: Boxed<Run>,
    b: Boxed<Found>,
) -> Result<Boxed<Run>, AllocError>
    ensures { IfOk result (λ run. run ≡ rules.less structs.now a b) }
{
    if is_target(a.get().c_type) {
        advanced(alloc, structs, Way::Back, a, b)
    } else {
        computed(alloc, Arithmetic::Subtract, a, b)
    }
}

fn difference(
    alloc: Global,
    structs: &[Struct],
    a: Boxed<Run>,
    b: Boxed<Found>,
) -> Result<Boxed<Run>, AllocError>
    ensures { IfOk result (λ run. run ≡ (if types.is_pointer (rules.c_type_of b) then rules.between structs.now a b else rules.less structs.now a b)) }
{
    if is_pointer(c_type_of(b.get())) {
        between(alloc, structs, a, b)
    } else {
        less(alloc, structs, a, b)
    }
}

/// `+`.
#[tactic(auto, unfolding(crate::specs::Rules::plus))]
pub fn plus(
    alloc: Global,
    breaches: &mut Vec<Breach>,
    structs: &[Struct],
    a: Boxed<Run>,
    b: Boxed<Found>,
) -> Result<Option<Boxed<Run>>, AllocError>
    ensures found { IfOk result (λ found. found ≡ (rules.plus structs.now a b).found) }
    ensures breaches { OnOk result (Notes breaches.old breaches.new (rules.plus structs.now a b).breaches) }
{
    let before = breaches.len();
    note_sum(breaches, a.get(), b.get())?;
    if breaches.len() > before {
        return Ok(None);
    }
    sum(alloc, structs, a, b).map(Some)
}

/// `-`.
#[tactic(auto, unfolding(crate::specs::Rules::minus))]
pub fn minus(
    alloc: Global,
    breaches: &mut Vec<Breach>,
    structs: &[Struct],
    a: Boxed<Run>,
    b: Boxed<Found>,
) -> Result<Option<Boxed<Run>>, AllocError>
    ensures found { IfOk result (λ found. found ≡ (rules.minus structs.now a b).found) }
    ensures breaches { OnOk result (Notes breaches.old breaches.new (rules.minus structs.now a b).breaches) }
{
    let before = breaches.len();
    note_minus(breaches, a.get(), b.get())?;
    if breaches.len() > before {
        return Ok(None);
    }
    difference(alloc, structs, a, b).map(Some)
}

fn shifted(
    alloc: Global,
    direction: Direction,
    a: Boxed<Run>,
    b: Boxed<Found>,
) -> Result<Boxed<Run>, AllocError>
    ensures { IfOk result (λ run. let kind = types.promoted (types.integer_of a.c_type) in run ≡ rules.extended a (types.integer kind) (record { conversion = types.change kind (types.integer_of a.c_type); operator = BinaryOperator.Shift direction kind; operand = rules.value b })) }
{
    let left = integer_of(a.get().c_type);
    let kind = promoted(left);
    let link = Link {
        conversion: change(kind, left),
        operator: BinaryOperator::Shift { direction, kind },
        operand: value(alloc, b)?.into_inner(),
    };
    extended(alloc, a, integer(kind), link)
}

/// `<<` or `>>`.
#[tactic(auto, unfolding(crate::specs::Rules::shift))]
pub fn shift(
    alloc: Global,
    breaches: &mut Vec<Breach>,
    direction: Direction,
    a: Boxed<Run>,
    b: Boxed<Found>,
) -> Result<Option<Boxed<Run>>, AllocError>
    ensures found { IfOk result (λ found. found ≡ (rules.shift direction a b).found) }
    ensures breaches { OnOk result (Notes breaches.old breaches.new (rules.shift direction a b).breaches) }
{
    let before = breaches.len();
    numbers(breaches, a.get(), b.get())?;
    if breaches.len() > before {
        return Ok(None);
    }
    shifted(alloc, direction, a, b).map(Some)
}

// ---- comparison

// The rules of two numbers or two pointers.
#[tactic(auto, using(std::proofs::Common::append_assoc))]
fn note_comparison(breaches: &mut Vec<Breach>, a: &Run, b: &Found) -> Result<(), AllocError>
    ensures { OnOk result (Notes breaches.old breaches.new (rules.scalars_rules a.now b.now ++ rules.mismatch a.now b.now)) }
{
    scalars(breaches, a, b)?;
    mismatch(breaches, a, b)
}

fn compared_numbers(
    alloc: Global,
    operator: Comparison,
    a: Boxed<Run>,
    b: Boxed<Found>,
) -> Result<Boxed<Run>, AllocError>
    ensures { IfOk result (λ run. run ≡ rules.compared_numbers operator a b) }
{
    let left = integer_of(a.get().c_type);
    let kind = common(left, integer_of(c_type_of(b.get())));
    let link = Link {
        conversion: change(kind, left),
        operator: BinaryOperator::Comparison(operator),
        operand: value_in(alloc, kind, b)?.into_inner(),
    };
    extended(alloc, a, integer(IntegerType::Int), link)
}

fn compared_pointers(
    alloc: Global,
    operator: Comparison,
    a: Boxed<Run>,
    b: Boxed<Found>,
) -> Result<Boxed<Run>, AllocError>
    ensures { IfOk result (λ run. run ≡ rules.compared_pointers operator a b) }
{
    let first = as_pointer(alloc, a)?;
    let link = Link {
        conversion: None,
        operator: BinaryOperator::PointerComparison(operator),
        operand: pointer(alloc, b)?.into_inner(),
    };
    extended(alloc, first, integer(IntegerType::Int), link)
}

fn compared(
    alloc: Global,
    operator: Comparison,
    a: Boxed<Run>,
    b: Boxed<Found>,
) -> Result<Boxed<Run>, AllocError>
    ensures { IfOk result (λ run. run ≡ (if rules.has_pointer a.c_type (rules.c_type_of b) then rules.compared_pointers operator a b else rules.compared_numbers operator a b)) }
{
    if has_pointer(a.get().c_type, c_type_of(b.get())) {
        compared_pointers(alloc, operator, a, b)
    } else {
        compared_numbers(alloc, operator, a, b)
    }
}

/// A relational or equality operator.
#[tactic(auto, unfolding(crate::specs::Rules::comparison))]
pub fn comparison(
    alloc: Global,
    breaches: &mut Vec<Breach>,
    operator: Comparison,
    a: Boxed<Run>,
    b: Boxed<Found>,
) -> Result<Option<Boxed<Run>>, AllocError>
    ensures found { IfOk result (λ found. found ≡ (rules.comparison operator a b).found) }
    ensures breaches { OnOk result (Notes breaches.old breaches.new (rules.comparison operator a b).breaches) }
{
    let before = breaches.len();
    note_comparison(breaches, a.get(), b.get())?;
    if breaches.len() > before {
        return Ok(None);
    }
    compared(alloc, operator, a, b).map(Some)
}

fn joined(
    alloc: Global,
    operator: BinaryOperator,
    a: Boxed<Run>,
    b: Boxed<Found>,
) -> Result<Boxed<Run>, AllocError>
    ensures { IfOk result (λ run. run ≡ rules.extended a (types.integer Int) (record { conversion = None; operator = operator; operand = rules.value b })) }
{
    let link = Link {
        conversion: None,
        operator,
        operand: value(alloc, b)?.into_inner(),
    };
    extended(alloc, a, integer(IntegerType::Int), link)
}

/// `&&` or `||`.
#[tactic(auto, unfolding(crate::specs::Rules::logical))]
pub fn logical(
    alloc: Global,
    breaches: &mut Vec<Breach>,
    operator: BinaryOperator,
    a: Boxed<Run>,
    b: Boxed<Found>,
) -> Result<Option<Boxed<Run>>, AllocError>
    ensures found { IfOk result (λ found. found ≡ (rules.logical operator a b).found) }
    ensures breaches { OnOk result (Notes breaches.old breaches.new (rules.logical operator a b).breaches) }
{
    let before = breaches.len();
    scalars(breaches, a.get(), b.get())?;
    if breaches.len() > before {
        return Ok(None);
    }
    joined(alloc, operator, a, b).map(Some)
}
