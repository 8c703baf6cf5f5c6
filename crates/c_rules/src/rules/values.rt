//! What is found, and its value.

ghost use Rattle.std.specs.Prelude.{◌≡◌, [], pos, IfOk, OnOk};
ghost use Rattle.c_rules.specs.Judged.{Notes};
ghost use Rattle.c_rules.specs.Rules as rules;
ghost use Rattle.c_rules.specs.declared.found.Form.TheVariants as form;
ghost use Rattle.c_rules.specs.Types as types;

use crate::breach::{Breach, rule};
use crate::found::{Form, Found};
use crate::types::{
    converted, element, integer, integer_of, is_array, is_integer, is_null, is_pointer, is_scalar,
    is_target, same_type, scalar_of, value_type,
};
use c_kernel::program::{Expr, Place, Root, Selection};
use c_kernel::{Base, CType, IntegerType, ObjectType};
use c_tree::Kind;
use sqlite_items::{Boxed, Items};
use std::alloc::{AllocError, Global};

/// An expression that is no place.
pub fn plain(
    alloc: Global,
    at: u32,
    c_type: CType,
    term: Boxed<Expr>,
) -> Result<Boxed<Found>, AllocError>
    ensures { IfOk result (λ found. found ≡ rules.plain at c_type term) }
{
    let form = Form::Value { c_type, term };
    Boxed::new(alloc, Found { at, form })
}

/// A place, with the type of what stands there.
pub fn place(
    alloc: Global,
    at: u32,
    kind: ObjectType,
    place: Boxed<Place<Expr>>,
) -> Result<Boxed<Found>, AllocError>
    ensures { IfOk result (λ found. found ≡ rules.place at kind place) }
{
    let form = Form::Place { kind, place };
    Boxed::new(alloc, Found { at, form })
}

/// The type of its value.
pub fn c_type_of(a: &Found) -> CType
    ensures { result ≡ rules.c_type_of a.now }
{
    match &a.form {
        Form::Zero(kind) => integer(*kind),
        Form::Value { c_type, .. } => *c_type,
        Form::Place { kind, .. } => value_type(kind),
    }
}

/// Whether it is the literal 0.
pub fn is_zero(a: &Found) -> bool
    ensures { result ≡ rules.is_zero a.now }
{
    match &a.form {
        Form::Zero(_) => true,
        Form::Value { .. } | Form::Place { .. } => false,
    }
}

/// The place of a variable.
pub fn variable(alloc: Global, number: usize) -> Place<Expr>
    ensures { result ≡ rules.variable number }
{
    Place {
        root: Root::Variable(number),
        steps: Items::new(alloc),
    }
}

// What a pointer that stands at no place points to.
fn pointed(alloc: Global, pointer: Boxed<Expr>) -> Place<Expr>
    ensures { result ≡ record { root = Root.Target pointer; steps = [] } }
{
    Place {
        root: Root::Target(pointer),
        steps: Items::new(alloc),
    }
}

/// What a pointer points to.
pub fn target_place(alloc: Global, a: Boxed<Found>) -> Result<Boxed<Place<Expr>>, AllocError>
    ensures { IfOk result (λ place. place ≡ rules.target_place a) }
{
    match a.into_inner().form {
        Form::Zero(kind) => {
            let pointer = zero(alloc, kind)?;
            Boxed::new(alloc, pointed(alloc, pointer))
        }
        Form::Value { term, .. } => Boxed::new(alloc, pointed(alloc, term)),
        Form::Place { kind, place } => followed(alloc, &kind, place),
    }
}

// What the pointer at a place points to, or the one that the array there stands for.
fn followed(
    alloc: Global,
    kind: &ObjectType,
    place: Boxed<Place<Expr>>,
) -> Result<Boxed<Place<Expr>>, AllocError>
    ensures { IfOk result (λ next. next ≡ rules.target_in (form.Place kind.now place)) }
{
    if is_array(kind) {
        let first = first_place(alloc, kind, place)?;
        return step_to(alloc, first, Selection::Checked);
    }
    step_to(alloc, place, Selection::Follow)
}

/// What is selected at a place.
pub fn step_to(
    alloc: Global,
    place: Boxed<Place<Expr>>,
    step: Selection<Expr>,
) -> Result<Boxed<Place<Expr>>, AllocError>
    ensures { IfOk result (λ next. next ≡ rules.step_to place step) }
{
    let Place { root, mut steps } = place.into_inner();
    steps.push(step)?;
    Boxed::new(alloc, Place { root, steps })
}

/// The place of an array's element.
pub fn element_place(
    alloc: Global,
    kind: &ObjectType,
    place: Boxed<Place<Expr>>,
    index: Boxed<Expr>,
) -> Result<Boxed<Place<Expr>>, AllocError>
    ensures { IfOk result (λ next. next ≡ rules.element_place kind.now place index) }
{
    let cells = element(alloc, kind)?.cells;
    let index = index.into_inner();
    step_to(alloc, place, Selection::Element { index, cells })
}

// The place of an array's first element.
fn first_place(
    alloc: Global,
    kind: &ObjectType,
    place: Boxed<Place<Expr>>,
) -> Result<Boxed<Place<Expr>>, AllocError>
    ensures { IfOk result (λ first. first ≡ rules.element_place kind.now place rules.zero_number) }
{
    let index = zero(alloc, IntegerType::Int)?;
    element_place(alloc, kind, place, index)
}

/// What stands at a place.
pub fn value_of_place(
    alloc: Global,
    kind: ObjectType,
    place: Boxed<Place<Expr>>,
) -> Result<Boxed<Expr>, AllocError>
    ensures { IfOk result (λ e. e ≡ rules.value_of_place kind place) }
{
    if is_array(&kind) {
        let first = first_place(alloc, &kind, place)?;
        return Boxed::new(alloc, Expr::Address(first.into_inner()));
    }
    Boxed::new(
        alloc,
        Expr::Load {
            place: place.into_inner(),
            kind: scalar_of(kind.element),
        },
    )
}

/// The literal 0 as a number.
pub fn zero(alloc: Global, kind: IntegerType) -> Result<Boxed<Expr>, AllocError>
    ensures { IfOk result (λ e. e ≡ Expr.Number (pos 0) kind) }
{
    Boxed::new(alloc, Expr::Number { value: 0, kind })
}

/// The value of an expression.
pub fn value(alloc: Global, a: Boxed<Found>) -> Result<Boxed<Expr>, AllocError>
    ensures { IfOk result (λ e. e ≡ rules.value a) }
{
    match a.into_inner().form {
        Form::Zero(kind) => zero(alloc, kind),
        Form::Value { term, .. } => Ok(term),
        Form::Place { kind, place } => value_of_place(alloc, kind, place),
    }
}

/// The value of an expression in an integer type.
pub fn value_in(
    alloc: Global,
    kind: IntegerType,
    a: Boxed<Found>,
) -> Result<Boxed<Expr>, AllocError>
    ensures { IfOk result (λ e. e ≡ rules.value_in kind a) }
{
    let from = integer_of(c_type_of(a.get()));
    converted(alloc, kind, from, value(alloc, a)?)
}

/// The value of an expression where it is to be a pointer.
pub fn pointer(alloc: Global, a: Boxed<Found>) -> Result<Boxed<Expr>, AllocError>
    ensures { IfOk result (λ e. e ≡ rules.pointer_value a) }
{
    if is_zero(a.get()) {
        Boxed::new(alloc, Expr::Null)
    } else {
        value(alloc, a)
    }
}

/// The value of an expression in a type.
pub fn value_as(alloc: Global, c_type: CType, a: Boxed<Found>) -> Result<Boxed<Expr>, AllocError>
    ensures { IfOk result (λ e. e ≡ rules.value_as c_type a) }
{
    if is_pointer(c_type) {
        pointer(alloc, a)
    } else {
        value_in(alloc, integer_of(c_type), a)
    }
}

/// Where a number or pointer is needed.
pub fn scalar(breaches: &mut Vec<Breach>, at: u32, c_type: CType) -> Result<(), AllocError>
    ensures { OnOk result (Notes breaches.old breaches.new (rules.scalar_rules at c_type)) }
{
    rule(breaches, !is_scalar(c_type), Kind::NotScalar, at)
}

/// Where a number is needed.
#[tactic(auto, using(std::proofs::Common::append_assoc))]
pub fn number(breaches: &mut Vec<Breach>, at: u32, c_type: CType) -> Result<(), AllocError>
    ensures { OnOk result (Notes breaches.old breaches.new (rules.number_rules at c_type)) }
{
    scalar(breaches, at, c_type)?;
    rule(breaches, !is_integer(c_type), Kind::NotInteger, at)
}

/// Where a pointer to something is needed.
#[tactic(auto, using(std::proofs::Common::append_assoc))]
pub fn note_pointer(breaches: &mut Vec<Breach>, at: u32, c_type: CType) -> Result<(), AllocError>
    ensures { OnOk result (Notes breaches.old breaches.new (rules.pointer_rules at c_type)) }
{
    scalar(breaches, at, c_type)?;
    rule(breaches, !is_target(c_type), Kind::NotPointer, at)
}

pub fn are_alike(t: CType, u: CType) -> bool
    ensures { result ≡ rules.are_alike t u }
{
    same_type(t, u) || is_null(t) || is_null(u)
}

/// Whether a value of the second type, which may be the literal 0, can't stand where one of the first is needed.
pub fn clash(t: CType, zero: bool, u: CType) -> bool
    ensures { result ≡ rules.clash t zero u }
{
    if is_pointer(t) {
        is_scalar(u) && !(zero || (is_pointer(u) && are_alike(t, u)))
    } else {
        is_integer(t) && is_pointer(u)
    }
}

/// Where a value of a type is needed.
#[tactic(auto, using(std::proofs::Common::append_assoc))]
pub fn note_value(breaches: &mut Vec<Breach>, c_type: CType, a: &Found) -> Result<(), AllocError>
    ensures { OnOk result (Notes breaches.old breaches.new (rules.value_rules c_type a.now)) }
{
    scalar(breaches, a.at, c_type_of(a))?;
    let clash = clash(c_type, is_zero(a), c_type_of(a));
    rule(breaches, clash, Kind::TypeMismatch, a.at)
}

// ---- constants

/// A number of the type.
pub fn constant(
    alloc: Global,
    at: u32,
    value: i64,
    kind: IntegerType,
) -> Result<Boxed<Found>, AllocError>
    ensures { IfOk result (λ found. found ≡ rules.constant at value kind) }
{
    let term = Boxed::new(alloc, Expr::Number { value, kind })?;
    plain(alloc, at, integer(kind), term)
}

/// A number as it is written.
pub fn literal(
    alloc: Global,
    at: u32,
    value: u64,
    kind: IntegerType,
) -> Result<Boxed<Found>, AllocError>
    ensures { IfOk result (λ found. found ≡ rules.literal at value kind) }
{
    if value == 0 {
        let form = Form::Zero(kind);
        Boxed::new(alloc, Found { at, form })
    } else {
        constant(alloc, at, value.cast_signed(), kind)
    }
}

/// `NULL`.
pub fn null(alloc: Global, at: u32) -> Result<Boxed<Found>, AllocError>
    ensures { IfOk result (λ found. found ≡ rules.plain at types.null_type Expr.Null) }
{
    let c_type = CType {
        base: Base::Void,
        stars: 1,
    };
    let term = Boxed::new(alloc, Expr::Null)?;
    plain(alloc, at, c_type, term)
}
