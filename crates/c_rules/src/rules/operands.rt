//! Operators of one operand (C99 6.5.3, 6.5.4).

ghost use Rattle.std.specs.Prelude.{◌≡◌, ◌++◌, not, IfOk, OnOk};
ghost use Rattle.c_kernel.specs.declared.types.IntegerType.TheVariants.{Int};
ghost use Rattle.c_tree.specs.declared.kind.Kind.TheVariants.{TypeMismatch};
ghost use Rattle.c_rules.specs.Judged.{Notes, breaks};
ghost use Rattle.c_rules.specs.Rules as rules;
ghost use Rattle.c_rules.specs.Types as types;

use crate::breach::{Breach, rule};
use crate::found::{Form, Found};
use crate::rules::values::{
    c_type_of, constant, note_pointer, number, place, plain, scalar, target_place, value, value_in,
};
use crate::types::{
    integer, integer_of, is_array, is_incomplete, is_integer, one_object, pointer_to, promoted,
    target,
};
use c_kernel::program::{Expr, UnaryOperator};
use c_kernel::{CType, IntegerType, Struct, extent_of};
use c_tree::Kind;
use sqlite_items::Boxed;
use std::alloc::{AllocError, Global};

/// `+`, `-` or `~`.
#[tactic(auto, unfolding(crate::specs::Rules::unary))]
pub fn unary(
    alloc: Global,
    breaches: &mut Vec<Breach>,
    operator: UnaryOperator,
    at: u32,
    a: Boxed<Found>,
) -> Result<Option<Boxed<Found>>, AllocError>
    ensures found { IfOk result (λ found. found ≡ (rules.unary operator at a).found) }
    ensures breaches { OnOk result (Notes breaches.old breaches.new (rules.unary operator at a).breaches) }
{
    let before = breaches.len();
    number(breaches, a.get().at, c_type_of(a.get()))?;
    if breaches.len() > before {
        return Ok(None);
    }
    signed(alloc, operator, at, a).map(Some)
}

fn signed(
    alloc: Global,
    operator: UnaryOperator,
    at: u32,
    a: Boxed<Found>,
) -> Result<Boxed<Found>, AllocError>
    ensures { IfOk result (λ found. let kind = types.promoted (types.integer_of (rules.c_type_of a)) in found ≡ rules.plain at (types.integer kind) (Expr.Unary operator kind (rules.value_in kind a))) }
{
    let kind = promoted(integer_of(c_type_of(a.get())));
    let operand = value_in(alloc, kind, a)?;
    let term = Boxed::new(
        alloc,
        Expr::Unary {
            operator,
            kind,
            operand,
        },
    )?;
    plain(alloc, at, integer(kind), term)
}

/// `!`.
#[tactic(auto, unfolding(crate::specs::Rules::negation))]
pub fn negation(
    alloc: Global,
    breaches: &mut Vec<Breach>,
    at: u32,
    a: Boxed<Found>,
) -> Result<Option<Boxed<Found>>, AllocError>
    ensures found { IfOk result (λ found. found ≡ (rules.negation at a).found) }
    ensures breaches { OnOk result (Notes breaches.old breaches.new (rules.negation at a).breaches) }
{
    let before = breaches.len();
    scalar(breaches, a.get().at, c_type_of(a.get()))?;
    if breaches.len() > before {
        return Ok(None);
    }
    negated(alloc, at, a).map(Some)
}

fn negated(alloc: Global, at: u32, a: Boxed<Found>) -> Result<Boxed<Found>, AllocError>
    ensures { IfOk result (λ found. found ≡ rules.plain at (types.integer Int) (Expr.Not (rules.value a))) }
{
    let term = Boxed::new(alloc, Expr::Not(value(alloc, a)?))?;
    plain(alloc, at, integer(IntegerType::Int), term)
}

/// `*`.
#[tactic(auto, unfolding(crate::specs::Rules::dereference))]
pub fn dereference(
    alloc: Global,
    breaches: &mut Vec<Breach>,
    structs: &[Struct],
    at: u32,
    a: Boxed<Found>,
) -> Result<Option<Boxed<Found>>, AllocError>
    ensures found { IfOk result (λ found. found ≡ (rules.dereference structs.now at a).found) }
    ensures breaches { OnOk result (Notes breaches.old breaches.new (rules.dereference structs.now at a).breaches) }
{
    let before = breaches.len();
    let c_type = c_type_of(a.get());
    note_pointer(breaches, a.get().at, c_type)?;
    if breaches.len() > before {
        return Ok(None);
    }
    pointed(alloc, structs, at, c_type, a).map(Some)
}

// What a pointer of the type points to.
fn pointed(
    alloc: Global,
    structs: &[Struct],
    at: u32,
    c_type: CType,
    a: Boxed<Found>,
) -> Result<Boxed<Found>, AllocError>
    ensures { IfOk result (λ found. found ≡ rules.place at (types.one_object structs.now (types.target c_type)) (rules.target_place a)) }
{
    let whole = target_place(alloc, a)?;
    let inner = one_object(alloc, structs, target(c_type));
    place(alloc, at, inner, whole)
}

/// `&`.
#[tactic(auto, unfolding(crate::specs::Rules::address))]
pub fn address(
    alloc: Global,
    breaches: &mut Vec<Breach>,
    at: u32,
    a: Boxed<Found>,
) -> Result<Option<Boxed<Found>>, AllocError>
    ensures found { IfOk result (λ found. found ≡ (rules.address at a).found) }
    ensures breaches { OnOk result (Notes breaches.old breaches.new (rules.address at a).breaches) }
{
    let Found { at: operand, form } = a.into_inner();
    match form {
        Form::Zero(_) | Form::Value { .. } => {
            rule(breaches, true, Kind::NotPlace, operand)?;
            Ok(None)
        }
        Form::Place { kind, place } => {
            if is_array(&kind) {
                rule(breaches, true, Kind::NotPlace, operand)?;
                return Ok(None);
            }
            let term = Boxed::new(alloc, Expr::Address(place.into_inner()))?;
            plain(alloc, at, pointer_to(kind.element), term).map(Some)
        }
    }
}

// The rules of a cast from one type to another.
#[tactic(auto, using(std::proofs::Common::append_assoc))]
fn note_cast(breaches: &mut Vec<Breach>, at: u32, to: CType, from: CType) -> Result<(), AllocError>
    ensures { OnOk result (Notes breaches.old breaches.new (rules.scalar_rules at from ++ breaks (not (types.is_integer to)) TypeMismatch at ++ breaks (not (types.is_integer from)) TypeMismatch at)) }
{
    scalar(breaches, at, from)?;
    rule(breaches, !is_integer(to), Kind::TypeMismatch, at)?;
    rule(breaches, !is_integer(from), Kind::TypeMismatch, at)
}

/// A cast.
#[tactic(auto, unfolding(crate::specs::Rules::cast))]
pub fn cast(
    alloc: Global,
    breaches: &mut Vec<Breach>,
    at: u32,
    c_type: CType,
    a: Boxed<Found>,
) -> Result<Option<Boxed<Found>>, AllocError>
    ensures found { IfOk result (λ found. found ≡ (rules.cast at c_type a).found) }
    ensures breaches { OnOk result (Notes breaches.old breaches.new (rules.cast at c_type a).breaches) }
{
    let before = breaches.len();
    note_cast(breaches, at, c_type, c_type_of(a.get()))?;
    if breaches.len() > before {
        return Ok(None);
    }
    let term = value_in(alloc, integer_of(c_type), a)?;
    plain(alloc, at, c_type, term).map(Some)
}

/// `sizeof`.
#[tactic(auto, unfolding(crate::specs::Rules::size_of))]
pub fn size_of(
    alloc: Global,
    breaches: &mut Vec<Breach>,
    structs: &[Struct],
    at: u32,
    c_type: CType,
) -> Result<Option<Boxed<Found>>, AllocError>
    ensures found { IfOk result (λ found. found ≡ (rules.size_of structs.now at c_type).found) }
    ensures breaches { OnOk result (Notes breaches.old breaches.new (rules.size_of structs.now at c_type).breaches) }
{
    if is_incomplete(structs, c_type) {
        rule(breaches, true, Kind::IncompleteType, at)?;
        return Ok(None);
    }
    let size = extent_of(structs, c_type).size;
    constant(alloc, at, i64::from(size), IntegerType::Long).map(Some)
}
