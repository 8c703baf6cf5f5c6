//! The rules at each node of an expression.

mod chains;
mod operands;
mod roles;
mod selections;
mod values;

ghost use Rattle.std.specs.Prelude.{◌≡◌, IfOk, OnOk, unwrap_or};
ghost use Rattle.c_rules.specs.Judged.{Notes};
ghost use Rattle.c_rules.specs.Rules as rules;

use crate::breach::{Breach, rule};
use crate::found::{Found, Invocation};
use crate::rules::chains::operands_clash;
use crate::signature::{Callee, Signature};
use crate::types::{common, integer, integer_of, is_pointer, is_target};
use c_kernel::CType;
use c_kernel::program::Expr;
use c_tree::Kind;
pub use chains::{arithmetic, begin, closed, comparison, logical, minus, plus, shift};
pub use operands::{address, cast, dereference, negation, size_of, unary};
pub use roles::{Role, note_roles, roles_of, roles_values};
pub use selections::{arrow, dot, index, is_named, member_at};
use sqlite_items::{Boxed, Items};
use std::alloc::{AllocError, Global};
pub use values::{
    c_type_of, clash, constant, is_zero, literal, note_pointer, note_value, null, number, place,
    plain, scalar, value, value_as, variable,
};

// ---- test ? then : otherwise

fn has_pointer(t: CType, u: CType) -> bool
    ensures { result ≡ rules.has_pointer t u }
{
    is_pointer(t) || is_pointer(u)
}

fn met(t: CType, u: CType) -> CType
    ensures { result ≡ rules.met t u }
{
    if is_target(t) {
        return t;
    }
    if is_pointer(u) { u } else { t }
}

fn choice_type(t: CType, u: CType) -> CType
    ensures { result ≡ rules.choice_type t u }
{
    if has_pointer(t, u) {
        met(t, u)
    } else {
        integer(common(integer_of(t), integer_of(u)))
    }
}

#[tactic(auto, using(std::proofs::Common::append_assoc))]
fn note_choice(
    breaches: &mut Vec<Breach>,
    c: &Found,
    a: &Found,
    b: &Found,
) -> Result<(), AllocError>
    ensures { OnOk result (Notes breaches.old breaches.new (rules.choice_rules c.now a.now b.now)) }
{
    scalar(breaches, c.at, c_type_of(c))?;
    scalar(breaches, a.at, c_type_of(a))?;
    scalar(breaches, b.at, c_type_of(b))?;
    let clash = has_pointer(c_type_of(a), c_type_of(b))
        && operands_clash(is_zero(a), c_type_of(a), is_zero(b), c_type_of(b));
    rule(breaches, clash, Kind::TypeMismatch, c.at)
}

fn chosen(
    alloc: Global,
    c_type: CType,
    c: Boxed<Found>,
    a: Boxed<Found>,
    b: Boxed<Found>,
) -> Result<Boxed<Found>, AllocError>
    ensures { IfOk result (λ found. found ≡ rules.chosen c.at c_type c a b) }
{
    let at = c.get().at;
    let test = value(alloc, c)?;
    let then = value_as(alloc, c_type, a)?;
    let otherwise = value_as(alloc, c_type, b)?;
    let term = Boxed::new(
        alloc,
        Expr::Choice {
            test,
            then,
            otherwise,
        },
    )?;
    plain(alloc, at, c_type, term)
}

/// `test ? then : otherwise`.
#[tactic(auto, unfolding(crate::specs::Rules::choice))]
pub fn choice(
    alloc: Global,
    breaches: &mut Vec<Breach>,
    c: Boxed<Found>,
    a: Boxed<Found>,
    b: Boxed<Found>,
) -> Result<Option<Boxed<Found>>, AllocError>
    ensures found { IfOk result (λ found. found ≡ (rules.choice c a b).found) }
    ensures breaches { OnOk result (Notes breaches.old breaches.new (rules.choice c a b).breaches) }
{
    let before = breaches.len();
    note_choice(breaches, c.get(), a.get(), b.get())?;
    if breaches.len() > before {
        return Ok(None);
    }
    let c_type = choice_type(c_type_of(a.get()), c_type_of(b.get()));
    chosen(alloc, c_type, c, a, b).map(Some)
}

// ---- calls

// The rules of the values of a call.
fn note_arguments(
    breaches: &mut Vec<Breach>,
    c_types: &[CType],
    values: &[Boxed<Found>],
) -> Result<(), AllocError>
    ensures { OnOk result (Notes breaches.old breaches.new (rules.argument_rules c_types.now values.now)) }
{
    let mut c_types = c_types;
    for v in values {
        let v = v.get();
        match c_types {
            [] => scalar(breaches, v.at, c_type_of(v))?,
            [c_type, more @ ..] => {
                note_value(breaches, *c_type, v)?;
                c_types = more;
            }
        }
    }
    Ok(())
}

// The values as they are passed.
fn passed(
    alloc: Global,
    c_types: &[CType],
    values: Items<Boxed<Found>>,
) -> Result<Items<Expr>, AllocError>
    ensures { IfOk result (λ terms. terms ≡ rules.passed c_types.now values) }
{
    let mut values = values;
    let mut terms = Items::new(alloc);
    for c_type in c_types {
        if values.len() == 0 {
            return Ok(terms);
        }
        let v = values.remove(0);
        terms.push(value_as(alloc, *c_type, v)?.into_inner())?;
    }
    Ok(terms)
}

// The values of a call against the header.
#[tactic(auto, using(std::proofs::Common::append_assoc))]
fn note_header(
    breaches: &mut Vec<Breach>,
    at: u32,
    f: &Signature,
    values: &[Boxed<Found>],
) -> Result<(), AllocError>
    ensures { OnOk result (Notes breaches.old breaches.new (rules.header_rules at f.now values.now)) }
{
    if !f.sound {
        return Ok(());
    }
    let other = f.parameters.len() != values.len();
    rule(breaches, other, Kind::ArgumentCount, at)?;
    note_arguments(breaches, f.parameters.as_slice(), values)
}

#[tactic(auto, using(std::proofs::Common::append_assoc))]
fn note_call(
    breaches: &mut Vec<Breach>,
    callee: Callee<'_>,
    values: &[Boxed<Found>],
) -> Result<(), AllocError>
    ensures { OnOk result (Notes breaches.old breaches.new (rules.call_rules callee.entry.main callee.entry.at callee.entry.signature.now values.now)) }
{
    let f = callee.signature;
    rule(breaches, callee.main, Kind::BadMain, callee.at)?;
    rule(breaches, f.number.is_none(), Kind::Undefined, callee.at)?;
    note_header(breaches, callee.at, f, values)
}

/// A call.
#[tactic(auto, using(std::proofs::Common::append_assoc), unfolding(crate::specs::Rules::call))]
pub fn call(
    alloc: Global,
    breaches: &mut Vec<Breach>,
    at: u32,
    callee: Callee<'_>,
    values: Items<Boxed<Found>>,
) -> Result<Option<Invocation>, AllocError>
    ensures found { IfOk result (λ found. found ≡ (rules.call callee.entry.main at callee.entry.at callee.entry.signature.now values).found) }
    ensures breaches { OnOk result (Notes breaches.old breaches.new (rules.call callee.entry.main at callee.entry.at callee.entry.signature.now values).breaches) }
{
    let f = callee.signature;
    let before = breaches.len();
    note_call(breaches, callee, values.as_slice())?;
    if breaches.len() > before {
        return Ok(None);
    }
    if !f.sound {
        return Ok(None);
    }
    invocation(alloc, at, f, values).map(Some)
}

fn invocation(
    alloc: Global,
    at: u32,
    f: &Signature,
    values: Items<Boxed<Found>>,
) -> Result<Invocation, AllocError>
    ensures { IfOk result (λ call. call ≡ record { at = at; c_type = f.now.result; function = unwrap_or f.now.number 0; arguments = rules.passed f.now.parameters values }) }
{
    Ok(Invocation {
        at,
        c_type: f.result,
        function: f.number.unwrap_or(0),
        arguments: passed(alloc, f.parameters.as_slice(), values)?,
    })
}

/// A call that is a part of an expression.
#[tactic(auto, using(std::proofs::Common::append_assoc), unfolding(crate::specs::Rules::misplaced))]
pub fn misplaced_call(
    breaches: &mut Vec<Breach>,
    callee: Callee<'_>,
    values: &[Boxed<Found>],
) -> Result<Option<Boxed<Found>>, AllocError>
    ensures found { IfOk result (λ found. found ≡ (rules.misplaced callee.entry.main callee.entry.at callee.entry.signature.now values.now).found) }
    ensures breaches { OnOk result (Notes breaches.old breaches.new (rules.misplaced callee.entry.main callee.entry.at callee.entry.signature.now values.now).breaches) }
{
    note_call(breaches, callee, values)?;
    rule(breaches, true, Kind::CallPlace, callee.at)?;
    Ok(None)
}
