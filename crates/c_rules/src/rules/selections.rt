//! What is selected: elements and members (C99 6.5.2.1, 6.5.2.3).

ghost use Rattle.std.specs.Prelude.{◌≡◌, ◌++◌, ◌&&◌, not, IfOk, OnOk, option_map};
ghost use Rattle.std.specs.Str.{bytes_eq};
ghost use Rattle.c_tree.specs.declared.kind.Kind.TheVariants.{NotStruct};
ghost use Rattle.c_rules.specs.Judged.{Notes, breaks};
ghost use Rattle.c_rules.specs.Rules as rules;
ghost use Rattle.c_rules.specs.Types as types;

use crate::breach::{Breach, rule};
use crate::found::{Form, Found};
use crate::rules::values::{
    c_type_of, element_place, note_pointer, number, place, step_to, target_place, value,
};
use crate::types::{element, element_cells, is_array, is_struct, is_target, one_object, target};
use c_kernel::program::{Expr, Place, Selection};
use c_kernel::{Base, CType, Member, ObjectType, Struct};
use c_tree::Kind;
use c_tree::tree::MemberName;
use sqlite_items::Boxed;
use std::alloc::{AllocError, Global};

fn is_array_found(a: &Found) -> bool
    ensures { result ≡ rules.is_array_found a.now }
{
    match &a.form {
        Form::Zero(_) | Form::Value { .. } => false,
        Form::Place { kind, .. } => is_array(kind),
    }
}

fn note_base(breaches: &mut Vec<Breach>, a: &Found) -> Result<(), AllocError>
    ensures { OnOk result (Notes breaches.old breaches.new (rules.base_rules a.now)) }
{
    if is_array_found(a) {
        return Ok(());
    }
    note_pointer(breaches, a.at, c_type_of(a))
}

// An element of an array.
fn element_of_array(
    alloc: Global,
    at: u32,
    kind: &ObjectType,
    array: Boxed<Place<Expr>>,
    index: Boxed<Expr>,
) -> Result<Boxed<Found>, AllocError>
    ensures { IfOk result (λ found. found ≡ rules.place at (types.element kind.now) (rules.element_place kind.now array index)) }
{
    let inner = element_place(alloc, kind, array, index)?;
    place(alloc, at, element(alloc, kind)?, inner)
}

// An element from where a pointer points on.
fn element_from(
    alloc: Global,
    structs: &[Struct],
    a: Boxed<Found>,
    index: Boxed<Expr>,
) -> Result<Boxed<Found>, AllocError>
    ensures { IfOk result (λ found. found ≡ rules.place a.at (types.one_object structs.now (types.target (rules.c_type_of a))) (rules.step_to (rules.target_place a) (Selection.Element index (types.element_cells structs.now (types.target (rules.c_type_of a)))))) }
{
    let at = a.get().at;
    let c_type = target(c_type_of(a.get()));
    let whole = target_place(alloc, a)?;
    let step = Selection::Element {
        index: index.into_inner(),
        cells: element_cells(structs, c_type),
    };
    let inner = step_to(alloc, whole, step)?;
    place(alloc, at, one_object(alloc, structs, c_type), inner)
}

// An element of an array, or from where the pointer at a place points on.
fn element_of_place(
    alloc: Global,
    structs: &[Struct],
    at: u32,
    object: (ObjectType, Boxed<Place<Expr>>),
    index: Boxed<Expr>,
) -> Result<Boxed<Found>, AllocError>
    ensures { IfOk result (λ found. found ≡ rules.element_found structs.now (rules.place at object.0 object.1) index) }
{
    let (kind, place) = object;
    if is_array(&kind) {
        return element_of_array(alloc, at, &kind, place, index);
    }
    let form = Form::Place { kind, place };
    let pointer = Boxed::new(alloc, Found { at, form })?;
    element_from(alloc, structs, pointer, index)
}

fn element_found(
    alloc: Global,
    structs: &[Struct],
    a: Boxed<Found>,
    index: Boxed<Expr>,
) -> Result<Boxed<Found>, AllocError>
    ensures { IfOk result (λ found. found ≡ rules.element_found structs.now a index) }
{
    let Found { at, form } = a.into_inner();
    match form {
        Form::Place { kind, place } => element_of_place(alloc, structs, at, (kind, place), index),
        form => {
            let pointer = Boxed::new(alloc, Found { at, form })?;
            element_from(alloc, structs, pointer, index)
        }
    }
}

fn indexed(
    alloc: Global,
    structs: &[Struct],
    a: Boxed<Found>,
    i: Boxed<Found>,
) -> Result<Boxed<Found>, AllocError>
    ensures { IfOk result (λ found. found ≡ rules.element_found structs.now a (rules.value i)) }
{
    let i = value(alloc, i)?;
    element_found(alloc, structs, a, i)
}

#[tactic(auto, using(std::proofs::Common::append_assoc))]
fn note_index(breaches: &mut Vec<Breach>, a: &Found, i: &Found) -> Result<(), AllocError>
    ensures { OnOk result (Notes breaches.old breaches.new (rules.base_rules a.now ++ rules.number_rules i.now.at (rules.c_type_of i.now))) }
{
    note_base(breaches, a)?;
    number(breaches, i.at, c_type_of(i))
}

/// `a[i]`.
#[tactic(auto, unfolding(crate::specs::Rules::index))]
pub fn index(
    alloc: Global,
    breaches: &mut Vec<Breach>,
    structs: &[Struct],
    a: Boxed<Found>,
    i: Boxed<Found>,
) -> Result<Option<Boxed<Found>>, AllocError>
    ensures found { IfOk result (λ found. found ≡ (rules.index structs.now a i).found) }
    ensures breaches { OnOk result (Notes breaches.old breaches.new (rules.index structs.now a i).breaches) }
{
    let before = breaches.len();
    note_index(breaches, a.get(), i.get())?;
    if breaches.len() > before {
        return Ok(None);
    }
    indexed(alloc, structs, a, i).map(Some)
}

// A member by its name, with its number.
fn numbered<'m>(members: &'m [Member], name: &MemberName) -> Option<(usize, &'m Member)>
    ensures { option_map (λ found. (found.0, found.1.now)) result ≡ types.numbered 0 members.now (types.member_bytes name.now) }
{
    for (number, member) in members.iter().enumerate() {
        if is_named(member, name) {
            return Some((number, member));
        }
    }
    None
}

/// Whether a member has this name.
pub fn is_named(member: &Member, name: &MemberName) -> bool
    ensures { result ≡ bytes_eq member.now.name (types.member_bytes name.now) }
{
    match name {
        MemberName::Name(name) => member.name.as_slice() == name.bytes.as_slice(),
        MemberName::Source(_) => member.name.as_slice() == b"MPI_SOURCE".as_slice(),
        MemberName::Tag(_) => member.name.as_slice() == b"MPI_TAG".as_slice(),
    }
}

/// The first byte of a member's name.
pub fn member_at(name: &MemberName) -> u32
    ensures { result ≡ types.member_at name.now }
{
    match name {
        MemberName::Name(name) => name.at,
        MemberName::Source(at) => *at,
        MemberName::Tag(at) => *at,
    }
}

// A member of a struct, with both numbers.
fn member_in<'s>(
    structs: &'s [Struct],
    c_type: CType,
    name: &MemberName,
) -> Option<(usize, (usize, &'s Member))>
    ensures { option_map (λ found. (found.0, (found.1.0, found.1.1.now))) result ≡ rules.member_in structs.now c_type (types.member_bytes name.now) }
{
    match c_type.base {
        Base::Integer(_) | Base::Void => None,
        Base::Struct(number) => match structs.get(number) {
            None => None,
            Some(found) => match numbered(found.members.as_slice(), name) {
                None => None,
                Some(member) => Some((number, member)),
            },
        },
    }
}

// The member of a name that what is of a type is to have.
#[derive(Clone, Copy)]
struct Wanted<'a> {
    structs: &'a [Struct],
    c_type: CType,
    name: &'a MemberName,
}

// A member of what stands at a place.
fn selected(
    alloc: Global,
    breaches: &mut Vec<Breach>,
    at: u32,
    whole: Boxed<Place<Expr>>,
    wanted: Wanted<'_>,
) -> Result<Option<Boxed<Found>>, AllocError>
    ensures found { IfOk result (λ found. found ≡ (rules.selected wanted.entry.structs.now at wanted.entry.c_type whole wanted.entry.name.now).found) }
    ensures breaches { OnOk result (Notes breaches.old breaches.new (rules.selected wanted.entry.structs.now at wanted.entry.c_type whole wanted.entry.name.now).breaches) }
{
    match member_in(wanted.structs, wanted.c_type, wanted.name) {
        None => {
            rule(breaches, true, Kind::UnknownName, member_at(wanted.name))?;
            Ok(None)
        }
        Some((structure, (member, found))) => {
            let step = Selection::Member {
                structure,
                member,
                place: found.place,
            };
            let inner = step_to(alloc, whole, step)?;
            place(alloc, at, found.kind.copy(alloc)?, inner).map(Some)
        }
    }
}

// The struct that is a place.
fn struct_place(a: Boxed<Found>) -> Option<(CType, Boxed<Place<Expr>>)>
    ensures { result ≡ rules.struct_place a }
{
    match a.into_inner().form {
        Form::Zero(_) | Form::Value { .. } => None,
        Form::Place { kind, place } => {
            if !is_array(&kind) && is_struct(kind.element) {
                Some((kind.element, place))
            } else {
                None
            }
        }
    }
}

/// `a.name`.
#[tactic(auto, unfolding(crate::specs::Rules::dot))]
pub fn dot(
    alloc: Global,
    breaches: &mut Vec<Breach>,
    structs: &[Struct],
    a: Boxed<Found>,
    name: &MemberName,
) -> Result<Option<Boxed<Found>>, AllocError>
    ensures found { IfOk result (λ found. found ≡ (rules.dot structs.now a name.now).found) }
    ensures breaches { OnOk result (Notes breaches.old breaches.new (rules.dot structs.now a name.now).breaches) }
{
    let at = a.get().at;
    match struct_place(a) {
        None => {
            rule(breaches, true, Kind::NotStruct, at)?;
            Ok(None)
        }
        Some((c_type, whole)) => {
            let wanted = Wanted {
                structs,
                c_type,
                name,
            };
            selected(alloc, breaches, at, whole, wanted)
        }
    }
}

fn note_arrow(breaches: &mut Vec<Breach>, at: u32, c_type: CType) -> Result<(), AllocError>
    ensures { OnOk result (Notes breaches.old breaches.new (rules.pointer_rules at c_type ++ breaks (types.is_target c_type && not (types.is_struct (types.target c_type))) NotStruct at)) }
{
    note_pointer(breaches, at, c_type)?;
    let other = is_target(c_type) && !is_struct(target(c_type));
    rule(breaches, other, Kind::NotStruct, at)
}

/// `a->name`.
#[tactic(auto, using(std::proofs::Common::append_assoc), unfolding(crate::specs::Rules::arrow))]
pub fn arrow(
    alloc: Global,
    breaches: &mut Vec<Breach>,
    structs: &[Struct],
    a: Boxed<Found>,
    name: &MemberName,
) -> Result<Option<Boxed<Found>>, AllocError>
    ensures found { IfOk result (λ found. found ≡ (rules.arrow structs.now a name.now).found) }
    ensures breaches { OnOk result (Notes breaches.old breaches.new (rules.arrow structs.now a name.now).breaches) }
{
    let at = a.get().at;
    let pointer = c_type_of(a.get());
    let before = breaches.len();
    note_arrow(breaches, at, pointer)?;
    if breaches.len() > before {
        return Ok(None);
    }
    let whole = target_place(alloc, a)?;
    let c_type = target(pointer);
    let wanted = Wanted {
        structs,
        c_type,
        name,
    };
    selected(alloc, breaches, at, whole, wanted)
}
