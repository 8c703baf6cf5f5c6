//! Types, and the conversions of their values.

ghost use Rattle.std.specs.Prelude.{◌≡◌, ◌<◌, IfOk, OnOk, All};
ghost use Rattle.std.specs.Option.{option_copied};
ghost use Rattle.c_rules.specs.Judged.{Notes};
ghost use Rattle.c_rules.specs.Types as types;

use crate::breach::{Breach, rule};
use c_kernel::program::{Expr, Scalar};
use c_kernel::{Base, CType, Extent, IntegerType, Member, ObjectType, Struct, extent_of};
use c_tree::Kind;
use c_tree::tree::{PlainType, TypeSpecifier};
use sqlite_items::{Boxed, Items};
use std::alloc::{AllocError, Global};

// ---- types as they are written

/// The number of the first struct of a name.
pub fn number_of(structs: &[Struct], name: &[u8]) -> Option<usize>
    ensures { result ≡ types.number_of structs.now name.now }
{
    for (number, found) in structs.iter().enumerate() {
        if found.name.as_slice() == name {
            return Some(number);
        }
    }
    None
}

/// The number of a struct, which may be the one that is being defined.
pub fn known_number(structs: &[Struct], own: Option<&[u8]>, name: &[u8]) -> Option<usize>
    ensures { result ≡ types.known_number structs.now (option_copied own.entry) name.now }
{
    match number_of(structs, name) {
        Some(number) => Some(number),
        None => match own {
            None => None,
            Some(own) => {
                if own == name {
                    Some(structs.len())
                } else {
                    None
                }
            }
        },
    }
}

fn base_of_word(word: PlainType) -> Base
    ensures { result ≡ types.base_of_word word }
{
    match word {
        PlainType::Char => Base::Integer(IntegerType::Char),
        PlainType::Int => Base::Integer(IntegerType::Int),
        PlainType::Long => Base::Integer(IntegerType::Long),
        PlainType::Void => Base::Void,
        PlainType::Status => Base::Struct(0),
    }
}

fn base_of(structs: &[Struct], own: Option<&[u8]>, specifier: &TypeSpecifier) -> Base
    ensures { result ≡ types.base_of structs.now (option_copied own.entry) specifier.now }
{
    match specifier {
        TypeSpecifier::Plain { plain, .. } => base_of_word(*plain),
        TypeSpecifier::Struct { name, .. } => {
            match known_number(structs, own, name.bytes.as_slice()) {
                None => Base::Void,
                Some(number) => Base::Struct(number),
            }
        }
    }
}

/// The type of a specifier with so many stars, perhaps inside the struct of the name `own`.
pub fn type_of(
    structs: &[Struct],
    own: Option<&[u8]>,
    specifier: &TypeSpecifier,
    stars: usize,
) -> CType
    ensures { result ≡ types.type_of structs.now (option_copied own.entry) specifier.now stars }
{
    CType {
        base: base_of(structs, own, specifier),
        stars,
    }
}

/// The rules of a specifier.
pub fn note_specifier(
    breaches: &mut Vec<Breach>,
    structs: &[Struct],
    own: Option<&[u8]>,
    specifier: &TypeSpecifier,
) -> Result<(), AllocError>
    ensures { OnOk result (Notes breaches.old breaches.new (types.specifier_rules structs.now (option_copied own.entry) specifier.now)) }
{
    match specifier {
        TypeSpecifier::Plain { .. } => Ok(()),
        TypeSpecifier::Struct { name, .. } => {
            let known = known_number(structs, own, name.bytes.as_slice());
            rule(breaches, known.is_none(), Kind::UnknownName, name.at)
        }
    }
}

/// The specifier's first byte.
pub fn specifier_at(specifier: &TypeSpecifier) -> u32
    ensures { result ≡ types.specifier_at specifier.now }
{
    match specifier {
        TypeSpecifier::Plain { at, .. } => *at,
        TypeSpecifier::Struct { at, .. } => *at,
    }
}

// ---- kinds of types

fn is_number(base: Base) -> bool
    ensures { result ≡ types.is_number base }
{
    match base {
        Base::Integer(_) => true,
        Base::Void | Base::Struct(_) => false,
    }
}

fn is_void_base(base: Base) -> bool
    ensures { result ≡ types.is_void_base base }
{
    match base {
        Base::Void => true,
        Base::Integer(_) | Base::Struct(_) => false,
    }
}

fn is_struct_base(base: Base) -> bool
    ensures { result ≡ types.is_struct_base base }
{
    match base {
        Base::Struct(_) => true,
        Base::Integer(_) | Base::Void => false,
    }
}

pub fn is_pointer(c_type: CType) -> bool
    ensures { result ≡ types.is_pointer c_type }
{
    c_type.stars > 0
}

/// Whether its values are numbers.
pub fn is_integer(c_type: CType) -> bool
    ensures { result ≡ types.is_integer c_type }
{
    !is_pointer(c_type) && is_number(c_type.base)
}

/// Whether its values are numbers or pointers (C99 6.2.5).
pub fn is_scalar(c_type: CType) -> bool
    ensures { result ≡ types.is_scalar c_type }
{
    is_pointer(c_type) || is_number(c_type.base)
}

pub fn is_void(c_type: CType) -> bool
    ensures { result ≡ types.is_void c_type }
{
    !is_pointer(c_type) && is_void_base(c_type.base)
}

pub fn is_struct(c_type: CType) -> bool
    ensures { result ≡ types.is_struct c_type }
{
    !is_pointer(c_type) && is_struct_base(c_type.base)
}

/// Whether it is the type of `NULL`.
pub fn is_null(c_type: CType) -> bool
    ensures { result ≡ types.is_null c_type }
{
    is_pointer(c_type) && is_void_base(c_type.base)
}

/// Whether its values point to something.
pub fn is_target(c_type: CType) -> bool
    ensures { result ≡ types.is_target c_type }
{
    is_pointer(c_type) && !is_void_base(c_type.base)
}

/// The type of a pointer to it.
pub fn pointer_to(c_type: CType) -> CType
    ensures { result ≡ types.pointer_to c_type }
{
    CType {
        base: c_type.base,
        stars: c_type.stars.saturating_add(1),
    }
}

/// What a pointer points to.
pub fn target(c_type: CType) -> CType
    ensures { result ≡ types.target c_type }
{
    CType {
        base: c_type.base,
        stars: c_type.stars.saturating_sub(1),
    }
}

pub fn integer(kind: IntegerType) -> CType
    ensures { result ≡ types.integer kind }
{
    CType {
        base: Base::Integer(kind),
        stars: 0,
    }
}

/// The integer type that it is.
pub fn integer_of(c_type: CType) -> IntegerType
    ensures { result ≡ types.integer_of c_type }
{
    match c_type.base {
        Base::Integer(kind) => kind,
        Base::Void | Base::Struct(_) => IntegerType::Int,
    }
}

/// What a cell of the type is read as.
pub fn scalar_of(c_type: CType) -> Scalar
    ensures { result ≡ types.scalar_of c_type }
{
    if is_pointer(c_type) {
        Scalar::Pointer
    } else {
        Scalar::Number(integer_of(c_type))
    }
}

/// Whether no object is of it: void, a pointer to void, or what takes no room, by value a struct whose definition hasn't ended.
pub fn is_incomplete(structs: &[Struct], c_type: CType) -> bool
    ensures { result ≡ types.is_incomplete structs.now c_type }
{
    is_void_base(c_type.base) || element_cells(structs, c_type) == 0
}

// ---- equality

pub fn same_integer(a: IntegerType, b: IntegerType) -> bool
    ensures { result ≡ types.same_integer a b }
{
    match (a, b) {
        (IntegerType::Char, IntegerType::Char)
        | (IntegerType::Int, IntegerType::Int)
        | (IntegerType::Long, IntegerType::Long) => true,
        _ => false,
    }
}

fn same_base(a: Base, b: Base) -> bool
    ensures { result ≡ types.same_base a b }
{
    match (a, b) {
        (Base::Integer(a), Base::Integer(b)) => same_integer(a, b),
        (Base::Void, Base::Void) => true,
        (Base::Struct(a), Base::Struct(b)) => a == b,
        _ => false,
    }
}

pub fn same_type(a: CType, b: CType) -> bool
    ensures { result ≡ types.same_type a b }
{
    same_base(a.base, b.base) && a.stars == b.stars
}

/// Whether two lists of types are equal.
pub fn same_types(a: &[CType], b: &[CType]) -> bool
    ensures { result ≡ types.same_types a.now b.now }
{
    let mut rest = b;
    for t in a {
        match rest {
            [] => return false,
            [u, more @ ..] => {
                if !same_type(*t, *u) {
                    return false;
                }
                rest = more;
            }
        }
    }
    rest.is_empty()
}

// ---- objects

pub fn is_array_size(n: u64) -> bool
    ensures { result ≡ types.is_array_size n }
{
    0 < n && n <= 8192
}

/// How many cells an element of the type has.
pub fn element_cells(structs: &[Struct], c_type: CType) -> u32
    ensures { result ≡ types.element_cells structs.now c_type }
{
    extent_of(structs, c_type).cells
}

/// The cells of arrays of these sizes, the outermost first, of elements with so many each; none, where a size isn't 1 to 8,192 or there are more than 8,192 cells.
pub fn room(cells: u32, sizes: &[u64]) -> Option<u32>
    ensures { result ≡ types.room cells sizes.now }
{
    let mut all = cells;
    for n in sizes {
        if all > 8192 {
            return None;
        }
        if !is_array_size(*n) {
            return None;
        }
        all *= *n as u32;
    }
    if all > 8192 { None } else { Some(all) }
}

/// The type of one object.
pub fn one_object(alloc: Global, structs: &[Struct], element: CType) -> ObjectType
    ensures { result ≡ types.one_object structs.now element }
{
    ObjectType {
        element,
        sizes: Items::new(alloc),
        cells: element_cells(structs, element),
    }
}

/// The type of arrays of these sizes; where they are too large, of an object that takes no room.
pub fn object_type(
    alloc: Global,
    structs: &[Struct],
    element: CType,
    sizes: &[u64],
) -> Result<ObjectType, AllocError>
    ensures { IfOk result (λ kind. kind ≡ types.object_type structs.now element sizes.now) }
{
    match room(element_cells(structs, element), sizes) {
        None => Ok(ObjectType {
            element,
            sizes: Items::new(alloc),
            cells: 0,
        }),
        Some(cells) => Ok(ObjectType {
            element,
            sizes: narrowed(alloc, sizes)?,
            cells,
        }),
    }
}

// Sizes of at most 8,192.
fn narrowed(alloc: Global, sizes: &[u64]) -> Result<Items<u32>, AllocError>
    requires { All (λ n. n < 8193) sizes.now }
    ensures { IfOk result (λ narrow. narrow ≡ sizes.now) }
{
    let mut narrow = Items::new(alloc);
    for n in sizes {
        narrow.push(*n as u32)?;
    }
    Ok(narrow)
}

pub fn is_array(kind: &ObjectType) -> bool
    ensures { result ≡ types.is_array kind.now }
{
    !kind.sizes.is_empty()
}

/// The type of an array's element; a single object is its own.
pub fn element(alloc: Global, kind: &ObjectType) -> Result<ObjectType, AllocError>
    ensures { IfOk result (λ element. element ≡ types.element kind.now) }
{
    match kind.sizes.as_slice() {
        [] => kind.copy(alloc),
        [size, inner @ ..] => Ok(ObjectType {
            element: kind.element,
            sizes: Items::from_slice(alloc, inner)?,
            cells: kind.cells.checked_div(*size).unwrap_or(0),
        }),
    }
}

/// The type of an object's value (C99 6.3.2.1).
pub fn value_type(kind: &ObjectType) -> CType
    ensures { result ≡ types.value_type kind.now }
{
    match kind.sizes.as_slice() {
        [] => kind.element,
        [_] => pointer_to(kind.element),
        _ => CType {
            base: Base::Void,
            stars: 0,
        },
    }
}

// ---- MPI_Status

/// `MPI_Status`, which is the first struct.
pub fn status_type() -> CType
    ensures { result ≡ types.status_type }
{
    CType {
        base: Base::Struct(0),
        stars: 0,
    }
}

// An int, which begins at this cell.
fn status_member(alloc: Global, name: &[u8], place: u32) -> Result<Member, AllocError>
    ensures { IfOk result (λ member. member ≡ types.status_member name.now place) }
{
    Ok(Member {
        name: Items::from_slice(alloc, name)?,
        kind: ObjectType {
            element: integer(IntegerType::Int),
            sizes: Items::new(alloc),
            cells: 1,
        },
        place,
    })
}

// Two of the members have no names that a program may use (MPI 3.1 3.2.5).
fn status_members(alloc: Global) -> Result<Items<Member>, AllocError>
    ensures { IfOk result (λ members. members ≡ types.status_struct.members) }
{
    let mut members = Items::new(alloc);
    members.push(status_member(alloc, b"MPI_SOURCE", 0)?)?;
    members.push(status_member(alloc, b"MPI_TAG", 1)?)?;
    members.push(status_member(alloc, &[], 2)?)?;
    members.push(status_member(alloc, &[], 3)?)?;
    Ok(members)
}

fn status_struct(alloc: Global) -> Result<Struct, AllocError>
    ensures { IfOk result (λ status. status ≡ types.status_struct) }
{
    Ok(Struct {
        name: Items::from_slice(alloc, b"MPI_Status")?,
        members: status_members(alloc)?,
        extent: Extent { cells: 4, size: 16 },
    })
}

/// The structs that stand before those of a text.
pub fn first_structs(alloc: Global) -> Result<Items<Struct>, AllocError>
    ensures { IfOk result (λ structs. structs ≡ types.first_structs) }
{
    let mut structs = Items::new(alloc);
    structs.push(status_struct(alloc)?)?;
    Ok(structs)
}

// ---- conversions

/// The type at which a value computes (C99 6.3.1.1).
pub fn promoted(kind: IntegerType) -> IntegerType
    ensures { result ≡ types.promoted kind }
{
    match kind {
        IntegerType::Char | IntegerType::Int => IntegerType::Int,
        IntegerType::Long => IntegerType::Long,
    }
}

/// The type at which two operands meet (C99 6.3.1.8).
pub fn common(a: IntegerType, b: IntegerType) -> IntegerType
    ensures { result ≡ types.common a b }
{
    match a {
        IntegerType::Long => IntegerType::Long,
        IntegerType::Char | IntegerType::Int => promoted(b),
    }
}

/// What a value is converted to, where that changes its type.
pub fn change(to: IntegerType, from: IntegerType) -> Option<IntegerType>
    ensures { result ≡ types.change to from }
{
    if same_integer(to, from) {
        None
    } else {
        Some(to)
    }
}

/// A value of one type in another.
pub fn converted(
    alloc: Global,
    to: IntegerType,
    from: IntegerType,
    operand: Boxed<Expr>,
) -> Result<Boxed<Expr>, AllocError>
    ensures { IfOk result (λ e. e ≡ types.converted to from operand) }
{
    if same_integer(to, from) {
        Ok(operand)
    } else {
        Boxed::new(alloc, Expr::Convert { kind: to, operand })
    }
}
