//! Names and types.

ghost use Rattle.std.specs.Prelude.{◌≡◌, ◌++◌, IfOk, OnOk};
ghost use Rattle.flat_code.specs.Text.{base_text, declared, integer_text, name_of_function, name_of_member, name_of_struct, typed_name, variable_text};

use crate::code::FlatFunction;
use c_kernel::{Base, CType, IntegerType, ObjectType, Struct};
use c3_base::{NoMemory, append, append_number};
use std::alloc::Global;

/// The name of the variable with this number.
pub fn variable_name(alloc: Global, number: usize) -> Result<Vec<u8>, NoMemory>
    ensures { IfOk result (λ name. name.items ≡ variable_text number) }
{
    let mut name = Vec::new(alloc);
    put_variable_name(alloc, &mut name, number)?;
    Ok(name)
}

/// The same, at a text's end.
pub fn put_variable_name(alloc: Global, text: &mut Vec<u8>, number: usize) -> Result<(), NoMemory>
    ensures { OnOk result (text.new.items ≡ text.old.items ++ variable_text number) }
{
    append(text, b"v")?;
    append_number(alloc, text, number as u64)
}

/// The name of a function, or nothing where there is none.
pub fn function_name(functions: &[FlatFunction], number: usize) -> &[u8]
    ensures { result.now ≡ name_of_function functions.now number }
{
    match functions.get(number) {
        None => &[],
        Some(f) => f.name.as_slice(),
    }
}

/// The name of a struct's member, or nothing where there is none.
pub fn member_name(structs: &[Struct], structure: usize, member: usize) -> &[u8]
    ensures { result.now ≡ name_of_member structs.now structure member }
{
    match structs.get(structure) {
        None => &[],
        Some(s) => match s.members.as_slice().get(member) {
            None => &[],
            Some(m) => m.name.as_slice(),
        },
    }
}

fn struct_name(structs: &[Struct], number: usize) -> &[u8]
    ensures { result.now ≡ name_of_struct structs.now number }
{
    match structs.get(number) {
        None => &[],
        Some(s) => s.name.as_slice(),
    }
}

/// The word for an integer type.
pub fn integer_name(kind: IntegerType) -> &'static [u8]
    ensures { result.now ≡ integer_text kind }
{
    match kind {
        IntegerType::Char => b"char",
        IntegerType::Int => b"int",
        IntegerType::Long => b"long",
    }
}

fn put_base(text: &mut Vec<u8>, structs: &[Struct], base: Base) -> Result<(), NoMemory>
    ensures { OnOk result (text.new.items ≡ text.old.items ++ base_text structs.now base) }
{
    match base {
        Base::Integer(kind) => append(text, integer_name(kind)),
        Base::Void => append(text, b"void"),
        Base::Struct(0) => append(text, b"MPI_Status"),
        Base::Struct(number) => {
            append(text, b"struct ")?;
            append(text, struct_name(structs, number))
        }
    }
}

/// A name and its type, which is no array.
pub fn put_typed_name(
    text: &mut Vec<u8>,
    structs: &[Struct],
    kind: CType,
    name: &[u8],
) -> Result<(), NoMemory>
    ensures { OnOk result (text.new.items ≡ text.old.items ++ typed_name structs.now kind name.now) }
{
    put_base(text, structs, kind.base)?;
    append(text, b" ")?;
    for _ in 0..kind.stars {
        append(text, b"*")?;
    }
    append(text, name)
}

/// A name and its type, with an array's sizes.
pub fn put_declared(
    alloc: Global,
    text: &mut Vec<u8>,
    structs: &[Struct],
    kind: &ObjectType,
    name: &[u8],
) -> Result<(), NoMemory>
    ensures { OnOk result (text.new.items ≡ text.old.items ++ declared structs.now kind.now name.now) }
{
    put_typed_name(text, structs, kind.element, name)?;
    for size in kind.sizes.as_slice() {
        append(text, b"[")?;
        append_number(alloc, text, u64::from(*size))?;
        append(text, b"]")?;
    }
    Ok(())
}
