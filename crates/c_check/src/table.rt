//! The functions that can be called.

ghost use Rattle.std.specs.Prelude.{◌≡◌, ◌<◌, ◌^◌, if◌then◌else◌, Some, None, IfOk, OnOk};
ghost use Rattle.std.specs.Str.{bytes_eq};
ghost use Rattle.c_rules.specs.Scope.{Bytes};
ghost use Rattle.c_rules.specs.Table.{called};
ghost use Rattle.c_rules.specs.Types as types;
ghost use Rattle.c_check.specs.Functions as functions;

use crate::heading::{is_sound, result_of, types_of};
use crate::structs::add_struct;
use c_kernel::Struct;
use c_rules::signature::Signature;
use c_rules::types::first_structs;
use c_tree::tree::{Heading, Item};
use indexmap::IndexMap;
use std::alloc::{AllocError, Global};

/// The functions of a program's items.
pub fn table(alloc: Global, items: &[Item]) -> Result<IndexMap<Vec<u8>, Signature>, AllocError>
    ensures { IfOk result (λ table. (name : Bytes) → called table.entries name ≡ functions.signatures types.first_structs 0 items.now name) }
{
    let mut table = IndexMap::new(alloc);
    let mut structs = first_structs(alloc)?;
    let mut number = 0;
    for item in items {
        add_item(alloc, &mut table, structs.as_slice(), number, item)?;
        number = next_number(number, item);
        add_struct(alloc, &mut structs, item)?;
    }
    Ok(table)
}

/// How many definitions stand before the next item, where so many stand before this one.
pub fn next_number(number: usize, item: &Item) -> usize
    requires { number < 2 ^ 63 }
    ensures { result ≡ functions.next_number number item.now }
{
    if is_definition(item) {
        number + 1
    } else {
        number
    }
}

// Adds what an item says.
fn add_item(
    alloc: Global,
    table: &mut IndexMap<Vec<u8>, Signature>,
    structs: &[Struct],
    number: usize,
    item: &Item,
) -> Result<(), AllocError>
    ensures { OnOk result ((name : Bytes) → called table.new.entries name ≡ functions.joined (called table.old.entries name) (functions.said_by structs.now number (functions.is_definition item.now) (functions.heading_in item.now) name)) }
{
    match item {
        Item::Include { .. } | Item::Struct { .. } => Ok(()),
        Item::Prototype(heading) => {
            let signature = signature_of(alloc, structs, number, false, heading)?;
            add_heading(alloc, table, heading, signature)
        }
        Item::Function { heading, .. } => {
            let signature = signature_of(alloc, structs, number, true, heading)?;
            add_heading(alloc, table, heading, signature)
        }
    }
}

fn signature_of(
    alloc: Global,
    structs: &[Struct],
    number: usize,
    defined: bool,
    heading: &Heading,
) -> Result<Signature, AllocError>
    ensures { IfOk result (λ signature. signature ≡ functions.signature_of structs.now number defined heading.now) }
{
    Ok(Signature {
        result: result_of(structs, heading),
        parameters: types_of(alloc, structs, heading)?,
        sound: is_sound(alloc, structs, defined, heading)?,
        number: defined.then_some(number),
    })
}

fn add_heading(
    alloc: Global,
    table: &mut IndexMap<Vec<u8>, Signature>,
    heading: &Heading,
    signature: Signature,
) -> Result<(), AllocError>
    ensures { OnOk result ((name : Bytes) → called table.new.entries name ≡ functions.joined (called table.old.entries name) (if bytes_eq heading.now.name.bytes name then Some signature else None)) }
{
    let name = Vec::from_slice(alloc, heading.name.bytes.as_slice())?;
    join(table, name, signature)
}

// The first header of a name gives the types, and the first definition the number.
fn join(
    table: &mut IndexMap<Vec<u8>, Signature>,
    name: Vec<u8>,
    later: Signature,
) -> Result<(), AllocError>
    ensures { OnOk result ((other : Bytes) → called table.new.entries other ≡ functions.joined (called table.old.entries other) (if bytes_eq name.items other then Some later else None)) }
{
    let number = later.number;
    let f = table.entry(name)?.or_insert(later);
    f.number = f.number.or(number);
    Ok(())
}

fn is_definition(item: &Item) -> bool
    ensures { result ≡ functions.is_definition item.now }
{
    match item {
        Item::Include { .. } | Item::Struct { .. } | Item::Prototype(_) => false,
        Item::Function { .. } => true,
    }
}
