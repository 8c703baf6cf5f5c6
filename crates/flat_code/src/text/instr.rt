//! Instructions.

ghost use Rattle.std.specs.Prelude.{◌≡◌, ◌++◌, ◌∷◌, [], OnOk, codes, map};
ghost use Rattle.std.specs.Fmt.{decimal};
ghost use Rattle.flat_code.specs.Text.{call_text, instr_text, into_text, joined, label_text, separator, site_text, text_of, variable_texts};
ghost use Rattle.flat_code.specs.declared.code.Instr.TheVariants.{Enter, Return, Set, Zero};

use crate::code::{FlatFunction, Instr, Site};
use crate::text::call::{expression_text, put_call, put_mpi, put_print, texts};
use crate::text::expression::{put_expression, put_place};
use crate::text::labels::put_label;
use crate::text::types::{function_name, put_variable_name};
use c_kernel::Struct;
use c_kernel::program::{Expr, Place, Target};
use c3_base::{NoMemory, append, append_number};
use std::alloc::Global;

/// An instruction.
pub fn put_instr(
    alloc: Global,
    text: &mut Vec<u8>,
    structs: &[Struct],
    functions: &[FlatFunction],
    i: &Instr,
) -> Result<(), NoMemory>
    ensures { OnOk result (text.new.items ≡ text.old.items ++ instr_text structs.now functions.now i.now) }
{
    match i {
        Instr::Step => append(text, b"ccc_step();"),
        Instr::Zero(number) => put_zero(alloc, text, *number),
        Instr::Set { place, value } => put_set(alloc, text, structs, place, value),
        Instr::Call {
            into,
            function,
            arguments,
        } => {
            put_into(alloc, text, structs, into)?;
            let name = function_name(functions, *function);
            let arguments = texts(alloc, structs, arguments.as_slice())?;
            put_call(text, name, &arguments)
        }
        Instr::Malloc { place, bytes, .. } => {
            put_place(alloc, text, structs, place)?;
            append(text, b" = ")?;
            put_single(alloc, text, structs, b"malloc", bytes)
        }
        Instr::Free(pointer) => put_single(alloc, text, structs, b"free", pointer),
        Instr::Goto(to) => put_goto(alloc, text, *to),
        Instr::Unless { test, to } => {
            append(text, b"if (!")?;
            put_expression(alloc, text, structs, test)?;
            append(text, b") ")?;
            put_goto(alloc, text, *to)
        }
        Instr::Return(value) => put_return(alloc, text, structs, value),
        Instr::Mark(site) => put_site_call(alloc, text, b"ccc_mark(", *site),
        Instr::Push(site) => put_site_call(alloc, text, b"ccc_push(", *site),
        Instr::Pop => append(text, b"ccc_pop();"),
        Instr::Enter { variables, sites } => put_enter(alloc, text, *variables, sites.as_slice()),
        Instr::Leave => append(text, b"ccc_leave();"),
        Instr::Print { format, arguments } => {
            put_print(
                alloc,
                text,
                structs,
                format.as_slice(),
                arguments.as_slice(),
            )
        }
        Instr::Mpi(call) => put_mpi(alloc, text, structs, call),
    }
}

fn put_zero(alloc: Global, text: &mut Vec<u8>, number: usize) -> Result<(), NoMemory>
    ensures { OnOk result (text.new.items ≡ text.old.items ++ instr_text [] [] (Zero number)) }
{
    append(text, b"ccc_zero(")?;
    put_variable_name(alloc, text, number)?;
    append(text, b");")
}

fn put_set(
    alloc: Global,
    text: &mut Vec<u8>,
    structs: &[Struct],
    place: &Place<Expr>,
    value: &Expr,
) -> Result<(), NoMemory>
    ensures { OnOk result (text.new.items ≡ text.old.items ++ instr_text structs.now [] (Set place.now value.now)) }
{
    put_place(alloc, text, structs, place)?;
    append(text, b" = ")?;
    put_expression(alloc, text, structs, value)?;
    append(text, b";")
}

// Where a result goes.
fn put_into(
    alloc: Global,
    text: &mut Vec<u8>,
    structs: &[Struct],
    into: &Option<Target>,
) -> Result<(), NoMemory>
    ensures { OnOk result (text.new.items ≡ text.old.items ++ into_text structs.now into.now) }
{
    match into {
        None => Ok(()),
        Some(target) => {
            put_place(alloc, text, structs, &target.place)?;
            append(text, b" = ")
        }
    }
}

// A call with one argument.
fn put_single(
    alloc: Global,
    text: &mut Vec<u8>,
    structs: &[Struct],
    name: &[u8],
    e: &Expr,
) -> Result<(), NoMemory>
    ensures { OnOk result (text.new.items ≡ text.old.items ++ call_text name.now (text_of structs.now e.now ∷ [])) }
{
    let argument = expression_text(alloc, structs, e)?;
    put_call(text, name, &[argument])
}

fn put_goto(alloc: Global, text: &mut Vec<u8>, to: usize) -> Result<(), NoMemory>
    ensures { OnOk result (text.new.items ≡ text.old.items ++ codes "goto " ++ label_text to ++ codes ";") }
{
    append(text, b"goto ")?;
    put_label(alloc, text, to)?;
    append(text, b";")
}

fn put_return(
    alloc: Global,
    text: &mut Vec<u8>,
    structs: &[Struct],
    value: &Option<Expr>,
) -> Result<(), NoMemory>
    ensures { OnOk result (text.new.items ≡ text.old.items ++ instr_text structs.now [] (Return value.now)) }
{
    match value {
        None => append(text, b"return;"),
        Some(value) => {
            append(text, b"return ")?;
            put_expression(alloc, text, structs, value)?;
            append(text, b";")
        }
    }
}

// A call of one of c3's functions with a site.
fn put_site_call(alloc: Global, text: &mut Vec<u8>, front: &[u8], site: u32) -> Result<(), NoMemory>
    ensures { OnOk result (text.new.items ≡ text.old.items ++ front.now ++ decimal site ++ codes ");") }
{
    append(text, front)?;
    append_number(alloc, text, u64::from(site))?;
    append(text, b");")
}

fn put_enter(
    alloc: Global,
    text: &mut Vec<u8>,
    variables: usize,
    sites: &[Site],
) -> Result<(), NoMemory>
    ensures { OnOk result (text.new.items ≡ text.old.items ++ instr_text [] [] (Enter variables sites.now)) }
{
    append(text, b"ccc_enter(")?;
    put_variables(alloc, text, variables)?;
    append(text, b"; ")?;
    put_sites(alloc, text, sites)?;
    append(text, b");")
}

// The names of so many variables.
fn put_variables(alloc: Global, text: &mut Vec<u8>, count: usize) -> Result<(), NoMemory>
    ensures { OnOk result (text.new.items ≡ text.old.items ++ variable_texts count) }
{
    for k in 0..count {
        append(text, separator_before(k))?;
        put_variable_name(alloc, text, k)?;
    }
    Ok(())
}

fn separator_before(k: usize) -> &'static [u8]
    ensures { result.now ≡ separator k }
{
    if k == 0 { &[] } else { b", " }
}

fn put_sites(alloc: Global, text: &mut Vec<u8>, sites: &[Site]) -> Result<(), NoMemory>
    ensures { OnOk result (text.new.items ≡ text.old.items ++ joined (map site_text sites.now)) }
{
    match sites {
        [] => Ok(()),
        [first, more @ ..] => {
            put_site(alloc, text, *first)?;
            for site in more {
                append(text, b", ")?;
                put_site(alloc, text, *site)?;
            }
            Ok(())
        }
    }
}

fn put_site(alloc: Global, text: &mut Vec<u8>, site: Site) -> Result<(), NoMemory>
    ensures { OnOk result (text.new.items ≡ text.old.items ++ site_text site) }
{
    append_number(alloc, text, u64::from(site.number))?;
    append(text, b":")?;
    put_label(alloc, text, site.place)
}
