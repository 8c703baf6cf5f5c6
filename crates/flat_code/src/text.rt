//! The text of code.

mod call;
mod expression;
mod instr;
mod labels;
mod types;

ghost use Rattle.std.specs.Prelude.{◌≡◌, ◌++◌, IfOk, OnOk, drop, flat_map};
ghost use Rattle.flat_code.specs.Text.{code_text, declared, declared_from, function_text, head_text, instr_text, is_target, lines_from, parameters_text, struct_line, variable_lines, variable_text};

use crate::code::{Code, FlatFunction, Instr};
use c_kernel::{ObjectType, Struct};
use c3_base::{NoMemory, append};
use instr::put_instr;
use labels::{is_labelled, labels, put_label_line};
use std::alloc::Global;
use types::{put_declared, put_typed_name, variable_name};

/// The text of code: a line for each struct that the program declares, and then each function, with a line for each variable that isn't a parameter and for each instruction.
pub fn print_c(alloc: Global, code: &Code) -> Result<Vec<u8>, NoMemory>
    ensures { IfOk result (λ text. text.items ≡ code_text code.now) }
{
    let mut text = Vec::new(alloc);
    let structs = code.structs.as_slice();
    let functions = code.functions.as_slice();
    put_structs(alloc, &mut text, structs)?;
    for f in functions {
        put_function(alloc, &mut text, structs, functions, f)?;
    }
    Ok(text)
}

// The first is `MPI_Status`, which isn't declared.
fn put_structs(alloc: Global, text: &mut Vec<u8>, structs: &[Struct]) -> Result<(), NoMemory>
    ensures { OnOk result (text.new.items ≡ text.old.items ++ flat_map (struct_line structs.now) (drop 1 structs.now)) }
{
    match structs {
        [] => Ok(()),
        [_, declared @ ..] => {
            for s in declared {
                put_struct(alloc, text, structs, s)?;
            }
            Ok(())
        }
    }
}

fn put_struct(
    alloc: Global,
    text: &mut Vec<u8>,
    structs: &[Struct],
    s: &Struct,
) -> Result<(), NoMemory>
    ensures { OnOk result (text.new.items ≡ text.old.items ++ struct_line structs.now s.now) }
{
    append(text, b"struct ")?;
    append(text, s.name.as_slice())?;
    append(text, b" { ")?;
    for m in s.members.as_slice() {
        put_declared(alloc, text, structs, &m.kind, m.name.as_slice())?;
        append(text, b"; ")?;
    }
    append(text, b"};\n")
}

fn put_function(
    alloc: Global,
    text: &mut Vec<u8>,
    structs: &[Struct],
    functions: &[FlatFunction],
    f: &FlatFunction,
) -> Result<(), NoMemory>
    ensures { OnOk result (text.new.items ≡ text.old.items ++ function_text structs.now functions.now f.now) }
{
    put_head(alloc, text, structs, f)?;
    put_variables(alloc, text, structs, f)?;
    put_lines(alloc, text, structs, functions, f.code.as_slice())?;
    append(text, b"}\n")
}

fn put_head(
    alloc: Global,
    text: &mut Vec<u8>,
    structs: &[Struct],
    f: &FlatFunction,
) -> Result<(), NoMemory>
    ensures { OnOk result (text.new.items ≡ text.old.items ++ head_text structs.now f.now) }
{
    let variables = f.variables.as_slice();
    let count = f.parameters.min(variables.len());
    put_typed_name(text, structs, f.result, f.name.as_slice())?;
    append(text, b"(")?;
    put_parameters(alloc, text, structs, &variables[..count])?;
    append(text, b") {\n")
}

fn put_parameters(
    alloc: Global,
    text: &mut Vec<u8>,
    structs: &[Struct],
    types: &[ObjectType],
) -> Result<(), NoMemory>
    ensures { OnOk result (text.new.items ≡ text.old.items ++ parameters_text (declared_from structs.now 0 types.now)) }
{
    match types {
        [] => append(text, b"void"),
        [first, ..] => {
            put_variable(alloc, text, structs, first, 0)?;
            for k in 1..types.len() {
                append(text, b", ")?;
                put_variable(alloc, text, structs, &types[k], k)?;
            }
            Ok(())
        }
    }
}

// The variables that aren't parameters.
fn put_variables(
    alloc: Global,
    text: &mut Vec<u8>,
    structs: &[Struct],
    f: &FlatFunction,
) -> Result<(), NoMemory>
    ensures { OnOk result (text.new.items ≡ text.old.items ++ variable_lines structs.now f.now) }
{
    let types = f.variables.as_slice();
    for k in f.parameters..types.len() {
        append(text, b"  ")?;
        put_variable(alloc, text, structs, &types[k], k)?;
        append(text, b";\n")?;
    }
    Ok(())
}

// A variable with this number.
fn put_variable(
    alloc: Global,
    text: &mut Vec<u8>,
    structs: &[Struct],
    kind: &ObjectType,
    number: usize,
) -> Result<(), NoMemory>
    ensures { OnOk result (text.new.items ≡ text.old.items ++ declared structs.now kind.now (variable_text number)) }
{
    let name = variable_name(alloc, number)?;
    put_declared(alloc, text, structs, kind, &name)
}

fn put_lines(
    alloc: Global,
    text: &mut Vec<u8>,
    structs: &[Struct],
    functions: &[FlatFunction],
    code: &[Instr],
) -> Result<(), NoMemory>
    ensures { OnOk result (text.new.items ≡ text.old.items ++ lines_from 0 (is_target code.now) (instr_text structs.now functions.now) code.now) }
{
    let labels = labels(alloc, code)?;
    for (place, i) in code.iter().enumerate() {
        put_label_line(alloc, text, is_labelled(&labels, place), place)?;
        append(text, b"  ")?;
        put_instr(alloc, text, structs, functions, i)?;
        append(text, b"\n")?;
    }
    Ok(())
}
