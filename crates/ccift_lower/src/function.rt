//! The code of functions and programs.

ghost use Rattle.std.specs.Prelude.{◌≡◌, IfOk, map};
ghost use Rattle.ccift_lower.specs.Lowered as spec;
ghost use Rattle.ccift_lower.specs.Lowered.{lowered, lowered_function};

use crate::emit::statements;
use crate::size::size_all;
use c_kernel::program::{Expr, Function, Program, Stmt};
use c_kernel::{Base, CType, copies_of_structs, copies_of_types};
use flat_code::{Code, FlatFunction, Instr, more};
use sqlite_items::Items;
use std::alloc::{AllocError, Global};

/// The code of a program. Its instructions are made in order, and each jump when its target is known from the sizes of what lies between.
pub fn lower(alloc: Global, program: &Program) -> Result<Code, AllocError>
    ensures { IfOk result (λ code. code ≡ lowered program.now) }
{
    Ok(Code {
        structs: copies_of_structs(alloc, program.structs.as_slice())?,
        functions: functions(alloc, program.functions.as_slice())?,
        main: program.main,
        any_source: program.any_source,
    })
}

fn functions(alloc: Global, functions: &[Function]) -> Result<Items<FlatFunction>, AllocError>
    ensures { IfOk result (λ flat. flat ≡ map lowered_function functions.now) }
{
    let mut flat = Items::new(alloc);
    for f in functions {
        flat.push(function(alloc, f)?)?;
    }
    Ok(flat)
}

fn function(alloc: Global, f: &Function) -> Result<FlatFunction, AllocError>
    ensures { IfOk result (λ flat. flat ≡ lowered_function f.now) }
{
    Ok(FlatFunction {
        name: Items::from_slice(alloc, f.name.as_slice())?,
        result: f.result,
        parameters: f.parameters,
        variables: copies_of_types(alloc, f.variables.as_slice())?,
        code: body(alloc, f.body.as_slice(), f.result)?,
    })
}

// A body, which counts as a statement, and the return at its end.
fn body(alloc: Global, ss: &[Stmt], kind: CType) -> Result<Items<Instr>, AllocError>
    ensures { IfOk result (λ code. code ≡ spec.body_code ss.now (spec.end_of kind)) }
{
    let end = more(1, size_all(ss)?)?;
    let mut code = Items::new(alloc);
    code.push(Instr::Step)?;
    statements(alloc, &mut code, ss, end, end)?;
    code.push(Instr::Return(end_of(kind)))?;
    Ok(code)
}

// What the end of a function gives: nothing, 0 or NULL.
fn end_of(kind: CType) -> Option<Expr>
    ensures { result ≡ spec.end_of kind }
{
    if kind.stars > 0 {
        return Some(Expr::Null);
    }
    match kind.base {
        Base::Integer(kind) => Some(Expr::Number { value: 0, kind }),
        Base::Void | Base::Struct(_) => None,
    }
}
