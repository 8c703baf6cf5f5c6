//! What functions and programs are passed to.

ghost use Rattle.std.specs.Prelude.{◌≡◌, ◌+◌, ◌++◌, IfOk, OnOk};
ghost use Rattle.ccift_pass.specs.Passed as spec;
ghost use Rattle.ccift_pass.specs.Passed.{passed};

use crate::instr::put;
use crate::sites::{next_site, site_places};
use crate::targets::table;
use c_kernel::{copies_of_structs, copies_of_types};
use flat_code::{Code, FlatFunction, Instr};
use sqlite_items::Items;
use std::alloc::{AllocError, Global};

/// The code that saves and restores where it stands.
pub fn pass(alloc: Global, code: &Code) -> Result<Code, AllocError>
    ensures { IfOk result (λ made. made ≡ passed code.now) }
{
    Ok(Code {
        structs: copies_of_structs(alloc, code.structs.as_slice())?,
        functions: functions(alloc, code.functions.as_slice())?,
        main: code.main,
        any_source: code.any_source,
    })
}

// The functions, with sites from 1 on.
fn functions(alloc: Global, functions: &[FlatFunction]) -> Result<Items<FlatFunction>, AllocError>
    ensures { IfOk result (λ made. made ≡ spec.passed_from 1 functions.now) }
{
    let mut made = Items::new(alloc);
    let mut site: u32 = 1;
    for f in functions {
        made.push(function(alloc, f, site)?)?;
        site = sites_after(site, f.code.as_slice())?;
    }
    Ok(made)
}

fn function(alloc: Global, f: &FlatFunction, site: u32) -> Result<FlatFunction, AllocError>
    ensures { IfOk result (λ made. made ≡ spec.passed_function site f.now) }
{
    Ok(FlatFunction {
        name: Items::from_slice(alloc, f.name.as_slice())?,
        result: f.result,
        parameters: f.parameters,
        variables: copies_of_types(alloc, f.variables.as_slice())?,
        code: body(alloc, f.variables.len(), f.code.as_slice(), site)?,
    })
}

// The code of a function with so many variables.
fn body(
    alloc: Global,
    variables: usize,
    code: &[Instr],
    site: u32,
) -> Result<Items<Instr>, AllocError>
    ensures { IfOk result (λ made. made ≡ spec.passed_code variables site code.now) }
{
    let sites = site_places(alloc, code, site)?;
    let mut made = Items::new(alloc);
    made.push(Instr::Enter { variables, sites })?;
    put_all(alloc, &mut made, code, site)?;
    Ok(made)
}

#[tactic(auto, using(crate::proofs::Table::table_moves))]
fn put_all(
    alloc: Global,
    made: &mut Items<Instr>,
    code: &[Instr],
    first: u32,
) -> Result<(), AllocError>
    ensures { OnOk result (made.new ≡ made.old ++ spec.all_passed (spec.moved code.now) first code.now) }
{
    let targets = table(alloc, code)?;
    put_each(alloc, made, code, &targets, first)
}

fn put_each(
    alloc: Global,
    made: &mut Items<Instr>,
    code: &[Instr],
    targets: &[usize],
    first: u32,
) -> Result<(), AllocError>
    ensures { OnOk result (made.new ≡ made.old ++ spec.all_passed (spec.target_in targets.now) first code.now) }
{
    let mut site = first;
    for i in code {
        put(alloc, made, i, targets, site)?;
        site = next_site(site, i)?;
    }
    Ok(())
}

// The first site after a function's.
fn sites_after(first: u32, code: &[Instr]) -> Result<u32, AllocError>
    ensures { IfOk result (λ site. site ≡ first + spec.sites_in code.now) }
{
    let mut site = first;
    for i in code {
        site = next_site(site, i)?;
    }
    Ok(site)
}
