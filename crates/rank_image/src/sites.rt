//! Where sites lead.

ghost use Rattle.std.specs.Prelude.{◌≡◌, IfOk, map, option_copied, option_map};
ghost use Rattle.flat_code.specs.Machine.{lengths_in};
ghost use Rattle.rank_image.specs.Along.{spans_seen, spans_along, way_at, way_by, way_from, way_in};
ghost use Rattle.rank_image.specs.declared.sites.Way.TheVariants.{Into};

use crate::spans::{Span, Stack};
use c_kernel::ObjectType;
use c3_base::NoMemory;
use flat_code::{Code, FlatFunction, Instr};
use rank_machine::place_named;
use std::alloc::Global;

/// Where a site leads.
#[derive(Clone, Copy)]
pub enum Way {
    Nowhere,
    /// Through a call, into the function with this number.
    Into(usize),
    ToMark,
}

/// The spans of the variables of the calls that sites lead through, from `main` to a mark. None where they don't lead to one, or the stack has no room for the frames.
pub fn spans_along(alloc: Global, code: &Code, sites: &[u32]) -> Result<Option<Vec<Span>>, NoMemory>
    ensures { IfOk result (λ found. option_map (λ spans. spans_seen spans.items) found ≡ spans_along code.now.functions 0 (Into code.now.main) sites.now) }
{
    let functions = code.functions.as_slice();
    let mut stack = Stack::new(alloc);
    let mut way = Way::Into(code.main);
    for site in sites {
        let function = match way {
            Way::Into(function) => function,
            Way::Nowhere => return Ok(None),
            Way::ToMark => return Ok(None),
        };
        if !stack.enter(variables_of(functions, function))? {
            return Ok(None);
        }
        way = way_from(functions, function, *site);
    }
    match way {
        Way::ToMark => Ok(Some(stack.spans)),
        _ => Ok(None),
    }
}

fn variables_of(functions: &[FlatFunction], function: usize) -> &[ObjectType]
    ensures { map (λ t. t.cells) result.now ≡ lengths_in functions.now function }
{
    match functions.get(function) {
        None => &[],
        Some(f) => f.variables.as_slice(),
    }
}

fn way_from(functions: &[FlatFunction], function: usize, site: u32) -> Way
    ensures { result ≡ way_from functions.now function site }
{
    match functions.get(function) {
        None => Way::Nowhere,
        Some(f) => way_in(f.code.as_slice(), site),
    }
}

fn way_in(code: &[Instr], site: u32) -> Way
    ensures { result ≡ way_in code.now site }
{
    match code.get(0) {
        Some(Instr::Enter { sites, .. }) => way_at(code, place_named(sites.as_slice(), site)),
        _ => Way::Nowhere,
    }
}

fn way_at(code: &[Instr], place: Option<usize>) -> Way
    ensures { result ≡ way_at code.now place }
{
    match place {
        None => Way::Nowhere,
        Some(place) => way_by(code.get(place)),
    }
}

fn way_by(next: Option<&Instr>) -> Way
    ensures { result ≡ way_by (option_copied next.entry) }
{
    match next {
        Some(Instr::Call { function, .. }) => Way::Into(*function),
        Some(Instr::Mark(_)) => Way::ToMark,
        _ => Way::Nowhere,
    }
}
