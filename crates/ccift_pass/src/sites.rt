//! The sites of a function.

ghost use Rattle.std.specs.Prelude.{◌≡◌, ◌+◌, IfOk};
ghost use Rattle.ccift_pass.specs.Passed as spec;

use crate::targets::width;
use flat_code::{Instr, Site, more};
use sqlite_items::Items;
use std::alloc::{AllocError, Global};

/// How many sites an instruction has: one for a call or a mark.
pub fn sites(i: &Instr) -> u32
    ensures { result ≡ spec.sites i.now }
{
    match i {
        Instr::Call { .. } | Instr::Mark(_) => 1,
        _ => 0,
    }
}

/// The site after these, unless there are too many to count.
pub fn next_site(site: u32, i: &Instr) -> Result<u32, AllocError>
    ensures { IfOk result (λ next. next ≡ site + spec.sites i.now) }
{
    match site.checked_add(sites(i)) {
        None => Err(AllocError),
        Some(next) => Ok(next),
    }
}

/// The sites of a function's code, from a number on, each with the place of its call or mark.
pub fn site_places(alloc: Global, code: &[Instr], first: u32) -> Result<Items<Site>, AllocError>
    ensures { IfOk result (λ found. found ≡ spec.site_places 1 first code.now) }
{
    let mut found = Items::new(alloc);
    let mut place: usize = 1;
    let mut number = first;
    for i in code {
        if sites(i) > 0 {
            let place = more(place, 1)?;
            found.push(Site { number, place })?;
        }
        place = more(place, width(i))?;
        number = next_site(number, i)?;
    }
    Ok(found)
}
