//! What single instructions are passed to.

ghost use Rattle.std.specs.Prelude.{◌≡◌, ◌++◌, ◌∷◌, [], OnOk};
ghost use Rattle.flat_code.specs.declared.code.Instr.TheVariants as instr;
ghost use Rattle.ccift_pass.specs.Passed as spec;

use crate::targets::target;
use flat_code::Instr;
use sqlite_items::Items;
use std::alloc::{AllocError, Global};

/// Adds what an instruction is passed to, whose call or mark has this site.
pub fn put(
    alloc: Global,
    passed: &mut Items<Instr>,
    i: &Instr,
    targets: &[usize],
    site: u32,
) -> Result<(), AllocError>
    ensures { OnOk result (passed.new ≡ passed.old ++ spec.passes (spec.target_in targets.now) site i.now) }
{
    match i {
        Instr::Call { .. } => put_site(passed, site, i.copy(alloc)?),
        Instr::Mark(_) => put_site(passed, site, Instr::Mark(site)),
        Instr::Return(_) => {
            passed.push(Instr::Leave)?;
            passed.push(i.copy(alloc)?)
        }
        Instr::Goto(to) => passed.push(Instr::Goto(target(targets, *to))),
        Instr::Unless { test, to } => {
            let test = test.copy(alloc)?;
            let to = target(targets, *to);
            passed.push(Instr::Unless { test, to })
        }
        _ => passed.push(i.copy(alloc)?),
    }
}

// A call or a mark, between `Push` and `Pop`.
fn put_site(passed: &mut Items<Instr>, site: u32, i: Instr) -> Result<(), AllocError>
    ensures { OnOk result (passed.new ≡ passed.old ++ instr.Push site ∷ i ∷ instr.Pop ∷ []) }
{
    passed.push(Instr::Push(site))?;
    passed.push(i)?;
    passed.push(Instr::Pop)
}
