//! Machines that come back.

ghost use Rattle.std.specs.Prelude.{◌≡◌, ◌*◌, ◌-◌, ◌≤◌, IfErr, IfOk, None, OnOk, is_some, length, true};
ghost use Rattle.flat_code.specs.Restart.{IsAtMark, Reenters, Restarting, put_back, restarting};
ghost use Rattle.rank_machine.specs.Returning.{restarting_of};
ghost use Rattle.rank_machine.specs.Saving.{saved_by, state_of};
ghost use Rattle.rank_machine.specs.WellFormed.{IsWellFormed};
ghost use Rattle.rank_image.specs.Breach.{IsFault, IsWithinLimits};

use crate::fault::RestoreFault;
use crate::rows::breach;
use c3_base::NoMemory;
use flat_code::Code;
use image_text::RankState;
use rank_machine::Machine;
use std::alloc::Global;
use std::rc::Rc;

/// The machine that was saved, behind its mark.
pub fn restore(
    alloc: Global,
    code: &Rc<Code>,
    rank: u16,
    ranks: u16,
    state: &RankState,
) -> Result<Machine, RestoreFault>
    requires { IsWithinLimits state.now }
    ensures fault { IfErr result (λ fault. IsFault code.now.value state.now fault) }
    ensures formed { OnOk result (IsWellFormed code.now.value state.now) }
    ensures functions { IfOk result (λ made. made.functions ≡ code.now.value.functions) }
    ensures machine { IfOk result (λ made. (t : Restarting) → Reenters code.now.value.functions (2 * length state.now.sites - 1) (restarting code.now.value rank ranks state.now.sites) t → made.placing.machine ≡ put_back (saved_by state.now) t) }
    ensures state { IfOk result (λ made. state_of made ≡ state.now) }
    ensures end { IfOk result (λ made. made.end ≡ None) }
    ensures left { IfOk result (λ made. made.left ≡ None) }
{
    if let Some(field) = breach(alloc, code, state)? {
        return Err(RestoreFault::BadImage { field });
    }
    Ok(comes_back(alloc, code, rank, ranks, state)?)
}

fn comes_back(
    alloc: Global,
    code: &Rc<Code>,
    rank: u16,
    ranks: u16,
    state: &RankState,
) -> Result<Machine, NoMemory>
    requires { IsWellFormed code.now.value state.now }
    ensures functions { IfOk result (λ made. made.functions ≡ code.now.value.functions) }
    ensures machine { IfOk result (λ made. (t : Restarting) → Reenters code.now.value.functions (2 * length state.now.sites - 1) (restarting code.now.value rank ranks state.now.sites) t → made.placing.machine ≡ put_back (saved_by state.now) t) }
    ensures state { IfOk result (λ made. state_of made ≡ state.now) }
    ensures end { IfOk result (λ made. made.end ≡ None) }
    ensures left { IfOk result (λ made. made.left ≡ None) }
{
    let sites = state.sites.as_slice();
    let mut machine = Machine::restarting(alloc, code, rank, ranks, sites)?;
    come_to_mark(&mut machine, sites.len())?;
    machine.finish_restart(state)?;
    Ok(machine)
}

// An Enter in each call, and a Call between two.
fn come_to_mark(machine: &mut Machine, calls: usize) -> Result<(), NoMemory>
    requires few { calls ≤ 8192 }
    requires mode { is_some machine.old.left ≡ true }
    requires leads { (t : Restarting) × Reenters machine.old.functions (2 * calls - 1) (restarting_of machine.old) t × IsAtMark machine.old.functions t.machine }
    ensures functions { machine.new.functions ≡ machine.old.functions }
    ensures there { IfOk result (λ done. Reenters machine.old.functions (2 * calls - 1) (restarting_of machine.old) (restarting_of machine.new)) }
    ensures end { machine.new.end ≡ machine.old.end }
    ensures left { is_some machine.new.left ≡ true }
{
    for _ in 1..2 * calls {
        machine.reenter()?;
    }
    Ok(())
}
