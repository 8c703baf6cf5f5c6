//! A machine that comes back through fifty calls, one instruction at a time.

ghost use Rattle.std.specs.Prelude.{◌≡◌, ◌*◌, ◌-◌, ◌≤◌, IfOk, None, is_some, true};
ghost use Rattle.flat_code.specs.Restart.{IsAtMark, Reenters, Restarting};
ghost use Rattle.rank_machine.specs.Returning.{restarting_of};
ghost use Rattle.rank_machine.specs.WellFormed.{IsWellFormed};

use crate::course::{Course, Halt, code_of};
use crate::states::assert_within;
use flat_code::Code;
use image_text::RankState;
use rank_image::breach;
use rank_machine::Machine;
use sqlite_items::Boxed;
use std::alloc::Global;
use std::process::Abort;
use std::rc::Rc;
use std::test::Fail;

/// An Enter in each call, and a Call between two. The mark is reached by the last of them and not before.
fn come_to_mark(rt: &impl Abort, machine: &mut Machine, calls: usize) -> Result<(), Fail>
    requires few { calls ≤ 8192 }
    requires mode { is_some machine.old.left ≡ true }
    requires leads { (t : Restarting) × Reenters machine.old.functions (2 * calls - 1) (restarting_of machine.old) t × IsAtMark machine.old.functions t.machine }
    ensures functions { machine.new.functions ≡ machine.old.functions }
    ensures there { IfOk result (λ done. Reenters machine.old.functions (2 * calls - 1) (restarting_of machine.old) (restarting_of machine.new)) }
    ensures left { is_some machine.new.left ≡ true }
{
    for k in 1..2 * calls {
        let at = machine.reenter()?;
        assert_eq!(rt; at, k + 1 == 2 * calls, "at the mark after {k}");
    }
    Ok(())
}

/// A machine that comes back along the sites of a state.
fn restarted(
    rt: &impl Abort,
    alloc: Global,
    code: &Rc<Code>,
    state: &RankState,
) -> Result<Machine, Fail>
    requires { IsWellFormed code.now.value state.now }
    ensures left { IfOk result (λ made. made.left ≡ None) }
{
    let sites = state.sites.as_slice();
    let mut machine = Machine::restarting(alloc, code, 0, 1, sites)?;
    come_to_mark(rt, &mut machine, sites.len())?;
    machine.finish_restart(state)?;
    Ok(machine)
}

/// A state that has no breach comes back, and goes to its end. What is printed is given.
fn printed(
    rt: &impl Abort,
    alloc: Global,
    code: &Rc<Code>,
    state: &RankState,
) -> Result<Vec<u8>, Fail> {
    assert_within(rt, state);
    if let Some(row) = breach(alloc, code, state)? {
        panic!(rt; "broken at its {row:?}");
    }
    let machine = restarted(rt, alloc, code, state)?;
    let mut course = Course::new(alloc, machine, 0);
    let asked = course.end_from(rt, alloc, "", state)?;
    assert!(rt; asked.ends_with("Exit(0)"));
    Ok(course.output)
}

/// The state at the first mark of a rank that is alone.
fn saved(rt: &impl Abort, alloc: Global, code: &Rc<Code>) -> Result<RankState, Fail> {
    let machine = Machine::new(alloc, code, 0, 1)?;
    let mut course = Course::new(alloc, machine, 0);
    assert_eq!(rt; course.go_on(rt, alloc, "")?, Halt::Mark);
    Ok(course.machine.state()?)
}

// A call of `down` from `main` is site 3, one from `down` site 2, and the mark site 1: 103 instructions lead through 52 of them.
#[test]
fn recursion_comes_back_call_by_call(rt: HostRuntime) -> Result<(), Fail> {
    let text =
        r#"int down(int n){int r=0;if(n==0){potentialCheckpoint();return 1;}r=down(n-1);return r+n;}int main(void){int s=down(50);printf("%d\n",s);return 0;}"#;
    let code = code_of(rt.alloc(), text.as_bytes())?;
    let state = Boxed::new(rt.alloc(), saved(&rt, rt.alloc(), &code)?)?;
    let mut sites = vec![in rt.alloc(); 2u32; 52]?;
    sites[0] = 3;
    sites[51] = 1;
    assert_eq!(rt; state.get().sites.as_slice(), sites.as_slice());
    let output = printed(&rt, rt.alloc(), &code, state.get())?;
    assert_eq!(rt; output.as_slice(), b"1276\n".as_slice());
    Ok(())
}
