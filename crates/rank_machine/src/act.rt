//! One instruction.

ghost use Rattle.std.specs.Prelude.{◌≡◌, ◌∷◌, ◌<◌, ◌^◌, [], IfOk, List, Some, None, slice_get, true};
ghost use Rattle.std.specs.Option.{option_copied};
ghost use Rattle.flat_code.specs.declared.code.FlatFunction as flat;
ghost use Rattle.flat_code.specs.declared.code.Instr.TheVariants.{Step, Return};
ghost use Rattle.flat_code.specs.Machine.{awaited, instr_at, target_in};
ghost use Rattle.flat_code.specs.Machine as machine;
ghost use Rattle.rank_machine.specs.Placing.{is_step};
ghost use Rattle.rank_machine.specs.Returning.{is_mark};
ghost use Rattle.rank_machine.specs.State.{does, frame_of, goes_back, in_call, laid_by_next, laid_of, is_on, outcome_by, works};

use crate::frame::{Frame, after};
use crate::parts::{Change, Parts};
use c_kernel::program::Target;
use c_memory::number;
use c_values::value::read;
use c3_base::{Cell, NoMemory};
use flat_code::{FlatFunction, Instr};
use mpi_effects::Request;
use mpi_words::{End, Op};

/// Whether a call begins a statement. A function that isn't there begins one, and returns.
#[tactic(auto, using(crate::proofs::Nothing::begins_nothing))]
pub fn begins(functions: &[FlatFunction], frame: &Frame) -> bool
    ensures { result ≡ is_step (instr_at functions.now (frame_of frame.now)) }
{
    match functions.get(frame.function) {
        None => frame.place == 0,
        Some(f) => is_step(f.code.get(frame.place)),
    }
}

fn is_step(next: Option<&Instr>) -> bool
    ensures { result ≡ is_step (option_copied next.entry) }
{
    matches!(next, Some(Instr::Step))
}

/// Whether a call stands at a mark.
#[tactic(auto, using(crate::proofs::Nothing::marks_nothing))]
pub fn marks(functions: &[FlatFunction], frame: &Frame) -> bool
    ensures { result ≡ is_mark (instr_at functions.now (frame_of frame.now)) }
{
    match functions.get(frame.function) {
        None => false,
        Some(f) => is_mark(f.code.get(frame.place)),
    }
}

fn is_mark(next: Option<&Instr>) -> bool
    ensures { result ≡ is_mark (option_copied next.entry) }
{
    matches!(next, Some(Instr::Mark(_)))
}

// Where the result goes that comes back to a call.
#[tactic(auto, using(crate::proofs::Nothing::target_nothing))]
fn target<'a>(functions: &'a [FlatFunction], frame: &Frame) -> Option<&'a Target>
    ensures { option_copied result ≡ target_in (instr_at functions.now (frame_of frame.now)) }
{
    match functions.get(frame.function) {
        None => None,
        Some(f) => target_of(f.code.get(frame.place)),
    }
}

fn target_of(next: Option<&Instr>) -> Option<&Target>
    ensures { option_copied result ≡ target_in (option_copied next.entry) }
{
    match next {
        Some(Instr::Call { into, .. }) => into.as_ref(),
        _ => None,
    }
}

impl Parts {
    /// The newest call goes on.
    pub fn go_on(
        &mut self,
        functions: &[FlatFunction],
        frame: &mut Frame,
    ) -> Result<Change, NoMemory>
        requires { self.old.world.memory.memory.next < 2 ^ 62 }
        ensures outcome { IfOk result (λ did. (below : List machine.Frame) → outcome_by functions.now did self.new frame.new below ≡ does functions.now self.old frame.old below (instr_at functions.now (frame_of frame.old))) }
        ensures laid { IfOk result (λ did. is_on did ≡ true → laid_of self.new ≡ laid_by_next self.old frame.old (instr_at functions.now (frame_of frame.old))) }
    {
        match functions.get(frame.function) {
            None => self.do_nothing(frame),
            Some(f) => self.act_at(functions, frame, f.code.get(frame.place)),
        }
    }

    // A function that isn't there begins a statement, and returns.
    #[tactic(auto, using(crate::proofs::Nothing::ends_nothing))]
    fn do_nothing(&self, frame: &mut Frame) -> Result<Change, NoMemory>
        ensures outcome { IfOk result (λ did. (functions : List flat.FlatFunction) → (below : List machine.Frame) → outcome_by functions did self.now frame.new below ≡ does functions self.now frame.old below (slice_get (Step ∷ Return None ∷ []) frame.old.place)) }
        ensures laid { laid_of self.now ≡ laid_by_next self.now frame.old (slice_get (Step ∷ Return None ∷ []) frame.old.place) }
    {
        match frame.place {
            0 => {
                frame.place = 1;
                Ok(Change::Goes { began: true })
            }
            1 => Ok(Change::Returns(number(0))),
            _ => Ok(Change::Ends(End::Exit(0))),
        }
    }

    // An instruction, or the end of the code.
    fn act_at(
        &mut self,
        functions: &[FlatFunction],
        frame: &mut Frame,
        next: Option<&Instr>,
    ) -> Result<Change, NoMemory>
        requires { self.old.world.memory.memory.next < 2 ^ 62 }
        ensures outcome { IfOk result (λ did. (below : List machine.Frame) → outcome_by functions.now did self.new frame.new below ≡ does functions.now self.old frame.old below (option_copied next.entry)) }
        ensures laid { IfOk result (λ did. is_on did ≡ true → laid_of self.new ≡ laid_by_next self.old frame.old (option_copied next.entry)) }
    {
        match next {
            None => Ok(Change::Ends(End::Exit(0))),
            Some(x) => self.act(functions, frame, x),
        }
    }

    fn act(
        &mut self,
        functions: &[FlatFunction],
        frame: &mut Frame,
        x: &Instr,
    ) -> Result<Change, NoMemory>
        requires { self.old.world.memory.memory.next < 2 ^ 62 }
        ensures outcome { IfOk result (λ did. (below : List machine.Frame) → outcome_by functions.now did self.new frame.new below ≡ does functions.now self.old frame.old below (Some x.now)) }
        ensures laid { IfOk result (λ did. is_on did ≡ true → laid_of self.new ≡ laid_by_next self.old frame.old (Some x.now)) }
    {
        match x {
            Instr::Step => self.begin(frame),
            Instr::Goto(to) => self.go_to(frame, *to),
            Instr::Unless { test, to } => self.unless(frame, test, *to),
            Instr::Call {
                function,
                arguments,
                ..
            } => self.call(functions, frame, *function, arguments.as_slice()),
            Instr::Return(None) => Ok(Change::Returns(number(0))),
            Instr::Return(Some(e)) => self.give_back(frame, e),
            Instr::Push(site) => self.push_site(frame, *site),
            Instr::Pop => self.pop_site(frame),
            Instr::Enter { .. } => self.describe(frame),
            Instr::Leave => self.forget(frame),
            _ => self.work(frame, x),
        }
    }

    // Memory, output and MPI.
    fn work(&mut self, frame: &mut Frame, x: &Instr) -> Result<Change, NoMemory>
        requires few { self.old.world.memory.memory.next < 2 ^ 62 }
        requires works { works x.now ≡ true }
        ensures outcome { IfOk result (λ did. (functions : List flat.FlatFunction) → (below : List machine.Frame) → outcome_by functions did self.new frame.new below ≡ does functions self.old frame.old below (Some x.now)) }
        ensures laid { IfOk result (λ did. is_on did ≡ true → laid_of self.new ≡ laid_by_next self.old frame.old (Some x.now)) }
    {
        match x {
            Instr::Zero(k) => self.zero(frame, *k),
            Instr::Set { place, value } => self.set(frame, place, value),
            Instr::Malloc { place, bytes, each } => self.malloc(frame, place, bytes, *each),
            Instr::Free(e) => self.free(frame, e),
            Instr::Mark(_) => self.ask(frame, Request::plain(Op::Mark)),
            Instr::Print { format, arguments } => {
                self.print(frame, format.as_slice(), arguments.as_slice())
            }
            Instr::Mpi(call) => self.call_mpi(frame, call),
            _ => unreachable!(),
        }
    }

    /// A result comes back to the call that waits.
    pub fn come_back(
        &mut self,
        functions: &[FlatFunction],
        caller: &mut Frame,
        v: Cell,
    ) -> Result<Result<(), u16>, NoMemory>
        ensures outcome { IfOk result (λ did. (below : List machine.Frame) → goes_back did self.new caller.new below ≡ in_call awaited self.old caller.old below (target_in (instr_at functions.now (frame_of caller.old))) v) }
        ensures laid { laid_of self.new ≡ laid_of self.old }
    {
        match target(functions, caller) {
            None => {
                caller.place = after(caller.place)?;
                Ok(Ok(()))
            }
            Some(target) => self.receive(caller, target, v),
        }
    }

    fn receive(
        &mut self,
        caller: &mut Frame,
        target: &Target,
        v: Cell,
    ) -> Result<Result<(), u16>, NoMemory>
        ensures outcome { IfOk result (λ did. (below : List machine.Frame) → goes_back did self.new caller.new below ≡ in_call awaited self.old caller.old below (Some target.now) v) }
        ensures laid { laid_of self.new ≡ laid_of self.old }
    {
        let v = read(target.kind, v);
        match self.world.store(&caller.variables, &target.place, v) {
            Err(code) => Ok(Err(code)),
            Ok(()) => {
                caller.place = after(caller.place)?;
                Ok(Ok(()))
            }
        }
    }
}
