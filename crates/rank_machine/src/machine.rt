//! A machine that runs a program's code.

ghost use Rattle.std.specs.Prelude.{◌≡◌, ℕ, [], IfOk, None, Some, if◌then◌else◌, is_some, map, reverse, true};
ghost use Rattle.mpi_words.specs.declared.operation.End as ends;
ghost use Rattle.mpi_words.specs.declared.operation.Want.TheVariants.{Ended};
ghost use Rattle.flat_code.specs.declared.code.Code as code;
ghost use Rattle.flat_code.specs.Machine.{answered, seat_of, start};
ghost use Rattle.flat_code.specs.Restart.{IsAtMark, LeadsTo, put_back, reenter, restarting};
ghost use Rattle.rank_machine.specs.Placing.{IsTurn, act_of, end_by, end_in, laid, laid_in};
ghost use Rattle.rank_machine.specs.Returning.{IsReturning, is_at_mark, restarting_of};
ghost use Rattle.rank_machine.specs.Running.{state_of};
ghost use Rattle.rank_machine.specs.Saving as spec;
ghost use Rattle.rank_machine.specs.Saving.{block_of, saved_by};
ghost use Rattle.rank_machine.specs.WellFormed.{IsFor};
ghost use Rattle.rank_machine.specs.State.{answer_of, laid_of};
ghost use Rattle.rank_machine.specs.Turning.{most_steps, turned_in};

use crate::control::reserve;
use crate::memory::PlacedMemory;
use crate::parts::Parts;
use crate::running::Running;
use c3_base::NoMemory;
use flat_code::{Code, FlatFunction};
use image_text::RankState;
use mpi_effects::{Requests, Seat, World};
use mpi_words::{End, Reply, Want};
use position_stack::PositionStack;
use std::alloc::Global;
use std::marker::Model;
use std::rc::Rc;
use variable_stack::VariableStack;

/// A machine: its code and the run of it. After want of memory it is not used further.
#[derive(Drop)]
pub struct Machine {
    code: Rc<Code>,
    running: Running,
    /// Whether it is in restart mode, in which no operation waits.
    restarting: bool,
    /// How many collective calls it has begun.
    calls: u64,
}

impl Model for Machine {
    ghost use Rattle.std.specs.Prelude.{◌≡◌, if◌then◌else◌, Some, None, true};
    ghost use Rattle.std.specs.Coded.{codes};
    ghost use Rattle.c_kernel.specs.contracts.program.Expr as expressions;
    ghost use Rattle.rank_machine.specs.Placing.{Standing};
    ghost use Rattle.rank_machine.specs.Running.{placing_of};
    ghost use Rattle.rank_machine.specs.State.{left_of};

    ghost Value = { Standing };

    ghost coded = { Prim.hlevel (codes, expressions.the_row.coded) };

    ghost view = { λ m. record { functions = m.code.value.functions; placing = placing_of m.running; end = m.running.end; left = if m.restarting then Some (left_of m.running.parts) else None; begun = m.calls } };

    ghost invariant = { λ m. m.restarting ≡ true → m.running.parts.world.requests.asked ≡ None };
}

impl Machine {
    /// The machine of a rank, of so many, that enters `main`.
    pub fn new(alloc: Global, code: &Rc<Code>, rank: u16, ranks: u16) -> Result<Machine, NoMemory>
        ensures functions { IfOk result (λ made. made.functions ≡ code.now.value.functions) }
        ensures start { IfOk result (λ made. made.placing.machine ≡ start code.now.value rank ranks) }
        ensures stack { IfOk result (λ made. made.placing.stack ≡ []) }
        ensures heap { IfOk result (λ made. made.placing.heap ≡ []) }
        ensures end { IfOk result (λ made. made.end ≡ None) }
        ensures left { IfOk result (λ made. made.left ≡ None) }
        ensures begun { IfOk result (λ made. made.begun ≡ 0) }
    {
        let code = code.clone()?;
        let seat = Seat {
            rank,
            ranks,
            any_source: code.any_source,
        };
        let running = started(alloc, code.functions.as_slice(), code.main, seat)?;
        Ok(Machine {
            code,
            running,
            restarting: false,
            calls: 0,
        })
    }

    /// In restart mode before `main`'s Enter, with these sites, `main`'s first.
    pub fn restarting(
        alloc: Global,
        code: &Rc<Code>,
        rank: u16,
        ranks: u16,
        sites: &[u32],
    ) -> Result<Machine, NoMemory>
        requires leads { LeadsTo code.now.value sites.now }
        ensures functions { IfOk result (λ made. made.functions ≡ code.now.value.functions) }
        ensures machine { IfOk result (λ made. made.placing.machine ≡ (restarting code.now.value rank ranks sites.now).machine) }
        ensures stack { IfOk result (λ made. made.placing.stack ≡ []) }
        ensures heap { IfOk result (λ made. made.placing.heap ≡ []) }
        ensures end { IfOk result (λ made. made.end ≡ None) }
        ensures left { IfOk result (λ made. made.left ≡ Some sites.now) }
        ensures begun { IfOk result (λ made. made.begun ≡ 0) }
    {
        let mut machine = Machine::new(alloc, code, rank, ranks)?;
        machine.running.parts.sites = PositionStack::of(Vec::from_slice(alloc, sites)?);
        machine.restarting = true;
        Ok(machine)
    }

    /// Steps up to an operation, an end, or a statement that may not begin any more, since so many have begun. Without an answer an operation is wanted again.
    pub fn turn(&mut self, limit: u32) -> Result<Want, NoMemory>
        requires { self.old.left ≡ None }
        ensures functions { self.new.functions ≡ self.old.functions }
        ensures turn { IfOk result (λ want. self.old.end ≡ None → IsTurn self.old.functions limit self.old.placing want self.new.placing) }
        ensures function { IfOk result (λ want. self.old.end ≡ None → turned_in self.old.functions most_steps limit self.old.placing ≡ act_of want self.new.placing) }
        ensures over { IfOk result (λ want. (e : ends.End) → self.old.end ≡ Some e → (want ≡ Ended e) × (self.new.placing ≡ self.old.placing)) }
        ensures end { IfOk result (λ want. self.new.end ≡ end_in want) }
        ensures left { self.new.left ≡ None }
        ensures begun { self.new.begun ≡ self.old.begun }
    {
        self.running.turn(self.code.functions.as_slice(), limit)
    }

    /// The reply to the operation that waits for one. Where its message is a fault, the machine ends.
    pub fn answer(&mut self, reply: Reply) -> Option<End>
        ensures functions { self.new.functions ≡ self.old.functions }
        ensures answer { answer_of result self.new.placing.machine ≡ answered self.old.placing.machine reply }
        ensures stack { self.new.placing.stack ≡ self.old.placing.stack }
        ensures heap { self.new.placing.heap ≡ self.old.placing.heap }
        ensures end { self.new.end ≡ end_by result self.old.end }
        ensures left { self.new.left ≡ self.old.left }
        ensures begun { self.new.begun ≡ self.old.begun }
    {
        self.running.answer(reply)
    }

    /// One instruction of restart mode, an `Enter` or a `Call`, and whether the machine stands at the mark after it.
    pub fn reenter(&mut self) -> Result<bool, NoMemory>
        requires { IsReturning self.old }
        ensures functions { self.new.functions ≡ self.old.functions }
        ensures reenter { IfOk result (λ at. reenter self.old.functions (restarting_of self.old) ≡ Some (restarting_of self.new)) }
        ensures at { IfOk result (λ at. at ≡ is_at_mark self.new) }
        ensures laid { IfOk result (λ at. laid self.new.placing ≡ laid_in self.old.functions self.old.placing.machine (laid self.old.placing) self.old.placing.machine.frames) }
        ensures end { self.new.end ≡ self.old.end }
        ensures left { is_some self.new.left ≡ true }
        ensures begun { self.new.begun ≡ self.old.begun }
    {
        self.running.reenter(self.code.functions.as_slice())
    }

    /// The mark of restart mode: what was saved comes back, and restart mode ends.
    pub fn finish_restart(&mut self, state: &RankState) -> Result<(), NoMemory>
        requires mode { self.old.left ≡ Some [] }
        requires mark { IsAtMark self.old.functions self.old.placing.machine }
        requires state { IsFor self.old state.now }
        ensures functions { self.new.functions ≡ self.old.functions }
        ensures machine { IfOk result (λ done. self.new.placing.machine ≡ put_back (saved_by state.now) (restarting_of self.old)) }
        ensures stack { IfOk result (λ done. self.new.placing.stack ≡ map block_of state.now.variables) }
        ensures heap { IfOk result (λ done. self.new.placing.heap ≡ map block_of state.now.objects) }
        ensures end { self.new.end ≡ self.old.end }
        ensures left { IfOk result (λ done. self.new.left ≡ None) }
        ensures begun { IfOk result (λ done. self.new.begun ≡ state.now.calls) }
        ensures back { IfOk result (λ done. spec.state_of self.new ≡ state.now) }
    {
        self.running.finish_restart(state)?;
        self.restarting = false;
        self.calls = state.calls;
        Ok(())
    }

    /// How many ranks there are.
    pub fn ranks(&self) -> u16
        ensures { result ≡ self.now.placing.machine.seat.ranks }
    {
        self.running.parts.world.requests.seat.ranks
    }

    /// How many bytes it has printed.
    pub fn printed(&self) -> u32
        ensures { result ≡ self.now.placing.machine.printed }
    {
        self.running.parts.world.requests.printed as u32
    }

    /// What a state holds of the machine.
    pub fn state(&self) -> Result<RankState, NoMemory>
        ensures { IfOk result (λ state. state ≡ spec.state_of self.now) }
    {
        self.running.state(self.calls)
    }

    /// The sites of the calls under way, `main`'s first.
    pub fn sites(&self) -> &[u32]
        ensures { result.now ≡ reverse self.now.placing.machine.sites }
    {
        self.running.parts.sites.list()
    }
}

// `main` is entered, where the stack has room for it.
fn started(
    alloc: Global,
    functions: &[FlatFunction],
    main: usize,
    seat: Seat,
) -> Result<Running, NoMemory>
    ensures start { IfOk result (λ run. (c : code.Code) → (rank : ℕ) → (ranks : ℕ) → c.functions ≡ functions.now → c.main ≡ main → seat_of c rank ranks ≡ seat → state_of run ≡ start c rank ranks) }
    ensures laid { IfOk result (λ run. laid_of run.parts ≡ record { stack = []; heap = [] }) }
    ensures asked { IfOk result (λ run. run.parts.world.requests.asked ≡ None) }
    ensures end { IfOk result (λ run. run.end ≡ None) }
{
    let mut run = Running {
        parts: Parts {
            alloc,
            world: World {
                memory: PlacedMemory::new(alloc),
                requests: Requests::new(seat),
            },
            sites: PositionStack::new(alloc),
            described: VariableStack::new(alloc),
        },
        frames: Vec::new(alloc),
        end: None,
    };
    match reserve(alloc, &mut run.parts.world.memory, functions, main)? {
        Err(_) => Ok(run),
        Ok(frame) => {
            run.frames.push(frame)?;
            Ok(run)
        }
    }
}
