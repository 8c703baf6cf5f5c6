//! Assignments, and what else is made of expressions at once.

ghost use Rattle.std.specs.Prelude.{◌≡◌, ◌++◌, Some, IfOk, OnOk, map};
ghost use Rattle.c_rules.specs.Judged.{Notes};
ghost use Rattle.c_rules.specs.Rules as rules;
ghost use Rattle.c_rules.specs.Types as types;
ghost use Rattle.c_check.specs.Statement as walk;
ghost use Rattle.c_check.specs.Told.{Tells, among};

use crate::judge::{Answer, Judge, Names};
use c_kernel::program::{Action, Expr as Term, Place, Stmt as Typed, Target};
use c_kernel::{CType, IntegerType, Struct, extent_of};
use c_rules::format::{fit, pieces};
use c_rules::found::{Allocation, Cast, Form, Found, Invocation, Right, Run};
use c_rules::rules::{
    begin, c_type_of, clash, closed, constant, note_value, number, scalar, value, value_as,
    variable,
};
use c_rules::types::{
    is_array, is_pointer, is_struct, is_target, is_void, same_type, scalar_of, target,
};
use c_tree::tree::{Expr, Step, Text};
use c_tree::{Kind, Operator};
use sqlite_items::{Boxed, Items};
use std::alloc::{AllocError, Global};

// ---- where a value goes

// A place, and the type of what is stored there.
#[derive(Drop)]
struct Destination {
    place: Boxed<Place<Term>>,
    c_type: CType,
}

// Whether an assignment can write it: a place, and no array or struct.
fn is_assignable(form: &Form) -> bool
    ensures { result ≡ walk.is_assignable form.now }
{
    match form {
        Form::Zero(_) | Form::Value { .. } => false,
        Form::Place { kind, .. } => !(is_array(kind) || is_struct(kind.element)),
    }
}

// The place that it is.
fn place_in(alloc: Global, form: &Form) -> Result<Boxed<Place<Term>>, AllocError>
    ensures { IfOk result (λ place. place ≡ walk.place_in form.now) }
{
    match form {
        Form::Zero(_) | Form::Value { .. } => Boxed::new(alloc, variable(alloc, 0)),
        Form::Place { kind: _, place } => {
            let place = place.get().copy(alloc)?;
            Boxed::new(alloc, place)
        }
    }
}

fn place_to_write(alloc: Global, a: &Found) -> Result<Destination, AllocError>
    ensures place { IfOk result (λ to. to.place ≡ walk.place_in a.now.form) }
    ensures c_type { IfOk result (λ to. to.c_type ≡ rules.c_type_of a.now) }
{
    Ok(Destination {
        place: place_in(alloc, &a.form)?,
        c_type: c_type_of(a),
    })
}

// ---- what goes there

// The value in the place's type.
fn stored(
    alloc: Global,
    structs: &[Struct],
    to: Destination,
    r: Boxed<Right>,
) -> Result<Boxed<Action>, AllocError>
    ensures { IfOk result (λ action. action ≡ walk.stored structs.now to.place to.c_type r) }
{
    let Destination { place, c_type } = to;
    match r.into_inner() {
        Right::Value(v) => set(alloc, place, c_type, v),
        Right::Result(c) => called_into(alloc, place, c_type, c),
        Right::Memory(m) => {
            let bytes = value(alloc, m.bytes)?;
            Boxed::new(
                alloc,
                Action::Malloc {
                    place: place.into_inner(),
                    bytes: bytes.into_inner(),
                    each: extent_of(structs, target(c_type)),
                },
            )
        }
    }
}

fn set(
    alloc: Global,
    place: Boxed<Place<Term>>,
    c_type: CType,
    v: Boxed<Found>,
) -> Result<Boxed<Action>, AllocError>
    ensures { IfOk result (λ action. action ≡ Action.Set place (rules.value_as c_type v)) }
{
    let value = value_as(alloc, c_type, v)?;
    Boxed::new(
        alloc,
        Action::Set {
            place: place.into_inner(),
            value: value.into_inner(),
        },
    )
}

fn called_into(
    alloc: Global,
    place: Boxed<Place<Term>>,
    c_type: CType,
    c: Invocation,
) -> Result<Boxed<Action>, AllocError>
    ensures { IfOk result (λ action. action ≡ Action.Call (Some (record { place = place; kind = types.scalar_of c_type })) c.function c.arguments) }
{
    let target = Target {
        place: place.into_inner(),
        kind: scalar_of(c_type),
    };
    Boxed::new(
        alloc,
        Action::Call {
            into: Some(target),
            function: c.function,
            arguments: c.arguments,
        },
    )
}

// The values of expressions.
fn values_of(alloc: Global, vs: Items<Boxed<Found>>) -> Result<Items<Term>, AllocError>
    ensures { IfOk result (λ terms. terms ≡ map rules.value vs) }
{
    let mut vs = vs;
    let mut terms = Items::new(alloc);
    'values: while vs.len() > 0 {
        let v = vs.remove(0);
        terms.push(value(alloc, v)?.into_inner())?;
    }
    Ok(terms)
}

impl Judge {
    // ---- assignments

    fn note_cast(&mut self, c_type: CType, cast: Option<Cast>) -> Result<(), AllocError>
        ensures { OnOk result (Notes self.old.breaches self.new.breaches (walk.cast_rules c_type cast)) }
    {
        match cast {
            None => Ok(()),
            Some(c) => self.rule(!same_type(c.c_type, c_type), Kind::TypeMismatch, c.at),
        }
    }

    #[tactic(auto, using(std::proofs::Common::append_assoc))]
    fn note_memory(&mut self, c_type: CType, m: &Allocation) -> Result<(), AllocError>
        ensures { OnOk result (Notes self.old.breaches self.new.breaches (walk.memory_rules c_type m.now)) }
    {
        let bytes = m.bytes.get();
        number(&mut self.breaches, bytes.at, c_type_of(bytes))?;
        self.rule(!is_target(c_type), Kind::MallocPlace, m.at)?;
        self.note_cast(c_type, m.cast)
    }

    #[tactic(auto, using(std::proofs::Common::append_assoc))]
    fn note_right(&mut self, c_type: CType, r: &Right) -> Result<(), AllocError>
        ensures { OnOk result (Notes self.old.breaches self.new.breaches (walk.right_rules c_type r.now)) }
    {
        match r {
            Right::Value(v) => note_value(&mut self.breaches, c_type, v.get()),
            Right::Result(c) => {
                scalar(&mut self.breaches, c.at, c.c_type)?;
                self.rule(clash(c_type, false, c.c_type), Kind::TypeMismatch, c.at)
            }
            Right::Memory(m) => self.note_memory(c_type, m),
        }
    }

    #[tactic(auto, using(std::proofs::Common::append_assoc))]
    fn note_assign(&mut self, a: &Found, r: &Right) -> Result<(), AllocError>
        ensures { OnOk result (Notes self.old.breaches self.new.breaches (walk.place_rules a.now ++ walk.right_rules (rules.c_type_of a.now) r.now)) }
    {
        self.rule(!is_assignable(&a.form), Kind::NotPlace, a.at)?;
        self.note_right(c_type_of(a), r)
    }

    /// `a = r`.
    #[tactic(auto, using(crate::proofs::Silences::broken, crate::proofs::Silences::unbroken), unfolding(crate::specs::Statement::assign))]
    pub fn assign(
        &mut self,
        structs: &[Struct],
        a: Boxed<Found>,
        r: Boxed<Right>,
    ) -> Answer<Boxed<Action>>
        ensures { IfOk result (λ found. Tells self.old self.new found (walk.assign structs.now a r)) }
    {
        let mark = self.mark();
        self.note_assign(a.get(), r.get())?;
        if self.broke(mark) {
            return Ok(None);
        }
        let to = place_to_write(self.alloc, a.get())?;
        Ok(Some(stored(self.alloc, structs, to, r)?))
    }

    // The value of a chain goes to a place.
    fn updated(
        &mut self,
        structs: &[Struct],
        at: u32,
        to: Destination,
        run: Boxed<Run>,
    ) -> Answer<Boxed<Action>>
        ensures { IfOk result (λ found. Tells self.old self.new found (walk.updated structs.now at to.place to.c_type run)) }
    {
        if clash(to.c_type, false, run.get().c_type) {
            return self.refuse(Kind::TypeMismatch, at);
        }
        let v = closed(self.alloc, run)?;
        let v = Boxed::new(self.alloc, Right::Value(v))?;
        Ok(Some(stored(self.alloc, structs, to, v)?))
    }

    /// `a o= v`.
    #[tactic(auto, using(std::proofs::Common::append_assoc), unfolding(crate::specs::Statement::compound))]
    pub fn compound(
        &mut self,
        structs: &[Struct],
        operator: Operator,
        a: Boxed<Found>,
        v: Boxed<Found>,
    ) -> Answer<Boxed<Action>>
        ensures { IfOk result (λ found. Tells self.old self.new found (walk.compound structs.now operator a v)) }
    {
        let at = v.get().at;
        let assignable = is_assignable(&a.get().form);
        self.rule(!assignable, Kind::NotPlace, a.get().at)?;
        let to = place_to_write(self.alloc, a.get())?;
        let run = begin(self.alloc, a)?;
        match self.link(structs, operator, run, v)? {
            None => Ok(None),
            Some(run) => {
                if !assignable {
                    return Ok(None);
                }
                self.updated(structs, at, to, run)
            }
        }
    }

    /// `a++` or `a--`.
    pub fn stepped(
        &mut self,
        structs: &[Struct],
        step: Step,
        a: Boxed<Found>,
    ) -> Answer<Boxed<Action>>
        ensures { IfOk result (λ found. Tells self.old self.new found (walk.stepped structs.now step a)) }
    {
        let operator = match step {
            Step::Increment => Operator::Plus,
            Step::Decrement => Operator::Minus,
        };
        let one = constant(self.alloc, a.get().at, 1, IntegerType::Int)?;
        self.compound(structs, operator, a, one)
    }

    // ---- tests

    fn condition_of(&mut self, a: Boxed<Found>) -> Answer<Boxed<Term>>
        ensures { IfOk result (λ found. Tells self.old self.new found (walk.condition_of a)) }
    {
        let mark = self.mark();
        scalar(&mut self.breaches, a.get().at, c_type_of(a.get()))?;
        if self.broke(mark) {
            return Ok(None);
        }
        Ok(Some(value(self.alloc, a)?))
    }

    /// A test.
    #[tactic(auto, using(std::proofs::Common::append_assoc))]
    pub fn condition(&mut self, names: Names<'_>, e: &Expr) -> Answer<Boxed<Term>>
        ensures { IfOk result (λ found. Tells self.old self.new found (among names.entry walk.condition e.now)) }
    {
        match self.expression(names, e)? {
            None => Ok(None),
            Some(a) => self.condition_of(a),
        }
    }

    // ---- return, free and printf

    /// `return`.
    #[tactic(auto, using(std::proofs::Common::append_assoc, crate::proofs::Silences::broken, crate::proofs::Silences::unbroken), unfolding(crate::specs::Statement::returned))]
    pub fn returned(
        &mut self,
        at: u32,
        result_type: CType,
        v: Option<Boxed<Found>>,
    ) -> Answer<Boxed<Typed>>
        ensures { IfOk result (λ found. Tells self.old self.new found (walk.returned at result_type v)) }
    {
        let mark = self.mark();
        let wrong = if is_void(result_type) {
            v.is_some()
        } else {
            v.is_none()
        };
        self.rule(wrong, Kind::ReturnValue, at)?;
        self.note_result(result_type, &v)?;
        if self.broke(mark) {
            return Ok(None);
        }
        match v {
            None => Ok(Some(Boxed::new(self.alloc, Typed::Return(None))?)),
            Some(v) => {
                let e = value_as(self.alloc, result_type, v)?;
                Ok(Some(Boxed::new(self.alloc, Typed::Return(Some(e.into_inner())))?))
            }
        }
    }

    fn note_result(
        &mut self,
        result_type: CType,
        v: &Option<Boxed<Found>>,
    ) -> Result<(), AllocError>
        ensures { OnOk result (Notes self.old.breaches self.new.breaches (walk.result_rules result_type v.now)) }
    {
        match v {
            None => Ok(()),
            Some(v) => note_value(&mut self.breaches, result_type, v.get()),
        }
    }

    /// `free`.
    #[tactic(auto, using(std::proofs::Common::append_assoc, crate::proofs::Silences::broken, crate::proofs::Silences::unbroken), unfolding(crate::specs::Statement::freed))]
    pub fn freed(&mut self, a: Boxed<Found>) -> Answer<Boxed<Typed>>
        ensures { IfOk result (λ found. Tells self.old self.new found (walk.freed a)) }
    {
        let mark = self.mark();
        let c_type = c_type_of(a.get());
        scalar(&mut self.breaches, a.get().at, c_type)?;
        self.rule(!is_pointer(c_type), Kind::NotPointer, a.get().at)?;
        if self.broke(mark) {
            return Ok(None);
        }
        let e = value(self.alloc, a)?;
        Ok(Some(Boxed::new(self.alloc, Typed::Free(e.into_inner()))?))
    }

    /// `printf`.
    #[tactic(auto, unfolding(crate::specs::Statement::printed))]
    pub fn printed(&mut self, format: &Text, vs: Items<Boxed<Found>>) -> Answer<Boxed<Typed>>
        ensures { IfOk result (λ found. Tells self.old self.new found (walk.printed format.now vs)) }
    {
        match pieces(self.alloc, format.bytes.as_slice())? {
            None => self.refuse(Kind::FormatMismatch, format.at),
            Some(pieces) => {
                if !fit(pieces.as_slice(), vs.as_slice()) {
                    return self.refuse(Kind::FormatMismatch, format.at);
                }
                let arguments = values_of(self.alloc, vs)?;
                Ok(Some(Boxed::new(
                    self.alloc,
                    Typed::Print {
                        format: pieces,
                        arguments,
                    },
                )?))
            }
        }
    }
}
