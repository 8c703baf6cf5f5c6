//! Right sides of `=`, and simple statements.

ghost use Rattle.std.specs.Prelude.{◌≡◌, IfOk, List, Option, Some, option_map};
ghost use Rattle.c_kernel.specs.declared.types.Struct.{Struct};
ghost use Rattle.c_rules.specs.declared.signature.Signature.{Signature};
ghost use Rattle.c_rules.specs.Judged as nodes;
ghost use Rattle.c_rules.specs.Scope as names;
ghost use Rattle.c_check.specs.Expression as expressions;
ghost use Rattle.c_check.specs.Statement as walk;
ghost use Rattle.c_check.specs.Told.{Tells, among};

use crate::judge::{Answer, Judge, Names};
use crate::parts::both;
use c_kernel::Struct;
use c_kernel::program::Action;
use c_rules::found::{Allocation, Cast, Invocation, Right};
use c_tree::tree::{Expr, Name, Primary, SimpleStatement, Step, TypeName};
use c_tree::{Kind, Operator};
use sqlite_items::{Boxed, Items};

// ---- what an expression is besides a part

// The call that an expression is, in any parentheses: its first byte, the function's name and the arguments.
fn call_in(e: &Expr) -> Option<(u32, &Name, &Items<Expr>)>
    ensures { (f : names.Bytes → Option Signature) (structs : List Struct) (s : names.Scope) → (expressions.seen f structs s e.now).called ≡ option_map (λ c. expressions.call_of f structs s c.0 c.1.now c.2.now) result }
{
    match e {
        Expr::Postfix { primary, suffixes } => match suffixes.as_slice() {
            [] => match primary {
                Primary::Call { name, arguments } => Some((name.at, name, arguments)),
                Primary::Group { at, inner } => match call_in(inner.get()) {
                    None => None,
                    Some((_, name, arguments)) => Some((*at, name, arguments)),
                },
                _ => None,
            },
            [_, ..] => None,
        },
        _ => None,
    }
}

// A `malloc` in any parentheses: the first byte of all and its own, the cast before it and how many bytes it asks for.
#[derive(Clone, Copy)]
struct Malloc<'e> {
    at: u32,
    malloc: u32,
    cast: Option<(u32, &'e TypeName)>,
    bytes: &'e Expr,
}

// The `malloc` that an expression is, perhaps behind one cast.
fn malloc_in(e: &Expr) -> Option<Malloc<'_>>
    ensures { (f : names.Bytes → Option Signature) (structs : List Struct) (s : names.Scope) → (expressions.seen f structs s e.now).allocated ≡ option_map (λ m. expressions.malloc_of f structs s m.at m.malloc (option_map (λ c. (c.0, c.1.now)) m.cast) m.bytes.now) result }
{
    match e {
        Expr::Postfix { primary, suffixes } => match suffixes.as_slice() {
            [] => match primary {
                Primary::Malloc { at, size } => Some(Malloc {
                    at: *at,
                    malloc: *at,
                    cast: None,
                    bytes: size.get(),
                }),
                Primary::Group { at, inner } => match malloc_in(inner.get()) {
                    None => None,
                    Some(m) => Some(Malloc { at: *at, ..m }),
                },
                _ => None,
            },
            [_, ..] => None,
        },
        Expr::Cast { at, name, operand } => match malloc_in(operand.get()) {
            Some(
                Malloc {
                    malloc,
                    cast: None,
                    bytes,
                    ..
                },
            ) => Some(Malloc {
                at: *at,
                malloc,
                cast: Some((*at, name)),
                bytes,
            }),
            _ => None,
        },
        _ => None,
    }
}

// A call whose result isn't used.
fn result_unused(c: Invocation) -> Action
    ensures { Some result ≡ (walk.called c).found }
{
    Action::Call {
        into: None,
        function: c.function,
        arguments: c.arguments,
    }
}

impl Judge {
    // A cast before a `malloc`, which may be left out.
    fn cast_of(
        &mut self,
        structs: &[Struct],
        cast: Option<(u32, &TypeName)>,
    ) -> Answer<Option<Cast>>
        ensures { IfOk result (λ found. Tells self.old self.new found (nodes.perhaps expressions.cast_of (option_map (λ c. (c.0, expressions.named_type structs.now c.1.now)) cast.entry))) }
    {
        match cast {
            None => Ok(Some(None)),
            Some((at, name)) => match self.named_type(structs, name)? {
                None => Ok(None),
                Some(c_type) => Ok(Some(Some(Cast { at, c_type }))),
            },
        }
    }

    // The parts of a `malloc`.
    #[tactic(auto, using(std::proofs::Common::append_assoc))]
    fn allocation(&mut self, names: Names<'_>, m: Malloc<'_>) -> Answer<Allocation>
        ensures { IfOk result (λ found. Tells self.old self.new found (expressions.allocation (among names.entry expressions.malloc_of m.entry.at m.entry.malloc (option_map (λ c. (c.0, c.1.now)) m.entry.cast) m.entry.bytes.now))) }
    {
        let cast = self.cast_of(names.known.structs, m.cast)?;
        let bytes = self.expression(names, m.bytes)?;
        match both(cast, bytes) {
            None => Ok(None),
            Some((cast, bytes)) => Ok(Some(Allocation {
                at: m.malloc,
                cast,
                bytes,
            })),
        }
    }

    /// The whole right side of `=`.
    pub fn right(&mut self, names: Names<'_>, e: &Expr) -> Answer<Boxed<Right>>
        ensures { IfOk result (λ found. Tells self.old self.new found (among names.entry expressions.right e.now)) }
    {
        match malloc_in(e) {
            Some(m) => match self.allocation(names, m)? {
                None => Ok(None),
                Some(m) => Ok(Some(Boxed::new(self.alloc, Right::Memory(m))?)),
            },
            None => match call_in(e) {
                Some((at, name, arguments)) => {
                    match self.invoked(names, at, name, arguments)? {
                        None => Ok(None),
                        Some(c) => Ok(Some(Boxed::new(self.alloc, Right::Result(c))?)),
                    }
                }
                None => match self.expression(names, e)? {
                    None => Ok(None),
                    Some(v) => Ok(Some(Boxed::new(self.alloc, Right::Value(v))?)),
                },
            },
        }
    }

    // ---- simple statements

    // An expression as a statement: a call.
    fn expression_statement(&mut self, names: Names<'_>, e: &Expr) -> Answer<Boxed<Action>>
        ensures { IfOk result (λ found. Tells self.old self.new found (among names.entry walk.expression_of (among names.entry expressions.seen e.now))) }
    {
        match malloc_in(e) {
            Some(m) => match self.allocation(names, m)? {
                None => Ok(None),
                Some(_) => self.refuse(Kind::CallPlace, m.at),
            },
            None => match call_in(e) {
                Some((at, name, arguments)) => {
                    match self.invoked(names, at, name, arguments)? {
                        None => Ok(None),
                        Some(c) => Ok(Some(Boxed::new(self.alloc, result_unused(c))?)),
                    }
                }
                None => match self.expression(names, e)? {
                    None => Ok(None),
                    Some(a) => self.refuse(Kind::CallPlace, a.get().at),
                },
            },
        }
    }

    // An assignment without another operator.
    #[tactic(auto, using(std::proofs::Common::append_assoc))]
    fn assignment(&mut self, names: Names<'_>, place: &Expr, e: &Expr) -> Answer<Boxed<Action>>
        ensures { IfOk result (λ found. Tells self.old self.new found (nodes.of_parts (among names.entry expressions.judged place.now) (among names.entry expressions.right e.now) (walk.assign names.entry.known.structs.now))) }
    {
        let a = self.expression(names, place)?;
        let r = self.right(names, e)?;
        match both(a, r) {
            None => Ok(None),
            Some((a, r)) => self.assign(names.known.structs, a, r),
        }
    }

    // An assignment with another operator.
    #[tactic(auto, using(std::proofs::Common::append_assoc))]
    fn update(
        &mut self,
        names: Names<'_>,
        place: &Expr,
        operator: Operator,
        e: &Expr,
    ) -> Answer<Boxed<Action>>
        ensures { IfOk result (λ found. Tells self.old self.new found (nodes.of_parts (among names.entry expressions.judged place.now) (among names.entry expressions.judged e.now) (walk.compound names.entry.known.structs.now operator))) }
    {
        let a = self.expression(names, place)?;
        let v = self.expression(names, e)?;
        match both(a, v) {
            None => Ok(None),
            Some((a, v)) => self.compound(names.known.structs, operator, a, v),
        }
    }

    // `++` or `--`.
    #[tactic(auto, using(std::proofs::Common::append_assoc))]
    fn counted(&mut self, names: Names<'_>, place: &Expr, step: Step) -> Answer<Boxed<Action>>
        ensures { IfOk result (λ found. Tells self.old self.new found (nodes.of_part (among names.entry expressions.judged place.now) (walk.stepped names.entry.known.structs.now step))) }
    {
        match self.expression(names, place)? {
            None => Ok(None),
            Some(a) => self.stepped(names.known.structs, step, a),
        }
    }

    /// A simple statement.
    pub fn simple(&mut self, names: Names<'_>, s: &SimpleStatement) -> Answer<Boxed<Action>>
        ensures { IfOk result (λ found. Tells self.old self.new found (among names.entry walk.simple s.now)) }
    {
        match s {
            SimpleStatement::Expression(e) => self.expression_statement(names, e),
            SimpleStatement::Assign {
                place,
                at: _,
                operator,
                value,
            } => match operator {
                None => self.assignment(names, place, value),
                Some(o) => self.update(names, place, *o, value),
            },
            SimpleStatement::Postfix { place, at: _, step } => self.counted(names, place, *step),
            SimpleStatement::Prefix { at: _, step, place } => self.counted(names, place, *step),
        }
    }
}
