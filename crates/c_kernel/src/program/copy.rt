ghost use Rattle.std.specs.Prelude.{◌≡◌, IfOk};

use super::{Expr, Link, MpiCall, Place, Root, Selection, Target};
use sqlite_items::{Boxed, Items};
use std::alloc::{AllocError, Global};

impl Expr {
    /// An equal expression.
    #[cycle(duplicate)]
    pub fn copy(&self, alloc: Global) -> Result<Expr, AllocError>
        ensures { IfOk result (λ copy. copy ≡ self.now) }
    {
        match self {
            Expr::Number { value, kind } => Ok(Expr::Number {
                value: *value,
                kind: *kind,
            }),
            Expr::Null => Ok(Expr::Null),
            Expr::Load { place, kind } => Ok(Expr::Load {
                place: place.copy(alloc)?,
                kind: *kind,
            }),
            Expr::Address(place) => Ok(Expr::Address(place.copy(alloc)?)),
            Expr::Convert { kind, operand } => Ok(Expr::Convert {
                kind: *kind,
                operand: boxed(alloc, operand)?,
            }),
            Expr::Not(operand) => Ok(Expr::Not(boxed(alloc, operand)?)),
            Expr::Unary {
                operator,
                kind,
                operand,
            } => Ok(Expr::Unary {
                operator: *operator,
                kind: *kind,
                operand: boxed(alloc, operand)?,
            }),
            Expr::Chain { first, rest } => Ok(Expr::Chain {
                first: boxed(alloc, first)?,
                rest: links(alloc, rest.as_slice())?,
            }),
            Expr::Choice {
                test,
                then,
                otherwise,
            } => Ok(Expr::Choice {
                test: boxed(alloc, test)?,
                then: boxed(alloc, then)?,
                otherwise: boxed(alloc, otherwise)?,
            }),
        }
    }
}

impl Place<Expr> {
    /// An equal place.
    #[cycle(duplicate)]
    pub fn copy(&self, alloc: Global) -> Result<Place<Expr>, AllocError>
        ensures { IfOk result (λ copy. copy ≡ self.now) }
    {
        Ok(Place {
            root: root(alloc, &self.root)?,
            steps: steps(alloc, self.steps.as_slice())?,
        })
    }
}

#[cycle(duplicate)]
fn root(alloc: Global, root: &Root<Expr>) -> Result<Root<Expr>, AllocError>
    ensures { IfOk result (λ copy. copy ≡ root.now) }
{
    match root {
        Root::Variable(number) => Ok(Root::Variable(*number)),
        Root::Target(pointer) => Ok(Root::Target(boxed(alloc, pointer)?)),
    }
}

#[cycle(duplicate)]
fn steps(alloc: Global, steps: &[Selection<Expr>]) -> Result<Items<Selection<Expr>>, AllocError>
    ensures { IfOk result (λ copy. copy ≡ steps.now) }
{
    let mut copies = Items::new(alloc);
    for step in steps {
        copies.push(selection(alloc, step)?)?;
    }
    Ok(copies)
}

#[cycle(duplicate)]
fn selection(alloc: Global, step: &Selection<Expr>) -> Result<Selection<Expr>, AllocError>
    ensures { IfOk result (λ copy. copy ≡ step.now) }
{
    match step {
        Selection::Element { index, cells } => Ok(Selection::Element {
            index: index.copy(alloc)?,
            cells: *cells,
        }),
        Selection::Member {
            structure,
            member,
            place,
        } => Ok(Selection::Member {
            structure: *structure,
            member: *member,
            place: *place,
        }),
        Selection::Follow => Ok(Selection::Follow),
        Selection::Checked => Ok(Selection::Checked),
    }
}

#[cycle(duplicate)]
fn boxed(alloc: Global, e: &Boxed<Expr>) -> Result<Boxed<Expr>, AllocError>
    ensures { IfOk result (λ copy. copy ≡ e.now) }
{
    let copy = e.get().copy(alloc)?;
    Boxed::new(alloc, copy)
}

#[cycle(duplicate)]
fn links(alloc: Global, links: &[Link<Expr>]) -> Result<Items<Link<Expr>>, AllocError>
    ensures { IfOk result (λ copy. copy ≡ links.now) }
{
    let mut copies = Items::new(alloc);
    for link in links {
        copies.push(Link {
            conversion: link.conversion,
            operator: link.operator,
            operand: link.operand.copy(alloc)?,
        })?;
    }
    Ok(copies)
}

/// Equal expressions.
pub fn copies(alloc: Global, es: &[Expr]) -> Result<Items<Expr>, AllocError>
    ensures { IfOk result (λ copies. copies ≡ es.now) }
{
    let mut copies = Items::new(alloc);
    for e in es {
        copies.push(e.copy(alloc)?)?;
    }
    Ok(copies)
}

impl Target {
    /// An equal target.
    pub fn copy(&self, alloc: Global) -> Result<Target, AllocError>
        ensures { IfOk result (λ copy. copy ≡ self.now) }
    {
        Ok(Target {
            place: self.place.copy(alloc)?,
            kind: self.kind,
        })
    }
}

impl MpiCall {
    /// An equal call.
    pub fn copy(&self, alloc: Global) -> Result<MpiCall, AllocError>
        ensures { IfOk result (λ copy. copy ≡ self.now) }
    {
        Ok(MpiCall {
            function: self.function,
            names: names(alloc, self.names.as_slice())?,
            arguments: copies(alloc, self.arguments.as_slice())?,
        })
    }
}

fn names(alloc: Global, names: &[Items<u8>]) -> Result<Items<Items<u8>>, AllocError>
    ensures { IfOk result (λ copies. copies ≡ names.now) }
{
    let mut copies = Items::new(alloc);
    for name in names {
        copies.push(Items::from_slice(alloc, name.as_slice())?)?;
    }
    Ok(copies)
}
