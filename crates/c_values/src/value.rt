//! The value of an expression.

ghost use Rattle.std.specs.Prelude.{◌≡◌, ◌+◌, ◌<◌, ◌≤◌, ◌^◌, IfOk, Ok, map};
ghost use Rattle.c_memory.specs.Memory.{map_ok};
ghost use Rattle.c_values.specs.Value.{read_of, load_of, converted, compare_of, and_of, or_of, chained, link_of, variable_of, root_of, root_meaning, step_meaning, place_of, value_of, values_of};
ghost use Rattle.c_values.specs.Value as spec;
ghost use Rattle.c_values.specs.Variables.{variables_from};

use crate::number::{arithmetic, holds, narrowed, shift, truth, unary};
use crate::pointer::{advanced, compare_pointers, distance};
use c_kernel::IntegerType;
use c_kernel::program::{BinaryOperator, Comparison, Expr, Link, Place, Root, Scalar, Selection};
use c_memory::{NULL, Objects, Spot, moved, number};
use c3_base::Cell;
use std::alloc::{AllocError, Global};

/// Where a function's variables are.
#[derive(Clone, Copy, PartialEq, Eq)]
pub struct Variables {
    /// The serial of the first, or 0 where there is none.
    pub first: u64,
    pub count: usize,
}

impl Variables {
    /// So many variables, of which the first has this serial.
    pub fn from(first: u64, count: usize) -> Variables
        ensures variables { result ≡ variables_from first count }
        ensures within { result.first ≤ first }
    {
        Variables {
            first: if count == 0 { 0 } else { first },
            count,
        }
    }
}

/// The value of an expression, or the code of a fault.
#[cycle(walk)]
#[tactic(auto, using(crate::proofs::Nodes::value_load, crate::proofs::Nodes::value_address))]
pub fn value<M: Objects>(e: &Expr, variables: &Variables, memory: &M) -> Result<Cell, u16>
    requires { variables.now.first + variables.now.count < 2 ^ 64 }
    ensures { result ≡ value_of e.now variables.now (M.memory memory.now) }
{
    match e {
        Expr::Number { value, kind } => Ok(number(narrowed(*kind, *value))),
        Expr::Null => Ok(NULL),
        Expr::Load { place: p, kind } => load(memory, *kind, place(p, variables, memory)?),
        Expr::Address(p) => memory.pointing(place(p, variables, memory)?),
        Expr::Convert { kind, operand } => {
            let a = value(operand.get(), variables, memory)?;
            Ok(number(narrowed(*kind, a.word)))
        }
        Expr::Not(operand) => {
            let a = value(operand.get(), variables, memory)?;
            Ok(truth(is_false(a)))
        }
        Expr::Unary {
            operator,
            kind,
            operand,
        } => {
            let a = value(operand.get(), variables, memory)?;
            unary(*operator, *kind, a)
        }
        Expr::Chain { first, rest } => {
            let a = value(first.get(), variables, memory)?;
            chain(a, rest.as_slice(), variables, memory)
        }
        Expr::Choice {
            test,
            then,
            otherwise,
        } => {
            let a = value(test.get(), variables, memory)?;
            if is_false(a) {
                value(otherwise.get(), variables, memory)
            } else {
                value(then.get(), variables, memory)
            }
        }
    }
}

/// Where a place is, which nothing has tested, or the code of a fault.
#[cycle(walk)]
pub fn place<M: Objects>(p: &Place<Expr>, variables: &Variables, memory: &M) -> Result<Spot, u16>
    requires { variables.now.first + variables.now.count < 2 ^ 64 }
    ensures { result ≡ place_of p.now variables.now (M.memory memory.now) }
{
    let mut spot = root(&p.root, variables, memory)?;
    for step in p.steps.as_slice() {
        spot = selected(spot, step, variables, memory)?;
    }
    Ok(spot)
}

#[cycle(walk)]
fn root<M: Objects>(root: &Root<Expr>, variables: &Variables, memory: &M) -> Result<Spot, u16>
    requires { variables.now.first + variables.now.count < 2 ^ 64 }
    ensures { result ≡ root_of (root_meaning root.now) variables.now (M.memory memory.now) }
{
    match root {
        Root::Variable(k) => Ok(variable(*k, variables)),
        Root::Target(e) => {
            let p = value(e.get(), variables, memory)?;
            Ok(Spot::of(p))
        }
    }
}

// What is selected at a place.
#[cycle(walk)]
fn selected<M: Objects>(
    spot: Spot,
    step: &Selection<Expr>,
    variables: &Variables,
    memory: &M,
) -> Result<Spot, u16>
    requires { variables.now.first + variables.now.count < 2 ^ 64 }
    ensures { result ≡ spec.selected spot (step_meaning step.now) variables.now (M.memory memory.now) }
{
    match step {
        Selection::Element { index, cells } => {
            let n = value(index, variables, memory)?;
            moved(spot, i128::from(n.word) * i128::from(*cells))
        }
        Selection::Member { place, .. } => moved(spot, i128::from(*place)),
        Selection::Follow => Ok(Spot::of(load(memory, Scalar::Pointer, spot)?)),
        Selection::Checked => Ok(Spot::of(memory.pointing(spot)?)),
    }
}

// Operators with their right operands, from the left.
#[cycle(walk)]
fn chain<M: Objects>(
    first: Cell,
    links: &[Link<Expr>],
    variables: &Variables,
    memory: &M,
) -> Result<Cell, u16>
    requires { variables.now.first + variables.now.count < 2 ^ 64 }
    ensures { result ≡ chained (Ok first) (map link_of links.now) variables.now (M.memory memory.now) }
{
    let mut a = first;
    for link in links {
        let left = convert(link.conversion, a);
        a = linked(link.operator, left, &link.operand, variables, memory)?;
    }
    Ok(a)
}

#[cycle(walk)]
fn linked<M: Objects>(
    operator: BinaryOperator,
    a: Cell,
    e: &Expr,
    variables: &Variables,
    memory: &M,
) -> Result<Cell, u16>
    requires { variables.now.first + variables.now.count < 2 ^ 64 }
    ensures { result ≡ spec.linked operator (M.memory memory.now) a (value_of e.now variables.now (M.memory memory.now)) }
{
    match operator {
        BinaryOperator::And => both(a, e, variables, memory),
        BinaryOperator::Or => either(a, e, variables, memory),
        BinaryOperator::Arithmetic { operator, kind } => {
            let b = value(e, variables, memory)?;
            arithmetic(operator, kind, a.word, b.word)
        }
        BinaryOperator::Shift { direction, kind } => {
            let b = value(e, variables, memory)?;
            shift(direction, kind, a.word, b.word)
        }
        BinaryOperator::Comparison(comparison) => {
            let b = value(e, variables, memory)?;
            Ok(compare(comparison, a, b))
        }
        BinaryOperator::Advance { way, cells } => {
            let b = value(e, variables, memory)?;
            advanced(memory, way, cells, a, b)
        }
        BinaryOperator::Distance { cells } => {
            let b = value(e, variables, memory)?;
            distance(cells, a, b)
        }
        BinaryOperator::PointerComparison(comparison) => {
            let b = value(e, variables, memory)?;
            compare_pointers(comparison, a, b)
        }
    }
}

// `&&`.
#[cycle(walk)]
fn both<M: Objects>(a: Cell, e: &Expr, variables: &Variables, memory: &M) -> Result<Cell, u16>
    requires { variables.now.first + variables.now.count < 2 ^ 64 }
    ensures { result ≡ and_of a (value_of e.now variables.now (M.memory memory.now)) }
{
    if is_false(a) {
        return Ok(truth(false));
    }
    let b = value(e, variables, memory)?;
    Ok(truth(!is_false(b)))
}

// `||`.
#[cycle(walk)]
fn either<M: Objects>(a: Cell, e: &Expr, variables: &Variables, memory: &M) -> Result<Cell, u16>
    requires { variables.now.first + variables.now.count < 2 ^ 64 }
    ensures { result ≡ or_of a (value_of e.now variables.now (M.memory memory.now)) }
{
    if !is_false(a) {
        return Ok(truth(true));
    }
    let b = value(e, variables, memory)?;
    Ok(truth(!is_false(b)))
}

/// Several values, from left to right.
pub fn values<M: Objects>(
    alloc: Global,
    es: &[Expr],
    variables: &Variables,
    memory: &M,
) -> Result<Result<Vec<Cell>, u16>, AllocError>
    requires { variables.now.first + variables.now.count < 2 ^ 64 }
    ensures { IfOk result (λ found. map_ok (λ vs. vs.items) found ≡ values_of es.now variables.now (M.memory memory.now)) }
{
    let mut found = Vec::new(alloc);
    for e in es {
        match value(e, variables, memory) {
            Err(code) => return Ok(Err(code)),
            Ok(a) => found.push(a)?,
        }
    }
    Ok(Ok(found))
}

/// The place of a variable.
pub fn variable(k: usize, variables: &Variables) -> Spot
    requires { variables.now.first + variables.now.count < 2 ^ 64 }
    ensures { result ≡ variable_of k variables.now }
{
    if k < variables.count {
        Spot {
            serial: variables.first + k as u64,
            place: 0,
        }
    } else {
        Spot {
            serial: 0,
            place: 0,
        }
    }
}

// What stands at a place.
fn load<M: Objects>(memory: &M, kind: Scalar, spot: Spot) -> Result<Cell, u16>
    ensures { result ≡ load_of (M.memory memory.now) kind spot }
{
    let cell = memory.load(spot)?;
    Ok(read(kind, cell))
}

/// What a cell is read as.
pub fn read(kind: Scalar, cell: Cell) -> Cell
    ensures { result ≡ read_of kind cell }
{
    match kind {
        Scalar::Number(kind) => number(narrowed(kind, cell.word)),
        Scalar::Pointer => { if cell.serial == 0 { NULL } else { cell } }
    }
}

/// Whether it is the number 0, or NULL.
pub fn is_false(a: Cell) -> bool
    ensures { result ≡ spec.is_false a }
{
    a.serial == 0 && a.word == 0
}

// The left operand of an operator.
fn convert(conversion: Option<IntegerType>, a: Cell) -> Cell
    ensures { result ≡ converted conversion a }
{
    match conversion {
        None => a,
        Some(kind) => number(narrowed(kind, a.word)),
    }
}

fn compare(comparison: Comparison, a: Cell, b: Cell) -> Cell
    ensures { Ok result ≡ compare_of comparison a b }
{
    truth(holds(comparison, a.word, b.word))
}
