//! Expressions and places.

ghost use Rattle.std.specs.Prelude.{◌≡◌, ◌++◌, OnOk, flat_map};
ghost use Rattle.flat_code.specs.Text.{arithmetic_text, comparison_text, is_indexed, long_mark, operator_text, place_text, shift_text, text_of, unary_text, way_text};
ghost use Rattle.flat_code.specs.Nested.{cast_opening, closed, left_closing, left_opening, link_closing, link_openings, opened, root_in, step_closing, step_closings, step_opening, step_openings};

use crate::text::types::{integer_name, member_name, put_variable_name};
use c_kernel::program::{
    Arithmetic, BinaryOperator, Comparison, Direction, Expr, Link, Place, Root, Selection,
    UnaryOperator, Way,
};
use c_kernel::{IntegerType, Struct};
use c3_base::{NoMemory, append, append_signed};
use std::alloc::Global;

/// An expression.
#[cycle(texts)]
pub fn put_expression(
    alloc: Global,
    text: &mut Vec<u8>,
    structs: &[Struct],
    e: &Expr,
) -> Result<(), NoMemory>
    ensures { OnOk result (text.new.items ≡ text.old.items ++ text_of structs.now e.now) }
{
    match e {
        Expr::Number { value, kind } => {
            append_signed(alloc, text, *value)?;
            append(text, long_suffix(*kind))
        }
        Expr::Null => append(text, b"NULL"),
        Expr::Load { place, .. } => put_place(alloc, text, structs, place),
        Expr::Address(place) => {
            append(text, b"(&")?;
            put_place(alloc, text, structs, place)?;
            append(text, b")")
        }
        Expr::Convert { kind, operand } => {
            put_cast(text, *kind)?;
            put_expression(alloc, text, structs, operand.get())?;
            append(text, b")")
        }
        Expr::Not(operand) => {
            append(text, b"(!")?;
            put_expression(alloc, text, structs, operand.get())?;
            append(text, b")")
        }
        Expr::Unary {
            operator,
            operand,
            ..
        } => {
            append(text, b"(")?;
            append(text, unary_sign(*operator))?;
            put_expression(alloc, text, structs, operand.get())?;
            append(text, b")")
        }
        Expr::Chain { first, rest } => {
            open_links(text, rest.as_slice())?;
            put_expression(alloc, text, structs, first.get())?;
            close_links(alloc, text, structs, rest.as_slice())
        }
        Expr::Choice {
            test,
            then,
            otherwise,
        } => {
            append(text, b"(")?;
            put_expression(alloc, text, structs, test.get())?;
            append(text, b" ? ")?;
            put_expression(alloc, text, structs, then.get())?;
            append(text, b" : ")?;
            put_expression(alloc, text, structs, otherwise.get())?;
            append(text, b")")
        }
    }
}

/// A place.
#[cycle(texts)]
pub fn put_place(
    alloc: Global,
    text: &mut Vec<u8>,
    structs: &[Struct],
    place: &Place<Expr>,
) -> Result<(), NoMemory>
    ensures { OnOk result (text.new.items ≡ text.old.items ++ place_text structs.now place.now) }
{
    let steps = place.steps.as_slice();
    open_steps(text, steps)?;
    put_root(alloc, text, structs, &place.root, steps)?;
    close_steps(alloc, text, structs, steps)
}

// What opens the steps, from the last to the first.
fn open_steps(text: &mut Vec<u8>, steps: &[Selection<Expr>]) -> Result<(), NoMemory>
    ensures { OnOk result (text.new.items ≡ text.old.items ++ step_openings steps.now) }
{
    for k in (0..steps.len()).rev() {
        open_step(text, &steps[k], &steps[k + 1..])?;
    }
    Ok(())
}

fn open_step(
    text: &mut Vec<u8>,
    step: &Selection<Expr>,
    later: &[Selection<Expr>],
) -> Result<(), NoMemory>
    ensures { OnOk result (text.new.items ≡ text.old.items ++ step_opening step.now later.now) }
{
    match step {
        Selection::Element { .. } | Selection::Member { .. } => Ok(()),
        Selection::Follow => append(text, opening(later)),
        Selection::Checked => append(text, b"(*(&"),
    }
}

#[cycle(texts)]
fn put_root(
    alloc: Global,
    text: &mut Vec<u8>,
    structs: &[Struct],
    root: &Root<Expr>,
    steps: &[Selection<Expr>],
) -> Result<(), NoMemory>
    ensures { OnOk result (text.new.items ≡ text.old.items ++ root_in (text_of structs.now) root.now steps.now) }
{
    match root {
        Root::Variable(number) => put_variable_name(alloc, text, *number),
        Root::Target(pointer) => {
            append(text, opening(steps))?;
            put_expression(alloc, text, structs, pointer.get())?;
            append(text, closing(steps))
        }
    }
}

#[cycle(texts)]
fn close_steps(
    alloc: Global,
    text: &mut Vec<u8>,
    structs: &[Struct],
    steps: &[Selection<Expr>],
) -> Result<(), NoMemory>
    ensures { OnOk result (text.new.items ≡ text.old.items ++ step_closings structs.now (text_of structs.now) steps.now) }
{
    for (k, step) in steps.iter().enumerate() {
        close_step(alloc, text, structs, step, &steps[k + 1..])?;
    }
    Ok(())
}

#[cycle(texts)]
fn close_step(
    alloc: Global,
    text: &mut Vec<u8>,
    structs: &[Struct],
    step: &Selection<Expr>,
    later: &[Selection<Expr>],
) -> Result<(), NoMemory>
    ensures { OnOk result (text.new.items ≡ text.old.items ++ step_closing structs.now (text_of structs.now) step.now later.now) }
{
    match step {
        Selection::Element { index, .. } => {
            append(text, b"[")?;
            put_expression(alloc, text, structs, index)?;
            append(text, b"]")
        }
        Selection::Member {
            structure,
            member,
            ..
        } => {
            append(text, b".")?;
            append(text, member_name(structs, *structure, *member))
        }
        Selection::Follow => append(text, closing(later)),
        Selection::Checked => append(text, b"))"),
    }
}

// Whether an element is selected next.
fn indexed(steps: &[Selection<Expr>]) -> bool
    ensures { result ≡ is_indexed steps.now }
{
    match steps {
        [Selection::Element { .. }, ..] => true,
        _ => false,
    }
}

// What stands before a pointer that is followed.
fn opening(steps: &[Selection<Expr>]) -> &'static [u8]
    ensures { result.now ≡ opened steps.now }
{
    if indexed(steps) { &[] } else { b"(*" }
}

fn closing(steps: &[Selection<Expr>]) -> &'static [u8]
    ensures { result.now ≡ closed steps.now }
{
    if indexed(steps) { &[] } else { b")" }
}

// What opens the links, from the last to the first.
fn open_links(text: &mut Vec<u8>, links: &[Link<Expr>]) -> Result<(), NoMemory>
    ensures { OnOk result (text.new.items ≡ text.old.items ++ link_openings links.now) }
{
    for k in (0..links.len()).rev() {
        append(text, b"(")?;
        open_left(text, links[k].conversion)?;
    }
    Ok(())
}

fn open_left(text: &mut Vec<u8>, conversion: Option<IntegerType>) -> Result<(), NoMemory>
    ensures { OnOk result (text.new.items ≡ text.old.items ++ left_opening conversion) }
{
    match conversion {
        None => Ok(()),
        Some(kind) => put_cast(text, kind),
    }
}

#[cycle(texts)]
fn close_links(
    alloc: Global,
    text: &mut Vec<u8>,
    structs: &[Struct],
    links: &[Link<Expr>],
) -> Result<(), NoMemory>
    ensures { OnOk result (text.new.items ≡ text.old.items ++ flat_map (link_closing (text_of structs.now)) links.now) }
{
    for link in links {
        close_link(alloc, text, structs, link)?;
    }
    Ok(())
}

#[cycle(texts)]
fn close_link(
    alloc: Global,
    text: &mut Vec<u8>,
    structs: &[Struct],
    link: &Link<Expr>,
) -> Result<(), NoMemory>
    ensures { OnOk result (text.new.items ≡ text.old.items ++ link_closing (text_of structs.now) link.now) }
{
    append(text, left_end(link.conversion))?;
    append(text, operator_word(link.operator))?;
    put_expression(alloc, text, structs, &link.operand)?;
    append(text, b")")
}

fn left_end(conversion: Option<IntegerType>) -> &'static [u8]
    ensures { result.now ≡ left_closing conversion }
{
    match conversion {
        None => &[],
        Some(_) => b")",
    }
}

// What a conversion begins with.
fn put_cast(text: &mut Vec<u8>, kind: IntegerType) -> Result<(), NoMemory>
    ensures { OnOk result (text.new.items ≡ text.old.items ++ cast_opening kind) }
{
    append(text, b"((")?;
    append(text, integer_name(kind))?;
    append(text, b")")
}

// ---- words

fn long_suffix(kind: IntegerType) -> &'static [u8]
    ensures { result.now ≡ long_mark kind }
{
    match kind {
        IntegerType::Char | IntegerType::Int => &[],
        IntegerType::Long => b"L",
    }
}

fn unary_sign(operator: UnaryOperator) -> &'static [u8]
    ensures { result.now ≡ unary_text operator }
{
    match operator {
        UnaryOperator::Plus => b"+",
        UnaryOperator::Minus => b"-",
        UnaryOperator::Complement => b"~",
    }
}

fn operator_word(operator: BinaryOperator) -> &'static [u8]
    ensures { result.now ≡ operator_text operator }
{
    match operator {
        BinaryOperator::Arithmetic { operator, .. } => arithmetic_word(operator),
        BinaryOperator::Shift { direction, .. } => shift_word(direction),
        BinaryOperator::Comparison(comparison) => comparison_word(comparison),
        BinaryOperator::Advance { way, .. } => way_word(way),
        BinaryOperator::Distance { .. } => b" - ",
        BinaryOperator::PointerComparison(comparison) => comparison_word(comparison),
        BinaryOperator::And => b" && ",
        BinaryOperator::Or => b" || ",
    }
}

fn arithmetic_word(operator: Arithmetic) -> &'static [u8]
    ensures { result.now ≡ arithmetic_text operator }
{
    match operator {
        Arithmetic::Multiply => b" * ",
        Arithmetic::Divide => b" / ",
        Arithmetic::Remainder => b" % ",
        Arithmetic::Add => b" + ",
        Arithmetic::Subtract => b" - ",
        Arithmetic::And => b" & ",
        Arithmetic::ExclusiveOr => b" ^ ",
        Arithmetic::InclusiveOr => b" | ",
    }
}

fn shift_word(direction: Direction) -> &'static [u8]
    ensures { result.now ≡ shift_text direction }
{
    match direction {
        Direction::Left => b" << ",
        Direction::Right => b" >> ",
    }
}

fn comparison_word(comparison: Comparison) -> &'static [u8]
    ensures { result.now ≡ comparison_text comparison }
{
    match comparison {
        Comparison::Less => b" < ",
        Comparison::Greater => b" > ",
        Comparison::LessEqual => b" <= ",
        Comparison::GreaterEqual => b" >= ",
        Comparison::Equal => b" == ",
        Comparison::NotEqual => b" != ",
    }
}

fn way_word(way: Way) -> &'static [u8]
    ensures { result.now ≡ way_text way }
{
    match way {
        Way::Forward => b" + ",
        Way::Back => b" - ",
    }
}
