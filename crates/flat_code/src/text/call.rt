//! Calls and their arguments.

ghost use Rattle.std.specs.Prelude.{◌≡◌, ◌++◌, ◌∷◌, [], IfOk, OnOk, codes, map};
ghost use Rattle.c_kernel.specs.declared.program.MpiFunction.TheVariants.{Recv, Send};
ghost use Rattle.flat_code.specs.Text.{call_text, datatype_text, escaped, format_text, init_arguments, joined, listed, mpi_arguments, mpi_name, mpi_text, piece_text, status_argument, text_of, texts_of, world};

use crate::text::expression::put_expression;
use c_kernel::Struct;
use c_kernel::program::{Expr, MpiCall, MpiFunction, Piece};
use c3_base::{NoMemory, append};
use mpi_words::Datatype;
use sqlite_items::Items;
use std::alloc::Global;

/// A call as a statement.
pub fn put_call(text: &mut Vec<u8>, name: &[u8], arguments: &[Vec<u8>]) -> Result<(), NoMemory>
    ensures { OnOk result (text.new.items ≡ text.old.items ++ call_text name.now (map (λ a. a.items) arguments.now)) }
{
    append(text, name)?;
    append(text, b"(")?;
    put_joined(text, arguments)?;
    append(text, b");")
}

fn put_joined(text: &mut Vec<u8>, arguments: &[Vec<u8>]) -> Result<(), NoMemory>
    ensures { OnOk result (text.new.items ≡ text.old.items ++ joined (map (λ a. a.items) arguments.now)) }
{
    match arguments {
        [] => Ok(()),
        [first, more @ ..] => {
            append(text, first)?;
            put_listed(text, more)
        }
    }
}

fn put_listed(text: &mut Vec<u8>, arguments: &[Vec<u8>]) -> Result<(), NoMemory>
    ensures { OnOk result (text.new.items ≡ text.old.items ++ listed (map (λ a. a.items) arguments.now)) }
{
    for argument in arguments {
        append(text, b", ")?;
        append(text, argument)?;
    }
    Ok(())
}

// ---- arguments

/// The texts of expressions.
pub fn texts(alloc: Global, structs: &[Struct], es: &[Expr]) -> Result<Vec<Vec<u8>>, NoMemory>
    ensures { IfOk result (λ texts. map (λ a. a.items) texts.items ≡ texts_of structs.now es.now) }
{
    let mut texts = Vec::new(alloc);
    add_texts(alloc, &mut texts, structs, es)?;
    Ok(texts)
}

/// The same, at a list's end.
pub fn add_texts(
    alloc: Global,
    texts: &mut Vec<Vec<u8>>,
    structs: &[Struct],
    es: &[Expr],
) -> Result<(), NoMemory>
    ensures { OnOk result (map (λ a. a.items) texts.new.items ≡ map (λ a. a.items) texts.old.items ++ texts_of structs.now es.now) }
{
    for e in es {
        texts.push(expression_text(alloc, structs, e)?)?;
    }
    Ok(())
}

/// The text of an expression.
pub fn expression_text(alloc: Global, structs: &[Struct], e: &Expr) -> Result<Vec<u8>, NoMemory>
    ensures { IfOk result (λ text. text.items ≡ text_of structs.now e.now) }
{
    let mut text = Vec::new(alloc);
    put_expression(alloc, &mut text, structs, e)?;
    Ok(text)
}

// A word at a list's end.
fn add_word(alloc: Global, texts: &mut Vec<Vec<u8>>, word: &[u8]) -> Result<(), NoMemory>
    ensures { OnOk result (map (λ a. a.items) texts.new.items ≡ map (λ a. a.items) texts.old.items ++ word.now ∷ []) }
{
    texts.push(Vec::from_slice(alloc, word)?)?;
    Ok(())
}

// ---- printf

/// The text of `printf`.
pub fn put_print(
    alloc: Global,
    text: &mut Vec<u8>,
    structs: &[Struct],
    format: &[Piece],
    es: &[Expr],
) -> Result<(), NoMemory>
    ensures { OnOk result (text.new.items ≡ text.old.items ++ call_text (codes "printf") (format_text format.now ∷ texts_of structs.now es.now)) }
{
    let mut arguments = Vec::new(alloc);
    arguments.push(format_of(alloc, format)?)?;
    add_texts(alloc, &mut arguments, structs, es)?;
    put_call(text, b"printf", &arguments)
}

fn format_of(alloc: Global, format: &[Piece]) -> Result<Vec<u8>, NoMemory>
    ensures { IfOk result (λ text. text.items ≡ format_text format.now) }
{
    let mut text = Vec::from_slice(alloc, b"\"")?;
    for piece in format {
        put_piece(&mut text, *piece)?;
    }
    append(&mut text, b"\"")?;
    Ok(text)
}

fn put_piece(text: &mut Vec<u8>, piece: Piece) -> Result<(), NoMemory>
    ensures { OnOk result (text.new.items ≡ text.old.items ++ piece_text piece) }
{
    match piece {
        Piece::Byte(byte) => put_escaped(text, byte),
        Piece::Decimal => append(text, b"%d"),
        Piece::LongDecimal => append(text, b"%ld"),
        Piece::Character => append(text, b"%c"),
    }
}

fn put_escaped(text: &mut Vec<u8>, byte: u8) -> Result<(), NoMemory>
    ensures { OnOk result (text.new.items ≡ text.old.items ++ escaped byte) }
{
    match byte {
        b'\n' => append(text, b"\\n"),
        b'\t' => append(text, b"\\t"),
        b'\\' => append(text, b"\\\\"),
        b'"' => append(text, b"\\\""),
        b'%' => append(text, b"%%"),
        _ => append(text, &[byte]),
    }
}

// ---- MPI

/// The text of a call of MPI.
pub fn put_mpi(
    alloc: Global,
    text: &mut Vec<u8>,
    structs: &[Struct],
    call: &MpiCall,
) -> Result<(), NoMemory>
    ensures { OnOk result (text.new.items ≡ text.old.items ++ mpi_text structs.now call.now) }
{
    let arguments = arguments_of(alloc, structs, call)?;
    put_call(text, function_word(call.function), &arguments)
}

fn function_word(function: MpiFunction) -> &'static [u8]
    ensures { result.now ≡ mpi_name function }
{
    match function {
        MpiFunction::Init => b"MPI_Init",
        MpiFunction::Finalize => b"MPI_Finalize",
        MpiFunction::CommRank => b"MPI_Comm_rank",
        MpiFunction::CommSize => b"MPI_Comm_size",
        MpiFunction::Send(_) => b"MPI_Send",
        MpiFunction::Recv(_) => b"MPI_Recv",
        MpiFunction::GetCount(_) => b"MPI_Get_count",
    }
}

fn datatype_word(kind: Datatype) -> &'static [u8]
    ensures { result.now ≡ datatype_text kind }
{
    match kind {
        Datatype::Char => b"MPI_CHAR",
        Datatype::Int => b"MPI_INT",
        Datatype::Long => b"MPI_LONG",
    }
}

const WORLD: &[u8] = b"MPI_COMM_WORLD";

// All arguments, in the order of the call (MPI 3.1 3.2, 8.7).
fn arguments_of(alloc: Global, structs: &[Struct], call: &MpiCall) -> Result<Vec<Vec<u8>>, NoMemory>
    ensures { IfOk result (λ texts. map (λ a. a.items) texts.items ≡ mpi_arguments call.now.function call.now.names (texts_of structs.now call.now.arguments)) }
{
    let es = call.arguments.as_slice();
    match call.function {
        MpiFunction::Init => init_texts(alloc, call.names.as_slice()),
        MpiFunction::Finalize => Ok(Vec::new(alloc)),
        MpiFunction::CommRank | MpiFunction::CommSize => world_texts(alloc, structs, es),
        MpiFunction::Send(kind) => send_texts(alloc, structs, kind, es),
        MpiFunction::Recv(kind) => receive_texts(alloc, structs, kind, es),
        MpiFunction::GetCount(kind) => {
            let (status, result) = es.split_at(es.len().min(1));
            typed_texts(alloc, structs, status, kind, result)
        }
    }
}

// `NULL, NULL`, or the addresses of two names.
fn init_texts(alloc: Global, names: &[Items<u8>]) -> Result<Vec<Vec<u8>>, NoMemory>
    ensures { IfOk result (λ texts. map (λ a. a.items) texts.items ≡ init_arguments names.now) }
{
    let mut texts = Vec::new(alloc);
    if names.is_empty() {
        add_word(alloc, &mut texts, b"NULL")?;
        add_word(alloc, &mut texts, b"NULL")?;
    }
    for name in names {
        let mut address = Vec::from_slice(alloc, b"&")?;
        append(&mut address, name.as_slice())?;
        texts.push(address)?;
    }
    Ok(texts)
}

fn world_texts(alloc: Global, structs: &[Struct], es: &[Expr]) -> Result<Vec<Vec<u8>>, NoMemory>
    ensures { IfOk result (λ texts. map (λ a. a.items) texts.items ≡ world ∷ texts_of structs.now es.now) }
{
    let mut texts = Vec::new(alloc);
    add_word(alloc, &mut texts, WORLD)?;
    add_texts(alloc, &mut texts, structs, es)?;
    Ok(texts)
}

// A datatype between arguments.
fn typed_texts(
    alloc: Global,
    structs: &[Struct],
    before: &[Expr],
    kind: Datatype,
    after: &[Expr],
) -> Result<Vec<Vec<u8>>, NoMemory>
    ensures { IfOk result (λ texts. map (λ a. a.items) texts.items ≡ texts_of structs.now before.now ++ datatype_text kind ∷ texts_of structs.now after.now) }
{
    let mut texts = texts(alloc, structs, before)?;
    add_word(alloc, &mut texts, datatype_word(kind))?;
    add_texts(alloc, &mut texts, structs, after)?;
    Ok(texts)
}

fn send_texts(
    alloc: Global,
    structs: &[Struct],
    kind: Datatype,
    es: &[Expr],
) -> Result<Vec<Vec<u8>>, NoMemory>
    ensures { IfOk result (λ texts. map (λ a. a.items) texts.items ≡ mpi_arguments (Send kind) [] (texts_of structs.now es.now)) }
{
    let (buffer, target) = es.split_at(es.len().min(2));
    let mut texts = typed_texts(alloc, structs, buffer, kind, target)?;
    add_word(alloc, &mut texts, WORLD)?;
    Ok(texts)
}

fn receive_texts(
    alloc: Global,
    structs: &[Struct],
    kind: Datatype,
    es: &[Expr],
) -> Result<Vec<Vec<u8>>, NoMemory>
    ensures { IfOk result (λ texts. map (λ a. a.items) texts.items ≡ mpi_arguments (Recv kind) [] (texts_of structs.now es.now)) }
{
    let (buffer, more) = es.split_at(es.len().min(2));
    let (source, status) = more.split_at(more.len().min(2));
    let mut texts = typed_texts(alloc, structs, buffer, kind, source)?;
    add_word(alloc, &mut texts, WORLD)?;
    add_status(alloc, &mut texts, structs, status)?;
    Ok(texts)
}

fn add_status(
    alloc: Global,
    texts: &mut Vec<Vec<u8>>,
    structs: &[Struct],
    status: &[Expr],
) -> Result<(), NoMemory>
    ensures { OnOk result (map (λ a. a.items) texts.new.items ≡ map (λ a. a.items) texts.old.items ++ status_argument (texts_of structs.now status.now)) }
{
    match status {
        [] => add_word(alloc, texts, b"MPI_STATUS_IGNORE"),
        [..] => add_texts(alloc, texts, structs, status),
    }
}
