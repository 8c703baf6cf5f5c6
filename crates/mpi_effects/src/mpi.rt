//! What calls of MPI do, when their arguments have values.

ghost use Rattle.std.specs.Prelude.{◌≡◌, ◌<◌, true, pos, unsigned_abs, map, option_map, slice_get, None, Some, IfOk, IfErr};
ghost use Rattle.mpi_words.specs.declared.operation.Op.TheVariants.{Send};
ghost use Rattle.mpi_effects.specs.declared.seat.Phase.TheVariants.{Inside};
ghost use Rattle.c_memory.specs.Memory.{map_ok, spot_of};
ghost use Rattle.c_memory.specs.Memory as memories;
ghost use Rattle.mpi_effects.specs.Mpi.{effect, code_of, received, no_message, unless_any, waits, writes, with_memory};
ghost use Rattle.mpi_effects.specs.Mpi as spec;
ghost use Rattle.mpi_effects.specs.Requests.{bytes_asked, plain_request};

use crate::requests::{Receipt, Request};
use crate::seat::{Phase, Seat};
use c_kernel::program::MpiFunction;
use c_kernel::{IntegerType, element_type};
use c_memory::{NULL, Objects, Spot, number};
use c_values::number::narrowed;
use c3_base::{Cell, NoMemory};
use mpi_words::{Datatype, List, Message, Op, Pattern, Patterns};
use std::alloc::Global;

/// What a call comes to, beside what it writes.
#[derive(Drop)]
pub struct Effect {
    pub phase: Phase,
    /// An operation that is asked for.
    pub request: Option<Request>,
}

// What a send and a receive are given: the buffer, how many elements, the other rank and the tag.
#[derive(Clone, Copy)]
struct Transfer {
    kind: Datatype,
    buffer: Cell,
    count: i64,
    rank: i64,
    tag: i64,
}

/// A call, or a fault, by which nothing changes.
pub fn call<M: Objects>(
    alloc: Global,
    seat: Seat,
    phase: Phase,
    memory: &mut M,
    function: MpiFunction,
    arguments: &[Cell],
) -> Result<Result<Effect, u16>, NoMemory>
    ensures effect { IfOk result (λ did. map_ok (with_memory (M.memory memory.new)) did ≡ effect seat phase (M.memory memory.old) function arguments.now) }
    ensures same { IfOk result (λ did. IfErr did (λ code. memory.new ≡ memory.old)) }
    ensures silent { IfOk result (λ did. IfOk did (λ e. bytes_asked e.request ≡ 0)) }
    ensures rest { M.rest memory.new ≡ M.rest memory.old }
{
    if !is_due(phase, function) {
        return Ok(Err(117));
    }
    perform(alloc, seat, memory, function, arguments)
}

// Whether the function may be called (MPI 3.1 8.7).
fn is_due(phase: Phase, function: MpiFunction) -> bool
    ensures { result ≡ spec.is_due phase function }
{
    match phase {
        Phase::Before => matches!(function, MpiFunction::Init),
        Phase::Inside => !matches!(function, MpiFunction::Init),
        Phase::After => false,
    }
}

fn perform<M: Objects>(
    alloc: Global,
    seat: Seat,
    memory: &mut M,
    function: MpiFunction,
    arguments: &[Cell],
) -> Result<Result<Effect, u16>, NoMemory>
    ensures effect { IfOk result (λ did. map_ok (with_memory (M.memory memory.new)) did ≡ spec.called seat (M.memory memory.old) function arguments.now) }
    ensures same { IfOk result (λ did. IfErr did (λ code. memory.new ≡ memory.old)) }
    ensures silent { IfOk result (λ did. IfOk did (λ e. bytes_asked e.request ≡ 0)) }
    ensures rest { M.rest memory.new ≡ M.rest memory.old }
{
    let first = argument(arguments, 0);
    match function {
        MpiFunction::Init => Ok(Ok(Effect::to(Phase::Inside))),
        MpiFunction::Finalize => Ok(Ok(Effect::to(Phase::After))),
        MpiFunction::CommRank => Ok(write(memory, first, seat.rank)),
        MpiFunction::CommSize => Ok(write(memory, first, seat.ranks)),
        MpiFunction::Send(kind) => send(alloc, seat, memory, &transfer_of(kind, arguments)),
        MpiFunction::Recv(kind) => {
            let status = given(arguments, 4);
            Ok(receive(alloc, seat, memory, &transfer_of(kind, arguments), status))
        }
        MpiFunction::GetCount(kind) => Ok(get_count(memory, kind, first, argument(arguments, 1))),
    }
}

fn argument(arguments: &[Cell], k: usize) -> Cell
    ensures { result ≡ spec.argument arguments.now k }
{
    given(arguments, k).unwrap_or(NULL)
}

// An argument, where there is one.
fn given(arguments: &[Cell], k: usize) -> Option<Cell>
    ensures { result ≡ slice_get arguments.now k }
{
    arguments.get(k).copied()
}

fn transfer_of(kind: Datatype, arguments: &[Cell]) -> Transfer
    ensures kind { result.kind ≡ kind }
    ensures buffer { result.buffer ≡ spec.argument arguments.now 0 }
    ensures count { result.count ≡ (spec.argument arguments.now 1).word }
    ensures rank { result.rank ≡ (spec.argument arguments.now 2).word }
    ensures tag { result.tag ≡ (spec.argument arguments.now 3).word }
{
    Transfer {
        kind,
        buffer: argument(arguments, 0),
        count: argument(arguments, 1).word,
        rank: argument(arguments, 2).word,
        tag: argument(arguments, 3).word,
    }
}

impl Effect {
    // No operation is asked for.
    fn to(phase: Phase) -> Effect
        ensures phase { result.phase ≡ phase }
        ensures request { result.request ≡ None }
    {
        Effect {
            phase,
            request: None,
        }
    }

    // An operation is asked for.
    fn of(request: Request) -> Effect
        ensures phase { result.phase ≡ Inside }
        ensures request { result.request ≡ Some request }
    {
        Effect {
            phase: Phase::Inside,
            request: Some(request),
        }
    }
}

// A number goes where a pointer points.
fn write<M: Objects>(memory: &mut M, pointer: Cell, n: u16) -> Result<Effect, u16>
    ensures effect { map_ok (with_memory (M.memory memory.new)) result ≡ writes (M.memory memory.old) pointer (pos n) }
    ensures same { IfErr result (λ code. memory.new ≡ memory.old) }
    ensures silent { IfOk result (λ e. bytes_asked e.request ≡ 0) }
    ensures rest { M.rest memory.new ≡ M.rest memory.old }
{
    memory.store(Spot::of(pointer), number(i64::from(n)))?;
    Ok(Effect::to(Phase::Inside))
}

// `MPI_Send` (MPI 3.1 3.2.1).
fn send<M: Objects>(
    alloc: Global,
    seat: Seat,
    memory: &M,
    t: &Transfer,
) -> Result<Result<Effect, u16>, NoMemory>
    ensures effect { IfOk result (λ did. map_ok (with_memory (M.memory memory.now)) did ≡ spec.send seat (M.memory memory.now) t.now.kind t.now.buffer t.now.count t.now.rank t.now.tag) }
    ensures silent { IfOk result (λ did. IfOk did (λ e. bytes_asked e.request ≡ 0)) }
{
    if !is_count(t.count) {
        return Ok(Err(116));
    }
    if !is_destination(seat, t.rank) {
        return Ok(Err(113));
    }
    if !is_tag(t.tag) {
        return Ok(Err(114));
    }
    if is_proc_null(t.rank) {
        return Ok(Ok(Effect::to(Phase::Inside)));
    }
    match memory.load_all(Spot::of(t.buffer), t.count.unsigned_abs()) {
        Err(code) => Ok(Err(code)),
        Ok(cells) => {
            let message = message(alloc, t.kind, t.tag, cells)?;
            Ok(Ok(Effect::of(sending(t.rank, message))))
        }
    }
}

// A message of these numbers.
fn message(alloc: Global, kind: Datatype, tag: i64, cells: &[Cell]) -> Result<Message, NoMemory>
    ensures { IfOk result (λ message. message ≡ spec.message kind tag cells.now) }
{
    let mut items = List::new(alloc);
    for c in cells {
        items.push(narrowed(element_type(kind), c.word))?;
    }
    Ok(Message {
        context: 0,
        tag,
        kind,
        items,
    })
}

// A message that goes to a rank.
fn sending(rank: i64, message: Message) -> Request
    requires { unsigned_abs rank < 65536 }
    ensures { result ≡ plain_request (Send (unsigned_abs rank) message) }
{
    Request::plain(Op::Send {
        to: rank.unsigned_abs() as u16,
        message,
    })
}

// `MPI_Recv` (MPI 3.1 3.2.4). A status that is ignored is none.
fn receive<M: Objects>(
    alloc: Global,
    seat: Seat,
    memory: &mut M,
    t: &Transfer,
    status: Option<Cell>,
) -> Result<Effect, u16>
    ensures effect { map_ok (with_memory (M.memory memory.new)) result ≡ spec.receive seat (M.memory memory.old) t.now.kind t.now.buffer t.now.count t.now.rank t.now.tag status }
    ensures same { IfErr result (λ code. memory.new ≡ memory.old) }
    ensures silent { IfOk result (λ e. bytes_asked e.request ≡ 0) }
    ensures rest { M.rest memory.new ≡ M.rest memory.old }
{
    if !is_count(t.count) {
        return Err(116);
    }
    if !is_source(seat, t.rank) {
        return Err(113);
    }
    if !is_tag(t.tag) && !is_any(t.tag) {
        return Err(114);
    }
    if is_proc_null(t.rank) {
        return skip(memory, spot_at(status));
    }
    wait(alloc, memory, t, spot_at(status))
}

// From `MPI_PROC_NULL` nothing comes (MPI 3.1 3.11).
fn skip<M: Objects>(memory: &mut M, status: Option<Spot>) -> Result<Effect, u16>
    ensures effect { map_ok (with_memory (M.memory memory.new)) result ≡ no_message (M.memory memory.old) status }
    ensures same { IfErr result (λ code. memory.new ≡ memory.old) }
    ensures silent { IfOk result (λ e. bytes_asked e.request ≡ 0) }
    ensures rest { M.rest memory.new ≡ M.rest memory.old }
{
    tested_status(memory, status)?;
    put_status(memory, status, &[-2, -1, 0, 0]);
    Ok(Effect::to(Phase::Inside))
}

// A receive waits for its message.
fn wait<M: Objects>(
    alloc: Global,
    memory: &M,
    t: &Transfer,
    status: Option<Spot>,
) -> Result<Effect, u16>
    requires count { unsigned_abs t.now.count < 65536 }
    requires rank { unsigned_abs t.now.rank < 65536 }
    ensures effect { map_ok (with_memory (M.memory memory.now)) result ≡ waits (M.memory memory.now) t.now.kind (spot_of t.now.buffer) (unsigned_abs t.now.count) t.now.rank t.now.tag status }
    ensures silent { IfOk result (λ e. bytes_asked e.request ≡ 0) }
{
    memory.load_all(Spot::of(t.buffer), t.count.unsigned_abs())?;
    tested_status(memory, status)?;
    Ok(Effect::of(receiving(alloc, t, status)))
}

// What it waits for.
fn receiving(alloc: Global, t: &Transfer, status: Option<Spot>) -> Request
    requires count { unsigned_abs t.now.count < 65536 }
    requires rank { unsigned_abs t.now.rank < 65536 }
    ensures { result ≡ spec.receiving t.now.kind (spot_of t.now.buffer) (unsigned_abs t.now.count) t.now.rank t.now.tag status }
{
    let pattern = Pattern {
        source: source(t.rank),
        context: 0,
        tag: tag(t.tag),
    };
    let receipt = Receipt {
        buffer: Spot::of(t.buffer),
        count: t.count.unsigned_abs() as u16,
        kind: t.kind,
        status,
    };
    Request {
        operation: Op::Receive {
            patterns: Patterns::one(alloc, pattern),
        },
        receipt: Some(receipt),
    }
}

fn spot_at(status: Option<Cell>) -> Option<Spot>
    ensures { result ≡ option_map spot_of status }
{
    match status {
        None => None,
        Some(pointer) => Some(Spot::of(pointer)),
    }
}

// A rank, or none for any.
fn source(rank: i64) -> Option<u16>
    requires { unsigned_abs rank < 65536 }
    ensures { result ≡ option_map unsigned_abs (unless_any rank) }
{
    if is_any(rank) {
        None
    } else {
        Some(rank.unsigned_abs() as u16)
    }
}

// A tag, or none for any.
fn tag(tag: i64) -> Option<i64>
    ensures { result ≡ unless_any tag }
{
    if is_any(tag) { None } else { Some(tag) }
}

// `MPI_Get_count` (MPI 3.1 3.2.5).
fn get_count<M: Objects>(
    memory: &mut M,
    kind: Datatype,
    status: Cell,
    pointer: Cell,
) -> Result<Effect, u16>
    ensures effect { map_ok (with_memory (M.memory memory.new)) result ≡ spec.get_count (M.memory memory.old) kind status pointer }
    ensures same { IfErr result (λ code. memory.new ≡ memory.old) }
    ensures silent { IfOk result (λ e. bytes_asked e.request ≡ 0) }
    ensures rest { M.rest memory.new ≡ M.rest memory.old }
{
    let cells = memory.load_all(Spot::of(status), 4)?;
    let count = status_word(cells, 2);
    let found = status_word(cells, 3);
    let result = Spot::of(pointer);
    memory.load(result)?;
    if found != 0 && found != i64::from(code(kind)) {
        return Err(112);
    }
    memory.put(result, number(count));
    Ok(Effect::to(Phase::Inside))
}

// A cell of a status, as an int.
fn status_word(cells: &[Cell], k: usize) -> i64
    ensures { result ≡ spec.status_word cells.now k }
{
    narrowed(IntegerType::Int, argument(cells, k).word)
}

// A status that isn't ignored has four cells.
fn tested_status<M: Objects>(memory: &M, status: Option<Spot>) -> Result<&[Cell], u16>
    ensures { map_ok (λ cells. cells.now) result ≡ spec.tested_status (M.memory memory.now) status }
{
    match status {
        None => Ok(&[]),
        Some(spot) => memory.load_all(spot, 4),
    }
}

/// The message that a receive gets, and its status, are written, or it is a fault.
pub fn take_in<M: Objects>(
    memory: &mut M,
    receipt: Receipt,
    source: u16,
    message: &Message,
) -> Result<(), u16>
    ensures memory { map_ok (λ done. M.memory memory.new) result ≡ received receipt (M.memory memory.old) source message.now }
    ensures rest { M.rest memory.new ≡ M.rest memory.old }
{
    if code(message.kind) != code(receipt.kind) {
        return Err(112);
    }
    let items = message.items.as_slice();
    let count = items.len() as u64;
    if count > u64::from(receipt.count) {
        return Err(111);
    }
    memory.put_numbers(receipt.buffer, items);
    let kind = i64::from(code(message.kind));
    let status = [i64::from(source), message.tag, count as i64, kind];
    put_status(memory, receipt.status, &status);
    Ok(())
}

// A status is set, unless it is ignored.
fn put_status<M: Objects>(memory: &mut M, status: Option<Spot>, numbers: &[i64])
    ensures memory { M.memory memory.new ≡ spec.put_status (M.memory memory.old) status (map memories.number numbers.now) }
    ensures rest { M.rest memory.new ≡ M.rest memory.old }
{
    if let Some(spot) = status {
        memory.put_numbers(spot, numbers);
    }
}

// A status's kind.
fn code(kind: Datatype) -> u8
    ensures { result ≡ code_of kind }
{
    match kind {
        Datatype::Char => 1,
        Datatype::Int => 2,
        Datatype::Long => 3,
    }
}

// Whether a number is from 0 to n - 1.
fn is_below(n: u16, z: i64) -> bool
    ensures is { result ≡ spec.is_below n z }
    ensures near { result ≡ true → unsigned_abs z < 65536 }
{
    0 <= z && z < i64::from(n)
}

fn is_count(n: i64) -> bool
    ensures is { result ≡ spec.is_count n }
    ensures near { result ≡ true → unsigned_abs n < 65536 }
{
    is_below(4097, n)
}

fn is_tag(n: i64) -> bool
    ensures { result ≡ spec.is_tag n }
{
    is_below(32_768, n)
}

fn is_any(n: i64) -> bool
    ensures { result ≡ spec.is_any n }
{
    n == -1
}

fn is_proc_null(n: i64) -> bool
    ensures { result ≡ spec.is_proc_null n }
{
    n == -2
}

// Whether a message may go to a rank.
fn is_destination(seat: Seat, n: i64) -> bool
    ensures is { result ≡ spec.is_destination seat n }
    ensures near { result ≡ true → unsigned_abs n < 65536 }
{
    is_below(seat.ranks, n) || is_proc_null(n)
}

// Whether a message may come from a rank.
fn is_source(seat: Seat, n: i64) -> bool
    ensures is { result ≡ spec.is_source seat n }
    ensures near { result ≡ true → unsigned_abs n < 65536 }
{
    is_below(seat.ranks, n) || is_proc_null(n) || seat.any_source && is_any(n)
}
