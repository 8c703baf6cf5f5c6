//! The memory of a program.

mod resumed;

ghost use Rattle.std.specs.Prelude.{◌≡◌, ◌+◌, ◌<◌, ◌≤◌, ◌^◌, length, IfOk, IfErr, Some, option_map, false, nat_eq, nat_lt, pos};
ghost use Rattle.c_memory.specs.Memory as spec;
ghost use Rattle.c_memory.specs.Memory.{empty, cells_of, load, put, load_all, pointing, zeroed, used, enter, leave, grant, free, is_full, map_ok, total, add_variable, allocated, malloc};

use crate::cell::NULL;
use crate::object::{Object, find, put, put_numbers, take_away, total_cells, zero};
use crate::objects::Objects;
use crate::spot::Spot;
use c_kernel::Extent;
use c3_base::Cell;
use std::alloc::{AllocError, Global};
use std::marker::Model;

/// The variables of the calls that are under way and the objects of `malloc`, both the oldest first, the next serial, how many calls, cells of variables and cells of such objects there are, and how many cells `malloc` was ever asked for.
#[derive(Drop)]
pub struct Memory {
    alloc: Global,
    variables: Vec<Object>,
    heap: Vec<Object>,
    next: u64,
    calls: usize,
    taken: usize,
    live: usize,
    asked: u32,
}

impl Model for Memory {
    ghost use Rattle.c_memory.specs.Memory as definition;
    ghost use Rattle.c_memory.specs.Seen.{objects_of};

    ghost Value = { definition.Memory };

    ghost use Rattle.c_memory.specs.Kept.{IsKept};

    ghost view = { λ m. record { variables = objects_of m.variables.items; heap = objects_of m.heap.items; next = m.next; calls = m.calls; asked = m.asked } };

    ghost invariant = { IsKept };
}

impl Memory {
    /// No object.
    pub fn new(alloc: Global) -> Memory
        ensures { result ≡ empty }
    {
        Memory {
            alloc,
            variables: Vec::new(alloc),
            heap: Vec::new(alloc),
            next: 1,
            calls: 0,
            taken: 0,
            live: 0,
            asked: 0,
        }
    }

    /// The serial of the next object.
    pub fn next(&self) -> u64
        ensures { result ≡ self.now.next }
    {
        self.next
    }

    // The cells of the object of a serial.
    fn cells(&self, serial: u64) -> Option<&[Cell]>
        ensures { option_map (λ cells. cells.now) result ≡ cells_of self.now serial }
    {
        match find(&self.variables, serial) {
            Some(cells) => Some(cells),
            None => find(&self.heap, serial),
        }
    }

    /// The cells of the object of a serial become (0, 0).
    pub fn zero(&mut self, serial: u64)
        ensures { self.new ≡ zeroed self.old serial }
    {
        zero(&mut self.variables, serial);
    }

    /// A call begins, with variables of so many cells each, or the stack has no room for it and nothing changes.
    pub fn enter(&mut self, lengths: &[u32]) -> Result<Result<(), u16>, AllocError>
        requires { self.old.next + length lengths.now < 2 ^ 64 }
        ensures done { IfOk result (λ did. map_ok (λ done. self.new) did ≡ enter self.old lengths.now) }
        ensures same { IfOk result (λ did. IfErr did (λ code. self.new ≡ self.old)) }
    {
        if is_over(lengths, self.calls + self.taken + 1) {
            return Ok(Err(108));
        }
        self.calls += 1;
        for n in lengths {
            self.add(*n)?;
        }
        Ok(Ok(()))
    }

    // One more variable.
    fn add(&mut self, n: u32) -> Result<(), AllocError>
        requires next { self.old.next + 1 < 2 ^ 64 }
        requires room { used self.old + n ≤ 8192 }
        ensures { IfOk result (λ done. self.new ≡ add_variable self.old n) }
    {
        let cells = vec![in self.alloc; NULL; n as usize]?;
        self.variables.push(Object {
            serial: self.next,
            cells,
        })?;
        self.next += 1;
        self.taken += n as usize;
        Ok(())
    }

    /// The newest call ends, and its variables die, of which there are so many.
    pub fn leave(&mut self, count: usize)
        ensures { self.new ≡ leave self.old count }
    {
        let kept = self.variables.len().saturating_sub(count);
        let gone = total_cells(&self.variables[kept..]);
        self.variables.truncate(kept);
        self.taken -= gone;
        self.calls = self.calls.saturating_sub(1);
    }

    /// What `malloc` gives, where it is asked for so many cells, or for none.
    pub fn give(&mut self, asked: Option<u128>) -> Result<Cell, AllocError>
        requires { self.old.next < 2 ^ 62 }
        ensures { IfOk result (λ given. (self.new, given) ≡ malloc is_full self.old asked) }
    {
        match asked {
            None => Ok(NULL),
            Some(n) => self.malloc(n),
        }
    }

    /// A pointer to a new object of so many cells, or NULL where the objects of `malloc` would then have more than 65,536.
    pub fn malloc(&mut self, n: u128) -> Result<Cell, AllocError>
        requires { self.old.next + 1 < 2 ^ 64 }
        ensures given { IfOk result (λ given. (self.new, given) ≡ allocated is_full self.old n) }
        ensures refused { IfOk result (λ given. nat_eq given.serial 0 ≡ is_full self.old n) }
    {
        if self.is_full(n) {
            self.asked = asked_with(self.asked, n);
            return Ok(NULL);
        }
        self.grant(n as u32)
    }

    /// A pointer to a new object of so many cells, or NULL, where the caller refuses it and the cells that were ever asked for, with these, are more than 65,536.
    pub fn allocate(&mut self, n: u128, refuses: bool) -> Result<Cell, AllocError>
        requires next { self.old.next + 1 < 2 ^ 64 }
        requires room { refuses ≡ false → is_full self.old n ≡ false }
        ensures { IfOk result (λ given. (self.new, given) ≡ allocated (λ m k. refuses) self.old n) }
    {
        let asked = asked_with(self.asked, n);
        if refuses && asked > 65_536 {
            self.asked = asked;
            return Ok(NULL);
        }
        self.grant(n as u32)
    }

    // Whether objects of malloc have no room for so many cells more.
    fn is_full(&self, n: u128) -> bool
        ensures { result ≡ is_full self.now n }
    {
        n > 65_536 || self.live + n as usize > 65_536
    }

    // A new object of so many cells, for which there is room.
    fn grant(&mut self, n: u32) -> Result<Cell, AllocError>
        requires next { self.old.next + 1 < 2 ^ 64 }
        requires room { is_full self.old n ≡ false }
        ensures memory { IfOk result (λ given. self.new ≡ grant self.old n) }
        ensures pointer { IfOk result (λ given. given ≡ spec.pointer self.old.next (pos 0)) }
    {
        let cells = vec![in self.alloc; NULL; n as usize]?;
        let serial = self.next;
        self.heap.push(Object { serial, cells })?;
        self.next += 1;
        self.live += n as usize;
        self.asked = asked_with(self.asked, u128::from(n));
        Ok(Cell { word: 0, serial })
    }

    /// Frees an object of `malloc`, or finds a fault and changes nothing.
    pub fn free(&mut self, pointer: Cell) -> Result<(), u16>
        ensures done { map_ok (λ done. self.new) result ≡ free self.old pointer }
        ensures same { IfErr result (λ code. self.new ≡ self.old) }
    {
        if pointer.serial == 0 {
            return Ok(());
        }
        if find(&self.variables, pointer.serial).is_some() {
            return Err(104);
        }
        if find(&self.heap, pointer.serial).is_none() {
            return Err(103);
        }
        if pointer.word != 0 {
            return Err(104);
        }
        self.live -= take_away(&mut self.heap, pointer.serial);
        Ok(())
    }
}

impl Objects for Memory {
    ghost memory = { λ m. m };

    ghost Rest = { Unit {0} };

    ghost rest = { λ m. tt };

    fn load(&self, spot: Spot) -> Result<Cell, u16> {
        if spot.serial == 0 {
            return Err(101);
        }
        match self.cells(spot.serial) {
            None => Err(103),
            Some(cells) => cell_at(cells, spot.place),
        }
    }

    fn load_all(&self, spot: Spot, n: u64) -> Result<&[Cell], u16> {
        if n == 0 {
            Ok(&[])
        } else if spot.serial == 0 {
            Err(101)
        } else {
            piece(self.cells(spot.serial), spot.place, n)
        }
    }

    fn pointing(&self, spot: Spot) -> Result<Cell, u16> {
        if spot.serial == 0 {
            return Err(110);
        }
        match self.cells(spot.serial) {
            None => Err(103),
            Some(cells) => pointer_within(cells, spot),
        }
    }

    fn put(&mut self, spot: Spot, cell: Cell) {
        match find(&self.variables, spot.serial) {
            Some(_) => put(&mut self.variables, spot, cell),
            None => put(&mut self.heap, spot, cell),
        }
    }

    fn put_numbers(&mut self, spot: Spot, numbers: &[i64]) {
        match find(&self.variables, spot.serial) {
            Some(_) => put_numbers(&mut self.variables, spot, numbers),
            None => put_numbers(&mut self.heap, spot, numbers),
        }
    }
}

/// How many cells so many bytes hold, in objects of a type. None, where they hold no object.
pub fn cells_asked(bytes: i64, each: Extent) -> Option<u128>
    ensures { result ≡ spec.cells_asked bytes each }
{
    if bytes < 0 || each.size == 0 {
        return None;
    }
    let count = bytes as u64 / u64::from(each.size);
    if count == 0 {
        return None;
    }
    Some(u128::from(count) * u128::from(each.cells))
}

// The cells that malloc was ever asked for, with these.
fn asked_with(asked: u32, n: u128) -> u32
    ensures { result ≡ spec.asked_with asked n }
{
    if n > 65_536 || u128::from(asked) + n > 65_536 {
        65_537
    } else {
        asked + n as u32
    }
}

// Whether so many cells and these are more than the stack's 8,192.
fn is_over(lengths: &[u32], from: usize) -> bool
    requires { from ≤ 8193 }
    ensures { result ≡ nat_lt 8192 (from + total lengths.now) }
{
    let mut sum = from as u64;
    for n in lengths {
        sum += *n as u64;
        if sum > 8192 {
            return true;
        }
    }
    sum > 8192
}

// The cell at a place.
fn cell_at(cells: &[Cell], place: i128) -> Result<Cell, u16>
    ensures { result ≡ spec.cell_at cells.now place }
{
    if place < 0 || place >= cells.len() as i128 {
        return Err(102);
    }
    Ok(cells[place as usize])
}

// So many cells of an object from a place on.
fn piece(cells: Option<&[Cell]>, place: i128, n: u64) -> Result<&[Cell], u16>
    ensures { map_ok (λ piece. piece.now) result ≡ spec.piece_in (option_map (λ found. found.now) cells.entry) place n }
{
    match cells {
        None => Err(103),
        Some(cells) => piece_of(cells, place, n),
    }
}

fn piece_of(cells: &[Cell], place: i128, n: u64) -> Result<&[Cell], u16>
    ensures { map_ok (λ piece. piece.now) result ≡ spec.piece_in (Some cells.now) place n }
{
    if are_in(cells, place, n) {
        Ok(&cells[place as usize..][..n as usize])
    } else {
        Err(102)
    }
}

fn are_in(cells: &[Cell], place: i128, n: u64) -> bool
    ensures { result ≡ spec.are_in cells.now place n }
{
    place >= 0 && place <= cells.len() as i128 - i128::from(n)
}

// A pointer to a place in an object with these cells.
fn pointer_within(cells: &[Cell], spot: Spot) -> Result<Cell, u16>
    ensures { result ≡ spec.pointing_in (Some cells.now) spot }
{
    if spot.place < 0 || spot.place > cells.len() as i128 {
        return Err(110);
    }
    Ok(Cell {
        word: spot.place as i64,
        serial: spot.serial,
    })
}
