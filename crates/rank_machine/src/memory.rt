//! A program's memory, with the places of the objects of `malloc`.

mod resumed;

ghost use Rattle.std.specs.Prelude.{◌≡◌, ◌+◌, ◌<◌, ◌≤◌, ◌^◌, [], length, IfOk, IfErr, IfSome, Some, None, unwrap_or};
ghost use Rattle.c_memory.specs.Memory.{cells_of, empty, zeroed, enter, leave, free, map_ok, malloc, used};
ghost use Rattle.c_memory.specs.Memory as spec;
ghost use Rattle.flat_code.specs.Placed.{first_fit, none_fits, without_block};
ghost use Rattle.flat_code.specs.Placed as placed;
ghost use Rattle.rank_machine.specs.Blocks.{blocks_of};

use crate::blocks::{fit, insert, remove};
use c_memory::{Memory, NULL, Objects, Spot};
use c3_base::{Cell, NoMemory};
use std::alloc::Global;
use std::marker::Model;
use variable_stack::Descriptor;

/// A memory, and where the objects of `malloc` stand. After want of memory it is empty.
#[derive(Drop)]
pub struct PlacedMemory {
    alloc: Global,
    memory: Memory,
    /// By ascending places.
    blocks: Vec<Descriptor>,
}

impl Model for PlacedMemory {
    ghost use Rattle.rank_machine.specs.Blocks.{blocks_of};
    ghost use Rattle.rank_machine.specs.Tied.{IsTied, Places};

    ghost Value = { Places };

    ghost view = { λ m. record { memory = m.memory; blocks = blocks_of m.blocks.items } };

    ghost invariant = { λ m. IsTied m.memory (blocks_of m.blocks.items) };
}

impl PlacedMemory {
    /// No object.
    pub fn new(alloc: Global) -> PlacedMemory
        ensures memory { result.memory ≡ empty }
        ensures blocks { result.blocks ≡ [] }
    {
        PlacedMemory {
            alloc,
            memory: Memory::new(alloc),
            blocks: Vec::new(alloc),
        }
    }

    /// The serial of the next object.
    pub fn next(&self) -> u64
        ensures { result ≡ self.now.memory.next }
    {
        self.memory.next()
    }

    /// The cells of the stack in use.
    pub fn in_use(&self) -> usize
        ensures used { result ≡ used self.now.memory }
        ensures few { result ≤ 8192 }
    {
        self.memory.in_use()
    }

    /// The cells of the object of a serial, or none where there is no such object.
    pub fn object(&self, serial: u64) -> &[Cell]
        ensures { result.now ≡ unwrap_or (cells_of self.now.memory serial) [] }
    {
        self.memory.object(serial)
    }

    /// Where the objects of `malloc` stand.
    pub fn blocks(&self) -> &[Descriptor]
        ensures { blocks_of result.now ≡ self.now.blocks }
    {
        &self.blocks
    }

    /// The cells of a variable become (0, 0).
    pub fn zero(&mut self, serial: u64)
        ensures memory { self.new.memory ≡ zeroed self.old.memory serial }
        ensures blocks { self.new.blocks ≡ self.old.blocks }
    {
        self.memory.zero(serial);
    }

    /// A call begins, with variables of so many cells each, or the stack has no room for it and nothing changes.
    pub fn enter(&mut self, lengths: &[u32]) -> Result<Result<(), u16>, NoMemory>
        requires { self.old.memory.next + length lengths.now < 2 ^ 64 }
        ensures memory { IfOk result (λ did. map_ok (λ done. self.new.memory) did ≡ enter self.old.memory lengths.now) }
        ensures same { IfOk result (λ did. IfErr did (λ code. self.new.memory ≡ self.old.memory)) }
        ensures blocks { IfOk result (λ did. self.new.blocks ≡ self.old.blocks) }
    {
        match self.memory.enter(lengths) {
            Err(_) => {
                *self = PlacedMemory::new(self.alloc);
                Err(NoMemory)
            }
            Ok(did) => Ok(did),
        }
    }

    /// The newest call ends, and its variables die, of which there are so many.
    pub fn leave(&mut self, count: usize)
        ensures memory { self.new.memory ≡ leave self.old.memory count }
        ensures blocks { self.new.blocks ≡ self.old.blocks }
    {
        self.memory.leave(count);
    }

    /// What `malloc` gives, where it is asked for so many cells, or for none: NULL exactly where no place fits.
    pub fn give(&mut self, asked: Option<u128>) -> Result<Cell, NoMemory>
        requires { self.old.memory.next < 2 ^ 62 }
        ensures given { IfOk result (λ given. (self.new.memory, given) ≡ malloc (none_fits self.old.blocks) self.old.memory asked) }
        ensures blocks { IfOk result (λ given. self.new.blocks ≡ placed.allocated self.old.blocks self.old.memory.next asked) }
    {
        match asked {
            None => Ok(NULL),
            // no type has objects without cells
            Some(0) => Err(NoMemory),
            Some(n) => self.allocate(n),
        }
    }

    fn allocate(&mut self, n: u128) -> Result<Cell, NoMemory>
        requires next { self.old.memory.next < 2 ^ 62 }
        requires some { 0 < n }
        ensures given { IfOk result (λ given. (self.new.memory, given) ≡ spec.allocated (none_fits self.old.blocks) self.old.memory n) }
        ensures blocks { IfOk result (λ given. self.new.blocks ≡ placed.allocated self.old.blocks self.old.memory.next (Some n)) }
    {
        match self.room(n) {
            None => self.refuse(n),
            Some(place) => self.grant(n as u32, place),
        }
    }

    // The lowest place where so many cells fit.
    fn room(&self, n: u128) -> Option<u32>
        ensures place { result ≡ first_fit self.now.blocks 0 n }
        ensures few { IfSome result (λ place. place + n ≤ 65536) }
    {
        let blocks: &[Descriptor] = &self.blocks;
        if n > 65_536 {
            return None;
        }
        fit(blocks, n as u32)
    }

    // NULL for so many cells.
    fn refuse(&mut self, n: u128) -> Result<Cell, NoMemory>
        requires next { self.old.memory.next < 2 ^ 62 }
        requires full { first_fit self.old.blocks 0 n ≡ None }
        ensures given { IfOk result (λ given. (self.new.memory, given) ≡ spec.allocated (none_fits self.old.blocks) self.old.memory n) }
        ensures blocks { IfOk result (λ given. self.new.blocks ≡ self.old.blocks) }
    {
        match self.memory.allocate(n, true) {
            Err(_) => {
                *self = PlacedMemory::new(self.alloc);
                Err(NoMemory)
            }
            Ok(given) => Ok(given),
        }
    }

    // An object of so many cells, at a place.
    fn grant(&mut self, n: u32, place: u32) -> Result<Cell, NoMemory>
        requires next { self.old.memory.next < 2 ^ 62 }
        requires some { 0 < n }
        requires fits { first_fit self.old.blocks 0 n ≡ Some place }
        ensures given { IfOk result (λ given. (self.new.memory, given) ≡ spec.allocated (none_fits self.old.blocks) self.old.memory n) }
        ensures blocks { IfOk result (λ given. self.new.blocks ≡ placed.allocated self.old.blocks self.old.memory.next (Some n)) }
    {
        let serial = self.memory.next();
        let block = Descriptor {
            serial,
            place,
            length: n,
        };
        let Ok(given) = self.memory.allocate(n as u128, false) else {
            *self = PlacedMemory::new(self.alloc);
            return Err(NoMemory);
        };
        let Ok(()) = insert(&mut self.blocks, block) else {
            *self = PlacedMemory::new(self.alloc);
            return Err(NoMemory);
        };
        Ok(given)
    }

    /// Frees an object of `malloc`, or finds a fault and changes nothing.
    pub fn free(&mut self, pointer: Cell) -> Result<(), u16>
        ensures memory { map_ok (λ done. self.new.memory) result ≡ free self.old.memory pointer }
        ensures blocks { IfOk result (λ done. self.new.blocks ≡ without_block self.old.blocks pointer.serial) }
    {
        self.memory.free(pointer)?;
        remove(&mut self.blocks, pointer.serial);
        Ok(())
    }
}

impl Objects for PlacedMemory {
    ghost use Rattle.std.specs.Prelude.{List};
    ghost use Rattle.flat_code.specs.Placed.{Block};

    ghost memory = { λ m. m.memory };

    ghost Rest = { List Block };

    ghost rest = { λ m. m.blocks };

    fn load(&self, spot: Spot) -> Result<Cell, u16> {
        self.memory.load(spot)
    }

    fn load_all(&self, spot: Spot, n: u64) -> Result<&[Cell], u16> {
        self.memory.load_all(spot, n)
    }

    fn pointing(&self, spot: Spot) -> Result<Cell, u16> {
        self.memory.pointing(spot)
    }

    fn put(&mut self, spot: Spot, cell: Cell) {
        self.memory.put(spot, cell);
    }

    fn put_numbers(&mut self, spot: Spot, numbers: &[i64]) {
        self.memory.put_numbers(spot, numbers);
    }
}
