//! Objects by their serials.

ghost use Rattle.std.specs.Prelude.{◌≡◌, ◌+◌, ◌<◌, ◌^◌, ℕ, option_map, length, map, replicate, IfSome};
ghost use Rattle.c_memory.specs.Order.{IsRising, place_of};
ghost use Rattle.c_memory.specs.Seen.{serial_of, objects_of};
ghost use Rattle.c_memory.specs.Memory as memory;
ghost use Rattle.c_memory.specs.Memory.{find_object, put_cell, zero_object, without, with_cell, cells_in};
ghost use Rattle.c_memory.specs.Written.{put_cells, with_cells};

use crate::cell::{NULL, number};
use crate::spot::Spot;
use c3_base::Cell;

/// An object.
#[derive(Drop)]
pub struct Object {
    pub serial: u64,
    pub cells: Vec<Cell>,
}

/// Where the object of a serial stands, among objects with ascending serials.
pub fn place(objects: &[Object], serial: u64) -> Option<usize>
    requires { IsRising serial_of 0 objects.now (2 ^ 64) }
    ensures place { result ≡ place_of serial_of objects.now serial }
    ensures within { IfSome result (λ i. i < length objects.now) }
{
    let mut low = 0;
    let mut high = objects.len();
    while low < high {
        let middle = low + (high - low) / 2;
        if objects[middle].serial < serial {
            low = middle + 1;
        } else {
            high = middle;
        }
    }
    if low < objects.len() && objects[low].serial == serial {
        Some(low)
    } else {
        None
    }
}

/// The cells of the object of a serial.
pub fn find(objects: &[Object], serial: u64) -> Option<&[Cell]>
    requires { IsRising serial_of 0 objects.now (2 ^ 64) }
    ensures { option_map (λ cells. cells.now) result ≡ find_object (objects_of objects.now) serial }
{
    match place(objects, serial) {
        None => None,
        Some(i) => Some(&objects[i].cells),
    }
}

/// Puts a cell at a place.
pub fn put(objects: &mut Vec<Object>, spot: Spot, cell: Cell)
    requires { IsRising serial_of 0 objects.old.items (2 ^ 64) }
    ensures cells { cells_in (objects_of objects.new.items) ≡ cells_in (objects_of objects.old.items) }
    ensures put { objects_of objects.new.items ≡ put_cell (objects_of objects.old.items) spot cell }
    ensures rising { (low : ℕ) → (high : ℕ) → IsRising serial_of low objects.old.items high → IsRising serial_of low objects.new.items high }
{
    if let Some(i) = place(objects, spot.serial) {
        put_in(&mut objects[i].cells, spot.place, cell);
    }
}

// Puts a cell among others.
fn put_in(cells: &mut Vec<Cell>, at: i128, cell: Cell)
    ensures { cells.new.items ≡ with_cell cells.old.items at cell }
{
    if at >= 0 && at < cells.len() as i128 {
        cells[at as usize] = cell;
    }
}

/// Puts numbers from a place on.
pub fn put_numbers(objects: &mut Vec<Object>, spot: Spot, numbers: &[i64])
    requires { IsRising serial_of 0 objects.old.items (2 ^ 64) }
    ensures cells { cells_in (objects_of objects.new.items) ≡ cells_in (objects_of objects.old.items) }
    ensures put { objects_of objects.new.items ≡ put_cells (objects_of objects.old.items) spot (map memory.number numbers.now) }
    ensures rising { (low : ℕ) → (high : ℕ) → IsRising serial_of low objects.old.items high → IsRising serial_of low objects.new.items high }
{
    if let Some(i) = place(objects, spot.serial) {
        put_from(&mut objects[i].cells, spot.place, numbers);
    }
}

// Puts numbers among cells, from a place on.
fn put_from(cells: &mut Vec<Cell>, at: i128, numbers: &[i64])
    ensures { cells.new.items ≡ with_cells cells.old.items at (map memory.number numbers.now) }
{
    let mut place = at;
    for n in numbers {
        if place >= cells.len() as i128 {
            return;
        }
        put_in(cells, place, number(*n));
        place += 1;
    }
}

/// The cells of the object of a serial become (0, 0).
pub fn zero(objects: &mut Vec<Object>, serial: u64)
    requires { IsRising serial_of 0 objects.old.items (2 ^ 64) }
    ensures cells { cells_in (objects_of objects.new.items) ≡ cells_in (objects_of objects.old.items) }
    ensures zero { objects_of objects.new.items ≡ zero_object (objects_of objects.old.items) serial }
    ensures rising { (low : ℕ) → (high : ℕ) → IsRising serial_of low objects.old.items high → IsRising serial_of low objects.new.items high }
{
    if let Some(i) = place(objects, serial) {
        clear(&mut objects[i].cells);
    }
}

// All cells become (0, 0).
fn clear(cells: &mut Vec<Cell>)
    ensures { cells.new.items ≡ replicate (length cells.old.items) memory.null }
{
    cells.fill(NULL);
}

/// Takes the object of a serial away, and says how many cells it had.
pub fn take_away(objects: &mut Vec<Object>, serial: u64) -> usize
    requires { IsRising serial_of 0 objects.old.items (2 ^ 64) }
    ensures cells { cells_in (objects_of objects.new.items) + result ≡ cells_in (objects_of objects.old.items) }
    ensures gone { objects_of objects.new.items ≡ without (objects_of objects.old.items) serial }
    ensures rising { (low : ℕ) → (high : ℕ) → IsRising serial_of low objects.old.items high → IsRising serial_of low objects.new.items high }
{
    match place(objects, serial) {
        None => 0,
        Some(i) => {
            let object = objects.remove(i);
            let cells: &[Cell] = &object.cells;
            cells.len()
        }
    }
}

/// How many cells these objects have.
pub fn total_cells(objects: &[Object]) -> usize
    requires { cells_in (objects_of objects.now) < 2 ^ 32 }
    ensures { result ≡ cells_in (objects_of objects.now) }
{
    let mut n = 0;
    for o in objects {
        let cells: &[Cell] = &o.cells;
        n += cells.len();
    }
    n
}
