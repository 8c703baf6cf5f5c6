//! States as tables have them.
//!
//! `NEXT PHASE OUTPUT CALLS;SITES;VARIABLES;OBJECTS`, where zeros behind NEXT may be left out. An object is `SERIAL:PLACE:CELLS`; its
//! cells have commas between them, and are a number, a `WORD.SERIAL`, or `*N` for N zeros.

use c3_base::Cell;
use image_text::{RankState, SavedObject};
use mpi_words::List;
use std::alloc::Global;
use std::process::Abort;
use std::test::Fail;

fn number(rt: &impl Abort, word: &str) -> u64 {
    word.parse::<u64>().expect(rt, "a number")
}

fn small(rt: &impl Abort, word: &str) -> u32 {
    word.parse::<u32>().expect(rt, "a small number")
}

fn push_cells(rt: &impl Abort, cells: &mut List<Cell>, word: &str) -> Result<(), Fail> {
    if let Some(count) = word.strip_prefix('*') {
        for _ in 0..small(rt, count) {
            cells.push(Cell { word: 0, serial: 0 })?;
        }
        return Ok(());
    }
    let (word, serial) = word.split_once('.').unwrap_or((word, "0"));
    cells.push(Cell {
        word: word.parse::<i64>().expect(rt, "a word"),
        serial: number(rt, serial),
    })?;
    Ok(())
}

fn object(rt: &impl Abort, alloc: Global, text: &str) -> Result<SavedObject, Fail> {
    let (serial, rest) = text.split_once(':').expect(rt, "a serial");
    let (place, words) = rest.split_once(':').expect(rt, "a place");
    let mut cells = List::new(alloc);
    for word in words.split(',') {
        push_cells(rt, &mut cells, word)?;
    }
    Ok(SavedObject {
        serial: number(rt, serial),
        place: small(rt, place),
        cells,
    })
}

fn objects(rt: &impl Abort, alloc: Global, text: &str) -> Result<List<SavedObject>, Fail> {
    let mut objects = List::new(alloc);
    for word in text.split_whitespace() {
        objects.push(object(rt, alloc, word)?)?;
    }
    Ok(objects)
}

fn sites(rt: &impl Abort, alloc: Global, text: &str) -> Result<List<u32>, Fail> {
    let mut sites = List::new(alloc);
    for word in text.split_whitespace() {
        sites.push(small(rt, word))?;
    }
    Ok(sites)
}

/// A state.
pub fn state_of(rt: &impl Abort, alloc: Global, line: &str) -> Result<RankState, Fail> {
    let (head, rest) = line.split_once(';').expect(rt, "sites");
    let (named, rest) = rest.split_once(';').expect(rt, "variables");
    let (variables, placed) = rest.split_once(';').expect(rt, "objects");
    let mut numbers = head.split(' ');
    let serial = number(rt, numbers.next().expect(rt, "a serial"));
    let phase = numbers.next().unwrap_or("0");
    Ok(RankState {
        serial,
        phase: phase.parse::<u8>().expect(rt, "a phase"),
        output: small(rt, numbers.next().unwrap_or("0")),
        calls: number(rt, numbers.next().unwrap_or("0")),
        sites: sites(rt, alloc, named)?,
        variables: objects(rt, alloc, variables)?,
        objects: objects(rt, alloc, placed)?,
    })
}
