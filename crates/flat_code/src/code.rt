//! Instructions. A place is an instruction's number in its function, from 0. Expressions and the places of objects are those of the typed program.

use c_kernel::program::{Expr, MpiCall, Piece, Place, Target};
use c_kernel::{CType, Extent, ObjectType, Struct};
use sqlite_items::Items;

/// A program's code. It starts in the function with the number `main`.
#[derive(Drop)]
pub struct Code {
    /// `MPI_Status` and those of the text, in its order.
    pub structs: Items<Struct>,
    /// In the text's order. A call names a function by its place here.
    pub functions: Items<FlatFunction>,
    pub main: usize,
    /// Whether a source of -1 is `MPI_ANY_SOURCE` (MPI 3.1 3.2.4), or no rank at all.
    pub any_source: bool,
}

/// A function's code.
#[derive(Drop)]
pub struct FlatFunction {
    pub name: Items<u8>,
    pub result: CType,
    /// How many of the variables are parameters.
    pub parameters: usize,
    /// The types of all its variables.
    pub variables: Items<ObjectType>,
    pub code: Items<Instr>,
}

/// A `Call` or a `Mark`: its number among those of all functions, from 1 in the text's order, and its place.
#[derive(Clone, Copy)]
pub struct Site {
    pub number: u32,
    pub place: usize,
}

/// One instruction.
#[derive(Drop)]
pub enum Instr {
    /// A statement or a declaration begins.
    Step,
    /// The variable with this number gets zeros.
    Zero(usize),
    Set {
        place: Place<Expr>,
        value: Expr,
    },
    Call {
        into: Option<Target>,
        function: usize,
        arguments: Items<Expr>,
    },
    /// `place = malloc(bytes)`, for objects that take so much room each.
    Malloc {
        place: Place<Expr>,
        bytes: Expr,
        each: Extent,
    },
    Free(Expr),
    /// A jump to a place.
    Goto(usize),
    /// A jump, where the test is 0.
    Unless {
        test: Expr,
        to: usize,
    },
    Return(Option<Expr>),
    /// A place where a checkpoint may be taken, with its site, or 0 where sites aren't numbered yet.
    Mark(u32),
    /// A site comes onto the list of sites, and goes again.
    Push(u32),
    Pop,
    /// A function begins, with so many variables and these sites: each variable gets a descriptor.
    Enter {
        variables: usize,
        sites: Items<Site>,
    },
    /// A function's descriptors go.
    Leave,
    Print {
        format: Items<Piece>,
        arguments: Items<Expr>,
    },
    Mpi(MpiCall),
}
