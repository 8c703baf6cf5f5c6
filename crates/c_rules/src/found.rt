//! What expressions are found to be.

use c_kernel::program::{Expr, Link, Place};
use c_kernel::{CType, IntegerType, ObjectType};
use sqlite_items::{Boxed, Items};

/// An expression that breaks no rule, with its first byte.
#[derive(Drop)]
pub struct Found {
    pub at: u32,
    pub form: Form,
}

/// What an expression is.
#[derive(Drop)]
pub enum Form {
    /// The literal 0 of the type, which is a null pointer too (C99 6.3.2.3).
    Zero(IntegerType),
    Value {
        c_type: CType,
        term: Boxed<Expr>,
    },
    /// A place, with the type of what stands there.
    Place {
        kind: ObjectType,
        place: Boxed<Place<Expr>>,
    },
}

/// A chain of operators up to one of them. It is `zero` where it is the literal 0 alone.
#[derive(Drop)]
pub struct Run {
    pub at: u32,
    pub c_type: CType,
    pub zero: bool,
    pub first: Boxed<Expr>,
    pub rest: Items<Link<Expr>>,
}

/// What stands right of `=`, or as a statement.
#[derive(Drop)]
pub enum Right {
    Value(Boxed<Found>),
    Result(Invocation),
    Memory(Allocation),
}

/// A call: its first byte, the type of its result, the function's number and the values that are passed.
#[derive(Drop)]
pub struct Invocation {
    pub at: u32,
    pub c_type: CType,
    pub function: usize,
    pub arguments: Items<Expr>,
}

/// A `malloc` with its first byte, perhaps with a cast before it.
#[derive(Drop)]
pub struct Allocation {
    pub at: u32,
    pub cast: Option<Cast>,
    pub bytes: Boxed<Found>,
}

/// A cast with its first byte, to the type.
#[derive(Clone, Copy)]
pub struct Cast {
    pub at: u32,
    pub c_type: CType,
}
