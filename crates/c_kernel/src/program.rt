//! A program in which names are resolved and conversions stand.

mod copy;

use crate::types::{CType, Extent, IntegerType, ObjectType, Struct};
pub use copy::copies;
use mpi_words::Datatype;
use sqlite_items::{Boxed, Items};

/// A program. It starts in the function with the number `main`.
#[derive(Drop)]
pub struct Program {
    /// `MPI_Status` and those of the text, in its order. A type names a struct by its place here.
    pub structs: Items<Struct>,
    /// In the text's order. A call names a function by its place here.
    pub functions: Items<Function>,
    pub main: usize,
    /// Whether a source of -1 is `MPI_ANY_SOURCE` (MPI 3.1 3.2.4), or no rank at all.
    pub any_source: bool,
}

/// A function (C99 6.9.1).
#[derive(Drop)]
pub struct Function {
    pub name: Items<u8>,
    pub result: CType,
    /// How many of the variables are parameters.
    pub parameters: usize,
    /// The types of all its variables: the parameters, then those that its body declares, in the text's order.
    pub variables: Items<ObjectType>,
    pub body: Items<Stmt>,
}

/// A statement (C99 6.8). A branch or a loop's body is a list of one statement.
#[derive(Drop)]
pub enum Stmt {
    /// An expression statement, a declaration or an empty statement: what it does, in order.
    Actions(Items<Action>),
    Block(Items<Stmt>),
    /// An `if` with its `else if`s. Without an `else`, `otherwise` is empty.
    If {
        arms: Items<Arm<Stmt>>,
        otherwise: Items<Stmt>,
    },
    While {
        test: Expr,
        body: Items<Stmt>,
    },
    DoWhile {
        body: Items<Stmt>,
        test: Expr,
    },
    /// Without a test it is left by `break` and `return` alone.
    For {
        start: Items<Action>,
        test: Option<Expr>,
        step: Items<Action>,
        body: Items<Stmt>,
    },
    Break,
    Continue,
    Return(Option<Expr>),
    /// `printf`.
    Print {
        format: Items<Piece>,
        arguments: Items<Expr>,
    },
    /// `free`.
    Free(Expr),
    Mpi(MpiCall),
    /// A place where a checkpoint may be taken.
    Mark,
}

/// A call of MPI, with those of its arguments that have values, in the text's order. Counts, ranks and tags are ints.
#[derive(Drop)]
pub struct MpiCall {
    pub function: MpiFunction,
    /// Those of `main`'s parameters, where `MPI_Init` gets their addresses.
    pub names: Items<Items<u8>>,
    pub arguments: Items<Expr>,
}

/// A function of MPI with the words among its arguments, but for `MPI_COMM_WORLD` and `MPI_STATUS_IGNORE`. In brackets stands what the other arguments are.
#[derive(Clone, Copy, PartialEq, Eq)]
pub enum MpiFunction {
    /// `MPI_Init` `[]`.
    Init,
    /// `MPI_Finalize` `[]`.
    Finalize,
    /// `MPI_Comm_rank` `[result]`.
    CommRank,
    /// `MPI_Comm_size` `[result]`.
    CommSize,
    /// `MPI_Send` `[buffer, count, destination, tag]`.
    Send(Datatype),
    /// `MPI_Recv` `[buffer, count, source, tag]`, and the status if it isn't ignored.
    Recv(Datatype),
    /// `MPI_Get_count` `[status, result]`.
    GetCount(Datatype),
}

/// A branch that is taken where its test isn't 0 and no earlier one's is.
#[derive(Drop)]
pub struct Arm<S> {
    pub test: Expr,
    pub body: Items<S>,
}

/// What is done at once: by a statement, by a declaration for one of its variables, or in the head of a `for`.
#[derive(Drop)]
pub enum Action {
    /// The variable with this number gets zeros.
    Zero(usize),
    Set {
        place: Place<Expr>,
        value: Expr,
    },
    Call {
        into: Option<Target>,
        function: usize,
        arguments: Items<Expr>,
    },
    /// `place = malloc(bytes)`, for objects that take so much room each (C99 7.20.3.3).
    Malloc {
        place: Place<Expr>,
        bytes: Expr,
        each: Extent,
    },
}

/// Where the result of a call goes, converted to the kind.
#[derive(Drop)]
pub struct Target {
    pub place: Place<Expr>,
    pub kind: Scalar,
}

/// A piece of a format, which gives a byte or prints the next argument (C99 7.19.6.1).
#[derive(Clone, Copy, PartialEq, Eq)]
pub enum Piece {
    /// `%%` is the byte `%`.
    Byte(u8),
    /// `%d`, `%ld`: in decimal.
    Decimal,
    LongDecimal,
    /// `%c`: the low byte.
    Character,
}

/// What one cell is read as.
#[derive(Clone, Copy, PartialEq, Eq)]
pub enum Scalar {
    Number(IntegerType),
    Pointer,
}

/// A place: that of a variable or of what a pointer points to, or what is selected there, step by step.
#[derive(Drop)]
pub struct Place<E> {
    pub root: Root<E>,
    pub steps: Items<Selection<E>>,
}

/// Where a place begins.
#[derive(Drop)]
pub enum Root<E> {
    /// The variable with this number.
    Variable(usize),
    /// What the pointer points to.
    Target(Boxed<E>),
}

/// What is selected at a place.
#[derive(Drop)]
pub enum Selection<E> {
    /// `[index]`, of elements with so many cells each.
    Element {
        index: E,
        cells: u32,
    },
    /// The member of a struct with these numbers, which begins at this cell.
    Member {
        structure: usize,
        member: usize,
        place: u32,
    },
    /// What the pointer that stands there points to (C99 6.5.3.2).
    Follow,
    /// The same place, with the test that `&` makes: where an array stands for a pointer (C99 6.3.2.1) that is followed.
    Checked,
}

/// An expression (C99 6.5).
#[derive(Drop)]
pub enum Expr {
    Number {
        value: i64,
        kind: IntegerType,
    },
    /// `NULL`, or the literal 0 as a pointer.
    Null,
    /// What stands at a place.
    Load {
        place: Place<Expr>,
        kind: Scalar,
    },
    /// `&` (C99 6.5.3.2).
    Address(Place<Expr>),
    /// A conversion (C99 6.3.1), which changes the type.
    Convert {
        kind: IntegerType,
        operand: Boxed<Expr>,
    },
    /// `!`.
    Not(Boxed<Expr>),
    /// An operator on a number of the type, which its result has too.
    Unary {
        operator: UnaryOperator,
        kind: IntegerType,
        operand: Boxed<Expr>,
    },
    /// Operators with their operands, grouped from the left. There is at least one link.
    Chain {
        first: Boxed<Expr>,
        rest: Items<Link<Expr>>,
    },
    /// `test ? then : otherwise`, of two values of one type.
    Choice {
        test: Boxed<Expr>,
        then: Boxed<Expr>,
        otherwise: Boxed<Expr>,
    },
}

/// An operator with its right operand.
#[derive(Drop)]
pub struct Link<E> {
    /// What the left operand is converted to first, where that changes its type.
    pub conversion: Option<IntegerType>,
    pub operator: BinaryOperator,
    pub operand: E,
}

/// An operator of C99 6.5.3.3, but for `!`.
#[derive(Clone, Copy, PartialEq, Eq)]
pub enum UnaryOperator {
    Plus,
    Minus,
    Complement,
}

/// An operator of two operands, with the type at which it computes.
#[derive(Clone, Copy, PartialEq, Eq)]
pub enum BinaryOperator {
    /// Of two numbers of the type, which the result has too.
    Arithmetic {
        operator: Arithmetic,
        kind: IntegerType,
    },
    /// Of a number of the type, which the result has too, and a count (C99 6.5.7).
    Shift {
        direction: Direction,
        kind: IntegerType,
    },
    /// Of two numbers of one type; the result is an int (C99 6.5.8, 6.5.9).
    Comparison(Comparison),
    /// `+` or `-` of a pointer and a number of elements, which have so many cells each (C99 6.5.6).
    Advance {
        way: Way,
        cells: u32,
    },
    /// `-` of two pointers, in elements with so many cells each; the result is a long (C99 6.5.6).
    Distance {
        cells: u32,
    },
    /// Of two pointers; the result is an int (C99 6.5.8, 6.5.9).
    PointerComparison(Comparison),
    /// `&&`.
    And,
    /// `||`.
    Or,
}

/// An operator of C99 6.5.5, 6.5.6 and 6.5.10 to 6.5.12.
#[derive(Clone, Copy, PartialEq, Eq)]
pub enum Arithmetic {
    Multiply,
    Divide,
    Remainder,
    Add,
    Subtract,
    And,
    ExclusiveOr,
    InclusiveOr,
}

/// The way that a shift goes.
#[derive(Clone, Copy, PartialEq, Eq)]
pub enum Direction {
    Left,
    Right,
}

/// The way that a pointer goes.
#[derive(Clone, Copy, PartialEq, Eq)]
pub enum Way {
    Forward,
    Back,
}

/// A relational or equality operator.
#[derive(Clone, Copy, PartialEq, Eq)]
pub enum Comparison {
    Less,
    Greater,
    LessEqual,
    GreaterEqual,
    Equal,
    NotEqual,
}
