//! The syntax tree of a program. A node has the place of its first byte, or begins with a part that has it.
//!
//! What another node may stand in is generic in it, so that only `Expr` and `Stmt` lead back to themselves.

use crate::token::{Datatype, Header, Operator, Reduction};
use sqlite_items::{Boxed, Items};

/// A program (C99 6.9).
#[derive(Drop)]
pub struct Tree {
    pub items: Items<Item>,
    /// The text's length, in bytes.
    pub length: u32,
    /// Whether the text has the word `MPI_ANY_SOURCE`.
    pub any_source: bool,
}

/// What stands at the outermost level of a program.
#[derive(Drop)]
pub enum Item {
    Include {
        at: u32,
        header: Header,
    },
    Struct {
        at: u32,
        name: Name,
        members: Items<MemberDeclaration>,
    },
    Prototype(Heading),
    Function {
        heading: Heading,
        body: Block<Stmt>,
    },
}

/// A name of the program (C99 6.4.2).
#[derive(Drop)]
pub struct Name {
    pub at: u32,
    pub bytes: Items<u8>,
}

/// A decimal constant (C99 6.4.4.1).
#[derive(Drop)]
pub struct Number {
    pub at: u32,
    pub value: u64,
    /// Whether its type is long, otherwise int.
    pub long: bool,
}

/// A string literal (C99 6.4.5), with the bytes that it stands for.
#[derive(Drop)]
pub struct Text {
    pub at: u32,
    pub bytes: Items<u8>,
}

/// A type specifier (C99 6.7.2).
#[derive(Drop)]
pub enum TypeSpecifier {
    Plain { at: u32, plain: PlainType },
    Struct { at: u32, name: Name },
}

/// A type that isn't a struct of the program.
#[derive(Clone, Copy, PartialEq, Eq)]
pub enum PlainType {
    Char,
    Int,
    /// `long` or `long int`.
    Long,
    Void,
    /// `MPI_Status`.
    Status,
}

/// A type name (C99 6.7.6): a type specifier with so many stars after it.
#[derive(Drop)]
pub struct TypeName {
    pub specifier: TypeSpecifier,
    pub stars: usize,
}

/// What stands before a function's body or the semicolon of its prototype.
#[derive(Drop)]
pub struct Heading {
    pub specifier: TypeSpecifier,
    pub stars: usize,
    pub name: Name,
    pub parameters: Items<Parameter>,
}

/// A parameter. `void` alone between the parentheses is one with no name.
#[derive(Drop)]
pub struct Parameter {
    pub specifier: TypeSpecifier,
    pub stars: usize,
    pub name: Option<Name>,
    pub array: Option<Bound>,
}

/// The brackets of an array parameter.
#[derive(Drop)]
pub enum Bound {
    Open,
    Size(Number),
}

/// Members of one type specifier (C99 6.7.2.1).
#[derive(Drop)]
pub struct MemberDeclaration {
    pub specifier: TypeSpecifier,
    pub declarators: Items<MemberDeclarator>,
}

/// A member.
#[derive(Drop)]
pub struct MemberDeclarator {
    pub stars: usize,
    pub name: MemberName,
    pub sizes: Items<Number>,
}

/// A member's name.
#[derive(Drop)]
pub enum MemberName {
    Name(Name),
    /// `MPI_SOURCE`.
    Source(u32),
    /// `MPI_TAG`.
    Tag(u32),
}

/// Variables of one type specifier (C99 6.7).
#[derive(Drop)]
pub struct Declaration {
    pub specifier: TypeSpecifier,
    pub declarators: Items<InitDeclarator>,
}

/// A variable.
#[derive(Drop)]
pub struct InitDeclarator {
    pub stars: usize,
    pub name: Name,
    pub sizes: Items<Number>,
    pub value: Option<Expr>,
}

/// An expression (C99 6.5).
#[derive(Drop)]
pub enum Expr {
    /// A primary expression, and what is selected from it, step by step (C99 6.5.2).
    Postfix {
        primary: Primary<Expr>,
        suffixes: Items<Suffix<Expr>>,
    },
    SizeOf {
        at: u32,
        name: TypeName,
    },
    Cast {
        at: u32,
        name: TypeName,
        operand: Boxed<Expr>,
    },
    Prefix {
        at: u32,
        operator: Operator,
        operand: Boxed<Expr>,
    },
    /// Operators of one grade with their operands, grouped from the left. There is at least one link.
    Chain {
        first: Boxed<Expr>,
        rest: Items<Link<Expr>>,
    },
    /// `test ? then : otherwise`.
    Choice {
        test: Boxed<Expr>,
        then: Boxed<Expr>,
        otherwise: Boxed<Expr>,
    },
}

/// A primary expression (C99 6.5.1), or a call.
#[derive(Drop)]
pub enum Primary<E> {
    Number(Number),
    Character { at: u32, value: u64 },
    Constant { at: u32, constant: Constant },
    Name(Name),
    Call { name: Name, arguments: Items<E> },
    Malloc { at: u32, size: Boxed<E> },
    /// An expression in parentheses.
    Group { at: u32, inner: Boxed<E> },
}

/// What is selected from an operand.
#[derive(Drop)]
pub enum Suffix<E> {
    /// `[index]` (C99 6.5.2.1).
    Index {
        at: u32,
        index: E,
    },
    /// `.name` or `->name` (C99 6.5.2.3).
    Member {
        at: u32,
        access: Access,
        name: MemberName,
    },
}

/// A constant that is a word.
#[derive(Clone, Copy, PartialEq, Eq)]
pub enum Constant {
    Null,
    AnySource,
    AnyTag,
    ProcNull,
}

/// How a member is selected.
#[derive(Clone, Copy, PartialEq, Eq)]
pub enum Access {
    Dot,
    Arrow,
}

/// An operator with its right operand.
#[derive(Drop)]
pub struct Link<E> {
    pub operator: Operator,
    pub operand: E,
}

/// A compound statement (C99 6.8.2).
#[derive(Drop)]
pub struct Block<S> {
    pub at: u32,
    pub items: Items<BlockItem<S>>,
}

/// What a block holds.
#[derive(Drop)]
pub enum BlockItem<S> {
    Declaration(Declaration),
    Statement(S),
}

/// A statement (C99 6.8).
#[derive(Drop)]
pub enum Stmt {
    Empty(u32),
    Break(u32),
    Continue(u32),
    Block(Block<Stmt>),
    /// An `if` with its `else if`s and its `else`, whose statement is no `if`.
    If {
        at: u32,
        test: Expr,
        then: Boxed<Stmt>,
        arms: Items<Arm<Stmt>>,
        otherwise: Option<Boxed<Stmt>>,
    },
    While {
        at: u32,
        test: Expr,
        body: Boxed<Stmt>,
    },
    DoWhile {
        at: u32,
        body: Boxed<Stmt>,
        test: Expr,
    },
    For {
        at: u32,
        start: Option<ForStart>,
        test: Option<Expr>,
        step: Option<SimpleStatement>,
        body: Boxed<Stmt>,
    },
    Return {
        at: u32,
        value: Option<Expr>,
    },
    Print {
        at: u32,
        format: Text,
        arguments: Items<Expr>,
    },
    Free {
        at: u32,
        pointer: Expr,
    },
    Mark(Mark),
    Mpi(MpiCall),
    Simple(SimpleStatement),
}

/// An `else if`.
#[derive(Drop)]
pub struct Arm<S> {
    pub test: Expr,
    pub then: S,
}

/// What stands before the first semicolon of a `for`.
#[derive(Drop)]
pub enum ForStart {
    Declaration(Declaration),
    Simple(SimpleStatement),
}

/// A statement that may also stand in the head of a `for`.
#[derive(Drop)]
pub enum SimpleStatement {
    Expression(Expr),
    /// An assignment (C99 6.5.16), with the operator that stands before its `=`.
    Assign {
        place: Expr,
        at: u32,
        operator: Option<Operator>,
        value: Expr,
    },
    /// `place++` or `place--` (C99 6.5.2.4).
    Postfix {
        place: Expr,
        at: u32,
        step: Step,
    },
    /// `++place` or `--place` (C99 6.5.3.1).
    Prefix {
        at: u32,
        step: Step,
        place: Expr,
    },
}

/// `++` or `--`.
#[derive(Clone, Copy, PartialEq, Eq)]
pub enum Step {
    Increment,
    Decrement,
}

/// A place where a checkpoint may be taken.
#[derive(Drop)]
pub enum Mark {
    /// `#pragma ccc checkpoint`.
    Pragma(u32),
    /// `potentialCheckpoint();`.
    Call(u32),
}

/// A call of MPI. What isn't kept of it is the communicator, always `MPI_COMM_WORLD`.
#[derive(Drop)]
pub enum MpiCall {
    /// The names whose addresses are passed, or none for `NULL, NULL`.
    Init {
        at: u32,
        arguments: Option<(Name, Name)>,
    },
    Finalize(u32),
    CommRank {
        at: u32,
        result: Expr,
    },
    CommSize {
        at: u32,
        result: Expr,
    },
    Send {
        at: u32,
        buffer: Buffer,
        destination: Expr,
        tag: Expr,
    },
    Recv {
        at: u32,
        buffer: Buffer,
        source: Expr,
        tag: Expr,
        status: Status,
    },
    GetCount {
        at: u32,
        status: Status,
        datatype: DatatypeWord,
        result: Expr,
    },
    Barrier(u32),
    Bcast {
        at: u32,
        buffer: Buffer,
        root: Expr,
    },
    Reduce {
        at: u32,
        send: Expr,
        receive: Buffer,
        operation: ReductionWord,
        root: Expr,
    },
    Allreduce {
        at: u32,
        send: Expr,
        receive: Buffer,
        operation: ReductionWord,
    },
    Gather {
        at: u32,
        send: Buffer,
        receive: Buffer,
        root: Expr,
    },
    Scatter {
        at: u32,
        send: Buffer,
        receive: Buffer,
        root: Expr,
    },
    Allgather {
        at: u32,
        send: Buffer,
        receive: Buffer,
    },
}

/// A buffer's start, count and datatype.
#[derive(Drop)]
pub struct Buffer {
    pub start: Boxed<Expr>,
    pub count: Boxed<Expr>,
    pub datatype: DatatypeWord,
}

/// A datatype at its place.
#[derive(Clone, Copy)]
pub struct DatatypeWord {
    pub at: u32,
    pub datatype: Datatype,
}

/// A reduction at its place.
#[derive(Clone, Copy)]
pub struct ReductionWord {
    pub at: u32,
    pub reduction: Reduction,
}

/// The status argument of a call.
#[derive(Drop)]
pub enum Status {
    /// `MPI_STATUS_IGNORE`.
    Ignore(u32),
    Given(Boxed<Expr>),
}
