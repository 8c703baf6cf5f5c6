ghost use Rattle.std.specs.Prelude.{◌≡◌, ◌<◌};
ghost use Rattle.c_tree.specs.Codes.{code, header_code, operator_code, call_code, datatype_code, reduction_code};

use sqlite_items::Items;

/// What a token is, as far as the grammar tells tokens apart.
#[derive(Clone, Copy, PartialEq, Eq)]
pub enum Class {
    /// A name of the program (C99 6.4.2).
    Name,
    /// A number of type int.
    Number,
    /// A number of type long.
    LongNumber,
    /// A number of 2^63 or more.
    HugeNumber,
    /// A character constant (C99 6.4.4.4).
    Character,
    /// A string literal (C99 6.4.5).
    Text,
    /// The line of an `#include`.
    Include(Header),
    /// The line `#pragma ccc checkpoint`.
    Checkpoint,
    /// A keyword of C99 that no program uses, or another word that begins with `MPI_`.
    Reserved,
    /// The place of the first lexical fault. It fits nowhere and is the last token.
    Broken,
    Struct,
    Char,
    Int,
    Long,
    Void,
    If,
    Else,
    While,
    Do,
    For,
    Return,
    Break,
    Continue,
    SizeOf,
    Null,
    Malloc,
    Free,
    Printf,
    PotentialCheckpoint,
    StatusType,
    SourceField,
    TagField,
    AnySource,
    AnyTag,
    ProcNull,
    StatusIgnore,
    World,
    Mpi(Call),
    Element(Datatype),
    Fold(Reduction),
    LeftParen,
    RightParen,
    LeftBracket,
    RightBracket,
    LeftBrace,
    RightBrace,
    Semicolon,
    Comma,
    Question,
    Colon,
    Dot,
    Arrow,
    Equal,
    PlusPlus,
    MinusMinus,
    Sign(Operator),
    /// The operator directly followed by `=`.
    Compound(Operator),
}

/// What an `#include` names.
#[derive(Clone, Copy, PartialEq, Eq)]
pub enum Header {
    Mpi,
    Stdio,
    Stdlib,
}

/// An operator of expressions.
#[derive(Clone, Copy, PartialEq, Eq)]
pub enum Operator {
    Star,
    Slash,
    Percent,
    Plus,
    Minus,
    ShiftLeft,
    ShiftRight,
    Less,
    Greater,
    LessEqual,
    GreaterEqual,
    EqualEqual,
    NotEqual,
    And,
    Caret,
    Or,
    AndAnd,
    OrOr,
    Not,
    Tilde,
}

/// A call of MPI.
#[derive(Clone, Copy, PartialEq, Eq)]
pub enum Call {
    Init,
    Finalize,
    CommRank,
    CommSize,
    Send,
    Recv,
    GetCount,
    Barrier,
    Bcast,
    Reduce,
    Allreduce,
    Gather,
    Scatter,
    Allgather,
}

/// A datatype of MPI: `MPI_CHAR`, `MPI_INT` or `MPI_LONG`.
#[derive(Clone, Copy, PartialEq, Eq)]
pub enum Datatype {
    Chars,
    Ints,
    Longs,
}

/// A reduction of MPI: `MPI_SUM`, `MPI_PROD`, `MPI_MAX` or `MPI_MIN`.
#[derive(Clone, Copy, PartialEq, Eq)]
pub enum Reduction {
    Sum,
    Product,
    Greatest,
    Least,
}

/// What a token stands for beside its class.
#[derive(Drop)]
pub enum Value {
    Nothing,
    /// The value of a number below 2^63 or of a character.
    Number(u64),
    /// A name's bytes, or those that a string stands for.
    Bytes(Items<u8>),
}

/// A token. Its place is the offset of its first byte in the text.
#[derive(Drop)]
pub struct Token {
    pub class: Class,
    pub value: Value,
    pub place: u32,
}

impl Class {
    /// The class's number.
    pub fn code(self) -> u8
        ensures { result ≡ code self }
    {
        match self {
            Class::Name => 0,
            Class::Number => 1,
            Class::LongNumber => 2,
            Class::HugeNumber => 3,
            Class::Character => 4,
            Class::Text => 5,
            Class::Checkpoint => 6,
            Class::Reserved => 7,
            Class::Broken => 8,
            Class::Struct => 9,
            Class::Char => 10,
            Class::Int => 11,
            Class::Long => 12,
            Class::Void => 13,
            Class::If => 14,
            Class::Else => 15,
            Class::While => 16,
            Class::Do => 17,
            Class::For => 18,
            Class::Return => 19,
            Class::Break => 20,
            Class::Continue => 21,
            Class::SizeOf => 22,
            Class::Null => 23,
            Class::Malloc => 24,
            Class::Free => 25,
            Class::Printf => 26,
            Class::PotentialCheckpoint => 27,
            Class::StatusType => 28,
            Class::SourceField => 29,
            Class::TagField => 30,
            Class::AnySource => 31,
            Class::AnyTag => 32,
            Class::ProcNull => 33,
            Class::StatusIgnore => 34,
            Class::World => 35,
            Class::LeftParen => 36,
            Class::RightParen => 37,
            Class::LeftBracket => 38,
            Class::RightBracket => 39,
            Class::LeftBrace => 40,
            Class::RightBrace => 41,
            Class::Semicolon => 42,
            Class::Comma => 43,
            Class::Question => 44,
            Class::Colon => 45,
            Class::Dot => 46,
            Class::Arrow => 47,
            Class::Equal => 48,
            Class::PlusPlus => 49,
            Class::MinusMinus => 50,
            Class::Include(x) => 51 + x.code(),
            Class::Mpi(x) => 54 + x.code(),
            Class::Element(x) => 68 + x.code(),
            Class::Fold(x) => 71 + x.code(),
            Class::Sign(x) => 75 + x.code(),
            Class::Compound(x) => 95 + x.code(),
        }
    }
}

impl Header {
    /// The number.
    pub fn code(self) -> u8
        ensures number { result ≡ header_code self }
        ensures small { result < 3 }
    {
        match self {
            Header::Mpi => 0,
            Header::Stdio => 1,
            Header::Stdlib => 2,
        }
    }
}

impl Operator {
    /// The number.
    pub fn code(self) -> u8
        ensures number { result ≡ operator_code self }
        ensures small { result < 20 }
    {
        match self {
            Operator::Star => 0,
            Operator::Slash => 1,
            Operator::Percent => 2,
            Operator::Plus => 3,
            Operator::Minus => 4,
            Operator::ShiftLeft => 5,
            Operator::ShiftRight => 6,
            Operator::Less => 7,
            Operator::Greater => 8,
            Operator::LessEqual => 9,
            Operator::GreaterEqual => 10,
            Operator::EqualEqual => 11,
            Operator::NotEqual => 12,
            Operator::And => 13,
            Operator::Caret => 14,
            Operator::Or => 15,
            Operator::AndAnd => 16,
            Operator::OrOr => 17,
            Operator::Not => 18,
            Operator::Tilde => 19,
        }
    }
}

impl Call {
    /// The number.
    pub fn code(self) -> u8
        ensures number { result ≡ call_code self }
        ensures small { result < 14 }
    {
        match self {
            Call::Init => 0,
            Call::Finalize => 1,
            Call::CommRank => 2,
            Call::CommSize => 3,
            Call::Send => 4,
            Call::Recv => 5,
            Call::GetCount => 6,
            Call::Barrier => 7,
            Call::Bcast => 8,
            Call::Reduce => 9,
            Call::Allreduce => 10,
            Call::Gather => 11,
            Call::Scatter => 12,
            Call::Allgather => 13,
        }
    }
}

impl Datatype {
    /// The number.
    pub fn code(self) -> u8
        ensures number { result ≡ datatype_code self }
        ensures small { result < 3 }
    {
        match self {
            Datatype::Chars => 0,
            Datatype::Ints => 1,
            Datatype::Longs => 2,
        }
    }
}

impl Reduction {
    /// The number.
    pub fn code(self) -> u8
        ensures number { result ≡ reduction_code self }
        ensures small { result < 4 }
    {
        match self {
            Reduction::Sum => 0,
            Reduction::Product => 1,
            Reduction::Greatest => 2,
            Reduction::Least => 3,
        }
    }
}
