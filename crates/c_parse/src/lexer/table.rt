ghost use Rattle.std.specs.Prelude.{◌≡◌, ◌≤◌, length, IfSome};
ghost use Rattle.c_tree.specs.Scan as scan;
ghost use Rattle.c_parse.specs.Lexer.{bytes_of, maybe_shown, reach, table_of};

use crate::lexer::front::{begins_with, is_same};
use crate::lexer::piece::Piece;
use c_tree::{Call, Class, Datatype, Header, Operator, Reduction, Value};

/// Words that stand for themselves.
const WORDS: [(&str, Class); 48] = [
    ("char", Class::Char),
    ("int", Class::Int),
    ("long", Class::Long),
    ("void", Class::Void),
    ("struct", Class::Struct),
    ("if", Class::If),
    ("else", Class::Else),
    ("while", Class::While),
    ("do", Class::Do),
    ("for", Class::For),
    ("return", Class::Return),
    ("break", Class::Break),
    ("continue", Class::Continue),
    ("sizeof", Class::SizeOf),
    ("NULL", Class::Null),
    ("malloc", Class::Malloc),
    ("free", Class::Free),
    ("printf", Class::Printf),
    ("potentialCheckpoint", Class::PotentialCheckpoint),
    ("MPI_Status", Class::StatusType),
    ("MPI_SOURCE", Class::SourceField),
    ("MPI_TAG", Class::TagField),
    ("MPI_ANY_SOURCE", Class::AnySource),
    ("MPI_ANY_TAG", Class::AnyTag),
    ("MPI_PROC_NULL", Class::ProcNull),
    ("MPI_STATUS_IGNORE", Class::StatusIgnore),
    ("MPI_COMM_WORLD", Class::World),
    ("MPI_Init", Class::Mpi(Call::Init)),
    ("MPI_Finalize", Class::Mpi(Call::Finalize)),
    ("MPI_Comm_rank", Class::Mpi(Call::CommRank)),
    ("MPI_Comm_size", Class::Mpi(Call::CommSize)),
    ("MPI_Send", Class::Mpi(Call::Send)),
    ("MPI_Recv", Class::Mpi(Call::Recv)),
    ("MPI_Get_count", Class::Mpi(Call::GetCount)),
    ("MPI_Barrier", Class::Mpi(Call::Barrier)),
    ("MPI_Bcast", Class::Mpi(Call::Bcast)),
    ("MPI_Reduce", Class::Mpi(Call::Reduce)),
    ("MPI_Allreduce", Class::Mpi(Call::Allreduce)),
    ("MPI_Gather", Class::Mpi(Call::Gather)),
    ("MPI_Scatter", Class::Mpi(Call::Scatter)),
    ("MPI_Allgather", Class::Mpi(Call::Allgather)),
    ("MPI_CHAR", Class::Element(Datatype::Chars)),
    ("MPI_INT", Class::Element(Datatype::Ints)),
    ("MPI_LONG", Class::Element(Datatype::Longs)),
    ("MPI_SUM", Class::Fold(Reduction::Sum)),
    ("MPI_PROD", Class::Fold(Reduction::Product)),
    ("MPI_MAX", Class::Fold(Reduction::Greatest)),
    ("MPI_MIN", Class::Fold(Reduction::Least)),
];

/// The keywords of C99 (6.4.1) that no program uses.
const RESERVED: [&str; 23] = [
    "auto",
    "case",
    "const",
    "default",
    "double",
    "enum",
    "extern",
    "float",
    "goto",
    "inline",
    "register",
    "restrict",
    "short",
    "signed",
    "static",
    "switch",
    "typedef",
    "union",
    "unsigned",
    "volatile",
    "_Bool",
    "_Complex",
    "_Imaginary",
];

/// The operators (C99 6.4.6), the longest first.
const SIGNS: [(&str, Class); 45] = [
    ("<<=", Class::Compound(Operator::ShiftLeft)),
    (">>=", Class::Compound(Operator::ShiftRight)),
    ("<<", Class::Sign(Operator::ShiftLeft)),
    (">>", Class::Sign(Operator::ShiftRight)),
    ("<=", Class::Sign(Operator::LessEqual)),
    (">=", Class::Sign(Operator::GreaterEqual)),
    ("==", Class::Sign(Operator::EqualEqual)),
    ("!=", Class::Sign(Operator::NotEqual)),
    ("&&", Class::Sign(Operator::AndAnd)),
    ("||", Class::Sign(Operator::OrOr)),
    ("+=", Class::Compound(Operator::Plus)),
    ("-=", Class::Compound(Operator::Minus)),
    ("*=", Class::Compound(Operator::Star)),
    ("/=", Class::Compound(Operator::Slash)),
    ("%=", Class::Compound(Operator::Percent)),
    ("&=", Class::Compound(Operator::And)),
    ("|=", Class::Compound(Operator::Or)),
    ("^=", Class::Compound(Operator::Caret)),
    ("->", Class::Arrow),
    ("++", Class::PlusPlus),
    ("--", Class::MinusMinus),
    ("*", Class::Sign(Operator::Star)),
    ("/", Class::Sign(Operator::Slash)),
    ("%", Class::Sign(Operator::Percent)),
    ("+", Class::Sign(Operator::Plus)),
    ("-", Class::Sign(Operator::Minus)),
    ("<", Class::Sign(Operator::Less)),
    (">", Class::Sign(Operator::Greater)),
    ("&", Class::Sign(Operator::And)),
    ("^", Class::Sign(Operator::Caret)),
    ("|", Class::Sign(Operator::Or)),
    ("!", Class::Sign(Operator::Not)),
    ("~", Class::Sign(Operator::Tilde)),
    ("(", Class::LeftParen),
    (")", Class::RightParen),
    ("[", Class::LeftBracket),
    ("]", Class::RightBracket),
    ("{", Class::LeftBrace),
    ("}", Class::RightBrace),
    (";", Class::Semicolon),
    (",", Class::Comma),
    ("?", Class::Question),
    (":", Class::Colon),
    (".", Class::Dot),
    ("=", Class::Equal),
];

/// The lines that begin with `#`, each run of blanks as one.
const LINES: [(&str, Class); 7] = [
    ("#include <mpi.h>", Class::Include(Header::Mpi)),
    ("#include <stdio.h>", Class::Include(Header::Stdio)),
    ("#include <stdlib.h>", Class::Include(Header::Stdlib)),
    ("#include<mpi.h>", Class::Include(Header::Mpi)),
    ("#include<stdio.h>", Class::Include(Header::Stdio)),
    ("#include<stdlib.h>", Class::Include(Header::Stdlib)),
    ("#pragma ccc checkpoint", Class::Checkpoint),
];

/// The class of the text in the table.
fn look(table: &[(&str, Class)], text: &[u8]) -> Option<Class>
    ensures { result ≡ scan.look (table_of table.now) text.now }
{
    for (entry, class) in table {
        if is_same(entry.as_bytes(), text) {
            return Some(*class);
        }
    }
    None
}

fn is_among(texts: &[&str], text: &[u8]) -> bool
    ensures { result ≡ scan.among (bytes_of texts.now) text.now }
{
    for other in texts {
        if is_same(other.as_bytes(), text) {
            return true;
        }
    }
    false
}

/// The first of the table that the text begins with.
fn sign_among(table: &[(&str, Class)], text: &[u8]) -> Option<Piece>
    ensures found { maybe_shown result ≡ scan.sign_of (table_of table.now) text.now }
    ensures within { IfSome result (λ piece. reach piece ≤ length text.now) }
{
    for (entry, class) in table {
        if begins_with(text, entry.as_bytes()) {
            return Some(Piece::One {
                class: *class,
                value: Value::Nothing,
                len: entry.len(),
            });
        }
    }
    None
}

/// The class of a word that the language names.
pub fn named_class(word: &[u8]) -> Option<Class>
    ensures { result ≡ scan.look scan.words word.now }
{
    look(&WORDS, word)
}

/// Whether the word is a keyword of C99 that no program uses.
pub fn is_reserved(word: &[u8]) -> bool
    ensures { result ≡ scan.among scan.reserved word.now }
{
    is_among(&RESERVED, word)
}

/// The class of a line that begins with `#` and has no two blanks in a row.
pub fn line_class(line: &[u8]) -> Option<Class>
    ensures { result ≡ scan.look scan.lines line.now }
{
    look(&LINES, line)
}

/// An operator.
pub fn sign(text: &[u8]) -> Option<Piece>
    ensures found { maybe_shown result ≡ scan.sign text.now }
    ensures within { IfSome result (λ piece. reach piece ≤ length text.now) }
{
    sign_among(&SIGNS, text)
}
