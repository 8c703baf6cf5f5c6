ghost use Rattle.std.specs.Prelude.{◌≡◌, ◌≤◌, length, IfOk, IfSome};
ghost use Rattle.c_tree.specs.Scan as scan;
ghost use Rattle.c_parse.specs.Lexer.{maybe_shown, reach};

use crate::lexer::byte::is_letter;
use crate::lexer::front::{self, begins_with};
use crate::lexer::piece::Piece;
use crate::lexer::table;
use c_tree::{Class, Value};
use c3_base::NoMemory;
use sqlite_items::Items;
use std::alloc::Global;

fn class_of(word: &[u8]) -> Class
    ensures { result ≡ scan.word_class word.now }
{
    if let Some(class) = table::named_class(word) {
        return class;
    }
    if table::is_reserved(word) || begins_with(word, b"MPI_") {
        return Class::Reserved;
    }
    Class::Name
}

/// A name keeps its bytes.
fn value_of(alloc: Global, class: Class, word: &[u8]) -> Result<Value, NoMemory>
    ensures { IfOk result (λ value. value ≡ scan.word_value class word.now) }
{
    match class {
        Class::Name => Ok(Value::Bytes(Items::from_slice(alloc, word)?)),
        _ => Ok(Value::Nothing),
    }
}

/// A name or another word.
pub fn name(alloc: Global, text: &[u8]) -> Result<Option<Piece>, NoMemory>
    ensures found { IfOk result (λ found. maybe_shown found ≡ scan.name text.now) }
    ensures within { IfOk result (λ found. IfSome found (λ piece. reach piece ≤ length text.now)) }
{
    match text {
        [first, ..] if is_letter(*first) => {
            let word = front::word(text);
            let class = class_of(word);
            let value = value_of(alloc, class, word)?;
            let len = word.len();
            Ok(Some(Piece::One { class, value, len }))
        }
        _ => Ok(None),
    }
}
