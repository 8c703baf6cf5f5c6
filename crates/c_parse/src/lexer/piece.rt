use c_tree::{Class, Value};

/// What a text begins with.
#[derive(Drop)]
pub enum Piece {
    /// So many bytes between tokens.
    Gap(usize),
    /// A token of `len` bytes.
    One {
        class: Class,
        value: Value,
        len: usize,
    },
    /// A lexical fault so many bytes on.
    Wrong(usize),
}
