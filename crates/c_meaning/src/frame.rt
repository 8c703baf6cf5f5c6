//! A call that is under way.

ghost use Rattle.std.specs.Prelude.{◌+◌, ◌<◌, ◌^◌};

use crate::level::Level;
use c_values::value::Variables;

/// A call that is under way, with its levels, the outermost first.
#[derive(Drop)]
pub struct Frame {
    pub function: usize,
    pub variables: Variables,
    pub levels: Vec<Level>,
    ghost reach: { variables.first + variables.count < 2 ^ 64 },
}

/// A function that is called, and its variables.
#[derive(Clone, Copy)]
pub struct Entry {
    pub function: usize,
    pub variables: Variables,
    ghost reach: { variables.first + variables.count < 2 ^ 64 },
}
