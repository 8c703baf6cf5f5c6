//! What walks through the statements of a function.

ghost use Rattle.std.specs.Prelude.{◌≡◌, []};

use crate::judge::{Judge, Known};
use c_kernel::CType;
use c_rules::scope::Scope;
use std::alloc::Global;

/// What a statement stands in.
#[derive(Clone, Copy)]
pub struct Around<'a> {
    pub known: Known<'a>,
    /// The type of the function's result.
    pub result_type: CType,
    /// Whether a loop is around.
    pub looping: bool,
}

/// What judges a function's parts, and the names in scope where it stands.
#[derive(Drop)]
pub struct Walker {
    pub judge: Judge,
    pub scope: Scope,
}

impl Walker {
    /// Outside of all functions.
    pub fn new(alloc: Global) -> Walker
        ensures { result.judge.breaches.items ≡ [] }
    {
        Walker {
            judge: Judge::new(alloc),
            scope: Scope::new(alloc),
        }
    }
}
