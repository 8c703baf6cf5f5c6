//! Where the variables of calls stand.

ghost use Rattle.std.specs.Prelude.{◌≡◌, [], ◌++◌, ◌+◌, ◌≤◌, IfOk, map, nat_lt, not, true};
ghost use Rattle.c_memory.specs.Memory.{total};
ghost use Rattle.rank_machine.specs.WellFormed as formed;
ghost use Rattle.rank_image.specs.Along.{spans_seen};

use c_kernel::ObjectType;
use c3_base::NoMemory;
use std::alloc::Global;

/// A variable's first cell, and how many it has.
#[derive(Clone, Copy)]
pub struct Span {
    pub place: u32,
    pub length: u32,
}

/// The stack as calls build it up.
#[derive(Drop)]
pub struct Stack {
    pub spans: Vec<Span>,
    /// How many cells are in use.
    pub used: u32,
}

impl Stack {
    pub fn new(alloc: Global) -> Stack
        ensures spans { result.spans.items ≡ [] }
        ensures used { result.used ≡ 0 }
    {
        Stack {
            spans: Vec::new(alloc),
            used: 0,
        }
    }

    /// The frame of a call: its own cell and its variables. Whether there is room for it.
    pub fn enter(&mut self, variables: &[ObjectType]) -> Result<bool, NoMemory>
        requires { self.old.used ≤ 8192 }
        ensures room { IfOk result (λ fits. fits ≡ not (nat_lt 8192 (self.old.used + 1 + total (map (λ t. t.cells) variables.now)))) }
        ensures spans { IfOk result (λ fits. fits ≡ true → spans_seen self.new.spans.items ≡ spans_seen self.old.spans.items ++ formed.spans (self.old.used + 1) (map (λ t. t.cells) variables.now)) }
        ensures used { IfOk result (λ fits. fits ≡ true → self.new.used ≡ self.old.used + 1 + total (map (λ t. t.cells) variables.now)) }
    {
        self.used += 1;
        for t in variables {
            self.spans.push(Span {
                place: self.used,
                length: t.cells,
            })?;
            self.used = self.used.saturating_add(t.cells);
            if self.used > 8192 {
                return Ok(false);
            }
        }
        Ok(self.used <= 8192)
    }
}
