//! The descriptor stack of a machine: for each variable of the calls under way its serial, place and length.
#![tactic(auto)]

ghost use Rattle.std.specs.Prelude.{◌≡◌, ◌<◌, ◌-◌, [], ◌∷◌, ◌++◌, IfSome, IfNone, OnErr, OnOk, length, take, nat_eq, position, option_and_then, slice_get};

use c3_base::NoMemory;
use std::alloc::Global;
use std::marker::Model;

/// A variable: its serial, the place of its first cell and how many cells it has.
#[derive(Clone, Copy)]
pub struct Descriptor {
    pub serial: u64,
    pub place: u32,
    pub length: u32,
}

/// Descriptors, the bottom first.
#[derive(Drop)]
pub struct VariableStack {
    descriptors: Vec<Descriptor>,
}

impl Model for VariableStack {
    ghost use Rattle.std.specs.Prelude.{List};
    ghost use Rattle.variable_stack.specs.declared.Descriptor.{Descriptor};

    ghost Value = { List Descriptor };

    ghost view = { λ v. v.descriptors.items };
}

impl VariableStack {
    /// No descriptor.
    pub fn new(alloc: Global) -> VariableStack
        ensures { result ≡ [] }
    {
        VariableStack {
            descriptors: Vec::new(alloc),
        }
    }

    pub fn push(&mut self, d: Descriptor) -> Result<(), NoMemory>
        ensures ok { OnOk result (self.new ≡ self.old ++ d ∷ []) }
        ensures err { OnErr result (self.new ≡ self.old) }
    {
        self.descriptors.push(d)?;
        Ok(())
    }

    /// Takes the newest descriptor.
    pub fn pop(&mut self) -> Option<Descriptor>
        ensures some { IfSome result (λ d. self.old ≡ self.new ++ d ∷ []) }
        ensures none { IfNone result (self.old ≡ []) }
        ensures empty { IfNone result (self.new ≡ self.old) }
    {
        self.descriptors.pop()
    }

    /// Takes so many of the newest descriptors, or all where there are fewer.
    pub fn cut(&mut self, count: usize)
        ensures { self.new ≡ take (length self.old - count) self.old }
    {
        let left = self.descriptors.len().saturating_sub(count);
        self.descriptors.truncate(left);
    }

    pub fn list(&self) -> &[Descriptor]
        ensures { result.now ≡ self.now }
    {
        self.descriptors.as_slice()
    }

    /// The first from the bottom with a serial. Where no two have the same serial, it is the only one.
    pub fn find(&self, serial: u64) -> Option<Descriptor>
        ensures { result ≡ option_and_then (slice_get self.now) (position (λ d. nat_eq d.serial serial) self.now) }
    {
        let at = place(&self.descriptors, serial)?;
        Some(self.descriptors[at])
    }
}

// The place of the first descriptor with a serial.
fn place(descriptors: &[Descriptor], serial: u64) -> Option<usize>
    ensures within { IfSome result (λ at. at < length descriptors.now) }
    ensures place { result ≡ position (λ d. nat_eq d.serial serial) descriptors.now }
{
    descriptors.iter().position(|d| d.serial == serial)
}
