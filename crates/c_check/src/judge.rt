//! What judges the parts of a program.

ghost use Rattle.std.specs.Prelude.{◌≡◌, [], IfOk, OnOk, length, nat_lt};
ghost use Rattle.c_rules.specs.Judged.{Notes, breaks, refused};
ghost use Rattle.c_check.specs.Told.{Tells};

use c_kernel::Struct;
use c_rules::breach::{Breach, rule};
use c_rules::scope::Scope;
use c_rules::signature::Signature;
use c_tree::Kind;
use indexmap::IndexMap;
use std::alloc::{AllocError, Global};

/// What a part is found to be, or nothing where it breaks a rule.
pub type Answer<T> = Result<Option<T>, AllocError>;

/// The functions and structs of a program.
#[derive(Clone, Copy)]
pub struct Known<'a> {
    pub functions: &'a IndexMap<Vec<u8>, Signature>,
    pub structs: &'a [Struct],
}

/// What an expression can name.
#[derive(Clone, Copy)]
pub struct Names<'a> {
    pub known: Known<'a>,
    pub scope: &'a Scope,
}

/// The rules found broken so far: the breaches, in the order in which the parts are judged.
#[derive(Drop)]
pub struct Judge {
    pub alloc: Global,
    pub breaches: Vec<Breach>,
}

impl Judge {
    /// Nothing is broken yet.
    pub fn new(alloc: Global) -> Judge
        ensures { result.breaches.items ≡ [] }
    {
        Judge {
            alloc,
            breaches: Vec::new(alloc),
        }
    }

    /// Notes that a rule is broken, where it is.
    pub fn rule(&mut self, broken: bool, kind: Kind, at: u32) -> Result<(), AllocError>
        ensures { OnOk result (Notes self.old.breaches self.new.breaches (breaks broken kind at)) }
    {
        rule(&mut self.breaches, broken, kind, at)
    }

    /// Notes that a rule is broken by a part, of which nothing more is found.
    pub fn refuse<T: Drop>(&mut self, kind: Kind, at: u32) -> Answer<T>
        ensures { IfOk result (λ found. Tells self.old self.new found (refused kind at)) }
    {
        self.rule(true, kind, at)?;
        Ok(None)
    }

    /// How many breaches there are.
    pub fn mark(&self) -> usize
        ensures { result ≡ length self.now.breaches.items }
    {
        self.breaches.len()
    }

    /// Whether there are more than so many.
    pub fn broke(&self, mark: usize) -> bool
        ensures { result ≡ nat_lt mark (length self.now.breaches.items) }
    {
        self.breaches.len() > mark
    }
}
