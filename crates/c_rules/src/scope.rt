//! Names in scope.

ghost use Rattle.std.specs.Prelude.{◌≡◌, OnOk};
ghost use Rattle.std.specs.Option.{option_copied};
ghost use Rattle.c_rules.specs.Scope.{scope_of, entries, visible};
ghost use Rattle.c_rules.specs.Scope as names;
ghost use Rattle.std.specs.Str.{bytes_eq};
ghost use Rattle.indexmap.specs.IndexMap.{insert_entry};

use c_kernel::ObjectType;
use indexmap::IndexMap;
use sqlite_items::Items;
use std::alloc::{AllocError, Global};
use std::mem;

/// What a name of a function's scopes stands for (C99 6.2.1).
#[derive(Drop)]
pub enum Entity {
    Variable(Variable),
    /// The parameter of `main` with this number, counted from 0.
    Parameter(usize),
}

/// A variable: its number in its function, and its type.
#[derive(Drop)]
pub struct Variable {
    pub number: usize,
    pub kind: ObjectType,
}

/// The names of the blocks around, the outermost first, and of the block itself; and the types of all variables of the function so far.
#[derive(Drop)]
pub struct Scope {
    pub around: Vec<IndexMap<Vec<u8>, Entity>>,
    pub here: IndexMap<Vec<u8>, Entity>,
    pub variables: Items<ObjectType>,
}

impl Scope {
    /// No names.
    pub fn new(alloc: Global) -> Scope
        ensures { scope_of result ≡ names.start }
    {
        Scope {
            around: Vec::new(alloc),
            here: IndexMap::new(alloc),
            variables: Items::new(alloc),
        }
    }

    /// What a name stands for.
    pub fn find(&self, name: &[u8]) -> Option<&Entity>
        ensures { option_copied result ≡ visible (scope_of self.now) name.now }
    {
        let mut found = None;
        for block in &self.around {
            match in_block(block, name) {
                Some(entity) => found = Some(entity),
                None => {}
            }
        }
        match in_block(&self.here, name) {
            Some(entity) => Some(entity),
            None => found,
        }
    }

    /// Whether the block itself declares a name.
    pub fn is_here(&self, name: &[u8]) -> bool
        ensures { result ≡ names.is_here (scope_of self.now) name.now }
    {
        in_block(&self.here, name).is_some()
    }

    /// Declares a variable.
    pub fn declare(
        &mut self,
        alloc: Global,
        name: &[u8],
        kind: ObjectType,
    ) -> Result<(), AllocError>
        ensures { OnOk result (scope_of self.new ≡ names.declare (scope_of self.old) name.now kind) }
    {
        let number = self.variables.len();
        self.variables.push(kind.copy(alloc)?)?;
        put(
            alloc,
            &mut self.here,
            name,
            Entity::Variable(Variable { number, kind }),
        )
    }

    /// Declares the next parameter of `main`, which is no variable.
    #[tactic(auto, using(crate::proofs::Named::length_entries))]
    pub fn hide(&mut self, alloc: Global, name: &[u8]) -> Result<(), AllocError>
        ensures { OnOk result (scope_of self.new ≡ names.hide (scope_of self.old) name.now) }
    {
        let number = self.here.len();
        put(alloc, &mut self.here, name, Entity::Parameter(number))
    }

    /// Goes into a block.
    pub fn enter(&mut self, alloc: Global) -> Result<(), AllocError>
        ensures { OnOk result (scope_of self.new ≡ names.enter (scope_of self.old)) }
    {
        let here = mem::replace(&mut self.here, IndexMap::new(alloc));
        self.around.push(here)?;
        Ok(())
    }

    /// Leaves a block.
    pub fn leave(&mut self)
        ensures { (before : names.Scope) → (scope_of self.old).around ≡ (names.enter before).around → scope_of self.new ≡ names.leave before (scope_of self.old) }
    {
        match self.around.pop() {
            Some(here) => self.here = here,
            None => {}
        }
    }
}

fn in_block<'b>(block: &'b IndexMap<Vec<u8>, Entity>, name: &[u8]) -> Option<&'b Entity>
    ensures { option_copied result ≡ names.in_block (entries block.now.entries) name.now }
{
    block.get(name)
}

fn put(
    alloc: Global,
    block: &mut IndexMap<Vec<u8>, Entity>,
    name: &[u8],
    entity: Entity,
) -> Result<(), AllocError>
    ensures { OnOk result (entries block.new.entries ≡ insert_entry bytes_eq (entries block.old.entries) name.now entity) }
{
    let name = Vec::from_slice(alloc, name)?;
    match block.insert(name, entity) {
        Ok(_) => return Ok(()),
        Err(_) => return Err(AllocError),
    }
}
