//! Declarations.

ghost use Rattle.std.specs.Prelude.{◌≡◌, IfOk, OnOk, map};
ghost use Rattle.c_kernel.specs.declared.program.Stmt.TheVariants as typed;
ghost use Rattle.c_rules.specs.Judged.{Notes};
ghost use Rattle.c_rules.specs.Scope.{scope_of};
ghost use Rattle.c_rules.specs.Types as types;
ghost use Rattle.c_check.specs.Statement as walk;
ghost use Rattle.c_check.specs.Told.{Tells, Walks, among, knowing};

use crate::judge::{Answer, Judge, Known, Names};
use crate::parts::gather_inner;
use crate::walker::Walker;
use c_kernel::program::{Action, Stmt as Typed};
use c_kernel::{CType, ObjectType, Struct};
use c_rules::found::Found;
use c_rules::rules::{place, variable};
use c_rules::types::{element_cells, is_incomplete, note_specifier, object_type, room, type_of};
use c_tree::Kind;
use c_tree::tree::{Declaration, Expr, ForStart, InitDeclarator, Number, TypeSpecifier};
use sqlite_items::{Boxed, Items};
use std::alloc::{AllocError, Global};

/// The sizes of an array, the outermost first.
pub fn sizes_of(alloc: Global, sizes: &[Number]) -> Result<Items<u64>, AllocError>
    ensures { IfOk result (λ values. values ≡ map (λ n. n.value) sizes.now) }
{
    let mut values = Items::new(alloc);
    for n in sizes {
        values.push(n.value)?;
    }
    Ok(values)
}

/// Whether an object of these sizes has none that may be, by one of them or by all its cells.
fn is_too_large(
    alloc: Global,
    structs: &[Struct],
    c_type: CType,
    sizes: &[Number],
) -> Result<bool, AllocError>
    ensures { IfOk result (λ large. large ≡ types.is_too_large structs.now c_type (map (λ n. n.value) sizes.now)) }
{
    let sizes = sizes_of(alloc, sizes)?;
    let room = room(element_cells(structs, c_type), sizes.as_slice());
    Ok(room.is_none())
}

/// The type of an object of these sizes.
fn object_of(
    alloc: Global,
    structs: &[Struct],
    c_type: CType,
    sizes: &[Number],
) -> Result<ObjectType, AllocError>
    ensures { IfOk result (λ object. object ≡ types.object_type structs.now c_type (map (λ n. n.value) sizes.now)) }
{
    let sizes = sizes_of(alloc, sizes)?;
    object_type(alloc, structs, c_type, sizes.as_slice())
}

impl Judge {
    #[tactic(auto, using(std::proofs::Common::append_assoc))]
    fn note_variable(
        &mut self,
        names: Names<'_>,
        c_type: CType,
        d: &InitDeclarator,
    ) -> Result<(), AllocError>
        ensures { OnOk result (Notes self.old.breaches self.new.breaches (walk.variable_rules names.entry.known.structs.now (scope_of names.entry.scope.now) c_type d.now)) }
    {
        let structs = names.known.structs;
        let again = names.scope.is_here(d.name.bytes.as_slice());
        self.rule(again, Kind::Redeclared, d.name.at)?;
        let large = is_too_large(self.alloc, structs, c_type, d.sizes.as_slice())?;
        self.rule(large, Kind::ArraySize, d.name.at)?;
        self.rule(
            is_incomplete(structs, c_type),
            Kind::IncompleteType,
            d.name.at,
        )
    }

    // A variable's initialiser, or zeros.
    #[tactic(auto, using(std::proofs::Common::append_assoc))]
    fn initial(
        &mut self,
        names: Names<'_>,
        v: Boxed<Found>,
        number: usize,
        e: &Option<Expr>,
    ) -> Answer<Boxed<Action>>
        ensures { IfOk result (λ found. Tells self.old self.new found (among names.entry walk.initial v e.now number)) }
    {
        match e {
            None => Ok(Some(Boxed::new(self.alloc, Action::Zero(number))?)),
            Some(e) => match self.right(names, e)? {
                None => Ok(None),
                Some(r) => self.assign(names.known.structs, v, r),
            },
        }
    }
}

impl Walker {
    // A variable, which is in scope from its own initialiser on.
    #[tactic(auto, using(std::proofs::Common::append_assoc))]
    fn variable(
        &mut self,
        known: Known<'_>,
        t: &TypeSpecifier,
        d: &InitDeclarator,
    ) -> Answer<Boxed<Action>>
        ensures { IfOk result (λ found. Walks self.old self.new found (knowing known.entry walk.variable_walk t.now d.now)) }
    {
        let alloc = self.judge.alloc;
        let structs = known.structs;
        let c_type = type_of(structs, None, t, d.stars);
        let scope = &self.scope;
        self.judge.note_variable(Names { known, scope }, c_type, d)?;
        let object = object_of(alloc, structs, c_type, d.sizes.as_slice())?;
        let number = self.scope.variables.len();
        self.scope
            .declare(alloc, d.name.bytes.as_slice(), object.copy(alloc)?)?;
        let whole = Boxed::new(alloc, variable(alloc, number))?;
        let v = place(alloc, d.name.at, object, whole)?;
        let scope = &self.scope;
        self.judge
            .initial(Names { known, scope }, v, number, &d.value)
    }

    // Variables of one type specifier, in order.
    #[tactic(auto, using(std::proofs::Common::append_assoc))]
    fn variables(
        &mut self,
        known: Known<'_>,
        t: &TypeSpecifier,
        ds: &[InitDeclarator],
    ) -> Answer<Items<Action>>
        ensures { IfOk result (λ found. Walks self.old self.new found (walk.walk_all (map (knowing known.entry walk.variable_walk t.now) ds.now))) }
    {
        let mut found = Some(Items::new(self.judge.alloc));
        for d in ds {
            let one = self.variable(known, t, d)?;
            found = gather_inner(found, one)?;
        }
        Ok(found)
    }

    /// The variables of a declaration, which come into scope.
    #[tactic(auto, using(std::proofs::Common::append_assoc))]
    pub fn declaration(&mut self, known: Known<'_>, d: &Declaration) -> Answer<Items<Action>>
        ensures { IfOk result (λ found. Walks self.old self.new found (knowing known.entry walk.declaration d.now)) }
    {
        note_specifier(&mut self.judge.breaches, known.structs, None, &d.specifier)?;
        self.variables(known, &d.specifier, d.declarators.as_slice())
    }

    /// A declaration as a statement.
    pub fn declaration_statement(
        &mut self,
        known: Known<'_>,
        d: &Declaration,
    ) -> Answer<Boxed<Typed>>
        ensures { IfOk result (λ found. Walks self.old self.new found (walk.walk_as typed.Actions (knowing known.entry walk.declaration d.now))) }
    {
        match self.declaration(known, d)? {
            None => Ok(None),
            Some(actions) => Ok(Some(Boxed::new(self.judge.alloc, Typed::Actions(actions))?)),
        }
    }

    /// What stands before the first semicolon of a `for`.
    pub fn start(&mut self, known: Known<'_>, s: &Option<ForStart>) -> Answer<Items<Action>>
        ensures { IfOk result (λ found. Walks self.old self.new found (knowing known.entry walk.start s.now)) }
    {
        match s {
            None => Ok(Some(Items::new(self.judge.alloc))),
            Some(ForStart::Declaration(d)) => self.declaration(known, d),
            Some(ForStart::Simple(x)) => {
                let scope = &self.scope;
                self.judge.simple_actions(Names { known, scope }, x)
            }
        }
    }
}
