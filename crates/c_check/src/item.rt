//! The items of a program.

ghost use Rattle.std.specs.Prelude.{◌≡◌, true, false, [], IfOk};
ghost use Rattle.c_rules.specs.Judged as nodes;
ghost use Rattle.c_rules.specs.Scope.{scope_of, start};
ghost use Rattle.c_rules.specs.Table.{called};
ghost use Rattle.c_rules.specs.Types as types;
ghost use Rattle.c_check.specs.Functions as headers;
ghost use Rattle.c_check.specs.Program as program;
ghost use Rattle.c_check.specs.Structs.{all_structs, struct_rules};
ghost use Rattle.c_check.specs.Told.{Tells, knowing};

use crate::heading::result_of;
use crate::judge::{Answer, Judge, Known};
use crate::parts::{appended, one};
use crate::structs::add_struct;
use crate::table::next_number;
use crate::walker::{Around, Walker};
use c_kernel::program::{Function, Stmt as Typed};
use c_kernel::{CType, Struct};
use c_rules::scope::Scope;
use c_rules::signature::Signature;
use c_rules::types::first_structs;
use c_tree::tree::{Block, Heading, Item, MemberDeclaration, Name, Stmt};
use indexmap::IndexMap;
use sqlite_items::{Boxed, Items};
use std::alloc::AllocError;
use std::mem;

/// What the items of a program define: its structs, and its functions, where they are sound.
#[derive(Drop)]
pub struct Defined {
    pub structs: Items<Struct>,
    pub functions: Option<Items<Function>>,
}

impl Judge {
    // A struct defines no function.
    #[tactic(auto, using(crate::proofs::Silences::broken, crate::proofs::Silences::unbroken))]
    fn structure(
        &mut self,
        structs: &[Struct],
        name: &Name,
        members: &[MemberDeclaration],
    ) -> Answer<Items<Function>>
        ensures { IfOk result (λ found. Tells self.old self.new found (nodes.by (struct_rules structs.now name.now members.now) [])) }
    {
        let mark = self.mark();
        self.note_struct(structs, name, members)?;
        if self.broke(mark) {
            return Ok(None);
        }
        Ok(Some(Items::new(self.alloc)))
    }

    #[tactic(auto, using(crate::proofs::Silences::broken, crate::proofs::Silences::unbroken))]
    fn prototype(&mut self, known: Known<'_>, number: usize, h: &Heading) -> Answer<Items<Function>>
        ensures { IfOk result (λ found. Tells self.old self.new found (nodes.by (knowing known.entry headers.heading_rules number false h.now) [])) }
    {
        let mark = self.mark();
        self.heading(known, number, false, h)?;
        if self.broke(mark) {
            return Ok(None);
        }
        Ok(Some(Items::new(self.alloc)))
    }
}

impl Walker {
    /// What the items define.
    pub fn items(
        &mut self,
        functions: &IndexMap<Vec<u8>, Signature>,
        items: &[Item],
    ) -> Result<Defined, AllocError>
        ensures structs { IfOk result (λ defined. defined.structs ≡ all_structs types.first_structs items.now) }
        ensures told { IfOk result (λ defined. Tells self.old.judge self.new.judge defined.functions (program.items_judged (called functions.now.entries) types.first_structs 0 items.now)) }
    {
        let alloc = self.judge.alloc;
        let mut structs = first_structs(alloc)?;
        let mut found = Some(Items::new(alloc));
        let mut number = 0;
        for x in items {
            let known = Known {
                functions,
                structs: structs.as_slice(),
            };
            let more = self.item(known, number, x)?;
            found = appended(found, more)?;
            number = next_number(number, x);
            add_struct(alloc, &mut structs, x)?;
        }
        Ok(Defined {
            structs,
            functions: found,
        })
    }

    // What an item adds: a definition one function.
    #[tactic(auto, using(std::proofs::Common::append_assoc))]
    fn item(&mut self, known: Known<'_>, number: usize, x: &Item) -> Answer<Items<Function>>
        ensures { IfOk result (λ found. Tells self.old.judge self.new.judge found (knowing known.entry program.item_judged number x.now)) }
    {
        match x {
            Item::Include { .. } => Ok(Some(Items::new(self.judge.alloc))),
            Item::Struct { name, members, .. } => {
                self.judge
                    .structure(known.structs, name, members.as_slice())
            }
            Item::Prototype(heading) => self.judge.prototype(known, number, heading),
            Item::Function { heading, body } => {
                match self.definition(known, number, heading, body)? {
                    None => Ok(None),
                    Some(f) => Ok(Some(one(self.judge.alloc, f)?)),
                }
            }
        }
    }

    // A definition: the rules of its header, and its function.
    #[tactic(auto, using(std::proofs::Common::append_assoc))]
    fn definition(
        &mut self,
        known: Known<'_>,
        number: usize,
        h: &Heading,
        body: &Block<Stmt>,
    ) -> Answer<Boxed<Function>>
        ensures { IfOk result (λ found. Tells self.old.judge self.new.judge found (nodes.after (knowing known.entry headers.heading_rules number true h.now) (knowing known.entry program.body h.now body.now.items))) }
    {
        self.scope = self.judge.heading(known, number, true, h)?;
        self.function(known, h, body)
    }

    // A function with its parameters in scope, which its body's outermost declarations join.
    fn function(
        &mut self,
        known: Known<'_>,
        h: &Heading,
        body: &Block<Stmt>,
    ) -> Answer<Boxed<Function>>
        requires { scope_of self.old.scope ≡ headers.with_parameters known.structs.now (headers.is_main h.now) start (headers.parameters_of h.now.parameters) }
        ensures { IfOk result (λ found. Tells self.old.judge self.new.judge found (knowing known.entry program.body h.now body.now.items)) }
    {
        let parameters = self.scope.variables.len();
        let around = Around {
            known,
            result_type: result_of(known.structs, h),
            looping: false,
        };
        match self.body_items(around, body.items.as_slice())? {
            None => Ok(None),
            Some(steps) => Ok(Some(self.made(h, parameters, around.result_type, steps)?)),
        }
    }

    // A function of these steps, which takes its variables from the scope.
    fn made(
        &mut self,
        h: &Heading,
        parameters: usize,
        result_type: CType,
        body: Items<Typed>,
    ) -> Result<Boxed<Function>, AllocError>
        ensures made { IfOk result (λ f. f ≡ record { name = h.now.name.bytes; result = result_type; parameters = parameters; variables = self.old.scope.variables; body = body }) }
        ensures judge { self.new.judge ≡ self.old.judge }
    {
        let alloc = self.judge.alloc;
        let name = Items::from_slice(alloc, h.name.bytes.as_slice())?;
        let scope = mem::replace(&mut self.scope, Scope::new(alloc));
        Boxed::new(
            alloc,
            Function {
                name,
                result: result_type,
                parameters,
                variables: scope.variables,
                body,
            },
        )
    }
}
