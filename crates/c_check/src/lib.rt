//! The checker: which trees are programs, and their typed programs.
#![tactic(auto)]

mod body;
mod declaration;
mod expression;
mod fault;
mod form;
mod heading;
mod item;
mod judge;
mod mpi;
mod node;
mod parts;
mod right;
mod single;
mod statement;
mod structs;
mod table;
mod walker;

ghost use Rattle.std.specs.Prelude.{◌≡◌, IfOk, IfSome, option_map};
ghost use Rattle.std.specs.Option.{option_copied};
ghost use Rattle.c_kernel.specs.Regular.{IsRegular};
ghost use Rattle.c_rules.specs.Judged as nodes;
ghost use Rattle.c_rules.specs.Rules.{main_name};
ghost use Rattle.c_rules.specs.Table.{called};
ghost use Rattle.c_check.specs.Check.{Verdict, Judges, said};
ghost use Rattle.c_check.specs.Functions.{number_in};
ghost use Rattle.c_check.specs.Program.{judged_tree, main_in, program_of};
ghost use Rattle.c_check.specs.Statement.{seen_as};
ghost use Rattle.c_check.specs.Told.{Tells};

use c_kernel::program::Program;
use c_rules::signature::{Signature, function};
use c_tree::Kind;
use c_tree::tree::Tree;
pub use fault::CheckFault;
use fault::first;
use indexmap::IndexMap;
use item::Defined;
use judge::{Answer, Judge};
use parts::both;
use std::alloc::Global;
use table::table;
use walker::Walker;

/// The typed program of a tree, or its first broken rule.
pub fn check(alloc: Global, tree: &Tree) -> Result<Program, CheckFault>
    // The answer is right, and no other would be.
    ensures right { IfSome (said result) (Judges tree.now) }
    ensures exact { (v : Verdict) → Judges tree.now v → IfSome (said result) (λ w. w ≡ v) }
    // Its declarations and loops do little at once.
    ensures regular { IfOk result IsRegular }
{
    let mut walker = Walker::new(alloc);
    let found = walker.tree(tree)?;
    match first(&walker.judge.breaches) {
        Some(breach) => Err(CheckFault::Broken {
            kind: breach.kind,
            at: breach.at,
        }),
        None => match found {
            Some(program) => Ok(program),
            None => unreachable!(),
        },
    }
}

impl Walker {
    // What a tree is found to be, or nothing where it breaks a rule.
    fn tree(&mut self, tree: &Tree) -> Answer<Program>
        ensures { IfOk result (λ found. Tells self.old.judge self.new.judge found (seen_as (program_of tree.now) (judged_tree tree.now))) }
    {
        let functions = table(self.judge.alloc, tree.items.as_slice())?;
        let defined = self.items(&functions, tree.items.as_slice())?;
        let main = self.judge.main_of(&functions, tree.length)?;
        Ok(whole(defined, main, tree.any_source))
    }
}

impl Judge {
    // The number of the function that a program starts in.
    fn main_of(&mut self, functions: &IndexMap<Vec<u8>, Signature>, length: u32) -> Answer<usize>
        ensures { IfOk result (λ found. Tells self.old self.new found (main_in length (number_in (called functions.now.entries main_name)))) }
    {
        match number(function(functions, b"main")) {
            None => {
                self.rule(true, Kind::NoMain, length)?;
                Ok(None)
            }
            Some(number) => Ok(Some(number)),
        }
    }
}

fn number(f: Option<&Signature>) -> Option<usize>
    ensures { result ≡ number_in (option_copied f.entry) }
{
    match f {
        None => None,
        Some(f) => f.number,
    }
}

// What is defined and the function that it starts in make a program.
fn whole(defined: Defined, main: Option<usize>, any_source: bool) -> Option<Program>
    ensures { result ≡ option_map (λ p. record { structs = defined.structs; functions = p.0; main = p.1; any_source = any_source }) (nodes.both defined.functions main) }
{
    let Defined { structs, functions } = defined;
    match both(functions, main) {
        None => None,
        Some((functions, main)) => Some(Program {
            structs,
            functions,
            main,
            any_source,
        }),
    }
}
