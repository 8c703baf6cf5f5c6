ghost use Rattle.std.specs.Prelude.{IfOk, IfSome, Err, List, ℕ};
ghost use Rattle.c_grammar.specs.Text.{HasTree, Parses};
ghost use Rattle.c_kernel.specs.Regular.{IsRegular};
ghost use Rattle.c_parse.specs.Parse as parser;
ghost use Rattle.c3_top.specs.Text.{IsVerdict, said};

use c_check::{CheckFault, check};
use c_kernel::program::Program;
use c_parse::{ParseFault, parse};
use c_tree::Kind;
use c_tree::tree::Tree;
use std::alloc::Global;

/// Why a text is no program. A place is the offset of a byte in the text.
#[derive(Clone, Copy)]
pub enum NoProgram {
    Refused { kind: Kind, at: u32 },
    NoMemory,
}

/// The typed program of a text.
pub fn program(alloc: Global, text: &[u8]) -> Result<Program, NoProgram>
    ensures verdict { IfSome (said result) (IsVerdict text.now) }
    ensures regular { IfOk result IsRegular }
{
    match parse(alloc, text) {
        Ok(tree) => checked(alloc, &tree),
        Err(fault) => Err(unparsed(fault)),
    }
}

/// The typed program of a text's tree.
#[tactic(auto, using(crate::proofs::Verdicts::is_program))]
fn checked(alloc: Global, tree: &Tree) -> Result<Program, NoProgram>
    ensures regular { IfOk result IsRegular }
    ensures verdict { (text : List ℕ) → HasTree text tree.now → IfSome (said result) (IsVerdict text) }
{
    match check(alloc, tree) {
        Ok(program) => Ok(program),
        Err(CheckFault::Broken { kind, at }) => Err(NoProgram::Refused { kind, at }),
        Err(CheckFault::NoMemory) => Err(NoProgram::NoMemory),
    }
}

fn unparsed(fault: ParseFault) -> NoProgram
    ensures { (text : List ℕ) → IfSome (parser.said (Err fault)) (Parses text) → IfSome (said (Err result)) (IsVerdict text) }
{
    let (kind, at) = match fault {
        ParseFault::TextLimit => (Kind::TextLimit, 65536),
        ParseFault::Syntax { at } => (Kind::Syntax, at),
        ParseFault::TooDeep { at } => (Kind::TooDeep, at),
        ParseFault::NumberRange { at } => (Kind::NumberRange, at),
        ParseFault::NoMemory => return NoProgram::NoMemory,
    };
    NoProgram::Refused { kind, at }
}
