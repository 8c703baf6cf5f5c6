//! Tests of statements.

ghost use Rattle.std.specs.Prelude.{◌≡◌, ◌+◌, ◌<◌, ◌^◌, List};
ghost use Rattle.c_kernel.specs.declared.program.Stmt as statement;
ghost use Rattle.c_meaning.specs.Level.{branch_of};
ghost use Rattle.c_memory.specs.Memory.{map_ok};
ghost use Rattle.c_meaning.specs.Step.{branch};

use c_kernel::program::{Arm, Stmt};
use c_memory::Memory;
use c_values::value::{Variables, is_false, value};

/// Which branch of an `if` is taken, counted from 0.
pub fn chosen(arms: &[Arm<Stmt>], variables: &Variables, memory: &Memory) -> Result<usize, u16>
    requires { variables.now.first + variables.now.count < 2 ^ 64 }
    ensures { (otherwise : List statement.Stmt) → map_ok (branch_of arms.now otherwise) result ≡ branch arms.now otherwise variables.now memory.now }
{
    let mut at = 0;
    for arm in arms {
        let test = value(&arm.test, variables, memory)?;
        if !is_false(test) {
            return Ok(at);
        }
        at += 1;
    }
    Ok(at)
}
