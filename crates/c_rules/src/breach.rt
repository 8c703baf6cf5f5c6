//! Broken rules.

ghost use Rattle.std.specs.Prelude.{OnOk};
ghost use Rattle.c_rules.specs.Judged.{Notes, breaks};

use c_tree::Kind;
use std::alloc::AllocError;

/// A broken rule, and the offset in the text of what breaks it.
#[derive(Clone, Copy)]
pub struct Breach {
    pub kind: Kind,
    pub at: u32,
}

/// Notes that a rule is broken, where it is.
pub fn rule(breaches: &mut Vec<Breach>, broken: bool, kind: Kind, at: u32) -> Result<(), AllocError>
    ensures { OnOk result (Notes breaches.old breaches.new (breaks broken kind at)) }
{
    if broken {
        breaches.push(Breach { kind, at })?;
    }
    Ok(())
}
