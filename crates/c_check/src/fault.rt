//! Why a tree is no program, and the first of its broken rules.

ghost use Rattle.std.specs.Prelude.{◌≡◌};
ghost use Rattle.c_check.specs.Program as program;
ghost use Rattle.c_check.specs.declared.fault.CheckFault.TheVariants.{NoMemory};

use c_rules::breach::Breach;
use c_tree::Kind;
use std::alloc::AllocError;
use thiserror::Error;

/// Why a tree is no program.
#[derive(Clone, Copy, Debug, Error, PartialEq, Eq)]
pub enum CheckFault {
    /// This rule is broken at the lowest offset in the text, and of several there it is the first of the table.
    #[error("{kind:?} at byte {at}")]
    Broken { kind: Kind, at: u32 },
    #[error("no memory")]
    NoMemory,
}

impl From<AllocError> for CheckFault {
    ghost from_gives = { λ _ e. e ≡ NoMemory };

    fn from(_: AllocError) -> Self {
        CheckFault::NoMemory
    }
}

/// The first of the breaches.
pub fn first(breaches: &[Breach]) -> Option<Breach>
    ensures { result ≡ program.first breaches.now }
{
    let mut found = None;
    for breach in breaches {
        found = sooner(found, *breach);
    }
    found
}

fn sooner(found: Option<Breach>, breach: Breach) -> Option<Breach>
    ensures { result ≡ program.sooner found breach }
{
    match found {
        None => Some(breach),
        Some(earlier) => {
            if precedes(breach, earlier) {
                Some(breach)
            } else {
                Some(earlier)
            }
        }
    }
}

fn precedes(f: Breach, g: Breach) -> bool
    ensures { result ≡ program.precedes f g }
{
    f.at < g.at || (f.at == g.at && precedence(f.kind) < precedence(g.kind))
}

// The number of a rule in the table.
fn precedence(kind: Kind) -> u8
    ensures { result ≡ program.precedence kind }
{
    kind as u8
}
