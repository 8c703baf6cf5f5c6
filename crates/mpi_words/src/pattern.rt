//! What a receive takes.

ghost use Rattle.std.specs.Prelude.{◌≡◌, [], ◌∷◌, IfOk};
ghost use Rattle.mpi_words.specs.Matching as spec;

use crate::message::Message;
use c3_base::NoMemory;
use smallvec::SmallVec;
use std::alloc::Global;
use std::marker::Model;

/// Which messages a receive takes (MPI 3.1 3.2.4).
#[derive(Clone, Copy, PartialEq, Eq, Debug, Default)]
pub struct Pattern {
    /// The rank that sent it, or any: `MPI_ANY_SOURCE`.
    pub source: Option<u16>,
    /// As in a message.
    pub context: u8,
    /// Its tag, or any: `MPI_ANY_TAG`.
    pub tag: Option<i64>,
}

/// Whether a receive takes this message from this rank.
pub fn matches(p: &Pattern, source: u16, m: &Message) -> bool
    ensures { result ≡ spec.matches p.now source m.now }
{
    allows_source(p.source, source) && p.context == m.context && allows_tag(p.tag, m.tag)
}

// Whether a receive takes from a rank.
fn allows_source(wanted: Option<u16>, source: u16) -> bool
    ensures { result ≡ spec.allows_source wanted source }
{
    match wanted {
        None => true,
        Some(named) => named == source,
    }
}

// Whether a receive takes a tag.
fn allows_tag(wanted: Option<i64>, tag: i64) -> bool
    ensures { result ≡ spec.allows_tag wanted tag }
{
    match wanted {
        None => true,
        Some(named) => named == tag,
    }
}

/// The patterns of receives that wait side by side, in order of posting. Contracts see them as their list.
#[derive(Debug, Drop)]
pub struct Patterns {
    list: SmallVec<Pattern, 4>,
}

impl Model for Patterns {
    ghost use Rattle.std.specs.Prelude.{List};
    ghost use Rattle.mpi_words.specs.declared.pattern.Pattern.{Pattern};

    ghost Value = { List Pattern };

    ghost view = { λ p. p.list.items };
}

impl Patterns {
    /// A single pattern, which takes no memory.
    pub fn one(alloc: Global, pattern: Pattern) -> Patterns
        ensures { result ≡ pattern ∷ [] }
    {
        let mut list = SmallVec::new(alloc);
        list.push_reserved(pattern);
        Patterns { list }
    }

    pub fn as_slice(&self) -> &[Pattern]
        ensures { result.now ≡ self.now }
    {
        self.list.as_slice()
    }

    /// An equal list.
    pub fn copy(&self) -> Result<Patterns, NoMemory>
        ensures { IfOk result (λ copy. copy ≡ self.now) }
    {
        let list = SmallVec::from_slice(*self.list.allocator(), self.list.as_slice())?;
        Ok(Patterns { list })
    }
}
