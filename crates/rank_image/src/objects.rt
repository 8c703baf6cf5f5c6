//! The row of objects.

ghost use Rattle.std.specs.Prelude.{◌≡◌, ◌++◌, ◌↔◌, IfOk, IsTrue, map};
ghost use Rattle.std.specs.List.{All};
ghost use Rattle.rank_machine.specs.Saving.{block_of};
ghost use Rattle.rank_machine.specs.Tied.{AreApart};
ghost use Rattle.rank_machine.specs.WellFormed.{AreDistinct};
ghost use Rattle.rank_image.specs.Breach.{IsObject};

use crate::variables::is_below;
use c3_base::NoMemory;
use image_text::SavedObject;
use std::alloc::Global;
use std::collections::BTreeSet;

/// Whether each has cells, and serials below the next one.
pub fn are_objects(objects: &[SavedObject], next: u64) -> bool
    ensures { IsTrue result ↔ All (IsObject next) objects.now }
{
    for o in objects {
        if !is_object(o, next) {
            return false;
        }
    }
    true
}

fn is_object(o: &SavedObject, next: u64) -> bool
    ensures { IsTrue result ↔ IsObject next o.now }
{
    o.cells.as_slice().len() > 0 && o.serial > 0 && is_below(o, next)
}

/// Whether each stands behind the one before, and the last ends at most at place 65,536.
pub fn are_apart(objects: &[SavedObject]) -> bool
    ensures { IsTrue result ↔ AreApart 65536 0 (map block_of objects.now) }
{
    let mut low: u64 = 0;
    for o in objects {
        if u64::from(o.place) < low {
            return false;
        }
        low = u64::from(o.place) + o.cells.as_slice().len() as u64;
    }
    low <= 65536
}

/// Whether no serial stands twice.
pub fn are_distinct(
    alloc: Global,
    variables: &[SavedObject],
    objects: &[SavedObject],
) -> Result<bool, NoMemory>
    ensures { IfOk result (λ are. IsTrue are ↔ AreDistinct (variables.now ++ objects.now)) }
{
    let mut taken = BTreeSet::new(alloc);
    for v in variables {
        if !taken.insert(v.serial)? {
            return Ok(false);
        }
    }
    for o in objects {
        if !taken.insert(o.serial)? {
            return Ok(false);
        }
    }
    Ok(true)
}
