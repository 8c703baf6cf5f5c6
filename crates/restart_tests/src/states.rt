//! States compared.

ghost use Rattle.rank_image.specs.Breach.{IsWithinLimits};

use image_text::{RankState, SavedObject};
use rank_machine::Machine;
use std::process::Abort;
use std::test::Fail;

/// The numbers of a state are as an image's file allows.
pub fn assert_within(rt: &impl Abort, state: &RankState)
    ensures { IsWithinLimits state.now }
{
    assert!(rt; state.output <= 1_048_576);
    assert!(rt; 1 <= state.serial);
    assert!(rt; state.phase <= 2);
}

fn is_same_object(left: &SavedObject, right: &SavedObject) -> bool {
    left.serial == right.serial
        && left.place == right.place
        && left.cells.as_slice() == right.cells.as_slice()
}

fn are_same_objects(left: &[SavedObject], right: &[SavedObject]) -> bool {
    if left.len() != right.len() {
        return false;
    }
    for (a, b) in left.iter().zip(right) {
        if !is_same_object(a, b) {
            return false;
        }
    }
    true
}

// Whether two states are equal in each field.
fn is_same(left: &RankState, right: &RankState) -> bool {
    left.output == right.output
        && left.serial == right.serial
        && left.phase == right.phase
        && left.calls == right.calls
        && left.sites.as_slice() == right.sites.as_slice()
        && are_same_objects(left.variables.as_slice(), right.variables.as_slice())
        && are_same_objects(left.objects.as_slice(), right.objects.as_slice())
}

/// A machine stands as it was saved.
pub fn assert_same(rt: &impl Abort, machine: &Machine, state: &RankState) -> Result<(), Fail> {
    let again = machine.state()?;
    assert!(rt; is_same(&again, state));
    assert_eq!(rt; machine.sites(), state.sites.as_slice());
    Ok(())
}
