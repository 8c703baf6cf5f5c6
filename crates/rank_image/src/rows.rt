//! Which images are well formed.

ghost use Rattle.std.specs.Prelude.{◌↔◌, IfOk, IsTrue};
ghost use Rattle.rank_image.specs.Breach.{FirstBreach, HasObjects, HasVariables, IsWithinLimits};
ghost use Rattle.rank_image.specs.Along.{spans_seen};

use crate::objects::{are_apart, are_distinct, are_objects};
use crate::sites::spans_along;
use crate::spans::Span;
use crate::variables::{are_below, ascend, have_spans};
use c3_base::NoMemory;
use flat_code::Code;
use image_text::{Field, RankState};
use std::alloc::Global;

/// The first row that breaks a rule with the rows before it. The serial of a variable, an object or a cell belongs to the row that holds it.
pub fn breach(alloc: Global, code: &Code, state: &RankState) -> Result<Option<Field>, NoMemory>
    requires { IsWithinLimits state.now }
    ensures { IfOk result (λ row. FirstBreach code.now state.now row) }
{
    let Some(spans) = spans_along(alloc, code, state.sites.as_slice())? else {
        return Ok(Some(Field::Sites));
    };
    if !has_variables(state, spans.as_slice()) {
        return Ok(Some(Field::Variables));
    }
    if !has_objects(alloc, state)? {
        return Ok(Some(Field::Objects));
    }
    Ok(None)
}

// Whether a state has variables with these spans.
fn has_variables(state: &RankState, spans: &[Span]) -> bool
    ensures { IsTrue result ↔ HasVariables (spans_seen spans.now) state.now }
{
    let variables = state.variables.as_slice();
    have_spans(variables, spans) && ascend(variables) && are_below(variables, state.serial)
}

fn has_objects(alloc: Global, state: &RankState) -> Result<bool, NoMemory>
    ensures { IfOk result (λ has. IsTrue has ↔ HasObjects state.now) }
{
    let objects = state.objects.as_slice();
    if !are_objects(objects, state.serial) || !are_apart(objects) {
        return Ok(false);
    }
    are_distinct(alloc, state.variables.as_slice(), objects)
}
