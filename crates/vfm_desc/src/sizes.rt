//! Reading the sizes of a device's BARs.

ghost use Rattle.std.specs.Prelude.{◌≡◌, ◌≤◌, IfOk, IsTrue, length, map, vec_len};
ghost use Rattle.std.specs.List.{list_all};
ghost use Rattle.serde_json.specs.View.{view};
ghost use Rattle.vfm_types.specs.declared.fault.FieldName.TheVariants as field;
ghost use Rattle.vfm_types.specs.Ranges.{takes, are_bar_sizes};
ghost use Rattle.vfm_desc.specs.Reading as spec;
ghost use Rattle.vfm_desc.specs.Reading.{Gives, each};

use crate::reading::{Level, elements, member, ranged, whole_number};
use serde_json::Value;
use std::alloc::Global;
use vfm_types::{Bars, DescFault, FieldName};

/// A device has at most so many BARs. A longer list is refused before memory is taken for its sizes.
const MOST_BARS: usize = 6;

// the size of a BAR
#[tactic(auto, unfolding(crate::specs::Reading::size_in))]
fn size(value: &Value, level: Level) -> Result<u32, DescFault>
    ensures value { Gives (λ n. n) result (spec.size_in level (view value.now)) }
    ensures taken { IfOk result (λ n. IsTrue (takes field.Bar n)) }
{
    let n = whole_number(value, level.field(FieldName::Bar))?;
    let size = ranged(level, FieldName::Bar, n)?;
    Ok(size as u32)
}

// these sizes in order
fn each_size(alloc: Global, values: &[Value], level: Level) -> Result<Vec<u32>, DescFault>
    ensures value { Gives (λ sizes. sizes.items) result (each (λ k. spec.size_in level) 0 (map view values.now)) }
    ensures taken { IfOk result (λ sizes. IsTrue (list_all (takes field.Bar) sizes.items)) }
{
    let mut sizes = Vec::new(alloc);
    for value in values {
        let next = size(value, level)?;
        let Ok(()) = sizes.push(next) else {
            return Err(DescFault::NoMemory);
        };
    }
    Ok(sizes)
}

// BARs of these sizes, where a device may have them
#[tactic(auto, unfolding(crate::specs::Reading::sizes_together))]
fn together(sizes: &[u32], level: Level) -> Result<Bars, DescFault>
    ensures value { Gives (λ bars. bars) result (spec.sizes_together level sizes.now) }
    ensures form { IfOk result (λ bars. IsTrue (are_bar_sizes bars)) }
{
    let Some(bars) = Bars::of(sizes) else {
        return Err(DescFault::Range(level.field(FieldName::Bar)));
    };
    if !bars.is_in_range() {
        return Err(DescFault::Range(level.field(FieldName::Bar)));
    }
    Ok(bars)
}

// a number alone is the size of the only BAR
#[tactic(auto, unfolding(crate::specs::Reading::only_size))]
fn only(value: &Value, level: Level) -> Result<Bars, DescFault>
    ensures value { Gives (λ bars. bars) result (spec.only_size level (view value.now)) }
    ensures form { IfOk result (λ bars. IsTrue (are_bar_sizes bars)) }
{
    let size = size(value, level)?;
    together(&[size], level)
}

// a list gives the sizes of the BARs in order
#[tactic(auto, unfolding(crate::specs::Reading::listed_sizes))]
fn listed(alloc: Global, value: &Value, level: Level) -> Result<Bars, DescFault>
    ensures value { Gives (λ bars. bars) result (spec.listed_sizes level (view value.now)) }
    ensures form { IfOk result (λ bars. IsTrue (are_bar_sizes bars)) }
{
    let values = elements(value, level, FieldName::Bar)?;
    if values.len() > MOST_BARS {
        return Err(DescFault::Range(level.field(FieldName::Bar)));
    }
    let sizes = each_size(alloc, values, level)?;
    together(sizes.as_slice(), level)
}

// the BARs whose sizes a value gives
#[tactic(auto, unfolding(crate::specs::Reading::sizes_in))]
fn sized(alloc: Global, value: &Value, level: Level) -> Result<Bars, DescFault>
    ensures value { Gives (λ bars. bars) result (spec.sizes_in level (view value.now)) }
    ensures form { IfOk result (λ bars. IsTrue (are_bar_sizes bars)) }
{
    if value.is_number() {
        only(value, level)
    } else {
        listed(alloc, value, level)
    }
}

/// A device's BARs: a number is the size of the only one, a list gives the sizes in order.
#[tactic(auto, unfolding(crate::specs::Reading::bars_in))]
pub(crate) fn bars(alloc: Global, object: &Value, level: Level) -> Result<Bars, DescFault>
    ensures value { Gives (λ bars. bars) result (spec.bars_in (view object.now) level) }
    ensures form { IfOk result (λ bars. IsTrue (are_bar_sizes bars)) }
{
    let value = member(object, level, FieldName::Bar)?;
    sized(alloc, value, level)
}
