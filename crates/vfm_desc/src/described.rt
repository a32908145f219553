//! Reading a whole description: a valid one, or the first fault.

ghost use Rattle.std.specs.Prelude.{◌≡◌, IfOk};
ghost use Rattle.serde_json.specs.View.{view};
ghost use Rattle.vfm_types.specs.Valid.{InRange, IsValid};
ghost use Rattle.vfm_desc.specs.Reading.{Gives};
ghost use Rattle.vfm_desc.specs.Described as spec;

use crate::parts::devices;
use crate::reading::{Level, number};
use serde_json::Value;
use std::alloc::Global;
use vfm_types::{Desc, DescFault, FieldName};

/// A description has at most so many bytes.
pub const MOST_BYTES: usize = 16_777_216;

// the JSON value of the bytes
#[tactic(auto, unfolding(crate::specs::Described::parsed))]
fn parsed(alloc: Global, bytes: &[u8]) -> Result<Value, DescFault>
    ensures { Gives view result (spec.parsed bytes.now) }
{
    if bytes.len() > MOST_BYTES {
        return Err(DescFault::TooLong);
    }
    match Value::from_slice(alloc, bytes) {
        Ok(value) => Ok(value),
        Err(e) => if e.is_memory() {
            Err(DescFault::NoMemory)
        } else {
            Err(DescFault::NotJson)
        },
    }
}

// the description that the value has, each member tested in the order of the table
#[tactic(auto, unfolding(crate::specs::Described::desc_in))]
fn desc(alloc: Global, object: &Value) -> Result<Desc, DescFault>
    ensures value { Gives (λ desc. desc) result (spec.desc_in (view object.now)) }
    ensures in_range { IfOk result InRange }
{
    let level = Level::Top;
    let session = number(object, level, FieldName::Session)?;
    let page = number(object, level, FieldName::Page)? as u32;
    let pages = number(object, level, FieldName::Pages)? as u32;
    let channels = number(object, level, FieldName::Channels)? as u32;
    let version = number(object, level, FieldName::Version)? as u16;
    let begin = number(object, level, FieldName::Begin)? as u32;
    let rounds = number(object, level, FieldName::Rounds)? as u32;
    let threshold = number(object, level, FieldName::Threshold)? as u32;
    let devices = devices(alloc, object)?;
    Ok(Desc {
        session,
        page,
        pages,
        channels,
        version,
        begin,
        rounds,
        threshold,
        devices,
    })
}

/// What the bytes describe: a valid description, or the first thing that is wrong with them. The bytes are JSON of at
/// most 16,777,216 bytes.
#[tactic(auto, unfolding(crate::specs::Described::description_of))]
pub fn read_desc(alloc: Global, bytes: &[u8]) -> Result<Desc, DescFault>
    ensures value { Gives (λ desc. desc) result (spec.description_of bytes.now) }
    ensures valid { IfOk result IsValid }
{
    let value = parsed(alloc, bytes)?;
    let desc = desc(alloc, &value)?;
    Desc::new(desc)
}
