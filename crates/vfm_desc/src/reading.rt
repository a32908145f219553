//! Reading one member of an object of a description.

ghost use Rattle.std.specs.Prelude.{◌≡◌, ◌≤◌, IfOk, IsTrue, List, length, map, vec_len};
ghost use Rattle.std.specs.List.{list_all};
ghost use Rattle.std.specs.Option.{ok_or};
ghost use Rattle.serde_json.specs.Data.{Data};
ghost use Rattle.serde_json.specs.View.{view};
ghost use Rattle.vfm_types.specs.declared.fault.DescFault.TheVariants.{Range};
ghost use Rattle.vfm_types.specs.Bytes.{is_name};
ghost use Rattle.vfm_types.specs.Ranges.{least, most, has_form, takes};
ghost use Rattle.vfm_types.specs.declared.fault.FieldName.TheVariants as field;
ghost use Rattle.vfm_desc.specs.Reading as spec;
ghost use Rattle.vfm_desc.specs.Reading.{Gives};

use crate::members::member_name;
use hex::FromHexError;
use serde_json::Value;
use std::alloc::Global;
use vfm_types::{Bytes64, DescFault, Field, FieldName, Name};

/// Where an object stands in a description.
#[derive(Clone, Copy)]
pub(crate) enum Level {
    /// It is the description.
    Top,
    /// It is the device with this number.
    OfDevice(u32),
    /// It is a job: the numbers of the device and of the job.
    OfJob(u32, u32),
}

impl Level {
    /// The member of the object with this name, as a fault names it.
    pub(crate) fn field(self, name: FieldName) -> Field
        ensures { result ≡ spec.field_at self name }
    {
        match self {
            Level::Top => Field {
                device: u32::MAX,
                job: u32::MAX,
                name,
            },
            Level::OfDevice(device) => Field {
                device,
                job: u32::MAX,
                name,
            },
            Level::OfJob(device, job) => Field { device, job, name },
        }
    }
}

/// The kind of a job.
#[derive(Clone, Copy)]
pub(crate) enum JobKind {
    Write,
    Read,
    Store,
    Add,
}

/// The member's value.
#[tactic(auto, unfolding(crate::specs::Reading::member_of))]
pub(crate) fn member(object: &Value, level: Level, name: FieldName) -> Result<&Value, DescFault>
    ensures { Gives (λ value. view value.now) result (spec.member_of (view object.now) level name) }
{
    object
        .get(member_name(name))
        .ok_or(DescFault::Missing(level.field(name)))
}

/// The value as a whole number.
#[tactic(auto, unfolding(crate::specs::Reading::whole_number))]
pub(crate) fn whole_number(value: &Value, field: Field) -> Result<u64, DescFault>
    ensures { Gives (λ n. n) result (spec.whole_number field (view value.now)) }
{
    let number = value.as_number().ok_or(DescFault::Kind(field))?;
    number.as_u64().ok_or(DescFault::Range(field))
}

/// The number, where the member takes it.
#[tactic(auto, unfolding(crate::specs::Reading::ranged))]
pub(crate) fn ranged(level: Level, name: FieldName, n: u64) -> Result<u64, DescFault>
    ensures value { Gives (λ n. n) result (spec.ranged level name n) }
    ensures low { IfOk result (λ n. least name ≤ n) }
    ensures high { IfOk result (λ n. n ≤ most name) }
    ensures form { IfOk result (λ n. IsTrue (has_form name n)) }
    ensures same { IfOk result (λ m. m ≡ n) }
{
    if !name.takes(n) {
        return Err(DescFault::Range(level.field(name)));
    }
    Ok(n)
}

/// A member that is a number.
#[tactic(auto, unfolding(crate::specs::Reading::number_in))]
pub(crate) fn number(object: &Value, level: Level, name: FieldName) -> Result<u64, DescFault>
    ensures value { Gives (λ n. n) result (spec.number_in (view object.now) level name) }
    ensures low { IfOk result (λ n. least name ≤ n) }
    ensures high { IfOk result (λ n. n ≤ most name) }
    ensures form { IfOk result (λ n. IsTrue (has_form name n)) }
{
    let value = member(object, level, name)?;
    let n = whole_number(value, level.field(name))?;
    ranged(level, name, n)
}

// a member that is a text
#[tactic(auto, unfolding(crate::specs::Reading::text_in))]
fn text(object: &Value, level: Level, name: FieldName) -> Result<&str, DescFault>
    ensures { Gives (λ text. text.now) result (spec.text_in (view object.now) level name) }
{
    let value = member(object, level, name)?;
    value.as_str().ok_or(DescFault::Kind(level.field(name)))
}

/// Whether the device can tell peer-to-peer DMA from other DMA.
#[tactic(auto, unfolding(crate::specs::Reading::tells_in))]
pub(crate) fn tells(object: &Value, level: Level) -> Result<bool, DescFault>
    ensures { Gives (λ tells. tells) result (spec.tells_in (view object.now) level) }
{
    let value = member(object, level, FieldName::Tells)?;
    value
        .as_bool()
        .ok_or(DescFault::Kind(level.field(FieldName::Tells)))
}

/// A device's name.
#[tactic(auto, unfolding(crate::specs::Reading::name_in))]
pub(crate) fn name(object: &Value, level: Level) -> Result<Name, DescFault>
    ensures value { Gives (λ name. name) result (spec.name_in (view object.now) level) }
    ensures form { IfOk result (λ name. IsTrue (is_name name)) }
{
    let text = text(object, level, FieldName::Name)?;
    match Name::of(text.as_bytes()) {
        Some(name) => Ok(name),
        None => Err(DescFault::Range(level.field(FieldName::Name))),
    }
}

/// The bytes of a write.
#[tactic(auto, unfolding(crate::specs::Reading::bytes_in))]
pub(crate) fn bytes(alloc: Global, object: &Value, level: Level) -> Result<Bytes64, DescFault>
    ensures value { Gives (λ bytes. bytes) result (spec.bytes_in (view object.now) level) }
    ensures least { IfOk result (λ bytes. 1 ≤ length bytes) }
    ensures most { IfOk result (λ bytes. length bytes ≤ 64) }
{
    let digits = text(object, level, FieldName::Hex)?;
    bytes_of_hex(alloc, digits, level.field(FieldName::Hex))
}

// the bytes that the digits encode
fn bytes_of_hex(alloc: Global, digits: &str, field: Field) -> Result<Bytes64, DescFault>
    ensures value { Gives (λ bytes. bytes) result (ok_or (spec.bytes_of_hex digits.now) (Range field)) }
    ensures least { IfOk result (λ bytes. 1 ≤ length bytes) }
    ensures most { IfOk result (λ bytes. length bytes ≤ 64) }
{
    if digits.len() < 2 || digits.len() > 128 {
        return Err(DescFault::Range(field));
    }
    match hex::decode(alloc, digits.as_bytes()) {
        Ok(bytes) => Bytes64::of(&bytes).ok_or(DescFault::Range(field)),
        Err(FromHexError::OutOfMemory) => Err(DescFault::NoMemory),
        Err(_) => Err(DescFault::Range(field)),
    }
}

/// A job's kind.
#[tactic(auto, unfolding(crate::specs::Reading::kind_in))]
pub(crate) fn kind(object: &Value, level: Level) -> Result<JobKind, DescFault>
    ensures { Gives (λ kind. kind) result (spec.kind_in (view object.now) level) }
{
    let text = text(object, level, FieldName::Kind)?;
    kind_of(text).ok_or(DescFault::Range(level.field(FieldName::Kind)))
}

// the kind of job that the text names
fn kind_of(text: &str) -> Option<JobKind>
    ensures { result ≡ spec.kind_of text.now }
{
    if text == "write" {
        Some(JobKind::Write)
    } else if text == "read" {
        Some(JobKind::Read)
    } else if text == "store" {
        Some(JobKind::Store)
    } else if text == "add" {
        Some(JobKind::Add)
    } else {
        None
    }
}

/// A member that is a list of as many elements as it takes, each of its kind.
#[tactic(auto, unfolding(crate::specs::Reading::list_in))]
pub(crate) fn list(object: &Value, level: Level, name: FieldName) -> Result<&[Value], DescFault>
    ensures value { Gives (λ list. map view list.now) result (spec.list_in (view object.now) level name) }
    ensures low { IfOk result (λ list. least name ≤ length list.now) }
    ensures high { IfOk result (λ list. length list.now ≤ most name) }
{
    let value = member(object, level, name)?;
    let list = elements(value, level, name)?;
    ranged(level, name, list.len() as u64)?;
    Ok(list)
}

/// The elements of a value that is a list, all of their kind.
#[tactic(auto, unfolding(crate::specs::Reading::elements_of))]
pub(crate) fn elements(value: &Value, level: Level, name: FieldName) -> Result<&[Value], DescFault>
    ensures { Gives (λ list. map view list.now) result (spec.elements_of (view value.now) level name) }
{
    let list = value
        .as_array()
        .ok_or(DescFault::Kind(level.field(name)))?
        .as_slice();
    if !are_elements(name, list) {
        return Err(DescFault::Kind(level.field(name)));
    }
    Ok(list)
}

// whether all of these are of the JSON kind that the list takes
fn are_elements(name: FieldName, list: &[Value]) -> bool
    ensures { result ≡ list_all (λ value. spec.is_element name (view value)) list.now }
{
    list.iter().all(|value| is_element(name, value))
}

// whether the value is of the JSON kind that the list takes
fn is_element(name: FieldName, value: &Value) -> bool
    ensures { result ≡ spec.is_element name (view value.now) }
{
    match name {
        FieldName::Bar | FieldName::Queue => value.is_number(),
        _ => value.is_object(),
    }
}
