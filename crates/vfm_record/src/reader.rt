//! Reading a record.

ghost use Rattle.std.specs.Prelude.{◌≡◌, ℕ, ◌+◌, ◌*◌, ◌≤◌, ◌<◌, ◌^◌, ◌↔◌, length, slice_index_or, IsOk, IfOk, MatchResult, Some, None};
ghost use Rattle.std.specs.Int.{w16, w32, w64};
ghost use Rattle.vfm_types.specs.Desc.{device_count};
ghost use Rattle.vfm_record.specs.declared.tag.Tag.TheVariants as tags;
ghost use Rattle.vfm_base.specs.Words.{word_at};
ghost use Rattle.vfm_record.specs.Record.{Record, record_bytes, pairs_of, record_of, IsWhole, IsRecordOf};
ghost use Rattle.vfm_record.specs.Tests.{tag_at, count_of, keeps_bell, page_tests, block_tests, engine_tests, pending_tests, config_tests, record_with, record_at, record_fault, AgreesWith};
ghost use Rattle.vfm_base.specs.Tests.{first_failed};

use crate::record::{Rec, RecordFault};
use crate::tag::Tag;
use vfm_base::{u16_at, u32_at, u64_at};
use vfm_types::{Desc, DevShape};

/// How many bytes a block has.
const BLOCK: u32 = 64;

/// The most pairs that one record may have.
const MOST_PAIRS: u16 = 4096;

/// The most requests that all devices together may lose.
const MOST_LOST: u32 = 400_000;

// The places that are answered: where the tag stands, and the field that a test is of.
const TAG_PLACE: u32 = 0;

const NUMBER_PLACE: u32 = 1;

const BELL_PLACE: u32 = 5;

const ACCEPTED_PLACE: u32 = 1;

const DONE_PLACE: u32 = 5;

const LOST_PLACE: u32 = 9;

const COUNT_PLACE: u32 = 1;

// The refusal at a place.
fn refused<'a>(place: u32) -> Result<Rec<'a>, RecordFault>
    ensures { result ≡ Err (record { place = place }) }
{
    Err(RecordFault { place })
}

#[tactic(auto, unfolding(crate::specs::Tests::page_tests))]
fn read_page<'a>(desc: &Desc, bytes: &'a [u8]) -> Result<Rec<'a>, RecordFault>
    requires { length bytes.now < 2 ^ 32 }
    ensures { AgreesWith result (first_failed (page_tests desc.now bytes.now)) (record_with tags.Page bytes.now) }
{
    if bytes.len() != 5 + desc.page as usize {
        return refused(bytes.len() as u32);
    }
    let p = u32_at(bytes, 1);
    if p >= desc.pages {
        return refused(NUMBER_PLACE);
    }
    Ok(Rec::Page {
        p,
        bytes: &bytes[5..],
    })
}

// Whether block 0 begins with the eight zeros of a doorbell.
fn keeps_bell(b: u32, bytes: &[u8]) -> bool
    requires { 13 ≤ length bytes.now }
    ensures { b ≡ word_at w32 1 bytes.now → result ≡ keeps_bell bytes.now }
{
    b != 0 || u64_at(bytes, 5) == 0
}

#[tactic(auto, unfolding(crate::specs::Tests::block_tests))]
fn read_block<'a>(shape: &DevShape, bytes: &'a [u8]) -> Result<Rec<'a>, RecordFault>
    requires { length bytes.now < 2 ^ 32 }
    ensures { AgreesWith result (first_failed (block_tests shape.now bytes.now)) (record_with tags.Block bytes.now) }
{
    if bytes.len() != 69 {
        return refused(bytes.len() as u32);
    }
    let b = u32_at(bytes, 1);
    if b >= shape.bar_bytes() / BLOCK {
        return refused(NUMBER_PLACE);
    }
    if !keeps_bell(b, bytes) {
        return refused(BELL_PLACE);
    }
    Ok(Rec::Block {
        b,
        bytes: &bytes[5..],
    })
}

#[tactic(auto, unfolding(crate::specs::Tests::engine_tests))]
fn read_engine<'a>(shape: &DevShape, bytes: &'a [u8]) -> Result<Rec<'a>, RecordFault>
    requires { length bytes.now < 2 ^ 32 }
    ensures { AgreesWith result (first_failed (engine_tests shape.now bytes.now)) (record_with tags.Engine bytes.now) }
{
    if bytes.len() != 81 {
        return refused(bytes.len() as u32);
    }
    let accepted = u32_at(bytes, 1);
    if accepted > shape.budget {
        return refused(ACCEPTED_PLACE);
    }
    let done = u32_at(bytes, 5);
    let pend = u32_at(bytes, 13);
    if u64::from(done) + u64::from(pend) != u64::from(accepted) {
        return refused(DONE_PLACE);
    }
    let lost = u32_at(bytes, 9);
    if lost > MOST_LOST {
        return refused(LOST_PLACE);
    }
    Ok(Rec::Engine {
        accepted,
        done,
        lost,
        pend,
        buf: &bytes[17..],
    })
}

#[tactic(auto, unfolding(crate::specs::Tests::pending_tests))]
fn read_pending<'a>(bytes: &'a [u8]) -> Result<Rec<'a>, RecordFault>
    requires { length bytes.now < 2 ^ 32 }
    ensures { AgreesWith result (first_failed (pending_tests bytes.now)) (record_with tags.Pending bytes.now) }
{
    if bytes.len() < 3 {
        return refused(bytes.len() as u32);
    }
    let count = u16_at(bytes, 1);
    if count < 1 || count > MOST_PAIRS {
        return refused(COUNT_PLACE);
    }
    if bytes.len() != 3 + 8 * count as usize {
        return refused(bytes.len() as u32);
    }
    Ok(Rec::Pending {
        count: u32::from(count),
        bytes: &bytes[3..],
    })
}

#[tactic(auto, unfolding(crate::specs::Tests::config_tests))]
fn read_config<'a>(bytes: &'a [u8]) -> Result<Rec<'a>, RecordFault>
    requires { length bytes.now < 2 ^ 32 }
    ensures { AgreesWith result (first_failed (config_tests bytes.now)) (record_with tags.Config bytes.now) }
{
    if bytes.len() != 33 {
        return refused(bytes.len() as u32);
    }
    Ok(Rec::Config {
        digest: &bytes[1..],
    })
}

// The tag, which comes first.
fn tag_at(stream: u32, bytes: &[u8]) -> Option<Tag>
    ensures { result ≡ tag_at stream bytes.now }
{
    match bytes.first() {
        Some(number) => Tag::of(stream, *number),
        None => None,
    }
}

// The answer by the tests in their order.
#[tactic(auto, unfolding(crate::specs::Tests::record_fault))]
fn tested<'a>(desc: &Desc, stream: u32, bytes: &'a [u8]) -> Result<Rec<'a>, RecordFault>
    requires known { stream ≤ device_count desc.now }
    requires short { length bytes.now < 2 ^ 32 }
    ensures { AgreesWith result (record_fault desc.now stream bytes.now) (record_at stream bytes.now) }
{
    match tag_at(stream, bytes) {
        None => refused(TAG_PLACE),
        Some(Tag::Page) => read_page(desc, bytes),
        Some(Tag::Block) => read_block(desc.devices.at(stream - 1), bytes),
        Some(Tag::Engine) => read_engine(desc.devices.at(stream - 1), bytes),
        Some(Tag::Pending) => read_pending(bytes),
        Some(Tag::Config) => read_config(bytes),
    }
}

/// The record of the stream that the bytes of a payload encode, or the place of the first test that fails: a tag of the
/// stream, for pending requests a count of 1 to 4,096, the length, a page or block that there is, zeros for the doorbell,
/// the counts of an engine. Stream 0 is memory, stream `d + 1` is device `d`. No memory is taken.
pub fn read<'a>(desc: &Desc, stream: u32, bytes: &'a [u8]) -> Result<Rec<'a>, RecordFault>
    requires known { stream ≤ device_count desc.now }
    requires short { length bytes.now < 2 ^ 32 }
    // A refusal has the place of the first test that fails, and there is none where a record is given.
    ensures fault { MatchResult result
        (λ _. record_fault desc.now stream bytes.now ≡ None)
        (λ fault. record_fault desc.now stream bytes.now ≡ Some fault.place) }
    // What is given is a record of the stream, and the bytes are its encoding.
    ensures found { IfOk result (λ r. IsRecordOf desc.now stream (record_of r) × (bytes.now ≡ record_bytes (record_of r))) }
    ensures whole { IfOk result IsWhole }
    // What is encoded so is given.
    ensures only { (r : Record) → IsRecordOf desc.now stream r → bytes.now ≡ record_bytes r
        → IsOk result × IfOk result (λ given. record_of given ≡ r) }
{
    tested(desc, stream, bytes)
}

/// The pair with number `i`, counted from 0, of a record's pending requests: the number of the request and that of its
/// job. `bytes` are those that the record lends.
pub fn pending_at(bytes: &[u8], i: u32) -> (u32, u32)
    requires { 8 * i + 8 ≤ length bytes.now }
    ensures value { result ≡ (word_at w32 (8 * i) bytes.now, word_at w32 (8 * i + 4) bytes.now) }
    ensures pair { (count : ℕ) (d : ℕ × ℕ) → i < count → slice_index_or (pairs_of count bytes.now) i d ≡ result }
{
    let place = 8 * i as usize;
    (u32_at(bytes, place), u32_at(bytes, place + 4))
}
