//! A device, as its blocks, its counts and its pending requests come.

ghost use Rattle.std.specs.Prelude.{◌≡◌, ◌+◌, ◌*◌, ◌%◌, ◌<◌, ◌≤◌, ℕ, List, Some, None, [], ◌++◌, true, false, suc, length, vec_len, vec_capacity, IfOk, MatchResult};
ghost use Rattle.vfm_types.specs.declared.desc.DevShape.{DevShape};
ghost use Rattle.vfm_types.specs.declared.desc.Desc.{Desc};
ghost use Rattle.vfm_types.specs.Desc.{bar_bytes, device_count, shape_at};
ghost use Rattle.vfm_types.specs.Valid.{IsValid};
ghost use Rattle.vfm_record.specs.Record.{Record, Pending, record_of, shape_of_stream, pairs_of, IsRecordOf, IsWhole};
ghost use Rattle.vfm_streams.specs.Judged.{lacks, number_after, pairs_fault};
ghost use Rattle.vfm_load.specs.Stored.{StoredDevice, TakesBlock, TakesRecord, with_counts, with_pairs, pairs_place, record_place, device_stored, FitsDevice, HoldsDevice};
ghost use Rattle.vfm_load.specs.Parts.{part_of, loaded_part};

use std::alloc::Global;
use std::marker::Model;
use vfm_plain::{Part, put_bytes};
use vfm_record::{Rec, pending_at};
use vfm_types::{Bytes, Desc, DevShape, NoMemory, PageSet, PendingList};

/// How many bytes a block has.
const BLOCK: u32 = 64;

// The places that are answered: where the tag stands, and the fields that a test is of.
const TAG_PLACE: u32 = 0;

const COUNT_PLACE: u32 = 1;

const FIRST_NUMBER_PLACE: u32 = 3;

const FIRST_JOB_PLACE: u32 = 7;

/// How many bytes a pending request has in a record.
const PAIR: u32 = 8;

/// What is at the end where every block came, and the counts or some of the requests that they announce didn't.
const COUNTS_LACKING: u32 = 4_294_967_295;

/// How many requests a device accepted, did and lost, and how many are pending.
#[derive(Clone, Copy)]
pub struct Counts {
    pub accepted: u32,
    pub done: u32,
    pub lost: u32,
    pub pend: u32,
}

/// The BARs of a device, at most 65,536 bytes, and which of their blocks never came; its counts and its buffer, once
/// they came; and its pending requests so far. Seen as all of this, and for how many requests there is room.
///
/// Only `of` takes memory.
#[derive(Drop)]
pub struct DeviceStore {
    bar: Vec<u8>,
    missing: PageSet,
    // the counts came; zeros stand for them and for the buffer until then
    counted: bool,
    counts: Counts,
    buf: [u8; 64],
    pending: Vec<(u32, u32)>,
    // one above the number of the last pending request
    low: u32,
}

impl Model for DeviceStore {
    ghost use Rattle.std.specs.Prelude.{vec_capacity};
    ghost use Rattle.vfm_load.specs.Stored.{StoredDevice};

    ghost Value = { StoredDevice };

    ghost view = { λ s. record {
      bar = s.bar.items;
      missing = s.missing;
      counted = s.counted;
      accepted = s.counts.accepted;
      done = s.counts.done;
      lost = s.counts.lost;
      pend = s.counts.pend;
      buf = s.buf;
      pending = s.pending.items;
      low = s.low;
      room = vec_capacity s.pending;
    } };
}

impl DeviceStore {
    /// A device of which nothing came, with room for as many pending requests as its budget allows.
    pub fn of(alloc: Global, shape: &DevShape) -> Result<DeviceStore, NoMemory>
        requires most { bar_bytes shape.now ≤ 65536 }
        requires blocks { bar_bytes shape.now % 64 ≡ 0 }
        ensures fits { IfOk result (FitsDevice shape.now) }
        ensures holds { IfOk result (HoldsDevice shape.now []) }
    {
        let size = shape.bar_bytes();
        Ok(DeviceStore {
            bar: vec![in alloc; 0u8; size as usize]?,
            missing: PageSet::full(size / BLOCK),
            counted: false,
            counts: Counts {
                accepted: 0,
                done: 0,
                lost: 0,
                pend: 0,
            },
            buf: [0; 64],
            pending: Vec::with_capacity(alloc, shape.budget as usize)?,
            low: 0,
        })
    }

    /// Puts in what a record of the stream says, or answers the place at which it can't stand behind those before it.
    pub fn take(&mut self, desc: &Desc, stream: u32, rec: Rec) -> Result<(), u32>
        requires valid { IsValid desc.now }
        requires device { 1 ≤ stream }
        requires known { stream ≤ device_count desc.now }
        requires of_stream { IsRecordOf desc.now stream (record_of rec) }
        requires whole { IsWhole rec }
        requires fits { FitsDevice (shape_of_stream desc.now stream) self.old }
        ensures fits { FitsDevice (shape_of_stream desc.now stream) self.new }
        ensures taken { let place = record_place (length (shape_of_stream desc.now stream).jobs) self.old (record_of rec.entry) in
            MatchResult result (λ _. (place ≡ None) × TakesRecord (record_of rec.entry) self.old self.new) (λ p. place ≡ Some p) }
    {
        match rec {
            Rec::Block { b, bytes } => self.take_block(b, bytes),
            Rec::Engine {
                accepted,
                done,
                lost,
                pend,
                buf,
            } => {
                let counts = Counts {
                    accepted,
                    done,
                    lost,
                    pend,
                };
                self.take_counts(counts, buf)
            }
            Rec::Pending { count, bytes } => {
                self.take_pending(desc.devices.at(stream - 1).jobs.len(), count, bytes)
            }
            Rec::Page { .. } | Rec::Config { .. } => Ok(()),
        }
    }

    // puts the bytes of a block in, unless the counts came
    fn take_block(&mut self, b: u32, bytes: &[u8]) -> Result<(), u32>
        requires number { b < 1024 }
        requires within { 64 * b + 64 ≤ length self.old.bar }
        requires size { length bytes.now ≡ 64 }
        ensures { MatchResult result
            (λ _. (self.old.counted ≡ false) × TakesBlock b bytes.now self.old self.new)
            (λ place. (self.old.counted ≡ true) × (place ≡ 0) × (self.new ≡ self.old)) }
    {
        if self.counted {
            return Err(TAG_PLACE);
        }
        let offset = (BLOCK * b) as usize;
        put_bytes(self.bar.as_mut_slice(), offset, bytes);
        self.missing.remove(b);
        Ok(())
    }

    // takes the counts and the buffer, unless they came
    fn take_counts(&mut self, counts: Counts, buf: &[u8]) -> Result<(), u32>
        requires { length buf.now ≡ 64 }
        ensures { MatchResult result
            (λ _. (self.old.counted ≡ false)
            × (self.new ≡ with_counts counts.accepted counts.done counts.lost counts.pend buf.now self.old))
            (λ place. (self.old.counted ≡ true) × (place ≡ 0) × (self.new ≡ self.old)) }
    {
        if self.counted {
            return Err(TAG_PLACE);
        }
        self.counted = true;
        self.counts = counts;
        self.buf.copy_from_slice(buf);
        Ok(())
    }

    // takes pending requests, for a device with so many jobs, where all of them can stand behind those that came
    fn take_pending(&mut self, jobs: u32, count: u32, bytes: &[u8]) -> Result<(), u32>
        requires count { count ≤ 4096 }
        requires whole { length bytes.now ≡ 8 * count }
        requires few { length self.old.pending ≤ 50000 }
        requires room { self.old.pend ≤ self.old.room }
        ensures { let pairs = pairs_of count bytes.now in MatchResult result
            (λ _. (self.old.counted ≡ true) × (pairs_place jobs self.old pairs ≡ None) × (self.new ≡ with_pairs pairs self.old))
            (λ place. (record_place jobs self.old (Pending pairs) ≡ Some place) × (self.new ≡ self.old)) }
    {
        if !self.counted {
            return Err(TAG_PLACE);
        }
        if self.pending.len() + count as usize > self.counts.pend as usize {
            return Err(COUNT_PLACE);
        }
        match number_behind(self.low, self.counts.accepted, jobs, count, bytes) {
            Ok(low) => {
                push_pairs(&mut self.pending, count, bytes);
                self.low = low;
                Ok(())
            }
            Err(place) => Err(place),
        }
    }

    /// The device, where everything came; else the least block that never came, or what stands for the rest.
    pub fn finish(self) -> Result<Part, u32>
        ensures exact { (D : Desc) (d : ℕ) (records : List Record) → FitsDevice (shape_at D d) self
            → HoldsDevice (shape_at D d) records self
            → MatchResult result (λ _. lacks D (suc d) records ≡ None) (λ least. lacks D (suc d) records ≡ Some least) }
        ensures loaded { IfOk result (λ part. (D : Desc) (d : ℕ) (records : List Record) → FitsDevice (shape_at D d) self
            → HoldsDevice (shape_at D d) records self → part ≡ loaded_part D (suc d) records) }
        ensures part { IfOk result (λ part. part ≡ part_of (device_stored self)) }
        ensures all { IfOk result (λ _. length self.pending ≡ self.pend) }
    {
        if let Some(least) = self.missing.least_from(0) {
            return Err(least);
        }
        if !self.counted || self.pending.len() != self.counts.pend as usize {
            return Err(COUNTS_LACKING);
        }
        Ok(Part::Device {
            bar: Bytes::of(self.bar),
            buf: self.buf,
            counts: (self.counts.accepted, self.counts.done, self.counts.lost),
            pending: PendingList::of(self.pending),
        })
    }
}

// One above the number of the last of these pending requests; or the place of the first that can't stand there: its
// number is below `low` or wasn't accepted, or no such job is there.
fn number_behind(
    mut low: u32,
    accepted: u32,
    jobs: u32,
    count: u32,
    bytes: &[u8],
) -> Result<u32, u32>
    requires count { count ≤ 4096 }
    requires whole { length bytes.now ≡ 8 * count }
    ensures { let pairs = pairs_of count bytes.now in MatchResult result
        (λ after. (pairs_fault accepted jobs low 0 pairs ≡ None) × (after ≡ number_after low pairs))
        (λ place. pairs_fault accepted jobs low 0 pairs ≡ Some place) }
{
    for i in 0..count {
        let (number, job) = pending_at(bytes, i);
        if number < low || number >= accepted {
            return Err(FIRST_NUMBER_PLACE + PAIR * i);
        }
        if job >= jobs {
            return Err(FIRST_JOB_PLACE + PAIR * i);
        }
        low = number + 1;
    }
    Ok(low)
}

// puts pending requests behind the others, for which there is room
fn push_pairs(pending: &mut Vec<(u32, u32)>, count: u32, bytes: &[u8])
    requires whole { length bytes.now ≡ 8 * count }
    requires room { vec_len pending.old + count ≤ vec_capacity pending.old }
    ensures items { pending.new.items ≡ pending.old.items ++ pairs_of count bytes.now }
    ensures room { vec_capacity pending.new ≡ vec_capacity pending.old }
{
    for i in 0..count {
        pending.push_reserved(pending_at(bytes, i));
    }
}
