//! The loader of one stream.

ghost use Rattle.std.specs.Prelude.{◌≡◌, ◌+◌, ◌<◌, ◌≤◌, ◌^◌, ◌∷◌, ◌++◌, ℕ, List, [], Some, None, true, false, length, IfOk, IfErr, MatchResult};
ghost use Rattle.vfm_types.specs.declared.desc.Desc.{Desc};
ghost use Rattle.vfm_types.specs.Desc.{device_count};
ghost use Rattle.vfm_types.specs.Valid.{IsValid};
ghost use Rattle.vfm_packet.specs.declared.header.Kind.{Kind};
ghost use Rattle.vfm_packet.specs.Packet.{Packet};
ghost use Rattle.vfm_record.specs.Record.{Record, record_of, IsRecordOf, IsWhole};
ghost use Rattle.vfm_record.specs.Tests.{record_at};
ghost use Rattle.vfm_streams.specs.Whole.{is_config};
ghost use Rattle.vfm_streams.specs.Judged.{stand_fault, payload_fault};
ghost use Rattle.vfm_load.specs.Stores.{is_digest};
ghost use Rattle.vfm_load.specs.Parts.{loaded_part, IsPartOf};
ghost use Rattle.vfm_load.specs.Loads.{stream_of, applied, is_closed, records_of, fault_in_order, IsLoaderOf, SaysRecords, IsAfter, IsPacket, fault_of, HasDigests};

use crate::LoadFault;
use crate::faults::Refused;
use crate::store::Store;
use std::alloc::Global;
use vfm_plain::Part;
use vfm_record::{Rec, read, shape_digest};
use vfm_types::{Desc, NoMemory};

/// The place that is answered where a record can't stand in its packet.
const TAG_PLACE: u32 = 0;

/// Applies the packets of one stream in the order of their indexes, and gives the part that they make. A payload is copied
/// once, to where it belongs. Only `of` takes memory.
#[derive(Drop)]
pub struct Loader {
    stream: u32,
    // how many packets were applied, which is the index of the next
    next: u64,
    // the last of them is a config packet
    closed: bool,
    // the first that was refused; those behind it are dropped
    refused: Option<Refused>,
    // the digest of the own shape text, and the one that came last
    ours: [u8; 32],
    theirs: [u8; 32],
    store: Store,
}

impl Loader {
    /// A loader of a stream: stream 0 is memory, stream `d + 1` is device `d`. Takes all room that it ever needs.
    pub fn of(alloc: Global, desc: &Desc, stream: u32) -> Result<Loader, NoMemory>
        requires valid { IsValid desc.now }
        requires known { stream ≤ device_count desc.now }
        ensures made { IfOk result (λ loader. IsLoaderOf loader desc.now stream) }
        ensures after { IfOk result (λ loader. IsAfter loader desc.now stream []) }
        ensures stream { IfOk result (λ loader. stream_of loader ≡ stream) }
        ensures applied { IfOk result (λ loader. applied loader ≡ 0) }
        ensures open_ { IfOk result (λ loader. is_closed loader ≡ false) }
    {
        let store = Store::of(alloc, desc, stream)?;
        Ok(Loader {
            stream,
            next: 0,
            closed: false,
            refused: None,
            ours: shape_digest(desc, stream),
            theirs: [0; 32],
            store,
        })
    }

    /// Applies the packet with the next index: whether it is a config packet, and its payload, shorter than 2^32 bytes. Keeps
    /// the first that is refused, and drops what comes behind it. The description is the one that the loader was made
    /// for. Takes no memory.
    pub fn apply(&mut self, desc: &Desc, index: u32, config: bool, payload: &[u8])
        requires made { IsLoaderOf self.old desc.now (stream_of self.old) }
        requires next { index ≡ applied self.old }
        requires short { length payload.now < 2 ^ 32 }
        ensures made { IsLoaderOf self.new desc.now (stream_of self.old) }
        ensures stream { stream_of self.new ≡ stream_of self.old }
        ensures applied { applied self.new ≡ applied self.old + 1 }
        ensures closed { is_closed self.new ≡ config }
        ensures after { (packets : List Packet) (p : Packet) → IsAfter self.old desc.now (stream_of self.old) packets
            → IsPacket p config payload.now → IsAfter self.new desc.now (stream_of self.old) (packets ++ p ∷ []) }
    {
        self.next += 1;
        self.closed = config;
        if self.refused.is_some() {
            return;
        }
        if let Err(place) = self.take(desc, config, payload) {
            self.refused = Some(Refused { index, place });
        }
    }

    /// The part that the stream makes, or what is wrong with it: the first packet that was refused; else the digest, where
    /// it isn't that of the own shape text; else what never came. The last packet that was applied has to be a config
    /// packet. Takes no memory.
    pub fn finish(self) -> Result<Part, LoadFault>
        requires { is_closed self ≡ true }
        ensures fault { (D : Desc) (s : ℕ) (packets : List Packet) → IsAfter self D s packets
            → fault_in_order D s packets ≡ fault_of result }
        ensures loaded { IfOk result (λ part. (D : Desc) (s : ℕ) (packets : List Packet) → IsAfter self D s packets
            → part ≡ loaded_part D s (records_of s packets)) }
        ensures part { IfOk result (λ part. (D : Desc) (s : ℕ) → IsLoaderOf self D s → IsPartOf D s part) }
        ensures digests { IfErr result (λ fault. (D : Desc) (s : ℕ) (packets : List Packet) → IsAfter self D s packets
            → HasDigests D s (records_of s packets) fault) }
    {
        if let Some(refused) = self.refused {
            return Err(LoadFault::BadRecord {
                index: refused.index,
                place: refused.place,
            });
        }
        if self.theirs != self.ours {
            return Err(LoadFault::ConfigDiffers {
                ours: self.ours,
                theirs: self.theirs,
            });
        }
        match self.store.finish() {
            Ok(part) => Ok(part),
            Err(least) => Err(LoadFault::NotWhole { least }),
        }
    }

    // takes in a payload, or answers the place at which it is refused
    fn take(&mut self, desc: &Desc, config: bool, payload: &[u8]) -> Result<(), u32>
        requires made { IsLoaderOf self.old desc.now (stream_of self.old) }
        requires short { length payload.now < 2 ^ 32 }
        ensures made { IsLoaderOf self.new desc.now (stream_of self.old) }
        ensures rest { self.new ≡ record self.old { theirs = self.new.theirs; store = self.new.store } }
        ensures taken { (records : List Record) (p : Packet) → SaysRecords self.old desc.now (stream_of self.old) records
            → IsPacket p config payload.now → let fault = payload_fault desc.now (stream_of self.old) records p in
            let says = record_at (stream_of self.old) payload.now in MatchResult result
            (λ _. (fault ≡ None) × SaysRecords self.new desc.now (stream_of self.old) (says ∷ records)
            × (config ≡ is_digest says))
            (λ place. fault ≡ Some place) }
    {
        match read(desc, self.stream, payload) {
            Ok(rec) => self.place(desc, config, rec),
            Err(fault) => Err(fault.place),
        }
    }

    // takes in a record of the stream, or answers the place at which it can't stand
    fn place(&mut self, desc: &Desc, config: bool, rec: Rec) -> Result<(), u32>
        requires made { IsLoaderOf self.old desc.now (stream_of self.old) }
        requires of_stream { IsRecordOf desc.now (stream_of self.old) (record_of rec) }
        requires whole { IsWhole rec }
        ensures made { IsLoaderOf self.new desc.now (stream_of self.old) }
        ensures rest { self.new ≡ record self.old { theirs = self.new.theirs; store = self.new.store } }
        ensures taken { (records : List Record) (kind : Kind) → SaysRecords self.old desc.now (stream_of self.old) records
            → is_config kind ≡ config → let says = record_of rec.entry in
            let fault = stand_fault desc.now (stream_of self.old) kind records says in MatchResult result
            (λ _. (fault ≡ None) × SaysRecords self.new desc.now (stream_of self.old) (says ∷ records)
            × (config ≡ is_digest says))
            (λ place. fault ≡ Some place) }
    {
        if let Rec::Config { digest } = rec {
            return self.take_digest(config, digest);
        }
        if config {
            return Err(TAG_PLACE);
        }
        self.store.take(desc, self.stream, rec)
    }

    // takes in a digest, which stands in a config packet alone
    fn take_digest(&mut self, config: bool, digest: &[u8]) -> Result<(), u32>
        requires { length digest.now ≡ 32 }
        ensures { MatchResult result
            (λ _. (config ≡ true) × (self.new ≡ record self.old { theirs = digest.now }))
            (λ place. (config ≡ false) × (place ≡ 0) × (self.new ≡ self.old)) }
    {
        if !config {
            return Err(TAG_PLACE);
        }
        self.theirs.copy_from_slice(digest);
        Ok(())
    }
}
