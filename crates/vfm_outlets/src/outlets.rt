//! The senders of all channels, and the records that are put into them.

ghost use Rattle.std.specs.Prelude.{◌≡◌, ◌≤◌, vec_len, vec_capacity};

use crate::channels::{end_each, put_into, send_each, with_links, with_senders};
use std::alloc::Global;
use vfm_outside::Link;
use vfm_packet::{Header, Kind};
use vfm_record::{Rec, write, write_pending};
use vfm_send::{Sender, lane};
use vfm_types::{Desc, NoMemory};

/// The most streams of a move: memory's, and one for each of eight devices.
const STREAMS: usize = 9;

/// The channels of a source, 1 to 8 of them, and how many records of each stream were put into them.
#[derive(Drop)]
pub struct Outlets<L> {
    senders: Vec<Sender<L>>,
    counts: [u32; STREAMS],
    // the record that is put, which keeps its memory for the next one
    encoded: Vec<u8>,
    session: u64,
    version: u16,
    // the room in which the links go back
    back: Vec<L>,
    ghost room: { vec_len senders ≤ vec_capacity back },
    ghost empty: { vec_len back ≡ 0 },
    ghost some: { 1 ≤ vec_len senders },
    ghost few: { vec_len senders ≤ 8 },
    ghost version_there: { (1 ≤ version) × (version ≤ 2) },
}

impl<L: Link> Outlets<L> {
    ghost use Rattle.std.specs.Prelude.{◌≡◌, ◌+◌, ◌<◌, ◌≤◌, [], List, ℕ, None, Option, false, length, map, replicate, slice_index_or, slice_set, OnOk, OnErr, IfOk, IfErr, IsTrue};
    ghost use Rattle.vfm_types.specs.declared.desc.Desc.{Desc};
    ghost use Rattle.vfm_types.specs.Valid.{IsValid};
    ghost use Rattle.vfm_outside.specs.Told.{with_appended};
    ghost use Rattle.vfm_packet.specs.Header.{carries};
    ghost use Rattle.vfm_packet.specs.Packet.{packet_bytes};
    ghost use Rattle.vfm_record.specs.Record.{Record, Pending, record_of, record_bytes};
    ghost use Rattle.vfm_record.specs.Writing.{IsWritable};
    ghost use Rattle.vfm_send.specs.Lanes.{lane};
    ghost use Rattle.vfm_streams.specs.Sent.{Sent, push};
    ghost use Rattle.vfm_streams.specs.Packets.{kind_of};
    ghost use Rattle.vfm_send.specs.declared.sender.Sender.{Sender};
    ghost use Rattle.vfm_send.specs.Sends.{has_failed, left, link_of};
    ghost use Rattle.vfm_outlets.specs.Carrying.{AllFare, Carries, EachChanged, Ends, FirstFailed, all_failed, links_of, share_of};

    /// The channels of a description over these links, as many as it has, with nothing put. When memory runs out the links
    /// come back.
    pub fn of(alloc: Global, desc: &Desc, links: Vec<L>) -> Result<Outlets<L>, (Vec<L>, NoMemory)>
        requires valid { IsValid desc.now }
        requires channels { length links.items ≡ desc.now.channels }
        ensures carries { IfOk result (λ outlets. Carries L.sent desc.now (map L.sent links.items) [] outlets) }
        ensures links { IfOk result (λ outlets. links_of outlets ≡ links.items) }
        ensures failed { IfOk result (λ outlets. all_failed outlets ≡ replicate (length links.items) false) }
        ensures back { IfErr result (λ e. e.0.items ≡ links.items) }
    {
        let senders = match Vec::with_capacity(alloc, links.len()) {
            Ok(senders) => senders,
            Err(_) => return Err((links, NoMemory)),
        };
        let back = match Vec::with_capacity(alloc, links.len()) {
            Ok(back) => back,
            Err(_) => return Err((links, NoMemory)),
        };
        Ok(Outlets {
            senders: with_senders(alloc, senders, links),
            counts: [0; STREAMS],
            encoded: Vec::new(alloc),
            session: desc.session,
            version: desc.version,
            back,
        })
    }

    /// Sends what waits in every outbox, in the order of the channels, and answers the least channel whose link has failed, in
    /// this call or an earlier one; none where all was sent. Takes no memory.
    pub fn send_all(&mut self) -> Option<u32>
        ensures carries { (D : Desc) (starts : List (Option (List ℕ))) (all : List Sent) → Carries L.sent D starts all self.old
            → Carries L.sent D starts all self.new }
        ensures failed { FirstFailed self.new.senders.items (length self.old.senders.items) result }
        // a channel's flag is set only where its link's count of failed sends rose in this call, or its flag was set before
        ensures fares { AllFare L.failed_out self.old self.new }
        ensures count { length self.new.senders.items ≡ length self.old.senders.items }
        // nothing else of the links changes
        ensures received { map L.received (links_of self.new) ≡ map L.received (links_of self.old) }
        ensures finished { map L.finished (links_of self.new) ≡ map L.finished (links_of self.old) }
        ensures ended { map L.ended (links_of self.new) ≡ map L.ended (links_of self.old) }
        ensures failed_in { map L.failed_in (links_of self.new) ≡ map L.failed_in (links_of self.old) }
    {
        send_each(&mut self.senders)
    }

    /// Ends every channel, in order: sends what waits and the packet that ends it, or with `abort` the one that says that the
    /// source gave up, and finishes its link. A channel whose link fails in this call or has failed before is left as it is.
    /// Answers the least such channel. Takes no memory.
    pub fn end(&mut self, abort: bool) -> Option<u32>
        ensures failed { FirstFailed self.new.senders.items (length self.old.senders.items) result }
        ensures ends { EachChanged (λ (was now : Sender L). Ends abort self.old.session self.old.version (record {
          failed = has_failed now;
          before = L.sent (link_of was);
          left = left was;
          now = L.sent (link_of now);
          finished = L.finished (link_of now);
        })) self.old.senders.items self.new.senders.items (length self.old.senders.items) }
        // where a channel hasn't failed, its link has sent its share of all that was put and the packet that ends it after what
        // it had sent at the start, and is finished; else a prefix of that
        ensures shares { (D : Desc) (starts : List (Option (List ℕ))) (all : List Sent) → Carries L.sent D starts all self.old
            → (k : ℕ) (link : L) → k < D.channels → Ends abort D.session D.version (record {
              failed = slice_index_or (all_failed self.new) k false;
              before = slice_index_or starts k None;
              left = share_of D all k;
              now = L.sent (slice_index_or (links_of self.new) k link);
              finished = L.finished (slice_index_or (links_of self.new) k link);
            }) }
        // a channel's flag is set only where its link's count of failed sends rose in this call, or its flag was set before
        ensures fares { AllFare L.failed_out self.old self.new }
        ensures count { length self.new.senders.items ≡ length self.old.senders.items }
        // nothing else of the links changes
        ensures received { map L.received (links_of self.new) ≡ map L.received (links_of self.old) }
        ensures ended { map L.ended (links_of self.new) ≡ map L.ended (links_of self.old) }
        ensures failed_in { map L.failed_in (links_of self.new) ≡ map L.failed_in (links_of self.old) }
    {
        let (session, version) = (self.session, self.version);
        end_each(&mut self.senders, abort, session, version)
    }

    /// The links, in the order of their channels, and nothing of what waits. Takes no memory.
    pub fn into_links(self) -> Vec<L>
        ensures { result.items ≡ links_of self }
    {
        with_links(self.back, self.senders)
    }

    /// How many records of a stream were put: the index of the next one.
    pub fn next_index(&self, stream: u32) -> u32
        requires { stream ≤ 8 }
        ensures { result ≡ slice_index_or self.now.counts stream 0 }
    {
        self.counts[stream as usize]
    }

    /// Puts a record of a stream into its channel. When memory runs out nothing is put.
    pub fn put(&mut self, stream: u32, rec: &Rec) -> Result<(), NoMemory>
        requires stream { stream ≤ 8 }
        requires writable { IsWritable rec.now }
        requires count { slice_index_or self.old.counts stream 0 < 4294967295 }
        ensures put { (D : Desc) (starts : List (Option (List ℕ))) (all : List Sent) → Carries L.sent D starts all self.old
            → OnOk result (Carries L.sent D starts (push stream (record_of rec.now) all) self.new) }
        ensures unchanged { (D : Desc) (starts : List (Option (List ℕ))) (all : List Sent) → Carries L.sent D starts all self.old
            → OnErr result (Carries L.sent D starts all self.new) }
        ensures links { links_of self.new ≡ links_of self.old }
        ensures failed { all_failed self.new ≡ all_failed self.old }
    {
        self.encoded.clear();
        write(rec, &mut self.encoded)?;
        let kind = match rec {
            Rec::Config { .. } => Kind::Config,
            _ => Kind::Data,
        };
        self.put_payload(stream, kind)
    }

    /// Puts 1 to 4,096 pending requests of a stream, each with its number and the number of its job, as one record. When memory
    /// runs out nothing is put.
    pub fn put_pending(&mut self, stream: u32, pairs: &[(u32, u32)]) -> Result<(), NoMemory>
        requires stream { stream ≤ 8 }
        requires some { 1 ≤ length pairs.now }
        requires few { length pairs.now ≤ 4096 }
        requires count { slice_index_or self.old.counts stream 0 < 4294967295 }
        ensures put { (D : Desc) (starts : List (Option (List ℕ))) (all : List Sent) → Carries L.sent D starts all self.old
            → OnOk result (Carries L.sent D starts (push stream (Pending pairs.now) all) self.new) }
        ensures unchanged { (D : Desc) (starts : List (Option (List ℕ))) (all : List Sent) → Carries L.sent D starts all self.old
            → OnErr result (Carries L.sent D starts all self.new) }
        ensures links { links_of self.new ≡ links_of self.old }
        ensures failed { all_failed self.new ≡ all_failed self.old }
    {
        self.encoded.clear();
        write_pending(pairs, &mut self.encoded)?;
        self.put_payload(stream, Kind::Data)
    }

    // Puts the record that was written, as the next one of its stream.
    fn put_payload(&mut self, stream: u32, kind: Kind) -> Result<(), NoMemory>
        requires stream { stream ≤ 8 }
        requires carries { IsTrue (carries kind) }
        requires some { 0 < length self.old.encoded.items }
        requires few { length self.old.encoded.items ≤ 65536 }
        requires count { slice_index_or self.old.counts stream 0 < 4294967295 }
        ensures put { (D : Desc) (starts : List (Option (List ℕ))) (all : List Sent) (r : Record) → record_bytes r ≡ self.old.encoded.items
            → kind_of r ≡ kind → Carries L.sent D starts all self.old → OnOk result (Carries L.sent D starts (push stream r all) self.new) }
        ensures unchanged { (D : Desc) (starts : List (Option (List ℕ))) (all : List Sent) → Carries L.sent D starts all self.old
            → OnErr result (Carries L.sent D starts all self.new) }
        ensures links { links_of self.new ≡ links_of self.old }
        ensures failed { all_failed self.new ≡ all_failed self.old }
    {
        let index = self.counts[stream as usize];
        let channel = lane(stream, index, self.senders.len() as u32);
        let head = Header {
            version: self.version,
            kind,
            session: self.session,
            stream,
            index,
            length: self.encoded.len() as u32,
        };
        put_into(&mut self.senders, channel as usize, &head, &self.encoded)?;
        self.counts[stream as usize] = index + 1;
        Ok(())
    }
}
