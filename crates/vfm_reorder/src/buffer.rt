//! The reorder buffer.

ghost use Rattle.std.specs.Prelude.{◌≤◌, ℕ, ◌<◌, ◌≡◌, true, false, is_some};
ghost use Rattle.std.specs.Ordering.{nat_cmp};
ghost use Rattle.std.specs.BTreeMap.{get};

use crate::held::{Held, first_index, insert, remove, take_config};
use crate::{Gap, PutFault};
use std::alloc::Global;
use std::collections::BTreeMap;
use vfm_mesh::Payload;

/// Takes the packets of one stream as they come, and gives them in the order of their indexes. A packet that waits costs
/// a look-up in a tree of those that wait.
#[derive(Drop)]
pub struct ReorderBuf {
    // the packets that were put and not given yet
    held: BTreeMap<u32, Held>,
    // how many were given, which is the index of the next
    next: u64,
    // a config packet was given, and so no other will be
    closed: bool,
    ghost limited: { next ≤ 4294967296 },
    ghost begun: { closed ≡ true → 0 < next },
    // nothing waits below the next, or above the greatest index
    ghost above: { (i : ℕ) → i < next → is_some (get nat_cmp held i) ≡ false },
    ghost bounded: { (i : ℕ) → 4294967296 ≤ i → is_some (get nat_cmp held i) ≡ false },
}

impl ReorderBuf {
    ghost use Rattle.std.specs.Prelude.{◌≡◌, ◌+◌, ◌⊎◌, ◌↔◌, ◌∷◌, [], ◌++◌, ℕ, List, Ok, Err, None, true, false, is_some, IfOk, IfErr, IfSome, IfNone, IsErr, OnOk, OnErr};
    ghost use Rattle.vfm_packet.specs.Packet.{Packet};
    ghost use Rattle.vfm_streams.specs.Whole.{top, gap_of};
    ghost use Rattle.vfm_reorder.specs.declared.faults.PutFault.TheVariants as put_faults;
    ghost use Rattle.vfm_reorder.specs.Buffers.{given, waiting, is_put, is_closed, is_ready, IsAfter, IsPacket, IsHeld, fault_of};

    /// A buffer that nothing was put into.
    pub fn of(alloc: Global) -> ReorderBuf
        ensures given { given result ≡ 0 }
        ensures open { is_closed result ≡ false }
        ensures ready { is_ready result ≡ false }
        ensures after { IsAfter result [] }
    {
        ReorderBuf {
            held: BTreeMap::new(alloc),
            next: 0,
            closed: false,
        }
    }

    /// Puts a packet in: its index, whether it is a config packet, and its payload. `Doubled` comes exactly where a packet
    /// with that index was put before, whether it was given or not; the first one stays, and this one is dropped.
    pub fn put(&mut self, index: u32, config: bool, payload: Payload) -> Result<(), PutFault>
        ensures put { OnOk result ((packets : List Packet) (p : Packet) → IsAfter self.old packets → IsPacket p index config payload
            → IsAfter self.new (packets ++ p ∷ [])) }
        ensures unchanged { OnErr result ((packets : List Packet) → IsAfter self.old packets → IsAfter self.new packets) }
        ensures doubled { (result ≡ Err (put_faults.Doubled index)) ↔ (is_put self.old index ≡ true) }
        ensures faults { IfErr result (λ fault. (fault ≡ put_faults.Doubled index) ⊎ (fault ≡ put_faults.NoMemory)) }
        ensures given { given self.new ≡ given self.old }
        ensures closed { is_closed self.new ≡ is_closed self.old }
        ensures ready { OnErr result (is_ready self.new ≡ is_ready self.old) }
    {
        if u64::from(index) < self.next || self.held.contains_key(&index) {
            return Err(PutFault::Doubled { index });
        }
        match insert(&mut self.held, index, Held { config, payload }) {
            Ok(()) => Ok(()),
            Err(_) => Err(PutFault::NoMemory),
        }
    }

    /// Takes the next packet out: its index, whether it is a config packet, and its payload. The indexes are 0, 1, 2 and so
    /// on. `None` comes exactly where the next one hasn't been put, or a config packet was given. Takes no memory.
    pub fn pop_ready(&mut self) -> Option<(u32, bool, Payload)>
        ensures exact { is_some result ≡ is_ready self.old }
        ensures some { IfSome result (λ r. (r.0 ≡ given self.old) × (given self.new ≡ given self.old + 1)) }
        ensures closed { IfSome result (λ r. is_closed self.new ≡ r.1) }
        ensures packet { IfSome result (λ r. (packets : List Packet) → IsAfter self.old packets
            → IsHeld packets r.0 (record { config = r.1; payload = r.2 })) }
        ensures none { IfNone result ((given self.new ≡ given self.old) × (is_ready self.new ≡ false)) }
        ensures still { IfNone result (is_closed self.new ≡ is_closed self.old) }
        ensures after { (packets : List Packet) → IsAfter self.old packets → IsAfter self.new packets }
    {
        if self.closed {
            return None;
        }
        if self.next > u64::from(u32::MAX) {
            return None;
        }
        let index = self.next as u32;
        match remove(&mut self.held, index) {
            Some(packet) => {
                self.next += 1;
                self.closed = packet.config;
                Some((index, packet.config, packet.payload))
            }
            None => None,
        }
    }

    /// Whether the stream was whole, once `pop_ready` has answered `None` and nothing more comes: how many packets it had, or
    /// else the first of its gaps. Where a put was refused as doubled, that comes before any gap.
    pub fn finish(self) -> Result<u64, Gap>
        requires { is_ready self ≡ false }
        ensures gap { (packets : List Packet) → IsAfter self packets → gap_of packets ≡ fault_of result }
        ensures count { IfOk result (λ n. (packets : List Packet) → IsAfter self packets → top packets ≡ n) }
        ensures given { IfOk result (λ n. (n ≡ given self) × (is_closed self ≡ true)) }
    {
        if self.closed {
            return self.finish_closed();
        }
        self.finish_open()
    }

    // The same where a config packet was given.
    fn finish_closed(self) -> Result<u64, Gap>
        requires { self.closed ≡ true }
        ensures gap { (packets : List Packet) → IsAfter self packets → gap_of packets ≡ fault_of result }
        ensures count { IfOk result (λ n. (packets : List Packet) → IsAfter self packets → top packets ≡ n) }
        ensures given { IfOk result (λ n. n ≡ given self) }
    {
        match first_index(&self.held) {
            Some(index) => Err(Gap::Past { index }),
            None => Ok(self.next),
        }
    }

    // The same where none was, and the next packet is lacking.
    fn finish_open(self) -> Result<u64, Gap>
        requires closed { self.closed ≡ false }
        requires lacking { waiting self self.next ≡ None }
        ensures gap { (packets : List Packet) → IsAfter self packets → gap_of packets ≡ fault_of result }
        ensures fault { IsErr result }
    {
        let ReorderBuf {
            mut held,
            next,
            closed: _,
        } = self;
        match take_config(&mut held) {
            Some(_) => match first_index(&held) {
                Some(index) => Err(Gap::Past { index }),
                None => Err(Gap::Missing { index: next as u32 }),
            },
            None => Err(Gap::NoConfig),
        }
    }
}
