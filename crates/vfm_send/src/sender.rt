//! The sending end of a channel.

ghost use Rattle.std.specs.Prelude.{◌≤◌, vec_len};

use crate::mark::Mark;
use crate::packing::append_packet;
use crate::sending::send_bytes;
use std::alloc::Global;
use vfm_outside::Link;
use vfm_packet::Header;
use vfm_types::{LinkFault, NoMemory};

/// Gathers packets and sends them over a link. Once the link has failed under it, it sends nothing more.
#[derive(Drop)]
pub struct Sender<L> {
    link: L,
    // the packets that were put, of which the bytes before `at` are sent
    outbox: Vec<u8>,
    at: usize,
    failed: bool,
    ghost in_range: { at ≤ vec_len outbox },
}

impl<L: Link> Sender<L> {
    ghost use Rattle.std.specs.Prelude.{◌≡◌, ◌+◌, ◌<◌, ◌≤◌, ◌⊎◌, ◌||◌, [], ◌++◌, true, false, IsTrue, IsErr, OnOk, OnErr, is_err, length, vec_len, vec_capacity};
    ghost use Rattle.vfm_outside.specs.Counts.{Rose};
    ghost use Rattle.vfm_outside.specs.Told.{with_appended};
    ghost use Rattle.vfm_packet.specs.Header.{IsHeader, carries};
    ghost use Rattle.vfm_packet.specs.Packet.{packet_bytes, packet_size};
    ghost use Rattle.vfm_send.specs.Sends.{link_of, has_failed, left, given, SentPrefix, mark_of};

    /// A sender over this link, which nothing was put into.
    pub fn of(alloc: Global, link: L) -> Sender<L>
        ensures link { link_of result ≡ link }
        ensures left { left result ≡ [] }
        ensures failed { has_failed result ≡ false }
    {
        Sender {
            link,
            outbox: Vec::new(alloc),
            at: 0,
            failed: false,
        }
    }

    /// Whether the link has failed under this sender.
    pub fn has_failed(&self) -> bool
        ensures { result ≡ has_failed self.now }
    {
        self.failed
    }

    /// Puts a data or config packet into the outbox: a header of the format, and a payload of its length. The sender adds
    /// the seal in version 2. Nothing is sent yet, and when memory runs out nothing is put.
    pub fn put(&mut self, h: &Header, payload: &[u8]) -> Result<(), NoMemory>
        requires header { IsHeader h.now }
        requires carries { IsTrue (carries h.now.kind) }
        requires length { h.now.length ≡ length payload.now }
        ensures put { OnOk result (left self.new ≡ left self.old ++ packet_bytes (record { head = h.now; payload = payload.now })) }
        ensures unchanged { OnErr result (left self.new ≡ left self.old) }
        ensures full { OnErr result (vec_capacity self.old.outbox < vec_len self.old.outbox + packet_size h.now) }
        ensures link { link_of self.new ≡ link_of self.old }
        ensures failed { has_failed self.new ≡ has_failed self.old }
    {
        append_packet(&mut self.outbox, h, payload)
    }

    /// Sends what waits in the outbox, in order, and empties it; its memory is kept for what is put next. At `LinkFault`
    /// the link failed in this call or in an earlier one, and a prefix of what waited was sent.
    pub fn send_all(&mut self) -> Result<(), LinkFault>
        // what was given stays: what is no longer left is what was sent
        ensures given { given L.sent self.new ≡ given L.sent self.old }
        ensures all { OnOk result (left self.new ≡ []) }
        ensures sent { OnOk result (L.sent (link_of self.new) ≡ with_appended (L.sent (link_of self.old)) (left self.old)) }
        ensures prefix { OnErr result (SentPrefix (L.sent (link_of self.old)) (L.sent (link_of self.new)) (left self.old)) }
        // a fault comes only where the link's count rose, in this call or an earlier one, and the sender is silent after it
        ensures fault { OnErr result ((has_failed self.old ≡ true)
            ⊎ Rose (L.failed_out (link_of self.old)) (L.failed_out (link_of self.new))) }
        ensures silent { has_failed self.old ≡ true → IsErr result × (link_of self.new ≡ link_of self.old) }
        ensures failed { has_failed self.new ≡ (has_failed self.old || is_err result) }
        ensures never_falls { L.failed_out (link_of self.old) ≤ L.failed_out (link_of self.new) }
        ensures ok { OnOk result (L.failed_out (link_of self.new) ≡ L.failed_out (link_of self.old)) }
        // nothing else of the link changes
        ensures finished { L.finished (link_of self.new) ≡ L.finished (link_of self.old) }
        ensures failed_in { L.failed_in (link_of self.new) ≡ L.failed_in (link_of self.old) }
        ensures received { L.received (link_of self.new) ≡ L.received (link_of self.old) }
        ensures ended { L.ended (link_of self.new) ≡ L.ended (link_of self.old) }
        ensures memory { vec_capacity self.new.outbox ≡ vec_capacity self.old.outbox }
    {
        if self.failed {
            return Err(LinkFault);
        }
        let sent = send_bytes(&mut self.link, &self.outbox[self.at..]);
        if sent < self.outbox.len() - self.at {
            self.at += sent;
            self.failed = true;
            return Err(LinkFault);
        }
        self.outbox.clear();
        self.at = 0;
        Ok(())
    }

    /// Sends what waits in the outbox and then the packet that ends the channel, or with `abort` the one that says that the
    /// sender gave up, and finishes the link. It takes no memory. At `LinkFault` the link failed in this call or in an
    /// earlier one, and a prefix of all that was sent.
    pub fn end(&mut self, abort: bool, session: u64, version: u16) -> Result<(), LinkFault>
        ensures sent { OnOk result (L.sent (link_of self.new) ≡ with_appended (L.sent (link_of self.old))
            (left self.old ++ packet_bytes (mark_of abort session version))) }
        ensures all { OnOk result (left self.new ≡ []) }
        ensures prefix { OnErr result (SentPrefix (L.sent (link_of self.old)) (L.sent (link_of self.new))
            (left self.old ++ packet_bytes (mark_of abort session version))) }
        ensures finished { OnOk result (L.finished (link_of self.new) ≡ true) }
        ensures not_finished { OnErr result (L.finished (link_of self.new) ≡ L.finished (link_of self.old)) }
        // a fault comes only where the link's count rose, in this call or an earlier one, and the sender is silent after it
        ensures fault { OnErr result ((has_failed self.old ≡ true)
            ⊎ Rose (L.failed_out (link_of self.old)) (L.failed_out (link_of self.new))) }
        ensures silent { has_failed self.old ≡ true → IsErr result × (link_of self.new ≡ link_of self.old) }
        ensures failed { has_failed self.new ≡ (has_failed self.old || is_err result) }
        ensures never_falls { L.failed_out (link_of self.old) ≤ L.failed_out (link_of self.new) }
        ensures ok { OnOk result (L.failed_out (link_of self.new) ≡ L.failed_out (link_of self.old)) }
        // nothing else of the link changes
        ensures failed_in { L.failed_in (link_of self.new) ≡ L.failed_in (link_of self.old) }
        ensures received { L.received (link_of self.new) ≡ L.received (link_of self.old) }
        ensures ended { L.ended (link_of self.new) ≡ L.ended (link_of self.old) }
    {
        self.send_all()?;
        let mark = Mark::of(abort, session, version);
        let sent = send_bytes(&mut self.link, mark.bytes());
        if sent < mark.bytes().len() {
            self.failed = true;
            return Err(LinkFault);
        }
        self.finish()
    }

    // Finishes the link.
    fn finish(&mut self) -> Result<(), LinkFault>
        ensures finished { OnOk result (L.finished (link_of self.new) ≡ true) }
        ensures not_finished { OnErr result (L.finished (link_of self.new) ≡ L.finished (link_of self.old)) }
        ensures left { left self.new ≡ left self.old }
        ensures sent { L.sent (link_of self.new) ≡ L.sent (link_of self.old) }
        ensures fault { OnErr result (Rose (L.failed_out (link_of self.old)) (L.failed_out (link_of self.new))) }
        ensures failed { has_failed self.new ≡ (has_failed self.old || is_err result) }
        ensures never_falls { L.failed_out (link_of self.old) ≤ L.failed_out (link_of self.new) }
        ensures ok { OnOk result (L.failed_out (link_of self.new) ≡ L.failed_out (link_of self.old)) }
        ensures failed_in { L.failed_in (link_of self.new) ≡ L.failed_in (link_of self.old) }
        ensures received { L.received (link_of self.new) ≡ L.received (link_of self.old) }
        ensures ended { L.ended (link_of self.new) ≡ L.ended (link_of self.old) }
    {
        if self.link.finish().is_err() {
            self.failed = true;
            return Err(LinkFault);
        }
        Ok(())
    }

    /// The link, and nothing of what waits.
    pub fn into_link(self) -> L
        ensures { result ≡ link_of self }
    {
        let Sender {
            link,
            outbox: _,
            at: _,
            failed: _,
        } = self;
        link
    }
}
