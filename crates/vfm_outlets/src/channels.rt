//! What is done to the senders of all channels, or to one of them.

ghost use Rattle.std.specs.Prelude.{◌≡◌, ◌<◌, ◌≤◌, [], false, None, length, map, replicate, vec_len, vec_capacity, slice_index_or, slice_set, OnOk, OnErr, IsTrue};
ghost use Rattle.vfm_outside.specs.Told.{with_appended};
ghost use Rattle.vfm_packet.specs.Header.{IsHeader, carries};
ghost use Rattle.vfm_packet.specs.Packet.{packet_bytes};
ghost use Rattle.vfm_send.specs.declared.sender.Sender.{Sender};
ghost use Rattle.vfm_send.specs.Sends.{given, has_failed, left, link_of, SentPrefix};
ghost use Rattle.vfm_outlets.specs.Carrying.{EachChanged, Ends, FirstFailed, OneChanged, OneSent, SenderFares, sooner};

use std::alloc::Global;
use vfm_outside::Link;
use vfm_packet::Header;
use vfm_send::Sender;
use vfm_types::NoMemory;

/// Puts a packet into the outbox of channel `k`. When memory runs out nothing is put.
pub fn put_into<L: Link>(
    senders: &mut [Sender<L>],
    k: usize,
    head: &Header,
    payload: &[u8],
) -> Result<(), NoMemory>
    requires channel { k < length senders.old }
    requires header { IsHeader head.now }
    requires carries { IsTrue (carries head.now.kind) }
    requires length { head.now.length ≡ length payload.now }
    ensures put { OnOk result (map (given L.sent) senders.new ≡ slice_set (map (given L.sent) senders.old) k
        (with_appended (slice_index_or (map (given L.sent) senders.old) k None)
        (packet_bytes (record { head = head.now; payload = payload.now })))) }
    ensures unchanged { OnErr result (map (given L.sent) senders.new ≡ map (given L.sent) senders.old) }
    ensures links { map link_of senders.new ≡ map link_of senders.old }
    ensures failed { map has_failed senders.new ≡ map has_failed senders.old }
    ensures count { length senders.new ≡ length senders.old }
{
    senders[k].put(head, payload)
}

/// Puts a sender over each link, in order, into a list that has the room for them.
pub fn with_senders<L: Link>(
    alloc: Global,
    mut senders: Vec<Sender<L>>,
    links: Vec<L>,
) -> Vec<Sender<L>>
    requires room { vec_len links ≤ vec_capacity senders }
    requires empty { senders.items ≡ [] }
    ensures links { map link_of result.items ≡ links.items }
    ensures left { map left result.items ≡ replicate (length links.items) [] }
    ensures failed { map has_failed result.items ≡ replicate (length links.items) false }
{
    for link in links {
        senders.push(Sender::of(alloc, link)).unwrap();
    }
    senders
}

/// Puts the link of each sender, in order, into a list that has the room for them.
pub fn with_links<L: Link>(mut links: Vec<L>, senders: Vec<Sender<L>>) -> Vec<L>
    requires room { vec_len senders ≤ vec_capacity links }
    requires empty { vec_len links ≡ 0 }
    ensures { result.items ≡ map link_of senders.items }
{
    for sender in senders {
        links.push(sender.into_link()).unwrap();
    }
    links
}

/// Sends what waits in the outbox of channel `k`, and says whether its link has failed, in this call or an earlier one.
pub fn send_one<L: Link>(senders: &mut [Sender<L>], k: usize) -> bool
    requires channel { k < length senders.old }
    ensures given { map (given L.sent) senders.new ≡ map (given L.sent) senders.old }
    ensures count { length senders.new ≡ length senders.old }
    ensures sent { OneSent senders.old k senders.new result }
    ensures fares { OneChanged (SenderFares L.failed_out) senders.old k senders.new }
    ensures prefix { OneChanged (λ (was now : Sender L). SentPrefix (L.sent (link_of was)) (L.sent (link_of now)) (left was))
        senders.old k senders.new }
    ensures received { map (λ (s : Sender L). L.received (link_of s)) senders.new ≡ map (λ (s : Sender L). L.received (link_of s)) senders.old }
    ensures finished { map (λ (s : Sender L). L.finished (link_of s)) senders.new ≡ map (λ (s : Sender L). L.finished (link_of s)) senders.old }
    ensures ended { map (λ (s : Sender L). L.ended (link_of s)) senders.new ≡ map (λ (s : Sender L). L.ended (link_of s)) senders.old }
    ensures failed_in { map (λ (s : Sender L). L.failed_in (link_of s)) senders.new ≡ map (λ (s : Sender L). L.failed_in (link_of s)) senders.old }
{
    senders[k].send_all().is_err()
}

/// Sends what waits in each outbox, in the order of the channels, and answers the least channel whose link has failed, in this
/// call or an earlier one.
pub fn send_each<L: Link>(senders: &mut [Sender<L>]) -> Option<u32>
    requires few { length senders.old ≤ 8 }
    ensures failed { FirstFailed senders.new (length senders.old) result }
    ensures given { map (given L.sent) senders.new ≡ map (given L.sent) senders.old }
    ensures count { length senders.new ≡ length senders.old }
    ensures fares { EachChanged (SenderFares L.failed_out) senders.old senders.new (length senders.old) }
    ensures prefix { EachChanged (λ (was now : Sender L). SentPrefix (L.sent (link_of was)) (L.sent (link_of now)) (left was))
        senders.old senders.new (length senders.old) }
    ensures received { map (λ (s : Sender L). L.received (link_of s)) senders.new ≡ map (λ (s : Sender L). L.received (link_of s)) senders.old }
    ensures finished { map (λ (s : Sender L). L.finished (link_of s)) senders.new ≡ map (λ (s : Sender L). L.finished (link_of s)) senders.old }
    ensures ended { map (λ (s : Sender L). L.ended (link_of s)) senders.new ≡ map (λ (s : Sender L). L.ended (link_of s)) senders.old }
    ensures failed_in { map (λ (s : Sender L). L.failed_in (link_of s)) senders.new ≡ map (λ (s : Sender L). L.failed_in (link_of s)) senders.old }
{
    let mut least = None;
    for k in 0..senders.len() {
        let failed = send_one(senders, k);
        least = sooner(least, k as u32, failed);
    }
    least
}

// the least channel that has failed, with channel k besides those before it
fn sooner(least: Option<u32>, k: u32, failed: bool) -> Option<u32>
    ensures { result ≡ sooner least k failed }
{
    match least {
        Some(least) => Some(least),
        None if failed => Some(k),
        None => None,
    }
}

/// Sends what waits in the outbox of channel `k` and the packet that ends it, or with `abort` the one that says that the
/// sender gave up, and finishes the link. Says whether the link has failed, in this call or an earlier one.
pub fn end_one<L: Link>(
    senders: &mut [Sender<L>],
    k: usize,
    abort: bool,
    session: u64,
    version: u16,
) -> bool
    requires channel { k < length senders.old }
    ensures count { length senders.new ≡ length senders.old }
    ensures ends { OneChanged (λ (was now : Sender L). Ends abort session version (record {
      failed = has_failed now;
      before = L.sent (link_of was);
      left = left was;
      now = L.sent (link_of now);
      finished = L.finished (link_of now);
    })) senders.old k senders.new }
    ensures sent { OneSent senders.old k senders.new result }
    ensures fares { OneChanged (SenderFares L.failed_out) senders.old k senders.new }
    ensures received { map (λ (s : Sender L). L.received (link_of s)) senders.new ≡ map (λ (s : Sender L). L.received (link_of s)) senders.old }
    ensures ended { map (λ (s : Sender L). L.ended (link_of s)) senders.new ≡ map (λ (s : Sender L). L.ended (link_of s)) senders.old }
    ensures failed_in { map (λ (s : Sender L). L.failed_in (link_of s)) senders.new ≡ map (λ (s : Sender L). L.failed_in (link_of s)) senders.old }
{
    senders[k].end(abort, session, version).is_err()
}

/// Ends each channel, in order: sends what waits in its outbox and the packet that ends it, or with `abort` the one that says
/// that the sender gave up, and finishes its link. Answers the least channel whose link has failed, in this call or an earlier
/// one.
pub fn end_each<L: Link>(
    senders: &mut [Sender<L>],
    abort: bool,
    session: u64,
    version: u16,
) -> Option<u32>
    requires few { length senders.old ≤ 8 }
    ensures failed { FirstFailed senders.new (length senders.old) result }
    ensures ends { EachChanged (λ (was now : Sender L). Ends abort session version (record {
      failed = has_failed now;
      before = L.sent (link_of was);
      left = left was;
      now = L.sent (link_of now);
      finished = L.finished (link_of now);
    })) senders.old senders.new (length senders.old) }
    ensures count { length senders.new ≡ length senders.old }
    ensures fares { EachChanged (SenderFares L.failed_out) senders.old senders.new (length senders.old) }
    ensures received { map (λ (s : Sender L). L.received (link_of s)) senders.new ≡ map (λ (s : Sender L). L.received (link_of s)) senders.old }
    ensures ended { map (λ (s : Sender L). L.ended (link_of s)) senders.new ≡ map (λ (s : Sender L). L.ended (link_of s)) senders.old }
    ensures failed_in { map (λ (s : Sender L). L.failed_in (link_of s)) senders.new ≡ map (λ (s : Sender L). L.failed_in (link_of s)) senders.old }
{
    let mut least = None;
    for k in 0..senders.len() {
        let failed = end_one(senders, k, abort, session, version);
        least = sooner(least, k as u32, failed);
    }
    least
}
