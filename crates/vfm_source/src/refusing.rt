//! The end of an offer for which there was no memory to begin it: every channel is told that the source gives up.

ghost use Rattle.std.specs.Prelude.{◌≡◌, ◌<◌, ◌≤◌, ℕ, Option, Err, length, map};
ghost use Rattle.vfm_types.specs.Valid.{IsValid};
ghost use Rattle.vfm_outlets.specs.Carrying.{sooner};
ghost use Rattle.vfm_send.specs.Marks.{mark_bytes};
ghost use Rattle.vfm_source.specs.Offers.{abort_bytes, told};
ghost use Rattle.vfm_source.specs.Refusals.{AllRefused, IsFirstRefusal, IsRefused, OneRefused, fault_of_refusal};
ghost use Rattle.vfm_source.specs.Rounds.{HearAsBefore, words};

use crate::fault::OfferFault;
use vfm_outside::Link;
use vfm_send::{Mark, send_bytes};
use vfm_types::Desc;

// Sends a packet that says that the source gives up, and finishes the link. Whether it failed.
fn refuse_link<L: Link>(link: &mut L, mark: &Mark) -> bool
    ensures refused { IsRefused (mark_bytes mark.now) (told L.sent L.finished L.failed_out link.old)
        (told L.sent L.finished L.failed_out link.new) result }
    ensures failed_in { L.failed_in link.new ≡ L.failed_in link.old }
    ensures received { L.received link.new ≡ L.received link.old }
    ensures ended { L.ended link.new ≡ L.ended link.old }
{
    let sent = send_bytes(link, mark.bytes());
    if sent < mark.bytes().len() {
        return true;
    }
    link.finish().is_err()
}

// The same on the link of channel k.
fn refuse_one<L: Link>(links: &mut [L], k: usize, mark: &Mark) -> bool
    requires channel { k < length links.old }
    ensures refused { OneRefused (mark_bytes mark.now) k (map (told L.sent L.finished L.failed_out) links.old)
        (map (told L.sent L.finished L.failed_out) links.new) result }
    ensures hear { HearAsBefore (words L.failed_out L.failed_in L.received L.ended) links.old links.new }
{
    refuse_link(&mut links[k], mark)
}

// The same on each link. The least channel that failed.
fn refuse_each<L: Link>(links: &mut [L], mark: &Mark) -> Option<u32>
    requires few { length links.old ≤ 8 }
    ensures refused { AllRefused (mark_bytes mark.now) (length links.old) (map (told L.sent L.finished L.failed_out) links.old)
        (map (told L.sent L.finished L.failed_out) links.new) }
    ensures least { IsFirstRefusal (length links.old) (map (told L.sent L.finished L.failed_out) links.old)
        (map (told L.sent L.finished L.failed_out) links.new) result }
    ensures hear { HearAsBefore (words L.failed_out L.failed_in L.received L.ended) links.old links.new }
{
    let mut least = None;
    for k in 0..links.len() {
        let failed = refuse_one(links, k, mark);
        least = sooner(least, k as u32, failed);
    }
    least
}

// the least channel that has failed, with channel k besides those before it
fn sooner(least: Option<u32>, k: u32, failed: bool) -> Option<u32>
    ensures { result ≡ sooner least k failed }
{
    match least {
        Some(least) => Some(least),
        None if failed => Some(k),
        None => None,
    }
}

/// Says on every link that the source gives up, and finishes it. Answers the least channel whose link failed; else that
/// memory ran out.
pub fn refuse_all<L: Link>(desc: &Desc, mut links: Vec<L>) -> (Vec<L>, Result<(), OfferFault>)
    requires valid { IsValid desc.now }
    requires channels { length links.items ≡ desc.now.channels }
    ensures refused { AllRefused (abort_bytes desc.now) desc.now.channels (map (told L.sent L.finished L.failed_out) links.items)
        (map (told L.sent L.finished L.failed_out) result.0.items) }
    ensures fault { (least : Option ℕ) × IsFirstRefusal desc.now.channels (map (told L.sent L.finished L.failed_out) links.items)
        (map (told L.sent L.finished L.failed_out) result.0.items) least × (result.1 ≡ Err (fault_of_refusal least)) }
    ensures hear { HearAsBefore (words L.failed_out L.failed_in L.received L.ended) links.items result.0.items }
{
    let mark = Mark::of(true, desc.session, desc.version);
    let fault = match refuse_each(&mut links, &mark) {
        Some(channel) => OfferFault::Link { channel },
        None => OfferFault::NoMemory,
    };
    (links, Err(fault))
}
