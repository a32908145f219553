//! The whole of an offer over its links.

ghost use Rattle.std.specs.Prelude.{◌≡◌, [], false, length, map, replicate};
ghost use Rattle.vfm_outlets.specs.Carrying.{all_failed, links_of};
ghost use Rattle.vfm_source.specs.Moving.{IsMoving, IsUnderWay, past_in};
ghost use Rattle.vfm_source.specs.Offers.{Offers, offer_of, told};
ghost use Rattle.vfm_source.specs.Rounds.{FailsEarly, HearAsBefore, words};

use crate::ending::{close, failed_arc, outcome};
use crate::fault::OfferFault;
use crate::refusing::refuse_all;
use crate::rounds::make_rounds;
use std::alloc::Global;
use vfm_core::Core;
use vfm_outlets::Outlets;
use vfm_outside::Link;
use vfm_plain::Plain;

// Runs the machine and its move over these channels, and ends them.
fn send_over<L: Link>(
    core: &mut Core,
    joint: &mut Plain,
    mut outlets: Outlets<L>,
    abort_after: u32,
) -> (Vec<L>, Result<(), OfferFault>)
    requires moving { IsMoving L.sent (map L.sent (links_of outlets)) joint.old core.old outlets }
    requires unfailed { all_failed outlets ≡ replicate (length (links_of outlets)) false }
    requires early { FailsEarly abort_after (past_in core.old) }
    ensures way { IsUnderWay joint.new core.new }
    ensures desc { core.new.desc ≡ core.old.desc }
    ensures offers { Offers (offer_of core.new abort_after (map (told L.sent L.finished L.failed_out) (links_of outlets))
        (map (told L.sent L.finished L.failed_out) result.0.items)) result.1 }
    ensures hear { HearAsBefore (words L.failed_out L.failed_in L.received L.ended) (links_of outlets) result.0.items }
{
    let stop = make_rounds(core, joint, &mut outlets, abort_after);
    let closed = close(core, joint, &mut outlets, stop);
    let channel = outlets.end(!closed);
    let result = outcome(failed_arc(core), channel, stop, closed, abort_after);
    (outlets.into_links(), result)
}

/// Runs the machine and its move to the end of the last pass, sends everything over these links, and ends each channel.
pub fn send_move<L: Link>(
    alloc: Global,
    core: &mut Core,
    joint: &mut Plain,
    links: Vec<L>,
    abort_after: u32,
) -> (Vec<L>, Result<(), OfferFault>)
    requires way { IsUnderWay joint.old core.old }
    requires fresh { past_in core.old ≡ [] }
    requires channels { length links.items ≡ core.old.desc.channels }
    ensures way { IsUnderWay joint.new core.new }
    ensures desc { core.new.desc ≡ core.old.desc }
    ensures offers { Offers (offer_of core.new abort_after (map (told L.sent L.finished L.failed_out) links.items)
        (map (told L.sent L.finished L.failed_out) result.0.items)) result.1 }
    ensures hear { HearAsBefore (words L.failed_out L.failed_in L.received L.ended) links.items result.0.items }
{
    match Outlets::of(alloc, core.desc(), links) {
        Ok(outlets) => send_over(core, joint, outlets, abort_after),
        Err((links, _)) => refuse_all(core.desc(), links),
    }
}
