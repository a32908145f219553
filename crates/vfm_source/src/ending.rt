//! The end of an offer: the streams are closed, and what went wrong is told.

ghost use Rattle.std.specs.Prelude.{◌≡◌, true, false, ℕ, List, Option, IfNone, IfSome, Contains};
ghost use Rattle.vfm_types.specs.declared.entry.Entry.TheVariants.{Fail};
ghost use Rattle.vfm_types.specs.declared.state.MigState.{MigState as State};
ghost use Rattle.vfm_types.specs.Phases.{is_failed};
ghost use Rattle.vfm_plain.specs.Ended.{is_last_ended};
ghost use Rattle.vfm_core.specs.CoreState.{IsAfter};
ghost use Rattle.vfm_streams.specs.Sent.{sent};
ghost use Rattle.vfm_outlets.specs.Carrying.{Carries, all_failed, links_of};
ghost use Rattle.vfm_closing.specs.Closing.{CarriesPart};
ghost use Rattle.vfm_source.specs.Moving.{IsMoving, IsOnMove, past_in};
ghost use Rattle.vfm_source.specs.Offers.{outcome_of};
ghost use Rattle.vfm_source.specs.Rounds.{IsStopped};
ghost use Rattle.vfm_source.specs.declared.rounds.Stop.TheVariants as stops;

use crate::fault::OfferFault;
use crate::rounds::Stop;
use vfm_closing::put_closed;
use vfm_core::Core;
use vfm_outlets::Outlets;
use vfm_outside::Link;
use vfm_plain::Plain;
use vfm_types::{DeviceId, Entry, MigState};

/// An arc that a device failed.
#[derive(Clone, Copy, Debug, PartialEq, Eq)]
pub struct FailedArc {
    pub d: DeviceId,
    pub to: MigState,
}

// The newest failed arc of these entries.
fn newest_failed(entries: &[Entry]) -> Option<FailedArc>
    ensures some { IfSome result (λ arc. Contains entries.now (Fail arc.d arc.to)) }
    ensures none { IfNone result ((d : ℕ) (to : State) → Contains entries.now (Fail d to) → ⊥) }
{
    let mut left = entries.len();
    while left > 0 {
        left -= 1;
        if let Entry::Fail { d, to } = entries[left] {
            return Some(FailedArc { d, to });
        }
    }
    None
}

/// The arc that failed, if one did. The journal is searched from its end, and only where there is one.
pub fn failed_arc(core: &Core) -> Option<FailedArc>
    requires run { IsAfter core.now.desc (past_in core.now) core.now.world }
    ensures some { IfSome result (λ arc. Contains (past_in core.now) (Fail arc.d arc.to)) }
    ensures none { IfNone result (is_failed (past_in core.now) ≡ false) }
{
    if core.look().failed {
        newest_failed(core.journal().as_slice())
    } else {
        None
    }
}

/// Puts the records that close the streams, where everything was copied. Whether the whole was put then.
pub fn close<L: Link>(core: &Core, joint: &Plain, outlets: &mut Outlets<L>, stop: Stop) -> bool
    requires moving { IsOnMove L.sent joint.now core.now outlets.old }
    requires stopped { IsStopped stop core.now }
    ensures done { result ≡ true → stop ≡ stops.Done }
    ensures whole { result ≡ true → (starts : List (Option (List ℕ))) → IsMoving L.sent starts joint.now core.now outlets.old
        → Carries L.sent core.now.desc starts (sent core.now.desc (past_in core.now)) outlets.new }
    ensures part { (starts : List (Option (List ℕ))) → IsMoving L.sent starts joint.now core.now outlets.old
        → CarriesPart L.sent core.now.desc starts (sent core.now.desc (past_in core.now)) outlets.new }
    ensures links { links_of outlets.new ≡ links_of outlets.old }
    ensures failed { all_failed outlets.new ≡ all_failed outlets.old }
{
    match stop {
        Stop::Done => close_all(core, joint, outlets),
        Stop::AbortDue | Stop::LinkFault | Stop::NoMemory => false,
    }
}

// puts the records that close the streams; whether all of them were put
fn close_all<L: Link>(core: &Core, joint: &Plain, outlets: &mut Outlets<L>) -> bool
    requires moving { IsOnMove L.sent joint.now core.now outlets.old }
    requires ended { is_last_ended core.now.desc (past_in core.now) ≡ true }
    ensures whole { result ≡ true → (starts : List (Option (List ℕ))) → IsMoving L.sent starts joint.now core.now outlets.old
        → Carries L.sent core.now.desc starts (sent core.now.desc (past_in core.now)) outlets.new }
    ensures part { (starts : List (Option (List ℕ))) → IsMoving L.sent starts joint.now core.now outlets.old
        → CarriesPart L.sent core.now.desc starts (sent core.now.desc (past_in core.now)) outlets.new }
    ensures links { links_of outlets.new ≡ links_of outlets.old }
    ensures failed { all_failed outlets.new ≡ all_failed outlets.old }
{
    put_closed(core.desc(), joint, outlets).is_ok()
}

/// How an offer ended. A failed arc is told before a failed link, and that before the rest.
pub fn outcome(
    arc: Option<FailedArc>,
    channel: Option<u32>,
    stop: Stop,
    closed: bool,
    abort_after: u32,
) -> Result<(), OfferFault>
    ensures { result ≡ outcome_of arc channel stop closed abort_after }
{
    if let Some(FailedArc { d, to }) = arc {
        return Err(OfferFault::ArcFailed { d, to });
    }
    if let Some(channel) = channel {
        return Err(OfferFault::Link { channel });
    }
    match stop {
        Stop::Done if closed => Ok(()),
        Stop::AbortDue => Err(OfferFault::Aborted { pass: abort_after }),
        _ => Err(OfferFault::NoMemory),
    }
}
