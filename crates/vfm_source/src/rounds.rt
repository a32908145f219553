//! The rounds of an offer: a step of each device that has one, then the coordinator's, then what waits is sent.

ghost use Rattle.std.specs.Prelude.{◌≡◌, ◌<◌, ℕ, List, None, Option, IfOk, IfSome};
ghost use Rattle.vfm_types.specs.declared.desc.Desc.{Desc};
ghost use Rattle.vfm_drive.specs.Runs.{left_in};
ghost use Rattle.vfm_streams.specs.Sent.{Sent};
ghost use Rattle.vfm_outlets.specs.Carrying.{Carries, all_failed, links_of};
ghost use Rattle.vfm_source.specs.Moving.{IsMoving, IsOnMove, past_in};
ghost use Rattle.vfm_source.specs.Rounds.{AreSent, FailsEarly, Leaves, Stops, StopsAtLink, TurnTells, words};
ghost use Rattle.vfm_source.specs.declared.rounds.Stop.TheVariants as stops;

use crate::order::{Turn, take_turn};
use vfm_core::Core;
use vfm_drive::step_devices;
use vfm_outlets::Outlets;
use vfm_outside::Link;
use vfm_plain::Plain;
use vfm_types::NoMemory;

/// Why the rounds of an offer end.
#[derive(Clone, Copy, Debug, PartialEq, Eq)]
pub enum Stop {
    /// Everything was copied.
    Done,
    /// The source is to give up.
    AbortDue,
    /// The link of a channel failed.
    LinkFault,
    /// Memory ran out.
    NoMemory,
}

// sends what waits; a link that fails ends the rounds
fn send<L: Link>(outlets: &mut Outlets<L>) -> Option<Stop>
    ensures leaves { Leaves (words L.failed_out L.failed_in L.received L.ended) outlets.old outlets.new }
    ensures carries { (D : Desc) (starts : List (Option (List ℕ))) (all : List Sent) → Carries L.sent D starts all outlets.old
        → Carries L.sent D starts all outlets.new }
    ensures fault { IfSome result (λ stop. stop ≡ stops.LinkFault) }
    ensures link { IfSome result (λ stop. StopsAtLink stop outlets.new) }
    ensures sent { result ≡ None → AreSent outlets.new }
{
    match outlets.send_all() {
        None => None,
        Some(_) => Some(Stop::LinkFault),
    }
}

// the first step of each device that has one, then the entry that the order wants after those, with what it sends
fn step_all<L: Link>(
    core: &mut Core,
    joint: &mut Plain,
    outlets: &mut Outlets<L>,
    abort_after: u32,
) -> Result<Turn, NoMemory>
    requires moving { IsOnMove L.sent joint.old core.old outlets.old }
    ensures moves { (starts : List (Option (List ℕ))) → IsMoving L.sent starts joint.old core.old outlets.old
        → IsMoving L.sent starts joint.new core.new outlets.new }
    ensures desc { core.new.desc ≡ core.old.desc }
    ensures tells { IfOk result (λ turn. TurnTells turn core.old core.new abort_after) }
    ensures early { FailsEarly abort_after (past_in core.old) → FailsEarly abort_after (past_in core.new) }
    ensures links { links_of outlets.new ≡ links_of outlets.old }
    ensures failed { all_failed outlets.new ≡ all_failed outlets.old }
{
    core.desc();
    step_devices(core);
    take_turn(core, joint, outlets, abort_after)
}

/// A round: the first step of each device that has one, in rising order, then the entry that the order wants after those, with
/// what it sends; then what waits in the outboxes is sent. Says why it was the last one, if it was. Where it wasn't, it made
/// an entry.
///
/// Pass `abort_after` (from 1) is the one after which the source is to give up; 0 for none.
pub fn round<L: Link>(
    core: &mut Core,
    joint: &mut Plain,
    outlets: &mut Outlets<L>,
    abort_after: u32,
) -> Option<Stop>
    requires moving { IsOnMove L.sent joint.old core.old outlets.old }
    ensures moves { (starts : List (Option (List ℕ))) → IsMoving L.sent starts joint.old core.old outlets.old
        → IsMoving L.sent starts joint.new core.new outlets.new }
    ensures leaves { Leaves (words L.failed_out L.failed_in L.received L.ended) outlets.old outlets.new }
    ensures desc { core.new.desc ≡ core.old.desc }
    ensures goes_on { result ≡ None → left_in core.new < left_in core.old }
    ensures early { FailsEarly abort_after (past_in core.old) → FailsEarly abort_after (past_in core.new) }
    ensures stops { IfSome result (λ stop. Stops stop core.new.desc abort_after (past_in core.new)) }
    // where rounds go on, all that waited was sent; they end for a link only where one has failed
    ensures sent { result ≡ None → AreSent outlets.new }
    ensures link { IfSome result (λ stop. StopsAtLink stop outlets.new) }
{
    match step_all(core, joint, outlets, abort_after) {
        Ok(Turn::Made) | Ok(Turn::Waits) => send(outlets),
        Ok(Turn::Done) => Some(Stop::Done),
        Ok(Turn::AbortDue) => Some(Stop::AbortDue),
        Err(_) => Some(Stop::NoMemory),
    }
}

/// Makes rounds until one is the last, and says why it was.
///
/// Pass `abort_after` (from 1) is the one after which the source is to give up; 0 for none.
pub fn make_rounds<L: Link>(
    core: &mut Core,
    joint: &mut Plain,
    outlets: &mut Outlets<L>,
    abort_after: u32,
) -> Stop
    requires moving { IsOnMove L.sent joint.old core.old outlets.old }
    ensures moves { (starts : List (Option (List ℕ))) → IsMoving L.sent starts joint.old core.old outlets.old
        → IsMoving L.sent starts joint.new core.new outlets.new }
    ensures leaves { Leaves (words L.failed_out L.failed_in L.received L.ended) outlets.old outlets.new }
    ensures desc { core.new.desc ≡ core.old.desc }
    ensures stops { Stops result core.new.desc abort_after (past_in core.new) }
    ensures link { StopsAtLink result outlets.new }
    ensures early { FailsEarly abort_after (past_in core.old) → FailsEarly abort_after (past_in core.new) }
{
    'rounds: loop {
        if let Some(stop) = round(core, joint, outlets, abort_after) {
            return stop;
        }
    }
}
