//! What the coordinator of a move is to do next.

ghost use Rattle.std.specs.Prelude.{◌≡◌, ◌<◌, ◌≤◌, ◌-◌, ◌^◌};
ghost use Rattle.vfm_types.specs.Desc.{device_count};
ghost use Rattle.vfm_quiet.specs.Seen.{sees_decided};
ghost use Rattle.vfm_quiet.specs.Order.{is_abort_asked, way_home, beginning, rest_of_pass, first_pass, another_pass, way_out, last_pass, next_want};

use crate::device::{arc_or_fail, next_of, way_out_of};
use crate::devices::{
    all_in, are_warm, least_entering, least_homeward, least_outward, least_to_hold,
    least_unreported,
};
use crate::{MoveLook, Want};
use vfm_types::{Desc, Entry, MigState};

/// What is to be done next, by the first line of the order that applies:
///
/// 1. Given up or taken over: the arc of the least device that may take one towards `RUNNING`; done where all are there.
/// 2. An arc failed: Abort.
/// 3. `abort_after` isn't 0, that many passes have begun and the newest has ended: Abort.
/// 4. Not begun: Begin, where each device has completed enough or is idle.
/// 5. The newest pass hasn't ended: its next page; then a block of the device that is due, or that it has none.
/// 6. Before the first pass, if passes are to be made: the devices that have it enter `PRE_COPY`; then the pass.
/// 7. Not decided that the devices are to stop: the devices report; then another pass.
/// 8. Before Joint: the least device that may be held; else the least that may take an arc towards `STOP_COPY`; else
///    Joint where all are there.
/// 9. After Joint: if a pass was made, the devices report; then the last pass.
/// 10. All is done.
///
/// An arc that the description lets fail is a Fail in lines 6 and 8. Where a line has nothing that can be made, the
/// answer is to wait.
pub fn next(desc: &Desc, look: &MoveLook, abort_after: u32) -> Want
    requires count { look.now.count ≡ device_count desc.now }
    requires few { look.now.count ≤ 8 }
    requires passes { look.now.passes < 2 ^ 32 - 1 }
    ensures { result ≡ next_want desc.now look.now abort_after }
{
    if look.aborted || look.resumed {
        return way_home(desc, look);
    }
    if look.failed || is_abort_asked(look, abort_after) {
        return Want::Do(Entry::Abort);
    }
    if !look.begun {
        return beginning(desc, look);
    }
    if !look.ended {
        return rest_of_pass(look);
    }
    if !look.joint && desc.rounds > 0 && look.passes == 0 {
        return first_pass(desc, look);
    }
    if !look.joint && !is_decided(desc, look) {
        return another_pass(look);
    }
    if !look.joint {
        return way_out(desc, look);
    }
    if !look.last {
        return last_pass(look);
    }
    Want::Done
}

// whether the pass after which the source is to give up has begun, or a later one, and the newest has ended
fn is_abort_asked(look: &MoveLook, abort_after: u32) -> bool
    ensures { result ≡ is_abort_asked look.now abort_after }
{
    abort_after > 0 && abort_after <= look.passes && look.ended
}

// home: the least device that may take an arc towards RUNNING, until all are there
fn way_home(desc: &Desc, look: &MoveLook) -> Want
    requires count { look.now.count ≡ device_count desc.now }
    requires few { look.now.count ≤ 8 }
    ensures { result ≡ way_home desc.now look.now }
{
    if let Some(d) = least_homeward(look) {
        let to = next_of(desc, look, d.0, MigState::Running);
        return Want::Do(Entry::Arc { d, to });
    }
    if all_in(look, MigState::Running) {
        Want::Done
    } else {
        Want::Wait
    }
}

// before the move
fn beginning(desc: &Desc, look: &MoveLook) -> Want
    requires { look.now.count ≤ 8 }
    ensures { result ≡ beginning desc.now look.now }
{
    if are_warm(desc, look) {
        Want::Do(Entry::Begin)
    } else {
        Want::Wait
    }
}

// in a pass: its pages, then the blocks of the devices that have a part in it
fn rest_of_pass(look: &MoveLook) -> Want
    ensures { result ≡ rest_of_pass look.now }
{
    if let Some(p) = look.next_copy {
        return Want::Do(Entry::Copy { p });
    }
    match look.part {
        None => Want::Wait,
        Some(d) => match look.next_block {
            None => Want::Do(Entry::Dry { d }),
            Some(b) => Want::Do(Entry::Block { d, b }),
        },
    }
}

// whether it is decided that the devices are to stop
fn is_decided(desc: &Desc, look: &MoveLook) -> bool
    ensures { result ≡ sees_decided desc.now look.now }
{
    let enough = desc.rounds <= look.passes || look.set.len() <= desc.threshold;
    desc.rounds == 0 || look.passes > 0 && look.ended && enough
}

// the first pass, once the devices that have PRE_COPY are in it
fn first_pass(desc: &Desc, look: &MoveLook) -> Want
    requires count { look.now.count ≡ device_count desc.now }
    requires few { look.now.count ≤ 8 }
    ensures { result ≡ first_pass desc.now look.now }
{
    match least_entering(desc, look) {
        Some(d) => Want::Do(arc_or_fail(desc, look, d.0, MigState::PreCopy)),
        None => Want::Do(Entry::Pass { k: 1 }),
    }
}

// another pass, once each device has reported
fn another_pass(look: &MoveLook) -> Want
    requires few { look.now.count ≤ 8 }
    requires passes { look.now.passes < 2 ^ 32 - 1 }
    ensures { result ≡ another_pass look.now }
{
    match least_unreported(look) {
        Some(d) => Want::Do(Entry::Report { d }),
        None => Want::Do(Entry::Pass { k: look.passes + 1 }),
    }
}

// to STOP_COPY: holds come first, then arcs, and Joint once all are there
fn way_out(desc: &Desc, look: &MoveLook) -> Want
    requires count { look.now.count ≡ device_count desc.now }
    requires few { look.now.count ≤ 8 }
    ensures { result ≡ way_out desc.now look.now }
{
    if let Some(d) = least_to_hold(desc, look) {
        let to = next_of(desc, look, d.0, MigState::StopCopy);
        return Want::Do(Entry::Hold { d, to });
    }
    if let Some(d) = least_outward(look) {
        return Want::Do(arc_or_fail(desc, look, d.0, way_out_of(look, d.0)));
    }
    if all_in(look, MigState::StopCopy) {
        Want::Do(Entry::Joint)
    } else {
        Want::Wait
    }
}

// the last pass; where it is the first, nothing is reported before
fn last_pass(look: &MoveLook) -> Want
    requires few { look.now.count ≤ 8 }
    requires passes { look.now.passes < 2 ^ 32 - 1 }
    ensures { result ≡ last_pass look.now }
{
    if look.passes == 0 {
        Want::Do(Entry::Pass { k: 1 })
    } else {
        another_pass(look)
    }
}
