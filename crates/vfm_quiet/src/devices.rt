//! Which device is the least that may do something, and whether all stand in a state.

ghost use Rattle.std.specs.Prelude.{◌≡◌, ◌<◌, ◌≤◌, ◌||◌, not, IfSome};
ghost use Rattle.vfm_base.specs.Least.{all_below, least_below};
ghost use Rattle.vfm_types.specs.Arcs.{is_p2p, is_stopped};
ghost use Rattle.vfm_types.specs.Desc.{device_count};
ghost use Rattle.vfm_quiet.specs.Seen.{seen, sees_all_in, sees_quiet, sees_reported, sees_warm, may_go_home, may_enter_pre_copy, may_be_held, may_go_out};

use crate::{MoveLook, device};
use vfm_types::{Desc, DeviceId, MigState};

/// Whether every device stands in this state.
pub(crate) fn all_in(look: &MoveLook, state: MigState) -> bool
    requires { look.now.count ≤ 8 }
    ensures { result ≡ sees_all_in look.now state }
{
    for d in 0..look.count {
        if !device::is_in(look, d, state) {
            return false;
        }
    }
    true
}

/// Whether there is one device, or each is in a peer-to-peer state or stopped.
pub(crate) fn is_quiet(look: &MoveLook) -> bool
    requires { look.now.count ≤ 8 }
    ensures { result ≡ sees_quiet look.now }
{
    look.count == 1 || are_quiet(look)
}

// whether each device is in a peer-to-peer state or stopped
fn are_quiet(look: &MoveLook) -> bool
    requires { look.now.count ≤ 8 }
    ensures { result ≡ all_below look.now.count (λ d. is_p2p (seen look.now d).state || is_stopped (seen look.now d).state) }
{
    for d in 0..look.count {
        if !device::is_quiet(look, d) {
            return false;
        }
    }
    true
}

/// Whether each device has completed what is wanted before the move, or is idle.
pub(crate) fn are_warm(desc: &Desc, look: &MoveLook) -> bool
    requires { look.now.count ≤ 8 }
    ensures { result ≡ all_below look.now.count (λ d. sees_warm desc.now look.now d) }
{
    for d in 0..look.count {
        if !device::is_warm(desc, look, d) {
            return false;
        }
    }
    true
}

/// The least device that may take an arc on its way home.
pub(crate) fn least_homeward(look: &MoveLook) -> Option<DeviceId>
    requires { look.now.count ≤ 8 }
    ensures value { result ≡ least_below look.now.count (λ d. may_go_home look.now d) }
    ensures inside { IfSome result (λ d. d < look.now.count) }
{
    for d in 0..look.count {
        if device::may_go_home(look, d) {
            return Some(DeviceId(d));
        }
    }
    None
}

/// The least device that is to enter `PRE_COPY`.
pub(crate) fn least_entering(desc: &Desc, look: &MoveLook) -> Option<DeviceId>
    requires count { look.now.count ≡ device_count desc.now }
    requires few { look.now.count ≤ 8 }
    ensures value { result ≡ least_below look.now.count (λ d. may_enter_pre_copy desc.now look.now d) }
    ensures inside { IfSome result (λ d. d < look.now.count) }
{
    for d in 0..look.count {
        if device::may_enter_pre_copy(desc, look, d) {
            return Some(DeviceId(d));
        }
    }
    None
}

/// The least device that hasn't reported.
pub(crate) fn least_unreported(look: &MoveLook) -> Option<DeviceId>
    requires { look.now.count ≤ 8 }
    ensures value { result ≡ least_below look.now.count (λ d. not (sees_reported look.now d)) }
    ensures inside { IfSome result (λ d. d < look.now.count) }
{
    for d in 0..look.count {
        if !look.has_reported(d) {
            return Some(DeviceId(d));
        }
    }
    None
}

/// The least device that may be held.
pub(crate) fn least_to_hold(desc: &Desc, look: &MoveLook) -> Option<DeviceId>
    requires count { look.now.count ≡ device_count desc.now }
    requires few { look.now.count ≤ 8 }
    ensures value { result ≡ least_below look.now.count (λ d. may_be_held desc.now look.now d) }
    ensures inside { IfSome result (λ d. d < look.now.count) }
{
    let quiet = is_quiet(look);
    for d in 0..look.count {
        if device::may_be_held(desc, look, d, quiet) {
            return Some(DeviceId(d));
        }
    }
    None
}

/// The least device that may take an arc on its way to `STOP_COPY`.
pub(crate) fn least_outward(look: &MoveLook) -> Option<DeviceId>
    requires { look.now.count ≤ 8 }
    ensures value { result ≡ least_below look.now.count (λ d. may_go_out look.now d) }
    ensures inside { IfSome result (λ d. d < look.now.count) }
{
    for d in 0..look.count {
        if device::may_go_out(look, d) {
            return Some(DeviceId(d));
        }
    }
    None
}
