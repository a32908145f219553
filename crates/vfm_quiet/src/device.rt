//! What one device may do next, as far as a look shows it.

ghost use Rattle.std.specs.Prelude.{◌≡◌, ◌<◌, ◌||◌};
ghost use Rattle.vfm_types.specs.Desc.{device_count};
ghost use Rattle.vfm_types.specs.Paths.{same_state};
ghost use Rattle.vfm_types.specs.Arcs.{is_p2p, is_stopped};
ghost use Rattle.vfm_quiet.specs.Seen.{seen, sees_warm, next_or_stay, next_seen, arc_or_fail, may_go_home, may_enter_pre_copy, may_be_held, way_out_of, may_go_out, sees_quiet};

use crate::MoveLook;
use vfm_states::next_state;
use vfm_types::{Desc, DeviceId, Entry, Flags, MigState};

/// Whether device `d` stands in this state.
pub(crate) fn is_in(look: &MoveLook, d: u8, state: MigState) -> bool
    requires { d < 8 }
    ensures { result ≡ same_state (seen look.now d).state state }
{
    look.device(d).state.same(state)
}

/// Whether device `d` starts no new peer-to-peer DMA: it is in a peer-to-peer state, or stopped.
pub(crate) fn is_quiet(look: &MoveLook, d: u8) -> bool
    requires { d < 8 }
    ensures { result ≡ (is_p2p (seen look.now d).state || is_stopped (seen look.now d).state) }
{
    let state = look.device(d).state;
    state.is_p2p() || state.is_stopped()
}

/// Whether device `d` has completed what is wanted before the move, or is idle.
pub(crate) fn is_warm(desc: &Desc, look: &MoveLook, d: u8) -> bool
    requires { d < 8 }
    ensures { result ≡ sees_warm desc.now look.now d }
{
    let device = look.device(d);
    let idle = device.unissued == 0 && device.undelivered == 0 && device.delivered == 0;
    desc.begin <= device.completes || idle
}

// the next state towards another, or the state itself where no path leads there
fn next_or_stay(from: MigState, to: MigState, flags: Flags) -> MigState
    ensures { result ≡ next_or_stay from to flags }
{
    next_state(from, to, flags).unwrap_or(from)
}

/// The next state of device `d` towards another.
pub(crate) fn next_of(desc: &Desc, look: &MoveLook, d: u8, goal: MigState) -> MigState
    requires device { d < device_count desc.now }
    requires few { d < 8 }
    ensures { result ≡ next_seen desc.now look.now d goal }
{
    let flags = desc.devices.at(u32::from(d)).flags;
    next_or_stay(look.device(d).state, goal, flags)
}

/// The arc of device `d` to this state, which fails where it is the arc that the description says.
pub(crate) fn arc_or_fail(desc: &Desc, look: &MoveLook, d: u8, to: MigState) -> Entry
    requires device { d < device_count desc.now }
    requires few { d < 8 }
    ensures { result ≡ arc_or_fail desc.now look.now d to }
{
    let fails = desc.devices.at(u32::from(d)).fails;
    if fails > 0 && look.device(d).arcs == fails - 1 {
        Entry::Fail { d: DeviceId(d), to }
    } else {
        Entry::Arc { d: DeviceId(d), to }
    }
}

/// Whether device `d` may take an arc on its way home to `RUNNING`.
pub(crate) fn may_go_home(look: &MoveLook, d: u8) -> bool
    requires { d < 8 }
    ensures { result ≡ may_go_home look.now d }
{
    !is_in(look, d, MigState::Running) && look.is_ready(d)
}

/// Whether device `d` has `PRE_COPY` and stands in `RUNNING`.
pub(crate) fn may_enter_pre_copy(desc: &Desc, look: &MoveLook, d: u8) -> bool
    requires device { d < device_count desc.now }
    requires few { d < 8 }
    ensures { result ≡ may_enter_pre_copy desc.now look.now d }
{
    desc.devices.at(u32::from(d)).flags.has_pre_copy() && is_in(look, d, MigState::Running)
}

/// Whether device `d` may be held for its next state on the way to `STOP_COPY`, where all are quiet or not.
pub(crate) fn may_be_held(desc: &Desc, look: &MoveLook, d: u8, quiet: bool) -> bool
    requires device { d < device_count desc.now }
    requires few { d < 8 }
    requires quiet { quiet ≡ sees_quiet look.now }
    ensures { result ≡ may_be_held desc.now look.now d }
{
    let device = look.device(d);
    let to = next_of(desc, look, d, MigState::StopCopy);
    let stops = to.same(MigState::Stop) || to.same(MigState::StopCopy);
    device.held.is_none() && !device.state.is_stopped() && (!stops || quiet)
}

/// The state to which a way is open for device `d`: the one that it is held for, else `STOP_COPY`.
pub(crate) fn way_out_of(look: &MoveLook, d: u8) -> MigState
    requires { d < 8 }
    ensures { result ≡ way_out_of look.now d }
{
    look.device(d).held.unwrap_or(MigState::StopCopy)
}

/// Whether device `d` may take an arc on its way to `STOP_COPY`: it is held, or in `STOP`.
pub(crate) fn may_go_out(look: &MoveLook, d: u8) -> bool
    requires { d < 8 }
    ensures { result ≡ may_go_out look.now d }
{
    (look.device(d).held.is_some() || is_in(look, d, MigState::Stop)) && look.is_ready(d)
}
