//! Which rule a hold, an arc or a failing arc breaks first.

ghost use Rattle.std.specs.Prelude.{◌≡◌, ◌+◌, ◌<◌, ◌==◌, ◌&&◌, nat_lt};
ghost use Rattle.vfm_base.specs.Tests.{first_failed};
ghost use Rattle.vfm_types.specs.declared.state.MigState.TheVariants.{PreCopy, Running};
ghost use Rattle.vfm_types.specs.Desc.{device_count, shape_at};
ghost use Rattle.vfm_types.specs.Paths.{same_state};
ghost use Rattle.vfm_types.specs.State.{has_pre_copy};
ghost use Rattle.vfm_types.specs.Valid.{IsValid};
ghost use Rattle.vfm_parts.specs.Fits.{LeadFits};
ghost use Rattle.vfm_parts.specs.ArcStep.{arc_conditions_in, is_arc_home_in, is_quiet_for_arc_in, is_right_arc_in};
ghost use Rattle.vfm_parts.specs.FailStep.{fail_conditions_in, is_right_fail_in};
ghost use Rattle.vfm_parts.specs.HoldStep.{hold_conditions_in, is_next_to_stop_copy_in, is_quiet_for_hold_in, may_be_held_in};
ghost use Rattle.vfm_parts.specs.PartWords.{is_hold_for, is_next_towards_in, is_way_open_in};
ghost use Rattle.vfm_plain.specs.ArcRules.{is_entering_p2p, is_leaving_p2p, is_stopping};
ghost use Rattle.vfm_lead.specs.LeadSteps.{AreSound, DevsFit, dev_of_list};

use crate::LeadPart;
use crate::devices::{device, is_quiet, none_stopped};
use vfm_device_part::DevPart;
use vfm_states::next_towards;
use vfm_types::{Desc, DeviceId, MigState, Rule};

// the device may be held: the move is on, not every device was found in STOP_COPY, and it has no hold
fn may_be_held(lead: &LeadPart, device: &DevPart) -> bool
    ensures { result ≡ may_be_held_in lead.now device.now }
{
    lead.is_on() && !lead.joint() && device.held().is_none()
}

// the state is the next of device d on its way to another
fn is_next_towards(desc: &Desc, d: DeviceId, goal: MigState, to: MigState, device: &DevPart) -> bool
    requires { d < device_count desc.now }
    ensures { result ≡ is_next_towards_in desc.now d goal to device.now }
{
    let flags = desc.devices.at(u32::from(d.0)).flags;
    to.same(next_towards(device.state(), goal, flags))
}

// the state is the next one of device d, which isn't stopped, on its way to STOP_COPY
fn is_next_to_stop_copy(desc: &Desc, d: DeviceId, to: MigState, device: &DevPart) -> bool
    requires { d < device_count desc.now }
    ensures { result ≡ is_next_to_stop_copy_in desc.now d to device.now }
{
    !device.state().is_stopped() && is_next_towards(desc, d, MigState::StopCopy, to, device)
}

// quiet enough for a hold
fn is_quiet_for_hold(desc: &Desc, lead: &LeadPart, devices: &[DevPart], to: MigState) -> bool
    requires { AreSound desc.now lead.now devices.now }
    ensures { result ≡ is_quiet_for_hold_in desc.now to (dev_of_list devices.now) }
{
    !(to.same(MigState::Stop) || to.same(MigState::StopCopy)) || is_quiet(desc, devices)
}

/// The first rule that the hold of device `d` for a state breaks.
pub fn hold_fault(
    desc: &Desc,
    lead: &LeadPart,
    devices: &[DevPart],
    d: DeviceId,
    to: MigState,
) -> Option<Rule>
    requires sound { AreSound desc.now lead.now devices.now }
    requires device { d < device_count desc.now }
    ensures { result ≡ first_failed (hold_conditions_in desc.now d to lead.now (dev_of_list devices.now)) }
{
    let held = device(devices, d);
    if !may_be_held(lead, held) {
        return Some(Rule::Order);
    }
    if !lead.is_decided(desc) {
        return Some(Rule::Decide);
    }
    if !is_next_to_stop_copy(desc, d, to, held) {
        return Some(Rule::Path);
    }
    if !is_quiet_for_hold(desc, lead, devices, to) {
        return Some(Rule::Quiet);
    }
    None
}

// the hold is for this state
fn is_hold_for(to: MigState, hold: Option<MigState>) -> bool
    ensures { result ≡ is_hold_for to hold }
{
    match hold {
        Some(state) => state.same(to),
        None => false,
    }
}

// device d, which has PRE_COPY, may enter it: passes are to be made, and none has begun
fn may_enter_pre_copy(
    desc: &Desc,
    lead: &LeadPart,
    d: DeviceId,
    to: MigState,
    device: &DevPart,
) -> bool
    requires { d < device_count desc.now }
    ensures { result ≡ (same_state device.now.state Running && same_state to PreCopy && has_pre_copy (shape_at desc.now d).flags
        && nat_lt 0 desc.now.rounds && lead.now.passes == 0) }
{
    let flags = desc.devices.at(u32::from(d.0)).flags;
    let running = device.state().same(MigState::Running);
    running
        && to.same(MigState::PreCopy)
        && flags.has_pre_copy()
        && desc.rounds > 0
        && lead.passes() == 0
}

// a way to this state is open for device d before it stops
fn is_way_open(desc: &Desc, lead: &LeadPart, d: DeviceId, to: MigState, device: &DevPart) -> bool
    requires fits { LeadFits desc.now lead.now }
    requires device { d < device_count desc.now }
    ensures { result ≡ is_way_open_in desc.now d to lead.now device.now }
{
    let stopped = device.state().same(MigState::Stop) && to.same(MigState::StopCopy);
    may_enter_pre_copy(desc, lead, d, to, device)
        || is_hold_for(to, device.held())
        || stopped && lead.is_decided(desc)
}

// which of its arcs, counted from 1, is the next of the device
fn next_count(device: &DevPart) -> u64
    ensures { result ≡ device.now.arcs + 1 }
{
    u64::from(device.steps().2) + 1
}

// the arc of device d to this state goes home to RUNNING
fn is_arc_home(desc: &Desc, d: DeviceId, to: MigState, device: &DevPart) -> bool
    requires { d < device_count desc.now }
    ensures { result ≡ is_arc_home_in desc.now d to device.now }
{
    !device.state().same(MigState::Running)
        && is_next_towards(desc, d, MigState::Running, to, device)
}

// the state is the right one for an arc of device d that succeeds
fn is_right_arc(desc: &Desc, lead: &LeadPart, d: DeviceId, to: MigState, device: &DevPart) -> bool
    requires fits { LeadFits desc.now lead.now }
    requires device { d < device_count desc.now }
    ensures { result ≡ is_right_arc_in desc.now d to lead.now device.now }
{
    if lead.aborted() || lead.resumed() {
        return is_arc_home(desc, d, to, device);
    }
    let fails = desc.devices.at(u32::from(d.0)).fails;
    is_way_open(desc, lead, d, to, device) && next_count(device) != u64::from(fails)
}

// the state is the right one for an arc of device d that fails
fn is_right_fail(desc: &Desc, lead: &LeadPart, d: DeviceId, to: MigState, device: &DevPart) -> bool
    requires fits { LeadFits desc.now lead.now }
    requires device { d < device_count desc.now }
    ensures { result ≡ is_right_fail_in desc.now d to lead.now device.now }
{
    let fails = desc.devices.at(u32::from(d.0)).fails;
    let open = is_way_open(desc, lead, d, to, device);
    !lead.aborted()
        && !lead.resumed()
        && open
        && fails > 0
        && next_count(device) == u64::from(fails)
}

// from the running group to the peer-to-peer group
fn is_entering_p2p(from: MigState, to: MigState) -> bool
    ensures { result ≡ is_entering_p2p from to }
{
    from.is_running() && to.is_p2p()
}

// from a group that runs to STOP or STOP_COPY
fn is_stopping(from: MigState, to: MigState) -> bool
    ensures { result ≡ is_stopping from to }
{
    (from.is_running() || from.is_p2p()) && (to.same(MigState::Stop) || to.same(MigState::StopCopy))
}

// from the peer-to-peer group to RUNNING
fn is_leaving_p2p(from: MigState, to: MigState) -> bool
    ensures { result ≡ is_leaving_p2p from to }
{
    from.is_p2p() && to.same(MigState::Running)
}

/// Whether everything is quiet enough for an arc of device `d` to a state.
pub fn is_quiet_for_arc(desc: &Desc, devices: &[DevPart], d: DeviceId, to: MigState) -> bool
    requires valid { IsValid desc.now }
    requires devices { DevsFit desc.now devices.now }
    requires device { d < device_count desc.now }
    ensures { result ≡ is_quiet_for_arc_in desc.now d to (dev_of_list devices.now) }
{
    let moved = device(devices, d);
    let from = moved.state();
    let clear = !is_entering_p2p(from, to) || !moved.has_barred(desc, d);
    let still = !is_stopping(from, to) || moved.is_bus_empty() && is_quiet(desc, devices);
    let started = !is_leaving_p2p(from, to) || none_stopped(desc, devices);
    clear && still && started
}

/// The first rule that an arc of device `d` to a state breaks.
pub fn arc_fault(
    desc: &Desc,
    lead: &LeadPart,
    devices: &[DevPart],
    d: DeviceId,
    to: MigState,
) -> Option<Rule>
    requires sound { AreSound desc.now lead.now devices.now }
    requires device { d < device_count desc.now }
    ensures { result ≡ first_failed (arc_conditions_in desc.now d to lead.now (dev_of_list devices.now)) }
{
    if !lead.may_take_arcs() {
        return Some(Rule::Order);
    }
    if !is_right_arc(desc, lead, d, to, device(devices, d)) {
        return Some(Rule::Path);
    }
    if !is_quiet_for_arc(desc, devices, d, to) {
        return Some(Rule::Quiet);
    }
    None
}

/// The first rule that a failing arc of device `d` to a state breaks.
pub fn fail_fault(
    desc: &Desc,
    lead: &LeadPart,
    devices: &[DevPart],
    d: DeviceId,
    to: MigState,
) -> Option<Rule>
    requires sound { AreSound desc.now lead.now devices.now }
    requires device { d < device_count desc.now }
    ensures { result ≡ first_failed (fail_conditions_in desc.now d to lead.now (dev_of_list devices.now)) }
{
    if !lead.may_take_arcs() {
        return Some(Rule::Order);
    }
    if !is_right_fail(desc, lead, d, to, device(devices, d)) {
        return Some(Rule::Path);
    }
    if !is_quiet_for_arc(desc, devices, d, to) {
        return Some(Rule::Quiet);
    }
    None
}
