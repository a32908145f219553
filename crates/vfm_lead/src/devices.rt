//! What the coordinator asks of the devices, one or all of them.

ghost use Rattle.std.specs.Prelude.{◌≡◌, ◌<◌, ◌≤◌, ◌==◌, ◌&&◌, ◌||◌, not, nat_le, length};
ghost use Rattle.vfm_base.specs.Least.{all_below};
ghost use Rattle.vfm_types.specs.declared.state.MigState.TheVariants.{PreCopy, StopCopy};
ghost use Rattle.vfm_types.specs.Arcs.{is_p2p, is_running, is_stopped};
ghost use Rattle.vfm_types.specs.Desc.{device_count, shape_at};
ghost use Rattle.vfm_types.specs.Paths.{same_state};
ghost use Rattle.vfm_types.specs.State.{has_pre_copy};
ghost use Rattle.vfm_types.specs.Valid.{IsValid};
ghost use Rattle.vfm_parts.specs.BeginStep.{may_begin_move_in};
ghost use Rattle.vfm_parts.specs.JointStep.{is_all_in_stop_copy_in};
ghost use Rattle.vfm_parts.specs.PartWords.{is_idle_in, is_quiet_in, none_stopped_in};
ghost use Rattle.vfm_lead.specs.LeadSteps.{DevsFit, dev_of_list};

use vfm_device_part::DevPart;
use vfm_types::{Desc, DeviceId, MigState};

/// Device `d`.
#[tactic(auto, using(std::proofs::lemmas::List::get_or_default))]
pub fn device(devices: &[DevPart], d: DeviceId) -> &DevPart
    requires { d < length devices.now }
    ensures { result.now ≡ dev_of_list devices.now d }
{
    &devices[usize::from(d.0)]
}

// how many devices there are
pub fn count(desc: &Desc, devices: &[DevPart]) -> u8
    requires valid { IsValid desc.now }
    requires devices { DevsFit desc.now devices.now }
    ensures value { result ≡ device_count desc.now }
    ensures same { result ≡ length devices.now }
    ensures few { result ≤ 8 }
{
    devices.len() as u8
}

// whether the device has completed what is wanted before the move, or is idle
fn is_warm(desc: &Desc, device: &DevPart) -> bool
    ensures { result ≡ (nat_le desc.now.begin device.now.completes || is_idle_in device.now) }
{
    desc.begin <= device.steps().1 || device.is_idle()
}

// whether the device is in a peer-to-peer state or stopped
fn is_still(device: &DevPart) -> bool
    ensures { result ≡ (is_p2p device.now.state || is_stopped device.now.state) }
{
    device.state().is_p2p() || device.state().is_stopped()
}

// whether the device isn't stopped
fn is_moving(device: &DevPart) -> bool
    ensures { result ≡ not (is_stopped device.now.state) }
{
    !device.state().is_stopped()
}

// whether the device stands in this state
fn stands_in(device: &DevPart, state: MigState) -> bool
    ensures { result ≡ same_state device.now.state state }
{
    device.state().same(state)
}

// whether device d stands in PRE_COPY, if it has that
fn has_entered(desc: &Desc, d: u8, device: &DevPart) -> bool
    requires { d < device_count desc.now }
    ensures { result ≡ (not (has_pre_copy (shape_at desc.now d).flags) || same_state device.now.state PreCopy) }
{
    !desc.devices.at(u32::from(d)).flags.has_pre_copy() || stands_in(device, MigState::PreCopy)
}

/// Whether each device has completed what is wanted before the move, or is idle.
pub fn may_begin(desc: &Desc, devices: &[DevPart]) -> bool
    requires valid { IsValid desc.now }
    requires devices { DevsFit desc.now devices.now }
    ensures { result ≡ may_begin_move_in desc.now (dev_of_list devices.now) }
{
    for d in 0..count(desc, devices) {
        if !is_warm(desc, device(devices, DeviceId(d))) {
            return false;
        }
    }
    true
}

// whether each device is in a peer-to-peer state or stopped
fn are_quiet(desc: &Desc, devices: &[DevPart]) -> bool
    requires valid { IsValid desc.now }
    requires devices { DevsFit desc.now devices.now }
    ensures { result ≡ all_below (device_count desc.now)
        (λ d. is_p2p (dev_of_list devices.now d).state || is_stopped (dev_of_list devices.now d).state) }
{
    for d in 0..count(desc, devices) {
        if !is_still(device(devices, DeviceId(d))) {
            return false;
        }
    }
    true
}

/// Whether there is one device, or each is in a peer-to-peer state or stopped.
pub fn is_quiet(desc: &Desc, devices: &[DevPart]) -> bool
    requires valid { IsValid desc.now }
    requires devices { DevsFit desc.now devices.now }
    ensures { result ≡ is_quiet_in desc.now (dev_of_list devices.now) }
{
    devices.len() == 1 || are_quiet(desc, devices)
}

/// Whether no device is stopped.
pub fn none_stopped(desc: &Desc, devices: &[DevPart]) -> bool
    requires valid { IsValid desc.now }
    requires devices { DevsFit desc.now devices.now }
    ensures { result ≡ none_stopped_in desc.now (dev_of_list devices.now) }
{
    for d in 0..count(desc, devices) {
        if !is_moving(device(devices, DeviceId(d))) {
            return false;
        }
    }
    true
}

/// Whether every device stands in `STOP_COPY`.
pub fn are_all_in_stop_copy(desc: &Desc, devices: &[DevPart]) -> bool
    requires valid { IsValid desc.now }
    requires devices { DevsFit desc.now devices.now }
    ensures { result ≡ is_all_in_stop_copy_in desc.now (dev_of_list devices.now) }
{
    for d in 0..count(desc, devices) {
        if !stands_in(device(devices, DeviceId(d)), MigState::StopCopy) {
            return false;
        }
    }
    true
}

/// Whether each device that has `PRE_COPY` stands in it.
pub fn have_entered_pre_copy(desc: &Desc, devices: &[DevPart]) -> bool
    requires valid { IsValid desc.now }
    requires devices { DevsFit desc.now devices.now }
    ensures { result ≡ all_below (device_count desc.now)
        (λ d. not (has_pre_copy (shape_at desc.now d).flags) || same_state (dev_of_list devices.now d).state PreCopy) }
{
    for d in 0..count(desc, devices) {
        if !has_entered(desc, d, device(devices, DeviceId(d))) {
            return false;
        }
    }
    true
}
