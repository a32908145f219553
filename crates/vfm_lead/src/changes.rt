//! What the coordinator's entries make of the devices, of one or of all of them.

ghost use Rattle.std.specs.Prelude.{◌≡◌, ◌+◌, ◌*◌, ◌<◌, ◌≤◌, length, slice_set};
ghost use Rattle.vfm_types.specs.Desc.{block_count, device_count, shape_at};
ghost use Rattle.vfm_types.specs.Valid.{IsValid};
ghost use Rattle.vfm_parts.specs.Parts.{listed};
ghost use Rattle.vfm_parts.specs.AbortStep.{aborted_dev};
ghost use Rattle.vfm_parts.specs.ArcStep.{moved_dev};
ghost use Rattle.vfm_parts.specs.BeginStep.{begun_dev};
ghost use Rattle.vfm_parts.specs.BlockStep.{read_dev};
ghost use Rattle.vfm_parts.specs.FailStep.{failed_dev};
ghost use Rattle.vfm_parts.specs.HoldStep.{held_dev};
ghost use Rattle.vfm_parts.specs.ReportStep.{reported_dev};
ghost use Rattle.vfm_parts.specs.ResumeStep.{resumed_dev};
ghost use Rattle.vfm_lead.specs.LeadSteps.{DevsFit, dev_of_list};

use vfm_device_part::DevPart;
use vfm_types::{Desc, DeviceId, MigState, PageSet};

/// The log of each device starts.
pub fn begin_all(devices: &mut [DevPart])
    ensures { devices.new ≡ listed (length devices.old) (λ d. begun_dev (dev_of_list devices.old d)) }
{
    for d in 0..devices.len() {
        devices[d].begin();
    }
}

/// Each device is released, as the move is given up.
pub fn release_all(devices: &mut [DevPart])
    ensures { devices.new ≡ listed (length devices.old) (λ d. aborted_dev (dev_of_list devices.old d)) }
{
    for d in 0..devices.len() {
        devices[d].release();
    }
}

/// Each device is taken over by the destination.
pub fn resume_all(devices: &mut [DevPart])
    ensures { devices.new ≡ listed (length devices.old) (λ d. resumed_dev (dev_of_list devices.old d)) }
{
    for d in 0..devices.len() {
        devices[d].resume();
    }
}

/// Device `d` is held for a state.
pub fn hold(devices: &mut [DevPart], d: DeviceId, to: MigState)
    requires { d < length devices.old }
    ensures { devices.new ≡ slice_set devices.old d (held_dev to (dev_of_list devices.old d)) }
{
    devices[usize::from(d.0)].hold(to);
}

/// Device `d` takes an arc to a state.
pub fn take_arc(devices: &mut [DevPart], d: DeviceId, to: MigState)
    requires { d < length devices.old }
    ensures { devices.new ≡ slice_set devices.old d (moved_dev to (dev_of_list devices.old d)) }
{
    devices[usize::from(d.0)].arc(to);
}

/// Device `d` fails an arc.
pub fn fail_arc(devices: &mut [DevPart], d: DeviceId)
    requires { d < length devices.old }
    ensures { devices.new ≡ slice_set devices.old d (failed_dev (dev_of_list devices.old d)) }
{
    devices[usize::from(d.0)].fail();
}

/// The log of device `d` is cleared; what was marked in it is read before.
pub fn clear_log(devices: &mut [DevPart], d: DeviceId)
    requires { d < length devices.old }
    ensures { devices.new ≡ slice_set devices.old d (reported_dev (dev_of_list devices.old d)) }
{
    devices[usize::from(d.0)].report(&mut PageSet::new());
}

/// Block `b` of device `d` is read.
pub fn read_block(desc: &Desc, devices: &mut [DevPart], d: DeviceId, b: u32)
    requires valid { IsValid desc.now }
    requires devices { DevsFit desc.now devices.old }
    requires device { d < device_count desc.now }
    requires block { b < block_count (shape_at desc.now d) }
    ensures { devices.new ≡ slice_set devices.old d (read_dev desc.now d b (dev_of_list devices.old d)) }
{
    devices[usize::from(d.0)].read_block(b);
}
