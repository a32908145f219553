//! A step on the parts of a core, without its journal.

ghost use Rattle.std.specs.Prelude.{◌≡◌, ◌<◌, None, Some, true, slice_set, IsTrue, MatchResult, OnErr, OnOk};
ghost use Rattle.vfm_types.specs.Desc.{device_count};
ghost use Rattle.vfm_types.specs.Valid.{IsValid};
ghost use Rattle.vfm_plain.specs.Legal.{is_entry_of};
ghost use Rattle.vfm_parts.specs.Steps.{after_on, fault_on};
ghost use Rattle.vfm_device_part.specs.DeviceSteps.{is_own_of, own_after, own_fault};
ghost use Rattle.vfm_lead.specs.LeadSteps.{DevsFit, dev_of_list};
ghost use Rattle.vfm_core.specs.CoreState.{FitsDesc, world_with};

use crate::deliver::deliver;
use vfm_device_part::{DevPart, Guard, PagePart, step_own};
use vfm_lead::{LeadPart, step_copy, step_lead};
use vfm_types::{Desc, DeviceId, Entry};

/// Makes an entry on the parts, of which all are given, in their order. `Guard` exactly where a condition is false, with
/// the first rule that is broken; the parts are then as before.
pub fn step_parts(
    desc: &Desc,
    lead: &mut LeadPart,
    devices: &mut [DevPart],
    pages: &mut [PagePart],
    e: &Entry,
) -> Result<(), Guard>
    requires fits { FitsDesc desc.now (world_with lead.old devices.old pages.old) }
    requires entry { IsTrue (is_entry_of desc.now e.now) }
    ensures guard { let w = world_with lead.old devices.old pages.old in
        MatchResult result (λ _. fault_on desc.now w e.now ≡ None) (λ guard. fault_on desc.now w e.now ≡ Some guard.0) }
    ensures done { OnOk result (world_with lead.new devices.new pages.new
        ≡ after_on desc.now (world_with lead.old devices.old pages.old) e.now) }
    ensures same { OnErr result (world_with lead.new devices.new pages.new ≡ world_with lead.old devices.old pages.old) }
{
    match *e {
        Entry::Issue { d, n: _ } => own_step(desc, devices, d, e),
        Entry::Deliver { d, n } => deliver(desc, devices, pages, d, n),
        Entry::Complete { d, n: _ } => own_step(desc, devices, d, e),
        Entry::Copy { p } => step_copy(desc, lead, &pages[p as usize], *e),
        _ => step_lead(desc, lead, devices, *e),
    }
}

// makes an Issue or a Complete of device d
fn own_step(desc: &Desc, devices: &mut [DevPart], d: DeviceId, e: &Entry) -> Result<(), Guard>
    requires valid { IsValid desc.now }
    requires devices { DevsFit desc.now devices.old }
    requires device { d < device_count desc.now }
    requires entry { is_own_of d e.now ≡ true }
    ensures guard { MatchResult result (λ _. own_fault desc.now e.now (dev_of_list devices.old d) ≡ None)
        (λ guard. own_fault desc.now e.now (dev_of_list devices.old d) ≡ Some guard.0) }
    ensures done { OnOk result (devices.new ≡ slice_set devices.old d (own_after desc.now e.now (dev_of_list devices.old d))) }
    ensures same { OnErr result (devices.new ≡ devices.old) }
{
    step_own(desc, d, &mut devices[usize::from(d.0)], *e)
}
