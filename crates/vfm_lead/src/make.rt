//! What the coordinator's entries make of its part and of the devices.

ghost use Rattle.std.specs.Prelude.{◌≡◌, ◌<◌, true, IsTrue};
ghost use Rattle.vfm_types.specs.Desc.{device_count};
ghost use Rattle.vfm_types.specs.Valid.{IsValid};
ghost use Rattle.vfm_plain.specs.Legal.{is_entry_of};
ghost use Rattle.vfm_parts.specs.Parts.{Lead, listed};
ghost use Rattle.vfm_parts.specs.PassStep.{part_size, passed_lead};
ghost use Rattle.vfm_parts.specs.ReportStep.{reported_lead};
ghost use Rattle.vfm_lead.specs.LeadSteps.{AreSound, DevsFit, dev_of_list, devs_made, is_of_lead, lead_made};

use crate::by_device::Counts;
use crate::devices::{count, device};
use crate::{LeadPart, changes};
use vfm_device_part::DevPart;
use vfm_types::{Desc, DeviceId, Entry, MigState};

// how many blocks the part of device d may read in a pass that begins now
fn part_size(desc: &Desc, lead: &LeadPart, devices: &[DevPart], d: DeviceId) -> u32
    requires sound { AreSound desc.now lead.now devices.now }
    requires device { d < device_count desc.now }
    ensures { result ≡ part_size desc.now lead.now (dev_of_list devices.now) d }
{
    if lead.joint() || device(devices, d).state().same(MigState::PreCopy) {
        desc.devices.at(u32::from(d.0)).bar_bytes() / 64
    } else {
        0
    }
}

// how many each may
fn part_sizes(desc: &Desc, lead: &LeadPart, devices: &[DevPart]) -> Counts
    requires { AreSound desc.now lead.now devices.now }
    ensures { result ≡ listed (device_count desc.now) (part_size desc.now lead.now (dev_of_list devices.now)) }
{
    let count = count(desc, devices);
    let mut sizes = Counts::zeros(count);
    for d in 0..count {
        sizes.set(DeviceId(d), part_size(desc, lead, devices, DeviceId(d)));
    }
    sizes
}

// pass k begins
fn begin_pass(desc: &Desc, lead: &mut LeadPart, devices: &[DevPart], k: u32)
    requires { AreSound desc.now lead.old devices.now }
    ensures { lead.new ≡ passed_lead desc.now k (dev_of_list devices.now) lead.old }
{
    let sizes = part_sizes(desc, lead, devices);
    lead.pass(desc, k, sizes);
}

// device d reports
fn report(desc: &Desc, lead: &mut LeadPart, devices: &[DevPart], d: DeviceId)
    requires sound { AreSound desc.now lead.old devices.now }
    requires device { d < device_count desc.now }
    ensures { lead.new ≡ reported_lead desc.now d (dev_of_list devices.now d).marks lead.old }
{
    lead.report(desc, d, device(devices, d).marks());
}

// What the entry makes of the coordinator's part, which reads the devices as they are before it.
fn make_lead(desc: &Desc, lead: &mut LeadPart, devices: &[DevPart], e: &Entry)
    requires sound { AreSound desc.now lead.old devices.now }
    requires entry { IsTrue (is_entry_of desc.now e.now) }
    requires kind { is_of_lead e.now ≡ true }
    ensures { lead.new ≡ lead_made desc.now lead.old devices.now e.now }
{
    match *e {
        Entry::Fail { d: _, to: _ } => lead.fail(),
        Entry::Report { d } => report(desc, lead, devices, d),
        Entry::Pass { k } => begin_pass(desc, lead, devices, k),
        Entry::Block { d, b: _ } => lead.read_block(d),
        Entry::Dry { d } => lead.end_part(d),
        Entry::Begin => lead.begin(),
        Entry::Joint => lead.join(),
        Entry::Abort => lead.abort(),
        Entry::Resume => lead.resume(),
        _ => {}
    }
}

// What the entry makes of the devices, whatever the coordinator's part is.
fn make_devices(desc: &Desc, devices: &mut [DevPart], e: &Entry)
    requires valid { IsValid desc.now }
    requires devices { DevsFit desc.now devices.old }
    requires entry { IsTrue (is_entry_of desc.now e.now) }
    requires kind { is_of_lead e.now ≡ true }
    ensures { (lead : Lead) → devices.new ≡ devs_made desc.now lead devices.old e.now }
{
    match *e {
        Entry::Hold { d, to } => changes::hold(devices, d, to),
        Entry::Arc { d, to } => changes::take_arc(devices, d, to),
        Entry::Fail { d, to: _ } => changes::fail_arc(devices, d),
        Entry::Report { d } => changes::clear_log(devices, d),
        Entry::Block { d, b } => changes::read_block(desc, devices, d, b),
        Entry::Begin => changes::begin_all(devices),
        Entry::Abort => changes::release_all(devices),
        Entry::Resume => changes::resume_all(devices),
        Entry::Pass { k: _ } => {}
        Entry::Dry { d: _ } => {}
        Entry::Joint => {}
        _ => unreachable!(),
    }
}

/// What the entry makes of the coordinator's part and of the devices.
pub fn make(desc: &Desc, lead: &mut LeadPart, devices: &mut [DevPart], e: &Entry)
    requires sound { AreSound desc.now lead.old devices.old }
    requires entry { IsTrue (is_entry_of desc.now e.now) }
    requires kind { is_of_lead e.now ≡ true }
    ensures lead { lead.new ≡ lead_made desc.now lead.old devices.old e.now }
    ensures devices { devices.new ≡ devs_made desc.now lead.old devices.old e.now }
{
    make_lead(desc, lead, devices, e);
    make_devices(desc, devices, e);
}
