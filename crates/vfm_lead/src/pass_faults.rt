//! Which rule an entry of a copying pass breaks first.

ghost use Rattle.std.specs.Prelude.{◌≡◌, ◌<◌};
ghost use Rattle.vfm_base.specs.Tests.{first_failed};
ghost use Rattle.vfm_types.specs.Desc.{device_count};
ghost use Rattle.vfm_plain.specs.Condition.{is_exactly};
ghost use Rattle.vfm_parts.specs.Fits.{LeadFits};
ghost use Rattle.vfm_parts.specs.BlockStep.{block_conditions_in, is_block_due_in};
ghost use Rattle.vfm_parts.specs.CopyStep.{copy_conditions_in};
ghost use Rattle.vfm_parts.specs.DryStep.{dry_conditions_in, is_dry_due_in};
ghost use Rattle.vfm_parts.specs.PassStep.{is_pass_wanted_in, pass_conditions_in};
ghost use Rattle.vfm_parts.specs.ReportStep.{report_conditions_in};
ghost use Rattle.vfm_lead.specs.LeadSteps.{AreSound, dev_of_list};

use crate::LeadPart;
use crate::devices::{device, have_entered_pre_copy};
use vfm_device_part::DevPart;
use vfm_types::{Desc, DeviceId, Rule};

/// The first rule that the report of device `d` breaks.
pub fn report_fault(desc: &Desc, lead: &LeadPart, d: DeviceId) -> Option<Rule>
    requires fits { LeadFits desc.now lead.now }
    requires device { d < device_count desc.now }
    ensures { result ≡ first_failed (report_conditions_in desc.now d lead.now) }
{
    if !lead.is_on() {
        return Some(Rule::Order);
    }
    if !lead.may_report(desc, d) {
        return Some(Rule::Pages);
    }
    None
}

// a pass is wanted: the last one after Joint; before it one more, the first once each device with PRE_COPY stands in it
fn is_pass_wanted(desc: &Desc, lead: &LeadPart, devices: &[DevPart], k: u32) -> bool
    requires { AreSound desc.now lead.now devices.now }
    ensures { result ≡ is_pass_wanted_in desc.now k lead.now (dev_of_list devices.now) }
{
    if lead.joint() {
        return !lead.last();
    }
    !lead.is_decided(desc) && (k != 1 || have_entered_pre_copy(desc, devices))
}

/// The first rule that pass `k` breaks.
pub fn pass_fault(desc: &Desc, lead: &LeadPart, devices: &[DevPart], k: u32) -> Option<Rule>
    requires { AreSound desc.now lead.now devices.now }
    ensures { result ≡ first_failed (pass_conditions_in desc.now k lead.now (dev_of_list devices.now)) }
{
    if !lead.is_on() {
        return Some(Rule::Order);
    }
    if !lead.is_next_pass(desc, k) {
        return Some(Rule::Pages);
    }
    if !is_pass_wanted(desc, lead, devices, k) {
        return Some(Rule::Decide);
    }
    None
}

/// The first rule that the copying of page `p` breaks.
pub fn copy_fault(lead: &LeadPart, p: u32) -> Option<Rule>
    ensures { result ≡ first_failed (copy_conditions_in p lead.now) }
{
    if !lead.is_on() {
        return Some(Rule::Order);
    }
    if !lead.is_copy_due(p) {
        return Some(Rule::Pages);
    }
    None
}

// block b of device d is due: it is the device's part, and b is the block that it reads next
fn is_block_due(desc: &Desc, lead: &LeadPart, device: &DevPart, d: DeviceId, b: u32) -> bool
    requires { LeadFits desc.now lead.now }
    ensures { result ≡ is_block_due_in desc.now d b lead.now device.now }
{
    lead.is_part_due(desc, d) && is_block(b, device.next_block())
}

// the block, if there is one, is block b
fn is_block(b: u32, next: Option<u32>) -> bool
    ensures { result ≡ is_exactly b next }
{
    match next {
        Some(next) => next == b,
        None => false,
    }
}

/// The first rule that the reading of block `b` of device `d` breaks.
pub fn block_fault(
    desc: &Desc,
    lead: &LeadPart,
    devices: &[DevPart],
    d: DeviceId,
    b: u32,
) -> Option<Rule>
    requires sound { AreSound desc.now lead.now devices.now }
    requires device { d < device_count desc.now }
    ensures { result ≡ first_failed (block_conditions_in desc.now d b lead.now (dev_of_list devices.now d)) }
{
    if !lead.is_on() {
        return Some(Rule::Order);
    }
    if !is_block_due(desc, lead, device(devices, d), d, b) {
        return Some(Rule::Blocks);
    }
    None
}

// device d is due, and has no block to read
fn is_dry_due(desc: &Desc, lead: &LeadPart, device: &DevPart, d: DeviceId) -> bool
    requires { LeadFits desc.now lead.now }
    ensures { result ≡ is_dry_due_in desc.now d lead.now device.now }
{
    lead.is_part_due(desc, d) && device.next_block().is_none()
}

/// The first rule that is broken by the word that device `d` has no block to read.
pub fn dry_fault(desc: &Desc, lead: &LeadPart, devices: &[DevPart], d: DeviceId) -> Option<Rule>
    requires sound { AreSound desc.now lead.now devices.now }
    requires device { d < device_count desc.now }
    ensures { result ≡ first_failed (dry_conditions_in desc.now d lead.now (dev_of_list devices.now d)) }
{
    if !lead.is_on() {
        return Some(Rule::Order);
    }
    if !is_dry_due(desc, lead, device(devices, d), d) {
        return Some(Rule::Blocks);
    }
    None
}
