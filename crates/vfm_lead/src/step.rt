//! The coordinator's entries as steps: judged first, and made where they break no rule.

ghost use Rattle.std.specs.Prelude.{◌≡◌, ◌<◌, List, None, Some, true, IsTrue, MatchResult, OnErr, OnOk};
ghost use Rattle.vfm_base.specs.Tests.{first_failed};
ghost use Rattle.vfm_types.specs.Valid.{IsValid};
ghost use Rattle.vfm_plain.specs.Legal.{is_entry_of};
ghost use Rattle.vfm_parts.specs.Parts.{Dev};
ghost use Rattle.vfm_parts.specs.Fits.{LeadFits};
ghost use Rattle.vfm_parts.specs.CopyStep.{copied_lead, copy_conditions_in};
ghost use Rattle.vfm_lead.specs.LeadSteps.{AreSound, devs_made, is_copy, is_of_lead, lead_fault, lead_made};

use crate::LeadPart;
use crate::faults::fault;
use crate::make::make;
use crate::pass_faults::copy_fault;
use vfm_device_part::{DevPart, Guard, PagePart};
use vfm_types::{Desc, Entry};

/// Makes an entry of the coordinator on its part and on the devices' parts, all of them, in their order. `Guard` exactly
/// where a condition is false, with the first rule that is broken; all parts are then as before.
///
/// The entry is none of Issue, Deliver, Complete and Copy.
#[inline(never)]
pub fn step_lead(
    desc: &Desc,
    lead: &mut LeadPart,
    devices: &mut [DevPart],
    e: Entry,
) -> Result<(), Guard>
    requires sound { AreSound desc.now lead.old devices.old }
    requires entry { IsTrue (is_entry_of desc.now e) }
    requires kind { is_of_lead e ≡ true }
    ensures guard { MatchResult result (λ _. lead_fault desc.now lead.old devices.old e ≡ None)
        (λ guard. lead_fault desc.now lead.old devices.old e ≡ Some guard.0) }
    ensures lead { OnOk result (lead.new ≡ lead_made desc.now lead.old devices.old e) }
    ensures devices { OnOk result (devices.new ≡ devs_made desc.now lead.old devices.old e) }
    ensures lead_same { OnErr result (lead.new ≡ lead.old) }
    ensures devices_same { OnErr result (devices.new ≡ devices.old) }
{
    if let Some(rule) = fault(desc, lead, devices, &e) {
        return Err(Guard(rule));
    }
    make(desc, lead, devices, &e);
    Ok(())
}

/// Makes a Copy on the coordinator's part and the part of its page, whose bytes are what is copied. `Guard` exactly where
/// a condition is false, with the first rule that is broken; the coordinator's part is then as before.
///
/// The devices play no part in it.
pub fn step_copy(desc: &Desc, lead: &mut LeadPart, _page: &PagePart, e: Entry) -> Result<(), Guard>
    requires valid { IsValid desc.now }
    requires fits { LeadFits desc.now lead.old }
    requires entry { IsTrue (is_entry_of desc.now e) }
    requires kind { is_copy e ≡ true }
    ensures guard { (devs : List Dev) → MatchResult result (λ _. lead_fault desc.now lead.old devs e ≡ None)
        (λ guard. lead_fault desc.now lead.old devs e ≡ Some guard.0) }
    ensures lead { (devs : List Dev) → OnOk result (lead.new ≡ lead_made desc.now lead.old devs e) }
    ensures same { OnErr result (lead.new ≡ lead.old) }
{
    match e {
        Entry::Copy { p } => copy(desc, lead, p),
        _ => unreachable!(),
    }
}

// copies page p of the pass
fn copy(desc: &Desc, lead: &mut LeadPart, p: u32) -> Result<(), Guard>
    requires valid { IsValid desc.now }
    requires fits { LeadFits desc.now lead.old }
    requires page { p < desc.now.pages }
    ensures guard { MatchResult result (λ _. first_failed (copy_conditions_in p lead.old) ≡ None)
        (λ guard. first_failed (copy_conditions_in p lead.old) ≡ Some guard.0) }
    ensures lead { OnOk result (lead.new ≡ copied_lead desc.now p lead.old) }
    ensures same { OnErr result (lead.new ≡ lead.old) }
{
    if let Some(rule) = copy_fault(lead, p) {
        return Err(Guard(rule));
    }
    lead.copy(desc, p);
    Ok(())
}
