//! The coordinator's entries, each on its own cell, the devices' and, where a page is copied, that page's.

ghost use Rattle.std.specs.Prelude.{◌≡◌, List, ℕ, None, Some, true, IsTrue, MatchResult, OnErr, OnOk};
ghost use Rattle.vfm_plain.specs.Legal.{is_entry_of};
ghost use Rattle.vfm_lead.specs.LeadSteps.{AreSound, is_copy, is_of_lead, lead_fault};
ghost use Rattle.vfm_cell_steps.specs.Made.{IsStepTo, group};

use vfm_device_part::{DevPart, Guard, PagePart};
use vfm_lead::{LeadPart, step_copy, step_lead};
use vfm_types::{Desc, Entry};

/// Makes an entry of the coordinator on its part and on the devices' parts, all of them, in their order.
///
/// `Guard` exactly where the entry breaks a rule, with the first one; all parts are then as before. The entry is none of
/// Issue, Deliver, Complete and Copy. Takes no memory.
pub fn step_group(
    desc: &Desc,
    lead: &mut LeadPart,
    devices: &mut [DevPart],
    e: Entry,
) -> Result<(), Guard>
    requires sound { AreSound desc.now lead.old devices.old }
    requires entry { IsTrue (is_entry_of desc.now e) }
    requires kind { is_of_lead e ≡ true }
    ensures guard { MatchResult result (λ _. lead_fault desc.now lead.old devices.old e ≡ None)
        (λ guard. lead_fault desc.now lead.old devices.old e ≡ Some guard.0) }
    ensures step { (bytes : List ℕ)
        → OnOk result (IsStepTo desc.now e (group desc.now lead.old devices.old bytes) (group desc.now lead.new devices.new bytes)) }
    ensures sound { AreSound desc.now lead.new devices.new }
    ensures same { OnErr result ((lead.new ≡ lead.old) × (devices.new ≡ devices.old)) }
{
    step_lead(desc, lead, devices, e)
}

/// Makes a Copy on the coordinator's part, the devices', which play no part in it, and the part of its page, whose bytes are
/// what is copied.
///
/// `Guard` exactly where the entry breaks a rule, with the first one; all parts are then as before. Takes no memory.
pub fn step_copied(
    desc: &Desc,
    lead: &mut LeadPart,
    devices: &[DevPart],
    page: &PagePart,
    e: Entry,
) -> Result<(), Guard>
    requires sound { AreSound desc.now lead.old devices.now }
    requires entry { IsTrue (is_entry_of desc.now e) }
    requires kind { is_copy e ≡ true }
    ensures guard { MatchResult result (λ _. lead_fault desc.now lead.old devices.now e ≡ None)
        (λ guard. lead_fault desc.now lead.old devices.now e ≡ Some guard.0) }
    ensures step { (bytes : List ℕ)
        → OnOk result (IsStepTo desc.now e (group desc.now lead.old devices.now bytes) (group desc.now lead.new devices.now bytes)) }
    ensures sound { AreSound desc.now lead.new devices.now }
    ensures same { OnErr result (lead.new ≡ lead.old) }
{
    step_copy(desc, lead, page, e)
}
