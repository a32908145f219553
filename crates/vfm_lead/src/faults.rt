//! Which rule an entry of the coordinator breaks first.

ghost use Rattle.std.specs.Prelude.{◌≡◌, true, IsTrue};
ghost use Rattle.vfm_plain.specs.Legal.{is_entry_of};
ghost use Rattle.vfm_lead.specs.LeadSteps.{AreSound, is_of_lead, lead_fault};

use crate::LeadPart;
use crate::arc_faults::{arc_fault, fail_fault, hold_fault};
use crate::pass_faults::{block_fault, dry_fault, pass_fault, report_fault};
use crate::phase_faults::{abort_fault, begin_fault, joint_fault, resume_fault};
use vfm_device_part::DevPart;
use vfm_types::{Desc, Entry, Rule};

/// The first rule that the entry breaks.
pub fn fault(desc: &Desc, lead: &LeadPart, devices: &[DevPart], e: &Entry) -> Option<Rule>
    requires sound { AreSound desc.now lead.now devices.now }
    requires entry { IsTrue (is_entry_of desc.now e.now) }
    requires kind { is_of_lead e.now ≡ true }
    ensures { result ≡ lead_fault desc.now lead.now devices.now e.now }
{
    match *e {
        Entry::Hold { d, to } => hold_fault(desc, lead, devices, d, to),
        Entry::Arc { d, to } => arc_fault(desc, lead, devices, d, to),
        Entry::Fail { d, to } => fail_fault(desc, lead, devices, d, to),
        Entry::Report { d } => report_fault(desc, lead, d),
        Entry::Pass { k } => pass_fault(desc, lead, devices, k),
        Entry::Block { d, b } => block_fault(desc, lead, devices, d, b),
        Entry::Dry { d } => dry_fault(desc, lead, devices, d),
        Entry::Begin => begin_fault(desc, lead, devices),
        Entry::Joint => joint_fault(desc, lead, devices),
        Entry::Abort => abort_fault(lead),
        Entry::Resume => resume_fault(desc, lead),
        _ => unreachable!(),
    }
}
