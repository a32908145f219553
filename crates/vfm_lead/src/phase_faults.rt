//! Which rule an entry breaks first that begins or ends a phase of the move.

ghost use Rattle.std.specs.Prelude.{◌≡◌};
ghost use Rattle.vfm_base.specs.Tests.{first_failed};
ghost use Rattle.vfm_parts.specs.Fits.{LeadFits};
ghost use Rattle.vfm_parts.specs.AbortStep.{abort_conditions_in};
ghost use Rattle.vfm_parts.specs.BeginStep.{begin_conditions_in};
ghost use Rattle.vfm_parts.specs.JointStep.{joint_conditions_in};
ghost use Rattle.vfm_parts.specs.ResumeStep.{resume_conditions_in};
ghost use Rattle.vfm_lead.specs.LeadSteps.{AreSound, dev_of_list};

use crate::LeadPart;
use crate::devices::{are_all_in_stop_copy, may_begin};
use vfm_device_part::DevPart;
use vfm_types::{Desc, Rule};

/// The first rule that Begin breaks.
pub fn begin_fault(desc: &Desc, lead: &LeadPart, devices: &[DevPart]) -> Option<Rule>
    requires { AreSound desc.now lead.now devices.now }
    ensures { result ≡ first_failed (begin_conditions_in desc.now lead.now (dev_of_list devices.now)) }
{
    if !lead.is_before_move() {
        return Some(Rule::Order);
    }
    if !may_begin(desc, devices) {
        return Some(Rule::Start);
    }
    None
}

/// The first rule that Joint breaks.
pub fn joint_fault(desc: &Desc, lead: &LeadPart, devices: &[DevPart]) -> Option<Rule>
    requires { AreSound desc.now lead.now devices.now }
    ensures { result ≡ first_failed (joint_conditions_in desc.now lead.now (dev_of_list devices.now)) }
{
    if !lead.is_before_joint() {
        return Some(Rule::Order);
    }
    if !are_all_in_stop_copy(desc, devices) {
        return Some(Rule::Joint);
    }
    None
}

/// The first rule that Abort breaks.
pub fn abort_fault(lead: &LeadPart) -> Option<Rule>
    ensures { result ≡ first_failed (abort_conditions_in lead.now) }
{
    if !lead.is_still_source() {
        return Some(Rule::Order);
    }
    None
}

/// The first rule that Resume breaks.
pub fn resume_fault(desc: &Desc, lead: &LeadPart) -> Option<Rule>
    requires { LeadFits desc.now lead.now }
    ensures { result ≡ first_failed (resume_conditions_in desc.now lead.now) }
{
    if !lead.is_on() {
        return Some(Rule::Order);
    }
    if !lead.is_state_copied(desc) {
        return Some(Rule::Joint);
    }
    None
}
