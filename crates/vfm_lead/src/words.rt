//! What the coordinator's part says of the move: the words of its conditions.

ghost use Rattle.std.specs.Prelude.{◌≡◌, ◌<◌, ◌==◌, IfSome};
ghost use Rattle.vfm_base.specs.Least.{all_below};
ghost use Rattle.vfm_types.specs.Desc.{device_count};
ghost use Rattle.vfm_types.specs.Valid.{IsValid};
ghost use Rattle.vfm_plain.specs.Condition.{is_exactly};
ghost use Rattle.vfm_parts.specs.Fits.{LeadFits};
ghost use Rattle.vfm_parts.specs.AbortStep.{is_still_source_in};
ghost use Rattle.vfm_parts.specs.ArcStep.{may_take_arcs_in};
ghost use Rattle.vfm_parts.specs.BeginStep.{is_before_move_in};
ghost use Rattle.vfm_parts.specs.BlockStep.{is_part_due_in};
ghost use Rattle.vfm_parts.specs.CopyStep.{is_copy_due_in};
ghost use Rattle.vfm_parts.specs.JointStep.{is_before_joint_in};
ghost use Rattle.vfm_parts.specs.PartWords.{blocks_left_in, has_reported_in, is_decided_in, is_no_pass_open_in, is_on_in, next_copy_in, next_part_in};
ghost use Rattle.vfm_parts.specs.PassStep.{is_next_pass_in};
ghost use Rattle.vfm_parts.specs.ReportStep.{may_report_log_in};
ghost use Rattle.vfm_parts.specs.ResumeStep.{is_state_copied_in};

use crate::LeadPart;
use vfm_types::{Desc, DeviceId};

impl LeadPart {
    /// Whether the move is on: begun, not given up, not taken over, and no arc failed.
    pub fn is_on(&self) -> bool
        ensures { result ≡ is_on_in self.now }
    {
        self.begun() && !self.aborted() && !self.resumed() && !self.failed()
    }

    /// The least page of the newest pass that is yet to be copied.
    pub fn next_copy(&self) -> Option<u32>
        ensures { result ≡ next_copy_in self.now }
    {
        self.left().least_from(0)
    }

    /// The least device whose part in the newest pass hasn't ended.
    pub fn next_part(&self, desc: &Desc) -> Option<DeviceId>
        requires { LeadFits desc.now self.now }
        ensures value { result ≡ next_part_in desc.now self.now }
        ensures inside { IfSome result (λ d. d < device_count desc.now) }
    {
        self.parts().least()
    }

    /// Whether the newest pass has ended.
    pub fn is_no_pass_open(&self, desc: &Desc) -> bool
        requires { LeadFits desc.now self.now }
        ensures { result ≡ is_no_pass_open_in desc.now self.now }
    {
        self.next_copy().is_none() && self.next_part(desc).is_none()
    }

    /// Whether device `d` has reported since the newest pass began.
    pub fn has_reported(&self, desc: &Desc, d: DeviceId) -> bool
        requires fits { LeadFits desc.now self.now }
        requires device { d < device_count desc.now }
        ensures { result ≡ has_reported_in self.now d }
    {
        self.reported().has(d)
    }

    /// Whether every device has.
    pub(crate) fn have_all_reported(&self, desc: &Desc) -> bool
        requires { LeadFits desc.now self.now }
        ensures { result ≡ all_below (device_count desc.now) (λ d. has_reported_in self.now d) }
    {
        self.reported().are_all()
    }

    /// Whether it is decided that the devices are to stop.
    pub fn is_decided(&self, desc: &Desc) -> bool
        requires { LeadFits desc.now self.now }
        ensures { result ≡ is_decided_in desc.now self.now }
    {
        let enough = desc.rounds <= self.passes() || self.set().len() <= desc.threshold;
        desc.rounds == 0 || self.passes() > 0 && self.is_no_pass_open(desc) && enough
    }

    // ---- the tests of conditions that ask nothing of a device

    // the move was neither given up nor taken over
    pub(crate) fn is_still_source(&self) -> bool
        ensures { result ≡ is_still_source_in self.now }
    {
        !self.aborted() && !self.resumed()
    }

    // the move hasn't begun, and was neither given up nor taken over
    pub(crate) fn is_before_move(&self) -> bool
        ensures { result ≡ is_before_move_in self.now }
    {
        !self.begun() && !self.aborted() && !self.resumed()
    }

    // the move is on, and not every device was found in STOP_COPY yet
    pub(crate) fn is_before_joint(&self) -> bool
        ensures { result ≡ is_before_joint_in self.now }
    {
        self.is_on() && !self.joint()
    }

    // arcs are made before Joint while the move is on, and after it was given up or taken over
    pub(crate) fn may_take_arcs(&self) -> bool
        ensures { result ≡ may_take_arcs_in self.now }
    {
        self.is_on() && !self.joint() || self.aborted() || self.resumed()
    }

    // the whole state was copied
    pub(crate) fn is_state_copied(&self, desc: &Desc) -> bool
        requires { LeadFits desc.now self.now }
        ensures { result ≡ is_state_copied_in desc.now self.now }
    {
        self.joint() && self.last() && self.is_no_pass_open(desc)
    }

    // page p is the least of the pass that isn't copied yet
    pub(crate) fn is_copy_due(&self, p: u32) -> bool
        ensures { result ≡ is_copy_due_in p self.now }
    {
        match self.next_copy() {
            Some(due) => due == p,
            None => false,
        }
    }

    // every page of the pass is copied, and device d is the least whose part hasn't ended
    pub(crate) fn is_part_due(&self, desc: &Desc, d: DeviceId) -> bool
        requires { LeadFits desc.now self.now }
        ensures { result ≡ is_part_due_in desc.now d self.now }
    {
        self.next_copy().is_none() && is_device(d, self.next_part(desc))
    }

    // device d may report its log
    pub(crate) fn may_report(&self, desc: &Desc, d: DeviceId) -> bool
        requires fits { LeadFits desc.now self.now }
        requires device { d < device_count desc.now }
        ensures { result ≡ may_report_log_in desc.now d self.now }
    {
        let wanted = if self.joint() {
            !self.last()
        } else {
            !self.is_decided(desc)
        };
        self.passes() > 0 && self.is_no_pass_open(desc) && !self.has_reported(desc, d) && wanted
    }

    // pass k is the next, the one before has ended, and each device has reported since that began
    pub(crate) fn is_next_pass(&self, desc: &Desc, k: u32) -> bool
        requires valid { IsValid desc.now }
        requires fits { LeadFits desc.now self.now }
        ensures { result ≡ is_next_pass_in desc.now k self.now }
    {
        k == self.passes() + 1
            && self.is_no_pass_open(desc)
            && (k <= 1 || self.have_all_reported(desc))
    }
}

// whether the device, if there is one, is device d
fn is_device(d: DeviceId, due: Option<DeviceId>) -> bool
    ensures { result ≡ is_exactly d due }
{
    match due {
        Some(due) => due.0 == d.0,
        None => false,
    }
}
