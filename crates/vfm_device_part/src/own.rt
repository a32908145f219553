//! Issues and completions: what a device does on its own part alone.

ghost use Rattle.std.specs.Prelude.{◌≡◌, ◌+◌, ◌<◌, None, Some, true, length, IfSome, IsTrue, MatchResult, OnErr, OnOk};
ghost use Rattle.vfm_base.specs.Tests.{first_failed};
ghost use Rattle.vfm_types.specs.Desc.{device_count, job_at, shape_at};
ghost use Rattle.vfm_types.specs.Outstanding.{complete_if, is_arrived, outstanding_job_or_zero};
ghost use Rattle.vfm_types.specs.Job.{length_of, place_of};
ghost use Rattle.vfm_plain.specs.Shape.{Lies};
ghost use Rattle.vfm_types.specs.Valid.{IsValid, is_job_in_range};
ghost use Rattle.vfm_parts.specs.Fits.{DevFits};
ghost use Rattle.vfm_parts.specs.IssueStep.{issue_conditions_in, issued_dev};
ghost use Rattle.vfm_parts.specs.CompleteStep.{complete_conditions_in, completed_dev};
ghost use Rattle.vfm_dirty.specs.LogOfParts.{IsPageOf, log_of, page_in, with_log, with_page_marked, written_page};

use crate::part::DevPart;
use vfm_device::job_at;
use vfm_types::{Desc, DeviceId, Region, Rule};

impl DevPart {
    /// Puts request `n` of device `d`, whose part this is, on the bus; the first rule that bars it, exactly where one does,
    /// and then the part is as before.
    pub(crate) fn issue(&mut self, desc: &Desc, d: DeviceId, n: u32) -> Result<(), Rule>
        requires valid { IsValid desc.now }
        requires device { d < device_count desc.now }
        requires fits { DevFits desc.now d self.old }
        ensures guard { MatchResult result (λ _. first_failed (issue_conditions_in desc.now d n self.old) ≡ None)
            (λ rule. first_failed (issue_conditions_in desc.now d n self.old) ≡ Some rule) }
        ensures done { OnOk result (self.new ≡ issued_dev n self.old) }
        ensures same { OnErr result (self.new ≡ self.old) }
        ensures fits { DevFits desc.now d self.new }
    {
        if let Some(rule) = self.issue_fault(desc, d, n) {
            return Err(rule);
        }
        self.put_on_bus(desc, d, n);
        Ok(())
    }

    // the first rule that bars the issue of request n
    fn issue_fault(&self, desc: &Desc, d: DeviceId, n: u32) -> Option<Rule>
        requires valid { IsValid desc.now }
        requires device { d < device_count desc.now }
        requires fits { DevFits desc.now d self.now }
        ensures { result ≡ first_failed (issue_conditions_in desc.now d n self.now) }
    {
        let freely = self.may_issue_freely();
        self.engine.issue_fault(desc, d, freely, n)
    }

    // puts request n, which may be issued, on the bus
    fn put_on_bus(&mut self, desc: &Desc, d: DeviceId, n: u32)
        requires valid { IsValid desc.now }
        requires device { d < device_count desc.now }
        requires fits { DevFits desc.now d self.old }
        requires allowed { first_failed (issue_conditions_in desc.now d n self.old) ≡ None }
        ensures { self.new ≡ issued_dev n self.old }
    {
        self.engine.issue(n);
    }

    /// Takes request `n` of device `d`, whose part this is, off the bus, and marks the page that it wrote while the log is
    /// started; `Turn` exactly where that wasn't delivered, and then the part is as before.
    pub(crate) fn complete(&mut self, desc: &Desc, d: DeviceId, n: u32) -> Result<(), Rule>
        requires valid { IsValid desc.now }
        requires device { d < device_count desc.now }
        requires fits { DevFits desc.now d self.old }
        ensures guard { MatchResult result (λ _. first_failed (complete_conditions_in n self.old) ≡ None)
            (λ rule. first_failed (complete_conditions_in n self.old) ≡ Some rule) }
        ensures done { OnOk result (self.new ≡ completed_dev desc.now d n self.old) }
        ensures same { OnErr result (self.new ≡ self.old) }
        ensures fits { DevFits desc.now d self.new }
    {
        if !self.engine.is_arrived(n) {
            return Err(Rule::Turn);
        }
        self.take_off_bus(desc, d, n);
        Ok(())
    }

    // takes request n, which was delivered, off the bus, and marks the page that it wrote
    fn take_off_bus(&mut self, desc: &Desc, d: DeviceId, n: u32)
        requires valid { IsValid desc.now }
        requires device { d < device_count desc.now }
        requires fits { DevFits desc.now d self.old }
        requires arrived { is_arrived n self.old.requests ≡ true }
        ensures { self.new ≡ completed_dev desc.now d n self.old }
    {
        let page = self.page_written(desc, d, n);
        self.mark(page);
        self.count_completed(n);
    }

    // the page that the job of request n, which is on the bus, writes, if it writes one
    fn page_written(&self, desc: &Desc, d: DeviceId, n: u32) -> Option<u32>
        requires valid { IsValid desc.now }
        requires device { d < device_count desc.now }
        requires fits { DevFits desc.now d self.now }
        requires arrived { is_arrived n self.now.requests ≡ true }
        ensures value { result ≡ written_page desc.now (job_at desc.now d (outstanding_job_or_zero n self.now.requests)) }
        ensures inside { IsPageOf desc.now result }
    {
        page_written(desc, d, self.job_on_bus(n))
    }

    // the number of the job of request n, which was delivered
    fn job_on_bus(&self, n: u32) -> u32
        requires { is_arrived n self.now.requests ≡ true }
        ensures { result ≡ outstanding_job_or_zero n self.now.requests }
    {
        self.engine.job_on_bus(n)
    }

    // marks the page, if there is one, while the log is started
    fn mark(&mut self, page: Option<u32>)
        requires { IfSome page (λ p. p < 1024) }
        ensures { self.new ≡ with_log (with_page_marked page (log_of self.old)) self.old }
    {
        if let Some(p) = page {
            self.log.mark(p);
        }
    }

    // takes request n off the bus and counts it as completed
    fn count_completed(&mut self, n: u32)
        requires { self.old.completes < 4294967295 }
        ensures { self.new ≡ record self.old {
          requests = complete_if true n self.old.requests;
          completes = self.old.completes + 1;
        } }
    {
        self.engine.complete(n);
    }
}

// The page that job `j` of a device writes, if it writes one.
fn page_written(desc: &Desc, d: DeviceId, j: u32) -> Option<u32>
    requires valid { IsValid desc.now }
    requires device { d < device_count desc.now }
    requires job { j < length (shape_at desc.now d).jobs }
    ensures value { result ≡ written_page desc.now (job_at desc.now d j) }
    ensures inside { IsPageOf desc.now result }
{
    let job = job_at(desc, d, j);
    if !job.is_writer() {
        return None;
    }
    page_in(desc.place_of(job).region)
}

// The page that the region is, if it is one.
fn page_in(region: Region) -> Option<u32>
    ensures { result ≡ page_in region }
{
    match region {
        Region::Page(p) => Some(p),
        Region::Bar(_) => None,
    }
}
