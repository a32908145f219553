//! Which steps of a device are allowed now, and which of them a number picks.

ghost use Rattle.std.specs.Prelude.{◌≡◌, ◌+◌, ◌++◌, ◌<◌, ◌≤◌, None, Some, true, is_some, length, IfNone, IfSome};
ghost use Rattle.vfm_types.specs.Desc.{device_count};
ghost use Rattle.vfm_types.specs.Valid.{IsValid};
ghost use Rattle.vfm_plain.specs.IssueRules.{first_number};
ghost use Rattle.vfm_parts.specs.Fits.{DevFits};
ghost use Rattle.vfm_parts_laws.specs.LooksIn.{issue_barred_in, unissued_in};
ghost use Rattle.vfm_device.specs.Bus.{number_at};
ghost use Rattle.vfm_device_part.specs.Pick.{completions, deliveries, enabled_steps, entry_at, issue_if_allowed, picked};

use crate::part::DevPart;
use vfm_types::{Desc, DeviceId, Entry};

impl DevPart {
    /// One of the steps of device `d`, whose part this is, that are allowed now: completions, deliveries (both in the order
    /// of issue), then the next issue; of these the one at place `pick` modulo their number, from 0. `None` exactly where
    /// none is allowed.
    pub fn pick(&self, desc: &Desc, d: DeviceId, pick: u32) -> Option<Entry>
        requires valid { IsValid desc.now }
        requires device { d < device_count desc.now }
        requires fits { DevFits desc.now d self.now }
        ensures { result ≡ picked (enabled_steps desc.now d self.now) pick }
    {
        let (delivered, waiting) = self.on_bus(desc, d);
        if pick < delivered + waiting {
            return self.step_on_bus(d, delivered, pick);
        }
        let (issue, issues) = self.issue_step(desc, d);
        let count = delivered + waiting + issues;
        if count == 0 {
            return None;
        }
        let k = pick % count;
        if k < delivered + waiting {
            return self.step_on_bus(d, delivered, k);
        }
        issue
    }

    // the completion or delivery at place k of those that are allowed, where so many are completions
    fn step_on_bus(&self, d: DeviceId, delivered: u32, k: u32) -> Option<Entry>
        requires { delivered ≡ length (completions d self.now.requests) }
        ensures { result ≡ entry_at (completions d self.now.requests ++ deliveries d self.now.requests) k }
    {
        if k < delivered {
            return self.completion_at(d, k);
        }
        self.delivery_at(d, k - delivered)
    }

    // how many completions and how many deliveries are allowed
    fn on_bus(&self, desc: &Desc, d: DeviceId) -> (u32, u32)
        requires valid { IsValid desc.now }
        requires device { d < device_count desc.now }
        requires fits { DevFits desc.now d self.now }
        ensures completions { result.0 ≡ length (completions d self.now.requests) }
        ensures deliveries { result.1 ≡ length (deliveries d self.now.requests) }
        ensures few { result.0 + result.1 ≤ 8 }
    {
        self.engine.on_bus()
    }

    // the allowed completion at place k of them, if there is one
    fn completion_at(&self, d: DeviceId, k: u32) -> Option<Entry>
        ensures { result ≡ entry_at (completions d self.now.requests) k }
    {
        match self.number_at(true, k) {
            Some(n) => Some(Entry::Complete { d, n }),
            None => None,
        }
    }

    // the allowed delivery at place k of them, if there is one
    fn delivery_at(&self, d: DeviceId, k: u32) -> Option<Entry>
        ensures { result ≡ entry_at (deliveries d self.now.requests) k }
    {
        match self.number_at(false, k) {
            Some(n) => Some(Entry::Deliver { d, n }),
            None => None,
        }
    }

    // the number of the k-th request on the bus that was delivered, or that wasn't
    fn number_at(&self, delivered: bool, k: u32) -> Option<u32>
        ensures { result ≡ number_at delivered self.now.requests k }
    {
        self.engine.number_at(delivered, k)
    }

    #[tactic(auto, using(crate::proofs::Picks::issue_none, crate::proofs::Picks::issue_some))]
    // the issue of the next request, if it is allowed, and how many that are
    fn issue_step(&self, desc: &Desc, d: DeviceId) -> (Option<Entry>, u32)
        requires valid { IsValid desc.now }
        requires device { d < device_count desc.now }
        requires fits { DevFits desc.now d self.now }
        ensures step { result.0 ≡ entry_at (issue_if_allowed desc.now d self.now) 0 }
        ensures count { result.1 ≡ length (issue_if_allowed desc.now d self.now) }
        ensures few { result.1 ≤ 1 }
    {
        match self.next_to_issue(desc, d) {
            Some(n) => (Some(Entry::Issue { d, n }), 1),
            None => (None, 0),
        }
    }

    // the number of the request that may be issued now, if one may
    fn next_to_issue(&self, desc: &Desc, d: DeviceId) -> Option<u32>
        requires valid { IsValid desc.now }
        requires device { d < device_count desc.now }
        requires fits { DevFits desc.now d self.now }
        ensures number { IfSome result (λ n. first_number (unissued_in self.now) ≡ Some n) }
        ensures allowed { IfSome result (λ _. issue_barred_in desc.now d self.now ≡ None) }
        ensures barred { IfNone result (is_some (issue_barred_in desc.now d self.now) ≡ true) }
    {
        let freely = self.may_issue_freely();
        self.engine.next_to_issue(desc, d, freely)
    }
}
