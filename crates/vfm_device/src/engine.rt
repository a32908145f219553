//! The engine of one device.

ghost use Rattle.std.specs.Prelude.{◌≡◌, ◌<◌, ◌≤◌, ◌+◌, ◌&&◌, ◌||◌, not, Bool, None, Some, true, length, is_some, nat_lt, IfOk, IfErr, IfSome, IfNone, MatchResult};
ghost use Rattle.vfm_base.specs.Tests.{first_failed};
ghost use Rattle.vfm_types.specs.Desc.{device_count, job_at, shape_at};
ghost use Rattle.vfm_laws.specs.Queues.{is_listed};
ghost use Rattle.vfm_plain.specs.IssueRules.{first_number};
ghost use Rattle.vfm_types.specs.Outstanding.{delivered_count, is_arrived, is_outstanding, is_undelivered, outstanding_job_or_zero, undelivered_count};
ghost use Rattle.vfm_types.specs.Requests.{fences, job_or_zero};
ghost use Rattle.vfm_types.specs.Words.{has_barred, has_fence, is_nothing};
ghost use Rattle.vfm_parts.specs.IssueStep.{is_next_to_issue_in, issue_conditions_in};
ghost use Rattle.vfm_parts.specs.PartWords.{is_job_allowed_in};
ghost use Rattle.vfm_types.specs.Valid.{IsValid};
ghost use Rattle.vfm_device.specs.Bus.{number_at, outstanding_at};
ghost use Rattle.vfm_device.specs.EngineState.{EngineKept, NextIs, barred_by, described_engine, first_item, is_accepted, job_of_request, look_in, part_of, staged_engine, unissued_in, with_arc, with_completed, with_delivered, with_failed_arc, with_front_put, with_hold, with_issued, with_no_hold, with_resumed, with_rung};

use crate::bus::Bus;
use crate::queue::{Queue, place_of};
use crate::turn::{is_allowed, item_at, job_at, shape_at};
use std::alloc::Global;
use std::marker::Model;
use vfm_plain::put_bytes;
use vfm_types::{Desc, DevLook, DeviceId, MigState, NoMemory, Rule};

/// Nothing can be issued now; what can be seen of the device says why.
#[derive(Clone, Copy, Debug)]
pub struct Blocked(pub DevLook);

/// The engine of one device: everything of it but its BARs and its dirty log. Seen as the value of that name.
///
/// Only `of` and `staged` take memory: there is room for the largest budget and for the widest window.
#[derive(Drop)]
pub struct Engine {
    queue: Queue,
    lost: u32,
    buf: [u8; 64],
    bus: Bus,
    state: MigState,
    hold: Option<MigState>,
    issues: u32,
    completes: u32,
    arcs: u32,
}

impl Model for Engine {
    ghost use Rattle.vfm_device.specs.EngineState.{EngineState};

    ghost Value = { EngineState };

    ghost view = { λ e. record {
      pending = e.queue.pending;
      accepted = e.queue.accepted;
      done = e.queue.done;
      lost = e.lost;
      buf = e.buf;
      requests = e.bus;
      state = e.state;
      hold = e.hold;
      issues = e.issues;
      completes = e.completes;
      arcs = e.arcs;
    } };
}

impl Engine {
    /// The engine of device `d` as described: `RUNNING`, the requests of its queue pending.
    pub fn of(alloc: Global, desc: &Desc, d: DeviceId) -> Result<Engine, NoMemory>
        requires valid { IsValid desc.now }
        requires device { d < device_count desc.now }
        ensures { IfOk result (λ engine. engine ≡ described_engine (shape_at desc.now d)) }
    {
        let shape = desc.devices.at(u32::from(d.0));
        Ok(Engine {
            queue: Queue::described(alloc, shape.queue.as_slice())?,
            lost: 0,
            buf: [0; 64],
            bus: Bus::of(alloc)?,
            state: MigState::Running,
            hold: None,
            issues: 0,
            completes: 0,
            arcs: 0,
        })
    }

    /// An engine in `STOP_COPY`, with so many requests accepted, done and lost (`counts`), these pending,
    /// this buffer, and nothing on the bus.
    pub fn staged(
        alloc: Global,
        counts: (u32, u32, u32),
        pending: &[(u32, u32)],
        buf: &[u8; 64],
    ) -> Result<Engine, NoMemory>
        requires accepted { counts.0 ≡ counts.1 + length pending.now }
        requires few { counts.0 ≤ 50000 }
        ensures { IfOk result (λ engine. engine ≡ staged_engine counts.1 counts.2 pending.now buf.now) }
    {
        Ok(Engine {
            queue: Queue::of(alloc, counts.1, pending)?,
            lost: counts.2,
            buf: *buf,
            bus: Bus::of(alloc)?,
            state: MigState::StopCopy,
            hold: None,
            issues: 0,
            completes: 0,
            arcs: 0,
        })
    }

    // the next request to be issued, if one is left: its number and the number of its job
    fn next_request(&self, desc: &Desc, d: DeviceId) -> Option<(u32, u32)>
        requires { EngineKept desc.now d self.now }
        ensures value { result ≡ first_item (unissued_in self.now) }
        ensures next { IfSome result (NextIs desc.now d self.now) }
    {
        let waiting = self.bus.undelivered();
        item_at(self.queue.pending(), waiting as usize)
    }

    // how many requests are yet to be issued
    fn unissued_count(&self, desc: &Desc, d: DeviceId) -> u32
        requires { EngineKept desc.now d self.now }
        ensures { result ≡ length (unissued_in self.now) }
    {
        self.queue.count() - self.bus.undelivered()
    }

    // whether it is the turn of a request for this job
    fn has_turn(&self, desc: &Desc, d: DeviceId, job: u32) -> bool
        requires kept { EngineKept desc.now d self.now }
        requires job { job < length (shape_at desc.now d).jobs }
        ensures { result ≡ (nat_lt (length self.now.requests) (shape_at desc.now d).window
            && not (has_fence desc.now d self.now.requests)
            && (not (fences desc.now d job) || is_nothing self.now.requests)) }
    {
        let shape = shape_at(desc, d);
        let count = self.bus.len();
        let alone = !shape.jobs.at(job).is_fence() || count == 0;
        count < shape.window as usize && !self.bus.has_fence(&shape.jobs) && alone
    }

    // whether a request for this job may be issued at the device's level
    fn is_allowed(&self, desc: &Desc, d: DeviceId, job: u32) -> bool
        requires valid { IsValid desc.now }
        requires kept { EngineKept desc.now d self.now }
        requires job { job < length (shape_at desc.now d).jobs }
        ensures { (begun : Bool) → result ≡ is_job_allowed_in desc.now d (job_at desc.now d job) (part_of begun self.now) }
    {
        let level = self.hold.unwrap_or(self.state);
        is_allowed(desc, d, job_at(desc, d, job), level)
    }

    // whether it may issue at this time
    fn may_start(&self, desc: &Desc, begun: bool) -> bool
        ensures { result ≡ (begun || nat_lt self.now.issues desc.now.begin) }
    {
        begun || self.issues < desc.begin
    }

    // the first rule that bars the next issue
    fn barred_by(&self, desc: &Desc, d: DeviceId, begun: bool) -> Option<Rule>
        requires valid { IsValid desc.now }
        requires kept { EngineKept desc.now d self.now }
        ensures { result ≡ barred_by desc.now d begun self.now }
    {
        match self.next_request(desc, d) {
            Some(request) => self.barred_for(desc, d, begun, request),
            None => Some(Rule::Turn),
        }
    }

    // the same, where this is the next request
    fn barred_for(&self, desc: &Desc, d: DeviceId, begun: bool, request: (u32, u32)) -> Option<Rule>
        requires valid { IsValid desc.now }
        requires kept { EngineKept desc.now d self.now }
        requires next { NextIs desc.now d self.now request }
        ensures { result ≡ barred_by desc.now d begun self.now }
    {
        if !self.has_turn(desc, d, request.1) {
            return Some(Rule::Turn);
        }
        if !self.is_allowed(desc, d, request.1) {
            return Some(Rule::Barred);
        }
        if !self.may_start(desc, begun) {
            return Some(Rule::Start);
        }
        None
    }

    /// The first rule that bars the issue of request `n` of device `d`. `begun` says that Begin, Abort or Resume was made.
    pub fn issue_fault(&self, desc: &Desc, d: DeviceId, begun: bool, n: u32) -> Option<Rule>
        requires valid { IsValid desc.now }
        requires kept { EngineKept desc.now d self.now }
        ensures { result ≡ first_failed (issue_conditions_in desc.now d n (part_of begun self.now)) }
    {
        match self.next_request(desc, d) {
            Some(request) if request.0 == n => self.barred_for(desc, d, begun, request),
            _ => Some(Rule::Turn),
        }
    }

    /// What can be seen of the device. `begun` says that Begin, Abort or Resume was made.
    pub fn look(&self, desc: &Desc, d: DeviceId, begun: bool) -> DevLook
        requires valid { IsValid desc.now }
        requires kept { EngineKept desc.now d self.now }
        ensures { result ≡ look_in desc.now d begun self.now }
    {
        DevLook {
            state: self.state,
            held: self.hold,
            unissued: self.unissued_count(desc, d),
            undelivered: self.bus.undelivered(),
            delivered: self.bus.delivered(),
            issued: self.issues,
            completes: self.completes,
            arcs: self.arcs,
            blocked: self.barred_by(desc, d, begun),
        }
    }

    /// The number of the request that may be issued now, exactly where no rule bars the next issue. `begun` says that
    /// Begin, Abort or Resume was made.
    #[tactic(auto, using(crate::proofs::Turns::turn_of_unbarred))]
    pub fn next_to_issue(&self, desc: &Desc, d: DeviceId, begun: bool) -> Option<u32>
        requires valid { IsValid desc.now }
        requires kept { EngineKept desc.now d self.now }
        ensures number { IfSome result (λ n. first_number (unissued_in self.now) ≡ Some n) }
        ensures turn { IfSome result (λ n. is_next_to_issue_in desc.now d n (part_of begun self.now) ≡ true) }
        ensures allowed { IfSome result (λ _. barred_by desc.now d begun self.now ≡ None) }
        ensures barred { IfNone result (is_some (barred_by desc.now d begun self.now) ≡ true) }
    {
        match self.next_request(desc, d) {
            Some(request) if self.barred_for(desc, d, begun, request).is_none() => Some(request.0),
            _ => None,
        }
    }

    /// The same, but that where a rule bars it the answer is what can be seen of the device, with the first rule that does.
    pub fn may_issue(&self, desc: &Desc, d: DeviceId, begun: bool) -> Result<u32, Blocked>
        requires valid { IsValid desc.now }
        requires kept { EngineKept desc.now d self.now }
        ensures cause { MatchResult result (λ _. barred_by desc.now d begun self.now ≡ None) (λ _. is_some (barred_by desc.now d begun self.now) ≡ true) }
        ensures number { IfOk result (λ n. first_number (unissued_in self.now) ≡ Some n) }
        ensures turn { IfOk result (λ n. is_next_to_issue_in desc.now d n (part_of begun self.now) ≡ true) }
        ensures look { IfErr result (λ blocked. blocked.0 ≡ look_in desc.now d begun self.now) }
    {
        match self.next_to_issue(desc, d, begun) {
            Some(number) => Ok(number),
            None => Err(Blocked(self.look(desc, d, begun))),
        }
    }

    #[tactic(auto, using(crate::proofs::NextRequest::unissued_listed))]
    /// Puts request `n` on the bus: the first pending one that isn't there.
    pub fn issue(&mut self, n: u32)
        requires turn { first_number (unissued_in self.old) ≡ Some n }
        requires room { length self.old.requests < 8 }
        requires few { self.old.issues < 4294967295 }
        ensures { self.new ≡ with_issued n self.old }
    {
        let job = self.pending_job(n);
        self.bus.push(n, job);
        self.issues += 1;
    }

    /// The number of the job of request `n`, which is pending.
    pub fn pending_job(&self, n: u32) -> u32
        requires { is_listed n self.now.pending ≡ true }
        ensures { result ≡ job_or_zero n self.now.pending }
    {
        let pending = self.queue.pending();
        match place_of(pending, n) {
            Some(k) => pending[k].1,
            None => unreachable!(),
        }
    }

    /// Takes request `n`, which is on the bus and waits for its delivery, from the pending ones, and notes that it was
    /// delivered.
    pub fn deliver(&mut self, n: u32)
        requires pending { is_listed n self.old.pending ≡ true }
        ensures { self.new ≡ with_delivered n self.old }
    {
        match place_of(self.queue.pending(), n) {
            Some(k) => self.queue.take(k),
            None => unreachable!(),
        }
        self.bus.deliver(n);
    }

    /// Takes request `n`, which was delivered, off the bus.
    pub fn complete(&mut self, n: u32)
        requires { self.old.completes < 4294967295 }
        ensures { self.new ≡ with_completed n self.old }
    {
        self.bus.complete(n);
        self.completes += 1;
    }

    /// Rings the doorbell with a number: the job of that number is accepted, or counted as lost where the device has no
    /// such job or its budget is spent. Answers whether it was accepted. The count of lost ones stands still at 2^32 - 1.
    pub fn ring(&mut self, desc: &Desc, d: DeviceId, number: u64) -> bool
        requires valid { IsValid desc.now }
        requires device { d < device_count desc.now }
        ensures accepted { result ≡ is_accepted (shape_at desc.now d) number self.old }
        ensures rung { self.new ≡ with_rung (shape_at desc.now d) number self.old }
    {
        let shape = shape_at(desc, d);
        let accepted = number < u64::from(shape.jobs.len()) && self.queue.accepted() < shape.budget;
        if accepted {
            self.queue.accept(number as u32);
        } else {
            self.lost = self.lost.saturating_add(1);
        }
        accepted
    }

    /// Holds the device for a state.
    pub fn hold(&mut self, to: MigState)
        ensures { self.new ≡ with_hold to self.old }
    {
        self.hold = Some(to);
    }

    /// Takes the device to a state; its hold goes. The count of arcs stands still at 2^32 - 1.
    pub fn arc(&mut self, to: MigState)
        ensures { self.new ≡ with_arc to self.old }
    {
        self.state = to;
        self.hold = None;
        self.arcs = self.arcs.saturating_add(1);
    }

    /// Counts an arc that failed; state and hold stay.
    pub fn fail(&mut self)
        ensures { self.new ≡ with_failed_arc self.old }
    {
        self.arcs = self.arcs.saturating_add(1);
    }

    /// Takes the hold away.
    pub fn release(&mut self)
        ensures { self.new ≡ with_no_hold self.old }
    {
        self.hold = None;
    }

    /// Makes the state `RESUMING`, as the destination takes the machine over.
    pub fn resume(&mut self)
        ensures { self.new ≡ with_resumed self.old }
    {
        self.state = MigState::Resuming;
    }

    /// Puts 1 to 64 bytes at the front of the buffer.
    pub fn set_front(&mut self, bytes: &[u8])
        requires { length bytes.now ≤ length self.old.buf }
        ensures { self.new ≡ with_front_put bytes.now self.old }
    {
        put_bytes(&mut self.buf, 0, bytes);
    }

    /// The number of the job of request `n`, which is pending or on the bus.
    pub fn job(&self, n: u32) -> u32
        requires known { (is_listed n self.now.pending || is_outstanding n self.now.requests) ≡ true }
        ensures { result ≡ job_of_request n self.now }
    {
        match self.bus.job(n) {
            Some(job) => job,
            None => self.pending_job(n),
        }
    }

    /// The number of the job of request `n`, which is on the bus.
    pub fn job_on_bus(&self, n: u32) -> u32
        requires { is_outstanding n self.now.requests ≡ true }
        ensures { result ≡ outstanding_job_or_zero n self.now.requests }
    {
        match self.bus.job(n) {
            Some(job) => job,
            None => unreachable!(),
        }
    }

    /// The `i`-th request on the bus, counted from 0 in the order of issue, and whether it was delivered; `None` exactly
    /// where at most `i` are there.
    pub fn outstanding(&self, i: u32) -> Option<(u32, bool)>
        ensures { result ≡ outstanding_at self.now.requests i }
    {
        self.bus.at(i as usize)
    }

    /// Whether nothing is on the bus.
    pub fn is_bus_empty(&self) -> bool
        ensures { result ≡ is_nothing self.now.requests }
    {
        self.bus.is_empty()
    }

    /// Whether nothing is pending and nothing is on the bus.
    pub fn is_idle(&self) -> bool
        ensures { result ≡ (is_nothing self.now.pending && is_nothing self.now.requests) }
    {
        self.queue.count() == 0 && self.bus.is_empty()
    }

    /// Whether a request is on the bus that is barred in the peer-to-peer states; of device `d`.
    pub fn has_barred(&self, desc: &Desc, d: DeviceId) -> bool
        requires valid { IsValid desc.now }
        requires kept { EngineKept desc.now d self.now }
        ensures { result ≡ has_barred desc.now d self.now.requests }
    {
        self.bus.has_barred(desc, d)
    }

    /// How many requests on the bus were delivered, and how many wait for it; at most eight are there.
    pub fn on_bus(&self) -> (u32, u32)
        requires { length self.now.requests ≤ 8 }
        ensures delivered { result.0 ≡ delivered_count self.now.requests }
        ensures undelivered { result.1 ≡ undelivered_count self.now.requests }
    {
        (self.bus.delivered(), self.bus.undelivered())
    }

    /// The number of the `k`-th of the requests on the bus that were delivered, or of those that weren't, counted from 0 in
    /// the order of issue; `None` exactly where at most `k` are there.
    pub fn number_at(&self, delivered: bool, k: u32) -> Option<u32>
        ensures { result ≡ number_at delivered self.now.requests k }
    {
        self.bus.number_at(delivered, k)
    }

    /// Whether request `n` is on the bus and waits for its delivery.
    pub fn is_undelivered(&self, n: u32) -> bool
        ensures { result ≡ is_undelivered n self.now.requests }
    {
        self.bus.is_undelivered(n)
    }

    /// Whether request `n` is on the bus and was delivered.
    pub fn is_arrived(&self, n: u32) -> bool
        ensures { result ≡ is_arrived n self.now.requests }
    {
        self.bus.is_arrived(n)
    }

    /// How often it issued, completed, and took an arc.
    pub fn steps(&self) -> (u32, u32, u32)
        ensures issues { result.0 ≡ self.now.issues }
        ensures completes { result.1 ≡ self.now.completes }
        ensures arcs { result.2 ≡ self.now.arcs }
    {
        (self.issues, self.completes, self.arcs)
    }

    /// How many requests it accepted, did and lost.
    pub fn counts(&self) -> (u32, u32, u32)
        ensures accepted { result.0 ≡ self.now.accepted }
        ensures done { result.1 ≡ self.now.done }
        ensures lost { result.2 ≡ self.now.lost }
    {
        (self.queue.accepted(), self.queue.done(), self.lost)
    }

    /// Lends the pending requests, each with its number and the number of its job, in order.
    pub fn pending(&self) -> &[(u32, u32)]
        ensures { result.now ≡ self.now.pending }
    {
        self.queue.pending()
    }

    /// Lends the buffer.
    pub fn buf(&self) -> &[u8; 64]
        ensures { result.now ≡ self.now.buf }
    {
        &self.buf
    }

    /// The state of the device.
    pub fn state(&self) -> MigState
        ensures { result ≡ self.now.state }
    {
        self.state
    }

    /// What the device is held for.
    pub fn held(&self) -> Option<MigState>
        ensures { result ≡ self.now.hold }
    {
        self.hold
    }
}
