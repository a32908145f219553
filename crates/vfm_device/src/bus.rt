//! The requests that a device has on the bus.

ghost use Rattle.std.specs.Prelude.{◌≡◌, [], ◌∷◌, ◌++◌, ◌+◌, ◌<◌, ◌≤◌, ◌==◌, ◌&&◌, if◌then◌else◌, true, false, length, slice_index_or, take, vec_len, All, IfOk, IfSome, IfNone};
ghost use Rattle.std.specs.List.{list_any};
ghost use Rattle.vfm_types.specs.Desc.{device_count, no_job, shape_at};
ghost use Rattle.vfm_types.specs.Valid.{IsValid};
ghost use Rattle.vfm_types.specs.Words.{has_barred, is_nothing};
ghost use Rattle.vfm_types.specs.Job.{is_fence};
ghost use Rattle.vfm_types.specs.Outstanding.{complete_if, deliver_if, delivered_count, is_arrived, is_outstanding, is_undelivered, outstanding_job_or_zero, undelivered_count};
ghost use Rattle.vfm_device.specs.Bus.{StandsAt, is_same_flag, number_at, outstanding_at};

use crate::turn::{is_barred, job_at};
use std::alloc::Global;
use std::marker::Model;
use vfm_types::{Desc, DeviceId, Jobs, NoMemory};

/// The most requests that a device may have on the bus: the widest window.
const WIDEST_WINDOW: usize = 8;

/// A request on the bus: its number, the number of its job, and whether it has reached its target.
#[derive(Clone, Copy, Debug)]
pub struct Flight {
    pub number: u32,
    pub job: u32,
    pub is_delivered: bool,
}

impl Model for Flight {
    ghost use Rattle.vfm_types.specs.Outstanding.{Outstanding};

    ghost Value = { Outstanding };

    ghost view = { λ f. record { number = f.number; job = f.job; is_delivered = f.is_delivered } };

    ghost inverse = { λ r. record { number = r.number; job = r.job; is_delivered = r.is_delivered } };
}

/// The requests on the bus, in the order of their issue; it has room for eight. Seen as the list of them.
#[derive(Drop)]
pub struct Bus {
    flights: Vec<Flight>,
    // how many of them are yet to be delivered
    waiting: u32,
}

impl Model for Bus {
    ghost use Rattle.std.specs.Prelude.{List, vec_capacity};
    ghost use Rattle.vfm_types.specs.Outstanding.{Outstanding};
    ghost use Rattle.vfm_device.specs.Bus.{BusKept};

    ghost Value = { List Outstanding };

    ghost view = { λ b. b.flights.items };

    ghost invariant = { λ b. BusKept b.flights.items b.waiting (vec_capacity b.flights) };
}

impl Bus {
    /// A bus with nothing on it.
    pub fn of(alloc: Global) -> Result<Bus, NoMemory>
        ensures { IfOk result (λ bus. bus ≡ []) }
    {
        Ok(Bus {
            flights: Vec::with_capacity(alloc, WIDEST_WINDOW)?,
            waiting: 0,
        })
    }

    /// How many requests are on it.
    pub fn len(&self) -> usize
        ensures { result ≡ length self.now }
    {
        self.flights.len()
    }

    /// Whether nothing is on it.
    pub fn is_empty(&self) -> bool
        ensures { result ≡ is_nothing self.now }
    {
        self.flights.is_empty()
    }

    /// The requests on it, in the order of their issue.
    pub fn flights(&self) -> &[Flight]
        ensures { result.now ≡ self.now }
    {
        &self.flights
    }

    /// The number of the request at place `i`, and whether it was delivered, if there is one.
    #[tactic(auto, using(crate::proofs::OnBus::there, crate::proofs::OnBus::beyond))]
    pub fn at(&self, i: usize) -> Option<(u32, bool)>
        ensures { result ≡ outstanding_at self.now i }
    {
        if i < self.flights.len() {
            let flight = self.flights[i];
            return Some((flight.number, flight.is_delivered));
        }
        None
    }

    /// Puts a request on it, which is yet to be delivered.
    #[tactic(auto, using(crate::proofs::OnBus::undelivered_more))]
    pub fn push(&mut self, number: u32, job: u32)
        requires { length self.old < 8 }
        ensures { self.new ≡ self.old ++ (record { number = number; job = job; is_delivered = false }) ∷ [] }
    {
        self.flights.push_reserved(Flight {
            number,
            job,
            is_delivered: false,
        });
        self.waiting += 1;
    }

    /// Whether request `n` is on it and is yet to be delivered.
    #[tactic(auto, using(crate::proofs::OnBus::undelivered_at, crate::proofs::OnBus::undelivered_none))]
    pub fn is_undelivered(&self, n: u32) -> bool
        ensures { result ≡ is_undelivered n self.now }
    {
        match find(&self.flights, n) {
            Some(k) => {
                let flight = self.flights[k];
                !flight.is_delivered
            }
            None => false,
        }
    }

    /// Whether request `n` is on it and was delivered.
    #[tactic(auto, using(crate::proofs::OnBus::arrived_at, crate::proofs::OnBus::arrived_none))]
    pub fn is_arrived(&self, n: u32) -> bool
        ensures { result ≡ is_arrived n self.now }
    {
        match find(&self.flights, n) {
            Some(k) => {
                let flight = self.flights[k];
                flight.is_delivered
            }
            None => false,
        }
    }

    /// The number of the job of request `n`, if that is on it.
    #[tactic(auto, using(crate::proofs::OnBus::job_at_place, crate::proofs::OnBus::stands_outstanding))]
    pub fn job(&self, n: u32) -> Option<u32>
        ensures value { IfSome result (λ job. job ≡ outstanding_job_or_zero n self.now) }
        ensures there { IfSome result (λ _. is_outstanding n self.now ≡ true) }
        ensures none { IfNone result (is_outstanding n self.now ≡ false) }
    {
        let k = find(&self.flights, n)?;
        let flight = self.flights[k];
        Some(flight.job)
    }

    /// Notes that request `n` was delivered.
    #[tactic(auto, using(crate::proofs::OnBus::deliver_at, crate::proofs::OnBus::deliver_none))]
    pub fn deliver(&mut self, n: u32)
        ensures { self.new ≡ deliver_if true n self.old }
    {
        if let Some(k) = find(&self.flights, n) {
            let flight = self.flights[k];
            self.flights[k] = Flight {
                number: flight.number,
                job: flight.job,
                is_delivered: true,
            };
            self.waiting -= waiting(flight);
        }
    }

    /// Takes request `n` off it.
    #[tactic(auto, using(crate::proofs::OnBus::complete_at, crate::proofs::OnBus::complete_none))]
    pub fn complete(&mut self, n: u32)
        ensures { self.new ≡ complete_if true n self.old }
    {
        if let Some(k) = find(&self.flights, n) {
            let flight = self.flights.remove(k);
            self.waiting -= waiting(flight);
        }
    }

    /// How many of its requests are yet to be delivered.
    pub fn undelivered(&self) -> u32
        ensures { result ≡ undelivered_count self.now }
    {
        self.waiting
    }

    /// How many of its requests were delivered.
    #[tactic(auto, using(crate::proofs::Turns::counts_add))]
    pub fn delivered(&self) -> u32
        requires { length self.now ≤ 8 }
        ensures { result ≡ delivered_count self.now }
    {
        self.flights.len() as u32 - self.undelivered()
    }

    /// The number of the `k`-th of those that were delivered, or of those that weren't, counted from 0 in the order of issue;
    /// `None` exactly where at most `k` are there.
    pub fn number_at(&self, delivered: bool, k: u32) -> Option<u32>
        ensures { result ≡ number_at delivered self.now k }
    {
        number_at(&self.flights, delivered, k)
    }

    /// Whether one of its requests is a fence.
    pub fn has_fence(&self, jobs: &Jobs) -> bool
        requires { All (λ r. r.job < length jobs.now) self.now }
        ensures { result ≡ list_any (λ r. is_fence (slice_index_or jobs.now r.job no_job)) self.now }
    {
        for k in 0..self.flights.len() {
            let flight = self.flights[k];
            if jobs.at(flight.job).is_fence() {
                return true;
            }
        }
        false
    }

    /// Whether one of its requests is barred in the peer-to-peer states for device `d`, of which they are.
    pub fn has_barred(&self, desc: &Desc, d: DeviceId) -> bool
        requires valid { IsValid desc.now }
        requires device { d < device_count desc.now }
        requires known { All (λ r. r.job < length (shape_at desc.now d).jobs) self.now }
        ensures { result ≡ has_barred desc.now d self.now }
    {
        for k in 0..self.flights.len() {
            let flight = self.flights[k];
            if is_barred(desc, d, job_at(desc, d, flight.job)) {
                return true;
            }
        }
        false
    }
}

// Of those of these requests that were delivered, or of those that weren't, the number of the one at place `k`.
fn number_at(flights: &[Flight], delivered: bool, k: u32) -> Option<u32>
    ensures { result ≡ number_at delivered flights.now k }
{
    let mut left = k;
    for i in 0..flights.len() {
        let flight = flights[i];
        if is_same_flag(flight.is_delivered, delivered) {
            if left == 0 {
                return Some(flight.number);
            }
            left -= 1;
        }
    }
    None
}

// Whether both hold or neither does.
fn is_same_flag(one: bool, other: bool) -> bool
    ensures { result ≡ is_same_flag one other }
{
    if one { other } else { !other }
}

// The place of request `n` among these.
fn find(flights: &[Flight], n: u32) -> Option<usize>
    ensures found { IfSome result (λ k. StandsAt n k flights.now) }
    ensures none { IfNone result (is_outstanding n flights.now ≡ false) }
{
    for k in 0..flights.len() {
        let flight = flights[k];
        if flight.number == n {
            return Some(k);
        }
    }
    None
}

// One for a request that is yet to be delivered.
fn waiting(flight: Flight) -> u32
    ensures value { result ≡ (if flight.is_delivered then 0 else 1) }
    ensures most { result ≤ 1 }
{
    if flight.is_delivered { 0 } else { 1 }
}
