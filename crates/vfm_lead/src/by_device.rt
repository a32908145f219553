//! What the coordinator keeps for each device, of which there are at most eight.

ghost use Rattle.std.specs.Prelude.{ℕ, ◌≡◌, ◌<◌, ◌≤◌, true, false, length, slice_index_or, slice_set, nat_lt, IfSome};
ghost use Rattle.vfm_base.specs.Least.{all_below, least_below};
ghost use Rattle.vfm_parts.specs.Parts.{listed};

use std::marker::Model;
use vfm_types::DeviceId;

/// A mark for each device. Seen as the list of them, which has as many as there are devices.
#[derive(Drop)]
pub struct Marks {
    marks: [bool; 8],
    count: u8,
}

impl Model for Marks {
    ghost use Rattle.std.specs.Prelude.{◌≤◌, Bool, false, List, slice_index_or};
    ghost use Rattle.vfm_parts.specs.Parts.{listed};

    ghost Value = { List Bool };

    ghost view = { λ m. listed m.count (λ d. slice_index_or m.marks d false) };

    ghost invariant = { λ m. m.count ≤ 8 };
}

impl Marks {
    /// No device is marked.
    pub fn none(count: u8) -> Marks
        requires { count ≤ 8 }
        ensures { result ≡ listed count (λ _. false) }
    {
        Marks {
            marks: [false; 8],
            count,
        }
    }

    /// Whether device `d` is marked.
    pub fn has(&self, d: DeviceId) -> bool
        requires { d < length self.now }
        ensures { result ≡ slice_index_or self.now d false }
    {
        self.marks[usize::from(d.0)]
    }

    /// Whether every device is marked.
    pub fn are_all(&self) -> bool
        ensures { result ≡ all_below (length self.now) (λ d. slice_index_or self.now d false) }
    {
        for d in 0..self.count() {
            if !self.has(DeviceId(d)) {
                return false;
            }
        }
        true
    }

    /// By device, whether it is marked; the places of devices that aren't there may hold anything.
    #[tactic(auto, using(crate::proofs::ByDevice::item_at))]
    pub fn each(&self) -> [bool; 8]
        ensures { (d : ℕ) → d < length self.now → slice_index_or result d false ≡ slice_index_or self.now d false }
    {
        self.marks
    }

    // how many devices there are
    fn count(&self) -> u8
        ensures value { result ≡ length self.now }
        ensures few { result ≤ 8 }
    {
        self.count
    }

    /// Marks device `d`.
    pub fn mark(&mut self, d: DeviceId)
        requires { d < length self.old }
        ensures { self.new ≡ slice_set self.old d true }
    {
        self.marks[usize::from(d.0)] = true;
    }
}

/// A number for each device. Seen as the list of them, which has as many as there are devices.
#[derive(Drop)]
pub struct Counts {
    counts: [u32; 8],
    count: u8,
}

impl Model for Counts {
    ghost use Rattle.std.specs.Prelude.{◌≤◌, ℕ, List, slice_index_or};
    ghost use Rattle.vfm_parts.specs.Parts.{listed};

    ghost Value = { List ℕ };

    ghost view = { λ c. listed c.count (λ d. slice_index_or c.counts d 0) };

    ghost invariant = { λ c. c.count ≤ 8 };
}

impl Counts {
    /// Zero for each device.
    pub fn zeros(count: u8) -> Counts
        requires { count ≤ 8 }
        ensures { result ≡ listed count (λ _. 0) }
    {
        Counts {
            counts: [0; 8],
            count,
        }
    }

    /// The number of device `d`.
    pub fn at(&self, d: DeviceId) -> u32
        requires { d < length self.now }
        ensures { result ≡ slice_index_or self.now d 0 }
    {
        self.counts[usize::from(d.0)]
    }

    /// The least device whose number is above zero.
    pub fn least(&self) -> Option<DeviceId>
        ensures value { result ≡ least_below (length self.now) (λ d. nat_lt 0 (slice_index_or self.now d 0)) }
        ensures inside { IfSome result (λ d. d < length self.now) }
    {
        for d in 0..self.count() {
            if self.at(DeviceId(d)) > 0 {
                return Some(DeviceId(d));
            }
        }
        None
    }

    // how many devices there are
    fn count(&self) -> u8
        ensures value { result ≡ length self.now }
        ensures few { result ≤ 8 }
    {
        self.count
    }

    /// Sets the number of device `d`.
    pub fn set(&mut self, d: DeviceId, n: u32)
        requires { d < length self.old }
        ensures { self.new ≡ slice_set self.old d n }
    {
        self.counts[usize::from(d.0)] = n;
    }
}
