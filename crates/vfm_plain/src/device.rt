//! One device of the plain machine.

ghost use Rattle.std.specs.Prelude.{◌≡◌, [], ◌∷◌, ◌++◌, ◌+◌, ◌<◌, ◌≤◌, ◌^◌, ◌↔◌, length, drop, remove, vec_len, vec_capacity, IfOk, IsTrue};
ghost use Rattle.vfm_types.specs.Machine.{described_device, numbered, splice, with_bell_rung};

use crate::sheet::{Sheet, put_bytes, same_bytes};
use std::alloc::Global;
use std::marker::Model;
use vfm_types::{DevShape, NoMemory};

/// The most requests that the budget of a device may allow.
const MOST_REQUESTS: usize = 50_000;

/// A device of the plain machine. Seen as its BAR bytes, its pending requests (number and job), its buffer and its three
/// counts.
///
/// It has room for the most requests that any budget allows, so it never takes memory later.
#[derive(Drop)]
pub struct PlainDevice {
    bar: Sheet,
    // each accepted request; the pending ones stand after the first `done` places, whose items don't matter
    requests: Vec<(u32, u32)>,
    buf: [u8; 64],
    done: u32,
    lost: u32,
}

impl Model for PlainDevice {
    ghost use Rattle.std.specs.Prelude.{ℕ, List, drop, vec_len, vec_capacity, ◌≤◌};
    ghost use Rattle.vfm_types.specs.Machine.{DeviceState};

    ghost Value = { DeviceState };

    ghost view = { λ e. record {
      bar = e.bar;
      pending = drop e.done e.requests.items;
      buf = e.buf;
      accepted = vec_len e.requests;
      done = e.done;
      lost = e.lost;
    } };

    ghost invariant = { λ e. (e.done ≤ vec_len e.requests) × (vec_len e.requests ≤ 50000) × (50000 ≤ vec_capacity e.requests) };
}

impl PlainDevice {
    /// The device as described: zeros, and the requests of its queue pending.
    pub fn of(alloc: Global, shape: &DevShape) -> Result<PlainDevice, NoMemory>
        requires { length shape.now.queue ≤ 50000 }
        ensures { IfOk result (λ device. device ≡ described_device shape.now) }
    {
        let bar = Sheet::zeros(alloc, shape.bar_bytes())?;
        let requests = numbered_requests(alloc, shape.queue.as_slice())?;
        Ok(PlainDevice {
            bar,
            requests,
            buf: [0; 64],
            done: 0,
            lost: 0,
        })
    }

    /// Lends the bytes of its BARs, one after the other.
    pub fn bar(&self) -> &[u8]
        ensures { result.now ≡ self.now.bar }
    {
        self.bar.bytes()
    }

    /// Lends the buffer.
    pub fn buf(&self) -> &[u8; 64]
        ensures { result.now ≡ self.now.buf }
    {
        &self.buf
    }

    /// Lends the pending requests, each with its number and the number of its job, in the order of their numbers.
    pub fn pending(&self) -> &[(u32, u32)]
        ensures { result.now ≡ self.now.pending }
    {
        &self.requests[self.done as usize..]
    }

    /// How many requests it accepted, did and lost.
    pub fn counts(&self) -> (u32, u32, u32)
        ensures accepted { result.0 ≡ self.now.accepted }
        ensures done { result.1 ≡ self.now.done }
        ensures lost { result.2 ≡ self.now.lost }
    {
        (self.requests.len() as u32, self.done, self.lost)
    }

    /// Whether both are equal in every part.
    pub fn same(&self, other: &PlainDevice) -> bool
        ensures { IsTrue result ↔ (self.now ≡ other.now) }
    {
        if !self.bar.same(&other.bar) {
            return false;
        }
        if !same_requests(self.pending(), other.pending()) {
            return false;
        }
        if !same_bytes(&self.buf, &other.buf) {
            return false;
        }
        self.requests.len() == other.requests.len()
            && self.done == other.done
            && self.lost == other.lost
    }

    /// Puts these bytes into the BAR bytes at an offset.
    pub fn put_bar(&mut self, offset: u32, bytes: &[u8])
        requires { offset + length bytes.now ≤ length self.old.bar }
        ensures { self.new ≡ record self.old { bar = splice self.old.bar offset bytes.now } }
    {
        self.bar.put(offset, bytes);
    }

    /// Puts these bytes at the start of the buffer.
    pub fn put_front(&mut self, bytes: &[u8])
        requires { length bytes.now ≤ 64 }
        ensures { self.new ≡ record self.old { buf = splice self.old.buf 0 bytes.now } }
    {
        put_bytes(&mut self.buf, 0, bytes);
    }

    /// Takes the request at this place among the pending ones away, and counts it as done.
    pub fn take(&mut self, k: usize)
        requires { k < length self.old.pending }
        ensures { self.new ≡ record self.old { pending = remove self.old.pending k; done = self.old.done + 1 } }
    {
        let done = self.done as usize;
        bring_front(self.requests.as_mut_slice(), done, k);
        self.done += 1;
    }

    /// Rings the doorbell with a number: the job of that number is accepted, or counted as lost where the device has no
    /// such job or its budget is spent.
    pub fn ring(&mut self, shape: &DevShape, number: u64)
        requires budget { shape.now.budget ≤ 50000 }
        requires lost { self.old.lost < 4294967295 }
        ensures { self.new ≡ with_bell_rung shape.now self.old number }
    {
        let accepted = self.requests.len() as u32;
        if number < u64::from(shape.jobs.len()) && accepted < shape.budget {
            let _ = self.requests.push((accepted, number as u32));
        } else {
            self.lost += 1;
        }
    }

    /// Starts anew with so many requests done and so many lost, and none pending.
    pub fn restart(&mut self, done: u32, lost: u32)
        requires { done ≤ 50000 }
        ensures { self.new ≡ record self.old { pending = []; accepted = done; done = done; lost = lost } }
    {
        spend_requests(&mut self.requests, done as usize);
        self.done = done;
        self.lost = lost;
    }

    /// Adds a request after the pending ones.
    pub fn add_pending(&mut self, number: u32, job: u32)
        requires { self.old.accepted < 50000 }
        ensures { self.new ≡ record self.old { pending = self.old.pending ++ (number, job) ∷ []; accepted = self.old.accepted + 1 } }
    {
        self.requests.push_reserved((number, job));
    }
}

/// Makes the list one of so many requests that don't matter, and keeps its room.
fn spend_requests(requests: &mut Vec<(u32, u32)>, done: usize)
    requires few { done ≤ 50000 }
    requires room { 50000 ≤ vec_capacity requests.old }
    ensures count { vec_len requests.new ≡ done }
    ensures none { drop done requests.new.items ≡ [] }
    ensures room { 50000 ≤ vec_capacity requests.new }
{
    requests.clear();
    for _i in 0..done {
        requests.push_reserved((0, 0));
    }
}

/// The requests of a queue, numbered from 0, with room for the most requests of any budget.
fn numbered_requests(alloc: Global, queue: &[u32]) -> Result<Vec<(u32, u32)>, NoMemory>
    requires { length queue.now ≤ 50000 }
    ensures items { IfOk result (λ requests. requests.items ≡ numbered 0 queue.now) }
    ensures count { IfOk result (λ requests. vec_len requests ≡ length queue.now) }
    ensures room { IfOk result (λ requests. 50000 ≤ vec_capacity requests) }
{
    let mut requests = Vec::with_capacity(alloc, MOST_REQUESTS)?;
    for (i, job) in queue.iter().enumerate() {
        requests.push((i as u32, *job))?;
    }
    Ok(requests)
}

/// Brings the item at place `start + k` to place `start`, and the `k` items before it one place back.
fn bring_front(items: &mut [(u32, u32)], start: usize, k: usize)
    requires { start + k < length items.old }
    ensures len { length items.new ≡ length items.old }
    ensures rest { drop (start + 1) items.new ≡ remove (drop start items.old) k }
{
    items[start..=start + k].rotate_right(1);
}

/// Whether both are the same requests.
fn same_requests(one: &[(u32, u32)], other: &[(u32, u32)]) -> bool
    ensures { IsTrue result ↔ (one.now ≡ other.now) }
{
    one == other
}
