//! The requests that a device accepted, of which the pending ones stand together.

ghost use Rattle.std.specs.Prelude.{◌≡◌, [], ◌∷◌, ◌++◌, ◌+◌, ◌<◌, ◌≤◌, length, remove, slice_index_or, IfOk, IfSome, IfNone, vec_len, vec_capacity, drop, take, false};
ghost use Rattle.vfm_types.specs.Machine.{numbered};
ghost use Rattle.vfm_types.specs.Requests.{job_or_zero, without};
ghost use Rattle.vfm_laws.specs.Queues.{is_listed};

use std::alloc::Global;
use std::marker::Model;
use vfm_types::NoMemory;

/// The most requests that the budget of a device may allow.
const MOST_REQUESTS: usize = 50_000;

/// The requests that a device has accepted. Seen as the pending ones (number and number of the job, in order), how many
/// were accepted, and how many are done.
///
/// It has room for the most requests that any budget allows, so it never takes memory later.
#[derive(Drop)]
pub struct Queue {
    // each accepted request; the pending ones stand after the first `done` places, whose items don't matter
    requests: Vec<(u32, u32)>,
    done: u32,
}

impl Model for Queue {
    ghost use Rattle.std.specs.Prelude.{drop, vec_len, vec_capacity, ◌≤◌};
    ghost use Rattle.vfm_device.specs.EngineState.{Requests};

    ghost Value = { Requests };

    ghost view = { λ q. record {
      pending = drop q.done q.requests.items;
      accepted = vec_len q.requests;
      done = q.done;
    } };

    ghost invariant = { λ q. (q.done ≤ vec_len q.requests) × (vec_len q.requests ≤ 50000) × (50000 ≤ vec_capacity q.requests) };
}

impl Queue {
    /// So many requests done, and these pending after them.
    pub fn of(alloc: Global, done: u32, pending: &[(u32, u32)]) -> Result<Queue, NoMemory>
        requires { done + length pending.now ≤ 50000 }
        ensures { IfOk result (λ queue. queue ≡ record { pending = pending.now; accepted = done + length pending.now; done = done }) }
    {
        let mut requests = Vec::with_capacity(alloc, MOST_REQUESTS)?;
        for _ in 0..done {
            requests.push_reserved((0, 0));
        }
        requests.extend_from_slice(pending)?;
        Ok(Queue { requests, done })
    }

    /// None done, and requests for these jobs pending, numbered from 0.
    pub fn described(alloc: Global, jobs: &[u32]) -> Result<Queue, NoMemory>
        requires { length jobs.now ≤ 50000 }
        ensures { IfOk result (λ queue. queue ≡ record { pending = numbered 0 jobs.now; accepted = length jobs.now; done = 0 }) }
    {
        let mut requests = Vec::with_capacity(alloc, MOST_REQUESTS)?;
        for (i, job) in jobs.iter().enumerate() {
            requests.push((i as u32, *job))?;
        }
        Ok(Queue { requests, done: 0 })
    }

    /// Lends the pending requests, each with its number and the number of its job, in order.
    pub fn pending(&self) -> &[(u32, u32)]
        ensures { result.now ≡ self.now.pending }
    {
        &self.requests[self.done as usize..]
    }

    /// How many are pending.
    pub fn count(&self) -> u32
        ensures { result ≡ length self.now.pending }
    {
        self.requests.len() as u32 - self.done
    }

    /// How many were accepted.
    pub fn accepted(&self) -> u32
        ensures { result ≡ self.now.accepted }
    {
        self.requests.len() as u32
    }

    /// How many are done.
    pub fn done(&self) -> u32
        ensures { result ≡ self.now.done }
    {
        self.done
    }

    /// Accepts one more request, for this job.
    pub fn accept(&mut self, job: u32)
        requires { self.old.accepted < 50000 }
        ensures { self.new ≡ record self.old { pending = self.old.pending ++ (self.old.accepted, job) ∷ []; accepted = self.old.accepted + 1 } }
    {
        let number = self.accepted();
        self.requests.push_reserved((number, job));
    }

    /// Takes the request at this place among the pending ones away, and counts it as done. Those before it move by a place.
    pub fn take(&mut self, k: usize)
        requires { k < length self.old.pending }
        ensures { self.new ≡ record self.old { pending = remove self.old.pending k; done = self.old.done + 1 } }
    {
        let done = self.done as usize;
        bring_front(self.requests.as_mut_slice(), done, k);
        self.done += 1;
    }
}

// Brings the item at place `start + k` to place `start`, and the `k` items before it one place back.
fn bring_front(items: &mut [(u32, u32)], start: usize, k: usize)
    requires { start + k < length items.old }
    ensures len { length items.new ≡ length items.old }
    ensures rest { drop (start + 1) items.new ≡ remove (drop start items.old) k }
{
    items[start..=start + k].rotate_right(1);
}

/// The place of request `n` among these, if it is one of them.
pub fn place_of(pending: &[(u32, u32)], n: u32) -> Option<usize>
    ensures within { IfSome result (λ k. k < length pending.now) }
    ensures rest { IfSome result (λ k. remove pending.now k ≡ without n pending.now) }
    ensures job { IfSome result (λ k. (slice_index_or pending.now k (0, 0)).1 ≡ job_or_zero n pending.now) }
    ensures none { IfNone result (is_listed n pending.now ≡ false) }
{
    for k in 0..pending.len() {
        if pending[k].0 == n {
            return Some(k);
        }
    }
    None
}
