//! What the objects in memory share: a plan of the calls that fail, and the way of bytes out of a list.

ghost use Rattle.std.specs.Prelude.{◌≡◌, ◌+◌, ◌-◌, ◌<◌, ◌≤◌, length, min, take, drop};
ghost use Rattle.vfm_outside.specs.Script.{Plan, new_plan, is_failing, after_call};

use std::marker::Model;

/// Numbers the calls of an object from 0 and says which of them fail, and how many bytes a call moves at most.
#[derive(Debug, Drop)]
pub struct Script {
    fail: Vec<u32>,
    next: u64,
    most: u32,
}

impl Model for Script {
    ghost Value = { Plan };

    ghost view = { λ s. record { fail = s.fail.items; next = s.next; most = s.most } };

    ghost invariant = { λ s. 0 < s.most };
}

impl Script {
    /// Before the first call.
    pub fn of(fail: Vec<u32>, most: u32) -> Script
        requires { 0 < most }
        ensures { result ≡ new_plan fail.items most }
    {
        Script {
            fail,
            next: 0,
            most,
        }
    }

    /// Begins the next call, and says whether it is to fail.
    pub fn begin_failing(&mut self) -> bool
        ensures fails { result ≡ is_failing self.old }
        ensures next { self.new ≡ after_call self.old }
    {
        let next = self.next;
        self.next = next.saturating_add(1);
        self.fail.iter().any(|call| u64::from(*call) == next)
    }

    /// How many of these bytes a call moves.
    pub fn part_of(&self, bytes: usize) -> usize
        ensures least { result ≡ min bytes self.now.most }
        ensures some { 0 < bytes → 0 < result }
    {
        bytes.min(self.most as usize)
    }
}

/// Copies the next bytes of a list, at most `most`, to the start of a buffer, and says how many.
pub fn give(bytes: &[u8], at: usize, most: usize, buf: &mut [u8]) -> usize
    requires within { at ≤ length bytes.now }
    requires fits { most ≤ length buf.old }
    ensures number { result ≡ min most (length bytes.now - at) }
    ensures given { take result buf.new ≡ take result (drop at bytes.now) }
{
    let n = most.min(bytes.len() - at);
    buf[..n].copy_from_slice(&bytes[at..at + n]);
    n
}
