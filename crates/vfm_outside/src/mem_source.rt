//! A source over bytes in memory.

ghost use Rattle.std.specs.Prelude.{◌≡◌, ◌-◌, ◌<◌, ◌≤◌, Ok, Some, length, drop, min, vec_len};
ghost use Rattle.vfm_outside.specs.Counts.{CountsFaults};
ghost use Rattle.vfm_outside.specs.Told.{Reads};
ghost use Rattle.vfm_outside.specs.Script.{new_plan, is_failing, after_moving, answer_of};

use crate::script::{Script, give};
use crate::{Failed, Source};

/// A source over bytes in memory, which gives a bounded number of them in one read and fails at chosen reads. It
/// reports what is left.
#[derive(Debug, Drop)]
pub struct MemSource {
    bytes: Vec<u8>,
    at: usize,
    script: Script,
    faults: u64,
    ghost in_range: { at ≤ vec_len bytes },
}

impl MemSource {
    /// A source of these bytes. A read gives at most `most` bytes, which is at least 1. The reads whose numbers stand
    /// in `fail` fail; they are numbered from 0, and one into an empty buffer isn't counted.
    pub fn of(bytes: Vec<u8>, fail: Vec<u32>, most: u32) -> MemSource
        requires { 0 < most }
        ensures left { ⟦<MemSource as Source>⟧.left result ≡ Some bytes.items }
        ensures faults { ⟦<MemSource as Source>⟧.faults result ≡ 0 }
        ensures script { result.script ≡ new_plan fail.items most }
    {
        MemSource {
            bytes,
            at: 0,
            script: Script::of(fail, most),
            faults: 0,
        }
    }
}

impl Source for MemSource {
    ghost faults = { λ s. s.faults };

    ghost left = { λ s. Some (drop s.at s.bytes.items) };

    fn read(&mut self, buf: &mut [u8]) -> Result<usize, Failed>
        ensures count { CountsFaults result self.old.faults self.new.faults }
        ensures given { Reads result buf.new (⟦<MemSource as Source>⟧.left self.old) (⟦<MemSource as Source>⟧.left self.new) }
        ensures empty { length buf.old ≡ 0 → result ≡ Ok 0 }
        ensures answer { result ≡ answer_of (length buf.old) (is_failing self.old.script)
            (min (min (length buf.old) self.old.script.most) (vec_len self.old.bytes - self.old.at)) }
        ensures script { self.new.script ≡ after_moving (length buf.old) self.old.script }
    {
        if buf.is_empty() {
            return Ok(0);
        }
        if self.script.begin_failing() {
            self.faults = self.faults.saturating_add(1);
            return Err(Failed);
        }
        let most = self.script.part_of(buf.len());
        let n = give(&self.bytes, self.at, most, buf);
        self.at += n;
        Ok(n)
    }
}
