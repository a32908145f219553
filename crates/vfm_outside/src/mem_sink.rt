//! A sink into memory.

ghost use Rattle.std.specs.Prelude.{◌≡◌, ◌+◌, ◌<◌, ◌≤◌, ◌||◌, [], Ok, Some, IfOk, length, min, nat_lt, vec_len, vec_capacity};
ghost use Rattle.vfm_outside.specs.Counts.{CountsFaults};
ghost use Rattle.vfm_outside.specs.Told.{Takes};
ghost use Rattle.vfm_outside.specs.Script.{new_plan, is_failing, after_moving, answer_of};

use crate::script::Script;
use crate::{Failed, Sink};
use std::alloc::Global;
use vfm_types::NoMemory;

/// A sink into memory, which takes a bounded number of bytes in one write, fails at chosen writes, and fails where
/// its room ends. It reports what it holds.
#[derive(Debug, Drop)]
pub struct MemSink {
    held: Vec<u8>,
    room: usize,
    script: Script,
    faults: u64,
    ghost in_room: { vec_len held ≤ room },
    ghost has_room: { room ≤ vec_capacity held },
}

impl MemSink {
    /// An empty sink with room for so many bytes. A write takes at most `most` bytes, which is at least 1; one whose
    /// bytes would go past the room fails. The writes whose numbers stand in `fail` fail; they are numbered from 0, and
    /// one of an empty piece isn't counted.
    pub fn of(alloc: Global, room: usize, fail: Vec<u32>, most: u32) -> Result<MemSink, NoMemory>
        requires { 0 < most }
        ensures holds { IfOk result (λ sink. ⟦<MemSink as Sink>⟧.holds sink ≡ Some []) }
        ensures faults { IfOk result (λ sink. ⟦<MemSink as Sink>⟧.faults sink ≡ 0) }
        ensures script { IfOk result (λ sink. (sink.room ≡ room) × (sink.script ≡ new_plan fail.items most)) }
    {
        Ok(MemSink {
            held: Vec::with_capacity(alloc, room)?,
            room,
            script: Script::of(fail, most),
            faults: 0,
        })
    }

    /// What the sink holds.
    pub fn bytes(&self) -> &[u8]
        ensures { ⟦<MemSink as Sink>⟧.holds self.now ≡ Some result.now }
    {
        &self.held
    }
}

impl Sink for MemSink {
    ghost faults = { λ s. s.faults };

    ghost holds = { λ s. Some s.held.items };

    fn write(&mut self, bytes: &[u8]) -> Result<usize, Failed>
        ensures count { CountsFaults result self.old.faults self.new.faults }
        ensures taken { Takes result bytes.now (⟦<MemSink as Sink>⟧.holds self.old) (⟦<MemSink as Sink>⟧.holds self.new) }
        ensures empty { length bytes.now ≡ 0 → result ≡ Ok 0 }
        ensures answer { let n = min (length bytes.now) self.old.script.most in
            result ≡ answer_of (length bytes.now) (is_failing self.old.script || nat_lt self.old.room (vec_len self.old.held + n)) n }
        ensures script { self.new.script ≡ after_moving (length bytes.now) self.old.script }
        ensures room { self.new.room ≡ self.old.room }
    {
        if bytes.is_empty() {
            return Ok(0);
        }
        let failing = self.script.begin_failing();
        let n = self.script.part_of(bytes.len());
        if failing || n > self.room - self.held.len() {
            self.faults = self.faults.saturating_add(1);
            return Err(Failed);
        }
        self.held.extend_from_slice(&bytes[..n]).unwrap();
        Ok(n)
    }
}
