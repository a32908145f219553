//! A link that receives bytes fixed beforehand.

ghost use Rattle.std.specs.Prelude.{◌≡◌, ◌-◌, ◌+◌, ◌<◌, ◌≤◌, ◌||◌, [], false, Ok, Some, IfOk, length, min, take, not, is_ok, nat_lt, vec_len, vec_capacity};
ghost use Rattle.vfm_outside.specs.Counts.{CountsFaults, counted};
ghost use Rattle.vfm_outside.specs.Told.{Takes, Receives};
ghost use Rattle.vfm_outside.specs.Links.{ended_after};
ghost use Rattle.vfm_outside.specs.Script.{new_plan, is_failing, after_call, after_moving, answer_of};

use crate::faults::Counting;
use crate::script::{Script, give};
use crate::{Failed, Link};
use std::alloc::Global;
use vfm_types::NoMemory;

/// A link that receives an inbox fixed beforehand, stores what is sent, moves a bounded number of bytes in one call,
/// fails at chosen calls, and fails to send where its room ends. It reports what it sent and received.
#[derive(Debug, Drop)]
pub struct ScriptLink {
    inbox: Vec<u8>,
    at: usize,
    sent: Vec<u8>,
    room: usize,
    script: Script,
    failed_out: u64,
    failed_in: u64,
    ended: bool,
    finished: bool,
    ghost in_range: { at ≤ vec_len inbox },
    ghost in_room: { vec_len sent ≤ room },
    ghost has_room: { room ≤ vec_capacity sent },
}

impl ScriptLink {
    /// A new link with this inbox, and room for so many bytes that are sent. A call moves at most `most` bytes, which
    /// is at least 1; a send whose bytes would go past the room fails. The calls whose numbers stand in `fail` fail;
    /// `send`, `recv` and `finish` are numbered together from 0, and one with nothing to move isn't counted.
    pub fn of(
        alloc: Global,
        inbox: Vec<u8>,
        room: usize,
        fail: Vec<u32>,
        most: u32,
    ) -> Result<ScriptLink, NoMemory>
        requires { 0 < most }
        ensures sent { IfOk result (λ link. ⟦<ScriptLink as Link>⟧.sent link ≡ Some []) }
        ensures received { IfOk result (λ link. ⟦<ScriptLink as Link>⟧.received link ≡ Some []) }
        ensures ended { IfOk result (λ link. ⟦<ScriptLink as Link>⟧.ended link ≡ false) }
        ensures finished { IfOk result (λ link. ⟦<ScriptLink as Link>⟧.finished link ≡ false) }
        ensures faults { IfOk result (λ link. (⟦<ScriptLink as Link>⟧.failed_out link ≡ 0) × (⟦<ScriptLink as Link>⟧.failed_in link ≡ 0)) }
        ensures script { IfOk result (λ link. (link.inbox.items ≡ inbox.items) × (link.room ≡ room) × (link.script ≡ new_plan fail.items most)) }
    {
        Ok(ScriptLink {
            inbox,
            at: 0,
            sent: Vec::with_capacity(alloc, room)?,
            room,
            script: Script::of(fail, most),
            failed_out: 0,
            failed_in: 0,
            ended: false,
            finished: false,
        })
    }

    /// What was sent.
    pub fn sent(&self) -> &[u8]
        ensures { ⟦<ScriptLink as Link>⟧.sent self.now ≡ Some result.now }
    {
        &self.sent
    }

    /// What was received.
    pub fn received(&self) -> &[u8]
        ensures { ⟦<ScriptLink as Link>⟧.received self.now ≡ Some result.now }
    {
        &self.inbox[..self.at]
    }

    /// Whether the end of the channel was received.
    pub fn has_ended(&self) -> bool
        ensures { result ≡ ⟦<ScriptLink as Link>⟧.ended self.now }
    {
        self.ended
    }

    /// Whether `finish` has said that nothing more is sent.
    pub fn has_finished(&self) -> bool
        ensures { result ≡ ⟦<ScriptLink as Link>⟧.finished self.now }
    {
        self.finished
    }

    /// How often a call has failed, of both directions.
    pub fn faults(&self) -> u64
        ensures { result ≡ counted (⟦<ScriptLink as Link>⟧.failed_out self.now + ⟦<ScriptLink as Link>⟧.failed_in self.now) }
    {
        self.failed_out.saturating_add(self.failed_in)
    }
}

impl Counting for ScriptLink {
    ghost faults = { λ l. l.failed_out + l.failed_in };

    fn fault_count(&self) -> u64 {
        self.faults()
    }
}

impl Link for ScriptLink {
    ghost failed_out = { λ l. l.failed_out };

    ghost failed_in = { λ l. l.failed_in };

    ghost ended = { λ l. l.ended };

    ghost finished = { λ l. l.finished };

    ghost sent = { λ l. Some l.sent.items };

    ghost received = { λ l. Some (take l.at l.inbox.items) };

    fn send(&mut self, bytes: &[u8]) -> Result<usize, Failed>
        ensures count { CountsFaults result self.old.failed_out self.new.failed_out }
        ensures taken { Takes result bytes.now (⟦<ScriptLink as Link>⟧.sent self.old) (⟦<ScriptLink as Link>⟧.sent self.new) }
        ensures empty { length bytes.now ≡ 0 → result ≡ Ok 0 }
        ensures other_count { self.new.failed_in ≡ self.old.failed_in }
        ensures received { ⟦<ScriptLink as Link>⟧.received self.new ≡ ⟦<ScriptLink as Link>⟧.received self.old }
        ensures ended { self.new.ended ≡ self.old.ended }
        ensures finished { self.new.finished ≡ self.old.finished }
        ensures answer { let n = min (length bytes.now) self.old.script.most in
            result ≡ answer_of (length bytes.now) (is_failing self.old.script || nat_lt self.old.room (vec_len self.old.sent + n)) n }
        ensures script { self.new.script ≡ after_moving (length bytes.now) self.old.script }
        ensures room { self.new.room ≡ self.old.room }
        ensures inbox { (self.new.at ≡ self.old.at) × (self.new.inbox.items ≡ self.old.inbox.items) }
    {
        if bytes.is_empty() {
            return Ok(0);
        }
        let failing = self.script.begin_failing();
        let n = self.script.part_of(bytes.len());
        if failing || n > self.room - self.sent.len() {
            self.failed_out = self.failed_out.saturating_add(1);
            return Err(Failed);
        }
        self.sent.extend_from_slice(&bytes[..n]).unwrap();
        Ok(n)
    }

    fn recv(&mut self, buf: &mut [u8]) -> Result<usize, Failed>
        ensures count { CountsFaults result self.old.failed_in self.new.failed_in }
        ensures given { Receives result buf.new (⟦<ScriptLink as Link>⟧.received self.old) (⟦<ScriptLink as Link>⟧.received self.new) }
        ensures empty { length buf.old ≡ 0 → result ≡ Ok 0 }
        ensures ended { self.new.ended ≡ ended_after result (length buf.old) self.old.ended }
        ensures other_count { self.new.failed_out ≡ self.old.failed_out }
        ensures sent { ⟦<ScriptLink as Link>⟧.sent self.new ≡ ⟦<ScriptLink as Link>⟧.sent self.old }
        ensures finished { self.new.finished ≡ self.old.finished }
        ensures answer { result ≡ answer_of (length buf.old) (is_failing self.old.script)
            (min (min (length buf.old) self.old.script.most) (vec_len self.old.inbox - self.old.at)) }
        ensures script { self.new.script ≡ after_moving (length buf.old) self.old.script }
        ensures room { self.new.room ≡ self.old.room }
        ensures inbox { self.new.inbox.items ≡ self.old.inbox.items }
    {
        if buf.is_empty() {
            return Ok(0);
        }
        if self.script.begin_failing() {
            self.failed_in = self.failed_in.saturating_add(1);
            return Err(Failed);
        }
        let most = self.script.part_of(buf.len());
        let n = give(&self.inbox, self.at, most, buf);
        self.at += n;
        if n == 0 {
            self.ended = true;
        }
        Ok(n)
    }

    fn finish(&mut self) -> Result<(), Failed>
        ensures count { CountsFaults result self.old.failed_out self.new.failed_out }
        ensures other_count { self.new.failed_in ≡ self.old.failed_in }
        ensures sent { ⟦<ScriptLink as Link>⟧.sent self.new ≡ ⟦<ScriptLink as Link>⟧.sent self.old }
        ensures received { ⟦<ScriptLink as Link>⟧.received self.new ≡ ⟦<ScriptLink as Link>⟧.received self.old }
        ensures ended { self.new.ended ≡ self.old.ended }
        ensures finished { self.new.finished ≡ (self.old.finished || is_ok result) }
        ensures answer { is_ok result ≡ not (is_failing self.old.script) }
        ensures script { self.new.script ≡ after_call self.old.script }
        ensures room { self.new.room ≡ self.old.room }
        ensures inbox { (self.new.at ≡ self.old.at) × (self.new.inbox.items ≡ self.old.inbox.items) }
    {
        if self.script.begin_failing() {
            self.failed_out = self.failed_out.saturating_add(1);
            return Err(Failed);
        }
        self.finished = true;
        Ok(())
    }
}
