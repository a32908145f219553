//! That workers work beside one another, which no clause says: beats and a link that wait for one another.

use super::*;
use crate::worked::*;
use std::alloc::Global;
use std::sync::atomic::{AtomicBool, Ordering};
use std::test::Fail;
use std::thread::Threads;
use vfm_outside::{Beat, Failed, Link, ScriptLink};

/// How often a flag is looked at, at most, by one that waits for it.
const MOST_LOOKS: u32 = 1_000_000_000;

// Flags that two set for one another, and one that a wait came to its bound.
#[derive(Drop)]
struct Flags {
    first: AtomicBool,
    second: AtomicBool,
    late: AtomicBool,
}

impl Flags {
    fn new() -> Flags {
        Flags {
            first: AtomicBool::new(false),
            second: AtomicBool::new(false),
            late: AtomicBool::new(false),
        }
    }

    // Waits for a flag.
    fn wait(&self, flag: &AtomicBool) {
        for _ in 0..MOST_LOOKS {
            if flag.load(Ordering::SeqCst) {
                return;
            }
        }
        self.late.store(true, Ordering::SeqCst);
    }

    // Whether both were set, and none waited in vain.
    fn are_seen(&self) -> bool {
        self.first.load(Ordering::SeqCst)
            && self.second.load(Ordering::SeqCst)
            && !self.late.load(Ordering::SeqCst)
    }
}

// The workers of channel 0 and of stream 0 wait for one another before they begin.
#[derive(Drop)]
struct Meeting(Flags);

impl Beat for Meeting {
    fn at(&self, worker: u32, turn: u64) {
        if worker == 48 && turn == 0 {
            self.0.first.store(true, Ordering::SeqCst);
            self.0.wait(&self.0.second);
        }
        if worker == 64 && turn == 0 {
            self.0.second.store(true, Ordering::SeqCst);
            self.0.wait(&self.0.first);
        }
    }
}

#[test]
fn a_channel_and_a_stream_are_worked_on_at_once(rt: HostRuntime) -> Result<(), Fail> {
    let alloc = rt.alloc();
    let desc = described(alloc, 1, 1)?;
    let links = vec![in alloc; link(alloc, channel(alloc, 1)?, &[])?]?;
    if links.len() != desc.channels as usize {
        return Err(Fail::from("channels"));
    }
    let meeting = Meeting(Flags::new());
    let (_, answer) = stage(&rt, alloc, &desc, links, &meeting);
    assert_eq!(rt; digest_of(answer)?, DIGEST);
    assert!(rt; meeting.0.are_seen());
    Ok(())
}

// The worker of stream 0 doesn't begin before the first flag is set; it sets the second at its attempt 65,536, which it has
// only where an attempt before it found a parcel.
#[derive(Drop)]
struct Late<'a>(&'a Flags);

impl<'a> Beat for Late<'a> {
    fn at(&self, worker: u32, turn: u64) {
        if worker == 64 && turn == 0 {
            self.0.wait(&self.0.first);
        }
        if worker == 64 && turn == 65_536 {
            self.0.second.store(true, Ordering::SeqCst);
        }
    }
}

// A link whose call 1 sets the first flag, and waits for the second.
#[derive(Drop)]
struct Slow<'a, L> {
    link: L,
    flags: &'a Flags,
    calls: u32,
}

impl<'a, L: Link> Link for Slow<'a, L> {
    ghost failed_out = { λ s. L.failed_out s.link };

    ghost failed_in = { λ s. L.failed_in s.link };

    ghost ended = { λ s. L.ended s.link };

    ghost finished = { λ s. L.finished s.link };

    ghost sent = { λ s. L.sent s.link };

    ghost received = { λ s. L.received s.link };

    fn send(&mut self, bytes: &[u8]) -> Result<usize, Failed> {
        self.link.send(bytes)
    }

    fn recv(&mut self, buf: &mut [u8]) -> Result<usize, Failed> {
        if self.calls == 1 {
            self.flags.first.store(true, Ordering::SeqCst);
            self.flags.wait(&self.flags.second);
        }
        self.calls = self.calls.saturating_add(1);
        self.link.recv(buf)
    }

    fn finish(&mut self) -> Result<(), Failed> {
        self.link.finish()
    }
}

#[test]
fn a_packet_is_taken_before_the_next_is_read(rt: HostRuntime) -> Result<(), Fail> {
    let alloc = rt.alloc();
    let desc = described(alloc, 1, 1)?;
    let flags = Flags::new();
    let calls = Vec::new(alloc);
    // the first packet has 61 bytes
    let script = ScriptLink::of(alloc, channel(alloc, 1)?, 0, calls, 61)?;
    let slow = Slow {
        link: script,
        flags: &flags,
        calls: 0,
    };
    let links = vec![in alloc; slow]?;
    if links.len() != desc.channels as usize {
        return Err(Fail::from("channels"));
    }
    let (_, answer) = stage(&rt, alloc, &desc, links, &Late(&flags));
    assert_eq!(rt; digest_of(answer)?, DIGEST);
    assert!(rt; flags.are_seen());
    Ok(())
}

#[test]
fn no_schedule_changes_the_answer(rt: HostRuntime) -> Result<(), Fail> {
    let alloc = rt.alloc();
    let desc = described(alloc, 1, 1)?;
    for run in 0..60 {
        let links = vec![in alloc; link(alloc, channel(alloc, 1)?, &[])?]?;
        let answer = staged(&rt, alloc, &desc, links, 1 + run % 3)?;
        assert_eq!(rt; digest_of(answer)?, DIGEST);
    }
    Ok(())
}
