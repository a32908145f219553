//! Two devices and two pages as plain lists, for the tests.

use std::test::Fail;
use vfm_types::{MigState, Rule};

/// How many requests a device accepts in all.
const BUDGET: u32 = 30;

/// What a job does.
#[derive(Clone, Copy)]
pub enum Kind {
    Write,
    Read,
    Store,
    Add,
}

/// A job: what it does, in page 0 or 1 or in the BARs of the other device (2), from which offset on, with how many bytes,
/// and the number that it writes or adds.
#[derive(Clone, Copy)]
pub struct Deed {
    pub kind: Kind,
    pub region: u8,
    pub offset: u32,
    pub len: u8,
    pub value: u64,
}

/// The deed of a number below 12.
pub fn deed_of(j: u32) -> Deed {
    let (kind, region, offset, len, value) = match j {
        0 => (Kind::Write, 0, 3, 5, 0x1122_3344_55),
        1 => (Kind::Write, 1, 56, 8, 0xa1a2_a3a4_a5a6_a7a8),
        2 => (Kind::Write, 2, 60, 8, 0xb1b2_b3b4_b5b6_b7b8),
        3 => (Kind::Write, 2, 0, 8, 1),
        4 => (Kind::Write, 2, 0, 8, 99),
        5 => (Kind::Read, 2, 56, 16, 0),
        6 => (Kind::Store, 1, 10, 12, 0),
        7 => (Kind::Add, 2, 64, 8, 0xffff_ffff_ffff_fffe),
        8 => (Kind::Add, 0, 0, 8, 0x0102_0304),
        9 => (Kind::Store, 2, 100, 20, 0),
        10 => (Kind::Read, 0, 0, 64, 0),
        _ => (Kind::Store, 2, 0, 8, 0),
    };
    Deed {
        kind,
        region,
        offset,
        len,
        value,
    }
}

/// A step of a device.
#[derive(Clone, Copy)]
pub enum Step {
    Issue,
    Deliver,
    Complete,
}

/// The bytes of the two pages.
#[derive(Drop)]
pub struct Pages {
    pub p: [u8; 64],
    pub q: [u8; 64],
}

/// A device as plain lists: its BAR bytes and for each block whether it is unread or dirty, for each page whether it is
/// marked, its requests (number, job) and those on the bus (with whether each was delivered), its buffer, counts and state.
#[derive(Drop)]
pub struct Lists {
    pub bar: [u8; 128],
    pub unread: [bool; 2],
    pub dirty: [bool; 2],
    pub marks: [bool; 2],
    pub pending: Vec<(u32, u32)>,
    pub bus: Vec<(u32, u32, bool)>,
    pub buf: [u8; 64],
    pub accepted: u32,
    pub done: u32,
    pub lost: u32,
    pub issues: u32,
    pub completes: u32,
    pub state: MigState,
    pub hold: Option<MigState>,
    pub logging: bool,
    pub released: bool,
}

// Whether a deed is a fence.
fn is_fence(job: u32) -> bool {
    !matches!(deed_of(job).kind, Kind::Write)
}

// A copy of at most 64 bytes from an offset on.
fn bytes_at(from: &[u8], offset: u32, len: u32) -> [u8; 64] {
    let mut held = [0; 64];
    for i in 0..len.min(64) {
        if let Some(byte) = from.get(offset.wrapping_add(i) as usize) {
            held[i as usize % 64] = *byte;
        }
    }
    held
}

// Puts bytes at an offset.
fn put(into: &mut [u8], offset: u32, bytes: &[u8]) {
    let mut at = offset as usize;
    for byte in bytes {
        if let Some(place) = into.get_mut(at) {
            *place = *byte;
        }
        at = at.wrapping_add(1);
    }
}

// The number that the first 8 of these bytes are.
fn number(bytes: &[u8; 64]) -> u64 {
    let mut n = 0u64;
    for i in 0..8 {
        n |= u64::from(bytes[i]) << (8 * i as u32);
    }
    n
}

// What a deed puts at its place, where its issuer has this buffer and its target these bytes.
fn bytes_put(deed: &Deed, buf: &[u8; 64], target: &[u8]) -> [u8; 64] {
    match deed.kind {
        Kind::Store => *buf,
        Kind::Add => {
            let old = number(&bytes_at(target, deed.offset, 8));
            bytes_at(&old.wrapping_add(deed.value).to_le_bytes(), 0, 8)
        }
        _ => bytes_at(&deed.value.to_le_bytes(), 0, 8),
    }
}

/// The number of the first request on the bus that was delivered, or that wasn't; 63 where there is none.
pub fn first_of(bus: &[(u32, u32, bool)], delivered: bool) -> u32 {
    for flight in bus {
        if flight.2 == delivered {
            return flight.0;
        }
    }
    63
}

impl Lists {
    /// The request that is to be issued next: the first pending one that isn't on the bus.
    pub fn next(&self) -> Option<(u32, u32)> {
        for request in &self.pending {
            if !self.bus.iter().any(|flight| flight.0 == request.0) {
                return Some(*request);
            }
        }
        None
    }

    // The first rule that bars the issue of request n.
    fn issue_fault(&self, n: u32, begin: u32, window: u8) -> Option<Rule> {
        let Some((number, job)) = self.next() else {
            return Some(Rule::Turn);
        };
        let room = self.bus.len() < window as usize;
        let fenced = self.bus.iter().any(|flight| is_fence(flight.1));
        if number != n || !room || fenced || (is_fence(job) && !self.bus.is_empty()) {
            return Some(Rule::Turn);
        }
        let runs = match self.hold.unwrap_or(self.state) {
            MigState::Running | MigState::PreCopy => true,
            MigState::RunningP2p | MigState::PreCopyP2p => deed_of(job).region < 2,
            _ => false,
        };
        if !runs {
            return Some(Rule::Barred);
        }
        if self.logging || self.released || self.issues < begin {
            None
        } else {
            Some(Rule::Start)
        }
    }

    /// The first rule that a step breaks.
    pub fn fault(&self, step: Step, n: u32, begin: u32, window: u8) -> Option<Rule> {
        let delivered = match step {
            Step::Issue => return self.issue_fault(n, begin, window),
            Step::Deliver => false,
            Step::Complete => true,
        };
        for flight in &self.bus {
            if flight.0 == n && flight.2 == delivered {
                return None;
            }
        }
        Some(Rule::Turn)
    }

    // The number of the job of request n among the pending ones.
    fn job(&self, n: u32) -> u32 {
        for request in &self.pending {
            if request.0 == n {
                return request.1;
            }
        }
        0
    }

    /// Issues request n.
    pub fn issue(&mut self, n: u32) -> Result<(), Fail> {
        let job = self.job(n);
        self.bus.push((n, job, false))?;
        self.issues = self.issues.wrapping_add(1);
        Ok(())
    }

    /// Completes request n: the page that it wrote is marked while the log is started.
    pub fn complete(&mut self, n: u32) {
        for flight in &self.bus {
            let deed = deed_of(flight.1);
            if flight.0 == n
                && self.logging
                && deed.region < 2
                && !matches!(deed.kind, Kind::Read)
            {
                self.marks[deed.region as usize % 2] = true;
            }
        }
        self.bus.retain(|flight| flight.0 != n);
        self.completes = self.completes.wrapping_add(1);
    }

    /// Delivers request n to a page or to the BARs of the other device.
    pub fn deliver(&mut self, other: &mut Lists, pages: &mut Pages, n: u32) -> Result<(), Fail> {
        let deed = deed_of(self.job(n));
        let buf = self.buf;
        self.take(n);
        match deed.region {
            0 => {
                self.take_in(&deed, &pages.p);
                write_page(&mut pages.p, &deed, &buf);
                Ok(())
            }
            1 => {
                self.take_in(&deed, &pages.q);
                write_page(&mut pages.q, &deed, &buf);
                Ok(())
            }
            _ => {
                self.take_in(&deed, &other.bar);
                other.strike(&deed, &buf)
            }
        }
    }

    // Notes that request n was delivered, and takes it from the pending ones.
    fn take(&mut self, n: u32) {
        for flight in self.bus.iter_mut() {
            if flight.0 == n {
                flight.2 = true;
            }
        }
        self.pending.retain(|request| request.0 != n);
        self.done = self.done.wrapping_add(1);
    }

    // What a deed reads stands at the front of the buffer.
    fn take_in(&mut self, deed: &Deed, target: &[u8]) {
        if matches!(deed.kind, Kind::Read | Kind::Add) {
            let read = bytes_at(target, deed.offset, u32::from(deed.len));
            let count = (deed.len as usize).min(64);
            put(&mut self.buf, 0, &read[..count]);
        }
    }

    // What a deed makes of these BARs.
    fn strike(&mut self, deed: &Deed, buf: &[u8; 64]) -> Result<(), Fail> {
        if matches!(deed.kind, Kind::Read) {
            return Ok(());
        }
        let bytes = bytes_put(deed, buf, &self.bar);
        if deed.offset == 0 && deed.len == 8 {
            return self.ring(number(&bytes));
        }
        let count = (deed.len as usize).min(64);
        put(&mut self.bar, deed.offset, &bytes[..count]);
        for i in 0..u32::from(deed.len) {
            let block = (deed.offset.wrapping_add(i) / 64 % 2) as usize;
            if self.logging && !self.unread[block] {
                self.dirty[block] = true;
            }
        }
        Ok(())
    }

    // A doorbell with this number.
    fn ring(&mut self, number: u64) -> Result<(), Fail> {
        if number < 12 && self.accepted < BUDGET {
            self.pending.push((self.accepted, number as u32))?;
            self.accepted = self.accepted.wrapping_add(1);
        } else {
            self.lost = self.lost.wrapping_add(1);
        }
        Ok(())
    }
}

// What a deed makes of a page.
fn write_page(page: &mut [u8; 64], deed: &Deed, buf: &[u8; 64]) {
    if matches!(deed.kind, Kind::Read) {
        return;
    }
    let bytes = bytes_put(deed, buf, page.as_slice());
    let count = (deed.len as usize).min(64);
    put(page, deed.offset, &bytes[..count]);
}
