//! What no clause says: that engines are made where there is enough memory, and worked cases of windows, fences, starts and
//! doorbells, and many calls beside plain lists.

ghost use Rattle.std.specs.Prelude.{◌≡◌, IfOk};
ghost use Rattle.vfm_types.specs.Valid.{IsValid};
ghost use Rattle.vfm_device.specs.EngineState.{EngineKept};

use crate::Engine;
use std::alloc::Global;
use std::process::Abort;
use std::test::Fail;
use vfm_types::{
    Bars, Bytes64, Desc, DevShape, DeviceId, Flags, Job, Jobs, MigState, Name, Queue, Rule, Shapes,
};

// A machine of one page and one device, with a window of two and a budget of six.
fn machine(
    rt: &impl Abort,
    alloc: Global,
    jobs: Vec<Job>,
    queue: &[u32],
    begin: u32,
) -> Result<Desc, Fail>
    ensures { IfOk result IsValid }
{
    let queue = Vec::from_slice(alloc, queue)?;
    assert!(rt; jobs.len() <= 4096);
    assert!(rt; queue.len() <= 50000);
    let mut devices = Vec::new(alloc);
    devices.push(DevShape {
        name: Name::of(b"a").ok_or("no name")?,
        flags: Flags::of(7).ok_or("no flags")?,
        bars: Bars::of(&[64]).ok_or("no bars")?,
        window: 2,
        tells: true,
        budget: 6,
        fails: 0,
        jobs: Jobs::of(jobs),
        queue: Queue::of(queue),
    })?;
    let desc = Desc {
        session: 7,
        page: 16,
        pages: 1,
        channels: 1,
        version: 1,
        begin,
        rounds: 0,
        threshold: 0,
        devices: Shapes::of(devices),
    };
    assert!(rt; desc.is_in_range());
    Ok(Desc::new(desc)?)
}

// The engine of the first device.
fn engine_of(alloc: Global, desc: &Desc) -> Result<Engine, Fail>
    requires { IsValid desc.now }
    ensures { IfOk result (EngineKept desc.now 0) }
{
    Ok(Engine::of(alloc, desc, DeviceId(0))?)
}

// A write of one byte.
fn write(byte: u8) -> Result<Job, Fail> {
    let bytes = Bytes64::of(&[byte]).ok_or("no bytes")?;
    Ok(Job::Write { at: 0, bytes })
}

// Issues the next request, if one may be issued; its number.
fn issue(engine: &mut Engine, desc: &Desc, begun: bool) -> Option<u32>
    requires valid { IsValid desc.now }
    requires kept { EngineKept desc.now 0 engine.old }
    ensures { EngineKept desc.now 0 engine.new }
{
    match engine.may_issue(desc, DeviceId(0), begun) {
        Ok(n) if engine.steps().0 < u32::MAX => {
            engine.issue(n);
            Some(n)
        }
        _ => None,
    }
}

// Delivers a request that waits for it.
fn deliver(engine: &mut Engine, desc: &Desc, n: u32) -> bool
    requires { EngineKept desc.now 0 engine.old }
    ensures { EngineKept desc.now 0 engine.new }
{
    if !engine.is_undelivered(n) {
        return false;
    }
    engine.deliver(n);
    true
}

// Completes a request that was delivered.
fn complete(engine: &mut Engine, desc: &Desc, n: u32) -> bool
    requires { EngineKept desc.now 0 engine.old }
    ensures { EngineKept desc.now 0 engine.new }
{
    if !engine.is_arrived(n) {
        return false;
    }
    if engine.steps().1 == u32::MAX {
        return false;
    }
    engine.complete(n);
    true
}

// Rings the doorbell.
fn ring(engine: &mut Engine, desc: &Desc, number: u64) -> bool
    requires valid { IsValid desc.now }
    requires kept { EngineKept desc.now 0 engine.old }
    ensures { EngineKept desc.now 0 engine.new }
{
    engine.ring(desc, DeviceId(0), number)
}

// What is tried, and what must come of it.
#[derive(Drop)]
enum Try {
    // this request may be issued, and is
    Issued(u32),
    // none may be, by this rule
    Barred(Rule),
    Delivered(u32),
    Completed(u32),
    // a doorbell with this number is accepted, or not
    Rung(u64, bool),
    Held(MigState),
    Moved(MigState),
}

// Whether it comes so.
#[tactic(auto, using(crate::proofs::Kept::kept_same))]
fn comes_so(engine: &mut Engine, desc: &Desc, begun: bool, tried: &Try) -> bool
    requires valid { IsValid desc.now }
    requires kept { EngineKept desc.now 0 engine.old }
    ensures { EngineKept desc.now 0 engine.new }
{
    match tried {
        Try::Issued(n) => issue(engine, desc, begun) == Some(*n),
        Try::Barred(rule) => engine.look(desc, DeviceId(0), begun).blocked == Some(*rule),
        Try::Delivered(n) => deliver(engine, desc, *n),
        Try::Completed(n) => complete(engine, desc, *n),
        Try::Rung(number, accepted) => ring(engine, desc, *number) == *accepted,
        Try::Held(to) => hold(engine, desc, *to),
        Try::Moved(to) => take_arc(engine, desc, *to),
    }
}

// Holds the device.
#[tactic(auto, using(crate::proofs::Kept::kept_same))]
fn hold(engine: &mut Engine, desc: &Desc, to: MigState) -> bool
    requires { EngineKept desc.now 0 engine.old }
    ensures { EngineKept desc.now 0 engine.new }
{
    engine.hold(to);
    engine.held() == Some(to)
}

// Takes an arc.
#[tactic(auto, using(crate::proofs::Kept::kept_same))]
fn take_arc(engine: &mut Engine, desc: &Desc, to: MigState) -> bool
    requires { EngineKept desc.now 0 engine.old }
    ensures { EngineKept desc.now 0 engine.new }
{
    engine.arc(to);
    engine.state() == to && engine.held().is_none()
}

// The first of these tries that doesn't come so.
fn first_other(engine: &mut Engine, desc: &Desc, begun: bool, tries: &[Try]) -> Option<usize>
    requires valid { IsValid desc.now }
    requires kept { EngineKept desc.now 0 engine.old }
    ensures { EngineKept desc.now 0 engine.new }
{
    for (i, tried) in tries.iter().enumerate() {
        if !comes_so(engine, desc, begun, tried) {
            return Some(i);
        }
    }
    None
}

#[test]
fn a_fence_waits_for_those_before_it(rt: HostRuntime) -> Result<(), Fail> {
    let alloc = rt.alloc();
    let mut jobs = Vec::new(alloc);
    jobs.push(write(0xaa)?)?;
    jobs.push(write(0xbb)?)?;
    jobs.push(Job::Read { at: 0, len: 4 })?;
    let desc = machine(&rt, alloc, jobs, &[0, 1, 2], 3)?;
    let mut engine = engine_of(alloc, &desc)?;
    let tries = [
        Try::Issued(0),
        Try::Issued(1),
        Try::Barred(Rule::Turn),
        Try::Delivered(1),
        Try::Delivered(0),
        Try::Barred(Rule::Turn),
        Try::Completed(0),
        Try::Barred(Rule::Turn),
        Try::Completed(1),
        Try::Issued(2),
        Try::Barred(Rule::Turn),
        Try::Delivered(2),
        Try::Completed(2),
        Try::Barred(Rule::Turn),
    ];
    assert_eq!(rt; first_other(&mut engine, &desc, false, &tries), None);
    assert_eq!(rt; engine.counts(), (3, 3, 0));
    assert_eq!(rt; engine.steps(), (3, 3, 0));
    Ok(())
}

#[test]
fn an_issue_waits_for_the_move_and_for_its_level(rt: HostRuntime) -> Result<(), Fail> {
    let alloc = rt.alloc();
    let mut jobs = Vec::new(alloc);
    jobs.push(write(1)?)?;
    let desc = machine(&rt, alloc, jobs, &[0, 0], 1)?;
    let mut engine = engine_of(alloc, &desc)?;
    let before = [Try::Issued(0), Try::Barred(Rule::Start)];
    assert_eq!(rt; first_other(&mut engine, &desc, false, &before), None);
    let held = [
        Try::Held(MigState::Stop),
        Try::Barred(Rule::Barred),
        Try::Delivered(0),
        Try::Completed(0),
        Try::Moved(MigState::RunningP2p),
        Try::Issued(1),
    ];
    assert_eq!(rt; first_other(&mut engine, &desc, true, &held), None);
    Ok(())
}

#[test]
fn doorbells_are_accepted_within_the_budget(rt: HostRuntime) -> Result<(), Fail> {
    let alloc = rt.alloc();
    let mut jobs = Vec::new(alloc);
    jobs.push(write(1)?)?;
    jobs.push(write(2)?)?;
    let desc = machine(&rt, alloc, jobs, &[0, 0, 0, 0, 0], 0)?;
    let mut engine = engine_of(alloc, &desc)?;
    let tries = [Try::Rung(1, true), Try::Rung(1, false), Try::Rung(2, false)];
    assert_eq!(rt; first_other(&mut engine, &desc, true, &tries), None);
    assert_eq!(rt; engine.counts(), (6, 0, 2));
    assert_eq!(rt; engine.pending().last().copied(), Some((5, 1)));
    Ok(())
}

// The requests of an engine as plain lists: pending ones, those on the bus with whether each was delivered, and counts.
#[derive(Drop)]
struct Lists {
    pending: Vec<(u32, u32)>,
    bus: Vec<(u32, bool)>,
    accepted: u32,
    lost: u32,
}

impl Lists {
    // The first pending request that isn't on the bus, if fewer than two are there.
    fn next(&self) -> Option<u32> {
        if self.bus.len() >= 2 {
            return None;
        }
        for (n, _) in &self.pending {
            if self.place(*n).is_none() {
                return Some(*n);
            }
        }
        None
    }

    // Where request n stands on the bus.
    fn place(&self, n: u32) -> Option<usize> {
        for k in 0..self.bus.len() {
            if self.bus[k].0 == n {
                return Some(k);
            }
        }
        None
    }

    // Whether request n is on the bus, delivered or not.
    fn is_there(&self, n: u32, delivered: bool) -> bool {
        match self.place(n) {
            Some(k) if k < self.bus.len() => self.bus[k].1 == delivered,
            _ => false,
        }
    }

    // Notes that request n was delivered.
    fn deliver(&mut self, n: u32) {
        self.pending.retain(|r| r.0 != n);
        for request in self.bus.iter_mut() {
            if request.0 == n {
                request.1 = true;
            }
        }
    }

    // A doorbell with this number; whether it is accepted.
    fn ring(&mut self, number: u32) -> Result<bool, Fail> {
        if number < 2 && self.accepted < 6 {
            self.pending.push((self.accepted, number))?;
            self.accepted += 1;
            return Ok(true);
        }
        self.lost = self.lost.saturating_add(1);
        Ok(false)
    }

    // Whether the engine has these requests and counts.
    fn are_of(&self, engine: &Engine) -> bool {
        let (accepted, _, lost) = engine.counts();
        engine.pending() == self.pending.as_slice()
            && accepted == self.accepted
            && lost == self.lost
    }
}

// Whether the lists say the same of an issue.
fn is_same_issue(engine: &mut Engine, desc: &Desc, lists: &mut Lists) -> Result<bool, Fail>
    requires valid { IsValid desc.now }
    requires kept { EngineKept desc.now 0 engine.old }
    ensures { EngineKept desc.now 0 engine.new }
{
    let next = lists.next();
    if let Some(n) = next {
        lists.bus.push((n, false))?;
    }
    Ok(issue(engine, desc, true) == next)
}

// Whether they say the same of a delivery.
fn is_same_delivery(engine: &mut Engine, desc: &Desc, lists: &mut Lists, n: u32) -> bool
    requires { EngineKept desc.now 0 engine.old }
    ensures { EngineKept desc.now 0 engine.new }
{
    let waits = lists.is_there(n, false);
    if waits {
        lists.deliver(n);
    }
    deliver(engine, desc, n) == waits
}

// Whether they say the same of a completion.
fn is_same_completion(engine: &mut Engine, desc: &Desc, lists: &mut Lists, n: u32) -> bool
    requires { EngineKept desc.now 0 engine.old }
    ensures { EngineKept desc.now 0 engine.new }
{
    let arrived = lists.is_there(n, true);
    if arrived {
        lists.bus.retain(|r| r.0 != n);
    }
    complete(engine, desc, n) == arrived
}

// Whether they say the same of a doorbell.
fn is_same_ring(
    engine: &mut Engine,
    desc: &Desc,
    lists: &mut Lists,
    number: u32,
) -> Result<bool, Fail>
    requires valid { IsValid desc.now }
    requires kept { EngineKept desc.now 0 engine.old }
    ensures { EngineKept desc.now 0 engine.new }
{
    let accepted = lists.ring(number)?;
    Ok(ring(engine, desc, u64::from(number)) == accepted)
}

// One call that a random number picks, and whether the lists say the same of it.
fn is_same_step(
    engine: &mut Engine,
    desc: &Desc,
    lists: &mut Lists,
    draw: u64,
) -> Result<bool, Fail>
    requires valid { IsValid desc.now }
    requires kept { EngineKept desc.now 0 engine.old }
    ensures { EngineKept desc.now 0 engine.new }
{
    let n = (draw / 4 % 6) as u32;
    match draw % 4 {
        0 => is_same_issue(engine, desc, lists),
        1 => Ok(is_same_delivery(engine, desc, lists, n)),
        2 => Ok(is_same_completion(engine, desc, lists, n)),
        _ => is_same_ring(engine, desc, lists, n / 2),
    }
}

#[test]
fn an_engine_is_its_lists(rt: HostRuntime) -> Result<(), Fail> {
    let alloc = rt.alloc();
    let mut jobs = Vec::new(alloc);
    jobs.push(write(1)?)?;
    jobs.push(write(2)?)?;
    let desc = machine(&rt, alloc, jobs, &[0, 1], 0)?;
    let mut seed = 7u64;
    for _ in 0..2_000u32 {
        let mut engine = engine_of(alloc, &desc)?;
        let mut lists = Lists {
            pending: [(0, 0), (1, 1)].to_vec(alloc)?,
            bus: Vec::new(alloc),
            accepted: 2,
            lost: 0,
        };
        for _ in 0..50u32 {
            seed = seed
                .wrapping_mul(6364136223846793005)
                .wrapping_add(1442695040888963407);
            assert!(rt; is_same_step(&mut engine, &desc, &mut lists, seed >> 33)?);
            assert!(rt; lists.are_of(&engine));
        }
    }
    Ok(())
}

#[test]
fn a_staged_engine_stands_in_stop_copy(rt: HostRuntime) -> Result<(), Fail> {
    let pending = [(3, 0), (5, 1)];
    let engine = Engine::staged(rt.alloc(), (5, 3, 1), &pending, &[7; 64])?;
    assert_eq!(rt; engine.counts(), (5, 3, 1));
    assert_eq!(rt; engine.pending(), pending.as_slice());
    assert_eq!(rt; engine.state(), MigState::StopCopy);
    assert_eq!(rt; engine.outstanding(0), None);
    Ok(())
}
