//! What no clause says: that parts are made where there is enough memory, worked cases of two devices, and many random steps
//! beside plain lists.

ghost use Rattle.std.specs.Prelude.{◌≡◌, ◌<◌, IfOk};
ghost use Rattle.vfm_types.specs.Desc.{device_count};
ghost use Rattle.vfm_types.specs.Valid.{IsValid};
ghost use Rattle.vfm_parts.specs.Fits.{DevFits, PageFits};

use crate::tests_lists::{Deed, Kind, Lists, Pages, Step, deed_of, first_of};
use crate::{DevPart, Guard, PagePart, step_own, step_to_device, step_to_page};
use std::alloc::Global;
use std::process::Abort;
use std::test::Fail;
use vfm_types::{
    Bars, Bytes64, Desc, DevShape, DeviceId, Entry, Flags, Job, Jobs, MigState, Name, PageSet,
    Queue, Region, Rule, Shapes,
};

// A machine of two pages of 64 bytes and two devices with BARs of 128 bytes; each device has all the deeds as jobs, each
// aimed at the pages or at the other device.
fn machine(
    rt: &impl Abort,
    alloc: Global,
    queue: &[u32],
    begin: u32,
    window: u8,
) -> Result<Desc, Fail>
    ensures valid { IfOk result IsValid }
    ensures devices { IfOk result (λ desc. device_count desc ≡ 2) }
    ensures page { IfOk result (λ desc. desc.page ≡ 64) }
{
    let mut devices = Vec::new(alloc);
    devices.push(shape(rt, alloc, b"a", queue, 1, window)?)?;
    devices.push(shape(rt, alloc, b"b", queue, 0, window)?)?;
    let desc = Desc {
        session: 7,
        page: 64,
        pages: 2,
        channels: 1,
        version: 1,
        begin,
        rounds: 0,
        threshold: 0,
        devices: Shapes::of(devices),
    };
    assert!(rt; desc.is_in_range());
    let desc = Desc::new(desc)?;
    assert!(rt; desc.devices.len() == 2);
    assert!(rt; desc.page == 64);
    Ok(desc)
}

// A device whose jobs are the deeds.
fn shape(
    rt: &impl Abort,
    alloc: Global,
    name: &[u8],
    queue: &[u32],
    other: u64,
    window: u8,
) -> Result<DevShape, Fail> {
    let mut jobs = Vec::new(alloc);
    for j in 0..12u32 {
        jobs.push(job_of(&deed_of(j), other)?)?;
    }
    let queue = Vec::from_slice(alloc, queue)?;
    assert!(rt; jobs.len() <= 4096);
    assert!(rt; queue.len() <= 50000);
    Ok(DevShape {
        name: Name::of(name).ok_or("no name")?,
        flags: Flags::of(7).ok_or("no flags")?,
        bars: Bars::of(&[128]).ok_or("no bars")?,
        window,
        tells: true,
        budget: 30,
        fails: 0,
        jobs: Jobs::of(jobs),
        queue: Queue::of(queue),
    })
}

// A deed as a job that is aimed at device `other` where it is aimed at BARs.
fn job_of(deed: &Deed, other: u64) -> Result<Job, Fail> {
    let base = match deed.region {
        0 => 0u64,
        1 => 64,
        _ => 0x1000_0000u64.wrapping_add(0x8_0000u64.wrapping_mul(other)),
    };
    let at = base.wrapping_add(u64::from(deed.offset));
    let bytes = deed.value.to_le_bytes();
    let count = (deed.len as usize).min(8);
    Ok(match deed.kind {
        Kind::Write => Job::Write {
            at,
            bytes: Bytes64::of(&bytes[..count]).ok_or("no bytes")?,
        },
        Kind::Read => Job::Read { at, len: deed.len },
        Kind::Store => Job::Store { at, len: deed.len },
        Kind::Add => Job::Add {
            at,
            value: deed.value,
        },
    })
}

// The parts of the two devices and of the two pages.
#[derive(Drop)]
struct Parts {
    a: DevPart,
    b: DevPart,
    p: PagePart,
    q: PagePart,
}

// The parts of the machine as described.
fn parts_of(alloc: Global, desc: &Desc) -> Result<Parts, Fail>
    requires valid { IsValid desc.now }
    requires devices { device_count desc.now ≡ 2 }
    ensures a { IfOk result (λ parts. DevFits desc.now 0 parts.a) }
    ensures b { IfOk result (λ parts. DevFits desc.now 1 parts.b) }
    ensures p { IfOk result (λ parts. PageFits desc.now parts.p) }
    ensures q { IfOk result (λ parts. PageFits desc.now parts.q) }
{
    let a = DevPart::of(alloc, desc, DeviceId(0))?;
    let b = DevPart::of(alloc, desc, DeviceId(1))?;
    let p = PagePart::of(alloc, desc.page)?;
    let q = PagePart::of(alloc, desc.page)?;
    Ok(Parts { a, b, p, q })
}

// Makes a step of device 0 or else of device 1 on the parts that it touches.
fn make(desc: &Desc, parts: &mut Parts, d: u8, step: Step, n: u32) -> Result<(), Guard>
    requires valid { IsValid desc.now }
    requires devices { device_count desc.now ≡ 2 }
    requires a { DevFits desc.now 0 parts.old.a }
    requires b { DevFits desc.now 1 parts.old.b }
    requires p { PageFits desc.now parts.old.p }
    requires q { PageFits desc.now parts.old.q }
    ensures a { DevFits desc.now 0 parts.new.a }
    ensures b { DevFits desc.now 1 parts.new.b }
    ensures p { PageFits desc.now parts.new.p }
    ensures q { PageFits desc.now parts.new.q }
{
    let Parts { a, b, p, q } = parts;
    if d == 0 {
        make_of(desc, DeviceId(0), a, DeviceId(1), b, p, q, step, n)
    } else {
        make_of(desc, DeviceId(1), b, DeviceId(0), a, p, q, step, n)
    }
}

// Makes a step of device `d`, beside device `t`.
fn make_of(
    desc: &Desc,
    d: DeviceId,
    own: &mut DevPart,
    t: DeviceId,
    other: &mut DevPart,
    p: &mut PagePart,
    q: &mut PagePart,
    step: Step,
    n: u32,
) -> Result<(), Guard>
    requires valid { IsValid desc.now }
    requires device { d < device_count desc.now }
    requires fits { DevFits desc.now d own.old }
    requires target { t < device_count desc.now }
    requires target_fits { DevFits desc.now t other.old }
    requires p { PageFits desc.now p.old }
    requires q { PageFits desc.now q.old }
    ensures fits { DevFits desc.now d own.new }
    ensures target_fits { DevFits desc.now t other.new }
    ensures p { PageFits desc.now p.new }
    ensures q { PageFits desc.now q.new }
{
    match step {
        Step::Issue => step_own(desc, d, own, Entry::Issue { d, n }),
        Step::Complete => step_own(desc, d, own, Entry::Complete { d, n }),
        Step::Deliver => deliver_of(desc, d, own, t, other, p, q, n),
    }
}

// Makes a delivery of device `d`, beside device `t`.
fn deliver_of(
    desc: &Desc,
    d: DeviceId,
    own: &mut DevPart,
    t: DeviceId,
    other: &mut DevPart,
    p: &mut PagePart,
    q: &mut PagePart,
    n: u32,
) -> Result<(), Guard>
    requires valid { IsValid desc.now }
    requires device { d < device_count desc.now }
    requires fits { DevFits desc.now d own.old }
    requires target { t < device_count desc.now }
    requires target_fits { DevFits desc.now t other.old }
    requires p { PageFits desc.now p.old }
    requires q { PageFits desc.now q.old }
    ensures fits { DevFits desc.now d own.new }
    ensures target_fits { DevFits desc.now t other.new }
    ensures p { PageFits desc.now p.new }
    ensures q { PageFits desc.now q.new }
{
    let e = Entry::Deliver { d, n };
    let Some(region) = own.target(desc, d, n) else {
        return step_to_device(desc, d, own, t, other, e);
    };
    if region.is_bar_of(t) {
        return step_to_device(desc, d, own, t, other, e);
    }
    match region {
        Region::Page(0) => step_to_page(desc, d, own, 0, p, e),
        Region::Page(1) => step_to_page(desc, d, own, 1, q, e),
        _ => Err(Guard(Rule::Order)),
    }
}

// A step that is tried, and the rule that it breaks.
#[derive(Clone, Copy)]
struct Try(u8, Step, u32, Option<Rule>);

// The first of these tries that doesn't come so.
fn first_other(desc: &Desc, parts: &mut Parts, tries: &[Try]) -> Option<usize>
    requires valid { IsValid desc.now }
    requires devices { device_count desc.now ≡ 2 }
    requires a { DevFits desc.now 0 parts.old.a }
    requires b { DevFits desc.now 1 parts.old.b }
    requires p { PageFits desc.now parts.old.p }
    requires q { PageFits desc.now parts.old.q }
    ensures a { DevFits desc.now 0 parts.new.a }
    ensures b { DevFits desc.now 1 parts.new.b }
    ensures p { PageFits desc.now parts.new.p }
    ensures q { PageFits desc.now parts.new.q }
{
    for (i, tried) in tries.iter().enumerate() {
        if rule_of(make(desc, parts, tried.0, tried.1, tried.2)) != tried.3 {
            return Some(i);
        }
    }
    None
}

// The rule that was broken, if one was.
fn rule_of(answer: Result<(), Guard>) -> Option<Rule> {
    match answer {
        Ok(()) => None,
        Err(guard) => Some(guard.0),
    }
}

// The move begins.
fn begin(desc: &Desc, parts: &mut Parts)
    requires a { DevFits desc.now 0 parts.old.a }
    requires b { DevFits desc.now 1 parts.old.b }
    ensures a { DevFits desc.now 0 parts.new.a }
    ensures b { DevFits desc.now 1 parts.new.b }
    ensures p { parts.new.p ≡ parts.old.p }
    ensures q { parts.new.q ≡ parts.old.q }
{
    parts.a.begin();
    parts.b.begin();
}

// Reads a block of a device's BARs, if it has it.
fn read(desc: &Desc, d: DeviceId, own: &mut DevPart, b: u32)
    requires valid { IsValid desc.now }
    requires device { d < device_count desc.now }
    requires fits { DevFits desc.now d own.old }
    ensures { DevFits desc.now d own.new }
{
    if b < 2 && own.bar().len() == 128 {
        own.read_block(b);
    }
}

#[test]
fn a_read_waits_behind_a_window_of_two(rt: HostRuntime) -> Result<(), Fail> {
    let alloc = rt.alloc();
    let desc = machine(&rt, alloc, &[0, 1, 10], 9, 2)?;
    let mut parts = parts_of(alloc, &desc)?;
    let tries = [
        Try(0, Step::Issue, 1, Some(Rule::Turn)),
        Try(0, Step::Issue, 0, None),
        Try(0, Step::Issue, 1, None),
        Try(0, Step::Issue, 2, Some(Rule::Turn)),
        Try(0, Step::Deliver, 2, Some(Rule::Turn)),
        Try(0, Step::Complete, 0, Some(Rule::Turn)),
        Try(0, Step::Deliver, 1, None),
        Try(0, Step::Deliver, 1, Some(Rule::Turn)),
        Try(0, Step::Deliver, 0, None),
        Try(0, Step::Complete, 0, None),
        Try(0, Step::Issue, 2, Some(Rule::Turn)),
        Try(0, Step::Complete, 1, None),
        Try(0, Step::Issue, 2, None),
        Try(0, Step::Deliver, 2, None),
        Try(0, Step::Complete, 2, None),
        Try(0, Step::Issue, 3, Some(Rule::Turn)),
    ];
    assert_eq!(rt; first_other(&desc, &mut parts, &tries), None);
    assert_eq!(rt;
        &parts.a.buf()[..9],
        [0, 0, 0, 0x55, 0x44, 0x33, 0x22, 0x11, 0].as_slice()
    );
    assert_eq!(rt; &parts.q.bytes()[55..58], [0, 0xa8, 0xa7].as_slice());
    assert_eq!(rt; parts.a.counts(), (3, 3, 0));
    assert_eq!(rt; parts.a.steps(), (3, 3, 0));
    assert_eq!(rt; parts.b.counts(), (3, 0, 0));
    Ok(())
}

#[test]
fn nothing_passes_a_fence(rt: HostRuntime) -> Result<(), Fail> {
    let alloc = rt.alloc();
    let desc = machine(&rt, alloc, &[10, 0], 9, 8)?;
    let mut parts = parts_of(alloc, &desc)?;
    let tries = [
        Try(1, Step::Issue, 0, None),
        Try(1, Step::Issue, 1, Some(Rule::Turn)),
        Try(1, Step::Deliver, 0, None),
        Try(1, Step::Issue, 1, Some(Rule::Turn)),
        Try(1, Step::Complete, 0, None),
        Try(1, Step::Issue, 1, None),
    ];
    assert_eq!(rt; first_other(&desc, &mut parts, &tries), None);
    Ok(())
}

#[test]
fn three_doorbells_of_which_one_is_lost(rt: HostRuntime) -> Result<(), Fail> {
    let alloc = rt.alloc();
    let desc = machine(&rt, alloc, &[3, 3, 4], 9, 8)?;
    let mut parts = parts_of(alloc, &desc)?;
    begin(&desc, &mut parts);
    read(&desc, DeviceId(1), &mut parts.b, 0);
    read(&desc, DeviceId(1), &mut parts.b, 1);
    let tries = [
        Try(0, Step::Issue, 0, None),
        Try(0, Step::Issue, 1, None),
        Try(0, Step::Issue, 2, None),
        Try(0, Step::Deliver, 1, None),
        Try(0, Step::Deliver, 0, None),
        Try(0, Step::Deliver, 2, None),
    ];
    assert_eq!(rt; first_other(&desc, &mut parts, &tries), None);
    assert_eq!(rt; parts.b.counts(), (5, 0, 1));
    assert_eq!(rt;
        parts.b.pending(),
        [(0, 3), (1, 3), (2, 4), (3, 1), (4, 1)].as_slice()
    );
    assert_eq!(rt; (parts.b.unread_count(), parts.b.dirty_count()), (0, 0));
    assert_eq!(rt; parts.b.bar(), [0; 128].as_slice());
    Ok(())
}

#[test]
fn a_write_over_the_middle_marks_both_blocks(rt: HostRuntime) -> Result<(), Fail> {
    let alloc = rt.alloc();
    let desc = machine(&rt, alloc, &[2, 2, 2], 9, 8)?;
    let mut parts = parts_of(alloc, &desc)?;
    let first = [Try(0, Step::Issue, 0, None), Try(0, Step::Deliver, 0, None)];
    // before Begin nothing is marked, and a block that was never read isn't dirty after it
    read(&desc, DeviceId(1), &mut parts.b, 1);
    assert_eq!(rt; first_other(&desc, &mut parts, &first), None);
    assert_eq!(rt; (parts.b.unread_count(), parts.b.dirty_count()), (1, 0));
    begin(&desc, &mut parts);
    let second = [Try(0, Step::Issue, 1, None), Try(0, Step::Deliver, 1, None)];
    assert_eq!(rt; first_other(&desc, &mut parts, &second), None);
    assert_eq!(rt;
        (parts.b.least_unread(), parts.b.least_dirty()),
        (Some(0), Some(1))
    );
    read(&desc, DeviceId(1), &mut parts.b, 0);
    read(&desc, DeviceId(1), &mut parts.b, 1);
    assert_eq!(rt; parts.b.next_block(), None);
    let third = [Try(0, Step::Issue, 2, None), Try(0, Step::Deliver, 2, None)];
    assert_eq!(rt; first_other(&desc, &mut parts, &third), None);
    assert_eq!(rt; (parts.b.unread_count(), parts.b.dirty_count()), (0, 2));
    assert_eq!(rt; parts.b.next_block(), Some(0));
    read(&desc, DeviceId(1), &mut parts.b, 0);
    assert_eq!(rt; (parts.b.dirty_count(), parts.b.next_block()), (1, Some(1)));
    Ok(())
}

#[test]
fn completions_mark_pages_after_begin(rt: HostRuntime) -> Result<(), Fail> {
    let alloc = rt.alloc();
    let desc = machine(&rt, alloc, &[0, 1], 9, 8)?;
    let mut parts = parts_of(alloc, &desc)?;
    let before = [
        Try(0, Step::Issue, 0, None),
        Try(0, Step::Deliver, 0, None),
        Try(0, Step::Complete, 0, None),
    ];
    assert_eq!(rt; first_other(&desc, &mut parts, &before), None);
    assert_eq!(rt; parts.a.marked_count(), 0);
    begin(&desc, &mut parts);
    let after = [Try(0, Step::Issue, 1, None), Try(0, Step::Deliver, 1, None)];
    assert_eq!(rt; first_other(&desc, &mut parts, &after), None);
    assert_eq!(rt; parts.a.marked_count(), 0);
    let last = [Try(0, Step::Complete, 1, None)];
    assert_eq!(rt; first_other(&desc, &mut parts, &last), None);
    assert_eq!(rt; parts.a.marked_count(), 1);
    let mut pages = PageSet::new();
    parts.a.report(&mut pages);
    assert!(rt; pages.has(1) && !pages.has(0));
    assert_eq!(rt; parts.a.marked_count(), 0);
    Ok(())
}

#[test]
fn the_first_rule_is_told(rt: HostRuntime) -> Result<(), Fail> {
    let alloc = rt.alloc();
    let desc = machine(&rt, alloc, &[0, 2], 1, 8)?;
    let mut parts = parts_of(alloc, &desc)?;
    let before = [
        Try(0, Step::Issue, 0, None),
        Try(0, Step::Issue, 1, Some(Rule::Start)),
    ];
    assert_eq!(rt; first_other(&desc, &mut parts, &before), None);
    take_arc(&desc, DeviceId(0), &mut parts.a, MigState::RunningP2p);
    let after = [
        Try(0, Step::Issue, 0, Some(Rule::Turn)),
        Try(0, Step::Issue, 1, Some(Rule::Barred)),
        Try(0, Step::Deliver, 0, None),
        Try(0, Step::Complete, 0, None),
    ];
    assert_eq!(rt; first_other(&desc, &mut parts, &after), None);
    assert_eq!(rt;
        parts.a.look(&desc, DeviceId(0)).blocked,
        Some(Rule::Barred)
    );
    assert_eq!(rt; parts.a.pick(&desc, DeviceId(0), 7), None);
    Ok(())
}

// Takes an arc.
fn take_arc(desc: &Desc, d: DeviceId, own: &mut DevPart, to: MigState)
    requires { DevFits desc.now d own.old }
    ensures { DevFits desc.now d own.new }
{
    own.arc(to);
}

#[test]
fn steps_are_picked_in_their_order(rt: HostRuntime) -> Result<(), Fail> {
    let alloc = rt.alloc();
    let desc = machine(&rt, alloc, &[0, 1, 0], 9, 8)?;
    let mut parts = parts_of(alloc, &desc)?;
    let d = DeviceId(0);
    let tries = [
        Try(0, Step::Issue, 0, None),
        Try(0, Step::Issue, 1, None),
        Try(0, Step::Deliver, 1, None),
    ];
    assert_eq!(rt; first_other(&desc, &mut parts, &tries), None);
    assert_eq!(rt;
        parts.a.pick(&desc, d, 0),
        Some(Entry::Complete { d, n: 1 })
    );
    assert_eq!(rt; parts.a.pick(&desc, d, 1), Some(Entry::Deliver { d, n: 0 }));
    assert_eq!(rt; parts.a.pick(&desc, d, 2), Some(Entry::Issue { d, n: 2 }));
    assert_eq!(rt;
        parts.a.pick(&desc, d, 3),
        Some(Entry::Complete { d, n: 1 })
    );
    Ok(())
}

#[test]
fn a_loaded_part_stands_in_stop_copy(rt: HostRuntime) -> Result<(), Fail> {
    let alloc = rt.alloc();
    let desc = machine(&rt, alloc, &[], 9, 8)?;
    let pending = [(3, 0), (5, 2)];
    let bar = [7; 128];
    assert!(rt; desc.devices.at(1).bar_bytes() == 128);
    let part = DevPart::staged(
        alloc,
        &desc,
        DeviceId(1),
        &bar,
        (5, 3, 1),
        &pending,
        &[9; 64],
    )?;
    assert_eq!(rt; part.counts(), (5, 3, 1));
    assert_eq!(rt; part.pending(), pending.as_slice());
    assert_eq!(rt; part.bar(), bar.as_slice());
    assert_eq!(rt; part.buf(), &[9; 64]);
    assert_eq!(rt; (part.state(), part.held()), (MigState::StopCopy, None));
    assert_eq!(rt; (part.is_logging(), part.is_released()), (true, false));
    assert_eq!(rt;
        (part.unread_count(), part.dirty_count(), part.marked_count()),
        (2, 0, 0)
    );
    let page = PagePart::holding(alloc, &[1, 2, 3])?;
    let mut into = [0; 2];
    page.get(1, &mut into);
    assert_eq!(rt; into, [2, 3]);
    Ok(())
}

// The lists of a device as described, with these requests pending.
fn lists_of(alloc: Global, queue: &[u32]) -> Result<Lists, Fail> {
    let mut pending = Vec::new(alloc);
    let mut accepted = 0u32;
    for job in queue {
        pending.push((accepted, *job))?;
        accepted = accepted.wrapping_add(1);
    }
    Ok(Lists {
        bar: [0; 128],
        unread: [true; 2],
        dirty: [false; 2],
        marks: [false; 2],
        accepted,
        pending,
        bus: Vec::new(alloc),
        buf: [0; 64],
        done: 0,
        lost: 0,
        issues: 0,
        completes: 0,
        state: MigState::Running,
        hold: None,
        logging: false,
        released: false,
    })
}

// The first of these that holds.
fn first(marks: &[bool; 2]) -> Option<u32> {
    (0..2u32).find(|b| marks[*b as usize])
}

// How many of these hold.
fn count(marks: &[bool; 2]) -> u32 {
    marks.iter().filter(|m| **m).count() as u32
}

// Whether a part has these bytes, requests, counts and marks.
fn is_same_part(part: &DevPart, lists: &Lists) -> bool {
    part.bar() == lists.bar.as_slice()
        && part.buf() == &lists.buf
        && part.pending() == lists.pending.as_slice()
        && part.counts() == (lists.accepted, lists.done, lists.lost)
        && part.is_bus_empty() == lists.bus.is_empty()
        && has_same_marks(part, lists)
}

// Whether it has these marks.
fn has_same_marks(part: &DevPart, lists: &Lists) -> bool {
    part.least_unread() == first(&lists.unread)
        && part.least_dirty() == first(&lists.dirty)
        && part.unread_count() == count(&lists.unread)
        && part.dirty_count() == count(&lists.dirty)
        && part.marked_count() == count(&lists.marks)
}

// Whether it shows this state and these counts, and the rule that bars its next issue.
fn is_same_look(desc: &Desc, d: DeviceId, part: &DevPart, lists: &Lists) -> bool
    requires valid { IsValid desc.now }
    requires device { d < device_count desc.now }
    requires fits { DevFits desc.now d part.now }
{
    let look = part.look(desc, d);
    let next = lists.next().map_or(63, |request| request.0);
    let delivered = lists.bus.iter().filter(|flight| flight.2).count();
    (look.state, look.held) == (lists.state, lists.hold)
        && (look.issued, look.completes) == (lists.issues, lists.completes)
        && look.delivered as usize == delivered
        && look.blocked == lists.fault(Step::Issue, next, 5, 3)
}

// Whether the entry that is picked is the one that the lists say: completions, deliveries, and the next issue.
fn is_same_pick(desc: &Desc, d: DeviceId, part: &DevPart, lists: &Lists, pick: u32) -> bool
    requires valid { IsValid desc.now }
    requires device { d < device_count desc.now }
    requires fits { DevFits desc.now d part.now }
{
    let issue = lists
        .next()
        .filter(|r| lists.fault(Step::Issue, r.0, 5, 3).is_none());
    let count = u32::try_from(lists.bus.len())
        .unwrap_or(0)
        .wrapping_add(u32::from(issue.is_some()));
    let mut left = if count == 0 { 0 } else { pick % count };
    for delivered in [true, false] {
        for flight in &lists.bus {
            if flight.2 == delivered {
                if left == 0 {
                    return part.pick(desc, d, pick) == Some(step_entry(d, delivered, flight.0));
                }
                left = left.wrapping_sub(1);
            }
        }
    }
    part.pick(desc, d, pick) == issue.map(|request| Entry::Issue { d, n: request.0 })
}

// A completion or a delivery.
fn step_entry(d: DeviceId, delivered: bool, n: u32) -> Entry {
    if delivered {
        Entry::Complete { d, n }
    } else {
        Entry::Deliver { d, n }
    }
}

// A step that a random number picks, for these lists: mostly one that may be allowed.
fn step_of(lists: &Lists, draw: u64) -> (Step, u32) {
    let any = (draw / 16 % 32) as u32;
    let wild = draw % 4 == 0;
    match draw / 4 % 4 {
        0 | 3 => {
            let next = lists.next().map_or(any, |request| request.0);
            (Step::Issue, if wild { any } else { next })
        }
        1 => (
            Step::Deliver,
            if wild {
                any
            } else {
                first_of(&lists.bus, false)
            },
        ),
        _ => (
            Step::Complete,
            if wild {
                any
            } else {
                first_of(&lists.bus, true)
            },
        ),
    }
}

// Makes a step on the lists of a device, beside those of the other; the first rule that it breaks, and then nothing changes.
fn make_on_lists(
    own: &mut Lists,
    other: &mut Lists,
    pages: &mut Pages,
    step: Step,
    n: u32,
) -> Result<Option<Rule>, Fail> {
    let fault = own.fault(step, n, 5, 3);
    if fault.is_some() {
        return Ok(fault);
    }
    match step {
        Step::Issue => own.issue(n)?,
        Step::Deliver => own.deliver(other, pages, n)?,
        Step::Complete => own.complete(n),
    }
    Ok(None)
}

// A step of the move on a device's part and on its lists, and whether both give the same.
fn move_step(desc: &Desc, d: DeviceId, part: &mut DevPart, lists: &mut Lists, draw: u64) -> bool
    requires valid { IsValid desc.now }
    requires device { d < device_count desc.now }
    requires fits { DevFits desc.now d part.old }
    ensures { DevFits desc.now d part.new }
{
    let states = [
        MigState::Running,
        MigState::RunningP2p,
        MigState::PreCopy,
        MigState::Stop,
        MigState::Running,
        MigState::PreCopyP2p,
        MigState::PreCopy,
        MigState::Running,
    ];
    let state = states[(draw / 8 % 8) as usize];
    match draw % 8 {
        0 => {
            part.begin();
            lists.logging = true;
            lists.marks = [false; 2];
        }
        1 => {
            let mut pages = PageSet::new();
            part.report(&mut pages);
            let same = pages.has(0) == lists.marks[0] && pages.has(1) == lists.marks[1];
            lists.marks = [false; 2];
            return same && pages.len() <= 2;
        }
        2 | 3 => {
            let b = draw / 8 % 2;
            read(desc, d, part, b as u32);
            lists.unread[b as usize] = false;
            lists.dirty[b as usize] = false;
        }
        4 => {
            part.hold(state);
            lists.hold = Some(state);
        }
        5 => {
            part.release();
            lists.hold = None;
            lists.released = true;
        }
        6 if draw / 8 % 16 == 0 => {
            part.resume();
            lists.state = MigState::Resuming;
            lists.logging = false;
            lists.released = true;
            lists.marks = [false; 2];
            lists.unread = [false; 2];
            lists.dirty = [false; 2];
        }
        _ => {
            part.arc(state);
            lists.state = state;
            lists.hold = None;
        }
    }
    true
}

// The parts of a game beside its lists.
#[derive(Drop)]
struct Game {
    parts: Parts,
    a: Lists,
    b: Lists,
    pages: Pages,
}

// One random step of a device or of the move on it, and whether parts and lists say the same of it and are the same after
// it.
fn play(desc: &Desc, game: &mut Game, draw: u64) -> Result<bool, Fail>
    requires valid { IsValid desc.now }
    requires devices { device_count desc.now ≡ 2 }
    requires a { DevFits desc.now 0 game.old.parts.a }
    requires b { DevFits desc.now 1 game.old.parts.b }
    requires p { PageFits desc.now game.old.parts.p }
    requires q { PageFits desc.now game.old.parts.q }
    ensures a { DevFits desc.now 0 game.new.parts.a }
    ensures b { DevFits desc.now 1 game.new.parts.b }
    ensures p { PageFits desc.now game.new.parts.p }
    ensures q { PageFits desc.now game.new.parts.q }
{
    let Game { parts, a, b, pages } = game;
    let d = (draw % 2) as u8;
    let rest = draw / 32;
    if draw / 2 % 16 == 0 {
        return Ok(play_move(desc, parts, a, b, draw));
    }
    let (step, n) = step_of(if d == 0 { a } else { b }, rest);
    let fault = fault_on_lists(d, a, b, pages, step, n)?;
    Ok(rule_of(make(desc, parts, d, step, n)) == fault)
}

// A step of the move on one of the devices.
fn play_move(desc: &Desc, parts: &mut Parts, a: &mut Lists, b: &mut Lists, draw: u64) -> bool
    requires valid { IsValid desc.now }
    requires devices { device_count desc.now ≡ 2 }
    requires a { DevFits desc.now 0 parts.old.a }
    requires b { DevFits desc.now 1 parts.old.b }
    ensures a { DevFits desc.now 0 parts.new.a }
    ensures b { DevFits desc.now 1 parts.new.b }
    ensures p { parts.new.p ≡ parts.old.p }
    ensures q { parts.new.q ≡ parts.old.q }
{
    if draw % 2 == 0 {
        move_step(desc, DeviceId(0), &mut parts.a, a, draw / 32)
    } else {
        move_step(desc, DeviceId(1), &mut parts.b, b, draw / 32)
    }
}

// Makes a step on the lists of device 0 or else of device 1.
fn fault_on_lists(
    d: u8,
    a: &mut Lists,
    b: &mut Lists,
    pages: &mut Pages,
    step: Step,
    n: u32,
) -> Result<Option<Rule>, Fail> {
    if d == 0 {
        make_on_lists(a, b, pages, step, n)
    } else {
        make_on_lists(b, a, pages, step, n)
    }
}

// Whether parts and lists are the same.
fn is_same(desc: &Desc, game: &Game, draw: u64) -> bool
    requires valid { IsValid desc.now }
    requires devices { device_count desc.now ≡ 2 }
    requires a { DevFits desc.now 0 game.now.parts.a }
    requires b { DevFits desc.now 1 game.now.parts.b }
{
    let pick = (draw / 8 % 97) as u32;
    is_same_part(&game.parts.a, &game.a)
        && is_same_part(&game.parts.b, &game.b)
        && is_same_look(desc, DeviceId(0), &game.parts.a, &game.a)
        && is_same_look(desc, DeviceId(1), &game.parts.b, &game.b)
        && is_same_pick(desc, DeviceId(0), &game.parts.a, &game.a, pick)
        && is_same_pick(desc, DeviceId(1), &game.parts.b, &game.b, pick)
        && game.parts.p.bytes() == game.pages.p.as_slice()
        && game.parts.q.bytes() == game.pages.q.as_slice()
}

#[test]
fn parts_are_their_lists(rt: HostRuntime) -> Result<(), Fail> {
    let alloc = rt.alloc();
    let queue = [2, 3, 0, 5, 2, 11, 7, 1, 9, 8, 6, 3, 10, 4, 2, 5, 3, 2, 0, 9];
    let desc = machine(&rt, alloc, &queue, 5, 3)?;
    let mut seed = 7u64;
    let mut made = 0u32;
    for _ in 0..400u32 {
        let mut game = Game {
            parts: parts_of(alloc, &desc)?,
            a: lists_of(alloc, &queue)?,
            b: lists_of(alloc, &queue)?,
            pages: Pages {
                p: [0; 64],
                q: [0; 64],
            },
        };
        for _ in 0..250u32 {
            seed = seed
                .wrapping_mul(6364136223846793005)
                .wrapping_add(1442695040888963407);
            assert!(rt; play(&desc, &mut game, seed >> 20)?);
            assert!(rt; is_same(&desc, &game, seed >> 20));
        }
        made = made
            .wrapping_add(game.a.completes)
            .wrapping_add(game.b.completes);
    }
    // the steps came far
    assert!(rt; made > 5_000);
    Ok(())
}
