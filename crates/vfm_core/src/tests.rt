//! Worked cases over whole cores: what is allowed, by which rule the rest is refused, and the journals that come of it.

ghost use Rattle.std.specs.Prelude.{IfOk};
ghost use Rattle.vfm_types.specs.Valid.{IsValid};

use crate::Core;
use std::alloc::Global;
use std::process::Abort;
use std::test::Fail;
use vfm_plain::Plain;
use vfm_quiet::{Want, next};
use vfm_types::{
    Bars, Bytes64, Desc, DevShape, DeviceId, Entry, Flags, Job, Jobs, MigState, Name, Queue, Rule,
    Shapes,
};

// Device 0 and the ones after it.
const A: DeviceId = DeviceId(0);

const B: DeviceId = DeviceId(1);

const C: DeviceId = DeviceId(2);

// Where the BARs of device 1 begin.
const BAR_OF_B: u64 = 0x1000_0000 + 0x8_0000;

// A device with these BARs (bytes) and jobs, of which each number of the queue is pending.
fn device(
    alloc: Global,
    name: &[u8],
    flags: u8,
    bar: u32,
    jobs: Vec<Job>,
    queue: &[u32],
) -> Result<DevShape, Fail> {
    if jobs.len() > 4096 {
        return Err("too many jobs".into());
    }
    let queue = Vec::from_slice(alloc, queue)?;
    if queue.len() > 50_000 {
        return Err("too long a queue".into());
    }
    Ok(DevShape {
        name: Name::of(name).ok_or("no name")?,
        flags: Flags::of(flags).ok_or("no flags")?,
        bars: Bars::of(&[bar]).ok_or("no bars")?,
        window: 1,
        tells: true,
        budget: 2,
        fails: 0,
        jobs: Jobs::of(jobs),
        queue: Queue::of(queue),
    })
}

// What a move is limited by.
#[derive(Clone, Copy)]
struct Limits {
    pages: u32,
    begin: u32,
    rounds: u32,
}

// A machine of these devices with pages of 16 bytes.
fn machine(rt: &impl Abort, limits: Limits, devices: Vec<DevShape>) -> Result<Desc, Fail>
    ensures { IfOk result IsValid }
{
    assert!(rt; devices.len() <= 8);
    let desc = Desc {
        session: 7,
        page: 16,
        pages: limits.pages,
        channels: 1,
        version: 1,
        begin: limits.begin,
        rounds: limits.rounds,
        threshold: 0,
        devices: Shapes::of(devices),
    };
    assert!(rt; desc.is_in_range());
    Ok(Desc::new(desc)?)
}

// Makes each entry in its turn. Whether each was allowed, or refused by the rule beside it, with the core as long as before.
fn comes_so(core: &mut Core, steps: &[(Entry, Option<Rule>)]) -> bool {
    for k in 0..steps.len() {
        let step = &steps[k];
        if !core.has_entry(&step.0) {
            return false;
        }
        let before = core.journal().len();
        let as_told = match core.step(step.0) {
            Ok(()) => step.1.is_none() && core.journal().len() > before,
            Err(guard) => step.1 == Some(guard.0) && core.journal().len() == before,
        };
        if !as_told {
            return false;
        }
    }
    true
}

// A write of these bytes.
fn write(at: u64, bytes: &[u8]) -> Result<Job, Fail> {
    let bytes = Bytes64::of(bytes).ok_or("no bytes")?;
    Ok(Job::Write { at, bytes })
}

fn hold(d: DeviceId, to: MigState) -> Entry {
    Entry::Hold { d, to }
}

fn arc(d: DeviceId, to: MigState) -> Entry {
    Entry::Arc { d, to }
}

#[test]
fn a_device_waits_for_its_own_writes(rt: HostRuntime) -> Result<(), Fail> {
    let alloc = rt.alloc();
    let mut jobs = Vec::new(alloc);
    jobs.push(write(BAR_OF_B + 64, &[0xa1])?)?;
    let mut devices = Vec::new(alloc);
    devices.push(device(alloc, b"a", 7, 128, jobs, &[0])?)?;
    devices.push(device(alloc, b"b", 7, 128, Vec::new(alloc), &[])?)?;
    let limits = Limits {
        pages: 1,
        begin: 0,
        rounds: 0,
    };
    let mut core = Core::of(alloc, machine(&rt, limits, devices)?)?;
    let steps = [
        (Entry::Issue { d: A, n: 0 }, Some(Rule::Start)),
        (Entry::Begin, None),
        (Entry::Issue { d: A, n: 0 }, None),
        (hold(A, MigState::RunningP2p), None),
        (arc(A, MigState::RunningP2p), Some(Rule::Quiet)),
        (Entry::Deliver { d: A, n: 0 }, None),
        (Entry::Complete { d: A, n: 0 }, None),
        (arc(A, MigState::RunningP2p), None),
    ];
    assert!(rt; comes_so(&mut core, &steps));
    assert!(rt; core.has_entry(&Entry::Block { d: B, b: 1 }));
    assert_eq!(rt; core.block(B, 1)[0], 0xa1);
    Ok(())
}

// Whether the digest of a core has these digits.
fn has_digest(alloc: Global, core: &Core, digits: &str) -> Result<bool, Fail> {
    let text = hex::encode(alloc, &core.digest())?;
    Ok(text.as_str() == digits)
}

#[test]
fn a_core_has_the_digest_of_its_machine(rt: HostRuntime) -> Result<(), Fail> {
    let alloc = rt.alloc();
    let mut jobs = Vec::new(alloc);
    jobs.push(write(BAR_OF_B + 64, &[0xa1])?)?;
    let mut devices = Vec::new(alloc);
    devices.push(device(alloc, b"a", 7, 128, jobs, &[0])?)?;
    devices.push(device(alloc, b"b", 7, 128, Vec::new(alloc), &[])?)?;
    let limits = Limits {
        pages: 1,
        begin: 1,
        rounds: 0,
    };
    let mut core = Core::of(alloc, machine(&rt, limits, devices)?)?;
    // the SHA-256 of the lines of each machine by another program
    let at_first = "d3d19dbdf6ec431fc54fab5f3ebd82a7aca426ff1f04fff0a9dd9caf95cdda51";
    assert!(rt; has_digest(alloc, &core, at_first)?);
    // an issue changes no machine, and a delivery does
    assert!(rt; comes_so(&mut core, &[(Entry::Issue { d: A, n: 0 }, None)]));
    assert!(rt; has_digest(alloc, &core, at_first)?);
    assert!(rt; comes_so(&mut core, &[(Entry::Deliver { d: A, n: 0 }, None)]));
    assert!(rt;
        has_digest(
            alloc,
            &core,
            "836fd84f7537fe1b2e33f1b6a16e1993aa40789754387487f466f9a798566e2c"
        )?
    );
    Ok(())
}

// Three devices with P2P and PRE_COPY, and nothing to do.
fn three(rt: &impl Abort, alloc: Global) -> Result<Core, Fail> {
    let mut devices = Vec::new(alloc);
    devices.push(device(alloc, b"a", 7, 64, Vec::new(alloc), &[])?)?;
    devices.push(device(alloc, b"b", 7, 64, Vec::new(alloc), &[])?)?;
    devices.push(device(alloc, b"c", 7, 64, Vec::new(alloc), &[])?)?;
    let limits = Limits {
        pages: 1,
        begin: 0,
        rounds: 0,
    };
    Ok(Core::of(alloc, machine(rt, limits, devices)?)?)
}

#[test]
fn none_stops_while_another_runs(rt: HostRuntime) -> Result<(), Fail> {
    let mut core = three(&rt, rt.alloc())?;
    let steps = [
        (Entry::Begin, None),
        (hold(A, MigState::RunningP2p), None),
        (arc(A, MigState::RunningP2p), None),
        (hold(B, MigState::RunningP2p), None),
        (arc(B, MigState::RunningP2p), None),
        (hold(B, MigState::Stop), Some(Rule::Quiet)),
        (hold(C, MigState::RunningP2p), None),
        (arc(C, MigState::RunningP2p), None),
        (hold(B, MigState::Stop), None),
        (arc(B, MigState::Stop), None),
        (Entry::Joint, Some(Rule::Joint)),
        (Entry::Abort, None),
        (arc(A, MigState::Running), Some(Rule::Quiet)),
        (arc(B, MigState::RunningP2p), None),
        (arc(A, MigState::Running), None),
        (Entry::Abort, Some(Rule::Order)),
        (Entry::Resume, Some(Rule::Order)),
    ];
    assert!(rt; comes_so(&mut core, &steps));
    assert_eq!(rt; core.look().devices[1].state, MigState::RunningP2p);
    Ok(())
}

// One device with these flags that writes 1, 2, 3, 4 at an address.
fn writer(
    rt: &impl Abort,
    alloc: Global,
    flags: u8,
    at: u64,
    limits: Limits,
) -> Result<Core, Fail> {
    let mut jobs = Vec::new(alloc);
    jobs.push(write(at, &[1, 2, 3, 4])?)?;
    let mut devices = Vec::new(alloc);
    devices.push(device(alloc, b"a", flags, 64, jobs, &[0])?)?;
    Ok(Core::of(alloc, machine(rt, limits, devices)?)?)
}

#[test]
fn a_pass_copies_what_was_reported(rt: HostRuntime) -> Result<(), Fail> {
    let limits = Limits {
        pages: 1,
        begin: 0,
        rounds: 2,
    };
    let mut core = writer(&rt, rt.alloc(), 7, 0, limits)?;
    let steps = [
        (Entry::Begin, None),
        (Entry::Pass { k: 1 }, Some(Rule::Decide)),
        (arc(A, MigState::PreCopy), None),
        (Entry::Issue { d: A, n: 0 }, None),
        (Entry::Deliver { d: A, n: 0 }, None),
        (Entry::Pass { k: 1 }, None),
        (Entry::Report { d: A }, Some(Rule::Pages)),
        (Entry::Block { d: A, b: 0 }, Some(Rule::Blocks)),
        (Entry::Copy { p: 0 }, None),
        (Entry::Complete { d: A, n: 0 }, None),
        (Entry::Dry { d: A }, Some(Rule::Blocks)),
        (Entry::Block { d: A, b: 0 }, None),
        (Entry::Pass { k: 2 }, Some(Rule::Pages)),
        (Entry::Report { d: A }, None),
        (Entry::Pass { k: 2 }, None),
        (Entry::Copy { p: 0 }, None),
        (Entry::Dry { d: A }, None),
        (hold(A, MigState::PreCopyP2p), None),
    ];
    assert!(rt; comes_so(&mut core, &steps));
    Ok(())
}

#[test]
fn a_page_between_two_reports_comes_in_the_later_pass(rt: HostRuntime) -> Result<(), Fail> {
    let limits = Limits {
        pages: 2,
        begin: 0,
        rounds: 2,
    };
    let mut core = writer(&rt, rt.alloc(), 1, 18, limits)?;
    let steps = [
        (Entry::Begin, None),
        (Entry::Pass { k: 1 }, None),
        (Entry::Issue { d: A, n: 0 }, None),
        (Entry::Copy { p: 0 }, None),
        (Entry::Copy { p: 1 }, None),
        (Entry::Deliver { d: A, n: 0 }, None),
        (Entry::Report { d: A }, None),
        (Entry::Pass { k: 2 }, None),
        (Entry::Copy { p: 1 }, Some(Rule::Pages)),
        (Entry::Complete { d: A, n: 0 }, None),
        (hold(A, MigState::Stop), None),
        (arc(A, MigState::Stop), None),
        (arc(A, MigState::StopCopy), None),
        (Entry::Joint, None),
        (Entry::Resume, Some(Rule::Joint)),
        (Entry::Report { d: A }, None),
        (Entry::Pass { k: 3 }, None),
        (Entry::Copy { p: 1 }, None),
        (Entry::Resume, Some(Rule::Joint)),
        (Entry::Block { d: A, b: 0 }, None),
        (Entry::Resume, None),
    ];
    assert!(rt; comes_so(&mut core, &steps));
    let bytes = [1u8, 2, 3, 4];
    assert!(rt; core.has_entry(&Entry::Copy { p: 1 }));
    assert!(rt; &core.page(1)[2..6] == bytes.as_slice());
    Ok(())
}

// A round of one device's first step and one of the coordinator. Whether anything was made.
fn round(core: &mut Core) -> bool {
    if !core.has_entry(&Entry::Dry { d: A }) {
        return false;
    }
    let own = match core.pick(A, 0) {
        Some(e) => core.has_entry(&e) && core.step(e).is_ok(),
        None => false,
    };
    let look = core.look();
    if look.count != 1 || look.passes >= 9 || u32::from(look.count) != core.desc().devices.len() {
        return false;
    }
    match next(core.desc(), &look, 0) {
        Want::Do(e) => core.has_entry(&e) && core.step(e).is_ok(),
        _ => own,
    }
}

#[test]
fn a_move_by_the_coordinators_order(rt: HostRuntime) -> Result<(), Fail> {
    let limits = Limits {
        pages: 2,
        begin: 0,
        rounds: 1,
    };
    let mut core = writer(&rt, rt.alloc(), 1, 18, limits)?;
    for _ in 0..30u32 {
        if !round(&mut core) {
            break;
        }
    }
    let journal = [
        Entry::Begin,
        Entry::Issue { d: A, n: 0 },
        Entry::Pass { k: 1 },
        Entry::Deliver { d: A, n: 0 },
        Entry::Copy { p: 0 },
        Entry::Complete { d: A, n: 0 },
        Entry::Copy { p: 1 },
        hold(A, MigState::Stop),
        arc(A, MigState::Stop),
        arc(A, MigState::StopCopy),
        Entry::Joint,
        Entry::Report { d: A },
        Entry::Pass { k: 2 },
        Entry::Copy { p: 1 },
        Entry::Block { d: A, b: 0 },
    ];
    assert_eq!(rt; core.journal().as_slice(), journal.as_slice());
    let apart = core.split();
    let core = apart.join();
    assert_eq!(rt; core.journal().len(), 15);
    assert!(rt; core.look().last && core.look().ended);
    Ok(())
}

#[test]
fn an_early_end_and_the_way_home(rt: HostRuntime) -> Result<(), Fail> {
    let limits = Limits {
        pages: 2,
        begin: 0,
        rounds: 0,
    };
    let mut core = writer(&rt, rt.alloc(), 7, 18, limits)?;
    let steps = [
        (Entry::Begin, None),
        (hold(A, MigState::RunningP2p), None),
        (arc(A, MigState::RunningP2p), None),
        (hold(A, MigState::Stop), None),
        (Entry::Issue { d: A, n: 0 }, Some(Rule::Barred)),
        (arc(A, MigState::Stop), None),
        (
            Entry::Fail {
                d: A,
                to: MigState::StopCopy,
            },
            Some(Rule::Path),
        ),
        (arc(A, MigState::RunningP2p), Some(Rule::Path)),
        (Entry::Abort, None),
        (hold(A, MigState::StopCopy), Some(Rule::Order)),
        (arc(A, MigState::StopCopy), Some(Rule::Path)),
        (arc(A, MigState::RunningP2p), None),
        (arc(A, MigState::Running), None),
        (Entry::Issue { d: A, n: 0 }, None),
        (Entry::Deliver { d: A, n: 0 }, None),
        (Entry::Complete { d: A, n: 0 }, None),
        (Entry::Complete { d: A, n: 0 }, Some(Rule::Turn)),
    ];
    assert!(rt; comes_so(&mut core, &steps));
    Ok(())
}

#[test]
fn a_delivery_makes_another_machine(rt: HostRuntime) -> Result<(), Fail> {
    let alloc = rt.alloc();
    let limits = Limits {
        pages: 2,
        begin: 1,
        rounds: 0,
    };
    let mut core = writer(&rt, alloc, 7, 18, limits)?;
    let other = writer(&rt, alloc, 7, 18, limits)?;
    let before = [(Entry::Issue { d: A, n: 0 }, None)];
    assert!(rt; comes_so(&mut core, &before));
    assert!(rt; core.same(&other) && other.same(&core));
    let steps = [(Entry::Deliver { d: A, n: 0 }, None)];
    assert!(rt; comes_so(&mut core, &steps));
    assert!(rt; !core.same(&other));
    let mut plain = Plain::of(alloc, core.desc())?;
    let mut described = Plain::of(alloc, other.desc())?;
    other.copy_into(&mut described);
    assert!(rt; plain.same(&described));
    core.copy_into(&mut plain);
    assert!(rt; !plain.same(&described));
    Ok(())
}
