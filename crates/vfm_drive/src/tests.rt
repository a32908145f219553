//! Worked runs of one device, driven by their owner alone.

ghost use Rattle.std.specs.Prelude.{IfOk};
ghost use Rattle.vfm_types.specs.Valid.{IsValid};
ghost use Rattle.vfm_drive.specs.Runs.{HasRun};

use crate::{give_up, round, run_on, step_devices};
use std::alloc::Global;
use std::process::Abort;
use std::test::Fail;
use vfm_core::Core;
use vfm_types::{
    Bars, Bytes64, Desc, DevShape, DeviceId, Entry, Flags, Job, Jobs, MigState, Name, Queue, Shapes,
};

// The device.
const A: DeviceId = DeviceId(0);

// What a move is limited by, and what its device can do.
#[derive(Clone, Copy)]
struct Limits {
    pages: u32,
    begin: u32,
    rounds: u32,
    flags: u8,
}

// A device whose one request writes 1, 2, 3, 4 into the second page of 16 bytes.
fn device(alloc: Global, flags: u8) -> Result<DevShape, Fail> {
    let bytes = Bytes64::of(&[1, 2, 3, 4]).ok_or("no bytes")?;
    let mut jobs = Vec::new(alloc);
    jobs.push(Job::Write { at: 18, bytes })?;
    let queue = Vec::from_slice(alloc, &[0])?;
    Ok(DevShape {
        name: Name::of(b"a").ok_or("no name")?,
        flags: Flags::of(flags).ok_or("no flags")?,
        bars: Bars::of(&[64]).ok_or("no bars")?,
        window: 1,
        tells: true,
        budget: 2,
        fails: 0,
        jobs: Jobs::of(jobs),
        queue: Queue::of(queue),
    })
}

// A machine of this device.
fn machine(rt: &impl Abort, limits: Limits, device: DevShape, alloc: Global) -> Result<Desc, Fail>
    ensures { IfOk result IsValid }
{
    let mut devices = Vec::new(alloc);
    devices.push(device)?;
    let desc = Desc {
        session: 7,
        page: 16,
        pages: limits.pages,
        channels: 1,
        version: 1,
        begin: limits.begin,
        rounds: limits.rounds,
        threshold: 0,
        devices: Shapes::of(devices),
    };
    assert!(rt; desc.is_in_range());
    Ok(Desc::new(desc)?)
}

// Its core.
fn writer(rt: &impl Abort, alloc: Global, limits: Limits) -> Result<Core, Fail>
    ensures { IfOk result (λ core. HasRun core.desc core.world) }
{
    let device = device(alloc, limits.flags)?;
    let core = Core::of(alloc, machine(rt, limits, device, alloc)?)?;
    Ok(core)
}

fn hold(to: MigState) -> Entry {
    Entry::Hold { d: A, to }
}

fn arc(to: MigState) -> Entry {
    Entry::Arc { d: A, to }
}

#[test]
fn a_device_steps_before_the_move(rt: HostRuntime) -> Result<(), Fail> {
    let limits = Limits {
        pages: 2,
        begin: 1,
        rounds: 0,
        flags: 7,
    };
    let mut core = writer(&rt, rt.alloc(), limits)?;
    assert!(rt; step_devices(&mut core));
    assert!(rt; step_devices(&mut core));
    assert!(rt; step_devices(&mut core));
    assert!(rt; !step_devices(&mut core));
    let journal = [
        Entry::Issue { d: A, n: 0 },
        Entry::Deliver { d: A, n: 0 },
        Entry::Complete { d: A, n: 0 },
    ];
    assert_eq!(rt; core.journal().as_slice(), journal.as_slice());
    Ok(())
}

#[test]
fn a_whole_move_round_by_round(rt: HostRuntime) -> Result<(), Fail> {
    let limits = Limits {
        pages: 2,
        begin: 0,
        rounds: 1,
        flags: 1,
    };
    let mut core = writer(&rt, rt.alloc(), limits)?;
    run_on(&mut core, 0);
    let journal = [
        Entry::Begin,
        Entry::Issue { d: A, n: 0 },
        Entry::Pass { k: 1 },
        Entry::Deliver { d: A, n: 0 },
        Entry::Copy { p: 0 },
        Entry::Complete { d: A, n: 0 },
        Entry::Copy { p: 1 },
        hold(MigState::Stop),
        arc(MigState::Stop),
        arc(MigState::StopCopy),
        Entry::Joint,
        Entry::Report { d: A },
        Entry::Pass { k: 2 },
        Entry::Copy { p: 1 },
        Entry::Block { d: A, b: 0 },
    ];
    assert_eq!(rt; core.journal().as_slice(), journal.as_slice());
    Ok(())
}

#[test]
fn abort_is_due_after_a_pass(rt: HostRuntime) -> Result<(), Fail> {
    let limits = Limits {
        pages: 2,
        begin: 0,
        rounds: 1,
        flags: 1,
    };
    let mut core = writer(&rt, rt.alloc(), limits)?;
    run_on(&mut core, 1);
    let journal = [
        Entry::Begin,
        Entry::Issue { d: A, n: 0 },
        Entry::Pass { k: 1 },
        Entry::Deliver { d: A, n: 0 },
        Entry::Copy { p: 0 },
        Entry::Complete { d: A, n: 0 },
        Entry::Copy { p: 1 },
        Entry::Abort,
    ];
    assert_eq!(rt; core.journal().as_slice(), journal.as_slice());
    Ok(())
}

#[test]
fn given_up_before_the_move(rt: HostRuntime) -> Result<(), Fail> {
    let limits = Limits {
        pages: 2,
        begin: 0,
        rounds: 1,
        flags: 7,
    };
    let mut core = writer(&rt, rt.alloc(), limits)?;
    give_up(&mut core);
    let journal = [
        Entry::Abort,
        Entry::Issue { d: A, n: 0 },
        Entry::Deliver { d: A, n: 0 },
        Entry::Complete { d: A, n: 0 },
    ];
    assert_eq!(rt; core.journal().as_slice(), journal.as_slice());
    Ok(())
}

// Makes rounds up to the arc to STOP: whether each made something.
fn up_to_stop(core: &mut Core) -> bool
    requires { HasRun core.old.desc core.old.world }
    ensures { HasRun core.new.desc core.new.world }
{
    let begun = round(core, 0);
    let held = round(core, 0);
    let entered = round(core, 0);
    let held_again = round(core, 0);
    let stopped = round(core, 0);
    begun && held && entered && held_again && stopped
}

#[test]
fn given_up_in_stop_and_once_more(rt: HostRuntime) -> Result<(), Fail> {
    let limits = Limits {
        pages: 2,
        begin: 0,
        rounds: 0,
        flags: 7,
    };
    let mut core = writer(&rt, rt.alloc(), limits)?;
    assert!(rt; up_to_stop(&mut core));
    give_up(&mut core);
    let journal = [
        Entry::Begin,
        Entry::Issue { d: A, n: 0 },
        hold(MigState::RunningP2p),
        Entry::Deliver { d: A, n: 0 },
        arc(MigState::RunningP2p),
        Entry::Complete { d: A, n: 0 },
        hold(MigState::Stop),
        arc(MigState::Stop),
        Entry::Abort,
        arc(MigState::RunningP2p),
        arc(MigState::Running),
    ];
    assert_eq!(rt; core.journal().as_slice(), journal.as_slice());
    give_up(&mut core);
    assert_eq!(rt; core.journal().as_slice(), journal.as_slice());
    Ok(())
}

#[test]
fn a_round_is_of_the_device_and_then_of_the_coordinator(rt: HostRuntime) -> Result<(), Fail> {
    let limits = Limits {
        pages: 2,
        begin: 1,
        rounds: 0,
        flags: 7,
    };
    let mut core = writer(&rt, rt.alloc(), limits)?;
    assert!(rt; round(&mut core, 0));
    assert!(rt; round(&mut core, 0));
    assert!(rt; round(&mut core, 0));
    let journal = [
        Entry::Issue { d: A, n: 0 },
        Entry::Deliver { d: A, n: 0 },
        Entry::Complete { d: A, n: 0 },
        Entry::Begin,
    ];
    assert_eq!(rt; core.journal().as_slice(), journal.as_slice());
    Ok(())
}
