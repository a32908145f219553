//! Steps of the engines of a machine, and writes to the BARs of a device.

ghost use Rattle.std.specs.Prelude.{◌≡◌, ◌<◌, ◌≤◌, IfOk};
ghost use Rattle.vfm_types.specs.Desc.{device_count};
ghost use Rattle.vfm_types.specs.Valid.{IsValid};
ghost use Rattle.vfm_device.specs.EngineState.{EngineKept};

use crate::case::MOST_REQUESTS;
use anyhow::{Result, bail};
use std::alloc::Global;
use vfm_device::Engine;
use vfm_space::Bar;
use vfm_types::{Desc, DeviceId};

/// How many bytes the BARs have that are written: the most that a device can have.
const BAR_BYTES: u32 = 65_536;

/// How often the engines of a machine make all their requests: with 50,000 a device these are ten million steps.
const ROUNDS: u32 = 9;

/// Makes every request of each device by its engine, nine times over: issues it, delivers it and completes it. Answers how
/// many steps these were.
pub fn engine_steps(alloc: Global, desc: &Desc) -> Result<u64>
    requires { IsValid desc.now }
{
    let mut steps = 0u64;
    for _ in 0..ROUNDS {
        steps = steps.saturating_add(round_of_steps(alloc, desc)?);
    }
    Ok(steps)
}

// the same once
fn round_of_steps(alloc: Global, desc: &Desc) -> Result<u64>
    requires { IsValid desc.now }
{
    let mut steps = 0u64;
    for d in 0..desc.devices.len() {
        let d = DeviceId(d as u8);
        let mut engine = engine_of(alloc, desc, d)?;
        steps = steps.saturating_add(steps_of(desc, d, &mut engine));
    }
    Ok(steps)
}

// the engine of a device
fn engine_of(alloc: Global, desc: &Desc, d: DeviceId) -> Result<Engine>
    requires valid { IsValid desc.now }
    requires device { d < device_count desc.now }
    ensures { IfOk result (EngineKept desc.now d) }
{
    let Ok(engine) = Engine::of(alloc, desc, d) else {
        bail!("no memory for an engine");
    };
    Ok(engine)
}

// makes one request of the engine after the other, until none may be issued; answers how many steps these were
fn steps_of(desc: &Desc, d: DeviceId, engine: &mut Engine) -> u64
    requires valid { IsValid desc.now }
    requires kept { EngineKept desc.now d engine.old }
{
    let mut steps = 0u64;
    for _ in 0..MOST_REQUESTS {
        let Some(n) = issue(engine, desc, d) else {
            return steps;
        };
        if !deliver(engine, desc, d, n) || !complete(engine, desc, d, n) {
            return steps;
        }
        steps = steps.saturating_add(3);
    }
    steps
}

// issues the next request, if one may be issued; its number
fn issue(engine: &mut Engine, desc: &Desc, d: DeviceId) -> Option<u32>
    requires valid { IsValid desc.now }
    requires kept { EngineKept desc.now d engine.old }
    ensures { EngineKept desc.now d engine.new }
{
    match engine.may_issue(desc, d, true) {
        Ok(n) if engine.steps().0 < u32::MAX => {
            engine.issue(n);
            Some(n)
        }
        _ => None,
    }
}

// delivers a request that waits for it
fn deliver(engine: &mut Engine, desc: &Desc, d: DeviceId, n: u32) -> bool
    requires { EngineKept desc.now d engine.old }
    ensures { EngineKept desc.now d engine.new }
{
    if !engine.is_undelivered(n) {
        return false;
    }
    engine.deliver(n);
    true
}

// completes a request that was delivered
fn complete(engine: &mut Engine, desc: &Desc, d: DeviceId, n: u32) -> bool
    requires { EngineKept desc.now d engine.old }
    ensures { EngineKept desc.now d engine.new }
{
    if !engine.is_arrived(n) {
        return false;
    }
    if engine.steps().1 == u32::MAX {
        return false;
    }
    engine.complete(n);
    true
}

/// Reads each block of 65,536 bytes of BARs once, then makes so many thousand writes of eight bytes all over them, and answers
/// how many blocks are dirty then.
pub fn dirty_blocks(alloc: Global, thousands: u32) -> Result<u32>
    requires { thousands ≤ 50000 }
{
    let Ok(mut bar) = Bar::of(alloc, BAR_BYTES) else {
        bail!("no memory for the BARs");
    };
    let mut block = [0; 64];
    for b in 0..BAR_BYTES / 64 {
        if bar.bytes().len() == BAR_BYTES as usize {
            bar.read_block(b, &mut block);
        }
    }
    for i in 0..1000 * thousands {
        if bar.bytes().len() == BAR_BYTES as usize {
            bar.write(i % 8191 * 8, &[7; 8]);
        }
    }
    Ok(bar.dirty_count())
}
