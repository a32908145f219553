//! The machine whose state the channel carries: 4 MiB of memory and one small device.

ghost use Rattle.std.specs.Prelude.{IfOk};
ghost use Rattle.vfm_types.specs.Valid.{IsValid};

use anyhow::{Result, bail};
use std::alloc::Global;
use vfm_types::{Bars, Desc, DevShape, Flags, Jobs, Name, Queue, Shapes};

/// How many pages the machine has.
pub const PAGES: u32 = 1024;

/// How many bytes a page has.
pub const PAGE: u32 = 4096;

// The device, which is asked for nothing.
fn device(alloc: Global) -> Result<DevShape> {
    let Some(name) = Name::of(b"d") else {
        bail!("no name");
    };
    let Some(flags) = Flags::of(1) else {
        bail!("no flags");
    };
    let Some(bars) = Bars::of(&[64]) else {
        bail!("no BARs");
    };
    Ok(DevShape {
        name,
        flags,
        bars,
        window: 1,
        tells: true,
        budget: 1,
        fails: 0,
        jobs: Jobs::of(Vec::new(alloc)),
        queue: Queue::of(Vec::new(alloc)),
    })
}

/// The description of the machine.
pub fn described(alloc: Global) -> Result<Desc>
    ensures { IfOk result IsValid }
{
    let devices = vec![in alloc; device(alloc)?]?;
    let desc = Desc {
        session: 7,
        page: PAGE,
        pages: PAGES,
        channels: 1,
        version: 1,
        begin: 0,
        rounds: 0,
        threshold: 0,
        devices: Shapes::of(devices),
    };
    if !desc.is_in_range() {
        bail!("a number of the description is out of its range");
    }
    match Desc::new(desc) {
        Ok(desc) => Ok(desc),
        Err(fault) => bail!("the description has a fault: {fault:?}"),
    }
}
