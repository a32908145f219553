//! The description that is timed: eight devices with the same number of requests each.

ghost use Rattle.std.specs.Prelude.{◌<◌, ◌≤◌, ◌^◌, IfOk};
ghost use Rattle.vfm_types.specs.Valid.{IsValid};

use anyhow::{Result, bail};
use std::alloc::{AllocError, Global};
use vfm_types::{Bars, Bytes64, Desc, DevShape, Flags, Job, Jobs, Name, Queue, Shapes};

/// The most requests that a device accepts.
pub const MOST_REQUESTS: u32 = 50_000;

// how many jobs each device has
const JOBS: u32 = 4;

// bytes of a page
const PAGE: u64 = 4096;

// how far the memory that one device works on is from that of the next
const STRIDE: u64 = 65_536;

// what of a machine isn't the same for all sizes
#[derive(Clone, Copy, Debug)]
struct Sizes {
    // how many requests each device has, and how many of them are done before the move
    requests: u32,
    begin: u32,
    // how many passes come before the devices stop, at most
    rounds: u32,
    pages: u32,
    // bytes of the BAR of each device
    bar: u32,
}

/// The description of eight devices that have these requests each: writes of 64 and of 8 bytes and adds, all to memory
/// of 256 pages of 4,096 bytes.
pub fn sized_description(alloc: Global, requests: u32) -> Result<Desc>
    ensures { IfOk result IsValid }
{
    let sizes = Sizes {
        requests,
        begin: 0,
        rounds: 0,
        pages: 256,
        bar: 4096,
    };
    description(alloc, sizes)
}

/// The same machine, which is moved once three quarters of its requests are done, with up to three passes while it runs.
pub fn moved_description(alloc: Global, requests: u32) -> Result<Desc>
    ensures { IfOk result IsValid }
{
    let sizes = Sizes {
        requests,
        begin: requests - requests / 4,
        rounds: 3,
        pages: 256,
        bar: 4096,
    };
    description(alloc, sizes)
}

/// The same machine with as many requests, as many pages and as large BARs as one may have: 50,000, 1,024 and 65,536 bytes,
/// with up to eight passes while it runs.
pub fn largest_description(alloc: Global) -> Result<Desc>
    ensures { IfOk result IsValid }
{
    let sizes = Sizes {
        requests: MOST_REQUESTS,
        begin: MOST_REQUESTS - MOST_REQUESTS / 4,
        rounds: 8,
        pages: 1024,
        bar: 65_536,
    };
    description(alloc, sizes)
}

// the machine of these sizes
fn description(alloc: Global, sizes: Sizes) -> Result<Desc>
    ensures { IfOk result IsValid }
{
    let devices = shapes(alloc, sizes)?;
    let desc = Desc {
        session: 1,
        page: 4096,
        pages: sizes.pages,
        channels: 1,
        version: 1,
        begin: sizes.begin,
        rounds: sizes.rounds,
        threshold: 0,
        devices,
    };
    if !desc.is_in_range() {
        bail!("a number of the description is out of its range");
    }
    match Desc::new(desc) {
        Ok(desc) => Ok(desc),
        Err(fault) => bail!("the description has a fault: {fault:?}"),
    }
}

// the eight devices
fn shapes(alloc: Global, sizes: Sizes) -> Result<Shapes> {
    let list = vec![in alloc;
        shape(alloc, 0, sizes)?,
        shape(alloc, 1, sizes)?,
        shape(alloc, 2, sizes)?,
        shape(alloc, 3, sizes)?,
        shape(alloc, 4, sizes)?,
        shape(alloc, 5, sizes)?,
        shape(alloc, 6, sizes)?,
        shape(alloc, 7, sizes)?,
    ]?;
    Ok(Shapes::of(list))
}

// a device of this number
fn shape(alloc: Global, d: u8, sizes: Sizes) -> Result<DevShape>
    requires { d < 8 }
{
    let Some(name) = Name::of(&[b'd', b'0' + d]) else {
        bail!("no name");
    };
    let Some(flags) = Flags::of(7) else {
        bail!("no flags");
    };
    let Some(bars) = Bars::of(&[sizes.bar]) else {
        bail!("no BARs");
    };
    let jobs = jobs(alloc, u64::from(d) * STRIDE)?;
    let queue = queue(alloc, sizes.requests)?;
    Ok(DevShape {
        name,
        flags,
        bars,
        window: 4,
        tells: true,
        budget: sizes.requests,
        fails: 0,
        jobs,
        queue,
    })
}

// the jobs of a device that works on the memory from this address on
fn jobs(alloc: Global, at: u64) -> Result<Jobs>
    requires { at < 2 ^ 32 }
{
    let Some(many) = Bytes64::of(&[0x5a; 64]) else {
        bail!("no bytes");
    };
    let Some(few) = Bytes64::of(&[1, 2, 3, 4, 5, 6, 7, 8]) else {
        bail!("no bytes");
    };
    let list = vec![in alloc;
        Job::Write { at, bytes: many },
        Job::Write {
            at: at + PAGE,
            bytes: few
        },
        Job::Add {
            at: at + 2 * PAGE,
            value: 3
        },
        Job::Add {
            at: at + PAGE,
            value: 0x0101_0101
        },
    ]?;
    Ok(Jobs::of(list))
}

// the numbers of the jobs in turn, as many as there are requests
fn queue(alloc: Global, requests: u32) -> Result<Queue, AllocError> {
    let mut list = Vec::with_capacity(alloc, requests as usize)?;
    for request in 0..requests {
        list.push(request % JOBS)?;
    }
    Ok(Queue::of(list))
}
