//! Forty machines, of one to eight devices, with every kind of job, flags, windows, rounds and failing arcs.

ghost use Rattle.std.specs.Prelude.{◌<◌, ◌≤◌, IfOk};
ghost use Rattle.vfm_types.specs.Valid.{IsValid};

use anyhow::{Result, bail};
use std::alloc::{AllocError, Global};
use vfm_types::{Bars, Bytes64, Desc, DevShape, Flags, Job, Jobs, Name, Queue, Shapes};

/// How many machines there are.
pub const MACHINES: u32 = 40;

const BAR_BASE: u64 = 0x1000_0000;

const DEVICE_STRIDE: u64 = 0x8_0000;

/// Machine `i`, which is valid.
pub fn machine(alloc: Global, i: u32) -> Result<Desc>
    requires { i < 40 }
    ensures { IfOk result (λ desc. IsValid desc) }
{
    let desc = Desc {
        session: u64::from(i),
        page: 16,
        pages: 4,
        channels: 1,
        version: 1,
        begin: i % 3,
        rounds: i / 3 % 4,
        threshold: i % 2,
        devices: shapes(alloc, i)?,
    };
    if !desc.is_in_range() {
        bail!("a number of machine {i} is out of its range");
    }
    match Desc::new(desc) {
        Ok(desc) => Ok(desc),
        Err(fault) => bail!("machine {i} has a fault: {fault:?}"),
    }
}

// its devices, from one to eight
fn shapes(alloc: Global, i: u32) -> Result<Shapes>
    requires { i < 40 }
{
    let count = i % 8 + 1;
    let mut list = Vec::with_capacity(alloc, count as usize)?;
    for d in 0..count {
        list.push(shape(alloc, i, d, count)?)?;
    }
    Ok(Shapes::of(list))
}

// the flags of device d of so many
fn flags(i: u32, d: u32, count: u32) -> u8 {
    if count > 1 {
        return if (i.wrapping_add(d)) % 3 == 0 { 3 } else { 7 };
    }
    match i / 8 % 4 {
        0 => 1,
        1 => 3,
        2 => 5,
        _ => 7,
    }
}

// device d of so many
fn shape(alloc: Global, i: u32, d: u32, count: u32) -> Result<DevShape>
    requires machine { i < 40 }
    requires device { d < 8 }
    requires few { count ≤ 8 }
    requires some { 0 < count }
{
    let Some(name) = Name::of(&[b'd', b'0' + d as u8]) else {
        bail!("no name");
    };
    let Some(flags) = Flags::of(flags(i, d, count)) else {
        bail!("no flags");
    };
    let sizes: &[u32] = if (i + d) % 2 == 1 { &[128, 64] } else { &[128] };
    let Some(bars) = Bars::of(sizes) else {
        bail!("no BARs");
    };
    let jobs = jobs(alloc, i, d, (d + 1) % count)?;
    let fails = if i % 10 == 9 && d < 3 { d + 1 } else { 0 };
    Ok(DevShape {
        name,
        flags,
        bars,
        window: ((i + d) % 3 + 1) as u8,
        tells: (3 * i + d) % 4 != 0,
        budget: 40,
        fails,
        queue: queue(alloc, i + d, jobs.len())?,
        jobs,
    })
}

// 24 requests for so many jobs
fn queue(alloc: Global, from: u32, jobs: u32) -> Result<Queue, AllocError>
    requires { from < 100 }
{
    let mut list = Vec::with_capacity(alloc, 24)?;
    for k in 0..24u32 {
        list.push((7 * k + from) % jobs.max(1))?;
    }
    Ok(Queue::of(list))
}

// these bytes, 1 to 64 of them
fn bytes(list: &[u8]) -> Result<Bytes64> {
    match Bytes64::of(list) {
        Some(bytes) => Ok(bytes),
        None => bail!("no bytes"),
    }
}

// the jobs of device d: four in memory, and four at the BAR of the next device, where there is another
fn jobs(alloc: Global, i: u32, d: u32, peer: u32) -> Result<Jobs>
    requires machine { i < 40 }
    requires device { d < 8 }
    requires peer { peer < 8 }
{
    let page = u64::from(16 * (d % 4));
    let mut list = vec![in alloc;
        Job::Write {
            at: page + 4,
            bytes: bytes(&[i as u8, d as u8, 200])?
        },
        Job::Add {
            at: page + 8,
            value: (1 << 63) + u64::from(77 * d + i)
        },
        Job::Read { at: page, len: 16 },
        Job::Store {
            at: 48,
            len: (5 + d) as u8
        },
    ]?;
    if peer != d {
        let base = BAR_BASE + DEVICE_STRIDE * u64::from(peer);
        list.push(Job::Write {
            at: base + 60,
            bytes: bytes(&[0xa1, 0xb2, 0xc3, 0xd4, 0xe5, 0xf6, 0x07, 0x18])?,
        })?;
        list.push(Job::Write {
            at: base,
            bytes: bytes(&[((i + d) % 9) as u8, 0, 0, 0, 0, 0, 0, 0])?,
        })?;
        list.push(Job::Store {
            at: base + 8,
            len: 16,
        })?;
        list.push(Job::Read {
            at: base + 56,
            len: 8,
        })?;
    }
    Ok(Jobs::of(list))
}
