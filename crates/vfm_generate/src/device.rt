//! The devices of a generated load.

ghost use Rattle.std.specs.Prelude.{◌≡◌, ◌<◌, [], ◌∷◌, ◌+◌, map, vec_len, IfOk};
ghost use Rattle.std.specs.List.{range_with_len};
ghost use Rattle.vfm_loads.specs.Generated.{load_job, queued_job, load_queue, load_shape};

use crate::job::job;
use std::alloc::Global;
use vfm_types::{Bars, DevShape, Flags, Job, Jobs, Name, NoMemory, Queue};

// how many jobs a device has, and how many requests it is asked for at the start, in rounds of this many
const JOBS: u32 = 35;

const REQUESTS: u32 = 1088;

const ROUND: u32 = 34;

/// Device `d` (0 to 7) of load `n`. Takes memory for its jobs and its queue.
#[tactic(auto, unfolding(vfm_loads::specs::Generated::load_shape))]
pub(crate) fn device(alloc: Global, n: u32, d: u32) -> Result<DevShape, NoMemory>
    requires { d < 8 }
    ensures { IfOk result (λ shape. shape ≡ load_shape n d) }
{
    let jobs = jobs(alloc, n, d)?;
    let queue = queue(alloc)?;
    Ok(DevShape {
        name: name(d),
        flags: flags(),
        bars: bars(),
        window: 4,
        tells: d % 2 == 0,
        budget: 2000,
        fails: 0,
        jobs: Jobs::of(jobs),
        queue: Queue::of(queue),
    })
}

// the jobs of device `d`
fn jobs(alloc: Global, n: u32, d: u32) -> Result<Vec<Job>, NoMemory>
    requires { d < 8 }
    ensures items { IfOk result (λ jobs. jobs.items ≡ map (load_job n d) (range_with_len 0 35)) }
    ensures count { IfOk result (λ jobs. vec_len jobs ≡ 35) }
{
    let mut jobs = Vec::with_capacity(alloc, JOBS as usize)?;
    for j in 0..JOBS {
        jobs.push(job(n, d, j))?;
    }
    Ok(jobs)
}

// what each device is asked for at the start
#[tactic(auto, unfolding(vfm_loads::specs::Generated::load_queue))]
fn queue(alloc: Global) -> Result<Vec<u32>, NoMemory>
    ensures items { IfOk result (λ queue. queue.items ≡ load_queue) }
    ensures count { IfOk result (λ queue. vec_len queue ≡ 1088) }
{
    let mut queue = Vec::with_capacity(alloc, REQUESTS as usize)?;
    for n in 0..REQUESTS {
        queue.push(queued_job(n))?;
    }
    Ok(queue)
}

// the job of request `n` of the start: in each round the counts, the bell and then the block
fn queued_job(n: u32) -> u32
    ensures { result ≡ queued_job n }
{
    let place = n % ROUND;
    if place == ROUND - 1 { 34 } else { place }
}

// `d` and the device's number
fn name(d: u32) -> Name
    requires { d < 8 }
    ensures { result ≡ 100 ∷ (48 + d) ∷ [] }
{
    match Name::of(&[b'd', b'0' + d as u8]) {
        Some(name) => name,
        None => unreachable!(),
    }
}

// every state is supported
fn flags() -> Flags
    ensures { result ≡ 7 }
{
    match Flags::of(7) {
        Some(flags) => flags,
        None => unreachable!(),
    }
}

// one BAR of 4,096 bytes
fn bars() -> Bars
    ensures { result ≡ 4096 ∷ [] }
{
    match Bars::of(&[4096]) {
        Some(bars) => bars,
        None => unreachable!(),
    }
}
