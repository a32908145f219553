//! Reading the devices of a description and their jobs.

ghost use Rattle.std.specs.Prelude.{◌≡◌, ◌<◌, ◌≤◌, ◌^◌, All, IfOk, IsTrue, length, map, nat_lt, vec_len};
ghost use Rattle.std.specs.List.{list_all};
ghost use Rattle.serde_json.specs.View.{view};
ghost use Rattle.vfm_types.specs.declared.fault.FieldName.TheVariants as field;
ghost use Rattle.vfm_types.specs.State.{is_flags};
ghost use Rattle.vfm_types.specs.Valid.{ShapeInRange, is_job_in_range};
ghost use Rattle.vfm_desc.specs.Reading.{Gives, each, number_in};
ghost use Rattle.vfm_desc.specs.Described as spec;

use crate::reading::{JobKind, Level, bytes, kind, list, name, number, tells, whole_number};
use crate::sizes::bars;
use serde_json::Value;
use std::alloc::Global;
use vfm_types::{DescFault, DevShape, FieldName, Flags, Job, Jobs, Queue, Shapes};

// what a job of this kind at this address does
#[tactic(auto, unfolding(crate::specs::Described::work_in))]
fn work(
    alloc: Global,
    object: &Value,
    level: Level,
    kind: JobKind,
    at: u64,
) -> Result<Job, DescFault>
    ensures value { Gives (λ job. job) result (spec.work_in (view object.now) level kind at) }
    ensures in_range { IfOk result (λ job. IsTrue (is_job_in_range job)) }
{
    match kind {
        JobKind::Write => {
            let bytes = bytes(alloc, object, level)?;
            Ok(Job::Write { at, bytes })
        }
        JobKind::Read => {
            let len = number(object, level, FieldName::Len)? as u8;
            Ok(Job::Read { at, len })
        }
        JobKind::Store => {
            let len = number(object, level, FieldName::Len)? as u8;
            Ok(Job::Store { at, len })
        }
        JobKind::Add => {
            let value = number(object, level, FieldName::Value)?;
            Ok(Job::Add { at, value })
        }
    }
}

// job `j` of device `d`
#[tactic(auto, unfolding(crate::specs::Described::job_in))]
fn job(alloc: Global, object: &Value, d: u32, j: u32) -> Result<Job, DescFault>
    ensures value { Gives (λ job. job) result (spec.job_in d j (view object.now)) }
    ensures in_range { IfOk result (λ job. IsTrue (is_job_in_range job)) }
{
    let level = Level::OfJob(d, j);
    let kind = kind(object, level)?;
    let at = number(object, level, FieldName::At)?;
    work(alloc, object, level, kind, at)
}

// these jobs of device `d`, numbered from 0 on
fn each_job(alloc: Global, objects: &[Value], d: u32) -> Result<Vec<Job>, DescFault>
    requires { length objects.now ≤ 4096 }
    ensures value { Gives (λ jobs. jobs.items) result (each (spec.job_in d) 0 (map view objects.now)) }
    ensures count { IfOk result (λ jobs. vec_len jobs ≤ 4096) }
    ensures in_range { IfOk result (λ jobs. IsTrue (list_all is_job_in_range jobs.items)) }
{
    let mut jobs = Vec::new(alloc);
    for (j, object) in objects.iter().enumerate() {
        let next = job(alloc, object, d, j as u32)?;
        let Ok(()) = jobs.push(next) else {
            return Err(DescFault::NoMemory);
        };
    }
    Ok(jobs)
}

// the jobs of device `d`
#[tactic(auto, unfolding(crate::specs::Described::jobs_in))]
fn jobs(alloc: Global, object: &Value, d: u32) -> Result<Jobs, DescFault>
    ensures value { Gives (λ jobs. jobs) result (spec.jobs_in d (view object.now)) }
    ensures count { IfOk result (λ jobs. length jobs ≤ 4096) }
    ensures in_range { IfOk result (λ jobs. IsTrue (list_all is_job_in_range jobs)) }
{
    let objects = list(object, Level::OfDevice(d), FieldName::Jobs)?;
    Ok(Jobs::of(each_job(alloc, objects, d)?))
}

// an element of the queue of device `d`, which has so many jobs
#[tactic(auto, unfolding(crate::specs::Described::queued))]
fn queued(value: &Value, d: u32, jobs: u32) -> Result<u32, DescFault>
    ensures value { Gives (λ n. n) result (spec.queued d jobs (view value.now)) }
    ensures below { IfOk result (λ n. n < jobs) }
{
    let field = Level::OfDevice(d).field(FieldName::Queue);
    let n = whole_number(value, field)?;
    if n >= jobs as u64 {
        return Err(DescFault::Range(field));
    }
    Ok(n as u32)
}

// these elements of the queue of device `d`, which has so many jobs
fn each_queued(alloc: Global, values: &[Value], d: u32, jobs: u32) -> Result<Vec<u32>, DescFault>
    ensures value { Gives (λ queue. queue.items) result (each (λ k. spec.queued d jobs) 0 (map view values.now)) }
    ensures count { IfOk result (λ queue. vec_len queue ≡ length values.now) }
    ensures below { IfOk result (λ queue. IsTrue (list_all (λ n. nat_lt n jobs) queue.items)) }
{
    let mut queue = Vec::new(alloc);
    for value in values {
        let next = queued(value, d, jobs)?;
        let Ok(()) = queue.push(next) else {
            return Err(DescFault::NoMemory);
        };
    }
    Ok(queue)
}

// the queue of device `d`, which has so much budget and so many jobs
#[tactic(auto, unfolding(crate::specs::Described::queue_in))]
fn queue(alloc: Global, object: &Value, d: u32, budget: u32, jobs: u32) -> Result<Queue, DescFault>
    ensures value { Gives (λ queue. queue) result (spec.queue_in d (view object.now) budget jobs) }
    ensures count { IfOk result (λ queue. length queue ≤ budget) }
    ensures below { IfOk result (λ queue. IsTrue (list_all (λ n. nat_lt n jobs) queue)) }
{
    let level = Level::OfDevice(d);
    let values = list(object, level, FieldName::Queue)?;
    if values.len() > budget as usize {
        return Err(DescFault::Range(level.field(FieldName::Queue)));
    }
    Ok(Queue::of(each_queued(alloc, values, d, jobs)?))
}

// a device's flags
fn flags(object: &Value, level: Level) -> Result<Flags, DescFault>
    ensures value { Gives (λ flags. flags) result (number_in (view object.now) level field.Flags) }
    ensures form { IfOk result (λ flags. IsTrue (is_flags flags)) }
{
    let bits = number(object, level, FieldName::Flags)? as u8;
    match Flags::of(bits) {
        Some(flags) => Ok(flags),
        None => unreachable!(),
    }
}

// device `d`
#[tactic(auto, unfolding(crate::specs::Described::device_in))]
fn device(alloc: Global, object: &Value, d: u32) -> Result<DevShape, DescFault>
    ensures value { Gives (λ shape. shape) result (spec.device_in d (view object.now)) }
    ensures in_range { IfOk result ShapeInRange }
{
    let level = Level::OfDevice(d);
    let name = name(object, level)?;
    let flags = flags(object, level)?;
    let bars = bars(alloc, object, level)?;
    let window = number(object, level, FieldName::Window)? as u8;
    let tells = tells(object, level)?;
    let budget = number(object, level, FieldName::Budget)? as u32;
    let fails = number(object, level, FieldName::Fails)? as u32;
    let jobs = jobs(alloc, object, d)?;
    let queue = queue(alloc, object, d, budget, jobs.len())?;
    Ok(DevShape {
        name,
        flags,
        bars,
        window,
        tells,
        budget,
        fails,
        jobs,
        queue,
    })
}

// these devices, numbered from 0 on
fn each_device(alloc: Global, objects: &[Value]) -> Result<Vec<DevShape>, DescFault>
    requires { length objects.now ≤ 8 }
    ensures value { Gives (λ shapes. shapes.items) result (each spec.device_in 0 (map view objects.now)) }
    ensures count { IfOk result (λ shapes. vec_len shapes ≡ length objects.now) }
    ensures in_range { IfOk result (λ shapes. All ShapeInRange shapes.items) }
{
    let mut shapes = Vec::new(alloc);
    for (d, object) in objects.iter().enumerate() {
        let next = device(alloc, object, d as u32)?;
        let Ok(()) = shapes.push(next) else {
            return Err(DescFault::NoMemory);
        };
    }
    Ok(shapes)
}

/// The devices of a description.
#[tactic(auto, unfolding(crate::specs::Described::devices_in))]
pub(crate) fn devices(alloc: Global, object: &Value) -> Result<Shapes, DescFault>
    ensures value { Gives (λ shapes. shapes) result (spec.devices_in (view object.now)) }
    ensures low { IfOk result (λ shapes. 1 ≤ length shapes) }
    ensures high { IfOk result (λ shapes. length shapes ≤ 8) }
    ensures in_range { IfOk result (All ShapeInRange) }
{
    let objects = list(object, Level::Top, FieldName::Devices)?;
    Ok(Shapes::of(each_device(alloc, objects)?))
}
