//! Which request of a device is to be issued next, and what bars it.

ghost use Rattle.std.specs.Prelude.{◌≡◌, ◌<◌, ◌&&◌, ◌||◌, not, length, IsTrue};
ghost use Rattle.vfm_types.specs.Arcs.{is_running, is_p2p};
ghost use Rattle.vfm_types.specs.Desc.{device_count, job_at, shape_at};
ghost use Rattle.vfm_types.specs.Job.{length_of, place_of};
ghost use Rattle.vfm_plain.specs.Shape.{Lies};
ghost use Rattle.vfm_types.specs.Valid.{InRange, IsValid, is_job_in_range};
ghost use Rattle.vfm_types.specs.Words.{is_barred};
ghost use Rattle.vfm_device.specs.EngineState.{item_at};

use vfm_types::{Desc, DevShape, DeviceId, Job, MigState};

#[tactic(auto, using(crate::proofs::NextRequest::item_there, crate::proofs::NextRequest::item_beyond))]
/// The request at a place of these, if there is one.
pub fn item_at(requests: &[(u32, u32)], k: usize) -> Option<(u32, u32)>
    ensures { result ≡ item_at requests.now k }
{
    if k < requests.len() {
        Some(requests[k])
    } else {
        None
    }
}

/// How a device is described.
pub fn shape_at(desc: &Desc, d: DeviceId) -> &DevShape
    requires { d < device_count desc.now }
    ensures { result.now ≡ shape_at desc.now d }
{
    desc.devices.at(u32::from(d.0))
}

/// A job of a device: it is in its ranges, and lies in one region that is there.
pub fn job_at(desc: &Desc, d: DeviceId, j: u32) -> &Job
    requires valid { IsValid desc.now }
    requires device { d < device_count desc.now }
    requires job { j < length (shape_at desc.now d).jobs }
    ensures value { result.now ≡ job_at desc.now d j }
    ensures in_range { IsTrue (is_job_in_range result.now) }
    ensures lies { Lies desc.now (place_of desc.now result.now) (length_of result.now) }
{
    shape_at(desc, d).jobs.at(j)
}

/// Whether a device in this state runs and starts DMA of every kind.
fn is_running(state: MigState) -> bool
    ensures { result ≡ is_running state }
{
    matches!(state, MigState::Running | MigState::PreCopy)
}

/// Whether a device in this state runs and starts no new peer-to-peer DMA.
fn is_p2p(state: MigState) -> bool
    ensures { result ≡ is_p2p state }
{
    matches!(state, MigState::RunningP2p | MigState::PreCopyP2p)
}

/// Whether a job of a device is barred in the peer-to-peer states: aimed at a BAR, or of a device that can't tell.
pub fn is_barred(desc: &Desc, d: DeviceId, job: &Job) -> bool
    requires in_range { InRange desc.now }
    requires device { d < device_count desc.now }
    requires job { IsTrue (is_job_in_range job.now) }
    ensures { result ≡ is_barred desc.now d job.now }
{
    let shape = desc.devices.at(u32::from(d.0));
    desc.place_of(job).region.is_bar() || !shape.tells
}

/// Whether a job of a device may be issued at this level: any job in a running state, one that isn't barred in a
/// peer-to-peer state, none in another.
pub fn is_allowed(desc: &Desc, d: DeviceId, job: &Job, level: MigState) -> bool
    requires in_range { InRange desc.now }
    requires device { d < device_count desc.now }
    requires job { IsTrue (is_job_in_range job.now) }
    ensures { result ≡ (is_running level || (is_p2p level && not (is_barred desc.now d job.now))) }
{
    is_running(level) || is_p2p(level) && !is_barred(desc, d, job)
}
