//! What no clause says: how often a worker takes.

ghost use Rattle.std.specs.Prelude.{IfOk};
ghost use Rattle.vfm_types.specs.Valid.{IsValid};

use super::*;
use std::alloc::Global;
use std::sync::atomic::{AtomicU64, Ordering};
use std::test::Fail;
use vfm_intake::StreamIntake;
use vfm_mesh::{Fan, Funnel, Mesh};
use vfm_outside::Beat;
use vfm_types::{Bars, Desc, DevShape, Flags, Job, Jobs, Name, Queue, Shapes};

// Counts the attempts of worker 64.
#[derive(Drop)]
struct Counted(AtomicU64);

impl Beat for Counted {
    fn at(&self, worker: u32, turn: u64) {
        if worker == 64 && self.0.load(Ordering::SeqCst) == turn {
            self.0.store(turn.saturating_add(1), Ordering::SeqCst);
        }
    }
}

// Two pages of 16 bytes, and a device with one block and one job.
fn described(alloc: Global) -> Result<Desc, Fail>
    ensures { IfOk result IsValid }
{
    let jobs = vec![in alloc; Job::Read { at: 0, len: 1 }]?;
    let shape = DevShape {
        name: Name::of(b"a").ok_or("name")?,
        flags: Flags::of(1).ok_or("flags")?,
        bars: Bars::of(&[64]).ok_or("bars")?,
        window: 1,
        tells: true,
        budget: 1,
        fails: 0,
        jobs: Jobs::of(jobs),
        queue: Queue::of(Vec::new(alloc)),
    };
    let shapes = vec![in alloc; shape]?;
    let desc = Desc {
        session: 9,
        page: 16,
        pages: 2,
        channels: 2,
        version: 1,
        begin: 3,
        rounds: 4,
        threshold: 6,
        devices: Shapes::of(shapes),
    };
    if !desc.is_in_range() {
        return Err(Fail::from("range"));
    }
    match Desc::new(desc) {
        Ok(desc) => Ok(desc),
        Err(_) => Err(Fail::from("valid")),
    }
}

// Closes so many of the fans.
fn close(fans: &mut Vec<Fan>, marks: usize) -> Result<(), Fail> {
    for fan in fans.iter_mut().take(marks) {
        fan.close()?;
    }
    Ok(())
}

// How many takes the worker of the first of these streams makes, where there are so many channels.
fn takes(alloc: Global, funnels: Vec<Funnel>, channels: u32) -> Result<u64, Fail> {
    let desc = described(alloc)?;
    let intake = StreamIntake::of(alloc, &desc, 0)?;
    let beat = Counted(AtomicU64::new(0));
    let mut funnels = funnels;
    let Some(funnel) = funnels.pop() else {
        return Err(Fail::from("no stream"));
    };
    let mut worker = StreamWorker::of(64, funnel, intake, channels);
    worker.work(&desc, &beat);
    let (_funnel, _intake, is_short) = worker.into_parts();
    if is_short {
        return Err(Fail::from("memory"));
    }
    Ok(beat.0.load(Ordering::SeqCst))
}

#[test]
fn a_worker_takes_until_all_channels_gave_their_marks(rt: HostRuntime) -> Result<(), Fail> {
    let alloc = rt.alloc();
    let idle = u64::from(IDLE_TAKES);
    // so many channels, of which so many gave their marks
    for (channels, marks, most) in [(1, 1, 1), (2, 2, 2), (2, 1, idle + 1), (1, 0, idle)] {
        let (mut fans, funnels) = Mesh::of(alloc, channels, 1, 4)?;
        close(&mut fans, marks)?;
        assert_eq!(rt; takes(alloc, funnels, channels)?, most);
    }
    Ok(())
}
