//! The machines of the table.

ghost use Rattle.vfm_types.specs.Valid.{IsValid};

use crate::Trouble;
use crate::words::{long_number, number};
use std::alloc::Global;
use vfm_types::{Bars, Bytes64, Desc, DevShape, Flags, Job, Jobs, Name, Queue, Shapes};

/// A valid description.
#[derive(Drop)]
pub struct Machine {
    pub desc: Desc,
    pub ghost valid: { IsValid desc },
}

impl Machine {
    /// The machine that a line's words describe, without the first: its session, page, pages, channels, version, and a word
    /// for each device.
    pub fn of(alloc: Global, words: &[&str]) -> Result<Machine, Trouble> {
        let [session, page, pages, channels, version, devices @ ..] = words else {
            return Err(Trouble::Form);
        };
        let mut shapes = Vec::new(alloc);
        for word in devices {
            shapes.push(shape_of(alloc, word)?)?;
        }
        if shapes.len() > 8 {
            return Err(Trouble::Machine);
        }
        let desc = Desc {
            session: long_number(session)?,
            page: number(page)?,
            pages: number(pages)?,
            channels: number(channels)?,
            version: (number(version)? % 65536) as u16,
            begin: 0,
            rounds: 0,
            threshold: 0,
            devices: Shapes::of(shapes),
        };
        if !desc.is_in_range() {
            return Err(Trouble::Machine);
        }
        match Desc::new(desc) {
            Ok(desc) => Ok(Machine { desc }),
            Err(_) => Err(Trouble::Machine),
        }
    }
}

// The device of a word: NAME:FLAGS:BARS:WINDOW:TELLS:BUDGET:JOBS.
fn shape_of(alloc: Global, word: &str) -> Result<DevShape, Trouble> {
    let parts: Vec<&str> = word.split(':').collect(alloc)?;
    let [name, flags, bars, window, tells, budget, jobs] = parts.as_slice() else {
        return Err(Trouble::Form);
    };
    Ok(DevShape {
        name: Name::of(name.as_bytes()).ok_or(Trouble::Machine)?,
        flags: Flags::of((number(flags)? % 256) as u8).ok_or(Trouble::Machine)?,
        bars: bars_of(alloc, bars)?,
        window: (number(window)? % 256) as u8,
        tells: *tells == "1",
        budget: number(budget)?,
        fails: 0,
        jobs: jobs_of(alloc, jobs)?,
        queue: Queue::of(Vec::new(alloc)),
    })
}

// The BARs of a word: their sizes joined by `+`.
fn bars_of(alloc: Global, word: &str) -> Result<Bars, Trouble> {
    let mut sizes = Vec::new(alloc);
    for size in word.split('+') {
        sizes.push(number(size)?)?;
    }
    Bars::of(sizes.as_slice()).ok_or(Trouble::Machine)
}

// The jobs of a word, joined by `,`; `-` is none.
fn jobs_of(alloc: Global, word: &str) -> Result<Jobs, Trouble> {
    let mut jobs = Vec::new(alloc);
    if word != "-" {
        for job in word.split(',') {
            jobs.push(job_of(alloc, job)?)?;
        }
    }
    if jobs.len() > 4096 {
        return Err(Trouble::Machine);
    }
    Ok(Jobs::of(jobs))
}

// A job: `rAT.LEN` reads, `wAT.HEX` writes.
fn job_of(alloc: Global, word: &str) -> Result<Job, Trouble> {
    let Some((first, last)) = word.split_once('.') else {
        return Err(Trouble::Form);
    };
    if let Some(at) = first.strip_prefix('r') {
        return Ok(Job::Read {
            at: long_number(at)?,
            len: (number(last)? % 256) as u8,
        });
    }
    let Some(at) = first.strip_prefix('w') else {
        return Err(Trouble::Form);
    };
    let bytes = hex::decode(alloc, last)?;
    Ok(Job::Write {
        at: long_number(at)?,
        bytes: Bytes64::of(bytes.as_slice()).ok_or(Trouble::Machine)?,
    })
}
