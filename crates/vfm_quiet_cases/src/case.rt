//! A line of the table: a description, a look, and what is to be done next.

use crate::words::{Words, has_name};
use std::alloc::{AllocError, Global};
use vfm_quiet::{MoveLook, Want};
use vfm_types::{
    Bars, Desc, DevLook, DevShape, DeviceId, Entry, Flags, Jobs, MigState, Name, PageSet, Queue,
    Shapes,
};

/// A line of the table.
#[derive(Drop)]
pub(crate) struct Case {
    pub(crate) desc: Desc,
    pub(crate) look: MoveLook,
    pub(crate) abort_after: u32,
    pub(crate) want: Want,
}

// the numbers with which a line begins
#[derive(Drop)]
struct Limits {
    begin: u32,
    rounds: u32,
    threshold: u32,
    abort_after: u32,
}

// one device of a line
#[derive(Drop)]
struct Device {
    flags: Flags,
    fails: u32,
    look: DevLook,
    ready: bool,
    reported: bool,
}

fn read_limits(words: &mut Words<'_>) -> Option<Limits> {
    let begin = words.number()?;
    let rounds = words.number()?;
    let threshold = words.number()?;
    let abort_after = words.number()?;
    Some(Limits {
        begin,
        rounds,
        threshold,
        abort_after,
    })
}

// what is seen of a device that isn't there
const NO_LOOK: DevLook = DevLook {
    state: MigState::Running,
    held: None,
    unissued: 0,
    undelivered: 0,
    delivered: 0,
    issued: 0,
    completes: 0,
    arcs: 0,
    blocked: None,
};

// the set of the first so many pages
fn set_of(pages: u32) -> Option<PageSet> {
    if pages > 1024 {
        return None;
    }
    Some(PageSet::full(pages))
}

// a look without devices
fn read_look(words: &mut Words<'_>) -> Option<MoveLook> {
    let names = words.word();
    let passes = words.number()?;
    let set = set_of(words.number()?)?;
    let next_copy = words.number_or_dash()?;
    let part = words.number_or_dash()?;
    let next_block = words.number_or_dash()?;
    Some(MoveLook {
        begun: has_name(names, "begun"),
        joint: has_name(names, "joint"),
        aborted: has_name(names, "aborted"),
        resumed: has_name(names, "resumed"),
        failed: has_name(names, "failed"),
        passes,
        ended: has_name(names, "ended"),
        last: has_name(names, "last"),
        set,
        next_copy,
        part: part.map(|d| DeviceId((d & 0xff) as u8)),
        next_block,
        reported: [false; 8],
        devices: [NO_LOOK; 8],
        ready: [false; 8],
        count: 0,
    })
}

fn read_device(words: &mut Words<'_>) -> Option<Device> {
    let flags = Flags::of(words.small()?)?;
    let fails = words.number()?;
    let state = words.state()?;
    let held = words.state_or_dash()?;
    let unissued = words.number()?;
    let undelivered = words.number()?;
    let delivered = words.number()?;
    let completes = words.number()?;
    let arcs = words.number()?;
    let names = words.word();
    let look = DevLook {
        state,
        held,
        unissued,
        undelivered,
        delivered,
        issued: completes,
        completes,
        arcs,
        blocked: None,
    };
    Some(Device {
        flags,
        fails,
        look,
        ready: has_name(names, "ready"),
        reported: has_name(names, "reported"),
    })
}

// a description of a device with these flags and this failing arc
fn shape(alloc: Global, device: &Device) -> Option<DevShape> {
    let name = Name::of(b"a")?;
    let bars = Bars::of(&[64])?;
    Some(DevShape {
        name,
        flags: device.flags,
        bars,
        window: 1,
        tells: true,
        budget: 1,
        fails: device.fails,
        jobs: Jobs::of(Vec::new(alloc)),
        queue: Queue::of(Vec::new(alloc)),
    })
}

// what is to be done next
fn read_want(words: &mut Words<'_>) -> Option<Want> {
    let entry = match words.word() {
        "wait" => return Some(Want::Wait),
        "done" => return Some(Want::Done),
        "begin" => Entry::Begin,
        "joint" => Entry::Joint,
        "abort" => Entry::Abort,
        "pass" => Entry::Pass { k: words.number()? },
        "copy" => Entry::Copy { p: words.number()? },
        kind => of_device(kind, words)?,
    };
    Some(Want::Do(entry))
}

// an entry of this kind that names a device
fn of_device(kind: &str, words: &mut Words<'_>) -> Option<Entry> {
    let d = DeviceId(words.small()?);
    match kind {
        "hold" => Some(Entry::Hold {
            d,
            to: words.state()?,
        }),
        "arc" => Some(Entry::Arc {
            d,
            to: words.state()?,
        }),
        "fail" => Some(Entry::Fail {
            d,
            to: words.state()?,
        }),
        "report" => Some(Entry::Report { d }),
        "block" => Some(Entry::Block {
            d,
            b: words.number()?,
        }),
        "dry" => Some(Entry::Dry { d }),
        _ => None,
    }
}

// the devices of a line, with what is seen of each put into the look
fn read_devices(
    alloc: Global,
    words: &mut Words<'_>,
    look: &mut MoveLook,
) -> Result<Option<Vec<DevShape>>, AllocError> {
    let mut shapes = Vec::with_capacity(alloc, 8)?;
    let mut more = words.word() == "device";
    for place in 0..8u8 {
        if !more {
            break;
        }
        let Some(found) = read_device(words) else {
            return Ok(None);
        };
        let Some(shape) = shape(alloc, &found) else {
            return Ok(None);
        };
        shapes.push(shape)?;
        look.devices[usize::from(place)] = found.look;
        look.ready[usize::from(place)] = found.ready;
        look.reported[usize::from(place)] = found.reported;
        look.count = place + 1;
        more = words.word() == "device";
    }
    Ok(Some(shapes))
}

/// The case in a line, if it is one.
pub(crate) fn read(alloc: Global, line: &str) -> Result<Option<Case>, AllocError> {
    let list: Vec<&str> = line.split_whitespace().collect(alloc)?;
    let mut words = Words::of(&list);
    let Some(limits) = read_limits(&mut words) else {
        return Ok(None);
    };
    let Some(mut look) = read_look(&mut words) else {
        return Ok(None);
    };
    let Some(shapes) = read_devices(alloc, &mut words, &mut look)? else {
        return Ok(None);
    };
    let Some(want) = read_want(&mut words) else {
        return Ok(None);
    };
    if shapes.len() > 8 {
        return Ok(None);
    }
    let desc = Desc {
        session: 7,
        page: 16,
        pages: 1024,
        channels: 1,
        version: 1,
        begin: limits.begin,
        rounds: limits.rounds,
        threshold: limits.threshold,
        devices: Shapes::of(shapes),
    };
    Ok(Some(Case {
        desc,
        look,
        abort_after: limits.abort_after,
        want,
    }))
}
