//! Prints every member of a description that was read.

use std::alloc::Global;
use std::io;
use std::io::Print;
use vfm_desc::read_desc;
use vfm_types::{Desc, DevShape, Job};

fn show_job(rt: &impl Print, job: &Job) -> io::Result<()> {
    match job {
        Job::Write { at, bytes } => {
            let bytes = bytes.bytes();
            println!(rt; "write {at} {bytes:?}")
        }
        Job::Read { at, len } => println!(rt; "read {at} {len}"),
        Job::Store { at, len } => println!(rt; "store {at} {len}"),
        Job::Add { at, value } => println!(rt; "add {at} {value}"),
    }
}

fn show_device(rt: &impl Print, device: &DevShape) -> io::Result<()> {
    let name = device.name.bytes();
    let flags = device.flags.bits();
    let bars = device.bars.as_slice();
    println!(rt;
        "device {name:?} flags {flags} bars {bars:?} window {}",
        device.window
    )?;
    println!(rt;
        "tells {} budget {} fails {}",
        device.tells, device.budget, device.fails
    )?;
    for job in device.jobs.as_slice() {
        show_job(rt, job)?;
    }
    let queue = device.queue.as_slice();
    println!(rt; "queue {queue:?}")
}

fn show_desc(rt: &impl Print, desc: &Desc) -> io::Result<()> {
    println!(rt;
        "session {} page {} pages {}",
        desc.session, desc.page, desc.pages
    )?;
    println!(rt;
        "channels {} version {} begin {}",
        desc.channels, desc.version, desc.begin
    )?;
    println!(rt; "rounds {} threshold {}", desc.rounds, desc.threshold)?;
    for device in desc.devices.as_slice() {
        show_device(rt, device)?;
    }
    Ok(())
}

/// Prints what the text describes.
pub(crate) fn show(rt: &impl Print, alloc: Global, text: &str) -> io::Result<()> {
    match read_desc(alloc, text.as_bytes()) {
        Ok(desc) => show_desc(rt, &desc),
        Err(fault) => println!(rt; "{fault:?}"),
    }
}
