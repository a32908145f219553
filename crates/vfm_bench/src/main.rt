//! Does every request of a machine of eight devices in order, and prints how many were done. `tools/bench` times it.
//!
//! Its words are `N`, or one of these and `N`, or none; where N is left out it is 16. N is 0 to 50,000: the number of requests of
//! each device.
//!
//! - `engines N` makes them by the engines of the devices, and prints how many steps these were.
//! - `bars N` makes N thousand writes to the BARs of a device, and prints how many blocks are dirty then.
//! - `core N` drives a core of eight devices through a move with passes, and prints how many entries its journal has.
//! - `again N` makes these entries once more besides, on another core.
//! - `written N` drives such a core, gives the move up, writes the report of that, and prints how many bytes it has.
//! - `read N` reads this report besides, and prints how many entries it has; `audited N` reads and audits it.
//!
//! For the last five N may also be `largest`: 50,000 requests of each device, 1,024 pages, and BARs of 65,536 bytes.
#![tactic(auto)]

mod case;
mod drive;
mod leaves;
mod report;
mod run;
mod words;

ghost use Rattle.std.specs.Prelude.{◌≤◌, IfOk};
ghost use Rattle.vfm_types.specs.Valid.{IsValid};

use anyhow::{Result, bail};
use std::alloc::Global;
use vfm_plain::Plain;
use vfm_types::Desc;
use words::{Size, Way, read_words};

// the machine of this size that is moved
fn moved(alloc: Global, size: Size) -> Result<Desc>
    ensures { IfOk result IsValid }
{
    match size {
        Size::Each(requests) => case::moved_description(alloc, requests.number),
        Size::Largest => case::largest_description(alloc),
    }
}

// how many requests that is
fn number(size: Size) -> Result<u32>
    ensures { IfOk result (λ number. number ≤ 50000) }
{
    match size {
        Size::Each(requests) => Ok(requests.number),
        Size::Largest => bail!("a number is wanted"),
    }
}

// does every request of a plain machine
fn do_plain(rt: &HostRuntime, size: Size) -> Result<()> {
    let alloc = rt.alloc();
    let desc = case::sized_description(alloc, number(size)?)?;
    let Ok(mut plain) = Plain::of(alloc, &desc) else {
        bail!("no memory for the machine");
    };
    run::do_all(&desc, &mut plain);
    let done = run::count_done(&desc, &plain);
    println!(rt; "done {done}")?;
    Ok(())
}

// makes every request by the engines of the devices
fn do_engines(rt: &HostRuntime, size: Size) -> Result<()> {
    let alloc = rt.alloc();
    let desc = case::sized_description(alloc, number(size)?)?;
    let steps = leaves::engine_steps(alloc, &desc)?;
    println!(rt; "steps {steps}")?;
    Ok(())
}

// writes to the BARs of a device
fn do_bars(rt: &HostRuntime, size: Size) -> Result<()> {
    let dirty = leaves::dirty_blocks(rt.alloc(), number(size)?)?;
    println!(rt; "dirty {dirty}")?;
    Ok(())
}

// drives a core
fn do_core(rt: &HostRuntime, size: Size) -> Result<()> {
    let alloc = rt.alloc();
    let core = drive::driven(alloc, moved(alloc, size)?)?;
    println!(rt; "entries {}", core.journal().len())?;
    Ok(())
}

// drives a core, and makes its entries again on another
fn do_again(rt: &HostRuntime, size: Size) -> Result<()> {
    let alloc = rt.alloc();
    let core = drive::driven(alloc, moved(alloc, size)?)?;
    let again = drive::made_again(alloc, moved(alloc, size)?, &core)?;
    println!(rt; "entries {}", again.journal().len())?;
    Ok(())
}

// writes a report
fn do_written(rt: &HostRuntime, size: Size) -> Result<()> {
    let alloc = rt.alloc();
    let sink = report::written(alloc, moved(alloc, size)?)?;
    println!(rt; "bytes {}", sink.bytes().len())?;
    Ok(())
}

// writes a report and reads it
fn do_read(rt: &HostRuntime, size: Size) -> Result<()> {
    let alloc = rt.alloc();
    let sink = report::written(alloc, moved(alloc, size)?)?;
    let desc = moved(alloc, size)?;
    let entries = report::count_read(alloc, &desc, sink.bytes())?;
    println!(rt; "entries {entries}")?;
    Ok(())
}

// writes a report, reads it and audits it
fn do_audited(rt: &HostRuntime, size: Size) -> Result<()> {
    let alloc = rt.alloc();
    let sink = report::written(alloc, moved(alloc, size)?)?;
    let desc = moved(alloc, size)?;
    let entries = report::count_audited(alloc, &desc, sink.bytes())?;
    println!(rt; "entries {entries}")?;
    Ok(())
}

fn main(rt: HostRuntime) -> Result<()> {
    let (way, size) = read_words(&rt)?;
    match way {
        Way::Plain => do_plain(&rt, size),
        Way::Engines => do_engines(&rt, size),
        Way::Bars => do_bars(&rt, size),
        Way::Core => do_core(&rt, size),
        Way::Again => do_again(&rt, size),
        Way::Written => do_written(&rt, size),
        Way::Read => do_read(&rt, size),
        Way::Audited => do_audited(&rt, size),
    }
}
