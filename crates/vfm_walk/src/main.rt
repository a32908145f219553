//! Walks the core of forty machines at random, 5,000 entries each, and prints what came of it. What it is to print comes from
//! `tools/walk`, which has the rules of the model in a computation of its own.
#![tactic(auto)]

mod draws;
mod walk;

use anyhow::Result;

fn main(rt: HostRuntime) -> Result<()> {
    let alloc = rt.alloc();
    for i in 0..vfm_samples::MACHINES {
        walk::walk(&rt, alloc, i)?;
    }
    Ok(())
}
