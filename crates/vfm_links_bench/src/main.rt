//! Moves bytes through a sender and a pair of rings, or copies as many, and prints how many came. `tools/bench` times it.
//!
//! Its words are `ring N`, `sealed N` or `copy N`, where N is 1 to 1,024; without words it does `ring 1`. N mebibytes of
//! payload go in packets of 65,536 bytes: in version 1, in version 2 with its seals, or as plain copies of what a packet of
//! version 1 has.
#![tactic(auto)]

mod copies;
mod rings;
mod words;

use anyhow::{Result, bail};
use words::Way;

fn main(rt: HostRuntime) -> Result<()> {
    let alloc = rt.alloc();
    let asked = words::read_words(&rt)?;
    let packets = 16 * asked.mebibytes;
    let came = match asked.way {
        Way::Ring => rings::through_rings(alloc, 1, packets)?,
        Way::Sealed => rings::through_rings(alloc, 2, packets)?,
        Way::Copy => copies::copied(alloc, packets)?,
    };
    let Some(came) = came else {
        bail!("a link failed");
    };
    println!(rt; "{came} bytes")?;
    Ok(())
}
