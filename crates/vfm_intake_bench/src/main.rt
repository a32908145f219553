//! Loads a long channel as a destination does, and prints how many bytes came. `tools/bench` times it.
//!
//! Its words are `built N`, `received N` or `reversed N`, where N is 5 to 64; without words it does `received 5`. The channel
//! has just under N mebibytes: the 1,024 pages of a machine, over and over, and what else is needed of it.
//! `built` makes the channel alone; `received` also reads it, puts its packets in order and loads them; `reversed` does so
//! with the packets in reverse order.
#![tactic(auto)]

mod channel;
mod load;
mod machine;
mod words;

use anyhow::Result;
use channel::{Order, channel};
use machine::described;
use words::Way;

fn main(rt: HostRuntime) -> Result<()> {
    let alloc = rt.alloc();
    let asked = words::read_words(&rt)?;
    let desc = described(alloc)?;
    let order = match asked.way {
        Way::Built | Way::Received => Order::Rising,
        Way::Reversed => Order::Falling,
    };
    let bytes = channel(alloc, &desc, asked.mebibytes, order)?;
    let len = bytes.len();
    if asked.way != Way::Built {
        load::load(alloc, &desc, bytes)?;
    }
    println!(rt; "{len} bytes")?;
    Ok(())
}
