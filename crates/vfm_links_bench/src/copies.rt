//! Plain copies of as many bytes as packets of version 1 have.

use anyhow::Result;
use std::alloc::Global;

/// How many bytes a packet of version 1 with the longest payload has.
const PACKET: usize = 65_576;

/// Copies so many packets' bytes from one place in memory to another, one packet after the other, and says how many bytes
/// that were.
pub fn copied(alloc: Global, packets: u32) -> Result<Option<u64>> {
    let from = vec![in alloc; 7u8; PACKET]?;
    let mut to = Vec::with_capacity(alloc, PACKET)?;
    let mut came: u64 = 0;
    for _ in 0..packets {
        to.clear();
        to.extend_from_slice(from.as_slice())?;
        came = came.saturating_add(to.len() as u64);
    }
    Ok(Some(came))
}
