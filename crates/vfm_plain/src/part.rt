//! A part of a machine as it is handed over: what one stream of a move loads.

use vfm_types::{Bytes, PendingList, Sheets};

/// The memory, or one device. Only its bytes and numbers: how far its move has come isn't in it.
#[derive(Drop)]
pub enum Part {
    /// The pages of the memory, in order.
    Pages(Sheets),
    /// A device.
    Device {
        /// The bytes of its BARs, one after the other.
        bar: Bytes,
        /// Its buffer.
        buf: [u8; 64],
        /// How many requests it accepted, did and lost.
        counts: (u32, u32, u32),
        /// Its pending requests, each with its number and the number of its job, in the order of their numbers.
        pending: PendingList,
    },
}
