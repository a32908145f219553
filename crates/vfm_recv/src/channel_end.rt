//! How a channel ended.

use vfm_packet::Cause;

/// What a reader answers of its channel. A place is the offset of the first byte that isn't part of a packet before it.
#[derive(Clone, Copy, Debug, PartialEq, Eq)]
pub enum ChannelEnd {
    /// The channel is sound: packets, one end packet, and nothing after it.
    Ended,
    /// The sender gave up.
    Aborted { place: u64 },
    /// The link failed. What came before that has no refusal that counts.
    Fault,
    /// No packet stands there, for this cause.
    Bad { place: u64, cause: Cause },
    /// The channel ended in the middle of a packet.
    Truncated { place: u64 },
    /// The channel ended after whole packets, without an end packet.
    NoEnd { place: u64 },
    /// A byte came after the end packet.
    AfterEnd { place: u64 },
    /// More than 67,108,864 bytes came, and nothing else is wrong before.
    TooLong,
    /// Memory ran out.
    NoMemory,
}
