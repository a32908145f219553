//! A record, and why some bytes are none.

/// A part of the state that a stream carries. What is longer than a number is lent from the bytes that it was read from.
#[derive(Clone, Copy, Debug, PartialEq, Eq)]
pub enum Rec<'a> {
    /// Page `p` of memory.
    Page {
        p: u32,
        bytes: &'a [u8],
    },
    /// Block `b` of the device's BARs: 64 bytes.
    Block {
        b: u32,
        bytes: &'a [u8],
    },
    /// How many requests the device accepted, did and lost, how many are pending, and its buffer of 64 bytes.
    Engine {
        accepted: u32,
        done: u32,
        lost: u32,
        pend: u32,
        buf: &'a [u8],
    },
    /// `count` pending requests, 1 to 4,096, each of eight bytes: its number and the number of its job.
    Pending {
        count: u32,
        bytes: &'a [u8],
    },
    /// The SHA-256 digest of the stream's shape text.
    Config {
        digest: &'a [u8],
    },
}

/// Some bytes are no record of the stream: the first test that fails is of what stands at this place, counted from the
/// tag. Where the length is wrong it is the length.
#[derive(Clone, Copy, Debug, PartialEq, Eq)]
pub struct RecordFault {
    pub place: u32,
}
