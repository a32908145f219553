//! What is wrong with the records of a stream.

/// Why a stream makes no part. Where several apply, the first of this order is the answer.
#[derive(Clone, Copy, Debug, PartialEq, Eq)]
pub enum LoadFault {
    /// The payload of the packet with this index, the first such, isn't a record that can stand there. The first test
    /// that fails is of what stands at this place of the payload; where the length is wrong the place is the length.
    BadRecord { index: u32, place: u32 },
    /// The digest that came isn't that of the own shape text.
    ConfigDiffers { ours: [u8; 32], theirs: [u8; 32] },
    /// This page or block, the least such, never came; 4,294,967,295 where all of a device's came and its counts or some
    /// of its pending requests are lacking.
    NotWhole { least: u32 },
}

/// The first packet that was refused: its index, and the place in its payload.
#[derive(Clone, Copy, Debug, PartialEq, Eq)]
pub struct Refused {
    pub index: u32,
    pub place: u32,
}
