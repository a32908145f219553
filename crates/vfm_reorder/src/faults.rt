//! What is wrong with the indexes of a stream.

/// Why a packet wasn't put into a buffer.
#[derive(Clone, Copy, Debug, PartialEq, Eq)]
pub enum PutFault {
    /// A packet with this index was put before. That one stays.
    Doubled { index: u32 },
    /// Memory ran out.
    NoMemory,
}

/// Why a stream isn't whole. Where several apply, the first of this order is the answer.
#[derive(Clone, Copy, Debug, PartialEq, Eq)]
pub enum Gap {
    /// A packet stands above the config packet, this one first.
    Past { index: u32 },
    /// No config packet came.
    NoConfig,
    /// No packet below the config packet came with this index, which is the least such.
    Missing { index: u32 },
}
