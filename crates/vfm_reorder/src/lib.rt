//! The packets of one stream in the order of their indexes, however they come.
//!
//! A loader puts packets in as they come, over whichever channels, and takes them out from index 0 on, one after the other,
//! until a packet is lacking or the config packet was taken. At the end the buffer says whether the stream was whole.
#![tactic(auto)]

mod buffer;
mod faults;
mod held;

pub use buffer::ReorderBuf;
pub use faults::{Gap, PutFault};

#[cfg(test)]
mod tests;
