//! The records that close the streams of a move: memory's stream is closed by the digest of its shape, and that of each
//! device by its counts, its pending requests and the digest of its shape.
//!
//! They are put once, after the last pass, behind all pages and blocks that were sent.
#![tactic(auto)]

mod device;
mod streams;

pub use streams::put_closed;

#[cfg(test)]
mod tests;
