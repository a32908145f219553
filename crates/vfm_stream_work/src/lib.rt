//! The worker of one stream: it takes parcels off the rings of its stream while the readers of the channels still give them.
//!
//! A worker owns the funnel and the intake of its stream, and may run in a thread of its own. However its takes fall between
//! the readers' steps, what it took of each channel is a prefix of what the channel's reader gave; what it leaves in the
//! rings is for its owner.
#![tactic(auto)]

mod worker;

pub use worker::{IDLE_TAKES, StreamWorker};

#[cfg(test)]
mod tests;
