//! The channels of a source: which of them carries each record of the state, and how each is ended.
//!
//! Records are put one by one, stream by stream, and wait in the outbox of their channel until they are sent. What each
//! channel was given is at each moment its share of all that was put.
#![tactic(auto)]

mod channels;
mod outlets;

pub use outlets::Outlets;

#[cfg(test)]
mod tests;
