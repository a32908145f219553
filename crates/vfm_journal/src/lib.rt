//! The journal: every step that a machine and its move made, in order.
#![tactic(auto)]

mod journal;

pub use journal::Journal;

#[cfg(test)]
mod tests;
