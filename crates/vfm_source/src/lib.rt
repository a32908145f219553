//! The source end of a move: its machine, what it puts into its channels as that goes on, and its part of the handshake.
//!
//! The bytes of a page or a block are taken from the machine as it stands just before the entry that sends them is made.
#![tactic(auto)]

mod ending;
mod fault;
mod making;
mod mover;
mod offering;
mod order;
mod phase;
mod putting;
mod refusing;
mod rounds;

pub use fault::OfferFault;
pub use making::make_sent;
pub use mover::Mover;
pub use order::{Turn, take_turn};
pub use phase::Phase;
pub use putting::put_entry;
pub use rounds::{Stop, make_rounds, round};

#[cfg(test)]
mod tests;
#[cfg(test)]
mod tests_answers;
#[cfg(test)]
mod tests_pair;
