//! The sending end of a channel: which channel carries a packet, and a sender that gathers packets and sends them over any
//! link, in order, until it ends the channel or the link fails.
//!
//! What a sender was given is what its link says that it sent, followed by what waits in its outbox. Every call keeps that, at
//! a failure too, so what was sent is at each moment a prefix of the encodings of what was put.
#![tactic(auto)]

mod lanes;
mod mark;
mod packing;
mod sender;
mod sending;

pub use lanes::lane;
pub use mark::Mark;
pub use sender::Sender;
pub use sending::send_bytes;

#[cfg(test)]
mod tests;
