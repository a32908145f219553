//! The receiving end of a channel: a reader that takes bytes off any link, finds the packets in them, and hands each one on
//! to a mesh as soon as it is whole.
//!
//! A reader is right by the definitions of a channel: it hands on exactly the packets before the channel's first refusal,
//! in order, each once, and then the mark that nothing more comes; and its answer is that refusal.
#![tactic(auto)]

mod channel_end;
mod intake;
mod reader;

pub use channel_end::ChannelEnd;
pub use reader::Reader;

#[cfg(test)]
mod tests;
