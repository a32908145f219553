//! The outside of a migration: where bytes come from and go to, the links between the two ends, and the faults of
//! all of these. Each is a trait whose contract says what a call moves and when it may fail.
#![tactic(auto)]

mod beat;
mod failed;
mod faults;
mod inlet;
mod link;
mod mem_sink;
mod mem_source;
mod piece;
mod ring_link;
mod ring_wires;
mod script;
mod script_link;
mod script_wires;
mod sink;
mod source;
mod wires;

pub use beat::{Beat, NoBeat};
pub use failed::{Failed, ReadFault};
pub use faults::{Counting, all_faults};
pub use link::Link;
pub use mem_sink::MemSink;
pub use mem_source::MemSource;
pub use ring_link::RingLink;
pub use ring_wires::RingWires;
pub use script_link::ScriptLink;
pub use script_wires::ScriptWires;
pub use sink::{Sink, write_all};
pub use source::{Source, read_up_to};
pub use wires::{ConnectFault, Ends, Wires};

#[cfg(test)]
mod tests;
