//! One stream of a move, loaded: its records make the memory or one device.
//!
//! A loader is made for a stream with all the room that it needs. It applies the stream's packets in the order of their
//! indexes, keeps the first fault, and at the end gives the part, or says what is wrong with the stream. Of each page and
//! each block the record that came last counts.
#![tactic(auto)]

mod device;
mod faults;
mod laws;
mod loader;
mod pages;
mod store;

pub use faults::LoadFault;
pub use laws::packets_in_order_are_the_stream;
pub use loader::Loader;

#[cfg(test)]
mod tests;
