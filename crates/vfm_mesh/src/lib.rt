//! What goes from the readers of channels to the loaders of streams: one ring for each channel and stream, each with a list
//! of what its reader keeps while the ring is full.
//!
//! A reader owns a fan, a loader a funnel, and either may run in a thread of its own. A parcel moves by value from the one
//! to the other and is never copied. Once both are done, `settle` takes all fans and all funnels back and gives what is left.
#![tactic(auto)]

mod fan;
mod feed;
mod funnel;
mod mesh;
mod parcel;
mod payload;
mod rest;
mod settling;

pub use fan::Fan;
pub use funnel::Funnel;
pub use mesh::Mesh;
pub use parcel::Parcel;
pub use payload::Payload;
pub use rest::Rest;
pub use settling::settle;

#[cfg(test)]
mod tests;
