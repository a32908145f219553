//! The order in which the coordinator of a move does its part: what is to be done next, read off a look at the move.
#![tactic(auto)]

mod coordinator;
mod device;
mod devices;
mod move_look;
mod want;

pub use coordinator::next;
pub use move_look::MoveLook;
pub use want::Want;
