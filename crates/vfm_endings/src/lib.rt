//! No move hangs and none is endless: where the devices have nothing left to do, following the coordinator's order comes to
//! its end. The law is a function without a body whose contract states it.
#![tactic(auto)]

mod endings;

pub use endings::idle_moves_end;
