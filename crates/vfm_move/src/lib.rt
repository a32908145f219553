//! A described machine is moved from one end to the other over wires: what such a move means, what its statuses say, and laws
//! and worked cases of that.
#![tactic(auto)]

pub mod complete;
pub mod ends;
pub mod laws;
pub mod steps;
pub mod worked;
pub mod worked_ends;
pub mod worked_links;
