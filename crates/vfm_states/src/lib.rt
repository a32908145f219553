//! The state machine of a migrating device: the next state towards a target, whole paths, and the laws of the table.
#![tactic(auto)]

mod laws;
mod route;
mod table;
mod walk;

pub use laws::{interiors, paths_end, single_arcs, stops_through_p2p, supported_only};
pub use route::Route;
pub use walk::{next_state, next_towards, path};

#[cfg(test)]
mod tests;
