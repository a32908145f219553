//! Forty machines to try things on. `tools/walk` has the same ones.
#![tactic(auto)]

mod machines;

pub use machines::{MACHINES, machine};
