//! The call that migrates a machine: both ends over one set of links, as a move whose meaning `vfm_move` says.
#![tactic(auto)]

mod carrying;
mod channels;
mod committing;
mod concluding;
mod control;
mod migration;
mod step;

pub use migration::{Migration, migrate};
pub use step::Step;
