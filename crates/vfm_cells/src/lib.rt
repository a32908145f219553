//! The cells of a machine on its move, one for each part, and the laws that let each entry be made on the cells that it
//! touches. Each law is a function without a body whose contract states it.
#![tactic(auto)]

mod fits;
mod runs;
mod steps;

pub use fits::{cell_steps_keep_fit, cells_fit_as_parts};
pub use runs::log_is_one_run;
pub use steps::{steps_are_local, steps_are_made};
