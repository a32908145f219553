//! A core driven by its owner alone, round by round: a step of each device that has one, then one of the
//! coordinator, until nobody has one. So a source that gives up comes home, and so does a destination that takes a
//! machine over. Takes no memory.
#![tactic(auto)]

mod endings;
mod laws;
mod making;
mod rounds;

pub use endings::{give_up, take_over};
pub use laws::{copied_machines_may_be_taken_over, still_moves_are_done};
pub use rounds::{round, run_on, step_device, step_devices, step_wanted, wanted};

#[cfg(test)]
mod tests;
