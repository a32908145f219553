//! The engine of a device: the requests that it accepted and has on the bus, its counts, its buffer, its state and its hold.
#![tactic(auto)]

mod bus;
mod engine;
mod laws;
mod queue;
mod turn;

pub use engine::{Blocked, Engine};
pub use laws::{
    engine_steps_are_part_steps, engines_start_in_order, engines_stay_in_order,
    undelivered_requests_are_pending,
};
pub use turn::{job_at, shape_at};

#[cfg(test)]
mod tests;
