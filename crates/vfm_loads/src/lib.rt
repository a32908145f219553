//! The generated load, and the law that its end depends on no schedule. Each law is a function without a body
//! whose contract states it.
#![tactic(auto)]

mod ends;
mod serial;
mod valid;
mod variants;
mod worked;

pub use ends::{every_order_ends_alike, every_run_ends_alike, load_ends_with};
pub use serial::{serial_does_enabled_requests, serial_is_still};
pub use valid::generated_is_valid;
pub use variants::{
    bells_for_two_jobs, blocks_of_two_kinds, counts_must_be_fences, pages_shared,
    variants_are_valid, writes_in_place_of_counts,
};
pub use worked::{
    counts_of_loads, peers_of_loads, queue_is_rounds, rung_jobs_of_loads, sizes_of_loads,
};
