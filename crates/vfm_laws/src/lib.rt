//! Laws about legal runs of a described machine. Each is a function without a body whose contract states the law; the
//! definitions are those of `vfm_types` and `vfm_plain`.
#![tactic(auto)]

mod bounds;
mod clean;
mod ended;
mod facts;
mod machine;
mod prefixes;
mod queue;
mod states;
mod unclean;

pub use bounds::{arcs_are_few, issues_add_up, passes_are_few};
pub use clean::{delivery_is_clean, legal_is_clean};
pub use ended::ended_is_done;
pub use facts::{device_facts_follow, move_facts_follow};
pub use machine::{delivery_is_enabled, joint_machine_exists, machine_exists};
pub use prefixes::{
    before_is_legal, broken_is_first, one_more_is_broken, one_more_is_legal, unbroken_is_legal,
};
pub use queue::{
    accepted_is_done_or_pending, outstanding_numbers_differ, queues_are_kept,
    undelivered_are_enabled, undelivered_are_first, window_and_fences_hold,
};
pub use states::{
    barred_is_running, joint_is_still, outstanding_is_awake, states_are_kept, stopped_beside_quiet,
};
pub use unclean::{
    barred_request_enters_p2p, issue_in_p2p, issue_when_stopped, machines_are_valid,
    start_beside_stopped, stop_beside_running, stop_with_request,
};
