//! The order of the coordinator along worked journals, by computation. Each function has no body, and its contract states
//! that whatever the coordinator makes in a journal is what the order wants there, and what it wants after all.
#![tactic(auto)]

mod given_up;
mod one;
mod pair;
mod schedules;
mod several;

pub use given_up::{given_up_is_ordered, three_given_up_is_ordered};
pub use one::{
    abort_is_ordered, failing_arcs_are_ordered, one_device_is_ordered, passes_are_ordered,
};
pub use pair::pair_is_ordered;
pub use schedules::{
    duo_failing_is_ordered, duo_runs_are_ordered, mono_runs_are_ordered, solo_runs_are_ordered,
    three_failing_is_ordered, three_runs_are_ordered,
};
pub use several::{
    barred_request_is_waited_for, least_device_goes_on, one_stopped_goes_home_first,
    pre_copy_is_ordered, three_devices_are_ordered,
};
