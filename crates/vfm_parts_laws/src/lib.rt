//! Laws about the parts of a machine on its move: what each part alone satisfies, staged parts, what is seen of the
//! parts, and how many entries are left to them. Each law is a function without a body whose contract states it.
#![tactic(auto)]

mod fits;
mod looks;
mod room;
mod staged;

pub use fits::{
    delivery_keeps_target_fit, own_steps_keep_fit, parts_of_lists_fit, staged_parts_fit,
    steps_keep_fit,
};
pub use looks::{
    device_looks_are_facts, due_looks_are_facts, move_looks_are_facts, staged_look_is_bare,
};
pub use room::{legal_lists_are_short, room_is_enough, steps_keep_standing, steps_leave_less};
pub use staged::{staged_parts_begin, staged_parts_follow};
