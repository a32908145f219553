//! Laws that join what both ends of a move did. Each is a function without a body whose contract states it.
#![tactic(auto)]

mod abort;
mod fails;

pub use abort::{copies_stand_after_abort, no_arc_fails_after_abort};
pub use fails::{arcs_fail_as_described, failed_moves_have_a_failed_arc, one_arc_fails};
