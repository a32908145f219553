//! Laws of the coordinator's order over legal runs. Each is a function without a body whose contract states the law; the
//! definitions are those of `vfm_quiet`, `vfm_types` and `vfm_plain`.
#![tactic(auto)]

mod idle;
mod looks;
mod making;
mod staged;
mod waiting;

pub use idle::idle_moves_on;
pub use looks::{alike_looks_want_the_same, looks_can_be_asked};
pub use making::{aborts_where_due, wants_may_be_made};
pub use staged::{staged_order_is_home, staged_wants_may_be_made};
pub use waiting::{done_where_done, waits_where_stuck};
