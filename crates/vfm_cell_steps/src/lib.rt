//! What lies in the cells of a machine on its move, one cell for the coordinator, one for each device and one for each
//! page, and each entry as a step on the cells that it touches.
#![tactic(auto)]

mod across;
mod entries;
mod group;
mod part;

pub use across::step_across;
pub use entries::has_entry;
pub use group::{step_copied, step_group};
pub use part::Part;
