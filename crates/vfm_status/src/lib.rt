//! How a run can end: the statuses, the number that the program ends with, and the line that reports each.
#![tactic(auto)]

mod line;
mod status;

pub use line::{number_text, put_status};
pub use status::{Doubt, Status, number};
pub use vfm_audit::Section;

#[cfg(test)]
mod tests;
