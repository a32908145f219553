//! The part of one device and of one page of a machine on its move, and the steps of a device on them.
#![tactic(auto)]

mod delivery;
mod laws;
mod own;
mod page;
mod part;
mod pick;
mod steps;

pub use laws::{
    device_steps_are_entries, move_steps_keep_fit, picks_are_allowed_steps, targets_are_aims,
};
pub use page::PagePart;
pub use part::DevPart;
pub use steps::{Guard, step_own, step_to_device, step_to_page};

#[cfg(test)]
mod tests;
#[cfg(test)]
mod tests_lists;
