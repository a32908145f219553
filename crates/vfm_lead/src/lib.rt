//! The coordinator's part of a machine on its move, and the entries that it makes on itself and on the devices.
#![tactic(auto)]

mod arc_faults;
mod by_device;
mod changes;
mod devices;
mod faults;
mod look;
mod make;
mod part;
mod pass_faults;
mod phase_faults;
mod step;
mod words;

pub use devices::device;
pub use look::{look_of, looks_show_the_list};
pub use part::LeadPart;
pub use step::{step_copy, step_lead};
