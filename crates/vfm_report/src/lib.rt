//! Reading a printed report back: its journals and its states, or the line at which it is no report.
#![tactic(auto)]

mod device;
mod digits;
mod entry;
mod journal;
mod laws;
mod lines;
mod number;
mod printed;
mod report;
mod state;
mod state_line;
mod state_name;
mod status_line;
mod stop;
mod words;

pub use entry::read_entry;
pub use laws::{a_report_has_one_meaning, a_text_has_one_bad_line};
pub use printed::{PrintedDevice, PrintedState};
pub use report::{Report, TextFault, read_report};

#[cfg(test)]
mod tests;
