//! The top call: words in, a report and a status out.
#![tactic(auto)]

mod audited;
mod call;
mod description;
mod line;
mod outcome;
mod print;
mod summary;
mod words;

pub use call::{local, run};
pub use vfm_status::{Doubt, Section, Status, number};

#[cfg(test)]
mod tests;
