//! Makes the description of a generated load from its number, and sums up what came of it.
#![tactic(auto)]

mod device;
mod job;
mod load;
mod sums;

pub use load::generate;
pub use sums::Sums;

#[cfg(test)]
mod tests;
