//! All streams of a move at once: parcels go in as they come, and at the end the verdict comes out.
//!
//! An intake has a reorder buffer and a loader for each stream. A stream's two are one value that owns its stream alone, so
//! that each may be fed in a thread of its own. The order in which the parcels of several channels come doesn't matter.
#![tactic(auto)]

mod intake;
mod refusal;
mod stream;
mod verdict;

pub use intake::Intake;
pub use refusal::{StreamRefusal, end_refusal};
pub use stream::StreamIntake;
pub use verdict::verdict_of;

#[cfg(test)]
mod tests;
