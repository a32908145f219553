//! The core of a machine on its move: its description, its parts, and the journal of what they did.
#![tactic(auto)]

mod copy;
mod deliver;
mod described;
mod entries;
mod laws;
mod machine;
mod same;
mod split;
mod staged;
mod step;
mod view;

pub use laws::{cores_are_plain, staged_cores_are_plain, steps_are_kept};
pub use machine::Core;
pub use split::Split;

#[cfg(test)]
mod tests;
