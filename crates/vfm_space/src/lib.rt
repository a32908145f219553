//! What lies in a machine's memory and BARs: the pages of guest memory, and the BAR bytes of a device with the marks of
//! their blocks.
#![tactic(auto)]

mod bar;
mod laws;
mod memory;

pub use bar::Bar;
pub use laws::bar_steps_are_part_steps;
pub use memory::Memory;

#[cfg(test)]
mod tests;
