//! Values that know nothing of a machine: short byte strings, lists with a model, sets of pages, the numbers that stand in
//! bytes, and the error that memory ran out.
#![tactic(auto)]

mod bytes;
mod duplicate;
mod lists;
mod memory;
mod pages;
mod words;

pub use bytes::ShortBytes;
pub use duplicate::Duplicate;
pub use lists::{Items, Numbered};
pub use memory::NoMemory;
pub use pages::PageSet;
pub use words::{u16_at, u32_at, u64_at};

#[cfg(test)]
mod tests;
