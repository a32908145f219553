//! The lists of a description and of a machine's state, under names of their own.

use crate::{DevShape, Job};
use vfm_base::{Items, Numbered};

/// The jobs of a device, by number. Fewer than 2^32.
pub type Jobs = Numbered<Job>;

/// The jobs that are asked for at the start, by number and in order. Fewer than 2^32.
pub type Queue = Numbered<u32>;

/// The devices of a machine, by number. Fewer than 2^32.
pub type Shapes = Numbered<DevShape>;

/// A list of bytes.
pub type Bytes = Items<u8>;

/// A list of byte lists, as the pages of a memory.
pub type Sheets = Items<Bytes>;

/// Pending requests, each with its number and the number of its job.
pub type PendingList = Items<(u32, u32)>;
