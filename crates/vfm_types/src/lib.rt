//! The plain types of a migrated machine, and the definitions that every contract speaks in.
#![tactic(auto)]

mod bars;
mod bytes;
mod desc;
mod entry;
mod fault;
mod job;
mod lists;
mod look;
mod ranges;
mod running;
mod state;

pub use bars::Bars;
pub use bytes::{Bytes64, Heard44, Name};
pub use desc::{Desc, DevShape};
pub use entry::{Entry, Rule};
pub use fault::{DescFault, Field, FieldName, LinkFault, LinkPlace, Refusal};
pub use job::{Job, Place, Region};
pub use lists::{Bytes, Jobs, PendingList, Queue, Shapes, Sheets};
pub use look::DevLook;
pub use state::{DeviceId, Flags, MigState, PathFault};
pub use vfm_base::{Items, NoMemory, Numbered, PageSet, ShortBytes};
