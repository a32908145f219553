//! The receiving end of a move.
#![tactic(auto)]

mod answering;
mod beside;
mod bridge;
mod channel_worker;
mod crews;
mod draining;
mod finishing;
mod homeward;
mod judging;
mod laws;
mod ready;
mod staged;
mod whole;

pub use answering::answer;
pub use beside::work_all;
pub use bridge::parts_are_loaded;
pub use channel_worker::{ChannelWorker, Heard};
pub use crews::{
    AllHeard, AllTaken, dismiss_channels, dismiss_streams, hire_channels, hire_streams,
};
pub use draining::{drain, drain_stream};
pub use finishing::finish;
pub use judging::{StageFault, judge};
pub use laws::{brought_bytes_decide, whole_machines_are_staged};
pub use ready::Ready;
pub use staged::Staged;
pub use whole::{stage, stage_in};

#[cfg(test)]
mod beside_tests;
#[cfg(test)]
mod control_tests;
#[cfg(test)]
mod tests;
#[cfg(test)]
mod worked;
