//! The texts of states, journals and the parts of reports, written piece by piece to a sink or into a digest.
#![tactic(auto)]

mod buffer;
mod digest_writer;
mod entry;
mod piece;
mod report;
mod sink_writer;
mod state;
mod view;
mod write;
mod writer;

pub use buffer::TextBuffer;
pub use entry::state_name;
pub use piece::{put_all, put_hex, put_line};
pub use report::{ReportParts, put_parts};
pub use sink_writer::SinkWriter;
pub use view::MachineView;
pub use write::{state_digest, write_journal, write_state};
pub use writer::TextWriter;

#[cfg(test)]
mod tests;
