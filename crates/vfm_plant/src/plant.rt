//! The plant and its seats.

use std::snapshot::Snapshot;
use vfm_cell_steps::Part;
use vfm_core::Split;
use vfm_device_part::{DevPart, PagePart};
use vfm_journal::Journal;
use vfm_turn::Board;
use vfm_types::Desc;

/// A core behind cells: cell 0 has the coordinator's part, then one cell for each device, then one for each page.
#[derive(Drop)]
pub struct Plant {
    pub(crate) board: Board<Part>,
    pub(crate) desc: Desc,
    // the journal of the start
    pub(crate) journal: Journal,
    // the core that it was started with, in parts
    pub(crate) began: Snapshot<Split>,
    // the emptied lists in which the parts came
    pub(crate) devices: Vec<DevPart>,
    pub(crate) pages: Vec<PagePart>,
}
