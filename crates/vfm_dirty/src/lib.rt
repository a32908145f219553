//! Dirty logs: which pages of guest memory a device has written since its log was started or last reported
//! (`linux/vfio.h`, `VFIO_DEVICE_FEATURE_DMA_LOGGING_START`, `_REPORT` and `_STOP`).
#![tactic(auto)]

mod laws;
mod log;

pub use laws::log_steps_are_part_steps;
pub use log::{AlreadyStarted, DirtyLog, NotStarted};

#[cfg(test)]
mod tests;
