//! Reading the BARs of a device while it migrates, block by block (`linux/vfio.h`, `VFIO_MIG_GET_PRECOPY_INFO` and the
//! reading of the data of `PRE_COPY` and `STOP_COPY`).
#![tactic(auto)]

mod session;

pub use session::{Next, NotPreCopy, NotSaving, Session};

#[cfg(test)]
mod tests;
