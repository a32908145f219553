//! The moments at which the outside may slow a worker down.

/// Is called by each worker before each of its attempts, as a place to wait or to watch. It changes nothing that a
/// contract speaks of.
pub trait Beat {
    /// Worker number `worker` begins its attempt number `turn`, counted from 0 within one call of the engine.
    fn at(&self, worker: u32, turn: u64);
}

/// Does nothing.
#[derive(Clone, Copy, Debug, Default, PartialEq, Eq)]
pub struct NoBeat;

impl Beat for NoBeat {
    fn at(&self, _worker: u32, _turn: u64) {}
}
