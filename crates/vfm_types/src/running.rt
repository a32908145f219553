//! What a device does in each state.

ghost use Rattle.std.specs.Prelude.{◌≡◌};
ghost use Rattle.vfm_types.specs.Arcs.{is_running, is_p2p, is_stopped};
ghost use Rattle.vfm_types.specs.Paths.{same_state};

use crate::MigState;

impl MigState {
    /// Whether both are the same state.
    pub fn same(self, other: MigState) -> bool
        ensures { result ≡ same_state self other }
    {
        self.number() == other.number()
    }

    /// Whether a device in this state runs and starts DMA of every kind.
    pub fn is_running(self) -> bool
        ensures { result ≡ is_running self }
    {
        matches!(self, MigState::Running | MigState::PreCopy)
    }

    /// Whether a device in this state runs, but starts no new peer-to-peer DMA.
    pub fn is_p2p(self) -> bool
        ensures { result ≡ is_p2p self }
    {
        matches!(self, MigState::RunningP2p | MigState::PreCopyP2p)
    }

    /// Whether a device in this state makes no DMA and doesn't change its state.
    pub fn is_stopped(self) -> bool
        ensures { result ≡ is_stopped self }
    {
        matches!(
            self,
            MigState::Stop | MigState::StopCopy | MigState::Resuming
        )
    }
}
