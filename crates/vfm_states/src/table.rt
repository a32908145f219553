//! The table of next states, row by row.
//!
//! It is this project's choice of ways over the single arcs of `linux/vfio.h`; `docs/MODEL.md` shows it whole.

ghost use Rattle.std.specs.Prelude.{◌≡◌};
ghost use Rattle.vfm_types.specs.Paths.{step_towards, supports};

use vfm_types::Flags;
use vfm_types::MigState::{
    self, Error, PreCopy, PreCopyP2p, Resuming, Running, RunningP2p, Stop, StopCopy,
};

/// The table's next state from one state towards another, or `None` where the protocol refuses the way.
pub(crate) fn step(from: MigState, to: MigState) -> Option<MigState>
    ensures { result ≡ step_towards from to }
{
    match from {
        Error => None,
        Stop => from_stop(to),
        Running => from_running(to),
        StopCopy => from_stop_copy(to),
        Resuming => from_resuming(to),
        RunningP2p => from_running_p2p(to),
        PreCopy => from_pre_copy(to),
        PreCopyP2p => from_pre_copy_p2p(to),
    }
}

/// Whether a device with these flags has the state.
pub(crate) fn has_state(flags: Flags, state: MigState) -> bool
    ensures { result ≡ supports flags state }
{
    match state {
        Error | Stop | Running | StopCopy | Resuming => true,
        RunningP2p => flags.has_p2p(),
        PreCopy => flags.has_pre_copy(),
        PreCopyP2p => flags.has_p2p() && flags.has_pre_copy(),
    }
}

// The row of STOP.
fn from_stop(to: MigState) -> Option<MigState>
    ensures { result ≡ step_towards MigState.Stop to }
{
    match to {
        Error => None,
        Stop => Some(Stop),
        StopCopy => Some(StopCopy),
        Resuming => Some(Resuming),
        Running | RunningP2p | PreCopy | PreCopyP2p => Some(RunningP2p),
    }
}

// The row of RUNNING.
fn from_running(to: MigState) -> Option<MigState>
    ensures { result ≡ step_towards MigState.Running to }
{
    match to {
        Error => None,
        Running => Some(Running),
        Stop | StopCopy | Resuming | RunningP2p => Some(RunningP2p),
        PreCopy | PreCopyP2p => Some(PreCopy),
    }
}

// The row of STOP_COPY. A state that is read to its end can't be read from its beginning once more.
fn from_stop_copy(to: MigState) -> Option<MigState>
    ensures { result ≡ step_towards MigState.StopCopy to }
{
    match to {
        Error | PreCopy | PreCopyP2p => None,
        StopCopy => Some(StopCopy),
        Stop | Running | Resuming | RunningP2p => Some(Stop),
    }
}

// The row of RESUMING.
fn from_resuming(to: MigState) -> Option<MigState>
    ensures { result ≡ step_towards MigState.Resuming to }
{
    match to {
        Error => None,
        Resuming => Some(Resuming),
        Stop | Running | StopCopy | RunningP2p | PreCopy | PreCopyP2p => Some(Stop),
    }
}

// The row of RUNNING_P2P.
fn from_running_p2p(to: MigState) -> Option<MigState>
    ensures { result ≡ step_towards MigState.RunningP2p to }
{
    match to {
        Error => None,
        RunningP2p => Some(RunningP2p),
        Running | PreCopy => Some(Running),
        PreCopyP2p => Some(PreCopyP2p),
        Stop | StopCopy | Resuming => Some(Stop),
    }
}

// The row of PRE_COPY.
fn from_pre_copy(to: MigState) -> Option<MigState>
    ensures { result ≡ step_towards MigState.PreCopy to }
{
    match to {
        Error => None,
        PreCopy => Some(PreCopy),
        StopCopy | PreCopyP2p => Some(PreCopyP2p),
        Stop | Running | Resuming | RunningP2p => Some(Running),
    }
}

// The row of PRE_COPY_P2P.
fn from_pre_copy_p2p(to: MigState) -> Option<MigState>
    ensures { result ≡ step_towards MigState.PreCopyP2p to }
{
    match to {
        Error => None,
        PreCopyP2p => Some(PreCopyP2p),
        PreCopy => Some(PreCopy),
        StopCopy => Some(StopCopy),
        Stop | Running | Resuming | RunningP2p => Some(RunningP2p),
    }
}
