//! States by their names.

ghost use Rattle.std.specs.Prelude.{◌≡◌};
ghost use Rattle.vfm_report.specs.States.{state_named};

use crate::words::is_word;
use vfm_types::MigState;

/// The state of this name, as `linux/vfio.h` has it.
pub(crate) fn state(word: &[u8]) -> Option<MigState>
    ensures { result ≡ state_named word.now }
{
    if is_word(word, b"ERROR") {
        return Some(MigState::Error);
    }
    if is_word(word, b"STOP") {
        return Some(MigState::Stop);
    }
    if is_word(word, b"RUNNING") {
        return Some(MigState::Running);
    }
    if is_word(word, b"STOP_COPY") {
        return Some(MigState::StopCopy);
    }
    if is_word(word, b"RESUMING") {
        return Some(MigState::Resuming);
    }
    if is_word(word, b"RUNNING_P2P") {
        return Some(MigState::RunningP2p);
    }
    if is_word(word, b"PRE_COPY") {
        return Some(MigState::PreCopy);
    }
    if is_word(word, b"PRE_COPY_P2P") {
        return Some(MigState::PreCopyP2p);
    }
    None
}
