//! Go is heard, and the machine is taken over.

ghost use Rattle.std.specs.Prelude.{◌≡◌, ◌≢◌, ◌≤◌, ◌++◌, true, ℕ, [], List, Some, None, Err, is_ok, IfOk};
ghost use Rattle.vfm_types.specs.declared.entry.Entry.{Entry as Item};
ghost use Rattle.vfm_types.specs.declared.entry.Entry.TheVariants.{Resume};
ghost use Rattle.vfm_plain.specs.Rules.{fault_of};
ghost use Rattle.vfm_control.specs.declared.ends.DestEnd.TheVariants as dest;
ghost use Rattle.vfm_control.specs.Calls.{IsGoOf};
ghost use Rattle.vfm_control.specs.declared.frame.Frame.TheVariants.{Go};
ghost use Rattle.vfm_control.specs.Frame.{frame_bytes};
ghost use Rattle.vfm_control.specs.Pair.{PairState};
ghost use Rattle.vfm_core.specs.CoreState.{IsStagedOn};
ghost use Rattle.vfm_drive.specs.Endings.{HasTakenOver};
ghost use Rattle.vfm_handshake.specs.declared.fault.GoFault.TheVariants as going;
ghost use Rattle.vfm_handshake.specs.Control.{TakesOver};
ghost use Rattle.vfm_outside.specs.Counts.{Rose};
ghost use Rattle.vfm_dest.specs.Stages.{core_of, digest_of};
ghost use Rattle.vfm_dest.specs.Finishing.{HasJoined, StepsPair, without_value};

use crate::Staged;
use crate::homeward::take_over;
use vfm_core::Core;
use vfm_handshake::{GoFault, hear_go};
use vfm_outside::Link;

/// Hears Go, then makes Resume and runs the machine until every device is `RUNNING` and idle. `Ok` only for a Go of this
/// session with the digest that was staged. It receives at most 44 bytes, and fewer only where the link ends or fails; then
/// no entry is made. `Link` comes only where the count of failed receipts rose. Takes no memory.
///
/// In the machine of both ends it is DeliverGo, where what came is the source's Go.
pub fn finish<L: Link>(staged: Staged, control: &mut L) -> Result<Core, GoFault>
    ensures takes_over { TakesOver (core_of staged).desc.session (digest_of staged) (record {
      before = L.received control.old;
      now = L.received control.new;
      had_ended = L.ended control.old;
      ended = L.ended control.new;
    }) (without_value result) }
    ensures never_falls { L.failed_in control.old ≤ L.failed_in control.new }
    ensures fault { result ≡ Err going.Link → Rose (L.failed_in control.old) (L.failed_in control.new) }
    ensures no_fault { result ≢ Err going.Link → L.failed_in control.new ≡ L.failed_in control.old }
    ensures sent { L.sent control.new ≡ L.sent control.old }
    ensures finished { L.finished control.new ≡ L.finished control.old }
    ensures failed_out { L.failed_out control.new ≡ L.failed_out control.old }
    ensures taken_over { (before : List Item) → IsStagedOn (core_of staged).desc before [] (core_of staged).world
        → fault_of (core_of staged).desc before Resume ≡ None → IfOk result (λ core. HasTakenOver (core_of staged) core before) }
    ensures joined { (before : List Item) → IsStagedOn (core_of staged).desc before [] (core_of staged).world
        → fault_of (core_of staged).desc before Resume ≡ None → IfOk result (HasJoined before) }
    ensures own_go { (told : List ℕ) → L.received control.old ≡ Some told
        → L.received control.new ≡ Some (told ++ frame_bytes (Go (core_of staged).desc.session (digest_of staged)))
        → result ≢ Err going.Link → is_ok result ≡ true }
    ensures pair { (p : PairState) (told bytes : List ℕ) → p.dest ≡ dest.Staged (digest_of staged)
        → L.received control.old ≡ Some told → L.received control.new ≡ Some (told ++ bytes)
        → IsGoOf p (core_of staged).desc.session bytes → StepsPair p (digest_of staged) result }
{
    let session = staged.core().desc().session;
    let digest = staged.digest();
    match hear_go(control, session, &digest) {
        Ok(()) => Ok(resumed(staged)),
        Err(fault) => Err(fault),
    }
}

// The core of a staged machine, once it was taken over.
fn resumed(staged: Staged) -> Core
    ensures taken_over { (before : List Item) → IsStagedOn (core_of staged).desc before [] (core_of staged).world
        → fault_of (core_of staged).desc before Resume ≡ None → HasTakenOver (core_of staged) result before }
    ensures joined { (before : List Item) → IsStagedOn (core_of staged).desc before [] (core_of staged).world
        → fault_of (core_of staged).desc before Resume ≡ None → HasJoined before result }
{
    staged.core();
    let mut core = staged.into_core();
    take_over(&mut core);
    core.desc();
    core
}
