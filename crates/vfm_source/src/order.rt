//! The coordinator's part of a round.

ghost use Rattle.std.specs.Prelude.{◌≡◌, None, Option, Some, List, ℕ, IfOk, OnErr, OnOk, IsFalse};
ghost use Rattle.vfm_quiet.specs.declared.want.Want.TheVariants.{Do};
ghost use Rattle.vfm_core.specs.Machines.{machine_in};
ghost use Rattle.vfm_plain.specs.Shape.{HasShape};
ghost use Rattle.vfm_drive.specs.Rounds.{with_made};
ghost use Rattle.vfm_drive.specs.Runs.{want_on};
ghost use Rattle.vfm_outlets.specs.Carrying.{all_failed, links_of};
ghost use Rattle.vfm_source.specs.Moving.{IsMoving, IsOnMove, IsWanted, entry_made, is_abort, kept_at, past_in, turn_of};

use crate::making::make_sent;
use vfm_core::Core;
use vfm_drive::wanted;
use vfm_outlets::Outlets;
use vfm_outside::Link;
use vfm_plain::Plain;
use vfm_quiet::Want;
use vfm_types::{Entry, NoMemory};

/// What the coordinator did in a round.
#[derive(Clone, Copy, Debug, PartialEq, Eq)]
pub enum Turn {
    /// It made an entry.
    Made,
    /// It has to wait for a device.
    Waits,
    /// Everything was copied.
    Done,
    /// The source is to give up: Abort is due, and wasn't made.
    AbortDue,
}

// at Joint, copies the machine, which that entry leaves as it was
fn keep_joint(core: &Core, joint: &mut Plain, entry: &Entry)
    requires shape { HasShape core.now.desc joint.old }
    ensures kept { joint.new ≡ kept_at entry.now (machine_in core.now.world) joint.old }
{
    if let Entry::Joint = entry {
        core.copy_into(joint);
    }
}

// makes an entry that is wanted and isn't Abort, puts first what it sends, and at Joint keeps the machine
fn make_kept<L: Link>(
    core: &mut Core,
    joint: &mut Plain,
    outlets: &mut Outlets<L>,
    entry: &Entry,
) -> Result<(), NoMemory>
    requires moving { IsOnMove L.sent joint.old core.old outlets.old }
    requires wanted { IsWanted core.old entry.now }
    requires goes_on { IsFalse (is_abort entry.now) }
    ensures made { OnOk result (core.new ≡ with_made (Some entry.now) core.old) }
    ensures unmade { OnErr result (core.new ≡ core.old) }
    ensures moves { (starts : List (Option (List ℕ))) → IsMoving L.sent starts joint.old core.old outlets.old
        → IsMoving L.sent starts joint.new core.new outlets.new }
    ensures links { links_of outlets.new ≡ links_of outlets.old }
    ensures failed { all_failed outlets.new ≡ all_failed outlets.old }
{
    core.desc();
    make_sent(core, outlets, entry)?;
    core.desc();
    keep_joint(core, joint, entry);
    Ok(())
}

// Whether the entry is Abort.
fn is_abort(entry: &Entry) -> bool
    ensures { result ≡ is_abort entry.now }
{
    matches!(entry, Entry::Abort)
}

// makes an entry that is wanted, unless it is Abort
fn make_next<L: Link>(
    core: &mut Core,
    joint: &mut Plain,
    outlets: &mut Outlets<L>,
    entry: &Entry,
) -> Result<Turn, NoMemory>
    requires moving { IsOnMove L.sent joint.old core.old outlets.old }
    requires wanted { IsWanted core.old entry.now }
    ensures turn { IfOk result (λ turn. turn ≡ turn_of (Do entry.now)) }
    ensures made { OnOk result (core.new ≡ with_made (entry_made (Do entry.now)) core.old) }
    ensures unmade { OnErr result (core.new ≡ core.old) }
    ensures moves { (starts : List (Option (List ℕ))) → IsMoving L.sent starts joint.old core.old outlets.old
        → IsMoving L.sent starts joint.new core.new outlets.new }
    ensures links { links_of outlets.new ≡ links_of outlets.old }
    ensures failed { all_failed outlets.new ≡ all_failed outlets.old }
{
    if is_abort(entry) {
        return Ok(Turn::AbortDue);
    }
    make_kept(core, joint, outlets, entry)?;
    Ok(Turn::Made)
}

/// Makes the entry that the order wants, if it wants one other than Abort, and puts first what it sends. At Joint it keeps the
/// machine as it stands. When memory runs out nothing is put, and the entry isn't made.
///
/// Pass `abort_after` (from 1) is the one after which the source is to give up; 0 for none.
pub fn take_turn<L: Link>(
    core: &mut Core,
    joint: &mut Plain,
    outlets: &mut Outlets<L>,
    abort_after: u32,
) -> Result<Turn, NoMemory>
    requires moving { IsOnMove L.sent joint.old core.old outlets.old }
    ensures order { IfOk result (λ turn. turn ≡ turn_of (want_on core.old.desc None (past_in core.old) abort_after)) }
    ensures made { OnOk result (core.new
        ≡ with_made (entry_made (want_on core.old.desc None (past_in core.old) abort_after)) core.old) }
    ensures unmade { OnErr result (core.new ≡ core.old) }
    ensures moves { (starts : List (Option (List ℕ))) → IsMoving L.sent starts joint.old core.old outlets.old
        → IsMoving L.sent starts joint.new core.new outlets.new }
    ensures links { links_of outlets.new ≡ links_of outlets.old }
    ensures failed { all_failed outlets.new ≡ all_failed outlets.old }
{
    core.desc();
    match wanted(core, abort_after) {
        Want::Do(entry) => make_next(core, joint, outlets, &entry),
        Want::Wait => Ok(Turn::Waits),
        Want::Done => Ok(Turn::Done),
    }
}
