//! How a run is brought to its end.

ghost use Rattle.std.specs.Prelude.{◌≡◌, [], List, None, Option, Some, if◌then◌else◌, IsFalse, IsTrue};
ghost use Rattle.vfm_types.specs.declared.entry.Entry.{Entry as Item};
ghost use Rattle.vfm_types.specs.declared.entry.Entry.TheVariants.{Abort, Resume};
ghost use Rattle.vfm_plain.specs.Rules.{fault_of};
ghost use Rattle.vfm_order.specs.LookAfter.{is_over};
ghost use Rattle.vfm_core.specs.CoreState.{IsStagedOn};
ghost use Rattle.vfm_drive.specs.Endings.{GoesHome, HasGivenUp, HasTakenOver};
ghost use Rattle.vfm_drive.specs.Runs.{HasRun, HasStaged, IsOn, whole};

use crate::making::{fits, make};
use crate::rounds::run_on;
use vfm_core::Core;
use vfm_types::Entry;

// Abort, unless the move was given up or taken over already
fn abort_due(core: &Core) -> Option<Entry>
    ensures { (origin : Option (List Item)) (mine : List Item) → IsOn core.now.desc origin mine core.now.world
        → result ≡ (if is_over (whole origin mine) then None else Some Abort) }
{
    let look = core.look();
    if look.aborted || look.resumed {
        None
    } else {
        Some(Entry::Abort)
    }
}

/// Gives up: makes Abort, then rounds until every device is `RUNNING` and idle. Where the move was given up or taken
/// over already, it makes those rounds alone. Takes no memory.
pub fn give_up(core: &mut Core)
    requires { HasRun core.old.desc core.old.world }
    ensures run { HasRun core.new.desc core.new.world }
    ensures gives_up { (origin : Option (List Item)) (mine : List Item) → IsOn core.old.desc origin mine core.old.world
        → IsFalse (is_over (whole origin mine)) → HasGivenUp core.old core.new origin mine }
    ensures goes_home { (origin : Option (List Item)) (mine : List Item) → IsOn core.old.desc origin mine core.old.world
        → IsTrue (is_over (whole origin mine)) → GoesHome core.old core.new origin mine }
{
    fits(core);
    make(core, &abort_due(core));
    run_on(core, 0);
}

/// Takes a machine over that was just staged: makes Resume, then rounds until every device is `RUNNING` and idle.
/// Takes no memory.
pub fn take_over(core: &mut Core)
    requires { HasStaged core.old.desc core.old.world }
    ensures run { HasRun core.new.desc core.new.world }
    ensures takes_over { (before : List Item) → IsStagedOn core.old.desc before [] core.old.world
        → fault_of core.old.desc before Resume ≡ None → HasTakenOver core.old core.new before }
{
    fits(core);
    make(core, &Some(Entry::Resume));
    run_on(core, 0);
}
