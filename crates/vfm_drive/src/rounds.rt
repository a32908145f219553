//! Steps and rounds.

ghost use Rattle.std.specs.Prelude.{◌≡◌, ◌↔◌, ◌<◌, ◌∷◌, ◌++◌, true, false, nat_lt, length, List, None, Option, Some, IsTrue};
ghost use Rattle.vfm_types.specs.declared.entry.Entry.{Entry as Item};
ghost use Rattle.vfm_types.specs.Desc.{device_count};
ghost use Rattle.vfm_device_part.specs.DeviceSteps.{is_step_of};
ghost use Rattle.vfm_quiet.specs.declared.want.Want.TheVariants.{Do};
ghost use Rattle.vfm_order.specs.Coordinator.{AllStill, MayMake, is_coordinators};
ghost use Rattle.vfm_drive.specs.Rounds.{ByRounds, IsAtEnd, IsRound, all_stepped, entry_wanted, first_step, made_on, with_made};
ghost use Rattle.vfm_drive.specs.Runs.{GoesOn, HasRun, IsOn, want_on, whole};

use crate::making::{fits, make};
use vfm_core::Core;
use vfm_quiet::{Want, next};
use vfm_types::{DeviceId, Entry};

/// Makes the first of the steps that device `d` may make, and says which: completions come first, then deliveries,
/// both in the order of issue, then the next issue. `None` exactly where it has none; the core is then as before. Takes
/// no memory.
pub fn step_device(core: &mut Core, d: DeviceId) -> Option<Entry>
    requires { d < device_count core.old.desc }
    ensures step { result ≡ first_step d core.old }
    ensures made { core.new ≡ with_made result core.old }
    ensures none { (origin : Option (List Item)) (mine : List Item) → IsOn core.old.desc origin mine core.old.world
        → (result ≡ None)
        ↔ ((entry : Item) → is_step_of d entry ≡ true → MayMake core.old.desc (whole origin mine) entry → ⊥) }
    ensures follows { (origin : Option (List Item)) (mine : List Item) → IsOn core.old.desc origin mine core.old.world
        → IsOn core.new.desc origin (made_on result mine) core.new.world }
    ensures goes_on { (origin : Option (List Item)) (mine : List Item) → IsOn core.old.desc origin mine core.old.world
        → GoesOn core.old core.new origin mine }
{
    fits(core);
    let step = core.pick(d, 0);
    make(core, &step);
    step
}

/// Makes the first step of each device that has one, in rising order, each on the core as the step before left it.
/// Whether there was any. Takes no memory.
pub fn step_devices(core: &mut Core) -> bool
    ensures made { core.new ≡ all_stepped core.old }
    ensures grows { result ≡ nat_lt (length core.old.entries) (length core.new.entries) }
    ensures still { result ≡ false → (origin : Option (List Item)) (mine : List Item)
        → IsOn core.old.desc origin mine core.old.world → AllStill core.old.desc (whole origin mine) }
    ensures goes_on { (origin : Option (List Item)) (mine : List Item) → IsOn core.old.desc origin mine core.old.world
        → GoesOn core.old core.new origin mine }
{
    fits(core);
    let before = core.journal().len();
    step_each(core);
    core.journal().len() > before
}

// makes the first step of each device
fn step_each(core: &mut Core)
    ensures { core.new ≡ all_stepped core.old }
{
    fits(core);
    let count = core.desc().devices.len();
    for d in 0..count {
        step_device(core, DeviceId(d as u8));
    }
}

/// What the order wants next: it is that of the run that the core stands for. An entry that it wants is one of the
/// coordinator and may be made.
///
/// Pass `abort_after` (from 1) is the one after which the source is to give up; 0 for none.
pub fn wanted(core: &Core, abort_after: u32) -> Want
    ensures order { (origin : Option (List Item)) (mine : List Item) → IsOn core.now.desc origin mine core.now.world
        → result ≡ want_on core.now.desc origin mine abort_after }
    ensures may { (origin : Option (List Item)) (mine : List Item) → IsOn core.now.desc origin mine core.now.world
        → (entry : Item) → result ≡ Do entry
        → MayMake core.now.desc (whole origin mine) entry × IsTrue (is_coordinators entry) }
{
    fits(core);
    next(core.desc(), &core.look(), abort_after)
}

// the entry that is wanted, if there is one
fn entry_wanted(want: &Want) -> Option<Entry>
    ensures { result ≡ entry_wanted want.now }
{
    match *want {
        Want::Do(entry) => Some(entry),
        Want::Wait | Want::Done => None,
    }
}

/// Makes the entry that the order wants, if it wants one: it is never refused. Says what it wanted. Takes no memory.
///
/// Pass `abort_after` (from 1) is the one after which the source is to give up; 0 for none.
pub fn step_wanted(core: &mut Core, abort_after: u32) -> Want
    requires { HasRun core.old.desc core.old.world }
    ensures order { (origin : Option (List Item)) (mine : List Item) → IsOn core.old.desc origin mine core.old.world
        → result ≡ want_on core.old.desc origin mine abort_after }
    ensures made { core.new ≡ with_made (entry_wanted result) core.old }
    ensures run { HasRun core.new.desc core.new.world }
    ensures follows { (origin : Option (List Item)) (mine : List Item) → IsOn core.old.desc origin mine core.old.world
        → IsOn core.new.desc origin (made_on (entry_wanted result) mine) core.new.world }
    ensures goes_on { (origin : Option (List Item)) (mine : List Item) → IsOn core.old.desc origin mine core.old.world
        → GoesOn core.old core.new origin mine }
{
    fits(core);
    let want = wanted(core, abort_after);
    make(core, &entry_wanted(&want));
    want
}

/// A round: the first step of each device that has one, in rising order, then the entry that the order wants after
/// those. Whether anything was made; where nothing was, the run is at its end. Takes no memory.
///
/// Pass `abort_after` (from 1) is the one after which the source is to give up; 0 for none.
pub fn round(core: &mut Core, abort_after: u32) -> bool
    requires { HasRun core.old.desc core.old.world }
    ensures run { HasRun core.new.desc core.new.world }
    ensures round { IsRound core.old core.new abort_after }
    ensures grows { result ≡ nat_lt (length core.old.entries) (length core.new.entries) }
    ensures at_end { result ≡ false → (origin : Option (List Item)) (mine : List Item)
        → IsOn core.new.desc origin mine core.new.world → IsAtEnd core.new.desc origin mine abort_after }
    ensures goes_on { (origin : Option (List Item)) (mine : List Item) → IsOn core.old.desc origin mine core.old.world
        → GoesOn core.old core.new origin mine }
{
    fits(core);
    let before = core.journal().len();
    step_devices(core);
    step_wanted(core, abort_after);
    core.journal().len() > before
}

/// Makes rounds until one makes nothing: then the run is at its end. Takes no memory.
///
/// Pass `abort_after` (from 1) is the one after which the source is to give up; 0 for none.
pub fn run_on(core: &mut Core, abort_after: u32)
    requires { HasRun core.old.desc core.old.world }
    ensures run { HasRun core.new.desc core.new.world }
    ensures rounds { ByRounds core.old core.new abort_after }
    ensures at_end { (origin : Option (List Item)) (mine : List Item) → IsOn core.new.desc origin mine core.new.world
        → IsAtEnd core.new.desc origin mine abort_after }
    ensures goes_on { (origin : Option (List Item)) (mine : List Item) → IsOn core.old.desc origin mine core.old.world
        → GoesOn core.old core.new origin mine }
{
    'rounds: while round(core, abort_after) {}
}
