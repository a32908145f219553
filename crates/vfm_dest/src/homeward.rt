//! A machine that was staged is taken over and brought to its end, by rounds as any run is.
//!
//! A source that isn't sound may send a machine that no run leads to. Then what the order wants may be refused, and isn't
//! made; so all that is made keeps the rules, and an end is reached. Of a machine that a run leads to nothing is refused.

ghost use Rattle.std.specs.Prelude.{◌≡◌, [], length, nat_lt, false, List, None, Option, Some, IsTrue};
ghost use Rattle.vfm_types.specs.declared.entry.Entry.{Entry as Item};
ghost use Rattle.vfm_types.specs.declared.entry.Entry.TheVariants.{Resume};
ghost use Rattle.vfm_plain.specs.Legal.{is_entry_of};
ghost use Rattle.vfm_plain.specs.Rules.{fault_of};
ghost use Rattle.vfm_parts.specs.Steps.{fault_on};
ghost use Rattle.vfm_core.specs.CoreState.{IsStagedOn};
ghost use Rattle.vfm_drive.specs.Endings.{HasTakenOver};
ghost use Rattle.vfm_drive.specs.Rounds.{ByRounds, IsAtEnd, IsRound, entry_wanted, with_made};
ghost use Rattle.vfm_drive.specs.Runs.{GoesOn, HasRun, IsOn, want_on};
ghost use Rattle.vfm_dest.specs.Homeward.{GoesHomeward, HasRoom};

use vfm_core::Core;
use vfm_drive::{step_devices, wanted};
use vfm_quiet::Want;
use vfm_types::Entry;

// makes this entry, if the machine has what it names and no rule forbids it
fn make_allowed(core: &mut Core, entry: &Entry)
    requires { HasRoom core.old }
    ensures homeward { GoesHomeward core.old core.new }
    ensures made { IsTrue (is_entry_of core.old.desc entry.now) → fault_on core.old.desc core.old.world entry.now ≡ None
        → core.new ≡ with_made (Some entry.now) core.old }
{
    if core.has_entry(entry) {
        match core.step(*entry) {
            Ok(()) => (),
            Err(_) => (),
        }
    }
}

// makes the entry that the order wants, if it is allowed; says what it wanted
fn step_wanted(core: &mut Core) -> Want
    requires { HasRoom core.old }
    ensures homeward { GoesHomeward core.old core.new }
    ensures order { (origin : Option (List Item)) (mine : List Item) → IsOn core.old.desc origin mine core.old.world
        → result ≡ want_on core.old.desc origin mine 0 }
    ensures made { HasRun core.old.desc core.old.world → core.new ≡ with_made (entry_wanted result) core.old }
{
    match wanted(core, 0) {
        Want::Do(entry) => {
            make_allowed(core, &entry);
            Want::Do(entry)
        }
        Want::Wait => Want::Wait,
        Want::Done => Want::Done,
    }
}

// a round, as of any run: whether anything was made
fn round(core: &mut Core) -> bool
    requires { HasRoom core.old }
    ensures homeward { GoesHomeward core.old core.new }
    ensures grows { result ≡ nat_lt (length core.old.entries) (length core.new.entries) }
    ensures round { HasRun core.old.desc core.old.world → IsRound core.old core.new 0 }
    ensures at_end { result ≡ false → HasRun core.old.desc core.old.world
        → (origin : Option (List Item)) (mine : List Item) → IsOn core.new.desc origin mine core.new.world
        → IsAtEnd core.new.desc origin mine 0 }
    ensures goes_on { (origin : Option (List Item)) (mine : List Item) → IsOn core.old.desc origin mine core.old.world
        → GoesOn core.old core.new origin mine }
{
    let before = core.journal().len();
    step_devices(core);
    step_wanted(core);
    core.journal().len() > before
}

// makes rounds until one makes nothing
fn run_home(core: &mut Core)
    requires { HasRoom core.old }
    ensures rounds { HasRun core.old.desc core.old.world → ByRounds core.old core.new 0 }
    ensures at_end { HasRun core.old.desc core.old.world
        → (origin : Option (List Item)) (mine : List Item) → IsOn core.new.desc origin mine core.new.world
        → IsAtEnd core.new.desc origin mine 0 }
    ensures goes_on { (origin : Option (List Item)) (mine : List Item) → IsOn core.old.desc origin mine core.old.world
        → GoesOn core.old core.new origin mine }
{
    'rounds: while round(core) {}
}

/// Takes a staged machine over: makes Resume, then rounds until one makes nothing. Where the machine is that of a list after
/// which it may be taken over, every device is then `RUNNING` and idle. Takes no memory.
pub(crate) fn take_over(core: &mut Core)
    requires { HasRoom core.old }
    ensures { (before : List Item) → IsStagedOn core.old.desc before [] core.old.world
        → fault_of core.old.desc before Resume ≡ None → HasTakenOver core.old core.new before }
{
    core.desc();
    make_allowed(core, &Entry::Resume);
    run_home(core);
}
