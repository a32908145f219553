//! The making of an entry that breaks no rule.

ghost use Rattle.std.specs.Prelude.{◌≡◌, None, Some, IsTrue};
ghost use Rattle.vfm_types.specs.declared.entry.Entry.{Entry as Item};
ghost use Rattle.vfm_plain.specs.Legal.{is_entry_of};
ghost use Rattle.vfm_parts.specs.Steps.{fault_on};
ghost use Rattle.vfm_core.specs.CoreState.{FitsDesc};
ghost use Rattle.vfm_drive.specs.Rounds.{with_made};

use vfm_core::Core;
use vfm_types::Entry;

// the core's parts fit its description
pub(crate) fn fits(core: &Core)
    ensures { FitsDesc core.now.desc core.now.world }
{
    core.desc();
}

// makes an entry that breaks no rule
fn make_entry(core: &mut Core, entry: &Entry)
    requires named { IsTrue (is_entry_of core.old.desc entry.now) }
    requires fine { fault_on core.old.desc core.old.world entry.now ≡ None }
    ensures { core.new ≡ with_made (Some entry.now) core.old }
{
    match core.step(*entry) {
        Ok(()) => (),
        Err(_) => (),
    }
}

// makes this entry, if there is one; it breaks no rule
pub(crate) fn make(core: &mut Core, entry: &Option<Entry>)
    requires named { (made : Item) → entry.now ≡ Some made → IsTrue (is_entry_of core.old.desc made) }
    requires fine { (made : Item) → entry.now ≡ Some made → fault_on core.old.desc core.old.world made ≡ None }
    ensures { core.new ≡ with_made entry.now core.old }
{
    match entry {
        Some(made) => make_entry(core, made),
        None => (),
    }
}
