//! The making of an entry, with what it sends.

ghost use Rattle.std.specs.Prelude.{◌≡◌, ◌∷◌, List, None, Some, OnOk, OnErr, IsTrue};
ghost use Rattle.vfm_types.specs.declared.entry.Entry.{Entry as Item};
ghost use Rattle.vfm_plain.specs.Legal.{is_entry_of};
ghost use Rattle.vfm_parts.specs.Steps.{fault_on};
ghost use Rattle.vfm_core.specs.CoreState.{IsAfter};
ghost use Rattle.vfm_drive.specs.Rounds.{with_made};
ghost use Rattle.vfm_outlets.specs.Carrying.{all_failed, links_of};
ghost use Rattle.vfm_source.specs.Moving.{Conveys, Course, IsConveying, then_made};

use crate::putting::put_entry;
use vfm_core::Core;
use vfm_outlets::Outlets;
use vfm_outside::Link;
use vfm_types::{Entry, NoMemory};

// makes an entry that breaks no rule
fn make(core: &mut Core, entry: &Entry)
    requires named { IsTrue (is_entry_of core.old.desc entry.now) }
    requires fine { fault_on core.old.desc core.old.world entry.now ≡ None }
    ensures made { core.new ≡ with_made (Some entry.now) core.old }
    ensures follows { (past : List Item) → IsAfter core.old.desc past core.old.world
        → IsAfter core.new.desc (entry.now ∷ past) core.new.world }
{
    match core.step(*entry) {
        Ok(()) => (),
        Err(_) => (),
    }
}

/// Makes an entry that breaks no rule, and puts first what it sends. When memory runs out nothing is put, and the entry isn't
/// made.
pub fn make_sent<L: Link>(
    core: &mut Core,
    outlets: &mut Outlets<L>,
    entry: &Entry,
) -> Result<(), NoMemory>
    requires named { IsTrue (is_entry_of core.old.desc entry.now) }
    requires fine { fault_on core.old.desc core.old.world entry.now ≡ None }
    requires conveying { IsConveying L.sent core.old outlets.old }
    ensures made { OnOk result (core.new ≡ with_made (Some entry.now) core.old) }
    ensures unmade { OnErr result (core.new ≡ core.old) }
    ensures conveys { (course : Course) → Conveys L.sent course core.old outlets.old
        → OnOk result (Conveys L.sent (then_made entry.now course) core.new outlets.new) }
    ensures unchanged { (course : Course) → Conveys L.sent course core.old outlets.old
        → OnErr result (Conveys L.sent course core.new outlets.new) }
    ensures links { links_of outlets.new ≡ links_of outlets.old }
    ensures failed { all_failed outlets.new ≡ all_failed outlets.old }
{
    put_entry(core, outlets, entry)?;
    make(core, entry);
    Ok(())
}
