//! The entries of journals, made one after another on a core, and the machine that comes of them.

ghost use Rattle.std.specs.Prelude.{◌≡◌, List, [], ◌∷◌, ◌++◌, IfErr, IfOk, IsTrue, OnOk};
ghost use Rattle.vfm_types.specs.declared.entry.Entry.{Entry as Item};
ghost use Rattle.vfm_types.specs.Valid.{IsValid};
ghost use Rattle.vfm_plain.specs.Legal.{is_entry_of};
ghost use Rattle.vfm_audit.specs.Audit.{AreEntriesOf, IsFaultOf};
ghost use Rattle.vfm_audit.specs.Steps.{HasItsParts, HasMade, IsMachineOf};

use crate::AuditFault;
use std::alloc::Global;
use vfm_core::Core;
use vfm_device_part::Guard;
use vfm_plain::Plain;
use vfm_types::{Desc, Entry, NoMemory};

/// The core of the described machine, which has made no entries.
pub fn described_core(alloc: Global, desc: &Desc) -> Result<Core, NoMemory>
    requires { IsValid desc.now }
    ensures desc { IfOk result (λ core. core.desc ≡ desc.now) }
    ensures new { IfOk result (λ core. core.entries ≡ []) }
    ensures parts { IfOk result (λ core. HasItsParts core) }
{
    let copy = desc.copy()?;
    Core::of(alloc, copy)
}

/// Makes these entries, one after another. Where one breaks a rule, the fault is that of all entries of the core with
/// these behind them, whatever comes later.
pub fn make_all(core: &mut Core, entries: &[Entry]) -> Result<(), AuditFault>
    requires there { AreEntriesOf core.old.desc entries.now }
    requires parts { HasItsParts core.old }
    ensures made { OnOk result (HasMade core.old entries.now core.new) }
    ensures fault { (more : List Item) → IfErr result (IsFaultOf core.old.desc (core.old.entries ++ entries.now ++ more)) }
{
    for i in 0..entries.len() {
        if let Err(fault) = make_one(core, entries[i]) {
            return Err(fault);
        }
    }
    Ok(())
}

// makes this entry
fn make_one(core: &mut Core, entry: Entry) -> Result<(), AuditFault>
    requires there { IsTrue (is_entry_of core.old.desc entry) }
    requires parts { HasItsParts core.old }
    ensures made { OnOk result (HasMade core.old (entry ∷ []) core.new) }
    ensures fault { (more : List Item) → IfErr result (IsFaultOf core.old.desc (core.old.entries ++ entry ∷ more)) }
{
    let place = core.journal().len();
    match core.step(entry) {
        Ok(()) => Ok(()),
        Err(Guard(rule)) => Err(AuditFault::Broken { place, rule }),
    }
}

/// The plain machine of what the core delivered.
pub fn machine_of(alloc: Global, core: &Core) -> Result<Plain, NoMemory>
    requires { HasItsParts core.now }
    ensures { IfOk result (IsMachineOf core.now) }
{
    let mut machine = Plain::of(alloc, core.desc())?;
    core.copy_into(&mut machine);
    Ok(machine)
}
