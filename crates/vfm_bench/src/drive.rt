//! Entries of a core that is driven as its owner drives it.

ghost use Rattle.std.specs.Prelude.{IfOk};
ghost use Rattle.vfm_types.specs.Valid.{IsValid};
ghost use Rattle.vfm_drive.specs.Runs.{HasRun};

use anyhow::bail;
use std::alloc::Global;
use vfm_core::Core;
use vfm_drive::run_on;
use vfm_types::{Desc, Entry};

// a core with the described machine
fn core_of(alloc: Global, desc: Desc) -> anyhow::Result<Core>
    requires { IsValid desc }
    ensures { IfOk result (λ core. HasRun core.desc core.world) }
{
    let Ok(core) = Core::of(alloc, desc) else {
        bail!("no memory for the core");
    };
    Ok(core)
}

/// Drives a core with the described machine, as far as the source's order goes: round by round a step of each device that
/// has one, then one of the coordinator, until nobody has one.
pub fn driven(alloc: Global, desc: Desc) -> anyhow::Result<Core>
    requires { IsValid desc }
    ensures { IfOk result (λ core. HasRun core.desc core.world) }
{
    let mut core = core_of(alloc, desc)?;
    run_on(&mut core, 0);
    Ok(core)
}

// makes an entry, if there is such a one and it breaks no rule; whether it was made
fn make(core: &mut Core, entry: Entry) -> bool {
    core.has_entry(&entry) && core.step(entry).is_ok()
}

/// Makes the entries of a core's journal anew on another core of the same description, by its steps alone.
pub fn made_again(alloc: Global, desc: Desc, other: &Core) -> anyhow::Result<Core>
    requires { IsValid desc }
{
    let mut core = core_of(alloc, desc)?;
    let journal = other.journal();
    for i in 0..journal.len() {
        if !make(&mut core, journal.at(i)) {
            bail!("an entry isn't made again");
        }
    }
    Ok(core)
}
