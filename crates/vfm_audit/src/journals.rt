//! The audit of two journals.

ghost use Rattle.std.specs.Prelude.{◌≡◌, [], None, Some, ◌++◌, IfOk, MatchResult, OnOk, option_map, reverse, unwrap_or};
ghost use Rattle.vfm_types.specs.Deliveries.{delivers};
ghost use Rattle.vfm_types.specs.Requests.{plain};
ghost use Rattle.vfm_types.specs.Valid.{IsValid};
ghost use Rattle.vfm_plain.specs.Legal.{IsLegal, broken};
ghost use Rattle.vfm_audit.specs.Audit.{AreEntriesOf, IsFaultOf};

use crate::AuditFault;
use crate::steps::{described_core, machine_of, make_all};
use std::alloc::Global;
use vfm_journal::Journal;
use vfm_plain::Plain;
use vfm_types::{Desc, Entry};

/// Audits the source's journal followed by the destination's. `Broken` exactly where an entry breaks a rule, with the
/// first such place and the first rule that is broken there. Else the plain machine that has done what they deliver, in
/// order; they are then one legal run.
///
/// Each entry names a device, a page and a block that the machine has. Memory is taken before the first entry, and for the
/// machine after the last; each entry costs the devices, the window and the bytes that it touches.
pub fn audit(
    alloc: Global,
    desc: &Desc,
    source: &Journal,
    dest: Option<&Journal>,
) -> Result<Plain, AuditFault>
    requires valid { IsValid desc.now }
    requires source { AreEntriesOf desc.now source.now.entries }
    requires dest { AreEntriesOf desc.now (unwrap_or (option_map (λ j. j.now.entries) dest) []) }
    ensures fault { let journal = source.now.entries ++ unwrap_or (option_map (λ j. j.now.entries) dest.entry) [] in
        MatchResult result (λ _. broken desc.now journal ≡ None) (IsFaultOf desc.now journal) }
    ensures machine { let journal = source.now.entries ++ unwrap_or (option_map (λ j. j.now.entries) dest.entry) [] in
        IfOk result (λ machine. plain desc.now (delivers journal) ≡ Some machine) }
    ensures legal { let journal = source.now.entries ++ unwrap_or (option_map (λ j. j.now.entries) dest.entry) [] in
        OnOk result (IsLegal desc.now (reverse journal)) }
{
    let Ok(mut core) = described_core(alloc, desc) else {
        return Err(AuditFault::NoMemory);
    };
    if let Err(fault) = make_all(&mut core, source.as_slice()) {
        return Err(fault);
    }
    if let Err(fault) = make_all(&mut core, entries_of(dest)) {
        return Err(fault);
    }
    match machine_of(alloc, &core) {
        Ok(machine) => Ok(machine),
        Err(_) => Err(AuditFault::NoMemory),
    }
}

// the entries of a journal, none where there is no journal
pub(crate) fn entries_of(journal: Option<&Journal>) -> &[Entry]
    ensures { result.now ≡ unwrap_or (option_map (λ j. j.now.entries) journal.entry) [] }
{
    match journal {
        Some(journal) => journal.as_slice(),
        None => &[],
    }
}
