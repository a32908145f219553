//! The audit of a report.

ghost use Rattle.std.specs.Prelude.{◌≡◌, ◌↔◌, List, [], ◌∷◌, ◌++◌, ◌≤◌, ◌<◌, IfErr, IfOk, IfSome, IsTrue, MatchResult, None, OnOk, Some, length, reverse, take};
ghost use Rattle.vfm_types.specs.declared.entry.Entry.{Entry as Item};
ghost use Rattle.vfm_types.specs.Deliveries as deliveries;
ghost use Rattle.vfm_types.specs.Deliveries.{delivers};
ghost use Rattle.vfm_types.specs.Requests.{plain};
ghost use Rattle.vfm_plain.specs.Legal.{broken};
ghost use Rattle.vfm_types.specs.Phases as phases;
ghost use Rattle.vfm_types.specs.Valid.{IsValid};
ghost use Rattle.vfm_plain.specs.Report.{Made, journal};
ghost use Rattle.vfm_report.specs.Parts.{parts_of};
ghost use Rattle.vfm_report.specs.Printed.{IsPrinted, IsPrintedState};
ghost use Rattle.vfm_report.specs.Readers.{made_from};
ghost use Rattle.vfm_audit.specs.Audit.{AreEntriesOf, IsFaultOf};
ghost use Rattle.vfm_audit.specs.Audited.{IsAuditOf, IsJointState};
ghost use Rattle.vfm_audit.specs.FoundIn.{IsFoundIn};
ghost use Rattle.vfm_audit.specs.Steps.{HasItsParts, HasMade};

use crate::journals::{audit, entries_of};
use crate::same::shows;
use crate::steps::{described_core, make_all};
use crate::{AuditFault, ReportFault, Section};
use std::alloc::Global;
use vfm_core::Core;
use vfm_plain::Plain;
use vfm_report::{PrintedState, Report};
use vfm_types::{Desc, Entry};

/// Audits the journals of a report that was read, and leaves its states aside: `audit` of both.
pub fn audit_journals(alloc: Global, desc: &Desc, report: &Report) -> Result<Plain, AuditFault>
    requires valid { IsValid desc.now }
    requires printed { IsPrinted (made_from desc.now (parts_of report.now)) }
    ensures fault { let made = made_from desc.now (parts_of report.now) in
        MatchResult result (λ _. broken desc.now (journal made) ≡ None) (IsFaultOf desc.now (journal made)) }
    ensures machine { let made = made_from desc.now (parts_of report.now) in
        IfOk result (λ machine. plain desc.now (delivers (journal made)) ≡ Some machine) }
{
    audit(alloc, desc, &report.source, report.dest.as_ref())
}

/// Audits a report: its journals, joined, are one legal run, and its states are those that the machine comes to. Answers
/// how many entries stand in both journals. `Broken` exactly where an entry breaks a rule; `StateDiffers` exactly where
/// none does, with the first printed state, of the one at the joint stop and the final one, that isn't the machine's
/// there; a state at the joint stop isn't one where the source's journal has no Joint. The loaded state and the status
/// play no part.
///
/// The report is one that was read.
pub fn audit_report(alloc: Global, desc: &Desc, report: &Report) -> Result<u64, ReportFault>
    requires valid { IsValid desc.now }
    requires printed { IsPrinted (made_from desc.now (parts_of report.now)) }
    ensures { IsAuditOf (made_from desc.now (parts_of report.now)) result }
{
    match found_in(alloc, desc, report) {
        Ok(found) => answer_of(&found),
        Err(AuditFault::Broken { place, rule }) => Err(ReportFault::Broken { place, rule }),
        Err(AuditFault::NoMemory) => Err(ReportFault::NoMemory),
    }
}

/// What was found in a report whose journals are legal: whether the printed states are the audited ones, and how many
/// entries stand in both journals.
#[derive(Drop)]
pub struct Found {
    joint: bool,
    last: bool,
    count: u64,
}

// the answer to what was found
fn answer_of(found: &Found) -> Result<u64, ReportFault>
    ensures { (made : Made) → IsFoundIn made found.now → IsAuditOf made result }
{
    if !found.joint {
        return Err(ReportFault::StateDiffers(Section::Joint));
    }
    if !found.last {
        return Err(ReportFault::StateDiffers(Section::Last));
    }
    Ok(found.count)
}

// audits the journals, and looks at the printed states
fn found_in(alloc: Global, desc: &Desc, report: &Report) -> Result<Found, AuditFault>
    requires valid { IsValid desc.now }
    requires printed { IsPrinted (made_from desc.now (parts_of report.now)) }
    ensures { MatchResult result (IsFoundIn (made_from desc.now (parts_of report.now)))
        (IsFaultOf desc.now (journal (made_from desc.now (parts_of report.now)))) }
{
    let Ok(mut core) = described_core(alloc, desc) else {
        return Err(AuditFault::NoMemory);
    };
    let source = report.source.as_slice();
    let joint = match make_source(alloc, &mut core, source, report.joint.as_ref()) {
        Ok(joint) => joint,
        Err(fault) => return Err(fault),
    };
    if let Err(fault) = make_all(&mut core, entries_of(report.dest.as_ref())) {
        return Err(fault);
    }
    match shows(alloc, &core, report.last.as_ref()) {
        Ok(last) => Ok(Found {
            joint,
            last,
            count: core.journal().len(),
        }),
        Err(_) => Err(AuditFault::NoMemory),
    }
}

// Makes the source's entries on a new core. Whether the state that is printed for the joint stop, if there is one, is that
// of the core at Joint.
fn make_source(
    alloc: Global,
    core: &mut Core,
    entries: &[Entry],
    printed: Option<&PrintedState>,
) -> Result<bool, AuditFault>
    requires there { AreEntriesOf core.old.desc entries.now }
    requires parts { HasItsParts core.old }
    requires new { core.old.entries ≡ [] }
    requires printed { IfSome printed (λ m. IsPrintedState core.old.desc m.now) }
    ensures made { OnOk result (HasMade core.old entries.now core.new) }
    ensures fault { (more : List Item) → IfErr result (IsFaultOf core.old.desc (entries.now ++ more)) }
    ensures joint { IfOk result (λ same. IsTrue same ↔ IfSome printed.entry (λ m. IsJointState core.old.desc entries.now m.now)) }
{
    let before = before_joint(entries);
    if let Err(fault) = make_all(core, &entries[..before]) {
        return Err(fault);
    }
    let Ok(same) = shows(alloc, core, printed) else {
        return Err(AuditFault::NoMemory);
    };
    if let Err(fault) = make_all(core, &entries[before..]) {
        return Err(fault);
    }
    Ok(same && (before < entries.len() || printed.is_none()))
}

// how many entries stand before the first Joint; all where there is none
fn before_joint(entries: &[Entry]) -> usize
    ensures before { take result entries.now ≡ deliveries.before_joint entries.now }
    ensures within { result ≤ length entries.now }
    ensures stands { result < length entries.now ↔ IsTrue (phases.is_joint (reverse entries.now)) }
{
    for i in 0..entries.len() {
        if is_joint(&entries[i]) {
            return i;
        }
    }
    entries.len()
}

// whether the entry is Joint
fn is_joint(entry: &Entry) -> bool
    ensures { result ≡ phases.is_joint (entry.now ∷ []) }
{
    matches!(*entry, Entry::Joint)
}
