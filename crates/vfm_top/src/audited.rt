//! What `audit FILE REPORT` comes to: the description read, then the report, and that audited.

ghost use Rattle.std.specs.Prelude.{◌≡◌, ◌≤◌, IfErr, IfOk, None, Some};
ghost use Rattle.vfm_types.specs.Valid.{IsValid};
ghost use Rattle.vfm_outside.specs.Tells.{source_tells};
ghost use Rattle.vfm_report.specs.Parts.{parts_of};
ghost use Rattle.vfm_report.specs.Printed.{IsPrinted};
ghost use Rattle.vfm_report.specs.Readers.{made_from};
ghost use Rattle.vfm_top.specs.declared.words.Form.TheVariants.{Audit};
ghost use Rattle.vfm_top.specs.Answers.{IsCounted, IsOutcome};
ghost use Rattle.vfm_top.specs.Call.{Call as Called, read_limit, report_limit, IsPrefixRead, IsReadTo};
ghost use Rattle.vfm_top.specs.Outcome.{IsAuditOver, nothing_made, sources_tell};
ghost use Rattle.vfm_top.specs.Sources.{IsAudited, IsNoReport, IsShortReport, IsUnreported, entries_of_audit, status_of_audit};

use crate::Status;
use crate::description::read_description;
use std::alloc::Global;
use vfm_audit::{ReportFault, audit_report};
use vfm_outside::{ReadFault, Source, read_up_to};
use vfm_report::{Report, TextFault, read_report};
use vfm_types::Desc;

/// How many bytes a report may have.
const MOST_REPORT_BYTES: usize = 134_217_728;

/// What an audit came to: a status, and how many entries stand in both journals, where that is `Printed`.
#[derive(Drop)]
pub struct Audited {
    pub status: Status,
    pub entries: u64,
}

/// The report that the bytes are, or the status of their fault.
fn reported(alloc: Global, desc: &Desc, bytes: &[u8]) -> Result<Report, Status>
    requires { IsValid desc.now }
    ensures reported { IfOk result (λ report. IsShortReport (made_from desc.now (parts_of report)) bytes.now) }
    ensures refused { IfErr result (IsNoReport desc.now bytes.now) }
{
    if bytes.len() > MOST_REPORT_BYTES {
        return Err(Status::BadReport { line: 0 });
    }
    match read_report(alloc, desc, bytes) {
        Ok(report) => Ok(report),
        Err(TextFault::BadLine { line }) => Err(Status::BadReport { line }),
        Err(TextFault::NoMemory) => Err(Status::NoMemory),
    }
}

/// Reads a report, to its end or up to one byte more than it may have: what it says, or the status that comes of it.
fn read_printed<R: Source>(alloc: Global, desc: &Desc, report: &mut R) -> Result<Report, Status>
    requires { IsValid desc.now }
    ensures printed { IfOk result (λ r. IsPrinted (made_from desc.now (parts_of r))) }
    ensures reported { IfOk result (λ r. IsReadTo report_limit (IsShortReport (made_from desc.now (parts_of r)))
        (source_tells (R.left report.old) (R.faults report.old)) (source_tells (R.left report.new) (R.faults report.new))) }
    ensures unreported { IfErr result (IsUnreported desc.now (source_tells (R.left report.old) (R.faults report.old)) (source_tells (R.left report.new) (R.faults report.new))) }
    ensures read { IsPrefixRead report_limit (source_tells (R.left report.old) (R.faults report.old)) (source_tells (R.left report.new) (R.faults report.new)) }
{
    match read_up_to(alloc, report, MOST_REPORT_BYTES + 1) {
        Err(ReadFault::Failed) => Err(Status::ReadFault),
        Err(ReadFault::NoMemory) => Err(Status::NoMemory),
        Ok(bytes) => reported(alloc, desc, bytes.as_slice()),
    }
}

/// The status of an audit's answer, and the entries that it counted.
fn outcome_of_audit(answer: Result<u64, ReportFault>) -> Audited
    ensures status { result.status ≡ status_of_audit answer }
    ensures entries { result.entries ≡ entries_of_audit answer }
{
    match answer {
        Ok(entries) => Audited {
            status: Status::Printed,
            entries,
        },
        Err(ReportFault::Broken { place, rule }) => refused(Status::Broken { place, rule }),
        Err(ReportFault::StateDiffers(section)) => refused(Status::StateDiffers(section)),
        Err(ReportFault::NoMemory) => refused(Status::NoMemory),
    }
}

/// An audit that ended with this status, and counted no entries.
fn refused(status: Status) -> Audited
    ensures status { result.status ≡ status }
    ensures entries { result.entries ≡ 0 }
{
    Audited { status, entries: 0 }
}

/// Reads a report of this machine and audits it.
fn audit_printed<R: Source>(alloc: Global, desc: &Desc, report: &mut R) -> Audited
    requires { IsValid desc.now }
    ensures audited { let old = source_tells (R.left report.old) (R.faults report.old) in
        IsAudited desc.now old (source_tells (R.left report.new) (R.faults report.new)) result.status result.entries }
    ensures read { IsPrefixRead report_limit (source_tells (R.left report.old) (R.faults report.old)) (source_tells (R.left report.new) (R.faults report.new)) }
{
    match read_printed(alloc, desc, report) {
        Ok(report) => outcome_of_audit(audit_report(alloc, desc, &report)),
        Err(status) => refused(status),
    }
}

/// Reads a description, then a report of its machine, and audits that.
pub fn audit_sources<D: Source, R: Source>(alloc: Global, desc: &mut D, report: &mut R) -> Audited
    ensures outcome { let old = sources_tell (source_tells (D.left desc.old) (D.faults desc.old)) (source_tells (R.left report.old) (R.faults report.old)) in
        let new = sources_tell (source_tells (D.left desc.new) (D.faults desc.new)) (source_tells (R.left report.new) (R.faults report.new)) in
        (call : Called) → IsAuditOver old new call → IsOutcome call (nothing_made result.status) }
    ensures counted { let old = sources_tell (source_tells (D.left desc.old) (D.faults desc.old)) (source_tells (R.left report.old) (R.faults report.old)) in
        let new = sources_tell (source_tells (D.left desc.new) (D.faults desc.new)) (source_tells (R.left report.new) (R.faults report.new)) in
        (call : Called) → IsAuditOver old new call → IsCounted (Some Audit) result.status result.entries call }
    ensures read { IsPrefixRead read_limit (source_tells (D.left desc.old) (D.faults desc.old)) (source_tells (D.left desc.new) (D.faults desc.new)) }
    ensures report_read { IsPrefixRead report_limit (source_tells (R.left report.old) (R.faults report.old)) (source_tells (R.left report.new) (R.faults report.new)) }
{
    match read_description(alloc, desc) {
        Ok(desc) => audit_printed(alloc, &desc, report),
        Err(status) => refused(status),
    }
}
