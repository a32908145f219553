//! What holds of every audit.

ghost use Rattle.std.specs.Prelude.{◌≡◌, ℕ, List, Err, Ok, Result};
ghost use Rattle.vfm_types.specs.declared.desc.Desc.{Desc};
ghost use Rattle.vfm_types.specs.declared.entry.Entry.{Entry};
ghost use Rattle.vfm_types.specs.Valid.{IsValid};
ghost use Rattle.vfm_plain.specs.Clean.{IsClean};
ghost use Rattle.vfm_plain.specs.Legal.{IsLegal};
ghost use Rattle.vfm_plain.specs.Report.{Made, past};
ghost use Rattle.vfm_report.specs.Printed.{IsPrinted, IsPrintedJournal};
ghost use Rattle.vfm_audit.specs.Audit.{AreEntriesOf};
ghost use Rattle.vfm_audit.specs.Audited.{IsAuditOf};
ghost use Rattle.vfm_audit.specs.declared.fault.ReportFault.{ReportFault};
ghost use Rattle.vfm_audit.specs.declared.fault.ReportFault.TheVariants.{NoMemory};

/// The entries of a report that was read name what its machine has, so each can be audited.
pub fn printed_entries_can_be_audited()
    ensures { (D : Desc) (entries : List Entry) → IsPrintedJournal D entries → AreEntriesOf D entries }
{}

/// A report has one audit, where memory doesn't run out.
pub fn a_report_has_one_audit()
    ensures { (made : Made) (one other : Result ℕ ReportFault) → IsAuditOf made one → IsAuditOf made other
        → (one ≡ Err NoMemory → ⊥) → (other ≡ Err NoMemory → ⊥) → one ≡ other }
{}

/// The journals of a report that passes its audit are one legal run, in which no request reaches a stopped device.
pub fn legal_reports_have_their_run()
    ensures legal { (made : Made) (count : ℕ) → IsPrinted made → IsAuditOf made (Ok count) → IsLegal made.desc (past made) }
    ensures clean { (made : Made) (count : ℕ) → IsValid made.desc → IsPrinted made → IsAuditOf made (Ok count)
        → IsClean made.desc (past made) }
{}
