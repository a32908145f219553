//! That the calls of a log are what the entries make of a device's part.

ghost use Rattle.std.specs.Prelude.{◌≡◌, ◌<◌, ◌≤◌, ℕ, List, [], true};
ghost use Rattle.vfm_types.specs.declared.desc.Desc.{Desc};
ghost use Rattle.vfm_types.specs.Desc.{job_at};
ghost use Rattle.vfm_types.specs.Outstanding.{outstanding_job_or_zero};
ghost use Rattle.vfm_types.specs.Valid.{IsValid};
ghost use Rattle.vfm_plain.specs.Shape.{Lies};
ghost use Rattle.vfm_parts.specs.Parts.{Dev};
ghost use Rattle.vfm_parts.specs.Fits.{DevFits, IsSetBelow};
ghost use Rattle.vfm_parts.specs.BeginStep.{begun_dev};
ghost use Rattle.vfm_parts.specs.CompleteStep.{marks_after_complete};
ghost use Rattle.vfm_parts.specs.ReportStep.{reported_dev};
ghost use Rattle.vfm_parts.specs.ResumeStep.{resumed_dev};
ghost use Rattle.vfm_dirty.specs.LogState.{empty_log};
ghost use Rattle.vfm_dirty.specs.LogOfParts.{IsPageOf, log_of, with_log, with_page_marked, written_page};

/// A completion marks the page that its job wrote, where that lies in memory; a report clears the marks; Begin starts the
/// log with none, and Resume stops it.
pub fn log_steps_are_part_steps()
    ensures completed { (D : Desc) (d n : ℕ) (dev : Dev) → IsValid D → IsSetBelow D.pages dev.marks
        → IsPageOf D (written_page D (job_at D d (outstanding_job_or_zero n dev.requests)))
        → marks_after_complete D d n dev
        ≡ (with_page_marked (written_page D (job_at D d (outstanding_job_or_zero n dev.requests))) (log_of dev)).marked }
    ensures reported { (dev : Dev) → reported_dev dev ≡ with_log (record (log_of dev) { marked = [] }) dev }
    ensures begun { (dev : Dev) → begun_dev dev ≡ with_log (record { started = true; marked = [] }) dev }
    ensures resumed { (dev : Dev) → log_of (resumed_dev dev) ≡ empty_log }
{}
