//! What holds of every report.

ghost use Rattle.std.specs.Prelude.{◌≡◌, ℕ, List};
ghost use Rattle.vfm_types.specs.declared.desc.Desc.{Desc};
ghost use Rattle.vfm_types.specs.Valid.{IsValid};
ghost use Rattle.vfm_plain.specs.Report.{Made};
ghost use Rattle.vfm_report.specs.Reports.{IsReport, IsBadLine};

/// Bytes are the report of one run at most: a report's text says all that the run made.
pub fn a_report_has_one_meaning()
    ensures { (D : Desc) (bytes : List ℕ) (one other : Made) → IsValid D → IsReport D bytes one → IsReport D bytes other → one ≡ other }
{}

/// Bytes have one first bad line at most.
pub fn a_text_has_one_bad_line()
    ensures { (D : Desc) (bytes : List ℕ) (one other : ℕ) →
        IsBadLine D bytes one → IsBadLine D bytes other → one ≡ other }
{}
