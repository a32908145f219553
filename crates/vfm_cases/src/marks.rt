//! Which pages a pass is over.

ghost use Rattle.std.specs.Prelude.{◌≡◌, [], ◌∷◌, Some, None, true, false, reverse, take};
ghost use Rattle.vfm_types.specs.Marks.{is_in_set, is_marked, next_copy, set_size, has_reported};
ghost use Rattle.vfm_types.specs.Phases.{pass_count, is_last_begun};
ghost use Rattle.vfm_types.specs.Words.{is_decided};
ghost use Rattle.vfm_base.specs.PageSet.{numbers_where};
ghost use Rattle.vfm_cases.specs.One.{one_early, one_marked, one_late};
ghost use Rattle.vfm_cases.specs.Rounds.{rounds_two, rounds_second};

/// The write completes after Begin and before the report: the last pass is over its page alone.
pub fn completed_write_is_in_the_next_set()
    ensures first { numbers_where (λ p. is_in_set (one_early 1) p (reverse (take 3 one_marked))) 0 2 ≡ 0 ∷ 1 ∷ [] }
    ensures undelivered { is_marked (one_early 1) 0 1 (reverse (take 4 one_marked)) ≡ false }
    ensures complete { is_marked (one_early 1) 0 1 (reverse (take 6 one_marked)) ≡ true }
    ensures reported { is_marked (one_early 1) 0 1 (reverse (take 12 one_marked)) ≡ false }
    ensures last { numbers_where (λ p. is_in_set (one_early 1) p (reverse one_marked)) 0 2 ≡ 1 ∷ [] }
{}

/// The write is delivered before the report and completes after it: the pass after that report is over nothing, and
/// the one after the next report is over its page.
pub fn late_write_is_in_the_set_after()
    ensures second { numbers_where (λ p. is_in_set (one_early 2) p (reverse (take 8 one_late))) 0 2 ≡ [] }
    ensures nothing { next_copy (one_early 2) (reverse (take 8 one_late)) ≡ None }
    ensures third { numbers_where (λ p. is_in_set (one_early 2) p (reverse (take 15 one_late))) 0 2 ≡ 1 ∷ [] }
    ensures next { next_copy (one_early 2) (reverse (take 15 one_late)) ≡ Some 1 }
    ensures last { is_last_begun (reverse one_late) ≡ true }
{}

/// A page that was copied before its write completed is copied again in the second pass.
pub fn copied_page_is_copied_again()
    ensures set { numbers_where (λ p. is_in_set rounds_two p (reverse rounds_second)) 0 1 ≡ 0 ∷ [] }
    ensures size { set_size rounds_two (reverse rounds_second) ≡ 1 }
    ensures passes { pass_count (reverse rounds_second) ≡ 2 }
    ensures again { has_reported 0 (reverse rounds_second) ≡ false }
    ensures undecided { is_decided rounds_two (reverse rounds_second) ≡ false }
{}
