//! Why each condition that the copying law rests on stands: for each a short run that loses a write, and
//! that breaks nothing but this condition.

ghost use Rattle.std.specs.Prelude.{◌≡◌, ℕ, ◌≤◌, [], ◌∷◌, Some, None, IsTrue, IsFalse};
ghost use Rattle.vfm_types.specs.declared.entry.Rule.TheVariants.{Pages, Blocks, Joint};
ghost use Rattle.vfm_types.specs.Valid.{IsValid};
ghost use Rattle.vfm_plain.specs.Legal.{broken};
ghost use Rattle.vfm_laws.specs.Faults.{faults_of};
ghost use Rattle.vfm_copying.specs.Lost.{is_sent_run};
ghost use Rattle.vfm_copying.specs.Runs.{lone, pair, marks_at_issue, reports_twice, passes_unreported, reports_early, skips_a_page, forgets_a_block, resumes_early, resumes_in_pass, copies_again};

/// The machines of these runs are valid.
pub fn runs_have_valid_machines()
    ensures lone { (rounds : ℕ) → rounds ≤ 8 → IsValid (lone rounds) }
    ensures pair { IsValid pair }
{}

/// Marked when it is issued and not when it is complete, a write is lost that comes after the report in
/// between: the page is still due when the last pass goes on to the blocks.
pub fn mark_at_issue()
    ensures refused { broken (lone 2) marks_at_issue ≡ Some (19, Blocks) }
    ensures alone { faults_of (lone 2) marks_at_issue ≡ (19, Blocks) ∷ [] }
    ensures lost { IsFalse (is_sent_run (lone 2) marks_at_issue) }
{}

/// A device that reports twice before a pass loses what the first report gave: the second one is refused.
pub fn report_twice()
    ensures refused { broken (lone 2) reports_twice ≡ Some (8, Pages) }
    ensures alone { faults_of (lone 2) reports_twice ≡ (8, Pages) ∷ [] }
    ensures lost { IsFalse (is_sent_run (lone 2) reports_twice) }
{}

/// A pass before which a device hasn't reported loses what stands in its log: the pass is refused.
pub fn pass_without_report()
    ensures refused { broken (lone 1) passes_unreported ≡ Some (11, Pages) }
    ensures alone { faults_of (lone 1) passes_unreported ≡ (11, Pages) ∷ [] }
    ensures lost { IsFalse (is_sent_run (lone 1) passes_unreported) }
{}

/// A report for the last pass that is made before the devices have stopped loses what they write after it:
/// it is refused.
pub fn report_before_stop()
    ensures refused { broken (lone 1) reports_early ≡ Some (4, Pages) }
    ensures alone { faults_of (lone 1) reports_early ≡ (4, Pages) ∷ [] }
    ensures lost { IsFalse (is_sent_run (lone 1) reports_early) }
{}

/// Where a page is copied that isn't the least one due, the least is lost if all below are taken as copied:
/// the copy is refused, and so is the block that comes before the page.
pub fn page_skipped()
    ensures refused { broken (lone 0) skips_a_page ≡ Some (9, Pages) }
    ensures alone { faults_of (lone 0) skips_a_page ≡ (9, Pages) ∷ (10, Blocks) ∷ [] }
    ensures lost { IsFalse (is_sent_run (lone 0) skips_a_page) }
{}

/// A block that was written after it was read is dirty until it is read again: a device that says that it
/// has none to read is refused.
pub fn dry_with_dirty_block()
    ensures refused { broken pair forgets_a_block ≡ Some (22, Blocks) }
    ensures alone { faults_of pair forgets_a_block ≡ (22, Blocks) ∷ [] }
    ensures lost { IsFalse (is_sent_run pair forgets_a_block) }
{}

/// A pass that ended before the joint stop isn't the last: a destination that takes over after it is refused.
pub fn resume_before_last_pass()
    ensures refused { broken (lone 1) resumes_early ≡ Some (11, Joint) }
    ensures alone { faults_of (lone 1) resumes_early ≡ (11, Joint) ∷ [] }
    ensures lost { IsFalse (is_sent_run (lone 1) resumes_early) }
{}

/// A destination that takes over before the last pass has ended is refused.
pub fn resume_in_last_pass()
    ensures refused { broken (lone 1) resumes_in_pass ≡ Some (13, Joint) }
    ensures alone { faults_of (lone 1) resumes_in_pass ≡ (13, Joint) ∷ [] }
    ensures lost { IsFalse (is_sent_run (lone 1) resumes_in_pass) }
{}

/// The first of these runs with the page copied once more, as the rules ask: it is legal, and nothing is
/// lost.
pub fn copy_again_loses_nothing()
    ensures legal { broken (lone 2) copies_again ≡ None }
    ensures sent { IsTrue (is_sent_run (lone 2) copies_again) }
{}
