//! Why a part remembers what it does: for each such thing a short run that would be misjudged without it.

ghost use Rattle.std.specs.Prelude.{◌≡◌, [], ◌∷◌, Some, None};
ghost use Rattle.vfm_types.specs.declared.entry.Entry.TheVariants.{Issue, Report, Pass, Copy, Block, Begin, Abort};
ghost use Rattle.vfm_types.specs.declared.entry.Rule.TheVariants.{Start, Pages, Blocks};
ghost use Rattle.vfm_cases.specs.Peers.{peers};
ghost use Rattle.vfm_cases.specs.Rounds.{rounds_two};
ghost use Rattle.vfm_cases.specs.Reading.{reading};
ghost use Rattle.vfm_parts.specs.Steps.{fault_on};
ghost use Rattle.vfm_parts_cases.specs.ForgottenFields.{parts_after_journal, without_logging, without_released, without_marks, without_unread, without_dirty, without_gathered, without_reported, without_parts, without_left, with_copied, with_read, pass_begun, page_copied, block_read, log_reported, second_begun, reported_and_begun, before_block};

/// A device that forgot that its log was started issues nothing more before the move than is wanted there.
pub fn logging_is_needed()
    ensures allowed { fault_on peers (parts_after_journal peers (Begin ∷ [])) (Issue 0 0) ≡ None }
    ensures refused { fault_on peers (without_logging (parts_after_journal peers (Begin ∷ []))) (Issue 0 0) ≡ Some Start }
{}

/// Nor does one that forgot that it was released before the move began.
pub fn released_is_needed()
    ensures allowed { fault_on peers (parts_after_journal peers (Abort ∷ [])) (Issue 0 0) ≡ None }
    ensures refused { fault_on peers (without_released (parts_after_journal peers (Abort ∷ []))) (Issue 0 0) ≡ Some Start }
{}

/// A page whose mark was forgotten before the report isn't copied again.
pub fn marks_are_needed()
    ensures allowed { fault_on rounds_two (reported_and_begun block_read) (Copy 0) ≡ None }
    ensures refused { fault_on rounds_two (reported_and_begun (without_marks block_read)) (Copy 0) ≡ Some Pages }
{}

/// Nor is one that was forgotten between the report and the pass.
pub fn gathered_is_needed()
    ensures allowed { fault_on rounds_two (second_begun log_reported) (Copy 0) ≡ None }
    ensures refused { fault_on rounds_two (second_begun (without_gathered log_reported)) (Copy 0) ≡ Some Pages }
{}

/// Where it is forgotten that a device reported, it may report twice, and the next pass can't begin.
pub fn reported_is_needed()
    ensures once { fault_on rounds_two log_reported (Report 0) ≡ Some Pages }
    ensures twice { fault_on rounds_two (without_reported log_reported) (Report 0) ≡ None }
    ensures next { fault_on rounds_two log_reported (Pass 2) ≡ None }
    ensures stuck { fault_on rounds_two (without_reported log_reported) (Pass 2) ≡ Some Pages }
{}

/// A device whose part was forgotten has no block read; one whose part isn't counted down never ends the pass.
pub fn parts_are_needed()
    ensures due { fault_on rounds_two page_copied (Block 0 0) ≡ None }
    ensures skipped { fault_on rounds_two (without_parts page_copied) (Block 0 0) ≡ Some Blocks }
    ensures ended { fault_on rounds_two block_read (Report 0) ≡ None }
    ensures endless { fault_on rounds_two (with_read block_read) (Report 0) ≡ Some Pages }
{}

/// Pages that are forgotten aren't copied, and one that is kept is copied twice.
pub fn left_is_needed()
    ensures due { fault_on rounds_two pass_begun (Copy 0) ≡ None }
    ensures skipped { fault_on rounds_two (without_left pass_begun) (Copy 0) ≡ Some Pages }
    ensures once { fault_on rounds_two page_copied (Copy 0) ≡ Some Pages }
    ensures twice { fault_on rounds_two (with_copied page_copied) (Copy 0) ≡ None }
{}

/// A block that was never read, and one that was written since, is read: not where that was forgotten.
pub fn blocks_are_needed()
    ensures unread { fault_on rounds_two page_copied (Block 0 0) ≡ None }
    ensures without_unread { fault_on rounds_two (without_unread page_copied) (Block 0 0) ≡ Some Blocks }
    ensures dirty { fault_on reading before_block (Block 0 0) ≡ None }
    ensures without_dirty { fault_on reading (without_dirty before_block) (Block 0 0) ≡ Some Blocks }
{}
