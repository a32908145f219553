//! How often pages are copied and blocks read.

ghost use Rattle.std.specs.Prelude.{ℕ, ◌+◌, ◌*◌, ◌≤◌, List, ◌∷◌, IsTrue};
ghost use Rattle.vfm_types.specs.declared.desc.Desc.{Desc};
ghost use Rattle.vfm_types.specs.declared.entry.Entry.{Entry};
ghost use Rattle.vfm_types.specs.declared.entry.Entry.TheVariants.{Copy, Block};
ghost use Rattle.vfm_types.specs.Desc.{shape_at, block_count};
ghost use Rattle.vfm_types.specs.Phases.{pass_count};
ghost use Rattle.vfm_types.specs.Marks.{set_size};
ghost use Rattle.vfm_types.specs.Blocks.{blocks_read};
ghost use Rattle.vfm_plain.specs.Legal.{IsLegal};
ghost use Rattle.vfm_copying.specs.Counts.{copy_count, pages_copied, reading_count};
ghost use Rattle.vfm_copying.specs.Stale.{is_left_to_copy, is_block_stale};

/// A page is copied only where it is in the newest pass's set and not copied yet, so no more are copied in
/// a pass than its set has, and in all at most every page in each pass.
pub fn copies_are_few()
    ensures once { (D : Desc) (past : List Entry) (p : ℕ) → IsLegal D (Copy p ∷ past)
        → IsTrue (is_left_to_copy D p past) }
    ensures in_pass { (D : Desc) (past : List Entry) → IsLegal D past → pages_copied past ≤ set_size D past }
    ensures in_all { (D : Desc) (past : List Entry) → IsLegal D past
        → copy_count past ≤ pass_count past * D.pages }
    ensures at_most { (D : Desc) (past : List Entry) → IsLegal D past
        → copy_count past ≤ (D.rounds + 1) * D.pages }
{}

/// A block is read only where it is unread or dirty, and in a pass no more are read of a device than its
/// BARs have.
pub fn readings_are_few()
    ensures due { (D : Desc) (past : List Entry) (d b : ℕ) → IsLegal D (Block d b ∷ past)
        → IsTrue (is_block_stale D d b past) }
    ensures in_pass { (D : Desc) (past : List Entry) (d : ℕ) → IsLegal D past
        → blocks_read d past ≤ block_count (shape_at D d) }
    ensures in_all { (D : Desc) (past : List Entry) (d : ℕ) → IsLegal D past
        → reading_count d past ≤ pass_count past * block_count (shape_at D d) }
    ensures at_most { (D : Desc) (past : List Entry) (d : ℕ) → IsLegal D past
        → reading_count d past ≤ (D.rounds + 1) * block_count (shape_at D d) }
{}
