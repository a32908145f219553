//! What every entry keeps: a page or a block that differs from what was copied or read of it last is one of
//! which the sets, the logs, the reports, the marks or the requests on the bus tell.

ghost use Rattle.std.specs.Prelude.{◌≡◌, ℕ, ◌<◌, List, Some, IsTrue, IsFalse};
ghost use Rattle.vfm_types.specs.declared.desc.Desc.{Desc};
ghost use Rattle.vfm_types.specs.declared.entry.Entry.{Entry};
ghost use Rattle.vfm_types.specs.Deliveries.{machine_of, page_bytes, block_bytes};
ghost use Rattle.vfm_types.specs.Phases.{pass_count};
ghost use Rattle.vfm_types.specs.Valid.{IsValid};
ghost use Rattle.vfm_plain.specs.Legal.{IsLegal};
ghost use Rattle.vfm_copying.specs.Copies.{last_copy, last_reading};
ghost use Rattle.vfm_copying.specs.Stale.{is_page_stale, is_block_stale};

/// Once a pass has begun, a page whose bytes differ from its last copy is still to be copied in the newest
/// pass, or marked in some log, or gathered for the next pass, or written by a request that is delivered
/// and not complete.
pub fn changed_page_is_stale()
    ensures changed { (D : Desc) (past : List Entry) (p : ℕ) → IsValid D → IsLegal D past → p < D.pages
        → 0 < pass_count past
        → (last_copy D p past ≡ Some (page_bytes (machine_of D past) p) → ⊥)
        → IsTrue (is_page_stale D p past) }
    ensures fresh { (D : Desc) (past : List Entry) (p : ℕ) → IsValid D → IsLegal D past → p < D.pages
        → 0 < pass_count past
        → IsFalse (is_page_stale D p past) → last_copy D p past ≡ Some (page_bytes (machine_of D past) p) }
{}

/// A block whose bytes differ from its last reading is unread or dirty.
pub fn changed_block_is_stale()
    ensures changed { (D : Desc) (past : List Entry) (d b : ℕ) → IsValid D → IsLegal D past
        → (last_reading D d b past ≡ Some (block_bytes (machine_of D past) d b) → ⊥)
        → IsTrue (is_block_stale D d b past) }
    ensures fresh { (D : Desc) (past : List Entry) (d b : ℕ) → IsValid D → IsLegal D past
        → IsFalse (is_block_stale D d b past)
        → last_reading D d b past ≡ Some (block_bytes (machine_of D past) d b) }
{}
