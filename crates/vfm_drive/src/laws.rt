//! Where nothing can be made a run is done; when a machine may be taken over. Each law is a function without a body
//! whose contract states it.

ghost use Rattle.std.specs.Prelude.{◌≢◌, ◌≡◌, ℕ, List, None, Option, IsFalse, IsTrue};
ghost use Rattle.vfm_types.specs.declared.desc.Desc.{Desc};
ghost use Rattle.vfm_types.specs.declared.entry.Entry.{Entry};
ghost use Rattle.vfm_types.specs.declared.entry.Entry.TheVariants.{Resume};
ghost use Rattle.vfm_types.specs.Phases.{is_aborted, is_failed, is_resumed};
ghost use Rattle.vfm_types.specs.Valid.{IsValid};
ghost use Rattle.vfm_plain.specs.Ended.{has_ended, is_last_ended};
ghost use Rattle.vfm_plain.specs.Legal.{IsLegal};
ghost use Rattle.vfm_plain.specs.Rules.{fault_of};
ghost use Rattle.vfm_parts.specs.Parts.{World};
ghost use Rattle.vfm_quiet.specs.declared.want.Want.TheVariants.{Do, Done};
ghost use Rattle.vfm_quiet.specs.Order.{next_want};
ghost use Rattle.vfm_order.specs.Coordinator.{AllStill, is_done};
ghost use Rattle.vfm_order.specs.LookAfter.{is_over, look_after};
ghost use Rattle.vfm_drive.specs.Rounds.{IsAtEnd};
ghost use Rattle.vfm_drive.specs.Runs.{IsOn, want_on, whole};

/// Where no request can move and the order wants no entry, all is done; where the move was given up or taken over, every
/// device is then `RUNNING` and idle.
pub fn still_moves_are_done()
    ensures wants_done { (D : Desc) (origin : Option (List Entry)) (mine : List Entry) (w : World) (abort_after : ℕ)
        → IsValid D → IsOn D origin mine w → AllStill D (whole origin mine)
        → ((entry : Entry) → want_on D origin mine abort_after ≢ Do entry)
        → want_on D origin mine abort_after ≡ Done }
    ensures is_done { (D : Desc) (past : List Entry) (abort_after : ℕ) → IsValid D → IsLegal D past
        → AllStill D past
        → ((entry : Entry) → next_want D (look_after D past) abort_after ≢ Do entry) → IsTrue (is_done D past) }
    ensures at_end { (D : Desc) (past : List Entry) (abort_after : ℕ) → IsValid D → IsLegal D past
        → IsAtEnd D None past abort_after → IsTrue (is_done D past) }
    ensures ended { (D : Desc) (origin : Option (List Entry)) (mine : List Entry) (w : World) (abort_after : ℕ)
        → IsValid D → IsOn D origin mine w → IsAtEnd D origin mine abort_after → IsTrue (is_over (whole origin mine))
        → IsTrue (has_ended D (whole origin mine)) }
{}

/// The machine of a legal list may be taken over where the last pass has begun and ended, and the move was neither given
/// up nor taken over, and no arc failed.
pub fn copied_machines_may_be_taken_over()
    ensures { (D : Desc) (past : List Entry) → IsLegal D past → IsTrue (is_last_ended D past)
        → IsFalse (is_aborted past) → IsFalse (is_resumed past) → IsFalse (is_failed past) → fault_of D past Resume ≡ None }
{}
