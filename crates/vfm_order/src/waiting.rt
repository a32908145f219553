//! When the order waits, and when all is done.

ghost use Rattle.std.specs.Prelude.{◌≡◌, ◌↔◌, ℕ, List, IsTrue, IsFalse};
ghost use Rattle.vfm_types.specs.declared.desc.Desc.{Desc};
ghost use Rattle.vfm_types.specs.declared.entry.Entry.{Entry};
ghost use Rattle.vfm_types.specs.Valid.{IsValid};
ghost use Rattle.vfm_plain.specs.Legal.{IsLegal};
ghost use Rattle.vfm_quiet.specs.declared.want.Want.TheVariants.{Wait, Done};
ghost use Rattle.vfm_quiet.specs.Order.{next_want};
ghost use Rattle.vfm_order.specs.LookAfter.{look_after};
ghost use Rattle.vfm_order.specs.Coordinator.{IsStuck, is_abort_due, is_done};

/// The order waits exactly where no entry of the coordinator but Abort may be made, Abort isn't due, and the move
/// isn't done.
pub fn waits_where_stuck()
    ensures { (D : Desc) (past : List Entry) (abort_after : ℕ) → IsValid D → IsLegal D past
        → (next_want D (look_after D past) abort_after ≡ Wait) ↔ IsStuck D past abort_after }
{}

/// The order has nothing left to be done exactly where the move is done and Abort isn't due.
pub fn done_where_done()
    ensures { (D : Desc) (past : List Entry) (abort_after : ℕ) → IsValid D → IsLegal D past
        → (next_want D (look_after D past) abort_after ≡ Done)
        ↔ (IsTrue (is_done D past) × IsFalse (is_abort_due D past abort_after)) }
{}
