//! What the order wants may be made.

ghost use Rattle.std.specs.Prelude.{◌≡◌, ◌↔◌, ℕ, List, None, IsTrue};
ghost use Rattle.vfm_types.specs.declared.desc.Desc.{Desc};
ghost use Rattle.vfm_types.specs.declared.entry.Entry.{Entry};
ghost use Rattle.vfm_types.specs.declared.entry.Entry.TheVariants.{Abort};
ghost use Rattle.vfm_types.specs.Valid.{IsValid};
ghost use Rattle.vfm_plain.specs.Rules.{fault_of};
ghost use Rattle.vfm_plain.specs.Legal.{IsLegal, is_entry_of};
ghost use Rattle.vfm_quiet.specs.declared.want.Want.TheVariants.{Do};
ghost use Rattle.vfm_quiet.specs.Order.{next_want};
ghost use Rattle.vfm_order.specs.LookAfter.{look_after};
ghost use Rattle.vfm_order.specs.Coordinator.{is_coordinators, is_abort_due};

/// What the order wants after a legal list is an entry of the coordinator, which names what the machine has and meets
/// its conditions.
pub fn wants_may_be_made()
    ensures own { (D : Desc) (past : List Entry) (abort_after : ℕ) (entry : Entry) → IsValid D → IsLegal D past
        → next_want D (look_after D past) abort_after ≡ Do entry → IsTrue (is_coordinators entry) }
    ensures in_range { (D : Desc) (past : List Entry) (abort_after : ℕ) (entry : Entry) → IsValid D → IsLegal D past
        → next_want D (look_after D past) abort_after ≡ Do entry → IsTrue (is_entry_of D entry) }
    ensures meets { (D : Desc) (past : List Entry) (abort_after : ℕ) (entry : Entry) → IsValid D → IsLegal D past
        → next_want D (look_after D past) abort_after ≡ Do entry → fault_of D past entry ≡ None }
{}

/// The order wants Abort exactly where it is due.
pub fn aborts_where_due()
    ensures { (D : Desc) (past : List Entry) (abort_after : ℕ) → IsValid D → IsLegal D past
        → (next_want D (look_after D past) abort_after ≡ Do Abort) ↔ IsTrue (is_abort_due D past abort_after) }
{}
