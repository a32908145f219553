//! The order of a destination's move, which was staged after the source's list.

ghost use Rattle.std.specs.Prelude.{◌≡◌, ℕ, List, ◌++◌, None, IsTrue, IsFalse};
ghost use Rattle.vfm_types.specs.declared.desc.Desc.{Desc};
ghost use Rattle.vfm_types.specs.declared.entry.Entry.{Entry};
ghost use Rattle.vfm_types.specs.Valid.{IsValid};
ghost use Rattle.vfm_plain.specs.Rules.{fault_of};
ghost use Rattle.vfm_plain.specs.Legal.{is_entry_of};
ghost use Rattle.vfm_quiet.specs.declared.want.Want.TheVariants.{Do, Done};
ghost use Rattle.vfm_quiet.specs.Order.{next_want};
ghost use Rattle.vfm_order.specs.LookAfter.{is_over, look_after, staged_look_after};
ghost use Rattle.vfm_order.specs.Coordinator.{is_coordinators, IsStaged};

/// A destination wants nothing before it took the machine over or gave up; from then on it wants what the look of the
/// whole list wants.
pub fn staged_order_is_home()
    ensures before { (D : Desc) (before mine : List Entry) (abort_after : ℕ) → IsStaged D before mine
        → IsFalse (is_over (mine ++ before)) → next_want D (staged_look_after D before mine) abort_after ≡ Done }
    ensures after { (D : Desc) (before mine : List Entry) (abort_after : ℕ) → IsValid D → IsTrue (is_over (mine ++ before))
        → next_want D (staged_look_after D before mine) abort_after
        ≡ next_want D (look_after D (mine ++ before)) abort_after }
{}

/// What the order of a destination wants is an entry of the coordinator that may be made after the whole list.
pub fn staged_wants_may_be_made()
    ensures own { (D : Desc) (before mine : List Entry) (abort_after : ℕ) (entry : Entry) → IsStaged D before mine
        → next_want D (staged_look_after D before mine) abort_after ≡ Do entry → IsTrue (is_coordinators entry) }
    ensures in_range { (D : Desc) (before mine : List Entry) (abort_after : ℕ) (entry : Entry) → IsStaged D before mine
        → next_want D (staged_look_after D before mine) abort_after ≡ Do entry → IsTrue (is_entry_of D entry) }
    ensures meets { (D : Desc) (before mine : List Entry) (abort_after : ℕ) (entry : Entry) → IsStaged D before mine
        → next_want D (staged_look_after D before mine) abort_after ≡ Do entry → fault_of D (mine ++ before) entry ≡ None }
{}
