//! A move never hangs by its own rules.

ghost use Rattle.std.specs.Prelude.{◌≢◌, ℕ, List, IsTrue};
ghost use Rattle.vfm_types.specs.declared.desc.Desc.{Desc};
ghost use Rattle.vfm_types.specs.declared.entry.Entry.{Entry};
ghost use Rattle.vfm_types.specs.Valid.{IsValid};
ghost use Rattle.vfm_plain.specs.Legal.{IsLegal};
ghost use Rattle.vfm_quiet.specs.declared.want.Want.TheVariants.{Wait};
ghost use Rattle.vfm_quiet.specs.Order.{next_want};
ghost use Rattle.vfm_order.specs.LookAfter.{is_over, look_after, staged_look_after};
ghost use Rattle.vfm_order.specs.Coordinator.{AllIdle, AllStill, IsStaged};

/// Where no request can move the order doesn't wait; so it doesn't with nothing pending or outstanding anywhere. On the way home it never does, nor at a
/// destination.
pub fn idle_moves_on()
    ensures idle { (D : Desc) (past : List Entry) (abort_after : ℕ) → IsValid D → IsLegal D past → AllIdle D past
        → next_want D (look_after D past) abort_after ≢ Wait }
    ensures still { (D : Desc) (past : List Entry) (abort_after : ℕ) → IsValid D → IsLegal D past → AllStill D past
        → next_want D (look_after D past) abort_after ≢ Wait }
    ensures home { (D : Desc) (past : List Entry) (abort_after : ℕ) → IsValid D → IsLegal D past → IsTrue (is_over past)
        → next_want D (look_after D past) abort_after ≢ Wait }
    ensures staged { (D : Desc) (before mine : List Entry) (abort_after : ℕ) → IsStaged D before mine
        → next_want D (staged_look_after D before mine) abort_after ≢ Wait }
{}
