//! The end of a move by its own order.

ghost use Rattle.std.specs.Prelude.{List, ℕ};
ghost use Rattle.vfm_types.specs.declared.desc.Desc.{Desc};
ghost use Rattle.vfm_types.specs.declared.entry.Entry.{Entry};
ghost use Rattle.vfm_types.specs.Valid.{IsValid};
ghost use Rattle.vfm_plain.specs.Legal.{IsLegal};
ghost use Rattle.vfm_order.specs.Coordinator.{AllIdle};
ghost use Rattle.vfm_endings.specs.Following.{ComesToEnd};

/// With nothing pending or outstanding anywhere, the entries that the order wants, made one after another, are legal, stay
/// within the room of a run, and come to where all is done.
pub fn idle_moves_end()
    ensures { (D : Desc) (past : List Entry) (abort_after : ℕ) → IsValid D → IsLegal D past → AllIdle D past
        → ComesToEnd D past abort_after }
{}
