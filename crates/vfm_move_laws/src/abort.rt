//! What a source that gave up had copied and sent stays as it was.

ghost use Rattle.std.specs.Prelude.{◌≡◌, ℕ, List, ◌∷◌, ◌++◌};
ghost use Rattle.vfm_types.specs.declared.desc.Desc.{Desc};
ghost use Rattle.vfm_types.specs.declared.entry.Entry.{Entry};
ghost use Rattle.vfm_types.specs.declared.entry.Entry.TheVariants.{Abort, Fail};
ghost use Rattle.vfm_types.specs.declared.state.MigState.{MigState};
ghost use Rattle.vfm_plain.specs.Legal.{IsLegal};
ghost use Rattle.vfm_streams.specs.Packets.{share};
ghost use Rattle.vfm_move_laws.specs.Copies.{KeepsCopies};

/// Once the source has given up nothing more is copied or sent, whatever legal entries follow.
pub fn copies_stand_after_abort()
    ensures copies { (D : Desc) (past more : List Entry) → IsLegal D (more ++ Abort ∷ past)
        → KeepsCopies D past (more ++ Abort ∷ past) }
    ensures shares { (D : Desc) (past more : List Entry) (k : ℕ) → IsLegal D (more ++ Abort ∷ past)
        → share D (more ++ Abort ∷ past) k ≡ share D past k }
{}

/// Once the source has given up no arc fails.
pub fn no_arc_fails_after_abort()
    ensures { (D : Desc) (past more before : List Entry) (d : ℕ) (to : MigState) → IsLegal D (more ++ Fail d to ∷ before ++ Abort ∷ past)
        → ⊥ }
{}
