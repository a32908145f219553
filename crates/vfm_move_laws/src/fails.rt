//! Which arcs fail in a legal list.

ghost use Rattle.std.specs.Prelude.{◌≡◌, ℕ, ◌<◌, ◌≤◌, if◌then◌else◌, List, ◌∷◌, ◌++◌, Contains, IsFalse, IsTrue};
ghost use Rattle.vfm_types.specs.declared.desc.Desc.{Desc};
ghost use Rattle.vfm_types.specs.declared.entry.Entry.{Entry};
ghost use Rattle.vfm_types.specs.declared.entry.Entry.TheVariants.{Fail};
ghost use Rattle.vfm_types.specs.declared.state.MigState.{MigState};
ghost use Rattle.vfm_types.specs.Desc.{device_count, shape_at};
ghost use Rattle.vfm_types.specs.Phases.{is_aborted, is_failed};
ghost use Rattle.vfm_types.specs.State.{has_p2p};
ghost use Rattle.vfm_types.specs.Valid.{IsValid};
ghost use Rattle.vfm_plain.specs.Legal.{IsLegal};

/// At most one arc fails: none does before one that fails, so all that is told of failed arcs is told of one.
pub fn one_arc_fails()
    ensures once { (D : Desc) (past more : List Entry) (d other : ℕ) (to into : MigState)
        → IsLegal D (more ++ Fail d to ∷ past) → Contains past (Fail other into) → ⊥ }
    ensures same { (D : Desc) (past : List Entry) (d other : ℕ) (to into : MigState) → IsLegal D past
        → Contains past (Fail d to) → Contains past (Fail other into) → (d ≡ other) × (to ≡ into) }
{}

/// The move has failed where an arc failed and the source hasn't given up; and where no arc failed it hasn't.
pub fn failed_moves_have_a_failed_arc()
    ensures failed { (past : List Entry) (d : ℕ) (to : MigState) → Contains past (Fail d to) → IsFalse (is_aborted past)
        → IsTrue (is_failed past) }
    ensures unfailed { (past : List Entry) → ((d : ℕ) (to : MigState) → Contains past (Fail d to) → ⊥)
        → IsFalse (is_failed past) }
{}

/// An arc fails only where the description of its device says so: it is one of those on the way to STOP_COPY, of which
/// there are two, and one more where the device has the peer-to-peer states.
pub fn arcs_fail_as_described()
    ensures device { (D : Desc) (past : List Entry) (d : ℕ) (to : MigState) → IsLegal D past → Contains past (Fail d to)
        → d < device_count D }
    ensures some { (D : Desc) (past : List Entry) (d : ℕ) (to : MigState) → IsLegal D past → Contains past (Fail d to)
        → 0 < (shape_at D d).fails }
    ensures on_the_way { (D : Desc) (past : List Entry) (d : ℕ) (to : MigState) → IsValid D → IsLegal D past
        → Contains past (Fail d to) → (shape_at D d).fails ≤ (if has_p2p (shape_at D d).flags then 3 else 2) }
{}
