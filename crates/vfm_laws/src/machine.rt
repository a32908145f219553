//! The plain machine of a legal list: each delivery is of a request that is enabled there, so the machine exists.

ghost use Rattle.std.specs.Prelude.{◌≡◌, ℕ, List, ◌∷◌, reverse, Some, IsTrue};
ghost use Rattle.vfm_types.specs.declared.desc.Desc.{Desc};
ghost use Rattle.vfm_types.specs.declared.entry.Entry.{Entry};
ghost use Rattle.vfm_types.specs.declared.entry.Entry.TheVariants.{Deliver};
ghost use Rattle.vfm_types.specs.Requests.{is_enabled, plain};
ghost use Rattle.vfm_types.specs.Deliveries.{machine_of, delivers, joint_machine, before_joint};
ghost use Rattle.vfm_types.specs.Phases.{is_joint};
ghost use Rattle.vfm_types.specs.Valid.{IsValid};
ghost use Rattle.vfm_plain.specs.Legal.{IsLegal};
ghost use Rattle.vfm_plain.specs.Shape.{IsSound};

/// A request that a legal list delivers is enabled in the plain machine of what stands before.
pub fn delivery_is_enabled()
    ensures { (D : Desc) → IsValid D → (past : List Entry) (d n : ℕ) → IsLegal D (Deliver d n ∷ past)
        → IsTrue (is_enabled D (machine_of D past) d n) }
{}

/// The plain machine that does what a legal list delivers, in order, exists and is the machine of the list, which has the
/// shape and the counts of its description.
pub fn machine_exists()
    ensures exists { (D : Desc) → IsValid D → (past : List Entry) → IsLegal D past
        → plain D (delivers (reverse past)) ≡ Some (machine_of D past) }
    ensures sound { (D : Desc) → IsValid D → (past : List Entry) → IsLegal D past → IsSound D (machine_of D past) }
{}

/// Where a legal list has a Joint, what its journal delivers before that makes the machine at the joint stop.
pub fn joint_machine_exists()
    ensures { (D : Desc) → IsValid D → (past : List Entry) → IsLegal D past → IsTrue (is_joint past)
        → plain D (delivers (before_joint (reverse past))) ≡ Some (joint_machine D past) }
{}
