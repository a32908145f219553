//! Laws of cores over what their parts are seen as.

ghost use Rattle.std.specs.Prelude.{◌≡◌, ◌<◌, ℕ, [], ◌∷◌, ◌++◌, List, None, Some, length, reverse, IsTrue};
ghost use Rattle.vfm_types.specs.declared.desc.Desc.{Desc};
ghost use Rattle.vfm_types.specs.declared.entry.Entry.{Entry};
ghost use Rattle.vfm_types.specs.Deliveries.{delivers};
ghost use Rattle.vfm_types.specs.Requests.{plain};
ghost use Rattle.vfm_plain.specs.Clean.{IsClean};
ghost use Rattle.vfm_plain.specs.Legal.{is_entry_of};
ghost use Rattle.vfm_parts.specs.Parts.{World};
ghost use Rattle.vfm_parts.specs.Steps.{after_on, fault_on};
ghost use Rattle.vfm_core.specs.CoreState.{FitsDesc, IsAfter, IsKept, IsStagedOn};
ghost use Rattle.vfm_core.specs.Machines.{machine_in};

/// Each entry that breaks no rule has room, and what a core keeps is kept by it.
pub fn steps_are_kept()
    ensures room { (D : Desc) (entries : List Entry) (room : ℕ) (w : World) (entry : Entry) → IsKept D entries room w
        → IsTrue (is_entry_of D entry) → fault_on D w entry ≡ None → length entries < room }
    ensures kept { (D : Desc) (entries : List Entry) (room : ℕ) (w : World) (entry : Entry) → IsKept D entries room w
        → IsTrue (is_entry_of D entry) → fault_on D w entry ≡ None
        → IsKept D (entries ++ entry ∷ []) room (after_on D w entry) }
{}

/// Where the parts are those of a legal list, the list is clean, and their machine is the plain machine that does what the
/// list delivers, in order.
pub fn cores_are_plain()
    ensures clean { (D : Desc) (past : List Entry) (w : World) → FitsDesc D w → IsAfter D past w → IsClean D past }
    ensures machine { (D : Desc) (past : List Entry) (w : World) → FitsDesc D w → IsAfter D past w
        → plain D (delivers (reverse past)) ≡ Some (machine_in w) }
{}

/// So it is of a core that was staged after a legal list, with the entries that it made since.
pub fn staged_cores_are_plain()
    ensures clean { (D : Desc) (before mine : List Entry) (w : World) → FitsDesc D w → IsStagedOn D before mine w
        → IsClean D (mine ++ before) }
    ensures machine { (D : Desc) (before mine : List Entry) (w : World) → FitsDesc D w → IsStagedOn D before mine w
        → plain D (delivers (reverse (mine ++ before))) ≡ Some (machine_in w) }
{}
