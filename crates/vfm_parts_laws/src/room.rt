//! How many entries are left to the parts: no more than a core takes room for, and fewer after each step.

ghost use Rattle.std.specs.Prelude.{◌≡◌, ◌+◌, ◌≤◌, List, None, length, IsTrue};
ghost use Rattle.vfm_types.specs.declared.desc.Desc.{Desc};
ghost use Rattle.vfm_types.specs.declared.entry.Entry.{Entry};
ghost use Rattle.vfm_types.specs.Machine.{Machine};
ghost use Rattle.vfm_types.specs.Valid.{IsValid};
ghost use Rattle.vfm_plain.specs.Legal.{IsLegal, is_entry_of};
ghost use Rattle.vfm_plain.specs.Shape.{HasCounts};
ghost use Rattle.vfm_parts.specs.Parts.{World, Parts, parts_in};
ghost use Rattle.vfm_parts.specs.PartsOf.{world_of};
ghost use Rattle.vfm_parts.specs.Start.{first_world};
ghost use Rattle.vfm_parts.specs.Fits.{PartsFit};
ghost use Rattle.vfm_parts.specs.Steps.{fault_in, parts_after, fault_on, after_on};
ghost use Rattle.vfm_parts_laws.specs.StagedParts.{staged_world};
ghost use Rattle.vfm_parts_laws.specs.EntriesLeft.{PartsStand, entries_left, room_of_run};

/// Each entry that breaks no rule leaves at least one entry less, so no run of the rules is endless.
pub fn steps_leave_less()
    ensures parts { (D : Desc) (parts : Parts) (entry : Entry) → IsValid D → PartsFit D parts → PartsStand D parts
        → IsTrue (is_entry_of D entry) → fault_in D parts entry ≡ None
        → entries_left D (parts_after D parts entry) + 1 ≤ entries_left D parts }
    ensures world { (D : Desc) (w : World) (entry : Entry) → IsValid D → PartsFit D (parts_in w) → PartsStand D (parts_in w)
        → IsTrue (is_entry_of D entry) → fault_on D w entry ≡ None
        → entries_left D (parts_in (after_on D w entry)) + 1 ≤ entries_left D (parts_in w) }
{}

/// No device comes into ERROR, and until the move is over each is held only for its next state on the way to STOP_COPY.
pub fn steps_keep_standing()
    ensures listed { (D : Desc) (past : List Entry) → IsValid D → IsLegal D past → PartsStand D (parts_in (world_of D past)) }
    ensures staged { (D : Desc) (m : Machine) → PartsStand D (parts_in (staged_world D m)) }
    ensures parts { (D : Desc) (parts : Parts) (entry : Entry) → PartsStand D parts → IsTrue (is_entry_of D entry)
        → fault_in D parts entry ≡ None → PartsStand D (parts_after D parts entry) }
    ensures world { (D : Desc) (w : World) (entry : Entry) → PartsStand D (parts_in w) → IsTrue (is_entry_of D entry)
        → fault_on D w entry ≡ None → PartsStand D (parts_in (after_on D w entry)) }
{}

/// What is left at the start, and what is left to staged parts, is at most the room of a run.
pub fn room_is_enough()
    ensures first { (D : Desc) → IsValid D → entries_left D (parts_in (first_world D)) ≤ room_of_run D }
    ensures staged { (D : Desc) (m : Machine) → HasCounts D m → entries_left D (parts_in (staged_world D m)) ≤ room_of_run D }
{}

/// A legal list with what is left after it is at most the room of a run.
pub fn legal_lists_are_short()
    ensures { (D : Desc) (past : List Entry) → IsValid D → IsLegal D past
        → length past + entries_left D (parts_in (world_of D past)) ≤ room_of_run D }
{}
