//! The parts of a staged core allow what the joined list allows.

ghost use Rattle.std.specs.Prelude.{◌≡◌, List, ◌∷◌, None, is_none, IsTrue, IsFalse};
ghost use Rattle.vfm_types.specs.declared.desc.Desc.{Desc};
ghost use Rattle.vfm_types.specs.declared.entry.Entry.{Entry};
ghost use Rattle.vfm_types.specs.Deliveries.{machine_of};
ghost use Rattle.vfm_types.specs.Phases.{is_aborted, is_resumed, is_failed};
ghost use Rattle.vfm_types.specs.Valid.{IsValid};
ghost use Rattle.vfm_plain.specs.Rules.{fault_of};
ghost use Rattle.vfm_plain.specs.Legal.{IsLegal, is_entry_of};
ghost use Rattle.vfm_plain.specs.Ended.{is_last_ended};
ghost use Rattle.vfm_parts.specs.Parts.{World};
ghost use Rattle.vfm_parts.specs.Steps.{fault_on, after_on};
ghost use Rattle.vfm_parts_laws.specs.StagedParts.{staged_world, IsStagedAfter, is_pass};

/// After a legal list whose last pass has ended, and in which no arc failed and nobody gave up or took over, the parts
/// of the list's machine, staged, agree with those of the list in all that is still asked.
pub fn staged_parts_begin()
    ensures { (D : Desc) (past : List Entry) → IsValid D → IsLegal D past → IsTrue (is_last_ended D past)
        → IsFalse (is_aborted past) → IsFalse (is_resumed past) → IsFalse (is_failed past)
        → IsStagedAfter D past (staged_world D (machine_of D past)) }
{}

/// From then on the staged parts allow an entry exactly where it keeps the joined list legal, and stay so. The first rule
/// that a refused entry breaks is that of the joined list too, but for a Pass: a staged coordinator has counted none, so
/// `Pass 1` breaks Decide there, and Pages over the joined list.
pub fn staged_parts_follow()
    ensures allowed { (D : Desc) (past : List Entry) (w : World) (entry : Entry) → IsStagedAfter D past w → IsTrue (is_entry_of D entry)
        → is_none (fault_on D w entry) ≡ is_none (fault_of D past entry) }
    ensures rule { (D : Desc) (past : List Entry) (w : World) (entry : Entry) → IsStagedAfter D past w → IsTrue (is_entry_of D entry)
        → IsFalse (is_pass entry) → fault_on D w entry ≡ fault_of D past entry }
    ensures legal { (D : Desc) (past : List Entry) (w : World) (entry : Entry) → IsLegal D past → IsStagedAfter D past w
        → IsTrue (is_entry_of D entry) → fault_on D w entry ≡ None → IsLegal D (entry ∷ past) }
    ensures follows { (D : Desc) (past : List Entry) (w : World) (entry : Entry) → IsValid D → IsLegal D past → IsStagedAfter D past w
        → IsTrue (is_entry_of D entry) → fault_on D w entry ≡ None → IsStagedAfter D (entry ∷ past) (after_on D w entry) }
{}
