//! Legal lists and their parts: what stands before a place is legal, and one more entry is legal where it meets its row.

ghost use Rattle.std.specs.Prelude.{◌≡◌, ℕ, List, ◌∷◌, ◌++◌, ◌<◌, length, take, reverse, slice_index_or, Some, None, IsTrue};
ghost use Rattle.std.specs.List.{list_all};
ghost use Rattle.vfm_types.specs.declared.desc.Desc.{Desc};
ghost use Rattle.vfm_types.specs.declared.entry.Entry.{Entry};
ghost use Rattle.vfm_types.specs.declared.entry.Entry.TheVariants.{Begin};
ghost use Rattle.vfm_types.specs.declared.entry.Rule.{Rule};
ghost use Rattle.vfm_plain.specs.Rules.{fault_of};
ghost use Rattle.vfm_plain.specs.Legal.{IsLegal, is_entry_of, broken};

/// What stands before any place of a legal list is legal.
pub fn before_is_legal()
    ensures { (D : Desc) (later past : List Entry) → IsLegal D (later ++ past) → IsLegal D past }
{}

/// A legal list with one more entry that meets its row is legal.
pub fn one_more_is_legal()
    ensures { (D : Desc) (past : List Entry) (entry : Entry) → IsLegal D past → IsTrue (is_entry_of D entry)
        → fault_of D past entry ≡ None → IsLegal D (entry ∷ past) }
{}

/// A legal list with one more entry that doesn't meet its row is broken exactly there, by the rule that the row says.
pub fn one_more_is_broken()
    ensures { (D : Desc) (past : List Entry) (entry : Entry) (rule : Rule) → IsLegal D past → fault_of D past entry ≡ Some rule
        → broken D (reverse (entry ∷ past)) ≡ Some (length past, rule) }
{}

/// A journal whose numbers are in range is unbroken exactly where it is legal, read newest first.
pub fn unbroken_is_legal()
    ensures legal { (D : Desc) (journal : List Entry) → IsTrue (list_all (is_entry_of D) journal) → broken D journal ≡ None
        → IsLegal D (reverse journal) }
    ensures unbroken { (D : Desc) (past : List Entry) → IsLegal D past → broken D (reverse past) ≡ None }
    ensures in_range { (D : Desc) (past : List Entry) → IsLegal D past → IsTrue (list_all (is_entry_of D) past) }
{}

/// What `broken` finds in a journal whose numbers are in range is the first fault: what stands before that place is
/// legal, and the entry there breaks that rule.
pub fn broken_is_first()
    ensures inside { (D : Desc) (journal : List Entry) (place : ℕ) (rule : Rule) → IsTrue (list_all (is_entry_of D) journal)
        → broken D journal ≡ Some (place, rule) → place < length journal }
    ensures legal { (D : Desc) (journal : List Entry) (place : ℕ) (rule : Rule) → IsTrue (list_all (is_entry_of D) journal)
        → broken D journal ≡ Some (place, rule) → IsLegal D (reverse (take place journal)) }
    ensures rule { (D : Desc) (journal : List Entry) (place : ℕ) (rule : Rule) → IsTrue (list_all (is_entry_of D) journal)
        → broken D journal ≡ Some (place, rule)
        → fault_of D (reverse (take place journal)) (slice_index_or journal place Begin) ≡ Some rule }
{}
