//! A step on the cells that an entry touches is a step of the whole, and the other way round.

ghost use Rattle.std.specs.Prelude.{◌≡◌, ℕ, List, map, Some, None, IsTrue};
ghost use Rattle.vfm_types.specs.declared.desc.Desc.{Desc};
ghost use Rattle.vfm_types.specs.declared.entry.Entry.{Entry};
ghost use Rattle.vfm_types.specs.declared.entry.Rule.{Rule};
ghost use Rattle.vfm_plain.specs.Legal.{is_entry_of};
ghost use Rattle.vfm_parts.specs.Parts.{World, parts_in};
ghost use Rattle.vfm_parts.specs.Steps.{fault_on, after_on};
ghost use Rattle.vfm_cells.specs.Cells.{Cell, cell_at, IsWhole};
ghost use Rattle.vfm_cells.specs.Touched.{touched, is_aimed};
ghost use Rattle.vfm_cells.specs.CellSteps.{step_of, IsStepOf};

/// What an entry makes of the cells that it touches, given what lies in them, it makes of the whole world, and it leaves
/// each other cell as it was. The world after it is whole again.
pub fn steps_are_local()
    ensures step { (D : Desc) (w : World) (entry : Entry) (cells : List ℕ) (afters : List Cell) → IsWhole D w
        → step_of D entry cells (map (cell_at D w) cells) ≡ Some afters → IsStepOf D w entry cells afters }
    ensures whole { (D : Desc) (w : World) (entry : Entry) → IsWhole D (after_on D w entry) }
{}

/// Where an entry breaks no rule in a world, its step on the cells that it touches is made; where it breaks one, it isn't.
pub fn steps_are_made()
    ensures allowed { (D : Desc) (w : World) (entry : Entry) → IsWhole D w → IsTrue (is_entry_of D entry)
        → IsTrue (is_aimed D (parts_in w) entry) → fault_on D w entry ≡ None
        → step_of D entry (touched D (parts_in w) entry) (map (cell_at D w) (touched D (parts_in w) entry))
        ≡ Some (map (cell_at D (after_on D w entry)) (touched D (parts_in w) entry)) }
    ensures refused { (D : Desc) (w : World) (entry : Entry) (rule : Rule) → IsWhole D w → IsTrue (is_entry_of D entry)
        → IsTrue (is_aimed D (parts_in w) entry) → fault_on D w entry ≡ Some rule
        → step_of D entry (touched D (parts_in w) entry) (map (cell_at D w) (touched D (parts_in w) entry)) ≡ None }
{}
