//! What lies in each cell fits it, and steps keep that.

ghost use Rattle.std.specs.Prelude.{◌≡◌, ℕ, List, map, Some, None, IsTrue};
ghost use Rattle.vfm_types.specs.declared.desc.Desc.{Desc};
ghost use Rattle.vfm_types.specs.declared.entry.Entry.{Entry};
ghost use Rattle.vfm_types.specs.Valid.{IsValid};
ghost use Rattle.vfm_plain.specs.Legal.{is_entry_of};
ghost use Rattle.vfm_parts.specs.Parts.{World, parts_in};
ghost use Rattle.vfm_parts.specs.Fits.{PartsFit};
ghost use Rattle.vfm_parts.specs.Steps.{fault_on, after_on};
ghost use Rattle.vfm_cells.specs.Cells.{Cell, cell_at, IsWhole};
ghost use Rattle.vfm_cells.specs.CellFits.{CellsFit};
ghost use Rattle.vfm_cells.specs.Touched.{is_aimed};
ghost use Rattle.vfm_cells.specs.CellSteps.{step_of};

/// The cells of a world fit exactly where its parts do.
pub fn cells_fit_as_parts()
    ensures cells { (D : Desc) (w : World) → PartsFit D (parts_in w) → CellsFit D w }
    ensures parts { (D : Desc) (w : World) → CellsFit D w → PartsFit D (parts_in w) }
{}

/// A step on the cells that an entry touches leaves cells that fit; and in a world whose parts fit, what an allowed entry
/// delivers is aimed at a cell that is there.
pub fn cell_steps_keep_fit()
    ensures step { (D : Desc) (w : World) (entry : Entry) (cells : List ℕ) (afters : List Cell) → IsValid D → IsWhole D w
        → CellsFit D w → step_of D entry cells (map (cell_at D w) cells) ≡ Some afters → CellsFit D (after_on D w entry) }
    ensures aimed { (D : Desc) (w : World) (entry : Entry) → IsValid D → PartsFit D (parts_in w) → IsTrue (is_entry_of D entry)
        → fault_on D w entry ≡ None → IsTrue (is_aimed D (parts_in w) entry) }
{}
