//! A log of steps on cells is one run of the whole. No validity, legality or list of facts is used in it.

ghost use Rattle.std.specs.Prelude.{ℕ, List, drop};
ghost use Rattle.vfm_types.specs.declared.desc.Desc.{Desc};
ghost use Rattle.vfm_parts.specs.Parts.{World};
ghost use Rattle.vfm_turn.specs.declared.seen.Drawn.{Drawn};
ghost use Rattle.vfm_turn.specs.Log.{Ran};
ghost use Rattle.vfm_cells.specs.Cells.{Cell, cell_at, cell_count, IsWhole};
ghost use Rattle.vfm_cells.specs.WholeRun.{AreSteps, IsWholeRun};

/// Where the log of a board that began with the cells of a whole world is a chain at each cell, and each of its records
/// is a step on the cells that it touches, its entries in the order of their stamps are one run of the whole world, and
/// so are those of each earlier log.
pub fn log_is_one_run()
    ensures whole { (D : Desc) (w : World) (log : List (Drawn Cell)) → IsWhole D w → Ran (cell_count D) (cell_at D w) log
        → AreSteps D log → IsWholeRun D w log }
    ensures earlier { (D : Desc) (w : World) (log : List (Drawn Cell)) (k : ℕ) → IsWhole D w
        → Ran (cell_count D) (cell_at D w) log → AreSteps D log → IsWholeRun D w (drop k log) }
{}
