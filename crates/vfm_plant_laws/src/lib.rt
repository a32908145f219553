//! Laws of a board over the cells of a machine on its move: what its seats did is one run of the whole machine, which keeps
//! what a core keeps.
#![tactic(auto)]

ghost use Rattle.std.specs.Prelude.{◌≡◌, ◌≤◌, ◌+◌, ◌++◌, ℕ, List, length, reverse};
ghost use Rattle.vfm_types.specs.declared.desc.Desc.{Desc};
ghost use Rattle.vfm_types.specs.declared.entry.Entry.{Entry};
ghost use Rattle.vfm_parts.specs.Parts.{World};
ghost use Rattle.vfm_turn.specs.declared.seen.Drawn.{Drawn};
ghost use Rattle.vfm_turn.specs.History.{Closing, IsLogOf};
ghost use Rattle.vfm_cells.specs.Cells.{Cell, IsWhole};
ghost use Rattle.vfm_cells.specs.WholeRun.{IsRunFrom, world_after};
ghost use Rattle.vfm_core.specs.CoreState.{IsKept};
ghost use Rattle.vfm_plant_laws.specs.OneRun.{AreAllSteps, AreCellsOf, IsRunOf, world_then};

/// Where a board was started with the cells of a whole world, and each record of each ticket is a step on the cells that it
/// touches, its log is one run of the world, and the cells that come back are those of the world after it.
pub fn histories_are_runs()
    ensures run { (D : Desc) (w : World) (closing : Closing Cell) (log : List (Drawn Cell)) → IsWhole D w → AreCellsOf D w closing.started
        → AreAllSteps D closing.told → IsLogOf closing log → IsRunOf D w closing.told log }
    ensures ended { (D : Desc) (w : World) (closing : Closing Cell) (log : List (Drawn Cell)) → IsWhole D w → AreCellsOf D w closing.started
        → AreAllSteps D closing.told → IsLogOf closing log → AreCellsOf D (world_then D w log) closing.ended }
    ensures whole { (D : Desc) (w : World) (log : List (Drawn Cell)) → IsWhole D w → IsWhole D (world_then D w log) }
{}

/// A run of entries that break no rule, newest first, keeps what a core keeps, with its entries behind the others; and there
/// is room for them.
pub fn runs_are_kept()
    ensures kept { (D : Desc) (entries past : List Entry) (room : ℕ) (w : World) → IsKept D entries room w → IsRunFrom D w past
        → IsKept D (entries ++ reverse past) room (world_after D w past) }
    ensures room { (D : Desc) (entries past : List Entry) (room : ℕ) (w : World) → IsKept D entries room w → IsRunFrom D w past
        → length entries + length past ≤ room }
{}
