//! Which cells an entry touches, and that a step is made on these alone.

ghost use Rattle.std.specs.Prelude.{◌≡◌, [], ◌∷◌, None, is_some, map, true};
ghost use Rattle.vfm_types.specs.declared.entry.Entry.TheVariants.{Deliver, Report, Copy, Begin};
ghost use Rattle.vfm_cases.specs.Peers.{peers, peers_held};
ghost use Rattle.vfm_cases.specs.Rounds.{rounds_two};
ghost use Rattle.vfm_parts.specs.Parts.{parts_in};
ghost use Rattle.vfm_cells.specs.Cells.{cell_at};
ghost use Rattle.vfm_cells.specs.Touched.{touched};
ghost use Rattle.vfm_cells.specs.CellSteps.{step_of};
ghost use Rattle.vfm_parts_cases.specs.ForgottenFields.{parts_after_journal, pass_begun, block_read};

/// A delivery between two devices touches their two cells, a report the coordinator's and the device's, a copy the
/// coordinator's and the page's, and Begin the coordinator's and every device's.
pub fn entries_touch_these_cells()
    ensures deliver { touched peers (parts_in (parts_after_journal peers peers_held)) (Deliver 0 0) ≡ 1 ∷ 2 ∷ [] }
    ensures report { touched rounds_two (parts_in block_read) (Report 0) ≡ 0 ∷ 1 ∷ [] }
    ensures copy { touched rounds_two (parts_in pass_begun) (Copy 0) ≡ 0 ∷ 2 ∷ [] }
    ensures begin { touched peers (parts_in (parts_after_journal peers [])) Begin ≡ 0 ∷ 1 ∷ 2 ∷ [] }
{}

/// A step is made on the cells that its entry touches, in rising order, and on no fewer.
pub fn steps_want_their_cells()
    ensures report { is_some (step_of rounds_two (Report 0) (0 ∷ 1 ∷ []) (map (cell_at rounds_two block_read) (0 ∷ 1 ∷ []))) ≡ true }
    ensures alone { step_of rounds_two (Report 0) (0 ∷ []) (map (cell_at rounds_two block_read) (0 ∷ [])) ≡ None }
    ensures falling { step_of rounds_two (Report 0) (1 ∷ 0 ∷ []) (map (cell_at rounds_two block_read) (1 ∷ 0 ∷ [])) ≡ None }
{}
