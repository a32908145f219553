//! The order of the machine with one device that makes one write.

ghost use Rattle.std.specs.Prelude.{◌≡◌, ◌∷◌, []};
ghost use Rattle.vfm_types.specs.declared.entry.Entry.TheVariants.{Block};
ghost use Rattle.vfm_quiet.specs.declared.want.Want.TheVariants.{Do, Done, Wait};
ghost use Rattle.vfm_cases.specs.One.{one, one_source, one_joined, one_aborted, one_early, one_marked, one_late, one_failing, one_fails_first, one_fails_second};
ghost use Rattle.vfm_order_cases.specs.Along.{wants_along, made_along, IsOrdered};

/// Moved without a pass before it stops, and home at the destination; before its request is done, the move waits.
pub fn one_device_is_ordered()
    ensures joined { IsOrdered one one_joined }
    ensures waits { wants_along one 0 [] [] ≡ Wait ∷ [] }
{}

/// Given up after the first pass, which is the last, and home at the source; a pass that never comes asks for nothing.
pub fn abort_is_ordered()
    ensures first { wants_along one 1 [] one_aborted ≡ made_along one_aborted Done }
    ensures second { wants_along one 2 [] one_source ≡ made_along one_source Done }
{}

/// With one pass before it stops, and with two.
pub fn passes_are_ordered()
    ensures marked { IsOrdered (one_early 1) one_marked }
    ensures late { wants_along (one_early 2) 0 [] one_late ≡ made_along one_late (Do (Block 0 0)) }
{}

/// With the first arc failing, or the second one; a third one that would fail is never made on the way out.
pub fn failing_arcs_are_ordered()
    ensures first { IsOrdered (one_failing 1) one_fails_first }
    ensures second { IsOrdered (one_failing 2) one_fails_second }
    ensures third { IsOrdered (one_failing 3) one_joined }
{}
