//! The parts of worked journals, made entry by entry: at each place they are what the facts of the list say, and they
//! allow the next entry.

ghost use Rattle.std.specs.Prelude.{◌≡◌, ◌++◌, [], ◌∷◌, true, length};
ghost use Rattle.vfm_types.specs.declared.entry.Entry.TheVariants.{Issue, Deliver, Complete, Hold, Arc, Report, Copy, Begin, Joint, Abort};
ghost use Rattle.vfm_types.specs.declared.state.MigState.TheVariants.{Running, RunningP2p};
ghost use Rattle.vfm_cases.specs.One.{one, one_write, one_source, one_joined, one_aborted, one_unconnected, one_early, one_marked, one_late, one_failing, one_fails_first, one_fails_second};
ghost use Rattle.vfm_cases.specs.Lone.{lone, lone_source, lone_joined};
ghost use Rattle.vfm_cases.specs.Peers.{peers, peers_held, peers_stopped, peers_joined};
ghost use Rattle.vfm_cases.specs.Trio.{trio, trio_one_stopped, trio_failing, trio_failed};
ghost use Rattle.vfm_cases.specs.Bells.{bell, bell_joined, three_bells, three_bells_rung};
ghost use Rattle.vfm_cases.specs.Rounds.{rounds_two, rounds_second, rounds_held};
ghost use Rattle.vfm_cases.specs.Window.{window_two, window_delivered};
ghost use Rattle.vfm_cases.specs.Fences.{fences};
ghost use Rattle.vfm_cases.specs.Sums.{carry, carry_stored};
ghost use Rattle.vfm_cases.specs.Reading.{reading, reading_again};
ghost use Rattle.vfm_cases.specs.TwoBars.{two_bars, two_bars_written};
ghost use Rattle.vfm_cases.specs.Solo.{solo, solo_ordered, solo_scattered, solo_given_up};
ghost use Rattle.vfm_cases.specs.Duo.{duo, duo_ordered, duo_scattered, duo_given_up};
ghost use Rattle.vfm_cases.specs.Three.{three, three_ordered, three_scattered, three_given_up};
ghost use Rattle.vfm_cases.specs.DuoFailing.{duo_failing, duo_failing_run};
ghost use Rattle.vfm_cases.specs.ThreeFailing.{three_failing, three_failing_run};
ghost use Rattle.vfm_cases.specs.Mono.{mono, mono_ordered, mono_scattered};
ghost use Rattle.vfm_cases.specs.Pair.{pair, pair_joined};
ghost use Rattle.vfm_cases.specs.GivenUp.{given_up_before_begin, given_up_entering, given_up_copying, given_up_reading, given_up_reported, given_up_second_pass, given_up_held, given_up_quiet, given_up_one_stopped, given_up_stopped, given_up_joint, given_up_last_pass, given_up_last_ended};
ghost use Rattle.vfm_parts.specs.PartsOf.{world_of};
ghost use Rattle.vfm_parts.specs.Start.{first_world};
ghost use Rattle.vfm_parts_cases.specs.Follows.{is_followed, is_followed_by_cells, same_world};

/// One device with one write: moved, given up, marked within a pass and after a report, and with failing arcs.
pub fn one_device_is_followed()
    ensures joined { is_followed one one_joined ≡ true }
    ensures aborted { is_followed one one_aborted ≡ true }
    ensures unconnected { is_followed one one_unconnected ≡ true }
    ensures idle { is_followed one (one_write ++ Begin ∷ []) ≡ true }
    ensures within { is_followed (one_early 1) one_marked ≡ true }
    ensures after { is_followed (one_early 2) one_late ≡ true }
    ensures first { is_followed (one_failing 1) one_fails_first ≡ true }
    ensures second { is_followed (one_failing 2) one_fails_second ≡ true }
    ensures third { is_followed (one_failing 3) one_source ≡ true }
{}

/// One device by way of PRE_COPY, and two that write into each other's BARs.
pub fn peers_are_followed()
    ensures lone { is_followed lone lone_joined ≡ true }
    ensures joined { is_followed peers peers_joined ≡ true }
    ensures stopped { is_followed peers (peers_stopped ++ Joint ∷ []) ≡ true }
    ensures completed { is_followed peers (peers_held ++ Deliver 0 0 ∷ Complete 0 0 ∷ Arc 0 RunningP2p ∷ []) ≡ true }
    ensures aborted { is_followed peers (Abort ∷ Issue 0 0 ∷ []) ≡ true }
{}

/// Three devices, one of which stops and returns, and a failing one.
pub fn three_devices_are_followed()
    ensures stopped { is_followed trio trio_one_stopped ≡ true }
    ensures home { is_followed trio (trio_one_stopped ++ Abort ∷ Arc 1 RunningP2p ∷ Arc 0 Running ∷ []) ≡ true }
    ensures failed { is_followed trio_failing trio_failed ≡ true }
{}

/// Doorbells, and windows with fences.
pub fn bells_and_windows_are_followed()
    ensures bell { is_followed bell bell_joined ≡ true }
    ensures three { is_followed three_bells three_bells_rung ≡ true }
    ensures window { is_followed window_two (window_delivered ++ Complete 0 1 ∷ Complete 0 0 ∷ Issue 0 2 ∷ []) ≡ true }
    ensures fences { is_followed fences (Issue 0 0 ∷ Deliver 0 0 ∷ Complete 0 0 ∷ Issue 0 1 ∷ []) ≡ true }
{}

/// Passes, blocks that are read again, an Add and a Store, and a device with two BARs.
pub fn passes_and_blocks_are_followed()
    ensures rounds { is_followed rounds_two rounds_held ≡ true }
    ensures reading { is_followed reading reading_again ≡ true }
    ensures carry { is_followed carry carry_stored ≡ true }
    ensures two_bars { is_followed two_bars two_bars_written ≡ true }
{}

/// The runs that a separate program made, of one device and of two.
pub fn small_schedules_are_followed()
    ensures solo_ordered { is_followed solo solo_ordered ≡ true }
    ensures solo_scattered { is_followed solo solo_scattered ≡ true }
    ensures solo_given_up { is_followed solo solo_given_up ≡ true }
    ensures mono_ordered { is_followed mono mono_ordered ≡ true }
    ensures mono_scattered { is_followed mono mono_scattered ≡ true }
    ensures duo_ordered { is_followed duo duo_ordered ≡ true }
    ensures duo_scattered { is_followed duo duo_scattered ≡ true }
    ensures duo_given_up { is_followed duo duo_given_up ≡ true }
    ensures duo_failing { is_followed duo_failing duo_failing_run ≡ true }
{}

/// Those of three devices.
pub fn larger_schedules_are_followed()
    ensures ordered { is_followed three three_ordered ≡ true }
    ensures scattered { is_followed three three_scattered ≡ true }
    ensures given_up { is_followed three three_given_up ≡ true }
    ensures failing { is_followed three_failing three_failing_run ≡ true }
{}

/// The machine with two devices, given up in every phase of its move.
pub fn given_up_moves_are_followed()
    ensures before_begin { is_followed duo given_up_before_begin ≡ true }
    ensures entering { is_followed duo given_up_entering ≡ true }
    ensures copying { is_followed duo given_up_copying ≡ true }
    ensures reading { is_followed duo given_up_reading ≡ true }
    ensures reported { is_followed duo given_up_reported ≡ true }
    ensures second_pass { is_followed duo given_up_second_pass ≡ true }
    ensures held { is_followed duo given_up_held ≡ true }
    ensures quiet { is_followed duo given_up_quiet ≡ true }
    ensures one_stopped { is_followed duo given_up_one_stopped ≡ true }
    ensures stopped { is_followed duo given_up_stopped ≡ true }
    ensures joint { is_followed duo given_up_joint ≡ true }
    ensures last_pass { is_followed duo given_up_last_pass ≡ true }
    ensures last_ended { is_followed duo given_up_last_ended ≡ true }
{}

/// A journal of 232 entries over 64 pages of 4,096 bytes: its first requests, and the pages of the first pass,
pub fn pair_begins_followed()
    ensures first { same_world (first_world pair) (world_of pair []) ≡ true }
    ensures requests { is_followed_by_cells pair pair_joined 0 13 ≡ true }
    ensures pages { is_followed_by_cells pair pair_joined 13 32 ≡ true }
    ensures more_pages { is_followed_by_cells pair pair_joined 45 32 ≡ true }
{}

/// the blocks of its first device,
pub fn pair_first_blocks_are_followed()
    ensures blocks { is_followed_by_cells pair pair_joined 77 32 ≡ true }
    ensures more_blocks { is_followed_by_cells pair pair_joined 109 32 ≡ true }
{}

/// those of its second,
pub fn pair_second_blocks_are_followed()
    ensures blocks { is_followed_by_cells pair pair_joined 141 32 ≡ true }
    ensures more_blocks { is_followed_by_cells pair pair_joined 173 32 ≡ true }
{}

/// and all that follows, from the reports for the second pass to the end.
pub fn pair_ends_followed()
    ensures source { is_followed_by_cells pair pair_joined 205 20 ≡ true }
    ensures destination { is_followed_by_cells pair pair_joined 225 7 ≡ true }
    ensures entries { length pair_joined ≡ 232 }
{}
