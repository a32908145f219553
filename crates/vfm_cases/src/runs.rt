//! Runs that are legal from their first entry to their last, and how they end.

ghost use Rattle.std.specs.Prelude.{◌≡◌, ◌++◌, [], ◌∷◌, None, true, false, reverse};
ghost use Rattle.vfm_types.specs.declared.entry.Entry.TheVariants.{Issue, Deliver, Complete, Arc, Abort, Resume};
ghost use Rattle.vfm_types.specs.declared.state.MigState.TheVariants.{Running, RunningP2p};
ghost use Rattle.vfm_plain.specs.Legal.{broken};
ghost use Rattle.vfm_plain.specs.Ended.{has_ended, went_on, is_last_ended};
ghost use Rattle.vfm_cases.specs.One.{one, one_source, one_joined, one_aborted, one_unconnected, one_early, one_marked, one_late, one_failing, one_fails_first, one_fails_second};
ghost use Rattle.vfm_cases.specs.Lone.{lone, lone_source, lone_joined};
ghost use Rattle.vfm_cases.specs.Peers.{peers, peers_joined};
ghost use Rattle.vfm_cases.specs.Trio.{trio, trio_one_stopped, trio_failing, trio_failed};
ghost use Rattle.vfm_cases.specs.Bells.{bell, bell_joined, three_bells, three_bells_rung};
ghost use Rattle.vfm_cases.specs.Rounds.{rounds_two, rounds_held};
ghost use Rattle.vfm_cases.specs.Window.{window_two, window_delivered};
ghost use Rattle.vfm_cases.specs.Sums.{carry, carry_stored};
ghost use Rattle.vfm_cases.specs.Reading.{reading, reading_again};

/// One device with one write, moved without a pass before it stops: the source's journal, and the destination's
/// after it.
pub fn one_device_is_moved()
    ensures source { broken one one_source ≡ None }
    ensures last { is_last_ended one (reverse one_source) ≡ true }
    ensures joined { broken one one_joined ≡ None }
    ensures ended { has_ended one (reverse one_joined) ≡ true }
    ensures moved { went_on one (reverse one_joined) ≡ false }
{}

/// The source gives up after its last pass, or before everything, and goes on to its end.
pub fn one_device_goes_on()
    ensures aborted { broken one one_aborted ≡ None }
    ensures went_on_last { went_on one (reverse one_aborted) ≡ true }
    ensures unconnected { broken one one_unconnected ≡ None }
    ensures went_on_first { went_on one (reverse one_unconnected) ≡ true }
    ensures not_yet { went_on one (reverse one_source) ≡ false }
{}

/// A write that completes within a pass, and one that completes after the report of it.
pub fn writes_within_passes_are_legal()
    ensures within { broken (one_early 1) one_marked ≡ None }
    ensures behind { broken (one_early 2) one_late ≡ None }
{}

/// The first arc fails, or the second one; with a third one that would fail, nothing does.
pub fn failing_arcs_are_legal()
    ensures first { broken (one_failing 1) one_fails_first ≡ None }
    ensures first_ended { went_on (one_failing 1) (reverse one_fails_first) ≡ true }
    ensures second { broken (one_failing 2) one_fails_second ≡ None }
    ensures second_ended { went_on (one_failing 2) (reverse one_fails_second) ≡ true }
    ensures third { broken (one_failing 3) one_source ≡ None }
{}

/// One device by way of PRE_COPY and PRE_COPY_P2P.
pub fn pre_copied_device_is_moved()
    ensures source { broken lone lone_source ≡ None }
    ensures joined { broken lone lone_joined ≡ None }
    ensures ended { has_ended lone (reverse lone_joined) ≡ true }
{}

/// Two devices, one of which writes into the other.
pub fn peers_are_moved()
    ensures joined { broken peers peers_joined ≡ None }
    ensures ended { has_ended peers (reverse peers_joined) ≡ true }
{}

/// Three devices: once all are in RUNNING_P2P one may stop; after the source gave up it returns before the others run.
pub fn three_devices_return()
    ensures stopped { broken trio trio_one_stopped ≡ None }
    ensures home { broken trio (trio_one_stopped ++ Abort ∷ Arc 1 RunningP2p ∷ Arc 0 Running ∷ []) ≡ None }
    ensures failed { broken trio_failing trio_failed ≡ None }
    ensures failed_ended { went_on trio_failing (reverse trio_failed) ≡ true }
{}

/// A doorbell rings for a device in RUNNING_P2P, whose request the destination does.
pub fn doorbells_are_moved()
    ensures joined { broken bell bell_joined ≡ None }
    ensures ended { has_ended bell (reverse bell_joined) ≡ true }
    ensures three { broken three_bells three_bells_rung ≡ None }
{}

/// Two passes before the device stops; two requests outstanding; an Add and a Store; blocks read again.
pub fn shorter_runs_are_legal()
    ensures rounds { broken rounds_two rounds_held ≡ None }
    ensures window { broken window_two (window_delivered ++ Complete 0 1 ∷ Complete 0 0 ∷ Issue 0 2 ∷ []) ≡ None }
    ensures carry { broken carry carry_stored ≡ None }
    ensures reading { broken reading reading_again ≡ None }
{}
