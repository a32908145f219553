//! States, holds and levels of devices, and what is outstanding.

ghost use Rattle.std.specs.Prelude.{◌≡◌, ◌++◌, [], ◌∷◌, Some, None, true, false, reverse, take};
ghost use Rattle.vfm_types.specs.declared.entry.Entry.TheVariants.{Deliver, Abort, Arc};
ghost use Rattle.vfm_types.specs.declared.state.MigState.TheVariants.{Stop, Running, StopCopy, Resuming, RunningP2p, PreCopy, PreCopyP2p};
ghost use Rattle.vfm_types.specs.Arcs.{state_of, hold_of, effective_state, arc_count};
ghost use Rattle.vfm_types.specs.Phases.{is_on, is_failed, is_aborted, is_joint, is_resumed};
ghost use Rattle.vfm_types.specs.Words.{is_quiet, none_stopped, is_job_allowed, is_barred, all_stand_in};
ghost use Rattle.vfm_types.specs.Outstanding.{outstanding_of, issue_count, complete_count};
ghost use Rattle.vfm_types.specs.Desc.{job_at};
ghost use Rattle.vfm_cases.specs.One.{one, one_source, one_joined, one_failing, one_fails_second};
ghost use Rattle.vfm_cases.specs.Peers.{peers, peers_held, peers_quiet, peers_stopped};
ghost use Rattle.vfm_cases.specs.Trio.{trio, trio_two_quiet, trio_one_stopped};
ghost use Rattle.vfm_cases.specs.Window.{window_two, window_delivered};

/// A device runs at the start, stands where its arcs lead, and in RESUMING once the destination took over.
pub fn states_follow_arcs()
    ensures start { state_of 0 [] ≡ Running }
    ensures stopped { state_of 0 (reverse one_source) ≡ StopCopy }
    ensures resuming { state_of 0 (reverse (take 13 one_joined)) ≡ Resuming }
    ensures home { state_of 0 (reverse one_joined) ≡ Running }
    ensures arcs { arc_count 0 (reverse one_joined) ≡ 4 }
{}

/// A hold lowers the level before the state; the arc takes it away, and so does giving up.
pub fn holds_lower_the_level()
    ensures state { state_of 0 (reverse peers_held) ≡ Running }
    ensures level { effective_state 0 (reverse peers_held) ≡ RunningP2p }
    ensures arc { hold_of 0 (reverse peers_quiet) ≡ None }
    ensures other { hold_of 1 (reverse peers_held) ≡ None }
    ensures aborted { hold_of 0 (Abort ∷ reverse peers_held) ≡ None }
{}

/// Below the running level a write into a BAR is barred.
pub fn bar_writes_are_barred()
    ensures barred { is_barred peers 0 (job_at peers 0 0) ≡ true }
    ensures running { is_job_allowed peers 0 (job_at peers 0 0) [] ≡ true }
    ensures held { is_job_allowed peers 0 (job_at peers 0 0) (reverse peers_held) ≡ false }
{}

/// Quiet needs every one of several devices.
pub fn quiet_needs_all()
    ensures two { is_quiet trio (reverse trio_two_quiet) ≡ false }
    ensures three { is_quiet trio (reverse trio_one_stopped) ≡ true }
    ensures stopped { none_stopped trio (reverse trio_one_stopped) ≡ false }
    ensures one { is_quiet one [] ≡ true }
    ensures all { all_stand_in peers StopCopy (reverse peers_stopped) ≡ true }
{}

/// Outstanding requests stand in the order of their issue, each with its job and whether it was delivered.
pub fn requests_are_outstanding()
    ensures both { outstanding_of window_two 0 (reverse window_delivered)
        ≡ (record { number = 0; job = 0; is_delivered = true }) ∷ (record { number = 1; job = 1; is_delivered = true })
        ∷ [] }
    ensures one_delivered { outstanding_of window_two 0 (reverse (take 3 window_delivered))
        ≡ (record { number = 0; job = 0; is_delivered = false })
        ∷ (record { number = 1; job = 1; is_delivered = true }) ∷ [] }
    ensures issued { issue_count 0 (reverse window_delivered) ≡ 2 }
    ensures completed { complete_count 0 (reverse window_delivered) ≡ 0 }
{}

/// A failed arc counts and keeps the state; giving up makes the move failed no longer.
pub fn failed_arc_keeps_the_state()
    ensures state { state_of 0 (reverse (take 7 one_fails_second)) ≡ Stop }
    ensures failed { is_failed (reverse (take 7 one_fails_second)) ≡ true }
    ensures off { is_on (reverse (take 7 one_fails_second)) ≡ false }
    ensures arcs { arc_count 0 (reverse (take 7 one_fails_second)) ≡ 2 }
    ensures aborted { is_failed (reverse (take 8 one_fails_second)) ≡ false }
{}
