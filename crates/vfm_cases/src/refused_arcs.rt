//! Runs that break a rule where a device is held, takes an arc or fails one.

ghost use Rattle.std.specs.Prelude.{◌≡◌, ◌++◌, ◌∷◌, [], Some, None};
ghost use Rattle.vfm_types.specs.declared.entry.Entry.TheVariants.{Issue, Deliver, Complete, Hold, Arc, Fail, Pass, Copy, Block, Begin, Abort};
ghost use Rattle.vfm_types.specs.declared.entry.Rule.TheVariants.{Path, Quiet, Decide, Order};
ghost use Rattle.vfm_types.specs.declared.state.MigState.TheVariants.{Stop, Running, StopCopy, RunningP2p, PreCopy, PreCopyP2p};
ghost use Rattle.vfm_plain.specs.Legal.{broken};
ghost use Rattle.vfm_cases.specs.One.{one, one_write, one_source, one_early, one_failing, one_fails_first};
ghost use Rattle.vfm_cases.specs.Lone.{lone, lone_joined};
ghost use Rattle.vfm_cases.specs.Peers.{peers, peers_held, peers_quiet};
ghost use Rattle.vfm_cases.specs.Trio.{trio, trio_two_quiet, trio_one_stopped, trio_failing};
ghost use Rattle.vfm_cases.specs.Rounds.{rounds_two, rounds_second};
ghost use Rattle.vfm_cases.specs.Early.{early, early_half};

/// A hold while the move isn't on, after Joint, or of a device that is held.
pub fn hold_out_of_order_is_refused()
    ensures early { broken one (Hold 0 Stop ∷ []) ≡ Some (0, Order) }
    ensures joint { broken one (one_source ++ Hold 0 Stop ∷ []) ≡ Some (12, Order) }
    ensures held { broken peers (peers_held ++ Hold 0 RunningP2p ∷ []) ≡ Some (3, Order) }
    ensures failed { broken (one_failing 1) (one_write ++ Begin ∷ Hold 0 Stop ∷ Fail 0 Stop ∷ Hold 0 Stop ∷ []) ≡ Some (6, Order) }
    ensures aborted { broken peers (peers_held ++ Abort ∷ Hold 0 RunningP2p ∷ []) ≡ Some (4, Order) }
{}

/// A hold before it is decided that the devices stop, for a wrong state, of a stopped device, or for STOP or STOP_COPY
/// while another device runs.
pub fn wrong_hold_is_refused()
    ensures undecided { broken lone (Begin ∷ Hold 0 RunningP2p ∷ []) ≡ Some (1, Decide) }
    ensures state { broken trio (Begin ∷ Hold 0 Stop ∷ []) ≡ Some (1, Path) }
    ensures stopped { broken trio (trio_one_stopped ++ Hold 1 StopCopy ∷ []) ≡ Some (9, Path) }
    ensures stop { broken trio (trio_two_quiet ++ Hold 1 Stop ∷ []) ≡ Some (5, Quiet) }
    ensures stop_copy { broken early (early_half ++ Hold 0 StopCopy ∷ []) ≡ Some (14, Quiet) }
{}

/// An arc before the move begins, after Joint, or after a failed one.
pub fn arc_out_of_order_is_refused()
    ensures early { broken trio (Arc 0 RunningP2p ∷ []) ≡ Some (0, Order) }
    ensures joint { broken one (one_source ++ Arc 0 Stop ∷ []) ≡ Some (12, Order) }
    ensures failed { broken (one_failing 1) (one_write ++ Begin ∷ Hold 0 Stop ∷ Fail 0 Stop ∷ Arc 0 Stop ∷ []) ≡ Some (6, Order) }
{}

/// An arc that no way is open for: without a hold, to another state than the held one, or the one that is to fail.
pub fn arc_off_the_way_is_refused()
    ensures unheld { broken trio (Begin ∷ Arc 0 RunningP2p ∷ []) ≡ Some (1, Path) }
    ensures other { broken trio (Begin ∷ Hold 0 RunningP2p ∷ Arc 0 Stop ∷ []) ≡ Some (2, Path) }
    ensures another { broken trio (Begin ∷ Hold 0 RunningP2p ∷ Arc 1 RunningP2p ∷ []) ≡ Some (2, Path) }
    ensures failing { broken (one_failing 1) (one_write ++ Begin ∷ Hold 0 Stop ∷ Arc 0 Stop ∷ []) ≡ Some (5, Path) }
{}

/// An arc into PRE_COPY where no pass is to be made, once one has begun, or by a device that lacks it.
pub fn arc_into_pre_copy_is_refused()
    ensures rounds { broken trio (Begin ∷ Arc 0 PreCopy ∷ []) ≡ Some (1, Path) }
    ensures begun { broken lone (Begin ∷ Arc 0 PreCopy ∷ Pass 1 ∷ Arc 0 PreCopy ∷ []) ≡ Some (3, Path) }
    ensures flag { broken (one_early 1) (Begin ∷ Arc 0 PreCopy ∷ []) ≡ Some (1, Path) }
    ensures wrong { broken lone (Begin ∷ Arc 0 PreCopyP2p ∷ []) ≡ Some (1, Path) }
{}

/// An arc home by a device that runs, or past a state that the device has.
pub fn arc_past_the_way_home_is_refused()
    ensures running { broken trio (Abort ∷ Arc 0 Running ∷ []) ≡ Some (1, Path) }
    ensures past { broken trio (trio_one_stopped ++ Abort ∷ Arc 1 Running ∷ []) ≡ Some (10, Path) }
    ensures further { broken lone (lone_joined ++ Arc 0 Running ∷ []) ≡ Some (17, Path) }
    ensures resuming { broken one (one_source ++ Abort ∷ Arc 0 Running ∷ []) ≡ Some (13, Path) }
{}

/// An arc into a peer-to-peer state with a write into a BAR outstanding, out of motion with anything outstanding, and
/// home to RUNNING while another device is stopped.
pub fn arc_without_quiet_is_refused()
    ensures into { broken peers (peers_held ++ Arc 0 RunningP2p ∷ []) ≡ Some (3, Quiet) }
    ensures delivered { broken peers (peers_held ++ Deliver 0 0 ∷ Arc 0 RunningP2p ∷ []) ≡ Some (4, Quiet) }
    ensures completed { broken peers (peers_held ++ Deliver 0 0 ∷ Complete 0 0 ∷ Arc 0 RunningP2p ∷ []) ≡ None }
    ensures stop { broken (one_early 0) (Begin ∷ Issue 0 0 ∷ Hold 0 Stop ∷ Arc 0 Stop ∷ []) ≡ Some (3, Quiet) }
    ensures home { broken trio (trio_one_stopped ++ Abort ∷ Arc 0 Running ∷ []) ≡ Some (10, Quiet) }
{}

/// A failing arc before the move begins, after Joint, or after another one.
pub fn fail_out_of_order_is_refused()
    ensures early { broken (one_failing 1) (Fail 0 Stop ∷ []) ≡ Some (0, Order) }
    ensures joint { broken (one_failing 3) (one_source ++ Fail 0 Stop ∷ []) ≡ Some (12, Order) }
    ensures failed { broken (one_failing 1) (one_write ++ Begin ∷ Hold 0 Stop ∷ Fail 0 Stop ∷ Fail 0 Stop ∷ []) ≡ Some (6, Order) }
{}

/// A failing arc of a device that fails none, that fails another one, or that gave up; and one that no way is open for.
pub fn wrong_fail_is_refused()
    ensures never { broken one (one_write ++ Begin ∷ Hold 0 Stop ∷ Fail 0 Stop ∷ []) ≡ Some (5, Path) }
    ensures number { broken (one_failing 2) (one_write ++ Begin ∷ Hold 0 Stop ∷ Fail 0 Stop ∷ []) ≡ Some (5, Path) }
    ensures unheld { broken (one_failing 1) (one_write ++ Begin ∷ Fail 0 Stop ∷ []) ≡ Some (4, Path) }
    ensures aborted { broken (one_failing 3) (one_write ++ Begin ∷ Hold 0 Stop ∷ Arc 0 Stop ∷ Arc 0 StopCopy ∷ Abort ∷ Fail 0 Stop ∷ [])
        ≡ Some (8, Path) }
{}

/// A failing arc needs quiet like one that succeeds, and the arc home doesn't fail.
pub fn fail_without_quiet_is_refused()
    ensures stop { broken (record (one_failing 1) { begin = 0 }) (Begin ∷ Issue 0 0 ∷ Hold 0 Stop ∷ Fail 0 Stop ∷ []) ≡ Some (3, Quiet) }
    ensures home { broken (one_failing 3)
        (one_write ++ Begin ∷ Hold 0 Stop ∷ Arc 0 Stop ∷ Arc 0 StopCopy ∷ Abort ∷ Arc 0 Stop ∷ Arc 0 Running ∷ []) ≡ None }
{}
