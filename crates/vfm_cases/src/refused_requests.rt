//! Runs that break a rule at a request: each of the three entries of a request, each rule that it may break.

ghost use Rattle.std.specs.Prelude.{◌≡◌, ◌++◌, ◌∷◌, [], Some, None};
ghost use Rattle.vfm_types.specs.declared.entry.Entry.TheVariants.{Issue, Deliver, Complete, Hold, Arc, Begin, Abort, Resume};
ghost use Rattle.vfm_types.specs.declared.entry.Rule.TheVariants.{Turn, Barred, Start};
ghost use Rattle.vfm_types.specs.declared.state.MigState.TheVariants.{Stop, Running, RunningP2p};
ghost use Rattle.vfm_plain.specs.Legal.{broken};
ghost use Rattle.vfm_cases.specs.One.{one, one_source, one_joined, one_home};
ghost use Rattle.vfm_cases.specs.Peers.{peers, peers_held, peers_quiet};
ghost use Rattle.vfm_cases.specs.Bells.{bell, bell_joint};
ghost use Rattle.vfm_cases.specs.Rounds.{rounds_two, rounds_held};
ghost use Rattle.vfm_cases.specs.Window.{window_two, window_full, window_delivered};
ghost use Rattle.vfm_cases.specs.Fences.{fences, mute};

/// An issue out of turn: no such request, not the first, one too many, or one that was done.
pub fn issue_out_of_turn_is_refused()
    ensures absent { broken one (Issue 0 1 ∷ []) ≡ Some (0, Turn) }
    ensures second { broken window_two (Issue 0 1 ∷ []) ≡ Some (0, Turn) }
    ensures third { broken window_two (window_full ++ Issue 0 2 ∷ []) ≡ Some (2, Turn) }
    ensures twice { broken window_two (Issue 0 0 ∷ Issue 0 0 ∷ []) ≡ Some (1, Turn) }
    ensures done { broken one (one_joined ++ Issue 0 0 ∷ []) ≡ Some (15, Turn) }
{}

/// A fence is issued alone, and nothing beside it, until it is completed and not only delivered.
pub fn issue_beside_a_fence_is_refused()
    ensures fence_later { broken window_two (window_delivered ++ Issue 0 2 ∷ []) ≡ Some (4, Turn) }
    ensures fence_last { broken window_two (window_delivered ++ Complete 0 1 ∷ Issue 0 2 ∷ []) ≡ Some (5, Turn) }
    ensures behind { broken fences (Issue 0 0 ∷ Issue 0 1 ∷ []) ≡ Some (1, Turn) }
    ensures delivered { broken fences (Issue 0 0 ∷ Deliver 0 0 ∷ Issue 0 1 ∷ []) ≡ Some (2, Turn) }
    ensures completed { broken fences (Issue 0 0 ∷ Deliver 0 0 ∷ Complete 0 0 ∷ Issue 0 1 ∷ []) ≡ None }
{}

/// An issue that the level bars: of a write into a BAR in RUNNING_P2P or held for it, of any request by a device that
/// can't tell or that is held for STOP.
pub fn barred_issue_is_refused()
    ensures held { broken peers (Begin ∷ Hold 0 RunningP2p ∷ Issue 0 0 ∷ []) ≡ Some (2, Barred) }
    ensures state { broken peers (Begin ∷ Hold 0 RunningP2p ∷ Arc 0 RunningP2p ∷ Issue 0 0 ∷ []) ≡ Some (3, Barred) }
    ensures tells { broken (record fences { begin = 0 }) (Begin ∷ Hold 0 RunningP2p ∷ Issue 0 0 ∷ []) ≡ None }
    ensures mute { broken mute (Begin ∷ Hold 0 RunningP2p ∷ Issue 0 0 ∷ []) ≡ Some (2, Barred) }
    ensures stopped { broken bell (bell_joint ++ Issue 1 0 ∷ []) ≡ Some (15, Barred) }
{}

/// An issue before the move begins, past what is wanted before it.
pub fn early_issue_is_refused()
    ensures first { broken peers (Issue 0 0 ∷ []) ≡ Some (0, Start) }
    ensures begun { broken peers (Begin ∷ Issue 0 0 ∷ []) ≡ None }
    ensures aborted { broken peers (Abort ∷ Issue 0 0 ∷ []) ≡ None }
    ensures second { broken (record window_two { begin = 1 }) window_full ≡ Some (1, Start) }
{}

/// A delivery of what isn't outstanding, of what was delivered, or of another device's request.
pub fn wrong_delivery_is_refused()
    ensures unissued { broken one (Deliver 0 0 ∷ []) ≡ Some (0, Turn) }
    ensures twice { broken one (Issue 0 0 ∷ Deliver 0 0 ∷ Deliver 0 0 ∷ []) ≡ Some (2, Turn) }
    ensures exchanged { broken one (Deliver 0 0 ∷ Issue 0 0 ∷ Complete 0 0 ∷ []) ≡ Some (0, Turn) }
    ensures other { broken peers (Begin ∷ Issue 0 0 ∷ Deliver 1 0 ∷ []) ≡ Some (2, Turn) }
    ensures completed { broken one (one_source ++ Deliver 0 0 ∷ []) ≡ Some (12, Turn) }
{}

/// What the source delivered isn't done once more by the destination.
pub fn second_doing_is_refused()
    ensures issued { broken one (one_source ++ Resume ∷ Issue 0 0 ∷ []) ≡ Some (13, Turn) }
    ensures delivered { broken one (one_source ++ Resume ∷ Deliver 0 0 ∷ []) ≡ Some (13, Turn) }
{}

/// A completion of what isn't outstanding, isn't delivered, or was completed.
pub fn wrong_completion_is_refused()
    ensures unissued { broken one (Complete 0 0 ∷ []) ≡ Some (0, Turn) }
    ensures undelivered { broken one (Issue 0 0 ∷ Complete 0 0 ∷ []) ≡ Some (1, Turn) }
    ensures twice { broken one (Issue 0 0 ∷ Deliver 0 0 ∷ Complete 0 0 ∷ Complete 0 0 ∷ []) ≡ Some (3, Turn) }
    ensures early { broken window_two (window_full ++ Deliver 0 1 ∷ Complete 0 0 ∷ []) ≡ Some (3, Turn) }
{}
