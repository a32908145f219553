//! Paths between device states, for devices with every set of flags.

ghost use Rattle.std.specs.Prelude.{◌≡◌, [], ◌∷◌, Ok, Err, true, false};
ghost use Rattle.vfm_types.specs.declared.state.MigState.TheVariants.{Error, Stop, Running, StopCopy, Resuming, RunningP2p, PreCopy, PreCopyP2p};
ghost use Rattle.vfm_types.specs.declared.state.PathFault.TheVariants.{Unsupported, Forbidden, FromError};
ghost use Rattle.vfm_types.specs.Paths.{path_of, next_of};

/// Paths that there are.
pub fn paths_are_found()
    ensures out_of_pre_copy { path_of PreCopy RunningP2p 7 ≡ Ok (PreCopy ∷ Running ∷ RunningP2p ∷ []) }
    ensures without_p2p { path_of Running Stop 1 ≡ Ok (Running ∷ Stop ∷ []) }
    ensures into_resuming { path_of PreCopy Resuming 7 ≡ Ok (PreCopy ∷ Running ∷ RunningP2p ∷ Stop ∷ Resuming ∷ []) }
    ensures into_stop_copy { path_of Running StopCopy 7 ≡ Ok (Running ∷ RunningP2p ∷ Stop ∷ StopCopy ∷ []) }
    ensures pre_copied { path_of PreCopy StopCopy 7 ≡ Ok (PreCopy ∷ PreCopyP2p ∷ StopCopy ∷ []) }
    ensures nowhere { path_of Running Running 1 ≡ Ok (Running ∷ []) }
{}

/// States that a device lacks are left out on the way.
pub fn lacking_states_are_left_out()
    ensures stop_copy { path_of PreCopy StopCopy 5 ≡ Ok (PreCopy ∷ StopCopy ∷ []) }
    ensures home { path_of StopCopy Running 5 ≡ Ok (StopCopy ∷ Stop ∷ Running ∷ []) }
    ensures pre_copy { path_of Resuming PreCopy 5 ≡ Ok (Resuming ∷ Stop ∷ Running ∷ PreCopy ∷ []) }
    ensures up { path_of Running PreCopyP2p 7 ≡ Ok (Running ∷ PreCopy ∷ PreCopyP2p ∷ []) }
    ensures back { path_of StopCopy Resuming 3 ≡ Ok (StopCopy ∷ Stop ∷ Resuming ∷ []) }
{}

/// Paths that are refused, and why.
pub fn paths_are_refused()
    ensures forbidden { path_of StopCopy PreCopy 7 ≡ Err (Forbidden StopCopy PreCopy) }
    ensures forbidden_p2p { path_of StopCopy PreCopyP2p 7 ≡ Err (Forbidden StopCopy PreCopyP2p) }
    ensures unsupported { path_of Running PreCopy 3 ≡ Err (Unsupported PreCopy) }
    ensures from_error { path_of Error Running 7 ≡ Err FromError }
    ensures to_error { path_of Running Error 7 ≡ Err (Forbidden Running Error) }
{}

/// Of several causes the first counts; a state to itself is refused like any other way.
pub fn first_cause_counts()
    ensures both_errors { path_of Error Error 7 ≡ Err FromError }
    ensures error_first { path_of PreCopy Error 1 ≡ Err (Forbidden PreCopy Error) }
    ensures from_first { path_of PreCopy RunningP2p 1 ≡ Err (Unsupported PreCopy) }
    ensures to_before_way { path_of StopCopy PreCopy 3 ≡ Err (Unsupported PreCopy) }
    ensures itself { next_of RunningP2p RunningP2p 5 ≡ Err (Unsupported RunningP2p) }
    ensures stays { next_of RunningP2p RunningP2p 3 ≡ Ok RunningP2p }
{}
