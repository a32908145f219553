//! The laws of the table, proved over all states and all flags. Each call does nothing: its contract is the law.

ghost use Rattle.std.specs.Prelude.{◌≡◌, ℕ, ◌≤◌, ◌∷◌, [], IsTrue, IsFalse, IfOk, length, not};
ghost use Rattle.std.specs.List.{list_all};
ghost use Rattle.vfm_types.specs.declared.state.MigState.{MigState};
ghost use Rattle.vfm_types.specs.State.{is_flags, has_p2p};
ghost use Rattle.vfm_types.specs.Paths.{next_of, path_of, supports, is_single_arc};
ghost use Rattle.vfm_states.specs.Laws.{each_step, is_next, begins_at, ends_at, interior, lends_data, lends_on_the_way, running_stops_by_p2p};
ghost use Rattle.vfm_types.specs.Arcs.{is_running, is_stopped};

/// With all flags each step of each path is one of the fifteen single arcs of `linux/vfio.h`.
pub fn single_arcs()
    ensures { (from to : MigState) → IfOk (path_of from to 7) (λ route. IsTrue (each_step is_single_arc route)) }
{}

/// Every path begins at its first state, goes by next states, and ends within five states at its target, which it meets once.
pub fn paths_end()
    ensures begins { (from to : MigState) (bits : ℕ) → IsTrue (is_flags bits) → IfOk (path_of from to bits) (λ route. IsTrue (begins_at from route)) }
    ensures repeats { (from to : MigState) (bits : ℕ) → IsTrue (is_flags bits) → IfOk (path_of from to bits) (λ route. IsTrue (each_step (is_next to bits) route)) }
    ensures arrives { (from to : MigState) (bits : ℕ) → IsTrue (is_flags bits) → IfOk (path_of from to bits) (λ route. IsTrue (ends_at to route)) }
    ensures within_five { (from to : MigState) (bits : ℕ) → IsTrue (is_flags bits) → IfOk (path_of from to bits) (λ route. length route ≤ 5) }
{}

/// With all flags the interior of a path has no `PRE_COPY`, `PRE_COPY_P2P` or `STOP_COPY`, but on two ways:
/// from `PRE_COPY` to `STOP_COPY` it passes `PRE_COPY_P2P`, and from `RUNNING` to `PRE_COPY_P2P` it passes `PRE_COPY`.
pub fn interiors()
    ensures others { (from to : MigState) → IsFalse (lends_on_the_way from to) → IfOk (path_of from to 7) (λ route. IsTrue (list_all (λ state. not (lends_data state)) (interior route))) }
    ensures to_stop_copy { path_of MigState.PreCopy MigState.StopCopy 7 ≡ Ok (MigState.PreCopy ∷ MigState.PreCopyP2p ∷ MigState.StopCopy ∷ []) }
    ensures to_pre_copy_p2p { path_of MigState.Running MigState.PreCopyP2p 7 ≡ Ok (MigState.Running ∷ MigState.PreCopy ∷ MigState.PreCopyP2p ∷ []) }
{}

/// A next state and each state of a path is one that the device has.
pub fn supported_only()
    ensures next { (from to : MigState) (bits : ℕ) → IsTrue (is_flags bits) → IfOk (next_of from to bits) (λ next. IsTrue (supports bits next)) }
    ensures paths { (from to : MigState) (bits : ℕ) → IsTrue (is_flags bits) → IfOk (path_of from to bits) (λ route. IsTrue (list_all (supports bits) route)) }
{}

/// Where a device has `RUNNING_P2P`, no path leads from `RUNNING` to a stopped state but by it,
/// and no next state of `RUNNING` or `PRE_COPY` is a stopped one.
pub fn stops_through_p2p()
    ensures paths { (from to : MigState) (bits : ℕ) → IsTrue (is_flags bits) → IsTrue (has_p2p bits) → IfOk (path_of from to bits) (λ route. IsTrue (running_stops_by_p2p route)) }
    ensures steps { (from to : MigState) (bits : ℕ) → IsTrue (is_flags bits) → IsTrue (has_p2p bits) → IsTrue (is_running from) → IfOk (next_of from to bits) (λ next. IsFalse (is_stopped next)) }
{}
