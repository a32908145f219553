//! The states of the devices after a legal list, and what may be on the bus in them.

ghost use Rattle.std.specs.Prelude.{◌≡◌, ℕ, ◌<◌, List, [], IsTrue, IsFalse};
ghost use Rattle.vfm_types.specs.declared.state.MigState.TheVariants.{StopCopy};
ghost use Rattle.vfm_types.specs.declared.desc.Desc.{Desc};
ghost use Rattle.vfm_types.specs.declared.entry.Entry.{Entry};
ghost use Rattle.vfm_types.specs.Desc.{device_count};
ghost use Rattle.vfm_types.specs.Phases.{is_joint, is_aborted, is_resumed};
ghost use Rattle.vfm_types.specs.Arcs.{state_of, is_running, is_stopped};
ghost use Rattle.vfm_types.specs.Outstanding.{outstanding_of};
ghost use Rattle.vfm_types.specs.Words.{has_barred, is_nothing};
ghost use Rattle.vfm_types.specs.Valid.{IsValid};
ghost use Rattle.vfm_plain.specs.Legal.{IsLegal};
ghost use Rattle.vfm_laws.specs.Standing.{is_quiet_state, KeepsStates};

/// An outstanding request that is barred for its issuer has its issuer in a running state.
pub fn barred_is_running()
    ensures { (D : Desc) (past : List Entry) → IsValid D → IsLegal D past → (d : ℕ) → d < device_count D
        → IsTrue (has_barred D d (outstanding_of D d past)) → IsTrue (is_running (state_of d past)) }
{}

/// A device with outstanding requests isn't stopped, and a stopped one has none.
pub fn outstanding_is_awake()
    ensures awake { (D : Desc) (past : List Entry) → IsValid D → IsLegal D past → (d : ℕ) → d < device_count D
        → IsFalse (is_nothing (outstanding_of D d past)) → IsFalse (is_stopped (state_of d past)) }
    ensures stopped { (D : Desc) (past : List Entry) → IsValid D → IsLegal D past → (d : ℕ) → d < device_count D
        → IsTrue (is_stopped (state_of d past)) → outstanding_of D d past ≡ [] }
{}

/// Where one device is stopped, each is in a peer-to-peer state or stopped.
pub fn stopped_beside_quiet()
    ensures { (D : Desc) (past : List Entry) → IsValid D → IsLegal D past → (d e : ℕ) → d < device_count D → e < device_count D
        → IsTrue (is_stopped (state_of d past)) → IsTrue (is_quiet_state (state_of e past)) }
{}

/// After Joint, until the source gives up or the destination takes over, every device is in STOP_COPY and nothing is
/// outstanding.
pub fn joint_is_still()
    ensures stands { (D : Desc) (past : List Entry) → IsValid D → IsLegal D past
        → IsTrue (is_joint past) → IsFalse (is_aborted past) → IsFalse (is_resumed past)
        → (d : ℕ) → d < device_count D → state_of d past ≡ StopCopy }
    ensures nothing { (D : Desc) (past : List Entry) → IsValid D → IsLegal D past
        → IsTrue (is_joint past) → IsFalse (is_aborted past) → IsFalse (is_resumed past)
        → (d : ℕ) → d < device_count D → outstanding_of D d past ≡ [] }
{}

/// All that a legal list keeps of how the devices stand: besides the above, that none is in ERROR and that one is held
/// only for its next state on the way to STOP_COPY.
pub fn states_are_kept()
    ensures { (D : Desc) → IsValid D → (past : List Entry) → IsLegal D past → KeepsStates D past }
{}
