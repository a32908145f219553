//! Runs in which no stopped device makes or receives a request, and steps that would let one.

ghost use Rattle.std.specs.Prelude.{◌≡◌, ◌++◌, ◌∷◌, [], None, true, false, reverse, take};
ghost use Rattle.vfm_types.specs.declared.entry.Entry.TheVariants.{Issue, Deliver, Arc, Hold, Begin, Report, Copy, Block};
ghost use Rattle.vfm_types.specs.declared.state.MigState.TheVariants.{Stop, StopCopy, RunningP2p};
ghost use Rattle.vfm_plain.specs.Legal.{IsLegal, is_entry_of, broken};
ghost use Rattle.vfm_plain.specs.Clean.{IsClean, is_clean_step};
ghost use Rattle.vfm_cases.specs.One.{one, one_joined};
ghost use Rattle.vfm_cases.specs.Lone.{lone, lone_source};
ghost use Rattle.vfm_cases.specs.Peers.{peers, peers_held, peers_joined};
ghost use Rattle.vfm_cases.specs.Bells.{bell, bell_rung, bell_joined};

/// Legal lists as such, and clean ones.
pub fn whole_runs_are_legal_and_clean()
    ensures legal { IsLegal one (reverse one_joined) }
    ensures clean { IsClean one (reverse one_joined) }
    ensures peers { IsClean peers (reverse peers_joined) }
    ensures bells { IsClean bell (reverse bell_joined) }
{}

/// A delivery by a stopped device, and one into the BARs of a stopped device. A delivery into a page asks its issuer
/// alone.
pub fn stopped_devices_are_left_alone()
    ensures running { is_clean_step peers (reverse peers_held) (Deliver 0 0) ≡ true }
    ensures issuer { is_clean_step peers (Arc 0 Stop ∷ reverse peers_held) (Deliver 0 0) ≡ false }
    ensures target { is_clean_step peers (Arc 1 Stop ∷ reverse peers_held) (Deliver 0 0) ≡ false }
    ensures quiet { is_clean_step peers (Arc 1 RunningP2p ∷ reverse peers_held) (Deliver 0 0) ≡ true }
    ensures page { is_clean_step bell (Arc 0 Stop ∷ reverse bell_rung) (Deliver 1 0) ≡ true }
{}

/// An entry names a device, a page and a block that the machine has. The conditions of its row don't ask that.
pub fn entries_lie_in_range()
    ensures device { is_entry_of peers (Issue 1 7) ≡ true }
    ensures no_device { is_entry_of peers (Issue 2 0) ≡ false }
    ensures page { is_entry_of one (Copy 1) ≡ true }
    ensures no_page { is_entry_of one (Copy 2) ≡ false }
    ensures block { is_entry_of peers (Block 1 1) ≡ true }
    ensures no_block { is_entry_of peers (Block 1 2) ≡ false }
    ensures conditions { broken lone (take 10 lone_source ++ Report 9 ∷ []) ≡ None }
    ensures no_reporter { is_entry_of lone (Report 9) ≡ false }
{}
