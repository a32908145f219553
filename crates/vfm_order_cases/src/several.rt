//! The order of machines that do nothing, or write into each other: by way of PRE_COPY, in peer-to-peer states, and home.

ghost use Rattle.std.specs.Prelude.{◌≡◌, ◌∷◌, [], None, reverse, take};
ghost use Rattle.vfm_types.specs.declared.entry.Entry.TheVariants.{Arc, Complete, Deliver};
ghost use Rattle.vfm_types.specs.declared.state.MigState.TheVariants.{RunningP2p, StopCopy};
ghost use Rattle.vfm_plain.specs.Legal.{broken};
ghost use Rattle.vfm_quiet.specs.declared.want.Want.TheVariants.{Do, Wait};
ghost use Rattle.vfm_cases.specs.Lone.{lone, lone_joined};
ghost use Rattle.vfm_cases.specs.Trio.{trio, trio_failing, trio_failed};
ghost use Rattle.vfm_cases.specs.Peers.{peers};
ghost use Rattle.vfm_order_cases.specs.Ordered.{trio_fails, trio_home, peers_waiting};
ghost use Rattle.vfm_order_cases.specs.Along.{wants_along, made_along, IsOrdered, IsOrderedFrom};

/// One device by way of PRE_COPY and PRE_COPY_P2P.
pub fn pre_copy_is_ordered()
    ensures { IsOrdered lone lone_joined }
{}

/// Three devices, the second of which fails its second arc, and home.
pub fn three_devices_are_ordered()
    ensures legal { broken trio_failing trio_fails ≡ None }
    ensures ordered { IsOrdered trio_failing trio_fails }
{}

/// Home with one device stopped: it leaves STOP before any goes back to RUNNING.
pub fn one_stopped_goes_home_first()
    ensures legal { broken trio trio_home ≡ None }
    ensures ordered { IsOrderedFrom trio 10 trio_home }
{}

/// The least device goes on to STOP_COPY before the next one stops.
pub fn least_device_goes_on()
    ensures { wants_along trio_failing 0 (reverse (take 11 trio_failed)) [] ≡ Do (Arc 0 StopCopy) ∷ [] }
{}

/// A device with a barred request outstanding isn't taken into RUNNING_P2P: the other one goes first, then the order waits.
pub fn barred_request_is_waited_for()
    ensures before { wants_along peers 0 [] peers_waiting ≡ made_along peers_waiting Wait }
    ensures after { wants_along peers 0 (Complete 0 0 ∷ Deliver 0 0 ∷ reverse peers_waiting) [] ≡ Do (Arc 0 RunningP2p) ∷ [] }
{}
