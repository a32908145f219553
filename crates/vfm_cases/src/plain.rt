//! What the plain machine holds after a run.

ghost use Rattle.std.specs.Prelude.{◌≡◌, ◌++◌, [], ◌∷◌, Some, None, true, false, reverse, replicate, take, drop};
ghost use Rattle.vfm_types.specs.Machine.{described, device_of};
ghost use Rattle.vfm_types.specs.Requests.{plain, is_enabled};
ghost use Rattle.vfm_types.specs.Serial.{serial};
ghost use Rattle.vfm_types.specs.Deliveries.{machine_of, delivers};
ghost use Rattle.vfm_types.specs.Words.{is_idle};
ghost use Rattle.vfm_cases.specs.One.{one, one_source, one_joined};
ghost use Rattle.vfm_cases.specs.Peers.{peers, peers_joined};
ghost use Rattle.vfm_cases.specs.Bells.{bell, bell_rung, bell_joint, bell_joined, three_bells, three_bells_rung};
ghost use Rattle.vfm_cases.specs.Window.{window_two, window_delivered};
ghost use Rattle.vfm_cases.specs.Sums.{carry, carry_added, carry_stored};

/// The write puts its four bytes at offset 2 of page 1 and nothing else.
pub fn one_write_is_done()
    ensures before { (described one).pages ≡ replicate 16 0 ∷ replicate 16 0 ∷ [] }
    ensures pages { (machine_of one (reverse one_source)).pages
        ≡ replicate 16 0 ∷ (0 ∷ 0 ∷ 1 ∷ 2 ∷ 3 ∷ 4 ∷ replicate 10 0) ∷ [] }
    ensures device { (machine_of one (reverse one_source)).devices
        ≡ (record { bar = replicate 64 0; pending = []; buf = replicate 64 0; accepted = 1; done = 1; lost = 0 }) ∷ [] }
    ensures plain { plain one (delivers one_joined) ≡ Some (machine_of one (reverse one_source)) }
    ensures serial { serial one ≡ machine_of one (reverse one_joined) }
{}

/// The byte stands in block 1 of the second device's BAR.
pub fn peer_write_is_done()
    ensures bar { (device_of (machine_of peers (reverse peers_joined)) 1).bar ≡ replicate 64 0 ++ 161 ∷ replicate 63 0 }
    ensures plain { plain peers (delivers peers_joined) ≡ Some (machine_of peers (reverse peers_joined)) }
{}

/// A doorbell gives its owner a request, which stands pending at Joint and is done after it; no byte of the BAR changes.
pub fn doorbell_gives_a_request()
    ensures accepted { (device_of (machine_of bell (reverse bell_rung)) 1).accepted ≡ 1 }
    ensures pending { (device_of (machine_of bell (reverse bell_rung)) 1).pending ≡ (0, 1) ∷ [] }
    ensures joint { (device_of (machine_of bell (reverse bell_joint)) 1).pending ≡ (0, 1) ∷ [] }
    ensures bar { (device_of (machine_of bell (reverse bell_rung)) 1).bar ≡ replicate 64 0 }
    ensures page { (machine_of bell (reverse bell_joined)).pages ≡ (replicate 8 0 ++ 5 ∷ replicate 7 0) ∷ [] }
    ensures serial { serial bell ≡ machine_of bell (reverse bell_joined) }
{}

/// A doorbell past the budget is lost, and so is one for no job.
pub fn doorbells_are_lost()
    ensures accepted { (device_of (machine_of three_bells (reverse three_bells_rung)) 1).accepted ≡ 1 }
    ensures lost { (device_of (machine_of three_bells (reverse three_bells_rung)) 1).lost ≡ 2 }
    ensures pending { (device_of (machine_of three_bells (reverse three_bells_rung)) 1).pending ≡ (0, 1) ∷ [] }
{}

/// Two writes at one address in the order in which they are delivered; the read after them is enabled when it is first.
pub fn later_delivery_wins()
    ensures byte { (machine_of window_two (reverse window_delivered)).pages ≡ (170 ∷ replicate 15 0) ∷ [] }
    ensures first { is_enabled window_two (described window_two) 0 0 ≡ true }
    ensures second { is_enabled window_two (described window_two) 0 1 ≡ true }
    ensures fenced { is_enabled window_two (described window_two) 0 2 ≡ false }
    ensures free { is_enabled window_two (machine_of window_two (reverse window_delivered)) 0 2 ≡ true }
    ensures refused { plain window_two ((0, 1) ∷ (0, 2) ∷ []) ≡ None }
{}

/// An Add wraps and gives the old bytes back; a Store puts the start of the buffer.
pub fn add_wraps()
    ensures page { (machine_of carry (reverse carry_added)).pages ≡ replicate 16 0 ∷ [] }
    ensures buf { (device_of (machine_of carry (reverse carry_added)) 0).buf ≡ replicate 8 255 ++ replicate 56 0 }
    ensures stored { (machine_of carry (reverse carry_stored)).pages ≡ (0 ∷ 0 ∷ 255 ∷ 255 ∷ 255 ∷ replicate 11 0) ∷ [] }
    ensures idle { is_idle carry 0 (reverse carry_stored) ≡ false }
{}
