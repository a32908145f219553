//! A machine with two devices, given up in every phase of its move: the source goes on to its end.

ghost use Rattle.std.specs.Prelude.{◌≡◌, None, true, reverse};
ghost use Rattle.vfm_plain.specs.Legal.{broken};
ghost use Rattle.vfm_plain.specs.Ended.{went_on};
ghost use Rattle.vfm_cases.specs.Duo.{duo};
ghost use Rattle.vfm_cases.specs.GivenUp.{given_up_before_begin, given_up_entering, given_up_copying, given_up_reading, given_up_reported, given_up_second_pass, given_up_held, given_up_quiet, given_up_one_stopped, given_up_stopped, given_up_joint, given_up_last_pass, given_up_last_ended};

/// Before the move begins.
pub fn given_up_before_begin_goes_on()
    ensures legal { broken duo given_up_before_begin ≡ None }
    ensures ended { went_on duo (reverse given_up_before_begin) ≡ true }
{}

/// With one device in PRE_COPY.
pub fn given_up_entering_goes_on()
    ensures legal { broken duo given_up_entering ≡ None }
    ensures ended { went_on duo (reverse given_up_entering) ≡ true }
{}

/// While the first pass copies.
pub fn given_up_copying_goes_on()
    ensures legal { broken duo given_up_copying ≡ None }
    ensures ended { went_on duo (reverse given_up_copying) ≡ true }
{}

/// While the first pass reads blocks.
pub fn given_up_reading_goes_on()
    ensures legal { broken duo given_up_reading ≡ None }
    ensures ended { went_on duo (reverse given_up_reading) ≡ true }
{}

/// Between two reports.
pub fn given_up_reported_goes_on()
    ensures legal { broken duo given_up_reported ≡ None }
    ensures ended { went_on duo (reverse given_up_reported) ≡ true }
{}

/// In the second pass.
pub fn given_up_second_pass_goes_on()
    ensures legal { broken duo given_up_second_pass ≡ None }
    ensures ended { went_on duo (reverse given_up_second_pass) ≡ true }
{}

/// With both devices held.
pub fn given_up_held_goes_on()
    ensures legal { broken duo given_up_held ≡ None }
    ensures ended { went_on duo (reverse given_up_held) ≡ true }
{}

/// With both devices in PRE_COPY_P2P.
pub fn given_up_quiet_goes_on()
    ensures legal { broken duo given_up_quiet ≡ None }
    ensures ended { went_on duo (reverse given_up_quiet) ≡ true }
{}

/// With one device in STOP_COPY.
pub fn given_up_one_stopped_goes_on()
    ensures legal { broken duo given_up_one_stopped ≡ None }
    ensures ended { went_on duo (reverse given_up_one_stopped) ≡ true }
{}

/// With both devices in STOP_COPY.
pub fn given_up_stopped_goes_on()
    ensures legal { broken duo given_up_stopped ≡ None }
    ensures ended { went_on duo (reverse given_up_stopped) ≡ true }
{}

/// After Joint.
pub fn given_up_joint_goes_on()
    ensures legal { broken duo given_up_joint ≡ None }
    ensures ended { went_on duo (reverse given_up_joint) ≡ true }
{}

/// In the last pass.
pub fn given_up_last_pass_goes_on()
    ensures legal { broken duo given_up_last_pass ≡ None }
    ensures ended { went_on duo (reverse given_up_last_pass) ≡ true }
{}

/// After the last pass.
pub fn given_up_last_ended_goes_on()
    ensures legal { broken duo given_up_last_ended ≡ None }
    ensures ended { went_on duo (reverse given_up_last_ended) ≡ true }
{}
