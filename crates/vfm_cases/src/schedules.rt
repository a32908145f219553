//! Runs by the coordinator's order and in other orders, given up in several phases, and with failing arcs. They were
//! made by a program that keeps states, counters and marks, written from the table of entries by itself.

ghost use Rattle.std.specs.Prelude.{◌≡◌, None, true, reverse};
ghost use Rattle.vfm_types.specs.DescFault.{form_fault};
ghost use Rattle.vfm_plain.specs.Legal.{broken};
ghost use Rattle.vfm_plain.specs.Ended.{has_ended, went_on};
ghost use Rattle.vfm_cases.specs.Solo.{solo, solo_ordered, solo_scattered, solo_given_up};
ghost use Rattle.vfm_cases.specs.Duo.{duo, duo_ordered, duo_scattered, duo_given_up};
ghost use Rattle.vfm_cases.specs.Three.{three, three_ordered, three_scattered, three_given_up};
ghost use Rattle.vfm_cases.specs.DuoFailing.{duo_failing, duo_failing_run};
ghost use Rattle.vfm_cases.specs.ThreeFailing.{three_failing, three_failing_run};
ghost use Rattle.vfm_cases.specs.Mono.{mono, mono_ordered, mono_scattered};

/// A machine with one device, which has PRE_COPY and no peer-to-peer states.
#[tactic(auto, unfolding(vfm_types::specs::DescFault::form_fault))]
pub fn solo_runs_are_legal()
    ensures valid { form_fault solo ≡ None }
    ensures ordered { broken solo solo_ordered ≡ None }
    ensures ordered_ended { has_ended solo (reverse solo_ordered) ≡ true }
    ensures scattered { broken solo solo_scattered ≡ None }
    ensures scattered_ended { has_ended solo (reverse solo_scattered) ≡ true }
    ensures given_up { broken solo solo_given_up ≡ None }
    ensures given_up_on { went_on solo (reverse solo_given_up) ≡ true }
{}

/// A machine with two devices that write into each other and ring a doorbell.
#[tactic(auto, unfolding(vfm_types::specs::DescFault::form_fault))]
pub fn duo_runs_are_legal()
    ensures valid { form_fault duo ≡ None }
    ensures ordered { broken duo duo_ordered ≡ None }
    ensures ordered_ended { has_ended duo (reverse duo_ordered) ≡ true }
    ensures scattered { broken duo duo_scattered ≡ None }
    ensures scattered_ended { has_ended duo (reverse duo_scattered) ≡ true }
    ensures given_up { broken duo duo_given_up ≡ None }
    ensures given_up_on { went_on duo (reverse duo_given_up) ≡ true }
{}

/// A machine with three devices, one of which lacks PRE_COPY and cannot tell peer-to-peer DMA from other DMA.
#[tactic(auto, unfolding(vfm_types::specs::DescFault::form_fault))]
pub fn three_runs_are_legal()
    ensures valid { form_fault three ≡ None }
    ensures ordered { broken three three_ordered ≡ None }
    ensures ordered_ended { has_ended three (reverse three_ordered) ≡ true }
    ensures scattered { broken three three_scattered ≡ None }
    ensures scattered_ended { has_ended three (reverse three_scattered) ≡ true }
    ensures given_up { broken three three_given_up ≡ None }
    ensures given_up_on { went_on three (reverse three_given_up) ≡ true }
{}

/// The machine with two devices, moved without a pass before they stop, whose second device fails its third arc.
#[tactic(auto, unfolding(vfm_types::specs::DescFault::form_fault))]
pub fn duo_failing_runs_are_legal()
    ensures valid { form_fault duo_failing ≡ None }
    ensures run { broken duo_failing duo_failing_run ≡ None }
    ensures run_on { went_on duo_failing (reverse duo_failing_run) ≡ true }
{}

/// The machine with three devices, whose first device fails its first arc.
#[tactic(auto, unfolding(vfm_types::specs::DescFault::form_fault))]
pub fn three_failing_runs_are_legal()
    ensures valid { form_fault three_failing ≡ None }
    ensures run { broken three_failing three_failing_run ≡ None }
    ensures run_on { went_on three_failing (reverse three_failing_run) ≡ true }
{}

/// A machine with one device, which has the peer-to-peer states and no PRE_COPY.
#[tactic(auto, unfolding(vfm_types::specs::DescFault::form_fault))]
pub fn mono_runs_are_legal()
    ensures valid { form_fault mono ≡ None }
    ensures ordered { broken mono mono_ordered ≡ None }
    ensures ordered_ended { has_ended mono (reverse mono_ordered) ≡ true }
    ensures scattered { broken mono mono_scattered ≡ None }
    ensures scattered_ended { has_ended mono (reverse mono_scattered) ≡ true }
{}
