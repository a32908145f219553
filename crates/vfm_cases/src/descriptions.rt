//! Descriptions that are valid, and what is wrong with others.

ghost use Rattle.std.specs.Prelude.{◌≡◌, ◌++◌, ◌∷◌, [], Some, None, true, false, replicate};
ghost use Rattle.vfm_types.specs.declared.job.Job.TheVariants.{Write, Read, Store, Add};
ghost use Rattle.vfm_types.specs.declared.job.Region.TheVariants.{Page, Bar};
ghost use Rattle.vfm_types.specs.declared.fault.DescFault.TheVariants.{NameTwice, Crosses, OwnBar, BellKind, NeedsP2p};
ghost use Rattle.vfm_types.specs.DescFault.{form_fault};
ghost use Rattle.vfm_types.specs.Region.{region_of};
ghost use Rattle.vfm_types.specs.Valid.{IsValid};
ghost use Rattle.vfm_types.specs.Job.{is_doorbell};
ghost use Rattle.vfm_cases.specs.Bare.{eight};
ghost use Rattle.vfm_cases.specs.One.{one};
ghost use Rattle.vfm_cases.specs.Lone.{lone};
ghost use Rattle.vfm_cases.specs.Peers.{peers};
ghost use Rattle.vfm_cases.specs.Trio.{trio, trio_failing};
ghost use Rattle.vfm_cases.specs.Bells.{bell, three_bells};
ghost use Rattle.vfm_cases.specs.Rounds.{rounds_two};
ghost use Rattle.vfm_cases.specs.Window.{window_two};
ghost use Rattle.vfm_cases.specs.Sums.{carry};
ghost use Rattle.vfm_cases.specs.Reading.{reading};
ghost use Rattle.vfm_cases.specs.Fences.{fences, mute};
ghost use Rattle.vfm_cases.specs.Faulty.{with_jobs, same_names, first_and_third, without_p2p, all_faults, all_but_names};

/// The worked machines have no fault.
#[tactic(auto, unfolding(vfm_types::specs::DescFault::form_fault))]
pub fn worked_machines_are_valid()
    ensures one { form_fault one ≡ None }
    ensures peers { form_fault peers ≡ None }
    ensures trio { form_fault trio ≡ None }
    ensures bells { form_fault three_bells ≡ None }
    ensures window { form_fault window_two ≡ None }
    ensures carry { form_fault carry ≡ None }
    ensures reading { form_fault reading ≡ None }
    ensures fences { form_fault fences ≡ None }
{}

/// A name that stands twice is the fault of its second bearer.
#[tactic(auto, unfolding(vfm_types::specs::DescFault::form_fault))]
pub fn names_stand_once()
    ensures second { form_fault same_names ≡ Some (NameTwice 1) }
    ensures third { form_fault first_and_third ≡ Some (NameTwice 2) }
{}

/// A job's range lies in one page or one BAR.
#[tactic(auto, unfolding(vfm_types::specs::DescFault::form_fault))]
pub fn ranges_lie_in_one_place()
    ensures pages { form_fault (with_jobs (Add 12 1 ∷ [])) ≡ Some (Crosses 0 0) }
    ensures last { form_fault (with_jobs (Read 24 8 ∷ [])) ≡ None }
    ensures past { form_fault (with_jobs (Read 24 8 ∷ Read 25 8 ∷ [])) ≡ Some (Crosses 0 1) }
    ensures bar { form_fault (with_jobs (Read 268959800 9 ∷ [])) ≡ Some (Crosses 0 0) }
    ensures nowhere { form_fault (with_jobs (Read 269484032 1 ∷ [])) ≡ Some (Crosses 0 0) }
{}

/// A job isn't aimed at its own device's BARs, and touches the first 8 bytes of another one's BAR 0 by a doorbell or a
/// read alone.
#[tactic(auto, unfolding(vfm_types::specs::DescFault::form_fault))]
pub fn bars_are_guarded()
    ensures own { form_fault (with_jobs (Read 268435456 1 ∷ [])) ≡ Some (OwnBar 0 0) }
    ensures write { form_fault (with_jobs (Write 268959748 (1 ∷ 2 ∷ 3 ∷ 4 ∷ []) ∷ [])) ≡ Some (BellKind 0 0) }
    ensures add { form_fault (with_jobs (Add 268959744 1 ∷ [])) ≡ Some (BellKind 0 0) }
    ensures store { form_fault (with_jobs (Store 268959744 9 ∷ [])) ≡ Some (BellKind 0 0) }
    ensures fine { form_fault (with_jobs (Store 268959744 8 ∷ Write 268959744 (eight 3) ∷ Read 268959744 3 ∷ Add 268959752 1 ∷ [])) ≡ None }
{}

/// Of several devices each has the peer-to-peer states. The first fault counts: names, jobs, then flags.
#[tactic(auto, unfolding(vfm_types::specs::DescFault::form_fault))]
pub fn first_fault_counts()
    ensures p2p { form_fault without_p2p ≡ Some (NeedsP2p 1) }
    ensures names { form_fault all_faults ≡ Some (NameTwice 1) }
    ensures jobs { form_fault all_but_names ≡ Some (OwnBar 1 0) }
{}

/// Pages lie from address 0 on, the BARs 512 KiB apart from 256 MiB on.
pub fn regions_are_found()
    ensures page { region_of one 18 4 ≡ Some (record { region = Page 1; offset = 2 }) }
    ensures border { region_of one 14 4 ≡ None }
    ensures past { region_of one 32 1 ≡ None }
    ensures bar { region_of peers 268959808 64 ≡ Some (record { region = Bar 1; offset = 64 }) }
    ensures beyond { region_of peers 268959808 65 ≡ None }
    ensures below { region_of peers 268435455 1 ≡ None }
{}

/// Eight bytes written at offset 0 of a BAR 0 are a doorbell; nothing else is.
pub fn doorbells_are_known()
    ensures write { is_doorbell peers (Write 268959744 (eight 0)) ≡ true }
    ensures store { is_doorbell peers (Store 268959744 8) ≡ true }
    ensures read { is_doorbell peers (Read 268959744 8) ≡ false }
    ensures add { is_doorbell peers (Add 268959744 1) ≡ false }
    ensures short { is_doorbell peers (Write 268959744 (1 ∷ [])) ≡ false }
    ensures later { is_doorbell peers (Write 268959752 (eight 0)) ≡ false }
    ensures memory { is_doorbell peers (Write 0 (eight 0)) ≡ false }
{}

/// Machines that are valid in every point.
#[tactic(auto, unfolding(vfm_types::specs::DescFault::form_fault))]
pub fn valid_machines_exist()
    ensures one { IsValid one }
    ensures three { IsValid trio }
{}
