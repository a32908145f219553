//! Legal runs with one entry put in, left out or exchanged with the next: where they break first, and which rule. The
//! places and rules were found by the program that made the runs.

ghost use Rattle.std.specs.Prelude.{◌≡◌, Some};
ghost use Rattle.vfm_types.specs.declared.entry.Entry.TheVariants.{Issue, Hold, Arc, Report, Pass, Copy, Block, Dry, Joint, Abort, Resume};
ghost use Rattle.vfm_types.specs.declared.state.MigState.TheVariants.{Stop, StopCopy};
ghost use Rattle.vfm_types.specs.declared.entry.Rule.TheVariants.{Turn, Path, Barred, Quiet, Start, Pages, Blocks, Joint as Standing, Decide, Order};
ghost use Rattle.vfm_plain.specs.Legal.{broken};
ghost use Rattle.vfm_cases.specs.Edits.{inserting, omitting, exchanging};
ghost use Rattle.vfm_cases.specs.Solo.{solo, solo_ordered, solo_scattered, solo_given_up};
ghost use Rattle.vfm_cases.specs.Duo.{duo, duo_ordered, duo_scattered, duo_given_up};
ghost use Rattle.vfm_cases.specs.Three.{three, three_ordered, three_scattered, three_given_up};
ghost use Rattle.vfm_cases.specs.DuoFailing.{duo_failing, duo_failing_run};
ghost use Rattle.vfm_cases.specs.ThreeFailing.{three_failing, three_failing_run};
ghost use Rattle.vfm_cases.specs.Mono.{mono, mono_ordered, mono_scattered};

/// Each device and the coordinator in turn, then the destination.
pub fn solo_ordered_is_broken()
    ensures put_36_abort { broken solo (inserting 36 Abort solo_ordered) ≡ Some (36, Order) }
    ensures left_out_35 { broken solo (omitting 35 solo_ordered) ≡ Some (35, Order) }
    ensures exchanged_35 { broken solo (exchanging 35 solo_ordered) ≡ Some (35, Order) }
    ensures left_out_23 { broken solo (omitting 23 solo_ordered) ≡ Some (28, Quiet) }
    ensures exchanged_5 { broken solo (exchanging 5 solo_ordered) ≡ Some (5, Start) }
    ensures exchanged_3 { broken solo (exchanging 3 solo_ordered) ≡ Some (3, Turn) }
{}

/// Each device and the coordinator in turn, then the destination.
pub fn solo_ordered_is_broken_too()
    ensures left_out_27 { broken solo (omitting 27 solo_ordered) ≡ Some (27, Decide) }
    ensures exchanged_27 { broken solo (exchanging 27 solo_ordered) ≡ Some (27, Decide) }
    ensures put_6_issue { broken solo (inserting 6 (Issue 0 2) solo_ordered) ≡ Some (6, Start) }
    ensures left_out_6 { broken solo (omitting 6 solo_ordered) ≡ Some (6, Start) }
    ensures exchanged_6 { broken solo (exchanging 6 solo_ordered) ≡ Some (6, Start) }
    ensures left_out_29 { broken solo (omitting 29 solo_ordered) ≡ Some (29, Standing) }
{}

/// The same machine in another order.
pub fn solo_scattered_is_broken()
    ensures put_36_abort { broken solo (inserting 36 Abort solo_scattered) ≡ Some (36, Order) }
    ensures exchanged_5 { broken solo (exchanging 5 solo_scattered) ≡ Some (5, Start) }
    ensures left_out_28 { broken solo (omitting 28 solo_scattered) ≡ Some (28, Decide) }
    ensures exchanged_28 { broken solo (exchanging 28 solo_scattered) ≡ Some (28, Decide) }
    ensures put_6_issue { broken solo (inserting 6 (Issue 0 2) solo_scattered) ≡ Some (6, Start) }
    ensures left_out_30 { broken solo (omitting 30 solo_scattered) ≡ Some (30, Standing) }
{}

/// The same machine in another order.
pub fn solo_scattered_is_broken_too()
    ensures exchanged_30 { broken solo (exchanging 30 solo_scattered) ≡ Some (30, Standing) }
    ensures put_7_pass { broken solo (inserting 7 (Pass 1) solo_scattered) ≡ Some (7, Decide) }
    ensures left_out_7 { broken solo (omitting 7 solo_scattered) ≡ Some (14, Decide) }
    ensures left_out_34 { broken solo (omitting 34 solo_scattered) ≡ Some (34, Standing) }
    ensures exchanged_34 { broken solo (exchanging 34 solo_scattered) ≡ Some (34, Standing) }
    ensures left_out_6 { broken solo (omitting 6 solo_scattered) ≡ Some (6, Order) }
{}

/// Given up while the second pass is under way.
pub fn solo_given_up_is_broken()
    ensures left_out_21 { broken solo (omitting 21 solo_given_up) ≡ Some (21, Path) }
    ensures exchanged_21 { broken solo (exchanging 21 solo_given_up) ≡ Some (21, Path) }
    ensures exchanged_5 { broken solo (exchanging 5 solo_given_up) ≡ Some (5, Start) }
    ensures exchanged_17 { broken solo (exchanging 17 solo_given_up) ≡ Some (17, Blocks) }
    ensures put_6_issue { broken solo (inserting 6 (Issue 0 2) solo_given_up) ≡ Some (6, Start) }
    ensures left_out_6 { broken solo (omitting 6 solo_given_up) ≡ Some (6, Start) }
{}

/// Given up while the second pass is under way.
pub fn solo_given_up_is_broken_too()
    ensures exchanged_6 { broken solo (exchanging 6 solo_given_up) ≡ Some (6, Start) }
    ensures exchanged_20 { broken solo (exchanging 20 solo_given_up) ≡ Some (21, Order) }
    ensures left_out_19 { broken solo (omitting 19 solo_given_up) ≡ Some (19, Pages) }
    ensures exchanged_19 { broken solo (exchanging 19 solo_given_up) ≡ Some (19, Pages) }
    ensures left_out_8 { broken solo (omitting 8 solo_given_up) ≡ Some (8, Decide) }
    ensures exchanged_8 { broken solo (exchanging 8 solo_given_up) ≡ Some (8, Decide) }
{}

/// Each device and the coordinator in turn, then the destination.
pub fn duo_ordered_is_broken()
    ensures left_out_61 { broken duo (omitting 61 duo_ordered) ≡ Some (61, Order) }
    ensures exchanged_61 { broken duo (exchanging 61 duo_ordered) ≡ Some (61, Order) }
    ensures exchanged_65 { broken duo (exchanging 65 duo_ordered) ≡ Some (65, Quiet) }
    ensures exchanged_5 { broken duo (exchanging 5 duo_ordered) ≡ Some (5, Start) }
    ensures left_out_48 { broken duo (omitting 48 duo_ordered) ≡ Some (49, Order) }
    ensures put_49_hold { broken duo (inserting 49 (Hold 0 StopCopy) duo_ordered) ≡ Some (49, Quiet) }
{}

/// Each device and the coordinator in turn, then the destination.
pub fn duo_ordered_is_broken_too()
    ensures left_out_49 { broken duo (omitting 49 duo_ordered) ≡ Some (49, Quiet) }
    ensures exchanged_49 { broken duo (exchanging 49 duo_ordered) ≡ Some (49, Quiet) }
    ensures left_out_45 { broken duo (omitting 45 duo_ordered) ≡ Some (45, Decide) }
    ensures exchanged_45 { broken duo (exchanging 45 duo_ordered) ≡ Some (45, Decide) }
    ensures exchanged_18 { broken duo (exchanging 18 duo_ordered) ≡ Some (18, Turn) }
    ensures left_out_6 { broken duo (omitting 6 duo_ordered) ≡ Some (6, Start) }
{}

/// The same machine in another order.
pub fn duo_scattered_is_broken()
    ensures left_out_61 { broken duo (omitting 61 duo_scattered) ≡ Some (61, Order) }
    ensures exchanged_61 { broken duo (exchanging 61 duo_scattered) ≡ Some (61, Order) }
    ensures exchanged_65 { broken duo (exchanging 65 duo_scattered) ≡ Some (65, Quiet) }
    ensures exchanged_5 { broken duo (exchanging 5 duo_scattered) ≡ Some (5, Start) }
    ensures exchanged_28 { broken duo (exchanging 28 duo_scattered) ≡ Some (28, Blocks) }
    ensures left_out_48 { broken duo (omitting 48 duo_scattered) ≡ Some (49, Order) }
{}

/// The same machine in another order.
pub fn duo_scattered_is_broken_too()
    ensures put_49_hold { broken duo (inserting 49 (Hold 0 StopCopy) duo_scattered) ≡ Some (49, Quiet) }
    ensures left_out_49 { broken duo (omitting 49 duo_scattered) ≡ Some (49, Quiet) }
    ensures exchanged_49 { broken duo (exchanging 49 duo_scattered) ≡ Some (49, Quiet) }
    ensures left_out_45 { broken duo (omitting 45 duo_scattered) ≡ Some (45, Decide) }
    ensures exchanged_45 { broken duo (exchanging 45 duo_scattered) ≡ Some (45, Decide) }
    ensures exchanged_7 { broken duo (exchanging 7 duo_scattered) ≡ Some (7, Turn) }
{}

/// Given up with one device stopped and the other one not.
pub fn duo_given_up_is_broken()
    ensures left_out_48 { broken duo (omitting 48 duo_given_up) ≡ Some (50, Quiet) }
    ensures exchanged_5 { broken duo (exchanging 5 duo_given_up) ≡ Some (5, Start) }
    ensures exchanged_27 { broken duo (exchanging 27 duo_given_up) ≡ Some (27, Blocks) }
    ensures exchanged_41 { broken duo (exchanging 41 duo_given_up) ≡ Some (41, Turn) }
    ensures left_out_46 { broken duo (omitting 46 duo_given_up) ≡ Some (48, Order) }
    ensures put_47_hold { broken duo (inserting 47 (Hold 0 StopCopy) duo_given_up) ≡ Some (47, Quiet) }
{}

/// Given up with one device stopped and the other one not.
pub fn duo_given_up_is_broken_too()
    ensures left_out_47 { broken duo (omitting 47 duo_given_up) ≡ Some (48, Quiet) }
    ensures left_out_43 { broken duo (omitting 43 duo_given_up) ≡ Some (43, Decide) }
    ensures exchanged_43 { broken duo (exchanging 43 duo_given_up) ≡ Some (43, Decide) }
    ensures exchanged_40 { broken duo (exchanging 40 duo_given_up) ≡ Some (40, Turn) }
    ensures left_out_6 { broken duo (omitting 6 duo_given_up) ≡ Some (6, Start) }
    ensures exchanged_6 { broken duo (exchanging 6 duo_given_up) ≡ Some (6, Start) }
{}

/// Each device and the coordinator in turn, then the destination.
pub fn three_ordered_is_broken()
    ensures left_out_49 { broken three (omitting 49 three_ordered) ≡ Some (49, Order) }
    ensures exchanged_49 { broken three (exchanging 49 three_ordered) ≡ Some (49, Order) }
    ensures exchanged_55 { broken three (exchanging 55 three_ordered) ≡ Some (55, Quiet) }
    ensures left_out_45 { broken three (omitting 45 three_ordered) ≡ Some (45, Blocks) }
    ensures exchanged_45 { broken three (exchanging 45 three_ordered) ≡ Some (45, Blocks) }
    ensures left_out_29 { broken three (omitting 29 three_ordered) ≡ Some (31, Order) }
{}

/// Each device and the coordinator in turn, then the destination.
pub fn three_ordered_is_broken_too()
    ensures exchanged_31 { broken three (exchanging 31 three_ordered) ≡ Some (31, Quiet) }
    ensures left_out_23 { broken three (omitting 23 three_ordered) ≡ Some (24, Decide) }
    ensures exchanged_13 { broken three (exchanging 13 three_ordered) ≡ Some (13, Turn) }
    ensures exchanged_38 { broken three (exchanging 38 three_ordered) ≡ Some (38, Standing) }
    ensures exchanged_42 { broken three (exchanging 42 three_ordered) ≡ Some (42, Pages) }
    ensures left_out_39 { broken three (omitting 39 three_ordered) ≡ Some (39, Pages) }
{}

/// The same machine in another order.
pub fn three_scattered_is_broken()
    ensures left_out_49 { broken three (omitting 49 three_scattered) ≡ Some (49, Order) }
    ensures exchanged_49 { broken three (exchanging 49 three_scattered) ≡ Some (49, Order) }
    ensures exchanged_55 { broken three (exchanging 55 three_scattered) ≡ Some (55, Quiet) }
    ensures exchanged_11 { broken three (exchanging 11 three_scattered) ≡ Some (11, Turn) }
    ensures left_out_45 { broken three (omitting 45 three_scattered) ≡ Some (45, Blocks) }
    ensures exchanged_45 { broken three (exchanging 45 three_scattered) ≡ Some (45, Blocks) }
{}

/// The same machine in another order.
pub fn three_scattered_is_broken_too()
    ensures left_out_29 { broken three (omitting 29 three_scattered) ≡ Some (31, Order) }
    ensures exchanged_31 { broken three (exchanging 31 three_scattered) ≡ Some (31, Quiet) }
    ensures left_out_23 { broken three (omitting 23 three_scattered) ≡ Some (24, Decide) }
    ensures exchanged_38 { broken three (exchanging 38 three_scattered) ≡ Some (38, Standing) }
    ensures exchanged_42 { broken three (exchanging 42 three_scattered) ≡ Some (42, Pages) }
    ensures left_out_39 { broken three (omitting 39 three_scattered) ≡ Some (39, Pages) }
{}

/// Given up while the devices are in peer-to-peer states or on their way there.
pub fn three_given_up_is_broken()
    ensures exchanged_14 { broken three (exchanging 14 three_given_up) ≡ Some (14, Blocks) }
    ensures exchanged_31 { broken three (exchanging 31 three_given_up) ≡ Some (31, Turn) }
    ensures exchanged_11 { broken three (exchanging 11 three_given_up) ≡ Some (11, Pages) }
    ensures left_out_15 { broken three (omitting 15 three_given_up) ≡ Some (15, Decide) }
    ensures exchanged_15 { broken three (exchanging 15 three_given_up) ≡ Some (15, Decide) }
    ensures left_out_12 { broken three (omitting 12 three_given_up) ≡ Some (13, Blocks) }
{}

/// Given up while the devices are in peer-to-peer states or on their way there.
pub fn three_given_up_is_broken_too()
    ensures left_out_7 { broken three (omitting 7 three_given_up) ≡ Some (10, Pages) }
    ensures left_out_24 { broken three (omitting 24 three_given_up) ≡ Some (29, Barred) }
    ensures left_out_5 { broken three (omitting 5 three_given_up) ≡ Some (6, Decide) }
    ensures exchanged_21 { broken three (exchanging 21 three_given_up) ≡ Some (21, Path) }
    ensures exchanged_9 { broken three (exchanging 9 three_given_up) ≡ Some (9, Turn) }
    ensures put_21_hold { broken three (inserting 21 (Hold 1 Stop) three_given_up) ≡ Some (21, Quiet) }
{}

/// With a third arc of the second device that fails, and what follows.
pub fn duo_failing_run_is_broken()
    ensures left_out_17 { broken duo_failing (omitting 17 duo_failing_run) ≡ Some (17, Order) }
    ensures exchanged_17 { broken duo_failing (exchanging 17 duo_failing_run) ≡ Some (17, Order) }
    ensures exchanged_20 { broken duo_failing (exchanging 20 duo_failing_run) ≡ Some (20, Quiet) }
    ensures left_out_15 { broken duo_failing (omitting 15 duo_failing_run) ≡ Some (15, Path) }
    ensures left_out_9 { broken duo_failing (omitting 9 duo_failing_run) ≡ Some (10, Order) }
    ensures put_10_hold { broken duo_failing (inserting 10 (Hold 0 Stop) duo_failing_run) ≡ Some (10, Quiet) }
{}

/// With a third arc of the second device that fails, and what follows.
pub fn duo_failing_run_is_broken_too()
    ensures left_out_10 { broken duo_failing (omitting 10 duo_failing_run) ≡ Some (10, Quiet) }
    ensures exchanged_10 { broken duo_failing (exchanging 10 duo_failing_run) ≡ Some (10, Quiet) }
    ensures exchanged_21 { broken duo_failing (exchanging 21 duo_failing_run) ≡ Some (21, Barred) }
    ensures exchanged_18 { broken duo_failing (exchanging 18 duo_failing_run) ≡ Some (18, Path) }
    ensures exchanged_41 { broken duo_failing (exchanging 41 duo_failing_run) ≡ Some (41, Turn) }
    ensures exchanged_16 { broken duo_failing (exchanging 16 duo_failing_run) ≡ Some (17, Path) }
{}

/// The first arc into PRE_COPY fails, and what follows.
pub fn three_failing_run_is_broken()
    ensures exchanged_19 { broken three_failing (exchanging 19 three_failing_run) ≡ Some (19, Turn) }
    ensures exchanged_11 { broken three_failing (exchanging 11 three_failing_run) ≡ Some (11, Turn) }
    ensures left_out_11 { broken three_failing (omitting 11 three_failing_run) ≡ Some (11, Turn) }
    ensures put_1_joint { broken three_failing (inserting 1 Joint three_failing_run) ≡ Some (1, Standing) }
    ensures put_3_pass { broken three_failing (inserting 3 (Pass 1) three_failing_run) ≡ Some (3, Decide) }
    ensures put_1_resume { broken three_failing (inserting 1 Resume three_failing_run) ≡ Some (1, Standing) }
{}

/// The first arc into PRE_COPY fails, and what follows.
pub fn three_failing_run_is_broken_too()
    ensures left_out_19 { broken three_failing (omitting 19 three_failing_run) ≡ Some (19, Turn) }
    ensures put_1_copy { broken three_failing (inserting 1 (Copy 0) three_failing_run) ≡ Some (1, Pages) }
    ensures left_out_17 { broken three_failing (omitting 17 three_failing_run) ≡ Some (18, Turn) }
    ensures put_1_block { broken three_failing (inserting 1 (Block 1 0) three_failing_run) ≡ Some (1, Blocks) }
    ensures put_2_dry { broken three_failing (inserting 2 (Dry 0) three_failing_run) ≡ Some (2, Blocks) }
    ensures put_1_report { broken three_failing (inserting 1 (Report 1) three_failing_run) ≡ Some (1, Pages) }
{}

/// Each device and the coordinator in turn, then the destination.
pub fn mono_ordered_is_broken()
    ensures left_out_29 { broken mono (omitting 29 mono_ordered) ≡ Some (29, Order) }
    ensures exchanged_29 { broken mono (exchanging 29 mono_ordered) ≡ Some (29, Order) }
    ensures left_out_20 { broken mono (omitting 20 mono_ordered) ≡ Some (21, Quiet) }
    ensures left_out_2 { broken mono (omitting 2 mono_ordered) ≡ Some (2, Start) }
    ensures exchanged_2 { broken mono (exchanging 2 mono_ordered) ≡ Some (2, Start) }
    ensures left_out_27 { broken mono (omitting 27 mono_ordered) ≡ Some (27, Blocks) }
{}

/// Each device and the coordinator in turn, then the destination.
pub fn mono_ordered_is_broken_too()
    ensures exchanged_27 { broken mono (exchanging 27 mono_ordered) ≡ Some (27, Blocks) }
    ensures exchanged_1 { broken mono (exchanging 1 mono_ordered) ≡ Some (1, Turn) }
    ensures exchanged_26 { broken mono (exchanging 26 mono_ordered) ≡ Some (26, Pages) }
    ensures left_out_19 { broken mono (omitting 19 mono_ordered) ≡ Some (20, Order) }
    ensures left_out_15 { broken mono (omitting 15 mono_ordered) ≡ Some (16, Decide) }
    ensures left_out_3 { broken mono (omitting 3 mono_ordered) ≡ Some (3, Start) }
{}

/// The same machine in another order.
pub fn mono_scattered_is_broken()
    ensures left_out_29 { broken mono (omitting 29 mono_scattered) ≡ Some (29, Order) }
    ensures exchanged_29 { broken mono (exchanging 29 mono_scattered) ≡ Some (29, Order) }
    ensures put_21_arc { broken mono (inserting 21 (Arc 0 Stop) mono_scattered) ≡ Some (21, Quiet) }
    ensures left_out_21 { broken mono (omitting 21 mono_scattered) ≡ Some (21, Quiet) }
    ensures exchanged_21 { broken mono (exchanging 21 mono_scattered) ≡ Some (21, Quiet) }
    ensures left_out_2 { broken mono (omitting 2 mono_scattered) ≡ Some (2, Start) }
{}

/// The same machine in another order.
pub fn mono_scattered_is_broken_too()
    ensures exchanged_2 { broken mono (exchanging 2 mono_scattered) ≡ Some (2, Start) }
    ensures left_out_27 { broken mono (omitting 27 mono_scattered) ≡ Some (27, Blocks) }
    ensures exchanged_27 { broken mono (exchanging 27 mono_scattered) ≡ Some (27, Blocks) }
    ensures exchanged_18 { broken mono (exchanging 18 mono_scattered) ≡ Some (18, Turn) }
    ensures left_out_17 { broken mono (omitting 17 mono_scattered) ≡ Some (19, Order) }
    ensures left_out_14 { broken mono (omitting 14 mono_scattered) ≡ Some (14, Decide) }
{}
