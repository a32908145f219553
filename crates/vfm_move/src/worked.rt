//! Worked cases of the definitions, each checked by computation: the device with one write, moved, failing and in doubt.

ghost use Rattle.std.specs.Prelude.{◌≡◌, ◌++◌, ◌∷◌, [], codes, reverse, IsTrue, IsFalse, true, false};
ghost use Rattle.vfm_types.specs.declared.state.MigState.TheVariants.{Stop};
ghost use Rattle.vfm_types.specs.declared.fault.LinkPlace.TheVariants.{Connect, Source, Destination, Control};
ghost use Rattle.vfm_status.specs.declared.status.Doubt.TheVariants.{Send, Read};
ghost use Rattle.vfm_status.specs.declared.status.Status.TheVariants.{Moved, InDoubt, LinkFault, Differs, ArcFailed, Aborted};
ghost use Rattle.vfm_status.specs.StatusText.{status_line};
ghost use Rattle.vfm_plain.specs.Report.{past};
ghost use Rattle.vfm_plain.specs.Ended.{has_ended, is_last_ended, went_on};
ghost use Rattle.vfm_move.specs.Table.{TookOver, Neither, WentOn, owner_at, HasParts, Whole, Front, channels_at, WholeGo, FrontOfGo, NoGo, go_at, DigestAndGo, Digest, heard_at, HasAnswer, HasAnswerIfUnheard, MaybeNot, answering_at};
ghost use Rattle.vfm_move.specs.Causes.{has_passed};
ghost use Rattle.vfm_move.specs.Complete.{arcs_to_stop};
ghost use Rattle.vfm_move.specs.Worked.{one, one_aborted, one_device, one_failed, one_given_up, one_in_doubt, one_moved, one_source, one_unconnected};

/// Moved: the destination took the machine over; its report has the state at the joint stop, the destination's journal and the
/// state at the end, and every link has carried all that it is to carry.
pub fn moved()
    ensures owner { owner_at Moved ≡ TookOver }
    ensures parts { HasParts Moved one_moved }
    ensures channels { channels_at Moved ≡ Whole }
    ensures go { go_at Moved ≡ WholeGo }
    ensures heard { heard_at Moved ≡ DigestAndGo }
    ensures answering { answering_at Moved ≡ HasAnswer }
    ensures line { status_line Moved ≡ codes "status moved" ++ 10 ∷ [] }
{}

/// An arc that failed before anything was copied: the source went on, and its report has the state at the end alone.
pub fn arc_failed()
    ensures owner { owner_at (ArcFailed 0 Stop) ≡ WentOn }
    ensures parts { HasParts (ArcFailed 0 Stop) one_failed }
    ensures channels { channels_at (ArcFailed 0 Stop) ≡ Front }
    ensures go { go_at (ArcFailed 0 Stop) ≡ NoGo }
    ensures answering { answering_at (ArcFailed 0 Stop) ≡ MaybeNot }
    ensures line { status_line (ArcFailed 0 Stop) ≡ codes "status arc-failed 0 STOP" ++ 10 ∷ [] }
{}

/// Given up behind the last pass, for a control link that failed: both states are printed, all was sent, and nothing was said
/// of Go.
pub fn given_up()
    ensures owner { owner_at (LinkFault Control) ≡ WentOn }
    ensures parts { HasParts (LinkFault Control) one_given_up }
    ensures channels { channels_at (LinkFault Control) ≡ Whole }
    ensures go { go_at (LinkFault Control) ≡ NoGo }
    ensures answering { answering_at (LinkFault Control) ≡ HasAnswerIfUnheard }
    ensures line { status_line (LinkFault Control) ≡ codes "status link-fault control" ++ 10 ∷ [] }
{}

/// In doubt, where Go failed to be sent: neither end runs, so no state at the end is printed; a front of Go was sent.
pub fn in_doubt()
    ensures owner { owner_at (InDoubt Send) ≡ Neither }
    ensures parts { HasParts (InDoubt Send) one_in_doubt }
    ensures channels { channels_at (InDoubt Send) ≡ Whole }
    ensures sending { go_at (InDoubt Send) ≡ FrontOfGo }
    ensures reading { go_at (InDoubt Read) ≡ WholeGo }
    ensures heard { heard_at (InDoubt Send) ≡ Digest }
    ensures answering { answering_at (InDoubt Send) ≡ HasAnswer }
    ensures line { status_line (InDoubt Send) ≡ codes "status in-doubt send" ++ 10 ∷ [] }
{}

/// A channel of the source that failed has sent a front of its share; one of the destination has been sent all of it.
pub fn channels_that_failed()
    ensures source { channels_at (LinkFault (Source 3)) ≡ Front }
    ensures destination { channels_at (LinkFault (Destination 3)) ≡ Whole }
    ensures unread { answering_at (LinkFault (Destination 3)) ≡ MaybeNot }
    ensures unconnected { channels_at (LinkFault Connect) ≡ Front }
{}

/// The worked journals: where the last pass has ended, who ran to the end, and which passes have ended.
pub fn journals()
    ensures copied { IsTrue (is_last_ended one (reverse one_source)) }
    ensures given_up { IsTrue (went_on one (reverse one_aborted)) }
    ensures unconnected { IsTrue (went_on one (reverse one_unconnected)) }
    ensures taken_over { IsTrue (has_ended one (past one_moved)) }
    ensures first { IsTrue (has_passed one 1 (reverse one_source)) }
    ensures no_second { IsFalse (has_passed one 2 (reverse one_source)) }
{}

/// A device with no peer-to-peer states takes two arcs to STOP_COPY.
pub fn arcs()
    ensures { arcs_to_stop one_device ≡ 2 }
{}

/// A report that isn't one: in doubt with a state at the end, moved without the destination's journal, and an arc that failed
/// with a loaded state.
pub fn other_parts_are_refused()
    ensures in_doubt { HasParts (InDoubt Send) one_given_up → ⊥ }
    ensures moved { HasParts Moved one_given_up → ⊥ }
    ensures given_up { HasParts (LinkFault Control) one_moved → ⊥ }
    ensures differs { HasParts Differs one_given_up → ⊥ }
{}
