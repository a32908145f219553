//! Steps of a move that fail: each is decided by its cause alone. Each law is a function without a body whose contract states it.

ghost use Rattle.std.specs.Prelude.{◌≡◌, ℕ, Contains};
ghost use Rattle.vfm_outside.specs.Counts.{Rose};
ghost use Rattle.vfm_outside.specs.Links.{ToldEnds};
ghost use Rattle.vfm_plain.specs.Report.{Made, source_past};
ghost use Rattle.vfm_types.specs.declared.entry.Entry.TheVariants.{Fail};
ghost use Rattle.vfm_types.specs.declared.state.MigState.{MigState};
ghost use Rattle.vfm_types.specs.Valid.{IsValid};
ghost use Rattle.vfm_types.specs.declared.fault.LinkPlace.TheVariants.{Control, Destination, Source};
ghost use Rattle.vfm_status.specs.declared.status.Status.TheVariants.{Aborted, ArcFailed, InDoubt, LinkFault, NoMemory};
ghost use Rattle.vfm_status.specs.declared.status.Doubt.TheVariants.{Read, Send};
ghost use Rattle.vfm_move.specs.Contact.{Linked, WhereTold};
ghost use Rattle.vfm_move.specs.Table.{FrontOfGo, WholeGo};
ghost use Rattle.vfm_move.specs.Carried.{HasAnswered};
ghost use Rattle.vfm_move.specs.Causes.{Attempt, FailedIn, FailedOut, IsAbortDue};
ghost use Rattle.vfm_move.specs.Move.{IsConfirmed, IsDecided, IsHalfway, IsUnanswered, IsUnheard, IsUnhindered, NoArcFailed};

/// An arc failed, and no pass has ended after which the source is to give up.
pub fn arc_failed()
    ensures { (attempt : Attempt) (made : Made) (ends : ToldEnds) (d : ℕ) (to : MigState) → IsValid made.desc
        → IsUnanswered (ArcFailed d to) made ends → Contains (source_past made) (Fail d to)
        → ((pass : ℕ) → IsAbortDue attempt pass made → ⊥) → IsDecided attempt (ArcFailed d to) made ends }
{}

/// A channel of the source failed, and no arc did: that is the status, even where a pass has ended after which the source is
/// to give up.
pub fn source_link_failed()
    ensures { (attempt : Attempt) (made : Made) (ends : ToldEnds) (k : ℕ) → IsUnanswered (LinkFault (Source k)) made ends
        → NoArcFailed made → FailedOut ends.source k → IsDecided attempt (LinkFault (Source k)) made ends }
{}

/// The pass has ended after which the source is to give up, and no arc failed.
pub fn abort_was_due()
    ensures { (attempt : Attempt) (made : Made) (ends : ToldEnds) (pass : ℕ) → IsUnanswered (Aborted pass) made ends
        → NoArcFailed made → IsAbortDue attempt pass made → IsDecided attempt (Aborted pass) made ends }
{}

/// All was sent, and a channel of the destination failed.
pub fn destination_link_failed()
    ensures { (attempt : Attempt) (made : Made) (ends : ToldEnds) (k : ℕ) → IsUnanswered (LinkFault (Destination k)) made ends
        → IsUnhindered attempt made → FailedIn ends.dest k → IsDecided attempt (LinkFault (Destination k)) made ends }
{}

/// All was sent, and the destination's answer failed to be sent.
pub fn answer_link_failed()
    ensures { (attempt : Attempt) (made : Made) (ends : ToldEnds) → IsUnanswered (LinkFault Control) made ends
        → IsUnhindered attempt made → Rose 0 ends.dest_control.failed_out → ends.source_control.failed_in ≡ 0
        → IsDecided attempt (LinkFault Control) made ends }
{}

/// The destination answered, and the source's control link failed before the whole answer came.
pub fn answer_wasnt_heard()
    ensures { (attempt : Attempt) (made : Made) (ends : ToldEnds) → IsUnanswered (LinkFault Control) made ends
        → IsUnhindered attempt made → Rose 0 ends.source_control.failed_in → WhereTold (Linked ends) (HasAnswered made)
        → IsDecided attempt (LinkFault Control) made ends }
{}

/// Memory was wanting at either end.
pub fn memory_was_wanting()
    ensures { (attempt : Attempt) (made : Made) (ends : ToldEnds) → IsUnanswered NoMemory made ends → IsDecided attempt NoMemory made ends }
{}

/// The destination confirmed the source's own state, and Go failed to be sent: a front of it was.
pub fn go_wasnt_sent()
    ensures { (attempt : Attempt) (made : Made) (ends : ToldEnds) → IsConfirmed FrontOfGo attempt made ends
        → IsHalfway (InDoubt Send) made → IsUnheard ends.dest_control → Rose 0 ends.source_control.failed_out
        → IsDecided attempt (InDoubt Send) made ends }
{}

/// Go was sent, and the destination's control link failed before all of it came.
pub fn go_wasnt_read()
    ensures { (attempt : Attempt) (made : Made) (ends : ToldEnds) → IsConfirmed WholeGo attempt made ends
        → IsHalfway (InDoubt Read) made → IsUnheard ends.dest_control → Rose 0 ends.dest_control.failed_in
        → IsDecided attempt (InDoubt Read) made ends }
{}
