//! How a move ends: by what the source heard, by what the destination heard of Go, or before there were links. Each law
//! is a function without a body whose contract states it.

ghost use Rattle.std.specs.Prelude.{◌≡◌, ℕ, ◌<◌, false, List, [], ◌∷◌, length, Option, None, Ok, Err};
ghost use Rattle.vfm_types.specs.declared.desc.Desc.{Desc};
ghost use Rattle.vfm_types.specs.declared.entry.Entry.{Entry};
ghost use Rattle.vfm_types.specs.declared.fault.LinkPlace.TheVariants.{Connect};
ghost use Rattle.vfm_types.specs.declared.fault.Refusal.{Refusal};
ghost use Rattle.vfm_types.specs.Machine.{Machine};
ghost use Rattle.vfm_types.specs.Valid.{IsValid};
ghost use Rattle.vfm_outside.specs.Links.{Told, ToldEnds};
ghost use Rattle.vfm_outside.specs.Told.{TellsNone, with_appended};
ghost use Rattle.vfm_plain.specs.Report.{Made, source_past};
ghost use Rattle.vfm_streams.specs.Verdict.{Refuses};
ghost use Rattle.vfm_handshake.specs.declared.fault.GoFault.TheVariants as going;
ghost use Rattle.vfm_handshake.specs.declared.fault.SettleFault.TheVariants as settling;
ghost use Rattle.vfm_status.specs.declared.status.Doubt.{Doubt};
ghost use Rattle.vfm_status.specs.declared.status.Doubt.TheVariants.{NoGo as NoGoCame, Other};
ghost use Rattle.vfm_status.specs.declared.status.Status.{Status};
ghost use Rattle.vfm_status.specs.declared.status.Status.TheVariants.{Differs, InDoubt, LinkFault, Moved, NoControl, NoMemory, Refused, Unconfirmed};
ghost use Rattle.vfm_move.specs.Contact.{Failed, Linked, Untouched, WhereTold};
ghost use Rattle.vfm_move.specs.Table.{GoSent, NoGo, WholeGo};
ghost use Rattle.vfm_move.specs.Carried.{HasSaidGo, verdict_of};
ghost use Rattle.vfm_move.specs.Causes.{Attempt, IsExplained, Received, StatesDiffer};
ghost use Rattle.vfm_move.specs.Move.{GoesOn, HasEnded, IsConfirmed, IsDecided, IsHalfway, IsMoveOf, IsUnheard, WiresDid, asked_by, came_to};
ghost use Rattle.vfm_move.specs.Answered.{BroughtJoint, BroughtLoaded, HasHeardGo, HasSettled, IsAnswered, GoesOver, SaidOfGo, gone_alone, taken_over, without_links};

/// What a new link has received after a call is what came in it; where that is less than a frame, and no end came,
/// nothing was heard.
pub fn new_links_receive()
    ensures received { (before : Option (List ℕ)) (link : Told) (bytes : List ℕ) → TellsNone before
        → link.received ≡ with_appended before bytes → Received link bytes }
    ensures cut_short { (before : Option (List ℕ)) (link : Told) (bytes : List ℕ) → TellsNone before
        → link.received ≡ with_appended before bytes → length bytes < 44 → link.ended ≡ false → IsUnheard link }
{}

/// The source heard that the destination refuses; or the destination refused what came, and the source heard its own
/// digest all the same.
pub fn refused()
    ensures heard { (attempt : Attempt) (made : Made) (ends : ToldEnds) (why : Refusal)
        → IsAnswered (Refused why) attempt made ends → HasSettled made ends (Err (settling.Refused why))
        → IsDecided attempt (Refused why) made ends }
    ensures unheeded { (attempt : Attempt) (made : Made) (ends : ToldEnds) (why : Refusal)
        → IsAnswered (Refused why) attempt made ends → HasSettled made ends (Ok tt)
        → WhereTold (Linked ends) (λ lines. verdict_of made lines ≡ Refuses why)
        → IsDecided attempt (Refused why) made ends }
{}

/// The source heard that the destination staged a state with another digest.
pub fn unconfirmed()
    ensures { (attempt : Attempt) (made : Made) (ends : ToldEnds) (ours theirs : List ℕ)
        → IsAnswered (Unconfirmed ours theirs) attempt made ends
        → HasSettled made ends (Err (settling.Unconfirmed ours theirs))
        → IsDecided attempt (Unconfirmed ours theirs) made ends }
{}

/// What the source heard is no answer.
pub fn no_control()
    ensures { (attempt : Attempt) (made : Made) (ends : ToldEnds) (heard : List ℕ)
        → IsAnswered (NoControl heard) attempt made ends → HasSettled made ends (Err (settling.NoControl heard))
        → IsDecided attempt (NoControl heard) made ends }
{}

/// The source heard its own digest, and another machine was staged.
pub fn differs()
    ensures { (attempt : Attempt) (made : Made) (ends : ToldEnds) → IsAnswered Differs attempt made ends
        → HasSettled made ends (Ok tt) → StatesDiffer made → WhereTold (Linked ends) (BroughtLoaded made)
        → IsDecided attempt Differs made ends }
{}

/// The source heard its own digest, and its own machine was staged.
pub fn confirmed()
    ensures { (status : Status) (attempt : Attempt) (made : Made) (ends : ToldEnds)
        → IsAnswered status attempt made ends → HasSettled made ends (Ok tt)
        → WhereTold (Linked ends) (BroughtJoint made) → IsConfirmed NoGo attempt made ends }
{}

/// A move stays confirmed while Go is said and heard.
pub fn go_was_said()
    ensures { (go : GoSent) (attempt : Attempt) (made : Made) (before now : ToldEnds) (said : List ℕ)
        → IsConfirmed NoGo attempt made before → SaidOfGo said before now → HasSaidGo go made said
        → IsConfirmed go attempt made now }
{}

/// Go was sent, and what the destination heard is none.
pub fn no_go()
    ensures { (attempt : Attempt) (made : Made) (ends : ToldEnds) (heard : List ℕ) → IsValid made.desc
        → IsConfirmed WholeGo attempt made ends → IsHalfway (InDoubt (NoGoCame heard)) made
        → HasHeardGo made ends (Err (going.NoGo heard))
        → IsDecided attempt (InDoubt (NoGoCame heard)) made ends }
{}

/// Go was sent, and the destination heard it for a state with another digest.
pub fn other_go()
    ensures { (attempt : Attempt) (made : Made) (ends : ToldEnds) (ours theirs : List ℕ)
        → IsConfirmed WholeGo attempt made ends → IsHalfway (InDoubt (Other ours theirs)) made
        → HasHeardGo made ends (Err (going.Other ours theirs))
        → IsDecided attempt (InDoubt (Other ours theirs)) made ends }
{}

/// Go was sent and heard, and the destination took the machine over and ran it to its end.
pub fn moved()
    ensures { (attempt : Attempt) (made : Made) (ends : ToldEnds) (more : List Entry) (final : Machine)
        → IsValid made.desc → IsConfirmed WholeGo attempt made ends → IsHalfway Moved made
        → HasHeardGo made ends (Ok tt) → GoesOver made.desc (source_past made) more final
        → HasEnded attempt Moved (taken_over made more final) ends }
{}

/// A move that is decided and leaves it in doubt who has the machine has ended: neither end runs.
pub fn in_doubt()
    ensures { (attempt : Attempt) (doubt : Doubt) (made : Made) (ends : ToldEnds) → IsValid made.desc
        → made.destination ≡ None → made.final ≡ None → IsDecided attempt (InDoubt doubt) made ends
        → HasEnded attempt (InDoubt doubt) made ends }
{}

/// A move that has ended over links is one, whatever these were.
pub fn ended_moves_are_moves()
    ensures move_of { (attempt : Attempt) (status : Status) (made : Made) (ends : ToldEnds) → IsValid made.desc
        → WiresDid (Linked ends) made.desc.channels attempt.before attempt.now
        → attempt.now.asked ≡ with_appended attempt.before.asked (asked_by (Linked ends) made.desc.channels)
        → HasEnded attempt status made ends → IsMoveOf attempt (came_to status made ends) made }
    ensures explained { (attempt : Attempt) (status : Status) (made : Made) (ends : ToldEnds)
        → HasEnded attempt status made ends → IsExplained attempt (came_to status made ends) }
{}

/// The wires failed, and gave no links: a source that had made nothing gave up and went on.
pub fn not_connected()
    ensures move_of { (attempt : Attempt) (D : Desc) (later : List Entry) (final : Machine) → IsValid D
        → WiresDid Failed D.channels attempt.before attempt.now
        → attempt.now.asked ≡ with_appended attempt.before.asked (asked_by Failed D.channels) → GoesOn D [] later final
        → IsMoveOf attempt (without_links (LinkFault Connect) (gone_alone D later final) Failed)
        (gone_alone D later final) }
    ensures explained { (attempt : Attempt) (D : Desc) (later : List Entry) (final : Machine)
        → WiresDid Failed D.channels attempt.before attempt.now → GoesOn D [] later final
        → IsExplained attempt (without_links (LinkFault Connect) (gone_alone D later final) Failed) }
{}

/// Memory was wanting before there were links: a source that had made nothing gave up and went on.
pub fn memory_was_wanting_for_links()
    ensures move_of { (attempt : Attempt) (D : Desc) (later : List Entry) (final : Machine) → IsValid D
        → WiresDid Untouched D.channels attempt.before attempt.now
        → attempt.now.asked ≡ with_appended attempt.before.asked (asked_by Untouched D.channels)
        → GoesOn D [] later final
        → IsMoveOf attempt (without_links NoMemory (gone_alone D later final) Untouched) (gone_alone D later final) }
    ensures explained { (attempt : Attempt) (D : Desc) (later : List Entry) (final : Machine)
        → IsExplained attempt (without_links NoMemory (gone_alone D later final) Untouched) }
{}
