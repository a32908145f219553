//! What the definitions say of every move. Each law is a function without a body whose contract states it.

ghost use Rattle.std.specs.Prelude.{◌≡◌, ◌⊎◌, ℕ, ◌<◌, true, List, [], Some, None, IsTrue, IsFalse, is_some};
ghost use Rattle.vfm_types.specs.declared.desc.Desc.{Desc};
ghost use Rattle.vfm_types.specs.declared.entry.Entry.{Entry};
ghost use Rattle.vfm_types.specs.Machine.{Machine};
ghost use Rattle.vfm_types.specs.Valid.{IsValid};
ghost use Rattle.vfm_outside.specs.Links.{ToldEnds};
ghost use Rattle.vfm_plain.specs.Report.{Made, source_past};
ghost use Rattle.vfm_status.specs.declared.status.Doubt.{Doubt};
ghost use Rattle.vfm_status.specs.declared.status.Status.{Status};
ghost use Rattle.vfm_status.specs.declared.status.Status.TheVariants.{Aborted, BadWords, InDoubt, Moved, NoMemory, Printed, ReadFault, WriteFault};
ghost use Rattle.vfm_move.specs.Contact.{AreTold, Contact, Failed, Line, Lines, Untouched, WhereTold, told_lines};
ghost use Rattle.vfm_move.specs.Table.{Front, HasParts, NoGo, TookOver, Neither, WentOn, Whole, FrontOfGo, WholeGo, channels_at, go_at, owner_at};
ghost use Rattle.vfm_move.specs.Carried.{HasSaidGo, HasSent};
ghost use Rattle.vfm_move.specs.Causes.{Attempt, Brings, HasCause, IsExplained, Story, YieldsTo, has_passed};
ghost use Rattle.vfm_move.specs.Complete.{BeginsSoundly, Delivers};
ghost use Rattle.vfm_move.specs.Move.{GoesOn, HasEnded, IsDecided, Stands, gone_on};

/// All that a channel is to send is a front of it, and so is nothing at all.
pub fn whole_is_a_front()
    ensures whole { (made : Made) (k : ℕ) (sent : List ℕ) → HasSent Whole made k sent → HasSent Front made k sent }
    ensures nothing { (made : Made) (k : ℕ) → HasSent Front made k [] }
    ensures go { (made : Made) (sent : List ℕ) → HasSaidGo WholeGo made sent → HasSaidGo FrontOfGo made sent }
{}

/// Where the wires weren't asked, or failed, there is nothing that links told.
pub fn no_links_tell_nothing()
    ensures untouched { AreTold Untouched → ⊥ }
    ensures failed { AreTold Failed → ⊥ }
{}

/// Links tell one thing alone.
pub fn links_tell_one_thing()
    ensures { (one other : Lines) → told_lines one ≡ told_lines other → one ≡ other }
{}

/// Go is said only where the source doesn't go on; and where it doesn't, every channel has sent all.
pub fn go_ends_the_source()
    ensures silent { (status : Status) → owner_at status ≡ WentOn → go_at status ≡ NoGo }
    ensures taken_over { (status : Status) → owner_at status ≡ TookOver → channels_at status ≡ Whole }
    ensures in_doubt { (status : Status) → owner_at status ≡ Neither → channels_at status ≡ Whole }
{}

/// Moved has the destination's journal and a state at the end; in doubt there is neither.
pub fn parts_tell_the_owner()
    ensures moved { (made : Made) → HasParts Moved made → (is_some made.destination ≡ true) × (is_some made.final ≡ true) }
    ensures in_doubt { (made : Made) (doubt : Doubt) → HasParts (InDoubt doubt) made → (made.destination ≡ None) × (made.final ≡ None) }
{}

/// Where the machine was moved, nothing brought another status.
pub fn moved_is_disputed_by_nothing()
    ensures { (attempt : Attempt) (story : Story) (brought : Status) → story.status ≡ Moved → IsExplained attempt story
        → Brings brought attempt story → ⊥ }
{}

/// A source gives up after a pass only where it was asked to, after that pass.
pub fn given_up_as_asked()
    ensures asked { (attempt : Attempt) (story : Story) (pass : ℕ) → HasCause (Aborted pass) attempt story → attempt.abort_after ≡ pass }
    ensures some { (attempt : Attempt) (story : Story) (pass : ℕ) → HasCause (Aborted pass) attempt story → 0 < pass }
{}

/// The statuses of other words are none of a move.
pub fn other_statuses_are_none_of_a_move()
    ensures printed { (attempt : Attempt) (story : Story) → HasCause Printed attempt story → ⊥ }
    ensures bad_words { (attempt : Attempt) (story : Story) → HasCause BadWords attempt story → ⊥ }
    ensures read_fault { (attempt : Attempt) (story : Story) → HasCause ReadFault attempt story → ⊥ }
    ensures write_fault { (attempt : Attempt) (story : Story) → HasCause WriteFault attempt story → ⊥ }
{}

/// Every status yields to want of memory, and none to a machine that was moved.
pub fn every_status_yields_to_want_of_memory()
    ensures memory { (brought : Status) → YieldsTo brought NoMemory }
    ensures moved { (brought : Status) → YieldsTo brought Moved → ⊥ }
{}

/// A source that has made nothing stands, and no pass of it has ended.
pub fn a_fresh_source_stands()
    ensures stands { (D : Desc) → Stands D [] }
    ensures no_pass { (D : Desc) (n : ℕ) → 0 < n → IsFalse (has_passed D n []) }
{}

/// A control link from which nothing was read delivers all that the other one sends, as long as it hasn't ended.
pub fn unread_links_deliver()
    ensures { (sender receiver : Line) → receiver.received ≡ [] → IsFalse receiver.ended → Delivers sender receiver }
{}

/// A move that is decided while its source is to go on has ended once that has given up and run until every device is
/// `RUNNING` and idle: what was its cause is still so, and so is what the links carried.
pub fn decided_moves_end()
    ensures { (attempt : Attempt) (status : Status) (made : Made) (ends : ToldEnds) (later : List Entry) (final : Machine)
        → IsValid made.desc → owner_at status ≡ WentOn → IsDecided attempt status made ends
        → GoesOn made.desc (source_past made) later final → HasEnded attempt status (gone_on made later final) ends }
{}
