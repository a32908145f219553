//! Laws of the pair over every list of events, the newest first: whatever is lost, doubled or late, and wherever either
//! end stops. Each is a function that does nothing: its clause holds of every list.

ghost use Rattle.std.specs.Prelude.{◌≡◌, ℕ, List, [], ◌∷◌, ◌++◌, Option, Some, IsTrue, IsFalse};
ghost use Rattle.vfm_control.specs.declared.ends.SourceEnd.TheVariants as source;
ghost use Rattle.vfm_control.specs.declared.ends.DestEnd.TheVariants as dest;
ghost use Rattle.vfm_control.specs.declared.ends.Answer.{Answer};
ghost use Rattle.vfm_control.specs.declared.ends.Answer.TheVariants as answers;
ghost use Rattle.vfm_control.specs.declared.ends.PairEvent.{PairEvent};
ghost use Rattle.vfm_control.specs.declared.ends.PairEvent.TheVariants.{Stage, DeliverAnswer, DeliverGo, SendGo, GiveUp};
ghost use Rattle.vfm_control.specs.Pair.{PairState, pair_start, can_happen, pair_step, pair_after, HasHappened, SourceRuns, DestRuns, undisturbed_events};

/// A list of events leads where its newest event leads from where the rest did, and an event whose need is false leads
/// nowhere.
pub fn one_more_event()
    ensures first { (own : List ℕ) → pair_after own [] ≡ pair_start own }
    ensures step { (own : List ℕ) (past : List PairEvent) (event : PairEvent)
        → pair_after own (event ∷ past) ≡ pair_step (pair_after own past) event }
    ensures refused { (p : PairState) (event : PairEvent) → IsFalse (can_happen p event)
        → pair_step p event ≡ p }
{}

/// The source never runs again where the destination runs: not at one time, and not one after the other.
pub fn never_both_run()
    ensures together { (own : List ℕ) (events : List PairEvent) (digest : List ℕ)
        → SourceRuns own events → DestRuns own events digest → ⊥ }
    // once the source has given up, the destination never runs
    ensures after_resume { (own : List ℕ) (later earlier : List PairEvent) (digest : List ℕ)
        → SourceRuns own earlier → DestRuns own (later ++ earlier) digest → ⊥ }
    // once the destination has run, the source never gives up
    ensures after_run { (own : List ℕ) (later earlier : List PairEvent) (digest : List ℕ)
        → DestRuns own earlier digest → SourceRuns own (later ++ earlier) → ⊥ }
{}

/// A destination that runs staged that very digest, which is the source's own, and got Go from the source.
pub fn running_was_confirmed()
    ensures own { (own : List ℕ) (events : List PairEvent) (digest : List ℕ)
        → DestRuns own events digest → digest ≡ own }
    ensures staged { (own : List ℕ) (events : List PairEvent) (digest : List ℕ)
        → DestRuns own events digest → HasHappened own (Stage digest) events }
    ensures sent { (own : List ℕ) (events : List PairEvent) (digest : List ℕ)
        → DestRuns own events digest → HasHappened own SendGo events }
    ensures go { (own : List ℕ) (events : List PairEvent) (digest : List ℕ)
        → DestRuns own events digest → (pair_after own events).go ≡ Some own }
    ensures delivered { (own : List ℕ) (events : List PairEvent) (digest : List ℕ)
        → DestRuns own events digest → HasHappened own DeliverGo events }
{}

/// The source can send Go only where the destination has staged the source's own digest, and its answer was heard.
pub fn go_was_confirmed()
    ensures staged { (own : List ℕ) (events : List PairEvent)
        → IsTrue (can_happen (pair_after own events) SendGo) → HasHappened own (Stage own) events }
    ensures heard { (own : List ℕ) (events : List PairEvent)
        → IsTrue (can_happen (pair_after own events) SendGo) → HasHappened own DeliverAnswer events }
{}

/// Once the source has sent Go it never runs again, whatever becomes of the frame.
pub fn go_is_final()
    ensures never { (own : List ℕ) (events : List PairEvent) → HasHappened own SendGo events
        → SourceRuns own events → ⊥ }
    ensures refused { (own : List ℕ) (events : List PairEvent) → HasHappened own SendGo events
        → IsFalse (can_happen (pair_after own events) GiveUp) }
    ensures digest { (own : List ℕ) (events : List PairEvent) → HasHappened own SendGo events
        → (pair_after own events).go ≡ Some own }
{}

/// A frame that was sent stays the frame that was sent: a destination answers once, and a source sends one Go.
pub fn sent_frames_stay()
    ensures answer { (own : List ℕ) (later earlier : List PairEvent) (answer : Answer)
        → (pair_after own earlier).answer ≡ Some answer
        → (pair_after own (later ++ earlier)).answer ≡ Some answer }
    ensures go { (own : List ℕ) (later earlier : List PairEvent) (digest : List ℕ)
        → (pair_after own earlier).go ≡ Some digest → (pair_after own (later ++ earlier)).go ≡ Some digest }
{}

/// A frame that is delivered twice does what it does once.
pub fn doubled_frames_do_nothing()
    ensures answer { (p : PairState)
        → pair_step (pair_step p DeliverAnswer) DeliverAnswer ≡ pair_step p DeliverAnswer }
    ensures go { (p : PairState) → pair_step (pair_step p DeliverGo) DeliverGo ≡ pair_step p DeliverGo }
{}

/// The digest that a source has is always the one that it began with, and a staged destination has answered its own.
pub fn ends_keep_their_digests()
    ensures offered { (own : List ℕ) (events : List PairEvent) (digest : List ℕ)
        → (pair_after own events).source ≡ source.Offered digest → digest ≡ own }
    ensures heard { (own : List ℕ) (events : List PairEvent) (digest : List ℕ)
        → (pair_after own events).source ≡ source.Heard digest → digest ≡ own }
    ensures go_sent { (own : List ℕ) (events : List PairEvent) (digest : List ℕ)
        → (pair_after own events).source ≡ source.GoSent digest → digest ≡ own }
    ensures staged { (own : List ℕ) (events : List PairEvent) (digest : List ℕ)
        → (pair_after own events).dest ≡ dest.Staged digest
        → (pair_after own events).answer ≡ Some (answers.Staged digest) }
{}

/// Where the destination stages the source's own digest and each frame arrives, the destination runs.
pub fn undisturbed_pair_moves()
    ensures source { (own : List ℕ) → (pair_after own (undisturbed_events own)).source ≡ source.GoSent own }
    ensures dest { (own : List ℕ) → DestRuns own (undisturbed_events own) own }
{}
