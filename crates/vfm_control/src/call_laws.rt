//! What the calls of the real ends are in the machine of the pair. Each law is a function that does nothing, and holds of
//! every state of a pair, so of each that a list of events leads to.
//!
//! A real end sees only its own state and the bytes that it reads. The laws say which event of the pair its call is,
//! given that these bytes were sent by the other end: a control link that invents frames is no pair. A call that answers
//! that its link failed, or that the link ended first, has delivered nothing and is no event of the end that reads; the
//! one that sends has sent, and its frame is lost.

ghost use Rattle.std.specs.Prelude.{◌≡◌, ◌≢◌, ℕ, List, Some};
ghost use Rattle.vfm_types.specs.declared.fault.Refusal.{Refusal};
ghost use Rattle.vfm_control.specs.declared.frame.Frame.TheVariants as frames;
ghost use Rattle.vfm_control.specs.declared.ends.SourceEnd.TheVariants as source;
ghost use Rattle.vfm_control.specs.declared.ends.DestEnd.TheVariants as dest;
ghost use Rattle.vfm_control.specs.declared.ends.Answer.TheVariants as answers;
ghost use Rattle.vfm_control.specs.declared.ends.PairEvent.TheVariants.{Stage, Refuse, DeliverAnswer, DeliverGo, SendGo, GiveUp};
ghost use Rattle.vfm_control.specs.Frame.{frame_at};
ghost use Rattle.vfm_control.specs.Pair.{PairState};
ghost use Rattle.vfm_control.specs.Calls.{answer_frame, IsAnswerOf, IsGoOf, LeadsTo};

/// What was sent is what is read: of the bytes of an answer its frame, and of the bytes of a Go that Go.
pub fn sent_frame_is_read()
    ensures answer { (p : PairState) (session : ℕ) (bytes : List ℕ) (is : IsAnswerOf p session bytes)
        → frame_at session bytes ≡ Some (answer_frame session is.answer) }
    ensures go { (p : PairState) (session : ℕ) (bytes : List ℕ) (is : IsGoOf p session bytes)
        → frame_at session bytes ≡ Some (frames.Go session is.digest) }
{}

/// The source's `settle` reads the destination's answer: it is DeliverAnswer. At its own digest it leads to Heard, and a
/// call that answers another digest or a refusal changes nothing.
pub fn settle_is_deliver_answer()
    ensures ok { (p : PairState) (session : ℕ) (own bytes : List ℕ) → p.source ≡ source.Offered own
        → IsAnswerOf p session bytes → frame_at session bytes ≡ Some (frames.Staged session own)
        → LeadsTo p DeliverAnswer (record p { source = source.Heard own }) }
    ensures unconfirmed { (p : PairState) (session : ℕ) (own theirs bytes : List ℕ)
        → p.source ≡ source.Offered own → theirs ≢ own
        → IsAnswerOf p session bytes → frame_at session bytes ≡ Some (frames.Staged session theirs)
        → LeadsTo p DeliverAnswer p }
    ensures refused { (p : PairState) (session : ℕ) (own bytes : List ℕ) (refusal : Refusal)
        → p.source ≡ source.Offered own → IsAnswerOf p session bytes
        → frame_at session bytes ≡ Some (frames.Refused session refusal)
        → LeadsTo p DeliverAnswer p }
{}

/// The source's `go`, after an Ok of `settle`, is SendGo, also where it answers that its link failed.
pub fn go_is_send_go()
    ensures { (p : PairState) (own : List ℕ) → p.source ≡ source.Heard own
        → LeadsTo p SendGo (record p { source = source.GoSent own; go = Some own }) }
{}

/// The source's `give_up`, at any time before `go`, is GiveUp.
pub fn give_up_is_give_up()
    ensures offered { (p : PairState) (own : List ℕ) → p.source ≡ source.Offered own
        → LeadsTo p GiveUp (record p { source = source.Resumed }) }
    ensures heard { (p : PairState) (own : List ℕ) → p.source ≡ source.Heard own
        → LeadsTo p GiveUp (record p { source = source.Resumed }) }
{}

/// The destination's `answer` is Stage with the digest that it staged, or Refuse, also where it answers that its link
/// failed.
pub fn answer_is_stage_or_refuse()
    ensures staged { (p : PairState) (digest : List ℕ) → p.dest ≡ dest.Staging
        → LeadsTo p (Stage digest)
        (record p { dest = dest.Staged digest; answer = Some (answers.Staged digest) }) }
    ensures refused { (p : PairState) (refusal : Refusal) → p.dest ≡ dest.Staging
        → LeadsTo p (Refuse refusal)
        (record p { dest = dest.Refused refusal; answer = Some (answers.Refused refusal) }) }
{}

/// The destination's `finish` reads the source's Go: it is DeliverGo. At the digest that was staged it leads to Running,
/// and a call that answers another digest changes nothing.
pub fn finish_is_deliver_go()
    ensures ok { (p : PairState) (session : ℕ) (digest bytes : List ℕ) → p.dest ≡ dest.Staged digest
        → IsGoOf p session bytes → frame_at session bytes ≡ Some (frames.Go session digest)
        → LeadsTo p DeliverGo (record p { dest = dest.Running digest }) }
    ensures other { (p : PairState) (session : ℕ) (digest theirs bytes : List ℕ)
        → p.dest ≡ dest.Staged digest → theirs ≢ digest
        → IsGoOf p session bytes → frame_at session bytes ≡ Some (frames.Go session theirs)
        → LeadsTo p DeliverGo p }
{}
