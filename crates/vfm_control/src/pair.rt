//! The machine of both ends.

ghost use Rattle.std.specs.Prelude.{◌≡◌, ◌↔◌, ℕ, List, [], ◌∷◌, Some, IsErr, IsFalse, OnErr, OnOk};
ghost use Rattle.vfm_control.specs.declared.ends.PairEvent.{PairEvent};
ghost use Rattle.vfm_control.specs.Pair.{pair_start, is_staging, can_happen, pair_step, pair_after, source_hears, dest_hears};

use crate::ends::{Answer, DestEnd, NotNow, PairEvent, SourceEnd};
use std::marker::Model;

/// Both ends of a handshake and the frames that they have sent: the destination's answer and the source's Go, each of
/// which may be delivered never, once or often, and late.
#[derive(Debug, Drop)]
pub struct Pair {
    source: SourceEnd,
    dest: DestEnd,
    answer: Option<Answer>,
    go: Option<[u8; 32]>,
}

impl Model for Pair {
    ghost use Rattle.vfm_control.specs.Pair.{PairState};

    ghost Value = { PairState };

    ghost view = { λ p. record { source = p.source; dest = p.dest; answer = p.answer; go = p.go } };
}

impl Pair {
    /// A source that has offered a state with this digest, a destination that stages, and no frame sent.
    #[tactic(auto, unfolding(crate::specs::Pair::pair_after))]
    pub fn of(digest: [u8; 32]) -> Pair
        ensures start { result ≡ pair_start digest }
        // where no event leads
        ensures after { result ≡ pair_after digest [] }
    {
        Pair {
            source: SourceEnd::Offered(digest),
            dest: DestEnd::Staging,
            answer: None,
            go: None,
        }
    }

    /// Where the source stands.
    pub fn source(&self) -> SourceEnd
        ensures { result ≡ self.now.source }
    {
        self.source
    }

    /// Where the destination stands.
    pub fn dest(&self) -> DestEnd
        ensures { result ≡ self.now.dest }
    {
        self.dest
    }

    /// The answer that the destination has sent, if it has.
    pub fn answer(&self) -> Option<Answer>
        ensures { result ≡ self.now.answer }
    {
        self.answer
    }

    /// The digest with which the source has sent Go, if it has.
    pub fn go(&self) -> Option<[u8; 32]>
        ensures { result ≡ self.now.go }
    {
        self.go
    }

    /// Makes the event happen. `NotNow` exactly where its need is false, and then nothing changes.
    pub fn step(&mut self, e: PairEvent) -> Result<(), NotNow>
        ensures refused { IsErr result ↔ IsFalse (can_happen self.old e) }
        ensures unchanged { OnErr result (self.new ≡ self.old) }
        ensures step { self.new ≡ pair_step self.old e }
        // where the pair stands after any list of events, it then stands after that list and this one
        ensures after { (own : List ℕ) (past : List PairEvent) → self.old ≡ pair_after own past
            → self.new ≡ pair_after own (e ∷ past) }
    {
        self.make(e)
    }

    // The event by its kind.
    fn make(&mut self, e: PairEvent) -> Result<(), NotNow>
        ensures refused { IsErr result ↔ IsFalse (can_happen self.old e) }
        ensures unchanged { OnErr result (self.new ≡ self.old) }
        ensures step { self.new ≡ pair_step self.old e }
    {
        match e {
            PairEvent::Stage(digest) => {
                self.send_answer(DestEnd::Staged(digest), Answer::Staged(digest))
            }
            PairEvent::Refuse(refusal) => {
                self.send_answer(DestEnd::Refused(refusal), Answer::Refused(refusal))
            }
            PairEvent::DeliverAnswer => self.deliver_answer(),
            PairEvent::DeliverGo => self.deliver_go(),
            PairEvent::SendGo => self.send_go(),
            PairEvent::GiveUp => self.give_up(),
            PairEvent::StopSource => {
                self.source = SourceEnd::Stopped;
                Ok(())
            }
            PairEvent::StopDest => {
                self.dest = DestEnd::Stopped;
                Ok(())
            }
        }
    }

    // The destination comes to a state with an answer, which it sends, if it hasn't answered.
    fn send_answer(&mut self, dest: DestEnd, answer: Answer) -> Result<(), NotNow>
        ensures refused { IsErr result ↔ IsFalse (is_staging self.old.dest) }
        ensures unchanged { OnErr result (self.new ≡ self.old) }
        ensures sent { OnOk result (self.new ≡ record self.old { dest = dest; answer = Some answer }) }
    {
        if !matches!(self.dest, DestEnd::Staging) {
            return Err(NotNow);
        }
        self.dest = dest;
        self.answer = Some(answer);
        Ok(())
    }

    // The answer reaches the source, if one was sent.
    fn deliver_answer(&mut self) -> Result<(), NotNow>
        ensures refused { IsErr result ↔ IsFalse (can_happen self.old PairEvent.DeliverAnswer) }
        ensures unchanged { OnErr result (self.new ≡ self.old) }
        ensures step { self.new ≡ pair_step self.old PairEvent.DeliverAnswer }
    {
        match self.answer {
            Some(answer) => {
                self.source = source_hears(self.source, answer);
                Ok(())
            }
            None => Err(NotNow),
        }
    }

    // Go reaches the destination, if it was sent.
    fn deliver_go(&mut self) -> Result<(), NotNow>
        ensures refused { IsErr result ↔ IsFalse (can_happen self.old PairEvent.DeliverGo) }
        ensures unchanged { OnErr result (self.new ≡ self.old) }
        ensures step { self.new ≡ pair_step self.old PairEvent.DeliverGo }
    {
        match self.go {
            Some(go) => {
                self.dest = dest_hears(self.dest, go);
                Ok(())
            }
            None => Err(NotNow),
        }
    }

    // The source sends Go, if it has heard its own digest.
    fn send_go(&mut self) -> Result<(), NotNow>
        ensures refused { IsErr result ↔ IsFalse (can_happen self.old PairEvent.SendGo) }
        ensures unchanged { OnErr result (self.new ≡ self.old) }
        ensures step { self.new ≡ pair_step self.old PairEvent.SendGo }
    {
        match self.source {
            SourceEnd::Heard(own) => {
                self.source = SourceEnd::GoSent(own);
                self.go = Some(own);
                Ok(())
            }
            _ => Err(NotNow),
        }
    }

    // The source runs again, if it hasn't sent Go.
    fn give_up(&mut self) -> Result<(), NotNow>
        ensures refused { IsErr result ↔ IsFalse (can_happen self.old PairEvent.GiveUp) }
        ensures unchanged { OnErr result (self.new ≡ self.old) }
        ensures step { self.new ≡ pair_step self.old PairEvent.GiveUp }
    {
        match self.source {
            SourceEnd::Offered(_) | SourceEnd::Heard(_) => {
                self.source = SourceEnd::Resumed;
                Ok(())
            }
            _ => Err(NotNow),
        }
    }
}

// Where an answer leads the source: one that has offered a state hears its own digest, and nothing else moves it.
fn source_hears(source: SourceEnd, answer: Answer) -> SourceEnd
    ensures { result ≡ source_hears source (Some answer) }
{
    match (source, answer) {
        (SourceEnd::Offered(own), Answer::Staged(digest)) if digest == own => SourceEnd::Heard(own),
        _ => source,
    }
}

// Where Go leads the destination: one that has staged the very digest runs, and nothing else moves it.
fn dest_hears(dest: DestEnd, go: [u8; 32]) -> DestEnd
    ensures { result ≡ dest_hears dest (Some go) }
{
    match dest {
        DestEnd::Staged(digest) if go == digest => DestEnd::Running(digest),
        _ => dest,
    }
}
