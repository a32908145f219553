//! A link over two rings in memory, one for each direction.

ghost use Rattle.std.specs.Prelude.{◌≡◌, ◌+◌, ◌<◌, ◌≤◌, ◌⊎◌, ◌||◌, ◌==◌, ◌↔◌, ◌∷◌, [], ◌++◌, true, false, Ok, Some, IfOk, OnOk, OnErr, IsErr, IsTrue, is_ok, length, take};
ghost use Rattle.rtrb.specs.Ring.{sent, received, known_free, known_items, SameProducer, SameConsumer};
ghost use Rattle.vfm_outside.specs.declared.piece.Piece.{Piece};
ghost use Rattle.vfm_outside.specs.Counts.{CountsFaults, counted};
ghost use Rattle.vfm_outside.specs.Told.{Takes, Receives};
ghost use Rattle.vfm_outside.specs.Links.{ended_after, IsNew};
ghost use Rattle.vfm_outside.specs.Pieces.{pieces_bytes, WentIn};
ghost use Rattle.vfm_outside.specs.Rings.{came, HasPiece, IsAtEnd};
ghost use Rattle.vfm_outside.specs.RingEnds.{ring_told, IsSameRings};
ghost use Rattle.vfm_outside.specs.Script.{new_plan, is_failing, after_call, after_moving};

use crate::faults::Counting;
use crate::inlet::Inlet;
use crate::piece::Piece;
use crate::script::Script;
use crate::{Failed, Link};
use rtrb::{Consumer, Producer};
use std::thread;

/// A link over two rings of pieces of at most 256 bytes, one for each direction. It waits a bounded time for a slot or a
/// piece, and fails where none comes, and at chosen calls. It reports what it sent and received, and takes no memory.
#[derive(Drop)]
pub struct RingLink {
    out: Producer<Piece>,
    inlet: Inlet,
    patience: u64,
    script: Script,
    failed_out: u64,
    failed_in: u64,
    ended: bool,
    finished: bool,
}

// Whether a slot is free: looks for one, and then again as often as it is patient.
fn has_slot(out: &mut Producer<Piece>, patience: u64) -> bool
    ensures sent { sent out.new ≡ sent out.old }
    ensures ring { SameProducer out.old out.new }
    ensures free { IsTrue result ↔ (0 < known_free out.new) }
{
    for _ in 0..patience {
        if !out.is_full() {
            return true;
        }
        thread::yield_now();
    }
    !out.is_full()
}

// Puts bytes into a ring, piece after piece, while slots are free, and says how many.
fn put_pieces(out: &mut Producer<Piece>, bytes: &[u8]) -> usize
    ensures sent { WentIn (sent out.old) (sent out.new) (take result bytes.now) }
    ensures number { result ≤ length bytes.now }
    ensures some { 0 < known_free out.old → 0 < length bytes.now → 0 < result }
    ensures full { result < length bytes.now → known_free out.new ≡ 0 }
    ensures ring { SameProducer out.old out.new }
{
    let mut at = 0;
    while at < bytes.len() {
        if out.is_full() {
            return at;
        }
        let piece = Piece::of(&bytes[at..]);
        at += piece.len();
        out.push_reserved(piece);
    }
    at
}

impl RingLink {
    /// A new link over the two ends of rings. A call that finds no slot or no piece looks again `patience` times. The calls
    /// whose numbers stand in `fail` fail; `send`, `recv` and `finish` are numbered together from 0, and one with nothing
    /// to move isn't counted.
    pub(crate) fn of(
        out: Producer<Piece>,
        ring: Consumer<Piece>,
        patience: u64,
        fail: Vec<u32>,
    ) -> RingLink
        requires out { sent out ≡ [] }
        requires ring { (received ring ≡ []) × (known_items ring ≡ []) }
        ensures new { IsNew (ring_told result) }
        ensures script { result.script ≡ new_plan fail.items 256 }
        ensures rings { (result.out ≡ out) × (result.inlet.ring ≡ ring) }
        ensures patience { result.patience ≡ patience }
    {
        RingLink {
            out,
            inlet: Inlet::of(ring),
            patience,
            script: Script::of(fail, 256),
            failed_out: 0,
            failed_in: 0,
            ended: false,
            finished: false,
        }
    }

    /// Whether the end of the channel was received.
    pub fn has_ended(&self) -> bool
        ensures { result ≡ ⟦<RingLink as Link>⟧.ended self.now }
    {
        self.ended
    }

    /// Whether `finish` has said that nothing more is sent.
    pub fn has_finished(&self) -> bool
        ensures { result ≡ ⟦<RingLink as Link>⟧.finished self.now }
    {
        self.finished
    }

    /// How often `send` and `finish` have failed.
    pub fn failed_out(&self) -> u64
        ensures { result ≡ ⟦<RingLink as Link>⟧.failed_out self.now }
    {
        self.failed_out
    }

    /// How often `recv` has failed.
    pub fn failed_in(&self) -> u64
        ensures { result ≡ ⟦<RingLink as Link>⟧.failed_in self.now }
    {
        self.failed_in
    }
}

impl Counting for RingLink {
    ghost faults = { λ l. l.failed_out + l.failed_in };

    fn fault_count(&self) -> u64 {
        self.failed_out.saturating_add(self.failed_in)
    }
}

impl Link for RingLink {
    ghost failed_out = { λ l. l.failed_out };

    ghost failed_in = { λ l. l.failed_in };

    ghost ended = { λ l. l.ended };

    ghost finished = { λ l. l.finished };

    ghost sent = { λ l. Some (pieces_bytes (sent l.out)) };

    ghost received = { λ l. Some (came l.inlet) };

    fn send(&mut self, bytes: &[u8]) -> Result<usize, Failed>
        ensures count { CountsFaults result self.old.failed_out self.new.failed_out }
        ensures taken { Takes result bytes.now (⟦<RingLink as Link>⟧.sent self.old) (⟦<RingLink as Link>⟧.sent self.new) }
        ensures empty { length bytes.now ≡ 0 → result ≡ Ok 0 }
        ensures other_count { self.new.failed_in ≡ self.old.failed_in }
        ensures received { ⟦<RingLink as Link>⟧.received self.new ≡ ⟦<RingLink as Link>⟧.received self.old }
        ensures ended { self.new.ended ≡ self.old.ended }
        ensures finished { self.new.finished ≡ self.old.finished }
        // a chosen call fails, and another only where no slot is seen to be free
        ensures chosen { 0 < length bytes.now → is_failing self.old.script ≡ true → IsErr result }
        ensures failed { OnErr result ((is_failing self.old.script ≡ true) ⊎ (known_free self.new.out ≡ 0)) }
        // it stops before the last byte only where no slot is seen to be free, and no piece of it is empty
        ensures full { IfOk result (λ n. n < length bytes.now → known_free self.new.out ≡ 0) }
        ensures pieces { IfOk result (λ n. WentIn (sent self.old.out) (sent self.new.out) (take n bytes.now)) }
        ensures nothing { OnErr result (sent self.new.out ≡ sent self.old.out) }
        ensures script { self.new.script ≡ after_moving (length bytes.now) self.old.script }
        ensures rings { IsSameRings self.old self.new }
    {
        if bytes.is_empty() {
            return Ok(0);
        }
        if self.script.begin_failing() || !has_slot(&mut self.out, self.patience) {
            self.failed_out = self.failed_out.saturating_add(1);
            return Err(Failed);
        }
        Ok(put_pieces(&mut self.out, bytes))
    }

    fn recv(&mut self, buf: &mut [u8]) -> Result<usize, Failed>
        ensures count { CountsFaults result self.old.failed_in self.new.failed_in }
        ensures given { Receives result buf.new (⟦<RingLink as Link>⟧.received self.old) (⟦<RingLink as Link>⟧.received self.new) }
        ensures empty { length buf.old ≡ 0 → result ≡ Ok 0 }
        ensures ended { self.new.ended ≡ ended_after result (length buf.old) self.old.ended }
        ensures other_count { self.new.failed_out ≡ self.old.failed_out }
        ensures sent { ⟦<RingLink as Link>⟧.sent self.new ≡ ⟦<RingLink as Link>⟧.sent self.old }
        ensures finished { self.new.finished ≡ self.old.finished }
        // a chosen call fails, and another only where no piece is seen
        ensures chosen { 0 < length buf.old → is_failing self.old.script ≡ true → IsErr result }
        ensures failed { OnErr result ((is_failing self.old.script ≡ true) ⊎ (known_items self.new.inlet.ring ≡ [])) }
        // the end comes exactly where the first piece is empty, and it stays
        ensures end { IfOk result (λ n. 0 < length buf.old → n ≡ 0 → IsAtEnd self.new.inlet) }
        ensures only_end { IsAtEnd self.old.inlet → IfOk result (λ n. n ≡ 0) }
        ensures script { self.new.script ≡ after_moving (length buf.old) self.old.script }
        ensures rings { IsSameRings self.old self.new }
    {
        if buf.is_empty() {
            return Ok(0);
        }
        if self.script.begin_failing() || !self.inlet.has_piece(self.patience) {
            self.failed_in = self.failed_in.saturating_add(1);
            return Err(Failed);
        }
        let n = self.inlet.take(buf);
        if n == 0 {
            self.ended = true;
        }
        Ok(n)
    }

    fn finish(&mut self) -> Result<(), Failed>
        ensures count { CountsFaults result self.old.failed_out self.new.failed_out }
        ensures other_count { self.new.failed_in ≡ self.old.failed_in }
        ensures sent { ⟦<RingLink as Link>⟧.sent self.new ≡ ⟦<RingLink as Link>⟧.sent self.old }
        ensures received { ⟦<RingLink as Link>⟧.received self.new ≡ ⟦<RingLink as Link>⟧.received self.old }
        ensures ended { self.new.ended ≡ self.old.ended }
        ensures finished { self.new.finished ≡ (self.old.finished || is_ok result) }
        // a chosen call fails, and another only where no slot is seen to be free
        ensures chosen { is_failing self.old.script ≡ true → IsErr result }
        ensures failed { OnErr result ((is_failing self.old.script ≡ true) ⊎ (known_free self.new.out ≡ 0)) }
        // an empty piece goes into the ring, or nothing
        ensures end { OnOk result ((piece : Piece) × (piece.length ≡ 0) × (sent self.new.out ≡ sent self.old.out ++ piece ∷ [])) }
        ensures nothing { OnErr result (sent self.new.out ≡ sent self.old.out) }
        ensures script { self.new.script ≡ after_call self.old.script }
        ensures rings { IsSameRings self.old self.new }
    {
        if self.script.begin_failing() || !has_slot(&mut self.out, self.patience) {
            self.failed_out = self.failed_out.saturating_add(1);
            return Err(Failed);
        }
        self.out.push_reserved(Piece::end());
        self.finished = true;
        Ok(())
    }
}
