//! The receiving end of a ring of pieces.
//!
//! What an end of a ring is proved to know of the other end is what `rtrb` says of it: an end learns of slots and of
//! items when it looks, and no clause says that what it sees then is up to date.

ghost use Rattle.std.specs.Prelude.{◌≤◌, ◌-◌, length};
ghost use Rattle.rtrb.specs.Ring.{known_items};
ghost use Rattle.vfm_outside.specs.Pieces.{first_bytes};

use crate::piece::Piece;
use rtrb::Consumer;
use std::thread;

/// The receiving end of a ring, and how many bytes of its first piece were taken. A piece stays in its slot until its
/// last byte is taken, and an empty one for good.
#[derive(Drop)]
pub struct Inlet {
    ring: Consumer<Piece>,
    at: usize,
    ghost in_first: { at ≤ length (first_bytes (known_items ring)) - 1 },
}

impl Inlet {
    ghost use Rattle.std.specs.Prelude.{◌≡◌, ◌+◌, ◌-◌, ◌<◌, ◌≤◌, ◌==◌, ◌↔◌, [], ◌++◌, IsTrue, length, min, take};
    ghost use Rattle.rtrb.specs.Ring.{received, known_items, SameConsumer};
    ghost use Rattle.vfm_outside.specs.Pieces.{first_bytes};
    ghost use Rattle.vfm_outside.specs.Rings.{came, IsAtEnd, HasPiece};

    /// An end of which nothing was received.
    pub fn of(ring: Consumer<Piece>) -> Inlet
        requires { (received ring ≡ []) × (known_items ring ≡ []) }
        ensures came { came result ≡ [] }
        ensures ring { result.ring ≡ ring }
    {
        Inlet { ring, at: 0 }
    }

    /// Whether there is a piece: looks for one, and then again as often as it is patient.
    pub fn has_piece(&mut self, patience: u64) -> bool
        ensures came { came self.new ≡ came self.old }
        ensures piece { IsTrue result ↔ HasPiece self.new }
        ensures stays { HasPiece self.old → first_bytes (known_items self.new.ring) ≡ first_bytes (known_items self.old.ring) }
        ensures at { self.new.at ≡ self.old.at }
        ensures ring { SameConsumer self.old.ring self.new.ring }
    {
        for _ in 0..patience {
            if self.sees_piece() {
                return true;
            }
            thread::yield_now();
        }
        self.sees_piece()
    }

    // Whether a piece is there to be seen now.
    fn sees_piece(&mut self) -> bool
        ensures came { came self.new ≡ came self.old }
        ensures piece { IsTrue result ↔ HasPiece self.new }
        ensures stays { HasPiece self.old → first_bytes (known_items self.new.ring) ≡ first_bytes (known_items self.old.ring) }
        ensures keeps { HasPiece self.old → HasPiece self.new }
        ensures at { self.new.at ≡ self.old.at }
        ensures ring { SameConsumer self.old.ring self.new.ring }
    {
        !self.ring.is_empty()
    }

    /// Takes bytes of the first piece to the start of a buffer, as many as there is room for, and says how many: none
    /// exactly where the piece is empty.
    pub fn take(&mut self, buf: &mut [u8]) -> usize
        requires piece { HasPiece self.old }
        requires room { 0 < length buf.old }
        ensures number { result ≡ min (length buf.old) (length (first_bytes (known_items self.old.ring)) - self.old.at) }
        ensures came { came self.new ≡ came self.old ++ take result buf.new }
        ensures end { result ≡ 0 → IsAtEnd self.new }
        ensures only_end { IsAtEnd self.old → result ≡ 0 }
        ensures ring { SameConsumer self.old.ring self.new.ring }
    {
        let piece = self.ring.peek_known();
        let length = piece.len();
        let n = piece.copy_to(self.at, buf);
        if n > 0 && self.at + n == length {
            let _piece = self.ring.pop_known();
            self.at = 0;
        } else {
            self.at += n;
        }
        n
    }
}
