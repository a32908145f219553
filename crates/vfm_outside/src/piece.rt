//! The pieces that go through a ring.

ghost use Rattle.std.specs.Prelude.{◌≤◌};

use crate::script::give;

/// The most bytes of a piece.
pub const PIECE: usize = 256;

/// Bytes that go through a ring together, at most 256 of them. An empty piece says that nothing more is sent.
#[derive(Debug, Drop)]
pub struct Piece {
    bytes: [u8; PIECE],
    length: usize,
    ghost fits: { length ≤ 256 },
}

impl Piece {
    ghost use Rattle.std.specs.Prelude.{◌≡◌, ◌-◌, ◌≤◌, [], min, take, drop, length};
    ghost use Rattle.vfm_outside.specs.Pieces.{piece_bytes};

    /// A piece of the first of these bytes, as many as fit.
    pub fn of(bytes: &[u8]) -> Piece
        ensures bytes { piece_bytes result ≡ take result.length bytes.now }
        ensures length { result.length ≡ min 256 (length bytes.now) }
    {
        let mut piece = [0; PIECE];
        let length = give(bytes, 0, bytes.len().min(PIECE), &mut piece);
        Piece {
            bytes: piece,
            length,
        }
    }

    /// The piece that says that nothing more is sent.
    pub fn end() -> Piece
        ensures { result.length ≡ 0 }
    {
        Piece {
            bytes: [0; PIECE],
            length: 0,
        }
    }

    /// How many bytes the piece has.
    pub fn len(&self) -> usize
        ensures value { result ≡ self.now.length }
        ensures bytes { result ≡ length (piece_bytes self.now) }
    {
        self.length
    }

    /// Copies the bytes from `at` on to the start of a buffer, as many as there is room for, and says how many.
    pub fn copy_to(&self, at: usize, buf: &mut [u8]) -> usize
        requires { at ≤ self.now.length }
        ensures number { result ≡ min (length buf.old) (self.now.length - at) }
        ensures given { take result buf.new ≡ take result (drop at (piece_bytes self.now)) }
    {
        let most = buf.len();
        give(&self.bytes[..self.length], at, most, buf)
    }
}
