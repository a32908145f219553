//! What a text can be written with: a sink, or a hasher.

ghost use Rattle.std.specs.Prelude.{◌≡◌, ℕ, List, [], ◌++◌};
ghost use Rattle.vfm_text.specs.Writers.{Writes};

use vfm_outside::Failed;

/// What takes a text in pieces.
pub trait TextWriter {
    /// From the first state it took this text, and came to the second.
    ghost takes: { Self → Self → List ℕ → Type 0 };

    /// From the first state it took a part of this text at the most, and stopped in the second.
    ghost stops: { Self → Self → List ℕ → Type 0 };

    /// Writes a piece.
    fn put(&mut self, bytes: &[u8]) -> Result<(), Failed>
        ensures { Writes takes stops self.old self.new bytes.now result };

    ghost nothing: { (writer : Self) → takes writer writer [] };

    ghost more: { (a b c : Self) (x y : List ℕ) → takes a b x → takes b c y → takes a c (x ++ y) };

    ghost stop_after: { (a b c : Self) (x y : List ℕ) → takes a b x → stops b c y → stops a c (x ++ y) };

    ghost stop_before: { (a b : Self) (x y : List ℕ) → stops a b x → stops a b (x ++ y) };
}
