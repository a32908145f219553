//! A writer that takes the digest of a text.

use crate::TextWriter;
use sha2::{Digest, Sha256};
use vfm_outside::Failed;

/// Takes the SHA-256 (FIPS 180-4) of a text, of which nothing is kept.
#[derive(Drop)]
pub struct DigestWriter {
    pub hasher: Sha256,
}

impl TextWriter for DigestWriter {
    ghost use Rattle.std.specs.Prelude.{ℕ, List, ◌++◌};
    ghost use Rattle.sha2.specs.Hashers.{Holds256};
    ghost use Rattle.vfm_text.specs.Hashed.{hashed_nothing, hashed_more};

    ghost takes = { λ a b text. (m : List ℕ) → Holds256 a.hasher m → Holds256 b.hasher (m ++ text) };

    ghost stops = { λ a b text. ⊥ };

    ghost nothing = { λ writer. hashed_nothing writer.hasher };

    ghost more = { λ a b c x y h k. hashed_more a.hasher b.hasher c.hasher x y h k };

    ghost stop_after = { λ a b c x y h k. k };

    ghost stop_before = { λ a b x y h. h };

    fn put(&mut self, bytes: &[u8]) -> Result<(), Failed> {
        self.hasher.update(bytes);
        Ok(())
    }
}
