//! Short byte strings under names of their own: device names, bytes to be written, what came in place of a frame.

ghost use Rattle.std.specs.Prelude.{◌≡◌, ◌≤◌, ◌↔◌, length, IsTrue, IsSome, IfSome};
ghost use Rattle.std.specs.List.{list_all};
ghost use Rattle.vfm_types.specs.Bytes.{is_name_byte, is_name};

use std::marker::Model;
use vfm_base::ShortBytes;

/// A device's name: 1 to 16 bytes, each of `a`-`z`, `0`-`9` or `_`. Seen as the list of its bytes.
#[derive(Debug, Drop)]
pub struct Name {
    text: ShortBytes<16>,
}

impl Model for Name {
    ghost use Rattle.std.specs.Prelude.{ℕ, List, IsTrue};
    ghost use Rattle.vfm_types.specs.Bytes.{is_name};

    ghost Value = { List ℕ };

    ghost view = { λ n. n.text };

    ghost invariant = { λ n. IsTrue (is_name n.text) };
}

impl Name {
    /// The name with these bytes, or `None` exactly where they aren't 1 to 16 bytes of `a`-`z`, `0`-`9` and `_`.
    pub fn of(bytes: &[u8]) -> Option<Name>
        ensures known { IsSome result ↔ IsTrue (is_name bytes.now) }
        ensures value { IfSome result (λ name. name ≡ bytes.now) }
    {
        if !are_of_name(bytes) {
            return None;
        }
        match ShortBytes::<16>::of(bytes) {
            Some(text) => Some(Name { text }),
            None => unreachable!(),
        }
    }

    /// The bytes.
    pub fn bytes(&self) -> &[u8]
        ensures value { result.now ≡ self.now }
        ensures known { IsTrue (is_name self.now) }
    {
        self.text.bytes()
    }

    /// An equal name.
    pub fn copy(&self) -> Name
        ensures { result ≡ self.now }
    {
        Name {
            text: self.text.copy(),
        }
    }
}

// whether these are the bytes of a name
fn are_of_name(bytes: &[u8]) -> bool
    ensures value { result ≡ is_name bytes.now }
    ensures few { IsTrue result → length bytes.now ≤ 16 }
{
    bytes.len() >= 1 && bytes.len() <= 16 && all_may_stand_in_name(bytes)
}

// whether a name may have all these bytes
fn all_may_stand_in_name(bytes: &[u8]) -> bool
    ensures { result ≡ list_all is_name_byte bytes.now }
{
    bytes.iter().all(|byte| may_stand_in_name(*byte))
}

// whether a name may have this byte
fn may_stand_in_name(byte: u8) -> bool
    ensures { result ≡ is_name_byte byte }
{
    (byte >= b'a' && byte <= b'z') || (byte >= b'0' && byte <= b'9') || byte == b'_'
}

/// 1 to 64 bytes. Seen as the list of them.
#[derive(Debug, Drop)]
pub struct Bytes64 {
    kept: ShortBytes<64>,
}

impl Model for Bytes64 {
    ghost use Rattle.std.specs.Prelude.{ℕ, List, length, ◌≤◌};

    ghost Value = { List ℕ };

    ghost view = { λ b. b.kept };

    ghost invariant = { λ b. 1 ≤ length b.kept };
}

impl Bytes64 {
    /// These bytes, or `None` exactly where there aren't 1 to 64.
    pub fn of(bytes: &[u8]) -> Option<Bytes64>
        ensures known { IsSome result ↔ (1 ≤ length bytes.now) × (length bytes.now ≤ 64) }
        ensures value { IfSome result (λ kept. kept ≡ bytes.now) }
    {
        if bytes.len() < 1 {
            return None;
        }
        match ShortBytes::<64>::of(bytes) {
            Some(kept) => Some(Bytes64 { kept }),
            None => None,
        }
    }

    /// The bytes.
    pub fn bytes(&self) -> &[u8]
        ensures value { result.now ≡ self.now }
        ensures least { 1 ≤ length self.now }
        ensures most { length self.now ≤ 64 }
    {
        self.kept.bytes()
    }

    /// How many there are.
    pub fn len(&self) -> u32
        ensures value { result ≡ length self.now }
        ensures least { 1 ≤ result }
        ensures most { result ≤ 64 }
    {
        self.kept.len()
    }

    /// Equal bytes.
    pub fn copy(&self) -> Bytes64
        ensures { result ≡ self.now }
    {
        Bytes64 {
            kept: self.kept.copy(),
        }
    }
}

/// Up to 44 bytes that came where a control frame should have come. Seen as the list of them.
pub type Heard44 = ShortBytes<44>;
