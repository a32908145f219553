//! The BARs of a device: their sizes in order. The bytes of all of them lie one after the other.

ghost use Rattle.std.specs.Prelude.{◌≡◌, ◌+◌, ◌≤◌, ◌<◌, ◌^◌, ◌↔◌, ℕ, List, length, sum, take, slice_index_or, IsSome, IfSome, MatchOption};

use std::marker::Model;

/// A device has at most so many BARs, as many as a PCI function has base address registers.
const MOST_BARS: usize = 6;

/// The sizes in bytes of the 1 to 6 BARs of a device, whose sum is below 2^32. Seen as the list of them.
#[derive(Debug, Drop)]
pub struct Bars {
    sizes: [u32; 6],
    len: u8,
}

impl Model for Bars {
    ghost use Rattle.std.specs.Prelude.{ℕ, List, take, sum, ◌≤◌, ◌<◌, ◌^◌};

    ghost Value = { List ℕ };

    ghost view = { λ b. take b.len b.sizes };

    ghost invariant = { λ b. (1 ≤ b.len) × (b.len ≤ 6) × (sum (take b.len b.sizes) < 2 ^ 32) };
}

impl Bars {
    /// BARs of these sizes, or `None` exactly where there aren't 1 to 6 or their sum is above 4,294,967,295.
    pub fn of(sizes: &[u32]) -> Option<Bars>
        ensures known { IsSome result ↔ (1 ≤ length sizes.now) × (length sizes.now ≤ 6) × (sum sizes.now < 2 ^ 32) }
        ensures value { IfSome result (λ bars. bars ≡ sizes.now) }
    {
        let len = sizes.len();
        if len < 1 || len > MOST_BARS {
            return None;
        }
        match total(sizes) {
            None => None,
            Some(_) => Some(kept(sizes)),
        }
    }

    /// How many BARs there are.
    pub fn len(&self) -> u32
        ensures value { result ≡ length self.now }
        ensures least { 1 ≤ result }
        ensures most { result ≤ 6 }
    {
        u32::from(self.len)
    }

    /// The size of BAR `i`, counted from 0.
    pub fn at(&self, i: u32) -> u32
        requires { i < length self.now }
        ensures { (d : ℕ) → result ≡ slice_index_or self.now i d }
    {
        self.as_slice()[i as usize]
    }

    /// The bytes of all BARs together.
    pub fn bytes(&self) -> u32
        ensures { result ≡ sum self.now }
    {
        sum_of(self.as_slice())
    }

    /// The bytes of the BARs before BAR `i`: the offset at which it begins among all of them.
    pub fn before(&self, i: u32) -> u32
        requires { i ≤ length self.now }
        ensures { result ≡ sum (take i self.now) }
    {
        sum_of(&self.as_slice()[..i as usize])
    }

    /// The sizes.
    pub fn as_slice(&self) -> &[u32]
        ensures value { result.now ≡ self.now }
        ensures least { 1 ≤ length self.now }
        ensures most { length self.now ≤ 6 }
        ensures few { sum self.now < 2 ^ 32 }
    {
        &self.sizes[..self.len as usize]
    }

    /// Equal BARs.
    pub fn copy(&self) -> Bars
        ensures { result ≡ self.now }
    {
        Bars {
            sizes: self.sizes,
            len: self.len,
        }
    }
}

// the sum of sizes
fn sum_of(sizes: &[u32]) -> u32
    requires { sum sizes.now < 2 ^ 32 }
    ensures { result ≡ sum sizes.now }
{
    sizes.iter().sum()
}

// the sum of the sizes, if it is below 2^32
fn total(sizes: &[u32]) -> Option<u32>
    ensures { MatchOption result (2 ^ 32 ≤ sum sizes.now) (λ total. total ≡ sum sizes.now) }
{
    let mut total = 0u32;
    for size in sizes {
        match total.checked_add(*size) {
            Some(more) => total = more,
            None => return None,
        }
    }
    Some(total)
}

// these sizes, kept
fn kept(sizes: &[u32]) -> Bars
    requires least { 1 ≤ length sizes.now }
    requires most { length sizes.now ≤ 6 }
    requires few { sum sizes.now < 2 ^ 32 }
    ensures { result ≡ sizes.now }
{
    let mut copy = [0u32; MOST_BARS];
    copy[..sizes.len()].copy_from_slice(sizes);
    Bars {
        sizes: copy,
        len: sizes.len() as u8,
    }
}

#[cfg(test)]
mod tests {
    use super::*;
    use std::test::Fail;

    #[test]
    fn sizes_are_kept_in_order(rt: HostRuntime) -> Result<(), Fail> {
        let bars = Bars::of(&[128, 64, 4096]).ok_or("bars")?;
        assert_eq!(rt; bars.len(), 3);
        assert_eq!(rt; bars.bytes(), 4288);
        assert_eq!(rt; bars.at(1), 64);
        assert_eq!(rt; bars.before(2), 192);
        assert_eq!(rt; bars.copy().as_slice(), [128, 64, 4096].as_slice());
        assert!(rt; bars.is_in_range());
        Ok(())
    }

    #[test]
    fn other_sizes_are_refused(rt: HostRuntime) -> Result<(), Fail> {
        assert!(rt; Bars::of(&[]).is_none());
        assert!(rt; Bars::of(&[64, 64, 64, 64, 64, 64, 64]).is_none());
        assert!(rt; Bars::of(&[u32::MAX, 1]).is_none());
        assert!(rt; !Bars::of(&[65536, 64]).ok_or("bars")?.is_in_range());
        assert!(rt; !Bars::of(&[96]).ok_or("bars")?.is_in_range());
        Ok(())
    }
}
