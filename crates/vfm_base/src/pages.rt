//! Sets of pages, as machine words of bits.

ghost use Rattle.std.specs.Prelude.{◌≡◌, ◌+◌, ◌-◌, ◌^◌, ◌<◌, ◌≤◌, ◌==◌, ◌||◌, ◌&&◌, not, ℕ, List, [], true, false, length, nat_lt, slice_index, IsTrue, MatchOption, IfSome, IfNone};
ghost use Rattle.std.specs.Int.{bit_at};
ghost use Rattle.vfm_base.specs.PageSet.{numbers_where, pages_where, contains_page, IsPageList, least_page_from, page_bit, pages_of_words};

use std::marker::Model;

/// A set of pages below 1,024. Seen as the list of its pages in rising order.
#[derive(Debug, Drop)]
pub struct PageSet {
    words: [u64; 16],
}

impl Model for PageSet {
    ghost use Rattle.std.specs.Prelude.{ℕ, List};
    ghost use Rattle.vfm_base.specs.PageSet.{pages_of_words};

    ghost Value = { List ℕ };

    ghost view = { λ s. pages_of_words s.words };
}

impl PageSet {
    /// No page.
    pub fn new() -> PageSet
        ensures none { result ≡ [] }
        ensures set { IsPageList result }
    {
        PageSet { words: [0; 16] }
    }

    /// The first `pages` pages; at most 1,024.
    pub fn full(pages: u32) -> PageSet
        requires { pages ≤ 1024 }
        ensures list { result ≡ numbers_where (λ _. true) 0 pages }
        ensures value { result ≡ pages_where (λ q. nat_lt q pages) }
        ensures members { (q : ℕ) → contains_page result q ≡ nat_lt q pages }
        ensures set { IsPageList result }
    {
        PageSet {
            words: full_words(pages),
        }
    }

    /// Whether the page, below 1,024, is in the set.
    pub fn has(&self, p: u32) -> bool
        requires { p < 1024 }
        ensures value { result ≡ contains_page self.now p }
        ensures set { IsPageList self.now }
    {
        self.words[(p / 64) as usize] >> (p % 64) & 1 == 1
    }

    /// Adds the page, which is below 1,024.
    pub fn add(&mut self, p: u32)
        requires { p < 1024 }
        ensures value { self.new ≡ pages_where (λ q. contains_page self.old q || q == p) }
        ensures members { (q : ℕ) → contains_page self.new q ≡ (contains_page self.old q || q == p) }
        ensures set { IsPageList self.new }
    {
        self.words[(p / 64) as usize] |= 1 << (p % 64);
    }

    /// Removes the page, which is below 1,024.
    pub fn remove(&mut self, p: u32)
        requires { p < 1024 }
        ensures value { self.new ≡ pages_where (λ q. contains_page self.old q && not (q == p)) }
        ensures members { (q : ℕ) → contains_page self.new q ≡ (contains_page self.old q && not (q == p)) }
        ensures set { IsPageList self.new }
    {
        self.words[(p / 64) as usize] &= !(1 << (p % 64));
    }

    /// Adds every page of the other set.
    pub fn join(&mut self, other: &PageSet)
        ensures value { self.new ≡ pages_where (λ q. contains_page self.old q || contains_page other.now q) }
        ensures members { (q : ℕ) → contains_page self.new q ≡ (contains_page self.old q || contains_page other.now q) }
        ensures set { IsPageList self.new }
    {
        join_words(&mut self.words, &other.words);
    }

    /// Removes every page.
    pub fn clear(&mut self)
        ensures none { self.new ≡ [] }
        ensures set { IsPageList self.new }
    {
        self.words = [0; 16];
    }

    /// The least page from `p` on, or `None` exactly where there is none; `p` is at most 1,024.
    pub fn least_from(&self, p: u32) -> Option<u32>
        requires { p ≤ 1024 }
        ensures value { result ≡ least_page_from self.now p }
        ensures found { IfSome result (λ q. (p ≤ q) × (q < 1024) × IsTrue (contains_page self.now q)) }
        ensures least { IfSome result (λ q. (r : ℕ) → p ≤ r → r < q → contains_page self.now r ≡ false) }
        ensures none { IfNone result ((r : ℕ) → p ≤ r → contains_page self.now r ≡ false) }
        ensures set { IsPageList self.now }
    {
        least_in_words(&self.words, p)
    }

    /// How many pages there are.
    pub fn len(&self) -> u32
        ensures value { result ≡ length self.now }
        ensures set { IsPageList self.now }
    {
        count_in_words(&self.words)
    }

    /// Whether there is no page.
    pub fn is_empty(&self) -> bool
        ensures value { result ≡ (length self.now == 0) }
        ensures set { IsPageList self.now }
    {
        self.len() == 0
    }

    /// An equal set.
    pub fn copy(&self) -> PageSet
        ensures value { result ≡ self.now }
        ensures set { IsPageList self.now }
    {
        PageSet { words: self.words }
    }
}

// words with the bits below `pages` set
fn full_words(pages: u32) -> [u64; 16]
    requires { pages ≤ 1024 }
    ensures { (q : ℕ) → q < 1024 → page_bit result q ≡ nat_lt q pages }
{
    let mut words = [0; 16];
    for k in 0..16u32 {
        words[k as usize] = low_ones(pages.saturating_sub(64 * k).min(64));
    }
    words
}

// a word with its low `n` bits set
fn low_ones(n: u32) -> u64
    requires { n ≤ 64 }
    ensures { result ≡ 2 ^ n - 1 }
{
    if n == 64 { u64::MAX } else { (1 << n) - 1 }
}

// sets in `words` the bits that are set in `other`
fn join_words(words: &mut [u64; 16], other: &[u64; 16])
    ensures { (q : ℕ) → page_bit words.new q ≡ (page_bit words.old q || page_bit other.now q) }
{
    for k in 0..16 {
        words[k] |= other[k];
    }
}

// the first bit from `p` on that is set in the words
fn least_in_words(words: &[u64; 16], p: u32) -> Option<u32>
    requires { p ≤ 1024 }
    ensures found { IfSome result (λ q. (p ≤ q) × (q < 1024) × (page_bit words.now q ≡ true)) }
    ensures least { IfSome result (λ q. (r : ℕ) → p ≤ r → r < q → page_bit words.now r ≡ false) }
    ensures none { IfNone result ((r : ℕ) → p ≤ r → r < 1024 → page_bit words.now r ≡ false) }
{
    for k in p / 64..16 {
        if let Some(bit) = least_in_word(words[k as usize], p.saturating_sub(64 * k)) {
            return Some(64 * k + bit);
        }
    }
    None
}

// the first bit from `from` on that is set in the word
fn least_in_word(word: u64, from: u32) -> Option<u32>
    requires { from < 64 }
    ensures found { IfSome result (λ i. (from ≤ i) × (i < 64) × (bit_at word i ≡ 1)) }
    ensures least { IfSome result (λ i. (j : ℕ) → from ≤ j → j < i → bit_at word j ≡ 0) }
    ensures none { IfNone result ((j : ℕ) → from ≤ j → bit_at word j ≡ 0) }
{
    let rest = word >> from;
    if rest == 0 {
        return None;
    }
    Some(from + rest.trailing_zeros())
}

// how many bits are set in the words
fn count_in_words(words: &[u64]) -> u32
    requires { length words.now ≡ 16 }
    ensures { result ≡ length (pages_of_words words.now) }
{
    let mut total = 0;
    for word in words {
        total += word.count_ones();
    }
    total
}
