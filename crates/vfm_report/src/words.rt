//! The words of a line, one after another.

ghost use Rattle.std.specs.Prelude.{◌≡◌, ◌∷◌, [], ◌++◌, MatchOption, IsTrue, map, decimal};
ghost use Rattle.std.specs.Option.{option_map, option_copied};
ghost use Rattle.vfm_report.specs.Same.{same_text};
ghost use Rattle.vfm_report.specs.Split.{is_without, words_of};
ghost use Rattle.vfm_report.specs.StatusLine.{dotted};
ghost use Rattle.vfm_report.specs.WordList.{words_left};
ghost use Rattle.vfm_report.specs.Counted.{no_word, one_word, two_words};
ghost use Rattle.vfm_report.specs.StateLines.{after_word, number_then};

use crate::number::number;
use itoa::Buffer;
use memchr::memchr;

/// What stands before a byte and what after it, or `None` exactly where it doesn't stand there.
pub(crate) fn cut(byte: u8, bytes: &[u8]) -> Option<(&[u8], &[u8])>
    ensures { MatchOption result (IsTrue (is_without byte bytes.now)) (λ p. IsTrue (is_without byte p.0.now) × (bytes.now ≡ p.0.now ++ byte ∷ p.1.now)) }
{
    match memchr(byte, bytes) {
        Some(i) => Some((&bytes[..i], &bytes[i + 1..])),
        None => None,
    }
}

/// Whether a word is this text.
pub(crate) fn is_word(word: &[u8], text: &[u8]) -> bool
    ensures { result ≡ same_text word.now text.now }
{
    word == text
}

/// What is left of the words of a line.
#[derive(Clone, Copy)]
pub(crate) struct Words<'a> {
    rest: Option<&'a [u8]>,
    // the byte between them
    between: u8,
}

impl<'a> Words<'a> {
    /// The words of a line, which has no line feed.
    pub(crate) fn of(line: &'a [u8]) -> Words<'a>
        ensures { words_left result ≡ words_of line.now }
    {
        Words {
            rest: Some(line),
            between: b' ',
        }
    }

    /// The parts of a word between its dots.
    pub(crate) fn dotted(word: &'a [u8]) -> Words<'a>
        ensures { words_left result ≡ dotted word.now }
    {
        Words {
            rest: Some(word),
            between: b'.',
        }
    }

    /// The next word.
    pub(crate) fn next(&mut self) -> Option<&'a [u8]>
        ensures { MatchOption result (words_left self.old ≡ []) (λ word. words_left self.old ≡ word.now ∷ words_left self.new) }
    {
        let rest = self.rest?;
        match cut(self.between, rest) {
            Some((word, after)) => {
                self.rest = Some(after);
                Some(word)
            }
            None => {
                self.rest = None;
                Some(rest)
            }
        }
    }

    /// Nothing, where there is no word.
    pub(crate) fn none(mut self) -> Option<()>
        ensures { result ≡ no_word (words_left self.entry) }
    {
        match self.next() {
            Some(_) => None,
            None => Some(()),
        }
    }

    /// The only word.
    pub(crate) fn one(mut self) -> Option<&'a [u8]>
        ensures { option_copied result ≡ one_word (words_left self.entry) }
    {
        let word = self.next()?;
        self.none()?;
        Some(word)
    }

    /// Both words, where there are two.
    pub(crate) fn two(mut self) -> Option<(&'a [u8], &'a [u8])>
        ensures { option_map (λ p. (p.0.now, p.1.now)) result ≡ two_words (words_left self.entry) }
    {
        let first = self.next()?;
        let second = self.one()?;
        Some((first, second))
    }

    /// The words after the first, where the first is this one.
    pub(crate) fn after(mut self, text: &[u8]) -> Option<Words<'a>>
        ensures { option_map words_left result ≡ after_word text.now (words_left self.entry) }
    {
        let word = self.next()?;
        if is_word(word, text) {
            Some(self)
        } else {
            None
        }
    }

    /// The words after the first, where the first is this number.
    pub(crate) fn after_number(self, n: u32) -> Option<Words<'a>>
        ensures { option_map words_left result ≡ after_word (decimal n) (words_left self.entry) }
    {
        let mut digits = Buffer::new();
        self.after(digits.format(n).as_bytes())
    }

    /// A number of 32 bits, and the words after it.
    pub(crate) fn number(mut self) -> Option<(u32, Words<'a>)>
        ensures { option_map (λ p. (p.0, words_left p.1)) result ≡ number_then (words_left self.entry) }
    {
        let word = self.next()?;
        let n = number(word)?;
        Some((n, self))
    }
}
