//! The lines of bytes, one after another.

ghost use Rattle.std.specs.Prelude.{◌≡◌, [], ◌∷◌, MatchOption, IfSome, IsTrue, length, ◌<◌};
ghost use Rattle.vfm_report.specs.Split.{is_without};
ghost use Rattle.vfm_report.specs.LineList.{whole_lines, lines_left};
ghost use Rattle.vfm_report.specs.LineList as spec;

use crate::words::cut;

/// The lines that are left.
#[derive(Clone, Copy)]
pub(crate) struct Lines<'a> {
    rest: &'a [u8],
}

impl<'a> Lines<'a> {
    /// The lines of bytes.
    pub(crate) fn of(bytes: &'a [u8]) -> Lines<'a>
        ensures { result.rest.now ≡ bytes.now }
    {
        Lines { rest: bytes }
    }

    /// The next whole line without its line feed, and the lines after it.
    pub(crate) fn first(self) -> Option<(&'a [u8], Lines<'a>)>
        ensures lines { MatchOption result (lines_left self.entry ≡ []) (λ p. lines_left self.entry ≡ p.0.now ∷ lines_left p.1) }
        ensures clean { IfSome result (λ p. IsTrue (is_without 10 p.0.now)) }
        ensures after { MatchOption result (spec.after_lines self.entry.rest.now ≡ self.entry.rest.now) (λ p. spec.after_lines self.entry.rest.now ≡ spec.after_lines p.1.rest.now) }
    {
        let (line, rest) = cut(b'\n', self.rest)?;
        Some((line, Lines { rest }))
    }

    /// The bytes that are left.
    pub(crate) fn rest(self) -> &'a [u8]
        ensures { result.now ≡ self.entry.rest.now }
    {
        self.rest
    }
}

/// How many whole lines the bytes have.
pub(crate) fn count_lines(bytes: &[u8]) -> u64
    ensures value { result ≡ length (whole_lines bytes.now) }
    ensures few { result < 9223372036854775808 }
{
    let mut lines = Lines::of(bytes);
    for count in 0..bytes.len() {
        match lines.first() {
            Some((_, after)) => lines = after,
            None => return count as u64,
        }
    }
    bytes.len() as u64
}

/// What stands after the last line feed.
pub(crate) fn after_lines(bytes: &[u8]) -> &[u8]
    ensures { result.now ≡ spec.after_lines bytes.now }
{
    let mut lines = Lines::of(bytes);
    while let Some((_, after)) = lines.first() {
        lines = after;
    }
    lines.rest()
}
