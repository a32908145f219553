//! How often each kind of answer came.

ghost use Rattle.std.specs.Prelude.{◌<◌};

use std::io;
use std::io::Print;
use vfm_quiet::Want;
use vfm_types::Entry;

// the kinds of answers, in the order in which they are printed
const KINDS: [&str; 14] = [
    "begin", "hold", "arc", "fail", "report", "pass", "copy", "block", "dry", "joint", "abort",
    "wait", "done", "other",
];

// the place of an answer's kind
fn kind(want: Want) -> usize
    ensures { result < 14 }
{
    match want {
        Want::Wait => 11,
        Want::Done => 12,
        Want::Do(entry) => match entry {
            Entry::Begin => 0,
            Entry::Hold { .. } => 1,
            Entry::Arc { .. } => 2,
            Entry::Fail { .. } => 3,
            Entry::Report { .. } => 4,
            Entry::Pass { .. } => 5,
            Entry::Copy { .. } => 6,
            Entry::Block { .. } => 7,
            Entry::Dry { .. } => 8,
            Entry::Joint => 9,
            Entry::Abort => 10,
            _ => 13,
        },
    }
}

/// How often each kind of answer came.
#[derive(Drop)]
pub(crate) struct Tally {
    counts: [u64; 14],
}

impl Tally {
    /// None yet.
    pub(crate) fn none() -> Tally {
        Tally { counts: [0; 14] }
    }

    /// One more answer.
    pub(crate) fn add(&mut self, want: Want) {
        let place = kind(want);
        self.counts[place] = self.counts[place].saturating_add(1);
    }

    /// Prints how often each kind came.
    pub(crate) fn print(&self, rt: &impl Print) -> io::Result<()> {
        for (name, count) in KINDS.iter().zip(self.counts.iter()) {
            println!(rt; "{name} {count}")?;
        }
        Ok(())
    }
}
