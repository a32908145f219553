//! The words of the command line.

ghost use Rattle.std.specs.Prelude.{◌≤◌};

use crate::case::MOST_REQUESTS;
use anyhow::{Result, bail};
use std::env;
use std::rt::Env;

// how many requests each device has where no word says so
const FEW_REQUESTS: u32 = 16;

/// What is made.
#[derive(Clone, Copy, Debug, PartialEq, Eq)]
pub enum Way {
    /// Requests of a plain machine.
    Plain,
    /// Steps of engines.
    Engines,
    /// Writes to BARs.
    Bars,
    /// Entries of a core that is driven through a move.
    Core,
    /// The same, and its journal made again.
    Again,
    /// The report of a run.
    Written,
    /// The same, and it is read.
    Read,
    /// The same, and it is audited.
    Audited,
}

/// A number of requests that a device can have.
#[derive(Clone, Copy, Debug, PartialEq, Eq)]
pub struct Requests {
    pub number: u32,
    pub ghost few: { number ≤ 50000 },
}

/// How large the machine is.
#[derive(Clone, Copy, Debug, PartialEq, Eq)]
pub enum Size {
    /// It has so many requests of each device.
    Each(Requests),
    /// It has the most that a machine may have.
    Largest,
}

// the size that a text asks for: `largest`, or digits without a leading zero, up to 50,000
fn size_of(text: &str) -> Option<Size> {
    if text == "largest" {
        return Some(Size::Largest);
    }
    let bytes = text.as_bytes();
    if !bytes.iter().all(|byte| byte.is_ascii_digit()) {
        return None;
    }
    if bytes.len() > 1 && bytes[0] == b'0' {
        return None;
    }
    let number = text.parse::<u32>().ok()?;
    if number > MOST_REQUESTS {
        return None;
    }
    Some(Size::Each(Requests { number }))
}

// the words that come before a size
static WAYS: [(&str, Way); 7] = [
    ("engines", Way::Engines),
    ("bars", Way::Bars),
    ("core", Way::Core),
    ("again", Way::Again),
    ("written", Way::Written),
    ("read", Way::Read),
    ("audited", Way::Audited),
];

// the way of a first word; none where it is the size
fn way_of(text: &str) -> Option<Way> {
    for (name, way) in WAYS.iter() {
        if text == *name {
            return Some(*way);
        }
    }
    None
}

/// What the command line asks for, and how much of it.
pub fn read_words(rt: &(impl Env + AllocGlobal)) -> Result<(Way, Size)> {
    let mut words = env::args(rt)?;
    let _program = words.next();
    let Some(first) = words.next() else {
        let few = Requests {
            number: FEW_REQUESTS,
        };
        return Ok((Way::Plain, Size::Each(few)));
    };
    let (way, word) = match way_of(first.as_str()) {
        Some(way) => (way, words.next()),
        None => (Way::Plain, Some(first)),
    };
    if words.next().is_some() {
        bail!("too many words");
    }
    let Some(size) = word.and_then(|text| size_of(text.as_str())) else {
        bail!("a number from 0 to 50000 is wanted, or the word largest");
    };
    Ok((way, size))
}
