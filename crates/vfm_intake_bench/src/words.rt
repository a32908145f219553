//! The words of the command line.

ghost use Rattle.std.specs.Prelude.{◌≤◌};

use anyhow::{Result, bail};
use std::env;
use std::rt::Env;

/// The fewest mebibytes that can be asked for, so that each page comes, and the most: a channel may have no more.
const FEWEST: u32 = 5;

const MOST: u32 = 64;

/// What is done with the channel.
#[derive(Clone, Copy, Debug, PartialEq, Eq)]
pub enum Way {
    /// It is made.
    Built,
    /// It is made, and loaded.
    Received,
    /// It is made with its packets in reverse order, and loaded.
    Reversed,
}

/// What is asked for.
#[derive(Clone, Copy, Debug)]
pub struct Asked {
    pub way: Way,
    pub mebibytes: u32,
    pub ghost some: { 1 ≤ mebibytes },
    pub ghost few: { mebibytes ≤ 64 },
}

// The way of this name.
fn way_of(name: &str) -> Option<Way> {
    match name {
        "built" => Some(Way::Built),
        "received" => Some(Way::Received),
        "reversed" => Some(Way::Reversed),
        _ => None,
    }
}

// The words' meaning, or none.
fn asked_by(name: &str, number: &str) -> Option<Asked> {
    let way = way_of(name)?;
    let mebibytes = number.parse::<u32>().ok()?;
    if mebibytes < FEWEST || mebibytes > MOST {
        return None;
    }
    Some(Asked { way, mebibytes })
}

/// What the command line asks for.
pub fn read_words(rt: &(impl Env + AllocGlobal)) -> Result<Asked> {
    let mut words = env::args(rt)?;
    let _program = words.next();
    let Some(name) = words.next() else {
        return Ok(Asked {
            way: Way::Received,
            mebibytes: FEWEST,
        });
    };
    let Some(number) = words.next() else {
        bail!("a number of mebibytes is missing");
    };
    if words.next().is_some() {
        bail!("more than two words");
    }
    let Some(asked) = asked_by(name.as_str(), number.as_str()) else {
        bail!("the words are built, received or reversed, and a number from 5 to 64");
    };
    Ok(asked)
}
