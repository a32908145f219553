//! The words of the command line.

ghost use Rattle.std.specs.Prelude.{◌≤◌, IfOk};

use anyhow::{Result, bail};
use std::env;
use std::rt::Env;

/// The most mebibytes that can be asked for.
const MOST: u32 = 1024;

/// What the bytes go through.
#[derive(Clone, Copy, Debug, PartialEq, Eq)]
pub enum Way {
    /// A sender and a pair of rings, in packets of version 1.
    Ring,
    /// The same in packets of version 2, with their seals.
    Sealed,
    /// Plain copies from one place in memory to another.
    Copy,
}

/// What is asked for.
#[derive(Clone, Copy, Debug)]
pub struct Asked {
    pub way: Way,
    pub mebibytes: u32,
    pub ghost bound: { mebibytes ≤ 1024 },
}

// The way of this name.
fn way_of(name: &str) -> Option<Way> {
    match name {
        "ring" => Some(Way::Ring),
        "sealed" => Some(Way::Sealed),
        "copy" => Some(Way::Copy),
        _ => None,
    }
}

// The words' meaning, or none.
fn asked_by(name: &str, number: &str) -> Option<Asked> {
    let way = way_of(name)?;
    let mebibytes = number.parse::<u32>().ok()?;
    if mebibytes == 0 || mebibytes > MOST {
        return None;
    }
    Some(Asked { way, mebibytes })
}

/// What the command line asks for.
pub fn read_words(rt: &(impl Env + AllocGlobal)) -> Result<Asked> {
    let mut words = env::args(rt)?;
    let _program = words.next();
    let Some(name) = words.next() else {
        return Ok(Asked {
            way: Way::Ring,
            mebibytes: 1,
        });
    };
    let Some(number) = words.next() else {
        bail!("a number of mebibytes is missing");
    };
    if words.next().is_some() {
        bail!("more than two words");
    }
    let Some(asked) = asked_by(name.as_str(), number.as_str()) else {
        bail!("the words are ring, sealed or copy, and a number from 1 to 1024");
    };
    Ok(asked)
}
