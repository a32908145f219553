//! The bytes of a channel, as the table writes them.

use crate::Trouble;
use std::alloc::Global;

/// The most bytes that are made for a channel: a little more than one may have.
const MOST: usize = 67_200_000;

/// The bytes that a word stands for: parts joined by `+`. A part is bytes as hex digits, `HEX*N` for those bytes N times, or
/// `<PART,PART>N` for a list of parts N times. `-` is no byte.
pub fn channel_of(alloc: Global, word: &str) -> Result<Vec<u8>, Trouble> {
    let mut out = Vec::new(alloc);
    if word == "-" {
        return Ok(out);
    }
    for part in word.split('+') {
        match part.strip_prefix('<') {
            Some(group) => push_group(alloc, &mut out, group)?,
            None => push_part(alloc, &mut out, part)?,
        }
    }
    Ok(out)
}

// Appends what a group stands for, without its first sign.
fn push_group(alloc: Global, out: &mut Vec<u8>, group: &str) -> Result<(), Trouble> {
    let Some((parts, times)) = group.split_once('>') else {
        return Err(Trouble::Form);
    };
    let mut once = Vec::new(alloc);
    for part in parts.split(',') {
        push_part(alloc, &mut once, part)?;
    }
    repeat(out, once.as_slice(), number(times)?)
}

// Appends what a part stands for.
fn push_part(alloc: Global, out: &mut Vec<u8>, part: &str) -> Result<(), Trouble> {
    match part.split_once('*') {
        Some((digits, times)) => {
            let once = hex::decode(alloc, digits)?;
            repeat(out, once.as_slice(), number(times)?)
        }
        None => {
            let once = hex::decode(alloc, part)?;
            repeat(out, once.as_slice(), 1)
        }
    }
}

// Appends bytes so many times.
fn repeat(out: &mut Vec<u8>, once: &[u8], times: u32) -> Result<(), Trouble> {
    if let [byte] = once {
        return fill(out, *byte, times as usize);
    }
    for _ in 0..times {
        if out.len() > MOST || once.len() > MOST - out.len() {
            return Err(Trouble::Form);
        }
        out.extend_from_slice(once)?;
    }
    Ok(())
}

// Appends one byte so many times.
fn fill(out: &mut Vec<u8>, byte: u8, times: usize) -> Result<(), Trouble> {
    if out.len() > MOST || times > MOST - out.len() {
        return Err(Trouble::Form);
    }
    out.resize(out.len() + times, byte)?;
    Ok(())
}

/// A number of the table.
pub fn number(word: &str) -> Result<u32, Trouble> {
    match word.parse::<u32>() {
        Ok(n) => Ok(n),
        Err(_) => Err(Trouble::Form),
    }
}

/// The same of more digits.
pub fn long_number(word: &str) -> Result<u64, Trouble> {
    match word.parse::<u64>() {
        Ok(n) => Ok(n),
        Err(_) => Err(Trouble::Form),
    }
}
