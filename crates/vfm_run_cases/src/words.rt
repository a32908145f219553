//! Numbers and bytes, as the table writes them.

use crate::trouble::Trouble;
use std::alloc::Global;

/// A number of the table.
pub fn number(word: &str) -> Result<u32, Trouble> {
    match word.parse::<u32>() {
        Ok(n) => Ok(n),
        Err(_) => Err(Trouble::Form),
    }
}

/// Numbers with commas between; `-` is none.
pub fn numbers(alloc: Global, word: &str) -> Result<Vec<u32>, Trouble> {
    let mut list = Vec::new(alloc);
    if word == "-" {
        return Ok(list);
    }
    for part in word.split(',') {
        list.push(number(part)?)?;
    }
    Ok(list)
}

/// Pairs of numbers with commas between, each with a point inside; `-` is none.
pub fn pairs(alloc: Global, word: &str) -> Result<Vec<(u32, u32)>, Trouble> {
    let mut list = Vec::new(alloc);
    if word == "-" {
        return Ok(list);
    }
    for part in word.split(',') {
        let Some((first, second)) = part.split_once('.') else {
            return Err(Trouble::Form);
        };
        list.push((number(first)?, number(second)?))?;
    }
    Ok(list)
}

/// Bytes: parts joined by `+`, each of them bytes as hex digits, or `HEX*N` for those bytes N times; `-` is no byte.
pub fn bytes(alloc: Global, word: &str) -> Result<Vec<u8>, Trouble> {
    let mut out = Vec::new(alloc);
    if word == "-" {
        return Ok(out);
    }
    for part in word.split('+') {
        push_part(alloc, &mut out, part)?;
    }
    Ok(out)
}

// appends the bytes of a part
fn push_part(alloc: Global, out: &mut Vec<u8>, part: &str) -> Result<(), Trouble> {
    let (digits, times) = match part.split_once('*') {
        Some((digits, times)) => (digits, number(times)?),
        None => (part, 1),
    };
    let once = hex::decode(alloc, digits)?;
    for _ in 0..times {
        out.extend_from_slice(once.as_slice())?;
    }
    Ok(())
}
