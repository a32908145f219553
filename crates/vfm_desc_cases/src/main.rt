//! Tries the reader of descriptions on a table of them, whose lines it reads from its input, and on some that are too
//! long for a table. What it is to print was written by hand.
#![tactic(auto)]

mod line;
mod made;
mod shown;

use line::answer;
use std::alloc::{AllocError, Global};
use std::io;

// the text of a line of the table: one part of the base replaced, or a whole text
fn text_of(alloc: Global, base: &str, old: &str, new: &str) -> Result<String, AllocError> {
    if old.is_empty() {
        return String::from_str(alloc, new);
    }
    match base.split_once(old) {
        Some((before, after)) => format!(in alloc; "{before}{new}{after}"),
        None => format!(in alloc; "no {old} in the base"),
    }
}

// the answer to a line of the table where it is another than the line says
fn other_answer(alloc: Global, base: &str, line: &str) -> Result<Option<String>, AllocError> {
    let Some((old, rest)) = line.split_once('\t') else {
        return Ok(Some(format!(in alloc; "no part between tabs")?));
    };
    let Some((new, want)) = rest.split_once('\t') else {
        return Ok(Some(format!(in alloc; "no answer")?));
    };
    let text = text_of(alloc, base, old, new)?;
    let found = answer(alloc, text.as_bytes())?;
    if found.as_str() == want {
        Ok(None)
    } else {
        Ok(Some(found))
    }
}

fn main(rt: HostRuntime) -> io::Result<()> {
    let alloc = rt.alloc();
    let mut base = String::new(alloc);
    let mut tried = 0u64;
    let mut other = 0u64;
    for line in rt.lines(alloc) {
        let line = line?;
        if line.is_empty() || line.as_str().starts_with('#') {
            continue;
        }
        if base.is_empty() {
            base = line;
            continue;
        }
        tried = tried.saturating_add(1);
        if let Some(found) = other_answer(alloc, base.as_str(), line.as_str())? {
            other = other.saturating_add(1);
            println!(rt; "{line}: {found}")?;
        }
    }
    println!(rt; "{tried} descriptions, {other} answered otherwise")?;
    shown::show(&rt, alloc, base.as_str())?;
    made::bytes(&rt, alloc)?;
    made::depths(&rt, alloc)?;
    made::digits(&rt, alloc)?;
    made::prefixes(&rt, alloc, base.as_str())?;
    made::lengths(&rt, alloc, base.as_str())?;
    made::jobs(&rt, alloc, base.as_str())?;
    made::queues(&rt, alloc, base.as_str())
}
