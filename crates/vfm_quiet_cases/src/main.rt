//! Tries the coordinator's order on a table of looks, whose lines it reads from its input. What is to be done next was
//! worked out by a separate program.
#![tactic(auto)]

mod case;
mod tally;
mod words;

use case::Case;
use std::alloc::Global;
use std::io;
use std::io::Print;
use tally::Tally;
use vfm_quiet::{Want, next};

// what is to be done next; nothing where the line's numbers fit no move
fn answer(case: &Case) -> Option<Want> {
    let look = &case.look;
    if u32::from(look.count) != case.desc.devices.len() || look.count > 8 {
        return None;
    }
    if look.passes == u32::MAX {
        return None;
    }
    Some(next(&case.desc, look, case.abort_after))
}

// Whether a line's look is answered as the line says; prints the line where it isn't.
fn is_right(rt: &impl Print, alloc: Global, line: &str, tally: &mut Tally) -> io::Result<bool> {
    match case::read(alloc, line)? {
        None => {
            println!(rt; "no case: {line}")?;
            Ok(false)
        }
        Some(case) => compare(rt, line, &case, tally),
    }
}

// whether a case is answered as it says
fn compare(rt: &impl Print, line: &str, case: &Case, tally: &mut Tally) -> io::Result<bool> {
    match answer(case) {
        None => {
            println!(rt; "no move: {line}")?;
            Ok(false)
        }
        Some(want) => {
            tally.add(want);
            let right = want == case.want;
            if !right {
                println!(rt; "{line}: {want:?}")?;
            }
            Ok(right)
        }
    }
}

fn main(rt: HostRuntime) -> io::Result<()> {
    let alloc = rt.alloc();
    let mut tried = 0u64;
    let mut other = 0u64;
    let mut tally = Tally::none();
    for line in rt.lines(alloc) {
        let line = line?;
        if line.is_empty() || line.as_str().starts_with('#') {
            continue;
        }
        tried = tried.saturating_add(1);
        if !is_right(&rt, alloc, line.as_str(), &mut tally)? {
            other = other.saturating_add(1);
        }
    }
    println!(rt; "{tried} looks, {other} answered otherwise")?;
    tally.print(&rt)
}
