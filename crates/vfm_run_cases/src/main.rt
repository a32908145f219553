//! Tries whole runs on a table of cases, which it reads from its input: machines, the links that a move of one goes over,
//! and what fails there. It prints how each run ended, a digest of what was printed, and what an audit says of that.
//! `tools/run-cases` makes the table, and computes what is to be printed from the rules alone.
#![tactic(auto)]

mod links;
mod runs;
mod trouble;
mod words;

use crate::links::Wiring;
use crate::runs::{Case, answer_of};
use crate::trouble::Trouble;
use std::alloc::Global;
use std::io;
use std::net::Net;
use std::sync::Wait;
use std::thread::Threads;

/// A described machine of the table.
#[derive(Drop)]
struct Machine {
    name: String,
    text: String,
}

// the text of the machine with this name
fn text_of<'a>(machines: &'a [Machine], name: &str) -> Result<&'a str, Trouble> {
    for machine in machines {
        if machine.name.as_str() == name {
            return Ok(machine.text.as_str());
        }
    }
    Err(Trouble::Form)
}

// what comes of a case
fn tried<'a, H: Threads + Wait + Sync + Net>(
    rt: &H,
    alloc: Global,
    machines: &'a [Machine],
    parts: &'a [&'a str],
) -> Result<String, Trouble>
where
    H::Stream: Send,
{
    let [name, machine, abort, shown, wiring @ ..] = parts else {
        return Err(Trouble::Form);
    };
    let case = Case {
        text: text_of(machines, machine)?,
        abort,
        whole: *shown == "whole",
        wiring: Wiring::of(wiring)?,
    };
    let answer = answer_of(rt, alloc, &case)?;
    Ok(format!(in alloc; "{name} {answer}")?)
}

fn main(rt: HostRuntime) -> io::Result<()> {
    let alloc = rt.alloc();
    let mut machines: Vec<Machine> = Vec::new(alloc);
    for line in rt.lines(alloc) {
        let line = line?;
        let parts: Vec<&str> = line.as_str().split('\t').collect(alloc)?;
        match parts.as_slice() {
            ["machine", name, text] => machines.push(Machine {
                name: String::from_str(alloc, name)?,
                text: String::from_str(alloc, text)?,
            })?,
            ["case", parts @ ..] => match tried(&rt, alloc, machines.as_slice(), parts) {
                Ok(answer) => println!(rt; "{answer}")?,
                Err(trouble) => println!(rt; "{line}: {}", trouble.text())?,
            },
            _ => println!(rt; "{line}: no line of a table")?,
        }
    }
    Ok(())
}
