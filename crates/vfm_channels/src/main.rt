//! Tries the whole receiving side of a move on a table of channels, which it reads from its input: what comes goes through
//! readers, a mesh of rings and an intake, and the verdict is printed. `tools/channels` makes the table, and computes what
//! is to be printed from the format alone.
#![tactic(auto)]

mod digest;
mod machine;
mod receive;
mod trouble;
mod words;

use crate::digest::digest_of;
use crate::machine::Machine;
use crate::receive::received;
use crate::words::number;
use std::alloc::Global;
use std::io;
use trouble::Trouble;

// The answer to a case: its machine's number, the slots of a ring, and the channels.
fn answer_of(alloc: Global, machines: &[Machine], words: &[&str]) -> Result<String, Trouble> {
    let [which, slots, channels @ ..] = words else {
        return Err(Trouble::Form);
    };
    let which = number(which)? as usize;
    if which >= machines.len() {
        return Err(Trouble::Form);
    }
    let machine = &machines[which];
    match received(alloc, machine, number(slots)?, channels)? {
        Ok(parts) => {
            let digest = digest_of(alloc, &machine.desc, parts.as_slice())?;
            Ok(format!(in alloc; "loaded {digest}")?)
        }
        Err(refusal) => {
            let code = refusal.code;
            let a = refusal.a;
            let b = refusal.b;
            Ok(format!(in alloc; "refused {code} {a} {b}")?)
        }
    }
}

fn main(rt: HostRuntime) -> io::Result<()> {
    let alloc = rt.alloc();
    let mut machines: Vec<Machine> = Vec::new(alloc);
    for line in rt.lines(alloc) {
        let line = line?;
        let words: Vec<&str> = line.as_str().split(' ').collect(alloc)?;
        match words.as_slice() {
            ["machine", parts @ ..] => match Machine::of(alloc, parts) {
                Ok(machine) => machines.push(machine)?,
                Err(trouble) => println!(rt; "machine: {}", trouble.text())?,
            },
            ["case", name, parts @ ..] => match answer_of(alloc, machines.as_slice(), parts) {
                Ok(answer) => println!(rt; "{name} {answer}")?,
                Err(trouble) => println!(rt; "{name}: {}", trouble.text())?,
            },
            _ => {}
        }
    }
    Ok(())
}
