//! Tries the audit on edited reports of whole moves, which it reads from its input, and prints what it says of each. What it
//! is to print comes from `tools/audit-cases`, which has the rules in a computation of its own.
#![tactic(auto)]

mod answer;
mod edit;

use answer::answer;
use anyhow::Result;
use edit::{Edit, edited};
use std::alloc::Global;

/// What was read so far: the number of a machine, the lines of the report of its move, and whether these have ended.
#[derive(Drop)]
struct Case {
    machine: u32,
    lines: Vec<String>,
    whole: bool,
}

impl Case {
    fn new(alloc: Global) -> Case {
        Case {
            machine: 0,
            lines: Vec::new(alloc),
            whole: true,
        }
    }

    // takes a line of the input, and says what is to be printed for it
    fn take(&mut self, alloc: Global, line: String) -> Result<Option<String>> {
        if let Some(number) = line.as_str().strip_prefix("report ")
            && self.whole
        {
            self.machine = number.parse::<u32>()?;
            self.lines = Vec::new(alloc);
            self.whole = false;
            return Ok(None);
        }
        if self.whole {
            let edit = Edit::of(line.as_str())?;
            return Ok(Some(self.answer(alloc, &edit)?));
        }
        if line.as_str() != "." {
            self.lines.push(line)?;
            return Ok(None);
        }
        self.whole = true;
        let legal = self.answer(alloc, &Edit::none())?;
        let machine = self.machine;
        Ok(Some(format!(in alloc; "report {machine}: {legal}")?))
    }

    // what the audit says of the report with this edit
    fn answer(&self, alloc: Global, edit: &Edit) -> Result<String> {
        let text = edited(alloc, self.lines.as_slice(), edit)?;
        answer(alloc, self.machine, text.as_slice())
    }
}

fn main(rt: HostRuntime) -> Result<()> {
    let alloc = rt.alloc();
    let mut case = Case::new(alloc);
    for line in rt.lines(alloc) {
        if let Some(text) = case.take(alloc, line?)? {
            println!(rt; "{text}")?;
        }
    }
    Ok(())
}
