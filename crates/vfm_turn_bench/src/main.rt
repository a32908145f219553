//! Has seats in threads of their own draw entries on one board, and checks the stamps and the chains of the cells.
//! `tools/bench` times it.
//!
//! Without arguments: 2, 4 and 8 seats on one cell and on twelve, 100,000 draws each. With two, `SEATS DRAWS`: 1 to 8
//! seats that draw up to 10,000,000 entries in all, each on its own cell; and with a third, `one`, all on one cell.
#![tactic(auto)]

ghost use Rattle.std.specs.Prelude.{◌<◌, ◌≤◌, IfSome};

mod chain;
mod count;
mod round;
mod worker;

use anyhow::{Result, bail};
use round::Round;
use std::alloc::Global;
use std::env;
use std::rt::Env;

// what is run where no argument says so: seats and cells
const RUNS: [(u32, u32); 6] = [(2, 1), (4, 1), (8, 1), (2, 12), (4, 12), (8, 12)];

const DRAWS: u32 = 100_000;

const MOST_DRAWS: u32 = 10_000_000;

// a number from 1 to `most`, in digits without a leading zero
fn number_of(text: &str, most: u32) -> Option<u32>
    ensures { IfSome result (λ n. (0 < n) × (n ≤ most)) }
{
    let bytes = text.as_bytes();
    if !bytes.iter().all(|byte| byte.is_ascii_digit()) {
        return None;
    }
    if bytes.first() == Some(&b'0') {
        return None;
    }
    let number = text.parse::<u32>().ok()?;
    if number == 0 || number > most {
        return None;
    }
    Some(number)
}

// the round that the command line asks for, if it asks for one
fn asked_round(rt: &(impl Env + AllocGlobal)) -> Result<Option<Round>> {
    let mut words = env::args(rt)?;
    let _program = words.next();
    let Some(seats) = words.next() else {
        return Ok(None);
    };
    let Some(seats) = number_of(seats.as_str(), round::MOST_SEATS) else {
        bail!("the seats are a number from 1 to 8");
    };
    let Some(draws) = words.next() else {
        bail!("how many draws?");
    };
    let Some(draws) = number_of(draws.as_str(), MOST_DRAWS) else {
        bail!("the draws are a number from 1 to 10000000");
    };
    let cells = match words.next() {
        None => seats,
        Some(word) if word.as_str() == "one" => 1,
        Some(_) => bail!("the third argument is 'one' or left out"),
    };
    Ok(Some(Round {
        seats,
        cells,
        draws,
        does_roam: false,
    }))
}

fn main(rt: HostRuntime) -> Result<()> {
    let alloc: Global = rt.alloc();
    if let Some(round) = asked_round(&rt)? {
        let told = round.run(&rt, alloc)?;
        println!(rt; "{told}")?;
        return Ok(());
    }
    for (seats, cells) in &RUNS {
        let round = Round {
            seats: *seats,
            cells: *cells,
            draws: DRAWS,
            does_roam: true,
        };
        let told = round.run(&rt, alloc)?;
        println!(rt; "{told}")?;
    }
    Ok(())
}
