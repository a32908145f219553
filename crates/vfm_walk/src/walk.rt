//! One walk: entries are drawn, and each is tried on the core.

ghost use Rattle.std.specs.Prelude.{◌<◌};

use crate::draws::Draws;
use anyhow::{Result, bail};
use std::alloc::Global;
use std::io::Print;
use vfm_core::Core;
use vfm_device_part::Guard;
use vfm_quiet::{Want, next};
use vfm_samples::machine;
use vfm_types::{Desc, DeviceId, Entry, MigState};

/// How many entries a walk tries.
const STEPS: u32 = 5_000;

/// How many are tried after a move was given up or taken over, before the machine begins anew.
const STEPS_OVER: u32 = 500;

/// What the steps of a walk were answered so far.
#[derive(Drop)]
pub struct Answers {
    /// How many entries were made, and how many were refused by each of the ten rules.
    pub counts: [u32; 11],
    /// A sum over all answers in their order: FNV-1a of 64 bits, over 0 for an entry that was made and else the rule.
    pub sum: u64,
}

impl Answers {
    fn new() -> Answers {
        Answers {
            counts: [0; 11],
            sum: 0xcbf2_9ce4_8422_2325,
        }
    }

    fn add(&mut self, answer: u32) {
        let answer = answer.min(10) as usize;
        self.counts[answer] = self.counts[answer].saturating_add(1);
        self.sum = (self.sum ^ answer as u64).wrapping_mul(0x100_0000_01b3);
    }
}

/// A machine on its walk: how many requests each device has issued, and how many steps ago its move was over.
#[derive(Drop)]
pub struct Walker {
    pub core: Core,
    issued: [u32; 8],
    over: u32,
}

impl Walker {
    fn of(alloc: Global, i: u32) -> Result<Walker>
        requires { i < 40 }
    {
        let Ok(core) = Core::of(alloc, machine(alloc, i)?) else {
            bail!("no memory");
        };
        Ok(Walker {
            core,
            issued: [0; 8],
            over: 0,
        })
    }

    // what the coordinator wants next
    fn wanted(&self, abort_after: u32) -> Option<Entry> {
        let look = self.core.look();
        let desc = self.core.desc();
        if u32::from(look.count) != desc.devices.len()
            || look.count > 8
            || look.passes == u32::MAX
        {
            return None;
        }
        match next(desc, &look, abort_after) {
            Want::Do(entry) => Some(entry),
            Want::Wait | Want::Done => None,
        }
    }

    // the entry that is tried next
    fn drawn(&self, draws: &mut Draws, abort_after: u32) -> Entry {
        let desc = self.core.desc();
        let kind = draws.below(32);
        let d = draws.below(desc.devices.len().max(1)).min(7);
        let back = draws.below(3);
        let issued = self.issued[d as usize];
        let n = issued.saturating_sub(1).saturating_sub(back);
        let d = DeviceId(d as u8);
        match kind {
            0..=4 => Entry::Issue { d, n: issued },
            5..=8 => Entry::Deliver { d, n },
            9..=12 => Entry::Complete { d, n },
            13..=24 => match self.wanted(abort_after) {
                Some(entry) => entry,
                None => Entry::Issue { d, n: issued },
            },
            25 => Entry::Issue {
                d,
                n: draws.below(16),
            },
            26 => towards(back, d, state(draws.below(8))),
            27 if back == 0 => Entry::Report { d },
            27 => Entry::Dry { d },
            28 if back == 0 => Entry::Pass { k: draws.below(5) },
            28 => Entry::Copy {
                p: draws.below(desc.pages.max(1)),
            },
            29 => Entry::Block {
                d,
                b: draws.below(blocks_of(desc, d).max(1)),
            },
            30 => match back {
                0 => Entry::Begin,
                1 => Entry::Joint,
                _ => Entry::Resume,
            },
            _ if draws.below(64) == 0 => Entry::Abort,
            _ => Entry::Resume,
        }
    }

    // tries an entry
    fn step(&mut self, entry: Entry, answers: &mut Answers) -> Result<()> {
        if !self.core.has_entry(&entry) {
            bail!("{entry:?} names what the machine hasn't got");
        }
        match self.core.step(entry) {
            Ok(()) => {
                answers.add(0);
                if let Entry::Issue { d, n: _ } = entry {
                    let d = usize::from(d.0).min(7);
                    self.issued[d] = self.issued[d].saturating_add(1);
                }
            }
            Err(Guard(rule)) => answers.add(rule.number()),
        }
        let look = self.core.look();
        if look.aborted || look.resumed {
            self.over = self.over.saturating_add(1);
        }
        Ok(())
    }
}

// the state with this number, below 8
fn state(number: u32) -> MigState {
    match MigState::of_number(number) {
        Some(state) => state,
        None => MigState::Error,
    }
}

// a hold, an arc or a failing arc
fn towards(which: u32, d: DeviceId, to: MigState) -> Entry {
    match which {
        0 => Entry::Hold { d, to },
        1 => Entry::Arc { d, to },
        _ => Entry::Fail { d, to },
    }
}

// how many blocks a device has; none where there is no such device
fn blocks_of(desc: &Desc, d: DeviceId) -> u32 {
    let d = u32::from(d.0);
    if d >= desc.devices.len() {
        return 0;
    }
    desc.devices.at(d).bar_bytes() / 64
}

// prints what the steps so far were answered
fn show(rt: &impl Print, i: u32, answers: &Answers) -> Result<()> {
    let [
        made,
        one,
        two,
        three,
        four,
        five,
        six,
        seven,
        eight,
        nine,
        ten,
    ] = answers.counts;
    let number = i.saturating_add(1);
    let sum = answers.sum;
    println!(rt;
        "{number}: made {made}, refused {one} {two} {three} {four} {five} {six} {seven} {eight} {nine} {ten}, answers {sum}"
    )?;
    Ok(())
}

/// Walks machine `i`, and prints the answers so far as each of its moves comes to its end.
pub fn walk(rt: &impl Print, alloc: Global, i: u32) -> Result<()>
    requires { i < 40 }
{
    let mut draws = Draws::of(u64::from(i) + 1);
    let abort_after = if (i + 1) % 5 == 0 { 2 } else { 0 };
    let mut answers = Answers::new();
    let mut walker = Walker::of(alloc, i)?;
    for step in 1..STEPS + 1 {
        let entry = walker.drawn(&mut draws, abort_after);
        walker.step(entry, &mut answers)?;
        if walker.over == STEPS_OVER || step == STEPS {
            show(rt, i, &answers)?;
            walker = Walker::of(alloc, i)?;
        }
    }
    Ok(())
}
