//! The links that a move of a case goes over.

ghost use Rattle.std.specs.Prelude.{◌≡◌, ◌*◌, ◌≤◌, All, IfOk, length, map, vec_len};
ghost use Rattle.vfm_outside.specs.Links.{IsNew};
ghost use Rattle.vfm_outside.specs.ScriptEnds.{EndsAreNew, script_told};

use crate::trouble::Trouble;
use crate::words::{bytes, number, numbers};
use std::alloc::Global;
use vfm_outside::{Ends, ScriptLink};

/// What a move of a case goes over.
#[derive(Clone, Copy)]
pub enum Wiring<'a> {
    /// No links: none can be had.
    Missing,
    /// Rings in memory, with these calls that fail.
    Rings(&'a str),
    /// Links that bring what was fixed beforehand: both for control, then for each channel the source's and the destination's.
    Links(&'a [&'a str]),
    /// Sockets of this machine.
    Tcp,
}

impl<'a> Wiring<'a> {
    /// What these parts of a case say.
    pub fn of(parts: &'a [&'a str]) -> Result<Wiring<'a>, Trouble> {
        match parts {
            ["none"] => Ok(Wiring::Missing),
            ["rings", calls] => Ok(Wiring::Rings(calls)),
            ["links", links @ ..] => Ok(Wiring::Links(links)),
            ["tcp"] => Ok(Wiring::Tcp),
            _ => Err(Trouble::Form),
        }
    }
}

// A new link: what it brings, its calls that fail, the most bytes that a call moves, and its room.
fn link_of(alloc: Global, text: &str) -> Result<ScriptLink, Trouble>
    ensures { IfOk result (λ link. IsNew (script_told link)) }
{
    let words: Vec<&str> = text.split(' ').collect(alloc)?;
    let [inbox, fail, most, room] = words.as_slice() else {
        return Err(Trouble::Form);
    };
    let most = number(most)?;
    if most == 0 {
        return Err(Trouble::Form);
    }
    let inbox = bytes(alloc, inbox)?;
    let room = number(room)? as usize;
    Ok(ScriptLink::of(alloc, inbox, room, numbers(alloc, fail)?, most)?)
}

// The links of so many channels: for each the source's and the destination's.
#[tactic(auto, using(vfm_net::proofs::Rows::all_new_more))]
fn rows_of(
    alloc: Global,
    links: &[&str],
    channels: usize,
) -> Result<(Vec<ScriptLink>, Vec<ScriptLink>), Trouble>
    requires { 2 * channels ≤ length links.now }
    ensures counts { IfOk result (λ rows. (vec_len rows.0 ≡ channels) × (vec_len rows.1 ≡ channels)) }
    ensures source { IfOk result (λ rows. All IsNew (map script_told rows.0.items)) }
    ensures dest { IfOk result (λ rows. All IsNew (map script_told rows.1.items)) }
{
    let mut source = Vec::new(alloc);
    let mut dest = Vec::new(alloc);
    for k in 0..channels {
        source.push(link_of(alloc, links[2 * k])?)?;
        dest.push(link_of(alloc, links[2 * k + 1])?)?;
    }
    Ok((source, dest))
}

/// The ends of links that are written so: both for control, then for each channel the source's and the destination's.
pub fn ends_of(alloc: Global, links: &[&str]) -> Result<Ends<ScriptLink>, Trouble>
    ensures { IfOk result EndsAreNew }
{
    let [near, far, channels @ ..] = links else {
        return Err(Trouble::Form);
    };
    if channels.len() % 2 != 0 {
        return Err(Trouble::Form);
    }
    let source_control = link_of(alloc, near)?;
    let dest_control = link_of(alloc, far)?;
    let (source, dest) = rows_of(alloc, channels, channels.len() / 2)?;
    Ok(Ends {
        source_control,
        source,
        dest_control,
        dest,
    })
}
