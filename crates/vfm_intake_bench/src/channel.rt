//! The channel that carries the state of the machine.

ghost use Rattle.std.specs.Prelude.{◌≤◌, ◌<◌};
ghost use Rattle.vfm_record.specs.Writing.{IsWritable};
ghost use Rattle.vfm_types.specs.Valid.{IsValid};

use crate::machine::PAGES;
use anyhow::{Result, bail};
use std::alloc::Global;
use vfm_packet::{Header, Kind};
use vfm_record::{Rec, put_end, put_record, shape_digest};
use vfm_types::Desc;

/// How many bytes the packet of a page has: a header, the number of the page, and its bytes.
const PACKET: u32 = 4_141;

/// Room for the other packets, in bytes.
const REST: u32 = 1_024;

/// The order of the packets.
#[derive(Clone, Copy, Debug, PartialEq, Eq)]
pub enum Order {
    /// By their indexes.
    Rising,
    /// The greatest index first.
    Falling,
}

// Appends the packet of a record, with this index in its stream.
fn put(out: &mut Vec<u8>, stream: u32, index: u32, rec: &Rec) -> Result<()>
    requires { IsWritable rec.now }
{
    let kind = match rec {
        Rec::Config { .. } => Kind::Config,
        _ => Kind::Data,
    };
    let head = Header {
        version: 1,
        kind,
        session: 7,
        stream,
        index,
        length: 0,
    };
    match put_record(&head, rec, out) {
        Ok(()) => Ok(()),
        Err(_) => bail!("no memory for the channel"),
    }
}

// Appends packet `index` of the device: its block, its engine, and then the digest of its shape.
fn put_of_device(out: &mut Vec<u8>, desc: &Desc, index: u32) -> Result<()>
    requires { IsValid desc.now }
{
    match index {
        0 => put(
            out,
            1,
            index,
            &Rec::Block {
                b: 0,
                bytes: &[0; 64],
            },
        ),
        1 => {
            let rec = Rec::Engine {
                accepted: 0,
                done: 0,
                lost: 0,
                pend: 0,
                buf: &[0; 64],
            };
            put(out, 1, index, &rec)
        }
        _ => put(
            out,
            1,
            index,
            &Rec::Config {
                digest: &shape_digest(desc, 1),
            },
        ),
    }
}

// Appends packet `index` of memory: of so many pages, one after the other, and then the digest of its shape.
fn put_of_memory(out: &mut Vec<u8>, desc: &Desc, pages: u32, index: u32) -> Result<()>
    requires { IsValid desc.now }
{
    if index < pages {
        let rec = Rec::Page {
            p: index % PAGES,
            bytes: &[(index % 256) as u8; 4096],
        };
        return put(out, 0, index, &rec);
    }
    put(
        out,
        0,
        index,
        &Rec::Config {
            digest: &shape_digest(desc, 0),
        },
    )
}

/// The bytes of a channel of just under so many mebibytes.
pub fn channel(alloc: Global, desc: &Desc, mebibytes: u32, order: Order) -> Result<Vec<u8>>
    requires valid { IsValid desc.now }
    requires some { 1 ≤ mebibytes }
    requires few { mebibytes ≤ 64 }
{
    let most = mebibytes * 1_048_576;
    let pages = (most - REST) / PACKET;
    let mut out = Vec::with_capacity(alloc, most as usize)?;
    for place in 0..pages + 1 {
        let index = in_order(order, place, pages + 1);
        put_of_memory(&mut out, desc, pages, index)?;
    }
    for place in 0..3 {
        put_of_device(&mut out, desc, in_order(order, place, 3))?;
    }
    if put_end(1, 7, &mut out).is_err() {
        bail!("no memory for the channel");
    }
    Ok(out)
}

// The index at this place of so many.
fn in_order(order: Order, place: u32, count: u32) -> u32
    requires { place < count }
{
    match order {
        Order::Rising => place,
        Order::Falling => count - 1 - place,
    }
}
