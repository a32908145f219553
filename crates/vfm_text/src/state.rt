//! Machines as text.

ghost use Rattle.std.specs.Prelude.{◌≡◌, ℕ, ◌<◌, ◌≤◌, sum, List, [], ◌∷◌, ◌++◌, codes, decimal, slice_index_or, length};
ghost use Rattle.std.specs.List.{flat_map};
ghost use Rattle.hex.specs.Hex.{encode_lower};
ghost use Rattle.vfm_types.specs.Desc.{device_count, shape_at};
ghost use Rattle.vfm_types.specs.Machine.{device_of};
ghost use Rattle.vfm_plain.specs.Text.{line, numbered_text};
ghost use Rattle.vfm_plain.specs.Shape.{HasShape};
ghost use Rattle.vfm_plain.specs.StateText.{pages_text, pending_line, counts_line, buf_line, bar_line, numbered_bar_line, pieces, bars_text, described_text, devices_text, state_text};
ghost use Rattle.vfm_text.specs.Writers.{Writes};

use crate::piece::{put_hex_line, put_line};
use crate::{MachineView, TextBuffer, TextWriter};
use itoa::Buffer;
use vfm_outside::Failed;
use vfm_types::{Desc, DeviceId};

/// Writes the lines of a machine's pages.
fn put_pages<P: TextWriter, M: MachineView>(
    writer: &mut P,
    machine: &M,
    desc: &Desc,
) -> Result<(), Failed>
    requires { HasShape desc.now (M.machine machine.now) }
    ensures { Writes P.takes P.stops writer.old writer.new (pages_text 0 (M.machine machine.now).pages) result }
{
    for p in 0..desc.pages {
        put_hex_line(writer, b"page", p, machine.page(p))?;
    }
    Ok(())
}

/// Writes the line of a device with its name and its counts.
fn put_counts<P: TextWriter, M: MachineView>(
    writer: &mut P,
    machine: &M,
    desc: &Desc,
    d: DeviceId,
) -> Result<(), Failed>
    requires shape { HasShape desc.now (M.machine machine.now) }
    requires device { d < device_count desc.now }
    ensures { Writes P.takes P.stops writer.old writer.new (counts_line d (shape_at desc.now d).name (device_of (M.machine machine.now) d)) result }
{
    let (accepted, done, lost) = machine.counts(d);
    let name = desc.devices.at(u32::from(d.0)).name.bytes();
    let mut digits = Buffer::new();
    let mut accepted_digits = Buffer::new();
    let mut done_digits = Buffer::new();
    let mut lost_digits = Buffer::new();
    put_line(
        writer,
        b"device",
        &[
            digits.format(d.0).as_bytes(),
            name,
            b"accepted",
            accepted_digits.format(accepted).as_bytes(),
            b"done",
            done_digits.format(done).as_bytes(),
            b"lost",
            lost_digits.format(lost).as_bytes(),
        ],
    )
}

/// Writes the line of a device's buffer.
fn put_buf<P: TextWriter, M: MachineView>(
    writer: &mut P,
    machine: &M,
    d: DeviceId,
) -> Result<(), Failed>
    requires { d < length (M.machine machine.now).devices }
    ensures { Writes P.takes P.stops writer.old writer.new (buf_line d (device_of (M.machine machine.now) d)) result }
{
    put_hex_line(writer, b"buf", u32::from(d.0), machine.buf(d))
}

/// Writes the line of one BAR of several.
fn put_bar<P: TextWriter>(writer: &mut P, d: DeviceId, k: u32, bytes: &[u8]) -> Result<(), Failed>
    ensures { Writes P.takes P.stops writer.old writer.new (numbered_bar_line d k bytes.now) result }
{
    let mut digits = Buffer::new();
    let mut word = TextBuffer::new();
    word.add(b"bar ");
    word.add(digits.format(d.0).as_bytes());
    put_hex_line(writer, word.as_slice(), k, bytes)
}

/// Writes the lines of BARs of these sizes, numbered from 0, whose bytes lie one after the other.
fn put_pieces<P: TextWriter>(
    writer: &mut P,
    d: DeviceId,
    sizes: &[u32],
    bytes: &[u8],
) -> Result<(), Failed>
    requires few { length sizes.now ≤ 6 }
    requires whole { sum sizes.now ≡ length bytes.now }
    ensures { Writes P.takes P.stops writer.old writer.new (numbered_text (numbered_bar_line d) 0 (pieces sizes.now bytes.now)) result }
{
    let mut rest = bytes;
    for k in 0..sizes.len() {
        let (bar, more) = rest.split_at(sizes[k] as usize);
        put_bar(writer, d, k as u32, bar)?;
        rest = more;
    }
    Ok(())
}

/// Writes the lines of BARs of these sizes: one has no number.
fn put_sized_bars<P: TextWriter>(
    writer: &mut P,
    d: DeviceId,
    sizes: &[u32],
    bytes: &[u8],
) -> Result<(), Failed>
    requires few { length sizes.now ≤ 6 }
    requires whole { sum sizes.now ≡ length bytes.now }
    ensures { Writes P.takes P.stops writer.old writer.new (bars_text d sizes.now bytes.now) result }
{
    if sizes.len() == 1 {
        put_hex_line(writer, b"bar", u32::from(d.0), bytes)
    } else {
        put_pieces(writer, d, sizes, bytes)
    }
}

/// Writes the lines of a device's BARs.
fn put_bars<P: TextWriter, M: MachineView>(
    writer: &mut P,
    machine: &M,
    desc: &Desc,
    d: DeviceId,
) -> Result<(), Failed>
    requires shape { HasShape desc.now (M.machine machine.now) }
    requires device { d < device_count desc.now }
    ensures { Writes P.takes P.stops writer.old writer.new (bars_text d (shape_at desc.now d).bars (device_of (M.machine machine.now) d).bar) result }
{
    let sizes = desc.devices.at(u32::from(d.0)).bars.as_slice();
    put_sized_bars(writer, d, sizes, machine.bar(d))
}

/// Writes the line of a pending request.
fn put_request<P: TextWriter>(
    writer: &mut P,
    d: DeviceId,
    request: (u32, u32),
) -> Result<(), Failed>
    ensures { Writes P.takes P.stops writer.old writer.new (pending_line d request) result }
{
    let mut device = Buffer::new();
    let mut number = Buffer::new();
    let mut job = Buffer::new();
    put_line(
        writer,
        b"pend",
        &[
            device.format(d.0).as_bytes(),
            number.format(request.0).as_bytes(),
            job.format(request.1).as_bytes(),
        ],
    )
}

/// Writes the lines of pending requests.
fn put_pending<P: TextWriter>(
    writer: &mut P,
    d: DeviceId,
    pending: &[(u32, u32)],
) -> Result<(), Failed>
    ensures { Writes P.takes P.stops writer.old writer.new (flat_map (pending_line d) pending.now) result }
{
    for request in pending {
        put_request(writer, d, *request)?;
    }
    Ok(())
}

/// Writes the lines of a device.
fn put_device<P: TextWriter, M: MachineView>(
    writer: &mut P,
    machine: &M,
    desc: &Desc,
    d: DeviceId,
) -> Result<(), Failed>
    requires shape { HasShape desc.now (M.machine machine.now) }
    requires device { d < device_count desc.now }
    ensures { Writes P.takes P.stops writer.old writer.new (described_text desc.now d (device_of (M.machine machine.now) d)) result }
{
    put_counts(writer, machine, desc, d)?;
    put_buf(writer, machine, d)?;
    put_bars(writer, machine, desc, d)?;
    put_pending(writer, d, machine.pending(d))
}

/// Writes the lines of a machine's devices.
fn put_devices<P: TextWriter, M: MachineView>(
    writer: &mut P,
    machine: &M,
    desc: &Desc,
) -> Result<(), Failed>
    requires shape { HasShape desc.now (M.machine machine.now) }
    requires few { device_count desc.now < 256 }
    ensures { Writes P.takes P.stops writer.old writer.new (devices_text desc.now 0 (M.machine machine.now).devices) result }
{
    for d in 0..desc.devices.len() as u8 {
        put_device(writer, machine, desc, DeviceId(d))?;
    }
    Ok(())
}

/// Writes the text of a machine: its pages, then its devices.
pub fn put_state<P: TextWriter, M: MachineView>(
    writer: &mut P,
    machine: &M,
    desc: &Desc,
) -> Result<(), Failed>
    requires shape { HasShape desc.now (M.machine machine.now) }
    requires few { device_count desc.now < 256 }
    ensures { Writes P.takes P.stops writer.old writer.new (state_text desc.now (M.machine machine.now)) result }
{
    put_pages(writer, machine, desc)?;
    put_devices(writer, machine, desc)
}
