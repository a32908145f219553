//! Reading a printed state.

ghost use Rattle.std.specs.Prelude.{◌≡◌, ◌<◌, codes};
ghost use Rattle.vfm_types.specs.Desc.{device_count};
ghost use Rattle.vfm_types.specs.Valid.{IsValid};
ghost use Rattle.vfm_report.specs.LineList.{lines_left};
ghost use Rattle.vfm_report.specs.Found.{one_line, titled};
ghost use Rattle.vfm_report.specs.Finding.{Finds};
ghost use Rattle.vfm_report.specs.Readers.{page_in, pages_reader, devices_reader, state_reader};

use crate::device::{bytes_of, read_device};
use crate::lines::Lines;
use crate::printed::{PrintedDevice, PrintedState};
use crate::state_line::named_word;
use crate::stop::Stop;
use crate::words::{Words, is_word};
use std::alloc::Global;
use vfm_plain::Sheet;
use vfm_types::{Bytes, Desc, DeviceId};

/// Page `p`.
fn read_page(alloc: Global, lines: &mut Lines, desc: &Desc, p: u32) -> Result<Sheet, Stop>
    ensures { Finds (λ page. page) result (lines_left lines.new) (one_line (page_in desc.now p) (lines_left lines.old)) }
{
    let Some((line, after)) = lines.first() else {
        return Err(Stop::BadLine);
    };
    let bytes = bytes_of(alloc, desc.page, named_word(Words::of(line), b"page", p))?;
    *lines = after;
    Ok(Sheet::of(Bytes::of(bytes)))
}

/// The pages.
fn read_pages(alloc: Global, lines: &mut Lines, desc: &Desc) -> Result<Vec<Sheet>, Stop>
    ensures { Finds (λ v. v.items) result (lines_left lines.new) (pages_reader desc.now (lines_left lines.old)) }
{
    let mut pages = Vec::new(alloc);
    for p in 0..desc.pages {
        let page = read_page(alloc, lines, desc, p)?;
        if pages.push(page).is_err() {
            return Err(Stop::NoMemory);
        }
    }
    Ok(pages)
}

/// The devices.
fn read_devices(alloc: Global, lines: &mut Lines, desc: &Desc) -> Result<Vec<PrintedDevice>, Stop>
    requires { device_count desc.now < 256 }
    ensures { Finds (λ v. v.items) result (lines_left lines.new) (devices_reader desc.now (lines_left lines.old)) }
{
    let mut devices = Vec::new(alloc);
    for d in 0..desc.devices.len() as u8 {
        let device = read_device(alloc, lines, desc, DeviceId(d))?;
        if devices.push(device).is_err() {
            return Err(Stop::NoMemory);
        }
    }
    Ok(devices)
}

/// A state.
fn read_state(alloc: Global, lines: &mut Lines, desc: &Desc) -> Result<PrintedState, Stop>
    requires { device_count desc.now < 256 }
    ensures { Finds (λ state. state) result (lines_left lines.new) (state_reader desc.now (lines_left lines.old)) }
{
    let pages = read_pages(alloc, lines, desc)?;
    let devices = read_devices(alloc, lines, desc)?;
    Ok(PrintedState { pages, devices })
}

/// A state under a title, where the title stands there.
pub(crate) fn read_titled_state(
    alloc: Global,
    lines: &mut Lines,
    desc: &Desc,
    title: &[u8],
) -> Result<Option<PrintedState>, Stop>
    requires { device_count desc.now < 256 }
    ensures { Finds (λ state. state) result (lines_left lines.new) (titled title.now (state_reader desc.now) (lines_left lines.old)) }
{
    let Some((line, after)) = lines.first() else {
        return Ok(None);
    };
    if !is_word(line, title) {
        return Ok(None);
    }
    *lines = after;
    let state = read_state(alloc, lines, desc)?;
    Ok(Some(state))
}
