//! The parts of a core, moved into the list of all cells, and out of it.

ghost use Rattle.std.specs.Prelude.{◌≡◌, ◌+◌, ◌≤◌, ◌++◌, [], length, map, reverse, vec_capacity, vec_len};
ghost use Rattle.vfm_types.specs.Desc.{device_count};
ghost use Rattle.vfm_types.specs.Valid.{IsValid};
ghost use Rattle.vfm_cells.specs.Cells.{cell_count, device_cell, page_cell};
ghost use Rattle.vfm_plant.specs.CellList.{cell_list};
ghost use Rattle.vfm_plant.specs.Rooms.{AreFittingFrom};

use vfm_cell_steps::Part;
use vfm_device_part::{DevPart, PagePart};
use vfm_lead::LeadPart;
use vfm_types::{Desc, DeviceId};

// moves the devices' parts behind the others, in their order
fn move_devices(devices: &mut Vec<DevPart>, cells: &mut Vec<Part>)
    requires { vec_len cells.old + vec_len devices.old ≤ vec_capacity cells.old }
    ensures cells { cells.new.items ≡ cells.old.items ++ map device_cell devices.old.items }
    ensures emptied { (devices.new.items ≡ []) × (vec_capacity devices.new ≡ vec_capacity devices.old) }
    ensures capacity { vec_capacity cells.new ≡ vec_capacity cells.old }
{
    devices.reverse();
    while let Some(device) = devices.pop() {
        cells.push_reserved(Part::of_device(device));
    }
}

// moves the pages behind the others, in their order
fn move_pages(pages: &mut Vec<PagePart>, cells: &mut Vec<Part>)
    requires { vec_len cells.old + vec_len pages.old ≤ vec_capacity cells.old }
    ensures cells { cells.new.items ≡ cells.old.items ++ map page_cell pages.old.items }
    ensures emptied { (pages.new.items ≡ []) × (vec_capacity pages.new ≡ vec_capacity pages.old) }
    ensures capacity { vec_capacity cells.new ≡ vec_capacity cells.old }
{
    pages.reverse();
    while let Some(page) = pages.pop() {
        cells.push_reserved(Part::of_page(page));
    }
}

// Moves all parts into an empty list, in the order of their cells.
pub(crate) fn spread(
    lead: LeadPart,
    devices: &mut Vec<DevPart>,
    pages: &mut Vec<PagePart>,
    cells: &mut Vec<Part>,
)
    requires cells { cells.old.items ≡ [] }
    requires room { vec_len devices.old + vec_len pages.old + 1 ≤ vec_capacity cells.old }
    ensures cells { cells.new.items ≡ cell_list lead devices.old.items pages.old.items }
    ensures devices { (devices.new.items ≡ []) × (vec_capacity devices.new ≡ vec_capacity devices.old) }
    ensures pages { (pages.new.items ≡ []) × (vec_capacity pages.new ≡ vec_capacity pages.old) }
    ensures capacity { vec_capacity cells.new ≡ vec_capacity cells.old }
{
    cells.push_reserved(Part::of_lead(lead));
    move_devices(devices, cells);
    move_pages(pages, cells);
}

// moves the devices' parts out of the end of the list, which has the cells last first
fn take_devices(desc: &Desc, cells: &mut Vec<Part>, devices: &mut Vec<DevPart>)
    requires valid { IsValid desc.now }
    requires count { device_count desc.now ≤ vec_len cells.old }
    requires fits { AreFittingFrom desc.now 1 (reverse cells.old.items) }
    requires devices { (devices.old.items ≡ []) × (device_count desc.now ≤ vec_capacity devices.old) }
    ensures all { cells.new.items ++ reverse (map device_cell devices.new.items) ≡ cells.old.items }
    ensures count { vec_len devices.new ≡ device_count desc.now }
    ensures left { vec_len cells.new + device_count desc.now ≡ vec_len cells.old }
    ensures fits { AreFittingFrom desc.now (device_count desc.now + 1) (reverse cells.new.items) }
{
    for d in 0..desc.devices.len() {
        let Some(part) = cells.pop() else {
            unreachable!()
        };
        devices.push_reserved(part.into_device(desc, DeviceId(d as u8)));
    }
}

// moves the pages out of the end of the list, in the same way
fn take_pages(desc: &Desc, cells: &mut Vec<Part>, pages: &mut Vec<PagePart>)
    requires count { desc.now.pages ≤ vec_len cells.old }
    requires fits { AreFittingFrom desc.now (device_count desc.now + 1) (reverse cells.old.items) }
    requires pages { (pages.old.items ≡ []) × (desc.now.pages ≤ vec_capacity pages.old) }
    ensures all { cells.new.items ++ reverse (map page_cell pages.new.items) ≡ cells.old.items }
    ensures count { vec_len pages.new ≡ desc.now.pages }
    ensures left { vec_len cells.new + desc.now.pages ≡ vec_len cells.old }
{
    for p in 0..desc.pages {
        let Some(part) = cells.pop() else {
            unreachable!()
        };
        pages.push_reserved(part.into_page(desc, p));
    }
}

// Moves all parts out of the list, which has them in the order of their cells.
pub(crate) fn collect(
    desc: &Desc,
    mut cells: Vec<Part>,
    devices: &mut Vec<DevPart>,
    pages: &mut Vec<PagePart>,
) -> LeadPart
    requires valid { IsValid desc.now }
    requires count { length cells.items ≡ cell_count desc.now }
    requires fits { AreFittingFrom desc.now 0 cells.items }
    requires devices { (devices.old.items ≡ []) × (device_count desc.now ≤ vec_capacity devices.old) }
    requires pages { (pages.old.items ≡ []) × (desc.now.pages ≤ vec_capacity pages.old) }
    ensures cells { cell_list result devices.new.items pages.new.items ≡ cells.items }
    ensures devices { vec_len devices.new ≡ device_count desc.now }
    ensures pages { vec_len pages.new ≡ desc.now.pages }
{
    cells.reverse();
    let Some(part) = cells.pop() else {
        unreachable!()
    };
    let lead = part.into_lead(desc);
    take_devices(desc, &mut cells, devices);
    take_pages(desc, &mut cells, pages);
    lead
}
