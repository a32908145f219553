//! A generated load in whole.

ghost use Rattle.std.specs.Prelude.{◌≡◌, map, vec_len, IfOk};
ghost use Rattle.std.specs.List.{range_with_len};
ghost use Rattle.vfm_types.specs.Valid.{IsValid};
ghost use Rattle.vfm_loads.specs.Generated.{load_shape, generated};

use crate::device::device;
use std::alloc::Global;
use vfm_types::{Desc, DevShape, NoMemory, Shapes};

const DEVICES: u32 = 8;

/// The description of load `n`: eight devices with 1,120 requests each, whose end depends on no schedule. Its
/// session is its number. Takes memory for the devices, and for 35 jobs and a queue of 1,088 requests of each.
#[tactic(auto, unfolding(vfm_loads::specs::Generated::generated))]
pub fn generate(alloc: Global, n: u32) -> Result<Desc, NoMemory>
    ensures value { IfOk result (λ desc. desc ≡ generated n) }
    ensures valid { IfOk result IsValid }
{
    let devices = devices(alloc, n)?;
    Ok(Desc {
        session: u64::from(n),
        page: 4096,
        pages: 256,
        channels: 8,
        version: 1,
        begin: 16,
        rounds: 3,
        threshold: 8,
        devices: Shapes::of(devices),
    })
}

// all devices
fn devices(alloc: Global, n: u32) -> Result<Vec<DevShape>, NoMemory>
    ensures items { IfOk result (λ devices. devices.items ≡ map (load_shape n) (range_with_len 0 8)) }
    ensures count { IfOk result (λ devices. vec_len devices ≡ 8) }
{
    let mut devices = Vec::with_capacity(alloc, DEVICES as usize)?;
    for d in 0..DEVICES {
        let shape = device(alloc, n, d)?;
        devices.push(shape)?;
    }
    Ok(devices)
}
