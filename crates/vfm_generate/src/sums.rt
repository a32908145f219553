//! The sums over all devices that a summary of a load shows.

ghost use Rattle.std.specs.Prelude.{◌≡◌, ◌<◌};
ghost use Rattle.vfm_types.specs.Desc.{device_count};
ghost use Rattle.vfm_plain.specs.Shape.{HasShape, all_done};
ghost use Rattle.vfm_loads.specs.Sums.{all_accepted, all_lost};

use vfm_text::MachineView;
use vfm_types::{Desc, DeviceId};

/// How many requests all devices of a machine together accepted, did and lost.
#[derive(Clone, Copy, Debug, PartialEq, Eq)]
pub struct Sums {
    pub accepted: u64,
    pub done: u64,
    pub lost: u64,
}

impl Sums {
    /// The sums of a machine with the devices of this description.
    pub fn of<M: MachineView>(desc: &Desc, machine: &M) -> Sums
        requires few { device_count desc.now < 256 }
        requires shape { HasShape desc.now (M.machine machine.now) }
        ensures accepted { result.accepted ≡ all_accepted (M.machine machine.now) }
        ensures done { result.done ≡ all_done (M.machine machine.now) }
        ensures lost { result.lost ≡ all_lost (M.machine machine.now) }
    {
        let mut sums = Sums {
            accepted: 0,
            done: 0,
            lost: 0,
        };
        for d in 0..desc.devices.len() {
            let (accepted, done, lost) = machine.counts(DeviceId(d as u8));
            sums.accepted += u64::from(accepted);
            sums.done += u64::from(done);
            sums.lost += u64::from(lost);
        }
        sums
    }
}
