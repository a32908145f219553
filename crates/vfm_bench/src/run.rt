//! Doing all requests of a machine in order.

ghost use Rattle.std.specs.Prelude.{◌≡◌, ◌+◌, ◌<◌, ◌≤◌, [], IsTrue};
ghost use Rattle.vfm_types.specs.Desc.{device_count};
ghost use Rattle.vfm_types.specs.Machine.{device_of};
ghost use Rattle.vfm_types.specs.Valid.{IsValid};
ghost use Rattle.vfm_plain.specs.Shape.{IsSound, all_done};
ghost use Rattle.vfm_bench.specs.Idle.{IsIdle};

use vfm_plain::{Plain, sound_machines_can_lose};
use vfm_types::{Desc, DeviceId};

/// Does the first pending request of each device in turn, again and again, until no device has a pending one.
pub fn do_all(desc: &Desc, plain: &mut Plain)
    requires valid { IsValid desc.now }
    requires sound { IsSound desc.now plain.old }
    ensures sound { IsSound desc.now plain.new }
    ensures idle { IsIdle desc.now plain.new }
{
    'turns: loop {
        let done = do_turn(desc, plain);
        if done == 0 {
            return;
        }
    }
}

// does the first pending request of each device that has one; answers how many there were
fn do_turn(desc: &Desc, plain: &mut Plain) -> u32
    requires valid { IsValid desc.now }
    requires sound { IsSound desc.now plain.old }
    ensures sound { IsSound desc.now plain.new }
    ensures count { all_done plain.new ≡ all_done plain.old + result }
    ensures idle { result ≡ 0 → IsIdle desc.now plain.new }
{
    let mut done = 0u32;
    for d in 0..desc.devices.len() {
        done += do_first(desc, plain, DeviceId(d as u8));
    }
    done
}

#[tactic(auto, using(crate::proofs::Turns::counts_one, std::proofs::lemmas::List::nil_from_length))]
// does the first pending request of a device, if it has one; answers how many it did
fn do_first(desc: &Desc, plain: &mut Plain, d: DeviceId) -> u32
    requires valid { IsValid desc.now }
    requires device { d < device_count desc.now }
    requires sound { IsSound desc.now plain.old }
    ensures sound { IsSound desc.now plain.new }
    ensures few { result ≤ 1 }
    ensures count { all_done plain.new ≡ all_done plain.old + result }
    ensures same { result ≡ 0 → plain.new ≡ plain.old }
    ensures idle { result ≡ 0 → (device_of plain.new d).pending ≡ [] }
{
    sound_machines_can_lose();
    let pending = plain.pending(d);
    if pending.is_empty() {
        return 0;
    }
    let n = pending[0].0;
    match plain.apply(desc, d, n) {
        Ok(()) => 1,
        Err(_refused) => 0,
    }
}

/// How many requests all devices together did.
pub fn count_done(desc: &Desc, plain: &Plain) -> u64
    requires valid { IsValid desc.now }
    requires sound { IsSound desc.now plain.now }
    ensures { result ≡ all_done plain.now }
{
    let mut sum = 0u64;
    for d in 0..desc.devices.len() {
        let (_accepted, done, _lost) = plain.counts(DeviceId(d as u8));
        sum += u64::from(done);
    }
    sum
}
