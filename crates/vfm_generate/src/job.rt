//! The jobs of a generated load.

ghost use Rattle.std.specs.Prelude.{◌≡◌, ◌<◌, ◌≤◌, length};
ghost use Rattle.vfm_loads.specs.Generated.{peer_bar, count_job, bell_job, rung_job, block_job, load_job};

use vfm_types::{Bytes64, Job};

// how many pages a device has of its own
const OWN_PAGES: u32 = 32;

// bytes of a page, and words of 8 bytes in it
const PAGE: u64 = 4096;

const WORDS: u64 = 512;

// the address of device 0's BAR, and how far the next device's is from it
const BAR_BASE: u64 = 0x1000_0000;

const DEVICE_STRIDE: u64 = 0x8_0000;

// bytes of a block, and how many of them a peer's block may stand in
const BLOCK: u64 = 64;

const BLOCKS: u64 = 32;

/// Job `j` (0 to 34) of device `d` (0 to 7) of load `n`.
#[tactic(auto, unfolding(vfm_loads::specs::Generated::load_job))]
pub(crate) fn job(n: u32, d: u32, j: u32) -> Job
    requires device { d < 8 }
    requires job { j < 35 }
    ensures { result ≡ load_job n d j }
{
    match j {
        0..=31 => count(n, d, j),
        32 => bell(d),
        33 => rung(d),
        _ => block(n, d),
    }
}

// adds to a word of one of the device's own pages
fn count(n: u32, d: u32, j: u32) -> Job
    requires device { d < 8 }
    requires job { j < 32 }
    ensures { result ≡ count_job n d j }
{
    let page = u64::from(OWN_PAGES * d + j);
    let sum = u64::from(n) + u64::from(j);
    Job::Add {
        at: page * PAGE + 8 * (sum % WORDS),
        value: u64::from(n) + u64::from(d) + u64::from(j) + 1,
    }
}

// rings the doorbell of the device's peer for job 33
fn bell(d: u32) -> Job
    requires { d < 8 }
    ensures { result ≡ bell_job d }
{
    let bytes = written(&[33, 0, 0, 0, 0, 0, 0, 0]);
    Job::Write {
        at: peer_bar(d),
        bytes,
    }
}

// what the device's own doorbell asks for: counts one more
fn rung(d: u32) -> Job
    requires { d < 8 }
    ensures { result ≡ rung_job d }
{
    Job::Add {
        at: u64::from(OWN_PAGES * d) * PAGE,
        value: 1,
    }
}

// fills a block in the BAR of the device's peer
fn block(n: u32, d: u32) -> Job
    requires { d < 8 }
    ensures { result ≡ block_job n d }
{
    let bytes = written(&[d as u8 + 1; 64]);
    Job::Write {
        at: peer_bar(d) + (BLOCK + BLOCK * (u64::from(n) % BLOCKS)),
        bytes,
    }
}

// the address of the BAR of the device's peer
fn peer_bar(d: u32) -> u64
    requires { d < 8 }
    ensures { result ≡ peer_bar d }
{
    BAR_BASE + DEVICE_STRIDE * u64::from((d + 1) % 8)
}

// 1 to 64 bytes to be written
fn written(bytes: &[u8]) -> Bytes64
    requires some { 1 ≤ length bytes.now }
    requires few { length bytes.now ≤ 64 }
    ensures { result ≡ bytes.now }
{
    match Bytes64::of(bytes) {
        Some(bytes) => bytes,
        None => unreachable!(),
    }
}
