//! The loop that sends all bytes over a link.

ghost use Rattle.std.specs.Prelude.{◌≡◌, ◌<◌, ◌≤◌, length, take};
ghost use Rattle.vfm_outside.specs.Counts.{Rose};
ghost use Rattle.vfm_outside.specs.Told.{with_appended};

use vfm_outside::Link;

/// Sends the bytes in as many calls as the link wants, and says how many went: fewer than all only where it failed.
pub fn send_bytes<L: Link>(link: &mut L, bytes: &[u8]) -> usize
    ensures number { result ≤ length bytes.now }
    ensures sent { L.sent link.new ≡ with_appended (L.sent link.old) (take result bytes.now) }
    ensures never_falls { L.failed_out link.old ≤ L.failed_out link.new }
    ensures ok { result ≡ length bytes.now → L.failed_out link.new ≡ L.failed_out link.old }
    ensures failed { result < length bytes.now → Rose (L.failed_out link.old) (L.failed_out link.new) }
    ensures finished { L.finished link.new ≡ L.finished link.old }
    ensures failed_in { L.failed_in link.new ≡ L.failed_in link.old }
    ensures received { L.received link.new ≡ L.received link.old }
    ensures ended { L.ended link.new ≡ L.ended link.old }
{
    let mut at = 0;
    while at < bytes.len() {
        match link.send(&bytes[at..]) {
            Ok(n) => at += n,
            Err(_) => return at,
        }
    }
    at
}
