//! Numbers in words.

ghost use Rattle.std.specs.Prelude.{◌≡◌};
ghost use Rattle.vfm_report.specs.Numbers.{long_number, number_of, device_of};

use itoa::Buffer;
use vfm_types::DeviceId;

/// The number of 64 bits that has this text: decimal, without a sign or a leading zero.
pub(crate) fn long_number(word: &[u8]) -> Option<u64>
    ensures { result ≡ long_number word.now }
{
    let text = match str::from_utf8(word) {
        Ok(text) => text,
        Err(_) => return None,
    };
    let number = match text.parse::<u64>() {
        Ok(number) => number,
        Err(_) => return None,
    };
    let mut digits = Buffer::new();
    if digits.format(number).as_bytes() == word {
        Some(number)
    } else {
        None
    }
}

/// The number of 32 bits that has this text.
pub(crate) fn number(word: &[u8]) -> Option<u32>
    ensures { result ≡ number_of word.now }
{
    let number = long_number(word)?;
    if number <= 0xffff_ffff {
        Some(number as u32)
    } else {
        None
    }
}

/// The device whose number has this text.
pub(crate) fn device(word: &[u8]) -> Option<DeviceId>
    ensures { result ≡ device_of word.now }
{
    let number = long_number(word)?;
    if number <= 0xff {
        Some(DeviceId(number as u8))
    } else {
        None
    }
}
