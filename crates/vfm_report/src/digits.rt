//! Bytes in words: two lower-case hex digits each.

ghost use Rattle.std.specs.Prelude.{◌≡◌, ◌++◌, ◌<◌, ◌≤◌, IsTrue, IfOk, OnOk, vec_len, ◌*◌, length};
ghost use Rattle.std.specs.List.{list_all};
ghost use Rattle.vfm_report.specs.HexWord as spec;

use vfm_types::NoMemory;

/// Whether the byte is a digit, its letters in lower case.
fn is_low_digit(byte: u8) -> bool
    ensures { result ≡ spec.is_low_digit byte }
{
    (byte >= b'0' && byte <= b'9') || (byte >= b'a' && byte <= b'f')
}

/// What the digit is worth.
fn low_digit(byte: u8) -> u8
    requires { IsTrue (spec.is_low_digit byte) }
    ensures value { result ≡ spec.low_digit byte }
    ensures small { result < 16 }
{
    if byte <= b'9' { byte - b'0' } else { byte - 87 }
}

/// Whether these are the digits of so many bytes.
pub(crate) fn is_hex(size: usize, word: &[u8]) -> bool
    requires { size ≤ 4294967296 }
    ensures { result ≡ spec.is_hex size word.now }
{
    word.len() == 2 * size && are_low_digits(word)
}

// whether all of them are digits
fn are_low_digits(word: &[u8]) -> bool
    ensures { result ≡ list_all spec.is_low_digit word.now }
{
    word.iter().all(|byte| is_low_digit(*byte))
}

/// Adds the bytes that the word has, which has the digits of so many.
pub(crate) fn append_hex(bytes: &mut Vec<u8>, size: usize, word: &[u8]) -> Result<(), NoMemory>
    requires { IsTrue (spec.is_hex size word.now) }
    ensures { OnOk result (bytes.new.items ≡ bytes.old.items ++ spec.hex_value word.now) }
{
    for i in 0..size {
        let high = low_digit(word[2 * i]);
        let low = low_digit(word[2 * i + 1]);
        bytes.push(high * 16 + low)?;
    }
    Ok(())
}
