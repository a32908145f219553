//! What the lines of a printed state say.

ghost use Rattle.std.specs.Prelude.{◌≡◌};
ghost use Rattle.std.specs.Option.{option_copied};
ghost use Rattle.vfm_report.specs.WordList.{words_left};
ghost use Rattle.vfm_report.specs.StateLines as spec;

use crate::number::number;
use crate::words::Words;
use vfm_types::DeviceId;

/// A name, the number `n` and a word.
pub(crate) fn named_word<'a>(words: Words<'a>, name: &[u8], n: u32) -> Option<&'a [u8]>
    ensures { option_copied result ≡ spec.named_word name.now n (words_left words.entry) }
{
    words.after(name)?.after_number(n)?.one()
}

/// A device's accepted, done and lost requests.
pub(crate) fn counts(words: Words, d: DeviceId, name: &[u8]) -> Option<(u32, u32, u32)>
    ensures { result ≡ spec.counts_of d name.now (words_left words.entry) }
{
    let words = words.after(b"device")?;
    let words = words.after_number(u32::from(d.0))?;
    let words = words.after(name)?;
    let words = words.after(b"accepted")?;
    let (accepted, words) = words.number()?;
    let words = words.after(b"done")?;
    let (done, words) = words.number()?;
    let words = words.after(b"lost")?;
    let lost = number(words.one()?)?;
    Some((accepted, done, lost))
}

/// BAR `k` of several of device `d`.
pub(crate) fn bar_word<'a>(words: Words<'a>, d: DeviceId, k: u32) -> Option<&'a [u8]>
    ensures { option_copied result ≡ spec.bar_word d k (words_left words.entry) }
{
    let words = words.after(b"bar")?;
    let words = words.after_number(u32::from(d.0))?;
    words.after_number(k)?.one()
}

/// A pending request of device `d`, which has so many jobs.
pub(crate) fn pending(words: Words, d: DeviceId, jobs: u32) -> Option<(u32, u32)>
    ensures { result ≡ spec.pending_of d jobs (words_left words.entry) }
{
    let words = words.after(b"pend")?;
    let words = words.after_number(u32::from(d.0))?;
    let (number_word, job_word) = words.two()?;
    let request = number(number_word)?;
    let job = number(job_word)?;
    if job < jobs {
        Some((request, job))
    } else {
        None
    }
}
