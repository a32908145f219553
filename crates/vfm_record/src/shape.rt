//! The digest of a stream's shape text.

ghost use Rattle.std.specs.Prelude.{◌≡◌, ◌≤◌, ◌++◌, length, codes};
ghost use Rattle.std.specs.List.{flat_map};
ghost use Rattle.hex.specs.Hex.{encode_lower};
ghost use Rattle.vfm_types.specs.Desc.{device_count};
ghost use Rattle.vfm_record.specs.Hashing.{TookIn};
ghost use Rattle.vfm_record.specs.Shape.{word, number, line_end, memory_line, bars_word, sizes_word, plus, tells_number, device_line, job_line, device_shape_text, shape_text, shape_digest};

use itoa::Buffer;
use sha2::{Digest, Sha256};
use vfm_types::{Desc, DevShape, Job, Jobs};

// Takes in a text.
fn put(hasher: &mut Sha256, text: &[u8])
    ensures { TookIn hasher.old hasher.new text.now }
{
    hasher.update(text);
}

// Takes in a word after another.
fn put_word(hasher: &mut Sha256, text: &[u8])
    ensures { TookIn hasher.old hasher.new (word text.now) }
{
    put(hasher, b" ");
    put(hasher, text);
}

// Takes in a number after a word.
fn put_number(hasher: &mut Sha256, n: u64)
    ensures { TookIn hasher.old hasher.new (number n) }
{
    let mut digits = Buffer::new();
    put_word(hasher, digits.format(n).as_bytes());
}

// Takes in bytes as hex digits after a word.
fn put_hex(hasher: &mut Sha256, bytes: &[u8])
    requires { length bytes.now ≤ 64 }
    ensures { TookIn hasher.old hasher.new (word (encode_lower bytes.now)) }
{
    let mut digits = [0u8; 128];
    let text = &mut digits[..2 * bytes.len()];
    if hex::encode_to_slice(bytes, text).is_err() {
        unreachable!();
    }
    put_word(hasher, text);
}

// Takes in the end of a line.
fn end_line(hasher: &mut Sha256)
    ensures { TookIn hasher.old hasher.new line_end }
{
    put(hasher, b"\n");
}

// Takes in the line of memory.
#[tactic(auto, unfolding(crate::specs::Shape::memory_line))]
fn put_memory(hasher: &mut Sha256, desc: &Desc)
    ensures { TookIn hasher.old hasher.new (memory_line desc.now) }
{
    put(hasher, b"memory");
    put_number(hasher, u64::from(desc.page));
    put_number(hasher, u64::from(desc.pages));
    end_line(hasher);
}

// Takes in one more size of a word of several.
fn put_plus(hasher: &mut Sha256, size: u32)
    ensures { TookIn hasher.old hasher.new (plus size) }
{
    let mut digits = Buffer::new();
    put(hasher, b"+");
    put(hasher, digits.format(size).as_bytes());
}

// Takes in more sizes of a word of several.
fn put_more(hasher: &mut Sha256, sizes: &[u32])
    ensures { TookIn hasher.old hasher.new (flat_map plus sizes.now) }
{
    for size in sizes {
        put_plus(hasher, *size);
    }
}

// Takes in the word of the BARs after another: their sizes, joined by plus signs.
fn put_bars(hasher: &mut Sha256, sizes: &[u32])
    requires { 1 ≤ length sizes.now }
    ensures { TookIn hasher.old hasher.new (word (sizes_word sizes.now)) }
{
    put_number(hasher, u64::from(sizes[0]));
    put_more(hasher, &sizes[1..]);
}

// 1 for yes, 0 for no.
fn tells_number(tells: bool) -> u64
    ensures { result ≡ tells_number tells }
{
    if tells { 1 } else { 0 }
}

// Takes in the line of a device.
#[tactic(auto, unfolding(crate::specs::Shape::device_line))]
fn put_device(hasher: &mut Sha256, shape: &DevShape)
    ensures { TookIn hasher.old hasher.new (device_line shape.now) }
{
    put(hasher, b"device");
    put_word(hasher, shape.name.bytes());
    put_number(hasher, u64::from(shape.flags.bits()));
    put_bars(hasher, shape.bars.as_slice());
    put_number(hasher, u64::from(shape.window));
    put_number(hasher, tells_number(shape.tells));
    put_number(hasher, u64::from(shape.budget));
    put_number(hasher, u64::from(shape.jobs.len()));
    end_line(hasher);
}

// Takes in a line of a word and two numbers.
fn put_numbers(hasher: &mut Sha256, first: &[u8], at: u64, n: u64)
    ensures { TookIn hasher.old hasher.new (first.now ++ number at ++ number n ++ line_end) }
{
    put(hasher, first);
    put_number(hasher, at);
    put_number(hasher, n);
    end_line(hasher);
}

// Takes in the line of a write.
fn put_write(hasher: &mut Sha256, at: u64, bytes: &[u8])
    requires { length bytes.now ≤ 64 }
    ensures { TookIn hasher.old hasher.new (codes "write" ++ number at ++ word (encode_lower bytes.now) ++ line_end) }
{
    put(hasher, b"write");
    put_number(hasher, at);
    put_hex(hasher, bytes);
    end_line(hasher);
}

// Takes in the line of a job.
fn put_job(hasher: &mut Sha256, job: &Job)
    ensures { TookIn hasher.old hasher.new (job_line job.now) }
{
    match job {
        Job::Write { at, bytes } => put_write(hasher, *at, bytes.bytes()),
        Job::Read { at, len } => put_numbers(hasher, b"read", *at, u64::from(*len)),
        Job::Store { at, len } => put_numbers(hasher, b"store", *at, u64::from(*len)),
        Job::Add { at, value } => put_numbers(hasher, b"add", *at, *value),
    }
}

// Takes in the lines of jobs.
fn put_jobs(hasher: &mut Sha256, jobs: &Jobs)
    ensures { TookIn hasher.old hasher.new (flat_map job_line jobs.now) }
{
    for job in jobs.as_slice() {
        put_job(hasher, job);
    }
}

// Takes in the shape text of a stream.
fn put_shape(hasher: &mut Sha256, desc: &Desc, stream: u32)
    requires { stream ≤ device_count desc.now }
    ensures { TookIn hasher.old hasher.new (shape_text desc.now stream) }
{
    if stream == 0 {
        put_memory(hasher, desc);
    } else {
        let shape = desc.devices.at(stream - 1);
        put_device(hasher, shape);
        put_jobs(hasher, &shape.jobs);
    }
}

/// The SHA-256 digest of a stream's shape text: what a `Config` record says. Stream 0 is memory, stream `d + 1` is
/// device `d`. No memory is taken.
#[tactic(auto, unfolding(crate::specs::Shape::shape_digest))]
pub fn shape_digest(desc: &Desc, stream: u32) -> [u8; 32]
    requires { stream ≤ device_count desc.now }
    ensures { result ≡ shape_digest desc.now stream }
{
    let mut hasher = Sha256::new();
    put_shape(&mut hasher, desc, stream);
    hasher.finalize()
}
