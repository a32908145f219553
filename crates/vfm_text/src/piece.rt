//! Pieces of text: several in a row, a line of words, bytes as digits.

ghost use Rattle.std.specs.Prelude.{◌≡◌, ℕ, ◌≤◌, List, [], ◌∷◌, ◌++◌, map, decimal, length};
ghost use Rattle.std.specs.List.{flat_map};
ghost use Rattle.hex.specs.Hex.{encode_lower};
ghost use Rattle.vfm_plain.specs.Text.{line};
ghost use Rattle.vfm_text.specs.Writers.{Writes};

use crate::TextWriter;
use itoa::Buffer;
use vfm_outside::Failed;

/// How many bytes are turned into digits at a time.
const GROUP: usize = 64;

/// Writes pieces one after another.
pub fn put_all<P: TextWriter>(writer: &mut P, pieces: &[&[u8]]) -> Result<(), Failed>
    ensures { Writes P.takes P.stops writer.old writer.new (flat_map (λ piece. piece.now) pieces.now) result }
{
    for piece in pieces {
        writer.put(piece)?;
    }
    Ok(())
}

/// Writes a word and the words after it as a line.
pub fn put_line<P: TextWriter>(writer: &mut P, first: &[u8], words: &[&[u8]]) -> Result<(), Failed>
    ensures { Writes P.takes P.stops writer.old writer.new (line first.now (map (λ word. word.now) words.now)) result }
{
    writer.put(first)?;
    for word in words {
        put_all(writer, &[b" ", word])?;
    }
    writer.put(b"\n")
}

/// Writes bytes as hex digits.
pub fn put_hex<P: TextWriter>(writer: &mut P, bytes: &[u8]) -> Result<(), Failed>
    ensures { Writes P.takes P.stops writer.old writer.new (encode_lower bytes.now) result }
{
    let mut at = 0;
    while at < bytes.len() {
        let n = GROUP.min(bytes.len() - at);
        put_group(writer, &bytes[at..at + n])?;
        at += n;
    }
    Ok(())
}

/// Writes at most 64 bytes as hex digits.
fn put_group<P: TextWriter>(writer: &mut P, bytes: &[u8]) -> Result<(), Failed>
    requires { length bytes.now ≤ 64 }
    ensures { Writes P.takes P.stops writer.old writer.new (encode_lower bytes.now) result }
{
    let mut digits = [0u8; 2 * GROUP];
    let text = &mut digits[..2 * bytes.len()];
    if hex::encode_to_slice(bytes, text).is_err() {
        unreachable!();
    }
    writer.put(text)
}

/// Writes a line of a word, a number and bytes as hex digits.
pub fn put_hex_line<P: TextWriter>(
    writer: &mut P,
    word: &[u8],
    number: u32,
    bytes: &[u8],
) -> Result<(), Failed>
    ensures { Writes P.takes P.stops writer.old writer.new
        (line word.now (decimal number ∷ encode_lower bytes.now ∷ [])) result }
{
    let mut digits = Buffer::new();
    put_all(
        writer,
        &[word, b" ", digits.format(number).as_bytes(), b" "],
    )?;
    put_hex(writer, bytes)?;
    writer.put(b"\n")
}
