//! A writer of text that buffers it before a sink.

ghost use Rattle.std.specs.Prelude.{◌≡◌, ℕ, List, [], ◌++◌};
ghost use Rattle.vfm_outside.specs.Tells.{sink_tells};
ghost use Rattle.vfm_text.specs.Prints.{Prints};

use crate::TextWriter;
use crate::buffer::{ROOM, TextBuffer};
use vfm_outside::{Failed, Sink, write_all};

/// Buffers a text, and gives it to a sink in pieces of kilobytes.
#[derive(Drop)]
pub struct SinkWriter<'s, S: Sink> {
    pub buffer: TextBuffer,
    pub sink: &'s mut S,
}

impl<S: Sink> TextWriter for SinkWriter<'_, S> {
    ghost use Rattle.std.specs.Prelude.{◌≡◌, refl};
    ghost use Rattle.std.proofs.Common.{◌∙◌};
    ghost use Rattle.vfm_outside.specs.Tells.{sink_tells};
    ghost use Rattle.vfm_text.specs.Buffered.{buffered, Buffers, Spills};
    ghost use Rattle.vfm_text.specs.BufferedLaws.{buffers_nothing, buffers_more, spills_after, spills_before};

    ghost takes = { λ a b text. (b.sink.ghost_name ≡ a.sink.ghost_name)
        × Buffers (buffered a.buffer (sink_tells (S.holds a.sink.now) (S.faults a.sink.now))) text
        (buffered b.buffer (sink_tells (S.holds b.sink.now) (S.faults b.sink.now))) };

    ghost stops = { λ a b text. (b.sink.ghost_name ≡ a.sink.ghost_name)
        × Spills (buffered a.buffer (sink_tells (S.holds a.sink.now) (S.faults a.sink.now))) text
        (sink_tells (S.holds b.sink.now) (S.faults b.sink.now)) };

    ghost nothing = { λ writer. (refl, buffers_nothing (buffered writer.buffer (sink_tells (S.holds writer.sink.now) (S.faults writer.sink.now)))) };

    ghost more = { λ a b c x y h k. (k.0 ∙ h.0, buffers_more h.1 k.1) };

    ghost stop_after = { λ a b c x y h k. (k.0 ∙ h.0, spills_after h.1 k.1) };

    ghost stop_before = { λ a b x y h. (h.0, spills_before y h.1) };

    fn put(&mut self, bytes: &[u8]) -> Result<(), Failed> {
        if !self.buffer.has_room(bytes.len()) {
            self.buffer.flush(&mut *self.sink)?;
            if bytes.len() > ROOM {
                return write_all(&mut *self.sink, bytes);
            }
        }
        self.buffer.add(bytes);
        Ok(())
    }
}

impl<S: Sink> SinkWriter<'_, S> {
    /// Gives the sink what is buffered.
    pub fn flush(&mut self) -> Result<(), Failed>
        ensures same { self.new.sink.ghost_name ≡ self.old.sink.ghost_name }
        ensures printed { Prints result self.old.buffer (sink_tells (S.holds self.old.sink.now) (S.faults self.old.sink.now))
            (sink_tells (S.holds self.new.sink.now) (S.faults self.new.sink.now)) }
    {
        self.buffer.flush(&mut *self.sink)
    }
}
