//! The first byte of a record.

ghost use Rattle.std.specs.Prelude.{◌≡◌};
ghost use Rattle.vfm_record.specs.Tests.{tag_of};

/// What kind of record it is.
#[derive(Clone, Copy, Debug, PartialEq, Eq)]
pub enum Tag {
    Page,
    Block,
    Engine,
    Pending,
    Config,
}

impl Tag {
    /// The tag with this number, or `None` exactly where it isn't one of the stream. Stream 0 has pages, the others have
    /// blocks, an engine and pending requests, and each has a digest.
    pub fn of(stream: u32, number: u8) -> Option<Tag>
        ensures { result ≡ tag_of stream number }
    {
        match number {
            1 if stream == 0 => Some(Tag::Page),
            2 if stream != 0 => Some(Tag::Block),
            3 if stream != 0 => Some(Tag::Engine),
            4 if stream != 0 => Some(Tag::Pending),
            5 => Some(Tag::Config),
            _ => None,
        }
    }
}
