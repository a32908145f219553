//! The names of a description's members.

ghost use Rattle.std.specs.Prelude.{◌≡◌};
ghost use Rattle.vfm_desc.specs.Members as spec;

use vfm_types::FieldName;

/// The name of a member in the text of a description.
pub fn member_name(name: FieldName) -> &'static str
    ensures { result.now ≡ spec.member_name name }
{
    match name {
        FieldName::Session => "session",
        FieldName::Page => "page",
        FieldName::Pages => "pages",
        FieldName::Channels => "channels",
        FieldName::Version => "version",
        FieldName::Begin => "begin",
        FieldName::Rounds => "rounds",
        FieldName::Threshold => "threshold",
        FieldName::Devices => "devices",
        FieldName::Name => "name",
        FieldName::Flags => "flags",
        FieldName::Bar => "bar",
        FieldName::Window => "window",
        FieldName::Tells => "tells",
        FieldName::Budget => "budget",
        FieldName::Fails => "fails",
        FieldName::Jobs => "jobs",
        FieldName::Queue => "queue",
        FieldName::Kind => "kind",
        FieldName::At => "at",
        FieldName::Hex => "hex",
        FieldName::Len => "len",
        FieldName::Value => "value",
    }
}
