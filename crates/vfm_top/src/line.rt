//! The lines that `paths` and `audit` print.

ghost use Rattle.std.specs.Prelude.{◌≡◌, List, [], ◌∷◌, ◌++◌, codes, map};
ghost use Rattle.vfm_plain.specs.Text.{line};
ghost use Rattle.vfm_text.specs.Writers.{Writes};
ghost use Rattle.vfm_status.specs.StatusText.{status_line};
ghost use Rattle.vfm_top.specs.Text.{audit_text, path_line, path_text, refused_words};

use vfm_outside::Failed;
use vfm_states::Route;
use vfm_status::{Status, number_text, put_status};
use vfm_text::{TextWriter, put_all, put_line, state_name};
use vfm_types::PathFault;

/// Writes what `audit` prints: how many entries a legal report has, or the line of another status.
pub fn put_audit<P: TextWriter>(writer: &mut P, status: &Status, entries: u64) -> Result<(), Failed>
    ensures { Writes P.takes P.stops writer.old writer.new (audit_text status.now entries) result }
{
    match status {
        Status::Printed => put_line(
            writer,
            b"status",
            &[b"legal", number_text(entries).as_slice()],
        ),
        status => put_status(writer, status),
    }
}

/// Writes the line of a path.
fn put_path<P: TextWriter>(writer: &mut P, route: &Route) -> Result<(), Failed>
    ensures { Writes P.takes P.stops writer.old writer.new (path_line route.now) result }
{
    writer.put(b"path")?;
    for i in 0..route.len() {
        put_all(writer, &[b" ", state_name(route.at(i))])?;
    }
    writer.put(b"\n")
}

/// Writes the line of a path that is refused.
fn put_refused<P: TextWriter>(writer: &mut P, fault: &PathFault) -> Result<(), Failed>
    ensures { Writes P.takes P.stops writer.old writer.new (line (codes "refused") (refused_words fault.now)) result }
{
    match fault {
        PathFault::Unsupported(state) => {
            put_line(writer, b"refused", &[b"unsupported", state_name(*state)])
        }
        PathFault::Forbidden { from, to } => put_line(
            writer,
            b"refused",
            &[b"forbidden", state_name(*from), state_name(*to)],
        ),
        PathFault::FromError => put_line(writer, b"refused", &[b"from-error"]),
    }
}

/// Writes what `paths` prints: the path, or why there is none.
pub fn put_answer<P: TextWriter>(
    writer: &mut P,
    answer: &Result<Route, PathFault>,
) -> Result<(), Failed>
    ensures { Writes P.takes P.stops writer.old writer.new (path_text answer.now) result }
{
    match answer {
        Ok(route) => put_path(writer, route),
        Err(fault) => put_refused(writer, fault),
    }
}
