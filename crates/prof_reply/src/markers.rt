//! The texts of markers.
ghost use Rattle.std.specs.Prelude.{◌≡◌};
ghost use Rattle.std.specs.List.{flat_map};
ghost use Rattle.prof_reply.specs.Replies.{marker_line, markers_text};
ghost use Rattle.prof_io.specs.Outside.{seen};
ghost use Rattle.prof_io.specs.Sinks.{Wrote};
ghost use Rattle.prof_marker.specs.Markers.{name_text};
ghost use Rattle.prof_page.specs.Gathering.{Gathers};

use crate::lines::{marker_head, markers_head};
use prof_io::{OutFault, Sink, copy_out};
use prof_marker::Marker;
use prof_page::{Page, add_line, add_string, add_text, write_page};
use prof_tables::Thread;

/// A marker's name, which is empty where the thread has no string at its place.
fn marker_name<'t>(thread: &'t Thread, marker: &Marker) -> &'t str
    ensures { result.now ≡ name_text thread.entry.now.shared.strings marker.now.name }
{
    match thread.strings().get(marker.name) {
        Some(name) => name,
        None => "",
    }
}

/// Adds a marker's line to the page.
fn add_marker<S: Sink>(
    out: &mut S,
    page: &mut Page,
    thread: &Thread,
    marker: &Marker,
) -> Result<(), OutFault>
    ensures { Gathers (seen S.Counted out.old) (seen S.Counted out.new) result
        page.old.bytes (marker_line thread.now.shared marker.now) page.new.bytes }
{
    add_line(out, page, &marker_head(*marker))?;
    add_string(out, page, marker_name(thread, marker))?;
    add_text(out, page, "\n")
}

/// Writes the lines of markers, many at once.
fn write_lines<S: Sink>(out: &mut S, thread: &Thread, markers: &[Marker]) -> Result<(), OutFault>
    ensures { Wrote (seen S.Counted out.old) (seen S.Counted out.new) result
        (flat_map (marker_line thread.now.shared) markers.now) }
{
    let mut page = Page::new();
    for marker in markers {
        add_marker(out, &mut page, thread, marker)?;
    }
    write_page(out, &mut page)
}

/// Writes markers of a thread.
pub fn write_markers<S: Sink>(
    out: &mut S,
    thread: &Thread,
    markers: &[Marker],
) -> Result<(), OutFault>
    ensures { Wrote (seen S.Counted out.old) (seen S.Counted out.new) result
        (markers_text thread.now.shared markers.now) }
{
    copy_out(out, markers_head(markers.len()).as_str().as_bytes())?;
    write_lines(out, thread, markers)
}
