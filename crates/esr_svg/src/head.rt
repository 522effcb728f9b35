//! The head of a picture: its size, a description for screen readers, and its colours. The colours are in a `<style>`
//! with `prefers-color-scheme`, and the picture has a background, so that it is legible in any page. For readers who do
//! not see colours, green parts are also thick, and reads that differ from the value at the query's place have a circle
//! and a text.

use crate::elements::push_text;
use crate::layout::{ERROR_LINE_HEIGHT, Layout, MARGIN, SENTENCE_LINE_HEIGHT};
use crate::scene::{Lane, ReadValue, Scene, Update};
use crate::texts::ErrorLine;
use esr_text::{first, push_number, push_sanitized, push_value};
use std::alloc::AllocError;

/// The style sheet. Pictures and timelines share a page, so the names of their classes must differ. Short names keep large
/// pictures small. A version is a stretch of a lane in which the item has one committed value.
///
/// Texts: `m` monospaced, `f` in a table, `h` heading, `n` bold, `q` muted, `g` as read, `r` off or an error, `o` with a halo. Boxes of
/// updates: `b` before the query's line, `a` after it, `e` (with `b`) before it in every placement. Lanes: `v` a version,
/// `u` a version that the query read, `y` a version read 2 to 9 times, `z` one read 10 times or more, `s` several versions or
/// a transient read, `t` a write, `j` the bar of an item's share of the distance, and a rule of the table, and `i` its filled part, `c` a read that is
/// off. Others: `l` the query's line, `d` a dotted line from a box to its lanes, `w` an arrow, `k` its head, `p` the
/// background, `x` the box of errors.
const STYLE: &str = "<style>\n\
text{font:12px sans-serif;fill:#1f2328}\n\
.m{font:13px Menlo,Consolas,'DejaVu Sans Mono',monospace}\n\
.f{font:11px Menlo,Consolas,'DejaVu Sans Mono',monospace}\n\
.h{font:bold 15px Menlo,Consolas,'DejaVu Sans Mono',monospace}\n\
.n{font-weight:bold}\n\
.q{fill:#59636e}\n\
.g{fill:#1a7f4b}\n\
.r{fill:#c4302b}\n\
.o{paint-order:stroke;stroke:#fff;stroke-width:5px}\n\
.p{fill:#fff}\n\
.b{fill:#cfe3f7;stroke:#35658f}\n\
.a{fill:#eef0f2;stroke:#8a949e}\n\
.w{fill:none;stroke:#57606a;stroke-width:1.5}\n\
.k{fill:#57606a}\n\
.d{stroke:#8a949e;stroke-dasharray:2 4}\n\
.t{stroke:#57606a;stroke-width:2}\n\
.v{stroke:#b4bcc4;stroke-width:4}\n\
.s{stroke-dasharray:4 4}\n\
.j{fill:#e4e8ec}\n\
.i{fill:#e0827e}\n\
.u{stroke:#2da565;stroke-width:11}\n\
.l{stroke:#1f2328;stroke-width:2}\n\
.y{stroke-width:14}\n\
.z{stroke-width:17}\n\
.e{stroke-width:3}\n\
.c{fill:#fff;stroke:#c4302b;stroke-width:2}\n\
.x{fill:none;stroke:#c4302b;stroke-width:2}\n\
@media (prefers-color-scheme:dark){\n\
text{fill:#e6edf3}.q{fill:#9aa4af}.g{fill:#4cc47c}.r{fill:#ff7b72}.o{stroke:#0d1117}.p{fill:#0d1117}\n\
.b{fill:#1d3a57;stroke:#6ea8dc}.a{fill:#22272e;stroke:#68737f}.w{stroke:#9aa4af}.k{fill:#9aa4af}\n\
.d{stroke:#57606a}.t{stroke:#9aa4af}.v{stroke:#56606b}.j{fill:#2b323a}.i{fill:#a3433e}.u{stroke:#2f9e5f}.l{stroke:#e6edf3}\n\
.c{fill:#0d1117;stroke:#ff7b72}.x{stroke:#ff7b72}}\n\
</style>\n";

/// Appends the attributes of the root `<svg>` element, with a blank before each.
pub fn push_attributes(
    out: &mut String,
    scene: &Scene<'_>,
    layout: &Layout,
) -> Result<(), AllocError> {
    let query_name = scene.query_name;
    let width = layout.width;
    let height = layout.height_below_origin();
    let height_above_origin = layout.height_above_origin();
    let total_height = height.saturating_add(height_above_origin);
    out.push_str(" xmlns='http://www.w3.org/2000/svg' viewBox='0 ")?;
    push_y_above_origin(out, height_above_origin)?;
    write!(out, " {width} {total_height}'")?;
    write!(out, " width='{width}' height='{total_height}' role='img'")?;
    write!(
        out,
        " aria-labelledby='{query_name}-title {query_name}-desc'"
    )
}

/// Appends the y coordinate of a point `distance` above the origin. It is the negative of the distance.
fn push_y_above_origin(out: &mut String, distance: u32) -> Result<(), AllocError> {
    if distance > 0 {
        out.push('-')?;
    }
    write!(out, "{distance}")
}

/// Appends the names of the updates before the query, for the description.
fn push_earlier(
    out: &mut String,
    updates: &[Update<'_>],
    query_slot: u8,
) -> Result<(), AllocError> {
    for update in updates {
        if update.slot < query_slot {
            let name = update.name;
            write!(out, " {name},")?;
        }
    }
    Ok(())
}

/// Appends the names of the updates after the query, for the description.
fn push_later(out: &mut String, updates: &[Update<'_>], query_slot: u8) -> Result<(), AllocError> {
    for update in updates {
        if update.slot > query_slot {
            let name = update.name;
            write!(out, ", {name}")?;
        }
    }
    Ok(())
}

/// Appends the serial order of the updates and the query, for the description.
fn push_order(
    out: &mut String,
    query_name: &str,
    updates: &[Update<'_>],
    query_slot: u8,
) -> Result<(), AllocError> {
    out.push_str(" In order:")?;
    push_earlier(out, updates, query_slot)?;
    write!(out, " [{query_name}]")?;
    push_later(out, updates, query_slot)?;
    out.push_str(".")
}

/// Appends at most two of the values that were read of an item, for the description.
fn push_values(out: &mut String, values: &[ReadValue]) -> Result<(), AllocError> {
    for value in first(values, 2) {
        out.push_str(" read ")?;
        push_value(out, value.value)?;
        out.push(',')?;
    }
    Ok(())
}

/// Appends the difference between the reads of an item and its value at the query's place, for the description.
fn push_difference(out: &mut String, difference: u64) -> Result<(), AllocError> {
    if difference == 0 {
        out.push_str(" as at its place.")
    } else {
        out.push_str(" off by ")?;
        push_number(out, difference)?;
        out.push_str(" from its place.")
    }
}

/// Appends what was read of each item, for the description.
fn push_reads(out: &mut String, lanes: &[Lane<'_>]) -> Result<(), AllocError> {
    for lane in lanes {
        let name = lane.name;
        write!(out, " {name}:")?;
        push_values(out, &lane.read.values)?;
        push_difference(out, lane.difference)?;
    }
    Ok(())
}

/// Appends the title, the start tag of the description, and the distance and the import. The caller closes the description.
fn open_description(
    out: &mut String,
    query_name: &str,
    distance: u64,
    import: u64,
) -> Result<(), AllocError> {
    write!(
        out,
        "<title id='{query_name}-title'>Audit of {query_name}</title>\n"
    )?;
    write!(out, "<desc id='{query_name}-desc'>Off by ")?;
    push_number(out, distance)?;
    out.push_str(", charged ")?;
    push_number(out, import)?;
    out.push('.')
}

/// Appends the title and the description.
fn push_description(out: &mut String, scene: &Scene<'_>) -> Result<(), AllocError> {
    open_description(out, scene.query_name, scene.distance, scene.import)?;
    push_order(out, scene.query_name, &scene.updates, scene.query_slot)?;
    push_reads(out, &scene.lanes)?;
    out.push_str("</desc>\n")
}

/// Appends the marker of arrowheads.
fn push_arrowhead(out: &mut String, query_name: &str) -> Result<(), AllocError> {
    write!(
        out,
        "<defs><marker id='{query_name}-tip' markerWidth='8' markerHeight='8' refX='6' refY='4' orient='auto'>"
    )?;
    out.push_str("<path class='k' d='M0 1L7 4L0 7'/></marker></defs>\n")
}

/// Appends the title and the description, the style sheet, the arrowhead, the background and the box of errors.
pub fn push_head(out: &mut String, scene: &Scene<'_>, layout: &Layout) -> Result<(), AllocError> {
    let width = layout.width;
    let height = layout.height_below_origin();
    out.push('\n')?;
    push_description(out, scene)?;
    out.push_str(STYLE)?;
    push_arrowhead(out, scene.query_name)?;
    let height_above_origin = layout.height_above_origin();
    if height_above_origin == 0 {
        return write!(
            out,
            "<rect class='p' width='{width}' height='{height}' rx='8'/>\n"
        );
    }
    let total_height = height.saturating_add(height_above_origin);
    write!(
        out,
        "<rect class='p' y='-{height_above_origin}' width='{width}' height='{total_height}' rx='8'/>\n"
    )?;
    push_errors(out, &layout.texts.errors, width, height_above_origin)
}

/// Appends a line in the box of errors, with its baseline `height` pixels above the origin. A continuation line is indented.
fn push_error(out: &mut String, line: &ErrorLine, height: u32) -> Result<(), AllocError> {
    let x = if line.is_continuation {
        MARGIN.saturating_add(16)
    } else {
        MARGIN
    };
    write!(out, "<text class='r' x='{x}' y='-{height}'>")?;
    push_sanitized(out, &line.text)?;
    out.push_str("</text>\n")
}

/// Appends the box that lists the input lines with errors, above the origin.
fn push_errors(
    out: &mut String,
    errors: &[ErrorLine],
    width: u32,
    height_above_origin: u32,
) -> Result<(), AllocError> {
    let top = height_above_origin.saturating_sub(8);
    let inner = width.saturating_sub(20);
    let box_height = height_above_origin.saturating_sub(10);
    write!(
        out,
        "<rect class='x' x='10' y='-{top}' width='{inner}' height='{box_height}' rx='6'/>\n"
    )?;
    let mut height = height_above_origin.saturating_sub(24);
    for error in errors {
        push_error(out, error, height)?;
        height = height.saturating_sub(ERROR_LINE_HEIGHT);
    }
    Ok(())
}

/// Appends lines of text in a class of the style sheet, the first with its baseline at `first_y`.
fn push_lines(
    out: &mut String,
    class: &str,
    lines: &[String],
    first_y: u32,
) -> Result<(), AllocError> {
    let mut y = first_y;
    for line in lines {
        push_text(out, class, MARGIN, y, line)?;
        out.push_str("\n")?;
        y = y.saturating_add(SENTENCE_LINE_HEIGHT);
    }
    Ok(())
}

/// Appends the heading, and the sentences below it.
pub fn push_heading(out: &mut String, layout: &Layout) -> Result<(), AllocError> {
    push_lines(out, "h", &layout.texts.heading, 28)?;
    let first_y = layout.heading_height().saturating_add(30);
    push_lines(out, "q", &layout.texts.sentences, first_y)
}
