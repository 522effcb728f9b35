//! The elements that a timeline has many of.

use std::alloc::AllocError;

/// Appends the start of a text: its words and its end follow.
pub fn open_text(out: &mut String, class: &str, x: u32, y: u32) -> Result<(), AllocError> {
    write!(out, "<text class='{class}' x='{x}' y='{y}'>")
}

/// Appends the start of a text with its middle at x.
pub fn open_centred(out: &mut String, class: &str, x: u32, y: u32) -> Result<(), AllocError> {
    write!(
        out,
        "<text class='{class}' x='{x}' y='{y}' text-anchor='middle'>"
    )
}

/// Appends the start of a text with its right end at x.
pub fn open_end(out: &mut String, class: &str, x: u32, y: u32) -> Result<(), AllocError> {
    write!(
        out,
        "<text class='{class}' x='{x}' y='{y}' text-anchor='end'>"
    )
}

/// Appends the end of a text.
pub fn close_text(out: &mut String) -> Result<(), AllocError> {
    out.push_str("</text>\n")
}

/// Appends a text.
pub fn push_text(
    out: &mut String,
    class: &str,
    x: u32,
    y: u32,
    words: &str,
) -> Result<(), AllocError> {
    open_text(out, class, x, y)?;
    out.push_str(words)?;
    close_text(out)
}

/// Appends the start of a rectangle: its title and its end follow.
pub fn open_rect(
    out: &mut String,
    class: &str,
    x: u32,
    y: u32,
    width: u32,
    height: u32,
) -> Result<(), AllocError> {
    write!(
        out,
        "<rect class='{class}' x='{x}' y='{y}' width='{width}' height='{height}'"
    )
}

/// Appends a rectangle.
pub fn push_rect(
    out: &mut String,
    class: &str,
    x: u32,
    y: u32,
    width: u32,
    height: u32,
) -> Result<(), AllocError> {
    open_rect(out, class, x, y, width, height)?;
    out.push_str("/>\n")
}

/// Appends a circle of a class: a read.
pub fn push_circle(out: &mut String, class: &str, x: u32, y: u32) -> Result<(), AllocError> {
    write!(out, "<circle class='{class}' cx='{x}' cy='{y}' r='5'/>")
}

/// Appends a tip: a lane that continues in the next band.
pub fn push_continued(out: &mut String, x: u32, y: u32) -> Result<(), AllocError> {
    let top = y.saturating_sub(6);
    write!(out, "<path class='cn' d='M{x} {top}l8 6l-8 6'/>")
}

/// Appends a square: a write.
pub fn push_square(out: &mut String, x: u32, y: u32) -> Result<(), AllocError> {
    let left = x.saturating_sub(5);
    let top = y.saturating_sub(5);
    write!(
        out,
        "<rect class='mw' x='{left}' y='{top}' width='10' height='10'/>"
    )
}

/// Appends a cross: a blocked event.
pub fn push_cross(out: &mut String, x: u32, y: u32) -> Result<(), AllocError> {
    let left = x.saturating_sub(5);
    let top = y.saturating_sub(5);
    write!(
        out,
        "<path class='mx' d='M{left} {top}l10 10m0 -10l-10 10'/>"
    )
}

/// Appends a line from the top to the bottom, or from the bottom to the top.
pub fn push_vertical(
    out: &mut String,
    class: &str,
    x: u32,
    from: u32,
    to: u32,
) -> Result<(), AllocError> {
    write!(out, "<path class='{class}' d='M{x} {from}V{to}'/>\n")
}
