//! The elements that a picture has many of.

use std::alloc::AllocError;

/// Appends the start of a text: its content and its end follow.
pub fn open_text(out: &mut String, class: &str, x: u32, y: u32) -> Result<(), AllocError> {
    write!(out, "<text class='{class}' x='{x}' y='{y}'>")
}

/// Appends the start of a text with its middle at x.
pub fn open_centred(out: &mut String, class: &str, x: u32, y: u32) -> Result<(), AllocError> {
    write!(
        out,
        "<text class='{class}' x='{x}' y='{y}' text-anchor='middle'>"
    )
}

/// Appends the content of a text, and its end.
pub fn close_text(out: &mut String, words: &str) -> Result<(), AllocError> {
    out.push_str(words)?;
    out.push_str("</text>")
}

/// Appends the start of a text that ends at x.
pub fn open_before(out: &mut String, class: &str, x: u32, y: u32) -> Result<(), AllocError> {
    write!(
        out,
        "<text class='{class}' x='{x}' y='{y}' text-anchor='end'>"
    )
}

/// Appends a text.
pub fn push_text(
    out: &mut String,
    class: &str,
    x: u32,
    y: u32,
    words: &str,
) -> Result<(), AllocError> {
    open_text(out, class, x, y)?;
    close_text(out, words)
}

/// Appends a box in the colour of the background below a text of this width that begins at x, so that no line runs through the
/// text.
pub fn push_ground(out: &mut String, x: u32, y: u32, width: u32) -> Result<(), AllocError> {
    let left = x.saturating_sub(2);
    let top = y.saturating_sub(11);
    let width = width.saturating_add(4);
    write!(
        out,
        "<rect class='p' x='{left}' y='{top}' width='{width}' height='15'/>"
    )
}

/// Appends a line from the left to the right.
pub fn push_horizontal(
    out: &mut String,
    class: &str,
    y: u32,
    left: u32,
    right: u32,
) -> Result<(), AllocError> {
    write!(out, "<path class='{class}' d='M{left} {y}H{right}'/>")
}

/// Appends the start of a line from the left to the right: the text of its title and both ends follow.
pub fn push_horizontal_titled(
    out: &mut String,
    class: &str,
    y: u32,
    left: u32,
    right: u32,
) -> Result<(), AllocError> {
    write!(out, "<path class='{class}' d='M{left} {y}H{right}'><title>")
}

/// Appends a line from the top to the bottom.
pub fn push_vertical(
    out: &mut String,
    class: &str,
    x: u32,
    top: u32,
    bottom: u32,
) -> Result<(), AllocError> {
    write!(out, "<path class='{class}' d='M{x} {top}V{bottom}'/>")
}

/// Appends an arrow from the left to the right.
pub fn push_straight(
    out: &mut String,
    query_name: &str,
    y: u32,
    left: u32,
    right: u32,
) -> Result<(), AllocError> {
    write!(
        out,
        "<path class='w' marker-end='url(#{query_name}-tip)' d='M{left} {y}H{right}'/>"
    )
}
