//! The updates of a picture, and the arrows between them.

use crate::elements::{close_text, open_centred, push_vertical};
use crate::layout::{Layout, arch_height, is_straight};
use crate::scene::{Arrow, Scene, Update};
use std::alloc::AllocError;

/// Appends the dotted lines below the updates.
fn push_drops(out: &mut String, updates: &[Update<'_>], layout: &Layout) -> Result<(), AllocError> {
    let top = layout.boxes_top().saturating_add(28);
    for update in updates {
        if update.reach > 0 {
            let bottom = layout.y(update.reach.saturating_sub(1));
            push_vertical(out, "d", layout.x(update.slot), top, bottom)?;
            out.push_str("\n")?;
        }
    }
    Ok(())
}

/// Appends a box of a class, with its left edge and its upper one.
fn push_rect(
    out: &mut String,
    class: &str,
    left: u32,
    top: u32,
    width: u32,
) -> Result<(), AllocError> {
    write!(
        out,
        "<rect class='{class}' x='{left}' y='{top}' width='{width}' height='28' rx='6'/>"
    )
}

/// Appends the box of an update.
fn push_box(
    out: &mut String,
    update: &Update<'_>,
    query_slot: u8,
    layout: &Layout,
) -> Result<(), AllocError> {
    let class = match (update.must, update.slot < query_slot) {
        (true, _) => "b e",
        (false, true) => "b",
        (false, false) => "a",
    };
    let x = layout.x(update.slot);
    let top = layout.boxes_top();
    out.push_str("<g><title>")?;
    out.push_str(&update.title)?;
    out.push_str("</title>")?;
    let left = x.saturating_sub(layout.box_width / 2);
    push_rect(out, class, left, top, layout.box_width)?;
    open_centred(out, "m", x, top.saturating_add(19))?;
    close_text(out, update.name)?;
    out.push_str("</g>\n")
}

/// Appends the boxes of the updates.
fn push_boxes(out: &mut String, scene: &Scene<'_>, layout: &Layout) -> Result<(), AllocError> {
    for update in &scene.updates {
        push_box(out, update, scene.query_slot, layout)?;
    }
    Ok(())
}

/// Appends the way of an arrow over boxes, whose upper edges are at `top`: it arches up to `high`.
fn push_arch(
    out: &mut String,
    start: u32,
    end: u32,
    top: u32,
    high: u32,
) -> Result<(), AllocError> {
    let low = top.saturating_sub(3);
    write!(
        out,
        "M{start} {top}C{start} {high} {end} {high} {end} {low}"
    )
}

/// Appends the way of an arrow from one box to another.
fn push_way(
    out: &mut String,
    arrow: &Arrow,
    query_slot: u8,
    layout: &Layout,
) -> Result<(), AllocError> {
    let top = layout.boxes_top();
    let from = layout.x(arrow.from);
    let to = layout.x(arrow.to);
    if is_straight(arrow.from, arrow.to, query_slot) {
        let half = layout.box_width / 2;
        let start = from.saturating_add(half);
        let end = to.saturating_sub(half.saturating_add(3));
        let y = top.saturating_add(14);
        return write!(out, "M{start} {y}H{end}");
    }
    let height = arch_height(arrow.from, arrow.to).saturating_add(4);
    let start = from.saturating_add(12);
    let end = to.saturating_sub(12);
    push_arch(out, start, end, top, top.saturating_sub(height))
}

/// Appends the arrows.
fn push_arrows(out: &mut String, scene: &Scene<'_>, layout: &Layout) -> Result<(), AllocError> {
    let query_name = scene.query_name;
    for arrow in &scene.arrows {
        write!(
            out,
            "<path class='w' marker-end='url(#{query_name}-tip)' d='"
        )?;
        push_way(out, arrow, scene.query_slot, layout)?;
        out.push_str("'><title>")?;
        out.push_str(&arrow.title)?;
        out.push_str("</title></path>\n")?;
    }
    Ok(())
}

/// Appends the updates with their arrows, and the lines from them to the lanes.
pub fn push_updates(
    out: &mut String,
    scene: &Scene<'_>,
    layout: &Layout,
) -> Result<(), AllocError> {
    push_drops(out, &scene.updates, layout)?;
    push_arrows(out, scene, layout)?;
    push_boxes(out, scene, layout)
}
