//! A scene as the text of an SVG.
//!
//! Every name in it was bound by a line of the script, so it is letters, digits and `_`. Everything else that is written
//! is fixed text and numbers. So nothing has to be escaped.

use crate::boxes::push_updates;
use crate::elements::push_text;
use crate::head::{push_attributes, push_head, push_heading};
use crate::lanes::push_audit;
use crate::layout::{Layout, MARGIN, SENTENCE_LINE_HEIGHT};
use crate::legend::push_keys;
use crate::scene::Scene;
use std::alloc::{AllocError, Global};

/// A picture between the ends of its element.
#[derive(Drop)]
pub struct Parts {
    pub attributes: String,
    pub body: String,
}

/// Appends the sentences on what is not drawn.
fn push_omissions(out: &mut String, layout: &Layout) -> Result<(), AllocError> {
    let mut y = layout.lanes_bottom().saturating_add(74);
    for line in &layout.texts.omissions {
        push_text(out, "q", MARGIN, y, line)?;
        out.push_str("\n")?;
        y = y.saturating_add(SENTENCE_LINE_HEIGHT);
    }
    Ok(())
}

/// Appends a scene, within its element.
fn push_body(
    alloc: Global,
    out: &mut String,
    scene: &Scene<'_>,
    layout: &Layout,
) -> Result<(), AllocError> {
    push_head(out, scene, layout)?;
    push_heading(out, layout)?;
    push_updates(out, scene, layout)?;
    push_audit(alloc, out, scene, layout)?;
    push_omissions(out, layout)?;
    layout
        .table
        .push(out, &scene.rows, layout.table_baseline())?;
    push_keys(out, scene, layout)
}

/// Returns the attributes and the body of the element of a scene.
pub fn parts_of(alloc: Global, scene: &Scene<'_>) -> Result<Parts, AllocError> {
    let layout = Layout::of(alloc, scene)?;
    let mut attributes = String::new(alloc);
    push_attributes(&mut attributes, scene, &layout)?;
    let mut body = String::new(alloc);
    push_body(alloc, &mut body, scene, &layout)?;
    Ok(Parts { attributes, body })
}
