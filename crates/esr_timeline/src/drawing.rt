//! A timeline as the text of an SVG, with a wide and a narrow layout.
//!
//! Every name in it was bound by a line of the script, so it is letters, digits and `_`. Nothing else that is written is
//! other than fixed words and numbers. So nothing has to be escaped.

use crate::fit::{Picture, Pictures};
use crate::sentences::{Line, LineClass, push_all_lines};
use esr_chart::{
    MARGIN, Size, Sizes, Tables, legend_height, open_narrow, prefix_of, push_attributes,
    push_background, push_bands, push_head, push_legend, push_text,
};
use std::alloc::{AllocError, Global};

/// The least widths of the layouts.
const NARROWEST: u32 = 460;

const PHONE: u32 = 390;

/// The maximum width of a layout that is as wide as its table.
const WIDEST: u32 = 1100;

/// From line to line of the sentences.
const SENTENCE: u32 = 18;

/// The attributes and the body of the element.
#[derive(Drop)]
pub struct Parts {
    pub attributes: String,
    pub body: String,
}

/// Returns the class of a line.
fn class_of(line: &Line) -> &'static str {
    match line.class {
        LineClass::Heading => "hd",
        LineClass::Error => "rd",
        LineClass::Sentence => "gy",
    }
}

/// Appends the lines above the lanes.
fn push_lines(out: &mut String, lines: &[Line]) -> Result<(), AllocError> {
    let mut y = 28u32;
    for line in lines {
        push_text(out, class_of(line), MARGIN, y, &line.text)?;
        y = y.saturating_add(SENTENCE);
    }
    Ok(())
}

/// Appends the legend.
fn push_keys(
    alloc: Global,
    out: &mut String,
    picture: &Picture<'_>,
    width: u32,
    y: u32,
) -> Result<(), AllocError> {
    let Picture { scene, layout } = picture;
    let prefix = prefix_of(scene);
    let mut tip = String::new(alloc);
    write!(tip, "{prefix}-timeline-tip")?;
    push_legend(out, scene, layout, width, y, &tip)
}

/// Appends a layout with these lines above its lanes. Returns its size.
fn push_layout(
    alloc: Global,
    out: &mut String,
    picture: &mut Picture<'_>,
    lines: &[Line],
    width: u32,
) -> Result<Size, AllocError> {
    let count = lines.len().min(100) as u32;
    let top = count.saturating_mul(SENTENCE).saturating_add(30);
    let bottom = picture.layout.stack(top).saturating_add(14);
    let tables = Tables::of(alloc, &picture.scene, width)?;
    let legend = bottom.saturating_add(tables.height());
    let height = legend.saturating_add(legend_height(&picture.scene, &picture.layout, width));
    let size = Size { width, height };
    push_background(out, size)?;
    push_lines(out, lines)?;
    push_bands(out, &picture.scene, &picture.layout)?;
    tables.push(out, &picture.scene, bottom)?;
    push_keys(alloc, out, picture, width, legend)?;
    Ok(size)
}

/// Appends a layout that is at least this wide. Returns its size.
fn draw(
    alloc: Global,
    out: &mut String,
    picture: &mut Picture<'_>,
    errors: u64,
    least: u32,
) -> Result<Size, AllocError> {
    let table = match Tables::width(&picture.scene) {
        width if least == NARROWEST && width <= WIDEST => width,
        _ => 0,
    };
    let width = picture
        .layout
        .right
        .saturating_add(MARGIN)
        .max(table)
        .max(least);
    let mut lines = Vec::new(alloc);
    push_all_lines(alloc, &mut lines, picture, errors, width)?;
    push_layout(alloc, out, picture, &lines, width)
}

/// Returns the attributes and the body of these layouts.
fn compose(
    alloc: Global,
    picture: &Picture<'_>,
    sizes: Sizes,
    wide: &str,
    narrow: &str,
) -> Result<Parts, AllocError> {
    let mut parts = Parts {
        attributes: String::new(alloc),
        body: String::new(alloc),
    };
    push_attributes(&mut parts.attributes, &picture.scene, sizes)?;
    push_composed(&mut parts.body, picture, sizes, wide, narrow)?;
    Ok(parts)
}

/// Appends the body of the element.
fn push_composed(
    out: &mut String,
    picture: &Picture<'_>,
    sizes: Sizes,
    wide: &str,
    narrow: &str,
) -> Result<(), AllocError> {
    push_head(out, &picture.scene)?;
    out.push_str("<g class='tw'>\n")?;
    out.push_str(wide)?;
    out.push_str("</g>\n")?;
    open_narrow(out, sizes)?;
    out.push_str(narrow)?;
    out.push_str("</g>\n")
}

/// Appends both layouts. Returns their sizes.
fn draw_both(
    alloc: Global,
    wide: &mut String,
    narrow: &mut String,
    pictures: &mut Pictures<'_>,
    errors: u64,
) -> Result<Sizes, AllocError> {
    Ok(Sizes {
        wide: draw(alloc, wide, &mut pictures.wide, errors, NARROWEST)?,
        narrow: draw(alloc, narrow, &mut pictures.narrow, errors, PHONE)?,
    })
}

/// Returns the attributes and the body of a timeline, for a script with this number of lines with errors.
pub fn parts_of(
    alloc: Global,
    pictures: &mut Pictures<'_>,
    errors: u64,
) -> Result<Parts, AllocError> {
    let mut wide = String::new(alloc);
    let mut narrow = String::new(alloc);
    let sizes = draw_both(alloc, &mut wide, &mut narrow, pictures, errors)?;
    compose(alloc, &pictures.wide, sizes, &wide, &narrow)
}
