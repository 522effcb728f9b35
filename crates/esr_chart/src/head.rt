//! The head of a timeline: its size, a description for screen readers, and its colours.
//!
//! The element has the view box of the wide layout. In a window that is as narrow as that of a phone, the style sheet
//! hides this layout and shows the narrow one, in a box of the size of that one. The view box is scaled so that it fits
//! into this box, and the narrow layout by the inverse factor. An image element has the proportions of the wide layout:
//! it shows this one if it is wider than high, also if it is narrow.

use crate::elements::push_rect;
use crate::titles::push_outcome_words;
use esr_timeline_data::{Lane, Scene};
use std::alloc::AllocError;

/// The style sheet. A page contains timelines and pictures, so their classes have different names.
///
/// Texts: `hd` heading, `nm` name of a lane, `lb` label, `ha` with a halo, `gy` muted, `rd` off, `ch` a charge, `bl` blocked,
/// `gn` exact. Lanes: `bu` an update, `bo` one that is not in the nearest state, `bq` a query, `op` not ended. Marks: `mr` a read, `mo` a read that is off, `mw` a
/// write, `mx` a blocked operation. Charges: `ar` an arrow, `er` for a read before commit, `tp` its head. Limits: `lf` the
/// frame, `lu` the used part. Others: `cn` a lane that continues below, `gd` a guide,
/// `pp` the background. Layouts: `ts` the element, `tw` the wide layout, `tn` the narrow one.
const STYLE: &str = "<style>\n\
text{font:12px sans-serif;fill:#1f2328}\n\
.hd{font:bold 15px Menlo,Consolas,'DejaVu Sans Mono',monospace}\n\
.nm{font:bold 13px Menlo,Consolas,'DejaVu Sans Mono',monospace}\n\
.lb{font:11px Menlo,Consolas,'DejaVu Sans Mono',monospace}\n\
.ha{paint-order:stroke;stroke:#fff;stroke-width:4px;stroke-linejoin:round}\n\
.gy{fill:#59636e}\n\
.rd{fill:#c4302b}\n\
.ch{fill:#0a56a8}\n\
.bl{fill:#8a5a00}\n\
.gn{fill:#1a7f4b}\n\
.pp{fill:#fff}\n\
.bu{fill:#cfe3f7;stroke:#35658f}\n\
.bo{fill:#eef0f2;stroke:#8a949e}\n\
.bq{fill:#d8f0e2;stroke:#1a7f4b}\n\
.op{stroke-dasharray:4 3;fill-opacity:.45}\n\
.mr{fill:#fff;stroke:#1f2328;stroke-width:2}\n\
.mo{fill:#fff;stroke:#c4302b;stroke-width:3}\n\
.mw{fill:#1f2328}\n\
.mx{fill:none;stroke:#8a5a00;stroke-width:2.5}\n\
.ar{fill:none;stroke:#0a56a8;stroke-width:1.5}\n\
.er{stroke-dasharray:5 3}\n\
.tp{fill:#0a56a8}\n\
.gd{stroke:#eaedf0}\n\
.lf{fill:none;stroke:#8a949e}\n\
.lu{fill:#3d86cf}\n\
.cn{fill:#59636e}\n\
.tn{display:none}\n\
@media (max-width:560px) and (max-aspect-ratio:3/4){\n\
.ts{width:390px;max-width:100%;height:auto;aspect-ratio:var(--ratio)}.tw{display:none}.tn{display:inline}}\n\
@media (prefers-color-scheme:dark){\n\
text{fill:#e6edf3}.ha{stroke:#0d1117}.gy{fill:#9aa4af}.rd{fill:#ff7b72}.ch{fill:#78b6f5}.bl{fill:#e0a83c}.gn{fill:#4cc47c}.pp{fill:#0d1117}\n\
.bu{fill:#1d3a57;stroke:#6ea8dc}.bo{fill:#22272e;stroke:#7d8792}.bq{fill:#163d29;stroke:#4cc47c}.mr{fill:#0d1117;stroke:#e6edf3}.mo{fill:#0d1117;stroke:#ff7b72}.mw{fill:#e6edf3}\n\
.mx{stroke:#e0a83c}.ar{stroke:#78b6f5}.tp{fill:#78b6f5}.gd{stroke:#1f262d}.lf{stroke:#68737f}.lu{fill:#58a6f2}.cn{fill:#9aa4af}}\n\
</style>\n";

/// The size of a layout in pixels.
#[derive(Clone, Copy)]
pub struct Size {
    pub width: u32,
    pub height: u32,
}

/// The sizes of both layouts.
#[derive(Clone, Copy)]
pub struct Sizes {
    pub wide: Size,
    pub narrow: Size,
}

/// Returns the prefix of the names of elements, so that several pictures can be in one page.
pub fn prefix_of<'a>(scene: &Scene<'a>) -> &'a str {
    scene.query.unwrap_or("all")
}

/// Appends the attributes of the element, with a blank before each.
pub fn push_attributes(
    out: &mut String,
    scene: &Scene<'_>,
    sizes: Sizes,
) -> Result<(), AllocError> {
    let prefix = prefix_of(scene);
    let Size { width, height } = sizes.wide;
    write!(
        out,
        " xmlns='http://www.w3.org/2000/svg' viewBox='0 0 {width} {height}' width='{width}'"
    )?;
    push_box(out, sizes.narrow, height)?;
    write!(
        out,
        " aria-labelledby='{prefix}-timeline-title {prefix}-timeline-desc'"
    )
}

/// Appends the attributes for the box of the narrow layout.
fn push_box(out: &mut String, narrow: Size, height: u32) -> Result<(), AllocError> {
    let Size {
        width: across,
        height: down,
    } = narrow;
    write!(out, " height='{height}' preserveAspectRatio='xMinYMin'")?;
    write!(
        out,
        " class='ts' style='--ratio:{across}/{down}' role='img'"
    )
}

/// Returns a part of a whole in ten thousandths.
fn ratio(part: u32, whole: u32) -> u64 {
    u64::from(part)
        .saturating_mul(10_000)
        .checked_div(u64::from(whole))
        .unwrap_or(10_000)
}

/// Appends the start of the group of the narrow layout, with its scale.
pub fn open_narrow(out: &mut String, sizes: Sizes) -> Result<(), AllocError> {
    let across = ratio(sizes.wide.width, sizes.narrow.width);
    let down = ratio(sizes.wide.height, sizes.narrow.height);
    let scale = across.max(down);
    let (whole, rest) = (scale / 10_000, scale % 10_000);
    write!(out, "<g class='tn' transform='scale({whole}.{rest:04})'>\n")
}

/// Appends the names and outcomes of the lanes, for the description.
fn push_lanes_words(out: &mut String, lanes: &[Lane<'_>]) -> Result<(), AllocError> {
    for lane in lanes {
        let name = lane.name;
        write!(out, " {name}: ")?;
        push_outcome_words(out, lane)?;
        out.push('.')?;
    }
    Ok(())
}

/// Appends the text of the heading.
pub fn push_heading_words(out: &mut String, scene: &Scene<'_>) -> Result<(), AllocError> {
    match scene.query {
        Some(query) => write!(out, "{query}: what happened, step by step"),
        None => out.push_str("What happened, step by step"),
    }
}

/// Appends the title and the description.
fn push_description(out: &mut String, scene: &Scene<'_>) -> Result<(), AllocError> {
    let prefix = prefix_of(scene);
    write!(out, "\n<title id='{prefix}-timeline-title'>")?;
    push_heading_words(out, scene)?;
    write!(
        out,
        "</title>\n<desc id='{prefix}-timeline-desc'>Transactions as lanes."
    )?;
    push_lanes_words(out, &scene.lanes)?;
    out.push_str("</desc>\n")
}

/// Appends the title, the description, the style and the tip of the arrows.
pub fn push_head(out: &mut String, scene: &Scene<'_>) -> Result<(), AllocError> {
    let prefix = prefix_of(scene);
    push_description(out, scene)?;
    out.push_str(STYLE)?;
    write!(
        out,
        "<defs><marker id='{prefix}-timeline-tip' markerWidth='8' markerHeight='8' refX='6' refY='4' orient='auto'>"
    )?;
    out.push_str("<path class='tp' d='M0 1L7 4L0 7'/></marker></defs>\n")
}

/// Appends the background of a layout.
pub fn push_background(out: &mut String, size: Size) -> Result<(), AllocError> {
    push_rect(out, "pp", 0, 0, size.width, size.height)
}
