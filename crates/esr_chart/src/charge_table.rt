//! The table of the charges of a query by update, below the drawing, if that does not have all charges: the updates with the sums
//! of their charges next to one another, the greatest first.

use crate::elements::{close_text, open_end, push_text};
use crate::grid::Position;
use crate::layout::width_of;
use crate::listing::{Cells, Listing, Omitted};
use crate::table::NARROW;
use esr_text::{first, number_letters, push_number};
use esr_timeline_data::{ChargeSum, Scene};
use std::alloc::{AllocError, Global};

/// The maximum number of updates in the table, and in that of a narrow picture.
const MAX_SUMS: usize = 150;

const MAX_NARROW_SUMS: usize = 30;

/// The distance of a name from its sum.
const SUM_GAP: u32 = 14;

/// The table of the charges of a scene.
#[derive(Drop)]
pub struct ChargeTable {
    listing: Listing,
    /// The width of a name and a sum.
    width: u32,
}

/// Returns the total of some sums.
fn total_of(sums: &[ChargeSum<'_>]) -> u64 {
    let mut total = 0u64;
    for sum in sums {
        total = total.saturating_add(sum.amount);
    }
    total
}

/// Returns the width of the longest name and the longest sum.
fn cell_width(sums: &[ChargeSum<'_>]) -> u32 {
    let mut name = 0usize;
    let mut amount = 0usize;
    for sum in sums {
        name = name.max(sum.update.len());
        amount = amount.max(number_letters(sum.amount));
    }
    width_of(name)
        .saturating_add(SUM_GAP)
        .saturating_add(width_of(amount))
}

/// Appends what the table has.
fn push_words(out: &mut String, scene: &Scene<'_>) -> Result<(), AllocError> {
    let query = scene.query.unwrap_or("");
    out.push_str("All charges to ")?;
    out.push_str(query)?;
    out.push_str(" by update, together ")?;
    push_number(out, total_of(&scene.charge_sums))?;
    out.push('.')
}

/// Appends an update with its sum, of which both together have this width.
fn push_sum(
    out: &mut String,
    sum: &ChargeSum<'_>,
    width: u32,
    position: Position,
) -> Result<(), AllocError> {
    let Position { x, y } = position;
    push_text(out, "lb cs", x, y, sum.update)?;
    open_end(out, "lb ch cs", x.saturating_add(width), y)?;
    push_number(out, sum.amount)?;
    close_text(out)
}

impl ChargeTable {
    /// Returns the table of a scene in a picture of this width, if some charges are not drawn.
    pub fn of(
        alloc: Global,
        scene: &Scene<'_>,
        width: u32,
    ) -> Result<Option<ChargeTable>, AllocError> {
        if scene.rest.charges == 0 || scene.charge_sums.is_empty() {
            return Ok(None);
        }
        let most = if width <= NARROW {
            MAX_NARROW_SUMS
        } else {
            MAX_SUMS
        };
        let sums = first(&scene.charge_sums, most);
        let cells = Cells {
            count: sums.len(),
            width: cell_width(sums),
        };
        let omitted = Omitted {
            count: scene.charge_sums.len().saturating_sub(sums.len()),
            amount: total_of(&scene.charge_sums).saturating_sub(total_of(sums)),
        };
        let mut words = String::new(alloc);
        push_words(&mut words, scene)?;
        Ok(Some(ChargeTable {
            listing: Listing::of(alloc, &words, cells, omitted, "lb cs", width)?,
            width: cells.width,
        }))
    }

    /// Returns the height with the distance to the legend.
    pub fn height(&self) -> u32 {
        self.listing.height()
    }

    /// Appends the table, whose first baseline is at `y`.
    pub fn push(&self, out: &mut String, scene: &Scene<'_>, y: u32) -> Result<(), AllocError> {
        let top = self.listing.push_words(out, y)?;
        let sums = first(&scene.charge_sums, self.listing.count);
        for (index, sum) in sums.iter().enumerate() {
            push_sum(out, sum, self.width, self.listing.position(index, top))?;
        }
        self.listing.push_omitted(out, top)
    }
}
