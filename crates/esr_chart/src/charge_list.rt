//! The list of the charges of a query that are not drawn, below the drawing: of each its step, its update, its item with the
//! change of the value, and its amount, the greatest first and next to one another.
//!
//! With it a reader can add up the sums of the table above. A narrow picture has those sums only. Rejected: a list of all
//! charges, since the drawing has the others with the same data.

use crate::edges::change_letters;
use crate::elements::{close_text, open_end, open_text};
use crate::grid::Position;
use crate::layout::{MARGIN, width_of};
use crate::listing::{Cells, Listing, Omitted};
use crate::table::{COLUMN_GAP, NARROW, push_step, step_letters, step_words};
use crate::titles::push_change;
use esr_text::{first, number_letters, push_count, push_number};
use esr_timeline_data::{ListedCharge, Scene};
use std::alloc::{AllocError, Global};

/// The maximum number of charges in the list.
pub const MAX_CHARGES: usize = 300;

/// A column of the list.
#[derive(Clone, Copy, PartialEq, Eq)]
enum Field {
    Step,
    Update,
    Item,
    Change,
    Amount,
}

static FIELDS: [Field; 5] = [
    Field::Step,
    Field::Update,
    Field::Item,
    Field::Change,
    Field::Amount,
];

/// Returns the letters of a field of a charge.
fn letters_in(charge: &ListedCharge<'_>, field: Field) -> usize {
    match field {
        Field::Step => step_letters(charge.arrow.step(), charge.arrow.is_early_read()),
        Field::Update => charge.update.len(),
        Field::Item => charge.arrow.item.len(),
        Field::Change => change_letters(&charge.arrow, false),
        Field::Amount => number_letters(charge.arrow.amount),
    }
}

/// Returns the width of a column of these charges.
fn column_width(charges: &[ListedCharge<'_>], field: Field) -> u32 {
    let mut letters = 0usize;
    for charge in charges {
        letters = letters.max(letters_in(charge, field));
    }
    width_of(letters)
}

/// Returns the width of a cell of these charges.
fn cell_width(charges: &[ListedCharge<'_>]) -> u32 {
    let mut width = 0u32;
    for field in &FIELDS {
        width = width
            .saturating_add(column_width(charges, *field))
            .saturating_add(COLUMN_GAP);
    }
    width.saturating_sub(COLUMN_GAP)
}

/// Returns the sum of some charges.
fn total_of(charges: &[ListedCharge<'_>]) -> u64 {
    let mut total = 0u64;
    for charge in charges {
        total = total.saturating_add(charge.arrow.amount);
    }
    total
}

/// Returns whether one of the first charges, which are in the list, is for a read before commit.
fn has_early_read(charges: &[ListedCharge<'_>]) -> bool {
    first(charges, MAX_CHARGES)
        .iter()
        .any(|charge| charge.arrow.is_early_read())
}

/// Appends what the list has.
fn push_words(out: &mut String, scene: &Scene<'_>) -> Result<(), AllocError> {
    let count = scene.undrawn.len() as u64;
    push_count(out, count, " charge to ", " charges to ")?;
    out.push_str(scene.query.unwrap_or(""))?;
    out.push_str(if count == 1 {
        " is not drawn, "
    } else {
        " are not drawn, the greatest first, together "
    })?;
    push_number(out, total_of(&scene.undrawn))?;
    out.push_str(step_words(has_early_read(&scene.undrawn)))?;
    out.push_str(", update, item with its change, charge.")
}

/// Returns the width that the list of a scene needs, or 0 without a list.
pub fn list_width(scene: &Scene<'_>) -> u32 {
    if scene.undrawn.is_empty() {
        return 0;
    }
    cell_width(first(&scene.undrawn, MAX_CHARGES)).saturating_add(2 * MARGIN)
}

/// Appends a field of a charge.
fn push_field(out: &mut String, charge: &ListedCharge<'_>, field: Field) -> Result<(), AllocError> {
    match field {
        Field::Step => push_step(out, charge.arrow.step(), charge.arrow.is_early_read()),
        Field::Update => out.push_str(charge.update),
        Field::Item => out.push_str(charge.arrow.item),
        Field::Change => push_change(out, &charge.arrow),
        Field::Amount => push_number(out, charge.arrow.amount),
    }
}

/// Appends the start of a text of a field in a column of this width.
fn open_field(
    out: &mut String,
    field: Field,
    width: u32,
    position: Position,
) -> Result<(), AllocError> {
    let Position { x, y } = position;
    match field {
        Field::Step => open_end(out, "lb cl", x.saturating_add(width), y),
        Field::Amount => open_end(out, "lb ch cl", x.saturating_add(width), y),
        _ => open_text(out, "lb cl", x, y),
    }
}

/// Appends a charge, whose columns are as wide as these charges need.
fn push_charge(
    out: &mut String,
    charges: &[ListedCharge<'_>],
    charge: &ListedCharge<'_>,
    position: Position,
) -> Result<(), AllocError> {
    let mut position = position;
    for field in &FIELDS {
        let width = column_width(charges, *field);
        open_field(out, *field, width, position)?;
        push_field(out, charge, *field)?;
        close_text(out)?;
        position.x = position.x.saturating_add(width).saturating_add(COLUMN_GAP);
    }
    Ok(())
}

/// The list of a scene.
#[derive(Drop)]
pub struct ChargeList {
    listing: Listing,
}

impl ChargeList {
    /// Returns the list of a scene in a picture of this width, if some charges are not drawn, and the picture is wide enough.
    pub fn of(
        alloc: Global,
        scene: &Scene<'_>,
        width: u32,
    ) -> Result<Option<ChargeList>, AllocError> {
        if scene.undrawn.is_empty() || width <= NARROW || list_width(scene) > width {
            return Ok(None);
        }
        let charges = first(&scene.undrawn, MAX_CHARGES);
        let cells = Cells {
            count: charges.len(),
            width: cell_width(charges),
        };
        let omitted = Omitted {
            count: scene.undrawn.len().saturating_sub(charges.len()),
            amount: total_of(&scene.undrawn).saturating_sub(total_of(charges)),
        };
        let mut words = String::new(alloc);
        push_words(&mut words, scene)?;
        Ok(Some(ChargeList {
            listing: Listing::of(alloc, &words, cells, omitted, "lb cl", width)?,
        }))
    }

    /// Returns the height with the distance to the legend.
    pub fn height(&self) -> u32 {
        self.listing.height()
    }

    /// Appends the list, whose first baseline is at `y`.
    pub fn push(&self, out: &mut String, scene: &Scene<'_>, y: u32) -> Result<(), AllocError> {
        let top = self.listing.push_words(out, y)?;
        let charges = first(&scene.undrawn, self.listing.count);
        for (index, charge) in charges.iter().enumerate() {
            push_charge(out, charges, charge, self.listing.position(index, top))?;
        }
        self.listing.push_omitted(out, top)
    }
}
