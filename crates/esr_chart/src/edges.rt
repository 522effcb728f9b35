//! The right edges of the texts of a band, from which the columns get their distances.

use crate::excess::excess_letters;
use crate::layout::{Column, GAP, MARGIN, width_of};
use crate::reads::read_letters;
use esr_text::{letters_of, number_letters};
use esr_timeline_data::{Action, Arrow, Lane, Mark, weight_letters};
use esr_wording::outcome_words;
use std::alloc::{AllocError, Global};

/// The maximum number of rows of the axis.
const MAX_ROWS: usize = 3;

/// The least distance of two steps.
const STEP_GAP: u32 = 6;

/// The right edge of the word in front of the steps.
const STEP_WORD: u32 = MARGIN + 28;

/// The right edges of the texts of a band.
#[derive(Drop)]
pub struct Edges {
    left: u32,
    /// Of the labels of each lane.
    labels: Vec<u32>,
    /// Of the charges below each lane.
    charges: Vec<u32>,
    /// Of the outcome of each lane, or 0.
    outcomes: Vec<u32>,
    /// Of the texts above each lane, or 0.
    heads: Vec<u32>,
    /// Of the steps in each row of the axis.
    steps: Vec<u32>,
    /// Whether the texts of charges are in narrow rows one below the other.
    is_folded: bool,
}

/// Returns half of the width of a number of letters.
fn half_of(letters: usize) -> u32 {
    width_of(letters).div_ceil(2)
}

/// Returns the letters below a mark.
fn value_letters(column: &Column<'_>) -> usize {
    let mark = &column.mark;
    match mark.action {
        Action::Read { .. } => read_letters(column),
        Action::Write { value } => letters_of(value),
        Action::Blocked {
            value,
            times,
            excess,
            ..
        } => {
            let count = if times > 1 {
                number_letters(times).saturating_add(8)
            } else {
                0
            };
            // "limit of " has 9 letters, as "its limit" has.
            let blocker = mark.blocker.len().saturating_add(9).saturating_add(count);
            // "tried to read" has 13 letters.
            let attempt = value.map_or(13, |value| letters_of(value).saturating_add(15));
            blocker.max(attempt).max(excess_letters(column, excess))
        }
        Action::Begin | Action::Commit | Action::Abort => 0,
    }
}

/// Returns the letters above a mark.
fn item_letters(mark: &Mark<'_>) -> usize {
    let more = match mark.action {
        Action::Read { .. } => weight_letters(mark.weight),
        _ => 0,
    };
    mark.item.len().saturating_add(more)
}

/// Returns half of the width of the labels of a column.
fn half_label(column: &Column<'_>) -> u32 {
    if column.has_label {
        half_of(item_letters(&column.mark).max(value_letters(column)))
    } else {
        0
    }
}

/// Returns half of the width of the step of a column.
fn half_step(column: &Column<'_>) -> u32 {
    half_of(number_letters((column.mark.place as u64).saturating_add(1)))
}

/// Returns the letters of the change of a charge: `500 to 400`, and the number of reads if it is not 1.
pub fn change_letters(arrow: &Arrow<'_>, is_folded: bool) -> usize {
    let reads = arrow.reads();
    let times = if reads > 1 {
        number_letters(reads).saturating_add(8)
    } else {
        0
    };
    let old = letters_of(arrow.old);
    let new = letters_of(arrow.new)
        .saturating_add(times)
        .saturating_add(3);
    if is_folded {
        old.max(new)
    } else {
        old.saturating_add(new).saturating_add(1)
    }
}

/// Returns the letters of the amount of a charge and of its item with its weight: `+100 for savings`.
fn amount_letters(arrow: &Arrow<'_>, is_folded: bool) -> usize {
    let amount = number_letters(arrow.amount).saturating_add(1);
    let weight = weight_letters(arrow.weight);
    let item = arrow.item.len().saturating_add(weight).saturating_add(4);
    if is_folded {
        amount.max(item)
    } else {
        amount.saturating_add(item).saturating_add(1)
    }
}

/// Returns half of the width of the text of a charge.
fn half_charge(arrow: &Arrow<'_>, is_folded: bool) -> u32 {
    half_of(amount_letters(arrow, is_folded).max(change_letters(arrow, is_folded)))
}

/// Returns the width of the outcome of a lane.
pub fn outcome_width(lane: &Lane<'_>) -> u32 {
    let words = outcome_words(lane.outcome).len();
    width_of(match lane.distance {
        Some(distance) => number_letters(distance).saturating_add(7).max(words),
        None => words,
    })
}

/// Returns whether the arrow of a charge leads down to the lane of the query, past the labels of its marks.
fn is_downward(arrow: &Arrow<'_>) -> bool {
    arrow.from.is_some_and(|from| from < arrow.to)
}

/// Returns the lanes between those of a charge: from the first to before the last.
fn lanes_crossed(arrow: &Arrow<'_>) -> (usize, usize) {
    let from = arrow.from.unwrap_or(arrow.to);
    (from.min(arrow.to), from.max(arrow.to))
}

/// Returns the lanes whose labels the arrow of a charge must not cross, from the first to before the last: those between its
/// ends, and that of the update unless the mark is on it.
fn lanes_passed(arrow: &Arrow<'_>, mark_lane: usize) -> (usize, usize) {
    let from = arrow.from.unwrap_or(arrow.to);
    let more = if mark_lane == from { 0 } else { 1 };
    if from > arrow.to {
        (arrow.to.saturating_add(1), from.saturating_add(more))
    } else {
        let first = from.saturating_add(1).saturating_sub(more);
        (first.min(arrow.to), arrow.to)
    }
}

/// Returns how many rows the steps of some columns take.
pub fn step_rows(columns: &[Column<'_>]) -> u32 {
    let mut rows = 1u32;
    for column in columns {
        rows = rows.max((column.row.min(MAX_ROWS) as u32).saturating_add(1));
    }
    rows
}

/// Returns the edge of a lane.
fn edge_at(edges: &[u32], lane: usize) -> u32 {
    edges.get(lane).copied().unwrap_or(0)
}

/// Replaces the edge of a lane.
fn set_edge(edges: &mut [u32], lane: usize, edge: u32) {
    if let Some(place) = edges.get_mut(lane) {
        *place = edge;
    }
}

/// Raises the edges of some lanes, from the first to before the last.
fn raise_edges(edges: &mut [u32], (first, last): (usize, usize), edge: u32) {
    for lane in first..last {
        let greatest = edge_at(edges, lane).max(edge);
        set_edge(edges, lane, greatest);
    }
}

/// Returns the greatest of some edges.
fn greatest_of(edges: &[u32]) -> u32 {
    let mut greatest = 0u32;
    for edge in edges {
        greatest = greatest.max(*edge);
    }
    greatest
}

impl Edges {
    /// Returns the edges of a band whose lanes begin at `left`, and whose steps are right of the word for them. The names of
    /// lanes without a head in the band have these right edges, if they are above the lanes.
    pub fn new(
        alloc: Global,
        names: Vec<u32>,
        left: u32,
        is_folded: bool,
    ) -> Result<Edges, AllocError> {
        let lanes = names.len();
        let steps = left.saturating_sub(STEP_GAP).max(STEP_WORD);
        Ok(Edges {
            left,
            labels: vec![in alloc; left; lanes]?,
            charges: vec![in alloc; left; lanes]?,
            outcomes: vec![in alloc; 0u32; lanes]?,
            heads: names,
            steps: vec![in alloc; steps; MAX_ROWS]?,
            is_folded,
        })
    }

    /// Returns the left edge of the lanes.
    pub fn left(&self) -> u32 {
        self.left
    }

    /// Returns the least x at which a label of a lane meets no other one.
    fn least_for_label(&self, lane: usize, half: u32) -> u32 {
        edge_at(&self.labels, lane)
            .saturating_add(GAP)
            .saturating_add(half)
    }

    /// Returns the least x at which an arrow meets no outcome of the lanes that it crosses.
    fn least_for_arrow(&self, arrow: &Arrow<'_>) -> u32 {
        let (first, last) = lanes_crossed(arrow);
        match self.outcomes.get(first..last) {
            Some(crossed) => greatest_of(crossed).saturating_add(GAP),
            None => 0,
        }
    }

    /// Returns the least x at which an arrow meets no label and no charge of the lanes that it passes.
    fn least_beside_labels(&self, arrow: &Arrow<'_>, mark_lane: usize) -> u32 {
        let (first, last) = lanes_passed(arrow, mark_lane);
        let labels = self.labels.get(first..last).unwrap_or(&[]);
        let charges = self.charges.get(first..last).unwrap_or(&[]);
        let edge = greatest_of(labels).max(greatest_of(charges));
        if edge > self.left {
            edge.saturating_add(GAP)
        } else {
            0
        }
    }

    /// Returns the least x at which the texts of these charges meet no other ones, and the arrows neither labels nor
    /// outcomes.
    fn least_for_charges(&self, arrows: &[Arrow<'_>], mark_lane: usize) -> u32 {
        let mut least = 0u32;
        for arrow in arrows {
            let edge = edge_at(&self.charges, arrow.to).saturating_add(GAP);
            least = least
                .max(edge.saturating_add(half_charge(arrow, self.is_folded)))
                .max(self.least_beside_labels(arrow, mark_lane))
                .max(self.least_for_arrow(arrow));
            if is_downward(arrow) {
                least = least
                    .max(self.least_for_label(arrow.to, 0))
                    .max(edge_at(&self.heads, arrow.to).saturating_add(GAP));
            }
        }
        least
    }

    /// Notes that the head of a lane, which is above it, has this right edge.
    pub fn note_head(&mut self, lane: usize, edge: u32) {
        set_edge(&mut self.heads, lane, edge);
    }

    /// Returns the least x at which a row of the axis has space for a step.
    fn least_for_step(&self, half: u32) -> u32 {
        let mut least = u32::MAX;
        for edge in &self.steps {
            least = least.min(*edge);
        }
        least.saturating_add(STEP_GAP).saturating_add(half)
    }

    /// Returns the least x of a column with these charges.
    pub fn least(&self, column: &Column<'_>, charges: &[Arrow<'_>]) -> u32 {
        self.least_for_label(column.mark.lane, half_label(column))
            .max(self.least_for_charges(charges, column.mark.lane))
            .max(self.least_for_step(half_step(column)))
    }

    /// Returns the first row of the axis that has space for the step of a column.
    pub fn row_of(&self, column: &Column<'_>) -> usize {
        let left = column
            .x
            .saturating_sub(half_step(column))
            .saturating_sub(STEP_GAP);
        self.steps
            .iter()
            .position(|edge| *edge <= left)
            .unwrap_or(0)
    }

    /// Returns how far the texts of a column with these charges reach.
    pub fn reach(&self, lanes: &[Lane<'_>], column: &Column<'_>, charges: &[Arrow<'_>]) -> u32 {
        let mut half = half_label(column).max(half_step(column));
        for arrow in charges {
            half = half.max(half_charge(arrow, self.is_folded));
        }
        column
            .x
            .saturating_add(half.max(width_after(lanes, column)))
    }

    /// Notes the texts of these charges at x, and the arrows.
    fn note_charges(&mut self, arrows: &[Arrow<'_>], mark_lane: usize, x: u32) {
        for arrow in arrows {
            let passed = lanes_passed(arrow, mark_lane);
            raise_edges(&mut self.labels, passed, x);
            raise_edges(&mut self.charges, passed, x);
            set_edge(
                &mut self.charges,
                arrow.to,
                x.saturating_add(half_charge(arrow, self.is_folded)),
            );
            if is_downward(arrow) {
                let edge = edge_at(&self.labels, arrow.to).max(x);
                set_edge(&mut self.labels, arrow.to, edge);
            }
        }
    }

    /// Notes the texts of a column with these charges.
    pub fn note(&mut self, lanes: &[Lane<'_>], column: &Column<'_>, charges: &[Arrow<'_>]) {
        let (lane, x) = (column.mark.lane, column.x);
        set_edge(&mut self.labels, lane, x.saturating_add(half_label(column)));
        set_edge(
            &mut self.steps,
            column.row,
            x.saturating_add(half_step(column)),
        );
        let after = width_after(lanes, column);
        if after > 0 {
            set_edge(&mut self.outcomes, lane, x.saturating_add(after));
        }
        self.note_charges(charges, lane, x);
    }

    /// Returns the farthest that any label or charge reaches.
    pub fn farthest(&self) -> u32 {
        greatest_of(&self.labels).max(greatest_of(&self.charges))
    }
}

/// Returns how far the outcome of a lane reaches beyond the column of its end, and 0 for any other column.
fn width_after(lanes: &[Lane<'_>], column: &Column<'_>) -> u32 {
    match (column.mark.action, lanes.get(column.mark.lane)) {
        (Action::Commit | Action::Abort, Some(lane)) => outcome_width(lane).saturating_add(GAP),
        _ => 0,
    }
}
