//! Computes the positions of marks and lanes in pixels. Names and numbers are in a monospaced font whose letters are at
//! most 0.61 of its height wide, so the width of a text is known in advance.
//!
//! Each mark has its own column. The distance of two columns is such that the labels of a lane do not overlap; the
//! labels of two lanes cannot overlap. Columns that are too many for one row continue in a further band below, with the
//! lanes of the transactions that are active there. For each band, and for each lane in it, only the rows are reserved
//! that it needs.

use crate::edges::{Edges, outcome_width, step_rows};
use crate::limits::has_bar;
use crate::reads::count_more_rows;
use crate::titles::kind_of;
use esr_history::MAX_LIMIT;
use esr_text::number_letters;
use esr_timeline_data::{Action, Arrow, Lane, Mark};
use std::alloc::{AllocError, Global};

/// The width of a letter of a label.
const LETTER: u32 = 7;

/// The width of a letter of a name.
const NAME_LETTER: u32 = 8;

/// The maximum width of the limit and the charges of a transaction in one row.
const MAX_AMOUNTS: u32 = 340;

/// The least distance of two labels.
pub const GAP: u32 = 8;

/// The left edge of the picture.
pub const MARGIN: u32 = 20;

/// The height of a lane up to the lower edge of the values below it.
const VALUES_HEIGHT: u32 = 46;

/// From the last row of a lane to the next lane.
const LANE_GAP: u32 = 6;

/// From the arrows of charges that end at a query to the head above the next lane.
const ARROW_GAP: u32 = 12;

/// The height of the four rows in front of a lane.
const HEAD_HEIGHT: u32 = 66;

/// From the arrows of charges that end at a query to the next lane, if the heads are in front of the lanes.
const ARROW_LENGTH: u32 = 17;

/// From the rows of the reads of a query to its charges.
const CHARGE_GAP: u32 = 8;

/// From row to row of the texts of a lane.
pub const TEXT_ROW: u32 = 13;

/// The height of the name above a lane, and of the rows below it.
const NAME_HEIGHT: u32 = 20;

/// From row to row of the axis.
pub const STEP_ROW: u32 = 13;

/// From band to band.
const BAND_GAP: u32 = 14;

/// What is drawn: marks and charges in the order of their entries.
#[derive(Clone, Copy)]
pub struct Drawn<'a, 'b> {
    pub lanes: &'b [Lane<'a>],
    pub marks: &'b [Mark<'a>],
    pub arrows: &'b [Arrow<'a>],
}

/// Which labels are drawn, and the least distance of two columns.
#[derive(Clone, Copy)]
pub struct Spacing {
    pub has_all_labels: bool,
    pub pitch: u32,
    /// Whether reads that are off and charges have their texts in narrow rows one below the other.
    pub is_folded: bool,
}

/// The place of the names, limits and charges of transactions.
#[derive(Clone, Copy)]
pub enum Heads {
    /// In front of the lanes.
    InFront,
    /// Above the lanes, which then take the whole width.
    Above,
}

/// The width of the bands, unless one event is wider, their maximum number, and the maximum height of them together.
#[derive(Clone, Copy)]
pub struct Format {
    pub width: u32,
    pub bands: usize,
    pub height: u32,
    pub heads: Heads,
}

/// A mark with its column.
#[derive(Clone, Copy)]
pub struct Column<'a> {
    pub mark: Mark<'a>,
    pub x: u32,
    pub has_label: bool,
    pub is_folded: bool,
    /// The row of its step on the axis.
    pub row: usize,
}

/// The part of a lane in a band.
#[derive(Clone, Copy)]
pub struct Span {
    /// The upper edge below that of the band, without the name above the lane.
    top: u32,
    /// The height of the name above the lane, and of the rows below it.
    head: u32,
    pub start: u32,
    pub end: u32,
    /// False if the transaction is not active in the band.
    pub is_drawn: bool,
    /// True if it begins in the band.
    pub has_head: bool,
    /// True if it ends in the band, or is active after the last one.
    pub has_outcome: bool,
    /// True if a charge of the band is to its transaction.
    has_charges: bool,
    is_folded: bool,
    /// The rows below the first one that the reads of the band need.
    more_rows: u32,
}

/// Columns next to each other, with the lanes of the transactions that are active there.
#[derive(Drop)]
pub struct Band<'a> {
    pub columns: Vec<Column<'a>>,
    pub spans: Vec<Span>,
    /// The upper edge.
    pub top: u32,
    /// The height of the lanes.
    height: u32,
    /// The left edge of the lanes.
    pub left: u32,
    /// The number of rows of the axis.
    rows: u32,
    heads: Heads,
}

/// The bands of a timeline.
#[derive(Drop)]
pub struct Layout<'a> {
    pub bands: Vec<Band<'a>>,
    /// The right edge of all lanes and their outcomes.
    pub right: u32,
    /// False if there are more columns than the bands have, or the bands are too wide or too high.
    pub is_complete: bool,
}

/// Returns the width of a number of letters.
pub fn width_of(letters: usize) -> u32 {
    (letters.min(400) as u32).saturating_mul(LETTER)
}

/// Returns the letters of the limit of a transaction.
fn limit_letters(lane: &Lane<'_>) -> usize {
    if lane.limit >= MAX_LIMIT {
        13
    } else {
        number_letters(lane.limit).saturating_add(6)
    }
}

/// Returns the letters of the charges of a transaction.
fn charged_letters(lane: &Lane<'_>) -> usize {
    number_letters(lane.charged).saturating_add(8)
}

/// Returns the letters of ` (900 here)`, if there is such a note.
fn here_letters(lane: &Lane<'_>) -> usize {
    if lane.has_here_note() {
        number_letters(lane.here).saturating_add(8)
    } else {
        0
    }
}

/// Returns the letters of ` (900 drawn)`, or after another note of `, 900 drawn`, if there is such a note.
fn drawn_letters(lane: &Lane<'_>) -> usize {
    let letters = number_letters(lane.drawn);
    match (lane.has_drawn_note(), lane.has_here_note()) {
        (true, true) => letters.saturating_add(8),
        (true, false) => letters.saturating_add(9),
        (false, _) => 0,
    }
}

/// Returns the letters of the charges above a lane, with the notes.
fn charged_letters_above(lane: &Lane<'_>) -> usize {
    charged_letters(lane)
        .saturating_add(here_letters(lane))
        .saturating_add(drawn_letters(lane))
}

/// Returns the width of the name of a transaction.
pub fn name_width(lane: &Lane<'_>) -> u32 {
    (lane.name.len().min(100) as u32).saturating_mul(NAME_LETTER)
}

/// Returns the width of the limit of a transaction.
pub fn limit_width(lane: &Lane<'_>) -> u32 {
    width_of(limit_letters(lane))
}

/// Returns the width of the texts in front of a lane.
fn head_width(lane: &Lane<'_>) -> u32 {
    let letters = limit_letters(lane)
        .max(charged_letters(lane))
        .max(here_letters(lane))
        .max(drawn_letters(lane));
    width_of(letters.max(kind_of(lane).len())).max(name_width(lane))
}

/// Returns the width of the limit and the charges above a lane, in one row.
fn amounts_width(lane: &Lane<'_>) -> u32 {
    let charged = width_of(charged_letters_above(lane));
    limit_width(lane)
        .saturating_add(charged)
        .saturating_add(GAP)
}

/// Returns whether the limit and the charges above a lane are in one row.
pub fn fits_one_row(lane: &Lane<'_>) -> bool {
    amounts_width(lane) <= MAX_AMOUNTS
}

/// Returns the width of the texts above a lane.
fn width_above(lane: &Lane<'_>) -> u32 {
    let name = name_width(lane)
        .saturating_add(GAP)
        .saturating_add(width_of(kind_of(lane).len()));
    let amounts = if fits_one_row(lane) {
        amounts_width(lane)
    } else {
        limit_width(lane).max(width_of(charged_letters_above(lane)))
    };
    name.max(amounts)
}

/// Returns the right edges of the rows above a lane, from the name down, or 0 for a row that there is not.
pub fn rows_above(lane: &Lane<'_>, has_head: bool) -> (u32, u32, u32) {
    let name = MARGIN.saturating_add(name_width(lane));
    if !has_head {
        return (name, 0, 0);
    }
    let kind = width_of(kind_of(lane).len());
    let first = name.saturating_add(GAP).saturating_add(kind);
    if fits_one_row(lane) {
        return (first, MARGIN.saturating_add(amounts_width(lane)), 0);
    }
    let charged = width_of(charged_letters_above(lane));
    (
        first,
        MARGIN.saturating_add(limit_width(lane)),
        MARGIN.saturating_add(charged),
    )
}

/// Returns the left edge of the lanes, and the right edge of the texts above them.
fn heads_edges(lanes: &[Lane<'_>], heads: Heads) -> (u32, u32) {
    let mut front = 0u32;
    let mut above = 0u32;
    for lane in lanes {
        front = front.max(head_width(lane));
        above = above.max(width_above(lane));
    }
    match heads {
        Heads::InFront => (front.saturating_add(MARGIN + 4), 0),
        Heads::Above => (MARGIN, above.saturating_add(MARGIN)),
    }
}

/// Returns the charges from one entry on and before another, among charges in the order of their entries.
pub fn charges_between<'a: 'b, 'b>(
    arrows: &'b [Arrow<'a>],
    first: usize,
    end: usize,
) -> &'b [Arrow<'a>] {
    let end = arrows.partition_point(|arrow| arrow.place < end);
    let start = arrows.partition_point(|arrow| arrow.place < first).min(end);
    &arrows[start..end]
}

/// Returns the charges of an entry, among charges in the order of their entries.
pub fn charges_at<'a: 'b, 'b>(arrows: &'b [Arrow<'a>], place: usize) -> &'b [Arrow<'a>] {
    charges_between(arrows, place, place.saturating_add(1))
}

/// Returns the charges up to an entry, among charges in the order of their entries.
pub fn charges_at_or_before<'a: 'b, 'b>(arrows: &'b [Arrow<'a>], place: usize) -> &'b [Arrow<'a>] {
    charges_between(arrows, 0, place.saturating_add(1))
}

/// Returns the column of a mark after a column at `x`.
fn column_of<'a>(
    drawn: Drawn<'a, '_>,
    edges: &Edges,
    mark: &Mark<'a>,
    x: u32,
    spacing: Spacing,
) -> Column<'a> {
    let mut column = Column {
        mark: *mark,
        x: x.saturating_add(spacing.pitch),
        has_label: spacing.has_all_labels || mark.is_key,
        is_folded: spacing.is_folded,
        row: 0,
    };
    let charges = charges_at(drawn.arrows, mark.place);
    column.x = column.x.max(edges.least(&column, charges));
    column.row = edges.row_of(&column);
    column
}

/// Notes the texts above the lane of a transaction that begins at a mark.
fn note_head(lanes: &[Lane<'_>], edges: &mut Edges, mark: &Mark<'_>, heads: Heads) {
    if let (Action::Begin, Heads::Above, Some(lane)) = (mark.action, heads, lanes.get(mark.lane)) {
        edges.note_head(mark.lane, MARGIN.saturating_add(width_above(lane)));
    }
}

/// Returns the columns of a band from the mark at an index on, as many as fit, and one at least.
fn columns_from<'a>(
    alloc: Global,
    drawn: Drawn<'a, '_>,
    from: usize,
    edges: &mut Edges,
    (spacing, format, limit): (Spacing, Format, u32),
) -> Result<Vec<Column<'a>>, AllocError> {
    let mut columns: Vec<Column<'a>> = Vec::new(alloc);
    let mut x = edges.left();
    for mark in drawn.marks.get(from..).unwrap_or(&[]) {
        let column = column_of(drawn, edges, mark, x, spacing);
        let charges = charges_at(drawn.arrows, mark.place);
        if !columns.is_empty() && edges.reach(drawn.lanes, &column, charges) > limit {
            break;
        }
        edges.note(drawn.lanes, &column, charges);
        note_head(drawn.lanes, edges, mark, format.heads);
        x = column.x;
        columns.push(column)?;
    }
    Ok(columns)
}

/// Returns the right edges of the names above the lanes, or 0 for each lane if the names are in front of the lanes.
fn name_edges(alloc: Global, lanes: &[Lane<'_>], heads: Heads) -> Result<Vec<u32>, AllocError> {
    let mut edges = Vec::with_capacity(alloc, lanes.len())?;
    for lane in lanes {
        edges.push(match heads {
            Heads::InFront => 0,
            Heads::Above => MARGIN.saturating_add(name_width(lane)),
        })?;
    }
    Ok(edges)
}

/// Returns the columns of the next band, and raises the right edge of all labels.
fn next_columns<'a>(
    alloc: Global,
    drawn: Drawn<'a, '_>,
    from: usize,
    left: u32,
    farthest: &mut u32,
    (spacing, format, limit): (Spacing, Format, u32),
) -> Result<Vec<Column<'a>>, AllocError> {
    let names = name_edges(alloc, drawn.lanes, format.heads)?;
    let mut edges = Edges::new(alloc, names, left, spacing.is_folded)?;
    let columns = columns_from(alloc, drawn, from, &mut edges, (spacing, format, limit))?;
    let last = columns.last().map_or(left, |column| column.x);
    *farthest = edges.farthest().max(last).max(*farthest);
    Ok(columns)
}

/// The entries at which the transaction of a lane begins and ends, if these are drawn.
#[derive(Clone, Copy)]
struct Life {
    begin: Option<usize>,
    end: Option<usize>,
}

/// Returns the lives of the transactions of the lanes.
fn lives_of(alloc: Global, drawn: Drawn<'_, '_>) -> Result<Vec<Life>, AllocError> {
    let unborn = Life {
        begin: None,
        end: None,
    };
    let mut lives = vec![in alloc; unborn; drawn.lanes.len()]?;
    for mark in drawn.marks {
        if let Some(life) = lives.get_mut(mark.lane) {
            match mark.action {
                Action::Begin => life.begin = Some(mark.place),
                Action::Commit | Action::Abort => life.end = Some(mark.place),
                _ => {}
            }
        }
    }
    Ok(lives)
}

/// Returns the column of an entry.
pub fn column_at<'a, 'b>(columns: &'b [Column<'a>], place: usize) -> Option<&'b Column<'a>> {
    let index = columns
        .binary_search_by_key(&place, |column| column.mark.place)
        .ok()?;
    columns.get(index)
}

/// Returns the x of an entry, if it has a column.
fn x_of(columns: &[Column<'_>], place: Option<usize>) -> Option<u32> {
    column_at(columns, place?).map(|column| column.x)
}

/// Returns whether a transaction is active at some of these columns.
fn is_active(columns: &[Column<'_>], life: Life) -> bool {
    let (Some(first), Some(last)) = (columns.first(), columns.last()) else {
        return false;
    };
    let has_begun = life.begin.is_some_and(|begin| begin <= last.mark.place);
    has_begun && life.end.is_none_or(|end| end >= first.mark.place)
}

/// Returns the part of a lane in a band with these columns.
fn span_of(columns: &[Column<'_>], life: Life, left: u32, open_end: u32, is_last: bool) -> Span {
    let start = x_of(columns, life.begin);
    let end = x_of(columns, life.end);
    Span {
        top: 0,
        head: 0,
        start: start.unwrap_or(left),
        end: end.unwrap_or(open_end),
        is_drawn: is_active(columns, life),
        has_head: start.is_some(),
        has_outcome: end.is_some() || (is_last && life.end.is_none()),
        has_charges: false,
        is_folded: columns.first().is_some_and(|column| column.is_folded),
        more_rows: 0,
    }
}

/// Returns the rows below the first one that the marks of a lane need.
fn more_rows(columns: &[Column<'_>], lane: usize) -> u32 {
    let mut rows = 0u32;
    for column in columns {
        if column.mark.lane == lane {
            rows = rows.max(count_more_rows(column));
        }
    }
    rows
}

/// Returns the height of the texts above the part of a lane.
fn head_height(lane: &Lane<'_>, span: &Span) -> u32 {
    match (span.has_head, fits_one_row(lane)) {
        (false, _) => NAME_HEIGHT,
        (true, true) => NAME_HEIGHT + TEXT_ROW,
        (true, false) => NAME_HEIGHT + 2 * TEXT_ROW,
    }
}

/// Returns the height of the part of a lane, without the texts above it.
fn body_height(lane: &Lane<'_>, span: &Span, heads: Heads) -> u32 {
    let gap = match heads {
        Heads::InFront if span.has_charges => ARROW_LENGTH,
        Heads::Above if span.has_charges => ARROW_GAP,
        _ => LANE_GAP,
    };
    let bottom = span.content_bottom(has_bar(lane));
    let height = bottom.saturating_add(gap);
    match heads {
        Heads::InFront if span.has_head => {
            let notes = lane.count_notes().saturating_mul(TEXT_ROW);
            height.max(notes.saturating_add(HEAD_HEIGHT))
        }
        _ => height,
    }
}

/// Places the part of a lane at this height of a band. Returns the height below it.
fn place_span(span: &mut Span, lane: &Lane<'_>, heads: Heads, top: u32) -> u32 {
    if !span.is_drawn {
        return top;
    }
    span.head = match heads {
        Heads::InFront => 0,
        Heads::Above => head_height(lane, span),
    };
    span.top = top.saturating_add(span.head);
    span.top.saturating_add(body_height(lane, span, heads))
}

/// Adds the parts of the lanes in a band, one below another.
fn push_spans(
    band: &mut Band<'_>,
    drawn: Drawn<'_, '_>,
    lives: &[Life],
    open_end: u32,
    is_last: bool,
) -> Result<(), AllocError> {
    let charges = charges_between(drawn.arrows, band.first_place(), band.end_place());
    let mut number = 0usize;
    for (lane, life) in drawn.lanes.iter().zip(lives.iter()) {
        let mut span = span_of(&band.columns, *life, band.left, open_end, is_last);
        span.has_charges = charges.iter().any(|charge| charge.to == number);
        span.more_rows = more_rows(&band.columns, number);
        band.height = place_span(&mut span, lane, band.heads, band.height);
        band.spans.push(span)?;
        number = number.saturating_add(1);
    }
    Ok(())
}

/// Returns the width that the outcomes of active transactions need.
fn open_width(lanes: &[Lane<'_>], lives: &[Life]) -> u32 {
    let mut width = 0u32;
    for (lane, life) in lanes.iter().zip(lives.iter()) {
        if life.end.is_none() {
            width = width.max(outcome_width(lane).saturating_add(GAP));
        }
    }
    width
}

/// Returns a band without lanes.
fn band_of<'a>(alloc: Global, columns: Vec<Column<'a>>, left: u32, heads: Heads) -> Band<'a> {
    let rows = step_rows(&columns);
    Band {
        columns,
        spans: Vec::new(alloc),
        top: 0,
        height: 0,
        left,
        rows,
        heads,
    }
}

/// Returns the bands without lanes, and raises the right edge of all labels.
fn bands_of<'a>(
    alloc: Global,
    drawn: Drawn<'a, '_>,
    farthest: &mut u32,
    rule: (Spacing, Format, u32),
) -> Result<Vec<Band<'a>>, AllocError> {
    let (_, format, _) = rule;
    let left = *farthest;
    let mut all = Vec::new(alloc);
    let mut from = 0usize;
    for _ in 0..format.bands {
        let columns = next_columns(alloc, drawn, from, left, farthest, rule)?;
        from = from.saturating_add(columns.len());
        all.push(band_of(alloc, columns, left, format.heads))?;
        if from >= drawn.marks.len() {
            break;
        }
    }
    Ok(all)
}

/// Returns how many columns some bands have.
fn count_columns(bands: &[Band<'_>]) -> usize {
    let mut count = 0usize;
    for band in bands {
        count = count.saturating_add(band.columns.len());
    }
    count
}

/// Returns the right edge of the outcomes of the lanes in a band.
fn outcomes_edge(lanes: &[Lane<'_>], band: &Band<'_>) -> u32 {
    let mut edge = 0u32;
    for (lane, span) in lanes.iter().zip(band.spans.iter()) {
        if span.has_outcome {
            let width = outcome_width(lane).saturating_add(GAP);
            edge = edge.max(span.end.saturating_add(width));
        }
    }
    edge
}

/// Adds the lanes to the bands. Returns the right edge of the outcomes.
fn fill_bands(
    bands: &mut [Band<'_>],
    drawn: Drawn<'_, '_>,
    lives: &[Life],
    open_end: u32,
) -> Result<u32, AllocError> {
    let last = bands.len().saturating_sub(1);
    let mut right = open_end;
    let mut number = 0usize;
    for band in bands {
        push_spans(band, drawn, lives, open_end, number == last)?;
        right = right.max(outcomes_edge(drawn.lanes, band));
        number = number.saturating_add(1);
    }
    Ok(right)
}

/// Returns the height of some bands together.
fn height_of(bands: &[Band<'_>]) -> u32 {
    let mut height = 0u32;
    for band in bands {
        height = height.saturating_add(band.full_height());
    }
    height
}

/// Returns the sizes of a timeline without its heading.
pub fn layout_of<'a>(
    alloc: Global,
    drawn: Drawn<'a, '_>,
    spacing: Spacing,
    format: Format,
) -> Result<Layout<'a>, AllocError> {
    let lives = lives_of(alloc, drawn)?;
    let limit = format.width.saturating_sub(open_width(drawn.lanes, &lives));
    let (mut farthest, above) = heads_edges(drawn.lanes, format.heads);
    let rule = (spacing, format, limit);
    let mut bands = bands_of(alloc, drawn, &mut farthest, rule)?;
    let open_end = farthest.saturating_add(GAP);
    let right = fill_bands(&mut bands, drawn, &lives, open_end)?;
    let has_all = count_columns(&bands) == drawn.marks.len();
    let fits = farthest <= limit && height_of(&bands) <= format.height;
    let is_complete = has_all && fits;
    Ok(Layout {
        bands,
        right: right.max(above),
        is_complete,
    })
}

impl Span {
    /// Returns the height of the rows below the first one of the marks of the lane.
    fn more_height(&self) -> u32 {
        self.more_rows.saturating_mul(TEXT_ROW)
    }

    /// Returns the height of the text of a charge: the amount with its item, and the change, each in one row or in two.
    pub fn charge_height(&self) -> u32 {
        if self.is_folded {
            4 * TEXT_ROW
        } else {
            2 * TEXT_ROW
        }
    }

    /// Returns the baseline of the amount of a charge, below the upper edge of the lane. Its item and the change are on the
    /// same row and the next one, or on the next three.
    pub fn amount_row(&self) -> u32 {
        self.more_height().saturating_add(57 + CHARGE_GAP)
    }

    /// Returns the upper edge of the bar of the limit, below that of the lane.
    pub fn bar_row(&self) -> u32 {
        let charges = if self.has_charges {
            self.charge_height().saturating_add(CHARGE_GAP)
        } else {
            0
        };
        self.more_height()
            .saturating_add(charges)
            .saturating_add(49)
    }

    /// Returns the end of an arrow from below, below the upper edge of the lane.
    pub fn arrow_row(&self) -> u32 {
        self.bar_row().saturating_add(12)
    }

    /// Returns the lower edge of the content below the lane, which may have a bar.
    fn content_bottom(&self, has_bar: bool) -> u32 {
        if self.has_charges || has_bar {
            self.arrow_row()
        } else {
            self.more_height().saturating_add(VALUES_HEIGHT)
        }
    }

    /// Returns the upper edge of the texts above the lane, below that of the band.
    fn head_top(&self) -> u32 {
        self.top.saturating_sub(self.head)
    }
}

impl<'a> Band<'a> {
    /// Returns the part of a lane.
    pub fn span(&self, lane: usize) -> Span {
        let none = Span {
            top: 0,
            head: 0,
            start: 0,
            end: 0,
            is_drawn: false,
            has_head: false,
            has_outcome: false,
            has_charges: false,
            is_folded: false,
            more_rows: 0,
        };
        self.spans.get(lane).copied().unwrap_or(none)
    }

    /// Returns the upper edge of a lane, without the texts above it.
    pub fn lane_top(&self, lane: usize) -> u32 {
        self.top.saturating_add(self.span(lane).top)
    }

    /// Returns the upper edge of the texts in front of a lane or above it.
    pub fn head_top(&self, lane: usize) -> u32 {
        self.top.saturating_add(self.span(lane).head_top())
    }

    /// Returns whether the names, limits and charges are above the lanes.
    pub fn has_heads_above(&self) -> bool {
        matches!(self.heads, Heads::Above)
    }

    /// Returns its height with the axis and the distance to the next one.
    fn full_height(&self) -> u32 {
        let axis = self.rows.saturating_mul(STEP_ROW).saturating_add(6);
        self.height.saturating_add(axis).saturating_add(BAND_GAP)
    }

    /// Returns the lower edge of the lanes.
    pub fn floor(&self) -> u32 {
        self.top.saturating_add(self.height)
    }

    /// Returns the place of the entry of its first column.
    pub fn first_place(&self) -> usize {
        match self.columns.first() {
            Some(column) => column.mark.place,
            None => 0,
        }
    }

    /// Returns the place after the entry of its last column.
    pub fn end_place(&self) -> usize {
        match self.columns.last() {
            Some(column) => column.mark.place.saturating_add(1),
            None => 0,
        }
    }
}

impl Layout<'_> {
    /// Places the bands below one another, the first at this height. Returns the lower edge of the last one.
    pub fn stack(&mut self, top: u32) -> u32 {
        let mut bottom = top;
        for band in &mut self.bands {
            band.top = bottom;
            bottom = band.top.saturating_add(band.full_height());
        }
        bottom
    }
}
