//! The table of the reads that are off, below the drawing, which may have only some of them: when each was, the value that was
//! read and its writer, the value in the nearest state and its writer, and the difference. A list of the other reads follows, next
//! to one another.
//!
//! The texts are monospaced, so the width of each column is known. A table that is too wide has fewer columns, and at last two
//! rows for each read; a narrow picture counts the other reads only. Rejected: a table for few reads, since these are all drawn.

use crate::elements::{close_text, open_end, open_text, push_text};
use crate::grid::{Grid, Position};
use crate::layout::{MARGIN, TEXT_ROW, width_of};
use esr_text::{first, letters_of, number_letters, push_count, push_number, push_value, wrap};
use esr_timeline_data::{ListedRead, Scene, Writer, WriterStatus};
use std::alloc::{AllocError, Global};

/// The maximum number of reads that have no table.
const FEW_READS: usize = 3;

/// The maximum number of reads in a table, in one of a narrow picture, and in one with two rows for each.
pub const MAX_READS: usize = 60;

const MAX_NARROW_READS: usize = 24;

const MAX_STACKED_READS: usize = 12;

/// The maximum number of the other reads in the list.
const MAX_LISTED: usize = 60;

/// The distance of two reads in a row of the list.
pub const LIST_GAP: u32 = 40;

/// The maximum width of a narrow picture.
pub const NARROW: u32 = 390;

/// The distance of two columns.
pub const COLUMN_GAP: u32 = 14;

/// The width of a letter of a sentence, and the distance from line to line of sentences.
const SENTENCE_LETTER: u32 = 8;

const SENTENCE: u32 = 18;

/// The distance from row to row of reads, and between the tables.
pub const ROW: u32 = TEXT_ROW + 1;

pub const SPACE: u32 = 4;

/// A column of the table.
#[derive(Clone, Copy, PartialEq, Eq)]
enum Field {
    Step,
    Item,
    Value,
    /// The writer of the value that was read, with its step.
    Writer,
    /// Its name.
    WriterName,
    State,
    StateWriter,
    /// Whether the read was too late or too early, or the update aborted.
    Side,
    Distance,
}

static FULL: [Field; 8] = [
    Field::Step,
    Field::Item,
    Field::Value,
    Field::Writer,
    Field::State,
    Field::StateWriter,
    Field::Side,
    Field::Distance,
];

static NAMES: [Field; 5] = [
    Field::Item,
    Field::Value,
    Field::WriterName,
    Field::State,
    Field::Distance,
];

static VALUES: [Field; 4] = [Field::Item, Field::Value, Field::State, Field::Distance];

/// The fields of the other reads.
static LISTED: [Field; 4] = [Field::Step, Field::Item, Field::Value, Field::Writer];

fn listed() -> &'static [Field] {
    &LISTED
}

static UPPER: [Field; 2] = [Field::Item, Field::Distance];

static LOWER: [Field; 2] = [Field::Value, Field::State];

/// The fields of a read in one row, or in two.
#[derive(Clone, Copy)]
struct Form {
    upper: &'static [Field],
    lower: &'static [Field],
    /// The maximum number of reads in a table.
    most: usize,
}

/// Returns the form with all fields.
fn full_form(most: usize) -> Form {
    Form {
        upper: &FULL,
        lower: &[],
        most,
    }
}

/// Returns the form with two rows for each read.
fn stacked_form() -> Form {
    Form {
        upper: &UPPER,
        lower: &LOWER,
        most: MAX_STACKED_READS,
    }
}

/// Returns the forms with one row for each read, the one with most fields first.
fn row_forms(most: usize) -> [Form; 3] {
    [
        full_form(most),
        Form {
            upper: &NAMES,
            lower: &[],
            most,
        },
        Form {
            upper: &VALUES,
            lower: &[],
            most,
        },
    ]
}

/// Returns the heading of a column.
fn heading_of(field: Field) -> &'static str {
    match field {
        Field::Step => "step",
        Field::Item => "item",
        Field::Value => "read",
        Field::Writer | Field::WriterName => "written by",
        Field::State => "state",
        Field::StateWriter => "written by",
        Field::Side => "timing",
        Field::Distance => "off by",
    }
}

/// Returns the letters of a writer with its step: `u1 in step 57`.
fn writer_letters(writer: Writer<'_>) -> usize {
    match writer {
        Writer::Opening => 13,
        Writer::Update(update, step) => update
            .len()
            .saturating_add(number_letters(step))
            .saturating_add(9),
    }
}

/// Returns the letters of the name of a writer.
fn name_letters(writer: Writer<'_>) -> usize {
    match writer {
        Writer::Opening => 7,
        Writer::Update(update, _) => update.len(),
    }
}

/// Returns the letters of a step in a list, with the sign of a read before commit.
pub fn step_letters(step: u64, is_early_read: bool) -> usize {
    number_letters(step).saturating_add(if is_early_read { 1 } else { 0 })
}

/// Appends a step in a list, with the sign of a read before commit.
pub fn push_step(out: &mut String, step: u64, is_early_read: bool) -> Result<(), AllocError> {
    if is_early_read {
        out.push('*')?;
    }
    push_number(out, step)
}

/// Returns whether a read was too late or too early, or that the update aborted.
fn side_of(read: &ListedRead<'_>) -> &'static str {
    match (read.writer_status, read.is_late) {
        (WriterStatus::Aborted, _) => "aborted",
        (_, true) => "too late",
        (_, false) => "too early",
    }
}

/// Returns whether a read is one before commit.
fn has_early_read(reads: &[ListedRead<'_>]) -> bool {
    reads.iter().any(|read| read.is_early_read())
}

/// Returns the letters of a field of a read.
fn letters_in(read: &ListedRead<'_>, field: Field) -> usize {
    match field {
        Field::Step => step_letters(read.step, read.is_early_read()),
        Field::Item => read.item.len(),
        Field::Value => letters_of(read.value),
        Field::Writer => writer_letters(read.writer),
        Field::WriterName => name_letters(read.writer),
        Field::State => letters_of(read.state),
        Field::StateWriter => writer_letters(read.state_writer),
        Field::Side => 9,
        Field::Distance => number_letters(read.distance),
    }
}

/// Returns the width of a column of these reads.
fn column_width(reads: &[ListedRead<'_>], field: Field) -> u32 {
    let mut letters = heading_of(field).len();
    for read in reads {
        letters = letters.max(letters_in(read, field));
    }
    width_of(letters)
}

/// Returns the width of a row of these reads.
fn row_width(reads: &[ListedRead<'_>], fields: &[Field]) -> u32 {
    let mut width = 0u32;
    for field in fields {
        width = width
            .saturating_add(column_width(reads, *field))
            .saturating_add(COLUMN_GAP);
    }
    width.saturating_sub(COLUMN_GAP)
}

/// Returns the first form of these reads that fits into a width. `most` is the maximum number of reads with one row each.
fn form_of(reads: &[ListedRead<'_>], most: usize, width: u32) -> Form {
    for form in &row_forms(most) {
        if row_width(first(reads, most), form.upper) <= width {
            return *form;
        }
    }
    stacked_form()
}

/// Returns whether a field is a number.
fn is_number(field: Field) -> bool {
    matches!(
        field,
        Field::Step | Field::Value | Field::State | Field::Distance
    )
}

/// Appends a writer with its step.
fn push_writer(out: &mut String, writer: Writer<'_>) -> Result<(), AllocError> {
    match writer {
        Writer::Opening => out.push_str("opening value"),
        Writer::Update(update, step) => {
            write!(out, "{update} in step ")?;
            push_number(out, step)
        }
    }
}

/// Appends the name of a writer.
fn push_name(out: &mut String, writer: Writer<'_>) -> Result<(), AllocError> {
    match writer {
        Writer::Opening => out.push_str("opening"),
        Writer::Update(update, _) => out.push_str(update),
    }
}

/// Appends a field of a read.
fn push_field(out: &mut String, read: &ListedRead<'_>, field: Field) -> Result<(), AllocError> {
    match field {
        Field::Step => push_step(out, read.step, read.is_early_read()),
        Field::Item => out.push_str(read.item),
        Field::Value => push_value(out, read.value),
        Field::Writer => push_writer(out, read.writer),
        Field::WriterName => push_name(out, read.writer),
        Field::State => push_value(out, read.state),
        Field::StateWriter => push_writer(out, read.state_writer),
        Field::Side => out.push_str(side_of(read)),
        Field::Distance => push_number(out, read.distance),
    }
}

/// Appends the start of a text of a field in a column from `x` on.
fn open_field(
    out: &mut String,
    class: &str,
    field: Field,
    x: u32,
    width: u32,
    y: u32,
) -> Result<(), AllocError> {
    if is_number(field) {
        open_end(out, class, x.saturating_add(width), y)
    } else {
        open_text(out, class, x, y)
    }
}

/// Returns the class of a field of the headings, or of a read.
fn class_of(is_heading: bool, field: Field) -> &'static str {
    match (is_heading, field) {
        (true, _) => "lb gy tb",
        (false, Field::Distance) => "lb rd tb",
        (false, _) => "lb tb",
    }
}

/// Appends a row of the headings, or of a read, from `left` on.
fn push_row(
    out: &mut String,
    reads: &[ListedRead<'_>],
    fields: &[Field],
    read: Option<&ListedRead<'_>>,
    (left, y): (u32, u32),
) -> Result<(), AllocError> {
    let mut x = left;
    for field in fields {
        let width = column_width(reads, *field);
        open_field(out, class_of(read.is_none(), *field), *field, x, width, y)?;
        match read {
            Some(read) => push_field(out, read, *field)?,
            None => out.push_str(heading_of(*field))?,
        }
        close_text(out)?;
        x = x.saturating_add(width).saturating_add(COLUMN_GAP);
    }
    Ok(())
}

/// Returns the sum of the distances of some reads.
fn distance_of(reads: &[ListedRead<'_>]) -> u64 {
    let mut sum = 0u64;
    for read in reads {
        sum = sum.saturating_add(read.distance);
    }
    sum
}

/// Appends what the signs of these reads mean, if they have any: that an update aborted, and a read before commit.
fn push_signs(out: &mut String, reads: &[ListedRead<'_>]) -> Result<(), AllocError> {
    if reads
        .iter()
        .any(|read| read.writer_status == WriterStatus::Aborted)
    {
        out.push_str(
            " Aborted: the update that wrote the value aborted later, so no state has it.",
        )?;
    }
    if has_early_read(reads) {
        out.push_str(" *: read before commit.")?;
    }
    Ok(())
}

/// Appends what the table has, and how many reads there are in all.
fn push_words(out: &mut String, scene: &Scene<'_>, form: Form) -> Result<(), AllocError> {
    let query = scene.nearest.map_or("", |nearest| nearest.query);
    let off = scene.off_reads.len() as u64;
    let all = off.saturating_add(scene.exact_reads.len() as u64);
    if off == 0 {
        return Ok(());
    }
    push_number(out, off)?;
    out.push_str(" of the ")?;
    push_count(out, all, " read of ", " reads of ")?;
    out.push_str(query)?;
    out.push_str(if off == 1 {
        " in all is off."
    } else {
        " in all are off, the farthest first."
    })?;
    if form.upper.contains(&Field::Side) {
        out.push_str(
            " Too late: the state is without the update that wrote the value. Too early: the state has a later value.",
        )?;
        push_signs(out, first(&scene.off_reads, form.most))?;
    }
    Ok(())
}

/// Returns the text on the steps of a list, which may have reads before commit.
pub fn step_words(has_early_read: bool) -> &'static str {
    if has_early_read {
        ": step (*: read before commit)"
    } else {
        ": step"
    }
}

/// Appends how many reads are as in the nearest state, and what the list of them has, if there is one. It has the first `listed`.
fn push_exact_words(out: &mut String, scene: &Scene<'_>, listed: usize) -> Result<(), AllocError> {
    let query = scene.nearest.map_or("", |nearest| nearest.query);
    let count = scene.exact_reads.len() as u64;
    if count == 0 {
        return Ok(());
    }
    push_count(out, count, " read of ", " reads of ")?;
    out.push_str(query)?;
    out.push_str(if count == 1 {
        " is as in the nearest state"
    } else {
        " are as in the nearest state"
    })?;
    if listed == 0 {
        return out.push('.');
    }
    out.push_str(step_words(has_early_read(first(&scene.exact_reads, listed))))?;
    out.push_str(", item, value, writer of the value.")
}

/// The tables of the reads of a scene.
#[derive(Drop)]
pub struct Table {
    /// The sentences above the reads that are off, and above the others.
    lines: Vec<String>,
    exact_lines: Vec<String>,
    form: Form,
    /// The number of reads that are off in the table, and of the others.
    count: usize,
    rest: usize,
    /// The number of the other reads in the list.
    listed: usize,
    grid: Grid,
}

/// Returns whether a scene has a table.
fn has_table(scene: &Scene<'_>) -> bool {
    let off = scene.off_reads.len();
    let all = off.saturating_add(scene.exact_reads.len());
    let has_hidden = scene.rest.events > 0;
    scene.nearest.is_some() && (off > FEW_READS || (has_hidden && all > FEW_READS))
}

/// Returns the width that a table with all columns needs, or 0 without a table.
pub fn table_width(scene: &Scene<'_>) -> u32 {
    if has_table(scene) {
        let reads = first(&scene.off_reads, MAX_READS);
        row_width(reads, full_form(MAX_READS).upper).saturating_add(2 * MARGIN)
    } else {
        0
    }
}

/// Returns the lines of some words.
pub fn lines_of(alloc: Global, words: &str, space: u32) -> Result<Vec<String>, AllocError> {
    let mut lines = Vec::new(alloc);
    if !words.is_empty() {
        wrap(alloc, &mut lines, (space / SENTENCE_LETTER) as usize, words)?;
    }
    Ok(lines)
}

/// Returns the height of some sentences.
pub fn sentences_height(lines: &[String]) -> u32 {
    (lines.len().min(100) as u32).saturating_mul(SENTENCE)
}

/// Returns the height of some rows.
pub fn rows_height(rows: usize) -> u32 {
    (rows.min(1000) as u32).saturating_mul(ROW)
}

/// Appends sentences. Returns the baseline of the next line.
pub fn push_lines(out: &mut String, lines: &[String], y: u32) -> Result<u32, AllocError> {
    let mut y = y;
    for line in lines {
        push_text(out, "gy", MARGIN, y, line)?;
        y = y.saturating_add(SENTENCE);
    }
    Ok(y)
}

impl Table {
    /// Returns the tables of a scene in a picture of this width, if it has any.
    pub fn of(alloc: Global, scene: &Scene<'_>, width: u32) -> Result<Option<Table>, AllocError> {
        if !has_table(scene) {
            return Ok(None);
        }
        let is_narrow = width <= NARROW;
        let upper_bound = if is_narrow {
            MAX_NARROW_READS
        } else {
            MAX_READS
        };
        let space = width.saturating_sub(2 * MARGIN);
        let form = form_of(&scene.off_reads, upper_bound, space);
        let reads = first(&scene.off_reads, form.most);
        let others = first(&scene.exact_reads, if is_narrow { 0 } else { MAX_LISTED });
        let cell = row_width(others, listed());
        let listed = if cell <= space { others.len() } else { 0 };
        let mut words = String::new(alloc);
        push_words(&mut words, scene, form)?;
        let lines = lines_of(alloc, &words, space)?;
        words.clear();
        push_exact_words(&mut words, scene, listed)?;
        Ok(Some(Table {
            lines,
            exact_lines: lines_of(alloc, &words, space)?,
            form,
            count: reads.len(),
            rest: scene.off_reads.len().saturating_sub(reads.len()),
            listed,
            grid: Grid::of(listed, cell, space),
        }))
    }

    /// Returns the number of rows of the reads that are off, with the headings.
    fn count_rows(&self) -> usize {
        if self.count == 0 {
            return 0;
        }
        let reads = self.count.saturating_add(1);
        let rows = reads.saturating_mul(if self.form.lower.is_empty() { 1 } else { 2 });
        rows.saturating_add(if self.rest > 0 { 1 } else { 0 })
    }

    /// Returns the height with the distance to the legend.
    pub fn height(&self) -> u32 {
        sentences_height(&self.lines)
            .saturating_add(rows_height(self.count_rows()))
            .saturating_add(sentences_height(&self.exact_lines))
            .saturating_add(rows_height(self.grid.count_rows()))
            .saturating_add(4 * SPACE)
    }

    /// Appends the rows of a read, or of the headings. Returns the baseline of the next row.
    fn push_read(
        &self,
        out: &mut String,
        reads: &[ListedRead<'_>],
        read: Option<&ListedRead<'_>>,
        y: u32,
    ) -> Result<u32, AllocError> {
        push_row(out, reads, self.form.upper, read, (MARGIN, y))?;
        let mut next = y.saturating_add(ROW);
        if !self.form.lower.is_empty() {
            push_row(out, reads, self.form.lower, read, (MARGIN, next))?;
            next = next.saturating_add(ROW);
        }
        Ok(next)
    }

    /// Appends the number and the sum of the reads that are off and not in the table.
    fn push_rest(&self, out: &mut String, scene: &Scene<'_>, y: u32) -> Result<u32, AllocError> {
        if self.rest == 0 {
            return Ok(y);
        }
        let reads = first(&scene.off_reads, self.count);
        open_text(out, "lb tb", MARGIN, y)?;
        out.push_str("and ")?;
        push_number(out, self.rest as u64)?;
        out.push_str(" more, together off by ")?;
        let all = distance_of(&scene.off_reads);
        push_number(out, all.saturating_sub(distance_of(reads)))?;
        close_text(out)?;
        Ok(y.saturating_add(ROW))
    }

    /// Appends the reads that are off. Returns the baseline of the next row.
    fn push_off(&self, out: &mut String, scene: &Scene<'_>, y: u32) -> Result<u32, AllocError> {
        let reads = first(&scene.off_reads, self.count);
        if reads.is_empty() {
            return Ok(y);
        }
        let mut next = self.push_read(out, reads, None, y)?;
        for read in reads {
            next = self.push_read(out, reads, Some(read), next)?;
        }
        self.push_rest(out, scene, next)
    }

    /// Appends the list of the other reads.
    fn push_list(&self, out: &mut String, scene: &Scene<'_>, top: u32) -> Result<(), AllocError> {
        let reads = first(&scene.exact_reads, self.listed);
        for (index, read) in reads.iter().enumerate() {
            let Position { x, y } = self.grid.position(index, top);
            push_row(out, reads, listed(), Some(read), (x, y))?;
        }
        Ok(())
    }

    /// Appends the tables, whose first baseline is at `y`.
    pub fn push(&self, out: &mut String, scene: &Scene<'_>, y: u32) -> Result<(), AllocError> {
        let y = push_lines(out, &self.lines, y)?;
        let y = self.push_off(out, scene, y)?.saturating_add(SPACE);
        let y = push_lines(out, &self.exact_lines, y)?;
        self.push_list(out, scene, y)
    }
}
