//! The sentences of a picture, in lines as wide as it is.

use crate::layout::MARGIN;
use crate::scene::{Deciding, LanePart, LaneSegment, Scene};
use esr_text::{first, push_count, push_number, wrap};
use std::alloc::{AllocError, Global};

/// The width of a letter of a sentence, and of the heading.
const LETTER: u32 = 8;

const HEADING_LETTER: u32 = 10;

/// The maximum number of sentences above the lanes.
const MAX_SENTENCES: usize = 9;

/// The maximum number of lines with errors, and of letters of one.
const MAX_ERRORS: usize = 7;

pub const MAX_ERROR_LETTERS: usize = 240;

/// A line in the box of errors.
#[derive(Drop)]
pub struct ErrorLine {
    pub text: String,
    /// True if it continues the line above it.
    pub is_continuation: bool,
}

/// The sentences of a picture.
#[derive(Drop)]
pub struct Texts {
    pub heading: Vec<String>,
    pub sentences: Vec<String>,
    /// The sentences about the updates and items that are not drawn, and about the place of the line.
    pub omissions: Vec<String>,
    pub errors: Vec<ErrorLine>,
}

/// Returns how many letters there are in a line.
fn letters_in(width: u32, letter: u32) -> usize {
    width
        .saturating_sub(MARGIN.saturating_mul(2))
        .checked_div(letter)
        .unwrap_or(0) as usize
}

/// Returns the lines of the heading.
fn heading_of(alloc: Global, scene: &Scene<'_>, width: u32) -> Result<Vec<String>, AllocError> {
    let mut words = String::from_str(alloc, scene.query_name)?;
    if scene.distance == 0 {
        words.push_str(": exact, charged ")?;
    } else {
        words.push_str(": off by ")?;
        push_number(&mut words, scene.distance)?;
        words.push_str(", charged ")?;
    }
    push_number(&mut words, scene.import)?;
    let mut lines = Vec::new(alloc);
    wrap(alloc, &mut lines, letters_in(width, HEADING_LETTER), &words)?;
    Ok(lines)
}

/// Returns the lines of some sentences.
fn lines_of(
    alloc: Global,
    sentences: &[String],
    upper_bound: usize,
    width: u32,
) -> Result<Vec<String>, AllocError> {
    let mut lines = Vec::new(alloc);
    for sentence in first(sentences, upper_bound) {
        wrap(alloc, &mut lines, letters_in(width, LETTER), sentence)?;
    }
    Ok(lines)
}

/// Appends how many items are not drawn, and how many of them are off, and by how much.
fn push_other_items(out: &mut String, items: u64, off: u64, sum: u64) -> Result<(), AllocError> {
    push_count(out, items, " more item", " more items")?;
    if off == 0 {
        return out.push_str(", as read");
    }
    out.push_str(", ")?;
    if items > 1 {
        push_number(out, off)?;
        out.push_str(" of them ")?;
    }
    out.push_str("off by ")?;
    push_number(out, sum)
}

/// Appends which transactions and how many items are not drawn.
fn push_omissions(out: &mut String, scene: &Scene<'_>) -> Result<(), AllocError> {
    let items = scene.omitted_items as u64;
    out.push_str("Not drawn: ")?;
    out.push_str(&scene.omitted_transactions)?;
    if !scene.omitted_transactions.is_empty() && items > 0 {
        out.push_str("; ")?;
    }
    if items > 0 {
        push_other_items(
            out,
            items,
            scene.omitted_items_off as u64,
            scene.omitted_difference,
        )?;
    }
    out.push('.')
}

/// Adds the sentence on the items that were never written, if there are any without a lane.
fn push_unwritten(
    alloc: Global,
    sentences: &mut Vec<String>,
    scene: &Scene<'_>,
) -> Result<(), AllocError> {
    if scene.unwritten_items == 0 {
        return Ok(());
    }
    let mut words = String::new(alloc);
    push_count(
        &mut words,
        scene.unwritten_items as u64,
        " more item, as read and never written.",
        " more items, as read and never written.",
    )?;
    sentences.push(words)?;
    Ok(())
}

/// Adds the sentence on the transactions and the other items that are not drawn, if there are any.
fn push_rest(
    alloc: Global,
    sentences: &mut Vec<String>,
    scene: &Scene<'_>,
) -> Result<(), AllocError> {
    if scene.omitted_transactions.is_empty() && scene.omitted_items == 0 {
        return Ok(());
    }
    let mut words = String::new(alloc);
    push_omissions(&mut words, scene)?;
    sentences.push(words)?;
    Ok(())
}

/// Appends the first names, and the number of the others.
fn push_names(out: &mut String, deciding: &Deciding<'_>) -> Result<(), AllocError> {
    let mut joint = "";
    for name in &deciding.names {
        out.push_str(joint)?;
        out.push_str(name)?;
        joint = ", ";
    }
    let others = deciding.count.saturating_sub(deciding.names.len());
    if others > 0 {
        out.push_str(" and ")?;
        push_count(out, others as u64, " more item", " more items")?;
    }
    Ok(())
}

/// Returns whether a stretch has values that are not drawn and that equal a value that was read.
fn has_fitting(segment: &LaneSegment) -> bool {
    segment.parts.iter().any(
        |part| matches!(part, LanePart::Several { fitting, .. } if *fitting > 0),
    )
}

/// Adds the sentence on the values that are not drawn and that equal a value that was read, if there are any.
fn push_fitting(
    alloc: Global,
    sentences: &mut Vec<String>,
    scene: &Scene<'_>,
) -> Result<(), AllocError> {
    for lane in &scene.lanes {
        if lane.segments.iter().any(has_fitting) {
            sentences.push(String::from_str(
                alloc,
                "A count such as (2 read) is of values that equal one that was read.",
            )?)?;
            return Ok(());
        }
    }
    Ok(())
}

/// Adds the sentence on the items without a lane that determine the position of the line, if there are any.
fn push_deciding(
    alloc: Global,
    sentences: &mut Vec<String>,
    deciding: &Deciding<'_>,
) -> Result<(), AllocError> {
    if deciding.count == 0 {
        return Ok(());
    }
    let mut words = String::from_str(
        alloc,
        "At another place of the line some of these items would be less far off, but ",
    )?;
    push_names(&mut words, deciding)?;
    words.push_str(" would be farther off.")?;
    sentences.push(words)?;
    Ok(())
}

/// Returns how many updates after the line are drawn.
fn count_later(scene: &Scene<'_>) -> usize {
    scene
        .updates
        .iter()
        .filter(|update| update.slot > scene.query_slot)
        .count()
}

/// How a sentence names a number of updates, and one of them.
#[derive(Clone, Copy)]
struct Wording {
    updates: &'static str,
    one: &'static str,
}

/// Returns how a sentence names this number of updates, if there are any.
fn wording_of(count: usize) -> Option<Wording> {
    match count {
        0 => None,
        1 => Some(Wording {
            updates: "update",
            one: "it",
        }),
        _ => Some(Wording {
            updates: "updates",
            one: "any one of them",
        }),
    }
}

/// Adds the sentence on why the updates after the line are there, if any are drawn.
fn push_later(
    alloc: Global,
    sentences: &mut Vec<String>,
    scene: &Scene<'_>,
) -> Result<(), AllocError> {
    let Some(Wording { updates, one }) = wording_of(count_later(scene)) else {
        return Ok(());
    };
    let query = scene.query_name;
    let mut words = String::new(alloc);
    write!(
        words,
        "The {updates} after the line committed before {query} too: with {one} before the line, {query} would be off by as much or more."
    )?;
    sentences.push(words)?;
    Ok(())
}

/// Adds the sentence on why the updates before the line are there, if any are drawn and the query need not follow them: of the
/// placements with the least distance the line is at the one with the fewest updates, so each without one of them is farther.
fn push_earlier(
    alloc: Global,
    sentences: &mut Vec<String>,
    scene: &Scene<'_>,
) -> Result<(), AllocError> {
    let count = scene.updates.len().saturating_sub(count_later(scene));
    let is_strict = scene.updates.iter().any(|update| update.must);
    let Some(Wording { updates, one }) = wording_of(count).filter(|_| !is_strict) else {
        return Ok(());
    };
    let query = scene.query_name;
    let mut words = String::new(alloc);
    write!(
        words,
        "The {updates} before the line must be there: if {one} were missing, {query} would be off by more."
    )?;
    sentences.push(words)?;
    Ok(())
}

/// Adds the sentence on the places of changes by updates that are not drawn, if there are any.
fn push_changes(
    alloc: Global,
    sentences: &mut Vec<String>,
    scene: &Scene<'_>,
) -> Result<(), AllocError> {
    for lane in &scene.lanes {
        if lane.segments.iter().any(|segment| segment.parts.len() > 1) {
            sentences.push(String::from_str(
                alloc,
                "A gap in a lane without a tick is a change by an update that is not drawn: its place between the boxes is arbitrary.",
            )?)?;
            return Ok(());
        }
    }
    Ok(())
}

/// Adds the sentence on the places that are as near as the line, if there are any.
fn push_ties(
    alloc: Global,
    sentences: &mut Vec<String>,
    scene: &Scene<'_>,
) -> Result<(), AllocError> {
    if scene.ties == 0 {
        return Ok(());
    }
    let query = scene.query_name;
    let mut words = String::from_str(alloc, "At ")?;
    push_count(&mut words, scene.ties, " other place", " other places")?;
    write!(words, " of the line in this order {query} would be ")?;
    words.push_str(if scene.distance == 0 {
        "exact too; the first is drawn."
    } else {
        "off by as much; the first is drawn."
    })?;
    sentences.push(words)?;
    Ok(())
}

/// Returns the lines on what is not drawn, and on the place of the line.
fn omissions_of(alloc: Global, scene: &Scene<'_>, width: u32) -> Result<Vec<String>, AllocError> {
    let mut sentences = Vec::new(alloc);
    push_unwritten(alloc, &mut sentences, scene)?;
    push_rest(alloc, &mut sentences, scene)?;
    push_fitting(alloc, &mut sentences, scene)?;
    push_changes(alloc, &mut sentences, scene)?;
    push_deciding(alloc, &mut sentences, &scene.deciding)?;
    push_earlier(alloc, &mut sentences, scene)?;
    push_later(alloc, &mut sentences, scene)?;
    push_ties(alloc, &mut sentences, scene)?;
    let mut lines = lines_of(alloc, &sentences, MAX_SENTENCES, width)?;
    // Sentences with many names have shorter lines, since a name may have wide letters only.
    let width = width.saturating_mul(4) / 5;
    for line in lines_of(alloc, &scene.reasons, MAX_SENTENCES, width)? {
        lines.push(line)?;
    }
    Ok(lines)
}

/// Returns the width of a letter of a line with an error: two of a letter that is wide, or replaced by a wide one.
fn letters_of_char(letter: char) -> usize {
    match letter {
        '<' | '&' => 2,
        '\0'..='\x7f' => 1,
        _ => 2,
    }
}

/// Lines with errors, and the line that is being filled.
#[derive(Drop)]
struct Folded {
    lines: Vec<ErrorLine>,
    text: String,
    length: usize,
    is_continuation: bool,
    /// The maximum number of letters in a line.
    letters: usize,
}

impl Folded {
    /// Ends the line.
    fn end_line(&mut self, alloc: Global, is_continuation: bool) -> Result<(), AllocError> {
        let text = String::from_str(alloc, self.text.as_str())?;
        self.lines.push(ErrorLine {
            text,
            is_continuation: self.is_continuation,
        })?;
        self.text.clear();
        self.length = 0;
        self.is_continuation = is_continuation;
        Ok(())
    }

    /// Adds the letters of a word, on further lines if it is longer than one.
    fn push_word(&mut self, alloc: Global, word: &str) -> Result<(), AllocError> {
        for letter in word.chars() {
            let more = letters_of_char(letter);
            if self.length.saturating_add(more) > self.letters {
                self.end_line(alloc, true)?;
            }
            self.text.push(letter)?;
            self.length = self.length.saturating_add(more);
        }
        Ok(())
    }

    /// Adds a word after a blank, or on the next line if there is no space for it.
    fn add_word(&mut self, alloc: Global, word: &str) -> Result<(), AllocError> {
        let length = self.length.saturating_add(letters_of_word(word));
        if self.length > 0 && length >= self.letters {
            self.end_line(alloc, true)?;
        }
        if self.length > 0 {
            self.text.push(' ')?;
            self.length = self.length.saturating_add(1);
        }
        self.push_word(alloc, word)
    }

    /// Adds a line with an error, on as many lines as it needs.
    fn add_error(&mut self, alloc: Global, error: &str) -> Result<(), AllocError> {
        for word in error.split(' ') {
            self.add_word(alloc, word)?;
        }
        self.end_line(alloc, false)
    }
}

/// Returns the width of a word of a line with an error, in letters.
fn letters_of_word(word: &str) -> usize {
    let mut letters = 0usize;
    for letter in word.chars() {
        letters = letters.saturating_add(letters_of_char(letter));
    }
    letters
}

/// Returns the lines of the box of errors. A continued line is indented by two letters.
fn errors_of(alloc: Global, errors: &[String], width: u32) -> Result<Vec<ErrorLine>, AllocError> {
    let mut folded = Folded {
        lines: Vec::new(alloc),
        text: String::new(alloc),
        length: 0,
        is_continuation: false,
        letters: letters_in(width, LETTER).saturating_sub(2),
    };
    for error in first(errors, MAX_ERRORS) {
        folded.add_error(alloc, error)?;
    }
    let Folded { lines, .. } = folded;
    Ok(lines)
}

impl Texts {
    /// Returns the sentences of a scene, in a picture of this width.
    pub fn of(alloc: Global, scene: &Scene<'_>, width: u32) -> Result<Texts, AllocError> {
        Ok(Texts {
            heading: heading_of(alloc, scene, width)?,
            sentences: lines_of(alloc, &scene.sentences, MAX_SENTENCES, width)?,
            omissions: omissions_of(alloc, scene, width)?,
            errors: errors_of(alloc, &scene.errors, width)?,
        })
    }
}
