//! The lines above the lanes: the heading, the lines with errors, the nearest placement, what the distance is the sum of,
//! which states a strict query excludes, the farthest read, the steps that were refused, what is not drawn, and the weights.

use crate::fit::Picture;
use esr_chart::{Band, MARGIN, MAX_CHARGES, MAX_READS, push_heading_words};
use esr_outcomes::TxnKind;
use esr_text::{first, push_count, push_number, wrap};
use esr_timeline_data::{
    Arrow, Farthest, Lane, ListedCharge, ListedRead, Mistakes, Nearest, Order, Reason, Rest, Scene,
};
use esr_trace::{push_charge_rule, push_opening};
use esr_wording::{push_certificate, push_summands, push_undrawn};
use std::alloc::{AllocError, Global};

/// The width of a letter of a sentence, and of the heading.
const SENTENCE_LETTER: u32 = 8;

const HEADING_LETTER: u32 = 10;

/// The maximum number of items whose weights are listed.
const MAX_WEIGHTS: usize = 40;

/// Appends how many of the events that are not drawn are reads that are off, or nothing.
fn push_off_reads(out: &mut String, reads: u64) -> Result<(), AllocError> {
    if reads == 0 {
        return Ok(());
    }
    out.push_str(", ")?;
    push_count(
        out,
        reads,
        " of them a read that is off",
        " of them reads that are off",
    )
}

/// Appends the updates of a state, of those that committed before the query.
fn push_updates(out: &mut String, nearest: Nearest<'_>) -> Result<(), AllocError> {
    if nearest.updates < nearest.committed {
        push_number(out, nearest.updates)?;
        out.push_str(" of the ")?;
    } else if nearest.updates > 2 {
        out.push_str("all ")?;
    }
    if nearest.updates == 2 && nearest.committed == 2 {
        out.push_str("both")?;
    } else {
        push_number(out, nearest.committed)?;
    }
    out.push_str(" updates that committed before ")?;
    out.push_str(nearest.query)?;
    out.push_str(if nearest.updates == 1 {
        ": "
    } else {
        ", the last of them "
    })?;
    out.push_str(nearest.last)?;
    out.push_str(" in step ")?;
    push_number(out, nearest.step)
}

/// Appends a state.
fn push_state(out: &mut String, nearest: Nearest<'_>) -> Result<(), AllocError> {
    let name = nearest.last;
    match (nearest.updates, nearest.committed) {
        (0, 0) => out.push_str("the opening values"),
        (0, _) => out.push_str("the opening values, before all updates"),
        (1, 1) => {
            write!(out, "that after {name}, which committed in step ")?;
            push_number(out, nearest.step)
        }
        _ => {
            out.push_str("that after ")?;
            push_updates(out, nearest)
        }
    }
}

/// Appends the sentence on the state that the reads agree with or differ from, or nothing if the query has not committed.
fn push_nearest(out: &mut String, nearest: Option<Nearest<'_>>) -> Result<(), AllocError> {
    let Some(nearest) = nearest else {
        return Ok(());
    };
    let query = nearest.query;
    if nearest.distance == 0 {
        write!(out, "All reads of {query} agree with one state: ")?;
    } else {
        write!(
            out,
            "Reads of {query} in red differ from its nearest state: "
        )?;
    }
    push_state(out, nearest)?;
    out.push('.')
}

/// Appends what the distance of a query is the sum of, and which command proves that no state is nearer, or nothing if the query is exact.
fn push_distance(out: &mut String, nearest: Option<Nearest<'_>>) -> Result<(), AllocError> {
    let Some(nearest) = nearest else {
        return Ok(());
    };
    if nearest.distance == 0 {
        return Ok(());
    }
    let query = nearest.query;
    write!(out, "{query} is off by ")?;
    push_number(out, nearest.distance)?;
    push_summands(out, nearest.off_reads)?;
    out.push_str(". ")?;
    push_certificate(out, query)
}

/// Returns whether a lane is that of a strict query of this name.
fn is_strict(lane: &Lane<'_>, query: &str) -> bool {
    lane.kind == TxnKind::StrictQuery && lane.name == query
}

/// Appends which states a strict query excludes, or nothing if the query is not strict.
fn push_excluded(out: &mut String, scene: &Scene<'_>) -> Result<(), AllocError> {
    let Some(
        Nearest {
            query,
            distance,
            opening_distance,
            ..
        },
    ) = scene.nearest
    else {
        return Ok(());
    };
    if scene.lanes.iter().any(|lane| is_strict(lane, query)) {
        write!(
            out,
            "{query} is strict: states without an update that committed before {query} began are excluded."
        )?;
        return push_opening(out, opening_distance, distance);
    }
    Ok(())
}

/// Appends the sentence on the entries that were refused for a mistake, or nothing if there are none.
fn push_mistakes(out: &mut String, mistakes: Mistakes) -> Result<(), AllocError> {
    if mistakes.count == 0 {
        return Ok(());
    }
    if mistakes.count == 1 {
        out.push_str("Step ")?;
        push_number(out, mistakes.first)?;
        return out.push_str(" was refused as invalid and changed nothing, so it has no mark.");
    }
    out.push_str("Steps ")?;
    push_number(out, mistakes.first)?;
    out.push_str(if mistakes.count == 2 { " and " } else { ", " })?;
    push_number(out, mistakes.second)?;
    if mistakes.count > 2 {
        out.push_str(" and ")?;
        push_number(out, mistakes.count.saturating_sub(2))?;
        out.push_str(" more")?;
    }
    out.push_str(" were refused as invalid and changed nothing, so they have no marks.")
}

/// Appends what a charged update did, as a clause after its name.
fn push_deed(out: &mut String, reason: Reason<'_>, query: &str) -> Result<(), AllocError> {
    let item = reason.item;
    if reason.is_read {
        write!(
            out,
            ", of which {query} read an uncommitted {item} in step "
        )?;
        return push_number(out, reason.step);
    }
    write!(out, ", which changed {item} in step ")?;
    push_number(out, reason.step)?;
    write!(out, " after {query} had read it")
}

/// Appends why the writer of the value of a read in this step is not before the nearest placement.
fn push_late(
    out: &mut String,
    farthest: Farthest<'_>,
    reason: Reason<'_>,
) -> Result<(), AllocError> {
    let Farthest { query, writer, .. } = farthest;
    let update = reason.update;
    if reason.step == farthest.step {
        return out.push_str(", which had not committed");
    }
    if update != writer {
        write!(out, ". {writer} comes after {update} in every serial order")?;
    }
    push_deed(out, reason, query)
}

/// Appends the reason why a read is off: if it was too early, which update changed the item after it.
fn push_reason(
    out: &mut String,
    farthest: Farthest<'_>,
    reason: Reason<'_>,
) -> Result<(), AllocError> {
    if !farthest.writer.is_empty() {
        return push_late(out, farthest, reason);
    }
    let update = reason.update;
    write!(out, ", before {update} changed it in step ")?;
    push_number(out, reason.step)
}

/// Appends the sentence on the farthest read, or nothing if no read is off.
fn push_farthest(out: &mut String, farthest: Option<Farthest<'_>>) -> Result<(), AllocError> {
    let Some(farthest) = farthest else {
        return Ok(());
    };
    let item = farthest.item;
    write!(out, "Most off is the read of {item} in step ")?;
    push_number(out, farthest.step)?;
    let writer = farthest.writer;
    if !writer.is_empty() {
        write!(out, ", written by {writer}")?;
    }
    if let Some(reason) = farthest.reason {
        push_reason(out, farthest, reason)?;
    }
    out.push('.')
}

/// Appends a sentence with the numbers of elements that are not drawn, or nothing.
fn push_rest(out: &mut String, query: &str, rest: Rest) -> Result<(), AllocError> {
    if rest.events == 0 && rest.charges == 0 && rest.transactions == 0 {
        return Ok(());
    }
    out.push_str("Not drawn:")?;
    let mut joint = " ";
    if rest.transactions > 0 {
        out.push_str(joint)?;
        match rest.kinds {
            Some((all, undrawn)) => push_undrawn(out, query, all, undrawn)?,
            None => push_count(out, rest.transactions, " transaction", " transactions")?,
        }
        joint = "; ";
    }
    if rest.events > 0 {
        out.push_str(joint)?;
        push_count(out, rest.events, " event", " events")?;
        out.push_str(" of the transactions below")?;
        push_off_reads(out, rest.off_reads)?;
        joint = "; ";
    }
    if rest.charges > 0 {
        out.push_str(joint)?;
        push_count(out, rest.charges, " charge", " charges")?;
        out.push_str(" of ")?;
        push_number(out, rest.amount)?;
        out.push_str(" together")?;
    }
    out.push('.')
}

/// Returns the sentence on the charges that are drawn if there is space for some of them.
fn order_sentence(order: Order) -> &'static str {
    match order {
        Order::Explaining => {
            " Drawn first: the charges that explain the reads in red, and the largest of each update charged most."
        }
        Order::Largest => " Drawn: the largest charges.",
        Order::ByTransaction => "",
    }
}

/// Appends what a charge is, that both ends of an arrow have the same amount, and what limits bound, or nothing if no charge is
/// drawn.
fn push_charges(out: &mut String, arrows: &[Arrow<'_>]) -> Result<(), AllocError> {
    if arrows.is_empty() {
        return Ok(());
    }
    push_charge_rule(out)?;
    out.push_str(
        " Each charge is counted at both ends of its arrow: the limit of a query bounds what it is charged, that of an update what it adds to all queries.",
    )
}

/// Appends what the charges in the heads of updates count, or nothing if all are to the queries that are drawn.
fn push_heads(out: &mut String, scene: &Scene<'_>) -> Result<(), AllocError> {
    if !scene.lanes.iter().any(|lane| lane.has_here_note()) {
        return Ok(());
    }
    let queries = scene.query.unwrap_or("the queries that are drawn");
    write!(
        out,
        "The head of an update has its charges to all queries (charged), and those to {queries} alone (here)."
    )
}

/// An item with its weight.
#[derive(Clone, Copy)]
struct Weight<'a> {
    item: &'a str,
    weight: u64,
}

/// Adds an item, if its weight is above 1 and it is not there yet.
fn add_weight<'a>(
    weights: &mut Vec<Weight<'a>>,
    item: &'a str,
    weight: u64,
) -> Result<(), AllocError> {
    if weight > 1 && !weights.iter().any(|other| other.item == item) {
        weights.push(Weight { item, weight })?;
    }
    Ok(())
}

/// Adds the items of the reads of a band that are off.
fn add_weights_of_reads<'a>(
    weights: &mut Vec<Weight<'a>>,
    band: &Band<'a>,
) -> Result<(), AllocError> {
    for column in &band.columns {
        if column.mark.distance() > 0 {
            add_weight(weights, column.mark.item, column.mark.weight)?;
        }
    }
    Ok(())
}

/// Adds the items of the charges in the list below the drawing.
fn add_weights_of_charges<'a>(
    weights: &mut Vec<Weight<'a>>,
    charges: &[ListedCharge<'a>],
) -> Result<(), AllocError> {
    for charge in first(charges, MAX_CHARGES) {
        add_weight(weights, charge.arrow.item, charge.arrow.weight)?;
    }
    Ok(())
}

/// Adds the items of the reads in the table below the drawing.
fn add_weights_of_table<'a>(
    weights: &mut Vec<Weight<'a>>,
    reads: &[ListedRead<'a>],
) -> Result<(), AllocError> {
    for read in first(reads, MAX_READS) {
        add_weight(weights, read.item, read.weight)?;
    }
    Ok(())
}

/// Adds the items of the charges that are drawn.
fn add_weights_of_arrows<'a>(
    weights: &mut Vec<Weight<'a>>,
    arrows: &[Arrow<'a>],
) -> Result<(), AllocError> {
    for arrow in arrows {
        add_weight(weights, arrow.item, arrow.weight)?;
    }
    Ok(())
}

/// Returns the items with weights above 1 of the charges and of the reads that are off, those that are drawn first, then those in
/// the tables.
fn weights_of<'a>(
    alloc: Global,
    scene: &Scene<'a>,
    bands: &[Band<'a>],
) -> Result<Vec<Weight<'a>>, AllocError> {
    let mut weights = Vec::new(alloc);
    add_weights_of_arrows(&mut weights, &scene.arrows)?;
    for band in bands {
        add_weights_of_reads(&mut weights, band)?;
    }
    add_weights_of_table(&mut weights, &scene.off_reads)?;
    add_weights_of_charges(&mut weights, &scene.undrawn)?;
    Ok(weights)
}

/// Appends a sentence with these weights, or nothing if there are none.
fn push_weights(out: &mut String, weights: &[Weight<'_>]) -> Result<(), AllocError> {
    let mut joint = "Charges and distances are differences times the weight of the item: ";
    for weighted in first(weights, MAX_WEIGHTS) {
        let item = weighted.item;
        write!(out, "{joint}{item} ")?;
        push_number(out, weighted.weight)?;
        joint = ", ";
    }
    if weights.len() > MAX_WEIGHTS {
        out.push_str(" and ")?;
        push_number(out, weights.len().saturating_sub(MAX_WEIGHTS) as u64)?;
        out.push_str(" more")?;
    }
    if !weights.is_empty() {
        out.push('.')?;
    }
    Ok(())
}

/// Returns whether a read or a write in a band is drawn without a label.
fn has_unlabelled(band: &Band<'_>) -> bool {
    band.columns
        .iter()
        .any(|column| !column.has_label && !column.mark.item.is_empty())
}

/// Returns whether a step is missing between two columns of a band.
fn has_gap(band: &Band<'_>) -> bool {
    let count = band.columns.len();
    let places = band.end_place().saturating_sub(band.first_place());
    places > count
}

/// Appends what is not drawn, which charges are drawn first, what labels are left out, and that the axis has gaps.
fn push_omissions(
    out: &mut String,
    scene: &Scene<'_>,
    bands: &[Band<'_>],
) -> Result<(), AllocError> {
    push_rest(out, scene.query.unwrap_or(""), scene.rest)?;
    if scene.rest.charges > 0 && !scene.arrows.is_empty() {
        out.push_str(order_sentence(scene.order))?;
    }
    if bands.iter().any(has_unlabelled) {
        out.push_str(" Reads and writes without a label made none of these charges.")?;
    }
    if bands.iter().any(has_gap) {
        out.push_str(if out.is_empty() { "" } else { " " })?;
        out.push_str("The axis has only the steps that are drawn.")?;
    }
    Ok(())
}

/// Appends the number of lines with errors.
fn push_errors(out: &mut String, errors: u64) -> Result<(), AllocError> {
    if errors == 0 {
        return Ok(());
    }
    push_count(
        out,
        errors,
        " line of the script has an error and is not drawn.",
        " lines of the script have errors and are not drawn.",
    )
}

/// Returns how many letters fit in a line of a picture of this width.
fn letters_in(width: u32, letter: u32) -> usize {
    width
        .saturating_sub(MARGIN.saturating_mul(2))
        .checked_div(letter)
        .unwrap_or(0) as usize
}

/// Adds the lines of a sentence, if it is not empty.
fn push_lines(
    alloc: Global,
    lines: &mut Vec<Line>,
    class: LineClass,
    words: &str,
    letters: usize,
) -> Result<(), AllocError> {
    if words.is_empty() {
        return Ok(());
    }
    let mut texts = Vec::new(alloc);
    wrap(alloc, &mut texts, letters, words)?;
    for text in texts {
        lines.push(Line { class, text })?;
    }
    Ok(())
}

/// The kind of a line above the lanes.
#[derive(Clone, Copy, PartialEq, Eq)]
pub enum LineClass {
    Heading,
    Error,
    Sentence,
}

/// A line above the lanes.
#[derive(Drop)]
pub struct Line {
    pub class: LineClass,
    pub text: String,
}

/// Adds the sentences below the heading: the nearest placement, the farthest read, the rest that is not drawn, and the weights.
/// Lines of sentences with many names are shorter, since a name may have wide letters only.
fn push_sentences(
    alloc: Global,
    lines: &mut Vec<Line>,
    scene: &Scene<'_>,
    bands: &[Band<'_>],
    letters: usize,
) -> Result<(), AllocError> {
    let mut words = String::new(alloc);
    let names = letters.saturating_mul(4) / 5;
    push_nearest(&mut words, scene.nearest)?;
    push_lines(alloc, lines, LineClass::Sentence, &words, names)?;
    words.clear();
    push_lines(alloc, lines, LineClass::Sentence, &scene.sides, names)?;
    push_distance(&mut words, scene.nearest)?;
    push_lines(alloc, lines, LineClass::Sentence, &words, letters)?;
    words.clear();
    push_excluded(&mut words, scene)?;
    push_lines(alloc, lines, LineClass::Sentence, &words, letters)?;
    words.clear();
    push_farthest(&mut words, scene.farthest)?;
    push_lines(alloc, lines, LineClass::Sentence, &words, letters)?;
    push_lines(alloc, lines, LineClass::Sentence, &scene.reason, names)?;
    words.clear();
    push_mistakes(&mut words, scene.mistakes)?;
    push_lines(alloc, lines, LineClass::Sentence, &words, letters)?;
    words.clear();
    push_omissions(&mut words, scene, bands)?;
    push_lines(alloc, lines, LineClass::Sentence, &words, letters)?;
    words.clear();
    push_charges(&mut words, &scene.arrows)?;
    push_lines(alloc, lines, LineClass::Sentence, &words, letters)?;
    words.clear();
    push_heads(&mut words, scene)?;
    push_lines(alloc, lines, LineClass::Sentence, &words, letters)?;
    words.clear();
    push_weights(&mut words, &weights_of(alloc, scene, bands)?)?;
    push_lines(alloc, lines, LineClass::Sentence, &words, letters)
}

/// Adds the heading, and the lines with errors.
fn push_heading(
    alloc: Global,
    lines: &mut Vec<Line>,
    scene: &Scene<'_>,
    errors: u64,
    width: u32,
) -> Result<(), AllocError> {
    let mut words = String::new(alloc);
    push_heading_words(&mut words, scene)?;
    let letters = letters_in(width, HEADING_LETTER);
    push_lines(alloc, lines, LineClass::Heading, &words, letters)?;
    words.clear();
    push_errors(&mut words, errors)?;
    let letters = letters_in(width, SENTENCE_LETTER);
    push_lines(alloc, lines, LineClass::Error, &words, letters)
}

/// Adds the lines above the lanes of a picture of this width.
pub fn push_all_lines(
    alloc: Global,
    lines: &mut Vec<Line>,
    picture: &Picture<'_>,
    errors: u64,
    width: u32,
) -> Result<(), AllocError> {
    let Picture { scene, layout } = picture;
    push_heading(alloc, lines, scene, errors, width)?;
    let letters = letters_in(width, SENTENCE_LETTER);
    push_sentences(alloc, lines, scene, &layout.bands, letters)
}
