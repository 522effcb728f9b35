//! The prose about a query as a list of paragraphs and list items, independent of the output format.
//!
//! Text is appended to the last block in place, so a function that appends has no separate text to drop.

use crate::charges::push_charges;
use crate::nearest::push_nearest;
use crate::reads::push_reads;
use crate::subject::Subject;
use esr_audit::Finding;
use esr_outcomes::{TxnOutcome, outcome_of};
use esr_text::push_number;
use esr_trace::{Audited, QueryTrace, push_nearest_moment, push_strict, push_verdict};
use esr_wording::push_certificate;
use std::alloc::{AllocError, Global};

/// So many points are listed at most, and then how many more there are.
pub const MAX_POINTS: usize = 12;

/// The kind of a block of prose.
#[derive(Clone, Copy)]
pub enum BlockKind {
    Paragraph,
    /// A point of a list below a paragraph.
    Point,
}

/// A block of prose.
#[derive(Drop)]
pub struct Block {
    pub kind: BlockKind,
    pub words: String,
}

/// The words of one more block, which has none yet.
fn add_block(
    alloc: Global,
    blocks: &mut Vec<Block>,
    kind: BlockKind,
) -> Result<&mut String, AllocError> {
    let words = String::new(alloc);
    blocks.push(Block { kind, words })?;
    match blocks.last_mut() {
        Some(block) => Ok(&mut block.words),
        None => Err(AllocError),
    }
}

/// The words of one more paragraph.
pub fn add_paragraph(alloc: Global, blocks: &mut Vec<Block>) -> Result<&mut String, AllocError> {
    add_block(alloc, blocks, BlockKind::Paragraph)
}

/// The words of one more point.
pub fn add_point(alloc: Global, blocks: &mut Vec<Block>) -> Result<&mut String, AllocError> {
    add_block(alloc, blocks, BlockKind::Point)
}

/// Appends the number of things that are not listed.
pub fn push_more(
    alloc: Global,
    blocks: &mut Vec<Block>,
    count: usize,
    one: &str,
    many: &str,
) -> Result<(), AllocError> {
    let more = count.saturating_sub(MAX_POINTS);
    if more == 0 {
        return Ok(());
    }
    let out = add_point(alloc, blocks)?;
    out.push_str("and ")?;
    push_number(out, more as u64)?;
    out.push_str(" more ")?;
    out.push_str(if more == 1 { one } else { many })
}

/// Appends the description of a query that has not committed.
fn push_unfinished(out: &mut String, subject: &Subject<'_>) -> Result<(), AllocError> {
    out.push_str(subject.name(subject.query))?;
    if outcome_of(subject.history, subject.query) == TxnOutcome::Aborted {
        return out.push_str(
            " aborted, so it is not compared with any state. These are its reads and charges up to the abort.",
        );
    }
    out.push_str(
        " has not committed, so it is not compared with any state yet. If it committed now, its error would be at most the ",
    )?;
    push_number(out, subject.history.import(subject.query))?;
    out.push_str(" that it has been charged.")
}

/// Appends whether what the query read was a consistent state, or else the nearest one, or why there is none.
fn push_answer(
    alloc: Global,
    out: &mut String,
    subject: &Subject<'_>,
    trace: &QueryTrace,
) -> Result<(), AllocError> {
    let Some(finding) = subject.finding else {
        return push_unfinished(out, subject);
    };
    let audited = Audited {
        items: subject.items,
        transactions: subject.transactions,
        history: subject.history,
        finding,
    };
    push_verdict(out, &audited, trace)?;
    if finding.distance > 0 {
        out.push(' ')?;
        push_nearest_moment(alloc, out, &audited, trace)?;
    }
    if !finding.problem.must().is_empty() {
        out.push(' ')?;
        push_strict(alloc, out, &audited, trace)?;
    }
    if finding.distance > 0 {
        out.push(' ')?;
        push_certificate(out, subject.name(subject.query))?;
    }
    Ok(())
}

/// Appends the begin of the query.
fn push_begin(
    out: &mut String,
    subject: &Subject<'_>,
    trace: &QueryTrace,
) -> Result<(), AllocError> {
    out.push_str(subject.name(subject.query))?;
    out.push_str(if trace.is_strict {
        " is a strict query"
    } else {
        " is a query"
    })?;
    match trace.begin {
        Some(place) => {
            out.push_str(" that began in ")?;
            subject.push_line(out, place)
        }
        None => Ok(()),
    }
}

/// Appends the begin and the end of the query.
fn push_course(
    out: &mut String,
    subject: &Subject<'_>,
    trace: &QueryTrace,
) -> Result<(), AllocError> {
    push_begin(out, subject, trace)?;
    out.push_str(match outcome_of(subject.history, subject.query) {
        TxnOutcome::Committed => " and committed in ",
        TxnOutcome::Aborted => " and aborted in ",
        TxnOutcome::Active => " and had not ended at the end of the script",
    })?;
    if let Some(place) = subject.end_place(subject.query) {
        subject.push_line(out, place)?;
    }
    out.push('.')
}

/// Appends what the query was charged and by how much it is off.
fn push_outcome(out: &mut String, finding: &Finding) -> Result<(), AllocError> {
    out.push_str("Charges are upper bounds, made before the outcome is known: it was charged ")?;
    push_number(out, finding.import)?;
    if finding.distance == 0 {
        return out.push_str(" and is exact.");
    }
    out.push_str(" and is off by ")?;
    push_number(out, finding.distance)?;
    out.push('.')
}

/// Appends the paragraphs that need the audit of the query.
fn push_findings(
    alloc: Global,
    blocks: &mut Vec<Block>,
    subject: &Subject<'_>,
    trace: &QueryTrace,
    finding: &Finding,
) -> Result<(), AllocError> {
    push_nearest(alloc, blocks, subject, trace, finding)?;
    if finding.import == 0 {
        return Ok(());
    }
    push_outcome(add_paragraph(alloc, blocks)?, finding)
}

/// All blocks, one after another.
fn push_prose(
    alloc: Global,
    blocks: &mut Vec<Block>,
    subject: &Subject<'_>,
    trace: &QueryTrace,
) -> Result<(), AllocError> {
    push_answer(alloc, add_paragraph(alloc, blocks)?, subject, trace)?;
    push_course(add_paragraph(alloc, blocks)?, subject, trace)?;
    push_reads(alloc, blocks, subject, trace)?;
    push_charges(alloc, blocks, subject, trace)?;
    match subject.finding {
        Some(finding) => push_findings(alloc, blocks, subject, trace, finding),
        None => Ok(()),
    }
}

/// Returns the prose about a query with this trace.
pub fn prose_of(
    alloc: Global,
    subject: &Subject<'_>,
    trace: &QueryTrace,
) -> Result<Vec<Block>, AllocError> {
    let mut blocks = Vec::new(alloc);
    push_prose(alloc, &mut blocks, subject, trace)?;
    Ok(blocks)
}
