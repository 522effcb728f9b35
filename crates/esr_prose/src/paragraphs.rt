//! Prose about one query of a script, however it ended, as lines of a width at which no terminal wraps them.

use crate::prose::{Block, BlockKind, prose_of};
use crate::subject::Subject;
use esr_audit::Finding;
use esr_history::TxnId;
use esr_outcomes::Auditor;
use esr_text::wrap;
use esr_trace::trace_of;
use esr_views::{Recording, ScriptView};
use std::alloc::{AllocError, Global};

/// A line has fewer letters than this.
const WIDTH: usize = 80;

/// Appends lines, with one text before the first and another before all others.
fn push_lines(
    out: &mut String,
    lines: &[String],
    first: &str,
    others: &str,
) -> Result<(), AllocError> {
    let mut before = first;
    for line in lines {
        out.push_str(before)?;
        out.push_str(line)?;
        out.push('\n')?;
        before = others;
    }
    Ok(())
}

/// Appends a block, after a blank line if it is a paragraph and not the first block.
fn push_block(alloc: Global, out: &mut String, block: &Block) -> Result<(), AllocError> {
    let (first, others) = match block.kind {
        BlockKind::Paragraph => ("", ""),
        BlockKind::Point => ("  - ", "    "),
    };
    if block.kind == BlockKind::Paragraph && !out.is_empty() {
        out.push('\n')?;
    }
    let mut lines = Vec::new(alloc);
    wrap(
        alloc,
        &mut lines,
        WIDTH.saturating_sub(first.len()),
        &block.words,
    )?;
    push_lines(out, &lines, first, others)
}

/// The lines of some blocks.
fn text_of(alloc: Global, blocks: &[Block]) -> Result<String, AllocError> {
    let mut out = String::new(alloc);
    for block in blocks {
        push_block(alloc, &mut out, block)?;
    }
    Ok(out)
}

/// The number of the query of that name, if there is one.
fn query_called(recording: &Recording<'_>, name: &str) -> Option<TxnId> {
    let position = recording.transactions.number_of(name)?;
    let query = TxnId(position.saturating_add(1));
    let facts = recording.history.facts(query)?;
    facts.query.then_some(query)
}

/// Returns the prose about a query with this finding, if it has committed.
fn prose_with<'a>(
    alloc: Global,
    recording: &'a Recording<'a>,
    query: TxnId,
    auditor: &'a Auditor<'a>,
    finding: Option<&'a Finding>,
) -> Result<String, AllocError> {
    let subject = Subject {
        items: &recording.items,
        transactions: &recording.transactions,
        history: &recording.history,
        lines: recording.lines,
        query,
        auditor,
        finding,
    };
    let trace = trace_of(alloc, subject.history, query)?;
    let blocks = prose_of(alloc, &subject, &trace)?;
    text_of(alloc, &blocks)
}

/// Returns the prose about a query.
fn prose_about(
    alloc: Global,
    recording: &Recording<'_>,
    query: TxnId,
) -> Result<Vec<u8>, AllocError> {
    let auditor = Auditor::of(alloc, &recording.history)?;
    let finding = auditor.finding(alloc, query)?;
    let text = prose_with(alloc, recording, query, &auditor, finding.as_ref())?;
    Ok(text.into_bytes())
}

/// The prose about a query of a script.
#[derive(Drop)]
pub struct Prose<'a> {
    /// The name of the query.
    pub name: &'a str,
}

impl ScriptView for Prose<'_> {
    ghost IsTextOf = { λ _ _ _. Unit {0} };

    fn text_of(
        &self,
        alloc: Global,
        recording: &Recording<'_>,
    ) -> Result<Option<Vec<u8>>, AllocError> {
        match query_called(recording, self.name) {
            Some(query) => match prose_about(alloc, recording, query) {
                Ok(text) => Ok(Some(text)),
                Err(error) => Err(error),
            },
            None => Ok(None),
        }
    }
}
