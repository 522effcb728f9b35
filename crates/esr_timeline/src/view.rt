//! The timeline as a text of a script, and as a part of a page.

ghost use Rattle.std.specs.Prelude.{IfOk, string_bytes};
ghost use Rattle.esr_svg.specs.Svg.{IsSvg};

use crate::drawing::{Parts, parts_of};
use crate::fit::{Pictures, timeline_of_query, timeline_of_script, timeline_of_traced};
use esr_audit::Finding;
use esr_history::TxnId;
use esr_lint::Notes;
use esr_outcomes::Auditor;
use esr_svg::svg_element;
use esr_timeline_content::{PlacedQuery, Source, farthest_query};
use esr_trace::{Audited, Part, Traced};
use esr_views::{Recording, ScriptView};
use std::alloc::{AllocError, Global};

/// A timeline: of one query, or of the whole script if it is short, or else of the query with the greatest distance.
#[derive(Drop)]
pub struct Timeline<'a> {
    pub name: Option<&'a str>,
    /// The lines with errors of the script.
    pub notes: &'a Notes,
}

/// Returns the element of a timeline.
fn svg_of<'a>(alloc: Global, mut pictures: Pictures<'a>, errors: u64) -> Result<String, AllocError>
    ensures { IfOk result (λ text. IsSvg (string_bytes text)) }
{
    let Parts { attributes, body } = parts_of(alloc, &mut pictures, errors)?;
    svg_element(alloc, attributes, body)
}

/// Returns the query of a name.
fn query_of(recording: &Recording<'_>, name: &str) -> Option<TxnId> {
    let number = recording.transactions.number_of(name)?;
    let query = TxnId(number.saturating_add(1));
    let facts = recording.history.facts(query)?;
    facts.query.then_some(query)
}

/// Returns what a timeline is drawn from.
fn source_of<'a>(
    recording: &'a Recording<'_>,
    auditor: &'a Auditor<'a>,
    placed: Option<&'a PlacedQuery<'a>>,
) -> Source<'a> {
    Source {
        items: &recording.items,
        transactions: &recording.transactions,
        history: &recording.history,
        auditor,
        lines: recording.lines,
        placed,
    }
}

/// Returns the finding of a query, or of the one with the greatest distance, if it has committed.
fn finding_of(
    alloc: Global,
    auditor: &Auditor<'_>,
    query: Option<TxnId>,
) -> Result<Option<Finding>, AllocError> {
    let query = match query {
        Some(query) => Some(query),
        None => farthest_query(alloc, auditor)?,
    };
    match query {
        Some(query) => auditor.finding(alloc, query),
        None => Ok(None),
    }
}

/// Returns the query of a finding, if there is one.
fn placed_in<'a>(
    alloc: Global,
    recording: &Recording<'_>,
    finding: &'a Option<Finding>,
) -> Result<Option<PlacedQuery<'a>>, AllocError> {
    match finding {
        Some(finding) => Ok(Some(PlacedQuery::of(alloc, &recording.history, finding)?)),
        None => Ok(None),
    }
}

/// Returns the timeline of a query, or of the whole script.
fn pictures_of<'a>(
    alloc: Global,
    source: Source<'a>,
    query: Option<TxnId>,
) -> Result<Pictures<'a>, AllocError> {
    match query {
        Some(query) => timeline_of_traced(alloc, source, query),
        None => timeline_of_script(alloc, source),
    }
}

/// Returns the text of a timeline.
fn text_about<'a>(
    alloc: Global,
    recording: &'a Recording<'_>,
    query: Option<TxnId>,
    errors: u64,
) -> Result<Vec<u8>, AllocError>
    ensures { IfOk result (λ text. IsSvg text.items) }
{
    let auditor = Auditor::of(alloc, &recording.history)?;
    let finding = finding_of(alloc, &auditor, query)?;
    let placed = placed_in(alloc, recording, &finding)?;
    let source = source_of(recording, &auditor, placed.as_ref());
    let pictures = pictures_of(alloc, source, query)?;
    let text = svg_of(alloc, pictures, errors)?;
    Ok(text.into_bytes())
}

impl ScriptView for Timeline<'_> {
    ghost IsTextOf = { λ _ _ text. IsSvg text };

    fn text_of(
        &self,
        alloc: Global,
        recording: &Recording<'_>,
    ) -> Result<Option<Vec<u8>>, AllocError> {
        let query = match self.name {
            Some(name) => match query_of(recording, name) {
                Some(query) => Some(query),
                None => return Ok(None),
            },
            None => None,
        };
        match text_about(alloc, recording, query, self.notes.count()) {
            Ok(text) => Ok(Some(text)),
            Err(error) => Err(error),
        }
    }
}

/// Returns what the timeline of an audited query is drawn from.
fn source_about<'a>(
    audited: &'a Audited<'a>,
    auditor: &'a Auditor<'a>,
    lines: &'a [u32],
    placed: &'a PlacedQuery<'a>,
) -> Source<'a> {
    Source {
        items: audited.items,
        transactions: audited.transactions,
        history: audited.history,
        auditor,
        lines,
        placed: Some(placed),
    }
}

/// A timeline of an audited query, as a part of a page.
pub struct TimelinePart;

impl Part for TimelinePart {
    fn push(
        &self,
        alloc: Global,
        out: &mut String,
        audited: &Audited<'_>,
        auditor: &Auditor<'_>,
        lines: &[u32],
        traced: Traced<'_>,
    ) -> Result<(), AllocError> {
        let placed = PlacedQuery::of(alloc, audited.history, audited.finding)?;
        let source = source_about(audited, auditor, lines, &placed);
        let query = audited.finding.query;
        let pictures = timeline_of_query(alloc, source, query, traced)?;
        out.push_str(&svg_of(alloc, pictures, 0)?)
    }
}
