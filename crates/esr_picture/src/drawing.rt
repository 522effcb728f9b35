//! The text of a picture: one element `svg`.

ghost use Rattle.std.specs.Prelude.{IfOk, string_bytes};
ghost use Rattle.esr_svg.specs.Svg.{IsSvg};

use crate::scene::scene_of;
use esr_lint::Notes;
use esr_outcomes::Auditor;
use esr_svg::{MAX_ERROR_LETTERS, Parts, parts_of, svg_element};
use esr_trace::{Audited, Part, QueryTrace, Traced, trace_of};
use esr_views::{AuditedQuery, QueryView};
use std::alloc::{AllocError, Global};

/// Returns the picture of the audit of a query, with the lines with errors of its script in a box at the top.
fn picture_with<'a>(
    alloc: Global,
    audited: &'a Audited<'a>,
    trace: &'a QueryTrace,
    errors: Vec<String>,
) -> Result<String, AllocError>
    ensures { IfOk result (λ text. IsSvg (string_bytes text)) }
{
    let mut scene = scene_of(alloc, audited, trace)?;
    scene.errors = errors;
    let Parts { attributes, body } = parts_of(alloc, &scene)?;
    svg_element(alloc, attributes, body)
}

/// Returns the picture of the audit of a query.
pub fn picture<'a>(alloc: Global, audited: &'a Audited<'a>) -> Result<String, AllocError>
    ensures { IfOk result (λ text. IsSvg (string_bytes text)) }
{
    let trace = trace_of(alloc, audited.history, audited.finding.query)?;
    picture_with(alloc, audited, &trace, Vec::new(alloc))
}

/// Returns the bytes of a picture.
fn draw<'a>(
    alloc: Global,
    audited: &'a Audited<'a>,
    errors: Vec<String>,
) -> Result<Vec<u8>, AllocError>
    ensures { IfOk result (λ text. IsSvg text.items) }
{
    let trace = trace_of(alloc, audited.history, audited.finding.query)?;
    let text = picture_with(alloc, audited, &trace, errors)?;
    Ok(text.into_bytes())
}

/// Returns the lines of the box: how many lines have errors, and the first of them.
fn lines_of(alloc: Global, notes: &Notes) -> Result<Vec<String>, AllocError> {
    let mut lines = Vec::new(alloc);
    let count = notes.count();
    if count == 0 {
        return Ok(lines);
    }
    let heading = match count {
        1 => format!(in alloc; "1 line of the script has an error and is not drawn:")?,
        _ => format!(in alloc; "{count} lines of the script have errors and are not drawn:")?,
    };
    lines.push(heading)?;
    for line in notes.text(alloc)?.lines() {
        let mut text = String::new(alloc);
        for letter in line.chars().take(MAX_ERROR_LETTERS) {
            text.push(letter)?;
        }
        lines.push(text)?;
    }
    Ok(lines)
}

/// Returns the parts of an answer that a picture shows.
fn audited_of(audited_query: &AuditedQuery) -> Audited<'_> {
    Audited {
        items: &audited_query.items,
        transactions: &audited_query.transactions,
        history: &audited_query.history,
        finding: &audited_query.finding,
    }
}

/// A picture of the audit of a query: an SVG, by itself or as a part of a page.
pub struct PictureView;

impl QueryView for PictureView {
    ghost IsTextOf = { λ _ _ _ text. IsSvg text };

    fn text_of(
        &self,
        alloc: Global,
        audited_query: &mut AuditedQuery,
    ) -> Result<Vec<u8>, AllocError> {
        draw(alloc, &audited_of(audited_query), Vec::new(alloc))
    }
}

/// A picture with the lines with errors of its script in a box at the top.
#[derive(Drop)]
pub struct PictureWithErrorsView<'a> {
    pub notes: &'a Notes,
}

impl QueryView for PictureWithErrorsView<'_> {
    ghost IsTextOf = { λ _ _ _ text. IsSvg text };

    fn text_of(
        &self,
        alloc: Global,
        audited_query: &mut AuditedQuery,
    ) -> Result<Vec<u8>, AllocError> {
        let errors = lines_of(alloc, self.notes)?;
        draw(alloc, &audited_of(audited_query), errors)
    }
}

impl Part for PictureView {
    fn push(
        &self,
        alloc: Global,
        out: &mut String,
        audited: &Audited<'_>,
        _: &Auditor<'_>,
        _: &[u32],
        traced: Traced<'_>,
    ) -> Result<(), AllocError> {
        out.push_str(&picture_with(alloc, audited, traced.trace, Vec::new(alloc))?)
    }
}
