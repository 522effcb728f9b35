//! Prose about an audited query as a part of a page: paragraphs and lists.

use crate::prose::{Block, BlockKind, prose_of};
use crate::subject::Subject;
use esr_outcomes::Auditor;
use esr_trace::{Audited, Part, Traced};
use std::alloc::{AllocError, Global};

/// Blocks as markup.
fn push_blocks(out: &mut String, blocks: &[Block]) -> Result<(), AllocError> {
    let mut is_in_list = false;
    for block in blocks {
        let is_point = block.kind == BlockKind::Point;
        if is_point != is_in_list {
            out.push_str(if is_point { "<ul>\n" } else { "</ul>\n" })?;
            is_in_list = is_point;
        }
        out.push_str(if is_point { "<li>" } else { "<p>" })?;
        out.push_str(&block.words)?;
        out.push_str(if is_point { "</li>\n" } else { "</p>\n" })?;
    }
    out.push_str(if is_in_list { "</ul>\n" } else { "" })
}

/// The prose about a query, as markup.
pub struct Passage;

impl Part for Passage {
    fn push(
        &self,
        alloc: Global,
        out: &mut String,
        audited: &Audited<'_>,
        auditor: &Auditor<'_>,
        lines: &[u32],
        traced: Traced<'_>,
    ) -> Result<(), AllocError> {
        let subject = Subject {
            items: audited.items,
            transactions: audited.transactions,
            history: audited.history,
            lines,
            query: audited.finding.query,
            auditor,
            finding: Some(audited.finding),
        };
        push_blocks(out, &prose_of(alloc, &subject, traced.trace)?)
    }
}
