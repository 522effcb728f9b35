//! The workers' findings of the queries, as text. A worker keeps only the summary of each finding, from which the
//! line is made.
//!
//! An audit begins with an index of the whole history, a twentieth of a drive. If no query has committed there is
//! nothing to find, and no index is made.

ghost use Rattle.esr_board.specs.declared.board.TheConstants.{MAX_SEATS};
ghost use Rattle.std.specs.Prelude.{◌≡◌, ◌≤◌, [], ◌++◌, IfOk, OnOk, true};
ghost use Rattle.esr_audit.specs.Findings.{committed_queries};
ghost use Rattle.esr_plan.specs.Text.{findings_text};
ghost use Rattle.esr_plan.specs.Tables.{names_in};

use esr_audit::{AuditError, commit_lists};
use esr_board::{NoGate, summarize_parallel};
use esr_history::History;
use esr_items::Weighted;
use esr_plan::{BegunNames, push_summaries};
use std::alloc::{AllocError, Global};
use std::thread::Threads;

/// Returns whether no query has committed.
fn is_without_queries(alloc: Global, history: &History<Weighted>) -> Result<bool, AllocError>
    ensures { IfOk result (λ none. none ≡ true → committed_queries history.now.schedule ≡ []) }
{
    match commit_lists(alloc, history) {
        Ok(lists) => Ok(lists.queries.is_empty()),
        Err(_) => Err(AllocError),
    }
}

/// Audits the committed queries with `workers` threads, and appends the lines of the findings.
pub fn push_findings<R: Threads + Sync>(
    rt: &R,
    alloc: Global,
    out: &mut Vec<u8>,
    history: &History<Weighted>,
    names: &BegunNames<'_>,
    workers: u64,
) -> Result<(), AllocError>
    requires { (1 ≤ workers) × (workers ≤ MAX_SEATS) }
    ensures { OnOk result (out.new.items ≡ out.old.items
        ++ findings_text history.now.schedule (names_in names.now)) }
{
    let nothing = is_without_queries(alloc, history)?;
    if nothing {
        return Ok(());
    }
    match summarize_parallel(rt, alloc, history, workers, &NoGate) {
        Ok(found) => push_summaries(out, names, &found.summaries),
        Err(AuditError::NoMemory) => Err(AllocError),
        Err(AuditError::NotACommittedQuery) => unreachable!(),
        Err(AuditError::WorkersOutOfRange) => unreachable!(),
    }
}
