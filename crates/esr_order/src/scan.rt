//! Finds transactions by a history's links: their outcomes, those that committed, those that committed before a query, and
//! those that a strict query must have seen.

ghost use Rattle.std.specs.Prelude.{◌≡◌, ◌++◌, ◌∷◌, [], ◌==◌, IfOk, OnOk, OnErr, slice_get, length, map, filter, count_by};
ghost use Rattle.std.specs.List.{filter_map, before_first};
ghost use Rattle.std.specs.List.Sorted.{IsStrictlyIncreasing};
ghost use Rattle.esr_history.specs.Events.{is_update};
ghost use Rattle.esr_history.specs.Machine.{accepted_in};
ghost use Rattle.esr_history.specs.Operations.{commit_order};
ghost use Rattle.esr_history.specs.Outcomes.{outcome_of};
ghost use Rattle.esr_history.specs.Queries.{is_committed_query, updates_committed_before, must};
ghost use Rattle.esr_order.specs.Scans.{commit_in, is_commit_at, has_ended_before, end_in, AreEnds};

use esr_history::{Entry, Event, History, Log, TxnId, TxnOutcome};
use esr_items::Metric;
use std::alloc::{AllocError, Global};

/// Returns the transaction that commits in an entry, if the entry is an accepted commit.
fn committer_of(entry: Entry) -> Option<TxnId>
    ensures { result ≡ commit_in entry }
{
    if entry.is_refused() {
        return None;
    }
    match entry.event {
        Event::Commit { txn } => Some(txn),
        _ => None,
    }
}

/// Adds the transaction that commits in an entry, if one does.
pub fn push_committer(commits: &mut Vec<TxnId>, entry: Entry) -> Result<(), AllocError>
    ensures ok { OnOk result (commits.new.items ≡ commits.old.items ++ filter_map commit_in (entry ∷ [])) }
    ensures err { OnErr result (commits.new.items ≡ commits.old.items) }
{
    if let Some(t) = committer_of(entry) {
        commits.push(t)?;
    }
    Ok(())
}

/// Returns the transactions that commit in the entries at these indices.
fn committers_at(alloc: Global, log: &Log, at: &[u64]) -> Result<Vec<TxnId>, AllocError>
    ensures { IfOk result (λ v. v.items ≡ filter_map commit_in (filter_map (slice_get log.now.entries) at.now)) }
{
    at.iter()
        .filter_map(|i| log.get(*i as usize))
        .filter_map(committer_of)
        .collect(alloc)
}

fn push_end(ends: &mut Vec<u64>, end: Option<u64>) -> Result<(), AllocError>
    ensures { OnOk result (ends.new.items ≡ ends.old.items ++ end_in end) }
{
    if let Some(place) = end {
        ends.push(place)?;
    }
    Ok(())
}

/// Returns the indices at which transactions ended, ascending.
fn ends_of<M: Metric>(alloc: Global, history: &History<M>) -> Result<Vec<u64>, AllocError>
    ensures rises { IfOk result (λ v. IsStrictlyIncreasing v.items) }
    ensures ends { IfOk result (λ v. AreEnds history.now.schedule v.items) }
{
    let _invariant = history.log(); // brings the invariant into the proof
    let mut ends = Vec::new(alloc);
    let mut t = 1;
    while let Some(facts) = history.facts(TxnId(t)) {
        push_end(&mut ends, facts.end)?;
        t += 1;
    }
    ends.sort_unstable();
    ends.dedup();
    Ok(ends)
}

/// Returns the committed transactions in commit order. Iterates over the transaction numbers, not over the log.
pub fn committed<M: Metric>(alloc: Global, history: &History<M>) -> Result<Vec<TxnId>, AllocError>
    ensures { IfOk result (λ v. map (λ t. t.0) v.items ≡ commit_order (accepted_in history.now.schedule)) }
{
    let ends = ends_of(alloc, history)?;
    let committed = committers_at(alloc, history.log(), &ends)?;
    Ok(committed)
}

/// Returns whether the transaction is an update.
pub fn is_update<M: Metric>(history: &History<M>, t: TxnId) -> bool
    ensures { result ≡ is_update (accepted_in history.now.schedule) t.0 }
{
    match history.facts(t) {
        None => false,
        Some(facts) => !facts.query,
    }
}

/// Returns whether the entry at an index, if there is one, is an accepted commit.
fn is_commit_at(log: &Log, place: Option<u64>) -> bool
    ensures { result ≡ is_commit_at log.now.entries place }
{
    match place {
        None => false,
        Some(i) => log
            .get(i as usize)
            .is_some_and(|entry| committer_of(entry).is_some()),
    }
}

/// Returns the outcome of a transaction. A transaction that has not begun counts as active.
pub fn outcome_of<M: Metric>(history: &History<M>, t: TxnId) -> TxnOutcome
    ensures { result ≡ outcome_of (accepted_in history.now.schedule) t.0 }
{
    let log = history.log();
    let Some(facts) = history.facts(t) else {
        return TxnOutcome::Active;
    };
    if is_commit_at(log, facts.end) {
        TxnOutcome::Committed
    } else if facts.end.is_some() {
        TxnOutcome::Aborted
    } else {
        TxnOutcome::Active
    }
}

/// Returns whether the transaction is a query that has committed.
pub fn is_committed_query<M: Metric>(history: &History<M>, q: TxnId) -> bool
    ensures { result ≡ is_committed_query history.now.schedule q.0 }
{
    match history.facts(q) {
        None => false,
        Some(facts) => facts.query && is_commit_at(history.log(), facts.end),
    }
}

/// Returns the updates that committed before the query, among the committed transactions.
pub fn updates_before<M: Metric>(
    alloc: Global,
    history: &History<M>,
    committed: &[TxnId],
    q: TxnId,
) -> Result<Vec<TxnId>, AllocError>
    ensures { IfOk result (λ v. v.items ≡ filter (λ t. is_update (accepted_in history.now.schedule) t.0)
        (before_first (λ t. t.0 == q.0) committed.now)) }
{
    committed
        .iter()
        .take_while(|t| t.0 != q.0)
        .filter(|t| is_update(history, **t))
        .copied()
        .collect(alloc)
}

/// Returns whether the transaction ended before an index.
fn has_ended_before<M: Metric>(history: &History<M>, t: TxnId, place: u64) -> bool
    ensures { result ≡ has_ended_before history.now.schedule t.0 place }
{
    match history.facts(t) {
        None => false,
        Some(facts) => facts.end.is_some_and(|end| end < place),
    }
}

/// Returns how many of these transactions ended before an index.
fn count_before<M: Metric>(history: &History<M>, txns: &[TxnId], place: u64) -> usize
    ensures { result ≡ count_by (λ t. has_ended_before history.now.schedule t.0 place) txns.now }
{
    txns.iter()
        .filter(|t| has_ended_before(history, **t, place))
        .count()
}

/// Returns how many of its updates a query must have seen.
pub fn count_must<M: Metric>(history: &History<M>, updates: &[TxnId], q: TxnId) -> usize
    requires { map (λ t. t.0) updates.now ≡ updates_committed_before history.now.schedule q.0 }
    ensures { result ≡ length (must history.now.schedule q.0) }
{
    let _invariant = history.log(); // brings the invariant into the proof
    let Some(facts) = history.facts(q) else {
        return 0;
    };
    if facts.strict {
        count_before(history, updates, facts.begin)
    } else {
        0
    }
}
