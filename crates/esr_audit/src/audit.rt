//! Audits of one committed query, and of every committed query of a history.
//!
//! A finding contains the closure problem that was solved, so anyone can check its certificate. An audit fails only if the
//! transaction is not a committed query or if an allocation fails: histories are so limited in size that no number of a
//! problem is out of range.
ghost use Rattle.std.specs.Prelude.{◌≡◌, ◌↔◌, false, List, None, map, All, IfOk, IfErr, IsErrOf, IsTrue, filter_map, slice_get};
ghost use Rattle.esr_history.specs.declared.event.Entry.{Entry};
ghost use Rattle.esr_history.specs.Legal.{continued};
ghost use Rattle.esr_history.specs.Machine.{IsLegal, accepted_in};
ghost use Rattle.esr_history.specs.Operations.{commit_order};
ghost use Rattle.esr_history.specs.Queries.{is_committed_query};
ghost use Rattle.esr_history.specs.Sound.{IsSound};
ghost use Rattle.esr_cert.specs.Certificate.{Certifies};
ghost use Rattle.esr_cert.specs.Problem.{in_set, IsSmallestLeastCostSet};
ghost use Rattle.esr_cert.specs.Views.{certificate_of};
ghost use Rattle.esr_order.specs.Orders.{IsConflictOrderOn};
ghost use Rattle.esr_order.specs.Index.{IsWholeIndexOf};
ghost use Rattle.esr_order.specs.Relevant.{AreRelevant};
ghost use Rattle.esr_audit.specs.Findings.{IsAnswer, HasAugmentationCount, IsFinding, IsFindingOf, IsBook};

use crate::commits::{CommitLists, commit_lists};
use crate::finding::{AuditError, Book, Finding};
use crate::problem::problem_of;
use esr_cert::{Certificate, Problem};
use esr_flow::{Network, find_certificate, solve};
use esr_history::{History, NoMemory, TxnId};
use esr_items::Metric;
use esr_order::{Index, Order};
use std::alloc::{AllocError, Global};

/// Returns the update at a position of the list, if there is one.
fn update_at(updates: &[TxnId], i: u32) -> Option<TxnId>
    ensures { result ≡ slice_get updates.now i }
{
    updates.get(i as usize).copied()
}

/// Returns the updates at these positions.
fn updates_at(alloc: Global, updates: &[TxnId], set: &[u32]) -> Result<Vec<TxnId>, AllocError>
    ensures { IfOk result (λ v. v.items ≡ filter_map (slice_get updates.now) set.now) }
{
    set.iter()
        .filter_map(|i| update_at(updates, *i))
        .collect(alloc)
}

/// Returns a certificate of the problem. Its set is the smallest closed set of least cost. Its augmentation count is `None`.
fn certify(alloc: Global, problem: &Problem) -> Result<Certificate, NoMemory>
    ensures certifies { IfOk result (λ c. Certifies problem.now (certificate_of c)) }
    ensures least { IfOk result (λ c. IsSmallestLeastCostSet problem.now (in_set c.set.items)) }
    ensures no_augmentation_count { IfOk result (λ c. c.augmentations ≡ None) }
{
    let network = Network::build(alloc, problem)?;
    let certificate = find_certificate(alloc, &network)?;
    Ok(certificate)
}

/// Returns a certificate of the problem. Its set is the smallest closed set of least cost. Its augmentation count is the
/// number of shortest augmenting paths along which its flow was computed.
pub fn certify_with_augmentation_count(
    alloc: Global,
    problem: &Problem,
) -> Result<Certificate, NoMemory>
    ensures certifies { IfOk result (λ c. Certifies problem.now (certificate_of c)) }
    ensures least { IfOk result (λ c. IsSmallestLeastCostSet problem.now (in_set c.set.items)) }
    ensures counted { IfOk result (λ c. HasAugmentationCount problem.now (certificate_of c)) }
{
    let network = Network::build(alloc, problem)?;
    Ok(solve(alloc, &network)?.certificate)
}

/// Returns the result of the audit of a committed query. `order` has the updates that are relevant to it and the conflicts among
/// them. The updates of the smallest closed set of least cost are `before` the query in its nearest placement.
fn finding_of<M: Metric>(
    alloc: Global,
    history: &History<M>,
    order: Order,
    q: TxnId,
) -> Result<Finding, NoMemory>
    requires order { IsConflictOrderOn history.now.schedule q.0 (map (λ t. t.0) order.commits) order }
    requires relevant { AreRelevant history.now.schedule q.0 (map (λ t. t.0) order.commits) }
    requires committed_query { IsTrue (is_committed_query history.now.schedule q.0) }
    ensures query { IfOk result (λ f. f.query ≡ q) }
    ensures finding { IfOk result (IsFindingOf M.distance_by history.now.schedule q.0) }
{
    let _invariant = history.log(); // brings the invariant into the proof
    let import = history.import(q);
    let problem = problem_of(alloc, history, order, q)?;
    let certificate = certify(alloc, &problem)?;
    let before = updates_at(alloc, problem.updates(), &certificate.set)?;
    Ok(Finding {
        query: q,
        distance: certificate.worth,
        import,
        before,
        problem,
        certificate,
    })
}

/// Returns the finding of a committed query: the distance between the values that it read and those that it would read at its
/// nearest serial placement, with a certificate that no placement is nearer. The result holds for every continuation of the history.
///
/// The updates of the problem are those that committed before the query and are relevant to it: those that wrote an item that
/// it read, those from which a chain of conflicts leads to such an update, and, if the query is strict, those that committed
/// before it began, since a strict query is placed after these.
///
/// # Errors
/// `NotACommittedQuery` if and only if the transaction is not a query or has not committed. `NoMemory` if an allocation
/// failed.
pub fn audit_query<M: Metric>(
    alloc: Global,
    history: &History<M>,
    q: TxnId,
) -> Result<Finding, AuditError>
    ensures query { IfOk result (λ f. f.query ≡ q) }
    ensures finding { IfOk result (IsFindingOf M.distance_by history.now.schedule q.0) }
    ensures not_committed_query { IsErrOf result AuditError.NotACommittedQuery
        ↔ (is_committed_query history.now.schedule q.0 ≡ false) }
    ensures no_worker_error { ¬ IsErrOf result AuditError.WorkersOutOfRange }
    ensures stable { IfOk result (λ f. (rest : List Entry) → IsLegal M.distance_by (continued history.now.schedule rest)
        → IsAnswer M.distance_by (continued history.now.schedule rest) q.0 f.distance f.import
        (map (λ t. t.0) f.before.items)) }
{
    let _invariant = history.log(); // brings the invariant into the proof
    let order = Order::relevant(alloc, history, q)?;
    Ok(finding_of(alloc, history, order, q)?)
}

/// Like `audit_query`, for a caller that has the list of committed transactions in commit order, which can be reused
/// for many queries.
///
/// # Errors
/// Those of `audit_query`.
pub fn audit_query_with_commits<M: Metric>(
    alloc: Global,
    history: &History<M>,
    committed: &[TxnId],
    q: TxnId,
) -> Result<Finding, AuditError>
    requires { map (λ t. t.0) committed.now ≡ commit_order (accepted_in history.now.schedule) }
    ensures query { IfOk result (λ f. f.query ≡ q) }
    ensures finding { IfOk result (IsFindingOf M.distance_by history.now.schedule q.0) }
    ensures not_committed_query { IsErrOf result AuditError.NotACommittedQuery
        ↔ (is_committed_query history.now.schedule q.0 ≡ false) }
    ensures no_worker_error { ¬ IsErrOf result AuditError.WorkersOutOfRange }
{
    let order = Order::relevant_in(alloc, history, committed, q)?;
    Ok(finding_of(alloc, history, order, q)?)
}

/// Like `audit_query`, for a caller that keeps an index of the whole history, so that the accesses of updates need not be
/// collected for each query.
///
/// # Errors
/// Those of `audit_query`.
pub fn audit_query_with_index<M: Metric>(
    alloc: Global,
    history: &History<M>,
    index: &Index,
    q: TxnId,
) -> Result<Finding, AuditError>
    requires { IsWholeIndexOf history.now.schedule.entries index.now }
    ensures query { IfOk result (λ f. f.query ≡ q) }
    ensures finding { IfOk result (IsFindingOf M.distance_by history.now.schedule q.0) }
    ensures not_committed_query { IsErrOf result AuditError.NotACommittedQuery
        ↔ (is_committed_query history.now.schedule q.0 ≡ false) }
    ensures no_worker_error { ¬ IsErrOf result AuditError.WorkersOutOfRange }
{
    let order = Order::relevant_by_index(alloc, history, index, q)?;
    Ok(finding_of(alloc, history, order, q)?)
}

/// Like `audit_query_with_commits`, for a transaction that is a committed query: fails only if an allocation fails.
fn finding_from_commits<M: Metric>(
    alloc: Global,
    history: &History<M>,
    committed: &[TxnId],
    q: TxnId,
) -> Result<Finding, AuditError>
    requires in_commit_order { map (λ t. t.0) committed.now ≡ commit_order (accepted_in history.now.schedule) }
    requires committed_query { IsTrue (is_committed_query history.now.schedule q.0) }
    ensures query { IfOk result (λ f. f.query ≡ q) }
    ensures finding { IfOk result (IsFindingOf M.distance_by history.now.schedule q.0) }
    ensures err { IfErr result (λ e. e ≡ AuditError.NoMemory) }
{
    let relevant = Order::relevant_in(alloc, history, committed, q)?;
    Ok(finding_of(alloc, history, relevant, q)?)
}

/// Audits these committed queries, given the list of all committed transactions.
fn findings_of<M: Metric>(
    alloc: Global,
    history: &History<M>,
    committed: &[TxnId],
    queries: &[TxnId],
) -> Result<Vec<Finding>, AuditError>
    requires in_commit_order { map (λ t. t.0) committed.now ≡ commit_order (accepted_in history.now.schedule) }
    requires committed_queries { All (λ t. IsTrue (is_committed_query history.now.schedule t.0)) queries.now }
    ensures queries { IfOk result (λ v. map (λ f. f.query) v.items ≡ queries.now) }
    ensures findings { IfOk result (λ v. All (IsFinding M.distance_by history.now.schedule) v.items) }
    ensures err { IfErr result (λ e. e ≡ AuditError.NoMemory) }
{
    let mut findings = Vec::new(alloc);
    for q in queries {
        let finding = finding_from_commits(alloc, history, committed, *q)?;
        match findings.push(finding) {
            Ok(()) => {}
            Err(_) => return Err(AuditError::NoMemory),
        }
    }
    Ok(findings)
}

/// Returns the book of a history: its committed updates in commit order, which is a serial order, and the findings of its
/// committed queries.
fn compute_book<M: Metric>(alloc: Global, history: &History<M>) -> Result<Book, AuditError>
    ensures book { IfOk result (IsBook M.distance_by history.now.schedule) }
    ensures err { IfErr result (λ e. e ≡ AuditError.NoMemory) }
{
    let CommitLists {
        all,
        updates,
        queries,
    } = commit_lists(alloc, history)?;
    let findings = findings_of(alloc, history, &all, &queries)?;
    Ok(Book {
        order: updates,
        findings,
    })
}

/// Proves for its caller that the schedule of a history is sound: each reply is that of the machine, the committed updates are
/// serializable, and no limit is exceeded. This is the invariant of `History`. Does nothing at run time.
pub fn prove_sound<M: Metric>(history: &History<M>)
    ensures { IsSound M.distance_by history.now.schedule }
{
    let _invariant = history.log(); // brings the invariant into the proof
}

/// Audits a history: returns a serial order of its committed updates, and the finding of each committed query.
///
/// Each reply is the one that the specification of the machine (`reply_to`) gives. The committed updates of the history are
/// conflict-serializable in commit order. No import and no export has exceeded its limit. The distance in a finding is the
/// minimum over all serial placements of the query, proved by a closed set and a flow of equal worth. It is at most the
/// import charged. The findings hold for every continuation of the history.
///
/// # Errors
/// `NoMemory` if an allocation failed.
pub fn audit_history<M: Metric>(alloc: Global, history: &History<M>) -> Result<Book, AuditError>
    ensures sound { IsSound M.distance_by history.now.schedule }
    ensures book { IfOk result (IsBook M.distance_by history.now.schedule) }
    ensures err { IfErr result (λ e. e ≡ AuditError.NoMemory) }
    ensures stable { IfOk result (λ b. (rest : List Entry) → IsLegal M.distance_by (continued history.now.schedule rest)
        → All (λ f. IsAnswer M.distance_by (continued history.now.schedule rest) f.query.0 f.distance f.import
        (map (λ t. t.0) f.before.items)) b.findings.items) }
{
    prove_sound(history);
    compute_book(alloc, history)
}
