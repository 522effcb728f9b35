//! The sentences above the lanes of a picture, which prose has too: whether the values read ever existed at one moment,
//! the nearest moment, the charges and the updates charged, those of them that are in no picture, and the updates that a
//! strict query had to follow.

use crate::relevance::NearestPlacement;
use crate::subject::Audited;
use crate::trace::{QueryTrace, Sum, WriterEnd, total_of};
use esr_history::{Entry, Event, History, MAX_LIMIT, Refusal, Reply, TxnId};
use esr_items::{ItemId, Metric, Weighted};
use esr_outcomes::{TxnOutcome, outcome_of};
use esr_report::name_of_transaction;
use esr_text::{first, push_number};
use esr_wording::{MAX_NAMES, OffReads, push_names, push_rest, push_summands};
use std::alloc::{AllocError, Global};

/// The maximum number of names of updates that were charged and have no box.
const MAX_ABSENT: usize = 8;

/// The name of a transaction.
fn name<'a>(audited: &Audited<'a>, txn: TxnId) -> &'a str {
    name_of_transaction(audited.transactions, txn)
}

/// Appends the position of the line.
fn push_moment(
    out: &mut String,
    audited: &Audited<'_>,
    trace: &QueryTrace,
) -> Result<(), AllocError> {
    let before = &audited.finding.before;
    if trace.committed == 0 {
        return out.push_str("at the start");
    }
    if before.is_empty() {
        return out.push_str("before all updates");
    }
    out.push_str("after ")?;
    push_names(out, audited.transactions, before)
}

/// Returns whether the query has to follow updates that committed before it began, so that earlier moments are
/// excluded.
fn must_follow(audited: &Audited<'_>) -> bool {
    !audited.finding.problem.must().is_empty()
}

/// Appends whether the values read ever existed at one moment up to the commit of the query. For a strict query, they may
/// have existed before the updates that it had to follow.
pub fn push_verdict(
    out: &mut String,
    audited: &Audited<'_>,
    trace: &QueryTrace,
) -> Result<(), AllocError> {
    let query = name(audited, audited.finding.query);
    if trace.observed_reads.is_empty() {
        return write!(out, "{query} read no item.");
    }
    write!(out, "What {query}")?;
    if audited.finding.distance > 0 {
        if must_follow(audited) {
            return write!(
                out,
                " read was never, up to its commit, a consistent state with all updates that committed before {query} began."
            );
        }
        return out.push_str(" read was never a consistent state up to its commit.");
    }
    out.push_str(" read was a consistent state, ")?;
    push_moment(out, audited, trace)?;
    out.push('.')
}

/// Returns the reads that differ from a placement.
pub fn off_reads(
    history: &History<Weighted>,
    placement: &NearestPlacement,
    trace: &QueryTrace,
) -> OffReads {
    let mut reads = OffReads {
        count: 0,
        has_weights: false,
    };
    for observed in &trace.observed_reads {
        if placement.distance(history, observed) > 0 {
            let weight = history.metric().distance(observed.item, 0, 1);
            reads.count = reads.count.saturating_add(observed.count);
            reads.has_weights = reads.has_weights || weight > 1;
        }
    }
    reads
}

/// Appends the nearest moment, if no moment has all values that were read, and what the distance is the sum of.
pub fn push_nearest_moment(
    alloc: Global,
    out: &mut String,
    audited: &Audited<'_>,
    trace: &QueryTrace,
) -> Result<(), AllocError> {
    out.push_str(if must_follow(audited) {
        "The nearest such state, "
    } else {
        "The nearest state, "
    })?;
    push_moment(out, audited, trace)?;
    out.push_str(", differs by ")?;
    push_number(out, audited.finding.distance)?;
    let placement = NearestPlacement::after(alloc, audited.history, &audited.finding.before)?;
    push_summands(out, off_reads(audited.history, &placement, trace))?;
    out.push('.')
}

/// The updates that were charged most, with their amounts.
fn push_charges(
    out: &mut String,
    audited: &Audited<'_>,
    charges: &[Sum],
) -> Result<(), AllocError> {
    let mut joint = ": ";
    for charge in first(charges, MAX_NAMES) {
        out.push_str(joint)?;
        out.push_str(name(audited, TxnId(charge.number)))?;
        out.push(' ')?;
        push_number(out, charge.amount)?;
        joint = ", ";
    }
    push_rest(out, charges.len().saturating_sub(MAX_NAMES))
}

/// Appends what a charge is.
pub fn push_charge_rule(out: &mut String) -> Result<(), AllocError> {
    out.push_str(
        "A charge is |change| x weight x reads: for a change of an item that the query has read, or for an uncommitted value when it reads it. No charge is taken back.",
    )
}

/// Appends the charges of the query, its limit, and the updates that were charged, the greatest sums first.
fn push_charge_sentence(
    alloc: Global,
    out: &mut String,
    audited: &Audited<'_>,
    trace: &QueryTrace,
) -> Result<(), AllocError> {
    let limit = match audited.history.facts(audited.finding.query) {
        Some(facts) => facts.limit,
        None => 0,
    };
    out.push_str("Charged ")?;
    push_number(out, audited.finding.import)?;
    if limit < MAX_LIMIT {
        out.push_str(" of its limit of ")?;
        push_number(out, limit)?;
    } else {
        out.push_str(" of the largest limit")?;
    }
    push_charges(out, audited, &trace.sums_by_update(alloc)?)?;
    if audited.finding.import == 0 {
        return out.push('.');
    }
    out.push_str(". ")?;
    push_charge_rule(out)
}

/// Returns the updates that a strict query had to follow.
fn updates_seen(alloc: Global, audited: &Audited<'_>) -> Result<Vec<TxnId>, AllocError> {
    let problem = &audited.finding.problem;
    let mut seen = Vec::new(alloc);
    for position in problem.must() {
        if let Some(update) = problem.updates().get(*position as usize) {
            seen.push(*update)?;
        }
    }
    Ok(seen)
}

/// Appends the updates that a strict query had to follow, if there are any.
pub fn push_strict(
    alloc: Global,
    out: &mut String,
    audited: &Audited<'_>,
    trace: &QueryTrace,
) -> Result<(), AllocError> {
    if !must_follow(audited) {
        return Ok(());
    }
    let seen = updates_seen(alloc, audited)?;
    push_predecessors(out, audited, &seen)?;
    let opening = opening_distance(alloc, audited.history, trace)?;
    push_opening(out, opening, audited.finding.distance)
}

/// Returns the distance of a query from the opening values.
pub fn opening_distance(
    alloc: Global,
    history: &History<Weighted>,
    trace: &QueryTrace,
) -> Result<u64, AllocError> {
    let opening = NearestPlacement::after(alloc, history, &[])?;
    let mut distance = 0u64;
    for observed in &trace.observed_reads {
        let off = opening
            .distance(history, observed)
            .saturating_mul(observed.count);
        distance = distance.saturating_add(off);
    }
    Ok(distance)
}

/// Appends how far a strict query is from the opening values, which are excluded, if that is less than its distance.
pub fn push_opening(out: &mut String, opening: u64, distance: u64) -> Result<(), AllocError> {
    if opening >= distance {
        return Ok(());
    }
    if opening == 0 {
        return out.push_str(" So are the opening values, which would fit exactly.");
    }
    out.push_str(" So are the opening values, which would be off by only ")?;
    push_number(out, opening)?;
    out.push('.')
}

/// Appends the names of the updates that a strict query had to follow.
fn push_predecessors(
    out: &mut String,
    audited: &Audited<'_>,
    seen: &[TxnId],
) -> Result<(), AllocError> {
    out.push_str("It is strict: ")?;
    push_names(out, audited.transactions, seen)?;
    out.push_str(" had committed before it began, so states without ")?;
    out.push_str(if seen.len() == 1 {
        "it are excluded."
    } else {
        "one of them are excluded."
    })
}

/// Why an update that was charged has no box in a picture.
#[derive(Clone, Copy, PartialEq, Eq)]
enum Absence {
    CommittedLater,
    Aborted,
    NeverEnded,
}

static ABSENCES: [Absence; 3] = [
    Absence::CommittedLater,
    Absence::Aborted,
    Absence::NeverEnded,
];

fn absences() -> &'static [Absence] {
    &ABSENCES
}

/// Returns why an update has no box, if it has none.
fn absence_of(audited: &Audited<'_>, trace: &QueryTrace, update: TxnId) -> Option<Absence> {
    let facts = audited.history.facts(update);
    let has_ended = facts.is_some_and(|facts| facts.end.is_some());
    match trace.end(update) {
        WriterEnd::Committed => None,
        WriterEnd::Aborted => Some(Absence::Aborted),
        WriterEnd::Later if has_ended => Some(match outcome_of(audited.history, update) {
            TxnOutcome::Aborted => Absence::Aborted,
            _ => Absence::CommittedLater,
        }),
        WriterEnd::Later => Some(Absence::NeverEnded),
    }
}

/// Returns the charges of the updates that have no box for this reason, the greatest first.
fn absent(
    alloc: Global,
    audited: &Audited<'_>,
    trace: &QueryTrace,
    charges: &[Sum],
    reason: Absence,
) -> Result<Vec<Sum>, AllocError> {
    let mut absent = Vec::new(alloc);
    for charge in charges {
        if absence_of(audited, trace, TxnId(charge.number)) == Some(reason) {
            absent.push(*charge)?;
        }
    }
    Ok(absent)
}

/// Appends the names of the updates of the first of some charges, and the number of the others.
fn push_first_names(
    out: &mut String,
    audited: &Audited<'_>,
    charges: &[Sum],
) -> Result<(), AllocError> {
    let mut joint = "";
    for charge in first(charges, MAX_ABSENT) {
        out.push_str(joint)?;
        out.push_str(name(audited, TxnId(charge.number)))?;
        joint = ", ";
    }
    let others = charges.len().saturating_sub(MAX_ABSENT);
    if others > 0 {
        out.push_str(" and ")?;
        push_number(out, others as u64)?;
        out.push_str(" more")?;
    }
    Ok(())
}

/// Appends the reason why one update, or several, have no box.
fn push_reason(
    out: &mut String,
    query: &str,
    reason: Absence,
    is_one: bool,
) -> Result<(), AllocError> {
    match (reason, is_one) {
        (Absence::CommittedLater, true) => write!(
            out,
            ": it committed after {query}, and a placement has only updates that committed before {query}"
        ),
        (Absence::CommittedLater, false) => write!(
            out,
            ": they committed after {query}, and a placement has only updates that committed before {query}"
        ),
        (Absence::Aborted, true) => out.push_str(": it aborted, so no serial placement has it"),
        (Absence::Aborted, false) => {
            out.push_str(": they aborted, so no serial placement has them")
        }
        (Absence::NeverEnded, true) => {
            out.push_str(": it has not ended, so no serial placement has it")
        }
        (Absence::NeverEnded, false) => {
            out.push_str(": they have not ended, so no serial placement has them")
        }
    }
}

/// Appends which updates were charged and have no box for this reason, and the sum of their charges, if there are any.
fn push_absent(
    alloc: Global,
    out: &mut String,
    audited: &Audited<'_>,
    trace: &QueryTrace,
    charges: &[Sum],
    reason: Absence,
) -> Result<(), AllocError> {
    let absent = absent(alloc, audited, trace, charges, reason)?;
    if absent.is_empty() {
        return Ok(());
    }
    out.push_str(if out.is_empty() { "" } else { ". " })?;
    push_first_names(out, audited, &absent)?;
    let query = name(audited, audited.finding.query);
    let is_one = absent.len() == 1;
    let has = if is_one { "has" } else { "have" };
    write!(out, " charged {query} ")?;
    push_number(out, total_of(&absent))?;
    write!(out, " but {has} no box")?;
    push_reason(out, query, reason, is_one)
}

/// Appends which updates were charged and have no box, and why, if there are any.
fn push_all_absent(
    alloc: Global,
    out: &mut String,
    audited: &Audited<'_>,
    trace: &QueryTrace,
) -> Result<(), AllocError> {
    let charges = trace.sums_by_update(alloc)?;
    for reason in absences() {
        push_absent(alloc, out, audited, trace, &charges, *reason)?;
    }
    if out.is_empty() {
        return Ok(());
    }
    out.push('.')
}

/// Returns the item of a read by this query that was refused because of a limit or a lock.
fn refused_item(entry: Entry, query: TxnId) -> Option<ItemId> {
    match (entry.event, entry.reply) {
        (
            Event::Read { txn, item },
            Reply::Refused(
                Refusal::BlockedByLock(_)
                | Refusal::BlockedByImport(_)
                | Refusal::BlockedByExport(_),
            ),
        ) if txn == query => Some(item),
        _ => None,
    }
}

/// Appends what refused a read.
fn push_refuser(out: &mut String, audited: &Audited<'_>, reply: Reply) -> Result<(), AllocError> {
    let (words, txn) = match reply {
        Reply::Refused(Refusal::BlockedByLock(txn)) => ("the lock of ", txn),
        Reply::Refused(Refusal::BlockedByImport(txn) | Refusal::BlockedByExport(txn)) => {
            ("the limit of ", txn)
        }
        _ => return Ok(()),
    };
    out.push_str(" by ")?;
    out.push_str(words)?;
    out.push_str(name(audited, txn))
}

/// Appends a read that was refused.
fn push_refused_read(
    out: &mut String,
    audited: &Audited<'_>,
    (item, place): (ItemId, usize),
    reply: Reply,
) -> Result<(), AllocError> {
    out.push_str(audited.items.name_of(item.0).unwrap_or(""))?;
    out.push_str(" in step ")?;
    push_number(out, (place as u64).saturating_add(1))?;
    push_refuser(out, audited, reply)
}

/// Appends the first reads of the query that were refused, and the number of the others, or nothing.
fn push_refused(out: &mut String, audited: &Audited<'_>) -> Result<(), AllocError> {
    let log = audited.history.log();
    let mut count = 0usize;
    for place in 0..log.len() {
        if let Some(entry) = log.get(place)
            && let Some(item) = refused_item(entry, audited.finding.query)
        {
            if count < MAX_NAMES {
                out.push_str(if count == 0 {
                    "Reads that were refused and not executed: "
                } else {
                    ", "
                })?;
                push_refused_read(out, audited, (item, place), entry.reply)?;
            }
            count = count.saturating_add(1);
        }
    }
    if count == 0 {
        return Ok(());
    }
    push_rest(out, count.saturating_sub(MAX_NAMES))?;
    out.push('.')
}

/// A sentence above the lanes.
#[derive(Clone, Copy)]
enum Sentence {
    Verdict,
    Nearest,
    Charge,
    Absent,
    Refused,
    Strict,
}

/// The sentences above the lanes, of those that there are.
static SENTENCES: [Sentence; 6] = [
    Sentence::Verdict,
    Sentence::Nearest,
    Sentence::Charge,
    Sentence::Absent,
    Sentence::Refused,
    Sentence::Strict,
];

fn all_sentences() -> &'static [Sentence] {
    &SENTENCES
}

/// Appends a sentence unless it is empty.
fn push_sentence(
    alloc: Global,
    out: &mut String,
    sentence: Sentence,
    audited: &Audited<'_>,
    trace: &QueryTrace,
) -> Result<(), AllocError> {
    match sentence {
        Sentence::Verdict => push_verdict(out, audited, trace),
        Sentence::Nearest if audited.finding.distance == 0 => Ok(()),
        Sentence::Nearest => push_nearest_moment(alloc, out, audited, trace),
        Sentence::Charge => push_charge_sentence(alloc, out, audited, trace),
        Sentence::Absent => push_all_absent(alloc, out, audited, trace),
        Sentence::Refused => push_refused(out, audited),
        Sentence::Strict => push_strict(alloc, out, audited, trace),
    }
}

/// Adds a sentence, unless it is empty.
fn add_sentence(
    alloc: Global,
    sentences: &mut Vec<String>,
    sentence: Sentence,
    audited: &Audited<'_>,
    trace: &QueryTrace,
) -> Result<(), AllocError> {
    let mut words = String::new(alloc);
    push_sentence(alloc, &mut words, sentence, audited, trace)?;
    if !words.is_empty() {
        sentences.push(words)?;
    }
    Ok(())
}

/// Returns the sentences above the lanes.
pub fn sentences_of(
    alloc: Global,
    audited: &Audited<'_>,
    trace: &QueryTrace,
) -> Result<Vec<String>, AllocError> {
    let mut sentences = Vec::new(alloc);
    for sentence in all_sentences() {
        add_sentence(alloc, &mut sentences, *sentence, audited, trace)?;
    }
    Ok(sentences)
}
