//! The reasons for all reads of a query that are off: the updates that explain them, and why these are on their sides of the
//! nearest placement. Reads that have the same cause have one reason.

use crate::alternative::{Alternative, Alternatives, MAX_ALTERNATIVES};
use crate::positions::Positions;
use crate::readings::{ReadSum, Reading, Readings, total_of_reads};
use crate::relevance::{ExplainedRead, NearestPlacement};
use crate::subject::Audited;
use crate::trace::QueryTrace;
use esr_history::TxnId;
use esr_outcomes::{TxnOutcome, outcome_of};
use esr_report::name_of_transaction;
use esr_text::first;
use std::alloc::{AllocError, Global};

/// Why moving an update does not make a read exact.
const OVERWRITTEN: &str =
    " It read a value that its writer overwrote before the end, so no state has that value.";

/// Returns whether a reading is one of those with a value that was overwritten.
pub fn is_overwritten(overwritten: &[Reading], reading: &Reading) -> bool {
    overwritten.iter().any(|other| other.is_same(reading))
}

/// An update that explains reads that are off.
#[derive(Drop)]
pub struct Reason {
    pub update: TxnId,
    /// These reads with their distances, the farthest first.
    pub reads: Vec<ReadSum>,
    /// Those of them with a value that its writer overwrote: they are exact in no placement.
    pub overwritten: Vec<Reading>,
    /// The placement with the update on its other side, if it committed before the query did.
    pub alternative: Option<Alternative>,
}

impl Reason {
    /// Returns the distance of the reads.
    pub fn distance(&self) -> u64 {
        total_of_reads(&self.reads)
    }

    /// Appends a sentence on why the update is on its side of the nearest placement, and one on values that were overwritten.
    pub fn push(&self, out: &mut String, audited: &Audited<'_>) -> Result<(), AllocError> {
        let finding = audited.finding;
        let query = name_of_transaction(audited.transactions, finding.query);
        match &self.alternative {
            Some(alternative) => alternative.push(
                out,
                audited.items,
                audited.transactions,
                (query, finding.distance),
            )?,
            None => push_absence(out, audited, self.update, query)?,
        }
        if self.alternative.is_some() && !self.overwritten.is_empty() {
            out.push_str(OVERWRITTEN)?;
        }
        Ok(())
    }

    /// Notes that the writer of the value of a read overwrote it.
    fn note_overwritten(&mut self, reading: Reading) -> Result<(), AllocError> {
        if !is_overwritten(&self.overwritten, &reading) {
            self.overwritten.push(reading)?;
        }
        Ok(())
    }

    /// Adds a read.
    fn note(&mut self, readings: &Readings, read: &ExplainedRead) -> Result<(), AllocError> {
        let Some(reading) = readings.find(read.item, read.value) else {
            return Ok(());
        };
        if read.is_overwritten {
            self.note_overwritten(reading)?;
        }
        let place = self
            .reads
            .iter()
            .position(|sum| sum.reading.is_same(&reading));
        if let Some(place) = place
            && let Some(sum) = self.reads.get_mut(place)
        {
            sum.amount = sum.amount.saturating_add(read.distance);
            return Ok(());
        }
        self.reads.push(ReadSum {
            reading,
            amount: read.distance,
        })?;
        Ok(())
    }
}

/// Appends a sentence on why an update cannot be in the nearest state.
fn push_absence(
    out: &mut String,
    audited: &Audited<'_>,
    update: TxnId,
    query: &str,
) -> Result<(), AllocError> {
    let name = name_of_transaction(audited.transactions, update);
    write!(out, "Why {name} is not in the nearest state: it ")?;
    match outcome_of(audited.history, update) {
        TxnOutcome::Aborted => out.push_str("aborted.")?,
        TxnOutcome::Active => out.push_str("has not ended.")?,
        TxnOutcome::Committed => write!(
            out,
            "committed after {query}, and only updates that committed before {query} can be in it."
        )?,
    }
    Ok(())
}

/// The reasons for the reads of a query that are off.
#[derive(Drop)]
pub struct Reasons {
    /// The updates that explain reads, those of the farthest reads first.
    pub reasons: Vec<Reason>,
    /// The number of the reads that are off, and of all reads.
    pub off: u64,
    pub all: u64,
    /// The placement without the updates before it, and with all other updates before it, if these are several.
    pub without_all: Option<Alternative>,
    pub with_all: Option<Alternative>,
}

/// Returns the number of the reads of a query.
fn count_reads(trace: &QueryTrace) -> u64 {
    let mut count = 0u64;
    for observed in &trace.observed_reads {
        count = count.saturating_add(observed.count);
    }
    count
}

/// Returns the reason of an update, without reads.
fn empty_reason(alloc: Global, update: TxnId) -> Reason {
    Reason {
        update,
        reads: Vec::new(alloc),
        overwritten: Vec::new(alloc),
        alternative: None,
    }
}

/// Adds a read to the reason of its cause.
fn add_read(
    alloc: Global,
    reasons: &mut Vec<Reason>,
    readings: &Readings,
    read: &ExplainedRead,
) -> Result<(), AllocError> {
    let place = reasons
        .iter()
        .position(|reason| reason.update == read.cause);
    if let Some(place) = place
        && let Some(reason) = reasons.get_mut(place)
    {
        return reason.note(readings, read);
    }
    let mut reason = empty_reason(alloc, read.cause);
    reason.note(readings, read)?;
    reasons.push(reason)?;
    Ok(())
}

/// Returns the positions of the updates of some reasons.
fn positions_of(
    alloc: Global,
    reasons: &[Reason],
    positions: &Positions,
) -> Result<Vec<Option<u32>>, AllocError> {
    let mut all = Vec::new(alloc);
    for reason in reasons {
        all.push(positions.of(reason.update))?;
    }
    Ok(all)
}

impl Reasons {
    /// Returns the causes of all reads that are off, without their alternatives.
    fn causes(
        alloc: Global,
        trace: &QueryTrace,
        readings: &Readings,
        reads: &[ExplainedRead],
    ) -> Result<Reasons, AllocError> {
        let mut reasons = Reasons {
            reasons: Vec::new(alloc),
            off: 0,
            all: count_reads(trace),
            without_all: None,
            with_all: None,
        };
        for read in reads {
            reasons.off = reasons.off.saturating_add(read.count);
            add_read(alloc, &mut reasons.reasons, readings, read)?;
        }
        Ok(reasons)
    }

    /// Returns the reasons after the first [`MAX_ALTERNATIVES`], which have no alternatives.
    pub fn rest(&self) -> &[Reason] {
        self.reasons.get(MAX_ALTERNATIVES..).unwrap_or(&[])
    }

    /// Adds the placement with the update of a reason on its other side.
    fn complete(
        &mut self,
        alloc: Global,
        alternatives: &Alternatives<'_>,
        number: usize,
    ) -> Result<(), AllocError> {
        if let Some(reason) = self.reasons.get_mut(number) {
            reason.alternative = alternatives.with_moved(alloc, number, &reason.reads)?;
        }
        Ok(())
    }

    /// Adds the placements with the updates of the first reasons on their other sides.
    fn complete_all(
        &mut self,
        alloc: Global,
        audited: &Audited<'_>,
        readings: &Readings,
        upper_bound: usize,
    ) -> Result<(), AllocError> {
        let history = audited.history;
        let problem = &audited.finding.problem;
        let begun = history.begun_count();
        let positions = Positions::new(alloc, problem.updates(), begun)?;
        let chosen = positions_of(alloc, first(&self.reasons, upper_bound), &positions)?;
        let set = &audited.finding.certificate.set;
        let alternatives = Alternatives::of(alloc, history, problem, readings, set, chosen)?;
        for number in 0..upper_bound.min(self.reasons.len()) {
            self.complete(alloc, &alternatives, number)?;
        }
        self.without_all = alternatives.without_all(alloc)?;
        self.with_all = alternatives.with_all(alloc)?;
        Ok(())
    }

    /// Returns the reasons for the reads of a query that are off, which has this nearest placement. At most this many, and
    /// [`MAX_ALTERNATIVES`], have alternatives.
    pub fn of(
        alloc: Global,
        audited: &Audited<'_>,
        placement: &NearestPlacement,
        trace: &QueryTrace,
        upper_bound: usize,
    ) -> Result<Reasons, AllocError> {
        let problem = &audited.finding.problem;
        let readings = Readings::of(alloc, trace)?;
        let reads = placement.explained(alloc, audited.history, problem, trace)?;
        let mut reasons = Reasons::causes(alloc, trace, &readings, &reads)?;
        if audited.finding.distance > 0 {
            let most = upper_bound.min(MAX_ALTERNATIVES);
            reasons.complete_all(alloc, audited, &readings, most)?;
        }
        Ok(reasons)
    }
}
