//! An explanation as data, which texts, CSV and JSON render.
ghost use Rattle.std.specs.Prelude.{◌≡◌, IfOk, map};
ghost use Rattle.esr_items.specs.Weights.{weighted};
ghost use Rattle.esr_explain.specs.Explain.{charges, compared_reads, updates_outside};

use crate::charges::{Charge, charges_of};
use crate::reads::{ComparedRead, compared_reads};
use crate::updates_outside::updates_outside;
use esr_audit::Finding;
use esr_history::{History, NoMemory, TxnId};
use esr_items::Weighted;
use std::alloc::Global;

/// The explanation of a committed query.
#[derive(Drop)]
pub struct Explanation<'a> {
    /// The reads, in order.
    pub reads: Vec<ComparedRead>,
    /// The charges above 0 to the query, in order.
    pub charges: Vec<Charge>,
    /// The updates before the nearest placement.
    pub before: &'a [TxnId],
    /// The other updates that committed before the query did.
    pub after: Vec<TxnId>,
    pub distance: u64,
    pub import: u64,
}

impl<'a> Explanation<'a> {
    /// Explains the query of a finding.
    pub fn of(
        alloc: Global,
        history: &History<Weighted>,
        finding: &'a Finding,
    ) -> Result<Explanation<'a>, NoMemory>
        ensures reads { IfOk result (λ e. e.reads.items ≡ compared_reads weighted history.now.schedule
            finding.now.query.0 (map (λ t. t.0) finding.now.before.items)) }
        ensures charges { IfOk result (λ e. e.charges.items ≡ charges weighted history.now.schedule finding.now.query.0) }
        ensures before { IfOk result (λ e. e.before.now ≡ finding.now.before.items) }
        ensures after { IfOk result (λ e. map (λ t. t.0) e.after.items ≡ updates_outside history.now.schedule
            finding.now.query.0 (map (λ t. t.0) finding.now.before.items)) }
        ensures sums { IfOk result (λ e. (e.distance ≡ finding.now.distance) × (e.import ≡ finding.now.import)) }
    {
        let before = finding.before.as_slice();
        Ok(Explanation {
            reads: compared_reads(alloc, history, finding.query, before)?,
            charges: charges_of(alloc, history, finding.query)?,
            before,
            after: updates_outside(alloc, history, finding.query, before)?,
            distance: finding.distance,
            import: finding.import,
        })
    }
}
