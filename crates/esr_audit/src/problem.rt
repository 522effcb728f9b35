//! Builds the problem of a committed query: relevant updates, pairs, required updates (of a strict query), and the chains of the
//! items that it read. `Problem::from_valid_parts` constructs it without validation, because it is proved to satisfy every rule.
ghost use Rattle.std.specs.Prelude.{map, IfOk, IsTrue};
ghost use Rattle.esr_history.specs.Events.{is_query};
ghost use Rattle.esr_history.specs.Machine.{accepted_in};
ghost use Rattle.esr_order.specs.Orders.{IsConflictOrderOn};
ghost use Rattle.esr_order.specs.Relevant.{AreRelevant};
ghost use Rattle.esr_audit.specs.Problems.{IsProblemOf};

use crate::chains::take_chains;
use crate::reads::item_reads;
use esr_cert::{Problem, ProblemParts};
use esr_history::{History, NoMemory, TxnId};
use esr_items::Metric;
use esr_order::Order;
use std::alloc::{AllocError, Global};

/// Builds the problem of a query from the order of its relevant updates.
pub fn problem_of<M: Metric>(
    alloc: Global,
    history: &History<M>,
    mut order: Order,
    q: TxnId,
) -> Result<Problem, NoMemory>
    requires order { IsConflictOrderOn history.now.schedule q.0 (map (λ t. t.0) order.commits) order }
    requires relevant { AreRelevant history.now.schedule q.0 (map (λ t. t.0) order.commits) }
    requires query { IsTrue (is_query (accepted_in history.now.schedule) q.0) }
    ensures is_problem { IfOk result (λ p. IsProblemOf M.distance_by history.now.schedule q.0 p) }
    ensures relevant { IfOk result (λ p. AreRelevant history.now.schedule q.0 p.updates) }
{
    let _invariant = history.log(); // brings the invariant into the proof
    let reads = item_reads(alloc, history, q)?;
    let chains = take_chains(alloc, history, &mut order, &reads)?;
    let (updates, before, must) = order.into_parts();
    let parts = ProblemParts {
        updates,
        before,
        chains,
        must,
    };
    let problem = Problem::from_valid_parts(alloc, parts)?;
    Ok(problem)
}
