//! Executes several events under a single acquisition of the lock.
//!
//! If threads have many events, an acquisition for each costs more than the steps: each time the lock and the machine
//! move to another processor's cache. So one acquisition covers several events, up to a given number, since other
//! sessions wait meanwhile. It ends early at a blocked event, which only a step of another session can unblock. A list
//! of events does not suffice, since a later event names the transaction that an earlier one began. So the source is
//! asked for each event after the reply to the one before it.
ghost use Rattle.std.specs.Prelude.{◌≡◌, ◌<◌, ◌≤◌, ◌⊎◌, ◌++◌, List, ℕ, None, All, length, IfOk};
ghost use Rattle.esr_session.specs.Receipts.{IsReceipt, EndsBlocked, BlockedOnlyLast};
ghost use Rattle.esr_session.specs.declared.receipt.Receipt.{Receipt};

use crate::engine_name::Naming;
use crate::lock::{Locked, Pocket, step_on};
use crate::receipt::{Receipt, is_blocked};
use esr_core::StepError;
use esr_history::Event;
use esr_items::Metric;

/// A source of events, each of which may depend on the earlier replies.
pub trait EventSource {
    ghost use Rattle.std.specs.Prelude.{◌≡◌, ◌++◌, ◌∷◌, [], List, Option, Some};
    ghost use Rattle.esr_history.specs.declared.event.Event.{Event};
    ghost use Rattle.esr_session.specs.declared.receipt.Receipt.{Receipt};

    /// Whether a source that has received these receipts is now this one.
    ghost Became: { Self → List Receipt → Self → Type 0 };

    /// The next event.
    ghost next: { Self → Option Event };

    fn next(&self) -> Option<Event>
        ensures { result ≡ next self.now };

    /// Receives the receipt of the event.
    fn on_reply(&mut self, receipt: Receipt)
        requires { next self.old ≡ Some receipt.event }
        ensures { (first : Self) (receipts : List Receipt)
            → Became first receipts self.old → Became first (receipts ++ receipt ∷ []) self.new };
}

/// Executes up to `upper_bound` events of a source, until one is blocked or the source is exhausted. Returns how many.
#[tactic(auto, using(crate::proofs::Calls::free_so_far))]
pub(crate) fn step_several<M: Metric, N: Naming, A: EventSource>(
    locked: &mut Locked<M, N>,
    pocket: &mut Pocket<N>,
    source: &mut A,
    upper_bound: usize,
) -> Result<usize, StepError>
    ensures receipts { (more : List Receipt) × (pocket.new ≡ pocket.old ++ more) × (length more ≤ upper_bound)
        × All (IsReceipt M.distance_by N.opening N.weights) more × IfOk result (λ n. n ≡ length more) }
    ensures source { (first : A) → A.Became first pocket.old source.old → A.Became first pocket.new source.new }
    ensures none { IfOk result (λ n. 1 ≤ upper_bound → n ≡ 0 → A.next source.old ≡ None) }
    ensures end { IfOk result (λ n. n < upper_bound → (A.next source.new ≡ None) ⊎ EndsBlocked pocket.new) }
    ensures held { (more : List Receipt) × (pocket.new ≡ pocket.old ++ more) × BlockedOnlyLast more }
{
    for count in 0..upper_bound {
        let Some(event) = source.next() else {
            return Ok(count);
        };
        let receipt = step_on(locked, pocket, event)?;
        source.on_reply(receipt);
        if is_blocked(receipt.reply) {
            return Ok(count + 1);
        }
    }
    Ok(upper_bound)
}
