//! The account of a transaction: its kind and limit, the amount charged so far, and its outcome.

ghost use Rattle.std.specs.Prelude.{◌≡◌};
ghost use Rattle.esr_items.specs.Weights.{weighted};
ghost use Rattle.esr_history.specs.Events.{kind_of};
ghost use Rattle.esr_history.specs.ReportBounds.{ImportBoundsActive};
ghost use Rattle.esr_engine.specs.Accounts.{account_of, charged_to};

use crate::engine::EmbeddedEngine;
use esr_history::{BeginKind, TxnId, TxnOutcome};
use esr_order::outcome_of;

/// The amount that a query has imported so far, or an update exported, with its limit, and its outcome. The values that
/// an active report has read may be shown with it: they are off by at most the amount charged.
#[derive(Clone, Copy, PartialEq, Eq, Debug)]
pub struct Account {
    pub kind: BeginKind,
    pub limit: u64,
    pub charged: u64,
    pub outcome: TxnOutcome,
}

fn kind_of(query: bool) -> BeginKind
    ensures { result ≡ kind_of query }
{
    if query {
        BeginKind::Query
    } else {
        BeginKind::Update
    }
}

impl EmbeddedEngine {
    /// Returns the amount that a query has imported so far, or an update exported.
    pub(crate) fn charge_of(&self, query: bool, t: TxnId) -> u64
        ensures { result ≡ charged_to weighted self.now query t.0 }
    {
        if query {
            self.machine.history().import(t)
        } else {
            self.machine.export(t)
        }
    }

    /// Returns the account of a transaction, or `None` if it has not begun. The values that an active report has read
    /// so far are off by at most the amount charged, from the committed values and from any mixture of these and the
    /// current ones.
    #[tactic(auto, using(crate::proofs::Accounts::no_account, crate::proofs::Reports::active_bounded))]
    pub fn account(&self, t: TxnId) -> Option<Account>
        ensures account { result ≡ account_of weighted self.now t.0 }
        ensures bound { ImportBoundsActive weighted self.now }
    {
        let history = self.machine.history();
        match history.facts(t) {
            Some(facts) => Some(Account {
                kind: kind_of(facts.query),
                limit: facts.limit,
                charged: self.charge_of(facts.query, t),
                outcome: outcome_of(history, t),
            }),
            None => None,
        }
    }
}
