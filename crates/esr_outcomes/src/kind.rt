//! The kinds of transactions.

ghost use Rattle.std.specs.Prelude.{◌≡◌};
ghost use Rattle.esr_outcomes.specs.Outcomes.{kind_of_txn};

use esr_history::{History, TxnId, TxnKind};
use esr_items::Weighted;

/// Returns the kind of a transaction. A transaction that has not begun counts as an update.
pub fn kind_of(history: &History<Weighted>, t: TxnId) -> TxnKind
    ensures { result ≡ kind_of_txn history.now.schedule t.0 }
{
    let Some(facts) = history.facts(t) else {
        return TxnKind::Update;
    };
    if !facts.query {
        return TxnKind::Update;
    }
    if facts.strict {
        TxnKind::StrictQuery
    } else {
        TxnKind::Query
    }
}
