//! The account of a transaction as C reads it.

ghost use Rattle.std.specs.Prelude.{◌≡◌, ◌≢◌, ◌↔◌, ◌⊎◌, false};
ghost use Rattle.esr_history.specs.Events.{is_begun};
ghost use Rattle.esr_history.specs.Machine.{accepted_in};
ghost use Rattle.esr_c.specs.Answers.{IsAccount, account_fields, outcome_number};

use crate::engine::Status;
use esr_engine::{Account, BeginKind, EmbeddedEngine, TxnOutcome};
use esr_history::TxnId;

/// An account: whether it is a query's, its status (0 active, 4 committed, 5 aborted), its limit, and the charges to
/// it so far.
#[repr(C)]
#[derive(Clone, Copy)]
pub struct EsrAccount {
    pub query: bool,
    pub txn_status: u32,
    pub limit: u64,
    pub charged: u64,
}

/// Returns the number of an outcome in C.
fn outcome_number(outcome: TxnOutcome) -> u32
    ensures { result ≡ outcome_number outcome }
{
    match outcome {
        TxnOutcome::Active => 0,
        TxnOutcome::Committed => 4,
        TxnOutcome::Aborted => 5,
    }
}

/// Converts an account for C.
fn fields(account: Account) -> EsrAccount
    ensures { result ≡ account_fields account }
{
    EsrAccount {
        query: matches!(account.kind, BeginKind::Query),
        txn_status: outcome_number(account.outcome),
        limit: account.limit,
        charged: account.charged,
    }
}

pub(crate) fn show_account(engine: &EmbeddedEngine, txn: u32, account: &mut EsrAccount) -> Status
    ensures statuses { (result ≡ Status.Done) ⊎ (result ≡ Status.NotBegun) }
    ensures not_begun { (result ≡ Status.NotBegun) ↔ (is_begun (accepted_in engine.now) txn ≡ false) }
    ensures account { result ≡ Status.Done → IsAccount engine.now txn account.new }
    ensures err { result ≢ Status.Done → account.new ≡ account.old }
{
    match engine.account(TxnId(txn)) {
        Some(found) => {
            *account = fields(found);
            Status::Done
        }
        None => Status::NotBegun,
    }
}
