//! Defines the account of a transaction: its limit, the amount charged to it, and its kind.
//!
//! Accounts are sorted by transaction number, and the numbers may have gaps. If they are 1, 2, 3 and so on, as in the machine,
//! an account is found without a search.

ghost use Rattle.std.specs.Prelude.{◌≡◌, ◌+◌, ◌<◌, ◌≤◌, ◌^◌, true, Some, IfOk, IfErr, IsTrue, length, if◌then◌else◌};
ghost use Rattle.std.specs.List.{AllByRecursion};
ghost use Rattle.esr_history.specs.Ascending.{IsAscendingBy, IsPlaceOf, IsGapFor};
ghost use Rattle.esr_ledgers.specs.Books.{number, account_of, is_open, account_amount, raised, lowered, would_pass, IsWithinLimit};

use esr_history::{BeginKind, TxnId};

/// The amount that a query has imported, or an update exported, and its limit.
#[derive(Clone, Copy, PartialEq, Eq, Debug)]
pub struct Account {
    pub number: TxnId,
    pub kind: BeginKind,
    pub limit: u64,
    pub amount: u64,
}

/// Returns whether a number is above those of all accounts.
fn is_above(accounts: &[Account], t: TxnId) -> bool
    requires { IsAscendingBy number accounts.now }
    ensures { IsTrue result → IsGapFor number accounts.now t.0 (length accounts.now) }
{
    match accounts.last() {
        Some(account) => account.number.0 < t.0,
        None => true,
    }
}

/// Returns the index of a transaction's account, or else the index at which to insert it. Most go to the end.
pub fn place_of(accounts: &[Account], t: TxnId) -> Result<usize, usize>
    requires { IsAscendingBy number accounts.now }
    ensures found { IfOk result (IsPlaceOf number accounts.now t.0) }
    ensures absent { IfErr result (IsGapFor number accounts.now t.0) }
{
    if is_above(accounts, t) {
        return Err(accounts.len());
    }
    accounts.binary_search_by_key(&t.0, |a| a.number.0)
}

/// Returns the index of a transaction's account by a search.
#[cold]
#[inline(never)]
fn search_account(accounts: &[Account], t: TxnId) -> usize
    requires ascending { IsAscendingBy number accounts.now }
    requires open { is_open accounts.now t.0 ≡ true }
    ensures { IsPlaceOf number accounts.now t.0 result }
{
    match place_of(accounts, t) {
        Ok(at) => at,
        Err(_) => unreachable!(),
    }
}

/// Returns the index of a transaction's account. Accounts are usually opened for 1, 2, 3 and so on, so it looks there
/// first. The search is a separate function, because a caller may leave numbers out, but most do not.
#[inline(always)]
fn index_of(accounts: &[Account], t: TxnId) -> usize
    requires ascending { IsAscendingBy number accounts.now }
    requires open { is_open accounts.now t.0 ≡ true }
    ensures { IsPlaceOf number accounts.now t.0 result }
{
    let dense = (t.0 as usize).wrapping_sub(1);
    if dense < accounts.len() && accounts[dense].number == t {
        return dense;
    }
    search_account(accounts, t)
}

/// Returns the account of a transaction.
#[inline(always)]
pub fn find_account(accounts: &[Account], t: TxnId) -> Account
    requires ascending { IsAscendingBy number accounts.now }
    requires open { is_open accounts.now t.0 ≡ true }
    ensures { account_of accounts.now t.0 ≡ Some result }
{
    accounts[index_of(accounts, t)]
}

/// Adds an amount to the account of a transaction.
#[inline(always)]
pub fn raise(accounts: &mut Vec<Account>, t: TxnId, amount: u64)
    requires ascending { IsAscendingBy number accounts.old.items }
    requires open { is_open accounts.old.items t.0 ≡ true }
    requires fits { account_amount accounts.old.items t.0 + amount < 2 ^ 64 }
    ensures { accounts.new.items ≡ raised t.0 amount accounts.old.items }
{
    let at = index_of(accounts, t);
    let account = &mut accounts[at];
    account.amount += amount;
}

/// Returns whether an additional amount would exceed the limit of a transaction. If not, adds the amount to its account. It
/// compares the amount with the unused part of the limit, and is inlined, because for a charge of 64 bits the compiler
/// then compares 64 bits.
#[inline(always)]
pub fn passes_or_raises(accounts: &mut Vec<Account>, t: TxnId, amount: u128) -> bool
    requires ascending { IsAscendingBy number accounts.old.items }
    requires within { AllByRecursion IsWithinLimit accounts.old.items }
    requires open { is_open accounts.old.items t.0 ≡ true }
    ensures passes { result ≡ would_pass accounts.old.items t.0 amount }
    ensures items { accounts.new.items
        ≡ (if result then accounts.old.items else raised t.0 amount accounts.old.items) }
{
    let at = index_of(accounts, t);
    let account = &mut accounts[at];
    if amount > u128::from(account.limit - account.amount) {
        return true;
    }
    account.amount += amount as u64;
    false
}

/// Subtracts an amount from the account of a transaction.
pub fn lower(accounts: &mut Vec<Account>, t: TxnId, amount: u64)
    requires ascending { IsAscendingBy number accounts.old.items }
    requires open { is_open accounts.old.items t.0 ≡ true }
    requires enough { amount ≤ account_amount accounts.old.items t.0 }
    ensures { accounts.new.items ≡ lowered t.0 amount accounts.old.items }
{
    let at = index_of(accounts, t);
    let account = &mut accounts[at];
    account.amount -= amount;
}
