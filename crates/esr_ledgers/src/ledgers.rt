//! The accounts together, their quotes and their charges.
//!
//! One field holds both totals, because the invariant makes them equal. Sums that could overflow 64 bits use 128 bits.

ghost use Rattle.std.specs.Prelude.{List, ◌≡◌, ◌+◌, ◌<◌, ◌≤◌, ◌^◌, [], true, false, All, None, Some, IfOk, IfErr, OnOk, OnErr, find, length, take};
ghost use Rattle.std.specs.List.{AllByRecursion, insert};
ghost use Rattle.esr_history.specs.Ascending.{IsAscendingBy};
ghost use Rattle.esr_ledgers.specs.declared.account.Account.{Account};
ghost use Rattle.esr_ledgers.specs.Books.{number, is_open, is_open_query, is_open_update, account_amount, new_account, with_account, total_of, would_pass, quote_of, charged_to_queries, charged, AreCharges, IsWithinLimit, imports, exports, booked};

use crate::account::{Account, find_account, lower, passes_or_raises, place_of, raise};
use esr_history::{BeginKind, NoMemory, TxnId};
use std::alloc::{AllocError, Global};
use std::marker::Model;

/// Whether an update may be charged.
#[derive(Clone, Copy, PartialEq, Eq)]
pub enum Quote {
    /// No limit would be passed.
    Fits,
    /// The import of this query would pass its limit. It is the first such of the list.
    Import(TxnId),
    /// The export of this update would pass its limit.
    Export(TxnId),
}

/// The imports of queries and the exports of updates. No limit is ever passed, and as much is
/// imported as is exported, all together.
#[derive(Drop)]
pub struct Ledgers {
    accounts: Vec<Account>,
    total: u128,
}

impl Model for Ledgers {
    ghost use Rattle.std.specs.Prelude.{List};
    ghost use Rattle.esr_ledgers.specs.declared.account.Account.{Account};
    ghost use Rattle.esr_ledgers.specs.Books.{AreBooks};

    ghost Value = { List Account };

    ghost view = { λ l. l.accounts.items };

    ghost invariant = { λ l. AreBooks l.accounts.items l.total };
}

/// Returns whether an additional amount would exceed the limit of a transaction. It compares the amount with the unused part
/// of the limit, and is inlined, because for a charge of 64 bits the compiler then compares 64 bits.
#[inline(always)]
fn passes(accounts: &[Account], t: TxnId, amount: u128) -> bool
    requires ascending { IsAscendingBy number accounts.now }
    requires within { AllByRecursion IsWithinLimit accounts.now }
    requires open { is_open accounts.now t.0 ≡ true }
    ensures { result ≡ would_pass accounts.now t.0 amount }
{
    let account = find_account(accounts, t);
    amount > u128::from(account.limit - account.amount)
}

/// Returns the sum of some charges, or else the first whose query's limit would be exceeded.
fn total_within(accounts: &[Account], charges: &[(TxnId, u64)]) -> Result<u128, (TxnId, u64)>
    requires ascending { IsAscendingBy number accounts.now }
    requires within { AllByRecursion IsWithinLimit accounts.now }
    requires queries { All (λ c. is_open accounts.now c.0.0 ≡ true) charges.now }
    ensures over { IfErr result (λ c. find (λ c. would_pass accounts.now c.0.0 c.1) charges.now ≡ Some c) }
    ensures none_over { OnOk result (find (λ c. would_pass accounts.now c.0.0 c.1) charges.now ≡ None) }
    ensures sum { IfOk result (λ total. total ≡ total_of charges.now) }
{
    let mut total: u128 = 0;
    for charge in charges {
        if passes(accounts, charge.0, u128::from(charge.1)) {
            return Err(*charge);
        }
        total += u128::from(charge.1);
    }
    Ok(total)
}

/// Inserts an account in ascending order. Most go to the end, so that none is moved.
#[inline(always)]
fn put_account(accounts: &mut Vec<Account>, at: usize, account: Account) -> Result<(), AllocError>
    requires { at ≤ length accounts.old.items }
    ensures ok { OnOk result (accounts.new.items ≡ insert accounts.old.items at account) }
    ensures err { OnErr result (accounts.new.items ≡ accounts.old.items) }
{
    if at == accounts.len() {
        accounts.reserve(1)?;
        accounts.push_reserved(account);
        return Ok(());
    }
    match accounts.insert(at, account) {
        Ok(()) => Ok(()),
        Err(_) => Err(AllocError),
    }
}

/// Adds each amount to the account of its query. Returns their sum.
fn import_each(accounts: &mut Vec<Account>, charges: &[(TxnId, u64)]) -> u128
    requires ascending { IsAscendingBy number accounts.old.items }
    requires queries { All (λ c. is_open accounts.old.items c.0.0 ≡ true) charges.now }
    requires listed { IsAscendingBy (λ c. c.0.0) charges.now }
    requires fits { All (λ c. account_amount accounts.old.items c.0.0 + c.1 < 2 ^ 64) charges.now }
    ensures items { accounts.new.items ≡ charged_to_queries accounts.old.items charges.now }
    ensures ascending { IsAscendingBy number accounts.new.items }
    ensures sum { result ≡ total_of charges.now }
    ensures upper_bound { result < 2 ^ 127 }
{
    let mut imported: u128 = 0;
    for charge in charges {
        raise(accounts, charge.0, charge.1);
        imported += u128::from(charge.1);
    }
    imported
}

/// Subtracts the amounts of the first `count` charges, which were added, from the accounts of their queries.
#[cold]
#[inline(never)]
fn undo_imports(accounts: &mut Vec<Account>, charges: &[(TxnId, u64)], count: usize)
    requires count { count ≤ length charges.now }
    requires added { (before : List Account) × (IsAscendingBy number before)
        × (All (λ c. is_open before c.0.0 ≡ true) charges.now)
        × (accounts.old.items ≡ charged_to_queries before (take count charges.now)) }
    ensures { (before : List Account) → accounts.old.items ≡ charged_to_queries before (take count charges.now)
        → accounts.new.items ≡ before }
{
    for i in (0..count).rev() {
        let (q, amount) = charges[i];
        lower(accounts, q, amount);
    }
}

/// Adds each amount to the account of its query, and returns their sum. If the limit of a query would be exceeded, changes
/// nothing, and returns the first such charge. Each account is found once, because few charges are refused.
#[inline(always)]
fn import_within(
    accounts: &mut Vec<Account>,
    charges: &[(TxnId, u64)],
) -> Result<u128, (TxnId, u64)>
    requires ascending { IsAscendingBy number accounts.old.items }
    requires within { AllByRecursion IsWithinLimit accounts.old.items }
    requires queries { All (λ c. is_open accounts.old.items c.0.0 ≡ true) charges.now }
    requires listed { IsAscendingBy (λ c. c.0.0) charges.now }
    ensures over { IfErr result (λ c. find (λ c. would_pass accounts.old.items c.0.0 c.1) charges.now ≡ Some c) }
    ensures unchanged { OnErr result (accounts.new.items ≡ accounts.old.items) }
    ensures none_over { OnOk result (find (λ c. would_pass accounts.old.items c.0.0 c.1) charges.now ≡ None) }
    ensures items { OnOk result (accounts.new.items ≡ charged_to_queries accounts.old.items charges.now) }
    ensures ascending { OnOk result (IsAscendingBy number accounts.new.items) }
    ensures within { OnOk result (AllByRecursion IsWithinLimit accounts.new.items) }
    ensures sum { IfOk result (λ total. total ≡ total_of charges.now) }
    ensures upper_bound { IfOk result (λ total. total < 2 ^ 127) }
{
    let mut total: u128 = 0;
    for i in 0..charges.len() {
        let (q, amount) = charges[i];
        if passes_or_raises(accounts, q, u128::from(amount)) {
            undo_imports(accounts, charges, i);
            return Err((q, amount));
        }
        total += u128::from(amount);
    }
    Ok(total)
}

impl Ledgers {
    /// Ledgers with no account.
    pub fn new(alloc: Global) -> Ledgers
        ensures { result ≡ [] }
    {
        Ledgers {
            accounts: Vec::new(alloc),
            total: 0,
        }
    }

    /// Tries to reserve capacity for `accounts` more accounts. A failed allocation is ignored.
    pub fn prepare(&mut self, accounts: usize)
        ensures { self.new ≡ self.old }
    {
        let _ = self.accounts.reserve(accounts);
    }

    /// Opens the account of a query, which may import up to this limit.
    #[inline(always)]
    pub fn open_query(&mut self, q: TxnId, limit: u64) -> Result<(), NoMemory>
        requires { is_open self.old q.0 ≡ false }
        ensures ok { OnOk result (self.new ≡ with_account self.old (new_account BeginKind.Query q limit)) }
        ensures err { OnErr result (self.new ≡ self.old) }
    {
        self.open(BeginKind::Query, q, limit)
    }

    /// Opens the account of an update, which may export up to this limit.
    #[inline(always)]
    pub fn open_update(&mut self, u: TxnId, limit: u64) -> Result<(), NoMemory>
        requires { is_open self.old u.0 ≡ false }
        ensures ok { OnOk result (self.new ≡ with_account self.old (new_account BeginKind.Update u limit)) }
        ensures err { OnErr result (self.new ≡ self.old) }
    {
        self.open(BeginKind::Update, u, limit)
    }

    #[inline(always)]
    fn open(&mut self, kind: BeginKind, number: TxnId, limit: u64) -> Result<(), NoMemory>
        requires { is_open self.old number.0 ≡ false }
        ensures ok { OnOk result (self.new ≡ with_account self.old (new_account kind number limit)) }
        ensures err { OnErr result (self.new ≡ self.old) }
    {
        let at = match place_of(&self.accounts, number) {
            Ok(_) => unreachable!(),
            Err(at) => at,
        };
        let account = Account {
            number,
            kind,
            limit,
            amount: 0,
        };
        if put_account(&mut self.accounts, at, account).is_err() {
            return Err(NoMemory);
        }
        Ok(())
    }

    /// Returns whether an account belongs to a query.
    pub fn is_query(&self, t: TxnId) -> bool
        requires { is_open self.now t.0 ≡ true }
        ensures { result ≡ is_open_query self.now t.0 }
    {
        find_account(&self.accounts, t).kind.is_query()
    }

    /// Returns whether the charges of an update fit all limits, or else the transaction whose limit they exceed.
    pub fn quote(&self, u: TxnId, charges: &[(TxnId, u64)]) -> Quote
        requires { AreCharges self.now u charges.now }
        ensures { result ≡ quote_of self.now u charges.now }
    {
        let total = match total_within(&self.accounts, charges) {
            Ok(total) => total,
            Err((q, _)) => return Quote::Import(q),
        };
        if passes(&self.accounts, u, total) {
            Quote::Export(u)
        } else {
            Quote::Fits
        }
    }

    /// Adds each amount to the import of its query, and their sum to the export of the update.
    pub fn charge(&mut self, u: TxnId, charges: &[(TxnId, u64)])
        requires charges { AreCharges self.old u charges.now }
        requires fits { quote_of self.old u charges.now ≡ Quote.Fits }
        ensures { self.new ≡ charged self.old u charges.now }
    {
        let total = import_each(&mut self.accounts, charges);
        raise(&mut self.accounts, u, total as u64);
        self.total += total;
    }

    /// Returns whether the charges of an update fit all limits, or else the transaction whose limit they exceed, like
    /// `quote`. If they fit, adds them, like `charge`. Otherwise it changes nothing.
    #[inline(always)]
    pub fn try_charge(&mut self, u: TxnId, charges: &[(TxnId, u64)]) -> Quote
        requires { AreCharges self.old u charges.now }
        ensures quote { result ≡ quote_of self.old u charges.now }
        ensures ledgers { self.new ≡ booked result self.old u charges.now }
    {
        let total = match import_within(&mut self.accounts, charges) {
            Ok(total) => total,
            Err((q, _)) => return Quote::Import(q),
        };
        if passes_or_raises(&mut self.accounts, u, total) {
            undo_imports(&mut self.accounts, charges, charges.len());
            return Quote::Export(u);
        }
        self.total += total;
        Quote::Fits
    }

    /// Returns the amount that a query has imported.
    pub fn import(&self, q: TxnId) -> u64
        requires { is_open_query self.now q.0 ≡ true }
        ensures { result ≡ account_amount self.now q.0 }
    {
        find_account(&self.accounts, q).amount
    }

    /// Returns the amount that an update has exported.
    pub fn export(&self, u: TxnId) -> u64
        requires { is_open_update self.now u.0 ≡ true }
        ensures { result ≡ account_amount self.now u.0 }
    {
        find_account(&self.accounts, u).amount
    }

    /// Returns the total imports of all queries, and the total exports of all updates.
    pub fn totals(&self) -> (u128, u128)
        ensures import { result.0 ≡ imports self.now }
        ensures export { result.1 ≡ exports self.now }
        ensures agree { imports self.now ≡ exports self.now }
        ensures limits { All (λ a. a.amount ≤ a.limit) self.now }
    {
        (self.total, self.total)
    }
}
