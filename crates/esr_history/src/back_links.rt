//! Links each entry to earlier entries, of the same item and of the same transaction, each found in one step.
//!
//! The tables hold two entry indices for each entry, the last one for each item and transaction, and for each
//! transaction how and where it began and where it ended. The type of `History` guarantees that a scan of the log would
//! find the same. Because of them the cost of a step or an audit does not grow with unrelated entries. Links lead to
//! accepted entries only.
//!
//! A table stores an index plus 1 in 32 bits, and 0 for none. So `reserve` fails for an entry past 4,294,967,294, as if
//! an allocation failed; a machine's history is far shorter.
ghost use Rattle.esr_base.specs.declared.limits.TheConstants.{MAX_ITEMS};
ghost use Rattle.std.specs.Prelude.{◌≡◌, ◌+◌, ◌^◌, ◌<◌, ◌≤◌, ◌++◌, ◌∷◌, [], ℕ, List, length, slice_index_or, slice_set, IfOk, OnOk, vec_capacity};
ghost use Rattle.esr_history.specs.declared.event.Entry.{Entry};
ghost use Rattle.esr_history.specs.BackLinks.{with_key, txns_after, ends_after, begins_after, IsNumbered, item_of, begun_by, txn_of, key_at, decoded, AreLinks, IsFit, HasCapacity, HasCapacityToBegin, begun_count, last_place, earlier, facts_of, accepted_item, accepted_txn, item_in, txn_in};

use crate::event::{BeginKind, Entry, Event, Reply};
use std::alloc::{AllocError, Global};

/// How a transaction began, the index of its accepted begin, and that of its accepted commit or abort.
#[derive(Clone, Copy, PartialEq, Eq, Debug)]
pub struct Facts {
    pub query: bool,
    /// Whether it is a strict query.
    pub strict: bool,
    pub limit: u64,
    pub begin: u64,
    pub end: Option<u64>,
}

/// How a transaction began, and the code of the index of its begin, in 16 bytes.
#[derive(Clone, Copy)]
struct Begin {
    kind: BeginKind,
    strict: bool,
    code: u32,
    limit: u64,
}

/// For each entry the index of the previous accepted operation on the same item, and of the previous accepted entry of
/// the same transaction; for each item and each transaction the last such index; and how and where each transaction
/// began and where it ended. A table stores 0 for none, and each index plus 1.
#[derive(Drop)]
pub struct BackLinks {
    on_item: Vec<u32>,
    of_txn: Vec<u32>,
    items: Vec<u32>,
    txns: Vec<u32>,
    ends: Vec<u32>,
    begins: Vec<Begin>,
}

/// The number of entry indices that have a 32-bit code.
const MAX_CODES: usize = 4_294_967_295;

fn item_of(event: Event) -> Option<u32>
    ensures { result ≡ item_of event }
{
    match event {
        Event::Read { txn: _, item }
        | Event::Write {
            txn: _,
            item,
            value: _,
        } => Some(item.0),
        _ => None,
    }
}

fn begun_by(reply: Reply) -> Option<u32>
    ensures { result ≡ begun_by reply }
{
    match reply {
        Reply::Begun(t) => Some(t.0),
        _ => None,
    }
}

/// Returns the code that a table has at a key, or 0 without a key or if the key is out of range.
fn at_key(table: &[u32], key: Option<u32>) -> u32
    ensures { result ≡ key_at table.now key }
{
    match key {
        None => 0,
        Some(k) => table.get(k as usize).copied().unwrap_or(0),
    }
}

/// Sets the code at a key, if the key is in range.
fn set_key(table: &mut [u32], key: u32, code: u32)
    ensures { table.new ≡ slice_set table.old key code }
{
    if (key as usize) < table.len() {
        table[key as usize] = code;
    }
}

/// Replaces the code at a key and returns the old one. Returns 0 and changes nothing if the key is out of range.
#[inline(always)]
fn exchange(table: &mut [u32], key: u32, code: u32) -> u32
    ensures had { result ≡ slice_index_or table.old key 0 }
    ensures set { table.new ≡ slice_set table.old key code }
{
    if (key as usize) < table.len() {
        let had = table[key as usize];
        table[key as usize] = code;
        return had;
    }
    0
}

/// Returns the entry index that a code stands for, if any.
fn place(code: u32) -> Option<u64>
    ensures { result ≡ decoded code }
{
    if code == 0 {
        None
    } else {
        Some(u64::from(code - 1))
    }
}

/// Returns the spare capacity of a list, in elements.
pub fn spare<T>(list: &Vec<T>) -> usize
    ensures { length list.now.items + result ≡ vec_capacity list.now }
{
    list.capacity() - list.len()
}

impl BackLinks {
    /// Creates the tables of an empty log.
    pub fn new(alloc: Global, items: usize) -> Result<BackLinks, AllocError>
        requires { items ≤ MAX_ITEMS }
        ensures { IfOk result (λ l. AreLinks items [] l) }
    {
        let mut txns = Vec::new(alloc);
        txns.push(0)?;
        let mut ends = Vec::new(alloc);
        ends.push(0)?;
        Ok(BackLinks {
            on_item: Vec::new(alloc),
            of_txn: Vec::new(alloc),
            items: vec![in alloc; 0; items]?,
            txns,
            ends,
            begins: Vec::new(alloc),
        })
    }

    /// Reserves capacity for one more entry, whatever its event. Also fails if the next index has no 32-bit code. On an
    /// error the tables are unchanged.
    pub fn reserve(&mut self) -> Result<(), AllocError>
        ensures same { (n : ℕ) (es : List Entry) → AreLinks n es self.old → AreLinks n es self.new }
        ensures spare_capacity { (k : ℕ) → HasCapacity k self.old → HasCapacity k self.new }
        ensures ok { OnOk result (HasCapacity 1 self.new) }
    {
        if self.on_item.len() >= MAX_CODES {
            return Err(AllocError);
        }
        self.on_item.reserve(1)?;
        self.of_txn.reserve(1)?;
        self.txns.reserve(1)?;
        self.ends.reserve(1)?;
        self.begins.reserve(1)?;
        Ok(())
    }

    /// Returns for how many more entries there is capacity, whatever their events.
    pub fn spare_capacity(&self) -> usize
        requires { HasCapacity 0 self.now }
        ensures spare_capacity { HasCapacity result self.now }
        ensures some { HasCapacity 1 self.now → 0 < result }
    {
        let entries = spare(&self.on_item).min(spare(&self.of_txn));
        let begins = spare(&self.txns)
            .min(spare(&self.ends))
            .min(spare(&self.begins));
        entries.min(begins).min(MAX_CODES - self.on_item.len())
    }

    /// Leaves the tables of no entries, over as many items.
    pub fn clear(&mut self)
        ensures links { (n : ℕ) (es : List Entry) → AreLinks n es self.old → AreLinks n [] self.new }
        ensures spare_capacity { HasCapacity 0 self.old → HasCapacity 0 self.new }
    {
        self.on_item.clear();
        self.of_txn.clear();
        self.items.fill(0);
        self.txns.truncate(1);
        self.txns.fill(0);
        self.ends.truncate(1);
        self.ends.fill(0);
        self.begins.clear();
    }

    /// Notes an accepted begin.
    #[inline(always)]
    fn add_begin(&mut self, begin: Begin)
        requires { HasCapacityToBegin 1 self.old }
        ensures on_item { self.new.on_item ≡ self.old.on_item }
        ensures of_txn { self.new.of_txn ≡ self.old.of_txn }
        ensures items { self.new.items ≡ self.old.items }
        ensures txns { self.new.txns.items ≡ self.old.txns.items ++ begin.code ∷ [] }
        ensures ends { self.new.ends.items ≡ self.old.ends.items ++ 0 ∷ [] }
        ensures begins { self.new.begins.items ≡ self.old.begins.items ++ begin ∷ [] }
        ensures spare_capacity { (k : ℕ) → HasCapacityToBegin (k + 1) self.old → HasCapacityToBegin k self.new }
    {
        self.txns.push_reserved(begin.code);
        self.ends.push_reserved(0);
        self.begins.push_reserved(begin);
    }

    /// Records an accepted event with the code of its index, and returns the codes of the entries that it links to.
    /// Accesses each table once.
    #[inline(always)]
    fn note(&mut self, event: Event, reply: Reply, code: u32) -> (u32, u32)
        requires { HasCapacityToBegin 1 self.old }
        ensures item { result.0 ≡ key_at self.old.items.items (item_of event) }
        ensures txn { result.1 ≡ key_at self.old.txns.items (txn_of event reply) }
        ensures on_item { self.new.on_item ≡ self.old.on_item }
        ensures of_txn { self.new.of_txn ≡ self.old.of_txn }
        ensures items { self.new.items.items ≡ with_key self.old.items.items (item_of event) code }
        ensures txns { self.new.txns.items ≡ txns_after self.old.txns.items event code }
        ensures ends { self.new.ends.items ≡ ends_after self.old.ends.items event code }
        ensures begins { self.new.begins.items ≡ begins_after self.old.begins.items event code }
        ensures spare_capacity { (k : ℕ) → HasCapacityToBegin (k + 1) self.old → HasCapacityToBegin k self.new }
    {
        let begun = at_key(&self.txns, begun_by(reply));
        match event {
            Event::BeginUpdate { limit } => self.add_begin(Begin {
                kind: BeginKind::Update,
                strict: false,
                code,
                limit,
            }),
            Event::BeginQuery { limit, strict } => self.add_begin(Begin {
                kind: BeginKind::Query,
                strict,
                code,
                limit,
            }),
            Event::Read { txn, item }
            | Event::Write {
                txn,
                item,
                value: _,
            } => {
                let on_item = exchange(&mut self.items, item.0, code);
                return (on_item, exchange(&mut self.txns, txn.0, code));
            }
            Event::Commit { txn } | Event::Abort { txn } => {
                set_key(&mut self.ends, txn.0, code);
                return (0, exchange(&mut self.txns, txn.0, code));
            }
        }
        (0, begun)
    }

    /// Returns the codes of the entries that a new entry links to.
    fn last(&self, entry: Entry) -> (u32, u32)
        ensures item { result.0 ≡ key_at self.now.items.items (item_in entry) }
        ensures txn { result.1 ≡ key_at self.now.txns.items (txn_in entry) }
    {
        (
            at_key(&self.items, item_of(entry.event)),
            at_key(&self.txns, entry.txn().map(|t| t.0)),
        )
    }

    /// Appends the codes of an entry's links. The capacity must be reserved.
    #[inline(always)]
    fn link(&mut self, on_item: u32, of_txn: u32)
        requires item_capacity_left { length self.old.on_item.items < vec_capacity self.old.on_item }
        requires txn_capacity_left { length self.old.of_txn.items < vec_capacity self.old.of_txn }
        ensures on_item { self.new.on_item.items ≡ self.old.on_item.items ++ on_item ∷ [] }
        ensures of_txn { self.new.of_txn.items ≡ self.old.of_txn.items ++ of_txn ∷ [] }
        ensures item_capacity { vec_capacity self.new.on_item ≡ vec_capacity self.old.on_item }
        ensures txn_capacity { vec_capacity self.new.of_txn ≡ vec_capacity self.old.of_txn }
        ensures items { self.new.items ≡ self.old.items }
        ensures txns { self.new.txns ≡ self.old.txns }
        ensures ends { self.new.ends ≡ self.old.ends }
        ensures begins { self.new.begins ≡ self.old.begins }
    {
        self.on_item.push_reserved(on_item);
        self.of_txn.push_reserved(of_txn);
    }

    /// Adds an entry. The capacity must be reserved.
    #[inline(always)]
    pub fn add(&mut self, entry: Entry)
        requires { HasCapacity 1 self.old }
        ensures links { (n : ℕ) (es : List Entry) → AreLinks n es self.old → IsFit n es
            → IsNumbered es entry.event entry.reply → AreLinks n (es ++ entry ∷ []) self.new }
        ensures spare_capacity { (k : ℕ) → HasCapacity (k + 1) self.old → HasCapacity k self.new }
    {
        if entry.is_refused() {
            let (on_item, of_txn) = self.last(entry);
            self.link(on_item, of_txn);
            return;
        }
        let code = self.on_item.len() as u32 + 1;
        let (on_item, of_txn) = self.note(entry.event, entry.reply, code);
        self.link(on_item, of_txn);
    }

    /// Returns the index of the previous accepted operation on the same item as the entry at an index.
    pub fn earlier_on_item(&self, i: u64) -> Option<u64>
        ensures { (n : ℕ) (es : List Entry) → AreLinks n es self.now → result ≡ earlier accepted_item item_in es i }
    {
        place(at(&self.on_item, i))
    }

    /// Returns the index of the previous accepted entry of the same transaction as the entry at an index.
    pub fn earlier_of_txn(&self, i: u64) -> Option<u64>
        ensures { (n : ℕ) (es : List Entry) → AreLinks n es self.now → result ≡ earlier accepted_txn txn_in es i }
    {
        place(at(&self.of_txn, i))
    }

    /// Returns the index of the last accepted operation on an item.
    pub fn last_on_item(&self, x: u32) -> Option<u64>
        ensures { (n : ℕ) (es : List Entry) → AreLinks n es self.now → IsFit n es
            → result ≡ last_place accepted_item x es }
    {
        place(at_key(&self.items, Some(x)))
    }

    /// Returns the index of the last accepted entry of a transaction.
    pub fn last_of_txn(&self, t: u32) -> Option<u64>
        ensures { (n : ℕ) (es : List Entry) → AreLinks n es self.now → IsFit n es
            → result ≡ last_place accepted_txn t es }
    {
        place(at_key(&self.txns, Some(t)))
    }

    /// Returns how many transactions have begun.
    pub fn begun_count(&self) -> usize
        ensures { (n : ℕ) (es : List Entry) → AreLinks n es self.now → result ≡ begun_count es }
    {
        self.begins.len()
    }

    /// Returns how and where a transaction began and where it ended, if it has begun.
    pub fn facts(&self, t: u32) -> Option<Facts>
        ensures { (n : ℕ) (es : List Entry) → AreLinks n es self.now → IsFit n es → result ≡ facts_of es t }
    {
        if t == 0 {
            return None;
        }
        match self.begins.get(t as usize - 1) {
            None => None,
            Some(begin) => Some(Facts {
                query: begin.kind.is_query(),
                strict: begin.strict,
                limit: begin.limit,
                begin: place(begin.code).unwrap_or(0),
                end: place(at_key(&self.ends, Some(t))),
            }),
        }
    }
}

/// Returns the number at an index of a table, or 0 past its end.
fn at(table: &[u32], i: u64) -> u32
    ensures { result ≡ slice_index_or table.now i 0 }
{
    table.get(i as usize).copied().unwrap_or(0)
}
