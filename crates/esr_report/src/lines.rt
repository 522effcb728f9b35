//! The lines of a report. A line is appended whole or not at all, so the output before a fault consists of whole
//! lines.

ghost use Rattle.std.specs.Prelude.{◌≡◌, ◌≤◌, [], ◌++◌, ◌∷◌, OnOk, OnErr, IsOk, map, take, length};
ghost use Rattle.std.specs.List.{join_with_byte};
ghost use Rattle.esr_base.specs.Watch.{BeginsWith};
ghost use Rattle.esr_report.specs.Lines.{refused, blocked, line, item_line, weighted_item_line, session_line, begun_line, value_line, wrote_line, refusal_line, reply_line, totals_line, listed, audit_line, names_line, order_line, error_text, error_line};
ghost use Rattle.esr_report.specs.Subjects.{named_by};
ghost use Rattle.esr_report.specs.Names.{name_of_transaction};

use crate::names::NamesByPosition;
use esr_history::{Refusal, Reply, TxnId};
use std::alloc::AllocError;

/// The error of a line that makes no event.
#[derive(Clone, Copy)]
pub enum LineError {
    NotACommand,
    ItemsAreClosed,
    NameInUse,
    ValueOutOfRange,
    TooManyItems,
    NotACommittedQuery,
    WeightOutOfRange,
}

impl LineError {
    /// Returns the error's number and message, which are its line.
    pub fn text(self) -> &'static str
        ensures { result.now ≡ error_text self }
    {
        match self {
            LineError::NotACommand => "error 1 not a command",
            LineError::ItemsAreClosed => "error 2 items are closed",
            LineError::NameInUse => "error 3 name in use",
            LineError::ValueOutOfRange => "error 4 value out of range",
            LineError::TooManyItems => "error 5 too many items",
            LineError::NotACommittedQuery => "error 6 not a committed query",
            LineError::WeightOutOfRange => "error 7 weight out of range",
        }
    }
}

/// The names in an event, for the line of its reply: a transaction, an item and a value to write, if it has them.
#[derive(Clone, Copy)]
pub struct ReplyNames<'a> {
    pub txn: &'a str,
    pub item: &'a str,
    pub value: i64,
}

/// Appends a separator byte, and a word.
#[inline(always)]
fn push_separated(out: &mut Vec<u8>, byte: u8, word: &str) -> Result<(), AllocError>
    ensures ok { OnOk result (out.new.items ≡ out.old.items ++ byte ∷ word.now) }
    ensures kept { BeginsWith out.new.items out.old.items }
{
    out.push(byte)?;
    out.extend_from_slice(word.as_bytes())
}

/// Appends words separated by single spaces.
#[inline(always)]
fn push_words(out: &mut Vec<u8>, first: &str, rest: &[&str]) -> Result<(), AllocError>
    ensures ok { OnOk result (out.new.items ≡ out.old.items
        ++ join_with_byte 32 (first.now ∷ map (λ word. word.now) rest.now)) }
    ensures kept { BeginsWith out.new.items out.old.items }
{
    out.extend_from_slice(first.as_bytes())?;
    for word in rest {
        push_separated(out, b' ', word)?;
    }
    Ok(())
}

/// Ends a line that begins at the mark, or removes it if an allocation failed.
fn end_line(
    out: &mut Vec<u8>,
    mark: usize,
    appended: Result<(), AllocError>,
) -> Result<(), AllocError>
    requires { mark ≤ length out.old.items }
    ensures whole { OnOk result (IsOk appended) }
    ensures ok { OnOk result (out.new.items ≡ out.old.items ++ 10 ∷ []) }
    ensures err { OnErr result (out.new.items ≡ take mark out.old.items) }
{
    if appended.is_ok() && out.push(b'\n').is_ok() {
        return Ok(());
    }
    out.truncate(mark);
    Err(AllocError)
}

/// Appends a line of words separated by single spaces.
#[inline(always)]
pub fn push_line(out: &mut Vec<u8>, first: &str, rest: &[&str]) -> Result<(), AllocError>
    ensures ok { OnOk result (out.new.items ≡ out.old.items ++ line (first.now ∷ map (λ word. word.now) rest.now)) }
    ensures err { OnErr result (out.new.items ≡ out.old.items) }
{
    let mark = out.len();
    let words = push_words(out, first, rest);
    end_line(out, mark, words)
}

/// Appends the line of a declared item.
pub fn item_line(out: &mut Vec<u8>, name: &str, value: i64) -> Result<(), AllocError>
    ensures ok { OnOk result (out.new.items ≡ out.old.items ++ item_line name.now value) }
    ensures err { OnErr result (out.new.items ≡ out.old.items) }
{
    let mut digits = itoa::Buffer::new();
    push_line(out, "item", &[name, digits.format(value)])
}

/// Appends the line of a declared item with its weight.
pub fn weighted_item_line(
    out: &mut Vec<u8>,
    name: &str,
    value: i64,
    weight: u64,
) -> Result<(), AllocError>
    ensures ok { OnOk result (out.new.items ≡ out.old.items ++ weighted_item_line name.now value weight) }
    ensures err { OnErr result (out.new.items ≡ out.old.items) }
{
    let mut value_digits = itoa::Buffer::new();
    let mut weight_digits = itoa::Buffer::new();
    let words = [
        name,
        value_digits.format(value),
        "weight",
        weight_digits.format(weight),
    ];
    push_line(out, "item", &words)
}

/// Appends the first line of a session's replies.
pub fn session_line(out: &mut Vec<u8>, number: u64) -> Result<(), AllocError>
    ensures ok { OnOk result (out.new.items ≡ out.old.items ++ session_line number) }
    ensures err { OnErr result (out.new.items ≡ out.old.items) }
{
    let mut digits = itoa::Buffer::new();
    push_line(out, "session", &[digits.format(number)])
}

fn begun_line(out: &mut Vec<u8>, name: &str, number: TxnId) -> Result<(), AllocError>
    ensures ok { OnOk result (out.new.items ≡ out.old.items ++ begun_line name.now number.0) }
    ensures err { OnErr result (out.new.items ≡ out.old.items) }
{
    let mut digits = itoa::Buffer::new();
    push_line(out, "begun", &[name, digits.format(number.0)])
}

fn value_line(out: &mut Vec<u8>, txn: &str, item: &str, value: i64) -> Result<(), AllocError>
    ensures ok { OnOk result (out.new.items ≡ out.old.items ++ value_line txn.now item.now value) }
    ensures err { OnErr result (out.new.items ≡ out.old.items) }
{
    let mut digits = itoa::Buffer::new();
    push_line(out, txn, &[item, digits.format(value)])
}

fn wrote_line(out: &mut Vec<u8>, txn: &str, item: &str, value: i64) -> Result<(), AllocError>
    ensures ok { OnOk result (out.new.items ≡ out.old.items ++ wrote_line txn.now item.now value) }
    ensures err { OnErr result (out.new.items ≡ out.old.items) }
{
    let mut digits = itoa::Buffer::new();
    push_line(out, "wrote", &[txn, item, digits.format(value)])
}

/// Returns the name of a transaction, whose number is one more than its name's position.
pub fn name_of_transaction<N: NamesByPosition>(names: &N, txn: TxnId) -> &str
    ensures { result.now ≡ name_of_transaction (N.names names.now) txn.0 }
{
    match names.name_at(txn.0.saturating_sub(1)) {
        Some(name) => name,
        None => "",
    }
}

/// Appends the line of an event that was refused.
fn push_refused(out: &mut Vec<u8>, number: u32, words: &str) -> Result<(), AllocError>
    ensures ok { OnOk result (out.new.items ≡ out.old.items ++ refused number words.now) }
    ensures err { OnErr result (out.new.items ≡ out.old.items) }
{
    let mut digits = itoa::Buffer::new();
    push_line(out, "refused", &[digits.format(number), words])
}

/// Appends the line of an event that was blocked by what the transaction holds.
fn push_blocked(out: &mut Vec<u8>, number: u32, words: &str, name: &str) -> Result<(), AllocError>
    ensures ok { OnOk result (out.new.items ≡ out.old.items ++ blocked number words.now name.now) }
    ensures err { OnErr result (out.new.items ≡ out.old.items) }
{
    let mut digits = itoa::Buffer::new();
    push_line(out, "blocked", &[digits.format(number), words, name])
}

/// Appends the line of a refusal. The names are those of the transactions, in the
/// order of their numbers.
pub fn refusal_line<N: NamesByPosition>(
    out: &mut Vec<u8>,
    names: &N,
    why: Refusal,
) -> Result<(), AllocError>
    ensures ok { OnOk result (out.new.items ≡ out.old.items ++ refusal_line (N.names names.now) why) }
    ensures err { OnErr result (out.new.items ≡ out.old.items) }
{
    match why.blocker() {
        None => push_refused(out, why.number(), why.words()),
        Some(txn) => {
            let name = name_of_transaction(names, txn);
            push_blocked(out, why.number(), why.words(), name)
        }
    }
}

/// Appends the line of the machine's reply to an event that names the subject. The
/// names are those of the transactions, in the order of their numbers.
pub fn reply_line<N: NamesByPosition>(
    out: &mut Vec<u8>,
    names: &N,
    subject: ReplyNames<'_>,
    reply: Reply,
) -> Result<(), AllocError>
    ensures ok { OnOk result (out.new.items ≡ out.old.items
        ++ reply_line (N.names names.now) (named_by subject.entry) reply) }
    ensures err { OnErr result (out.new.items ≡ out.old.items) }
{
    match reply {
        Reply::Begun(number) => begun_line(out, subject.txn, number),
        Reply::Value(value) => value_line(out, subject.txn, subject.item, value),
        Reply::Wrote => wrote_line(out, subject.txn, subject.item, subject.value),
        Reply::Committed => push_line(out, "committed", &[subject.txn]),
        Reply::Aborted => push_line(out, "aborted", &[subject.txn]),
        Reply::Refused(why) => refusal_line(out, names, why),
    }
}

/// Appends the line of the totals of all imports and of all exports, and of the
/// length of the history.
pub fn totals_line(
    out: &mut Vec<u8>,
    imports: u128,
    exports: u128,
    entries: u64,
) -> Result<(), AllocError>
    ensures ok { OnOk result (out.new.items ≡ out.old.items ++ totals_line imports exports entries) }
    ensures err { OnErr result (out.new.items ≡ out.old.items) }
{
    let mut import_digits = itoa::Buffer::new();
    let mut export_digits = itoa::Buffer::new();
    let mut entry_digits = itoa::Buffer::new();
    let words = [
        import_digits.format(imports),
        "export",
        export_digits.format(exports),
        "entries",
        entry_digits.format(entries),
    ];
    push_line(out, "totals import", &words)
}

/// Appends the names of transactions separated by commas, or a minus for the empty list.
fn push_names<N: NamesByPosition>(
    out: &mut Vec<u8>,
    names: &N,
    txns: &[TxnId],
) -> Result<(), AllocError>
    ensures ok { OnOk result (out.new.items ≡ out.old.items ++ listed (N.names names.now) (map (λ t. t.0) txns.now)) }
    ensures kept { BeginsWith out.new.items out.old.items }
{
    let Some((first, rest)) = txns.split_first() else {
        out.push(b'-')?;
        return Ok(());
    };
    out.extend_from_slice(name_of_transaction(names, *first).as_bytes())?;
    for txn in rest {
        push_separated(out, b',', name_of_transaction(names, *txn))?;
    }
    Ok(())
}

/// Appends words and the names of transactions.
#[tactic(auto, using(crate::proofs::Joins::one_separated))]
fn push_listed<N: NamesByPosition>(
    out: &mut Vec<u8>,
    first: &str,
    rest: &[&str],
    names: &N,
    txns: &[TxnId],
) -> Result<(), AllocError>
    ensures ok { OnOk result (out.new.items ≡ out.old.items ++ join_with_byte 32 (first.now
        ∷ map (λ word. word.now) rest.now ++ listed (N.names names.now) (map (λ t. t.0) txns.now) ∷ [])) }
    ensures kept { BeginsWith out.new.items out.old.items }
{
    push_words(out, first, rest)?;
    out.push(b' ')?;
    push_names(out, names, txns)
}

/// Appends the line of a query's finding: its distance, its import, and the updates before its position. The names
/// are those of the transactions, in the order of their numbers.
pub fn audit_line<N: NamesByPosition>(
    out: &mut Vec<u8>,
    names: &N,
    txn: &str,
    distance: u64,
    import: u64,
    before: &[TxnId],
) -> Result<(), AllocError>
    ensures ok { OnOk result (out.new.items ≡ out.old.items
        ++ audit_line (N.names names.now) txn.now distance import (map (λ t. t.0) before.now)) }
    ensures err { OnErr result (out.new.items ≡ out.old.items) }
{
    let mut distance_digits = itoa::Buffer::new();
    let mut import_digits = itoa::Buffer::new();
    let words = [
        txn,
        "distance",
        distance_digits.format(distance),
        "import",
        import_digits.format(import),
        "before",
    ];
    let mark = out.len();
    let listed = push_listed(out, "audit", &words, names, before);
    end_line(out, mark, listed)
}

/// Appends a line of a word and the names of transactions, separated by commas, or a minus for the empty list. The
/// names are those of the transactions, in the order of their numbers.
pub fn names_line<N: NamesByPosition>(
    out: &mut Vec<u8>,
    first: &str,
    names: &N,
    txns: &[TxnId],
) -> Result<(), AllocError>
    ensures ok { OnOk result (out.new.items ≡ out.old.items
        ++ names_line first.now (N.names names.now) (map (λ t. t.0) txns.now)) }
    ensures err { OnErr result (out.new.items ≡ out.old.items) }
{
    let mark = out.len();
    let listed = push_listed(out, first, &[], names, txns);
    end_line(out, mark, listed)
}

/// Appends the line of the committed updates in a serial order. The names are those of the
/// transactions, in the order of their numbers.
pub fn order_line<N: NamesByPosition>(
    out: &mut Vec<u8>,
    names: &N,
    txns: &[TxnId],
) -> Result<(), AllocError>
    ensures ok { OnOk result (out.new.items ≡ out.old.items
        ++ order_line (N.names names.now) (map (λ t. t.0) txns.now)) }
    ensures err { OnErr result (out.new.items ≡ out.old.items) }
{
    names_line(out, "order", names, txns)
}

/// Appends the line of the error of a line that makes no event.
pub fn error_line(out: &mut Vec<u8>, error: LineError) -> Result<(), AllocError>
    ensures ok { OnOk result (out.new.items ≡ out.old.items ++ error_line error) }
    ensures err { OnErr result (out.new.items ≡ out.old.items) }
{
    push_line(out, error.text(), &[])
}
