//! Compares receipts with a history: each entry must be named by exactly one receipt, with its event and reply.
//!
//! The lists are scanned in order, with a mark for each entry, so the time is linear in the number of receipts. The
//! trait `HasReceipts` lets a close compare the receipts of its sessions in place.
ghost use Rattle.std.specs.Prelude.{◌≡◌, List, ◌+◌, ◌<◌, ◌≤◌, ◌↔◌, ◌++◌, [], false, IsTrue, length, map, slice_index_or, vec_len, MatchOption, OnOk, IfOk, IfErr, IfSome, IfNone};
ghost use Rattle.esr_session.specs.Receipts.{IsVerdict, count_in, receipts_in, ValidFrom, IsForeignIn, Matches, Names};
ghost use Rattle.esr_session.specs.declared.receipt.Receipt.{Receipt};
ghost use Rattle.esr_session.specs.Marks.{AreMarked};

use crate::receipt::{CloseError, Receipt};
use esr_history::{Entry, Event, History, Reply};
use esr_items::Metric;
use std::alloc::{AllocError, Global};

/// Compares receipts with a history. Returns `Ok` if and only if each entry is named by exactly one receipt, each
/// receipt has its entry's event and reply, and within each list the entry indices ascend.
///
/// # Errors
/// `SessionMissing` if and only if there are fewer receipts than entries; otherwise `ForeignReceipt` with the first
/// receipt, list by list, that does not match; `NoMemory` if an allocation failed.
pub fn match_receipts<M: Metric>(
    alloc: Global,
    history: &History<M>,
    lists: &[Vec<Receipt>],
) -> Result<(), CloseError>
    ensures verdict { IsVerdict history.now.schedule.entries (map (λ list. list.items) lists.now) result }
    ensures exact { IfErr result (λ error.
        Matches history.now.schedule.entries (map (λ list. list.items) lists.now) → error ≡ CloseError.NoMemory) }
    ensures every_entry { OnOk result (length history.now.schedule.entries
        ≡ count_in (map (λ list. list.items) lists.now)) }
{
    match_all(alloc, history, lists)
}

/// A type that has a list of receipts.
pub trait HasReceipts {
    ghost receipts: { Self → List Receipt };

    fn receipts(&self) -> &[Receipt]
        ensures { result.now ≡ receipts self.now };
}

impl HasReceipts for Vec<Receipt> {
    ghost receipts = { λ list. list.items };

    fn receipts(&self) -> &[Receipt] {
        self.as_slice()
    }
}

/// Like `match_receipts`, but for any type that has receipts. They are compared in place.
pub(crate) fn match_all<M: Metric, L: HasReceipts>(
    alloc: Global,
    history: &History<M>,
    lists: &[L],
) -> Result<(), CloseError>
    ensures verdict { IsVerdict history.now.schedule.entries (map L.receipts lists.now) result }
    ensures exact { IfErr result (λ error. Matches history.now.schedule.entries (map L.receipts lists.now)
        → error ≡ CloseError.NoMemory) }
    ensures every_entry { OnOk result (length history.now.schedule.entries ≡ count_in (map L.receipts lists.now)) }
{
    let total = history.log().len();
    if let Some(gathered) = count_below(lists, total) {
        return Err(CloseError::SessionMissing {
            gathered: gathered as u64,
            total: total as u64,
        });
    }
    let Ok(mut marks) = no_marks(alloc, total) else {
        return Err(CloseError::NoMemory);
    };
    for i in 0..lists.len() {
        if let Some(foreign) = match_list(history, &mut marks, &lists[..i], lists[i].receipts()) {
            return Err(CloseError::ForeignReceipt(foreign));
        }
    }
    Ok(())
}

/// Creates n cleared marks.
fn no_marks(alloc: Global, n: usize) -> Result<Vec<bool>, AllocError>
    ensures len { IfOk result (λ marks. vec_len marks ≡ n) }
    ensures none { IfOk result (λ marks. AreMarked [] marks.items) }
{
    Vec::from_elem(alloc, false, n)
}

/// Returns the first bad receipt of a list, after the lists that are done.
fn match_list<M: Metric, L: HasReceipts>(
    history: &History<M>,
    marks: &mut Vec<bool>,
    done: &[L],
    list: &[Receipt],
) -> Option<Receipt>
    requires len { vec_len marks.old ≡ length history.now.schedule.entries }
    requires marked { AreMarked (receipts_in (map L.receipts done.now)) marks.old.items }
    ensures len { vec_len marks.new ≡ vec_len marks.old }
    ensures good { IfNone result (ValidFrom history.now.schedule.entries
        (receipts_in (map L.receipts done.now)) 0 list.now) }
    ensures marked { IfNone result (AreMarked (receipts_in (map L.receipts done.now) ++ list.now) marks.new.items) }
    ensures foreign { IfSome result (IsForeignIn history.now.schedule.entries
        (receipts_in (map L.receipts done.now)) list.now) }
{
    let mut low = 0;
    for r in list {
        if !is_good(history, marks.as_slice(), low, r) {
            return Some(*r);
        }
        let at = r.at as usize;
        marks[at] = true;
        low = r.at + 1;
    }
    None
}

/// Returns whether the receipt names an entry at an unmarked index from `low` on.
fn is_good<M: Metric>(history: &History<M>, marks: &[bool], low: u64, r: &Receipt) -> bool
    requires { length marks.now ≡ length history.now.schedule.entries }
    ensures { IsTrue result ↔ (Names history.now.schedule.entries r.now × (low ≤ r.now.at)
        × (slice_index_or marks.now r.now.at false ≡ false)) }
{
    if !names(history, r) || r.at < low {
        return false;
    }
    !marks[r.at as usize]
}

/// Returns whether the receipt has the event and the reply of the entry at its index.
fn names<M: Metric>(history: &History<M>, r: &Receipt) -> bool
    ensures { IsTrue result ↔ Names history.now.schedule.entries r.now }
{
    match history.log().get(r.at as usize) {
        Some(entry) => is_answer(entry, r.event, r.reply),
        None => false,
    }
}

/// Returns whether an entry has the event and the reply.
fn is_answer(entry: Entry, event: Event, reply: Reply) -> bool
    ensures { IsTrue result ↔ ((entry.event ≡ event) × (entry.reply ≡ reply)) }
{
    entry.event == event && entry.reply == reply
}

/// Returns the number of receipts, if it is below `total`.
fn count_below<L: HasReceipts>(lists: &[L], total: usize) -> Option<usize>
    ensures { MatchOption result (total ≤ count_in (map L.receipts lists.now))
        (λ n. (n ≡ count_in (map L.receipts lists.now)) × (n < total)) }
{
    let mut left = total;
    for list in lists {
        let len = list.receipts().len();
        if len >= left {
            return None;
        }
        left -= len;
    }
    if left == 0 { None } else { Some(total - left) }
}
