//! The text of a line: the event, what blocked it, and when the blocker ended.

use crate::locks::Lock;
use crate::shortfall::{Shortfall, Side};
use crate::waits::Wait;
use esr_history::{Event, History, MAX_LIMIT, TxnId};
use esr_items::{ItemId, Weighted};
use esr_report::{Names, name_of_transaction};
use esr_views::Recording;
use std::alloc::AllocError;

/// A script with the line of each entry.
#[derive(Clone, Copy)]
pub struct NumberedScript<'a> {
    pub items: &'a Names,
    pub transactions: &'a Names,
    pub history: &'a History<Weighted>,
    /// The line of each entry, from 1.
    pub lines: &'a [u32],
}

impl<'a> NumberedScript<'a> {
    /// Creates the view of a script's final state, with the line of each entry.
    pub fn new(recording: &'a Recording<'_>) -> NumberedScript<'a> {
        NumberedScript {
            items: &recording.items,
            transactions: &recording.transactions,
            history: &recording.history,
            lines: recording.lines,
        }
    }

    /// Returns the name of a transaction.
    pub fn name(&self, t: TxnId) -> &'a str {
        name_of_transaction(self.transactions, t)
    }

    /// Returns the name of an item.
    fn item(&self, x: ItemId) -> &'a str {
        self.items.name_of(x.0).unwrap_or("")
    }

    /// Returns the line of the entry at a place.
    fn line(&self, place: usize) -> u32 {
        self.lines.get(place).copied().unwrap_or(0)
    }

    /// Returns the line of the end of a transaction, if it has ended.
    fn end_line(&self, t: TxnId) -> Option<u32> {
        let place = self.history.facts(t)?.end?;
        Some(self.line(usize::try_from(place).ok()?))
    }

    /// Appends when a transaction ended: `closer ended at line 14`.
    fn push_end(&self, out: &mut String, t: TxnId) -> Result<(), AllocError> {
        let name = self.name(t);
        match self.end_line(t) {
            Some(line) => write!(out, "{name} ended at line {line}"),
            None => write!(out, "{name} is still active"),
        }
    }

    /// Appends an event and its line: `line 13: write again savings 1700: blocked by `.
    fn push_asked(&self, out: &mut String, place: usize, event: Event) -> Result<(), AllocError> {
        let line = self.line(place);
        match event {
            Event::Read { txn, item } => {
                let (name, item) = (self.name(txn), self.item(item));
                write!(out, "line {line}: read {name} {item}: blocked by ")
            }
            Event::Write { txn, item, value } => {
                let (name, item) = (self.name(txn), self.item(item));
                write!(out, "line {line}: write {name} {item} {value}: blocked by ")
            }
            _ => write!(out, "line {line}: blocked by "),
        }
    }

    /// Appends the line of an event that a lock blocked.
    pub fn push_lock_line(
        &self,
        out: &mut String,
        place: usize,
        event: Event,
        lock: Lock,
        holder: TxnId,
    ) -> Result<(), AllocError> {
        self.push_asked(out, place, event)?;
        out.push_str(match lock {
            Lock::Read => "the read lock of ",
            Lock::Write => "the write lock of ",
        })?;
        out.push_str(self.name(holder))?;
        out.push_str("; ")?;
        self.push_end(out, holder)?;
        out.push('\n')
    }

    /// Appends the charge due to a limit, and the rest of the limit.
    fn push_shortfall(&self, out: &mut String, shortfall: Shortfall) -> Result<(), AllocError> {
        let name = self.name(shortfall.txn);
        let side = match shortfall.side {
            Side::Import => "import",
            Side::Export => "export",
        };
        let (due, left, limit) = (shortfall.due, shortfall.rest(), shortfall.limit);
        write!(
            out,
            "the {side} limit of {name}: charge {due}, remaining {left} of {limit}"
        )
    }

    /// Appends the limits with which an event with these shortfalls would have been accepted.
    fn push_remedy(&self, out: &mut String, shortfalls: &[Shortfall]) -> Result<(), AllocError> {
        if shortfalls.iter().any(|s| s.enough > u128::from(MAX_LIMIT)) {
            return out.push_str("; no limit would suffice");
        }
        let start = if shortfalls.len() == 1 {
            "; a limit of "
        } else {
            "; limits of "
        };
        for (place, shortfall) in shortfalls.iter().enumerate() {
            out.push_str(if place == 0 { start } else { " and " })?;
            self.push_enough(out, *shortfall, shortfalls.len())?;
        }
        out.push_str(" would suffice")
    }

    /// Appends a sufficient limit, with its transaction if there are several.
    fn push_enough(
        &self,
        out: &mut String,
        shortfall: Shortfall,
        count: usize,
    ) -> Result<(), AllocError> {
        let mut digits = itoa::Buffer::new();
        out.push_str(digits.format(shortfall.enough))?;
        if count > 1 {
            out.push_str(" for ")?;
            out.push_str(self.name(shortfall.txn))?;
        }
        Ok(())
    }

    /// Appends the line of an event that limits blocked: the first is the reason of its refusal.
    pub fn push_limits_line(
        &self,
        out: &mut String,
        place: usize,
        event: Event,
        shortfalls: &[Shortfall],
    ) -> Result<(), AllocError> {
        self.push_asked(out, place, event)?;
        self.push_limits(out, shortfalls)?;
        self.push_remedy(out, shortfalls)?;
        self.push_ends(out, shortfalls)?;
        out.push('\n')
    }

    /// Appends the limits, with the charge due to each.
    fn push_limits(&self, out: &mut String, shortfalls: &[Shortfall]) -> Result<(), AllocError> {
        for (place, shortfall) in shortfalls.iter().enumerate() {
            out.push_str(if place == 0 { "" } else { "; then by " })?;
            self.push_shortfall(out, *shortfall)?;
        }
        Ok(())
    }

    /// Appends the ends of the transactions with these limits.
    fn push_ends(&self, out: &mut String, shortfalls: &[Shortfall]) -> Result<(), AllocError> {
        for shortfall in shortfalls {
            out.push_str("; ")?;
            self.push_end(out, shortfall.txn)?;
        }
        Ok(())
    }

    /// Appends the waits of a cycle: the first wait, which closed it, comes last.
    pub fn push_cycle(&self, out: &mut String, cycle: &[Wait]) -> Result<(), AllocError> {
        let Some((first, rest)) = cycle.split_first() else {
            return Ok(());
        };
        out.push_str("deadlock: ")?;
        for wait in rest {
            self.push_wait(out, *wait)?;
            out.push_str(", ")?;
        }
        self.push_wait(out, *first)?;
        out.push('\n')
    }

    /// Appends a wait: `first waits for second at line 7`.
    fn push_wait(&self, out: &mut String, wait: Wait) -> Result<(), AllocError> {
        let (name, holder, line) = (
            self.name(wait.txn),
            self.name(wait.holder),
            self.line(wait.place),
        );
        write!(out, "{name} waits for {holder} at line {line}")
    }
}
