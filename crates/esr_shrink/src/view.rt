//! The smallest script that was found, as a text of a script.

use crate::case::{Operation, case_of, without_strangers};
use crate::search::Search;
use crate::text::script_of;
use esr_history::{TxnId, Watched};
use esr_lint::NoObserver;
use esr_script::{RunFault, ask};
use esr_views::{Recording, ScriptView};
use std::alloc::{AllocError, Global};

/// Shows how far a search is.
pub trait Progress {
    /// Shows the number of candidates that were played, and how many events the last one has.
    fn show(&self, runs: u64, events: u64);

    /// Erases what is shown.
    fn clear(&self);
}

/// A small script in which the query of a name still has a distance of at least `at_least`.
#[derive(Drop)]
pub struct Shrink<'a, P> {
    pub name: &'a str,
    pub at_least: u64,
    pub progress: &'a P,
}

/// Returns the transaction of a name.
fn txn_of(recording: &Recording<'_>, name: &str) -> Option<TxnId> {
    let number = recording.transactions.number_of(name)?;
    Some(TxnId(number.saturating_add(1)))
}

/// Returns whether a script, when it is run, has the query with a distance of at least `at_least`.
fn is_confirmed(
    alloc: Global,
    script: &[u8],
    name: &str,
    at_least: u64,
) -> Result<bool, AllocError> {
    let mut reader = Watched::new(script);
    match ask(alloc, &mut reader, name, &mut NoObserver) {
        Ok(audited) => Ok(audited.finding.distance >= at_least),
        Err(RunFault::NoMemory) => Err(AllocError),
        Err(_) => Ok(false),
    }
}

impl<P: Progress> Shrink<'_, P> {
    /// Returns the smallest case that was found, if the query is off in the whole one.
    fn smallest(
        &self,
        alloc: Global,
        recording: &Recording<'_>,
        query: TxnId,
    ) -> Result<Option<Vec<Operation>>, AllocError> {
        let history = &recording.history;
        let whole = case_of(alloc, history, query)?;
        let case = without_strangers(alloc, &whole, history.begun_count().saturating_add(1))?;
        let mut search = Search {
            history,
            query,
            at_least: self.at_least,
            progress: self.progress,
            runs: 0,
        };
        if !search.is_off(alloc, &case)? {
            return Ok(None);
        }
        Ok(Some(search.smallest(alloc, case)?))
    }

    /// Returns the script of the smallest case that was found, after it has been run once more.
    fn script(
        &self,
        alloc: Global,
        recording: &Recording<'_>,
        query: TxnId,
    ) -> Result<Option<Vec<u8>>, AllocError> {
        let Some(case) = self.smallest(alloc, recording, query)? else {
            return Ok(None);
        };
        let Recording {
            items,
            transactions,
            history,
            ..
        } = recording;
        let Some(script) = script_of(alloc, history, items, transactions, &case)? else {
            return Ok(None);
        };
        if is_confirmed(alloc, &script, self.name, self.at_least)? {
            Ok(Some(script))
        } else {
            Ok(None)
        }
    }
}

impl<P: Progress> ScriptView for Shrink<'_, P> {
    ghost IsTextOf = { λ _ _ _. Unit {0} };

    fn text_of(
        &self,
        alloc: Global,
        recording: &Recording<'_>,
    ) -> Result<Option<Vec<u8>>, AllocError> {
        let Some(query) = txn_of(recording, self.name) else {
            return Ok(None);
        };
        let script = self.script(alloc, recording, query);
        self.progress.clear();
        script
    }
}
