//! Keeps the first lines with errors, for a page or a picture of the script.
//!
//! The observer writes the notes while the script runs, and the page reads them afterwards, so both hold a shared
//! reference. Rejected: passing them through `ScriptView` and `QueryView`, whose contracts cover the final state
//! alone.

use std::alloc::{AllocError, Global};
use std::cell::{Cell, RefCell};
use std::fmt::Display;

/// The maximum number of lines that are kept.
const MAX_KEPT: u64 = 5;

/// The first lines with errors, and the number of all.
#[derive(Drop)]
pub struct Notes {
    count: Cell<u64>,
    text: RefCell<String>,
}

impl Notes {
    pub fn new(alloc: Global) -> Notes {
        Notes {
            count: Cell::new(0),
            text: RefCell::new(String::new(alloc)),
        }
    }

    /// Counts a line with an error, and keeps its text if it is one of the first. A text that does not fit into memory is
    /// left out.
    pub fn add(&self, text: &impl Display) {
        let count = self.count.get().saturating_add(1);
        self.count.set(count);
        if count > MAX_KEPT {
            return;
        }
        if let Ok(mut kept) = self.text.try_borrow_mut() {
            let _ = writeln!(kept, "{text}");
        }
    }

    /// Returns the number of lines with errors.
    pub fn count(&self) -> u64 {
        self.count.get()
    }

    /// Returns the lines that were kept, each with a line feed.
    pub fn text(&self, alloc: Global) -> Result<String, AllocError> {
        let mut text = String::new(alloc);
        if let Ok(kept) = self.text.try_borrow() {
            text.push_str(kept.as_str())?;
        }
        Ok(text)
    }
}
