//! The trace events of a whole script.

use crate::charges::{Charge, Charges};
use crate::events::{push_entry, push_flow};
use esr_history::Entry;
use esr_views::{Recording, ScriptView};
use std::alloc::{AllocError, Global};

/// The name of the process, which is the first event.
const HEAD: &str =
    "{\"displayTimeUnit\":\"ms\",\"traceEvents\":[\n{\"name\":\"process_name\",\"ph\":\"M\",\"pid\":1,\"tid\":0,\"args\":{\"name\":\"esr\"}}";

/// The transactions and charges of a script as trace events.
pub struct TraceEvents;

/// The output so far.
#[derive(Drop)]
struct Writer<'a> {
    charges: Charges<'a>,
    out: String,
    /// The number of flows so far.
    flows: u64,
}

impl Writer<'_> {
    /// Appends the flows of the charges of an entry.
    fn push_flows(
        &mut self,
        recording: &Recording<'_>,
        place: usize,
        charges: &[Charge],
    ) -> Result<(), AllocError> {
        for charge in charges {
            self.flows = self.flows.saturating_add(1);
            push_flow(&mut self.out, recording, place, self.flows, charge)?;
        }
        Ok(())
    }

    /// Appends the events of an entry.
    fn push(
        &mut self,
        alloc: Global,
        recording: &Recording<'_>,
        place: usize,
        entry: Entry,
    ) -> Result<(), AllocError> {
        push_entry(&mut self.out, recording, place, entry)?;
        let charges = self.charges.step(alloc)?;
        self.push_flows(recording, place, &charges)
    }

    /// Appends the events of all entries, and the end of the text.
    fn push_all(&mut self, alloc: Global, recording: &Recording<'_>) -> Result<(), AllocError> {
        let log = recording.history.log();
        for place in 0..log.len() {
            if let Some(entry) = log.get(place) {
                self.push(alloc, recording, place, entry)?;
            }
        }
        self.out.push_str("\n]}\n")
    }
}

/// Returns the text of the trace events.
fn text_about(alloc: Global, recording: &Recording<'_>) -> Result<String, AllocError> {
    let out = String::from_str(alloc, HEAD)?;
    let charges = Charges::new(alloc, &recording.history)?;
    let mut writer = Writer {
        charges,
        out,
        flows: 0,
    };
    writer.push_all(alloc, recording)?;
    let Writer { out, .. } = writer;
    Ok(out)
}

impl ScriptView for TraceEvents {
    ghost IsTextOf = { λ _ _ _. Unit {0} };

    fn text_of(
        &self,
        alloc: Global,
        recording: &Recording<'_>,
    ) -> Result<Option<Vec<u8>>, AllocError> {
        let text = text_about(alloc, recording)?;
        Ok(Some(text.into_bytes()))
    }
}
