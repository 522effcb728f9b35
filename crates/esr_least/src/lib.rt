//! Audits a query without computing a certificate. The streaming audit (`esr_stream`) is tried first. If it finds no answer,
//! the minimum cut of the query's network is computed (`esr_flow`).
//!
//! A history determines the distance, the import and the smallest least-cost closed set of each committed query, so both
//! ways return the same. Streaming usually takes only a few passes over the updates. A caller that needs a certificate
//! calls `audit_query_with_index` of `esr_audit` instead.
#![tactic(auto)]

mod query;

pub use query::{QueryAudit, summarize_by_index};
