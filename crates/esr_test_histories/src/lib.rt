//! Worked histories that the machine executes, the conflict order of their queries, and their audits, compared with naive
//! programs that share nothing with the fast implementations: an enumeration of all placements, scans of the log, all
//! pairs of conflicting updates.
#![tactic(auto)]

#[cfg(test)]
mod tests;
