//! Tests of the program's output, byte for byte: scripts, their audits, certificates, bundles and drive files. The
//! expected texts are written by hand from the formats, never by the program.
#![tactic(auto)]

#[cfg(test)]
mod tests;
