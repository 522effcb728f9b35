//! Tests of the views of a script: pictures, prose, pages, timelines, trace events, tables, and the reasons of refusals. The
//! expected texts are written by hand, never by the program.
#![tactic(auto)]

#[cfg(test)]
mod tests;
