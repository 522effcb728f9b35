//! Tests of the libraries' calls: each call on its success path and at each of its errors. No contract can state that a
//! call succeeds if memory is available. There is one file for each library. The tests are in a crate above the
//! libraries because a crate that has tests is proved twice.
#![tactic(auto)]

#[cfg(test)]
mod tests;
