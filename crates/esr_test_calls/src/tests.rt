//! A file for each library, and `barrier`, which shows that two threads run concurrently. Each call is proved, but no
//! contract guarantees memory or a thread, and none compares a definition with the formats: these tests do.

mod barrier;
mod boards;
mod certificates;
mod drives;
mod items;
mod ledgers;
mod locks;
mod machine;
mod parallel;
mod reasons;
mod sessions;
mod solver;
mod traces;
mod words;
