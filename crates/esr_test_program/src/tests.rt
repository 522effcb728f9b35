//! A file for each kind of input. Contracts cover readers and writers that specify their bytes, permit out of memory in any
//! call, and rest on definitions: these tests compare the bytes beyond that.

mod bundles;
mod claims;
mod drives;
mod scripts;
mod watched;
mod written;
