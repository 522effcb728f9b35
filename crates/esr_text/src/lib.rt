//! Building blocks of text for people: digit grouping, line wrapping, and a test for well-formed markup.
//!
//! The crate does not depend on histories, so crates that write plain data, such as `esr_svg`, are proved in parallel
//! with the engine.
#![tactic(auto)]

mod escape;
mod lines;
mod lists;
mod markup;
mod numbers;

pub use escape::push_sanitized;
pub use lines::wrap;
pub use lists::first;
pub use markup::{is_attributes, is_markup, markup_or_nothing};
pub use numbers::{letters_of, number_letters, push_count, push_number, push_value};
