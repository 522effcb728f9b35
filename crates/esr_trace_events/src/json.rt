//! Members of JSON objects. No word needs an escape.

use std::alloc::AllocError;

/// Appends a member with a word.
pub fn push_word(out: &mut String, key: &str, word: &str) -> Result<(), AllocError> {
    write!(out, "\"{key}\":\"{word}\"")
}

/// Appends a further member with a word.
pub fn push_more_word(out: &mut String, key: &str, word: &str) -> Result<(), AllocError> {
    out.push(',')?;
    push_word(out, key, word)
}

/// Appends a further member with a number.
pub fn push_more_number(out: &mut String, key: &str, number: u64) -> Result<(), AllocError> {
    write!(out, ",\"{key}\":{number}")
}

/// Appends a further member with a value.
pub fn push_more_value(out: &mut String, key: &str, value: i64) -> Result<(), AllocError> {
    write!(out, ",\"{key}\":{value}")
}
