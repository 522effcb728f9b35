//! Numbers in groups of three digits, and how many letters they take.

ghost use Rattle.std.specs.Prelude.{◌≤◌};

use std::alloc::AllocError;

/// Appends digits in groups of three.
fn push_digits(out: &mut String, digits: &str) -> Result<(), AllocError> {
    let count = digits.len();
    for (place, digit) in digits.chars().enumerate() {
        if place > 0 && count.saturating_sub(place) % 3 == 0 {
            out.push(',')?;
        }
        out.push(digit)?;
    }
    Ok(())
}

/// Appends a number in groups of three digits: `1,000,000`.
pub fn push_number(out: &mut String, number: u64) -> Result<(), AllocError> {
    let mut digits = itoa::Buffer::new();
    push_digits(out, digits.format(number))
}

/// Appends a value in groups of three digits.
pub fn push_value(out: &mut String, value: i64) -> Result<(), AllocError> {
    if value < 0 {
        out.push('-')?;
    }
    push_number(out, value.unsigned_abs())
}

/// Appends a count and its noun: `1 update`, `2 updates`.
pub fn push_count(out: &mut String, count: u64, one: &str, many: &str) -> Result<(), AllocError> {
    push_number(out, count)?;
    out.push_str(if count == 1 { one } else { many })
}

/// Returns an upper bound of the number of characters of a number.
pub fn number_letters(number: u64) -> usize
    ensures { result ≤ 26 }
{
    let mut digits = itoa::Buffer::new();
    let count = digits.format(number).len().min(20);
    count + count / 3
}

/// Returns an upper bound of the number of characters of a value.
pub fn letters_of(value: i64) -> usize
    ensures { result ≤ 30 }
{
    let sign = if value < 0 { 1 } else { 0 };
    number_letters(value.unsigned_abs()) + sign
}
