//! Words and numbers in the forms for programs. No word needs quotes in CSV or an escape in JSON: names are letters,
//! digits and `_`.

use esr_history::TxnId;
use esr_report::{Names, name_of_transaction};
use std::alloc::AllocError;

/// The content of a cell or a field.
#[derive(Clone, Copy)]
pub enum Content<'a> {
    Word(&'a str),
    Number(u64),
    /// The value of an item.
    Value(i64),
    Nothing,
}

/// A field of a row or an object: its name and its content.
pub type Field<'a> = (&'static str, Content<'a>);

/// Appends a number.
pub fn push_number(out: &mut String, number: u64) -> Result<(), AllocError> {
    let mut digits = itoa::Buffer::new();
    out.push_str(digits.format(number))
}

/// Appends a value.
fn push_value(out: &mut String, value: i64) -> Result<(), AllocError> {
    let mut digits = itoa::Buffer::new();
    out.push_str(digits.format(value))
}

/// Appends a word in quotes.
pub fn push_word(out: &mut String, word: &str) -> Result<(), AllocError> {
    out.push_str("\"")?;
    out.push_str(word)?;
    out.push_str("\"")
}

/// Appends the content of a cell of CSV, which is empty for nothing.
pub fn push_cell(out: &mut String, content: Content<'_>) -> Result<(), AllocError> {
    match content {
        Content::Word(word) => out.push_str(word),
        Content::Number(number) => push_number(out, number),
        Content::Value(value) => push_value(out, value),
        Content::Nothing => Ok(()),
    }
}

/// Appends a member of an object, with the text before it.
pub fn push_member(
    out: &mut String,
    before: &str,
    name: &str,
    content: Content<'_>,
) -> Result<(), AllocError> {
    out.push_str(before)?;
    push_word(out, name)?;
    out.push_str(":")?;
    match content {
        Content::Word(word) => push_word(out, word),
        Content::Nothing => out.push_str("null"),
        number => push_cell(out, number),
    }
}

/// Appends fields as members of an object.
pub fn push_members(out: &mut String, fields: &[Field<'_>]) -> Result<(), AllocError> {
    let mut before = "";
    for (name, content) in fields {
        push_member(out, before, name, *content)?;
        before = ",";
    }
    Ok(())
}

/// Appends an array of the names of some updates.
pub fn push_name_array(
    out: &mut String,
    transactions: &Names,
    updates: &[TxnId],
) -> Result<(), AllocError> {
    let mut open = "[";
    for update in updates {
        out.push_str(open)?;
        push_word(out, name_of_transaction(transactions, *update))?;
        open = ",";
    }
    out.push_str(if updates.is_empty() { "[]" } else { "]" })
}
