//! Appends text that does not come from a name or a number, such as the name of a file, to markup.
//!
//! Markup here contains no character that has to be escaped (`is_markup`), so the two that would have to be are replaced.
//! Rejected: entities, because the test for markup would have to accept `&`.

use std::alloc::AllocError;

/// Appends a text to markup. Replaces `<` and `&` by their full-width forms, and each control character by a question mark.
pub fn push_sanitized(out: &mut String, text: &str) -> Result<(), AllocError> {
    for letter in text.chars() {
        out.push(match letter {
            '&' => '\u{ff06}',
            '<' => '\u{ff1c}',
            '\0'..='\x1f' | '\x7f' => '?',
            other => other,
        })?;
    }
    Ok(())
}
