//! Wraps sentences to a line width.

use std::alloc::{AllocError, Global};

/// Appends a sentence to `lines`, wrapped at blanks. Each line has at most `width` bytes, unless a single word has more.
pub fn wrap(
    alloc: Global,
    lines: &mut Vec<String>,
    width: usize,
    sentence: &str,
) -> Result<(), AllocError> {
    let mut line = String::new(alloc);
    for word in sentence.split(' ') {
        let joined_len = line.len().saturating_add(1).saturating_add(word.len());
        if !line.is_empty() && joined_len > width {
            lines.push(line)?;
            line = String::new(alloc);
        }
        if !line.is_empty() {
            line.push(' ')?;
        }
        line.push_str(word)?;
    }
    lines.push(line)?;
    Ok(())
}
