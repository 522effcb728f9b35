//! The place of a message: in a named file, or in standard input.

use std::fmt;

/// The file that was named, or standard input.
#[derive(Clone, Copy)]
pub struct Source<'a>(pub Option<&'a str>);

impl<'a> Source<'a> {
    /// Returns the place of a line in the source.
    pub fn line(self, line: u64) -> Place<'a> {
        Place { source: self, line }
    }
}

/// Writes `FILE: ` before a message about a whole file, and nothing for standard input.
impl fmt::Display for Source<'_> {
    fn fmt<W: fmt::Write>(&self, f: &mut fmt::Formatter<W>) -> fmt::Result {
        match self.0 {
            Some(file) => write!(f, "{file}: "),
            None => Ok(()),
        }
    }
}

/// A line of a source.
#[derive(Clone, Copy)]
pub struct Place<'a> {
    pub source: Source<'a>,
    pub line: u64,
}

/// `FILE:LINE`, or `line LINE` of standard input.
impl fmt::Display for Place<'_> {
    fn fmt<W: fmt::Write>(&self, f: &mut fmt::Formatter<W>) -> fmt::Result {
        let line = self.line;
        match self.source.0 {
            Some(file) => write!(f, "{file}:{line}"),
            None => write!(f, "line {line}"),
        }
    }
}
