//! The limits of lines, and how much is read at once.

/// The maximum number of bytes requested at once: many lines, so that reads are few.
pub const INPUT_ROOM: usize = 65536;

/// The maximum number of lines in an input.
pub const MAX_LINES: u64 = 2_000_000;

/// The maximum number of bytes in a line, without its line feed.
pub const MAX_LINE_BYTES: usize = 200;
