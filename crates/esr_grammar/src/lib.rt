//! The grammar of scripts: splitting bytes into lines, and parsing a line into a command.
//!
//! The crate depends on no other crate, so it is proved first and alone, and drive files can use it without
//! `esr_script`. Each command has exactly one spelling: single spaces, no leading zeros, line feeds only. A printed
//! command therefore parses back to itself, and contracts can say "if and only if".
#![tactic(auto)]

mod digits;
mod limits;
mod next;
mod parse;
mod quick;
mod words;

pub use limits::{INPUT_ROOM, MAX_LINE_BYTES, MAX_LINES};
pub use next::{Next, find_line_feed, next_line};
pub use parse::{Line, Parsed, parse_begin_or_commit, parse_line, parse_read, parse_write};
pub use words::name;
