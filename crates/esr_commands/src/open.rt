//! Opens an input file.

use std::rt::Files;
use std::{fs, io};

/// Opens a file for reading, or returns the reason why it cannot be opened. A directory could be opened, and only the reads
/// would fail, so it is rejected here.
pub fn open_file<R: Files>(rt: &R, path: &str) -> Result<R::File, &'static str> {
    match fs::metadata(rt, path) {
        Ok(metadata) if metadata.is_dir() => Err("is a directory"),
        Ok(_) => fs::open(rt, path).map_err(reason_of),
        Err(error) => Err(reason_of(error)),
    }
}

/// Returns the reason why a file cannot be opened.
fn reason_of(error: io::Error) -> &'static str {
    match error.kind() {
        io::ErrorKind::NotFound => "no such file",
        io::ErrorKind::PermissionDenied => "permission denied",
        _ => "cannot open file",
    }
}
