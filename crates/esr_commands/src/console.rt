//! Decides which additional output goes to standard error, and draws the seed of the hashes of names.

use esr_cli::Progress;
use std::io::IsTerminal;
use std::random::RandomSource;

/// The additional output to standard error, and the seed of the hashes of names.
#[derive(Clone, Copy)]
pub struct Console {
    /// Whether a progress indicator is shown.
    pub progress: bool,
    /// Whether standard error is a terminal. Then lines with errors are reported as they are read, and a fault is
    /// explained by further lines.
    pub is_terminal: bool,
    /// Whether standard error and standard input are both terminals, so that a person types the input.
    pub is_typed: bool,
    /// The seed of the hashes of a file's names: 0 if the system has no random numbers.
    pub hash_seed: u64,
}

/// Draws a seed for the hashes of names.
fn hash_seed(rt: &impl RandomSource) -> u64 {
    let mut bytes = [0; 8];
    match rt.fill_bytes(&mut bytes) {
        Ok(()) => u64::from_le_bytes(bytes),
        Err(_) => 0,
    }
}

impl Console {
    pub fn new(
        rt: &impl RandomSource,
        progress: Progress,
        stderr: &impl IsTerminal,
        stdin: &impl IsTerminal,
    ) -> Console {
        let is_terminal = stderr.is_terminal();
        let progress = match progress {
            Progress::AtATerminal => is_terminal,
            Progress::Always => true,
            Progress::Never => false,
        };
        Console {
            progress,
            is_terminal,
            is_typed: is_terminal && stdin.is_terminal(),
            hash_seed: hash_seed(rt),
        }
    }
}
