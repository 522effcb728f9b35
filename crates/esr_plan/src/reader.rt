//! Reads a drive file, and cuts it into lines. Reading stops at the first line that is too long, or is one too many:
//! this fault is that of the file, whatever follows, so an endless stream does not take endless memory.

ghost use Rattle.esr_grammar.specs.declared.limits.TheConstants.{MAX_LINES, MAX_LINE_BYTES};
ghost use Rattle.std.specs.Prelude.{◌≡◌, ℕ, List, false, ◌<◌, ◌≤◌, ◌↔◌, [], ◌∷◌, ◌++◌, None, Some, IfOk, IfErr, IsErrOf, IsTrue, MatchOption, MatchResult, length};
ghost use Rattle.std.specs.Io.KnownBytes.{Consumes, IsAtEnd};
ghost use Rattle.esr_base.specs.Watch.{inner, failed};
ghost use Rattle.esr_grammar.specs.Lines.{lines};
ghost use Rattle.esr_plan.specs.Plan.{line_limit_fault};
ghost use Rattle.esr_plan.specs.Readings.{IsMark, IsLineFault, IsReadFault, rest_from};

use crate::fault::DriveFault;
use esr_grammar::{INPUT_ROOM, MAX_LINE_BYTES, MAX_LINES, find_line_feed};
use esr_history::Watched;
use std::alloc::{AllocError, Global};
use std::io::Read;

/// Returns the first line, and the bytes after its line feed.
#[tactic(auto, using(crate::proofs::Cuts::at_feed, crate::proofs::Cuts::shorter))]
pub fn first_line(bytes: &[u8]) -> Option<(&[u8], &[u8])>
    ensures { MatchOption result (bytes.now ≡ []) (λ p. (lines bytes.now ≡ p.0.now ∷ lines p.1.now)
        × (length p.1.now < length bytes.now)) }
{
    if bytes.is_empty() {
        return None;
    }
    match find_line_feed(bytes) {
        None => Some((bytes, &[])),
        Some(end) => Some((&bytes[..end], &bytes[end + 1..])),
    }
}

/// How far the lines of a file were checked: the start of the first incomplete line, and the number of lines before
/// it.
#[derive(Clone, Copy)]
pub struct Mark {
    pub start: usize,
    pub lines: u64,
}

/// Checks that a line of at least `bytes` bytes may be read after `lines` lines.
fn check_line(lines: u64, bytes: usize) -> Result<(), DriveFault>
    ensures { MatchResult result (λ _. (lines ≡ MAX_LINES → ⊥) × (bytes ≤ MAX_LINE_BYTES)) (IsLineFault lines bytes) }
{
    if lines == MAX_LINES {
        return Err(DriveFault::TooManyLines);
    }
    if bytes > MAX_LINE_BYTES {
        return Err(DriveFault::LineTooLong);
    }
    Ok(())
}

/// Checks the lines from the mark on. The fault of a line is that of the file, whatever follows.
fn check_lines(bytes: &[u8], mark: Mark) -> Result<Mark, DriveFault>
    requires { IsMark bytes.now mark }
    ensures mark { IfOk result (IsMark bytes.now) }
    ensures fine { IfOk result (λ m. line_limit_fault m.lines (lines (rest_from bytes.now m)) ≡ None) }
    ensures err { IfErr result (λ e. (rest : List ℕ) → line_limit_fault 0 (lines (bytes.now ++ rest)) ≡ Some e) }
{
    let mut mark = mark;
    while let Some(len) = find_line_feed(&bytes[mark.start..]) {
        if let Err(fault) = check_line(mark.lines, len) {
            return Err(fault);
        }
        mark = Mark {
            start: mark.start + len + 1,
            lines: mark.lines + 1,
        };
    }
    let partial_len = bytes.len() - mark.start;
    if partial_len > 0 {
        if let Err(fault) = check_line(mark.lines, partial_len) {
            return Err(fault);
        }
    }
    Ok(mark)
}

/// Returns a buffer for the bytes of one read.
fn chunk_buffer(alloc: Global) -> Result<Vec<u8>, AllocError>
    ensures { IfOk result (λ v. 0 < length v.items) }
{
    let chunk = vec![in alloc; 0u8; INPUT_ROOM]?;
    Ok(chunk)
}

/// Reads to the end, or to the first line that ends the reading.
pub fn read_all<R: Read>(alloc: Global, reader: &mut Watched<R>) -> Result<Vec<u8>, DriveFault>
    requires { failed reader.old ≡ false }
    ensures ok { IfOk result (λ bytes. Consumes (R.remaining (inner reader.old))
        (R.remaining (inner reader.new)) bytes.items) }
    ensures end { IfOk result (λ bytes. IsAtEnd (R.remaining (inner reader.new))) }
    ensures fine { IfOk result (λ bytes. line_limit_fault 0 (lines bytes.items) ≡ None) }
    ensures faults { IfErr result (IsReadFault (R.remaining (inner reader.old))) }
    ensures failed { IsTrue (failed reader.new) ↔ IsErrOf result DriveFault.Read }
{
    let mut bytes = Vec::new(alloc);
    let mut mark = Mark { start: 0, lines: 0 };
    let Ok(mut chunk) = chunk_buffer(alloc) else {
        return Err(DriveFault::NoMemory);
    };
    for _ in 0..u64::MAX {
        let count = match reader.read(&mut chunk) {
            Ok(0) => return Ok(bytes),
            Ok(count) => count,
            Err(_) => return Err(DriveFault::Read),
        };
        if bytes.extend_from_slice(&chunk[..count]).is_err() {
            return Err(DriveFault::NoMemory);
        }
        mark = match check_lines(&bytes, mark) {
            Ok(mark) => mark,
            Err(fault) => return Err(fault),
        };
    }
    Err(DriveFault::NoMemory)
}
