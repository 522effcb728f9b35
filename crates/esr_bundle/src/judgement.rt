//! Judges bundles: reads bytes, writes one line. The line is `valid` if and only if the check finds no fault. So it
//! says that the certificate proves the problem in the file, not which report the problem belongs to.
ghost use Rattle.std.specs.Prelude.{◌≡◌, ◌≢◌, ◌⊎◌, ◌↔◌, ◌+◌, ◌++◌, ◌≤◌, ◌<◌, ℕ, List, IsOk, IfOk, IfErr, IsErrOf, IsTrue, false, length, Some};
ghost use Rattle.std.specs.Io.KnownBytes.{Appends, Consumes, IsAtEnd};
ghost use Rattle.esr_base.specs.Watch.{inner, failed};
ghost use Rattle.esr_cert.specs.Faults.{bundle_fault_number};
ghost use Rattle.esr_bundle.specs.Judge.{IsVerdictOf, IsJudgeOutcome, verdict_line};

use crate::reader::from_json;
use esr_base::Watched;
use esr_cert::{BundleFault, check};
use std::alloc::{AllocError, Global};
use std::io::{Read, Write};
use thiserror::Error;

/// The verdict on a bundle.
#[derive(Clone, Copy, PartialEq, Eq)]
pub enum Verdict {
    /// The certificate shows that this is the least cost.
    Valid(u64),
    /// The certificate fails the check; the number of its first fault.
    Invalid(u8),
    /// The bytes are not a bundle; the number of the fault.
    Bad(u8),
}

/// The reasons for returning no verdict.
#[derive(Clone, Copy, Debug, PartialEq, Eq, Error)]
pub enum JudgeFault {
    /// A read failed, in whatever way.
    #[error("read failed")]
    Read = 1,
    /// A write or a flush failed, or a write took none of some bytes.
    #[error("write failed")]
    Write = 2,
    /// There are more than 64,000,000 bytes.
    #[error("input too long")]
    TooLong = 3,
    #[error("out of memory")]
    NoMemory = 4,
}

/// The most bytes of a bundle that is judged.
const MAX_BYTES: usize = 64_000_000;

/// The most bytes of one read.
const ROOM: usize = 65536;

/// Allocates the buffer for one read.
fn chunk_buffer(alloc: Global) -> Result<Vec<u8>, AllocError>
    ensures { IfOk result (λ v. 0 < length v.items) }
{
    vec![in alloc; 0u8; ROOM]
}

/// Reads once, and appends the bytes that came: none at the end of the input.
fn read_some<R: Read>(
    reader: &mut Watched<R>,
    chunk: &mut [u8],
    bytes: &mut Vec<u8>,
) -> Result<usize, JudgeFault>
    requires chunk_buffer { 0 < length chunk.old }
    requires reader { failed reader.old ≡ false }
    ensures ok { IfOk result (λ n. (more : List ℕ) × (length more ≡ n) × (bytes.new.items ≡ bytes.old.items ++ more)
        × Consumes (R.remaining (inner reader.old)) (R.remaining (inner reader.new)) more
        × (n ≡ 0 → IsAtEnd (R.remaining (inner reader.new)))) }
    ensures faults { IfErr result (λ e. (e ≡ JudgeFault.Read) ⊎ (e ≡ JudgeFault.NoMemory)) }
    ensures failed { IsTrue (failed reader.new) ↔ IsErrOf result JudgeFault.Read }
    ensures chunk_buffer { length chunk.new ≡ length chunk.old }
{
    match reader.read(chunk) {
        Ok(count) => match bytes.extend_from_slice(&chunk[..count]) {
            Ok(()) => Ok(count),
            Err(_) => Err(JudgeFault::NoMemory),
        },
        Err(_) => Err(JudgeFault::Read),
    }
}

/// Reads to the end of the input.
#[tactic(auto, using(crate::proofs::Exits::handed_on))]
fn read_all<R: Read>(alloc: Global, reader: &mut Watched<R>) -> Result<Vec<u8>, JudgeFault>
    requires { failed reader.old ≡ false }
    ensures ok { IfOk result (λ v. Consumes (R.remaining (inner reader.old)) (R.remaining (inner reader.new)) v.items
        × IsAtEnd (R.remaining (inner reader.new)) × (length v.items ≤ MAX_BYTES)) }
    ensures long { IsErrOf result JudgeFault.TooLong → (taken : List ℕ)
        × Consumes (R.remaining (inner reader.old)) (R.remaining (inner reader.new)) taken
        × (MAX_BYTES < length taken) }
    ensures failed { IsTrue (failed reader.new) ↔ IsErrOf result JudgeFault.Read }
    ensures write { ¬ IsErrOf result JudgeFault.Write }
{
    let Ok(mut chunk) = chunk_buffer(alloc) else {
        return Err(JudgeFault::NoMemory);
    };
    let mut bytes = Vec::new(alloc);
    'chunks: loop {
        let count = read_some(reader, &mut chunk, &mut bytes)?;
        if count == 0 {
            return Ok(bytes);
        }
        if bytes.len() > MAX_BYTES {
            return Err(JudgeFault::TooLong);
        }
    }
}

/// Returns the verdict on bytes with this fault, unless it is out of memory.
fn bad(fault: BundleFault) -> Result<Verdict, AllocError>
    ensures ok { IfOk result (λ v. v ≡ Verdict.Bad (bundle_fault_number fault)) }
    ensures memory { IsOk result → fault ≢ BundleFault.NoMemory }
{
    if let BundleFault::NoMemory = fault {
        return Err(AllocError);
    }
    Ok(Verdict::Bad(fault.number()))
}

/// Returns the verdict on the bytes.
pub fn verdict_of(alloc: Global, bytes: &[u8]) -> Result<Verdict, AllocError>
    ensures { IfOk result (IsVerdictOf bytes.now) }
{
    match from_json(alloc, bytes) {
        Ok((problem, certificate)) => match check(&problem, &certificate) {
            Ok(()) => Ok(Verdict::Valid(certificate.worth)),
            Err(fault) => Ok(Verdict::Invalid(fault.number())),
        },
        Err(fault) => bad(fault),
    }
}

/// Returns the line of a verdict.
fn verdict_line(alloc: Global, verdict: Verdict) -> Result<Vec<u8>, AllocError>
    ensures { IfOk result (λ v. v.items ≡ verdict_line verdict) }
{
    let mut digits = itoa::Buffer::new();
    let (word, number) = match verdict {
        Verdict::Valid(worth) => ("valid ", digits.format(worth)),
        Verdict::Invalid(fault) => ("invalid ", digits.format(fault)),
        Verdict::Bad(fault) => ("bad ", digits.format(fault)),
    };
    let mut line = Vec::new(alloc);
    line.extend_from_slice(word.as_bytes())?;
    line.extend_from_slice(number.as_bytes())?;
    line.push(b'\n')?;
    Ok(line)
}

/// Reads a bundle to its end and writes one line: `valid W` if the certificate proves that W is the least cost,
/// `invalid K` with the number of its first fault, or `bad K` with the number of the bundle's fault.
///
/// # Errors
/// After a fault other than `Write` nothing was written; after `Write`, a prefix of the line.
#[tactic(auto, using(crate::proofs::Exits::handed_on))]
pub fn judge<R: Read, W: Write>(
    alloc: Global,
    reader: &mut Watched<R>,
    writer: &mut Watched<W>,
) -> Result<Verdict, JudgeFault>
    requires reader { failed reader.old ≡ false }
    requires writer { failed writer.old ≡ false }
    ensures text { (input : List ℕ) → R.remaining (inner reader.old) ≡ Some input → (written : List ℕ)
        × Appends (W.contents (inner writer.old)) (W.contents (inner writer.new)) written
        × IsJudgeOutcome input (R.remaining (inner reader.new)) result written }

    // If a read or a write has failed, no verdict is returned.
    ensures reader { IsTrue (failed reader.new) ↔ IsErrOf result JudgeFault.Read }
    ensures writer { IsTrue (failed writer.new) ↔ IsErrOf result JudgeFault.Write }
{
    let bytes = read_all(alloc, reader)?;
    let Ok(verdict) = verdict_of(alloc, &bytes) else {
        return Err(JudgeFault::NoMemory);
    };
    drop(bytes);
    let Ok(line) = verdict_line(alloc, verdict) else {
        return Err(JudgeFault::NoMemory);
    };
    match writer.send_all(&line) {
        Ok(()) => Ok(verdict),
        Err(_) => Err(JudgeFault::Write),
    }
}
