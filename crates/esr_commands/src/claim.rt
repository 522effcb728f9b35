//! Checks whether a bundle belongs to a query of a script, and formats the verdict. Anyone who has the script can verify a
//! claim about a report in this way.
//!
//! A valid bundle proves the minimum cost of its own problem, but does not say which query the problem belongs to: the empty
//! bundle is valid. Therefore its problem is compared with the one that the script yields for the query. Rejected: comparing
//! the texts of two bundles, because a certificate with a different flow proves the same. The detail that is printed after a
//! fault's number is advice; no clause specifies it.

ghost use Rattle.std.specs.Prelude.{◌≡◌, ◌≢◌, ℕ, List, Ok, IfOk, IsOk};
ghost use Rattle.esr_cert.specs.Faults.{bundle_fault_number};
ghost use Rattle.esr_cert.specs.Views.{certificate_of};
ghost use Rattle.esr_views.specs.QueryAnswers.{IsAnswered};
ghost use Rattle.esr_views.specs.State.{ScriptState};
ghost use Rattle.esr_commands.specs.Claims.{IsClaim, IsClaimOf, ShowsDistance, claim_line};

use crate::comparison::is_same;
use esr_bundle::from_json;
use esr_cert::{BundleFault, Certificate, Problem, check};
use esr_views::AuditedQuery;
use std::alloc::{AllocError, Global};

/// The claim of a bundle about an audited query of a script.
#[derive(Clone, Copy)]
pub enum BundleClaim {
    /// The certificate shows that this is the query's distance.
    Of(u64),
    /// The certificate shows that this is the least cost of another problem.
    NotOf(u64),
    /// The number of the certificate's first fault.
    Invalid(u8),
    /// The number of the bundle's fault.
    Bad(u8),
}

/// Returns the claim of a problem and a certificate, compared with the problem of the query.
fn claim_on(asked: &Problem, problem: &Problem, certificate: &Certificate) -> BundleClaim
    ensures { IsClaim asked.now (Ok (problem.now, certificate_of certificate.now)) result }
{
    match check(problem, certificate) {
        Ok(()) => {
            if is_same(problem, asked) {
                BundleClaim::Of(certificate.worth)
            } else {
                BundleClaim::NotOf(certificate.worth)
            }
        }
        Err(fault) => BundleClaim::Invalid(fault.number()),
    }
}

/// Returns the claim for bytes with this fault, unless the fault is out of memory.
fn bad(fault: BundleFault) -> Result<BundleClaim, AllocError>
    ensures ok { IfOk result (λ v. v ≡ BundleClaim.Bad (bundle_fault_number fault)) }
    ensures memory { IsOk result → fault ≢ BundleFault.NoMemory }
{
    if let BundleFault::NoMemory = fault {
        return Err(AllocError);
    }
    Ok(BundleClaim::Bad(fault.number()))
}

/// Returns the claim of a bundle's bytes about an audited query.
pub fn claim_of(
    alloc: Global,
    asked: &AuditedQuery,
    bytes: &[u8],
) -> Result<BundleClaim, AllocError>
    ensures claim { IfOk result (IsClaimOf asked.now.finding.problem bytes.now) }
    ensures shows { (s : ScriptState) (name : List ℕ) → IsAnswered s name asked.now
        → (worth : ℕ) → result ≡ Ok (BundleClaim.Of worth) → ShowsDistance s name bytes.now worth }
{
    match from_json(alloc, bytes) {
        Ok((problem, certificate)) => {
            let _invariant = asked.history.log(); // brings the history's legality into the proof
            let _sound = asked.finding.problem.updates(); // and that the problem is sound
            Ok(claim_on(&asked.finding.problem, &problem, &certificate))
        }
        Err(fault) => bad(fault),
    }
}

impl BundleClaim {
    /// Returns the line of a claim about the query with this name.
    pub fn line(self, alloc: Global, name: &str) -> Result<Vec<u8>, AllocError>
        ensures { IfOk result (λ v. v.items ≡ claim_line name.now self) }
    {
        let mut digits = itoa::Buffer::new();
        let (word, number, link, about) = match self {
            BundleClaim::Of(worth) => ("valid ", digits.format(worth), " of ", name),
            BundleClaim::NotOf(worth) => ("valid ", digits.format(worth), ", not of ", name),
            BundleClaim::Invalid(fault) => ("invalid ", digits.format(fault), "", ""),
            BundleClaim::Bad(fault) => ("bad ", digits.format(fault), "", ""),
        };
        let mut line = Vec::new(alloc);
        line.extend_from_slice(word.as_bytes())?;
        line.extend_from_slice(number.as_bytes())?;
        line.extend_from_slice(link.as_bytes())?;
        line.extend_from_slice(about.as_bytes())?;
        line.push(b'\n')?;
        Ok(line)
    }
}
