//! The verdict on a bundle as C reads it.

ghost use Rattle.std.specs.Prelude.{◌≡◌, ◌≢◌, ◌⊎◌};
ghost use Rattle.esr_c.specs.Answers.{IsVerdictIn, status_number, verdict_fields};

use crate::engine::Status;
use esr_bundle::{Verdict, verdict_of};
use std::alloc::Global;

/// A verdict: 1 and the least cost that the bundle proves, 2 and the number of the certificate's first fault, 3 and
/// the number of the bundle's fault.
#[repr(C)]
#[derive(Clone, Copy)]
pub struct EsrVerdict {
    pub kind: u32,
    pub number: u64,
}

fn fields(verdict: Verdict) -> EsrVerdict
    ensures { result ≡ verdict_fields verdict }
{
    match verdict {
        Verdict::Valid(number) => EsrVerdict { kind: 1, number },
        Verdict::Invalid(fault) => EsrVerdict {
            kind: 2,
            number: u64::from(fault),
        },
        Verdict::Bad(fault) => EsrVerdict {
            kind: 3,
            number: u64::from(fault),
        },
    }
}

pub(crate) fn show_verdict(alloc: Global, bytes: &[u8], verdict: &mut EsrVerdict) -> Status
    ensures statuses { (result ≡ Status.Done) ⊎ (result ≡ Status.NoMemory) }
    ensures verdict { status_number result ≡ 0 → IsVerdictIn bytes.now verdict.new }
    ensures err { result ≢ Status.Done → verdict.new ≡ verdict.old }
{
    match verdict_of(alloc, bytes) {
        Ok(found) => {
            *verdict = fields(found);
            Status::Done
        }
        Err(_) => Status::NoMemory,
    }
}
