//! Reads a problem and a certificate from bytes. Reports the lowest fault of the whole bundle: invalid JSON before
//! shape, and shape before range.
ghost use Rattle.std.specs.Prelude.{◌≡◌, ◌≢◌, Some, None, IfOk, IfErr};
ghost use Rattle.serde_json.specs.View.{view};
ghost use Rattle.esr_bundle.specs.Bundle.{chain_of, problem_of, certificate_of, parts_of};
ghost use Rattle.esr_cert.specs.Problem.{Chain, Problem};
ghost use Rattle.esr_cert.specs.Certificate.{Certificate};
ghost use Rattle.esr_cert.specs.ProblemDrafts.{drafted_chain, drafted_problem};
ghost use Rattle.esr_bundle.specs.Drafts.{drafted_certificate};
ghost use Rattle.esr_bundle.specs.Reading.{IsTree, HasNoTree, IsReadingOf};

use crate::draft::CertificateDraft;
use crate::fields::{
    FromJson, decode_list, decode_member, decode_pairs, has_n_keys, member, optional_number,
    optional_numbers, present_count,
};
use crate::sound::finish;
use esr_cert::{BundleFault, Certificate, ChainDraft, Problem, ProblemDraft};
use serde_json::Value;
use std::alloc::Global;

impl FromJson for ChainDraft {
    ghost Decoded = { Chain };

    ghost model_of = { drafted_chain };

    ghost decoded = { chain_of };

    fn decode(alloc: Global, value: &Value) -> Result<ChainDraft, BundleFault> {
        if !has_n_keys(value, 3) {
            return Err(BundleFault::Shape);
        }
        let costs = decode_member(alloc, value, "costs")?;
        let item = decode_member(alloc, value, "item")?;
        let writers = decode_member(alloc, value, "writers")?;
        Ok(ChainDraft {
            item,
            writers,
            costs,
        })
    }
}

impl FromJson for ProblemDraft {
    ghost Decoded = { Problem };

    ghost model_of = { drafted_problem };

    ghost decoded = { problem_of };

    fn decode(alloc: Global, value: &Value) -> Result<ProblemDraft, BundleFault> {
        if !has_n_keys(value, 3 + present_count(value, "must")) {
            return Err(BundleFault::Shape);
        }
        let before = decode_pairs(alloc, member(value, "before")?)?;
        let chains = decode_list(alloc, member(value, "chains")?)?;
        let must = optional_numbers(alloc, value, "must")?;
        let updates = decode_member(alloc, value, "updates")?;
        Ok(ProblemDraft {
            updates,
            before,
            chains,
            must,
        })
    }
}

impl FromJson for CertificateDraft {
    ghost Decoded = { Certificate };

    ghost model_of = { drafted_certificate };

    ghost decoded = { certificate_of };

    fn decode(alloc: Global, value: &Value) -> Result<CertificateDraft, BundleFault> {
        if !has_n_keys(
            value,
            4 + present_count(value, "augmentations") + present_count(value, "must_flow"),
        ) {
            return Err(BundleFault::Shape);
        }
        let augmentations = optional_number(value, "augmentations")?;
        let back_flow = decode_member(alloc, value, "back_flow")?;
        let chain_flow = decode_list(alloc, member(value, "chain_flow")?)?;
        let must_flow = optional_numbers(alloc, value, "must_flow")?;
        let set = decode_member(alloc, value, "set")?;
        let worth = decode_member(alloc, value, "worth")?;
        Ok(CertificateDraft {
            set,
            chain_flow,
            back_flow,
            must_flow,
            worth,
            augmentations,
        })
    }
}

/// Reads the numbers of a bundle.
fn parts(alloc: Global, value: &Value) -> Result<(ProblemDraft, CertificateDraft), BundleFault>
    ensures ok { IfOk result (λ b. parts_of (view value.now) ≡ Some (drafted_problem b.0, drafted_certificate b.1)) }
    ensures err { IfErr result (λ e. e ≢ BundleFault.NoMemory → (e ≡ BundleFault.Shape)
        × (parts_of (view value.now) ≡ None)) }
{
    if !has_n_keys(value, 2) {
        return Err(BundleFault::Shape);
    }
    let certificate = decode_member(alloc, value, "certificate")?;
    let problem = decode_member(alloc, value, "problem")?;
    Ok((problem, certificate))
}

/// Parses the bytes as JSON.
fn tree(alloc: Global, bytes: &[u8]) -> Result<Value, BundleFault>
    ensures ok { IfOk result (λ v. IsTree bytes.now (view v)) }
    ensures err { IfErr result (λ e. e ≢ BundleFault.NoMemory → (e ≡ BundleFault.Json) × HasNoTree bytes.now) }
{
    match Value::from_slice(alloc, bytes) {
        Ok(tree) => Ok(tree),
        Err(error) => {
            if error.is_memory() {
                Err(BundleFault::NoMemory)
            } else {
                Err(BundleFault::Json)
            }
        }
    }
}

/// Reads the problem and the certificate of a bundle.
///
/// # Errors
/// `Json` if the bytes are not valid JSON; `Shape` if the object is not a bundle or breaks a rule of shape anywhere;
/// `Range` if only numbers are out of range. `NoMemory` if an allocation failed, possibly instead of any of these.
pub fn from_json(alloc: Global, bytes: &[u8]) -> Result<(Problem, Certificate), BundleFault>
    ensures { IsReadingOf bytes.now result }
{
    let tree = tree(alloc, bytes)?;
    let (problem, certificate) = parts(alloc, &tree)?;
    drop(tree);
    finish(alloc, problem, certificate)
}
