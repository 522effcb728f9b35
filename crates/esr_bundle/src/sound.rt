//! From drafts to a problem and a certificate: the rules of shape over all numbers, then those of range, once each.
ghost use Rattle.std.specs.Prelude.{◌≡◌, ◌≢◌, ℕ, Bool, map, true, false, Some, None, Ok, Err, IsOk, IfOk, IfErr};
ghost use Rattle.std.specs.List.{list_all};
ghost use Rattle.esr_cert.specs.Problem as spec;
ghost use Rattle.esr_cert.specs.Faults.{problem_fault};
ghost use Rattle.esr_cert.specs.Views as views;
ghost use Rattle.esr_bundle.specs.Bundle.{is_position, is_pair_of_positions, is_chain_of_positions, judged};
ghost use Rattle.esr_cert.specs.ProblemDrafts.{drafted_chain, drafted_problem};
ghost use Rattle.esr_bundle.specs.Drafts.{drafted_certificate};

use crate::draft::CertificateDraft;
use esr_base::{ItemId, TxnId};
use esr_cert::{
    BundleFault, Certificate, Chain, ChainDraft, Problem, ProblemDraft, ProblemParts,
    has_valid_shape,
};
use std::alloc::Global;

const MAX_NUMBER: u64 = 4_294_967_295;

/// Converts a number to 32 bits, if it fits.
fn fit_position(number: u64) -> Result<u32, BundleFault>
    ensures ok { IfOk result (λ n. n ≡ number) }
    ensures fits { IsOk result → is_position number ≡ true }
    ensures err { IfErr result (λ e. (e ≡ BundleFault.Range) × (is_position number ≡ false)) }
{
    if number > MAX_NUMBER {
        return Err(BundleFault::Range);
    }
    Ok(number as u32)
}

/// A type to which the numbers of a draft convert, if they fit 32 bits.
trait Fitted: Drop + Sized {
    type Draft;

    ghost Kind: { Type 0 };

    ghost model_of: { Self → Kind };

    ghost drafted: { Self.Draft → Kind };

    ghost is_fit: { Kind → Bool };

    fn of(alloc: Global, draft: &Self::Draft) -> Result<Self, BundleFault>
        ensures ok { IfOk result (λ one. model_of one ≡ drafted draft.now) }
        ensures fits { IsOk result → is_fit (drafted draft.now) ≡ true }
        ensures err { IfErr result (λ e. e ≢ BundleFault.NoMemory → (e ≡ BundleFault.Range)
            × (is_fit (drafted draft.now) ≡ false)) };
}

impl Fitted for u32 {
    type Draft = u64;

    ghost Kind = { ℕ };

    ghost model_of = { λ n. n };

    ghost drafted = { λ n. n };

    ghost is_fit = { is_position };

    fn of(_alloc: Global, draft: &u64) -> Result<u32, BundleFault> {
        fit_position(*draft)
    }
}

impl Fitted for TxnId {
    type Draft = u64;

    ghost Kind = { ℕ };

    ghost model_of = { λ t. t.0 };

    ghost drafted = { λ n. n };

    ghost is_fit = { is_position };

    fn of(_alloc: Global, draft: &u64) -> Result<TxnId, BundleFault> {
        Ok(TxnId(fit_position(*draft)?))
    }
}

impl Fitted for (u32, u32) {
    type Draft = (u64, u64);

    ghost Kind = { ℕ × ℕ };

    ghost model_of = { λ e. e };

    ghost drafted = { λ e. e };

    ghost is_fit = { is_pair_of_positions };

    fn of(_alloc: Global, draft: &(u64, u64)) -> Result<(u32, u32), BundleFault> {
        Ok((fit_position(draft.0)?, fit_position(draft.1)?))
    }
}

impl Fitted for Chain {
    type Draft = ChainDraft;

    ghost Kind = { spec.Chain };

    ghost model_of = { views.chain_view };

    ghost drafted = { drafted_chain };

    ghost is_fit = { is_chain_of_positions };

    fn of(alloc: Global, draft: &ChainDraft) -> Result<Chain, BundleFault> {
        let item = fit_position(draft.item)?;
        let writers = fit_positions(alloc, &draft.writers)?;
        let costs = draft.costs.to_vec(alloc)?;
        Ok(Chain {
            item: ItemId(item),
            writers,
            costs,
        })
    }
}

/// Converts a list of drafts.
fn fit_list<T: Fitted>(alloc: Global, drafts: &[T::Draft]) -> Result<Vec<T>, BundleFault>
    ensures ok { IfOk result (λ v. map T.model_of v.items ≡ map T.drafted drafts.now) }
    ensures fits { IsOk result → list_all T.is_fit (map T.drafted drafts.now) ≡ true }
    ensures err { IfErr result (λ e. e ≢ BundleFault.NoMemory → (e ≡ BundleFault.Range)
        × (list_all T.is_fit (map T.drafted drafts.now) ≡ false)) }
{
    let mut found = Vec::with_capacity(alloc, drafts.len())?;
    for draft in drafts {
        let one = T::of(alloc, draft)?;
        if found.push(one).is_err() {
            return Err(BundleFault::NoMemory);
        }
    }
    Ok(found)
}

fn fit_positions(alloc: Global, numbers: &[u64]) -> Result<Vec<u32>, BundleFault>
    ensures ok { IfOk result (λ v. v.items ≡ numbers.now) }
    ensures fits { IsOk result → list_all is_position numbers.now ≡ true }
    ensures err { IfErr result (λ e. e ≢ BundleFault.NoMemory → (e ≡ BundleFault.Range)
        × (list_all is_position numbers.now ≡ false)) }
{
    fit_list(alloc, numbers)
}

/// Converts the draft of a problem, which satisfies the rules of shape, to parts. A number that does not fit its type
/// is out of range, since a problem in range has at most 65,535 updates.
fn parts_of(alloc: Global, draft: &ProblemDraft) -> Result<ProblemParts, BundleFault>
    requires { spec.has_valid_shape (drafted_problem draft.now) ≡ true }
    ensures ok { IfOk result (λ parts. views.problem_of_parts parts ≡ drafted_problem draft.now) }
    ensures err { IfErr result (λ e. e ≢ BundleFault.NoMemory → problem_fault (drafted_problem draft.now) ≡ Some e) }
{
    let updates = fit_list(alloc, &draft.updates)?;
    let before = fit_list(alloc, &draft.before)?;
    let chains = fit_list(alloc, &draft.chains)?;
    let must = fit_positions(alloc, &draft.must)?;
    Ok(ProblemParts {
        updates,
        before,
        chains,
        must,
    })
}

/// Converts a draft to a problem.
fn problem(alloc: Global, draft: &ProblemDraft) -> Result<Problem, BundleFault>
    ensures ok { IfOk result (λ p. p ≡ drafted_problem draft.now) }
    ensures sound { IsOk result → problem_fault (drafted_problem draft.now) ≡ None }
    ensures err { IfErr result (λ e. e ≢ BundleFault.NoMemory → problem_fault (drafted_problem draft.now) ≡ Some e) }
{
    if !has_valid_shape(alloc, draft)? {
        return Err(BundleFault::Shape);
    }
    let parts = parts_of(alloc, draft)?;
    Problem::from_shaped_parts(alloc, parts)
}

/// Converts the numbers of a bundle to a problem and a certificate.
pub fn finish(
    alloc: Global,
    draft: ProblemDraft,
    certificate: CertificateDraft,
) -> Result<(Problem, Certificate), BundleFault>
    ensures ok { IfOk result (λ b. judged (drafted_problem draft, drafted_certificate certificate)
        ≡ Ok (b.0, views.certificate_of b.1)) }
    ensures err { IfErr result (λ e. e ≢ BundleFault.NoMemory
        → judged (drafted_problem draft, drafted_certificate certificate) ≡ Err e) }
{
    let problem = problem(alloc, &draft)?;
    let set = fit_positions(alloc, &certificate.set)?;
    let certificate = Certificate {
        set,
        chain_flow: certificate.chain_flow,
        back_flow: certificate.back_flow,
        must_flow: certificate.must_flow,
        worth: certificate.worth,
        augmentations: certificate.augmentations,
    };
    Ok((problem, certificate))
}
