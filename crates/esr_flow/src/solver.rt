//! Solves problems: computes a certificate with the smallest closed set of least cost, from a maximum flow.
//!
//! The set consists of the updates that the source still reaches. Which maximum flow is found is unspecified; all of
//! them yield the same set.
ghost use Rattle.std.specs.Prelude.{◌≡◌, ℕ, ◌+◌, ◌*◌, ◌≤◌, true, false, Some, None, length, vec_len, map, take, drop, sum_by, get_or, IfOk, OnOk};
ghost use Rattle.std.specs.List.{concat};
ghost use Rattle.esr_base.specs.declared.limits.TheConstants.{MAX_TRANSACTIONS};
ghost use Rattle.esr_cert.specs.Problem.{update_count, in_set, IsSmallestLeastCostSet};
ghost use Rattle.esr_cert.specs.Network.{network};
ghost use Rattle.esr_cert.specs.Flow as flow_check;
ghost use Rattle.esr_cert.specs.Certificate.{amounts, are_rows_matched, is_count_in_bound, Certifies};
ghost use Rattle.esr_cert.specs.Views.{chain_view, rows_of, certificate_of};
ghost use Rattle.esr_flow.specs.Augmentation.{IsReach, AugmentsFromZero};
ghost use Rattle.esr_flow.specs.Search.{is_marked};
ghost use Rattle.esr_flow.specs.Members.{members_below};

use crate::maximum::{DraftOutcome, MaximumFlow, find_maximum, find_swiftly};
use crate::network::Network;
use esr_base::NoMemory;
use esr_cert::{Certificate, Chain, Problem};
use std::alloc::{AllocError, Global};

/// Returns the marked positions, ascending.
fn members(alloc: Global, marks: &[bool], count: usize) -> Result<Vec<u32>, AllocError>
    requires spare_capacity { count ≤ length marks.now }
    requires count_within_max { count ≤ MAX_TRANSACTIONS }
    ensures { IfOk result (λ set. set.items ≡ members_below (is_marked marks.now) count) }
{
    let mut set = Vec::new(alloc);
    for v in 0..count {
        if marks[v] {
            set.push(v as u32)?;
        }
    }
    Ok(set)
}

/// Returns the amounts of each chain, cut from the amounts of all chains.
fn chain_rows(alloc: Global, flow: &[u64], chains: &[Chain]) -> Result<Vec<Vec<u64>>, AllocError>
    requires { sum_by (λ chain. length chain.costs.items) chains.now ≡ length flow.now }
    ensures all { IfOk result (λ rows. concat (rows_of rows.items) ≡ flow.now) }
    ensures matched { IfOk result (λ rows. are_rows_matched (map chain_view chains.now) (rows_of rows.items) ≡ true) }
{
    let mut rows = Vec::new(alloc);
    let mut at = 0;
    for chain in chains {
        let end = at + chain.costs.len();
        let row = flow[at..end].to_vec(alloc)?;
        rows.push(row)?;
        at = end;
    }
    Ok(rows)
}

/// Cuts a list of amounts at an index. Returns the amounts from there on, and releases their capacity in the list.
fn cut_off(alloc: Global, flow: &mut Vec<u64>, at: usize) -> Result<Vec<u64>, AllocError>
    requires { at ≤ vec_len flow.old }
    ensures rest { IfOk result (λ rest. rest.items ≡ drop at flow.old.items) }
    ensures kept { OnOk result (flow.new.items ≡ take at flow.old.items) }
{
    let rest = flow[at..].to_vec(alloc)?;
    flow.truncate(at);
    flow.shrink_to_fit();
    Ok(rest)
}

/// Builds the certificate of a maximum flow from the nodes that the source still reaches, with this count of
/// augmentations. Cuts the flow into its parts, so that it never exists twice: after the problem it takes the most
/// memory of an audit.
fn certify(
    alloc: Global,
    problem: &Problem,
    maximum: MaximumFlow,
    augmentations: Option<u64>,
) -> Result<Certificate, AllocError>
    requires flow { flow_check.IsFlow (network problem.now) maximum.flow.items }
    requires reach { IsReach (network problem.now) maximum.flow.items (is_marked maximum.marks.items) }
    requires sink { is_marked maximum.marks.items (update_count problem.now + 1) ≡ false }
    requires marks { length maximum.marks.items ≡ update_count problem.now + 2 }
    requires worth { maximum.worth ≡ flow_check.worth (network problem.now) maximum.flow.items }
    requires short { is_count_in_bound problem.now augmentations ≡ true }
    ensures amounts { IfOk result (λ c. amounts (certificate_of c) ≡ maximum.flow.items) }
    ensures worth { IfOk result (λ c. c.worth ≡ maximum.worth) }
    ensures count { IfOk result (λ c. c.augmentations ≡ augmentations) }
    ensures certifies { IfOk result (λ c. Certifies problem.now (certificate_of c)) }
    ensures least { IfOk result (λ c. IsSmallestLeastCostSet problem.now (in_set c.set.items)) }
{
    let MaximumFlow {
        mut flow,
        marks,
        worth,
        augmentations: _,
        phases: _,
    } = maximum;
    let musts = problem.must().len();
    let backs = problem.before().len();
    let set = members(alloc, &marks, problem.updates().len())?;
    let pairs_end = flow.len() - musts;
    let must_flow = cut_off(alloc, &mut flow, pairs_end)?;
    let chains_end = pairs_end - backs;
    let back_flow = cut_off(alloc, &mut flow, chains_end)?;
    let chain_flow = chain_rows(alloc, &flow, problem.chains())?;
    Ok(Certificate {
        set,
        chain_flow,
        back_flow,
        must_flow,
        worth,
        augmentations,
    })
}

/// A problem solved.
#[derive(Drop)]
pub struct Solved {
    /// A closed set of least cost and a flow of equal worth.
    pub certificate: Certificate,
    /// How many augmentations led to the flow.
    pub augmentations: u64,
    /// In how many phases: searches that found a path.
    pub phases: u64,
}

/// Solves a network's problem by augmentations along shortest paths, in phases
/// (Edmonds and Karp 1972; Dinic 1970).
///
/// The certificate's set is the smallest of the closed sets of least cost.
pub fn solve(alloc: Global, net: &Network) -> Result<Solved, NoMemory>
    ensures certifies { IfOk result (λ s. Certifies net.now.problem.now (certificate_of s.certificate)) }
    ensures least { IfOk result (λ s. IsSmallestLeastCostSet net.now.problem.now (in_set s.certificate.set.items)) }
    ensures takes { IfOk result (λ s. AugmentsFromZero (network net.now.problem.now) s.augmentations
        (amounts (certificate_of s.certificate))) }
    ensures worth { IfOk result (λ s. s.augmentations ≤ s.certificate.worth) }
    ensures count_within_max { IfOk result (λ s. s.augmentations ≤ (update_count net.now.problem.now + 2) * length
        (network net.now.problem.now).arcs) }
    ensures amounts { IfOk result (λ s. (i : ℕ) → get_or (amounts (certificate_of s.certificate)) i 0
        ≤ s.certificate.worth) }
    ensures count { IfOk result (λ s. s.certificate.augmentations ≡ Some s.augmentations) }
    ensures phases { IfOk result (λ s. s.phases ≤ s.augmentations) }
{
    let maximum = find_maximum(alloc, &net.graph)?;
    let augmentations = maximum.augmentations;
    let phases = maximum.phases;
    let certificate = certify(alloc, net.problem, maximum, Some(augmentations))?;
    Ok(Solved {
        certificate,
        augmentations,
        phases,
    })
}

/// A certificate, and the outcome of the draft of its flow.
#[derive(Drop)]
pub struct FromDraft {
    pub certificate: Certificate,
    pub draft: DraftOutcome,
}

/// Finds a certificate of the least cost of a network's problem, without the number of augmentations. The flow may be
/// any maximum flow, which is found faster than by shortest paths alone. Also returns the outcome of the draft of a
/// flow from which it started.
///
/// The certificate's set is the smallest of the closed sets of least cost.
pub fn find_from_draft(alloc: Global, net: &Network) -> Result<FromDraft, NoMemory>
    ensures certifies { IfOk result (λ d. Certifies net.now.problem.now (certificate_of d.certificate)) }
    ensures least { IfOk result (λ d. IsSmallestLeastCostSet net.now.problem.now (in_set d.certificate.set.items)) }
    ensures amounts { IfOk result (λ d. (i : ℕ) → get_or (amounts (certificate_of d.certificate)) i 0
        ≤ d.certificate.worth) }
    ensures count { IfOk result (λ d. d.certificate.augmentations ≡ None) }
{
    let (maximum, draft) = find_swiftly(alloc, &net.graph)?;
    let certificate = certify(alloc, net.problem, maximum, None)?;
    Ok(FromDraft { certificate, draft })
}

/// Finds a certificate of the network's problem, from a draft of a flow (`find_from_draft`). Its augmentation count is
/// `None`.
pub fn find_certificate(alloc: Global, net: &Network) -> Result<Certificate, NoMemory>
    ensures certifies { IfOk result (λ c. Certifies net.now.problem.now (certificate_of c)) }
    ensures least { IfOk result (λ c. IsSmallestLeastCostSet net.now.problem.now (in_set c.set.items)) }
    ensures amounts { IfOk result (λ c. (i : ℕ) → get_or (amounts (certificate_of c)) i 0 ≤ c.worth) }
    ensures count { IfOk result (λ c. c.augmentations ≡ None) }
{
    let found = find_from_draft(alloc, net)?;
    Ok(found.certificate)
}
