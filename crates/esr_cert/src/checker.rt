//! Checks certificates. The check visits each arc a fixed number of times, and allocates nothing; it finds members of
//! the set, and amounts by arc numbers, by binary search.
//!
//! The result is the first fault in a fixed order, so that two checkers can be compared. `Ok` means that the set is
//! closed and costs the worth, and that no closed set costs less. Conservation is tested along the rows of steps that
//! the problem contains. Sums have 128 bits.
ghost use Rattle.std.specs.Prelude.{◌≡◌, ℕ, ◌*◌, ◌<◌, ◌≤◌, ◌||◌, not, length, get_or, map, Bool, true, IsOk};
ghost use Rattle.std.specs.List.{list_all, sum, sum_by};
ghost use Rattle.esr_cert.specs.Problem.{update_count, in_set, is_strictly_ascending, is_closed, version, chain_cost, cost};
ghost use Rattle.esr_cert.specs.Network.{network};
ghost use Rattle.esr_cert.specs.Flow.{amount_at, is_conserved_at, is_conserved};
ghost use Rattle.esr_cert.specs.Certificate.{amounts, is_set_in_range, is_within, worth_matches, is_count_in_bound, fault, or_fault};
ghost use Rattle.esr_cert.specs.FlowConservation.{is_balanced};
ghost use Rattle.esr_cert.specs.ChainStarts.{AreChainStarts};
ghost use Rattle.esr_cert.specs.Capacities.{is_row_within, are_rows_within};
ghost use Rattle.esr_cert.specs.Views.{chain_view, rows_of, certificate_of};

use crate::arcs::arc_count;
use crate::certificate::{Certificate, Fault};
use crate::chain_starts::row_at;
use crate::lists::{are_below, contains, is_strictly_ascending};
use crate::problem::{Chain, Problem};
use crate::residual::{PackedResidualArc, ResidualArc};

/// Returns whether there is an update at each position of a set.
fn is_set_in_range(problem: &Problem, set: &[u32]) -> bool
    ensures { result ≡ is_set_in_range problem.now set.now }
{
    are_below(set, problem.updates().len())
}

fn keeps_before(before: &[(u32, u32)], set: &[u32]) -> bool
    requires { is_strictly_ascending set.now ≡ true }
    ensures { result ≡ list_all (λ e. not (in_set set.now e.1) || in_set set.now e.0) before.now }
{
    before
        .iter()
        .all(|(u, v)| !contains(set, *v) || contains(set, *u))
}

fn contains_all(set: &[u32], must: &[u32]) -> bool
    requires { is_strictly_ascending set.now ≡ true }
    ensures { result ≡ list_all (in_set set.now) must.now }
{
    must.iter().all(|u| contains(set, *u))
}

fn is_closed(problem: &Problem, set: &[u32]) -> bool
    requires { is_strictly_ascending set.now ≡ true }
    ensures { result ≡ is_closed problem.now (in_set set.now) }
{
    if !keeps_before(problem.before(), set) {
        return false;
    }
    contains_all(set, problem.must())
}

fn is_row_within(costs: &[u64], row: &[u64]) -> bool
    ensures { result ≡ is_row_within costs.now row.now }
{
    if costs.len() != row.len() {
        return false;
    }
    for i in 0..costs.len() {
        if row[i] > costs[i] {
            return false;
        }
    }
    true
}

fn are_rows_within(chains: &[Chain], rows: &[Vec<u64>]) -> bool
    ensures { result ≡ are_rows_within (map chain_view chains.now) (rows_of rows.now) }
{
    if chains.len() != rows.len() {
        return false;
    }
    for i in 0..chains.len() {
        if !is_row_within(&chains[i].costs, &rows[i]) {
            return false;
        }
    }
    true
}

/// Returns whether there is one amount for each arc, within its capacity. Back arcs and the arcs to `must` are
/// unlimited.
fn is_within(problem: &Problem, certificate: &Certificate) -> bool
    ensures { result ≡ is_within problem.now (certificate_of certificate.now) }
{
    if !are_rows_within(problem.chains(), &certificate.chain_flow) {
        return false;
    }
    if certificate.back_flow.len() != problem.before().len() {
        return false;
    }
    certificate.must_flow.len() == problem.must().len()
}

fn amount_or_zero(amounts: &[u64], i: usize) -> u64
    ensures { result ≡ get_or amounts.now i 0 }
{
    match amounts.get(i) {
        Some(amount) => *amount,
        None => 0,
    }
}

/// Returns the amount on an arc, by its number: first the arcs of the chains, then those of the pairs, then those to
/// the updates that a set must contain.
fn amount_on(certificate: &Certificate, chain_starts: &[u32], arc: u32) -> u64
    requires chain_starts { AreChainStarts chain_starts.now (rows_of certificate.now.chain_flow.items) }
    ensures { result ≡ amount_at (amounts (certificate_of certificate.now)) arc }
{
    let chain = row_at(chain_starts, arc);
    let i = (arc - chain_starts[chain]) as usize;
    if chain < certificate.chain_flow.len() {
        return amount_or_zero(&certificate.chain_flow[chain], i);
    }
    let backs = certificate.back_flow.len();
    if i < backs {
        amount_or_zero(&certificate.back_flow, i)
    } else {
        amount_or_zero(&certificate.must_flow, i - backs)
    }
}

/// Returns whether inflow and outflow of a node are equal, by the steps that start there.
fn is_balanced(certificate: &Certificate, chain_starts: &[u32], steps: &[PackedResidualArc]) -> bool
    requires chain_starts { AreChainStarts chain_starts.now (rows_of certificate.now.chain_flow.items) }
    ensures { result ≡ is_balanced (amounts (certificate_of certificate.now)) steps.now }
{
    let mut into: u128 = 0;
    let mut from: u128 = 0;
    for step in steps {
        match step.unpack() {
            ResidualArc::Forward(arc) => from += u128::from(amount_on(
                certificate,
                chain_starts,
                arc,
            )),
            ResidualArc::Backward(arc) => into += u128::from(amount_on(
                certificate,
                chain_starts,
                arc,
            )),
        }
    }
    into == from
}

/// Returns whether inflow and outflow of an update are equal.
fn is_conserved_at(problem: &Problem, certificate: &Certificate, v: usize) -> bool
    requires within { is_within problem.now (certificate_of certificate.now) ≡ true }
    requires update { v < update_count problem.now }
    ensures { result ≡ is_conserved_at (network problem.now).arcs (amounts (certificate_of certificate.now)) v }
{
    let adjacency = problem.adjacency();
    is_balanced(
        certificate,
        problem.chain_starts(),
        adjacency.row(&adjacency.steps, v),
    )
}

fn is_conserved(problem: &Problem, certificate: &Certificate) -> bool
    requires { is_within problem.now (certificate_of certificate.now) ≡ true }
    ensures { result ≡ is_conserved (network problem.now) (amounts (certificate_of certificate.now)) }
{
    for v in 0..problem.updates().len() {
        if !is_conserved_at(problem, certificate, v) {
            return false;
        }
    }
    true
}

/// Returns the number of writers up to and including the last one in the set.
fn version(writers: &[u32], set: &[u32]) -> usize
    requires { is_strictly_ascending set.now ≡ true }
    ensures { result ≡ version (in_set set.now) writers.now }
{
    for i in 0..writers.len() {
        let at = writers.len() - i;
        if contains(set, writers[at - 1]) {
            return at;
        }
    }
    0
}

fn set_cost(chains: &[Chain], set: &[u32]) -> u128
    requires { is_strictly_ascending set.now ≡ true }
    ensures { result ≡ sum_by (chain_cost (in_set set.now)) (map chain_view chains.now) }
{
    let mut sum: u128 = 0;
    for chain in chains {
        let version = version(&chain.writers, set);
        sum += u128::from(amount_or_zero(&chain.costs, version));
    }
    sum
}

fn first_amounts(rows: &[Vec<u64>]) -> u128
    ensures value { result ≡ sum_by (λ row. get_or row 0 0) (rows_of rows.now) }
    ensures small { result ≤ length rows.now * 18446744073709551615 }
{
    let mut sum: u128 = 0;
    for row in rows {
        sum += u128::from(amount_or_zero(row, 0));
    }
    sum
}

fn total(amounts: &[u64]) -> u128
    ensures value { result ≡ sum amounts.now }
    ensures small { result ≤ length amounts.now * 18446744073709551615 }
{
    let mut sum: u128 = 0;
    for amount in amounts {
        sum += u128::from(*amount);
    }
    sum
}

/// Returns whether the worth is both the flow's, which is the outflow of the source, and the cost of the set.
fn worth_matches(problem: &Problem, certificate: &Certificate) -> bool
    requires ascending { is_strictly_ascending certificate.now.set.items ≡ true }
    requires within { is_within problem.now (certificate_of certificate.now) ≡ true }
    ensures { result ≡ worth_matches problem.now (certificate_of certificate.now) }
{
    let chains = problem.chains();
    let worth = u128::from(certificate.worth);
    if worth != first_amounts(&certificate.chain_flow) + total(&certificate.must_flow) {
        return false;
    }
    worth == set_cost(chains, &certificate.set)
}

/// Returns whether a count of augmentations, if present, is at most nodes times arcs.
fn is_count_in_bound(problem: &Problem, augmentations: Option<u64>) -> bool
    ensures { result ≡ is_count_in_bound problem.now augmentations }
{
    let Some(count) = augmentations else {
        return true;
    };
    let node_count = problem.updates().len() as u128 + 2;
    let arcs = arc_count(problem.before(), problem.chains(), problem.must());
    u128::from(count) <= node_count * arcs
}

/// Returns the first fault of a certificate, if it has one.
fn first_fault(problem: &Problem, certificate: &Certificate) -> Result<(), Fault>
    ensures { result ≡ or_fault (fault problem.now (certificate_of certificate.now)) }
{
    if !is_strictly_ascending(&certificate.set) {
        return Err(Fault::SetNotAscending);
    }
    if !is_set_in_range(problem, &certificate.set) {
        return Err(Fault::UnknownUpdate);
    }
    if !is_closed(problem, &certificate.set) {
        return Err(Fault::SetNotClosed);
    }
    if !is_within(problem, certificate) {
        return Err(Fault::OverCapacity);
    }
    if !is_conserved(problem, certificate) {
        return Err(Fault::NotConserved);
    }
    if !worth_matches(problem, certificate) {
        return Err(Fault::WorthNotCost);
    }
    if !is_count_in_bound(problem, certificate.augmentations) {
        return Err(Fault::TooManyAugmentations);
    }
    Ok(())
}

/// Returns the first fault of a certificate, if it has one.
///
/// `Ok` means that no closed set costs less than the certificate's worth, and that its set is closed and costs exactly
/// that: the flow proves the bound (weak duality), and the cost of the set is compared.
pub fn check(problem: &Problem, certificate: &Certificate) -> Result<(), Fault>
    ensures answer { result ≡ or_fault (fault problem.now (certificate_of certificate.now)) }
    ensures least { IsOk result → (has : ℕ → Bool) → is_closed problem.now has ≡ true
        → certificate.now.worth ≤ cost problem.now has }
    ensures closed { IsOk result → is_closed problem.now (in_set certificate.now.set.items) ≡ true }
    ensures met { IsOk result → certificate.now.worth ≡ cost problem.now (in_set certificate.now.set.items) }
{
    let _sound = problem.updates(); // brings the invariant into the proof
    first_fault(problem, certificate)
}
