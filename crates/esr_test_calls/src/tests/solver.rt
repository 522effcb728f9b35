//! Problems solved by the search from the zero flow, and their solutions by hand. The contract of `solve` specifies
//! the worth and the smallest set. It leaves open which maximum flow is found, and permits out of memory always.

use super::certificates::{Item, chains};
use esr_cert::{Certificate, Problem};
use esr_flow::{DraftOutcome, FromDraft, Network, Solved, find_from_draft, solve};
use esr_history::{NoMemory, TxnId};
use std::alloc::Global;
use std::process::Abort;

/// A problem, and its solution.
struct Row {
    name: &'static str,
    updates: &'static [TxnId],
    before: &'static [(u32, u32)],
    items: &'static [Item<'static>],
    must: &'static [u32],
    set: &'static [u32],
    worth: u64,
    augmentations: Option<u64>,
    flow: Option<Flow>,
}

/// The amounts of a certificate.
#[derive(Clone, Copy)]
struct Flow {
    chains: &'static [&'static [u64]],
    backs: &'static [u64],
    musts: &'static [u64],
}

fn rows() -> &'static [Row] {
    &ROWS
}

static ROWS: [Row; 4] = [
    Row {
        name: "an order through a third item",
        updates: &[TxnId(2), TxnId(3)],
        before: &[(0, 1)],
        items: &[(0, &[0], &[0, 6]), (1, &[1], &[2, 0])],
        must: &[],
        set: &[],
        worth: 2,
        augmentations: Some(1),
        flow: Some(Flow {
            chains: &[&[0, 2], &[2, 0]],
            backs: &[2],
            musts: &[],
        }),
    },
    Row {
        name: "two updates over a report",
        updates: &[TxnId(2), TxnId(3)],
        before: &[(0, 1)],
        items: &[(0, &[0, 1], &[0, 10, 1]), (1, &[1], &[8, 0])],
        must: &[],
        set: &[0, 1],
        worth: 1,
        augmentations: Some(1),
        flow: None,
    },
    Row {
        name: "a query that reads nothing",
        updates: &[],
        before: &[],
        items: &[],
        must: &[],
        set: &[],
        worth: 0,
        augmentations: Some(0),
        flow: None,
    },
    Row {
        name: "a strict report",
        updates: &[TxnId(1)],
        before: &[],
        items: &[(0, &[0], &[0, 5])],
        must: &[0],
        set: &[0],
        worth: 5,
        augmentations: None,
        flow: Some(Flow {
            chains: &[&[0, 5]],
            backs: &[],
            musts: &[5],
        }),
    },
];

/// Solves a problem, and retries once if an allocation fails.
fn answer(alloc: Global, problem: &Problem) -> Result<Solved, NoMemory> {
    match answer_once(alloc, problem) {
        Err(NoMemory) => answer_once(alloc, problem),
        solved => solved,
    }
}

fn answer_once(alloc: Global, problem: &Problem) -> Result<Solved, NoMemory> {
    let network = Network::build(alloc, problem)?;
    solve(alloc, &network)
}

fn problem(alloc: Global, row: &Row) -> Option<Problem> {
    let chains = chains(alloc, row.items).ok()?;
    let updates = row.updates.to_vec(alloc).ok()?;
    let before = row.before.to_vec(alloc).ok()?;
    let must = row.must.to_vec(alloc).ok()?;
    Problem::new(alloc, updates, before, chains, must).ok()
}

/// Returns whether a certificate has these amounts.
fn has_flow(certificate: &Certificate, flow: Flow) -> bool {
    for (row, amounts) in certificate.chain_flow.iter().zip(flow.chains.iter()) {
        if row.as_slice() != *amounts {
            return false;
        }
    }
    certificate.chain_flow.len() == flow.chains.len()
        && certificate.back_flow.as_slice() == flow.backs
        && certificate.must_flow.as_slice() == flow.musts
}

/// Returns whether a solution is that of a row's problem.
fn is_found(solved: &Solved, row: &Row) -> bool {
    solved.certificate.set.as_slice() == row.set
        && solved.certificate.worth == row.worth
        && row
            .augmentations
            .is_none_or(|count| solved.augmentations == count)
        && row
            .flow
            .is_none_or(|flow| has_flow(&solved.certificate, flow))
}

fn check_row(rt: &impl Abort, alloc: Global, row: &Row) {
    let Some(problem) = problem(alloc, row) else {
        panic!(rt; "a problem")
    };
    let Ok(solved) = answer(alloc, &problem) else {
        panic!(rt; "memory")
    };
    assert!(rt; is_found(&solved, row), "{}", row.name);
}

/// A solver that is always out of memory keeps its contract, which also leaves open which maximum flow it finds.
#[test]
fn problems_are_solved(rt: HostRuntime) {
    for row in rows() {
        check_row(&rt, rt.alloc(), row);
    }
}

/// Solves a problem from a draft, and retries once if an allocation fails.
fn from_draft(alloc: Global, problem: &Problem) -> Result<FromDraft, NoMemory> {
    match from_draft_once(alloc, problem) {
        Err(NoMemory) => from_draft_once(alloc, problem),
        found => found,
    }
}

fn from_draft_once(alloc: Global, problem: &Problem) -> Result<FromDraft, NoMemory> {
    let network = Network::build(alloc, problem)?;
    find_from_draft(alloc, &network)
}

fn check_draft(rt: &impl Abort, alloc: Global, row: &Row) {
    let Some(problem) = problem(alloc, row) else {
        panic!(rt; "a problem")
    };
    let Ok(found) = from_draft(alloc, &problem) else {
        panic!(rt; "memory")
    };
    assert!(rt; found.draft == DraftOutcome::Maximum, "{}", row.name);
    assert!(rt; found.certificate.worth == row.worth, "{}", row.name);
    assert!(rt; found.certificate.set.as_slice() == row.set, "{}", row.name);
}

// No clause states that a draft is a maximum flow: another draft costs only time.
#[test]
fn drafts_of_known_problems_are_maximum_flows(rt: HostRuntime) {
    for row in rows() {
        check_draft(&rt, rt.alloc(), row);
    }
}
