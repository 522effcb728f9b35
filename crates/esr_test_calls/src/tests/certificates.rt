//! Certificates with one part changed, and parts that do not form a problem. The check returns the first fault by a
//! definition. No clause can state that the faults have the order and the numbers of the formats.

use Change::{Backs, Count, FirstChain, Musts, Nothing, Set, Worth};
use esr_cert::{BundleFault, Certificate, Chain, Fault, Problem, check};
use esr_history::TxnId;
use esr_items::ItemId;
use std::alloc::{AllocError, Global};
use std::process::Abort;

/// An item with its writers, and what each version costs.
pub(super) type Item<'a> = (u32, &'a [u32], &'a [u64]);

/// The parts of a problem: updates, conflicting pairs, items, and the updates that every placement must have.
#[derive(Clone, Copy)]
struct ProblemParts<'a> {
    updates: &'a [u32],
    before: &'a [(u32, u32)],
    items: &'a [Item<'a>],
    must: &'a [u32],
}

/// Two updates in a row, and two items: the second wrote both, the first one of them.
const REPORT: ProblemParts<'static> = ProblemParts {
    updates: &[2, 3],
    before: &[(0, 1)],
    items: &[(0, &[0, 1], &[0, 10, 1]), (1, &[1], &[8, 0])],
    must: &[],
};

const TOO_DEAR: &[Item<'static>] = &[
    (0, &[0, 1], &[0, 10, 1]),
    (1, &[1], &[2_000_000_000_000_000_001, 0]),
];

/// Two updates in a row, each of a separate item.
const THIRD_ITEM: ProblemParts<'static> = ProblemParts {
    items: &[(0, &[0], &[0, 6]), (1, &[1], &[2, 0])],
    ..REPORT
};

const NOTHING: ProblemParts<'static> = ProblemParts {
    updates: &[],
    before: &[],
    items: &[],
    must: &[],
};

const ONE_ITEM: ProblemParts<'static> = ProblemParts {
    items: &[(0, &[], &[4])],
    ..NOTHING
};

const STRICT: ProblemParts<'static> = ProblemParts {
    updates: &[1],
    before: &[],
    items: &[(0, &[0], &[0, 5])],
    must: &[0],
};

/// The parts of a certificate.
#[derive(Clone, Copy)]
struct Parts<'a> {
    set: &'a [u32],
    chains: &'a [&'a [u64]],
    backs: &'a [u64],
    musts: &'a [u64],
    worth: u64,
}

/// Both updates of the report are in the set.
const BOTH: Parts<'static> = Parts {
    set: &[0, 1],
    chains: &[&[0, 0, 1], &[1, 0]],
    backs: &[0],
    musts: &[],
    worth: 1,
};

/// No update is a member of the set; each wrote a separate item.
const NEITHER: Parts<'static> = Parts {
    set: &[],
    chains: &[&[0, 2], &[2, 0]],
    backs: &[2],
    musts: &[],
    worth: 2,
};

const FREE: Parts<'static> = Parts {
    set: &[],
    chains: &[],
    backs: &[],
    musts: &[],
    worth: 0,
};

const PAID: Parts<'static> = Parts {
    chains: &[&[4]],
    worth: 4,
    ..FREE
};

/// The update that the query must have seen is in the set.
const SEEN: Parts<'static> = Parts {
    set: &[0],
    chains: &[&[0, 5]],
    backs: &[],
    musts: &[5],
    worth: 5,
};

/// A replacement of one part of a certificate.
#[derive(Clone, Copy)]
enum Change<'a> {
    Nothing,
    Set(&'a [u32]),
    FirstChain(&'a [u64]),
    Backs(&'a [u64]),
    Musts(&'a [u64]),
    Worth(u64),
    Count(u64),
}

type Case = (Change<'static>, Option<Fault>);

/// Changes of a certificate of the report, and the first fault of each.
const OF_BOTH: [Case; 10] = [
    (Nothing, None),
    (Set(&[1, 0]), Some(Fault::SetNotAscending)),
    (Set(&[0, 2]), Some(Fault::UnknownUpdate)),
    (Set(&[1]), Some(Fault::SetNotClosed)),
    (Set(&[]), Some(Fault::WorthNotCost)),
    (Worth(0), Some(Fault::WorthNotCost)),
    (Backs(&[]), Some(Fault::OverCapacity)),
    (Backs(&[1]), Some(Fault::NotConserved)),
    (FirstChain(&[0, 0, 2]), Some(Fault::OverCapacity)),
    (FirstChain(&[0, 0, 0]), Some(Fault::NotConserved)),
];

/// A count of augmentations is at most nodes times arcs.
const OF_NEITHER: [Case; 3] = [
    (Count(19), None),
    (Count(20), None),
    (Count(21), Some(Fault::TooManyAugmentations)),
];

const OF_FREE: [Case; 2] = [
    (Count(0), None),
    (Count(1), Some(Fault::TooManyAugmentations)),
];

/// A set must contain the update that the query must have seen.
const OF_SEEN: [Case; 5] = [
    (Nothing, None),
    (Worth(4), Some(Fault::WorthNotCost)),
    (Musts(&[4]), Some(Fault::NotConserved)),
    (Musts(&[]), Some(Fault::OverCapacity)),
    (Set(&[]), Some(Fault::SetNotClosed)),
];

fn faulty_problems() -> &'static [(ProblemParts<'static>, BundleFault)] {
    &REFUSED
}

/// Parts that do not form a problem, and the rule that each breaks.
static REFUSED: [(ProblemParts<'static>, BundleFault); 5] = [
    // Neighbours of a chain do not form a pair.
    (
        ProblemParts {
            before: &[],
            ..REPORT
        },
        BundleFault::Shape,
    ),
    // 0 is not a transaction.
    (
        ProblemParts {
            updates: &[2, 0],
            ..REPORT
        },
        BundleFault::Range,
    ),
    // A cost is above what reads can cost.
    (
        ProblemParts {
            items: TOO_DEAR,
            ..REPORT
        },
        BundleFault::Range,
    ),
    // An update occurs twice, which is a fault of shape and reported before the cost.
    (
        ProblemParts {
            updates: &[2, 2],
            items: TOO_DEAR,
            ..REPORT
        },
        BundleFault::Shape,
    ),
    // A required update is not one of the updates.
    (
        ProblemParts {
            items: &[],
            must: &[1],
            ..STRICT
        },
        BundleFault::Range,
    ),
];

fn numbers(alloc: Global, numbers: &[u32]) -> Result<Vec<TxnId>, AllocError> {
    let mut list = Vec::new(alloc);
    for number in numbers {
        list.push(TxnId(*number))?;
    }
    Ok(list)
}

fn chain(alloc: Global, item: Item) -> Result<Chain, AllocError> {
    let writers = item.1.to_vec(alloc)?;
    let costs = item.2.to_vec(alloc)?;
    Ok(Chain {
        item: ItemId(item.0),
        writers,
        costs,
    })
}

pub(super) fn chains(alloc: Global, items: &[Item]) -> Result<Vec<Chain>, AllocError> {
    let mut chains = Vec::new(alloc);
    for item in items {
        chains.push(chain(alloc, *item)?)?;
    }
    Ok(chains)
}

fn problem(alloc: Global, parts: ProblemParts) -> Result<Problem, BundleFault> {
    let chains = chains(alloc, parts.items)?;
    let updates = numbers(alloc, parts.updates)?;
    let before = parts.before.to_vec(alloc)?;
    let must = parts.must.to_vec(alloc)?;
    Problem::new(alloc, updates, before, chains, must)
}

fn rows(alloc: Global, chains: &[&[u64]]) -> Result<Vec<Vec<u64>>, AllocError> {
    let mut rows = Vec::new(alloc);
    for amounts in chains {
        rows.push(amounts.to_vec(alloc)?)?;
    }
    Ok(rows)
}

fn certificate(alloc: Global, parts: Parts) -> Result<Certificate, AllocError> {
    let chain_flow = rows(alloc, parts.chains)?;
    let set = parts.set.to_vec(alloc)?;
    let back_flow = parts.backs.to_vec(alloc)?;
    let must_flow = parts.musts.to_vec(alloc)?;
    Ok(Certificate {
        set,
        chain_flow,
        back_flow,
        must_flow,
        worth: parts.worth,
        augmentations: None,
    })
}

/// Returns the certificate with its change.
fn change_certificate(
    alloc: Global,
    parts: Parts,
    change: Change,
) -> Result<Certificate, AllocError> {
    let mut certificate = certificate(alloc, parts)?;
    match change {
        Nothing => {}
        Set(set) => certificate.set = set.to_vec(alloc)?,
        FirstChain(amounts) => {
            if !certificate.chain_flow.is_empty() {
                certificate.chain_flow[0] = amounts.to_vec(alloc)?;
            }
        }
        Backs(amounts) => certificate.back_flow = amounts.to_vec(alloc)?,
        Musts(amounts) => certificate.must_flow = amounts.to_vec(alloc)?,
        Worth(worth) => certificate.worth = worth,
        Count(count) => certificate.augmentations = Some(count),
    }
    Ok(certificate)
}

/// Compares the first fault of a certificate with each of these changes.
fn check_all(rt: &impl Abort, alloc: Global, of: ProblemParts, parts: Parts, cases: &[Case]) {
    let Ok(problem) = problem(alloc, of) else {
        panic!(rt; "a problem")
    };
    for (change, fault) in cases {
        let Ok(certificate) = change_certificate(alloc, parts, *change) else {
            panic!(rt; "memory")
        };
        assert!(rt;
            check(&problem, &certificate).err() == *fault,
            "{:?}",
            fault
        );
    }
}

/// A definition determines the fault reported and its number: with two of them swapped the check would be as sound.
#[test]
fn each_fault_of_a_certificate(rt: HostRuntime) {
    check_all(&rt, rt.alloc(), REPORT, BOTH, &OF_BOTH);
    assert!(rt; Fault::NotConserved.number() == 5);
    assert!(rt; Fault::TooManyAugmentations.number() == 7);
}

/// The least distance does not depend on the count: a definition with a larger bound, or none, would be proved.
#[test]
fn a_count_of_augmentations_is_at_most_nodes_times_arcs(rt: HostRuntime) {
    check_all(&rt, rt.alloc(), THIRD_ITEM, NEITHER, &OF_NEITHER);
}

/// Without an arc, no augmentation may be claimed, and a chain without writers is one arc: a definition could say
/// otherwise.
#[test]
fn a_problem_with_no_update(rt: HostRuntime) {
    check_all(&rt, rt.alloc(), NOTHING, FREE, &OF_FREE);
    check_all(&rt, rt.alloc(), ONE_ITEM, PAID, &[(Nothing, None)]);
}

/// A definition determines the fault reported: a set that lacks a required member must be reported as not closed.
#[test]
fn a_set_has_to_hold_must(rt: HostRuntime) {
    check_all(&rt, rt.alloc(), STRICT, SEEN, &OF_SEEN);
}

/// No clause can state that a problem's allocation succeeds: with sound parts it could always fail, and be proved.
#[test]
fn a_problem_keeps_its_parts(rt: HostRuntime) {
    let Ok(problem) = problem(rt.alloc(), REPORT) else {
        panic!(rt; "a problem")
    };
    assert!(rt; problem.updates().len() == 2);
    assert!(rt; problem.before().len() == 1);
    assert!(rt; problem.chains().len() == 2);
    assert!(rt; problem.must().len() == 0);
}

/// The contract permits out of memory in place of each fault; and a definition determines that shape precedes range.
#[test]
fn a_problem_keeps_its_rules(rt: HostRuntime) {
    for (i, (parts, fault)) in faulty_problems().iter().enumerate() {
        assert!(rt; problem(rt.alloc(), *parts).err() == Some(*fault), "at {i}");
    }
    assert!(rt; BundleFault::Range.number() == 3);
}
