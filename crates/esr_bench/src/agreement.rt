//! Random problems: compares the certificate found from a draft of a flow with the solver's, and counts the outcomes
//! of the drafts.

use crate::draws::Draws;
use anyhow::{Result, anyhow};
use esr_cert::{Chain, Problem, check};
use esr_flow::{DraftOutcome, FromDraft, Network, find_from_draft, solve};
use esr_history::TxnId;
use esr_items::ItemId;
use std::alloc::Global;

/// A problem has fewer updates than this.
const UPDATES: u32 = 12;

/// The numbers of drafts that were maximum flows, that were raised to one, and that were not flows.
#[derive(Clone, Copy)]
struct Outcomes {
    maximum: u64,
    raised: u64,
    no_flow: u64,
}

/// The pairs of updates of a problem: place u * UPDATES + v is that of u and v.
#[derive(Drop)]
struct Pairs {
    marks: Vec<bool>,
}

impl Pairs {
    fn mark(&mut self, u: u32, v: u32) {
        let place = u.saturating_mul(UPDATES).saturating_add(v) as usize;
        if place < self.marks.len() {
            self.marks[place] = true;
        }
    }

    fn has(&self, u: u32, v: u32) -> bool {
        let place = u.saturating_mul(UPDATES).saturating_add(v) as usize;
        self.marks.get(place).copied().unwrap_or(false)
    }
}

/// Returns some of the numbers below `count`, ascending: each with probability 1 / `one_in`.
fn some_below(alloc: Global, draws: &mut Draws, count: u32, one_in: u32) -> Result<Vec<u32>> {
    let mut some = Vec::new(alloc);
    for u in 0..count {
        if draws.next(one_in) == 0 {
            some.push(u)?;
        }
    }
    Ok(some)
}

/// Returns a chain of some updates, of which each two neighbours are marked as a pair.
fn chain(
    alloc: Global,
    draws: &mut Draws,
    pairs: &mut Pairs,
    item: u32,
    count: u32,
) -> Result<Chain> {
    let writers = some_below(alloc, draws, count, 3)?;
    let mut costs = Vec::new(alloc);
    costs.push(u64::from(draws.next(10)))?;
    let mut last = None;
    for writer in &writers {
        if let Some(before) = last {
            pairs.mark(before, *writer);
        }
        last = Some(*writer);
        costs.push(u64::from(draws.next(10)))?;
    }
    Ok(Chain {
        item: ItemId(item),
        writers,
        costs,
    })
}

/// Returns the marked pairs, and some more, ascending.
fn list_pairs(
    alloc: Global,
    draws: &mut Draws,
    pairs: &Pairs,
    count: u32,
) -> Result<Vec<(u32, u32)>> {
    let mut before = Vec::new(alloc);
    for u in 0..count {
        for v in u.saturating_add(1)..count {
            if pairs.has(u, v) || draws.next(8) == 0 {
                before.push((u, v))?;
            }
        }
    }
    Ok(before)
}

/// Returns a random problem.
fn problem(alloc: Global, draws: &mut Draws) -> Result<Problem> {
    let count = draws.next(UPDATES);
    let items = draws.next(5).saturating_add(1);
    let mut pairs = Pairs {
        marks: vec![in alloc; false; 144]?,
    };
    let mut chains = Vec::new(alloc);
    for item in 0..items {
        let chain = chain(alloc, draws, &mut pairs, item, count)?;
        chains.push(chain)?;
    }
    let before = list_pairs(alloc, draws, &pairs, count)?;
    let is_strict = draws.next(4) == 0;
    let must = some_below(alloc, draws, if is_strict { count } else { 0 }, 6)?;
    let mut updates = Vec::new(alloc);
    for u in 0..count {
        updates.push(TxnId(u.saturating_add(1)))?;
    }
    match Problem::new(alloc, updates, before, chains, must) {
        Ok(problem) => Ok(problem),
        Err(fault) => Err(anyhow!("no problem: {fault:?}")),
    }
}

/// Returns whether the result from a draft has the worth and the set of the solver's, and is valid.
fn compare_certificates(alloc: Global, problem: &Problem) -> Result<(bool, DraftOutcome)> {
    let Ok(network) = Network::build(alloc, problem) else {
        return Err(anyhow!("out of memory"));
    };
    let (Ok(solved), Ok(found)) = (solve(alloc, &network), find_from_draft(alloc, &network)) else {
        return Err(anyhow!("out of memory"));
    };
    let FromDraft { certificate, draft } = found;
    let is_alike = certificate.worth == solved.certificate.worth
        && certificate.set.as_slice() == solved.certificate.set.as_slice()
        && check(problem, &certificate).is_ok();
    Ok((is_alike, draft))
}

fn count_outcome(outcomes: Outcomes, draft: DraftOutcome) -> Outcomes {
    match draft {
        DraftOutcome::Maximum => Outcomes {
            maximum: outcomes.maximum.saturating_add(1),
            ..outcomes
        },
        DraftOutcome::Raised => Outcomes {
            raised: outcomes.raised.saturating_add(1),
            ..outcomes
        },
        DraftOutcome::NoFlow => Outcomes {
            no_flow: outcomes.no_flow.saturating_add(1),
            ..outcomes
        },
    }
}

/// Compares the certificates of `problems` random problems, and reports the outcomes of the drafts.
pub fn compare(rt: &impl Print, alloc: Global, problems: u64) -> Result<()> {
    let mut draws = Draws { state: 2026 };
    let mut outcomes = Outcomes {
        maximum: 0,
        raised: 0,
        no_flow: 0,
    };
    for k in 0..problems {
        let problem = problem(alloc, &mut draws)?;
        let (is_alike, draft) = compare_certificates(alloc, &problem)?;
        if !is_alike {
            return Err(anyhow!("problem {k}: another worth or set than the solver's"));
        }
        outcomes = count_outcome(outcomes, draft);
    }
    let Outcomes {
        maximum,
        raised,
        no_flow,
    } = outcomes;
    println!(rt;
        "problems {problems} alike; drafts: maximum {maximum}, raised {raised}, no flow {no_flow}"
    )?;
    Ok(())
}
