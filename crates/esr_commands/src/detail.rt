//! The detail that is printed after the number of a fault of a bundle: a message about its first occurrence. It is advice,
//! proved safe; no clause specifies its text.

use esr_bundle::from_json;
use esr_cert::{BundleFault, Certificate, Chain, Fault, Problem, check};
use std::alloc::{AllocError, Global};

/// Returns the first two neighbours of a list that do not ascend.
fn descent(set: &[u32]) -> Option<(u32, u32)> {
    let mut before = set.first().copied()?;
    for member in set.iter().skip(1) {
        if *member <= before {
            return Some((before, *member));
        }
        before = *member;
    }
    None
}

/// Returns whether an ascending list contains a number.
fn contains(set: &[u32], member: u32) -> bool {
    set.binary_search(&member).is_ok()
}

/// Returns the number of writers up to and including the last one in the set.
fn version(writers: &[u32], set: &[u32]) -> usize {
    let mut version = 0usize;
    for (place, writer) in writers.iter().enumerate() {
        if contains(set, *writer) {
            version = place.saturating_add(1);
        }
    }
    version
}

/// Returns the cost of a set.
fn cost(chains: &[Chain], set: &[u32]) -> u128 {
    let mut sum = 0u128;
    for chain in chains {
        let cost = chain.costs.get(version(&chain.writers, set)).copied();
        sum = sum.saturating_add(u128::from(cost.unwrap_or(0)));
    }
    sum
}

/// Returns the flow out of the source.
fn flow(certificate: &Certificate) -> u128 {
    let mut sum = 0u128;
    for row in &certificate.chain_flow {
        sum = sum.saturating_add(u128::from(row.first().copied().unwrap_or(0)));
    }
    for amount in &certificate.must_flow {
        sum = sum.saturating_add(u128::from(*amount));
    }
    sum
}

/// Appends the predecessor that a set lacks to be closed.
fn push_lack(out: &mut String, problem: &Problem, set: &[u32]) -> Result<(), AllocError> {
    for (u, v) in problem.before() {
        if contains(set, *v) && !contains(set, *u) {
            return write!(out, "set contains update {v} but not its predecessor {u}");
        }
    }
    for must in problem.must() {
        if !contains(set, *must) {
            return write!(out, "set does not contain the required update {must}");
        }
    }
    Ok(())
}

/// Returns the first amount of a chain that exceeds its arc's capacity, with the capacity.
fn excess(chain: &Chain, row: &[u64]) -> Option<(u64, u64)> {
    for (amount, cost) in row.iter().zip(chain.costs.iter()) {
        if *amount > *cost {
            return Some((*amount, *cost));
        }
    }
    None
}

/// Appends the fault of the amounts of a chain, if they have one.
fn push_row(out: &mut String, chain: &Chain, row: &[u64]) -> Result<(), AllocError> {
    let (item, wanted, given) = (chain.item.0, chain.costs.len(), row.len());
    if wanted != given {
        return write!(
            out,
            "chain of item {item} has {wanted} arcs but {given} flow amounts"
        );
    }
    match excess(chain, row) {
        Some((amount, cost)) => write!(
            out,
            "flow {amount} exceeds capacity {cost} in the chain of item {item}"
        ),
        None => Ok(()),
    }
}

/// Appends the lengths of a list and of its amounts, if they differ.
fn push_counts(
    out: &mut String,
    what: &str,
    wanted: usize,
    given: usize,
) -> Result<(), AllocError> {
    if out.is_empty() && wanted != given {
        write!(out, "{wanted} {what} but {given} flow amounts")?;
    }
    Ok(())
}

/// Appends the first amounts that do not fit their arcs.
fn push_excess(
    out: &mut String,
    problem: &Problem,
    certificate: &Certificate,
) -> Result<(), AllocError> {
    let rows = &certificate.chain_flow;
    push_counts(out, "chains", problem.chains().len(), rows.len())?;
    for (chain, row) in problem.chains().iter().zip(rows.iter()) {
        if out.is_empty() {
            push_row(out, chain, row)?;
        }
    }
    let (before, back) = (problem.before().len(), certificate.back_flow.len());
    push_counts(out, "pairs", before, back)?;
    let (must, flow) = (problem.must().len(), certificate.must_flow.len());
    push_counts(out, "required updates", must, flow)
}

/// The flow into an update, and out of it.
#[derive(Clone, Copy)]
struct Balance {
    into: u128,
    from: u128,
}

/// Adds an amount that flows into an update.
fn add_into(balances: &mut [Balance], update: u32, amount: u64) {
    if let Some(balance) = balances.get_mut(update as usize) {
        balance.into = balance.into.saturating_add(u128::from(amount));
    }
}

/// Adds an amount that flows out of an update.
fn add_from(balances: &mut [Balance], update: u32, amount: u64) {
    if let Some(balance) = balances.get_mut(update as usize) {
        balance.from = balance.from.saturating_add(u128::from(amount));
    }
}

/// Adds what flows along a chain: each amount but the last into a writer, each but the first out of one.
fn add_row(balances: &mut [Balance], chain: &Chain, row: &[u64]) {
    for (writer, amount) in chain.writers.iter().zip(row.iter()) {
        add_into(balances, *writer, *amount);
    }
    for (writer, amount) in chain.writers.iter().zip(row.iter().skip(1)) {
        add_from(balances, *writer, *amount);
    }
}

/// Returns the flow into each update, and out of it.
fn balances_of(
    alloc: Global,
    problem: &Problem,
    certificate: &Certificate,
) -> Result<Vec<Balance>, AllocError> {
    let none = Balance { into: 0, from: 0 };
    let mut balances = vec![in alloc; none; problem.updates().len()]?;
    for (chain, row) in problem.chains().iter().zip(certificate.chain_flow.iter()) {
        add_row(&mut balances, chain, row);
    }
    for ((u, v), amount) in problem.before().iter().zip(certificate.back_flow.iter()) {
        add_from(&mut balances, *v, *amount);
        add_into(&mut balances, *u, *amount);
    }
    for (update, amount) in problem.must().iter().zip(certificate.must_flow.iter()) {
        add_into(&mut balances, *update, *amount);
    }
    Ok(balances)
}

/// Appends the first update at which the flow is not conserved.
fn push_imbalance(
    alloc: Global,
    out: &mut String,
    problem: &Problem,
    certificate: &Certificate,
) -> Result<(), AllocError> {
    let balances = balances_of(alloc, problem, certificate)?;
    for (update, balance) in balances.iter().enumerate() {
        if balance.into != balance.from {
            let (into, from) = (balance.into, balance.from);
            return write!(
                out,
                "flow not conserved at update {update}: {into} in, {from} out"
            );
        }
    }
    Ok(())
}

/// Appends the sum that differs from the worth.
fn push_worth(
    out: &mut String,
    problem: &Problem,
    certificate: &Certificate,
) -> Result<(), AllocError> {
    let worth = certificate.worth;
    let cost = cost(problem.chains(), &certificate.set);
    if cost != u128::from(worth) {
        return write!(out, "cost of the set is {cost}, but worth is {worth}");
    }
    let flow = flow(certificate);
    write!(out, "value of the flow is {flow}, but worth is {worth}")
}

/// Appends a description of a certificate's fault.
fn push_fault(
    alloc: Global,
    out: &mut String,
    problem: &Problem,
    certificate: &Certificate,
    fault: Fault,
) -> Result<(), AllocError> {
    match fault {
        Fault::SetNotAscending => match descent(&certificate.set) {
            Some((before, member)) => write!(out, "set not ascending: {member} follows {before}"),
            None => Ok(()),
        },
        Fault::UnknownUpdate => {
            let (count, last) = (problem.updates().len(), certificate.set.last().copied());
            let last = last.unwrap_or(0);
            write!(
                out,
                "set contains update {last}, but there are only {count} updates (numbered from 0)"
            )
        }
        Fault::SetNotClosed => push_lack(out, problem, &certificate.set),
        Fault::OverCapacity => push_excess(out, problem, certificate),
        Fault::NotConserved => push_imbalance(alloc, out, problem, certificate),
        Fault::WorthNotCost => push_worth(out, problem, certificate),
        Fault::TooManyAugmentations => {
            let count = certificate.augmentations.unwrap_or(0);
            write!(out, "{count} augmentations exceed nodes times arcs")
        }
    }
}

/// Returns a description of a bundle's fault; `None` for a valid bundle.
pub fn detail_of(alloc: Global, bytes: &[u8]) -> Result<Option<String>, AllocError> {
    let mut out = String::new(alloc);
    match from_json(alloc, bytes) {
        Ok((problem, certificate)) => match check(&problem, &certificate) {
            Ok(()) => return Ok(None),
            Err(fault) => push_fault(alloc, &mut out, &problem, &certificate, fault)?,
        },
        Err(BundleFault::NoMemory) => return Err(AllocError),
        Err(fault) => write!(out, "{fault}")?,
    }
    Ok(Some(out))
}
