//! Drafts a maximum flow, by two sweeps over the updates in commit order, starting at the prefix of least cost.
//!
//! On each chain the arc that leaves this prefix is filled. The first sweep runs backward from there: all updates before the
//! current one act as the source, and the current update must receive the amounts that its later arcs carry. If the incoming
//! arcs of chains have enough capacity, they share them. Otherwise searches look for residual paths to the update through the
//! updates that were swept already. If a search finds none, the nodes that it has reached are dead, since no later search could
//! find a path there. At the end, an update releases the amounts that it did not receive. The second sweep runs forward in the
//! same way, with all directions reversed; the updates after the current one act as the sink.
//!
//! Rejected: to continue a search after each path. It takes longer paths, and a ring of neighbours took a quarter longer.
//!
//! Nothing is guaranteed of the amounts. A separate test decides whether they are a flow, and augmentations raise a flow to a
//! maximum.
ghost use Rattle.std.specs.Prelude.{◌≡◌, ◌<◌, length, IfOk};
ghost use Rattle.esr_cert.specs.Network.{network};
ghost use Rattle.esr_flow.specs.ResidualGraph.{network_arcs};

use crate::graph::ResidualGraph;
use esr_cert::{Arc, Chain, PackedResidualArc, ResidualArc};
use std::alloc::{AllocError, Global};

/// The number of rows after which no further search starts, divided by the number of nodes.
const MAX_VISITS_PER_NODE: u64 = 120;

/// The maximum number of rounds in which released amounts pass to earlier updates.
const MAX_ROUNDS: usize = 1000;

/// The direction of a sweep.
#[derive(Clone, Copy, PartialEq, Eq)]
enum Sweep {
    /// To earlier updates, from a position on, of which none after it takes part.
    Back(u32),
    Forward,
}

/// The label of a node in a search.
#[derive(Clone, Copy)]
struct NodeLabel {
    /// The number of the last search that reached it.
    search_number: u32,
    /// The step between it and the node from which that search reached it.
    step: ResidualArc,
    /// Whether no search can succeed from it.
    is_dead: bool,
}

/// The state of the searches of a sweep, which share their memory.
#[derive(Drop)]
struct Searches {
    sweep: Sweep,
    /// How many more rows they may visit.
    visits_left: u64,
    /// The number of the current search.
    search_number: u32,
    /// The nodes that the current search has reached, in order.
    queue: Vec<u32>,
    /// The label of each node.
    node_labels: Vec<NodeLabel>,
    /// Whether a back arc at each node may carry an amount that a search from there could cancel. Most nodes have none, so a
    /// search does not look up the amounts on their back arcs.
    may_cancel: Vec<bool>,
}

/// Returns the capacity left on an arc that carries an amount.
fn capacity_on(capacity: Option<u64>, amount: u64) -> u64 {
    match capacity {
        None => u64::MAX.saturating_sub(amount),
        Some(limit) => limit.saturating_sub(amount),
    }
}

/// An arc of a chain. Its capacity takes four bytes: one that does not fit is the largest number, and the arc is looked up.
#[derive(Clone, Copy)]
struct ChainArc {
    limit: u32,
    from: u32,
    to: u32,
}

/// A graph, with the arcs of chains and the pairs by number: the arcs of chains have the first numbers, and those of pairs follow.
#[derive(Drop)]
struct Field<'a> {
    graph: &'a ResidualGraph<'a>,
    chain_arcs: Vec<ChainArc>,
    /// The precedence pairs. The arc of a pair leads from the second update to the first.
    pairs: &'a [(u32, u32)],
}

/// Adds the arcs of a chain.
fn push_chain_arcs(
    chain_arcs: &mut Vec<ChainArc>,
    chain: &Chain,
    source: u32,
) -> Result<(), AllocError> {
    let mut from = source;
    for (j, cost) in chain.costs.iter().enumerate() {
        let to = match chain.writers.get(j) {
            Some(writer) => *writer,
            None => source.saturating_add(1),
        };
        let limit = u32::try_from(*cost).unwrap_or(u32::MAX);
        chain_arcs.push(ChainArc { limit, from, to })?;
        from = to;
    }
    Ok(())
}

impl<'a> Field<'a> {
    fn of(alloc: Global, graph: &'a ResidualGraph<'a>) -> Result<Field<'a>, AllocError> {
        let chains = graph.problem.chains();
        let mut count = 0usize;
        for chain in chains {
            count = count.saturating_add(chain.costs.len());
        }
        let mut chain_arcs = Vec::with_capacity(alloc, count)?;
        for chain in chains {
            push_chain_arcs(&mut chain_arcs, chain, graph.source as u32)?;
        }
        let pairs = graph.problem.before();
        Ok(Field {
            graph,
            chain_arcs,
            pairs,
        })
    }

    /// Returns the capacity of an arc, or `None` if the arc is not in a chain.
    fn limit(&self, number: u32) -> Option<u64> {
        let arc = self.chain_arcs.get(number as usize).copied()?;
        if arc.limit == u32::MAX {
            return arc_at(self, number).capacity;
        }
        Some(u64::from(arc.limit))
    }

    /// Returns whether an arc is in a chain.
    fn is_of_chain(&self, number: u32) -> bool {
        (number as usize) < self.chain_arcs.len()
    }

    /// Returns the tail and the head of an arc.
    fn ends(&self, number: u32) -> (u32, u32) {
        let place = number as usize;
        if let Some(arc) = self.chain_arcs.get(place) {
            return (arc.from, arc.to);
        }
        if let Some(pair) = self.pairs.get(place.saturating_sub(self.chain_arcs.len())) {
            return (pair.1, pair.0);
        }
        let arc = arc_at(self, number);
        (arc.from, arc.to)
    }
}

/// Returns the number at an index, or 0 if it is out of range.
fn number_at(numbers: &[u64], place: usize) -> u64 {
    match numbers.get(place) {
        Some(number) => *number,
        None => 0,
    }
}

/// Adds to the number at an index.
fn add_at(numbers: &mut [u64], place: usize, more: u64)
    ensures { length numbers.new ≡ length numbers.old }
{
    if place < numbers.len() {
        numbers[place] = numbers[place].saturating_add(more);
    }
}

/// Subtracts up to `upper_bound` from the number at an index. Returns the amount subtracted.
fn take_at(numbers: &mut [u64], place: usize, upper_bound: u64) -> u64
    ensures { length numbers.new ≡ length numbers.old }
{
    let taken = number_at(numbers, place).min(upper_bound);
    if place < numbers.len() {
        numbers[place] = numbers[place].saturating_sub(taken);
    }
    taken
}

/// Returns the steps that start at a node, or an empty row if there is no such node.
fn row_of<'a>(field: &'a Field, node: usize) -> &'a [PackedResidualArc] {
    if node < field.graph.node_count {
        field.graph.steps_at(node)
    } else {
        &[]
    }
}

/// Returns the arc with a number, or an arc without ends and capacity if there is none.
fn arc_at(field: &Field, number: u32) -> Arc {
    if (number as usize) < field.graph.adjacency.steps.len() / 2 {
        field.graph.problem.arc(number)
    } else {
        Arc {
            from: 0,
            to: 0,
            capacity: Some(0),
        }
    }
}

/// Returns the end of a step that is nearer to the start of the search, and the residual capacity of the step.
fn end_and_capacity(field: &Field, flow: &[u64], sweep: Sweep, step: ResidualArc) -> (u32, u64) {
    let number = step.arc();
    let (from, to) = field.ends(number);
    let amount = number_at(flow, number as usize);
    let (start, finish, spare_capacity) = match step {
        ResidualArc::Forward(_) => (from, to, capacity_on(field.limit(number), amount)),
        ResidualArc::Backward(_) => (to, from, amount),
    };
    match sweep {
        Sweep::Back(_) => (finish, spare_capacity),
        Sweep::Forward => (start, spare_capacity),
    }
}

/// Returns the direction in which a sweep's search uses a step from a node: the step itself, or its opposite if the
/// node is to receive more.
fn step_of(sweep: Sweep, step: ResidualArc) -> ResidualArc {
    match sweep {
        Sweep::Back(_) => step.opposite(),
        Sweep::Forward => step,
    }
}

/// Returns whether a sweep may use a residual step. Amounts are subtracted from back arcs only, since each arc of a chain has a
/// back arc in the opposite direction.
fn is_open(field: &Field, flow: &[u64], residual_step: ResidualArc) -> bool {
    let number = residual_step.arc();
    match residual_step {
        ResidualArc::Forward(_) => match field.limit(number) {
            Some(limit) => number_at(flow, number as usize) < limit,
            None => true,
        },
        ResidualArc::Backward(_) => {
            !field.is_of_chain(number) && 0 < number_at(flow, number as usize)
        }
    }
}

/// Returns the end of a residual step that is farther from the start of the search.
fn far_end(field: &Field, sweep: Sweep, residual_step: ResidualArc) -> u32 {
    let (from, to) = field.ends(residual_step.arc());
    let (start, finish) = match residual_step {
        ResidualArc::Forward(_) => (from, to),
        ResidualArc::Backward(_) => (to, from),
    };
    match sweep {
        Sweep::Back(_) => start,
        Sweep::Forward => finish,
    }
}

/// Returns the node from which a search of a sweep could cancel the amount on an arc.
fn canceller(field: &Field, sweep: Sweep, number: u32) -> u32 {
    let (from, to) = field.ends(number);
    match sweep {
        Sweep::Back(_) => from,
        Sweep::Forward => to,
    }
}

/// Returns whether a node acts as the source of a backward sweep, or as the sink of a forward sweep, at an update.
fn is_outside(field: &Field, sweep: Sweep, update: u32, node: u32) -> bool {
    match sweep {
        Sweep::Back(_) => node < update || node as usize == field.graph.source,
        Sweep::Forward => update < node && node as usize != field.graph.source,
    }
}

/// Returns whether a node takes part in a sweep.
fn takes_part(field: &Field, sweep: Sweep, node: u32) -> bool {
    match sweep {
        Sweep::Back(middle) => node < middle,
        Sweep::Forward => (node as usize) < field.graph.source,
    }
}

impl Searches {
    /// Prepares searches in a graph of `node_count` nodes.
    fn new(
        alloc: Global,
        field: &Field,
        flow: &[u64],
        sweep: Sweep,
    ) -> Result<Searches, AllocError> {
        let node_count = field.graph.node_count;
        let unlabelled = NodeLabel {
            search_number: 0,
            step: ResidualArc::Forward(0),
            is_dead: false,
        };
        let mut searches = Searches {
            sweep,
            visits_left: MAX_VISITS_PER_NODE.saturating_mul(node_count as u64),
            search_number: 0,
            queue: Vec::with_capacity(alloc, node_count)?,
            node_labels: vec![in alloc; unlabelled; node_count]?,
            may_cancel: vec![in alloc; false; node_count]?,
        };
        searches.note_amounts(field, flow);
        Ok(searches)
    }

    /// Notes the nodes at which a back arc carries an amount.
    fn note_amounts(&mut self, field: &Field, flow: &[u64]) {
        for i in field.chain_arcs.len()..flow.len() {
            if 0 < flow[i] {
                self.note(field, u32::try_from(i).unwrap_or(u32::MAX));
            }
        }
    }

    /// Notes that an arc carries an amount.
    fn note(&mut self, field: &Field, number: u32) {
        let node = canceller(field, self.sweep, number) as usize;
        if node < self.may_cancel.len() {
            self.may_cancel[node] = true;
        }
    }

    /// Returns whether a residual step from a node is certainly closed.
    fn is_idle(&self, node: u32, residual_step: ResidualArc) -> bool {
        let may_cancel = self.may_cancel.get(node as usize).copied().unwrap_or(true);
        match residual_step {
            ResidualArc::Forward(_) => false,
            ResidualArc::Backward(_) => !may_cancel,
        }
    }

    /// Begins a search from a node.
    fn begin(&mut self, node: u32) -> Result<(), AllocError> {
        self.search_number = self.search_number.saturating_add(1);
        self.queue.clear();
        self.enqueue(node, ResidualArc::Forward(0))
    }

    /// Labels and enqueues a node, unless the search has reached it or the node is dead.
    fn enqueue(&mut self, node: u32, step: ResidualArc) -> Result<(), AllocError> {
        let i = node as usize;
        if i < self.node_labels.len() {
            let node_label = self.node_labels[i];
            if node_label.search_number != self.search_number && !node_label.is_dead {
                self.node_labels[i] = NodeLabel {
                    search_number: self.search_number,
                    step,
                    is_dead: false,
                };
                self.queue.push(node)?;
            }
        }
        Ok(())
    }

    /// Returns the step by which the current search reached a node.
    fn step_to(&self, node: usize) -> ResidualArc {
        match self.node_labels.get(node) {
            Some(node_label) => node_label.step,
            None => ResidualArc::Forward(0),
        }
    }

    /// Makes later searches skip the nodes that this search reached: no path leads from them to the outside.
    fn exclude_reached(&mut self) {
        for node in &self.queue {
            let i = *node as usize;
            if i < self.node_labels.len() {
                self.node_labels[i].is_dead = true;
            }
        }
    }

    /// Expands a node: enqueues the nodes to which a residual step leads, up to the first one that is outside. Returns the step
    /// to that one.
    fn expand(
        &mut self,
        field: &Field,
        flow: &[u64],
        update: u32,
        node: u32,
    ) -> Result<Option<ResidualArc>, AllocError> {
        self.visits_left = self.visits_left.saturating_sub(1);
        for short in row_of(field, node as usize) {
            let step = step_of(self.sweep, short.unpack());
            if !self.is_idle(node, step) && is_open(field, flow, step) {
                let next = far_end(field, self.sweep, step);
                if is_outside(field, self.sweep, update, next) {
                    return Ok(Some(step));
                }
                if takes_part(field, self.sweep, next) {
                    self.enqueue(next, step)?;
                }
            }
        }
        Ok(None)
    }

    /// Searches for a shortest path between an update and the outside. Returns the step at the outside.
    fn search(
        &mut self,
        field: &Field,
        flow: &[u64],
        update: u32,
    ) -> Result<Option<ResidualArc>, AllocError> {
        self.begin(update)?;
        for head in 0..field.graph.node_count {
            let Some(node) = self.queue.get(head).copied() else {
                return Ok(None);
            };
            let last = self.expand(field, flow, update, node)?;
            if last.is_some() {
                return Ok(last);
            }
        }
        Ok(None)
    }

    /// Returns the bottleneck of a path, at most `due`; 0 without a path.
    fn bottleneck(
        &self,
        field: &Field,
        flow: &[u64],
        update: u32,
        last: ResidualArc,
        due: u64,
    ) -> u64 {
        let mut least = due;
        let mut step = last;
        for _ in 0..field.graph.node_count {
            let (node, spare_capacity) = end_and_capacity(field, flow, self.sweep, step);
            least = least.min(spare_capacity);
            if node == update {
                return least;
            }
            step = self.step_to(node as usize);
        }
        0
    }

    /// Adds an amount on each arc of a path.
    fn augment(
        &mut self,
        field: &Field,
        flow: &mut [u64],
        update: u32,
        last: ResidualArc,
        amount: u64,
    )
        ensures { length flow.new ≡ length flow.old }
    {
        let mut step = last;
        for _ in 0..field.graph.node_count {
            augment_over(field, flow, step, amount);
            self.note(field, step.arc());
            let (node, _) = end_and_capacity(field, flow, self.sweep, step);
            if node == update {
                return;
            }
            step = self.step_to(node as usize);
        }
    }

    /// Adds the amount due to an update, along the paths that are found. Returns the amount still due.
    fn route(
        &mut self,
        field: &Field,
        flow: &mut [u64],
        update: u32,
        due: u64,
    ) -> Result<u64, AllocError>
        ensures { length flow.new ≡ length flow.old }
    {
        let mut due = due;
        // no more turns than visits are left, since each search takes one at least
        for _ in 0..self.visits_left {
            if due == 0 || self.visits_left == 0 {
                return Ok(due);
            }
            let Some(last) = self.search(field, flow, update)? else {
                self.exclude_reached();
                return Ok(due);
            };
            let amount = self.bottleneck(field, flow, update, last, due);
            self.augment(field, flow, update, last, amount);
            due = due.saturating_sub(amount);
        }
        Ok(due)
    }
}

/// Subtracts up to `amount` from the arcs of chains that lead from one node to another. Returns the rest of `amount`.
fn take_back(field: &Field, flow: &mut [u64], from: u32, to: u32, amount: u64) -> u64
    ensures { length flow.new ≡ length flow.old }
{
    let mut left = amount;
    for short in row_of(field, from as usize) {
        let number = short.unpack().arc();
        if left == 0 || !field.is_of_chain(number) {
            return left;
        }
        let (tail, head) = field.ends(number);
        if tail == from && head == to {
            left = left.saturating_sub(take_at(flow, number as usize, left));
        }
    }
    left
}

/// Adds an amount on the arc of a step, or subtracts it if the step goes against the arc. An amount over a back arc is
/// first subtracted from the arcs of chains in the opposite direction, which keeps paths short.
fn augment_over(field: &Field, flow: &mut [u64], step: ResidualArc, amount: u64)
    ensures { length flow.new ≡ length flow.old }
{
    match step {
        ResidualArc::Backward(number) => {
            take_at(flow, number as usize, amount);
        }
        ResidualArc::Forward(number) => {
            let more = if field.is_of_chain(number) {
                amount
            } else {
                let (from, to) = field.ends(number);
                take_back(field, flow, to, from, amount)
            };
            add_at(flow, number as usize, more);
        }
    }
}

/// Returns whether a sweep needs more on the arc of a step from a node: on its incoming arcs, or on its outgoing ones.
fn asks(sweep: Sweep, step: ResidualArc) -> bool {
    match step {
        ResidualArc::Forward(_) => sweep == Sweep::Forward,
        ResidualArc::Backward(_) => sweep != Sweep::Forward,
    }
}

/// Returns the amount that the arcs of chains on one side of a node carry, and the capacity of those on the other side.
fn due_and_capacity(field: &Field, flow: &[u64], sweep: Sweep, node: usize) -> (u64, u64) {
    let mut due: u64 = 0;
    let mut spare_capacity: u64 = 0;
    for short in row_of(field, node) {
        let step = short.unpack();
        let Some(limit) = field.limit(step.arc()) else {
            return (due, spare_capacity);
        };
        if asks(sweep, step) {
            spare_capacity = spare_capacity.saturating_add(limit);
        } else {
            due = due.saturating_add(number_at(flow, step.arc() as usize));
        }
    }
    (due, spare_capacity)
}

/// Returns the ratio of an amount to a larger one, in units of 2^-31, rounded down.
fn ratio_of(amount: u64, sum: u64) -> u64 {
    let down = 32u32.saturating_sub(sum.leading_zeros());
    let parts = (amount >> down).saturating_mul(1 << 31);
    // rounded up, so that a ratio is never too large
    let Some(whole) = (sum >> down).checked_add(1) else {
        return 0;
    };
    parts / whole
}

/// Returns the product of a weight and a ratio, rounded down.
fn part_of(weight: u64, ratio: u64) -> u64 {
    // the product has 64 bits either way; a large weight loses its last 31
    if weight < 1 << 32 {
        weight.saturating_mul(ratio) >> 31
    } else {
        (weight >> 31).saturating_mul(ratio)
    }
}

/// Distributes the amount due over the arcs of chains on that side of a node, in the ratio of their capacities. Returns
/// the rest.
fn share(
    field: &Field,
    flow: &mut [u64],
    sweep: Sweep,
    node: usize,
    due: u64,
    spare_capacity: u64,
) -> u64
    ensures { length flow.new ≡ length flow.old }
{
    let ratio = ratio_of(due, spare_capacity);
    let mut left = due;
    for short in row_of(field, node) {
        let step = short.unpack();
        let Some(limit) = field.limit(step.arc()) else {
            return left;
        };
        if asks(sweep, step) {
            let part = part_of(limit, ratio).min(left);
            add_at(flow, step.arc() as usize, part);
            left = left.saturating_sub(part);
        }
    }
    left
}

/// Adds the amount due to the arcs of chains on that side of a node, in their order, up to their capacities. Returns
/// the rest.
fn fill(field: &Field, flow: &mut [u64], sweep: Sweep, node: usize, due: u64) -> u64
    ensures { length flow.new ≡ length flow.old }
{
    let mut left = due;
    for short in row_of(field, node) {
        let step = short.unpack();
        let limit = field.limit(step.arc());
        if left == 0 || limit.is_none() {
            return left;
        }
        if asks(sweep, step) {
            let place = step.arc() as usize;
            let part = capacity_on(limit, number_at(flow, place)).min(left);
            add_at(flow, place, part);
            left = left.saturating_sub(part);
        }
    }
    left
}

/// Returns the arc from the source to a node that a set must contain, which is the last of those at the node.
fn must_arc(field: &Field, node: usize) -> Option<u32> {
    if field.graph.problem.must().is_empty() {
        return None;
    }
    let number = row_of(field, node).last()?.unpack().arc();
    if !field.is_of_chain(number) && field.ends(number).0 as usize == field.graph.source {
        Some(number)
    } else {
        None
    }
}

/// Brings to an update the amount that its later arcs carry away, as far as possible. Returns the amount still due.
fn add_update(
    field: &Field,
    flow: &mut [u64],
    searches: &mut Searches,
    update: u32,
) -> Result<u64, AllocError>
    ensures { length flow.new ≡ length flow.old }
{
    let node = update as usize;
    let (due, spare_capacity) = due_and_capacity(field, flow, searches.sweep, node);
    if due == 0 {
        return Ok(0);
    }
    if searches.sweep != Sweep::Forward {
        if let Some(number) = must_arc(field, node) {
            add_at(flow, number as usize, due);
            return Ok(0);
        }
    }
    if due < spare_capacity {
        let left = share(field, flow, searches.sweep, node, due, spare_capacity);
        return Ok(fill(field, flow, searches.sweep, node, left));
    }
    let left = fill(field, flow, searches.sweep, node, due);
    searches.route(field, flow, update, left)
}

/// Subtracts the amount that a node did not receive from the arcs on its other side, so that the nodes there lack it.
/// Returns whether this round has already passed one of those nodes.
fn released(field: &Field, flow: &mut [u64], owed: &mut [u64], sweep: Sweep, node: u32) -> bool
    ensures flow { length flow.new ≡ length flow.old }
    ensures owed { length owed.new ≡ length owed.old }
{
    let mut left = number_at(owed, node as usize);
    take_at(owed, node as usize, left);
    let mut is_back = false;
    for short in row_of(field, node as usize) {
        let step = short.unpack();
        if left == 0 {
            return is_back;
        }
        if !asks(sweep, step) {
            let taken = take_at(flow, step.arc() as usize, left);
            left = left.saturating_sub(taken);
            let (from, to) = field.ends(step.arc());
            let (next, is_before) = match sweep {
                Sweep::Back(_) => (to, to < node),
                Sweep::Forward => (from, node < from),
            };
            if takes_part(field, sweep, next) {
                add_at(owed, next as usize, taken);
                is_back = is_back || (is_before && 0 < taken);
            }
        }
    }
    is_back
}

/// Releases the amounts that updates did not receive, in reverse order of the sweep. Returns whether another round is
/// needed.
fn release_all(field: &Field, flow: &mut [u64], owed: &mut [u64], sweep: Sweep) -> bool
    ensures flow { length flow.new ≡ length flow.old }
    ensures owed { length owed.new ≡ length owed.old }
{
    let mut is_back = false;
    let count = field.graph.source as u32;
    let last = count.saturating_sub(1);
    for i in 0..count {
        let node = match sweep {
            Sweep::Back(_) => i,
            Sweep::Forward => last.saturating_sub(i),
        };
        if 0 < number_at(owed, node as usize) && released(field, flow, owed, sweep, node) {
            is_back = true;
        }
    }
    is_back
}

/// Adds the updates before a position, from the last to the first. Returns the amount that each did not receive.
fn add_back(
    alloc: Global,
    field: &Field,
    flow: &mut [u64],
    middle: u32,
) -> Result<Vec<u64>, AllocError>
    ensures { length flow.new ≡ length flow.old }
{
    let mut searches = Searches::new(alloc, field, flow, Sweep::Back(middle))?;
    let mut owed = vec![in alloc; 0u64; field.graph.node_count]?;
    for update in (0..middle).rev() {
        let left = add_update(field, flow, &mut searches, update)?;
        add_at(&mut owed, update as usize, left);
    }
    Ok(owed)
}

/// Adds the updates from a position on, from the first to the last. Returns the amount that each could not pass on.
fn add_forward(
    alloc: Global,
    field: &Field,
    flow: &mut [u64],
    middle: u32,
) -> Result<Vec<u64>, AllocError>
    ensures { length flow.new ≡ length flow.old }
{
    let mut searches = Searches::new(alloc, field, flow, Sweep::Forward)?;
    let mut owed = vec![in alloc; 0u64; field.graph.node_count]?;
    for update in middle..field.graph.source as u32 {
        let left = add_update(field, flow, &mut searches, update)?;
        add_at(&mut owed, update as usize, left);
    }
    Ok(owed)
}

/// Lets go of all that is owed.
fn settle(field: &Field, flow: &mut [u64], mut owed: Vec<u64>, sweep: Sweep)
    ensures { length flow.new ≡ length flow.old }
{
    for _ in 0..MAX_ROUNDS {
        if !release_all(field, flow, &mut owed, sweep) {
            return;
        }
    }
}

/// Adds to the number at an index, modulo 2^64.
fn wrap_at(numbers: &mut [u64], place: usize, more: u64)
    ensures { length numbers.new ≡ length numbers.old }
{
    if place < numbers.len() {
        numbers[place] = numbers[place].wrapping_add(more);
    }
}

/// Adds the costs of a chain's versions to the changes of cost between consecutive prefixes, at the ends of its arcs.
fn add_costs(changes: &mut [u64], chain: &Chain, source: u32)
    ensures { length changes.new ≡ length changes.old }
{
    let mut from = source;
    for (j, cost) in chain.costs.iter().enumerate() {
        wrap_at(changes, from as usize, *cost);
        from = chain
            .writers
            .get(j)
            .copied()
            .unwrap_or(source.saturating_add(1));
        wrap_at(changes, from as usize, cost.wrapping_neg());
    }
}

/// Returns for each update how much more the prefix up to and including it costs than the one before it, modulo 2^64,
/// and at the index of the source the cost of the empty prefix.
fn cost_changes(alloc: Global, field: &Field) -> Result<Vec<u64>, AllocError> {
    let mut changes = vec![in alloc; 0u64; field.graph.node_count]?;
    for chain in field.graph.problem.chains() {
        add_costs(&mut changes, chain, field.graph.source as u32);
    }
    Ok(changes)
}

/// Returns the length of the cheapest prefix that contains the updates that each set must contain; or the number of all
/// updates if few follow it.
fn find_middle(alloc: Global, field: &Field) -> Result<u32, AllocError> {
    let changes = cost_changes(alloc, field)?;
    let mut cost = number_at(&changes, field.graph.source);
    let mut least = cost;
    let count = field.graph.source as u32;
    let mut middle = 0;
    let first = match field.graph.problem.must().last() {
        Some(update) => update.saturating_add(1),
        None => 0,
    };
    for update in 0..count {
        cost = cost.wrapping_add(number_at(&changes, update as usize));
        let position = update.saturating_add(1);
        // up to the last update that must be held, each longer prefix is taken, whatever it costs
        if position <= first || cost < least {
            least = cost;
            middle = position;
        }
    }
    // a second sweep for so few updates costs more than it saves
    if count.saturating_sub(middle) <= count / 8 {
        return Ok(count);
    }
    Ok(middle)
}

/// Fills the arc of a chain that leaves the updates before a position. The arcs of the chain begin at a number.
fn fill_in_chain(flow: &mut [u64], chain: &Chain, begin: usize, middle: u32)
    ensures { length flow.new ≡ length flow.old }
{
    let place = chain.writers.partition_point(|writer| *writer < middle);
    if let Some(cost) = chain.costs.get(place) {
        add_at(flow, begin.saturating_add(place), *cost);
    }
}

/// Fills the arcs of chains that leave the updates before a position.
fn fill_middle(field: &Field, flow: &mut [u64], middle: u32)
    ensures { length flow.new ≡ length flow.old }
{
    let mut begin = 0usize;
    for chain in field.graph.problem.chains() {
        fill_in_chain(flow, chain, begin, middle);
        begin = begin.saturating_add(chain.costs.len());
    }
}

/// Amounts for the arcs of a graph that mostly are a maximum flow.
pub fn draft<'a>(alloc: Global, graph: &'a ResidualGraph<'a>) -> Result<Vec<u64>, AllocError>
    ensures { IfOk result (λ flow. length flow.items ≡ length (network_arcs graph.now)) }
{
    let mut flow = vec![in alloc; 0u64; graph.adjacency.steps.len() / 2]?;
    let field = Field::of(alloc, graph)?;
    let middle = find_middle(alloc, &field)?;
    fill_middle(&field, &mut flow, middle);
    let owed = add_back(alloc, &field, &mut flow, middle)?;
    settle(&field, &mut flow, owed, Sweep::Back(middle));
    if (middle as usize) < graph.source {
        let owed = add_forward(alloc, &field, &mut flow, middle)?;
        settle(&field, &mut flow, owed, Sweep::Forward);
    }
    Ok(flow)
}
