//! Builds the scene of a query's audit.
//!
//! The selected lanes and updates depend on the space, and the space that they need depends on their names and values.
//! So a scene is built with the maximum number of updates, and if it is too wide, again with fewer.

use crate::arrow_reduction::{Slots, arrows};
use crate::lanes::{LaneVersions, reads_in, reads_of_values, versions_drawn};
use crate::observed_reads::{read_counts_by_value, read_flags_by_version, transient_reads_of};
use crate::reasons::add_reasons;
use crate::selection::{Choice, FEW_RELEVANT, choose};
use crate::titles::{arrow_title, update_title};
use crate::versions::{unwritten, versions_of};
use esr_cert::{Chain, Problem};
use esr_history::TxnId;
use esr_items::Metric;
use esr_report::name_of_transaction;
use esr_svg::{
    Arrow, Deciding, Lane, LaneReads, LaneSegment, MAX_UPDATES, Scene, Update, updates_to_keep,
};
use esr_text::first;
use esr_trace::{Audited, NearestPlacement, Positions, QueryTrace, relevant_updates, sentences_of};
use esr_wording::{TxnClass, TxnCounts, push_undrawn};
use std::alloc::{AllocError, Global};

/// The number of times that a scene that is too wide is rebuilt with fewer updates, but at least [`FEW_RELEVANT`].
const MAX_TRIES: u32 = 12;

/// The number of tries after that: with these updates down to one, and some values read within dotted segments; with these
/// updates and no such value; with one update before the line; and with none.
const LAST_TRIES: u32 = 15;

/// The maximum number of values read within each stretch of several.
const MAX_READS: usize = 2;

/// The number of causes of the farthest reads that come before the updates that were charged most, and the number of these.
const FIRST_CAUSES: usize = 3;

const MAX_CHARGERS: usize = 3;

/// The maximum number of items without a lane that are named.
const MAX_NAMES: usize = 3;

/// The maximum content of a scene.
#[derive(Clone, Copy)]
struct Extent {
    updates: usize,
    /// Whether the relevant updates after the line are left out, since a lane is wider with an update that does not bound its
    /// version at the line.
    is_before_line: bool,
    /// The values that were read within each stretch of several.
    reads: usize,
}

impl Extent {
    /// Returns the extent of the next try, of a scene in which `fitting` updates would fit.
    fn reduced(self, fitting: usize, tries: u32) -> Extent {
        let mut reduced = self;
        let fewer = self.updates.saturating_sub(1);
        let has_cause = self.updates > 0 && !self.is_before_line;
        if self.updates > FEW_RELEVANT {
            let fitting = if tries < MAX_TRIES { fitting } else { 0 };
            reduced.updates = fitting.max(FEW_RELEVANT).min(fewer);
        } else if self.reads > 1 || (self.reads == 1 && !has_cause) {
            reduced.reads = self.reads.saturating_sub(1);
        } else if self.updates > 1 {
            reduced.updates = fewer;
            reduced.reads = self.reads.saturating_mul(MAX_READS);
        } else if self.reads == 1 {
            reduced.updates = FEW_RELEVANT;
            reduced.reads = 0;
        } else if self.updates > 0 {
            reduced.updates = if has_cause { 1 } else { 0 };
            reduced.is_before_line = true;
            reduced.reads = MAX_READS;
        }
        reduced
    }
}

/// Returns the number of lanes that are not drawn and differ from their reads, and the sum of these differences.
fn omitted_difference(choice: &Choice) -> (usize, u64) {
    let mut count = 0usize;
    let mut sum = 0u64;
    for (lane, crossing) in choice.crossings.iter().enumerate() {
        if crossing.off > 0 && !choice.lanes.contains(&lane) {
            count = count.saturating_add(1);
            sum = sum.saturating_add(crossing.off);
        }
    }
    (count, sum)
}

/// Returns the updates that are drawn, those before the line first.
fn drawn_in_order(alloc: Global, choice: &Choice) -> Result<Vec<u32>, AllocError> {
    let mut drawn = choice.before.to_vec(alloc)?;
    drawn.extend_from_slice(&choice.after)?;
    Ok(drawn)
}

/// Returns the updates to draw first, by their positions: the causes of the farthest reads, the updates that the sentences name
/// since they were charged most, and the other causes, as in the timeline; without those that are not ahead of the query in
/// commit order.
fn relevant_positions(
    alloc: Global,
    audited: &Audited<'_>,
    trace: &QueryTrace,
    positions: &Positions,
    placement: &NearestPlacement,
) -> Result<Vec<u32>, AllocError> {
    let problem = &audited.finding.problem;
    let causes = placement.causes(alloc, audited.history, problem, trace)?;
    let mut wanted = relevant_updates(alloc, trace, &[], &[], MAX_CHARGERS)?;
    wanted.extend_from_slice(&causes)?;
    let mut first_causes = relevant_updates(alloc, trace, &causes, &[], FIRST_CAUSES)?;
    first_causes.retain(|update| causes.contains(update));
    let updates = relevant_updates(alloc, trace, &first_causes, &wanted, MAX_UPDATES)?;
    let mut relevant = Vec::new(alloc);
    for update in &updates {
        let is_wanted = relevant.len() < FEW_RELEVANT || wanted.contains(update);
        if let Some(position) = positions.of(*update)
            && is_wanted
        {
            relevant.push(position)?;
        }
    }
    Ok(relevant)
}

/// Returns the positions that are in a set, in their order.
fn common(alloc: Global, positions: &[u32], set: &[u32]) -> Result<Vec<u32>, AllocError> {
    let mut common = Vec::new(alloc);
    for position in positions {
        if set.contains(position) {
            common.push(*position)?;
        }
    }
    Ok(common)
}

/// The data from which all scenes of a query are built.
#[derive(Drop)]
struct Source<'a> {
    audited: &'a Audited<'a>,
    trace: &'a QueryTrace,
    positions: Positions,
    placement: NearestPlacement,
    /// For each chain whether its item was never written and has no lane.
    unwritten: Vec<bool>,
    /// The updates to draw first, by their positions.
    relevant: Vec<u32>,
    /// Those of them that are before the line.
    relevant_before: Vec<u32>,
}

impl<'a> Source<'a> {
    fn new(
        alloc: Global,
        audited: &'a Audited<'a>,
        trace: &'a QueryTrace,
    ) -> Result<Source<'a>, AllocError> {
        let problem = &audited.finding.problem;
        let begun = audited.history.begun_count();
        let positions = Positions::new(alloc, problem.updates(), begun)?;
        let placement = NearestPlacement::after(alloc, audited.history, &audited.finding.before)?;
        let relevant = relevant_positions(alloc, audited, trace, &positions, &placement)?;
        let set = &audited.finding.certificate.set;
        Ok(Source {
            audited,
            trace,
            placement,
            unwritten: unwritten(alloc, audited.history, problem.chains())?,
            relevant_before: common(alloc, &relevant, set)?,
            relevant,
            positions,
        })
    }

    /// Returns the updates to draw first in a scene of this extent.
    fn relevant(&self, extent: Extent) -> &[u32] {
        if extent.is_before_line {
            &self.relevant_before
        } else {
            &self.relevant
        }
    }

    fn problem(&self) -> &'a Problem {
        &self.audited.finding.problem
    }

    /// Returns the update at a position.
    fn update(&self, position: u32) -> Option<TxnId> {
        self.problem().updates().get(position as usize).copied()
    }

    /// Returns how many reads of the item of a chain had each of some values.
    fn reads_of(
        &self,
        alloc: Global,
        chain: &Chain,
        values: &[i64],
    ) -> Result<Vec<u64>, AllocError> {
        let counts = read_counts_by_value(alloc, self.trace, chain.item)?;
        reads_of_values(alloc, values, &counts)
    }

    /// Returns the versions of a chain, with the one at the line.
    fn versions<'b>(
        &self,
        alloc: Global,
        chain: &'b Chain,
        at_line: usize,
        reads_drawn: usize,
    ) -> Result<LaneVersions<'b>, AllocError> {
        let values = versions_of(alloc, self.audited.history, chain, &self.positions)?;
        let reads = self.reads_of(alloc, chain, &values)?;
        let seen = read_flags_by_version(alloc, self.trace, chain, &self.positions)?;
        Ok(LaneVersions {
            chain,
            values,
            reads,
            seen,
            at_line,
            reads_drawn,
        })
    }
}

/// The data from which one scene is built.
#[derive(Drop)]
struct SceneParts<'a, 'b> {
    source: &'b Source<'a>,
    choice: Choice,
    /// The updates that are drawn, by their positions, in the order of their slots.
    drawn: Vec<u32>,
    /// The slot of the line.
    line: u8,
    slots: Slots,
    /// The values that were read within each stretch of several.
    reads_drawn: usize,
}

impl<'a, 'b> SceneParts<'a, 'b> {
    fn new(
        alloc: Global,
        source: &'b Source<'a>,
        extent: Extent,
    ) -> Result<SceneParts<'a, 'b>, AllocError> {
        let finding = source.audited.finding;
        let choice = choose(
            alloc,
            &finding.problem,
            &finding.certificate.set,
            &source.unwritten,
            source.relevant(extent),
            extent.updates,
        )?;
        let drawn = drawn_in_order(alloc, &choice)?;
        let line = choice.before.len().min(MAX_UPDATES) as u8 + 1;
        let slots = Slots::new(alloc, finding.problem.updates().len(), &choice, line)?;
        Ok(SceneParts {
            source,
            choice,
            drawn,
            line,
            slots,
            reads_drawn: extent.reads,
        })
    }

    /// Returns a lane of a chain with these segments, whose version at the line is off by `off`.
    fn lane_with(
        &self,
        alloc: Global,
        chain: &Chain,
        segments: Vec<LaneSegment>,
        read: LaneReads,
        difference: u64,
    ) -> Result<Lane<'a>, AllocError> {
        let audited = self.source.audited;
        let drawn = versions_drawn(alloc, &segments)?;
        Ok(Lane {
            name: audited.items.name_of(chain.item.0).unwrap_or(""),
            weight: audited.history.metric().distance(chain.item, 0, 1),
            read,
            difference,
            segments,
            transient_reads: transient_reads_of(audited, self.source.trace, chain, &drawn),
        })
    }

    /// Returns the reads of the item of a chain, which has this value at the line.
    fn reads(&self, alloc: Global, chain: &Chain, at_line: i64) -> Result<LaneReads, AllocError> {
        let counts = read_counts_by_value(alloc, self.source.trace, chain.item)?;
        let weight = self
            .source
            .audited
            .history
            .metric()
            .distance(chain.item, 0, 1);
        reads_in(alloc, &counts, at_line, weight)
    }

    /// Returns the lane of a chain, whose reads differ by `difference` from the version at the line.
    fn lane(
        &self,
        alloc: Global,
        chain: &Chain,
        at_line: usize,
        difference: u64,
    ) -> Result<Lane<'a>, AllocError> {
        let versions = self
            .source
            .versions(alloc, chain, at_line, self.reads_drawn)?;
        let segments = versions.segments(alloc, &self.slots)?;
        let read = self.reads(alloc, chain, versions.value_at_line())?;
        self.lane_with(alloc, chain, segments, read, difference)
    }

    /// Adds the lane of the chain at a position.
    fn push_lane(
        &self,
        alloc: Global,
        lanes: &mut Vec<Lane<'a>>,
        at: usize,
    ) -> Result<(), AllocError> {
        let chain = self.source.problem().chains().get(at);
        let (Some(chain), Some(crossing)) = (chain, self.choice.crossings.get(at)) else {
            return Ok(());
        };
        lanes.push(self.lane(alloc, chain, crossing.version, crossing.off)?)?;
        Ok(())
    }

    /// Returns the lanes that are drawn.
    fn lanes(&self, alloc: Global) -> Result<Vec<Lane<'a>>, AllocError> {
        let mut lanes = Vec::new(alloc);
        for at in &self.choice.lanes {
            self.push_lane(alloc, &mut lanes, *at)?;
        }
        Ok(lanes)
    }

    /// Returns the number of lanes down to the last one that an update wrote.
    fn reach(&self, update: u32) -> u8 {
        let chains = self.source.problem().chains();
        let mut reach = 0u8;
        let mut count = 0u8;
        for at in &self.choice.lanes {
            count = count.saturating_add(1);
            if let Some(chain) = chains.get(*at)
                && chain.writers.binary_search(&update).is_ok()
            {
                reach = count;
            }
        }
        reach
    }

    /// Returns the update at a position.
    fn update(&self, alloc: Global, position: u32, txn: TxnId) -> Result<Update<'a>, AllocError> {
        let audited = self.source.audited;
        let slot = self.slots.of(position);
        Ok(Update {
            name: name_of_transaction(audited.transactions, txn),
            slot,
            reach: self.reach(position),
            must: self.source.problem().must().contains(&position),
            title: update_title(alloc, audited, txn, slot < self.line)?,
        })
    }

    /// Returns the updates that are drawn, in the order of their slots.
    fn updates(&self, alloc: Global) -> Result<Vec<Update<'a>>, AllocError> {
        let mut updates = Vec::new(alloc);
        for position in &self.drawn {
            if let Some(txn) = self.source.update(*position) {
                updates.push(self.update(alloc, *position, txn)?)?;
            }
        }
        Ok(updates)
    }

    /// Returns the update at a slot.
    fn update_at(&self, slot: u8) -> Option<TxnId> {
        let position = self
            .drawn
            .iter()
            .find(|position| self.slots.of(**position) == slot)?;
        self.source.update(*position)
    }

    /// Returns the arrows.
    fn arrows(&self, alloc: Global) -> Result<Vec<Arrow>, AllocError> {
        let mut shown = Vec::new(alloc);
        for pair in &arrows(alloc, self.source.problem(), &self.drawn, &self.slots)? {
            if let (Some(from), Some(to)) = (self.update_at(pair.from), self.update_at(pair.to)) {
                shown.push(Arrow {
                    from: pair.from,
                    to: pair.to,
                    title: arrow_title(alloc, self.source.audited, from, to)?,
                })?;
            }
        }
        Ok(shown)
    }

    /// Returns the name of the item of a chain.
    fn item_name(&self, at: usize) -> &'a str {
        let chain = self.source.problem().chains().get(at);
        let item = chain.map_or(0, |chain| chain.item.0);
        self.source.audited.items.name_of(item).unwrap_or("")
    }

    /// Returns the items without a lane that determine the position of the line.
    fn deciding(&self, alloc: Global) -> Result<Deciding<'a>, AllocError> {
        let all = &self.choice.deciding;
        let mut names = Vec::new(alloc);
        for at in first(all, MAX_NAMES) {
            names.push(self.item_name(*at))?;
        }
        Ok(Deciding {
            names,
            count: all.len(),
        })
    }

    /// Returns a scene with its numbers, and nothing else.
    fn numbers(&self, alloc: Global) -> Scene<'a> {
        let audited = self.source.audited;
        let finding = audited.finding;
        let (omitted_items_off, omitted_difference) = omitted_difference(&self.choice);
        let lanes = self.choice.lanes.len();
        let without_lane = self.choice.crossings.len().saturating_sub(lanes);
        let committed = self.source.trace.committed;
        Scene {
            errors: Vec::new(alloc),
            query_name: name_of_transaction(audited.transactions, finding.query),
            distance: finding.distance,
            import: finding.import,
            sentences: Vec::new(alloc),
            arrows: Vec::new(alloc),
            unwritten_items: self.choice.unwritten,
            omitted_updates: committed.saturating_sub(self.drawn.len() as u64),
            omitted_transactions: String::new(alloc),
            omitted_items: without_lane.saturating_sub(self.choice.unwritten),
            omitted_items_off,
            omitted_difference,
            ties: self.choice.ties,
            deciding: Deciding {
                names: Vec::new(alloc),
                count: 0,
            },
            query_slot: self.line,
            updates: Vec::new(alloc),
            lanes: Vec::new(alloc),
            reasons: Vec::new(alloc),
            rows: Vec::new(alloc),
        }
    }

    /// Returns which transactions are not drawn, as words, or nothing if these are queries only.
    fn omitted_transactions(&self, alloc: Global) -> Result<String, AllocError> {
        let audited = self.source.audited;
        let query = audited.finding.query;
        let all = TxnCounts::of(audited.history, query);
        let mut drawn = TxnCounts::none();
        drawn.note(TxnClass::Query);
        for _ in &self.drawn {
            drawn.note(TxnClass::Committed);
        }
        let rest = all.without(drawn);
        let mut words = String::new(alloc);
        if rest.have_updates() {
            let name = name_of_transaction(audited.transactions, query);
            push_undrawn(&mut words, name, all, rest)?;
        }
        Ok(words)
    }

    /// Adds what is drawn to a scene.
    fn fill(&self, alloc: Global, scene: &mut Scene<'a>) -> Result<(), AllocError> {
        scene.sentences = sentences_of(alloc, self.source.audited, self.source.trace)?;
        scene.arrows = self.arrows(alloc)?;
        scene.updates = self.updates(alloc)?;
        scene.lanes = self.lanes(alloc)?;
        scene.deciding = self.deciding(alloc)?;
        scene.omitted_transactions = self.omitted_transactions(alloc)?;
        Ok(())
    }

    /// Returns what is drawn.
    fn scene(&self, alloc: Global) -> Result<Scene<'a>, AllocError> {
        let mut scene = self.numbers(alloc);
        self.fill(alloc, &mut scene)?;
        Ok(scene)
    }
}

/// Returns the scene of this extent.
fn scene_with<'a>(
    alloc: Global,
    source: &Source<'a>,
    extent: Extent,
) -> Result<Scene<'a>, AllocError> {
    SceneParts::new(alloc, source, extent)?.scene(alloc)
}

/// Returns what is drawn of the audit of a query.
pub fn scene_of<'a>(
    alloc: Global,
    audited: &'a Audited<'a>,
    trace: &'a QueryTrace,
) -> Result<Scene<'a>, AllocError> {
    let source = Source::new(alloc, audited, trace)?;
    let mut extent = Extent {
        updates: MAX_UPDATES,
        is_before_line: false,
        reads: MAX_READS,
    };
    let mut scene = scene_with(alloc, &source, extent)?;
    for tries in 1..MAX_TRIES + LAST_TRIES {
        let Some(fitting) = updates_to_keep(alloc, &scene)? else {
            break;
        };
        extent = extent.reduced(fitting, tries);
        scene = scene_with(alloc, &source, extent)?;
    }
    add_reasons(alloc, &mut scene, audited, &source.placement, trace)?;
    Ok(scene)
}
