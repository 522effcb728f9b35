//! Selects the lanes and updates to draw.
//!
//! A picture of few updates shows all of them. Otherwise half of the space is for the updates that the timeline of the query
//! shows first (`relevant_updates`). In the rest a lane needs the updates that bound its version at the line and the version
//! nearest to the values read; a dotted segment with a count replaces the updates in between. Lanes
//! that are off are selected first, then those without which the picture would contradict its line (`required_lanes`).
//! Both are drawn even if there is no space for the updates that they need; the line then crosses a dotted segment.
//! Omitting such a lane would remove its difference from the sum, and the sum is the subject of the picture.

use crate::required_lanes::{Costs, Places, against, all_against};
use esr_cert::{Chain, Problem};
use esr_svg::MAX_LANES;
use esr_text::first;
use std::alloc::{AllocError, Global};

/// The maximum number of updates of which all are drawn, if there is space.
const FEW_UPDATES: usize = 8;

/// The least number of relevant updates, of which the first ones are causes of reads that are off.
pub const FEW_RELEVANT: usize = 3;

/// The version at which the line crosses a lane, and the sum of the differences of the item's reads from it.
#[derive(Clone, Copy)]
pub struct Crossing {
    pub version: usize,
    pub off: u64,
}

/// The lanes and the updates that are drawn.
#[derive(Drop)]
pub struct Choice {
    /// The crossing of the line with each lane, drawn or not.
    pub crossings: Vec<Crossing>,
    /// The lanes that are drawn, by their positions among the chains, those that are off most first.
    pub lanes: Vec<usize>,
    /// The number of items that were never written and have no lane.
    pub unwritten: usize,
    /// The updates before the line that are drawn, by their positions, ascending.
    pub before: Vec<u32>,
    /// Those after the line.
    pub after: Vec<u32>,
    /// If the drawn lanes cost less at another place than at the line: the other lanes that cost more there, by their
    /// positions among the chains, the costliest first.
    pub deciding: Vec<usize>,
    /// The number of other places of the line with the same distance.
    pub ties: u64,
}

/// Returns for each of `count` positions whether it is in the set.
fn marks_of(alloc: Global, count: usize, set: &[u32]) -> Result<Vec<bool>, AllocError> {
    let mut marks = vec![in alloc; false; count]?;
    for position in set {
        if let Some(mark) = marks.get_mut(*position as usize) {
            *mark = true;
        }
    }
    Ok(marks)
}

/// Returns whether a position is marked.
fn is_marked(marks: &[bool], position: u32) -> bool {
    marks.get(position as usize) == Some(&true)
}

/// Returns the crossing of the line with a lane: after the writers that are in the set. These are the first writers,
/// because the set is closed.
fn crossing_of(chain: &Chain, inside: &[bool]) -> Crossing {
    let version = chain
        .writers
        .partition_point(|writer| is_marked(inside, *writer));
    let off = chain.costs.get(version).copied().unwrap_or(0);
    Crossing { version, off }
}

/// Returns the crossing of the line with each lane.
fn crossings(
    alloc: Global,
    chains: &[Chain],
    inside: &[bool],
) -> Result<Vec<Crossing>, AllocError> {
    let mut crossings = Vec::new(alloc);
    for chain in chains {
        crossings.push(crossing_of(chain, inside))?;
    }
    Ok(crossings)
}

/// The lanes, those that are off most first, and those that are off alike as they come.
fn ranking(alloc: Global, crossings: &[Crossing]) -> Result<Vec<usize>, AllocError> {
    let mut ranks = Vec::new(alloc);
    let mut lane = 0usize;
    for crossing in crossings {
        ranks.push((u64::MAX - crossing.off, lane))?;
        lane = lane.saturating_add(1);
    }
    ranks.sort_unstable();
    lanes_of(alloc, &ranks)
}

/// The lanes of some ranks.
fn lanes_of(alloc: Global, ranks: &[(u64, usize)]) -> Result<Vec<usize>, AllocError> {
    let mut lanes = Vec::new(alloc);
    for (_, lane) in ranks {
        lanes.push(*lane)?;
    }
    Ok(lanes)
}

/// The version of least cost, the first such.
fn nearest(chain: &Chain) -> usize {
    let mut least = u64::MAX;
    let mut nearest = 0usize;
    let mut version = 0usize;
    for cost in &chain.costs {
        if *cost < least {
            least = *cost;
            nearest = version;
        }
        version = version.saturating_add(1);
    }
    nearest
}

/// The update that ends a version of the item, if one does.
fn end_of(chain: &Chain, version: usize) -> Option<u32> {
    chain.writers.get(version).copied()
}

/// The update that made a version of the item, unless it is the opening value.
fn maker_of(chain: &Chain, version: usize) -> Option<u32> {
    end_of(chain, version.checked_sub(1)?)
}

/// Adds an update, if there is one, that is neither there nor drawn yet.
fn push_new(new: &mut Vec<u32>, update: Option<u32>, drawn: &[u32]) -> Result<(), AllocError> {
    if let Some(update) = update {
        if !drawn.contains(&update) && !new.contains(&update) {
            new.push(update)?;
        }
    }
    Ok(())
}

/// Those updates that make or end the version at the line or another one, and are not drawn yet.
fn bounds_of(
    alloc: Global,
    chain: &Chain,
    crossing: Crossing,
    other: usize,
    drawn: &[u32],
) -> Result<Vec<u32>, AllocError> {
    let bounds = [
        maker_of(chain, crossing.version),
        end_of(chain, crossing.version),
        maker_of(chain, other),
        end_of(chain, other),
    ];
    let mut new = Vec::new(alloc);
    for bound in &bounds {
        push_new(&mut new, *bound, drawn)?;
    }
    Ok(new)
}

/// The lanes that may be drawn.
#[derive(Drop)]
struct Candidates {
    /// In the order of priority: lanes that are off, largest difference first; lanes without which the drawn ones would
    /// be cheaper elsewhere; then the others.
    lanes: Vec<usize>,
    /// The number of lanes of the first two kinds.
    needed: usize,
}

/// Returns the lanes that may be drawn.
fn candidates_of(
    alloc: Global,
    problem: &Problem,
    crossings: &[Crossing],
    unwritten: &[bool],
    places: &Places,
    drawn: &[u32],
) -> Result<Candidates, AllocError> {
    let chains = problem.chains();
    let ranking = ranking(alloc, crossings)?;
    let mut costs = Costs::none(alloc, problem.updates().len())?;
    let mut lanes = off_lanes(alloc, &mut costs, chains, crossings, places, &ranking)?;
    push_speaking_against(&mut lanes, &mut costs, chains, crossings, places)?;
    let needed = lanes.len();
    let written = written_lanes(alloc, chains, &ranking, drawn)?;
    push_others(&mut lanes, &written, unwritten)?;
    push_others(&mut lanes, &ranking, unwritten)?;
    Ok(Candidates { lanes, needed })
}

/// The lanes that are off, as many as may be drawn, with what they cost together.
fn off_lanes(
    alloc: Global,
    costs: &mut Costs,
    chains: &[Chain],
    crossings: &[Crossing],
    places: &Places,
    ranking: &[usize],
) -> Result<Vec<usize>, AllocError> {
    let mut lanes = Vec::new(alloc);
    for lane in first(ranking, MAX_LANES) {
        if let (Some(chain), Some(crossing)) = (chains.get(*lane), crossings.get(*lane)) {
            if crossing.off > 0 {
                costs.add(chain, places);
                lanes.push(*lane)?;
            }
        }
    }
    Ok(lanes)
}

/// Adds the lanes without which others would be cheaper elsewhere than at the line.
fn push_speaking_against(
    lanes: &mut Vec<usize>,
    costs: &mut Costs,
    chains: &[Chain],
    crossings: &[Crossing],
    places: &Places,
) -> Result<(), AllocError> {
    for _ in 0..MAX_LANES {
        let Some(place) = costs.cheaper_place(places) else {
            break;
        };
        let Some(lane) = against(chains, crossings, places, place, lanes) else {
            break;
        };
        if let Some(chain) = chains.get(lane) {
            costs.add(chain, places);
        }
        lanes.push(lane)?;
    }
    Ok(())
}

/// Returns whether one of these updates wrote the item of a lane.
fn is_written_by(chain: &Chain, updates: &[u32]) -> bool {
    updates
        .iter()
        .any(|update| chain.writers.binary_search(update).is_ok())
}

/// Returns those of some lanes whose items these updates wrote.
fn written_lanes(
    alloc: Global,
    chains: &[Chain],
    ranking: &[usize],
    updates: &[u32],
) -> Result<Vec<usize>, AllocError> {
    let mut written = Vec::new(alloc);
    for lane in ranking {
        if let Some(chain) = chains.get(*lane)
            && is_written_by(chain, updates)
        {
            written.push(*lane)?;
        }
    }
    Ok(written)
}

/// Adds the first of the other lanes, as many as may be drawn, without those of items that were never written.
fn push_others(
    lanes: &mut Vec<usize>,
    ranking: &[usize],
    unwritten: &[bool],
) -> Result<(), AllocError> {
    for lane in ranking {
        if lanes.len() >= MAX_LANES * 3 {
            return Ok(());
        }
        let is_unwritten = unwritten.get(*lane) == Some(&true);
        if !is_unwritten && !lanes.contains(lane) {
            lanes.push(*lane)?;
        }
    }
    Ok(())
}

/// Returns the updates that a lane needs in addition to the drawn ones, if there is space for them: those that bound
/// its version at the line, and if they fit, those that bound the nearest version.
fn needs(
    alloc: Global,
    chain: &Chain,
    crossing: Crossing,
    drawn: &[u32],
    upper_bound: usize,
) -> Result<Option<Vec<u32>>, AllocError> {
    let space = upper_bound.saturating_sub(drawn.len());
    let both = bounds_of(alloc, chain, crossing, nearest(chain), drawn)?;
    if both.len() <= space {
        return Ok(Some(both));
    }
    let at_line = bounds_of(alloc, chain, crossing, crossing.version, drawn)?;
    Ok((at_line.len() <= space).then_some(at_line))
}

/// Draws a lane and the updates that it needs in addition to the drawn ones. If there is no space for these, it draws
/// none of them, and draws the lane only if it is required.
fn draw_lane(
    lanes: &mut Vec<usize>,
    drawn: &mut Vec<u32>,
    lane: usize,
    needs: Option<Vec<u32>>,
    is_needed: bool,
) -> Result<(), AllocError> {
    if lanes.len() >= MAX_LANES {
        return Ok(());
    }
    match needs {
        Some(more) => {
            drawn.extend_from_slice(&more)?;
            lanes.push(lane)?;
        }
        None if is_needed => lanes.push(lane)?,
        None => {}
    }
    Ok(())
}

/// Selects the lanes to draw, and the updates that they need in addition to the drawn ones.
fn draw_lanes(
    alloc: Global,
    chains: &[Chain],
    crossings: &[Crossing],
    candidates: &Candidates,
    drawn: &mut Vec<u32>,
    upper_bound: usize,
) -> Result<Vec<usize>, AllocError> {
    let mut lanes = Vec::new(alloc);
    let mut place = 0usize;
    for lane in &candidates.lanes {
        if let (Some(chain), Some(crossing)) = (chains.get(*lane), crossings.get(*lane)) {
            let needs = needs(alloc, chain, *crossing, drawn, upper_bound)?;
            let is_needed = place < candidates.needed;
            draw_lane(&mut lanes, drawn, *lane, needs, is_needed)?;
        }
        place = place.saturating_add(1);
    }
    Ok(lanes)
}

/// Returns the other lanes that cost more at the place where these lanes together cost least, if that is not the line.
fn deciding(
    alloc: Global,
    problem: &Problem,
    crossings: &[Crossing],
    lanes: &[usize],
    places: &Places,
) -> Result<Vec<usize>, AllocError> {
    let mut costs = Costs::none(alloc, problem.updates().len())?;
    for lane in lanes {
        if let Some(chain) = problem.chains().get(*lane) {
            costs.add(chain, places);
        }
    }
    match costs.cheaper_place(places) {
        Some(place) => all_against(alloc, problem, crossings, places, place, lanes),
        None => Ok(Vec::new(alloc)),
    }
}

/// Returns the number of other places at which all lanes together cost as much as at the line.
fn ties(
    alloc: Global,
    problem: &Problem,
    crossings: &[Crossing],
    places: &Places,
) -> Result<u64, AllocError> {
    let mut costs = Costs::none(alloc, problem.updates().len())?;
    for chain in problem.chains() {
        costs.add(chain, places);
    }
    let mut at_line = 0u64;
    for crossing in crossings {
        at_line = at_line.saturating_add(crossing.off);
    }
    Ok(costs.count_ties(places, at_line))
}

/// The updates before the line, and those after it.
fn sides_of(
    alloc: Global,
    updates: &[u32],
    inside: &[bool],
) -> Result<(Vec<u32>, Vec<u32>), AllocError> {
    let mut before = Vec::new(alloc);
    let mut after = Vec::new(alloc);
    for update in updates {
        if is_marked(inside, *update) {
            before.push(*update)?;
        } else {
            after.push(*update)?;
        }
    }
    Ok((before, after))
}

/// Returns all updates if they are few and there is space for them, otherwise the first relevant ones: as many as have half
/// of the space, and [`FEW_RELEVANT`] if these fit.
fn first_updates(
    alloc: Global,
    count: usize,
    relevant: &[u32],
    upper_bound: usize,
) -> Result<Vec<u32>, AllocError> {
    if count <= FEW_UPDATES && count <= upper_bound {
        (0..count as u32).collect(alloc)
    } else {
        let count = upper_bound.div_ceil(2).max(FEW_RELEVANT).min(upper_bound);
        first(relevant, count).to_vec(alloc)
    }
}

/// Returns these lanes, those that are off most first.
fn sorted_lanes(
    alloc: Global,
    crossings: &[Crossing],
    lanes: &[usize],
) -> Result<Vec<usize>, AllocError> {
    let mut sorted = Vec::new(alloc);
    for lane in &ranking(alloc, crossings)? {
        if lanes.contains(lane) {
            sorted.push(*lane)?;
        }
    }
    Ok(sorted)
}

/// Returns the lanes that are drawn, and the updates, ascending.
fn draw(
    alloc: Global,
    problem: &Problem,
    crossings: &[Crossing],
    unwritten: &[bool],
    places: &Places,
    (relevant, upper_bound): (&[u32], usize),
) -> Result<(Vec<usize>, Vec<u32>), AllocError> {
    let mut updates = first_updates(alloc, problem.updates().len(), relevant, upper_bound)?;
    let candidates = candidates_of(alloc, problem, crossings, unwritten, places, &updates)?;
    let chains = problem.chains();
    let lanes = draw_lanes(
        alloc,
        chains,
        crossings,
        &candidates,
        &mut updates,
        upper_bound,
    )?;
    updates.sort_unstable();
    Ok((sorted_lanes(alloc, crossings, &lanes)?, updates))
}

/// Returns what to draw of a problem with these crossings of the line.
fn choose_at(
    alloc: Global,
    problem: &Problem,
    inside: &[bool],
    crossings: Vec<Crossing>,
    unwritten: &[bool],
    limits: (&[u32], usize),
) -> Result<Choice, AllocError> {
    let places = Places::new(alloc, inside, problem.must())?;
    let (lanes, updates) = draw(alloc, problem, &crossings, unwritten, &places, limits)?;
    let deciding = deciding(alloc, problem, &crossings, &lanes, &places)?;
    let ties = ties(alloc, problem, &crossings, &places)?;
    let (before, after) = sides_of(alloc, &updates, inside)?;
    Ok(Choice {
        crossings,
        lanes,
        unwritten: unwritten.iter().filter(|is| **is).count(),
        before,
        after,
        deciding,
        ties,
    })
}

/// Returns the lanes and the updates to draw of a problem with this set: of few updates all, else at most `upper_bound`, the
/// first relevant ones and those that bound the versions that are drawn. Items that were never written have no lane if
/// `unwritten` says so.
pub fn choose(
    alloc: Global,
    problem: &Problem,
    set: &[u32],
    unwritten: &[bool],
    relevant: &[u32],
    upper_bound: usize,
) -> Result<Choice, AllocError> {
    let inside = marks_of(alloc, problem.updates().len(), set)?;
    let crossings = crossings(alloc, problem.chains(), &inside)?;
    let limits = (relevant, upper_bound);
    choose_at(alloc, problem, &inside, crossings, unwritten, limits)
}
