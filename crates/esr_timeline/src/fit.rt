//! Fits a timeline into the maximum width, or into a few bands of it. It is built with all events, and as long as it
//! does not fit, with fewer: first without the labels of events on which no charge depends, then without these events,
//! then with the first charges of a ranking only (`greatest`) and as many of the reads that are off. The updates that were
//! charged most keep their lanes and the greatest charge of each. One band is tried first, unless labels would be omitted.

use esr_chart::{Drawn, Format, Heads, Layout, Spacing, layout_of};
use esr_history::TxnId;
use esr_report::name_of_transaction;
use esr_text::first;
use esr_timeline_content::{
    Causes, MAX_CHARGERS, MAX_LANES, Source, between, charge_sums, chargers, charges_in,
    charges_to_all, complete_notes, concerned, count_off_reads, counts_of, drawable,
    exact_reads_on, farthest_read, first_begun, greatest, keys_of, lane_at, lanes_of, mark_keys,
    mark_query_reads, marks_of, marks_on, mistakes_on, nearest_to, note_excesses, note_sides,
    off_reads_on, reason_of_farthest, sides_of, sum_of, undrawn_charges, with_drawn, with_exports,
};
use esr_timeline_data::{
    Arrow, ChargeSum, Farthest, Lane, ListedCharge, ListedRead, Mark, Nearest, Order, Rest, Scene,
};
use esr_trace::{LimitUse, QueryTrace, Traced, traces_of};
use esr_wording::TxnCounts;
use std::alloc::{AllocError, Global};

/// The wide layout of a timeline: no band is wider, unless one event is.
const WIDE_FORMAT: Format = Format {
    width: 1064,
    bands: 4,
    height: 1700,
    heads: Heads::InFront,
};

/// The narrow layout of a timeline of one query, for phones.
const NARROW_FORMAT: Format = Format {
    width: 360,
    bands: 12,
    height: 1600,
    heads: Heads::Above,
};

/// The narrow layout of a whole script, which shows all that the wide one shows.
const WHOLE_NARROW_FORMAT: Format = Format {
    width: 360,
    bands: FEW_ENTRIES,
    height: u32::MAX,
    heads: Heads::Above,
};

/// No layout has space for more events.
const MAX_COLUMNS: usize = 300;

/// A script with at most this many transactions and entries is drawn as a whole, if it fits.
const FEW_ENTRIES: usize = 120;

/// The level of detail of a timeline.
#[derive(Clone, Copy, PartialEq, Eq)]
enum Detail {
    /// All events.
    All,
    /// The events that charges depend on, and blocked ones.
    Keys,
    /// The events that the first charges of the ranking depend on, at most this many, and as many of the reads that are off.
    Greatest(usize),
    /// The first events, at most this many.
    First(usize),
}

/// What is drawn, and with which distances: one step from the whole timeline to less.
#[derive(Clone, Copy)]
struct Stage {
    detail: Detail,
    spacing: Spacing,
}

const WIDE: Spacing = Spacing {
    has_all_labels: true,
    pitch: 40,
    is_folded: false,
};

const CLOSE: Spacing = Spacing {
    has_all_labels: true,
    pitch: 22,
    is_folded: false,
};

const SNUG: Spacing = Spacing {
    has_all_labels: true,
    pitch: 14,
    is_folded: false,
};

const FOLDED: Spacing = Spacing {
    has_all_labels: true,
    pitch: 14,
    is_folded: true,
};

const LOOSE: Spacing = Spacing {
    has_all_labels: false,
    pitch: 22,
    is_folded: true,
};

const TIGHT: Spacing = Spacing {
    has_all_labels: false,
    pitch: 14,
    is_folded: true,
};

/// All events, with the largest distances between them that a layout has, then with less.
const ALL_WIDE: Stage = Stage {
    detail: Detail::All,
    spacing: WIDE,
};

const ALL_CLOSE: Stage = Stage {
    detail: Detail::All,
    spacing: CLOSE,
};

const ALL_SNUG: Stage = Stage {
    detail: Detail::All,
    spacing: SNUG,
};

const ALL_FOLDED: Stage = Stage {
    detail: Detail::All,
    spacing: FOLDED,
};

const ALL_TIGHT: Stage = Stage {
    detail: Detail::All,
    spacing: TIGHT,
};

/// The stages that omit nothing.
static ALL: [Stage; 4] = [ALL_WIDE, ALL_CLOSE, ALL_SNUG, ALL_FOLDED];

/// The stages of a whole script.
static WHOLE: [Stage; 5] = [ALL_WIDE, ALL_CLOSE, ALL_SNUG, ALL_FOLDED, ALL_TIGHT];

/// The stages of one query.
static ONE: [Stage; 23] = [
    ALL_WIDE,
    ALL_CLOSE,
    ALL_SNUG,
    ALL_FOLDED,
    ALL_TIGHT,
    Stage {
        detail: Detail::Keys,
        spacing: LOOSE,
    },
    Stage {
        detail: Detail::Keys,
        spacing: TIGHT,
    },
    Stage {
        detail: Detail::Greatest(40),
        spacing: TIGHT,
    },
    Stage {
        detail: Detail::Greatest(30),
        spacing: TIGHT,
    },
    Stage {
        detail: Detail::Greatest(24),
        spacing: TIGHT,
    },
    Stage {
        detail: Detail::Greatest(20),
        spacing: TIGHT,
    },
    Stage {
        detail: Detail::Greatest(16),
        spacing: TIGHT,
    },
    Stage {
        detail: Detail::Greatest(13),
        spacing: TIGHT,
    },
    Stage {
        detail: Detail::Greatest(11),
        spacing: TIGHT,
    },
    Stage {
        detail: Detail::Greatest(9),
        spacing: TIGHT,
    },
    Stage {
        detail: Detail::Greatest(7),
        spacing: TIGHT,
    },
    Stage {
        detail: Detail::Greatest(6),
        spacing: TIGHT,
    },
    Stage {
        detail: Detail::Greatest(5),
        spacing: TIGHT,
    },
    Stage {
        detail: Detail::Greatest(4),
        spacing: TIGHT,
    },
    Stage {
        detail: Detail::Greatest(3),
        spacing: TIGHT,
    },
    Stage {
        detail: Detail::Greatest(2),
        spacing: TIGHT,
    },
    Stage {
        detail: Detail::Greatest(1),
        spacing: TIGHT,
    },
    Stage {
        detail: Detail::Greatest(0),
        spacing: TIGHT,
    },
];

/// The stages of the beginning of a script without a committed query.
static BEGINNING: [Stage; 4] = [
    Stage {
        detail: Detail::First(60),
        spacing: CLOSE,
    },
    Stage {
        detail: Detail::First(30),
        spacing: CLOSE,
    },
    Stage {
        detail: Detail::First(12),
        spacing: CLOSE,
    },
    Stage {
        detail: Detail::First(4),
        spacing: CLOSE,
    },
];

fn all() -> &'static [Stage] {
    &ALL
}

fn whole() -> &'static [Stage] {
    &WHOLE
}

fn one() -> &'static [Stage] {
    &ONE
}

fn beginning() -> &'static [Stage] {
    &BEGINNING
}

/// A scene with its sizes.
#[derive(Drop)]
pub struct Picture<'a> {
    pub scene: Scene<'a>,
    pub layout: Layout<'a>,
}

/// Both layouts of a timeline.
#[derive(Drop)]
pub struct Pictures<'a> {
    pub wide: Picture<'a>,
    pub narrow: Picture<'a>,
}

impl Pictures<'_> {
    /// Returns whether nothing is cut off.
    fn fit(&self) -> bool {
        self.wide.layout.is_complete && self.narrow.layout.is_complete
    }
}

/// All that could be drawn.
#[derive(Drop)]
struct Material<'a> {
    source: Source<'a>,
    query: Option<TxnId>,
    lanes: Vec<Lane<'a>>,
    marks: Vec<Mark<'a>>,
    charges: Vec<Arrow<'a>>,
    /// The cause of each read that is off, those of the farthest reads first.
    causes: Vec<TxnId>,
    /// The updates that were charged most.
    chargers: Vec<TxnId>,
    /// The nearest placement of the query, or of the farthest one.
    nearest: Option<Nearest<'a>>,
    /// Which updates are in that placement, or which are not, or nothing.
    sides: String,
    /// The farthest read of that query, if that is off.
    farthest: Option<Farthest<'a>>,
    /// Why the update that explains that read is before the nearest placement or not, or nothing.
    reason: String,
    /// All reads of that query that are off, and its other reads.
    off_reads: Vec<ListedRead<'a>>,
    exact_reads: Vec<ListedRead<'a>>,
    /// The sums of the charges to that query by update.
    charge_sums: Vec<ChargeSum<'a>>,
}

/// What is drawn at a stage.
#[derive(Drop)]
struct Choice<'a> {
    lanes: Vec<Lane<'a>>,
    marks: Vec<Mark<'a>>,
    arrows: Vec<Arrow<'a>>,
    /// The number of events on these lanes that are not drawn.
    hidden: usize,
    /// The number of reads that are off among these events.
    hidden_off: usize,
}

/// What is drawn at a stage, with its layout, before the texts of its scene.
#[derive(Drop)]
struct Attempt<'a> {
    choice: Choice<'a>,
    layout: Layout<'a>,
}

impl<'a> Choice<'a> {
    /// Returns references to its parts.
    fn drawn(&self) -> Drawn<'a, '_> {
        Drawn {
            lanes: &self.lanes,
            marks: &self.marks,
            arrows: &self.arrows,
        }
    }
}

/// Returns the lanes of these transactions and of the updates of these charges.
fn lanes_in<'a>(
    alloc: Global,
    lanes: &[Lane<'a>],
    arrows: &[Arrow<'a>],
    txns: &[TxnId],
) -> Result<Vec<Lane<'a>>, AllocError> {
    let mut kept = Vec::new(alloc);
    for lane in lanes {
        if txns.contains(&lane.txn) || arrows.iter().any(|arrow| arrow.update == lane.txn) {
            kept.push(*lane)?;
        }
    }
    Ok(kept)
}

/// Returns the lanes of these marks.
fn lanes_of_marks<'a>(
    alloc: Global,
    lanes: &[Lane<'a>],
    marks: &[Mark<'a>],
) -> Result<Vec<Lane<'a>>, AllocError> {
    let mut kept = Vec::new(alloc);
    for (number, lane) in lanes.iter().enumerate() {
        if marks.iter().any(|mark| mark.lane == number) {
            kept.push(*lane)?;
        }
    }
    Ok(kept)
}

/// Returns the maximum number of reads that are off that are drawn.
fn max_off_reads(detail: Detail) -> usize {
    match detail {
        Detail::Greatest(upper_bound) => upper_bound.max(1),
        Detail::All | Detail::Keys | Detail::First(_) => usize::MAX,
    }
}

/// Returns whether blocked events are drawn.
fn has_blocked(detail: Detail) -> bool {
    !matches!(detail, Detail::Greatest(upper_bound) if upper_bound < 16)
}

impl<'a> Material<'a> {
    /// Returns the query, the causes of this number of its farthest reads, and the updates that were charged most.
    fn always_drawn(&self, alloc: Global, reads: usize) -> Result<Vec<TxnId>, AllocError> {
        let mut txns = first(&self.causes, reads).to_vec(alloc)?;
        txns.extend_from_slice(&self.chargers)?;
        if let Some(query) = self.query {
            txns.push(query)?;
        }
        Ok(txns)
    }

    /// Returns whether there may be space for the events of a stage.
    fn may_fit(&self, alloc: Global, detail: Detail) -> Result<bool, AllocError> {
        match detail {
            Detail::All => Ok(self.marks.len() <= MAX_COLUMNS),
            Detail::Keys => {
                let charges = drawable(alloc, &self.charges)?.len();
                Ok(charges.max(count_off_reads(&self.marks)) <= MAX_COLUMNS)
            }
            Detail::Greatest(_) | Detail::First(_) => Ok(true),
        }
    }

    /// Returns the lanes that are drawn, of which these charges are drawn.
    fn lanes(
        &self,
        alloc: Global,
        detail: Detail,
        arrows: &[Arrow<'a>],
    ) -> Result<Vec<Lane<'a>>, AllocError> {
        match detail {
            Detail::Greatest(_) => {
                let txns = self.always_drawn(alloc, max_off_reads(detail))?;
                lanes_in(alloc, &self.lanes, arrows, &txns)
            }
            Detail::First(count) => lanes_of_marks(alloc, &self.lanes, first(&self.marks, count)),
            Detail::All | Detail::Keys => self.lanes.to_vec(alloc),
        }
    }

    /// Returns the charges that are drawn, if there is space for them.
    fn arrows(&self, alloc: Global, detail: Detail) -> Result<Vec<Arrow<'a>>, AllocError> {
        let all = drawable(alloc, &self.charges)?;
        match detail {
            Detail::Greatest(0) => greatest(alloc, &all, 0, &[]),
            Detail::Greatest(upper_bound) => greatest(alloc, &all, upper_bound, &self.chargers),
            Detail::All | Detail::Keys | Detail::First(_) => Ok(all),
        }
    }

    /// Returns the numbers of all transactions and of those that are not drawn by their kinds, if the timeline is about a query.
    fn kinds(&self, choice: &Choice<'a>) -> Option<(TxnCounts, TxnCounts)> {
        let query = self.query?;
        let all = TxnCounts::of(self.source.history, query);
        Some((
            all,
            all.without(counts_of(self.source, query, &choice.lanes)),
        ))
    }

    /// Returns what is not drawn.
    fn rest(&self, choice: &Choice<'a>) -> Rest {
        let begun = self.source.history.begun_count();
        let charges = self.charges.len().saturating_sub(choice.arrows.len());
        Rest {
            transactions: begun.saturating_sub(choice.lanes.len()) as u64,
            kinds: self.kinds(choice),
            events: choice.hidden as u64,
            off_reads: choice.hidden_off as u64,
            charges: charges as u64,
            amount: sum_of(&self.charges).saturating_sub(sum_of(&choice.arrows)),
        }
    }

    /// Returns the marks on these lanes, with those on which these charges depend as keys.
    fn marks(
        &self,
        alloc: Global,
        detail: Detail,
        lanes: &[Lane<'a>],
        arrows: &[Arrow<'a>],
    ) -> Result<Vec<Mark<'a>>, AllocError> {
        let mut all = marks_on(alloc, &self.marks, &self.lanes, lanes)?;
        let reads = max_off_reads(detail);
        mark_keys(alloc, &mut all, arrows, reads, has_blocked(detail))?;
        if detail == Detail::All {
            mark_query_reads(&mut all, lanes);
        }
        Ok(all)
    }

    /// Chooses the marks on the lanes, and omits the charges whose marks are not drawn.
    fn choose_marks(
        &self,
        alloc: Global,
        detail: Detail,
        choice: &mut Choice<'a>,
    ) -> Result<(), AllocError> {
        let all = self.marks(alloc, detail, &choice.lanes, &choice.arrows)?;
        choice.marks = drawn_marks(alloc, &all, detail)?;
        choice.hidden = all.len().saturating_sub(choice.marks.len());
        choice.hidden_off = count_off_reads(&all).saturating_sub(count_off_reads(&choice.marks));
        choice.arrows = shown(alloc, &choice.arrows, &choice.marks)?;
        choice.lanes = with_drawn(alloc, &choice.lanes, &choice.arrows)?;
        Ok(())
    }

    /// Chooses what is drawn.
    fn choose(
        &self,
        alloc: Global,
        detail: Detail,
        choice: &mut Choice<'a>,
    ) -> Result<(), AllocError> {
        let arrows = self.arrows(alloc, detail)?;
        choice.lanes = self.lanes(alloc, detail, &arrows)?;
        choice.arrows = between(alloc, &arrows, &self.lanes, &choice.lanes)?;
        self.choose_marks(alloc, detail, choice)
    }

    /// Returns what is drawn.
    fn choice(&self, alloc: Global, detail: Detail) -> Result<Choice<'a>, AllocError> {
        let mut choice = Choice {
            lanes: Vec::new(alloc),
            marks: Vec::new(alloc),
            arrows: Vec::new(alloc),
            hidden: 0,
            hidden_off: 0,
        };
        self.choose(alloc, detail, &mut choice)?;
        Ok(choice)
    }

    /// Returns which charges are drawn first.
    fn order(&self) -> Order {
        if self.query.is_none() {
            Order::ByTransaction
        } else if self.charges.iter().any(|arrow| arrow.explained > 0) {
            Order::Explaining
        } else {
            Order::Largest
        }
    }

    /// Returns the name of the query that the timeline is about.
    fn query_name(&self) -> Option<&'a str> {
        let query = self.query?;
        Some(name_of_transaction(self.source.transactions, query))
    }

    /// Returns the charges to the query that the timeline is about that are not drawn.
    fn undrawn(
        &self,
        alloc: Global,
        drawn: &[Arrow<'a>],
    ) -> Result<Vec<ListedCharge<'a>>, AllocError> {
        if self.query.is_none() {
            return Ok(Vec::new(alloc));
        }
        undrawn_charges(alloc, self.source, &self.charges, drawn)
    }

    /// Returns the scene of a choice.
    fn scene(
        &self,
        alloc: Global,
        choice: Choice<'a>,
        all_charges: Vec<Arrow<'a>>,
    ) -> Result<Scene<'a>, AllocError> {
        let rest = self.rest(&choice);
        let mistakes = mistakes_on(self.source, &choice.lanes);
        let Choice { lanes, arrows, .. } = choice;
        Ok(Scene {
            undrawn: self.undrawn(alloc, &arrows)?,
            query: self.query_name(),
            lanes,
            arrows,
            all_charges,
            order: self.order(),
            rest,
            mistakes,
            nearest: self.nearest,
            sides: String::from_str(alloc, self.sides.as_str())?,
            farthest: self.farthest,
            reason: String::from_str(alloc, self.reason.as_str())?,
            off_reads: self.off_reads.to_vec(alloc)?,
            exact_reads: self.exact_reads.to_vec(alloc)?,
            charge_sums: self.charge_sums.to_vec(alloc)?,
        })
    }

    /// Returns what is drawn at a stage, with its layout.
    fn attempt(
        &self,
        alloc: Global,
        stage: Stage,
        format: Format,
    ) -> Result<Attempt<'a>, AllocError> {
        let choice = self.choice(alloc, stage.detail)?;
        let layout = layout_of(alloc, choice.drawn(), stage.spacing, format)?;
        Ok(Attempt { choice, layout })
    }

    /// Returns the timeline of an attempt.
    fn picture(&self, alloc: Global, attempt: Attempt<'a>) -> Result<Picture<'a>, AllocError> {
        let Attempt { choice, layout } = attempt;
        let all_charges = between(alloc, &self.charges, &self.lanes, &choice.lanes)?;
        let scene = self.scene(alloc, choice, all_charges)?;
        Ok(Picture { scene, layout })
    }

    /// Returns the attempt at the first stage at which it fits.
    fn first_fitting(
        &self,
        alloc: Global,
        stages: &[Stage],
        format: Format,
    ) -> Result<Option<Attempt<'a>>, AllocError> {
        for stage in stages {
            if self.may_fit(alloc, stage.detail)? {
                let attempt = self.attempt(alloc, *stage, format)?;
                if attempt.layout.is_complete {
                    return Ok(Some(attempt));
                }
            }
        }
        Ok(None)
    }

    /// Returns the attempt in one band if nothing has to be omitted, else at the first stage at which it fits, or at the last
    /// one.
    fn best_attempt(
        &self,
        alloc: Global,
        stages: &[Stage],
        format: Format,
    ) -> Result<Attempt<'a>, AllocError> {
        let one_band = Format { bands: 1, ..format };
        if let Some(attempt) = self.first_fitting(alloc, all(), one_band)? {
            return Ok(attempt);
        }
        if let Some(attempt) = self.first_fitting(alloc, stages, format)? {
            return Ok(attempt);
        }
        let last = Stage {
            detail: Detail::All,
            spacing: TIGHT,
        };
        self.attempt(alloc, stages.last().copied().unwrap_or(last), format)
    }

    /// Returns the timeline in a format.
    fn fitting(
        &self,
        alloc: Global,
        stages: &[Stage],
        format: Format,
    ) -> Result<Picture<'a>, AllocError> {
        let attempt = self.best_attempt(alloc, stages, format)?;
        self.picture(alloc, attempt)
    }

    /// Returns both layouts.
    fn pictures(
        &self,
        alloc: Global,
        stages: &[Stage],
        narrow: Format,
    ) -> Result<Pictures<'a>, AllocError> {
        Ok(Pictures {
            wide: self.fitting(alloc, stages, WIDE_FORMAT)?,
            narrow: self.fitting(alloc, stages, narrow)?,
        })
    }
}

/// Returns the marks that are drawn.
fn drawn_marks<'a>(
    alloc: Global,
    all: &[Mark<'a>],
    detail: Detail,
) -> Result<Vec<Mark<'a>>, AllocError> {
    match detail {
        Detail::All => all.to_vec(alloc),
        Detail::Keys | Detail::Greatest(_) => keys_of(alloc, all),
        Detail::First(upper_bound) => first(all, upper_bound).to_vec(alloc),
    }
}

/// Returns the charges whose entries are drawn.
fn shown<'a>(
    alloc: Global,
    arrows: &[Arrow<'a>],
    marks: &[Mark<'a>],
) -> Result<Vec<Arrow<'a>>, AllocError> {
    let mut kept = Vec::new(alloc);
    for arrow in arrows {
        if marks
            .binary_search_by_key(&arrow.place, |mark| mark.place)
            .is_ok()
        {
            kept.push(*arrow)?;
        }
    }
    Ok(kept)
}

/// Returns the material on these lanes, with these charges.
fn material_on<'a>(
    alloc: Global,
    source: Source<'a>,
    query: Option<TxnId>,
    lanes: Vec<Lane<'a>>,
    charges: Vec<Arrow<'a>>,
    limit_use: LimitUse<'_>,
) -> Result<Material<'a>, AllocError> {
    let lanes = with_exports(alloc, &lanes, &charges, limit_use.exports)?;
    let mut marks = marks_of(alloc, source, &lanes)?;
    note_excesses(&mut marks, limit_use.exceeded);
    Ok(Material {
        source,
        query,
        lanes,
        marks,
        charges,
        causes: Vec::new(alloc),
        chargers: Vec::new(alloc),
        nearest: None,
        sides: String::new(alloc),
        farthest: None,
        reason: String::new(alloc),
        off_reads: Vec::new(alloc),
        exact_reads: Vec::new(alloc),
        charge_sums: Vec::new(alloc),
    })
}

/// Adds the nearest placement of the placed query, and what explains its reads that are off.
fn add_nearest<'a>(
    alloc: Global,
    material: &mut Material<'a>,
    trace: &QueryTrace,
    farthest: Option<Farthest<'a>>,
) -> Result<(), AllocError> {
    let source = material.source;
    let Some(placed) = source.placed else {
        return Ok(());
    };
    material.nearest = Some(nearest_to(alloc, source, placed, trace)?);
    material.sides = sides_of(alloc, source, placed)?;
    material.farthest = farthest;
    material.reason = reason_of_farthest(alloc, source, placed, trace)?;
    if let Some(lane) = lane_at(&material.lanes, placed.finding.query) {
        material.off_reads = off_reads_on(alloc, &material.marks, lane)?;
        material.exact_reads = exact_reads_on(alloc, &material.marks, lane)?;
    }
    Ok(())
}

/// Returns the lanes of a query with these charges and of the transactions that concern it.
fn lanes_about<'a>(
    alloc: Global,
    source: Source<'a>,
    query: TxnId,
    trace: &QueryTrace,
    read_causes: &[TxnId],
    charges: &[Arrow<'a>],
) -> Result<Vec<Lane<'a>>, AllocError> {
    let chosen = concerned(alloc, source, query, trace, read_causes, charges)?;
    lanes_of(alloc, source, &chosen)
}

/// Returns the material of a query, which has this lane and these causes.
fn material_about<'a>(
    alloc: Global,
    source: Source<'a>,
    query: TxnId,
    traced: Traced<'_>,
    own: &[Lane<'a>],
    causes: &Causes,
) -> Result<Material<'a>, AllocError> {
    let trace = traced.trace;
    let arrows = charges_in(alloc, source, causes, own, trace)?;
    let of_reads = causes.of_reads(alloc, source, trace)?;
    let mut lanes = lanes_about(alloc, source, query, trace, &of_reads, &arrows)?;
    note_sides(source, &mut lanes);
    let charges = between(alloc, &arrows, own, &lanes)?;
    let farthest = farthest_read(alloc, source, query, causes, trace, &arrows)?;
    let mut material = material_on(alloc, source, Some(query), lanes, charges, traced.limit_use)?;
    if let Some(lane) = lane_at(&material.lanes, query) {
        complete_notes(source, causes, &mut material.marks, lane);
    }
    material.causes = of_reads;
    material.chargers = chargers(alloc, trace, MAX_CHARGERS)?;
    material.charge_sums = charge_sums(alloc, source, trace)?;
    add_nearest(alloc, &mut material, trace, farthest)?;
    Ok(material)
}

/// Returns the timeline of a query and the transactions that concern it. If it has committed, it is the placed query.
pub fn timeline_of_query<'a>(
    alloc: Global,
    source: Source<'a>,
    query: TxnId,
    traced: Traced<'_>,
) -> Result<Pictures<'a>, AllocError> {
    let own = lanes_of(alloc, source, &[query])?;
    let causes = Causes::of(alloc, source, traced.trace)?;
    let material = material_about(alloc, source, query, traced, &own, &causes)?;
    material.pictures(alloc, one(), NARROW_FORMAT)
}

/// Returns the timeline of a query, with its trace.
pub fn timeline_of_traced<'a>(
    alloc: Global,
    source: Source<'a>,
    query: TxnId,
) -> Result<Pictures<'a>, AllocError> {
    let traces = traces_of(alloc, source.history, &[query])?;
    match traces.of(query) {
        Some(traced) => timeline_of_query(alloc, source, query, traced),
        None => Err(AllocError),
    }
}

/// Returns the material of the transactions that began first, with the sides of the nearest placement of the placed query.
fn material_of_first<'a>(
    alloc: Global,
    source: Source<'a>,
    limit_use: LimitUse<'_>,
) -> Result<Material<'a>, AllocError> {
    let chosen = first_begun(alloc, source, MAX_LANES)?;
    let mut lanes = lanes_of(alloc, source, &chosen)?;
    note_sides(source, &mut lanes);
    let arrows = charges_to_all(alloc, source, &lanes)?;
    material_on(alloc, source, None, lanes, arrows, limit_use)
}

/// Returns the farthest read of a query, if it is off.
fn farthest_read_of<'a>(
    alloc: Global,
    source: Source<'a>,
    query: TxnId,
    trace: &QueryTrace,
) -> Result<Option<Farthest<'a>>, AllocError> {
    let own = lanes_of(alloc, source, &[query])?;
    let causes = Causes::of(alloc, source, trace)?;
    let arrows = charges_in(alloc, source, &causes, &own, trace)?;
    farthest_read(alloc, source, query, &causes, trace, &arrows)
}

/// Returns the material of the transactions that began first, if no query has committed.
fn material_of_start<'a>(alloc: Global, source: Source<'a>) -> Result<Material<'a>, AllocError> {
    let traces = traces_of(alloc, source.history, &[])?;
    material_of_first(alloc, source, traces.limit_use())
}

/// Returns the material of a whole script with the nearest placement and the farthest read of the placed query.
fn material_of_whole<'a>(alloc: Global, source: Source<'a>) -> Result<Material<'a>, AllocError> {
    let Some(placed) = source.placed else {
        return material_of_start(alloc, source);
    };
    let query = placed.finding.query;
    let traces = traces_of(alloc, source.history, &[query])?;
    let mut material = material_of_first(alloc, source, traces.limit_use())?;
    if let Some(traced) = traces.of(query) {
        let farthest = farthest_read_of(alloc, source, query, traced.trace)?;
        add_nearest(alloc, &mut material, traced.trace, farthest)?;
    }
    Ok(material)
}

/// Returns whether a script is so short that it may be drawn as a whole.
fn is_short(source: Source<'_>) -> bool {
    source.history.begun_count() <= MAX_LANES && source.history.log().len() <= FEW_ENTRIES
}

/// Returns the timeline of a whole script if it is short and fits.
fn timeline_of_whole<'a>(
    alloc: Global,
    source: Source<'a>,
) -> Result<Option<Pictures<'a>>, AllocError> {
    if !is_short(source) {
        return Ok(None);
    }
    let material = material_of_whole(alloc, source)?;
    let pictures = material.pictures(alloc, whole(), WHOLE_NARROW_FORMAT)?;
    if pictures.fit() {
        Ok(Some(pictures))
    } else {
        Ok(None)
    }
}

/// Returns the timeline of the placed query, and of the transactions that began first if there is none.
fn timeline_of_farthest<'a>(alloc: Global, source: Source<'a>) -> Result<Pictures<'a>, AllocError> {
    match source.placed {
        Some(placed) => timeline_of_traced(alloc, source, placed.finding.query),
        None => material_of_start(alloc, source)?.pictures(alloc, beginning(), NARROW_FORMAT),
    }
}

/// Returns the timeline of a whole script if it is short and fits, else of the placed query, which is the one with the greatest
/// distance, and of the transactions that began first if no query has committed.
pub fn timeline_of_script<'a>(
    alloc: Global,
    source: Source<'a>,
) -> Result<Pictures<'a>, AllocError> {
    match timeline_of_whole(alloc, source)? {
        Some(pictures) => Ok(pictures),
        None => timeline_of_farthest(alloc, source),
    }
}
