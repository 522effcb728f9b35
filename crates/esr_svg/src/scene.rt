//! The content of a picture as plain data: slots for the updates and the query's line, from left to right, and a lane for
//! each item. A slot is a position of the serial order.

/// The maximum number of updates that are drawn.
pub const MAX_UPDATES: usize = 30;

/// The maximum number of lanes that are drawn.
pub const MAX_LANES: usize = 24;

/// An arrow: the update at slot `from` has to precede the one at slot `to`.
#[derive(Drop)]
pub struct Arrow {
    pub from: u8,
    pub to: u8,
    /// The conflict because of which one update precedes the other.
    pub title: String,
}

/// A value that was read of an item.
#[derive(Clone, Copy)]
pub struct ReadValue {
    pub value: i64,
    /// The number of its reads.
    pub count: u64,
    /// The difference of one of them from the version at the line, times the weight.
    pub off: u64,
}

/// The reads of an item: the values without repetitions, and the number of reads.
#[derive(Drop)]
pub struct LaneReads {
    pub values: Vec<ReadValue>,
    pub count: u64,
}

/// The version of an item that has the value of a transient read.
#[derive(Clone, Copy)]
pub enum SameValue<'a> {
    /// The opening value.
    Opening,
    /// The version of this update.
    Update(&'a str),
}

/// A transient read: a read of a value that is not a committed version of the item (an intermediate or aborted read in the
/// terms of Adya).
#[derive(Clone, Copy)]
pub struct TransientRead<'a> {
    pub value: i64,
    pub writer: &'a str,
    /// The reason, as text that follows the writer's name.
    pub reason: &'static str,
    /// The first version that is a part of the lane and has that value.
    pub same: Option<SameValue<'a>>,
}

/// The transient reads of a lane: the first, of those without a part if there is one, and the number of the others.
#[derive(Clone, Copy)]
pub struct TransientReads<'a> {
    pub first: Option<TransientRead<'a>>,
    pub more: usize,
}

impl<'a> TransientReads<'a> {
    /// Adds one.
    pub fn add(&mut self, transient_read: TransientRead<'a>) {
        match self.first {
            None => self.first = Some(transient_read),
            Some(first) => {
                self.more = self.more.saturating_add(1);
                if first.same.is_some() && transient_read.same.is_none() {
                    self.first = Some(transient_read);
                }
            }
        }
    }
}

/// A part of a stretch.
#[derive(Clone, Copy, PartialEq, Eq)]
pub enum LanePart {
    /// One version, and the number of reads of its value.
    Version { value: i64, reads: u64 },
    /// Several versions one after another, and the number of those whose value was read.
    Several { versions: usize, fitting: usize },
}

/// A stretch of a lane, from a slot to that of the next stretch.
#[derive(Drop)]
pub struct LaneSegment {
    pub from: u8,
    pub parts: Vec<LanePart>,
    /// The index of the part at the line, if the line crosses the stretch. That part is one version.
    pub at_line: Option<usize>,
}

/// The lane of an item that the query read: its versions along the serial order.
#[derive(Drop)]
pub struct Lane<'a> {
    pub name: &'a str,
    /// The weight of the item, by which its differences are multiplied.
    pub weight: u64,
    pub read: LaneReads,
    /// The sum of the differences between the reads and the version at the query's line, times the weight.
    pub difference: u64,
    pub segments: Vec<LaneSegment>,
    pub transient_reads: TransientReads<'a>,
}

/// An update transaction that is drawn.
#[derive(Drop)]
pub struct Update<'a> {
    pub name: &'a str,
    pub slot: u8,
    /// The number of lanes down to the last one that it wrote.
    pub reach: u8,
    /// Whether it must precede the query in every placement.
    pub must: bool,
    /// The values that it wrote.
    pub title: String,
}

/// Items without a lane that determine the position of the line.
#[derive(Drop)]
pub struct Deciding<'a> {
    /// The names of the first ones, those that matter most first.
    pub names: Vec<&'a str>,
    /// The number of all of them.
    pub count: usize,
}

/// Words in a cell of the table, and an amount if they have one.
#[derive(Drop)]
pub struct Entry {
    pub words: String,
    pub amount: Option<u64>,
}

/// A row of the table: the entries of each cell, one below another.
#[derive(Drop)]
pub struct Row {
    pub cells: Vec<Vec<Entry>>,
}

/// The content of the picture of a query's audit.
#[derive(Drop)]
pub struct Scene<'a> {
    pub query_name: &'a str,
    pub distance: u64,
    pub import: u64,
    /// The lines with errors of the script, in a box at the top.
    pub errors: Vec<String>,
    /// The sentences above the lanes.
    pub sentences: Vec<String>,
    pub updates: Vec<Update<'a>>,
    pub arrows: Vec<Arrow>,
    pub lanes: Vec<Lane<'a>>,
    /// The slot of the query's line, at its nearest serial placement.
    pub query_slot: u8,
    /// The number of items that were never written, of which the query read the opening value, and that have no lane.
    pub unwritten_items: usize,
    /// The number of updates before the query's commit that are not drawn.
    pub omitted_updates: u64,
    /// The transactions that are not drawn, as words, or nothing.
    pub omitted_transactions: String,
    /// The number of the other items without a lane.
    pub omitted_items: usize,
    /// The number of omitted items whose reads differ from their versions at the line, and the sum of these differences.
    pub omitted_items_off: usize,
    pub omitted_difference: u64,
    /// The number of other places of the line, in this order of the updates, with the same distance.
    pub ties: u64,
    /// The items without a lane that keep the line from a position at which the lanes would be less far off.
    pub deciding: Deciding<'a>,
    /// Why the updates that explain the reads that are off are before or after the line.
    pub reasons: Vec<String>,
    /// The table of these reasons, if there are many: the headings, and a row for each update.
    pub rows: Vec<Row>,
}

impl Scene<'_> {
    /// Returns the slot at which the lanes end.
    pub fn last_slot(&self) -> u8 {
        (self.updates.len().min(MAX_UPDATES) as u8).saturating_add(2)
    }
}

/// Returns whether some lane has a transient read.
pub fn have_transient_read(lanes: &[Lane<'_>]) -> bool {
    for lane in lanes {
        if lane.transient_reads.first.is_some() {
            return true;
        }
    }
    false
}
