//! The content of a timeline as plain data: lanes, marks on them in the order of the log, and charges between lanes.

use esr_history::TxnId;
use esr_outcomes::{TxnKind, TxnOutcome};
use esr_text::number_letters;
use esr_wording::{OffReads, TxnCounts};

/// The maximum number of letters of the charges in a head with those to the queries that are drawn.
const MAX_HERE: usize = 34;

/// The maximum number of letters of the amounts in a head with those that are drawn.
const MAX_NOTE: usize = 26;

/// A lane: a transaction from its begin to its end.
#[derive(Clone, Copy)]
pub struct Lane<'a> {
    pub txn: TxnId,
    pub name: &'a str,
    pub kind: TxnKind,
    pub limit: u64,
    /// The import of a query; of an update the sum of its charges to all queries.
    pub charged: u64,
    /// The part of it that the timeline is about: of an update the sum of its charges to the queries that are drawn.
    pub here: u64,
    /// The part of that whose charges are drawn.
    pub drawn: u64,
    pub outcome: TxnOutcome,
    /// The distance of a committed query.
    pub distance: Option<u64>,
    /// Whether an update is before the nearest placement, if the timeline has one.
    pub in_state: Option<bool>,
}

impl Lane<'_> {
    /// Returns whether the transaction is a query.
    pub fn is_query(&self) -> bool {
        self.kind != TxnKind::Update
    }

    /// Returns the sum of the charges of this lane, which has this number: those to a query, or those by an update.
    pub fn sum_of(&self, number: usize, arrows: &[Arrow<'_>]) -> u64 {
        let mut sum = 0u64;
        for arrow in arrows {
            let is_of_lane = if self.is_query() {
                arrow.to == number
            } else {
                arrow.update == self.txn
            };
            if is_of_lane {
                sum = sum.saturating_add(arrow.amount);
            }
        }
        sum
    }

    /// Returns whether the head says how much of the charges is to the queries that are drawn: if that is less, and there is
    /// space.
    pub fn has_here_note(&self) -> bool {
        self.here < self.charged && self.letters_with_here() <= MAX_HERE
    }

    /// Returns whether the head says how much of these charges is drawn: if that is less, and there is space.
    pub fn has_drawn_note(&self) -> bool {
        let letters = self
            .letters_with_here()
            .saturating_add(number_letters(self.drawn));
        self.drawn < self.here && letters <= MAX_NOTE
    }

    /// Returns the number of notes on the charges in the head.
    pub fn count_notes(&self) -> u32 {
        match (self.has_here_note(), self.has_drawn_note()) {
            (true, true) => 2,
            (true, false) | (false, true) => 1,
            (false, false) => 0,
        }
    }

    /// Returns the letters of the charges, and of those to the queries that are drawn if these are less.
    fn letters_with_here(&self) -> usize {
        let letters = number_letters(self.charged);
        if self.here < self.charged {
            letters.saturating_add(number_letters(self.here))
        } else {
            letters
        }
    }
}

/// The event at a mark.
#[derive(Clone, Copy, PartialEq, Eq)]
pub enum Action {
    Begin,
    /// A read, and if it is off, the value in the nearest placement of the query.
    Read {
        value: i64,
        nearest: Option<i64>,
    },
    Write {
        value: i64,
    },
    /// A read or write that was blocked, one or more times in a row.
    Blocked {
        /// The value, if it is a write.
        value: Option<i64>,
        cause: Cause,
        times: u64,
        /// The sum that would have exceeded a limit, at the first time.
        excess: Option<Excess>,
    },
    Commit,
    Abort,
}

/// A limit, and the parts of the sum of charges that would have exceeded it.
#[derive(Clone, Copy, PartialEq, Eq)]
pub struct Excess {
    /// The charges to the limit before the event.
    pub used: u64,
    /// The charge of the event to the limit.
    pub due: u64,
    pub limit: u64,
}

impl Excess {
    /// Returns the sum.
    pub fn sum(self) -> u64 {
        self.used.saturating_add(self.due)
    }
}

/// The reason why an event was blocked.
#[derive(Clone, Copy, PartialEq, Eq)]
pub enum Cause {
    Lock,
    Import,
    Export,
}

/// The writer of a value.
#[derive(Clone, Copy, PartialEq, Eq)]
pub enum Writer<'a> {
    /// None: it is the opening value.
    Opening,
    /// The name of the update, and the step of its write.
    Update(&'a str, u64),
}

/// The state of the update that wrote a value, when the value was read.
#[derive(Clone, Copy, PartialEq, Eq)]
pub enum WriterStatus {
    /// It had committed, or the value is the opening value.
    Committed,
    /// It was active, and did not abort later.
    Active,
    /// It was active, and aborted later.
    Aborted,
}

/// A write that explains the value of a read.
#[derive(Clone, Copy)]
pub struct NotedWrite<'a> {
    pub update: &'a str,
    pub value: i64,
    /// The index of its entry in the log.
    pub place: usize,
    /// The charged update that the update follows, if it was not charged itself.
    pub follows: Option<&'a str>,
}

impl NotedWrite<'_> {
    /// Returns its step.
    pub fn step(&self) -> u64 {
        (self.place as u64).saturating_add(1)
    }
}

/// What explains the value of a read.
#[derive(Clone, Copy)]
pub enum Note<'a> {
    /// The read is off: an update that is not before the nearest placement wrote the value, or one before it the value
    /// there.
    Wrote(NotedWrite<'a>),
    /// The read is exact, although the writer of its value is not before the nearest placement: the value is also that of this
    /// writer.
    Equals(Writer<'a>),
}

/// A mark on a lane: an entry of the log.
#[derive(Clone, Copy)]
pub struct Mark<'a> {
    pub lane: usize,
    /// The index of the entry in the log.
    pub place: usize,
    /// The line of the script, or 0 if it is not known.
    pub line: u32,
    pub action: Action,
    /// The name of the item, or nothing.
    pub item: &'a str,
    /// The factor of differences of the item, or 1.
    pub weight: u64,
    /// The transaction that blocked the event, or nothing.
    pub blocker: &'a str,
    /// True if a drawn charge depends on it, if it was blocked, or if it is a read that is off.
    pub is_key: bool,
    /// The writer of the value of a read, and the state that it had then.
    pub writer: Option<Writer<'a>>,
    pub writer_status: WriterStatus,
    /// The writer of the value in the nearest placement of the query.
    pub state_writer: Option<Writer<'a>>,
    /// What explains the value of a read, if that needs an explanation.
    pub note: Option<Note<'a>>,
}

impl Mark<'_> {
    /// Returns the distance of a read from the value in the nearest placement, and 0 of any other event.
    pub fn distance(&self) -> u64 {
        match self.action {
            Action::Read {
                value,
                nearest: Some(there),
            } => value.abs_diff(there).saturating_mul(self.weight),
            _ => 0,
        }
    }
}

/// Returns the letters of a blank and a weight, ` (weight 900)`, or 0 if it is 1.
pub fn weight_letters(weight: u64) -> usize {
    if weight > 1 {
        number_letters(weight).saturating_add(10)
    } else {
        0
    }
}

/// A charge, from an update to the query of a lane.
#[derive(Clone, Copy)]
pub struct Arrow<'a> {
    pub update: TxnId,
    /// The lane of the update, if it has one.
    pub from: Option<usize>,
    /// The lane of the query.
    pub to: usize,
    /// The index of the entry in the log.
    pub place: usize,
    pub line: u32,
    pub item: &'a str,
    /// The factor of differences of the item.
    pub weight: u64,
    pub amount: u64,
    pub event: ChargedEvent,
    /// The values whose difference was charged.
    pub old: i64,
    pub new: i64,
    /// The distance of the reads that the charge explains, or 0.
    pub explained: u64,
    pub relation: Relation,
    /// The number of its group: charges that explain the same reads.
    pub group: usize,
}

impl Arrow<'_> {
    /// Returns the step of the event that was charged.
    pub fn step(&self) -> u64 {
        (self.place as u64).saturating_add(1)
    }

    /// Returns whether the charge is for a read of a value before its update committed.
    pub fn is_early_read(&self) -> bool {
        self.event == ChargedEvent::Read
    }

    /// Returns how often the difference was charged: once for each read of the item.
    pub fn reads(&self) -> u64 {
        let difference = self.old.abs_diff(self.new).saturating_mul(self.weight);
        self.amount.checked_div(difference).unwrap_or(1)
    }
}

/// The event that was charged.
#[derive(Clone, Copy, PartialEq, Eq)]
pub enum ChargedEvent {
    Read,
    Write,
}

/// The relation of a charge to the reads that it explains.
#[derive(Clone, Copy, PartialEq, Eq)]
pub enum Relation {
    /// The reads came too early: an update before the nearest placement changed the item.
    Change,
    /// The reads came too late, and the charge is for such a read.
    Read,
    /// The reads came too late, and the charge is for a write by the update that had written the value, or that it follows.
    Writer,
}

/// Which charges are drawn first if there is no space for all.
#[derive(Clone, Copy, PartialEq, Eq)]
pub enum Order {
    /// Those that explain the reads that are off, and then the largest.
    Explaining,
    /// The largest.
    Largest,
    /// Those of the transactions that are drawn.
    ByTransaction,
}

/// The nearest placement of a committed query.
#[derive(Clone, Copy)]
pub struct Nearest<'a> {
    pub query: &'a str,
    /// The distance of the query, and its reads that are off.
    pub distance: u64,
    pub off_reads: OffReads,
    /// The distance from the opening values.
    pub opening_distance: u64,
    /// The number of updates before it, and of all that committed before the query did.
    pub updates: u64,
    pub committed: u64,
    /// The name of the one of them that committed last, or nothing.
    pub last: &'a str,
    /// The step in which that update committed.
    pub step: u64,
}

/// A charge as the reason why a read is off.
#[derive(Clone, Copy)]
pub struct Reason<'a> {
    pub update: &'a str,
    pub item: &'a str,
    /// The step of the event that was charged.
    pub step: u64,
    /// True if the query read an uncommitted change, false if the update changed what the query had read.
    pub is_read: bool,
}

/// The read of a query with the greatest distance.
#[derive(Clone, Copy)]
pub struct Farthest<'a> {
    pub query: &'a str,
    pub item: &'a str,
    pub step: u64,
    /// The update that wrote the value, if it is not before the nearest placement, or nothing.
    pub writer: &'a str,
    pub reason: Option<Reason<'a>>,
}

/// The entries that were refused for a mistake, which have no mark.
#[derive(Clone, Copy)]
pub struct Mistakes {
    pub count: u64,
    /// The steps of the first and of the second of them, or 0.
    pub first: u64,
    pub second: u64,
}

/// The numbers of transactions, events and charges that are not drawn.
#[derive(Clone, Copy)]
pub struct Rest {
    pub transactions: u64,
    /// All transactions, and those of them that are not drawn, by their kinds, if the timeline is about a query.
    pub kinds: Option<(TxnCounts, TxnCounts)>,
    pub events: u64,
    /// The number of those events that are reads that are off.
    pub off_reads: u64,
    pub charges: u64,
    /// The sum of the charges that are not drawn.
    pub amount: u64,
}

/// The content of a timeline.
#[derive(Drop)]
pub struct Scene<'a> {
    /// The query that the timeline is about, if it is about one.
    pub query: Option<&'a str>,
    pub lanes: Vec<Lane<'a>>,
    /// The charges that are drawn.
    pub arrows: Vec<Arrow<'a>>,
    /// All charges to the queries that are drawn, for the bars of their limits.
    pub all_charges: Vec<Arrow<'a>>,
    pub order: Order,
    pub rest: Rest,
    /// The entries of the drawn transactions, or of the whole script, that were refused for a mistake.
    pub mistakes: Mistakes,
    /// The nearest placement of the query that the timeline is about, or of the farthest one.
    pub nearest: Option<Nearest<'a>>,
    /// Which updates are in that placement, or which are not: the fewer ones, or nothing if there are none.
    pub sides: String,
    /// The farthest read of that query, if it is off.
    pub farthest: Option<Farthest<'a>>,
    /// Why the update that explains the farthest read is before the nearest placement or not, or nothing.
    pub reason: String,
    /// All reads of that query that are off, the farthest first.
    pub off_reads: Vec<ListedRead<'a>>,
    /// Its other reads, in the order of their steps.
    pub exact_reads: Vec<ListedRead<'a>>,
    /// The sums of the charges to the query by update, the greatest first.
    pub charge_sums: Vec<ChargeSum<'a>>,
    /// The charges to that query that are not drawn, the greatest first.
    pub undrawn: Vec<ListedCharge<'a>>,
}

/// The sum of the charges of an update to the query.
#[derive(Clone, Copy)]
pub struct ChargeSum<'a> {
    pub update: &'a str,
    pub amount: u64,
}

/// A charge to the query, for the list of those that are not drawn.
#[derive(Clone, Copy)]
pub struct ListedCharge<'a> {
    pub update: &'a str,
    pub arrow: Arrow<'a>,
}

/// A read of a query that has committed, for the table of its reads.
#[derive(Clone, Copy)]
pub struct ListedRead<'a> {
    pub step: u64,
    pub item: &'a str,
    /// The factor of differences of the item.
    pub weight: u64,
    pub value: i64,
    pub writer: Writer<'a>,
    pub writer_status: WriterStatus,
    /// The value in the nearest placement, and its writer.
    pub state: i64,
    pub state_writer: Writer<'a>,
    /// Whether the writer of the value is not before the placement.
    pub is_late: bool,
    pub distance: u64,
}

impl ListedRead<'_> {
    /// Returns whether the update that wrote the value had not committed.
    pub fn is_early_read(&self) -> bool {
        self.writer_status != WriterStatus::Committed
    }
}
