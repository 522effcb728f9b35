//! Explains why updates are before the nearest placement of a query, or why they are not: what the distance would be otherwise.
//!
//! An update cannot change sides alone. The updates that precede it have to be before the placement too, and those that follow
//! it leave with it. So the explanation names these, and adds up by how much the reads would be nearer and farther: the second sum
//! is never less than the first, since no placement is nearer. The sides of up to 64 updates are changed at once, each in a
//! separate bit, so the pairs of a problem are passed over once for all of them. Rejected: the charge of one update, since it does
//! not add up to that difference.

use crate::readings::{ReadSum, Reading, Readings, total_of_reads};
use esr_cert::{Chain, Problem};
use esr_history::{History, TxnId};
use esr_items::{ItemId, Weighted};
use esr_order::accesses_of;
use esr_report::{Names, name_of_transaction};
use esr_text::{first, push_count, push_number};
use std::alloc::{AllocError, Global};

/// The maximum number of updates whose other sides are compared.
pub const MAX_ALTERNATIVES: usize = 64;

/// The maximum number of updates that are named, and of reads.
const MAX_NAMED: usize = 3;

/// The update, or the updates, whose other side is compared.
#[derive(Clone, Copy)]
pub enum Subject {
    Update(TxnId),
    /// All updates before the nearest placement, with their number.
    Before(u64),
    /// All other updates that committed before the query, with their number.
    After(u64),
}

/// A nearest placement with one update, or several, on the other side.
#[derive(Drop)]
pub struct Alternative {
    pub subject: Subject,
    /// Whether the update is put before the placement. Otherwise it is taken away.
    pub is_added: bool,
    /// The other updates that change sides with it, in commit order.
    pub others: Vec<TxnId>,
    /// The one of the updates taken away that has to be before a strict query.
    pub required: Option<TxnId>,
    /// The reads that would be nearer, and by how much: those that are to be explained first, then the greatest amounts.
    pub nearer: Vec<ReadSum>,
    /// Those that would be farther.
    pub farther: Vec<ReadSum>,
}

/// A nearest placement with some updates, and the sides that all updates have if each of those is on its other side.
#[derive(Drop)]
pub struct Alternatives<'a> {
    history: &'a History<Weighted>,
    problem: &'a Problem,
    readings: &'a Readings,
    /// For each update by its position: whether it is before the placement.
    inside: Vec<bool>,
    /// The position of each of the updates to be explained, if it committed before the query did.
    positions: Vec<Option<u32>>,
    /// For each update by its position: the explained updates with which it changes sides, a bit for each.
    moved: Vec<u64>,
    /// The positions of the updates that change sides with some explained update, ascending.
    movers: Vec<u32>,
}

/// Returns the bit of an explained update.
fn bit_of(number: usize) -> u64 {
    1u64.checked_shl(number.min(MAX_ALTERNATIVES) as u32)
        .unwrap_or(0)
}

/// Returns flags for the updates of a set, by their positions.
fn flags_of(alloc: Global, count: usize, set: &[u32]) -> Result<Vec<bool>, AllocError> {
    let mut flags = vec![in alloc; false; count]?;
    for position in set {
        if let Some(flag) = flags.get_mut(*position as usize) {
            *flag = true;
        }
    }
    Ok(flags)
}

/// Returns whether a position is marked.
fn has_flag(flags: &[bool], position: u32) -> bool {
    flags.get(position as usize) == Some(&true)
}

/// Returns the bits of an update.
fn bits_at(moved: &[u64], position: u32) -> u64 {
    moved.get(position as usize).copied().unwrap_or(0)
}

/// Adds bits to those of an update.
fn add_bits(moved: &mut [u64], position: u32, bits: u64) {
    if let Some(all) = moved.get_mut(position as usize) {
        *all = *all | bits;
    }
}

/// Adds the bits of the updates that would be put before the placement to those that precede them and are not there. The pairs
/// ascend, so a pass from the last one to the first finds all.
fn move_predecessors(moved: &mut [u64], inside: &[bool], pairs: &[(u32, u32)]) {
    for place in 0..pairs.len() {
        let index = pairs.len().saturating_sub(place).saturating_sub(1);
        if let Some((before, after)) = pairs.get(index) {
            let bits = bits_at(moved, *after);
            if bits != 0 && !has_flag(inside, *before) {
                add_bits(moved, *before, bits);
            }
        }
    }
}

/// Adds the bits of the updates that would be taken away to those that follow them.
fn move_successors(moved: &mut [u64], inside: &[bool], pairs: &[(u32, u32)]) {
    for (before, after) in pairs {
        let bits = bits_at(moved, *before);
        if bits != 0 && has_flag(inside, *after) {
            add_bits(moved, *after, bits);
        }
    }
}

/// Returns the positions of the updates that have a bit.
fn movers_of(alloc: Global, moved: &[u64]) -> Result<Vec<u32>, AllocError> {
    let mut movers = Vec::new(alloc);
    for (position, bits) in (0u32..65_536).zip(moved.iter()) {
        if *bits != 0 {
            movers.push(position)?;
        }
    }
    Ok(movers)
}

/// Returns the value that an update left of an item.
fn value_left(
    alloc: Global,
    history: &History<Weighted>,
    update: TxnId,
    item: ItemId,
) -> Result<i64, AllocError> {
    let mut value = 0i64;
    for access in &accesses_of(alloc, history, update)? {
        if access.writes && access.item == item {
            value = access.value;
        }
    }
    Ok(value)
}

/// Returns whether an update has a bit.
fn has_bit(moved: &[u64], position: u32, bit: u64) -> bool {
    bits_at(moved, position) & bit != 0
}

/// Returns the version of a chain after the updates of a closed set, on which the updates with a bit change sides.
fn version_at(chain: &Chain, inside: &[bool], moved: &[u64], bit: u64) -> usize {
    chain.writers.partition_point(|writer| has_flag(inside, *writer)
        != has_bit(moved, *writer, bit))
}

/// Returns whether a reading is one of these.
fn is_among(sums: &[ReadSum], reading: &Reading) -> bool {
    sums.iter().any(|sum| sum.reading.is_same(reading))
}

/// The differences of the distances of readings, with their ranks.
#[derive(Drop)]
struct Changes {
    nearer: Vec<(u8, u64, usize)>,
    farther: Vec<(u8, u64, usize)>,
}

impl Changes {
    /// Notes the distances of a reading at the placement and at the other one. The rank of the readings to be explained is 0.
    fn note(&mut self, index: usize, rank: u8, here: u64, there: u64) -> Result<(), AllocError> {
        if there < here {
            let amount = here.saturating_sub(there);
            self.nearer
                .push((rank, u64::MAX.saturating_sub(amount), index))?;
        }
        if there > here {
            let amount = there.saturating_sub(here);
            self.farther
                .push((rank, u64::MAX.saturating_sub(amount), index))?;
        }
        Ok(())
    }
}

impl<'a> Alternatives<'a> {
    /// Returns the placement of a set, with the sides for the updates at these positions, of which the first
    /// [`MAX_ALTERNATIVES`] are explained.
    pub fn of(
        alloc: Global,
        history: &'a History<Weighted>,
        problem: &'a Problem,
        readings: &'a Readings,
        set: &[u32],
        positions: Vec<Option<u32>>,
    ) -> Result<Alternatives<'a>, AllocError> {
        let count = problem.updates().len();
        let inside = flags_of(alloc, count, set)?;
        let mut moved = vec![in alloc; 0u64; count]?;
        for (number, position) in positions.iter().enumerate() {
            if let Some(position) = position {
                add_bits(&mut moved, *position, bit_of(number));
            }
        }
        move_predecessors(&mut moved, &inside, problem.before());
        move_successors(&mut moved, &inside, problem.before());
        let movers = movers_of(alloc, &moved)?;
        Ok(Alternatives {
            history,
            problem,
            readings,
            inside,
            positions,
            moved,
            movers,
        })
    }

    /// Returns the version of a chain at the placement, on which the updates with a bit change sides.
    fn version(&self, chain: &Chain, bit: u64) -> usize {
        version_at(chain, &self.inside, &self.moved, bit)
    }

    /// Returns the update at a position.
    fn update(&self, position: u32) -> Option<TxnId> {
        self.problem.updates().get(position as usize).copied()
    }

    /// Returns the update that wrote a version of a chain, unless it is the opening value.
    fn writer(&self, chain: &Chain, version: usize) -> Option<TxnId> {
        let position = chain.writers.get(version.checked_sub(1)?)?;
        self.update(*position)
    }

    /// Returns the updates that change sides with the one at a position.
    fn others(&self, alloc: Global, bit: u64, own: u32) -> Result<Vec<TxnId>, AllocError> {
        let mut others = Vec::new(alloc);
        for position in &self.movers {
            if *position != own
                && has_bit(&self.moved, *position, bit)
                && let Some(update) = self.update(*position)
            {
                others.push(update)?;
            }
        }
        Ok(others)
    }

    /// Returns the first of the updates with a bit that a strict query has to follow.
    fn required(&self, bit: u64) -> Option<TxnId> {
        for position in self.problem.must() {
            if has_bit(&self.moved, *position, bit) {
                return self.update(*position);
            }
        }
        None
    }

    /// Returns the value of a version of a chain.
    fn value(&self, alloc: Global, chain: &Chain, version: usize) -> Result<i64, AllocError> {
        match self.writer(chain, version) {
            Some(update) => value_left(alloc, self.history, update, chain.item),
            None => {
                let opening = self.history.opening_values().get(chain.item.0 as usize);
                Ok(opening.copied().unwrap_or(0))
            }
        }
    }

    /// Notes how the distances of the readings of an item change if it has one value in place of another.
    fn note_values(
        &self,
        changes: &mut Changes,
        item: u32,
        values: (i64, i64),
        explained: &[ReadSum],
    ) -> Result<(), AllocError> {
        let (here, there) = values;
        for index in self.readings.start(item)..self.readings.end(item) {
            if let Some(reading) = self.readings.at(index) {
                let rank = if is_among(explained, &reading) { 0 } else { 1 };
                let distance = reading.distance(self.history, here);
                changes.note(index, rank, distance, reading.distance(self.history, there))?;
            }
        }
        Ok(())
    }

    /// Notes how the distances of the readings of an item change if its chain has this version.
    fn note(
        &self,
        alloc: Global,
        changes: &mut Changes,
        chain: &Chain,
        version: usize,
        explained: &[ReadSum],
    ) -> Result<(), AllocError> {
        let own = self.version(chain, 0);
        if version == own {
            return Ok(());
        }
        let here = self.value(alloc, chain, own)?;
        let there = self.value(alloc, chain, version)?;
        self.note_values(changes, chain.item.0, (here, there), explained)
    }

    /// Returns the alternative of a subject with these changes.
    fn alternative(
        &self,
        alloc: Global,
        subject: Subject,
        is_added: bool,
        mut changes: Changes,
    ) -> Result<Alternative, AllocError> {
        changes.nearer.sort_unstable();
        changes.farther.sort_unstable();
        Ok(Alternative {
            subject,
            is_added,
            others: Vec::new(alloc),
            required: None,
            nearer: self.readings.sums(alloc, &changes.nearer)?,
            farther: self.readings.sums(alloc, &changes.farther)?,
        })
    }

    /// Returns the placement with an explained update on its other side, if it committed before the query did. It explains these
    /// reads.
    pub fn with_moved(
        &self,
        alloc: Global,
        number: usize,
        explained: &[ReadSum],
    ) -> Result<Option<Alternative>, AllocError> {
        let Some(position) = self.positions.get(number).copied().flatten() else {
            return Ok(None);
        };
        let Some(update) = self.update(position) else {
            return Ok(None);
        };
        let bit = bit_of(number);
        let mut changes = no_changes(alloc);
        for chain in self.problem.chains() {
            let version = self.version(chain, bit);
            self.note(alloc, &mut changes, chain, version, explained)?;
        }
        let is_added = !has_flag(&self.inside, position);
        let subject = Subject::Update(update);
        let mut alternative = self.alternative(alloc, subject, is_added, changes)?;
        alternative.others = self.others(alloc, bit, position)?;
        alternative.required = if is_added { None } else { self.required(bit) };
        Ok(Some(alternative))
    }

    /// Returns the number of the updates before the placement.
    fn count_before(&self) -> usize {
        self.inside.iter().filter(|flag| **flag).count()
    }

    /// Returns the opening values in place of the placement, if several updates are before it and none has to be.
    pub fn without_all(&self, alloc: Global) -> Result<Option<Alternative>, AllocError> {
        let count = self.count_before();
        if count < 2 || !self.problem.must().is_empty() {
            return Ok(None);
        }
        let mut changes = no_changes(alloc);
        for chain in self.problem.chains() {
            self.note(alloc, &mut changes, chain, 0, &[])?;
        }
        let subject = Subject::Before(count as u64);
        Ok(Some(self.alternative(alloc, subject, false, changes)?))
    }

    /// Returns the last values in place of the placement, if several updates are not before it.
    pub fn with_all(&self, alloc: Global) -> Result<Option<Alternative>, AllocError> {
        let count = self.inside.len().saturating_sub(self.count_before());
        if count < 2 {
            return Ok(None);
        }
        let mut changes = no_changes(alloc);
        for chain in self.problem.chains() {
            self.note(alloc, &mut changes, chain, chain.writers.len(), &[])?;
        }
        let subject = Subject::After(count as u64);
        Ok(Some(self.alternative(alloc, subject, true, changes)?))
    }
}

/// Returns no changes.
fn no_changes(alloc: Global) -> Changes {
    Changes {
        nearer: Vec::new(alloc),
        farther: Vec::new(alloc),
    }
}

impl Alternative {
    /// Returns whether all updates on one side are compared, and no read would be nearer or farther.
    fn says_nothing(&self) -> bool {
        !matches!(self.subject, Subject::Update(_))
            && self.nearer.is_empty()
            && self.farther.is_empty()
    }

    /// Returns the sum of the amounts by which reads would be nearer.
    pub fn nearer_total(&self) -> u64 {
        total_of_reads(&self.nearer)
    }

    /// Returns the sum of the amounts by which reads would be farther.
    pub fn farther_total(&self) -> u64 {
        total_of_reads(&self.farther)
    }

    /// Appends the names of the other updates, and the number of those that are not named.
    fn push_others(&self, out: &mut String, transactions: &Names) -> Result<(), AllocError> {
        let mut joint = "";
        for txn in first(&self.others, MAX_NAMED) {
            out.push_str(joint)?;
            out.push_str(name_of_transaction(transactions, *txn))?;
            joint = ", ";
        }
        let rest = self.others.len().saturating_sub(MAX_NAMED);
        if rest > 0 {
            out.push_str(" and ")?;
            push_count(out, rest as u64, " other", " others")?;
        }
        Ok(())
    }

    /// Appends which updates are explained.
    fn push_subject(&self, out: &mut String, transactions: &Names) -> Result<(), AllocError> {
        let (count, words) = match self.subject {
            Subject::Update(update) => {
                let update = name_of_transaction(transactions, update);
                let is = if self.is_added { "is not" } else { "is" };
                return write!(out, "Why {update} {is} in the nearest state: ");
            }
            Subject::Before(count) => (
                count,
                " updates before the line are in the nearest state: without any of them, ",
            ),
            Subject::After(count) => (
                count,
                " updates after the line are not in the nearest state: with all of them, ",
            ),
        };
        out.push_str("Why the ")?;
        push_number(out, count)?;
        out.push_str(words)
    }

    /// Appends which updates change sides.
    fn push_moved(&self, out: &mut String, transactions: &Names) -> Result<(), AllocError> {
        match (self.subject, self.is_added, self.others.is_empty()) {
            (Subject::Before(_) | Subject::After(_), _, _) => Ok(()),
            (_, true, true) => out.push_str("if it were, "),
            (_, false, true) => out.push_str("without it, "),
            (_, true, false) => {
                out.push_str("it would bring ")?;
                self.push_others(out, transactions)?;
                out.push_str(", which must come with it. Then ")
            }
            (_, false, false) => {
                out.push_str("without it, ")?;
                self.push_others(out, transactions)?;
                out.push_str(" would be missing too, which must come after it. Then ")
            }
        }
    }

    /// Appends that a strict query has to follow the update.
    fn push_required(
        &self,
        out: &mut String,
        transactions: &Names,
        query: &str,
        required: TxnId,
    ) -> Result<(), AllocError> {
        if let Subject::Update(update) = self.subject
            && required == update
        {
            return write!(
                out,
                "it committed before {query} began, and {query} is strict."
            );
        }
        let name = name_of_transaction(transactions, required);
        write!(
            out,
            "{name}, which must come after it, committed before {query} began, and {query} is strict."
        )
    }

    /// Appends by how much reads would be nearer and farther, and the distance then.
    fn push_sums(&self, out: &mut String, items: &Names, distance: u64) -> Result<(), AllocError> {
        if self.nearer.is_empty() {
            out.push_str("no read would be nearer")?;
        } else {
            push_differences(out, items, &self.nearer, " would be nearer by ")?;
        }
        if !self.farther.is_empty() {
            out.push_str("; but ")?;
            push_differences(out, items, &self.farther, " farther by ")?;
        }
        let more = self.farther_total().saturating_sub(self.nearer_total());
        if more == 0 {
            return out.push_str(": as far off.");
        }
        out.push_str(": off by ")?;
        push_number(out, distance.saturating_add(more))?;
        out.push('.')
    }

    /// Appends a sentence on why the update is before the nearest placement of a query of this name and distance, or why it is
    /// not. There is none on all updates of a side if the reads would be as far off.
    pub fn push(
        &self,
        out: &mut String,
        items: &Names,
        transactions: &Names,
        (query, distance): (&str, u64),
    ) -> Result<(), AllocError> {
        if self.says_nothing() {
            return Ok(());
        }
        self.push_subject(out, transactions)?;
        if let Some(required) = self.required {
            return self.push_required(out, transactions, query, required);
        }
        self.push_moved(out, transactions)?;
        self.push_sums(out, items, distance)
    }
}

/// Appends the first reads with their amounts, the number and the sum of the others, and the sum of all if there are several.
fn push_differences(
    out: &mut String,
    items: &Names,
    sums: &[ReadSum],
    words: &str,
) -> Result<(), AllocError> {
    let named = first(sums, MAX_NAMED);
    let mut joint = "";
    let mut words = words;
    for sum in named {
        out.push_str(joint)?;
        sum.reading.push_name(out, items)?;
        out.push_str(words)?;
        push_number(out, sum.amount)?;
        joint = ", ";
        words = " by ";
    }
    let total = total_of_reads(sums);
    let others = sums.len().saturating_sub(named.len());
    if others > 0 {
        out.push_str(joint)?;
        push_count(out, others as u64, " more by ", " more by ")?;
        push_number(out, total.saturating_sub(total_of_reads(named)))?;
    }
    if sums.len() > 1 {
        out.push_str(", together ")?;
        push_number(out, total)?;
    }
    Ok(())
}
