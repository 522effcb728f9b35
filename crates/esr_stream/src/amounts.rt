//! Proposes an amount for each version. No contract constrains the amounts: the pass (`pass`) checks them.
//!
//! The *cost* of a version is the distance of the query's reads of the item from it. Its *amount* is the proposed flow on its
//! arc, which leads from the update that writes it to the one that overwrites it. First, the amount of each version is its cost,
//! in commit order. Then the *sweep* visits the updates from the last to the first. A version that no update overwrites keeps its
//! cost as its amount. For each update, the sum of the amounts of the versions that it writes is distributed over the versions
//! that it overwrites, in proportion to their costs. If these costs add up to less than that sum, the update has an *excess*, and
//! searches (`search`) look for earlier versions that can take it. The sweep goes over the versions of an update a second time only
//! to distribute less than the costs. Rejected: parts of the sum of the costs so far, which leave no rest: they take 1 per cent
//! more instructions in the load `many` of `bench/audit` than to distribute a rest.
//!
//! The search works in the flow network with all arcs reversed. It goes from an update to the writer of a version that the
//! update overwrites, if this version has residual capacity (its amount is less than its cost). It also goes from an update to
//! the overwriter of a version that the update writes, if the amount of this version is positive. Each path carries its
//! bottleneck or the excess, whichever is less, and the amounts along it change by this much. Two more arcs belong to each read
//! of an update (`update_reads`): a search goes from the writer of a version to a reader, from a reader to the overwriter, and
//! back where there is flow. So at each update strictly between the ends, the difference between the amounts of the versions
//! that it writes and of those that it overwrites stays the same. `MAX_VISITS_PER_UPDATE` bounds the work of all searches.
//!
//! An audit stores 8 bytes for each access: its amount, with two bits that say whether the version that it overwrites has residual
//! capacity, and whether a read of that version has had a loan. All stored costs and amounts include the offset. Which version
//! overwrites which does not depend on the query, so the index keeps these links (`esr_order`), in the order of the amounts. A
//! search reads only the links and amounts of the updates that it visits, which are adjacent, and computes the costs on its path
//! again. Rejected: versions of 16 bytes that each audit lists with their links, which take 1.3 times the instructions in the last
//! audits of the load `many`. Also rejected: a sweep that computes the costs of the versions that an update overwrites. Their values
//! are far apart in memory, which takes 1.3 times the time of costs in commit order.
ghost use Rattle.std.specs.Prelude.{◌≡◌, ◌<◌, ◌%◌, ◌^◌, All, length};
ghost use Rattle.esr_items.specs.Values.{IsValue};

use crate::query::AuditedQuery;
use crate::reads::OFFSET;
use crate::update_reads::UpdateReads;
use esr_items::{ItemId, Metric};
use esr_order::{Access, NOBODY, VersionLink};
use std::alloc::{AllocError, Global};

/// The id of no version. An id is an index in `ProposedAmounts::amounts`.
pub const NONE: u32 = u32::MAX;

/// The bit of an amount that says that the version that its own version overwrites has residual capacity.
const RESIDUAL: u64 = 1 << 62;

/// The bit of an amount that says that a read of the version that its own version overwrites has had a loan.
const LOAN: u64 = 1 << 63;

/// The amount of a version, with two facts on the version that it overwrites.
#[derive(Clone, Copy)]
pub struct ProposedAmount {
    /// The amount, plus `RESIDUAL` if the sweep has passed the version and the amount of the version that it overwrites is less than
    /// the cost, plus `LOAN`.
    bits: u64,
}

/// The amount zero.
pub const ZERO: ProposedAmount = ProposedAmount { bits: OFFSET };

impl ProposedAmount {
    /// Returns the amount.
    pub fn value(self) -> u64
        ensures { result ≡ self.bits % (2 ^ 62) }
    {
        self.bits % RESIDUAL
    }

    /// Returns whether the sweep has passed its version and the version that this one overwrites has residual capacity.
    pub fn can_increase_overwritten(self) -> bool {
        self.bits & RESIDUAL != 0
    }

    /// Returns whether a read of the version that its version overwrites may have a loan.
    pub fn may_repay(self) -> bool {
        self.bits & LOAN != 0
    }

    /// Returns another amount with the same facts.
    fn with_value(self, amount: u64) -> ProposedAmount {
        ProposedAmount {
            bits: (self.bits & (RESIDUAL | LOAN)) | (amount % RESIDUAL),
        }
    }

    /// Returns the amount with the fact whether the version that its version overwrites has residual capacity.
    fn with_residual(self, has_residual: bool) -> ProposedAmount {
        let others = self.bits & !RESIDUAL;
        ProposedAmount {
            bits: if has_residual {
                others | RESIDUAL
            } else {
                others
            },
        }
    }

    /// Returns the amount with the fact that a read of the version that its version overwrites has had a loan.
    fn with_loan(self) -> ProposedAmount {
        ProposedAmount {
            bits: self.bits | LOAN,
        }
    }
}

/// The amounts of the versions.
#[derive(Drop)]
pub struct ProposedAmounts<'a> {
    /// Those of the opening values, from the last item to the first, and then those of the accesses, in order.
    pub amounts: Vec<ProposedAmount>,
    /// The number of items.
    items: u32,
    /// The links of the accesses of all committed updates.
    links: &'a [VersionLink],
    /// The index of the first access of each committed update.
    starts: &'a [u32],
    /// The accesses of all committed updates.
    accesses: &'a [Access],
    /// The number of reads of all committed updates.
    read_count: usize,
    /// The reads of the updates, none before `list_reads`.
    pub reads: UpdateReads,
}

/// The accesses of one update.
#[derive(Clone, Copy)]
pub struct OwnVersions<'a> {
    /// The id of the version of the first access.
    pub first: u32,
    pub links: &'a [VersionLink],
    /// Begins with the amounts of these accesses.
    pub amounts: &'a [ProposedAmount],
}

/// Sums over the versions of one update. Each sum includes the offset once for each version.
#[derive(Clone, Copy)]
struct Sums {
    /// The sum of the amounts of the versions that it writes, to be distributed.
    written_amounts: u64,
    /// The sum of the costs of the versions that it overwrites.
    overwritten_costs: u64,
    /// The number of the versions that it overwrites.
    count: u64,
}

/// Returns a number in 32 bits, or `u32::MAX` if it does not fit.
fn to_u32_or_max(n: usize) -> u32 {
    u32::try_from(n).unwrap_or(u32::MAX)
}

/// Returns a position in 16 bits, or `NOBODY` if it does not fit.
pub fn to_u16_or_nobody(i: usize) -> u16 {
    u16::try_from(i).unwrap_or(NOBODY)
}

/// Returns the elements of an update in a list, given the index of the first element of each update. The elements of the last
/// update reach to the end of the list.
pub fn elements_of<'a, T>(list: &'a [T], starts: &[u32], update: u16) -> &'a [T] {
    let next = (update as usize).saturating_add(1);
    let first = starts
        .get(update as usize)
        .map_or(list.len(), |start| *start as usize);
    let end = starts.get(next).map_or(list.len(), |start| *start as usize);
    if first <= end && end <= list.len() {
        &list[first..end]
    } else {
        &[]
    }
}

impl<'a> ProposedAmounts<'a> {
    /// Returns the amounts before the sweep: the cost of each version.
    ///
    /// # Errors
    ///
    /// An allocation failed.
    pub fn of<M: Metric>(
        alloc: Global,
        query: &AuditedQuery<'a, M>,
    ) -> Result<ProposedAmounts<'a>, AllocError> {
        let versions = query.versions();
        let updates = query.update_count();
        let links = versions.links();
        let count = versions
            .starts()
            .get(updates)
            .map_or(links.len(), |start| *start as usize);
        Ok(ProposedAmounts {
            amounts: costs_of(alloc, query, count)?,
            items: query.items(),
            links,
            starts: versions.starts(),
            accesses: query.linked_accesses(),
            read_count: versions.read_count(),
            reads: UpdateReads::new(alloc),
        })
    }

    /// Returns the amounts of the accesses from an update on.
    pub fn amounts_from(&self, update: u16) -> &[ProposedAmount] {
        let first = self.first_version(update) as usize;
        if first <= self.amounts.len() {
            &self.amounts[first..]
        } else {
            &[]
        }
    }

    /// Returns the links of the accesses of an update.
    pub fn links_of(&self, update: u16) -> &'a [VersionLink] {
        elements_of(self.links, self.starts, update)
    }

    /// Returns the accesses of an update.
    pub fn versions_of(&self, update: u16) -> OwnVersions<'_> {
        OwnVersions {
            first: self.first_version(update),
            links: self.links_of(update),
            amounts: self.amounts_from(update),
        }
    }

    /// Returns the id of the first version of an update.
    fn first_version(&self, update: u16) -> u32 {
        self.starts
            .get(update as usize)
            .map_or(NONE, |start| start.saturating_add(self.items))
    }

    /// Returns the id of the version that a version overwrites, or the id of no version.
    pub fn overwritten(&self, id: u32) -> u32 {
        match id.checked_sub(self.items) {
            None => NONE,
            Some(i) => self
                .links
                .get(i as usize)
                .map_or(NONE, |link| overwritten_id(*link, self.items)),
        }
    }

    /// Returns the amount of the version with an id.
    pub fn amount(&self, id: u32) -> ProposedAmount {
        self.amounts.get(id as usize).copied().unwrap_or(ZERO)
    }

    /// Sets the amount of a version.
    fn set_amount(&mut self, id: u32, amount: u64) {
        let i = id as usize;
        if i < self.amounts.len() {
            self.amounts[i] = self.amounts[i].with_value(amount);
        }
    }

    /// Sets whether the version that a version overwrites has residual capacity.
    fn set_residual(&mut self, id: u32, has_residual: bool) {
        let i = id as usize;
        if i < self.amounts.len() {
            self.amounts[i] = self.amounts[i].with_residual(has_residual);
        }
    }

    /// Lists the reads of the updates, if there are any and they are not listed yet. Only searches need them.
    pub fn list_reads<M: Metric>(
        &mut self,
        alloc: Global,
        query: &AuditedQuery<M>,
        buffer: &mut Vec<Access>,
    ) -> Result<(), AllocError> {
        if 0 < self.read_count && !self.reads.is_listed() {
            self.reads = UpdateReads::of(
                alloc,
                query,
                self.starts,
                self.amounts.len(),
                self.read_count,
                buffer,
            )?;
        }
        Ok(())
    }

    /// Stores the amounts of the reads that have a raise or a loan, and lowers the amounts of the versions by the raises, since each
    /// is now the amount before all readers. The amounts of the other reads are stored already.
    pub fn store_reads(&mut self) {
        for r in 0..to_u32_or_max(self.reads.len()) {
            let Some(read) = self.reads.get(r) else {
                return;
            };
            if read.raise == 0 && read.loan == 0 {
                continue;
            }
            let amount = OFFSET.saturating_add(read.raise).saturating_sub(read.loan);
            self.set_amount(read.id, amount);
            let lowered = self.amount(read.version).value().saturating_sub(read.raise);
            self.set_amount(read.version, lowered);
        }
    }

    /// Returns whether an update that the sweep has passed overwrites a target. The sweep is at the update `source`.
    pub fn overwrites_target(&self, update: u16, source: u16) -> bool {
        let first = self.first_version(update) as usize;
        let end = self.first_version(update.saturating_add(1)) as usize;
        for id in first..end.min(self.amounts.len()) {
            if self.amounts[id].can_increase_overwritten() && self.is_over_target(id, source) {
                return true;
            }
        }
        false
    }

    /// Returns whether the version that a version overwrites is one that the sweep, which is at the update `source`, has not passed.
    fn is_over_target(&self, id: usize, source: u16) -> bool {
        match self.links.get(id.saturating_sub(self.items as usize)) {
            Some(link) => is_before(link.overwritten_writer, source),
            None => false,
        }
    }

    /// Increases the amounts of the targets that an update overwrites, by at most `most` in all. The sweep is at the update `source`.
    /// Returns by how much.
    pub fn fill_targets<M: Metric>(
        &mut self,
        query: &AuditedQuery<M>,
        update: u16,
        source: u16,
        most: u64,
    ) -> u64 {
        let links = self.links_of(update);
        let mut id = self.first_version(update);
        let mut left = most;
        for link in links {
            if left == 0 {
                return most;
            }
            if self.amount(id).can_increase_overwritten()
                && is_before(link.overwritten_writer, source)
            {
                left = left.saturating_sub(self.fill_overwritten(query, id, left));
            }
            id = id.saturating_add(1);
        }
        most.saturating_sub(left)
    }

    /// Increases the amount of the version that a version overwrites, by at most `most` and at most to its cost. Returns by how much.
    fn fill_overwritten<M: Metric>(&mut self, query: &AuditedQuery<M>, id: u32, most: u64) -> u64 {
        let residual = self.overwritten_residual(query, id);
        let part = residual.min(most);
        self.increase_overwritten(id, part, part < residual);
        part
    }

    /// Returns the residual capacity of the version that a version overwrites.
    pub fn overwritten_residual<M: Metric>(&self, query: &AuditedQuery<M>, id: u32) -> u64 {
        let overwritten = self.overwritten(id);
        let amount = self.amount(overwritten).value();
        cost_of(query, self.accesses, overwritten).saturating_sub(amount)
    }

    /// Returns the id of the version by which an update overwrites a version, or `NONE`.
    fn overwriting(&self, id: u32, update: u16) -> u32 {
        let links = self.links_of(update);
        let mut found = self.first_version(update);
        for link in links {
            if overwritten_id(*link, self.items) == id {
                return found;
            }
            found = found.saturating_add(1);
        }
        NONE
    }

    /// Decreases the amount of a version that the sweep has passed, and that an update overwrites.
    pub fn decrease(&mut self, id: u32, less: u64, overwriter: u16) {
        let amount = self.amount(id).value().saturating_sub(less);
        self.set_amount(id, amount);
        self.set_residual(self.overwriting(id, overwriter), true);
    }

    /// Increases the amount of the version that a version overwrites. `has_residual` says whether it can increase further.
    pub fn increase_overwritten(&mut self, id: u32, more: u64, has_residual: bool) {
        let overwritten = self.overwritten(id);
        let amount = self.amount(overwritten).value().saturating_add(more);
        self.set_amount(overwritten, amount);
        self.set_residual(id, has_residual);
    }

    /// Adds to the loan of a read.
    pub fn borrow(&mut self, r: u32, more: u64) {
        let Some(read) = self.reads.get(r) else {
            return;
        };
        self.reads.add_loan(r, more);
        let i = self.overwriting(read.version, read.overwriter) as usize;
        if i < self.amounts.len() {
            self.amounts[i] = self.amounts[i].with_loan();
        }
    }

    /// Distributes the amounts of the versions that an update writes over those that it overwrites. Returns the excess.
    pub fn distribute<M: Metric>(&mut self, query: &AuditedQuery<M>, update: u16) -> u64 {
        let links = self.links_of(update);
        let first = self.first_version(update) as usize;
        if self.amounts.len() < first {
            return 0;
        }
        let (before, own) = self.amounts.split_at_mut(first);
        let sums = sums_of(links, self.items, before, own);
        if sums.overwritten_costs <= sums.written_amounts {
            return sums.written_amounts.saturating_sub(sums.overwritten_costs);
        }
        let offsets = sums.count.saturating_mul(OFFSET);
        let net_amount = sums.written_amounts.saturating_sub(offsets);
        let ratio = ratio_of(net_amount, sums.overwritten_costs.saturating_sub(offsets));
        let rest = share(
            links, self.items, before, own, net_amount, ratio, sums.count,
        );
        if 0 < rest {
            self.fill_targets(query, update, update, rest);
        }
        0
    }
}

/// Returns whether the sweep, which is at the update `source`, has not passed the versions that `writer` wrote; `NOBODY` wrote the
/// opening values.
fn is_before(writer: u16, source: u16) -> bool {
    // one more than `NOBODY` is 0
    writer.wrapping_add(1) <= source
}

/// Appends the cost of the version of each access of an update. The cost of a read is zero.
fn push_costs<M: Metric>(
    query: &AuditedQuery<M>,
    accesses: &[Access],
    costs: &mut Vec<ProposedAmount>,
) -> Result<(), AllocError>
    requires items_in_range { All (λ a. a.item.0 < length query.now.schedule.opening) accesses.now }
    requires values_in_range { All (λ a. IsValue a.value) accesses.now }
{
    for access in accesses {
        let bits = if access.writes {
            query.cost(access.item, access.value)
        } else {
            OFFSET
        };
        costs.push(ProposedAmount { bits })?;
    }
    Ok(())
}

/// Returns the cost of each version by its id, with capacity for `count` accesses.
fn costs_of<M: Metric>(
    alloc: Global,
    query: &AuditedQuery<M>,
    count: usize,
) -> Result<Vec<ProposedAmount>, AllocError> {
    let count = count.saturating_add(query.items() as usize);
    // audits with about as many accesses use blocks of the same size, so the heap reuses the pages of the last one
    let capacity = if count < 1 << 32 {
        count.next_power_of_two()
    } else {
        count
    };
    let mut costs = Vec::with_capacity(alloc, capacity)?;
    for x in (0..query.items()).rev() {
        let bits = query.opening_cost(ItemId(x));
        costs.push(ProposedAmount { bits })?;
    }
    let mut list = Vec::new(alloc);
    for i in 0..query.update_count() {
        let accesses = query.accesses(i, &mut list)?;
        push_costs(query, accesses, &mut costs)?;
    }
    Ok(costs)
}

/// Returns the id of the version that a version with this link overwrites, or the id of no version.
fn overwritten_id(link: VersionLink, items: u32) -> u32 {
    items.wrapping_add(link.overwritten)
}

/// Returns the id of the opening value of an item, if there are this many items.
pub fn opening_id(items: u32, x: u32) -> u32 {
    items.saturating_sub(1).saturating_sub(x)
}

/// Returns the cost of the version with an id, plus the offset. The accesses are those of all committed updates.
fn cost_of<M: Metric>(query: &AuditedQuery<M>, accesses: &[Access], id: u32) -> u64 {
    match id.checked_sub(query.items()) {
        None => query.opening_cost_or_zero(ItemId(opening_id(query.items(), id))),
        Some(i) => match accesses.get(i as usize) {
            Some(access) => query.cost_or_zero(access.item, access.value),
            None => OFFSET,
        },
    }
}

/// Returns the sums of an update. `own` begins with the amounts of its versions, and `before` has those of the versions before
/// them, which are their costs if the update overwrites them. No sum here wraps.
fn sums_of(
    links: &[VersionLink],
    items: u32,
    before: &[ProposedAmount],
    own: &[ProposedAmount],
) -> Sums {
    let mut sums = Sums {
        written_amounts: 0,
        overwritten_costs: 0,
        count: 0,
    };
    // backward like the sweep, since processors prefetch memory best if it is read in one direction
    for j in (0..links.len().min(own.len())).rev() {
        let i = overwritten_id(links[j], items) as usize;
        if i < before.len() {
            sums.written_amounts = sums.written_amounts.wrapping_add(own[j].bits);
            sums.overwritten_costs = sums.overwritten_costs.wrapping_add(before[i].bits);
            sums.count = sums.count.wrapping_add(1);
        }
    }
    sums
}

/// Distributes an amount without offsets over the `count` versions that an update overwrites, in proportion to their costs, which
/// are their amounts so far. The ratio is a fixed-point number in units of 2^-31. The last version takes what rounding leaves
/// over, at most its cost. Returns the rest. No difference and no product here wraps.
fn share(
    links: &[VersionLink],
    items: u32,
    before: &mut [ProposedAmount],
    own: &mut [ProposedAmount],
    net_amount: u64,
    ratio: u64,
    count: u64,
) -> u64 {
    let mut left = net_amount;
    let mut versions_left = count;
    for j in 0..links.len().min(own.len()) {
        let i = overwritten_id(links[j], items) as usize;
        if i < before.len() {
            let cost = before[i].bits.wrapping_sub(OFFSET);
            versions_left = versions_left.wrapping_sub(1);
            let share = if versions_left == 0 {
                left
            } else {
                part_of(cost, ratio)
            };
            let part = share.min(cost).min(left);
            before[i] = ProposedAmount {
                bits: part.wrapping_add(OFFSET),
            };
            if part < cost {
                own[j] = ProposedAmount {
                    bits: own[j].bits | RESIDUAL,
                };
            }
            left = left.wrapping_sub(part);
        }
    }
    left
}

/// Returns the ratio of an amount to a larger sum in units of 2^-31, rounded down.
fn ratio_of(amount: u64, sum: u64) -> u64 {
    let shift = 32u32.saturating_sub(sum.leading_zeros());
    let numerator = (amount >> shift).saturating_mul(1 << 31);
    // the divisor is rounded up, so the ratio is never too large
    let Some(divisor) = (sum >> shift).checked_add(1) else {
        return 0;
    };
    numerator / divisor
}

/// Returns a cost times a ratio, rounded down.
fn part_of(cost: u64, ratio: u64) -> u64 {
    // the product fits in 64 bits in both cases; a large cost loses its last 31 bits
    if cost < 1 << 32 {
        cost.wrapping_mul(ratio) >> 31
    } else {
        (cost >> 31).wrapping_mul(ratio)
    }
}
