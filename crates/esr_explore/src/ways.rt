//! The orders of a search: all of them, or a number of random ones.

ghost use Rattle.std.specs.Prelude.{◌≡◌, ◌≤◌, Some, IfOk, length, map, sum};
ghost use Rattle.esr_plan.specs.declared.draft.TheConstants.{MAX_BLOCKS};
ghost use Rattle.esr_plan.specs.declared.fault.DriveFault.TheVariants.{NoMemory};
ghost use Rattle.esr_explore.specs.Orders.{first_turns};
ghost use Rattle.esr_explore.specs.declared.ways.ExploreFault.TheVariants.{Drive};
ghost use Rattle.esr_explore.specs.Searches.{orders_of};

use crate::count::count_orders;
use crate::draws::draw_order;
use crate::orders::{MAX_ORDERS, all_orders};
use esr_plan::{Call, DriveFault};
use std::alloc::{AllocError, Global};
use std::fmt;

/// The maximum number of lines in blocks if all orders are run.
pub const MAX_LINES: usize = 1_000;

/// The reasons why a search has no result.
#[derive(Clone, Copy)]
pub enum ExploreFault {
    /// A fault of the file, the engine, a device or memory, as for a drive.
    Drive(DriveFault),
    /// More orders than a search can visit: their number, if it can be reported.
    TooManyOrders(Option<u64>),
    /// The blocks have more lines than permitted if all orders are run.
    TooManyLinesInBlocks,
}

impl From<DriveFault> for ExploreFault {
    ghost from_gives = { λ f e. e ≡ Drive f };

    fn from(fault: DriveFault) -> ExploreFault {
        ExploreFault::Drive(fault)
    }
}

impl From<AllocError> for ExploreFault {
    ghost from_gives = { λ _ e. e ≡ Drive NoMemory };

    fn from(_error: AllocError) -> ExploreFault {
        ExploreFault::Drive(DriveFault::NoMemory)
    }
}

impl fmt::Display for ExploreFault {
    fn fmt<W: fmt::Write>(&self, f: &mut fmt::Formatter<W>) -> fmt::Result {
        match *self {
            ExploreFault::Drive(fault) => write!(f, "{fault}"),
            ExploreFault::TooManyOrders(Some(count)) => write!(
                f,
                "{count} interleavings (maximum 100,000 for --all); use --seeds to sample"
            ),
            ExploreFault::TooManyOrders(None) => f.write_str(
                "more than 10^18 interleavings (maximum 100,000 for --all); use --seeds to sample",
            ),
            ExploreFault::TooManyLinesInBlocks => f.write_str(
                "more than 1,000 lines in blocks, too many for --all; use --seeds to sample",
            ),
        }
    }
}

/// The orders that are gone through.
#[derive(Drop)]
pub enum Ways {
    All(Vec<Vec<u8>>),
    Drawn { seeds: u64 },
}

/// Returns the number of lines in each block.
pub fn line_counts(alloc: Global, blocks: &[Vec<Call<'_>>]) -> Result<Vec<u32>, ExploreFault>
    ensures { IfOk result (λ counts. counts.items ≡ map (λ b. length b.items) blocks.now) }
{
    let mut counts = Vec::new(alloc);
    for block in blocks {
        let Ok(lines) = u32::try_from(block.len()) else {
            return Err(ExploreFault::TooManyLinesInBlocks);
        };
        if counts.push(lines).is_err() {
            return Err(ExploreFault::Drive(DriveFault::NoMemory));
        }
    }
    Ok(counts)
}

/// Returns the number of lines in all.
fn sum_of(counts: &[u32]) -> usize
    requires { length counts.now ≤ MAX_BLOCKS }
    ensures { result ≡ sum counts.now }
{
    counts.iter().map(|count| *count as usize).sum()
}

/// Returns whether all orders of this number are visited.
fn is_bounded(count: Option<u64>) -> bool {
    match count {
        Some(count) => count <= MAX_ORDERS as u64,
        None => false,
    }
}

/// Returns all orders of blocks with these numbers of lines, if they are few enough.
pub fn all_ways(alloc: Global, counts: &[u32]) -> Result<Ways, ExploreFault>
    requires { length counts.now ≤ MAX_BLOCKS }
    ensures { IfOk result (λ ways. orders_of ways ≡ Some (first_turns counts.now (sum counts.now))) }
{
    let turns = sum_of(counts);
    let count = count_orders(counts);
    if turns > MAX_LINES {
        return Err(ExploreFault::TooManyLinesInBlocks);
    }
    if !is_bounded(count) {
        return Err(ExploreFault::TooManyOrders(count));
    }
    match all_orders(alloc, counts, turns)? {
        Some(orders) => Ok(Ways::All(orders)),
        None => Err(ExploreFault::TooManyOrders(count)),
    }
}

impl Ways {
    /// Returns the order with a number.
    pub fn order(&self, alloc: Global, counts: &[u32], number: u64) -> Result<Vec<u8>, AllocError>
        requires { length counts.now ≤ MAX_BLOCKS }
    {
        match self {
            Ways::All(orders) => match orders.get(number as usize) {
                Some(order) => Vec::from_slice(alloc, order),
                None => Ok(Vec::new(alloc)),
            },
            Ways::Drawn { seeds: _ } => draw_order(alloc, counts, number),
        }
    }
}
