//! The number of orders: a multinomial coefficient, line by line. Each quotient is an integer, since it counts the
//! orders of the lines so far.

/// The largest count that is reported.
const MAX_REPORTED: u128 = 1_000_000_000_000_000_000;

/// Returns the count with one more block, of `lines` lines, after the others.
fn count_block(count: u128, before: u64, lines: u32) -> Option<u128> {
    let mut count = count;
    for i in 1..=lines {
        let all = u128::from(before).saturating_add(u128::from(i));
        count = count.saturating_mul(all) / u128::from(i);
        if count > MAX_REPORTED {
            return None;
        }
    }
    Some(count)
}

/// Returns the number of orders of blocks with these numbers of lines, or `None` if it is above 10^18.
pub fn count_orders(counts: &[u32]) -> Option<u64> {
    let mut count = 1u128;
    let mut before = 0u64;
    for lines in counts {
        count = count_block(count, before, *lines)?;
        before = before.saturating_add(u64::from(*lines));
    }
    u64::try_from(count).ok()
}
