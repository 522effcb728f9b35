//! Implements a metric by reference: the machine of a replay borrows the metric of the history.

use esr_items::{ItemId, Metric};

/// The distances of a metric that another value owns.
#[derive(Drop)]
pub struct MetricRef<'a, M: Metric>(pub &'a M);

impl<'a, M: Metric> Metric for MetricRef<'a, M> {
    ghost weights = { λ m. M.weights m.0.now };

    ghost distance_by = { M.distance_by };

    fn distance(&self, x: ItemId, a: i64, b: i64) -> u64 {
        self.0.distance(x, a, b)
    }

    ghost zero = { M.zero };

    ghost same = { M.same };

    ghost symmetric = { M.symmetric };

    ghost triangle = { M.triangle };

    ghost bounded = { M.bounded };
}
