//! The distances of a plan's items, as a machine opens with them: weight 1 by default.

ghost use Rattle.esr_base.specs.declared.limits.TheConstants.{MAX_ITEMS};
ghost use Rattle.std.specs.Prelude.{◌≡◌, ◌≤◌, All, IfOk, length};
ghost use Rattle.esr_items.specs.Weights.{IsWeight};
ghost use Rattle.esr_plan.specs.Plan.{weights_of};

use esr_items::Weighted;
use std::alloc::{AllocError, Global};

/// Returns the distance by the weights, 1 by default.
pub fn metric_of(alloc: Global, given: &[Option<u32>]) -> Result<Weighted, AllocError>
    requires many { length given.now ≤ MAX_ITEMS }
    requires range { All IsWeight (weights_of given.now) }
    ensures { IfOk result (λ metric. metric ≡ weights_of given.now) }
{
    let weights = given.iter().map(|w| w.unwrap_or(1)).collect(alloc)?;
    match Weighted::new(weights) {
        Ok(metric) => Ok(metric),
        Err(_) => unreachable!(),
    }
}
