//! The values of the items after accesses: the state by which distances are defined.

ghost use Rattle.std.specs.Prelude.{◌≡◌, All};
ghost use Rattle.esr_items.specs.Values.{IsValue};
ghost use Rattle.esr_outcomes.specs.ValuesAfter.{apply_accesses};

use esr_order::Access;

/// Sets the values of the items to those after these accesses.
#[tactic(auto, using(std::proofs::lemmas::List::take_all))]
pub fn apply_accesses(values: &mut Vec<i64>, accesses: &[Access])
    requires { All (λ a. IsValue a.value) accesses.now }
    ensures { values.new.items ≡ apply_accesses values.old.items accesses.now }
{
    for access in accesses {
        let x = access.item.0 as usize;
        if access.writes && x < values.len() {
            values[x] = access.value;
        }
    }
}
