//! Predicates on lists of positions: whether a list is strictly ascending, whether all its numbers are below a bound, and
//! whether it contains a number.
ghost use Rattle.std.specs.Prelude.{◌≡◌, nat_lt, true};
ghost use Rattle.std.specs.List.{list_all};
ghost use Rattle.esr_cert.specs.Problem.{in_set, is_strictly_ascending};

/// Returns whether each number is below the next.
pub fn is_strictly_ascending(numbers: &[u32]) -> bool
    ensures { result ≡ is_strictly_ascending numbers.now }
{
    for i in 1..numbers.len() {
        if numbers[i] <= numbers[i - 1] {
            return false;
        }
    }
    true
}

/// Returns whether all numbers are below n.
pub fn are_below(numbers: &[u32], n: usize) -> bool
    ensures { result ≡ list_all (λ u. nat_lt u n) numbers.now }
{
    numbers.iter().all(|u| (*u as usize) < n)
}

/// Returns whether a strictly ascending list contains a number.
pub fn contains(set: &[u32], number: u32) -> bool
    requires { is_strictly_ascending set.now ≡ true }
    ensures { result ≡ in_set set.now number }
{
    set.binary_search(&number).is_ok()
}
