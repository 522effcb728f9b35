//! Lists that are shown in part.

/// Returns the first elements of a list, at most `count`.
///
/// A loop over a slice is proved in half the time of one over `take`, whose iterator each `?` in the loop drops.
pub fn first<T>(list: &[T], count: usize) -> &[T] {
    match list.get(..count) {
        Some(first) => first,
        None => list,
    }
}
