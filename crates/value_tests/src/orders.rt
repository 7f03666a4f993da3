//! What the tests of orders share.

// The first two places of a rising list whose values don't compare as their places do.
pub(crate) fn misplaced<T: Ord>(rising: &[T]) -> Option<(usize, usize)> {
    for (i, low) in rising.iter().enumerate() {
        for (k, high) in rising.iter().enumerate() {
            if low.cmp(high) != i.cmp(&k) || (low == high) != (i == k) {
                return Some((i, k));
            }
        }
    }
    None
}
