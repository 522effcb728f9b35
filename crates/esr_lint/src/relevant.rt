//! Finds the word that may have been meant: one that differs only in case, or in one letter that is missing, extra or
//! different, or in two letters that are transposed.

/// Returns the length of the common prefix, in bytes.
fn common_front(left: &[u8], right: &[u8]) -> usize {
    left.iter()
        .zip(right.iter())
        .take_while(|(a, b)| a == b)
        .count()
}

/// Returns the length of the common suffix, in bytes.
fn common_back(left: &[u8], right: &[u8]) -> usize {
    left.iter()
        .rev()
        .zip(right.iter().rev())
        .take_while(|(a, b)| a == b)
        .count()
}

/// Returns the bytes between the common prefix and the common suffix.
fn middle(text: &[u8], front: usize, back: usize) -> &[u8] {
    let following = text.get(front..).unwrap_or(&[]);
    let length = following.len().saturating_sub(back);
    following.get(..length).unwrap_or(&[])
}

/// Returns whether the words differ by a slip of the hand at most.
fn is_relevant(word: &[u8], meant: &[u8]) -> bool {
    if word.eq_ignore_ascii_case(meant) {
        return true;
    }
    let front = common_front(word, meant);
    let back = common_back(
        word.get(front..).unwrap_or(&[]),
        meant.get(front..).unwrap_or(&[]),
    );
    match (middle(word, front, back), middle(meant, front, back)) {
        ([] | [_], [] | [_]) => true,
        ([a, b], [c, d]) => a == d && b == c,
        _ => false,
    }
}

/// Returns the first listed word that may have been meant.
pub fn nearest(word: &[u8], words: &[&'static str]) -> Option<&'static str> {
    for meant in words {
        if is_relevant(word, meant.as_bytes()) {
            return Some(meant);
        }
    }
    None
}
