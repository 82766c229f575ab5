//! Words that are nearly the same.

/// How many bytes two texts have in common from the front on.
fn common_front(one: &[u8], other: &[u8]) -> usize {
    let mut count: usize = 0;
    for (mine, its) in one.iter().zip(other.iter()) {
        if *mine != *its {
            return count;
        }
        count = count.saturating_add(1);
    }
    count
}

/// How many bytes two texts have in common from the end back.
fn common_end(one: &[u8], other: &[u8]) -> usize {
    let mut count: usize = 0;
    for (mine, its) in one.iter().rev().zip(other.iter().rev()) {
        if *mine != *its {
            return count;
        }
        count = count.saturating_add(1);
    }
    count
}

/// Whether one of two words may be meant by the other: it begins with the other, which has three
/// letters or more, or they differ in two letters next to each other at most, and not in the first.
pub(crate) fn is_near(one: &[u8], other: &[u8]) -> bool {
    let shorter = one.len().min(other.len());
    let longer = one.len().max(other.len());
    let front = common_front(one, other);
    if front == shorter && shorter >= 3 {
        return true;
    }
    let same = front.saturating_add(common_end(one, other)).min(shorter);
    front > 0 && same >= 2 && longer.saturating_sub(same) <= 2
}
