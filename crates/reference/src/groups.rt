// Kind 2, groups: penalty, energy and plans. "Bits as for channels, with m."
use crate::choices::{self, Choices};
use crate::numbers;
use crate::sites::Site;

/// "A is 1 plus twice the sum of all weights."
pub fn penalty(site: &Site) -> u64 {
    site.total().wrapping_mul(2).wrapping_add(1)
}

/// How many meters are in group i.
fn size(groups: Choices<'_>, meters: usize, i: usize) -> u64 {
    (1..=meters)
        .map(|v| groups.bit(v, i))
        .fold(0, u64::wrapping_add)
}

/// The sum of (size difference)² over the pairs of group i with a higher one.
fn gaps_above(groups: Choices<'_>, meters: usize, i: usize) -> u64 {
    let own = size(groups, meters, i);
    (1..=groups.n)
        .filter(|j| i < *j)
        .map(|j| numbers::gap_squared(own, size(groups, meters, j)))
        .fold(0, u64::wrapping_add)
}

/// "the sum over pairs of groups of (size difference)²".
fn gaps(groups: Choices<'_>, meters: usize) -> u64 {
    (1..=groups.n)
        .map(|i| gaps_above(groups, meters, i))
        .fold(0, u64::wrapping_add)
}

/// "A times [the sum over meters of (1 - bits set)² plus the sum over pairs of groups of (size difference)²], plus, for
/// each link and group, the weight if exactly one end is in it."
pub fn energy(site: &Site, a: u64, groups: Choices<'_>) -> u64 {
    let meters = site.meters();
    let sums = groups.misses(meters).wrapping_add(gaps(groups, meters));
    a.wrapping_mul(sums).wrapping_add(groups.cut_sum(site))
}

/// How many meters a plan has in group i.
fn members(plan: &[u8], i: usize) -> usize {
    plan.iter()
        .filter(|group| usize::from(**group) == i)
        .count()
}

/// "Groups: 1..m each, all groups equally large (an equal split)".
pub fn is_plan(plan: &[u8], m: usize) -> bool {
    let first = members(plan, 1);
    (1..=m).all(|i| members(plan, i) == first) && choices::in_range(plan, m)
}
