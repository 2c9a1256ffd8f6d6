// Arithmetic and reads that never fail. The sites compared are small, so nothing wraps for them, and no bit that they
// have is past the end. Sums are folds by `wrapping_add` throughout: `sum` would want a bound on each number that is
// added.
// One function for them, `total(numbers: impl Iterator<Item = u64>)`, was tried: it would have to require of each caller that the iterator ends.
ghost use Rattle.std.specs.Prelude.{◌≤◌};

/// (a - b)².
pub fn gap_squared(a: u64, b: u64) -> u64 {
    let gap = a.abs_diff(b);
    gap.wrapping_mul(gap)
}

/// row·width + column, counted from 0.
pub fn index_of(row: usize, width: usize, column: usize) -> usize {
    row.wrapping_mul(width).wrapping_add(column)
}

/// The number before, for those that count from 1.
pub fn before(i: usize) -> usize
    ensures { result ≤ i }
{
    i.saturating_sub(1)
}

/// Bit i, 0 past the end.
pub fn bit_at(bits: &[u8], i: usize) -> u64
    ensures { result ≤ 1 }
{
    match bits.get(i) {
        None | Some(0) => 0,
        Some(_) => 1,
    }
}

/// How many of `count` bits are set, from bit `first` on.
pub fn count_set(bits: &[u8], first: usize, count: usize) -> u64 {
    (0..count)
        .map(|k| bit_at(bits, first.wrapping_add(k)))
        .fold(0, u64::wrapping_add)
}

/// Sets bit i, where there is room for it.
pub fn set_bit(bits: &mut [u8], i: usize) {
    if i < bits.len() {
        bits[i] = 1;
    }
}

/// What a plan has for meter v; `None` for no meter of it.
pub fn of_meter(plan: &[u8], v: usize) -> Option<usize> {
    let k = v.checked_sub(1)?;
    plan.get(k).map(|x| usize::from(*x))
}
