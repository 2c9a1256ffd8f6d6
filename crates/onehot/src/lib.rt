// One-hot choices: each of N meters takes one of the choices 1..n. Channels, groups and trees stand above this.
// A meter's n bits are lent as a part of the assignment by themselves.
#![tactic(auto)]

ghost use Rattle.std.specs.Prelude.{MatchOption, ℕ, ◌+◌, ◌-◌, ◌*◌, ◌≤◌, ◌<◌, ◌^◌, true, ◌≡◌, length, get_or, take, drop};
ghost use Rattle.lists.specs.Sums.{sum_to, lowest, same, differ, gap, nth};
ghost use Rattle.qubo.specs.Formula.{Bits, Assignment};
ghost use Rattle.qubo.specs.Rows.{add_terms, Room};
ghost use Rattle.onehot.specs.Choices.{bit_at, one_hots, miss_squared, misses, are_choices, code, candidate, alike_weight};

use links::Survey;
use qubo::Run;

/// How many bits there are: n for each meter.
pub fn bit_count(meters: usize, n: usize) -> usize
    requires { (meters ≤ 48) × (n ≤ 16) }
    ensures { result ≡ meters * n }
{
    meters * n
}

/// How many bits of a part are set. It is so short that a byte holds the sum, and sums of bytes are quick.
pub fn set_count(part: &[u8]) -> usize
    requires { Bits part.now × (length part.now < 256) }
    ensures { result ≡ sum_to (length part.now) (nth part.now) }
{
    let sum: u8 = part.iter().sum();
    sum as usize
}

/// The lowest choice that is set in a part, from 1.
pub fn lowest_set(part: &[u8]) -> Option<usize>
    ensures { MatchOption result (lowest (length part.now) (nth part.now) ≡ 0) (λ c. (1 ≤ c) × (c ≡ lowest (length part.now) (nth part.now))) }
{
    let first = part.iter().position(|bit| *bit != 0)?;
    Some(first + 1)
}

// The n bits of meter m.
fn part_of(bits: &[u8], m: u8, n: usize) -> &[u8]
    requires { (1 ≤ m) × (m * n ≤ length bits.now) }
    ensures { result.now ≡ take n (drop ((m - 1) * n) bits.now) }
{
    let start = ((m as usize) - 1) * n;
    &bits[start..start + n]
}

// The sum of what f gives at each pair of two parts, at most 1. There are at most 16, so a byte holds the sum, and sums of bytes are quick.
fn pair_sum<F: Fn(u8, u8) -> u8>(part: &[u8], other: &[u8], f: F) -> u64
    requires length { (length other.now ≡ length part.now) × (length part.now ≤ 16) }
    requires calls { (i : ℕ) → i < length part.now → F.pre f (get_or part.now i 0) (get_or other.now i 0) }
    requires small { (i r : ℕ) → i < length part.now → F.post f (get_or part.now i 0) (get_or other.now i 0) r → r ≤ 1 }
    ensures { (g : ℕ → ℕ → ℕ) → ((i r : ℕ) → i < length part.now → F.post f (get_or part.now i 0) (get_or other.now i 0) r → r ≡ g (get_or part.now i 0) (get_or other.now i 0)) → result ≡ sum_to (length part.now) (λ i. g (nth part.now i) (nth other.now i)) }
{
    let mut sum: u8 = 0;
    for (bit, other_bit) in part.iter().zip(other) {
        sum += f(*bit, *other_bit);
    }
    sum as u64
}

/// On how many choices the meters u and v both have their bit set.
pub fn shared(bits: &[u8], u: u8, v: u8, n: usize) -> u64
    requires { (1 ≤ u) × (1 ≤ v) × (u * n ≤ length bits.now) × (v * n ≤ length bits.now) × (n ≤ 16) × Bits bits.now }
    ensures { result ≡ sum_to n (λ i. bit_at n bits.now u i * bit_at n bits.now v i) }
{
    pair_sum(
        part_of(bits, u, n),
        part_of(bits, v, n),
        |bit, other| bit * other,
    )
}

/// On how many choices exactly one of the meters u and v has its bit set.
pub fn unshared(bits: &[u8], u: u8, v: u8, n: usize) -> u64
    requires { (1 ≤ u) × (1 ≤ v) × (u * n ≤ length bits.now) × (v * n ≤ length bits.now) × (n ≤ 16) }
    ensures { result ≡ sum_to n (λ i. differ (bit_at n bits.now u i) (bit_at n bits.now v i)) }
{
    pair_sum(
        part_of(bits, u, n),
        part_of(bits, v, n),
        |bit, other| (bit != other) as u8,
    )
}

/// Adds w to the sum of each choice that is set in a part, which stand in the places 1, 2, ..
pub fn add_part(sums: &mut [u64], part: &[u8], w: u64)
    requires { (length part.now < length sums.old) × (w ≤ 65535) × Bits part.now × ((i : ℕ) → 1 ≤ i → i ≤ length part.now → get_or sums.old i 0 < 4294967296) }
    ensures { (length sums.new ≡ length sums.old) × ((i : ℕ) → 1 ≤ i → i ≤ length part.now → get_or sums.new i 0 ≡ get_or sums.old i 0 + w * nth part.now i) × ((i : ℕ) → get_or sums.new i 0 ≤ get_or sums.old i 0 + w) }
{
    // By index: a zipped `iter_mut` was tried, and what it wrote is not told to a proof.
    for (i, bit) in part.iter().enumerate() {
        sums[i + 1] += w * (*bit as u64);
    }
}

/// (1 - k)².
pub fn miss_squared(k: usize) -> u64
    requires { k ≤ 48 }
    ensures { (result ≡ miss_squared k) × (result ≤ 2209) }
{
    let off = k.abs_diff(1) as u64;
    off * off
}

/// (a - b)².
pub fn gap_squared(a: u64, b: u64) -> u64
    requires { (a ≤ 65535) × (b ≤ 65535) }
    ensures { result ≡ gap a b * gap a b }
{
    let apart = a.abs_diff(b);
    apart * apart
}

/// The sum over meters of (1 - bits set at it)².
pub fn misses_of(bits: &[u8], meters: usize, n: usize) -> u64
    requires { (meters ≤ 48) × (n ≤ 48) × Assignment (meters * n) bits.now }
    ensures { (result ≡ misses meters n (bit_at n bits.now)) × (result ≤ 106032) }
{
    let mut sum = 0;
    // not by `chunks_exact`: n may be 0
    for v in 0..meters {
        let start = v * n;
        sum += miss_squared(set_count(&bits[start..start + n]));
    }
    sum
}

/// Whether the bytes give each of so many meters one of the choices 1..n.
pub fn are_choices(plan: &[u8], meters: usize, n: usize) -> bool
    ensures { result ≡ are_choices meters n plan.now }
{
    plan.len() == meters
        && plan
            .iter()
            .all(|choice| (1..=n).contains(&(*choice as usize)))
}

/// The lowest choice set at each meter, 0 where none is.
// A byte of a plan holds no Option: 0 is no choice.
// `meters` stands beside the plan, whose length it is known to be: the bits are cut by it.
pub fn read_off(bits: &[u8], meters: usize, n: usize, plan: &mut [u8])
    requires { (meters ≤ 48) × (n ≤ 16) × (length bits.now ≡ meters * n) × (length plan.old ≡ meters) }
    ensures { plan.new ≡ candidate meters n bits.now }
{
    // not by `chunks_exact`: n may be 0
    for v in 0..meters {
        let start = v * n;
        let choice = lowest_set(&bits[start..start + n]);
        plan[v] = choice.unwrap_or(0) as u8;
    }
}

/// Makes all bits 0.
// The clause speaks of each entry, as its callers need.
pub fn clear_bits(bits: &mut [u8])
    ensures { (length bits.new ≡ length bits.old) × ((k : ℕ) → get_or bits.new k 0 ≡ 0) }
{
    bits.fill(0);
}

/// The code of a plan; the choice 0 sets no bit of its meter.
// 0 and no Option, and `meters` beside the plan, as in `read_off`.
pub fn encode(plan: &[u8], meters: usize, n: usize, bits: &mut [u8])
    requires { (length plan.now ≡ meters) × ((v : ℕ) → v < meters → get_or plan.now v 0 ≤ n) × (length bits.old ≡ meters * n) }
    ensures { bits.new ≡ code n plan.now }
{
    clear_bits(bits);
    // not by `chunks_exact_mut`: n may be 0
    for (v, choice) in plan.iter().enumerate() {
        if *choice != 0 {
            bits[v * n + ((*choice as usize) - 1)] = 1;
        }
    }
}

/// The weight of all links with the same choice at both ends: what clashes in a plan of channels, and what a plan of groups does not cut.
pub fn alike_weight(plan: &[u8], survey: &Survey) -> u64
    requires { length plan.now ≡ survey.now.meters }
    ensures { result ≡ alike_weight survey.now.links.now plan.now }
{
    let mut sum = 0;
    for link in survey.links {
        if plan[(link.u as usize) - 1] == plan[(link.v as usize) - 1] {
            sum += link.weight as u64;
        }
    }
    sum
}

/// How many meters have each choice: those of choice g are counted in place g of 256, since a choice is a byte.
// A byte holds a count, and an array given back by value is held more than once on the stack.
pub fn count_choices(plan: &[u8]) -> [u8; 256]
    requires { length plan.now ≤ 48 }
    ensures { (length result ≡ 256) × ((g : ℕ) → get_or result g 0 ≡ sum_to (length plan.now) (λ v. same (nth plan.now v) g)) }
{
    let mut counts = [0; 256];
    for choice in plan {
        counts[*choice as usize] += 1;
    }
    counts
}

/// Adds A times the sum over meters of (1 - bits set at it)² to row i, however many meters there are. Bit i belongs to
/// one meter, and only that meter's square has it.
pub fn add_one_hots(row: &mut [i64], i: usize, n: usize, penalty: u64)
    requires { (N : ℕ) × (1 ≤ n) × (i < N * n) × (N * n ≤ i + length row.old) × (N * n ≤ 2 ^ 32) × Room (2 ^ 61) (one_hots penalty N n) row.old }
    ensures { (N : ℕ) → i < N * n → row.new ≡ add_terms (one_hots penalty N n) i row.old }
{
    let first = i - i % n;
    let run = Run {
        start: first,
        step: 1,
        count: n,
    };
    qubo::add_one_hot(row, i, run, penalty as i64);
}
