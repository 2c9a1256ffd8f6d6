// Table arithmetic: the rows of a table are filled term by term.
// A row is lent as a slice: its first number is that of bit i, the next ones are those of the pairs (i, i + 1), (i, i + 2), ..
// Each adder leaves "row i with that term added" and does nothing, in constant time, where bit i does not occur in the term.
// `Room` says that no sum overflows: it follows from the norm of the formula whose terms are added.
// A row and its number stay two parameters: a fact beside a `&mut` in a struct is not covered by the check.
#![tactic(auto)]

ghost use Rattle.std.specs.Prelude.{MatchOption, [], ◌∷◌, ◌≡◌, ◌+◌, ◌<◌, ◌≤◌, ◌^◌, length, get_or, pos, nat_abs};
ghost use Rattle.qubo.specs.Table.{only, coef};
ghost use Rattle.qubo.specs.Terms.{single, pair, unequal, times};
ghost use Rattle.qubo.specs.Rows.{zeros, plus, add_terms, run_sum, run_one_hot, run_difference, RunBelow, IsNumber, later, Room};

/// The bits start, start + step, start + 2 step, ..: count of them.
#[derive(Clone, Copy, Debug, PartialEq, Eq)]
pub struct Run {
    pub start: usize,
    pub step: usize,
    pub count: usize,
}

mod problem;

pub use problem::{Decoded, Problem};

/// Makes a row of zeros.
// For its contract alone: the adders start from a row of zeros.
#[tactic(auto, using(crate::proofs::Turns::all_zero))]
pub fn clear(row: &mut [i64])
    ensures { row.new ≡ zeros (length row.old) }
{
    row.fill(0);
}

// Adds the amount at place k.
#[tactic(auto, using(crate::proofs::Sets::add_at))]
fn add_at(row: &mut [i64], k: usize, amount: i64)
    requires k_in_bounds { k < length row.old }
    requires amount_bound { nat_abs (get_or row.old k (pos 0)) + nat_abs amount < 2 ^ 63 }
    ensures { row.new ≡ plus row.old (only k amount) }
{
    row[k] += amount;
}

/// Adds the coefficient times a bit to row i.
#[tactic(auto, using(crate::proofs::Sets::add_single))]
pub fn add_single(row: &mut [i64], i: usize, bit: usize, coefficient: i64)
    requires { (bit < i + length row.old) × Room (2 ^ 61) (single coefficient bit ∷ []) row.old }
    ensures { row.new ≡ add_terms (single coefficient bit ∷ []) i row.old }
{
    if i == bit {
        add_at(row, 0, coefficient);
    }
}

// Adds the coefficient times bit i times the other bit to row i: a pair stands in the row of its lower bit.
#[tactic(auto, using(crate::proofs::Sets::add_to_own))]
fn add_to_own(row: &mut [i64], i: usize, other: usize, coefficient: i64)
    requires { (other < i + length row.old) × Room (2 ^ 61) (pair coefficient i other ∷ []) row.old }
    ensures { row.new ≡ add_terms (pair coefficient i other ∷ []) i row.old }
{
    if i <= other {
        add_at(row, other - i, coefficient);
    }
}

/// Adds the coefficient times a bit times the other bit to row i.
#[tactic(auto, using(crate::proofs::Sets::add_pair))]
pub fn add_pair(row: &mut [i64], i: usize, bit: usize, other: usize, coefficient: i64)
    requires { (bit < i + length row.old) × (other < i + length row.old) × Room (2 ^ 61) (pair coefficient bit other ∷ []) row.old }
    ensures { row.new ≡ add_terms (pair coefficient bit other ∷ []) i row.old }
{
    if bit == i {
        add_to_own(row, i, other, coefficient);
    } else if other == i {
        add_to_own(row, i, bit, coefficient);
    }
}

// Adds the coefficient times (bit i - the higher bit)² to row i.
#[tactic(auto, using(crate::proofs::Sets::add_own_unequal))]
fn add_own_unequal(row: &mut [i64], i: usize, higher: usize, coefficient: i64)
    requires { (i < higher) × (higher < i + length row.old) × Room (2 ^ 61) (unequal coefficient i higher ∷ []) row.old }
    ensures { row.new ≡ add_terms (unequal coefficient i higher ∷ []) i row.old }
{
    let twice = 2 * coefficient;
    add_single(row, i, i, coefficient);
    add_to_own(row, i, higher, -twice);
}

/// Adds the coefficient times (the lower bit - the higher bit)² to row i: the coefficient if exactly one of them is set.
/// Their pair stands in the row of the lower one.
#[tactic(auto, using(crate::proofs::Sets::add_unequal))]
pub fn add_unequal(row: &mut [i64], i: usize, lower: usize, higher: usize, coefficient: i64)
    requires { (lower < higher) × (higher < i + length row.old) × Room (2 ^ 61) (unequal coefficient lower higher ∷ []) row.old }
    ensures { row.new ≡ add_terms (unequal coefficient lower higher ∷ []) i row.old }
{
    if higher == i {
        add_single(row, i, i, coefficient);
    } else if lower == i {
        add_own_unequal(row, i, higher, coefficient);
    }
}

/// Adds the coefficient times bit i times the number of bits set in a run to row i.
#[tactic(auto, using(crate::proofs::Sets::add_run))]
pub fn add_run(row: &mut [i64], i: usize, run: Run, coefficient: i64)
    requires { RunBelow run (i + length row.old) × Room (2 ^ 61) (times coefficient i (run_sum run) ∷ []) row.old }
    ensures { row.new ≡ add_terms (times coefficient i (run_sum run) ∷ []) i row.old }
{
    // By its number in the run: a range with a step has no such end of its own.
    for t in 0..run.count {
        add_to_own(row, i, run.start + t * run.step, coefficient);
    }
}

impl Run {
    // The number of bit i in the run, from 0.
    fn number_of(self, i: usize) -> Option<usize>
        requires { 1 ≤ self.step }
        ensures { MatchOption result (coef (run_sum self) i ≡ pos 0) (λ t. IsNumber self i t) }
    {
        if i < self.start {
            return None;
        }
        let off = i - self.start;
        let t = off / self.step;
        (off % self.step == 0 && t < self.count).then_some(t)
    }

    // The bits of the run after bit i, which has number t in it.
    fn after(self, i: usize, t: usize) -> Run
        requires { (t < self.count) × (i + self.step ≤ 2 ^ 63) }
        ensures { result ≡ later self i t }
    {
        Run {
            start: i + self.step,
            step: self.step,
            count: self.count - (t + 1),
        }
    }
}

// Adds the factor times (1 - bits set in a run)² to row i, where bit i has number t in the run.
#[tactic(auto, using(crate::proofs::Sets::add_own_one_hot))]
fn add_own_one_hot(row: &mut [i64], i: usize, run: Run, t: usize, factor: i64)
    requires { IsNumber run i t × RunBelow run (i + length row.old) × Room (2 ^ 61) (run_one_hot factor run ∷ []) row.old }
    ensures { row.new ≡ add_terms (run_one_hot factor run ∷ []) i row.old }
{
    let twice = 2 * factor;
    let rest = run.after(i, t);
    add_single(row, i, i, -factor);
    add_run(row, i, rest, twice);
}

/// Adds the factor times (1 - bits set in a run)² to row i.
pub fn add_one_hot(row: &mut [i64], i: usize, run: Run, factor: i64)
    requires { RunBelow run (i + length row.old) × Room (2 ^ 61) (run_one_hot factor run ∷ []) row.old }
    ensures { row.new ≡ add_terms (run_one_hot factor run ∷ []) i row.old }
{
    if let Some(t) = run.number_of(i) {
        add_own_one_hot(row, i, run, t, factor);
    }
}

// Adds the factor times (bits set in `own` - bits set in `other`)² to row i, where bit i has number t in `own` and is not in `other`.
#[tactic(auto, using(crate::proofs::Sets::add_own_difference))]
fn add_own_difference(row: &mut [i64], i: usize, own: Run, t: usize, other: Run, factor: i64)
    requires number { IsNumber own i t × (coef (run_sum other) i ≡ pos 0) }
    requires run_below { RunBelow own (i + length row.old) × RunBelow other (i + length row.old) × Room (2 ^ 61) (run_difference factor own other ∷ []) row.old }
    ensures { row.new ≡ add_terms (run_difference factor own other ∷ []) i row.old }
{
    let same = 2 * factor;
    let rest = own.after(i, t);
    add_single(row, i, i, factor);
    add_run(row, i, rest, same);
    add_run(row, i, other, -same);
}

/// Adds the factor times (bits set in `left` - bits set in `right`)² to row i.
// No caller yet: gateways will need it.
pub fn add_squared_difference(row: &mut [i64], i: usize, left: Run, right: Run, factor: i64)
    requires { RunBelow left (i + length row.old) × RunBelow right (i + length row.old) × Room (2 ^ 61) (run_difference factor left right ∷ []) row.old }
    ensures { row.new ≡ add_terms (run_difference factor left right ∷ []) i row.old }
{
    match (left.number_of(i), right.number_of(i)) {
        (Some(s), None) => add_own_difference(row, i, left, s, right, factor),
        (None, Some(t)) => add_own_difference(row, i, right, t, left, factor),
        // in both runs the bit cancels out
        (Some(_), Some(_)) => {}
        (None, None) => {}
    }
}
