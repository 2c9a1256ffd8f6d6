// The sizes of the groups, in an assignment and in a plan, and what stands in the bracket. The size of group g is in
// place g of 17, since there are no more than 16 groups (a larger array, given back by value, would be three on the
// stack).
ghost use Rattle.std.specs.Prelude.{ℕ, pred, ◌+◌, ◌*◌, ◌≤◌, ◌<◌, ◌≡◌, length, get_or};
ghost use Rattle.lists.specs.Sums.{sum_to, gap};
ghost use Rattle.qubo.specs.Formula.{Assignment};
ghost use Rattle.onehot.specs.Choices.{bit_at};
ghost use Rattle.groups.specs.Sizes.{spread};
ghost use Rattle.groups.specs.Formula.{bit_count, size_in, bracket};
ghost use Rattle.groups.specs.Plans.{members_of};

use crate::Groups;

/// The sum of the squared differences of the size of group h and those of the groups before it.
fn spread_to(sizes: &[u64], h: usize) -> u64
    requires { (1 ≤ h) × (h ≤ 16) × (h < length sizes.now) × ((g : ℕ) → 1 ≤ g → g ≤ h → get_or sizes.now g 0 ≤ 48) }
    ensures { (result ≡ sum_to (pred h) (λ g. gap (get_or sizes.now g 0) (get_or sizes.now h 0) * gap (get_or sizes.now g 0) (get_or sizes.now h 0))) × (result ≤ 34560) }
{
    let last = sizes[h];
    let mut sum = 0;
    for size in &sizes[1..h] {
        sum += onehot::gap_squared(*size, last);
    }
    sum
}

/// The sum over pairs of groups of (size difference)².
fn spread_of(sizes: &[u64], m: usize) -> u64
    requires { (m ≤ 16) × (m < length sizes.now) × ((g : ℕ) → 1 ≤ g → g ≤ m → get_or sizes.now g 0 ≤ 48) }
    ensures { (result ≡ spread m (λ g. get_or sizes.now g 0)) × (result ≤ 552960) }
{
    let mut sum = 0;
    // By number: h is a group, and all before it are compared with it.
    for h in 1..=m {
        sum += spread_to(sizes, h);
    }
    sum
}

impl Groups<'_> {
    /// The sizes of the groups in an assignment, meter by meter.
    // Bits are lent beside the struct: it is made before they are known.
    fn gather_sizes(&self, bits: &[u8]) -> [u64; 17]
        requires { Assignment (bit_count self.now.survey.meters self.now.m) bits.now }
        ensures { (length result ≡ 17) × ((g : ℕ) → 1 ≤ g → g ≤ self.now.m → get_or result g 0 ≡ size_in self.now.survey.meters (bit_at self.now.m bits.now) g) }
    {
        let mut sizes = [0; 17];
        for part in bits.chunks_exact(self.m) {
            onehot::add_part(&mut sizes, part, 1);
        }
        sizes
    }

    /// What stands in the bracket: the sum over meters of (1 - bits set)² plus the sum over pairs of groups of (size
    /// difference)².
    // Bits are lent beside the struct: it is made before they are known.
    pub(crate) fn bracket_of(&self, bits: &[u8]) -> u64
        requires { Assignment (bit_count self.now.survey.meters self.now.m) bits.now }
        ensures { (result ≡ bracket self.now.survey.meters self.now.m (bit_at self.now.m bits.now)) × (result ≤ 658992) }
    {
        let sizes = self.gather_sizes(bits);
        let missed = onehot::misses_of(bits, self.survey.meters, self.m);
        missed + spread_of(&sizes, self.m)
    }
}

/// The sum over pairs of groups of (size difference)² in a plan: 0 exactly where all groups are equally large.
pub fn members_spread(plan: &[u8], m: usize) -> u64
    requires { (length plan.now ≤ 48) × (m ≤ 16) }
    ensures { result ≡ spread m (members_of (length plan.now) plan.now) }
{
    // Bytes, one for each number that a byte can be: the groups' own are taken out.
    let counts = onehot::count_choices(plan);
    let mut sizes = [0; 17];
    // By index: what an adapter of `iter_mut` wrote is not told to a proof.
    for g in 0..sizes.len() {
        sizes[g] = counts[g] as u64;
    }
    spread_of(&sizes, m)
}
