// Channels for the meters of a survey: what their table is made for.
// `allows`, `constant_of`, `bits`, `constant` and `encode` read like those of groups: one or two calls each; a trait for
// them would be longer, since each kind has its own limits and plan test.
ghost use Rattle.std.specs.Prelude.{◌≤◌, ◌^◌};

use crate::loads;
use links::Survey;
use qubo::{Decoded, Problem};

/// n channels for the meters of a survey, and the penalty A.
#[derive(Clone, Copy)]
pub struct Channels<'a> {
    /// The meters and links that the table is made for.
    pub survey: Survey<'a>,
    /// How many channels there are.
    pub n: usize,
    /// A, which may have a margin on it.
    pub penalty: u64,
    pub ghost low: { 1 ≤ n },
    pub ghost high: { n ≤ 16 },
    pub ghost small: { penalty ≤ 2 ^ 32 },
}

impl Channels<'_> {
    ghost use Rattle.std.specs.Prelude.{ℕ, ◌≡◌, List};
    ghost use Rattle.links.specs.declared.Link.{Link};
    ghost use Rattle.qubo.specs.Table.{constant_of};
    ghost use Rattle.channels.specs.Formula.{within_limits, penalty, formula};

    /// The least n.
    pub const MIN: u64 = 1;

    /// The greatest n.
    pub const MAX: u64 = 16;

    /// Whether n is within the limits.
    #[tactic(auto, unfolding(crate::specs::Formula::within_limits))]
    pub fn allows(n: u64) -> bool
        ensures { result ≡ within_limits n }
    {
        (Channels::MIN..=Channels::MAX).contains(&n)
    }

    /// A: 1 plus the greatest sum of link weights at one meter.
    pub fn own_penalty(survey: &Survey) -> u64
        ensures { result ≡ penalty survey.now.meters survey.now.links.now }
    {
        1 + loads::greatest_load(&loads::loads_of(survey), survey.meters)
    }

    /// The constant, whatever n and the links are: A for each meter.
    pub fn constant_of(meters: usize, penalty: u64) -> i64
        requires { (meters ≤ 48) × (penalty ≤ 2 ^ 32) }
        ensures { (n : ℕ) (ls : List Link) → result ≡ constant_of (formula penalty meters n ls) }
    {
        (penalty * (meters as u64)) as i64
    }
}

impl Problem for Channels<'_> {
    ghost use Rattle.channels.specs.Instance.{instance};

    ghost instance = { λ c. instance c.penalty c.survey.meters c.n c.survey.links.now };

    fn bits(&self) -> usize {
        onehot::bit_count(self.survey.meters, self.n)
    }

    fn constant(&self) -> i64 {
        Channels::constant_of(self.survey.meters, self.penalty)
    }

    fn row_into(&self, i: usize, row: &mut [i64]) {
        qubo::clear(row);
        onehot::add_one_hots(row, i, self.n, self.penalty);
        self.add_clashes(row, i);
    }

    /// By the formula itself.
    fn energy(&self, bits: &[u8]) -> i64 {
        let missed = onehot::misses_of(bits, self.survey.meters, self.n);
        (self.penalty * missed + self.clashing(bits)) as i64
    }

    fn encode(&self, plan: &[u8], bits: &mut [u8]) -> bool {
        if !onehot::are_choices(plan, self.survey.meters, self.n) {
            return false;
        }
        onehot::encode(plan, self.survey.meters, self.n, bits);
        true
    }

    /// Every assignment decodes to a plan.
    fn decode(&self, bits: &[u8], plan: &mut [u8]) -> Option<Decoded> {
        self.repair_all(bits, plan);
        let weight = onehot::alike_weight(plan, &self.survey);
        let repaired = self.repaired_count(bits);
        Some(Decoded { weight, repaired })
    }
}
