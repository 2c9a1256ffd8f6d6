// Equal groups over a survey, as a problem that a table is made for.
// `allows`, `constant_of`, `bits`, `constant` and `encode` read like those of channels, where the reason stands.
ghost use Rattle.std.specs.Prelude.{◌≤◌, ◌^◌};

use crate::{cuts, sizes};
use links::{Link, Survey};
use qubo::{Decoded, Problem};

/// The meters of a survey in m equally large groups, and the penalty A.
#[derive(Clone, Copy)]
pub struct Groups<'a> {
    /// The meters and links that the table is made for.
    pub survey: Survey<'a>,
    /// How many groups there are.
    pub m: usize,
    /// A, which may have a margin on it.
    pub penalty: u64,
    pub ghost low: { 1 ≤ m },
    pub ghost high: { m ≤ 16 },
    pub ghost small: { penalty ≤ 2 ^ 32 },
}

impl Groups<'_> {
    ghost use Rattle.std.specs.Prelude.{ℕ, ◌≡◌, List, length};
    ghost use Rattle.links.specs.Links.{weights};
    ghost use Rattle.links.specs.declared.Link.{Link};
    ghost use Rattle.qubo.specs.Table.{constant_of};
    ghost use Rattle.groups.specs.Formula.{within_limits, penalty, formula};
    ghost use Rattle.groups.specs.Plans.{is_plan};

    /// The least m.
    pub const MIN: u64 = 2;

    /// The greatest m.
    pub const MAX: u64 = 16;

    /// Whether m is within the limits.
    #[tactic(auto, unfolding(crate::specs::Formula::within_limits))]
    pub fn allows(m: u64) -> bool
        ensures { result ≡ within_limits m }
    {
        (Groups::MIN..=Groups::MAX).contains(&m)
    }

    /// A: 1 plus twice the sum of all weights, whatever the ends of the links are.
    #[tactic(auto, unfolding(crate::specs::Formula::penalty))]
    pub fn own_penalty(links: &[Link]) -> u64
        requires { length links.now ≤ 256 }
        ensures value { result ≡ penalty links.now }
        ensures ends { (ls : List Link) → weights ls ≡ weights links.now → result ≡ penalty ls }
    {
        1 + 2 * links::total_weight(links)
    }

    /// The constant, whatever m and the links are: A for each meter.
    pub fn constant_of(meters: usize, penalty: u64) -> i64
        requires { (meters ≤ 48) × (penalty ≤ 2 ^ 32) }
        ensures { (m : ℕ) (ls : List Link) → result ≡ constant_of (formula penalty meters m ls) }
    {
        (penalty * (meters as u64)) as i64
    }

    /// Whether the bytes are a plan: 1..m each, and all groups equally large.
    pub fn is_plan(plan: &[u8], meters: usize, m: usize) -> bool
        requires { (meters ≤ 48) × (m ≤ 16) }
        ensures { result ≡ is_plan meters m plan.now }
    {
        onehot::are_choices(plan, meters, m) && sizes::members_spread(plan, m) == 0
    }
}

impl Problem for Groups<'_> {
    ghost use Rattle.groups.specs.Instance.{instance};

    ghost instance = { λ c. instance c.penalty c.survey.meters c.m c.survey.links.now };

    fn bits(&self) -> usize {
        onehot::bit_count(self.survey.meters, self.m)
    }

    fn constant(&self) -> i64 {
        Groups::constant_of(self.survey.meters, self.penalty)
    }

    fn row_into(&self, i: usize, row: &mut [i64]) {
        qubo::clear(row);
        onehot::add_one_hots(row, i, self.m, self.penalty);
        self.add_sizes(row, i);
        self.add_cuts(row, i);
    }

    /// The energy by the formula itself.
    fn energy(&self, bits: &[u8]) -> i64 {
        let broken = self.bracket_of(bits);
        let cutting = self.cutting(bits);
        (self.penalty * broken + cutting) as i64
    }

    fn encode(&self, plan: &[u8], bits: &mut [u8]) -> bool {
        if !Groups::is_plan(plan, self.survey.meters, self.m) {
            return false;
        }
        onehot::encode(plan, self.survey.meters, self.m, bits);
        true
    }

    /// Bits code a plan exactly where the bracket is 0, and it is then read off.
    fn decode(&self, bits: &[u8], plan: &mut [u8]) -> Option<Decoded> {
        if self.bracket_of(bits) != 0 {
            return None;
        }
        onehot::read_off(bits, self.survey.meters, self.m, plan);
        let weight = cuts::cut_weight(plan, &self.survey);
        Some(Decoded {
            weight,
            repaired: 0,
        })
    }
}
